//! The datagrams that the body of a PUSH_DATA becomes.

ghost use Rattle.std.specs.Prelude.{◌≡◌, map, Ok, IfOk, IfErr, OnOk, OnErr};
ghost use Rattle.ns_types.specs.Results.{Gives};
ghost use Rattle.ns_link.specs.Datagram.{up_datagram, datagram_of};
ghost use Rattle.ns_forwarder.specs.declared.fault.ForwarderFault.TheVariants.{NoMemory};
ghost use Rattle.ns_forwarder.specs.Push.{push_of};
ghost use Rattle.ns_forwarder.specs.Handed.{AreOfBand, heard_from, clock_from, handed_view, handed_of};
ghost use Rattle.ns_forwarder.specs.Held.{item_view, push_view};

use crate::clock::Clock;
use crate::push::read_push;
use crate::{ForwarderFault, LeftOut, Push};
use ns_types::GatewayId;
use std::alloc::Global;

/// What the body of a PUSH_DATA is handed on as.
#[derive(Drop)]
pub struct Handed {
    /// The datagrams of its frames, in the order of their items.
    pub datagrams: Vec<Vec<u8>>,
    /// Why each of the other items is left out (F7 to F10), in order.
    pub left_out: Vec<LeftOut>,
}

impl Push {
    /// The datagrams of the frames, in order, from a gateway at a time in microseconds by this machine's clock, which only rises: each at
    /// the moment of its counter by the gateway's clock, which follows each. NoMemory where memory ran out, and then the clock is as it
    /// was. What `read_push` gives meets the condition.
    pub fn datagrams(
        &self,
        alloc: Global,
        gateway: GatewayId,
        clock: &mut Clock,
        now: u64,
    ) -> Result<Vec<Vec<u8>>, ForwarderFault>
        requires { AreOfBand self.now.items.items }
        ensures are { IfOk result
            (λ v. map (λ d. d.items) v.items ≡ map (λ h. up_datagram h.0 h.1) (heard_from (push_view self.now).items gateway clock.old now)) }
        ensures read_back { IfOk result
            (λ v. map (λ d. datagram_of d.items) v.items ≡ map (λ h. Ok h) (heard_from (push_view self.now).items gateway clock.old now)) }
        ensures follows { OnOk result (clock.new ≡ clock_from (push_view self.now).items clock.old now) }
        ensures memory { IfErr result (λ e. e ≡ NoMemory) }
        ensures unchanged { OnErr result (clock.new ≡ clock.old) }
    {
        let mut follows = *clock;
        let mut datagrams = Vec::with_capacity(alloc, self.items.len())?;
        for item in &self.items {
            let moment = follows.read(item.counter, now);
            datagrams.push(item.datagram(alloc, gateway, moment)?)?;
        }
        *clock = follows;
        Ok(datagrams)
    }
}

/// Reads the body of a PUSH_DATA, as `read_push` does, and gives the datagrams that its frames become (`Push::datagrams`). Where it is
/// refused, the clock is as it was.
pub fn hand_on(
    alloc: Global,
    gateway: GatewayId,
    body: &[u8],
    clock: &mut Clock,
    now: u64,
) -> Result<Handed, ForwarderFault>
    ensures gives { Gives NoMemory handed_view result (handed_of body.now gateway clock.old now) }
    ensures read_back { IfOk result (λ h. IfOk (push_of body.now)
        (λ p. map (λ d. datagram_of d.items) h.datagrams.items ≡ map (λ h. Ok h) (heard_from p.items gateway clock.old now))) }
    ensures follows { OnOk result (IfOk (push_of body.now) (λ p. clock.new ≡ clock_from p.items clock.old now)) }
    ensures unchanged { OnErr result (clock.new ≡ clock.old) }
{
    let push = read_push(alloc, body)?;
    let datagrams = push.datagrams(alloc, gateway, clock, now)?;
    Ok(Handed {
        datagrams,
        left_out: push.left_out,
    })
}
