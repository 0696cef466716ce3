//! The call that a step makes.

ghost use Rattle.std.specs.Prelude.{◌≡◌, ◌≢◌, IfOk, OnOk, OnErr, Ok, Err};
ghost use Rattle.std.specs.Result.{result_ok};
ghost use Rattle.ns_calls.specs.Steps.{datagram_call};
ghost use Rattle.ns_exchange.specs.declared.answer.AnsFault.TheVariants.{NoMemory};
ghost use Rattle.ns_acts.specs.declared.step.Act.TheVariants.{Answer};
ghost use Rattle.ns_acts.specs.Lent.{act_lent};
ghost use Rattle.ns_acts.specs.Calls.{call_of, outcome_of};

use crate::step::LentAct;
use ns_calls::{Call, DataFrame, JoinAns, Outcome};
use ns_exchange::AnsFault;
use ns_joinwire::join_ans;
use ns_link::read_datagram;
use ns_types::Ticket;
use ns_views::{PhyView, view};
use std::alloc::{AllocError, Global};

// How asking a join server ended, by what its body is read as. Only want of memory leaves it open.
fn outcome_of(read: Result<JoinAns, AnsFault>) -> Result<Outcome, AllocError>
    ensures outcome { IfOk result (λ o. o ≡ outcome_of read) }
    ensures memory { OnErr result (read ≡ Err NoMemory) }
    ensures known { OnOk result (read ≢ Err NoMemory) }
{
    match read {
        Ok(join) => Ok(Outcome::Success(join)),
        Err(AnsFault::NoMemory) => Err(AllocError),
        Err(_) => Ok(Outcome::Failed),
    }
}

/// The call of a join server's answer with this body. It stays a function of its own, so that the other calls make no room for its keys.
#[inline(never)]
pub fn answer_call(alloc: Global, ticket: &Ticket, body: &[u8]) -> Result<Call, AllocError>
    ensures { IfOk result (λ c. Ok c ≡ call_of (Answer ticket.now body.now)) }
{
    let read = join_ans(alloc, body, ticket.transaction());
    Ok(Call::JoinReply {
        ticket: *ticket,
        outcome: outcome_of(read)?,
    })
}

// Puts the call of a datagram, where it makes one, in the place of another.
#[inline(always)]
fn datagram_call_into(bytes: &[u8], call: &mut Option<Call>)
    ensures { call.new ≡ result_ok (datagram_call bytes.now) }
{
    let Ok(datagram) = read_datagram(bytes) else {
        *call = None;
        return;
    };
    let heard = datagram.heard();
    match view(datagram.frame()) {
        Ok(PhyView::Join(frame)) => {
            let ticket = frame.ticket();
            *call = Some(Call::Join { ticket, heard });
        }
        Ok(PhyView::Frame(frame)) => {
            let frame = DataFrame::of(&frame);
            *call = Some(Call::Uplink { frame, heard });
        }
        Err(_) => *call = None,
    }
}

/// Puts the call of a step, where it makes one, in the place of another: a call is large, and so is not moved.
pub fn call_into(
    alloc: Global,
    act: &LentAct<'_>,
    call: &mut Option<Call>,
) -> Result<(), AllocError>
    ensures { OnOk result (call.new ≡ result_ok (call_of (act_lent act.now))) }
{
    match act {
        LentAct::Datagram(bytes) => datagram_call_into(bytes, call),
        LentAct::Answer { ticket, body } => *call = Some(answer_call(alloc, ticket, body)?),
        LentAct::Lost { ticket } => {
            *call = Some(Call::JoinReply {
                ticket: *ticket,
                outcome: Outcome::Failed,
            });
        }
        LentAct::Close(window) => *call = Some(Call::Close { window: *window }),
    }
    Ok(())
}

/// The call of a step, where it makes one.
pub fn call_of(alloc: Global, act: &LentAct<'_>) -> Result<Option<Call>, AllocError>
    ensures { IfOk result (λ c. c ≡ result_ok (call_of (act_lent act.now))) }
{
    let mut call = None;
    call_into(alloc, act, &mut call)?;
    Ok(call)
}
