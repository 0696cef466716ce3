//! What a message of a forwarder becomes.

ghost use Rattle.std.specs.Prelude.{◌≡◌};
ghost use Rattle.ns_types.specs.Results.{Gives};
ghost use Rattle.ns_forwarder.specs.declared.fault.ForwarderFault.TheVariants.{NoMemory};
ghost use Rattle.ns_forwarder_socket.specs.Taken.{taken_view, taken_of};

use ns_forwarder::{Clock, ForwarderFault, Handed, Kind, Message, Outcome, hand_on, read_tx_ack};
use std::alloc::Global;

/// What a message becomes.
#[derive(Drop)]
pub enum Taken {
    /// A PUSH_DATA: what its body is handed on as, and the gateway's clock from then on.
    Handed(Handed, Clock),
    /// A PULL_DATA: downlinks for the gateway go to where it came from.
    Asked,
    /// A TX_ACK: what came of a downlink.
    Told(Outcome),
}

/// What a message becomes that is read at a time in microseconds by this machine's clock, with the gateway's clock before. F5 and F6 where
/// the body of a PUSH_DATA, and F6 where that of a TX_ACK is refused; NoMemory where memory ran out before the answer was known.
pub fn take(
    alloc: Global,
    message: &Message<'_>,
    clock: Clock,
    now: u64,
) -> Result<Taken, ForwarderFault>
    ensures { Gives NoMemory taken_view result (taken_of message.now.0 message.now.1 clock now) }
{
    let head = message.head();
    match head.kind {
        Kind::PushData => {
            let mut follows = clock;
            let handed = hand_on(alloc, head.gateway, message.body(), &mut follows, now)?;
            Ok(Taken::Handed(handed, follows))
        }
        Kind::PullData => Ok(Taken::Asked),
        Kind::TxAck => Ok(Taken::Told(read_tx_ack(alloc, message.body())?)),
    }
}
