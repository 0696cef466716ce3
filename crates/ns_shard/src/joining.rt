//! What comes of a Join-Request, and of the answer to one.

ghost use Rattle.std.specs.Prelude.{◌≡◌};
ghost use Rattle.ns_sessions.specs.Laws.{join_decision_reply};
ghost use Rattle.ns_types.specs.declared.heard.Heard.{Heard};
ghost use Rattle.ns_types.specs.Ticket.{dev_eui};
ghost use Rattle.ns_calls.specs.declared.call.Call.TheVariants.{Join};
ghost use Rattle.ns_devices.specs.Devices.{with_change_of, with_join_of, after_answer};
ghost use Rattle.ns_shard.specs.Private.Sending.{reply_of};
ghost use Rattle.ns_shard.specs.Private.Room.{opening_event};
ghost use Rattle.ns_shard.specs.Private.Reaction.{accept_downlink, answer_ended, shard_join_reply, shard_answer_ended};

use crate::event::{Ended, Event};
use ns_calls::{Downlink, Outcome, Reply};
use ns_devices::Devices;
use ns_sent::accept_at;
use ns_sessions::{AnswerDecision, JoinDecision};
use ns_types::{DevAddr, Heard, Ticket};

// What came of a Join-Request of a known device.
fn join_event(ticket: &Ticket, decision: JoinDecision) -> Event
    ensures reply { reply_of result ≡ join_decision_reply ticket.now decision }
    ensures opened { (heard : Heard) → result ≡ opening_event (Join ticket.now heard) (reply_of result) }
{
    match decision {
        JoinDecision::Ask => Event::Opened(Reply::Ask { ticket: *ticket }),
        JoinDecision::Copied(place) => Event::Quiet(Reply::JoinCopied { place }),
        JoinDecision::Crowded => Event::Quiet(Reply::JoinCrowded),
        JoinDecision::Old(greatest) => Event::Quiet(Reply::NonceOld { greatest }),
        JoinDecision::Busy => Event::Quiet(Reply::JoinBusy),
    }
}

// The Join-Accept that goes out, at RX1 of a copy.
fn accept_downlink(outcome: &Outcome, heard: &Heard) -> Option<Downlink>
    ensures { result ≡ accept_downlink outcome.now heard.now }
{
    match outcome {
        Outcome::Success(join) => Some(accept_at(join, heard)),
        Outcome::Failed => None,
    }
}

// What a join server's answer ended, for a device with this address.
fn answer_ended(
    addr: DevAddr,
    ticket: &Ticket,
    outcome: &Outcome,
    decision: AnswerDecision,
) -> Option<Ended>
    ensures { result ≡ answer_ended addr ticket.now outcome.now decision }
{
    match decision {
        AnswerDecision::NoTicket => None,
        AnswerDecision::Refused => Some(Ended::Answered {
            reply: Reply::JoinRefused,
            downlink: None,
        }),
        AnswerDecision::Stale(greatest) => Some(Ended::Answered {
            reply: Reply::JoinStale { greatest },
            downlink: None,
        }),
        AnswerDecision::Accepted { session, best } => Some(Ended::Answered {
            reply: Reply::Accepted {
                eui: ticket.dev_eui(),
                session,
                addr,
            },
            downlink: accept_downlink(outcome, &best),
        }),
    }
}

/// Takes a Join-Request, which is of one of the devices where DevEUI and JoinEUI are.
pub fn join(devices: &mut Devices, ticket: &Ticket, heard: &Heard) -> Event
    ensures reply { reply_of result ≡ shard_join_reply devices.old ticket.now }
    ensures opened { result ≡ opening_event (Join ticket.now heard.now) (reply_of result) }
    ensures devices { devices.new ≡ with_join_of ticket.now heard.now devices.old }
{
    match devices.join(ticket, heard) {
        Some(decision) => join_event(ticket, decision),
        None => Event::Quiet(Reply::NoDevice),
    }
}

/// Takes a join server's answer, which ends its ticket where that is open. It takes no memory.
pub fn answer(devices: &mut Devices, ticket: &Ticket, outcome: &Outcome) -> Option<Ended>
    ensures ended { result ≡ shard_answer_ended devices.old ticket.now outcome.now }
    ensures devices { devices.new ≡ with_change_of (dev_eui ticket.now) (after_answer ticket.now outcome.now) devices.old }
{
    let (addr, decision) = devices.answer(ticket, outcome)?;
    answer_ended(addr, ticket, outcome, decision)
}
