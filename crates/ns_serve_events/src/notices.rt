//! Joins and acknowledgements, told as lines of their own.
ghost use Rattle.std.specs.Prelude.{IfSome};
ghost use Rattle.ns_serve_events.specs.Notices.{IsNoticeOf};

use ns_calls::{Downlink, Reply};
use ns_events::{Text, ack_json, join_json};
use ns_log::{Log, warn};
use ns_output::Utc;
use ns_outside::Receipt;
use ns_serve_parts::{EventLines, utc_of};
use ns_serve_state::State;
use ns_types::DevAddr;
use std::sync::{Mutex, Wait};
use std::time::Clock;

// The moment now, by the wall clock, if there is one.
fn utc_now<R: Clock>(rt: &R) -> Option<Utc> {
    utc_of(rt.since_1970().ok()?)
}

// The DevAddr in the frame of a downlink (LoRaWAN L2 1.0.4, 4.3.1).
fn address_in(downlink: &Downlink) -> DevAddr {
    match downlink.frame.as_slice() {
        [_, a, b, c, d, ..] => DevAddr(u32::from_le_bytes([*a, *b, *c, *d])),
        _ => DevAddr(0),
    }
}

// The object of the join or the acknowledgement that a receipt tells, if it tells one.
#[tactic(auto, using(crate::proofs::NoticeLemmas::is_join, crate::proofs::NoticeLemmas::is_ack))]
fn notice_of(time: &Option<Utc>, receipt: &Receipt) -> Option<Text>
    ensures { IfSome result (λ text. IsNoticeOf time.now receipt.now text.bytes) }
{
    match (&receipt.entry.reply, &receipt.downlink) {
        (Reply::Accepted { eui, session, addr }, _) => Some(join_json(time, *eui, *addr, *session)),
        (Reply::Closed { window, .. }, Some(downlink)) => {
            let addr = address_in(downlink);
            Some(ack_json(time, window, addr, downlink.target.gateway))
        }
        _ => None,
    }
}

// Whether a receipt tells a join or an acknowledgement.
fn has_notice(receipt: &Receipt) -> bool {
    match (&receipt.entry.reply, &receipt.downlink) {
        (Reply::Accepted { .. }, _) | (Reply::Closed { .. }, Some(_)) => true,
        _ => false,
    }
}

// Keeps the line of the join or the acknowledgement that a receipt tells, if it tells one.
#[inline(never)]
fn put_notice<R: Clock + Wait + Log>(rt: &R, notices: &Mutex<EventLines>, receipt: &Receipt) {
    let Some(text) = notice_of(&utc_now(rt), receipt) else {
        return;
    };
    if !notices.lock(rt).put(text.as_str()) {
        warn!(rt; "a join or an acknowledgement is not written: too many wait, or there is no memory");
    }
}

/// Keeps the line of the join or the acknowledgement that a receipt tells, where such lines are written. It is lost where it cannot be
/// kept.
pub fn note_event<R: Clock + Wait + Log>(rt: &R, state: &State, receipt: &Receipt) {
    // (the room of a line is cleared at the begin of the function that has it)
    if let Some(notices) = &state.notices {
        if has_notice(receipt) {
            put_notice(rt, notices, receipt);
        }
    }
}

/// The lines of joins and acknowledgements that wait, which wait no longer.
pub fn take_notices<R: Wait>(rt: &R, state: &State) -> Vec<u8> {
    match &state.notices {
        Some(notices) => notices.lock(rt).take(state.alloc),
        None => Vec::new(state.alloc),
    }
}
