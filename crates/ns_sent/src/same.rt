//! Whether two entries, and what goes out with them, are the same.

ghost use Rattle.std.specs.Prelude.{◌≡◌, ◌↔◌, IsTrue};

use ns_calls::{Bytes, Call, Downlink, Entry, JoinAccept, JoinAns, Outcome, Reply, Uplink};
use ns_types::{Heard, Key, Target, Ticket, WindowName};

fn is_window(a: &WindowName, b: &WindowName) -> bool
    ensures { IsTrue result ↔ (a.now ≡ b.now) }
{
    *a == *b
}

fn is_ticket(a: &Ticket, b: &Ticket) -> bool
    ensures { IsTrue result ↔ (a.now ≡ b.now) }
{
    *a == *b
}

fn is_heard(a: &Heard, b: &Heard) -> bool
    ensures { IsTrue result ↔ (a.now ≡ b.now) }
{
    *a == *b
}

fn is_target(a: &Target, b: &Target) -> bool
    ensures { IsTrue result ↔ (a.now ≡ b.now) }
{
    *a == *b
}

fn is_key(a: &Key, b: &Key) -> bool
    ensures { IsTrue result ↔ (a.now ≡ b.now) }
{
    *a == *b
}

fn is_app(a: &Option<Key>, b: &Option<Key>) -> bool
    ensures { IsTrue result ↔ (a.now ≡ b.now) }
{
    *a == *b
}

fn is_accept(a: &JoinAccept, b: &JoinAccept) -> bool
    ensures { IsTrue result ↔ (a.now ≡ b.now) }
{
    *a == *b
}

fn is_reply(a: &Reply, b: &Reply) -> bool
    ensures { IsTrue result ↔ (a.now ≡ b.now) }
{
    *a == *b
}

fn is_bytes<const N: usize>(a: &Bytes<N>, b: &Bytes<N>) -> bool
    ensures { IsTrue result ↔ (a.now ≡ b.now) }
{
    a.as_slice() == b.as_slice()
}

fn is_join_ans(a: &JoinAns, b: &JoinAns) -> bool
    ensures { IsTrue result ↔ (a.now ≡ b.now) }
{
    is_accept(&a.accept, &b.accept) && is_key(&a.nwk, &b.nwk) && is_app(&a.app, &b.app)
}

fn is_outcome(a: &Outcome, b: &Outcome) -> bool
    ensures { IsTrue result ↔ (a.now ≡ b.now) }
{
    match (a, b) {
        (Outcome::Success(a), Outcome::Success(b)) => is_join_ans(a, b),
        (Outcome::Failed, Outcome::Failed) => true,
        (Outcome::Success(_), Outcome::Failed) | (Outcome::Failed, Outcome::Success(_)) => false,
    }
}

fn is_call(a: &Call, b: &Call) -> bool
    ensures { IsTrue result ↔ (a.now ≡ b.now) }
{
    match (a, b) {
        (Call::Uplink { frame, heard }, Call::Uplink { frame: f, heard: h }) => {
            frame.bytes() == f.bytes() && is_heard(heard, h)
        }
        (
            Call::Join { ticket, heard },
            Call::Join {
                ticket: t,
                heard: h,
            },
        ) => { is_ticket(ticket, t) && is_heard(heard, h) }
        (
            Call::JoinReply { ticket, outcome },
            Call::JoinReply {
                ticket: t,
                outcome: o,
            },
        ) => { is_ticket(ticket, t) && is_outcome(outcome, o) }
        (Call::Close { window }, Call::Close { window: w }) => is_window(window, w),
        _ => false,
    }
}

/// Whether two entries are the same.
pub fn is_entry(a: &Entry, b: &Entry) -> bool
    ensures { IsTrue result ↔ (a.now ≡ b.now) }
{
    a.number == b.number && is_call(&a.call, &b.call) && is_reply(&a.reply, &b.reply)
}

fn are_heard(a: &[Heard], b: &[Heard]) -> bool
    ensures { IsTrue result ↔ (a.now ≡ b.now) }
{
    *a == *b
}

fn is_port(a: Option<u8>, b: Option<u8>) -> bool
    ensures { IsTrue result ↔ (a ≡ b) }
{
    a == b
}

fn is_one_uplink(a: &Uplink, b: &Uplink) -> bool
    ensures { IsTrue result ↔ (a.now ≡ b.now) }
{
    is_window(&a.window, &b.window)
        && a.addr.0 == b.addr.0
        && a.confirmed == b.confirmed
        && a.fctrl == b.fctrl
        && is_port(a.port, b.port)
        && is_bytes(&a.fopts, &b.fopts)
        && a.sealed == b.sealed
        && is_bytes(&a.payload, &b.payload)
        && are_heard(a.copies.as_slice(), b.copies.as_slice())
}

/// Whether two uplinks, either of which may be missing, are the same.
pub fn is_uplink(a: &Option<Uplink>, b: &Option<Uplink>) -> bool
    ensures { IsTrue result ↔ (a.now ≡ b.now) }
{
    match (a, b) {
        (Some(a), Some(b)) => is_one_uplink(a, b),
        (None, None) => true,
        (Some(_), None) | (None, Some(_)) => false,
    }
}

fn is_one_downlink(a: &Downlink, b: &Downlink) -> bool
    ensures { IsTrue result ↔ (a.now ≡ b.now) }
{
    is_target(&a.target, &b.target) && is_bytes(&a.frame, &b.frame)
}

/// Whether two downlinks, either of which may be missing, are the same.
pub fn is_downlink(a: &Option<Downlink>, b: &Option<Downlink>) -> bool
    ensures { IsTrue result ↔ (a.now ≡ b.now) }
{
    match (a, b) {
        (Some(a), Some(b)) => is_one_downlink(a, b),
        (None, None) => true,
        (Some(_), None) | (None, Some(_)) => false,
    }
}
