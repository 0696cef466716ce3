//! What each event raises of the counts.

use crate::served::counted::{REFUSALS, REPLIES};
use crate::served::standing::Standing;
use crate::served::states::{TICKET, downlink};
use ns_calls::{Bytes, Reply};
use ns_outside::{JoinFault, Monitor, Receipt, Refused};
use ns_serve_events::Events;
use ns_serve_state::State;
use std::sync::Wait;
use std::sync::atomic::Ordering;
use std::time::Clock;

// How many counts there are: seven of datagrams, downlinks, tickets and lines, then those of refusals, and then those of replies.
const COUNTS: usize = 38;

const FIRST_REFUSAL: usize = 7;

const FIRST_REPLY: usize = 19;

// An event that is no refusal and no reply.
#[derive(Clone, Copy)]
enum Happening {
    Dropped,
    Unanswered,
    Unsent,
    Stale,
}

// Events, and the places of the counts that they raise.
const HAPPENINGS: &[(Happening, usize)] = &[
    (Happening::Dropped, 0),
    (Happening::Unanswered, 3),
    (Happening::Unsent, 4),
    (Happening::Stale, 5),
];

// All counts.
fn all_of(state: &State) -> [u64; COUNTS] {
    let counts = &state.counts;
    let mut all = [0; COUNTS];
    let others = [
        &counts.dropped,
        &counts.late,
        &counts.unreceived,
        &counts.unanswered,
        &counts.unsent,
        &counts.stale,
        &counts.unwritten,
    ];
    for (place, counter) in all.iter_mut().zip(others.iter()) {
        *place = counter.load(Ordering::SeqCst);
    }
    for (place, (_, count)) in all[FIRST_REFUSAL..]
        .iter_mut()
        .zip(counts.refusals().iter())
    {
        *place = *count;
    }
    for (place, (_, count)) in all[FIRST_REPLY..]
        .iter_mut()
        .zip(state.made.replies().iter())
    {
        *place = *count;
    }
    all
}

// Whether the count of a place is one more than before, and all others are as before.
fn is_raised_alone(before: &[u64; COUNTS], state: &State, raised: usize) -> bool {
    let mut place = 0;
    let mut is_so = true;
    for (old, new) in before.iter().zip(all_of(state).iter()) {
        let more = if place == raised { 1 } else { 0 };
        is_so = is_so && *new == old.wrapping_add(more);
        place = place.wrapping_add(1);
    }
    is_so
}

// Whether an event raises just the count of a place.
fn raises_its_count<R: Wait + Clock>(
    rt: &Standing<'_, R>,
    state: &State,
    (what, place): (Happening, usize),
) -> bool {
    let before = all_of(state);
    let events = Events { state };
    match what {
        Happening::Dropped => events.dropped(rt),
        Happening::Unanswered => events.unanswered(rt, &TICKET, &JoinFault::NoConnection),
        Happening::Unsent => events.unsent(rt, &downlink(Bytes::of(&[0x60; 12]))),
        Happening::Stale => events.stale(rt, &TICKET),
    }
    is_raised_alone(&before, state, place)
}

// Whether a refusal raises just its own count.
fn is_refused<R: Wait + Clock>(
    rt: &Standing<'_, R>,
    state: &State,
    why: Refused,
    place: usize,
) -> bool {
    let before = all_of(state);
    Events { state }.refused(rt, why);
    is_raised_alone(&before, state, place)
}

// Whether a reply in the shard 3 raises just its own count.
fn is_replied<R: Wait + Clock>(
    rt: &Standing<'_, R>,
    state: &State,
    reply: &Reply,
    place: usize,
) -> bool {
    let before = all_of(state);
    let mut receipt = Receipt::empty();
    receipt.shard = 3;
    receipt.entry.reply = *reply;
    Events { state }.replied(rt, &receipt);
    is_raised_alone(&before, state, place)
}

/// Whether each event raises the count of its own kind by one, and no other, and each of the 19 replies its shard's entries.
pub fn are_raised_alone<R: Wait + Clock>(rt: &Standing<'_, R>, state: &State) -> bool {
    let mut are_so = true;
    for &event in HAPPENINGS {
        are_so = raises_its_count(rt, state, event) && are_so;
    }
    let mut place = FIRST_REFUSAL;
    for &(why, _) in REFUSALS {
        are_so = is_refused(rt, state, why, place) && are_so;
        place = place.wrapping_add(1);
    }
    for (reply, _) in REPLIES {
        are_so = is_replied(rt, state, reply, place) && are_so;
        place = place.wrapping_add(1);
    }
    let mut entries = [0; 16];
    entries[3] = 19;
    are_so && state.made.all() == entries
}
