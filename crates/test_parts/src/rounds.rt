//! Rounds up to the last one, of one device's state.

use ns_calls::Outcome;
use ns_device::calls::ticket;
use ns_device::traffic::{answer, keys};
use ns_sessions::DeviceState;
use ns_types::Heard;
use ns_views::{PhyView, view};

// An unconfirmed uplink with counter 2 under the NwkSKey of `keys`.
const FRAME: [u8; 17] = [
    0x40, 0xf1, 0x7d, 0xbe, 0x49, 0x00, 0x02, 0x00, 0x01, 0x95, 0x43, 0x78, 0x76, 0x2b, 0x11, 0xff,
    0x0d,
];

// A device that has joined, with no uplink yet.
fn joined() -> DeviceState {
    let mut state = DeviceState::new(None);
    let ticket = ticket(13, 1);
    state.ask(&ticket, &Heard::default());
    state.answer(&ticket, &Outcome::Success(answer(keys().nwk, None)));
    state
}

// Whether these are the next rounds of sessions' counters.
fn are_next(state: &DeviceState, rounds: &[(u32, u32, Option<u32>)]) -> bool {
    for &(session, counter, round) in rounds {
        if state.next_round(session, counter) != round {
            return false;
        }
    }
    true
}

// Opens the window of the uplink. Its session and its counter.
fn opened(state: &mut DeviceState) -> Option<(u32, u32)> {
    let Ok(PhyView::Frame(frame)) = view(&FRAME) else {
        return None;
    };
    let (session, counter) = state.fresh(&frame)?;
    state.take(session, counter);
    Some((session, counter))
}

// Rounds, and the next round once each is opened.
const ROUNDS: &[(u32, Option<u32>)] = &[
    (2, Some(3)),
    (0xffff_fffe, Some(0xffff_ffff)),
    (0xffff_ffff, None),
];

// Whether each of them has its next round.
fn rounds_follow(state: &mut DeviceState) -> bool {
    for &(round, next) in ROUNDS {
        state.open_again(1, round);
        if !are_next(state, &[(1, 2, next)]) {
            return false;
        }
    }
    true
}

// Whether a device has these next rounds before and after the window of its first uplink is opened.
fn are_followed(state: &mut DeviceState) -> bool {
    are_next(state, &[(1, 2, None)])
        && opened(state) == Some((1, 2))
        && are_next(state, &[(1, 2, Some(2)), (1, 1, None), (2, 2, None)])
        && rounds_follow(state)
}

/// The uplink with a session's greatest counter has a next round until the last, and no other has one.
#[test]
fn rounds_of_the_greatest_counter(rt: HostRuntime) {
    assert!(rt; are_followed(&mut joined()));
}
