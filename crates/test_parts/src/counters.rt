//! Which uplinks of one device are new and which were opened already, at counters over 65,535 and at the last one.

use self::Step::*;
use ns_calls::{Call, DataFrame};
use ns_device::calls::{join_reply, uplink};
use ns_sessions::DeviceState;
use ns_types::Heard;

const DEVICE: u32 = 13;

// What comes of the device.
#[derive(Clone, Copy)]
enum Step {
    // The join with this nonce is accepted.
    Joined(u32),
    // A frame of the session of this nonce, with this counter; where it is new, and where it was opened already. A new one is taken.
    Sent(u32, u32, Option<(u32, u32)>, Option<(u32, u32)>),
}

// Each from a device that has not joined.
const RUNS: &[&[Step]] = &[
    // The first counter is the low half. The same frame again is at that, and a frame with the same low half is 65,536 further.
    &[
        Joined(1),
        Sent(1, 2, Some((1, 2)), None),
        Sent(1, 2, None, Some((1, 2))),
        Sent(1, 65_538, Some((1, 65_538)), None),
        Sent(1, 2, None, None),
    ],
    // Below 2 no counter has the low half 3.
    &[
        Joined(1),
        Sent(1, 2, Some((1, 2)), None),
        Sent(1, 3, Some((1, 3)), None),
    ],
    // The low half goes from 65,535 to 0.
    &[
        Joined(1),
        Sent(1, 65_535, Some((1, 65_535)), None),
        Sent(1, 65_536, Some((1, 65_536)), None),
        Sent(1, 65_535, None, Some((1, 65_535))),
    ],
    // A session lives until the first uplink of a later one.
    &[
        Joined(1),
        Sent(1, 0, Some((1, 0)), None),
        Joined(2),
        Sent(1, 1, Some((1, 1)), None),
        Sent(2, 0, Some((2, 0)), None),
        Sent(1, 2, None, None),
        Sent(1, 1, None, None),
    ],
];

// A join of the device is accepted.
fn accept(state: &mut DeviceState, nonce: u32) {
    let Call::JoinReply { ticket, outcome } = join_reply(DEVICE, nonce, true) else {
        return;
    };
    state.ask(&ticket, &Heard::default());
    state.answer(&ticket, &outcome);
}

// A frame of the session of this nonce.
fn frame(nonce: u32, counter: u32) -> Option<DataFrame> {
    match uplink(DEVICE, nonce, counter, false, 1)? {
        Call::Uplink { frame, .. } => Some(frame),
        _ => None,
    }
}

// Takes a frame where it is new. Where it is.
fn take(state: &mut DeviceState, frame: &DataFrame) -> Option<(u32, u32)> {
    let (session, counter) = state.fresh(&frame.view())?;
    state.take(session, counter);
    Some((session, counter))
}

// Whether what comes of the device is as the step says. None where there is no such frame.
fn is_so(state: &mut DeviceState, step: Step) -> Option<bool> {
    match step {
        Joined(nonce) => {
            accept(state, nonce);
            Some(true)
        }
        Sent(nonce, counter, fresh, stale) => {
            let frame = frame(nonce, counter)?;
            let is_stale = state.stale(&frame.view()) == stale;
            Some(is_stale && take(state, &frame) == fresh)
        }
    }
}

// The first of these steps after which it is otherwise.
fn other_step(state: &mut DeviceState, steps: &[Step]) -> Option<usize> {
    for number in 0..steps.len() {
        if is_so(state, steps[number]) != Some(true) {
            return Some(number);
        }
    }
    None
}

/// What is new and what was opened already, step by step.
#[test]
fn new_uplinks_and_old_ones(rt: HostRuntime) {
    let mut number = 1u32;
    for steps in RUNS {
        let other = other_step(&mut DeviceState::new(None), steps);
        assert!(rt; other.is_none(), "run {number}, step {other:?}");
        number = number.wrapping_add(1);
    }
}

// A session at its last counter: 65,536 frames with the low half 65,535 were taken.
fn at_the_last_counter() -> Option<DeviceState> {
    let mut state = DeviceState::new(None);
    accept(&mut state, 1);
    for high in 0..=0xffffu32 {
        let counter = high << 16 | 0xffff;
        if take(&mut state, &frame(1, counter)?) != Some((1, counter)) {
            return None;
        }
    }
    Some(state)
}

// What comes at the last counter.
const LAST: &[Step] = &[
    Sent(1, 0xffff_ffff, None, Some((1, 0xffff_ffff))),
    Sent(1, 0, None, None),
    Sent(1, 0xffff_0000, None, Some((1, 0xffff_0000))),
];

/// After the last counter no frame is new: the last one was opened already, and counter 0 is none of the session.
#[test]
fn no_counter_after_the_last(rt: HostRuntime) {
    let state = at_the_last_counter();
    assert!(rt; state.is_some_and(|mut state| other_step(&mut state, LAST).is_none()));
}
