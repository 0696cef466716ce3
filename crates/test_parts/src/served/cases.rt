//! What is tried on a state.

use crate::served::counted::count_all;
use crate::served::exchanges::are_over_in_time;
use crate::served::raised::are_raised_alone;
use crate::served::resting::some_rest;
use crate::served::shared::{are_handed_on, is_sent_once, line_has_its_times};
use crate::served::sockets::{are_late_for_a_while, is_waited_out, longest_leaves, own_socket};
use crate::served::standing::Standing;
use crate::served::states::state_with;
use crate::served::told::{LOGGED, PORT, is_told};
use ns_serve_state::{State, log_counts};
use std::alloc::Global;
use std::net::{Net, TcpListener, TcpStream};
use std::sync::Wait;
use std::thread::Threads;
use std::time::Clock;

// What is so of a server that does not run.
#[derive(Clone, Copy)]
enum Case {
    // Of what an earlier life left open, a window is due once copies were waited for, and a ticket is given at once, too old to be asked
    // about.
    LeftOpen,
    // A downlink that waits is sent with the first batch alone.
    WaitingDownlink,
    // An uplink was heard as long before its line is written as its window was open and then waited.
    LineTimes,
    // A copy of a frame is given until its window is closed, is late for two seconds, and is given after that.
    LateCopies,
    // The longest Join-Accept, of 33 bytes, goes to where its gateway was heard.
    LongestDownlink,
    // A worker waits out more than 100 failures where a datagram came in between.
    Failures,
    // The only gateway worker never rests, and of two one rests until it is woken; as its datagrams come, a worker rests or wakes another.
    Resting,
    // Each event raises the count of its own kind, and no other.
    Raised,
    // Connecting to the join server and the exchange take 4 s together at most.
    Exchanges,
    // The counts are logged by their names, all datagrams but those that were too many.
    Logged,
    // All devices that have joined are told, and no others, where none of the first 64 has; and each number under its name.
    Told,
}

const CASES: &[Case] = &[
    Case::LeftOpen,
    Case::WaitingDownlink,
    Case::LineTimes,
    Case::LateCopies,
    Case::LongestDownlink,
    Case::Failures,
    Case::Resting,
    Case::Raised,
    Case::Exchanges,
    Case::Logged,
    Case::Told,
];

impl Case {
    // Whether the server has a socket of its own.
    fn has_socket(&self) -> bool {
        matches!(
            self,
            Case::LateCopies | Case::LongestDownlink | Case::Failures | Case::Resting
        )
    }

    // Where its status is told, if it is.
    fn port(&self) -> Option<u16> {
        match self {
            Case::Told => Some(PORT),
            _ => None,
        }
    }

    // Whether it is so of a state.
    fn is_so_of<R>(&self, rt: &Standing<'_, R>, alloc: Global, state: &State) -> bool
    where
        R: Threads + Wait + Clock + Net<Listener = TcpListener, Stream = TcpStream> + Sync,
    {
        match self {
            Case::LeftOpen => are_handed_on(rt, alloc, state),
            Case::WaitingDownlink => is_sent_once(rt, alloc, state),
            Case::LineTimes => line_has_its_times(rt, state),
            Case::LateCopies => are_late_for_a_while(rt, state),
            Case::LongestDownlink => longest_leaves(rt, state),
            Case::Failures => is_waited_out(rt, state),
            Case::Resting => some_rest(rt, state),
            Case::Raised => are_raised_alone(rt, state),
            Case::Exchanges => are_over_in_time(rt, state),
            Case::Logged => {
                count_all(state);
                log_counts(rt, state);
                true
            }
            Case::Told => is_told(rt, alloc, state),
        }
    }

    // Whether it is so of a new state.
    fn is_so<R>(&self, rt: &Standing<'_, R>, alloc: Global) -> bool
    where
        R: Threads + Wait + Clock + Net<Listener = TcpListener, Stream = TcpStream> + Sync,
    {
        let own = own_socket(rt.host(), self.has_socket());
        match state_with(rt, alloc, own, self.port()) {
            Some(state) => {
                let is_so = self.is_so_of(rt, alloc, &state);
                drop(state);
                is_so
            }
            None => false,
        }
    }

    // Whether it is so where nothing happened before, and is logged as it is to be.
    fn holds<R>(&self, rt: &R, alloc: Global) -> bool
    where
        R: Threads + Wait + Clock + Net<Listener = TcpListener, Stream = TcpStream> + Sync,
    {
        let Ok(standing) = Standing::new(rt, alloc) else {
            return false;
        };
        let is_so = self.is_so(&standing, alloc);
        let lines = standing.into_lines();
        is_so && (!matches!(self, Case::Logged) || lines.as_slice() == LOGGED)
    }
}

#[test]
fn parts_of_a_server(rt: HostRuntime) {
    let mut number = 1u32;
    for case in CASES {
        assert!(rt; case.holds(&rt, rt.alloc()), "case {number}");
        number = number.wrapping_add(1);
    }
}
