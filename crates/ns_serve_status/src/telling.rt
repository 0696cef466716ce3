//! Who asks over HTTP for the status: connections side by side, none of which waits for another.

ghost use Rattle.std.specs.Prelude.{◌≤◌};

use crate::answer::{Answer, Untold};
use ns_serve_state::{State, Status, now_ms};
use ns_status::{Request, RequestFault, Status as Code, request_in};
use std::alloc::{AllocError, Global};
use std::io::{ErrorKind, Read, Write};
use std::net::TcpStream;
use std::sync::Wait;
use std::time::{Clock, Duration};
use std::{io, thread};

// How many connections there are at most. One more takes the place of the oldest that has not asked yet.
const MOST: usize = 16;

// How long a request may take to come, and then its answer to go, in milliseconds.
const REQUEST_MS: u64 = 2_000;

const ANSWER_MS: u64 = 8_000;

// How long it is waited while nothing moves: with connections, and without any.
const NAP_MS: u64 = 3;

const IDLE_MS: u64 = 50;

// The most bytes of a head.
const HEAD_MAX: usize = 4_096;

// What a step of a connection came to.
#[derive(Clone, Copy, PartialEq, Eq)]
enum Step {
    /// Bytes came or went.
    Moved,
    /// Nothing did.
    Waits,
    /// Nothing more will.
    Over,
}

// A connection: the head that came of its request, and, once that is whole, its answer.
#[derive(Drop)]
struct Asker {
    stream: TcpStream,
    head: Vec<u8>,
    answer: Option<Answer>,
    until_ms: u64,
    is_over: bool,
}

// What a read or a write came to that gave no bytes.
fn without(error: &io::Error) -> Step {
    match error.kind() {
        ErrorKind::WouldBlock | ErrorKind::TimedOut | ErrorKind::Interrupted => Step::Waits,
        _ => Step::Over,
    }
}

// What the bytes of a head ask for, if they are whole.
fn asked(head: &[u8], host: &[u8]) -> Option<Result<Request, Code>> {
    match request_in(head, host) {
        Ok(Some(request)) => Some(Ok(request)),
        Ok(None) if head.len() < HEAD_MAX => None,
        Ok(None) => Some(Err(Code::TooLong)),
        Err(RequestFault::Refused(why)) => Some(Err(why)),
        Err(RequestFault::Ended) => Some(Err(Code::Malformed)),
    }
}

impl Asker {
    // A connection whose request has to come until then.
    fn new(alloc: Global, stream: TcpStream, until_ms: u64) -> Result<Asker, AllocError> {
        Ok(Asker {
            stream,
            head: Vec::with_capacity(alloc, HEAD_MAX)?,
            answer: None,
            until_ms,
            is_over: false,
        })
    }

    // Reads what is there of the request, and begins the answer once it is whole.
    fn read<R: Wait + Clock>(
        &mut self,
        rt: &R,
        alloc: Global,
        state: &State,
        status: &Status,
    ) -> Step {
        let mut piece = [0u8; HEAD_MAX];
        let room = HEAD_MAX.saturating_sub(self.head.len());
        let read = match piece.get_mut(..room) {
            Some(room) => (&self.stream).read(room),
            None => Ok(0),
        };
        let n = match &read {
            Ok(0) => return Step::Over,
            Ok(n) => *n,
            Err(error) => return without(error),
        };
        let come = piece.get(..n).unwrap_or(&[]);
        if self.head.extend_from_slice(come).is_err() {
            return Step::Over;
        }
        if let Some(asked) = asked(self.head.as_slice(), status.host()) {
            self.until_ms = now_ms(rt, state).saturating_add(ANSWER_MS);
            self.answer = Answer::begin(rt, alloc, state, status, asked).ok();
            if self.answer.is_none() {
                return Step::Over;
            }
        }
        Step::Moved
    }

    // Writes what goes of the answer, and makes its next piece once it is gone.
    fn write<R: Wait>(&mut self, rt: &R, alloc: Global, status: &Status) -> Step {
        let Some(answer) = &mut self.answer else {
            return Step::Over;
        };
        if answer.left().is_empty() {
            return match answer.go_on(rt, alloc, status) {
                Ok(true) => Step::Moved,
                Ok(false) | Err(Untold) => Step::Over,
            };
        }
        match &(&self.stream).write(answer.left()) {
            Ok(0) => Step::Over,
            Ok(n) => {
                answer.went(*n);
                Step::Moved
            }
            Err(error) => without(error),
        }
    }

    // One step, which does not wait.
    fn step<R: Wait + Clock>(
        &mut self,
        rt: &R,
        alloc: Global,
        state: &State,
        status: &Status,
    ) -> Step {
        if now_ms(rt, state) >= self.until_ms {
            return Step::Over;
        }
        match self.answer {
            None => self.read(rt, alloc, state, status),
            Some(_) => self.write(rt, alloc, status),
        }
    }
}

// The place of the connection that goes for a further one: of those that have not asked, or else of all, the one with the least time left.
fn oldest(askers: &[Asker]) -> Option<usize> {
    let mut oldest: Option<(bool, u64, usize)> = None;
    for (place, asker) in askers.iter().enumerate() {
        let (has_asked, until_ms) = (asker.answer.is_some(), asker.until_ms);
        let is_older = match oldest {
            None => true,
            Some((other_has, other_until, _)) => {
                (!has_asked && other_has) || (has_asked == other_has && until_ms < other_until)
            }
        };
        if is_older {
            oldest = Some((has_asked, until_ms, place));
        }
    }
    let (_, _, place) = oldest?;
    Some(place)
}

// Takes a connection in, if one waits. Where there are as many as there may be, the oldest goes.
fn accept<R: Wait + Clock>(
    rt: &R,
    alloc: Global,
    state: &State,
    status: &Status,
    askers: &mut Vec<Asker>,
) -> bool {
    let Ok(stream) = status.accept() else {
        return false;
    };
    if askers.len() >= MOST {
        if let Some(asker) = oldest(askers.as_slice()).and_then(|place| askers.get_mut(place)) {
            asker.is_over = true;
        }
        askers.retain(|asker| !asker.is_over);
    }
    let until_ms = now_ms(rt, state).saturating_add(REQUEST_MS);
    if stream.set_nonblocking(true).is_ok() {
        if let Ok(asker) = Asker::new(alloc, stream, until_ms) {
            let _ = askers.push(asker);
        }
    }
    true
}

// A step of each connection. Whether bytes came or went at one.
fn step_all<R: Wait + Clock>(
    rt: &R,
    alloc: Global,
    state: &State,
    status: &Status,
    askers: &mut Vec<Asker>,
) -> bool {
    let mut has_moved = false;
    for asker in askers.iter_mut() {
        match asker.step(rt, alloc, state, status) {
            Step::Moved => has_moved = true,
            Step::Waits => {}
            Step::Over => asker.is_over = true,
        }
    }
    askers.retain(|asker| !asker.is_over);
    has_moved
}

/// Answers who asks for the status, up to sixteen connections side by side, until no gateway worker is left or a worker has met a fault. It
/// comes back at once where the status is not told.
pub fn tell<R: Wait + Clock>(rt: &R, alloc: Global, state: &State) {
    let Some(status) = &state.status else {
        return;
    };
    let mut askers = Vec::new(alloc);
    for _turn in rt.forever() {
        if state.is_deaf() || state.is_broken() {
            return;
        }
        let has_come = accept(rt, alloc, state, status, &mut askers);
        let has_moved = step_all(rt, alloc, state, status, &mut askers);
        if !has_come && !has_moved {
            let nap = if askers.is_empty() { IDLE_MS } else { NAP_MS };
            thread::sleep(rt, Duration::from_millis(nap));
        }
    }
}
