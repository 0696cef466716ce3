//! What leaves the server once what it rests on is written.
ghost use Rattle.std.specs.Prelude.{◌≡◌, None, true, false, length, is_err, IfOk, if◌then◌else◌};

use crate::sockets::send_down;
use ns_calls::Downlink;
use ns_log::Log;
use ns_outside::Downlinks;
use ns_serve_state::{State, log_unsent, write_record};
use ns_types::{Failed, Sink, Stream};
use std::alloc::{AllocError, Global};
use std::sync::Wait;
use std::sync::atomic::Ordering;
use std::time::Clock;

/// A writer of lines that takes none before what they rest on is written. Where there is a record, which has the `up` lines, the writer's
/// failure is none of the server: from then on it gets nothing, and the lines that it would have got are counted, also those of events,
/// which are in no record.
#[derive(Drop)]
pub struct AfterRecord<'a, R, W> {
    rt: &'a R,
    state: &'a State,
    writer: W,
    is_recorded: bool,
    failed: bool,
}

impl<'a, R, W> AfterRecord<'a, R, W> {
    /// This writer, which has not failed.
    pub fn new(rt: &'a R, state: &'a State, writer: W) -> AfterRecord<'a, R, W>
        ensures { ⟦<AfterRecord<'a, R, W> as Stream>⟧.has_failed result ≡ false }
    {
        AfterRecord {
            rt,
            state,
            writer,
            is_recorded: state.record.is_some(),
            failed: false,
        }
    }

    // What comes of bytes that the writer did not take: where there is a record, their lines are counted.
    fn without(&mut self, bytes: &[u8]) -> Result<usize, Failed>
        ensures taken { IfOk result (λ n. (n ≡ length bytes.now) × (self.old.is_recorded ≡ true)) }
        ensures same { (self.new.writer ≡ self.old.writer) × (self.new.is_recorded ≡ self.old.is_recorded) }
        ensures failed { self.old.failed ≡ false → self.new.failed ≡ is_err result }
    {
        if !self.is_recorded {
            self.failed = true;
            return Err(Failed);
        }
        let lines = bytes.iter().filter(|byte| **byte == b'\n').count();
        self.state
            .counts
            .unwritten
            .fetch_add(lines as u64, Ordering::SeqCst);
        Ok(bytes.len())
    }
}

impl<'a, R, W> Stream for AfterRecord<'a, R, W> {
    ghost has_failed = { λ s. s.failed };

    fn failed(&self) -> bool {
        self.failed
    }
}

impl<'a, R: Wait, W: Sink> Sink for AfterRecord<'a, R, W> {
    ghost taken = { λ s. if s.is_recorded then None else W.taken s.writer };

    fn write(&mut self, bytes: &[u8]) -> Result<usize, Failed> {
        if write_record(self.rt, self.state).is_err() {
            self.failed = true;
            return Err(Failed);
        }
        if self.writer.failed() {
            return self.without(bytes);
        }
        match self.writer.write(bytes) {
            Ok(n) => Ok(n),
            Err(_) => self.without(bytes),
        }
    }
}

/// Downlinks that wait until those of all windows that are closed at once are there, so that what they rest on is written once.
#[derive(Drop)]
pub struct Later<'a> {
    state: &'a State,
    waiting: Vec<Downlink>,
}

impl<'a> Later<'a> {
    /// None waits. There is room for so many.
    pub fn new(alloc: Global, state: &'a State, room: usize) -> Result<Later<'a>, AllocError> {
        Ok(Later {
            state,
            waiting: Vec::with_capacity(alloc, room)?,
        })
    }

    /// Sends those that wait.
    pub fn send_all<R: Wait + Clock + Log>(&mut self, rt: &R) {
        for downlink in &self.waiting {
            if !send_down(rt, self.state, downlink) {
                log_unsent(rt, self.state, downlink);
            }
        }
        self.waiting.clear();
    }
}

impl<'a, R: Wait + Clock> Downlinks<R> for Later<'a> {
    fn send(&mut self, rt: &R, downlink: &Downlink) -> bool {
        self.waiting.push(*downlink).is_ok() || send_down(rt, self.state, downlink)
    }
}
