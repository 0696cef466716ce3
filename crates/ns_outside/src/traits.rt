//! What a worker is given: datagrams, jobs, connections, a clock, a way out, and who is told. A ghost member of a trait says what its
//! value was given or told; where a type keeps none, the contracts say nothing of it.
ghost use Rattle.std.specs.Prelude.{◌≡◌, ℕ, List, [], ◌∷◌, Option, None, false, OnOk, OnErr, IfErr, IfSome, IfNone};
ghost use Rattle.ns_calls.specs.declared.answer.Downlink.{Downlink};
ghost use Rattle.ns_outside.specs.Given.{Given, Takes};
ghost use Rattle.ns_outside.specs.Grown.{Grows};
ghost use Rattle.ns_outside.specs.Notice.{Notice, datagram_refused, call_replied, call_dropped, ticket_unanswered, ticket_stale, downlink_unsent};
ghost use Rattle.ns_outside.specs.Datagrams.{FitsBuffer, TakesDatagram};

use crate::fault::{JoinFault, Refused};
use crate::receipt::Receipt;
use ns_calls::Downlink;
use ns_output::Times;
use ns_types::{Sink, Source, Ticket};

/// What a source of jobs answers.
#[derive(Clone, Copy, Debug, PartialEq, Eq)]
pub enum Next<J> {
    Job(J),
    /// There are no more jobs.
    End,
    Failed,
}

/// What a source of datagrams answers.
#[derive(Clone, Copy, Debug, PartialEq, Eq)]
pub enum Received {
    /// A datagram of this length, at most 512.
    Got(usize),
    /// None came for a while.
    Idle,
    /// There are no more datagrams.
    End,
    Failed,
}

/// Gives jobs to one worker.
pub trait JobSource<R, J> {
    // The jobs that it has given and how it has ended, where it tells them.
    ghost given: { Self → Option (Given J) };

    // All the jobs that it has, those that it has given first, where it tells them.
    ghost all: { Self → Option (List J) } = { λ _. None };

    /// Waits for the next job.
    fn take(&mut self, rt: &R) -> Next<J>
        ensures given { Takes (given self.old) (given self.new) result }
        ensures same { all self.new ≡ all self.old };
}

/// Takes jobs from one worker.
pub trait Jobs<R, J> {
    // The jobs that it has taken, where it tells them.
    ghost taken: { Self → Option (List J) } = { λ _. None };

    /// Puts a job, or hands it back where it cannot be put.
    fn put(&mut self, rt: &R, job: J) -> Result<(), J>
        ensures put { OnOk result (Grows (taken self.old) (taken self.new) (job ∷ [])) }
        ensures back { IfErr result (λ back. back ≡ job) }
        ensures kept { OnErr result (Grows (taken self.old) (taken self.new) []) };
}

/// Gives datagrams to one worker.
pub trait Datagrams<R> {
    // The datagrams that it has given and how it has ended, where it tells them.
    ghost given: { Self → Option (Given (List ℕ)) };

    /// Waits a while for the next datagram, and puts it at the front of the buffer. A longer one is cut.
    fn next(&mut self, rt: &R, buf: &mut [u8; 512]) -> Received
        ensures fits { FitsBuffer result }
        ensures given { TakesDatagram (given self.old) (given self.new) result buf.new };
}

/// Tells the time in milliseconds.
pub trait Timer<R> {
    // That it told this time, and that it was waited for this one.
    ghost has_told: { Self → ℕ → Type 0 } = { λ _ _. Unit {0} };

    ghost has_come: { Self → ℕ → Type 0 } = { λ _ _. Unit {0} };

    fn now(&self, rt: &R) -> u64
        ensures { has_told self.now result };

    /// Waits until this time.
    fn until(&self, rt: &R, due: u64)
        ensures { has_come self.now due };

    /// When the first copy came of an uplink whose window is due at this time, and when its line is written, by a wall clock where
    /// there is one. No clause says that they are right.
    fn times(&self, _rt: &R, _due: u64) -> Option<Times> {
        None
    }
}

/// Opens connections to the join server.
pub trait Connections<R> {
    type S: Source + Sink + Drop;

    // That it opened this connection, and that it could open none.
    ghost has_opened: { Self → Self.S → Type 0 } = { λ _ _. Unit {0} };

    ghost has_none: { Self → Type 0 } = { λ _. Unit {0} };

    /// A connection that has not failed, where one could be opened.
    fn open(&self, rt: &R) -> Option<Self::S>
        ensures sound { IfSome result (λ s. Self.S.has_failed s ≡ false) }
        ensures opened { IfSome result (λ s. has_opened self.now s) }
        ensures none { IfNone result (has_none self.now) };
}

/// Sends downlinks of one worker to gateways.
pub trait Downlinks<R> {
    // The downlinks that it was given, sent or not, where it tells them.
    ghost taken: { Self → Option (List Downlink) } = { λ _. None };

    /// Whether it was sent.
    fn send(&mut self, rt: &R, downlink: &Downlink) -> bool
        ensures { Grows (taken self.old) (taken self.new) (downlink.now ∷ []) };
}

/// Is told what happens in a worker, to count or to log it.
pub trait Monitor<R> {
    // That it was told this.
    ghost has_heard: { Self → Notice → Type 0 } = { λ _ _. Unit {0} };

    /// A datagram was refused, and made no call.
    fn refused(&self, rt: &R, why: Refused)
        ensures { has_heard self.now (datagram_refused why) };

    /// A call of the worker got this receipt.
    fn replied(&self, rt: &R, receipt: &Receipt)
        ensures { has_heard self.now (call_replied receipt.now) };

    /// A datagram's call was refused for want of memory, and made no entry.
    fn dropped(&self, rt: &R)
        ensures { has_heard self.now call_dropped };

    /// The join server gave no answer that can be used for a ticket.
    fn unanswered(&self, rt: &R, ticket: &Ticket, why: &JoinFault)
        ensures { has_heard self.now (ticket_unanswered ticket.now why.now) };

    /// A ticket was too old to be asked about.
    fn stale(&self, rt: &R, ticket: &Ticket)
        ensures { has_heard self.now (ticket_stale ticket.now) };

    /// A downlink was not sent.
    fn unsent(&self, rt: &R, downlink: &Downlink)
        ensures { has_heard self.now (downlink_unsent downlink.now) };
}
