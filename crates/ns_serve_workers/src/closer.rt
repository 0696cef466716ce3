//! What the closer does in a turn: windows are closed as they become due, and their lines written.
ghost use Rattle.std.specs.Prelude.{◌≡◌, ◌≢◌, ◌+◌, ◌-◌, ◌*◌, ◌^◌, ◌<◌, ◌≤◌, min, max, ◌⊎◌, ◌↔◌, ◌++◌, List, All, Some, None, true, false, IsNone, IsTrue, IfOk, slice_get, vec_len};
ghost use Rattle.std.specs.Duration.{as_nanos};
ghost use Rattle.ns_outside.specs.declared.receipt.Receipt.{Receipt as receipt};
ghost use Rattle.ns_outside.specs.declared.job.CloseJob.{CloseJob as close_job};
ghost use Rattle.ns_outside.specs.Notice.{call_replied};
ghost use Rattle.ns_workers.specs.Closing.{AreAnswered, AreClosed, calls_made, closings};
ghost use Rattle.ns_workers.specs.Counts.{RisesByReceipts};
ghost use Rattle.ns_workers.specs.Lines.{AppendsLines, AppendsLinesFront};
ghost use Rattle.ns_serve_workers.specs.Turns.{HasClosed, HasReceipts, IsTurn, IsTurnWith};

use crate::around::Around;
use crate::workers::log_end;
use crossbeam_channel::{Receiver, RecvTimeoutError};
use ns_log::Log;
use ns_output::Output as Written;
use ns_outside::{Calls, CloseJob, Gate, Monitor, Receipt, WorkerFault};
use ns_serve_events::{SinceMoment, nap_ms, take_notices};
use ns_serve_parts::ServeFault;
use ns_serve_sockets::Later;
use ns_serve_state::{State, now_ms};
use ns_serve_streams::{Held, Output, put_under_lock};
use ns_types::Sink;
use ns_workers::{Ended, ListedJobs, Shared, run_closer_into};
use std::alloc::{AllocError, Global};
use std::sync::{Mutex, Wait};
use std::time::{Clock, Duration};
use std::{mem, thread};

// How many windows are closed at a time, at most.
const AT_A_TIME: usize = 64;

// The room for the lines of so many windows, each with its line feed.
fn room_for(output: Written) -> usize {
    match output {
        Written::Lines => AT_A_TIME * 1025,
        Written::Json => AT_A_TIME * 6401,
    }
}

// How long the closer waits at most before it looks whether the server stops and whether shards are to be trimmed.
const NAP_MS: u64 = 100;

// How long it sleeps at least where a window is not due, so that the windows of a few milliseconds are closed together.
const LEAST_NAP_MS: u64 = 3;

/// A moment, and whether no gateway worker is left then.
#[derive(Clone, Copy)]
pub(crate) struct Moment {
    at: u64,
    is_deaf: bool,
}

impl Moment {
    // That of now.
    fn now<R: Clock>(rt: &R, state: &State) -> Moment {
        Moment {
            at: now_ms(rt, state),
            is_deaf: state.is_deaf(),
        }
    }
}

// Whether a time has come. Once no gateway worker is left every time has, since no copy can come then.
fn has_come(due: u64, moment: Moment) -> bool
    ensures { IsTrue result ↔ ((due ≤ moment.at) ⊎ (moment.is_deaf ≡ true)) }
{
    due <= moment.at || moment.is_deaf
}

// How long the closer sleeps where a window is not due yet.
fn nap_until(due: u64, now: u64) -> Duration
    ensures { as_nanos result ≡ max (min (due - now) 100) 3 * 1_000_000 }
{
    Duration::from_millis(nap_ms(due, now).max(LEAST_NAP_MS))
}

// How long it waits for a window where none is open.
fn longest_wait() -> Duration
    ensures { as_nanos result ≡ 100_000_000 }
{
    Duration::from_millis(NAP_MS)
}

/// Waits for times.
pub(crate) trait Watch<R> {
    // Waits a while for a time, and gives the moment then, if it has come.
    fn comes(&self, rt: &R, due: u64) -> Option<Moment>;
}

impl<R: Clock> Watch<R> for State {
    fn comes(&self, rt: &R, due: u64) -> Option<Moment> {
        let begun = Moment::now(rt, self);
        if has_come(due, begun) {
            return Some(begun);
        }
        thread::sleep(rt, nap_until(due, begun.at));
        let now = Moment::now(rt, self);
        if has_come(due, now) { Some(now) } else { None }
    }
}

/// The windows that are to be closed, in the order in which they were opened.
#[derive(Drop)]
pub(crate) struct Closings<'a> {
    receiver: &'a Receiver<CloseJob>,
    // One that is not due yet.
    held: Option<CloseJob>,
}

/// What the closer is to do.
#[derive(Drop)]
pub(crate) enum Turn {
    /// To close the windows of these jobs, which are due.
    Close(Vec<CloseJob>),
    /// Nothing is due.
    Idle,
    /// No window comes any more.
    End,
}

impl<'a> Closings<'a> {
    /// The windows that come by a channel.
    pub fn new(receiver: &'a Receiver<CloseJob>) -> Closings<'a>
        ensures { result.held ≡ None }
    {
        Closings {
            receiver,
            held: None,
        }
    }

    /// What is to be done next: it is waited for a while.
    #[tactic(auto, using(crate::proofs::TurnLemmas::turn_held, crate::proofs::TurnLemmas::turn_new))]
    pub fn next<R: Wait + Clock, T: Watch<R>>(
        &mut self,
        rt: &R,
        alloc: Global,
        watch: &T,
    ) -> Result<Turn, AllocError>
        ensures { IfOk result (IsTurn self.old.held self.new.held) }
    {
        if let Some(first) = self.held.take() {
            return self.turn_with(rt, alloc, watch, first);
        }
        match self.receiver.recv_timeout(rt, longest_wait()) {
            Ok(first) => self.turn_with(rt, alloc, watch, first),
            Err(RecvTimeoutError::Timeout) => Ok(Turn::Idle),
            Err(RecvTimeoutError::Disconnected) => Ok(Turn::End),
        }
    }

    // What is to be done where this job is the next one.
    fn turn_with<R: Wait, T: Watch<R>>(
        &mut self,
        rt: &R,
        alloc: Global,
        watch: &T,
        first: CloseJob,
    ) -> Result<Turn, AllocError>
        requires { self.old.held ≡ None }
        ensures { IfOk result (IsTurnWith first self.new.held) }
    {
        let Some(moment) = watch.comes(rt, first.due) else {
            self.held = Some(first);
            return Ok(Turn::Idle);
        };
        Ok(Turn::Close(self.batch(rt, alloc, first, moment)?))
    }

    // This job, which is due, and those behind it that are due at this moment.
    #[tactic(auto, using(crate::proofs::TurnLemmas::first_stays))]
    fn batch<R: Wait>(
        &mut self,
        rt: &R,
        alloc: Global,
        first: CloseJob,
        moment: Moment,
    ) -> Result<Vec<CloseJob>, AllocError>
        requires { self.old.held ≡ None }
        ensures count { IfOk result (λ jobs. (0 < vec_len jobs) × (vec_len jobs ≤ 64)) }
        ensures first { IfOk result (λ jobs. slice_get jobs.items 0 ≡ Some first) }
    {
        let mut jobs = Vec::with_capacity(alloc, AT_A_TIME)?;
        jobs.push_reserved(first);
        while jobs.len() < AT_A_TIME {
            let Ok(job) = self.receiver.try_recv(rt) else {
                break;
            };
            if !has_come(job.due, moment) {
                self.held = Some(job);
                break;
            }
            jobs.push_reserved(job);
        }
        Ok(jobs)
    }
}

// Closes the windows of these jobs, in order, and puts their lines to those that are held. Without a fault it closes them all. The receipts
// come in the memory of others.
fn close_all<S: Calls<R>, R: Wait + Clock + Log, G: Gate<R>, M: Monitor<R>>(
    receipts: Vec<Receipt>,
    shared: &Shared<'_, S, R, G, M>,
    pass: &mut S::Pass,
    timer: &SinceMoment<'_>,
    down: &mut Later<'_>,
    jobs: Vec<CloseJob>,
    held: &mut Held,
) -> Ended
    requires { held.old.failed ≡ false }
    ensures lines { result.fault ≢ Some WorkerFault.SinkFailed
        → AppendsLines shared.now.output (Some held.old.lines.items) (Some held.new.lines.items) result.receipts.items }
    ensures front { AppendsLinesFront shared.now.output (Some held.old.lines.items) (Some held.new.lines.items) result.receipts.items }
    ensures closed { (taken rest : List close_job) × (jobs.items ≡ taken ++ rest) × AreClosed result.fault result.receipts.items taken }
    ensures all { result.fault ≡ None → vec_len jobs < 2 ^ 32 → calls_made result.receipts.items ≡ closings jobs.items }
    ensures answered { AreAnswered S.roster result.receipts.items }
    ensures told { All (λ r. M.has_heard shared.now.monitor.now (call_replied r)) result.receipts.items }
    ensures counted { RisesByReceipts (S.made pass.old) (S.made pass.new) result.receipts.items }
{
    let limit = u32::try_from(jobs.len()).unwrap_or(u32::MAX);
    let mut jobs = ListedJobs::new(jobs, false);
    run_closer_into(receipts, shared, pass, timer, &mut jobs, down, held, limit)
}

/// Logs for what the closer had no memory, and gives the fault.
pub(crate) fn no_memory<R: Log>(rt: &R, why: &str) -> ServeFault
    ensures { result ≡ ServeFault.NoMemory }
{
    log_end(rt, "closer", why);
    ServeFault::NoMemory
}

// Logs that what it wrote did not go out, and gives the fault.
fn unwritten<R: Log>(rt: &R) -> ServeFault
    ensures { result ≡ ServeFault.Io }
{
    log_end(rt, "closer", "standard output or the record failed");
    ServeFault::Io
}

// The fault of a closer whose lines were held in memory, where a fault of it is want of memory, and then written or not. It is logged.
fn fault_of<R: Log>(rt: &R, fault: Option<WorkerFault>, is_written: bool) -> Option<ServeFault>
    ensures none { IsNone result ↔ IsNone fault × (is_written ≡ true) }
    ensures memory { result ≡ Some ServeFault.Io → IsNone fault }
{
    if fault.is_some() {
        return Some(no_memory(rt, "no memory to close a window"));
    }
    if is_written {
        None
    } else {
        Some(unwritten(rt))
    }
}

/// What the closer keeps from turn to turn.
#[derive(Drop)]
pub(crate) struct Closer<'a> {
    pub closings: Closings<'a>,
    // The downlinks and the lines of one turn.
    pub later: Later<'a>,
    pub held: Held,
    // In whose memory the receipts of the next turn are put.
    pub receipts: Vec<Receipt>,
}

impl<'a> Closer<'a> {
    /// The closer of the windows that come by a channel, with room for one turn.
    pub fn new(state: &'a State, closes: &'a Receiver<CloseJob>) -> Result<Closer<'a>, AllocError>
        ensures { IfOk result (λ c. c.held.failed ≡ false) }
    {
        let alloc = state.alloc();
        let held = Held::new(alloc, room_for(state.uplinks()))?;
        let later = Later::new(alloc, state, AT_A_TIME)?;
        Ok(Closer {
            closings: Closings::new(closes),
            later,
            held,
            receipts: Vec::new(alloc),
        })
    }
}

// When the first of these windows was to be closed.
fn first_due(jobs: &Vec<CloseJob>) -> u64 {
    match jobs.first() {
        Some(job) => job.due,
        None => u64::MAX,
    }
}

/// Closes the windows of these jobs, sends their downlinks and writes their lines, also where it meets a fault, which it gives.
pub(crate) fn close_and_write<
    S: Calls<R>,
    R: Wait + Clock + Log,
    G: Gate<R>,
    M: Monitor<R>,
    W: Sink,
>(
    around: &Around<'_, S, R, G, M, W>,
    pass: &mut S::Pass,
    closer: &mut Closer<'_>,
    jobs: Vec<CloseJob>,
) -> Option<ServeFault>
    requires { closer.old.held.failed ≡ false }
    ensures sound { closer.new.held.failed ≡ false }
    ensures receipts { HasReceipts S.roster (M.has_heard around.now.monitor.now) (S.made pass.old) (S.made pass.new) }
    ensures closed { result ≡ None → vec_len jobs < 2 ^ 32 → HasClosed S.roster (M.has_heard around.now.monitor.now) jobs.items (S.made pass.old) (S.made pass.new) }
{
    let (rt, state) = (around.rt, around.state);
    let timer = SinceMoment::now(rt, state);
    let due = first_due(&jobs);
    let room = mem::replace(&mut closer.receipts, Vec::new(state.alloc()));
    let ended = close_all(
        room,
        &around.shared(),
        pass,
        &timer,
        &mut closer.later,
        jobs,
        &mut closer.held,
    );
    closer.later.send_all(rt);
    state
        .counts
        .closings
        .add(now_ms(rt, state).saturating_sub(due));
    let is_written = put_under_lock(rt, around.output, closer.held.lines()).is_ok();
    closer.held.clear();
    closer.receipts = ended.receipts;
    fault_of(rt, ended.fault, is_written)
}

/// Writes the joins and acknowledgements that were told, and gives the fault where they could not be.
pub(crate) fn write_notices<R: Wait + Log, W: Sink>(
    rt: &R,
    state: &State,
    output: &Mutex<Output<W>>,
) -> Option<ServeFault> {
    let lines = take_notices(rt, state);
    if !lines.is_empty() && put_under_lock(rt, output, lines.as_slice()).is_err() {
        return Some(unwritten(rt));
    }
    None
}
