//! Closes windows as they become due.
ghost use Rattle.std.specs.Prelude.{◌≡◌, ◌≢◌, ◌+◌, ◌<◌, ◌≤◌, [], None, Some, false, true, option_to_list, take, vec_len, vec_capacity, All, OnOk, OnErr};
ghost use Rattle.ns_outside.specs.Answered.{RisesAt};
ghost use Rattle.ns_workers.specs.Closing.{Closes, AreAnswered, HasAnswer, NothingDone, closing};
ghost use Rattle.ns_workers.specs.Closed.{ClosesOne, ClosesAll};
ghost use Rattle.ns_workers.specs.Counts.{RisesByReceipts};
ghost use Rattle.ns_workers.specs.Effects.{effects};
ghost use Rattle.ns_outside.specs.Grown.{Grows};
ghost use Rattle.ns_workers.specs.Lines.{AppendsLine, AppendsLineFront, AppendsLines, AppendsLinesFront, downlinks_of};
ghost use Rattle.ns_outside.specs.Notice.{call_replied};

use crate::counted::{make_call, send_down};
use crate::line::write_uplink;
use crate::shared::Shared;
use ns_calls::Call;
use ns_outside::{
    Calls, CloseJob, Downlinks, Gate, JobSource, Monitor, Next, Receipt, Timer, WorkerFault,
};
use ns_types::{Failed, Sink};
use std::alloc::{AllocError, Global};

/// What a closer has done: the receipts of its closings, in order, and why it ended early.
#[derive(Drop)]
pub struct Ended {
    pub receipts: Vec<Receipt>,
    pub fault: Option<WorkerFault>,
}

// Waits until the job is due, and closes its window. Puts the receipt in the place of another.
fn close_due<S: Calls<R>, R, G: Gate<R>, M: Monitor<R>, T: Timer<R>>(
    shared: &Shared<'_, S, R, G, M>,
    pass: &mut S::Pass,
    timer: &T,
    job: CloseJob,
    receipt: &mut Receipt,
) -> Result<(), AllocError>
    ensures waited { T.has_come timer.now job.due }
    ensures call { OnOk result (receipt.new.entry.call ≡ closing job) }
    ensures answered { OnOk result (HasAnswer S.roster receipt.new) }
    ensures counted { OnOk result (RisesAt receipt.new.shard (S.made pass.old) (S.made pass.new)) }
    ensures told { OnOk result (M.has_heard shared.now.monitor.now (call_replied receipt.new)) }
    ensures err { OnErr result (S.made pass.new ≡ S.made pass.old) }
{
    timer.until(shared.rt, job.due);
    let call = Call::Close { window: job.name };
    make_call(shared, pass, &call, receipt)
}

// Sends what goes down, and writes the line of what goes up, whose window was due then.
pub(crate) fn hand_out<S: Calls<R>, R, G, D: Downlinks<R>, M: Monitor<R>, T: Timer<R>, W: Sink>(
    shared: &Shared<'_, S, R, G, M>,
    timer: &T,
    due: u64,
    down: &mut D,
    sink: &mut W,
    receipt: &Receipt,
) -> Result<(), Failed>
    requires { W.has_failed sink.old ≡ false }
    ensures down { Grows (D.taken down.old) (D.taken down.new) (option_to_list receipt.now.downlink) }
    ensures ok { OnOk result (AppendsLine shared.now.output (W.taken sink.old) (W.taken sink.new) receipt.now.uplink) }
    ensures sound { OnOk result (W.has_failed sink.new ≡ false) }
    ensures front { AppendsLineFront shared.now.output (W.taken sink.old) (W.taken sink.new) receipt.now.uplink }
    ensures failed { OnErr result (W.has_failed sink.new ≡ true) }
{
    send_down(shared, down, receipt);
    write_uplink(shared.rt, shared.output, timer, due, sink, &receipt.uplink)
}

// Makes room for a receipt behind so many, where another is not there already.
fn make_place(receipts: &mut Vec<Receipt>, place: usize)
    requires place { place ≤ vec_len receipts.old }
    requires room { place < vec_capacity receipts.old }
    ensures before { take place receipts.new.items ≡ take place receipts.old.items }
    ensures there { place < vec_len receipts.new }
    ensures room { vec_capacity receipts.new ≡ vec_capacity receipts.old }
{
    if place == receipts.len() {
        receipts.push_reserved(Receipt::empty());
    }
}

// Closes the window of a job once it is due, and hands out what comes of that. The receipt is made in the place behind those so far, where
// another may be; where the closing was refused memory it counts for none. Tells the fault where there was one.
fn close_next<S: Calls<R>, R, G: Gate<R>, D: Downlinks<R>, M: Monitor<R>, T: Timer<R>, W: Sink>(
    shared: &Shared<'_, S, R, G, M>,
    pass: &mut S::Pass,
    timer: &T,
    down: &mut D,
    sink: &mut W,
    receipts: &mut Vec<Receipt>,
    count: &mut usize,
    job: CloseJob,
) -> Option<WorkerFault>
    requires sound { W.has_failed sink.old ≡ false }
    requires place { count.old ≤ vec_len receipts.old }
    requires room { count.old < vec_capacity receipts.old }
    ensures waited { T.has_come timer.now job.due }
    ensures closes { let before = effects (S.made pass.old) None (D.taken down.old) (W.taken sink.old) in
        let after = effects (S.made pass.new) None (D.taken down.new) (W.taken sink.new) in
        ClosesOne S.roster shared.now.output (M.has_heard shared.now.monitor.now) job result before after (take count.old receipts.old.items) (take count.new receipts.new.items) }
    ensures count { result ≡ None → count.new ≡ count.old + 1 }
    ensures place { count.new ≤ vec_len receipts.new }
    ensures room { vec_capacity receipts.new ≡ vec_capacity receipts.old }
    ensures sound { result ≢ Some WorkerFault.SinkFailed → W.has_failed sink.new ≡ false }
    ensures failed { result ≡ Some WorkerFault.SinkFailed → W.has_failed sink.new ≡ true }
    ensures source { result ≢ Some WorkerFault.SourceFailed }
{
    make_place(receipts, *count);
    let receipt = &mut receipts[*count];
    let Ok(()) = close_due(shared, pass, timer, job, receipt) else {
        return Some(WorkerFault::NoMemory);
    };
    *count += 1;
    match hand_out(shared, timer, job.due, down, sink, receipt) {
        Ok(()) => None,
        Err(_) => Some(WorkerFault::SinkFailed),
    }
}

// Closes the windows of jobs, and puts the receipts into a list that has room for as many as there may be, in the places of others. Tells
// the fault where there was one.
fn close_all<
    S: Calls<R>,
    R,
    G: Gate<R>,
    D: Downlinks<R>,
    M: Monitor<R>,
    T: Timer<R>,
    J: JobSource<R, CloseJob>,
    W: Sink,
>(
    shared: &Shared<'_, S, R, G, M>,
    pass: &mut S::Pass,
    timer: &T,
    jobs: &mut J,
    down: &mut D,
    sink: &mut W,
    receipts: &mut Vec<Receipt>,
    count: &mut usize,
    limit: usize,
) -> Option<WorkerFault>
    requires sound { W.has_failed sink.old ≡ false }
    requires none { count.old ≡ 0 }
    requires room { limit ≤ vec_capacity receipts.old }
    ensures closes { let before = effects (S.made pass.old) None (D.taken down.old) (W.taken sink.old) in
        let after = effects (S.made pass.new) None (D.taken down.new) (W.taken sink.new) in
        ClosesAll S.roster shared.now.output (M.has_heard shared.now.monitor.now) (T.has_come timer.now) limit
        (J.given jobs.old) (J.given jobs.new) before after (take count.new receipts.new.items) result }
    ensures same { J.all jobs.new ≡ J.all jobs.old }
    ensures room { limit ≤ vec_capacity receipts.new }
    ensures sound { result ≢ Some WorkerFault.SinkFailed → W.has_failed sink.new ≡ false }
    ensures failed { result ≡ Some WorkerFault.SinkFailed → W.has_failed sink.new ≡ true }
{
    while *count < limit {
        let job = match jobs.take(shared.rt) {
            Next::Job(job) => job,
            Next::End => return None,
            Next::Failed => return Some(WorkerFault::SourceFailed),
        };
        let fault = close_next(shared, pass, timer, down, sink, receipts, count, job);
        if fault.is_some() {
            return fault;
        }
    }
    None
}

/// Closes the windows of at most `limit` jobs, each as it becomes due, sends what goes down, and writes the line of each first window
/// that was open, with a line feed. Room for `limit` receipts is taken first. Each receipt tells the plain server's answer after a history
/// of its shard.
///
/// With no fault and fewer receipts than `limit` the source has ended. K1 where a growth was refused: where it is that of the room, at
/// once, with no receipts, and no job was taken; else nothing was done with the job taken last, whose window was not open (no clause). K2
/// where the source failed. K3 where the sink failed: then it has a beginning of the lines.
pub fn run_closer<
    S: Calls<R>,
    R,
    G: Gate<R>,
    D: Downlinks<R>,
    M: Monitor<R>,
    T: Timer<R>,
    J: JobSource<R, CloseJob>,
    W: Sink,
>(
    alloc: Global,
    shared: &Shared<'_, S, R, G, M>,
    pass: &mut S::Pass,
    timer: &T,
    jobs: &mut J,
    down: &mut D,
    sink: &mut W,
    limit: u32,
) -> Ended
    requires { W.has_failed sink.old ≡ false }
    ensures jobs { Closes (T.has_come timer.now) limit (J.given jobs.old) (J.given jobs.new) result.receipts.items result.fault }
    ensures same { J.all jobs.new ≡ J.all jobs.old }
    ensures answered { AreAnswered S.roster result.receipts.items }
    ensures told { All (λ r. M.has_heard shared.now.monitor.now (call_replied r)) result.receipts.items }
    ensures counted { RisesByReceipts (S.made pass.old) (S.made pass.new) result.receipts.items }
    ensures down { Grows (D.taken down.old) (D.taken down.new) (downlinks_of result.receipts.items) }
    ensures text { result.fault ≢ Some WorkerFault.SinkFailed
        → AppendsLines shared.now.output (W.taken sink.old) (W.taken sink.new) result.receipts.items }
    ensures front { AppendsLinesFront shared.now.output (W.taken sink.old) (W.taken sink.new) result.receipts.items }
    ensures sound { result.fault ≢ Some WorkerFault.SinkFailed → W.has_failed sink.new ≡ false }
    ensures failed { result.fault ≡ Some WorkerFault.SinkFailed → W.has_failed sink.new ≡ true }
    // Room for `limit` receipts is there, or nothing was done: K1 at once.
    ensures first { vec_capacity result.receipts < limit → NothingDone (J.given jobs.old) (J.given jobs.new) (S.made pass.old) (S.made pass.new) result }
{
    let room = Vec::new(alloc);
    run_closer_into(room, shared, pass, timer, jobs, down, sink, limit)
}

/// Closes windows as `run_closer` does, with the receipts in the places of others, which are gone. No more of these is written than the
/// receipts need; where there is no room for `limit` ones, that is taken first.
#[tactic(auto, using(crate::proofs::Closings::closes_before, crate::proofs::Counting::rises_none, crate::proofs::Doings::answered_none, crate::proofs::Doings::grows_none, crate::proofs::Doings::lines_none, crate::proofs::Doings::lines_whole,))]
pub fn run_closer_into<
    S: Calls<R>,
    R,
    G: Gate<R>,
    D: Downlinks<R>,
    M: Monitor<R>,
    T: Timer<R>,
    J: JobSource<R, CloseJob>,
    W: Sink,
>(
    mut receipts: Vec<Receipt>,
    shared: &Shared<'_, S, R, G, M>,
    pass: &mut S::Pass,
    timer: &T,
    jobs: &mut J,
    down: &mut D,
    sink: &mut W,
    limit: u32,
) -> Ended
    requires { W.has_failed sink.old ≡ false }
    ensures jobs { Closes (T.has_come timer.now) limit (J.given jobs.old) (J.given jobs.new) result.receipts.items result.fault }
    ensures same { J.all jobs.new ≡ J.all jobs.old }
    ensures answered { AreAnswered S.roster result.receipts.items }
    ensures told { All (λ r. M.has_heard shared.now.monitor.now (call_replied r)) result.receipts.items }
    ensures counted { RisesByReceipts (S.made pass.old) (S.made pass.new) result.receipts.items }
    ensures down { Grows (D.taken down.old) (D.taken down.new) (downlinks_of result.receipts.items) }
    ensures text { result.fault ≢ Some WorkerFault.SinkFailed
        → AppendsLines shared.now.output (W.taken sink.old) (W.taken sink.new) result.receipts.items }
    ensures front { AppendsLinesFront shared.now.output (W.taken sink.old) (W.taken sink.new) result.receipts.items }
    ensures sound { result.fault ≢ Some WorkerFault.SinkFailed → W.has_failed sink.new ≡ false }
    ensures failed { result.fault ≡ Some WorkerFault.SinkFailed → W.has_failed sink.new ≡ true }
    // Room for `limit` receipts is there, or nothing was done: K1 at once.
    ensures first { vec_capacity result.receipts < limit → NothingDone (J.given jobs.old) (J.given jobs.new) (S.made pass.old) (S.made pass.new) result }
{
    let limit = limit as usize;
    let Ok(()) = receipts.reserve(limit.saturating_sub(receipts.len())) else {
        receipts.clear();
        return Ended {
            receipts,
            fault: Some(WorkerFault::NoMemory),
        };
    };
    let mut count = 0;
    let fault = close_all(
        shared,
        pass,
        timer,
        jobs,
        down,
        sink,
        &mut receipts,
        &mut count,
        limit,
    );
    receipts.truncate(count);
    Ended { receipts, fault }
}
