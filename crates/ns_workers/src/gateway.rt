//! Reads the datagrams of gateways, makes their calls and puts the jobs that follow.
ghost use Rattle.std.specs.Prelude.{◌≡◌, ◌≢◌, ◌+◌, ◌^◌, ◌<◌, ◌≤◌, [], ◌∷◌, false, true, None, Some};
ghost use Rattle.ns_workers.specs.Effects.{effects};
ghost use Rattle.ns_workers.specs.Serving.{Follows, IsDue, Serves, ServesAll};

use crate::closer::hand_out;
use crate::counted::make_call;
use crate::datagram::put_call;
use crate::job::{call_at_once, leads_to_job};
use crate::shared::Shared;
use ns_calls::{Call, Reply};
use ns_outside::{
    Calls, Datagrams, Downlinks, Gate, Job, Jobs, Monitor, Receipt, Received, Timer, WorkerFault,
    job_of,
};
use ns_types::Sink;
use std::sync::Wait;

/// What a gateway worker has done: how many datagrams it read, how many of them were refused, how many were dropped for want of
/// memory, and why it ended early.
#[derive(Clone, Copy)]
pub struct Served {
    pub read: u64,
    pub refused: u64,
    pub dropped: u64,
    pub fault: Option<WorkerFault>,
}

// A worker whose count is this ends.
const MOST: u64 = 1 << 63;

// Puts a job; where it cannot be put, the worker does at once what it asks, and hands out what comes of that. Gives the fault where
// that could not be done. The receipt is room.
#[tactic(auto, using(crate::proofs::Servings::follows_put, crate::proofs::Servings::follows_itself, crate::proofs::Servings::follows_unsent, crate::proofs::Servings::follows_undone, crate::proofs::Doings::does_own, crate::proofs::Doings::does_put,))]
fn put_job<
    S: Calls<R>,
    R,
    G: Gate<R>,
    M: Monitor<R>,
    T: Timer<R>,
    P: Jobs<R, Job>,
    D: Downlinks<R>,
    W: Sink,
>(
    shared: &Shared<'_, S, R, G, M>,
    pass: &mut S::Pass,
    timer: &T,
    jobs: &mut P,
    down: &mut D,
    sink: &mut W,
    receipt: &mut Receipt,
    job: Job,
) -> Option<WorkerFault>
    requires { W.has_failed sink.old ≡ false }
    ensures follows { let before = effects (S.made pass.old) (P.taken jobs.old) (D.taken down.old) (W.taken sink.old) in
        let after = effects (S.made pass.new) (P.taken jobs.new) (D.taken down.new) (W.taken sink.new) in
        Follows S.roster shared.now.output (M.has_heard shared.now.monitor.now) job result before after }
    ensures sound { result ≢ Some WorkerFault.SinkFailed → W.has_failed sink.new ≡ false }
    ensures failed { result ≡ Some WorkerFault.SinkFailed → W.has_failed sink.new ≡ true }
    ensures source { result ≢ Some WorkerFault.SourceFailed }
{
    let Err(job) = jobs.put(shared.rt, job) else {
        return None;
    };
    let Ok(()) = make_call(shared, pass, &call_at_once(&job), receipt) else {
        return Some(WorkerFault::NoMemory);
    };
    match hand_out(shared, timer, job.due(), down, sink, receipt) {
        Ok(()) => None,
        Err(_) => Some(WorkerFault::SinkFailed),
    }
}

// The job that follows a reply. The clock is asked only where one does.
fn job_after<R, T: Timer<R>>(rt: &R, timer: &T, reply: &Reply, window_ms: u32) -> Option<Job>
    ensures { IsDue (T.has_told timer.now) window_ms reply.now result }
{
    if !leads_to_job(reply) {
        return None;
    }
    job_of(reply, timer.now(rt), window_ms)
}

// Makes the call of a datagram that is not refused, and puts the job that follows, if one does. The call and the receipt are room.
#[tactic(auto, using(crate::proofs::Servings::serves_refused, crate::proofs::Servings::serves_dropped, crate::proofs::Servings::serves_called, crate::proofs::Servings::serves_followed, crate::proofs::Doings::does_call,))]
fn serve_one<
    S: Calls<R>,
    R,
    G: Gate<R>,
    M: Monitor<R>,
    T: Timer<R>,
    P: Jobs<R, Job>,
    D: Downlinks<R>,
    W: Sink,
>(
    shared: &Shared<'_, S, R, G, M>,
    pass: &mut S::Pass,
    timer: &T,
    jobs: &mut P,
    down: &mut D,
    sink: &mut W,
    window_ms: u32,
    call: &mut Call,
    receipt: &mut Receipt,
    served: &mut Served,
    bytes: &[u8],
)
    requires sound { W.has_failed sink.old ≡ false }
    requires counts { (served.old.read < 2 ^ 63) × (served.old.refused < 2 ^ 63) × (served.old.dropped < 2 ^ 63) }
    requires fault { served.old.fault ≡ None }
    ensures serves { let before = effects (S.made pass.old) (P.taken jobs.old) (D.taken down.old) (W.taken sink.old) in
        let after = effects (S.made pass.new) (P.taken jobs.new) (D.taken down.new) (W.taken sink.new) in
        Serves S.roster shared.now.output (M.has_heard shared.now.monitor.now) (T.has_told timer.now) window_ms served.old served.new before after (bytes.now ∷ []) }
    ensures few { (served.new.refused ≤ served.old.refused + 1) × (served.new.dropped ≤ served.old.dropped + 1) }
    ensures sound { served.new.fault ≢ Some WorkerFault.SinkFailed → W.has_failed sink.new ≡ false }
    ensures failed { served.new.fault ≡ Some WorkerFault.SinkFailed → W.has_failed sink.new ≡ true }
    ensures source { served.new.fault ≢ Some WorkerFault.SourceFailed }
{
    served.read += 1;
    if let Err(why) = put_call(bytes, call) {
        shared.monitor.refused(shared.rt, why);
        served.refused += 1;
        return;
    }
    let Ok(()) = make_call(shared, pass, call, receipt) else {
        shared.monitor.dropped(shared.rt);
        served.dropped += 1;
        return;
    };
    if let Some(job) = job_after(shared.rt, timer, &receipt.entry.reply, window_ms) {
        served.fault = put_job(shared, pass, timer, jobs, down, sink, receipt, job);
    }
}

/// Reads datagrams, makes the call of each that is not refused, and puts the job that follows (`job_of`, with the time at which the call
/// was answered). Where a job cannot be put, the worker closes the window itself, sends its acknowledgement and writes its line,
/// or answers the ticket as failed.
///
/// A call that is refused for want of memory is dropped and counted. With no fault the source has ended, or 2^63 datagrams were read. K1
/// where a job could not be put and its call was refused memory, which `Kept::step` does only where its window or ticket is not open (no
/// clause here); K2 where the source failed; K3 where the sink failed.
pub fn run_gateway<
    S: Calls<R>,
    R: Wait,
    G: Gate<R>,
    M: Monitor<R>,
    I: Datagrams<R>,
    T: Timer<R>,
    P: Jobs<R, Job>,
    D: Downlinks<R>,
    W: Sink,
>(
    shared: &Shared<'_, S, R, G, M>,
    pass: &mut S::Pass,
    datagrams: &mut I,
    timer: &T,
    jobs: &mut P,
    down: &mut D,
    sink: &mut W,
    window_ms: u32,
) -> Served
    requires { W.has_failed sink.old ≡ false }
    ensures serves { let before = effects (S.made pass.old) (P.taken jobs.old) (D.taken down.old) (W.taken sink.old) in
        let after = effects (S.made pass.new) (P.taken jobs.new) (D.taken down.new) (W.taken sink.new) in
        ServesAll S.roster shared.now.output (M.has_heard shared.now.monitor.now) (T.has_told timer.now) window_ms
        (I.given datagrams.old) (I.given datagrams.new) before after result }
    ensures sound { result.fault ≢ Some WorkerFault.SinkFailed → W.has_failed sink.new ≡ false }
    ensures failed { result.fault ≡ Some WorkerFault.SinkFailed → W.has_failed sink.new ≡ true }
{
    let rt = shared.rt;
    let mut buf = [0u8; 512];
    let mut receipt = Receipt::empty();
    let mut call = Receipt::empty().entry.call;
    let mut served = Served {
        read: 0,
        refused: 0,
        dropped: 0,
        fault: None,
    };
    for _turn in rt.forever() {
        let n = match datagrams.next(rt, &mut buf) {
            Received::Got(n) => n,
            Received::Idle => continue,
            Received::End => return served,
            Received::Failed => {
                served.fault = Some(WorkerFault::SourceFailed);
                return served;
            }
        };
        serve_one(
            shared,
            pass,
            timer,
            jobs,
            down,
            sink,
            window_ms,
            &mut call,
            &mut receipt,
            &mut served,
            &buf[..n],
        );
        if served.fault.is_some() || served.read >= MOST {
            return served;
        }
    }
    unreachable!()
}
