//! Asks the join server about tickets, and answers them.
ghost use Rattle.std.specs.Prelude.{◌≡◌, ◌≢◌, [], ◌∷◌, None, Some, IfOk, IfErr, OnErr};
ghost use Rattle.ns_output.specs.declared.output.Output.TheVariants.{Lines};
ghost use Rattle.ns_exchange.specs.HostText.{host_text};
ghost use Rattle.ns_workers.specs.Asking.{IsAnswered, IsUnanswered, HasOutcome};
ghost use Rattle.ns_workers.specs.Answering.{IsOutcome, IsReply, Answers};
ghost use Rattle.ns_workers.specs.Effects.{Does, effects};

use crate::counted::{make_call, send_down};
use crate::job::is_too_old;
use crate::shared::Shared;
use ns_calls::{Call, JoinAns, Outcome};
use ns_exchange::HostName;
use ns_joinclient::ask;
use ns_joinwire::join_req;
use ns_outside::{
    AskJob, Calls, Connections, Downlinks, Gate, JobSource, JoinFault, Monitor, Next, Receipt,
    Timer, WorkerFault,
};
use ns_roster::Roster;
use ns_types::Ticket;
use std::alloc::{AllocError, Global};

/// What a join worker has done: how many tickets it answered, and why it ended early.
#[derive(Clone, Copy)]
pub struct Joined {
    pub answered: u64,
    pub fault: Option<WorkerFault>,
}

// A worker whose count is this ends.
const MOST: u64 = 1 << 63;

// What the join server answers to a ticket.
fn ask_server<R, C: Connections<R>>(
    rt: &R,
    alloc: Global,
    roster: &Roster,
    host: HostName<'_>,
    connections: &C,
    ticket: &Ticket,
) -> Result<JoinAns, JoinFault>
    ensures answer { let has_opened = C.has_opened connections.now in
        IfOk result (λ answer. IsAnswered C.S.taken C.S.left has_opened roster.now (host_text host.entry) ticket.now answer) }
    ensures why { let has_opened = C.has_opened connections.now in
        let has_none = C.has_none connections.now in
        IfErr result (λ why. IsUnanswered C.S.taken C.S.left C.S.has_failed has_opened has_none roster.now (host_text host.entry) ticket.now why) }
{
    let Some(device) = roster.find(ticket.dev_eui()) else {
        return Err(JoinFault::NoDevice);
    };
    let Ok(request) = join_req(alloc, roster, device, ticket) else {
        return Err(JoinFault::NoMemory);
    };
    let Some(mut stream) = connections.open(rt) else {
        return Err(JoinFault::NoConnection);
    };
    match ask(
        alloc,
        &mut stream,
        host,
        request.as_str(),
        ticket.transaction(),
    ) {
        Ok(answer) => Ok(answer),
        Err(fault) => Err(JoinFault::Exchange(fault)),
    }
}

// How asking about a ticket ended. Without an answer the join failed, and the device may ask again.
fn outcome_of<R, C: Connections<R>, M: Monitor<R>>(
    rt: &R,
    alloc: Global,
    roster: &Roster,
    host: HostName<'_>,
    connections: &C,
    monitor: &M,
    ticket: &Ticket,
) -> Outcome
    ensures { let has_opened = C.has_opened connections.now in
        let has_none = C.has_none connections.now in
        let has_heard = M.has_heard monitor.now in
        HasOutcome C.S.taken C.S.left C.S.has_failed has_opened has_none has_heard roster.now (host_text host.entry) ticket.now result }
{
    match ask_server(rt, alloc, roster, host, connections, ticket) {
        Ok(answer) => Outcome::Success(answer),
        Err(fault) => {
            monitor.unanswered(rt, ticket, &fault);
            Outcome::Failed
        }
    }
}

// The outcome for the ticket of a job: of asking about it, or Failed where it is too old to be asked about.
#[tactic(auto, using(crate::proofs::Answerings::outcome_stale, crate::proofs::Answerings::outcome_asked,))]
fn outcome_for<R, C: Connections<R>, T: Timer<R>, M: Monitor<R>>(
    rt: &R,
    alloc: Global,
    roster: &Roster,
    host: HostName<'_>,
    connections: &C,
    timer: &T,
    monitor: &M,
    job: &AskJob,
) -> Outcome
    ensures { let has_opened = C.has_opened connections.now in
        let has_none = C.has_none connections.now in
        let has_heard = M.has_heard monitor.now in
        let has_outcome = HasOutcome C.S.taken C.S.left C.S.has_failed has_opened has_none has_heard roster.now (host_text host.entry) in
        IsOutcome has_heard (T.has_told timer.now) has_outcome job.now result }
{
    if is_too_old(job, timer.now(rt)) {
        monitor.stale(rt, &job.ticket);
        return Outcome::Failed;
    }
    outcome_of(rt, alloc, roster, host, connections, monitor, &job.ticket)
}

// Answers the ticket of a job: by what the join server answers, or as failed where it is too old to be asked about. Sends what goes
// down.
#[tactic(auto, using(crate::proofs::Answerings::reply_of, crate::proofs::Doings::does_reply,))]
fn answer_job<
    S: Calls<R>,
    R,
    G: Gate<R>,
    M: Monitor<R>,
    C: Connections<R>,
    T: Timer<R>,
    D: Downlinks<R>,
>(
    alloc: Global,
    shared: &Shared<'_, S, R, G, M>,
    pass: &mut S::Pass,
    connections: &C,
    timer: &T,
    down: &mut D,
    roster: &Roster,
    host: HostName<'_>,
    job: &AskJob,
) -> Result<Receipt, AllocError>
    ensures reply { let has_opened = C.has_opened connections.now in
        let has_none = C.has_none connections.now in
        let has_heard = M.has_heard shared.now.monitor.now in
        let has_outcome = HasOutcome C.S.taken C.S.left C.S.has_failed has_opened has_none has_heard roster.now (host_text host.entry) in
        IfOk result (λ r. IsReply (IsOutcome has_heard (T.has_told timer.now) has_outcome) job.now r) }
    ensures does { let before = effects (S.made pass.old) None (D.taken down.old) None in
        let after = effects (S.made pass.new) None (D.taken down.new) None in
        IfOk result (λ r. Does S.roster Lines (M.has_heard shared.now.monitor.now) None before after (r ∷ []) (r ∷ []) []) }
    ensures err { OnErr result ((S.made pass.new ≡ S.made pass.old) × (down.new ≡ down.old)) }
{
    let outcome = outcome_for(
        shared.rt,
        alloc,
        roster,
        host,
        connections,
        timer,
        shared.monitor,
        job,
    );
    let call = Call::JoinReply {
        ticket: job.ticket,
        outcome,
    };
    let mut receipt = Receipt::empty();
    make_call(shared, pass, &call, &mut receipt)?;
    send_down(shared, down, &receipt);
    Ok(receipt)
}

/// Asks the join server about each ticket, and answers it: with what the join server answered, or, where there was no answer that
/// can be used, as failed. About a ticket that is older than `MOST_AGE_MS` when its turn comes it is not asked. In which order the
/// tickets come is the source's business.
///
/// With no fault the source has ended, or 2^63 tickets were taken. K1 where the call was refused for want of memory: then the ticket taken
/// last was not open (no clause). K2 where the source failed. K3 never comes.
pub fn run_join<
    S: Calls<R>,
    R,
    G: Gate<R>,
    M: Monitor<R>,
    C: Connections<R>,
    T: Timer<R>,
    J: JobSource<R, AskJob>,
    D: Downlinks<R>,
>(
    alloc: Global,
    shared: &Shared<'_, S, R, G, M>,
    pass: &mut S::Pass,
    connections: &C,
    timer: &T,
    jobs: &mut J,
    down: &mut D,
    roster: &Roster,
    host: HostName<'_>,
) -> Joined
    ensures answers { let has_opened = C.has_opened connections.now in
        let has_none = C.has_none connections.now in
        let has_heard = M.has_heard shared.now.monitor.now in
        let has_outcome = HasOutcome C.S.taken C.S.left C.S.has_failed has_opened has_none has_heard roster.now (host_text host.entry) in
        let before = effects (S.made pass.old) None (D.taken down.old) None in
        let after = effects (S.made pass.new) None (D.taken down.new) None in
        Answers S.roster has_heard (IsOutcome has_heard (T.has_told timer.now) has_outcome) (J.given jobs.old) (J.given jobs.new) before after result }
    ensures same { J.all jobs.new ≡ J.all jobs.old }
    ensures fault { result.fault ≢ Some WorkerFault.SinkFailed }
{
    let mut joined = Joined {
        answered: 0,
        fault: None,
    };
    while joined.answered < MOST {
        let job = match jobs.take(shared.rt) {
            Next::Job(job) => job,
            Next::End => return joined,
            Next::Failed => {
                joined.fault = Some(WorkerFault::SourceFailed);
                return joined;
            }
        };
        let answered = answer_job(
            alloc,
            shared,
            pass,
            connections,
            timer,
            down,
            roster,
            host,
            &job,
        );
        if answered.is_err() {
            joined.fault = Some(WorkerFault::NoMemory);
            return joined;
        }
        joined.answered += 1;
    }
    joined
}
