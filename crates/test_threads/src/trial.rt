//! What the tests do with a new server.

ghost use Rattle.std.specs.Prelude.{◌≡◌, ◌<◌, ◌≤◌};
ghost use Rattle.std.specs.Arc.{arc_value};
ghost use Rattle.ns_shard.specs.State.{no_entries};
ghost use Rattle.ns_tally.specs.Tally.{AreNamed};

use crate::alone_tests::{calls_alone, trim_alone};
use crate::caller::{Caller, Ended, Serves, Worker};
use crate::growth_tests::{calls_refused, closed_without, trim_refused};
use crate::large_tests::{are_left_twice, is_half_open, long_trims, many_windows};
use crate::long_tests::long_run;
use crate::served::{Work, served};
use crate::tests::{are_right, has_one, makes_one};
use crate::trim_tests::Run;
use crate::work::parted;
use crate::workers::{Runs, run_on, tell_replies};
use ns_device::traffic::roster_of;
use ns_outside::Receipt;
use ns_roster::Roster;
use ns_server::{Naming, Pass, Server, SettleFault, Settled};
use ns_tally::Blanks;
use std::alloc::{AllocError, Global};
use std::marker::Brand;
use std::process::Abort;
use std::rt::Clock;
use std::sync::{Arc, Wait};
use std::test::*;
use std::thread::Threads;

/// What a test does with a new server and the passes of its workers.
#[derive(Clone, Copy)]
pub enum Trial<'a> {
    // Each worker does this work in a thread of its own.
    InThreads(Work<'a>),
    // What is made before such threads begin.
    Begun(Work<'a>),
    // One worker runs over memory, or two beside each other.
    Workers(Runs<'a>),
    HeldBack,
    Refused,
    Closings,
    TrimRefused,
    // The growth of this number is refused, and no other: of calls, or of a trim.
    CallsAlone(u32),
    TrimAlone(u32),
    LongRun,
    Trimmed(&'a Run),
    LongTrims,
    ManyWindows,
    Unused,
}

/// Of each shard, how many entries are to be dropped in the end, and how many it is to have.
pub type Left = [(u64, u64); 16];

// Whether a server's histories are so.
fn are_left<E: Ended>(settled: &E, left: &Left) -> bool {
    for shard in 0..16u8 {
        let (_, dropped, has) = settled.counts(shard);
        if (dropped, has) != left[usize::from(shard)] {
            return false;
        }
    }
    true
}

/// What comes of a trial, beside what the server is left with: the receipts of workers in threads, what the runs of workers tell, of a
/// trial by one worker how many entries were made, where all is as it is to be, and of a long run what is to be left.
#[derive(Drop)]
pub struct Outcome {
    pub receipts: Vec<Receipt>,
    pub told: String,
    pub made: Option<u64>,
    pub left: Left,
}

impl Outcome {
    /// Nothing came yet.
    pub fn new(alloc: Global) -> Outcome {
        Outcome {
            receipts: Vec::new(alloc),
            told: String::new(alloc),
            made: None,
            left: [(0, 0); 16],
        }
    }

    // Makes what one worker makes of a trial.
    fn make<C: Caller>(&mut self, alloc: Global, caller: &mut C, trial: Trial) {
        self.made = match trial {
            Trial::InThreads(work) => work.make(caller, &mut self.receipts).and(Some(0)),
            Trial::Begun(work) => work.begin(caller, &mut self.receipts).and(Some(0)),
            _ => made_by(alloc, caller, trial, &mut self.left),
        };
    }

    // Whether a server has made so many entries, and its histories are as the trial is to leave them.
    fn is_right<E: Ended>(&mut self, settled: &mut E, trial: Trial) -> bool {
        match trial {
            Trial::InThreads(work) => are_right(settled, &mut self.receipts, work) == Some(true),
            Trial::Workers(_) => {
                let told = tell_replies(&mut self.told, settled);
                self.made.and(told).is_some()
            }
            _ => {
                let total = settled.total();
                self.made.map(u128::from) == Some(total) && is_left(settled, trial, &self.left)
            }
        }
    }

    // What is not as it is to be of a server that has ended, if anything.
    fn ended<E: Ended + Drop>(
        &mut self,
        settled: Result<E, &'static str>,
        trial: Trial,
    ) -> Result<(), &'static str> {
        let mut settled = settled?;
        let is_right = self.is_right(&mut settled, trial);
        drop(settled);
        is_right.then_some(()).ok_or("not all is as it is to be")
    }
}

// Makes the trial by one worker. How many entries were made, where all is as it is to be, and of a long run what is to be left.
fn made_by<C: Caller>(alloc: Global, caller: &mut C, trial: Trial, left: &mut Left) -> Option<u64> {
    match trial {
        Trial::HeldBack => makes_one(caller),
        Trial::Refused => calls_refused(alloc, caller),
        Trial::Closings => closed_without(alloc, caller),
        Trial::TrimRefused => trim_refused(alloc, caller),
        Trial::CallsAlone(n) => calls_alone(alloc, caller, n),
        Trial::TrimAlone(n) => trim_alone(alloc, caller, n),
        Trial::LongRun => long_run(alloc, caller, left),
        Trial::Trimmed(run) => run.make(alloc, caller),
        Trial::LongTrims => long_trims(caller),
        Trial::ManyWindows => many_windows(caller),
        _ => Some(0),
    }
}

// Whether the server's histories are as such a trial is to leave them.
fn is_left<E: Ended>(settled: &mut E, trial: Trial, left: &Left) -> bool {
    match trial {
        Trial::HeldBack => has_one(settled),
        Trial::TrimRefused | Trial::TrimAlone(_) => {
            let (mark, dropped, _) = settled.counts(13);
            (mark, dropped) == (14, 1)
        }
        Trial::LongRun => are_left(settled, left),
        Trial::Trimmed(run) => run.is_left(settled),
        Trial::LongTrims => are_left_twice(settled),
        Trial::ManyWindows => is_half_open(settled),
        _ => true,
    }
}

/// Makes what the worker with this pass makes of a trial.
pub fn by_pass<S: Serves<R>, R: Clock>(
    rt: &R,
    alloc: Global,
    server: &S,
    pass: &mut S::Pass,
    trial: Trial,
    outcome: &mut Outcome,
) {
    let mut worker = Worker {
        rt,
        alloc,
        server,
        pass,
    };
    outcome.make(alloc, &mut worker, trial);
}

/// The same by the last of the workers, if there is one.
pub fn by_last<S: Serves<R>, R: Clock>(
    rt: &R,
    alloc: Global,
    server: &S,
    passes: &mut Vec<S::Pass>,
    trial: Trial,
    outcome: &mut Outcome,
) {
    if let Some(pass) = passes.last_mut() {
        by_pass(rt, alloc, server, pass, trial, outcome);
    }
}

// Makes the trial. The passes when it has ended.
fn made<S: Serves<R> + Sync, R: Threads + Wait + Clock + Sync>(
    rt: &R,
    alloc: Global,
    server: &S,
    mut passes: Vec<S::Pass>,
    trial: Trial,
    outcome: &mut Outcome,
) -> Result<Vec<S::Pass>, AllocError>
where
    S::Pass: Send,
{
    match trial {
        Trial::InThreads(work) => {
            let done = served(rt, alloc, server, passes, work, outcome)?;
            parted(alloc, done, &mut outcome.receipts)
        }
        Trial::Workers(runs) => {
            let ran = run_on(
                rt,
                alloc,
                server,
                passes.as_mut_slice(),
                &mut outcome.told,
                runs,
            );
            outcome.made = ran.and(Some(0));
            Ok(passes)
        }
        _ => {
            by_last(rt, alloc, server, &mut passes, trial, outcome);
            Ok(passes)
        }
    }
}

// The pass that a trial holds back at first, if it holds one.
fn held_back<P: Drop>(passes: &mut Vec<P>, trial: Trial) -> Option<P> {
    match trial {
        Trial::HeldBack => passes.pop(),
        _ => None,
    }
}

// Makes the trial, and settles the server. What is not as it is to be, if anything.
fn is_right<B: Naming + Send + Sync, R: Threads + Wait + Clock + Sync>(
    rt: &R,
    alloc: Global,
    server: Server<B>,
    passes: Vec<Pass<B>>,
    trial: Trial,
    outcome: &mut Outcome,
) -> Result<(), &'static str> {
    match made(rt, alloc, &server, passes, trial, outcome) {
        Ok(passes) => outcome.ended(settled(server, passes, trial), trial),
        Err(AllocError) => {
            drop(server);
            Err("no memory")
        }
    }
}

/// A roster of this many devices, with the numbers from a first one on, by steps.
pub fn shared_roster(alloc: Global, first: u32, step: u32, devices: u32) -> Option<Arc<Roster>> {
    Arc::new(alloc, roster_of(alloc, first, step, devices).ok()?).ok()
}

/// Makes a trial on a new server of so many devices, by one worker.
pub fn on_server<R: Threads + Wait + Abort + Clock + Sync>(
    rt: &R,
    alloc: Global,
    devices: u32,
    trial: Trial,
) {
    with_workers(rt, alloc, devices, 1, trial);
}

/// The same by so many workers.
pub fn with_workers<R: Threads + Wait + Abort + Clock + Sync>(
    rt: &R,
    alloc: Global,
    devices: u32,
    workers: usize,
    trial: Trial,
)
    requires { (0 < workers) × (workers ≤ 64) }
{
    on_roster(
        rt,
        alloc,
        shared_roster(alloc, 0, 1, devices),
        workers,
        trial,
    );
}

/// The same on a new server of this roster.
pub fn on_roster<R: Threads + Wait + Abort + Clock + Sync>(
    rt: &R,
    alloc: Global,
    roster: Option<Arc<Roster>>,
    workers: usize,
    trial: Trial,
)
    requires { (0 < workers) × (workers ≤ 64) }
{
    let made = is_made_on(rt, alloc, roster, workers, trial);
    assert!(rt; made == Ok(true), "{made:?}");
}

// Whether there is memory for a new server of this roster; then the trial was made on it.
fn is_made_on<R: Threads + Wait + Clock + Sync>(
    rt: &R,
    alloc: Global,
    roster: Option<Arc<Roster>>,
    workers: usize,
    trial: Trial,
) -> Result<bool, &'static str>
    requires { (0 < workers) × (workers ≤ 64) }
{
    match roster {
        Some(roster) => is_made(rt, alloc, roster, workers, trial, &mut Outcome::new(alloc)),
        None => Err("no roster"),
    }
}

/// Whether there is memory for a new server of this roster; then the trial was made on it.
pub fn is_made<R: Threads + Wait + Clock + Sync>(
    rt: &R,
    alloc: Global,
    roster: Arc<Roster>,
    workers: usize,
    trial: Trial,
    outcome: &mut Outcome,
) -> Result<bool, &'static str>
    requires { (0 < workers) × (workers ≤ 64) }
{
    let blanks = Blanks::new(workers as u64);
    named::<Brand, R>(rt, alloc, roster, blanks, workers, trial, outcome)
}

// The same for a server that has a name.
fn named<B: Naming + Send + Sync, R: Threads + Wait + Clock + Sync>(
    rt: &R,
    alloc: Global,
    roster: Arc<Roster>,
    blanks: Blanks,
    workers: usize,
    trial: Trial,
    outcome: &mut Outcome,
) -> Result<bool, &'static str>
    requires workers { (0 < workers) × (workers ≤ 64) }
    requires names { AreNamed B.ledger blanks.names }
    requires parts { (blanks.parts ≡ workers) × (B.workers ≡ workers) }
    requires roster { arc_value roster ≡ B.roster }
    requires begun { B.begun ≡ no_entries B.roster }
{
    match Server::<B>::new(alloc, roster, workers, blanks) {
        Ok((server, passes)) => {
            is_right(rt, alloc, server, passes, trial, outcome).and(Ok(true))
        }
        Err(AllocError) => Ok(false),
    }
}

// Settles the server of a trial: where a pass is held back this fails, and gives all back; and then with that pass.
fn settled<B: Naming>(
    server: Server<B>,
    mut passes: Vec<Pass<B>>,
    trial: Trial,
) -> Result<Settled<B>, &'static str> {
    let held = held_back(&mut passes, trial);
    match server.settle(passes) {
        Ok(settled) => at_once(settled, held),
        Err(SettleFault { server, passes }) => match server.settle(whole(passes, held)) {
            Ok(settled) => Ok(settled),
            Err(SettleFault { server, passes }) => {
                drop(server);
                drop(passes);
                Err("a pass is missing")
            }
        },
    }
}

// What was settled at once, which fails where a pass was held back.
fn at_once<S: Drop, P: Drop>(settled: S, held: Option<P>) -> Result<S, &'static str> {
    match held {
        None => Ok(settled),
        Some(_) => Err("a pass was missing"),
    }
}

// Passes with the one that was held back.
fn whole<P: Drop>(mut passes: Vec<P>, held: Option<P>) -> Vec<P> {
    if let Some(pass) = held {
        let _ = passes.push(pass).is_ok();
    }
    passes
}
