//! Runs of workers, and the text that tells all that came of them.

use crate::workers::around::{Around, Asked, Faults, NONE, Put, Scarce, Sent};
use crate::workers::beside::Until;
use crate::workers::frames::heard;
use crate::workers::told::{fault_number, tell, tell_jobs, tell_out, tell_window};
use ns_calls::{Call, Reply};
use ns_exchange::HostName;
use ns_output::Output;
use ns_outside::{AskJob, Calls, CloseJob, Receipt};
use ns_roster::Roster;
use ns_types::{BLOCKS, DevEui, Fuse, Ticket, WindowName, take_rest};
use ns_workers::{
    Ended, Joined, ListedDatagrams, ListedJobs, Served, Shared, run_closer, run_gateway, run_join,
};
use std::alloc::Global;
use std::sync::Wait;
use std::time::Clock;

/// What a gateway worker reads.
#[derive(Clone, Copy)]
pub enum Reads {
    /// A frame that gateway a1 heard, so many times.
    Frame(&'static [u8], u32),
    /// The same with another byte at this place of the datagram.
    Changed(&'static [u8], usize, u8),
    /// So many bytes 01.
    Ones(usize),
}

/// A window of a device and a counter, which is due at a time, so many times.
pub type Due = (u64, u32, u64, u32);

/// What a worker does.
#[derive(Clone, Copy)]
pub enum Work {
    /// A gateway worker reads these, with room for so many jobs.
    Serve(&'static [Reads], usize),
    /// A join worker answers tickets.
    Answer(&'static [Asked]),
    /// A closer closes windows, in runs of these limits.
    Close(&'static [Due], &'static [u32]),
}

impl Work {
    // A clock at a time, by how much it goes on with each look, and what the join server is asked.
    fn around(self, alloc: Global, time: u64) -> Around {
        match self {
            Work::Serve(..) => Around::new(alloc, time, 10, &[]),
            Work::Answer(asks) => Around::new(alloc, time, 0, asks),
            Work::Close(..) => Around::new(alloc, time, 0, &[]),
        }
    }
}

/// What happens on a server.
#[derive(Clone, Copy)]
pub enum Run {
    /// A worker does this from a time on.
    At(u64, Work, Faults),
    /// What was told before is left out.
    LeaveOut,
    /// These are heard and answered, with one block of memory more each time, until a Join-Accept goes down.
    UntilAccepted(&'static [Reads], &'static [Asked]),
}

/// What the runs of workers share.
#[derive(Drop)]
pub struct Bench<'a, S, R> {
    pub rt: &'a R,
    pub alloc: Global,
    pub server: &'a S,
    pub gate: &'a Until,
    pub known: &'a Roster,
}

/// Runs workers on a server, each with a pass.
pub trait Runner {
    /// A pass of the server.
    type Pass;

    /// Runs a worker from a time on. How many downlinks a gateway worker or a join worker sent.
    fn run_one(
        &self,
        pass: &mut Self::Pass,
        log: &mut String,
        time: u64,
        work: Work,
        faults: Faults,
    ) -> Option<usize>;

    /// How many entries of shard 13 were made.
    fn made(&self) -> u64;

    /// Where memory comes from.
    fn alloc(&self) -> Global;

    /// Lets a call go that is held at the gate.
    fn let_go(&self);
}

impl<S: Calls<R>, R: Wait + Clock> Runner for Bench<'_, S, R> {
    type Pass = S::Pass;

    fn run_one(
        &self,
        pass: &mut S::Pass,
        log: &mut String,
        time: u64,
        work: Work,
        faults: Faults,
    ) -> Option<usize> {
        let alloc = self.alloc;
        let mut down = Sent::new(alloc, !faults.downlinks)?;
        let around = work.around(alloc, time);
        let shared = Shared {
            output: Output::Lines,
            rt: self.rt,
            server: self.server,
            gate: self.gate,
            monitor: &around,
        };
        let ran = run_work(
            alloc, &shared, pass, self.known, log, &mut down, work, &faults,
        );
        ran.and(Some(down.sent.len()))
    }

    fn made(&self) -> u64 {
        self.gate.made()
    }

    fn alloc(&self) -> Global {
        self.alloc
    }

    fn let_go(&self) {
        self.gate.let_go();
    }
}

impl Reads {
    // How many datagrams they are.
    fn times(self) -> u32 {
        match self {
            Reads::Frame(_, times) => times,
            _ => 1,
        }
    }

    // One of the datagrams.
    fn datagram(self, alloc: Global) -> Option<Vec<u8>> {
        match self {
            Reads::Frame(frame, _) => heard(alloc, frame),
            Reads::Changed(frame, place, byte) => {
                let mut datagram = heard(alloc, frame)?;
                *datagram.get_mut(place)? = byte;
                Some(datagram)
            }
            Reads::Ones(length) => vec![in alloc; 1u8; length].ok(),
        }
    }
}

// Runs a worker.
fn run_work<S: Calls<R>, R: Wait + Clock>(
    alloc: Global,
    shared: &Shared<'_, S, R, Until, Around>,
    pass: &mut S::Pass,
    known: &Roster,
    log: &mut String,
    down: &mut Sent,
    work: Work,
    faults: &Faults,
) -> Option<()> {
    match work {
        Work::Serve(list, room) => serve(alloc, shared, pass, log, down, list, room, faults),
        Work::Answer(asks) => answer(alloc, shared, pass, known, log, down, asks, faults),
        Work::Close(due, limits) => close_all(alloc, shared, pass, log, due, limits, faults),
    }
}

// Datagrams, as a source gives them.
fn datagrams(alloc: Global, list: &[Reads], faults: &Faults) -> Option<Scarce<ListedDatagrams>> {
    let mut all = Vec::new(alloc);
    for reads in list {
        for _ in 0..reads.times() {
            all.push(reads.datagram(alloc)?).ok()?;
        }
    }
    Scarce::new(alloc, ListedDatagrams::new(all, faults.source), faults)
}

// The jobs that close windows, as a source gives them.
fn closings(
    alloc: Global,
    windows: &[Due],
    faults: &Faults,
) -> Option<Scarce<ListedJobs<CloseJob>>> {
    let mut jobs = Vec::new(alloc);
    for &(eui, fcnt, due, times) in windows {
        let name = WindowName {
            eui: DevEui(eui),
            session: 1,
            fcnt,
            round: 1,
        };
        for _ in 0..times {
            jobs.push(CloseJob { name, due }).ok()?;
        }
    }
    Scarce::new(alloc, ListedJobs::new(jobs, faults.source), faults)
}

// Runs a gateway worker.
fn serve<S: Calls<R>, R: Wait + Clock>(
    alloc: Global,
    shared: &Shared<'_, S, R, Until, Around>,
    pass: &mut S::Pass,
    log: &mut String,
    down: &mut Sent,
    list: &[Reads],
    room: usize,
    faults: &Faults,
) -> Option<()> {
    let around = shared.monitor;
    let mut source = datagrams(alloc, list, faults)?;
    let mut jobs = Put::new(alloc, room);
    let mut sink = Fuse::new(alloc, Vec::new(alloc), 2000, None, faults.writes);
    source.begin();
    let served = run_gateway(
        shared,
        pass,
        &mut source,
        around,
        &mut jobs,
        down,
        &mut sink,
        3_000,
    );
    source.give_back();
    tell_served(log, served, &jobs, &sink, down, around)
}

// Tells how a gateway worker ended, its jobs, and what went out.
fn tell_served(
    log: &mut String,
    served: Served,
    jobs: &Put,
    sink: &Fuse,
    down: &Sent,
    around: &Around,
) -> Option<()> {
    let fault = fault_number(served.fault);
    let numbers = [served.read, served.refused, served.dropped, fault];
    tell(log, "served", &numbers)?;
    tell_jobs(log, jobs.jobs.as_slice())?;
    tell_out(log, sink.written(), down, around, 0)
}

// Jobs to ask for tickets.
fn askings(alloc: Global, asks: &[Asked]) -> Option<Vec<AskJob>> {
    let mut jobs = Vec::new(alloc);
    for &(frame, since, _) in asks {
        let ticket = Ticket(*frame);
        let due = since;
        jobs.push(AskJob { ticket, since, due }).ok()?;
    }
    Some(jobs)
}

// Runs a join worker.
fn answer<S: Calls<R>, R: Wait + Clock>(
    alloc: Global,
    shared: &Shared<'_, S, R, Until, Around>,
    pass: &mut S::Pass,
    known: &Roster,
    log: &mut String,
    down: &mut Sent,
    asks: &[Asked],
    faults: &Faults,
) -> Option<()> {
    let around = shared.monitor;
    let host = HostName::new("js.local")?;
    let jobs = ListedJobs::new(askings(alloc, asks)?, faults.source);
    let mut jobs = Scarce::new(alloc, jobs, faults)?;
    jobs.begin();
    let joined = run_join(
        alloc, shared, pass, around, around, &mut jobs, down, known, host,
    );
    jobs.give_back();
    tell_joined(log, joined, down, around)
}

// Tells how a join worker ended, and its downlinks.
fn tell_joined(log: &mut String, joined: Joined, down: &Sent, around: &Around) -> Option<()> {
    let fault = fault_number(joined.fault);
    tell(log, "joined", &[joined.answered, fault])?;
    tell_out(log, &[], down, around, 0)
}

// Runs a closer.
fn close<S: Calls<R>, R: Wait + Clock>(
    alloc: Global,
    shared: &Shared<'_, S, R, Until, Around>,
    pass: &mut S::Pass,
    log: &mut String,
    jobs: &mut Scarce<ListedJobs<CloseJob>>,
    limit: u32,
    writes: Option<u64>,
) -> Option<()> {
    let around = shared.monitor;
    let most = if writes.is_some() { 2000 } else { 7 };
    let mut down = Sent::new(alloc, true)?;
    let mut sink = Fuse::new(alloc, Vec::new(alloc), most, None, writes);
    jobs.begin();
    let ended = run_closer(
        alloc, shared, pass, around, jobs, &mut down, &mut sink, limit,
    );
    jobs.give_back();
    tell_closed(log, &ended, &sink, &down, around)
}

// Tells a receipt of a closer, with 1 where its window was not open.
fn tell_closing(log: &mut String, receipt: &Receipt) -> Option<()> {
    match &receipt.entry.call {
        Call::Close { window } => {
            let is_late = receipt.entry.reply == Reply::NoWindow;
            tell_window(log, "close", window, u64::from(is_late))
        }
        _ => Some(()),
    }
}

// Tells the first four receipts of a closer, each with 1 where its window was not open; how it ended, with how many receipts; and what
// went out.
fn tell_closed(
    log: &mut String,
    ended: &Ended,
    sink: &Fuse,
    down: &Sent,
    around: &Around,
) -> Option<()> {
    for receipt in ended.receipts.iter().take(4) {
        tell_closing(log, receipt)?;
    }
    let count = ended.receipts.len() as u64;
    tell(log, "ended", &[fault_number(ended.fault), count])?;
    tell_out(log, sink.written(), down, around, 7)
}

// Runs closers over one source.
fn close_all<S: Calls<R>, R: Wait + Clock>(
    alloc: Global,
    shared: &Shared<'_, S, R, Until, Around>,
    pass: &mut S::Pass,
    log: &mut String,
    windows: &[Due],
    limits: &[u32],
    faults: &Faults,
) -> Option<()> {
    let mut jobs = closings(alloc, windows, faults)?;
    for limit in limits {
        close(alloc, shared, pass, log, &mut jobs, *limit, faults.writes)?;
    }
    Some(())
}

// Takes all memory but 64 MB, so that it takes less time to take the rest again and again.
fn take_most(alloc: Global, held: &mut Vec<Vec<u8>>) -> Option<()> {
    let _left: Vec<u8> = Vec::with_capacity(alloc, 1 << 26).ok()?;
    take_rest(alloc, held).ok()
}

// Has a ticket answered until it is accepted, which takes more than one block of memory.
fn until_accepted<N: Runner>(
    runner: &N,
    pass: &mut N::Pass,
    log: &mut String,
    reads: &'static [Reads],
    asks: &'static [Asked],
) -> Option<()> {
    let mut held = Vec::with_capacity(runner.alloc(), BLOCKS).ok()?;
    take_most(runner.alloc(), &mut held)?;
    for blocks in 0..200u32 {
        if is_accepted(runner, pass, log, reads, asks, blocks)? {
            return if blocks > 1 { Some(()) } else { None };
        }
    }
    None
}

// Has a ticket answered once, with so many blocks of memory. Whether it is accepted; None where the calls are not two.
fn is_accepted<N: Runner>(
    runner: &N,
    pass: &mut N::Pass,
    log: &mut String,
    reads: &'static [Reads],
    asks: &'static [Asked],
    blocks: u32,
) -> Option<bool> {
    let faults = Faults {
        from: 0,
        blocks,
        ..NONE
    };
    let made = runner.made().wrapping_add(2);
    log.clear();
    runner.run_one(pass, log, 7, Work::Serve(reads, 1), NONE)?;
    let sent = runner.run_one(pass, log, 7, Work::Answer(asks), faults)?;
    if runner.made() == made {
        Some(sent == 1)
    } else {
        None
    }
}

/// Runs workers in order.
pub fn run_all<N: Runner>(
    runner: &N,
    pass: &mut N::Pass,
    log: &mut String,
    runs: &[Run],
) -> Option<()> {
    for run in runs {
        match *run {
            Run::At(time, work, faults) => {
                runner.run_one(pass, log, time, work, faults)?;
            }
            Run::LeaveOut => log.clear(),
            Run::UntilAccepted(reads, asks) => until_accepted(runner, pass, log, reads, asks)?,
        }
    }
    Some(())
}
