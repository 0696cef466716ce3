//! A server of one gateway worker, or one for each of two sockets, with those around it, or several such servers one after the other. Each
//! has the same types: a server of others would be compiled once more.

ghost use Rattle.std.specs.Prelude.{◌<◌, ◌≤◌, IfSome};

use crate::lives::begun_of;
use ns_device::logged::{Kept, Lines};
use ns_device::parties::{Around, Ended, Party, Step, Want, Writer, join_server, local};
use ns_device::worked::{ROSTER, roster_of};
use ns_exchange::HostName;
use ns_log::{Log, error};
use ns_output::Output;
use ns_record_files::{RecordFiles, Recorder, Upkeep};
use ns_roster::Roster;
use ns_serve::{Begun, ServeFault, ServeOptions, Stop, SystemFiles, serve};
use ns_types::{BLOCKS, take_all};
use std::alloc::Global;
use std::net::{Net, SocketAddr, TcpListener, TcpStream};
use std::process::Abort;
use std::sync::atomic::{AtomicU64, Ordering};
use std::sync::{Arc, Wait};
use std::test::*;
use std::thread;
use std::thread::Threads;
use std::time::Clock;

// What would stop a server from outside, where its options asked for that.
#[derive(Clone, Copy)]
struct Unused;

impl Stop for Unused {
    fn wait(&self) {}
}

/// Counts how often a record is looked after.
#[derive(Drop)]
pub struct Looks<'a> {
    pub count: &'a AtomicU64,
}

impl<'a> Upkeep for Looks<'a> {
    fn look_after(&mut self, _record: &Recorder<RecordFiles>) {
        self.count.fetch_add(1, Ordering::SeqCst);
    }
}

/// By which sockets gateways are heard, each by a worker of its own.
#[derive(Drop)]
pub enum Sockets {
    /// One of the server's own datagrams.
    Own,
    /// One of packet forwarders.
    Forwarders,
    /// Both, with that of packet forwarders at the port `beside` the gateways'.
    Both,
}

/// What a server and the join server do.
#[derive(Drop)]
pub struct Asked {
    pub roster: &'static str,
    /// The gateways' port.
    pub port: u16,
    pub sockets: Sockets,
    pub join_workers: usize,
    pub window_ms: u32,
    pub closing: bool,
    /// Whether uplinks are written as JSON objects, and joins and acknowledgements too.
    pub json: bool,
    /// Of how many texts the output takes.
    pub texts: u32,
    /// With how many blocks of memory alone a server begins, where it is to have little.
    pub blocks: Option<usize>,
}

/// Own datagrams of one device are heard, windows stay open for 1 s, and lines are written.
pub const USUAL: Asked = Asked {
    roster: ROSTER,
    port: 17001,
    sockets: Sockets::Own,
    join_workers: 1,
    window_ms: 1000,
    closing: false,
    json: false,
    texts: u32::MAX,
    blocks: None,
};

/// One server of a trial.
pub struct Life {
    /// The folder of its record, if it has one.
    pub folder: Option<&'static str>,
    /// After how many datagrams it ends, if it does.
    pub stop_after: Option<u32>,
}

/// What becomes of servers, the last one's outcome among it.
pub struct Told {
    pub ended: Result<u128, ServeFault>,
    pub output: Want,
    pub log: Want,
}

/// Servers one after the other, and what those around them do.
pub struct Trial {
    pub asked: Asked,
    /// Which log lines are kept.
    pub kept: Kept,
    /// The time at which the clock stands first, in milliseconds, or 0.
    pub stands_ms: u64,
    pub lives: &'static [Life],
    /// How many devices ask to join at a time.
    pub joins: usize,
    pub steps: &'static [Step],
    pub told: Told,
}

impl Asked {
    // The gateways' ports.
    fn ports(&self) -> (u16, u16) {
        match self.sockets {
            Sockets::Both => (self.port, beside(self.port)),
            _ => (self.port, self.port),
        }
    }

    // Where the join server listens: behind the gateways' port.
    fn join_addr(&self) -> SocketAddr {
        local(self.port.saturating_add(1))
    }

    /// Its roster.
    pub fn roster(&self, alloc: Global) -> Option<Arc<Roster>> {
        roster_of(alloc, self.roster)
    }

    /// What is asked for of a server that ends after so many datagrams, with one gateway worker for each socket.
    pub fn options(&self, stop_after: Option<u32>) -> Option<ServeOptions<'static>>
        ensures workers { IfSome result (λ o. (0 < o.workers) × (o.workers ≤ 2)) }
        ensures join_workers { IfSome result (λ o. (0 < o.join_workers) × (o.join_workers ≤ 16)) }
    {
        let host = HostName::new("js.local")?;
        let heard = Some(local(self.port));
        let (listen, forwarders, workers) = match self.sockets {
            Sockets::Own => (heard, None, 1),
            Sockets::Forwarders => (None, heard, 1),
            Sockets::Both => (heard, Some(local(beside(self.port))), 2),
        };
        Some(ServeOptions {
            join: self.join_addr(),
            host,
            listen,
            forwarders,
            power: 16,
            status: None,
            status_host: None,
            workers,
            join_workers: self.join_workers.max(1).min(16),
            window_ms: self.window_ms,
            stop_after,
            stop_at_end: false,
            trim: Some(1),
            output: if self.json {
                Output::Json
            } else {
                Output::Lines
            },
            events: self.json,
            closing: self.closing,
        })
    }
}

// The forwarders' port beside this one of the gateways.
fn beside(port: u16) -> u16 {
    port.saturating_add(2)
}

/// All memory but so many blocks, or nothing.
pub fn all_but(alloc: Global, blocks: Option<usize>) -> Option<Vec<Vec<u8>>> {
    let Some(blocks) = blocks else {
        return Some(Vec::new(alloc));
    };
    let mut held = Vec::with_capacity(alloc, BLOCKS).ok()?;
    take_all(alloc, &mut held).ok()?;
    for _ in 0..blocks {
        let _ = held.pop();
    }
    Some(held)
}

/// Servers, those around them, and what their threads share.
#[derive(Drop)]
pub struct Common<'a, R> {
    pub rt: &'a R,
    pub host: &'a HostRuntime,
    pub alloc: Global,
    pub asked: &'a Asked,
    pub trial: &'a Trial,
    pub ended: &'a Ended,
}

// Logs that a server does not begin.
fn not_begun<L: Log>(log: &L) -> Result<u128, ServeFault> {
    error!(log; "no memory for the shards, or a record that is refused");
    Err(ServeFault::NoMemory)
}

// Serves, from where the record in a folder left it, or from the start.
fn served<R>(
    common: &Common<'_, R>,
    options: &ServeOptions<'_>,
    roster: Arc<Roster>,
    folder: Option<&str>,
    output: &mut Vec<u8>,
) -> Result<u128, ServeFault>
where
    R: Threads + Wait + Clock + Net<Listener = TcpListener, Stream = TcpStream> + Log + Sync,
    requires workers { (0 < options.now.workers) × (options.now.workers ≤ 2) }
    requires join_workers { (0 < options.now.join_workers) × (options.now.join_workers ≤ 16) }
{
    let (rt, alloc) = (common.rt, common.alloc);
    match begun_of(common.host, alloc, &roster, folder) {
        Ok(begun) => {
            let looks = Looks {
                count: &common.ended.looks,
            };
            let writer = Writer::new(output, common.asked.texts);
            let system = SystemFiles::none();
            serve(
                rt, alloc, roster, options, begun, system, Unused, looks, writer,
            )
        }
        Err(_) => not_begun(rt),
    }
}

// One server. Its outcome, if there was memory to ask for it.
fn live<R>(
    common: &Common<'_, R>,
    life: &Life,
    output: &mut Vec<u8>,
) -> Option<Result<u128, ServeFault>>
where
    R: Threads + Wait + Clock + Net<Listener = TcpListener, Stream = TcpStream> + Log + Sync,
{
    let options = common.asked.options(life.stop_after)?;
    let roster = common.asked.roster(common.alloc)?;
    let held = all_but(common.alloc, common.asked.blocks)?;
    let outcome = served(common, &options, roster, life.folder, output);
    drop(held);
    Some(outcome)
}

// Servers one after the other as long as none ends with a fault. The outcome of the last one.
fn live_all<R>(common: &Common<'_, R>, output: &mut Vec<u8>) -> Option<Result<u128, ServeFault>>
where
    R: Threads + Wait + Clock + Net<Listener = TcpListener, Stream = TcpStream> + Log + Sync,
{
    let mut last = None;
    for life in common.trial.lives {
        let outcome = live(common, life, output)?;
        common.ended.lives.fetch_add(1, Ordering::SeqCst);
        last = Some(outcome);
        if outcome.is_err() {
            break;
        }
    }
    last
}

// What gateways and devices do. Whether each step came to what it says.
fn play<R: Clock + Net>(common: &Common<'_, R>) -> bool {
    let (near, far) = common.asked.ports();
    let Common {
        rt,
        host,
        alloc,
        ended,
        ..
    } = *common;
    match Party::new(rt, host, alloc, ended, near, far) {
        Some(mut party) => party.play(common.trial.steps),
        None => false,
    }
}

// A join server beside gateways and devices. Whether each of their steps came to what it says.
fn surround<R>(common: &Common<'_, R>, listener: &TcpListener) -> bool
where
    R: Threads + Clock + Net<Listener = TcpListener, Stream = TcpStream> + Sync,
{
    let (_, is_played) = thread::join(
        common.rt,
        || join_server(common.rt, common.alloc, listener, common.trial.joins),
        || play(common),
    );
    is_played
}

// Servers beside those around them. The outcome of the last one, where each step came to what it says.
fn run_beside<R>(common: &Common<'_, R>, output: &mut Vec<u8>) -> Option<Result<u128, ServeFault>>
where
    R: Threads + Wait + Clock + Net<Listener = TcpListener, Stream = TcpStream> + Log + Sync,
{
    let listener = TcpListener::bind(common.rt, common.asked.join_addr()).ok()?;
    let (outcome, is_played) = thread::join(
        common.rt,
        || live_all(common, output),
        || surround(common, &listener),
    );
    if is_played { outcome } else { None }
}

// The same, or servers alone where memory is wanting.
fn run<R>(common: &Common<'_, R>, output: &mut Vec<u8>) -> Option<Result<u128, ServeFault>>
where
    R: Threads + Wait + Clock + Net<Listener = TcpListener, Stream = TcpStream> + Log + Sync,
{
    if common.asked.blocks.is_some() {
        return live_all(common, output);
    }
    run_beside(common, output)
}

// Asserts that a text is as wanted.
fn assert_told<R: Abort>(rt: &R, want: &Want, text: &[u8]) {
    assert!(rt;
        want.fits(text),
        "{}",
        str::from_utf8(text).unwrap_or("no text")
    );
}

/// What comes of a trial, and what was logged and written.
#[derive(Drop)]
pub struct Ran {
    pub outcome: Option<Result<u128, ServeFault>>,
    pub log: Vec<u8>,
    pub output: Vec<u8>,
}

// Runs a trial with a logger. The outcome of its last server.
fn run_with_log<R, L>(
    rt: &R,
    host: &HostRuntime,
    log: &L,
    asked: &Asked,
    trial: &Trial,
    ended: &Ended,
    output: &mut Vec<u8>,
) -> Option<Result<u128, ServeFault>>
where
    R: Threads + Wait + Clock + Net<Listener = TcpListener, Stream = TcpStream> + Sync,
    L: Log + Sync,
{
    let around = Around {
        rt,
        log,
        held: &ended.held,
    };
    let common = Common {
        rt: &around,
        host,
        alloc: host.alloc(),
        asked,
        trial,
        ended,
    };
    run(&common, output)
}

/// Runs a trial in which this is asked of servers, and takes what is logged.
pub fn run_logged<R>(
    rt: &R,
    host: &HostRuntime,
    asked: &Asked,
    trial: &Trial,
    ended: &Ended,
) -> Option<Ran>
where
    R: Threads + Wait + Clock + Net<Listener = TcpListener, Stream = TcpStream> + Sync,
{
    let alloc: Global = host.alloc();
    let mut output: Vec<u8> = Vec::with_capacity(alloc, 4096).ok()?;
    let log = Lines::new(rt, alloc, trial.kept, 65_536).ok()?;
    let outcome = run_with_log(rt, host, &log, asked, trial, ended, &mut output);
    Some(Ran {
        outcome,
        log: log.into_lines(),
        output,
    })
}

// Whether a trial came to what is told. Asserts that its texts are as wanted.
fn has_come<R: Abort>(rt: &R, told: &Told, ran: &Option<Ran>) -> bool {
    let Some(ran) = ran else {
        return false;
    };
    assert_told(rt, &told.output, ran.output.as_slice());
    assert_told(rt, &told.log, ran.log.as_slice());
    ran.outcome == Some(told.ended)
}

/// Runs a trial, and asserts that it came to what it is to. How often its record was looked after.
pub fn tried<R>(rt: &R, host: &HostRuntime, trial: &Trial) -> u64
where
    R: Threads + Wait + Clock + Net<Listener = TcpListener, Stream = TcpStream> + Abort + Sync,
{
    let ended = Ended::new(trial.stands_ms);
    let ran = run_logged(rt, host, &trial.asked, trial, &ended);
    assert!(rt; has_come(rt, &trial.told, &ran));
    ended.looks.load(Ordering::SeqCst)
}
