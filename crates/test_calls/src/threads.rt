//! A server, its workers, and the device and the join server for tests.

ghost use Rattle.std.specs.Prelude.{◌≡◌, ◌<◌, ◌≤◌, false};
ghost use Rattle.std.specs.Arc.{arc_value};
ghost use Rattle.ns_types.specs.Identity.{shard_count};
ghost use Rattle.ns_calls.specs.Shards.{shard_of_call};
ghost use Rattle.ns_shard.specs.State.{no_entries};
ghost use Rattle.ns_tally.specs.Tally.{AreNamed};

use ns_calls::{Call, Downlink, Entry};
use ns_device::{DeviceFault, ReplyFault, TestDevice, TestJoinServer};
use ns_exchange::HostName;
use ns_outside::{
    AskJob, Calls, CloseJob, Connections, Datagrams, Downlinks, Gate, Job, JobSource, Jobs,
    Monitor, Next, Receipt, Received, Timer,
};
use ns_roster::Roster;
use ns_server::{Kept, Naming, Pass, Server, SettleFault, Settled};
use ns_shard::{Dropped, TrimFault};
use ns_tally::Blanks;
use ns_types::{DevEui, DevNonce, JoinEui, Key, Sink};
use ns_workers::{Ended, Joined, Served, Shared, run_closer, run_gateway, run_join};
use std::alloc::{AllocError, Global};
use std::sync::{Arc, Wait};

// ---- ns_server

// The blanks are the tokens of the server that `B` names.
pub fn server<B: Naming>(
    alloc: Global,
    roster: Arc<Roster>,
    workers: usize,
    blanks: Blanks,
) -> Result<(Server<B>, Vec<Pass<B>>), AllocError>
    requires workers { (0 < workers) × (workers ≤ 64) }
    requires names { AreNamed B.ledger blanks.names }
    requires parts { (blanks.parts ≡ workers) × (B.workers ≡ workers) }
    requires roster { arc_value roster ≡ B.roster }
    requires begun { B.begun ≡ no_entries B.roster }
{
    Server::<B>::new(alloc, roster, workers, blanks)
}

pub fn call<B: Naming, R: Wait, G: Gate<R>>(
    server: &Server<B>,
    rt: &R,
    pass: &mut Pass<B>,
    call: Call,
    gate: &G,
) -> Result<Receipt, AllocError> {
    server.call(rt, pass, call, gate)
}

pub fn visit<R, G: Gate<R>>(gate: &G, rt: &R, shard: u8, number: u64) {
    gate.visit(rt, shard, number)
}

pub fn step<B: Naming>(
    kept: &mut Kept<B, 13>,
    pass: &mut Pass<B>,
    call: Call,
) -> Result<Receipt, AllocError>
    requires { shard_of_call call ≡ 13 }
{
    kept.step(pass, call)
}

pub fn trim_kept<B: Naming>(kept: &mut Kept<B, 13>, alloc: Global) -> Result<Dropped, TrimFault> {
    kept.trim(alloc)
}

pub fn trim<B: Naming, R: Wait>(
    server: &Server<B>,
    rt: &R,
    alloc: Global,
    shard: u8,
) -> Result<Dropped, TrimFault>
    requires { shard < shard_count }
{
    server.trim(rt, alloc, shard)
}

pub fn made<B: Naming>(pass: &Pass<B>, shard: u8) -> u64
    requires { shard < shard_count }
{
    pass.made(shard)
}

pub fn settle<B: Naming>(
    server: Server<B>,
    passes: Vec<Pass<B>>,
) -> Result<Settled<B>, SettleFault<B>> {
    server.settle(passes)
}

pub fn history<B: Naming>(settled: &Settled<B>, shard: u8) -> &[Entry]
    requires { shard < shard_count }
{
    settled.history(shard)
}

pub fn marks<B: Naming>(settled: &Settled<B>, shard: u8) -> (u64, u64)
    requires { shard < shard_count }
{
    (settled.mark(shard), settled.dropped(shard))
}

pub fn total<B: Naming>(settled: &Settled<B>) -> u128 {
    settled.total()
}

pub fn greatest<B: Naming>(settled: &Settled<B>, eui: DevEui) -> Option<DevNonce> {
    settled.greatest(eui)
}

pub fn check<B: Naming>(settled: &Settled<B>, receipts: &[Receipt]) -> Result<(), usize> {
    settled.check(receipts)
}

pub fn drain_next<B: Naming>(settled: &mut Settled<B>) -> Option<Receipt> {
    settled.drain_next()
}

// ---- ns_outside: what a worker is given

pub fn datagram<R, I: Datagrams<R>>(datagrams: &mut I, rt: &R, buf: &mut [u8; 512]) -> Received {
    datagrams.next(rt, buf)
}

pub fn put_job<R, P: Jobs<R, Job>>(jobs: &mut P, rt: &R, job: Job) -> Result<(), Job> {
    jobs.put(rt, job)
}

pub fn take_job<R, J: JobSource<R, CloseJob>>(jobs: &mut J, rt: &R) -> Next<CloseJob> {
    jobs.take(rt)
}

pub fn connection<R, C: Connections<R>>(connections: &C, rt: &R) -> Option<C::S> {
    connections.open(rt)
}

pub fn now<R, T: Timer<R>>(timer: &T, rt: &R) -> u64 {
    timer.now(rt)
}

pub fn until<R, T: Timer<R>>(timer: &T, rt: &R, due: u64) {
    timer.until(rt, due)
}

pub fn send<R, D: Downlinks<R>>(down: &mut D, rt: &R, downlink: &Downlink) -> bool {
    down.send(rt, downlink)
}

// ---- ns_workers

pub fn gateway<
    S: Calls<R>,
    R: Wait,
    G: Gate<R>,
    M: Monitor<R>,
    I: Datagrams<R>,
    T: Timer<R>,
    P: Jobs<R, Job>,
    D: Downlinks<R>,
    W: Sink,
>(
    shared: &Shared<'_, S, R, G, M>,
    pass: &mut S::Pass,
    datagrams: &mut I,
    timer: &T,
    jobs: &mut P,
    down: &mut D,
    sink: &mut W,
    window_ms: u32,
) -> Served
    requires { W.has_failed sink.old ≡ false }
{
    run_gateway(shared, pass, datagrams, timer, jobs, down, sink, window_ms)
}

pub fn join<
    S: Calls<R>,
    R,
    G: Gate<R>,
    M: Monitor<R>,
    C: Connections<R>,
    T: Timer<R>,
    J: JobSource<R, AskJob>,
    D: Downlinks<R>,
>(
    alloc: Global,
    shared: &Shared<'_, S, R, G, M>,
    pass: &mut S::Pass,
    connections: &C,
    timer: &T,
    jobs: &mut J,
    down: &mut D,
    roster: &Roster,
    host: HostName<'_>,
) -> Joined {
    run_join(
        alloc,
        shared,
        pass,
        connections,
        timer,
        jobs,
        down,
        roster,
        host,
    )
}

pub fn closer<
    S: Calls<R>,
    R,
    G: Gate<R>,
    D: Downlinks<R>,
    M: Monitor<R>,
    T: Timer<R>,
    J: JobSource<R, CloseJob>,
    W: Sink,
>(
    alloc: Global,
    shared: &Shared<'_, S, R, G, M>,
    pass: &mut S::Pass,
    timer: &T,
    jobs: &mut J,
    down: &mut D,
    sink: &mut W,
    limit: u32,
) -> Ended
    requires { W.has_failed sink.old ≡ false }
{
    run_closer(alloc, shared, pass, timer, jobs, down, sink, limit)
}

// ---- ns_device

pub fn device(eui: DevEui, join_eui: JoinEui, root: Key) -> TestDevice {
    TestDevice::new(eui, join_eui, root)
}

pub fn join_request(device: &TestDevice, nonce: DevNonce) -> [u8; 23] {
    device.join_request(nonce)
}

pub fn accept(device: &mut TestDevice, nonce: DevNonce, frame: &[u8]) -> Result<(), DeviceFault> {
    device.accept(nonce, frame)
}

pub fn uplink<'a>(
    device: &TestDevice,
    counter: u32,
    confirmed: bool,
    port: Option<u8>,
    plain: &[u8],
    buf: &'a mut [u8],
) -> Result<&'a [u8], DeviceFault> {
    device.uplink(counter, confirmed, port, plain, buf)
}

pub fn join_server(alloc: Global) -> TestJoinServer {
    TestJoinServer::new(alloc)
}

pub fn add(server: &mut TestJoinServer, eui: DevEui, key: Key) -> Result<(), AllocError> {
    server.add(eui, key)
}

pub fn reply(
    server: &mut TestJoinServer,
    alloc: Global,
    text: &[u8],
) -> Result<String, ReplyFault> {
    server.reply(alloc, text)
}
