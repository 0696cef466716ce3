//! A server from its start to what it settled.
ghost use Rattle.std.specs.Prelude.{◌≡◌, ◌+◌, ◌≤◌, ◌<◌, ◌⊎◌, All, vec_len, Err, IfOk, IfErr};
ghost use Rattle.std.specs.Arc.{arc_value};
ghost use Rattle.ns_types.specs.Identity.{shard_count};
ghost use Rattle.ns_server.specs.Begun.{ArePlaced, states_at};
ghost use Rattle.ns_serve_shards.specs.Begun.{IsBegun};
ghost use Rattle.ns_tally.specs.Tally.{AreNamed, none_made};

use crate::trimming::Trimming;
use ns_log::Log;
use ns_record_files::Upkeep;
use ns_roster::Roster;
use ns_serve_events::{Events, Recording};
use ns_serve_parts::{ServeFault, ServeOptions};
use ns_serve_shards::{Begun, entries_between, finish, trims_of, written};
use ns_serve_sockets::{AfterRecord, Stop, begin, begun_output, log_start, no_memory, watch_stop};
use ns_serve_state::{State, SystemFiles, has_failed, log_counts, look_at_drops, write_record};
use ns_serve_streams::Output;
use ns_serve_workers::{Around, run_all};
use ns_server::{Naming, Pass, Server};
use ns_shard::Shard;
use ns_tally::Blanks;
use ns_types::{Sink, Ticket, WindowName};
use std::alloc::Global;
use std::marker::Brand;
use std::net::{Net, TcpListener, TcpStream};
use std::sync::{Arc, Mutex, Wait};
use std::thread::Threads;
use std::time::Clock;

// What becomes of a server whose workers have ended: their fault, or how many entries there are.
fn settled_of<B: Naming, R: Wait + Clock + Log, W: Sink>(
    rt: &R,
    alloc: Global,
    roster: &Roster,
    state: &State,
    server: Server<B>,
    passes: Result<Vec<Pass<B>>, ServeFault>,
    output: &mut Output<W>,
    closing: bool,
) -> Result<u128, ServeFault>
    requires { roster.now ≡ B.roster }
    ensures fault { IfErr passes (λ f. result ≡ Err f) }
{
    let Ok(mut settled) = server.settle(passes?) else {
        return Err(no_memory(rt, "what was settled"));
    };
    finish(rt, alloc, roster, state, &mut settled, output, closing)
}

// Runs the workers of a server to their ends. Their passes, or the fault of any of them.
fn run_workers<
    B: Naming + Send + Sync,
    R: Threads + Wait + Clock + Net<Listener = TcpListener, Stream = TcpStream> + Log + Sync,
    W: Sink + Send,
    U: Upkeep + Send + Drop,
>(
    rt: &R,
    alloc: Global,
    server: &Server<B>,
    passes: Vec<Pass<B>>,
    roster: &Roster,
    state: &State,
    output: &Mutex<Output<W>>,
    options: &ServeOptions<'_>,
    windows: Vec<WindowName>,
    tickets: Vec<Ticket>,
    upkeep: U,
) -> Result<Vec<Pass<B>>, ServeFault>
    requires count { vec_len passes ≡ options.now.workers + options.now.join_workers + 1 }
    requires unused { All (λ p. p ≡ none_made) passes.items }
{
    let around = Around {
        rt,
        alloc,
        server,
        gate: &Recording { state },
        monitor: &Events { state },
        roster,
        host: options.host,
        join: options.join,
        state,
        output,
    };
    let trims = Trimming::new(
        alloc,
        server,
        trims_of(options.trim, roster.devices().len()),
    );
    match run_all(&around, passes, options, windows, tickets, trims, upkeep) {
        Ok(ends) => ends.into_passes(),
        Err(_) => Err(no_memory(rt, "the workers")),
    }
}

// The shards with which a server begins, and what an earlier life left open.
fn parts_of(begun: Begun) -> (Vec<Shard>, Vec<WindowName>, Vec<Ticket>)
    ensures { result.0 ≡ begun.shards }
{
    let Begun {
        shards,
        windows,
        tickets,
        record: _,
    } = begun;
    (shards, windows, tickets)
}

// A server of this many workers, from its start to what it settled.
fn run_server<
    B: Naming + Send + Sync,
    R: Threads + Wait + Clock + Net<Listener = TcpListener, Stream = TcpStream> + Log + Sync,
    W: Sink + Send + Drop,
    U: Upkeep + Send + Drop,
>(
    rt: &R,
    alloc: Global,
    roster: Arc<Roster>,
    known: Arc<Roster>,
    blanks: Blanks,
    state: &State,
    output: Output<W>,
    options: &ServeOptions<'_>,
    begun: Begun,
    upkeep: U,
) -> Result<u128, ServeFault>
    requires workers { (0 < options.now.workers) × (options.now.workers ≤ 16) }
    requires join_workers { (0 < options.now.join_workers) × (options.now.join_workers ≤ 16) }
    requires names { AreNamed B.ledger blanks.names }
    requires parts { blanks.parts ≡ options.now.workers + options.now.join_workers + 1 }
    requires passes { B.workers ≡ options.now.workers + options.now.join_workers + 1 }
    requires roster { arc_value roster ≡ B.roster }
    requires known { arc_value known ≡ B.roster }
    requires sixteen { vec_len begun.shards ≡ shard_count }
    requires places { ArePlaced B.roster begun.shards.items }
    requires begun { B.begun ≡ states_at B.roster begun.shards.items }
{
    let count = options.workers + options.join_workers + 1;
    let (shards, windows, tickets) = parts_of(begun);
    let Ok((server, passes)) = Server::<B>::resume(alloc, roster, count, blanks, shards) else {
        return Err(no_memory(rt, "the shards"));
    };
    let output = Mutex::new(output);
    let passes = run_workers(
        rt, alloc, &server, passes, &known, state, &output, options, windows, tickets, upkeep,
    );
    let mut output = output.into_inner();
    let closing = options.closing;
    let outcome = settled_of(
        rt,
        alloc,
        &known,
        state,
        server,
        passes,
        &mut output,
        closing,
    );
    let outcome = written(rt, &mut output, outcome);
    let _ = write_record(rt, state);
    look_at_drops(rt, state, true);
    log_counts(rt, state);
    outcome
}

// What is ready before the threads start: the roster once more, and the output, which has its first lines.
fn ready<'a, R: Threads + Wait + Log, S: Stop + Send + Drop + 'static, W: Sink + Send + Drop>(
    rt: &'a R,
    alloc: Global,
    roster: &Arc<Roster>,
    options: &ServeOptions<'_>,
    state: &'a State,
    stop: S,
    writer: W,
) -> Result<(Arc<Roster>, Output<AfterRecord<'a, R, W>>), ServeFault>
    ensures { IfOk result (λ r. arc_value r.0 ≡ arc_value roster.now) }
{
    let Ok(known) = roster.clone() else {
        return Err(no_memory(rt, "the roster"));
    };
    let output = begun_output(rt, alloc, state, writer)?;
    watch_stop(rt, state, options, stop)?;
    Ok((known, output))
}

// A server with what all threads share, from its first lines to what it settled.
fn serve_with<
    R: Threads + Wait + Clock + Net<Listener = TcpListener, Stream = TcpStream> + Log + Sync,
    S: Stop + Send + Drop + 'static,
    U: Upkeep + Send + Drop,
    W: Sink + Send + Drop,
>(
    rt: &R,
    alloc: Global,
    roster: Arc<Roster>,
    options: &ServeOptions<'_>,
    state: &State,
    begun: Begun,
    stop: S,
    upkeep: U,
    writer: W,
) -> Result<u128, ServeFault>
    requires workers { (0 < options.now.workers) × (options.now.workers ≤ 16) }
    requires join_workers { (0 < options.now.join_workers) × (options.now.join_workers ≤ 16) }
    requires sixteen { vec_len begun.shards ≡ shard_count }
    requires places { ArePlaced (arc_value roster) begun.shards.items }
{
    let (known, output) = ready(rt, alloc, &roster, options, state, stop, writer)?;
    let count = options.workers as u64 + options.join_workers as u64 + 1;
    let blanks = Blanks::new(count);
    run_server::<Brand, _, _, _>(
        rt, alloc, roster, known, blanks, state, output, options, begun, upkeep,
    )
}

// The outcome with which a server ends: a fault of its record is told before all else.
fn end_of<R: Log>(
    rt: &R,
    mut state: State,
    outcome: Result<u128, ServeFault>,
) -> Result<u128, ServeFault>
    ensures { (result ≡ outcome) ⊎ (result ≡ Err ServeFault.Io) }
{
    let is_lost = has_failed(rt, state.record.take());
    drop(state);
    if is_lost {
        return Err(ServeFault::Io);
    }
    outcome
}

/// Serves gateways over UDP, with a join server over TCP, until so many datagrams have come or `stop` says so, if the options ask
/// for that. Writes `listening ADDR` and `forwarders ADDR` for the addresses at which gateways are heard, the uplinks as windows close,
/// each on a line as the options say, those of the windows that are still open at the end, `settled T`, and the closing roster where the
/// options ask for it, each with a line feed, and gives T, which is how many entries there are in all shards. `upkeep` looks after the
/// record, if there is one, about once a second, and `system` is what the system says of the process.
///
/// `NoMemory` where a growth was refused, or a thread could not be made; `Io` where the socket, the writer, the record or a clock failed.
/// Each is logged with where it was; the lines of what was closed before it are written all the same.
pub fn serve<
    R: Threads + Wait + Clock + Net<Listener = TcpListener, Stream = TcpStream> + Log + Sync,
    S: Stop + Send + Drop + 'static,
    U: Upkeep + Send + Drop,
    W: Sink + Send + Drop,
>(
    rt: &R,
    alloc: Global,
    roster: Arc<Roster>,
    options: &ServeOptions<'_>,
    begun: Begun,
    system: SystemFiles,
    stop: S,
    upkeep: U,
    writer: W,
) -> Result<u128, ServeFault>
    requires workers { (0 < options.now.workers) × (options.now.workers ≤ 16) }
    requires join_workers { (0 < options.now.join_workers) × (options.now.join_workers ≤ 16) }
    requires begun { IsBegun (arc_value roster) begun }
{
    let mut begun = begun;
    let record = begun.record.take();
    let state = begin(rt, alloc, &roster, options, begun.made(), record, system)?;
    begun.recall(rt, &state);
    log_start(
        rt,
        &roster,
        options,
        entries_between(options.trim, roster.devices().len()),
    );
    let outcome = serve_with(
        rt, alloc, roster, options, &state, begun, stop, upkeep, writer,
    );
    end_of(rt, state, outcome)
}
