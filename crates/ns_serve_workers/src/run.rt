//! The threads of a server, from the first start to the last end.
ghost use Rattle.std.specs.Prelude.{◌≡◌, ◌+◌, ◌⊎◌, ◌++◌, ◌∷◌, ◌<◌, ◌^◌, [], All, vec_len, true, Some, Ok, Err, IsNone, IfOk, IfSome};
ghost use Rattle.ns_tally.specs.Tally.{none_made};
ghost use Rattle.ns_serve_parts.specs.Ends.{IsWorse};

use crate::around::Around;
use crate::closing::{AfterTurn, CloserKit};
use crate::helpers::HelperKit;
use crate::kits::{GatewayEnds, Kits, gateway_ends, kits_of};
use crate::workers::Back;
use crossbeam_channel::{Receiver, Sender, unbounded};
use ns_log::Log;
use ns_outside::{Calls, CloseJob, Gate, Monitor};
use ns_record_files::Upkeep;
use ns_serve_events::hand_on;
use ns_serve_parts::{ServeFault, ServeOptions};
use ns_serve_state::State;
use ns_serve_threads::{Handles, Ran, Starts, join_helpers, run_threads};
use ns_types::{Sink, Ticket, WindowName};
use std::alloc::{AllocError, Global};
use std::net::{Net, TcpListener, TcpStream};
use std::sync::Wait;
use std::thread::{JoinHandle, Threads};
use std::time::Clock;

/// What the workers brought back.
#[derive(Drop)]
pub struct Ends<S: Calls<R>, R> {
    passes: Vec<S::Pass>,
    fault: Option<ServeFault>,
}

impl<S: Calls<R>, R> Ends<S, R> {
    /// The passes, or the fault of any worker.
    pub fn into_passes(self) -> Result<Vec<S::Pass>, ServeFault>
        ensures fault { IfSome self.fault (λ f. result ≡ Err f) }
        ensures passes { IsNone self.fault → result ≡ Ok self.passes }
    {
        let Ends { passes, fault } = self;
        match fault {
            Some(fault) => Err(fault),
            None => Ok(passes),
        }
    }
}

// The fault of a server, with that of one worker more. Want of memory is told before all else.
fn worse(before: Option<ServeFault>, fault: Option<ServeFault>) -> Option<ServeFault>
    ensures { IsWorse before fault result }
{
    match (before, fault) {
        (Some(ServeFault::NoMemory), _) | (_, Some(ServeFault::NoMemory)) => {
            Some(ServeFault::NoMemory)
        }
        (Some(ServeFault::Io), _) | (_, Some(_)) => Some(ServeFault::Io),
        (None, None) => None,
    }
}

// Keeps a pass that came back, and the fault of its worker.
fn keep<S: Calls<R>, R>(ends: &mut Ends<S, R>, back: Back<S, R>)
    ensures none { IsNone ends.new.fault → IsNone ends.old.fault × IsNone back.fault }
    ensures memory { (ends.old.fault ≡ Some ServeFault.NoMemory) ⊎ (back.fault ≡ Some ServeFault.NoMemory)
        → ends.new.fault ≡ Some ServeFault.NoMemory }
    ensures kept { IsNone ends.new.fault → ends.new.passes.items ≡ ends.old.passes.items ++ back.pass ∷ [] }
{
    let Back { pass, fault } = back;
    ends.fault = worse(ends.fault, fault);
    if ends.passes.push(pass).is_err() {
        ends.fault = Some(ServeFault::NoMemory);
    }
}

// Waits for the ends of these workers, and keeps what they bring back.
fn join_all<S: Calls<R>, R: Threads + Wait>(
    rt: &R,
    ends: &mut Ends<S, R>,
    workers: Vec<JoinHandle<Back<S, R>>>,
)
    ensures none { IsNone ends.new.fault → IsNone ends.old.fault }
    ensures memory { ends.old.fault ≡ Some ServeFault.NoMemory → ends.new.fault ≡ Some ServeFault.NoMemory }
    ensures kept { IsNone ends.new.fault → vec_len ends.new.passes ≡ vec_len ends.old.passes + vec_len workers }
{
    for worker in workers {
        keep(ends, worker.join(rt));
    }
}

// Keeps what the closer brought back, and what all other threads do. That one could not be made is want of memory.
fn join_threads<S: Calls<R>, R: Threads + Wait>(rt: &R, ends: &mut Ends<S, R>, ran: Ran<Back<S, R>>)
    ensures none { IsNone ends.new.fault → IsNone ends.old.fault × IsNone ran.own.fault × (ran.is_whole ≡ true) }
    ensures memory { ends.old.fault ≡ Some ServeFault.NoMemory → ends.new.fault ≡ Some ServeFault.NoMemory }
    ensures kept { IsNone ends.new.fault → vec_len ends.new.passes ≡ vec_len ends.old.passes + 1 + vec_len ran.handles.gateways + vec_len ran.handles.joiners }
{
    let Ran {
        own,
        handles,
        is_whole,
    } = ran;
    let Handles {
        gateways,
        joiners,
        helpers,
    } = handles;
    if !is_whole {
        ends.fault = Some(ServeFault::NoMemory);
    }
    keep(ends, own);
    join_all(rt, ends, gateways);
    join_all(rt, ends, joiners);
    join_helpers(rt, helpers);
}

// The ends of the channel: what gateway workers take along, and where the windows come that are to be closed.
#[derive(Drop)]
struct Channel {
    ends: Vec<GatewayEnds>,
    closes: Receiver<CloseJob>,
}

// The channel of the windows that are to be closed, with those that are open already, and with ends for so many gateway workers; the open
// tickets are put where join workers take them.
fn channel_of<R: Wait + Clock>(
    rt: &R,
    state: &State,
    gateways: usize,
    windows: Vec<WindowName>,
    tickets: Vec<Ticket>,
) -> Result<Channel, AllocError>
    ensures { IfOk result (λ c. vec_len c.ends ≡ gateways) }
{
    let alloc = state.alloc();
    let (close_sender, closes) = unbounded::<CloseJob, Global>(alloc)?;
    hand_on(rt, state, windows, tickets, &close_sender)?;
    let ends = gateway_ends(alloc, &close_sender, state, gateways)?;
    Ok(Channel { ends, closes })
}

// Room for what the threads bring back, before any is made.
#[derive(Drop)]
struct Room<S: Calls<R>, R> {
    handles: Handles<Back<S, R>>,
    ends: Ends<S, R>,
}

// Room for so many workers of each kind, and for the closer.
fn room_for_workers<S: Calls<R>, R>(
    alloc: Global,
    gateways: usize,
    joiners: usize,
) -> Result<Room<S, R>, AllocError>
    requires { gateways + joiners < 2 ^ 63 }
{
    let passes = Vec::with_capacity(alloc, gateways + joiners + 1)?;
    let handles = Handles::room(alloc, gateways, joiners)?;
    let ends = Ends {
        passes,
        fault: None,
    };
    Ok(Room { handles, ends })
}

// What the threads begin with: their kits, where the windows come that are to be closed, and room for what they bring back.
#[derive(Drop)]
struct Prepared<S: Calls<R>, R> {
    kits: Kits<S, R>,
    closes: Receiver<CloseJob>,
    room: Room<S, R>,
}

// What the threads begin with that have these ends of the channel, and so many join workers.
fn prepare_kits<S: Calls<R>, R>(
    alloc: Global,
    passes: Vec<S::Pass>,
    channel: Channel,
    joiners: usize,
) -> Result<Prepared<S, R>, AllocError>
    requires count { vec_len passes ≡ vec_len channel.ends + joiners + 1 }
    requires unused { All (λ p. S.made p ≡ none_made) passes.items }
{
    // Their number says that the counts of workers fit.
    let _count = passes.len();
    let Channel { ends, closes } = channel;
    let room = room_for_workers::<S, R>(alloc, ends.len(), joiners)?;
    let kits = kits_of::<S, R>(alloc, passes, joiners, ends)?;
    Ok(Prepared { kits, closes, room })
}

// What as many threads begin with as are asked for.
fn prepare<S: Calls<R>, R: Wait + Clock>(
    rt: &R,
    state: &State,
    passes: Vec<S::Pass>,
    options: &ServeOptions<'_>,
    windows: Vec<WindowName>,
    tickets: Vec<Ticket>,
) -> Result<Prepared<S, R>, AllocError>
    requires count { vec_len passes ≡ options.now.workers + options.now.join_workers + 1 }
    requires unused { All (λ p. S.made p ≡ none_made) passes.items }
{
    let channel = channel_of(rt, state, options.workers, windows, tickets)?;
    prepare_kits::<S, R>(state.alloc(), passes, channel, options.join_workers)
}

/// Runs all workers to their ends. The closer runs in the thread of the caller, and `after` is told of each of its turns. `AllocError` where
/// there was no room for them: then none was started.
pub fn run_all<
    S: Calls<R> + Sync,
    R: Threads + Wait + Clock + Net<Listener = TcpListener, Stream = TcpStream> + Log + Sync,
    G: Gate<R> + Sync,
    M: Monitor<R> + Sync,
    W: Sink + Send,
    A: AfterTurn<R> + Drop,
    U: Upkeep + Send + Drop,
>(
    around: &Around<'_, S, R, G, M, W>,
    passes: Vec<S::Pass>,
    options: &ServeOptions<'_>,
    windows: Vec<WindowName>,
    tickets: Vec<Ticket>,
    after: A,
    upkeep: U,
) -> Result<Ends<S, R>, AllocError>
where
    S::Pass: Send,
    requires count { vec_len passes ≡ options.now.workers + options.now.join_workers + 1 }
    requires unused { All (λ p. S.made p ≡ none_made) passes.items }
{
    let prepared = prepare::<S, R>(around.rt, around.state, passes, options, windows, tickets)?;
    Ok(run_prepared(around, prepared, after, upkeep))
}

// Runs the workers that are prepared to their ends.
fn run_prepared<
    S: Calls<R> + Sync,
    R: Threads + Wait + Clock + Net<Listener = TcpListener, Stream = TcpStream> + Log + Sync,
    G: Gate<R> + Sync,
    M: Monitor<R> + Sync,
    W: Sink + Send,
    A: AfterTurn<R> + Drop,
    U: Upkeep + Send + Drop,
>(around: &Around<'_, S, R, G, M, W>, prepared: Prepared<S, R>, after: A, upkeep: U) -> Ends<S, R>
where
    S::Pass: Send,
{
    let state = around.state;
    // The channel stays open until the last gateway worker has ended.
    let Prepared { kits, closes, room } = prepared;
    let Room { handles, mut ends } = room;
    let Kits {
        closer,
        joins,
        gateways,
    } = kits;
    state.begin_gateways(gateways.len() as u64);
    let starts = Starts {
        joins,
        gateways,
        teller: state.is_told().then_some(HelperKit::Teller),
        keeper: state.is_recorded().then_some(HelperKit::Keeper(upkeep)),
        writer: state.is_recorded().then_some(HelperKit::Writer),
    };
    let closer = CloserKit {
        around,
        own: closer,
        closes: &closes,
        after,
    };
    let ran = run_threads(around.rt, around, starts, closer, handles);
    join_threads(around.rt, &mut ends, ran);
    ends
}
