//! A gateway worker and a join worker, each from its start to its end.
ghost use Rattle.std.specs.Prelude.{◌≡◌};
ghost use Rattle.std.specs.Duration.{as_nanos};
ghost use Rattle.std.specs.Option.{option_map};
ghost use Rattle.ns_exchange.specs.HostText.{host_text};
ghost use Rattle.ns_workers.specs.Asking.{HasOutcome};
ghost use Rattle.ns_serve_streams.specs.declared.join_server.ToJoinServer.{ToJoinServer as to_join_server};
ghost use Rattle.ns_serve_parts.specs.Ends.{serve_fault};
ghost use Rattle.ns_serve_workers.specs.Turns.{IsServed, IsAnswered};

use crate::around::Around;
use crate::kits::{GatewayEnds, GatewayKit, PassKit};
use ns_log::{Log, error};
use ns_outside::{Calls, Connections, Gate, Monitor, WorkerFault};
use ns_responses::Responses;
use ns_serve_events::{FromQueue, IntoQueues, SinceStart};
use ns_serve_parts::ServeFault;
use ns_serve_sockets::{FromSocket, ToSocket};
use ns_serve_state::State;
use ns_serve_streams::{Lines, ToJoinServer, Within};
use ns_serve_threads::Work;
use ns_types::{Sink, Source, Stream};
use ns_workers::{run_gateway, run_join};
use std::net::{Net, TcpListener, TcpStream};
use std::sync::Wait;
use std::time::Clock;

/// A pass that came back, and why its worker ended early.
#[derive(Drop)]
pub(crate) struct Back<S: Calls<R>, R> {
    pub pass: S::Pass,
    pub fault: Option<ServeFault>,
}

/// Logs why a worker ends early.
pub(crate) fn log_end<R: Log>(rt: &R, worker: &str, why: &str) {
    error!(rt; "{worker}: {why}");
}

// The fault of a worker. Where there is one, it is logged, and all others are to stop.
fn fault_of<R: Log>(
    rt: &R,
    state: &State,
    worker: &str,
    fault: Option<WorkerFault>,
) -> Option<ServeFault>
    ensures { result ≡ option_map serve_fault fault }
{
    let fault = fault?;
    let why = match fault {
        WorkerFault::NoMemory => "no memory for a call",
        WorkerFault::SourceFailed => "no datagrams come any more",
        WorkerFault::SinkFailed => "standard output or the record failed",
    };
    log_end(rt, worker, why);
    state.break_off();
    Some(ServeFault::from(fault))
}

impl<'a, S: Calls<R>, R: Wait + Clock + Log, G: Gate<R>, M: Monitor<R>, W: Sink> Work<
    GatewayKit<S, R>,
    Back<S, R>,
> for Around<'a, S, R, G, M, W> {
    // A gateway worker, from its start to its end.
    fn work(&self, kit: GatewayKit<S, R>) -> Back<S, R>
        ensures { IsServed S.roster self.now.state.now.uplinks (M.has_heard self.now.monitor.now) self.now.state.now.window_ms
            (S.made result.pass) result.fault }
    {
        let GatewayKit { own, ends } = kit;
        let PassKit { mut pass } = own;
        let GatewayEnds { pending, closes } = ends;
        let (rt, state) = (self.rt, self.state);
        let mut datagrams = FromSocket::new(state, pending);
        let mut jobs = IntoQueues { closes, state };
        let mut down = ToSocket { state };
        let mut sink = Lines::new(rt, self.output);
        let served = run_gateway(
            &self.shared(),
            &mut pass,
            &mut datagrams,
            &SinceStart { state },
            &mut jobs,
            &mut down,
            &mut sink,
            state.window_ms(),
        );
        let fault = fault_of(rt, state, "gateway worker", served.fault);
        state.end_gateway();
        Back { pass, fault }
    }
}

impl<
    'a,
    S: Calls<R>,
    R: Wait + Clock + Log + Net<Listener = TcpListener, Stream = TcpStream>,
    G: Gate<R>,
    M: Monitor<R>,
    W: Sink,
> Work<PassKit<S, R>, Back<S, R>> for Around<'a, S, R, G, M, W> {
    // A join worker, from its start to its end.
    fn work(&self, kit: PassKit<S, R>) -> Back<S, R>
        ensures { let has_opened = ⟦<ToJoinServer<'a, R> as Connections<R>>⟧.has_opened in
            let has_none = ⟦<ToJoinServer<'a, R> as Connections<R>>⟧.has_none in
            let taken = ⟦<Responses<Within<'a, R>> as Sink>⟧.taken in
            let left = ⟦<Responses<Within<'a, R>> as Source>⟧.left in
            let has_failed = ⟦<Responses<Within<'a, R>> as Stream>⟧.has_failed in
            let has_heard = M.has_heard self.now.monitor.now in
            (to : to_join_server R) × (to.addr ≡ self.now.join) × (as_nanos to.limit ≡ 4_000_000_000)
            × IsAnswered S.roster has_heard (HasOutcome taken left has_failed (has_opened to) (has_none to) has_heard self.now.roster.now (host_text self.now.host))
            (S.made result.pass) result.fault }
    {
        let PassKit { mut pass } = kit;
        let (rt, state) = (self.rt, self.state);
        let mut jobs = FromQueue { state };
        let mut down = ToSocket { state };
        let connections = ToJoinServer::new(rt, self.join, &state.counts.exchanges);
        let joined = run_join(
            self.alloc,
            &self.shared(),
            &mut pass,
            &connections,
            &SinceStart { state },
            &mut jobs,
            &mut down,
            self.roster,
            self.host,
        );
        let fault = fault_of(rt, state, "join worker", joined.fault);
        Back { pass, fault }
    }
}
