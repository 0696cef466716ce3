//! What the threads of a server see.
ghost use Rattle.std.specs.Prelude.{◌≡◌};

use ns_exchange::HostName;
use ns_roster::Roster;
use ns_serve_state::State;
use ns_serve_streams::Output;
use ns_workers::Shared;
use std::alloc::Global;
use std::net::SocketAddr;
use std::sync::Mutex;

/// What the threads see. One reference to it goes into each.
#[derive(Drop)]
pub struct Around<'a, S, R, G, M, W> {
    pub rt: &'a R,
    pub alloc: Global,
    /// What makes the calls.
    pub server: &'a S,
    /// What each call visits.
    pub gate: &'a G,
    /// Who is told what happens.
    pub monitor: &'a M,
    pub roster: &'a Roster,
    /// The host of the join server, and its address.
    pub host: HostName<'a>,
    pub join: SocketAddr,
    pub state: &'a State,
    pub output: &'a Mutex<Output<W>>,
}

impl<'a, S, R, G, M, W> Around<'a, S, R, G, M, W> {
    // What a worker shares with the others.
    pub(crate) fn shared(&self) -> Shared<'a, S, R, G, M>
        ensures output { result.output ≡ self.now.state.now.uplinks }
        ensures monitor { result.monitor ≡ self.now.monitor }
    {
        Shared {
            output: self.state.uplinks(),
            rt: self.rt,
            server: self.server,
            gate: self.gate,
            monitor: self.monitor,
        }
    }
}
