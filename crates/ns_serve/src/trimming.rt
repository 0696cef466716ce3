//! The shards are trimmed between turns of the closer.

use ns_log::Log;
use ns_serve_parts::Made;
use ns_serve_shards::{Trims, trim_due};
use ns_serve_workers::AfterTurn;
use ns_server::{Naming, Server};
use std::alloc::Global;
use std::sync::Wait;

/// Trims the shards of a server that are due, where trims are asked for.
#[derive(Drop)]
pub(crate) struct Trimming<'a, B: Naming> {
    alloc: Global,
    server: &'a Server<B>,
    trims: Option<Trims>,
}

impl<'a, B: Naming> Trimming<'a, B> {
    /// These trims.
    pub fn new(alloc: Global, server: &'a Server<B>, trims: Option<Trims>) -> Trimming<'a, B> {
        Trimming {
            alloc,
            server,
            trims,
        }
    }
}

impl<'a, B: Naming, R: Wait + Log> AfterTurn<R> for Trimming<'a, B> {
    fn after_turn(&mut self, rt: &R, made: &Made) {
        if let Some(trims) = &mut self.trims {
            let _told = trim_due(rt, self.alloc, self.server, trims, &made.all());
        }
    }
}
