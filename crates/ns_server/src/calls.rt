//! A server makes the calls of workers.

use crate::names::Naming;
use crate::pass::Pass;
use crate::server::Server;
use ns_calls::Call;
use ns_outside::{Calls, Gate, Receipt};
use std::alloc::AllocError;
use std::sync::Wait;

impl<B: Naming, R: Wait> Calls<R> for Server<B> {
    ghost roster = { B.roster };

    ghost made = { λ pass. pass };

    type Pass = Pass<B>;

    fn call_into<G: Gate<R>>(
        &self,
        rt: &R,
        pass: &mut Pass<B>,
        call: &Call,
        gate: &G,
        receipt: &mut Receipt,
    ) -> Result<(), AllocError> {
        Server::call_into(self, rt, pass, call, gate, receipt)
    }
}
