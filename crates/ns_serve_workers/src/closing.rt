//! The closer, from its start to its end.
ghost use Rattle.std.specs.Prelude.{◌≡◌, false, Err, IfSome};
ghost use Rattle.ns_tally.specs.Tally.{none_made};
ghost use Rattle.ns_serve_workers.specs.Turns.{HasReceipts};

use crate::around::Around;
use crate::closer::{Closer, Turn, close_and_write, no_memory, write_notices};
use crate::kits::PassKit;
use crate::workers::Back;
use crossbeam_channel::Receiver;
use ns_log::{Log, error};
use ns_outside::{Calls, CloseJob, Gate, Monitor};
use ns_serve_parts::{Made, ServeFault};
use ns_serve_state::rest_record;
use ns_serve_threads::Lead;
use ns_types::Sink;
use std::sync::Wait;
use std::time::Clock;

/// What is done after each turn of the closer, which tells how many entries of each shard were made.
pub trait AfterTurn<R> {
    fn after_turn(&mut self, rt: &R, made: &Made);
}

/// What the closer takes along.
#[derive(Drop)]
pub(crate) struct CloserKit<'c, 'a, S: Calls<R>, R, G, M, W, A> {
    pub around: &'c Around<'a, S, R, G, M, W>,
    pub own: PassKit<S, R>,
    /// The windows that are to be closed.
    pub closes: &'c Receiver<CloseJob>,
    /// Who is told of its turns.
    pub after: A,
}

// Logs that a thread could not be made.
fn log_unmade<R: Log>(rt: &R) {
    error!(rt; "a thread could not be made");
}

impl<
    'c,
    'a,
    S: Calls<R>,
    R: Wait + Clock + Log,
    G: Gate<R>,
    M: Monitor<R>,
    W: Sink,
    A: AfterTurn<R> + Drop,
> Lead<Back<S, R>> for CloserKit<'c, 'a, S, R, G, M, W, A> {
    // The closer, from its start to its end. Where a thread could not be made, all others are to stop.
    fn lead(self, is_whole: bool) -> Back<S, R>
        ensures { HasReceipts S.roster (M.has_heard self.entry.around.now.monitor.now) none_made (S.made result.pass) }
    {
        let CloserKit {
            around,
            own,
            closes,
            after,
        } = self;
        if !is_whole {
            log_unmade(around.rt);
            around.state.break_off();
        }
        let PassKit { mut pass } = own;
        let fault = close_to_end(around, &mut pass, closes, after);
        if fault.is_some() {
            around.state.break_off();
        }
        rest_record(around.state);
        Back { pass, fault }
    }
}

// Writes what was told meanwhile, unless there is a fault already: that the server goes on, or the fault.
fn go_on<S, R: Wait + Log, G, M, W: Sink>(
    around: &Around<'_, S, R, G, M, W>,
    fault: Option<ServeFault>,
) -> Result<bool, ServeFault>
    ensures { IfSome fault (λ f. result ≡ Err f) }
{
    if let Some(fault) = fault {
        return Err(fault);
    }
    match write_notices(around.rt, around.state, around.output) {
        Some(fault) => Err(fault),
        None => Ok(true),
    }
}

// Closes the windows that are due and writes what was told meanwhile: whether the server goes on, or the fault that ends it.
#[tactic(auto, using(crate::proofs::ReceiptLemmas::receipts_none))]
fn close_turn<S: Calls<R>, R: Wait + Clock + Log, G: Gate<R>, M: Monitor<R>, W: Sink>(
    around: &Around<'_, S, R, G, M, W>,
    pass: &mut S::Pass,
    closer: &mut Closer<'_>,
) -> Result<bool, ServeFault>
    requires { closer.old.held.failed ≡ false }
    ensures sound { closer.new.held.failed ≡ false }
    ensures receipts { HasReceipts S.roster (M.has_heard around.now.monitor.now) (S.made pass.old) (S.made pass.new) }
{
    let (rt, state) = (around.rt, around.state);
    if state.is_over() {
        return Ok(false);
    }
    match closer.closings.next(rt, around.alloc, state) {
        Ok(Turn::Close(jobs)) => go_on(around, close_and_write(around, pass, closer, jobs)),
        Ok(Turn::Idle) => go_on(around, None),
        Ok(Turn::End) => Ok(false),
        Err(_) => Err(no_memory(rt, "no memory for its jobs")),
    }
}

// Closes windows until the server stops, and tells of each turn.
fn close_turns<
    S: Calls<R>,
    R: Wait + Clock + Log,
    G: Gate<R>,
    M: Monitor<R>,
    W: Sink,
    A: AfterTurn<R>,
>(
    around: &Around<'_, S, R, G, M, W>,
    pass: &mut S::Pass,
    closer: &mut Closer<'_>,
    after: &mut A,
) -> Option<ServeFault>
    requires { closer.old.held.failed ≡ false }
    ensures { HasReceipts S.roster (M.has_heard around.now.monitor.now) (S.made pass.old) (S.made pass.new) }
{
    for _turn in around.rt.forever() {
        match close_turn(around, pass, closer) {
            Ok(true) => after.after_turn(around.rt, &around.state.made),
            Ok(false) => return None,
            Err(fault) => return Some(fault),
        }
    }
    unreachable!()
}

// Does so with room for one turn, if there is memory for it.
#[tactic(auto, using(crate::proofs::ReceiptLemmas::receipts_none))]
fn close_to_end<
    S: Calls<R>,
    R: Wait + Clock + Log,
    G: Gate<R>,
    M: Monitor<R>,
    W: Sink,
    A: AfterTurn<R> + Drop,
>(
    around: &Around<'_, S, R, G, M, W>,
    pass: &mut S::Pass,
    closes: &Receiver<CloseJob>,
    mut after: A,
) -> Option<ServeFault>
    ensures { HasReceipts S.roster (M.has_heard around.now.monitor.now) (S.made pass.old) (S.made pass.new) }
{
    match Closer::new(around.state, closes) {
        Ok(mut closer) => close_turns(around, pass, &mut closer, &mut after),
        Err(_) => Some(no_memory(around.rt, "no memory for lines")),
    }
}
