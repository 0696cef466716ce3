//! What gives the steps of a run, line by line, and what takes their answers.

ghost use Rattle.std.specs.Prelude.{◌≡◌, ◌++◌, List, Option, Bool, false, true, option_map, IfOk, IfErr, OnOk, ◌↔◌};
ghost use Rattle.ns_types.specs.declared.transfer.ReadFault.TheVariants.{Io};
ghost use Rattle.ns_acts.specs.declared.step.Step.{Step};
ghost use Rattle.ns_runs.specs.declared.run.Taken.{Taken};
ghost use Rattle.ns_runs.specs.Lines.{lent, Advances};

use crate::run::Taken;
use ns_acts::LentAct;
use ns_types::ReadFault;
use std::alloc::{AllocError, Global};

/// A step of which the bytes are lent, and the number of the worker that makes it.
#[derive(Clone, Copy)]
pub struct LentStep<'a> {
    pub worker: u32,
    pub act: LentAct<'a>,
}

/// Gives the steps of a run out of an `R`, such as a stream: one line after the other, of which each asks for a step or for none.
pub trait StepSource<R> {
    // Whether a read of an `R` has failed.
    ghost has_failed: { R → Bool };

    // The lines that it will give from here on, where it tells them.
    ghost left: { Self → R → Option (List (Option Step)) };

    // The line that it is at.
    ghost here: { Self → Option Step };

    /// Goes to the next line, and says whether there is one.
    fn advance(&mut self, from: &mut R) -> Result<bool, ReadFault>
        requires { has_failed from.old ≡ false }
        ensures lines { IfOk result (λ more. Advances (left self.old from.old) (left self.new from.new) more (here self.new)) }
        ensures sound { OnOk result (has_failed from.new ≡ false) }
        ensures io { IfErr result (λ e. (e ≡ Io) ↔ (has_failed from.new ≡ true)) };

    /// The step of the line that it is at, where the line asks for one. Its bytes are lent from the lines or from `room`, which grows
    /// where it is too short: `NoMemory` (`AllocError`) where that was refused.
    fn step<'a>(&'a self, room: &'a mut Vec<u8>) -> Result<Option<LentStep<'a>>, AllocError>
        ensures { IfOk result (λ step. option_map lent step ≡ here self.now) };
}

/// Takes what came of each line of a run.
pub trait Answers {
    // What it makes of what it takes.
    ghost Piece: { Type 0 };

    // All that it has made so far.
    ghost held: { Self → List Piece };

    // What it makes of what came of a line.
    ghost pieces: { Self → Option Taken → List Piece };

    /// Takes what came of a line, nothing where it asked for no step, and may give back what it needs no more. `NoMemory` (`AllocError`)
    /// where a growth was refused.
    fn put(&mut self, alloc: Global, taken: Option<Taken>) -> Result<Option<Taken>, AllocError>
        ensures held { OnOk result (held self.new ≡ held self.old ++ pieces self.old taken) }
        ensures same { OnOk result (pieces self.new ≡ pieces self.old) };
}
