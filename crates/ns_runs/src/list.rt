//! A list of steps as the lines of a run, and the list of what came of them.

ghost use Rattle.std.specs.Prelude.{◌≡◌, [], false, map, Some, option_map};
ghost use Rattle.std.specs.Option.{option_to_list};
ghost use Rattle.ns_runs.specs.Lines.{lent};

use crate::lines::{Answers, LentStep, StepSource};
use crate::run::Taken;
use ns_acts::Step;
use ns_types::ReadFault;
use std::alloc::{AllocError, Global};

/// The steps of a list, and the one that is made next.
#[derive(Drop)]
pub struct StepList<'a> {
    here: Option<&'a Step>,
    rest: &'a [Step],
}

impl StepList<'_> {
    /// The steps of a list, before the first.
    pub fn new(steps: &[Step]) -> StepList<'_>
        ensures { result.rest.now ≡ steps.now }
    {
        StepList {
            here: None,
            rest: steps,
        }
    }
}

impl StepSource<()> for StepList<'_> {
    ghost has_failed = { λ _. false };

    ghost left = { λ s _. Some (map Some s.rest.now) };

    ghost here = { λ s. option_map (λ step. step.now) s.here };

    fn advance(&mut self, _from: &mut ()) -> Result<bool, ReadFault> {
        let Some((first, rest)) = self.rest.split_first() else {
            return Ok(false);
        };
        self.here = Some(first);
        self.rest = rest;
        Ok(true)
    }

    fn step<'b>(&'b self, _room: &'b mut Vec<u8>) -> Result<Option<LentStep<'b>>, AllocError> {
        match self.here {
            Some(step) => Ok(Some(LentStep {
                worker: step.worker,
                act: step.act.lend(),
            })),
            None => Ok(None),
        }
    }
}

/// The list of what came of steps.
#[derive(Drop)]
pub struct TakenList {
    pub taken: Vec<Taken>,
}

impl Answers for TakenList {
    ghost use Rattle.std.specs.Option.{option_to_list};
    ghost use Rattle.ns_runs.specs.declared.run.Taken.{Taken};

    ghost Piece = { Taken };

    ghost held = { λ s. s.taken.items };

    ghost pieces = { λ _ taken. option_to_list taken };

    fn put(&mut self, alloc: Global, taken: Option<Taken>) -> Result<Option<Taken>, AllocError> {
        if let Some(taken) = taken {
            self.taken.push(taken.packed(alloc)?)?;
        }
        Ok(None)
    }
}
