//! Whether a start from a checkpoint leaves the same.

ghost use Rattle.std.specs.Prelude.{◌≡◌, ℕ, true, List, IfOk};
ghost use Rattle.std.specs.Arc.{arc_value};
ghost use Rattle.ns_calls.specs.declared.call.Entry.{Entry};
ghost use Rattle.ns_acts.specs.declared.step.Step.{Step};
ghost use Rattle.ns_runs.specs.KeptSteps.{AreHistories, AreKeptFrom};
ghost use Rattle.ns_runs.specs.Steps.{shard_history_from};
ghost use Rattle.ns_resume.specs.Resumed.{IsAllOf};
ghost use Rattle.ns_compact.specs.Compact.{TellsSteps, GoOnTheSame, AllTellTheSame};

use ns_resume::{RecordFault, run_record};
use ns_roster::Roster;
use ns_shard::{Shard, same_tables};
use std::alloc::Global;
use std::io::BufRead;
use std::sync::Arc;

// Whether shards answer from the same tables, each as the one of its place.
fn have_same_tables(old: &[Shard], new: &[Shard]) -> bool
    ensures { result ≡ true → AllTellTheSame old.now new.now }
{
    let mut left = old;
    let mut right = new;
    'shards: while let Some((a, left_after)) = left.split_first() {
        let Some((b, right_after)) = right.split_first() else {
            return false;
        };
        if !same_tables(a, b) {
            return false;
        }
        left = left_after;
        right = right_after;
    }
    right.is_empty()
}

/// Runs a record, as a start would, beside `up` lines that are whole, and returns true only if the shards that it leaves answer from the
/// same tables as `old`. Then every later answer is the same.
pub fn serves_as_well<S: BufRead, U: BufRead>(
    alloc: Global,
    roster: Arc<Roster>,
    old: &[Shard],
    steps: &mut S,
    ups: &mut U,
) -> Result<bool, RecordFault>
    ensures { IfOk result (λ same. same ≡ true → (text : List ℕ) × (starts : ℕ → List Entry) × (steps_left : List Step) × IsAllOf (S.remaining steps.old) text
        × TellsSteps (arc_value roster) text starts steps_left
        × ((before : ℕ → List Entry) (told : List Step) → AreHistories (arc_value roster) before → AreKeptFrom (arc_value roster) before told old.now
        → GoOnTheSame (arc_value roster) (λ k. shard_history_from (arc_value roster) before k told) (λ k. shard_history_from (arc_value roster) starts k steps_left))) }
{
    // A roster that is read is valid: the laws of histories rest on that.
    let _net_id = roster.net_id();
    let resumed = run_record(alloc, roster, steps, ups)?;
    if resumed.torn > 0 || resumed.up_torn > 0 || !resumed.missing.is_empty() {
        return Ok(false);
    }
    Ok(have_same_tables(old, resumed.shards.as_slice()))
}
