//! How a record begins.

ghost use Rattle.std.specs.Prelude.{◌≡◌, ℕ, ◌<◌, List, [], length, IfOk, IfErr, IfSome};
ghost use Rattle.std.specs.Arc.{arc_value};
ghost use Rattle.std.specs.Io.KnownBytes.{Consumes};
ghost use Rattle.ns_types.specs.Identity.{shard_count};
ghost use Rattle.ns_calls.specs.declared.call.Entry.{Entry};
ghost use Rattle.ns_runs.specs.KeptSteps.{AreKeptFrom};
ghost use Rattle.ns_resume.specs.Head.{first_number, head_text, lines_before, ups_before, AreStarts, HasSixteen};
ghost use Rattle.ns_resume.specs.Private.Faults.{NamesNoLine};
ghost use Rattle.ns_resume.specs.Private.Restored.{IsRestored, AreRestored};

use crate::base::{Base, read_base};
use crate::fault::{RecordFault, of_checkpoint, of_tables};
use ns_checkpoint::{Checkpoint, Tables, read_checkpoint};
use ns_restore::restore;
use ns_roster::Roster;
use ns_runs::new_shards;
use ns_shard::Shard;
use ns_types::SHARDS;
use std::alloc::{AllocError, Global};
use std::io::BufRead;
use std::sync::Arc;

/// How a record begins: what is before its first step line.
#[derive(Drop)]
pub enum RecordHead {
    /// Nothing is: no shard has an entry before the first step.
    Steps,
    /// The line is that a compaction of an older program wrote: no shard has an entry before the first step.
    Compacted(Base),
    /// A checkpoint is: each shard begins with its tables.
    Tabled(Checkpoint),
}

impl RecordHead {
    /// Reads the head of a record. No step that is the first of a record has a line that begins with the letter of a head: a closing closes a
    /// window that a step before it opened.
    pub fn read<S: BufRead>(alloc: Global, steps: &mut S) -> Result<RecordHead, RecordFault>
        ensures bytes { IfOk result (λ head. Consumes (S.remaining steps.old) (S.remaining steps.new) (head_text head)) }
        ensures sixteen { IfOk result (λ head. HasSixteen head) }
        ensures fault { IfErr result NamesNoLine }
    {
        match steps.fill_buf()?.first() {
            Some(b'b') => Ok(RecordHead::Compacted(read_base(alloc, steps)?)),
            Some(b'c') => match read_checkpoint(alloc, steps) {
                Ok(checkpoint) => Ok(RecordHead::Tabled(checkpoint)),
                Err(fault) => Err(of_checkpoint(fault)),
            },
            _ => Ok(RecordHead::Steps),
        }
    }

    /// The number of the first step line: lines are numbered from 1. There is none of 64 bits if there are too many.
    pub fn first_number(&self) -> Option<u64>
        ensures { IfSome result (λ n. n ≡ first_number self.now) }
    {
        match self {
            RecordHead::Steps => Some(1),
            RecordHead::Compacted(_) => Some(2),
            RecordHead::Tabled(checkpoint) => checkpoint.lines()?.checked_add(3),
        }
    }

    /// How many step lines imply no `up` line: those that a compaction left.
    pub fn lines_before(&self) -> u64
        ensures { result ≡ lines_before self.now }
    {
        match self {
            RecordHead::Compacted(base) => base.lines,
            _ => 0,
        }
    }

    /// How many bytes of the `up` lines were written before.
    pub fn ups_before(&self) -> u64
        ensures { result ≡ ups_before self.now }
    {
        match self {
            RecordHead::Steps => 0,
            RecordHead::Compacted(base) => base.ups,
            RecordHead::Tabled(checkpoint) => checkpoint.ups,
        }
    }
}

// The shard of this number that answers from these tables.
fn restored(
    alloc: Global,
    roster: &Arc<Roster>,
    index: u8,
    tables: &Tables,
) -> Result<Shard, RecordFault>
    requires { index < shard_count }
    ensures shard { IfOk result (IsRestored (arc_value roster.now) index tables.now) }
    ensures fault { IfErr result NamesNoLine }
{
    match restore(alloc, roster.clone()?, index, tables) {
        Ok(shard) => Ok(shard),
        Err(fault) => Err(of_tables(index, fault)),
    }
}

// The shards that answer from these tables, each at its number.
fn all_restored(
    alloc: Global,
    roster: &Arc<Roster>,
    tables: &[Tables],
) -> Result<Vec<Shard>, RecordFault>
    requires { length tables.now ≡ shard_count }
    ensures shards { IfOk result (λ list. AreRestored (arc_value roster.now) tables.now list.items × (length list.items ≡ shard_count)) }
    ensures fault { IfErr result NamesNoLine }
{
    let mut list = Vec::with_capacity(alloc, usize::from(SHARDS))?;
    'shards: for index in 0..SHARDS {
        let shard = restored(alloc, roster, index, &tables[usize::from(index)])?;
        if let Err(refused) = list.push(shard) {
            return Err(AllocError::from(refused).into());
        }
    }
    Ok(list)
}

// The shards with which a record of this head begins.
fn shards_of(
    alloc: Global,
    roster: Arc<Roster>,
    head: &RecordHead,
) -> Result<Vec<Shard>, RecordFault>
    requires { HasSixteen head.now }
    ensures shards { IfOk result (λ list. (starts : ℕ → List Entry) × AreStarts (arc_value roster) head.now starts × AreKeptFrom (arc_value roster) starts [] list.items) }
    ensures fault { IfErr result NamesNoLine }
{
    match head {
        RecordHead::Steps => Ok(new_shards(alloc, roster)?),
        RecordHead::Compacted(_) => Ok(new_shards(alloc, roster)?),
        RecordHead::Tabled(checkpoint) => {
            all_restored(alloc, &roster, checkpoint.shards.as_slice())
        }
    }
}

/// Reads the head of a record, and makes the sixteen shards that it begins with, each at its number.
pub fn begin_record<S: BufRead>(
    alloc: Global,
    roster: Arc<Roster>,
    steps: &mut S,
) -> Result<(RecordHead, Vec<Shard>), RecordFault>
    ensures bytes { IfOk result (λ r. Consumes (S.remaining steps.old) (S.remaining steps.new) (head_text r.0)) }
    ensures shards { IfOk result (λ r. (starts : ℕ → List Entry) × AreStarts (arc_value roster) r.0 starts × AreKeptFrom (arc_value roster) starts [] r.1.items) }
    ensures fault { IfErr result NamesNoLine }
{
    let head = RecordHead::read(alloc, steps)?;
    let shards = shards_of(alloc, roster, &head)?;
    Ok((head, shards))
}
