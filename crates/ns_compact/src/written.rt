//! The checkpoint of shards, written.

ghost use Rattle.std.specs.Prelude.{◌≡◌, OnOk};
ghost use Rattle.std.specs.Io.KnownBytes.{Appends};
ghost use Rattle.ns_checkpoint.specs.Text.{checkpoint_text};
ghost use Rattle.ns_checkpoint.specs.declared.tables.Checkpoint.{Checkpoint};

use ns_checkpoint::{Checkpoint, Tables, write_checkpoint};
use ns_restore::{RestoreFault, tables_of};
use ns_resume::RecordFault;
use ns_shard::Shard;
use ns_types::SHARDS;
use std::alloc::{AllocError, Global};
use std::io::Write;

// What a shard answers from.
fn tables(alloc: Global, shard: &Shard) -> Result<Tables, RecordFault> {
    match tables_of(alloc, shard) {
        Ok(tables) => Ok(tables),
        Err(RestoreFault::NoMemory) => Err(RecordFault::NoMemory),
        Err(fault) => Err(RecordFault::BadTables(shard.index(), fault)),
    }
}

// What these shards answer from, beside `up` lines of so many bytes.
fn checkpoint_of(alloc: Global, shards: &[Shard], ups: u64) -> Result<Checkpoint, RecordFault> {
    let mut list = Vec::with_capacity(alloc, usize::from(SHARDS))?;
    'shards: for shard in shards {
        if let Err(refused) = list.push(tables(alloc, shard)?) {
            return Err(AllocError::from(refused).into());
        }
    }
    Ok(Checkpoint { ups, shards: list })
}

/// Writes the checkpoint of these sixteen shards, before which `up` lines of so many bytes were written. Returns the number of its lines.
/// Whether a start from it leaves the same no clause says: `serves_as_well` is to be asked.
pub fn write_shards<W: Write>(
    alloc: Global,
    shards: &[Shard],
    ups: u64,
    out: &mut W,
) -> Result<u64, RecordFault>
    ensures { OnOk result ((checkpoint : Checkpoint) × Appends (W.contents out.old) (W.contents out.new) (checkpoint_text checkpoint)) }
{
    let checkpoint = checkpoint_of(alloc, shards, ups)?;
    if checkpoint.shards.len() != usize::from(SHARDS) {
        return Err(RecordFault::NotAsWell);
    }
    let Some(lines) = checkpoint.lines() else {
        return Err(RecordFault::TooMany);
    };
    write_checkpoint(out, &checkpoint)?;
    Ok(lines.saturating_add(2))
}
