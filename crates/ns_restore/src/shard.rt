//! A shard of tables.

ghost use Rattle.std.specs.Prelude.{◌≡◌, ◌<◌, IfOk, OnOk};
ghost use Rattle.std.specs.Arc.{arc_value};
ghost use Rattle.ns_types.specs.Identity.{shard_count};
ghost use Rattle.ns_shard.specs.State.{IsState};
ghost use Rattle.ns_restore.specs.Tables.{AreOfOneShard, HasTables};

use crate::compare::has_tables;
use crate::devices::{ask_first, finish_all};
use crate::fault::RestoreFault;
use crate::maker::Maker;
use crate::plan::Plan;
use crate::windows::open_windows;
use ns_checkpoint::Tables;
use ns_roster::Roster;
use ns_shard::Shard;
use std::alloc::Global;
use std::sync::Arc;

// A frame that is made up fits another device than its own once in 2^32 times. Then all is made anew with other frames.
const ATTEMPTS: usize = 3;

// The calls that the tables tell, on a shard without entries.
fn make(maker: &mut Maker, roster: &Roster, tables: &Tables) -> Result<(), RestoreFault>
    ensures { OnOk result (AreOfOneShard maker.new.shard maker.old.shard) }
{
    let plan = Plan::new(maker.alloc, tables)?;
    let mut makings = plan.makings(maker.alloc, roster)?;
    ask_first(maker, makings.as_slice())?;
    open_windows(maker, &mut makings, &plan)?;
    finish_all(maker, makings.as_mut_slice(), &plan)
}

// A shard that was given these calls, with frames of so many bytes of options.
fn made(
    alloc: Global,
    roster: &Arc<Roster>,
    index: u8,
    tables: &Tables,
    options: usize,
) -> Result<Shard, RestoreFault>
    requires { index < shard_count }
    ensures roster { IfOk result (λ s. s.roster ≡ arc_value roster.now) }
    ensures index { IfOk result (λ s. s.index ≡ index) }
    ensures state { IfOk result IsState }
{
    let shard = Shard::new(alloc, roster.clone()?, index)?;
    let mut maker = Maker::new(alloc, shard, options);
    make(&mut maker, roster, tables)?;
    let mut shard = maker.into_shard();
    shard.trim_in_place(alloc)?;
    Ok(shard)
}

/// A shard that keeps a legal history and answers from these tables. Its history is a short one, and it is trimmed. `NoDevice` if the tables have
/// a device that the roster does not have in this shard; `Unreached` or `OtherTables` if the calls that are made of the tables do not lead to
/// them, as of tables that no shard of this roster had; `Full` or `NoMemory` (Z1, Z2) as a trim.
pub fn restore(
    alloc: Global,
    roster: Arc<Roster>,
    index: u8,
    tables: &Tables,
) -> Result<Shard, RestoreFault>
    requires { index < shard_count }
    ensures roster { IfOk result (λ s. s.roster ≡ arc_value roster) }
    ensures index { IfOk result (λ s. s.index ≡ index) }
    ensures tables { IfOk result (λ s. HasTables s tables.now) }
    ensures state { IfOk result IsState }
{
    let mut fault = RestoreFault::Unreached;
    for options in 0..ATTEMPTS {
        match made(alloc, &roster, index, tables, options) {
            Ok(shard) if has_tables(&shard, tables) => return Ok(shard),
            Ok(_) => fault = RestoreFault::OtherTables,
            Err(RestoreFault::Unreached) => fault = RestoreFault::Unreached,
            Err(other) => return Err(other),
        }
    }
    Err(fault)
}
