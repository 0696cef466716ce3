//! What a shard answers from, compared.

ghost use Rattle.std.specs.Prelude.{◌≡◌, IsTrue, List};
ghost use Rattle.ns_calls.specs.declared.call.Entry.{Entry};
ghost use Rattle.ns_shard.specs.State.{Keeps};
ghost use Rattle.ns_shard.specs.Tables.{devices_in, windows_in, TellTheSame};

use crate::shard::Shard;

/// Whether two shards answer from the same devices and the same open windows. If they do, and have one roster, they have the same answers to
/// all later calls (`answers_rest_on_tables`).
pub fn same_tables(shard: &Shard, other: &Shard) -> bool
    ensures same { IsTrue result → shard.now.roster ≡ other.now.roster → shard.now.index ≡ other.now.index
        → (g h : List Entry) → Keeps g shard.now → Keeps h other.now → TellTheSame shard.now.roster shard.now.index g h }
    ensures all { (g h : List Entry) → Keeps g shard.now → Keeps h other.now
        → devices_in shard.now.roster shard.now.index g ≡ devices_in other.now.roster other.now.index h → windows_in g ≡ windows_in h → IsTrue result }
{
    let devices = shard.devices().is_same(other.devices());
    let windows = shard.windows().is_same(other.windows());
    devices && windows
}
