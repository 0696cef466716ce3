//! The name of a server, which is a type.

use ns_tally::Ledgers;
use std::marker::Brand;

/// Names one server: its ledgers, its roster, and the shards with which it began. No value of it is made: the call that makes a server picks what it stands for.
pub trait Naming: Ledgers {
    ghost use Rattle.std.specs.Prelude.{ℕ};
    ghost use Rattle.ns_roster.specs.Network.{Network};
    ghost use Rattle.ns_shard.specs.State.{State};

    ghost roster: { Network };

    ghost begun: { ℕ → State };
}

impl Naming for Brand {
    ghost use Rattle.std.specs.Prelude.{[]};
    ghost use Rattle.ns_shard.specs.State.{no_entries};

    ghost roster = { record { net_id = record { 0 = 0 }; rx1_offset = 0; rx_delay = 0; devices = [] } };

    ghost begun = { no_entries (record { net_id = record { 0 = 0 }; rx1_offset = 0; rx_delay = 0; devices = [] }) };
}
