//! Lines beside those of the worked run of `ns_device`.

use ns_device::worked;
use ns_resume::RecordFault;
use ns_roster::Roster;
use std::alloc::Global;
use std::sync::Arc;

/// The first 40 bytes of its uplink.
pub const TORN: &str = "heard 010100000000000000a100000000000f42";

/// The first 10 bytes of its `up` line.
pub const TORN_UP: &str = "up 0000000";

/// The base of a record that has just the join and the uplink.
pub const BASE: &str = "base 0000000000000004 000000000000003e\n";

/// The checkpoint of a record that has just the join and the confirmed uplink, beside its `up` line, as `tools/checkpoint.py` writes it.
pub const CHECKPOINT: &str = "checkpoint 1 0000000000000011 000000000000003e
shard 00
shard 01
shard 02
shard 03
shard 04
shard 05
shard 06
shard 07
shard 08
shard 09
shard 0a
shard 0b
shard 0c
shard 0d
device 000000000000000d 0001 00000002 00000001 44024241ed4ce9a68c6a8bc055233fd3 ec925802ae430ca77fd3dd73cb2cc588 00000002 00000001 0000000000000001
shard 0e
shard 0f
end ec8a5d842170418a
";

/// The Join-Request of a later nonce, and the front of the answer to it.
pub const ASKED: &str =
    "heard 010100000000000000a100000000000f424033be27a005fc4a004b170004030201040302010d00000000000000020001000000\nanswer 0004030201040302010d00000000000000020001000000 ";

/// The roster of this text.
pub fn roster_of(alloc: Global, text: &str) -> Result<Arc<Roster>, RecordFault> {
    worked::roster_of(alloc, text).ok_or(RecordFault::NoMemory)
}
