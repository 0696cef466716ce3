//! Why the tables of a shard were not reached.

use ns_shard::{JumpFault, TrimFault};
use std::alloc::AllocError;
use thiserror::Error;

/// Why the tables of a shard were not reached.
#[derive(Clone, Copy, Debug, PartialEq, Eq, Error)]
pub enum RestoreFault {
    /// The tables name a device that the roster does not have in this shard.
    #[error("a device is not in the roster")]
    NoDevice,
    /// A call had another reply than the tables need: they are not what legal calls leave, or they are of another roster.
    #[error("the tables are not reached")]
    Unreached,
    /// The calls left other tables.
    #[error("other tables are reached")]
    OtherTables,
    /// More than 2^63 entries would be dropped from the shard in all.
    #[error("too many entries")]
    Full,
    /// A growth was refused.
    #[error("no memory")]
    NoMemory,
}

impl From<AllocError> for RestoreFault {
    fn from(_error: AllocError) -> RestoreFault {
        RestoreFault::NoMemory
    }
}

impl From<TrimFault> for RestoreFault {
    fn from(fault: TrimFault) -> RestoreFault {
        match fault {
            TrimFault::Full => RestoreFault::Full,
            TrimFault::NoMemory => RestoreFault::NoMemory,
        }
    }
}

impl From<JumpFault> for RestoreFault {
    fn from(fault: JumpFault) -> RestoreFault {
        match fault {
            JumpFault::NoRounds => RestoreFault::Unreached,
            JumpFault::Full => RestoreFault::Full,
            JumpFault::NoMemory => RestoreFault::NoMemory,
        }
    }
}
