//! Why a record is not gone on with.

ghost use Rattle.std.specs.Prelude.{◌≡◌};
ghost use Rattle.ns_resume.specs.declared.fault.RecordFault.TheVariants.{NoMemory, Io};
ghost use Rattle.ns_resume.specs.Private.Faults.{NamesNoLine};

use ns_checkpoint::CheckpointFault;
use ns_restore::RestoreFault;
use std::alloc::AllocError;
use std::io;
use thiserror::Error;

/// Why a record was not run to its end, or not compacted. Lines are numbered from 1.
#[derive(Clone, Copy, Debug, PartialEq, Eq, Error)]
pub enum RecordFault {
    /// A growth was refused.
    #[error("no memory")]
    NoMemory,
    /// A source failed or had no memory for a line, or the files could not be had, written or mended.
    #[error("record: io")]
    Io,
    /// This line is no step line.
    #[error("record: line {0} is no step line")]
    NoStep(u64),
    /// The step of this line makes no call, or its reply changes nothing, which no recorded call's does: the roster is another, or the
    /// record is not of this server.
    #[error("record: line {0} does not fit the roster")]
    NoFit(u64),
    /// This `up` line is not the one that the record implies.
    #[error("record: up line {0} is not of this record")]
    UpDiffers(u64),
    /// There are more `up` lines than the record implies, which are so many.
    #[error("record: more than the {0} up lines of this record")]
    UpLonger(u64),
    /// The first line begins as a base, and is none, or tells of more lines than there are.
    #[error("record: line 1 is not the base of this record")]
    BadBase,
    /// The `up` lines do not begin with whole lines of so many bytes, of which the base tells.
    #[error("record: up does not begin with the {0} bytes of the base")]
    UpShorter(u64),
    /// After fewer lines of it some later answer may be another: the record stays as it is.
    #[error("record: fewer lines do not serve as well")]
    NotAsWell,
    /// The checkpoint with which the record begins is not read.
    #[error("record: {0}")]
    BadCheckpoint(CheckpointFault),
    /// The checkpoint has tables of this shard that no legal calls over this roster lead to.
    #[error("record: checkpoint: shard {0}: {1}")]
    BadTables(u8, RestoreFault),
    /// There are 2^64 - 2 lines and more.
    #[error("record: too many lines")]
    TooMany,
}

impl From<AllocError> for RecordFault {
    ghost from_gives = { λ _ e. e ≡ NoMemory };

    fn from(_error: AllocError) -> RecordFault {
        RecordFault::NoMemory
    }
}

impl From<io::Error> for RecordFault {
    ghost from_gives = { λ _ e. e ≡ Io };

    fn from(_error: io::Error) -> RecordFault {
        RecordFault::Io
    }
}

/// Why a record with a checkpoint that is not read is not gone on with.
pub(crate) fn of_checkpoint(fault: CheckpointFault) -> RecordFault
    ensures { NamesNoLine result }
{
    match fault {
        CheckpointFault::NoMemory => RecordFault::NoMemory,
        CheckpointFault::Io => RecordFault::Io,
        fault => RecordFault::BadCheckpoint(fault),
    }
}

/// Why a record is not gone on with whose checkpoint has tables of this shard that are not reached.
pub(crate) fn of_tables(index: u8, fault: RestoreFault) -> RecordFault
    ensures { NamesNoLine result }
{
    match fault {
        RestoreFault::NoMemory => RecordFault::NoMemory,
        fault => RecordFault::BadTables(index, fault),
    }
}
