//! Why a roster was refused.

ghost use Rattle.std.specs.Prelude.{◌≡◌};
ghost use Rattle.ns_roster.specs.declared.fault.RosterFault.TheVariants.{NoMemory};

use std::alloc::{AllocError, AllocFailed};
use thiserror::Error;

/// The first fault of a roster's text, printed as its number, or want of memory.
#[derive(Clone, Copy, Debug, PartialEq, Eq, Error)]
pub enum RosterFault {
    /// O1: the bytes are no JSON.
    #[error("O1")]
    NotJson,
    /// O2: a field is missing or wrong.
    #[error("O2")]
    Field,
    /// O3: an earlier device has this DevEUI.
    #[error("O3")]
    Twice,
    /// O4: the NetID is not of type 0.
    #[error("O4")]
    NetId,
    /// O5: a slot is over 2,097,151.
    #[error("O5")]
    Slot,
    /// O6: there are more than 65,536 devices.
    #[error("O6")]
    TooMany,
    /// Memory ran out before the answer was known.
    #[error("no memory")]
    NoMemory,
}

impl From<AllocError> for RosterFault {
    ghost from_gives = { λ _ e. e ≡ NoMemory };

    fn from(_error: AllocError) -> RosterFault {
        RosterFault::NoMemory
    }
}

impl<T: Drop> From<AllocFailed<T>> for RosterFault {
    ghost from_gives = { λ _ e. e ≡ NoMemory };

    fn from(_error: AllocFailed<T>) -> RosterFault {
        RosterFault::NoMemory
    }
}
