//! Why a message of a forwarder, an item in it or a downlink was refused.

ghost use Rattle.std.specs.Prelude.{◌≡◌};
ghost use Rattle.ns_forwarder.specs.Faults.{number};
ghost use Rattle.ns_forwarder.specs.declared.fault.ForwarderFault.TheVariants.{NoMemory};

use std::alloc::{AllocError, AllocFailed};
use thiserror::Error;

/// Why a message, an item or a downlink was refused, printed as its number, or want of memory.
#[derive(Clone, Copy, Debug, PartialEq, Eq, Error)]
pub enum ForwarderFault {
    /// F1: the message has more than 16,384 bytes.
    #[error("F1")]
    TooLong,
    /// F2: the message has fewer than 12 bytes.
    #[error("F2")]
    Short,
    /// F3: the version is neither 1 nor 2.
    #[error("F3")]
    Version,
    /// F4: the message is none of PUSH_DATA, PULL_DATA and TX_ACK.
    #[error("F4")]
    Kind,
    /// F5: the body has more than 255 items.
    #[error("F5")]
    TooMany,
    /// F6: the body is no JSON object, or its `rxpk` no list.
    #[error("F6")]
    Body,
    /// F7: a field of the item is missing or wrong.
    #[error("F7")]
    Field,
    /// F8: the CRC of the item's frame does not fit.
    #[error("F8")]
    BadCrc,
    /// F9: the item's frame has no CRC.
    #[error("F9")]
    NoCrc,
    /// F10: the item's frequency, modulation or data rate is not of EU868.
    #[error("F10")]
    Outside,
    /// F11: the downlink's frequency or data rate is not of EU868.
    #[error("F11")]
    Downlink,
    /// Memory ran out before the answer was known.
    #[error("no memory")]
    NoMemory,
}

impl ForwarderFault {
    /// The number behind the letter F; 0 is want of memory.
    pub fn number(self) -> u8
        ensures { result ≡ number self }
    {
        match self {
            ForwarderFault::NoMemory => 0,
            ForwarderFault::TooLong => 1,
            ForwarderFault::Short => 2,
            ForwarderFault::Version => 3,
            ForwarderFault::Kind => 4,
            ForwarderFault::TooMany => 5,
            ForwarderFault::Body => 6,
            ForwarderFault::Field => 7,
            ForwarderFault::BadCrc => 8,
            ForwarderFault::NoCrc => 9,
            ForwarderFault::Outside => 10,
            ForwarderFault::Downlink => 11,
        }
    }
}

impl From<AllocError> for ForwarderFault {
    ghost from_gives = { λ _ e. e ≡ NoMemory };

    fn from(_error: AllocError) -> ForwarderFault {
        ForwarderFault::NoMemory
    }
}

impl<T: Drop> From<AllocFailed<T>> for ForwarderFault {
    ghost from_gives = { λ _ e. e ≡ NoMemory };

    fn from(_error: AllocFailed<T>) -> ForwarderFault {
        ForwarderFault::NoMemory
    }
}
