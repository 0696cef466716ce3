//! Why a test device refuses.

ghost use Rattle.std.specs.Prelude.{◌≡◌, ◌+◌, [], ◌∷◌, Some};
ghost use Rattle.ns_device.specs.Faults.{number};

use ns_creator::CreateFault;
use std::error::Error;
use std::fmt;

/// Why a test device refuses.
#[derive(Clone, Copy, Debug, Drop, PartialEq, Eq)]
pub enum DeviceFault {
    /// E1: a Join-Accept of other than 17 or 33 bytes.
    Length,
    /// E2: an FType other than 1, or a Major other than 0.
    FrameType,
    /// E3: the MIC of a Join-Accept doesn't fit.
    Mic,
    /// E4: no session.
    NoSession,
    /// E5: the frame can't be built.
    Create(CreateFault),
}

impl DeviceFault {
    /// The number behind the letter E, 1 to 5.
    pub fn number(self) -> u8
        ensures { result ≡ number self }
    {
        match self {
            DeviceFault::Length => 1,
            DeviceFault::FrameType => 2,
            DeviceFault::Mic => 3,
            DeviceFault::NoSession => 4,
            DeviceFault::Create(_) => 5,
        }
    }
}

impl From<CreateFault> for DeviceFault {
    ghost use Rattle.ns_device.specs.declared.fault.DeviceFault.TheVariants.{Create};

    ghost from_gives = { λ fault made. made ≡ Create fault };

    fn from(fault: CreateFault) -> Self {
        DeviceFault::Create(fault)
    }
}

impl fmt::Display for DeviceFault {
    ghost output = { λ fault. Some (69 ∷ (48 + number fault) ∷ []) };

    /// The letter E and the number.
    fn fmt<W: fmt::Write>(&self, f: &mut fmt::Formatter<W>) -> fmt::Result {
        f.write_str(match self {
            DeviceFault::Length => "E1",
            DeviceFault::FrameType => "E2",
            DeviceFault::Mic => "E3",
            DeviceFault::NoSession => "E4",
            DeviceFault::Create(_) => "E5",
        })
    }
}

impl Error for DeviceFault {}
