//! Why a frame can't be built.

ghost use Rattle.std.specs.Prelude.{◌≡◌, ◌+◌, [], ◌∷◌, Some};
ghost use Rattle.ns_creator.specs.Faults.{number};

use std::error::Error;
use std::fmt;

/// Why a frame can't be built.
#[derive(Clone, Copy, Debug, Drop, PartialEq, Eq)]
pub enum CreateFault {
    /// C1: the buffer is shorter than the frame.
    BufferTooShort {
        /// How many bytes the frame has.
        need: usize,
    },
    /// C2: more than 15 bytes of FOpts.
    OptionsTooLong,
    /// C3: a payload without a port.
    PayloadWithoutPort,
    /// C4: a frame of more than 255 bytes.
    FrameTooLong,
}

impl CreateFault {
    /// The number behind the letter C, 1 to 4.
    pub fn number(self) -> u8
        ensures { result ≡ number self }
    {
        match self {
            CreateFault::BufferTooShort { .. } => 1,
            CreateFault::OptionsTooLong => 2,
            CreateFault::PayloadWithoutPort => 3,
            CreateFault::FrameTooLong => 4,
        }
    }
}

impl fmt::Display for CreateFault {
    ghost output = { λ fault. Some (67 ∷ (48 + number fault) ∷ []) };

    /// The letter C and the number.
    fn fmt<W: fmt::Write>(&self, f: &mut fmt::Formatter<W>) -> fmt::Result {
        f.write_str(match self {
            CreateFault::BufferTooShort { .. } => "C1",
            CreateFault::OptionsTooLong => "C2",
            CreateFault::PayloadWithoutPort => "C3",
            CreateFault::FrameTooLong => "C4",
        })
    }
}

impl Error for CreateFault {}
