//! The counter at which an uplink is tried.

ghost use Rattle.std.specs.Prelude.{◌≡◌};
ghost use Rattle.ns_sessions.specs.Recovery.{recovery_counter};

use ns_secure::{above, below};

/// How the counter of an uplink is recovered from its low half, by the greatest counter that was opened in a session.
#[derive(Clone, Copy)]
pub enum Recovery {
    /// The least counter above the greatest.
    Above,
    /// The greatest counter of at most the greatest.
    Below,
}

impl Recovery {
    /// The counter with this low half, where there is one.
    pub(crate) fn counter(self, greatest: Option<u32>, low: u16) -> Option<u32>
        ensures { result ≡ recovery_counter self greatest low }
    {
        match self {
            Recovery::Above => above(greatest, low),
            Recovery::Below => below(greatest, low),
        }
    }
}
