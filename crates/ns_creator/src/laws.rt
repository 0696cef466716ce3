//! Laws of written frames, as contracts of functions that do nothing.

ghost use Rattle.ns_creator.specs.Laws.{UplinksReadBack, JoinRequestsReadBack, AckIsItsBytes};

use ns_views::{fault_law, one_join_reading, one_reading};

/// `view` takes each uplink and each Join-Request of the grammar, as `build_into` writes them, and reads it to the
/// fields that it was made of.
pub fn frames_read_back()
    ensures uplinks { UplinksReadBack }
    ensures join_requests { JoinRequestsReadBack }
{
    fault_law();
    one_reading();
    one_join_reading();
}

/// An acknowledgement is these twelve bytes.
pub fn acknowledgement_law()
    ensures { AckIsItsBytes }
{}
