//! Laws of the layout, as contracts of functions that do nothing.

ghost use Rattle.ns_link.specs.Laws.{ReadsExactly};
ghost use Rattle.ns_link.specs.Examples.{Read, Faults, Written};

/// The definitions read and write the examples so.
pub fn examples()
    ensures read { Read }
    ensures faults { Faults }
    ensures written { Written }
{}

/// Bytes hold a frame and how it was heard exactly where they are its datagram, so they have one reading at most.
pub fn reads_exactly()
    ensures { ReadsExactly }
{}
