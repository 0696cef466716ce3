//! Laws of the frame grammar, as contracts of functions that do nothing.

ghost use Rattle.std.specs.Prelude.{◌≡◌, ℕ, List};
ghost use Rattle.ns_views.specs.Grammar.{DataFields, IsDataFrame};
ghost use Rattle.ns_views.specs.Frame.{data_fields};
ghost use Rattle.ns_views.specs.Laws.{FaultsAreExact, PartsFaultsAreExact, KindsAreApart, JoinsHaveOneReading, PayloadsAreReplaced};
ghost use Rattle.ns_views.specs.Examples.{Fields, Faults, Parts};

/// The definitions read the examples so.
pub fn examples()
    ensures fields { Fields }
    ensures faults { Faults }
    ensures parts { Parts }
{}

/// Bytes have at most one reading as a data frame: the fields that are read off them.
pub fn one_reading()
    ensures { (bytes : List ℕ) (d : DataFields) → IsDataFrame bytes d → data_fields bytes ≡ d }
{}

/// Bytes have at most one reading as a Join-Request: the fields that are read off them.
pub fn one_join_reading()
    ensures { JoinsHaveOneReading }
{}

/// No bytes are both a data frame and a Join-Request.
pub fn one_kind()
    ensures { KindsAreApart }
{}

/// Bytes have no fault exactly where the grammar has a reading of them.
pub fn fault_law()
    ensures view { FaultsAreExact }
    ensures parts { PartsFaultsAreExact }
{}

/// A data uplink whose payload is replaced by as many bytes is one with that payload, and else the
/// same fields.
pub fn payload_law()
    ensures { PayloadsAreReplaced }
{}
