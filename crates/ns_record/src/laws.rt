//! Laws of step lines of calls, as contracts of functions that do nothing.

ghost use Rattle.std.specs.Prelude.{◌≡◌, false, List};
ghost use Rattle.std.specs.List.{AllByRecursion};
ghost use Rattle.ns_calls.specs.declared.call.Call.{Call};
ghost use Rattle.ns_lines.specs.Text.{has_line_feed};
ghost use Rattle.ns_record.specs.StepText.{step_text, record_text, IsOfAStep, ReadsBack, AreReadBack};

/// The step line of a call that came by a step is read back to a step that makes just this call, and has no line feed.
pub fn step_lines_are_read_back()
    ensures back { (c : Call) → IsOfAStep c → ReadsBack (step_text c) c }
    ensures line { (c : Call) → IsOfAStep c → has_line_feed (step_text c) ≡ false }
{}

/// The steps of a record's text make just the calls that were recorded, in order: each line is a step line.
pub fn records_are_read_back()
    ensures { (calls : List Call) → AllByRecursion IsOfAStep calls → AreReadBack (record_text calls) calls }
{}
