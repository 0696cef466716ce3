//! Laws of step lines, as contracts of functions that do nothing.

ghost use Rattle.std.specs.Prelude.{◌≡◌, ◌↔◌, ℕ, List, Some};
ghost use Rattle.ns_acts.specs.declared.step.Act.{Act};
ghost use Rattle.ns_steps.specs.Spelled.{AreLines, Spells};
ghost use Rattle.ns_steps.specs.StepLines.{raw_lines, step};

/// The lines of a text are those that it spells: each but perhaps the last has a line feed behind it, and none has one in it.
pub fn lines_are_spelled()
    ensures { (text : List ℕ) (lines : List (List ℕ)) → (raw_lines text ≡ lines) ↔ AreLines text lines }
{}

/// A line asks for a step exactly where it spells that step.
pub fn steps_are_spelled()
    ensures { (line : List ℕ) (act : Act) → (step line ≡ Some act) ↔ Spells line act }
{}
