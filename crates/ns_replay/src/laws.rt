//! A law of what is written, as the contract of a function that does nothing.

ghost use Rattle.std.specs.Prelude.{◌≡◌};
ghost use Rattle.ns_calls.specs.declared.answer.Answer.{Answer};
ghost use Rattle.ns_lines.specs.Text.{text};
ghost use Rattle.ns_output.specs.declared.output.Output.TheVariants.{Lines};
ghost use Rattle.ns_replay.specs.Output.{answer_lines};

/// As lines, what is written of an answer is its text, as `lines` of `ns_lines` gives it.
pub fn lines_are_the_text()
    ensures { (a : Answer) → answer_lines Lines a ≡ text a }
{}
