//! A law of the lines, as the contract of a function that does nothing.

ghost use Rattle.std.specs.Prelude.{◌≡◌, false};
ghost use Rattle.std.specs.List.{AllByRecursion};
ghost use Rattle.ns_calls.specs.declared.answer.Answer.{Answer};
ghost use Rattle.ns_lines.specs.Text.{has_line_feed, text};

/// No line of an answer has a line feed.
pub fn lines_have_no_line_feed()
    ensures { (a : Answer) → AllByRecursion (λ line. has_line_feed line ≡ false) (text a) }
{}
