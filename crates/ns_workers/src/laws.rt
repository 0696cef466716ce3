//! Laws of what goes out, as contracts of functions that do nothing.
ghost use Rattle.std.specs.Prelude.{◌≡◌, ℕ, List};
ghost use Rattle.ns_output.specs.declared.output.Output.TheVariants.{Lines};
ghost use Rattle.ns_outside.specs.declared.receipt.Receipt.{Receipt};
ghost use Rattle.ns_workers.specs.Lines.{AreLines, up_lines};

/// As lines, the lines of receipts are their `up` lines, and no other text.
pub fn lines_are_up_lines()
    ensures { (receipts : List Receipt) (text : List ℕ) → AreLines Lines receipts text → text ≡ up_lines receipts }
{}
