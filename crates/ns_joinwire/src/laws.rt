//! A law of the answers of a join server, as the contract of a function that does nothing.

ghost use Rattle.std.specs.Prelude.{◌≡◌, ◌↔◌, ℕ, List, Ok};
ghost use Rattle.ns_calls.specs.declared.call.JoinAns.{JoinAns};
ghost use Rattle.ns_joinwire.specs.JoinAns.{joinans};
ghost use Rattle.ns_joinwire.specs.Spelled.{Spells};

/// A text is an answer to a transaction exactly where it spells that answer, and as the answer that it spells.
pub fn answered_exactly()
    ensures { (bytes : List ℕ) (transaction : ℕ) (answer : JoinAns)
        → (joinans bytes transaction ≡ Ok answer) ↔ Spells bytes transaction answer }
{}
