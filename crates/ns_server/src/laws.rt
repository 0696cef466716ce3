//! Laws of receipts, as contracts of functions that do nothing.

ghost use Rattle.std.specs.Prelude.{◌≡◌, ◌+◌, ◌≤◌, ℕ, List, Some, length, slice_get};
ghost use Rattle.ns_calls.specs.declared.call.Entry.{Entry};
ghost use Rattle.ns_shard.specs.State.{State, IsState, Keeps};
ghost use Rattle.ns_outside.specs.declared.receipt.Receipt.{Receipt};
ghost use Rattle.ns_server.specs.Check.{AreRight, receipts_of, receipts_since, entries_since, HasReceipt};

/// Where as many receipts of a shard that was never trimmed are right as its history has entries, each entry of the history has its receipt among them.
pub fn receipts_are_all()
    ensures { (states : List State) (receipts : List Receipt) → AreRight states receipts
        → (k : ℕ) (s : State) → slice_get states k ≡ Some s → IsState s → s.mark ≡ 0 → receipts_of k receipts ≡ length s.entries
        → (n : ℕ) (e : Entry) → slice_get s.entries n ≡ Some e → HasReceipt k e receipts }
{}

/// Where as many receipts of a shard, numbered from its mark on, are right as its history has entries from the mark on, each of these
/// entries has its receipt among them; and so has each entry from the mark on of every history that leaves what the shard has. These
/// entries are all that were made since the last trim.
pub fn receipts_since_the_mark_are_all()
    ensures left { (states : List State) (receipts : List Receipt) → AreRight states receipts
        → (k : ℕ) (s : State) → slice_get states k ≡ Some s → IsState s → receipts_since k s.mark receipts ≡ entries_since s.mark s.entries
        → (n : ℕ) (e : Entry) → slice_get s.entries n ≡ Some e → s.mark ≤ e.number → HasReceipt k e receipts }
    ensures whole { (states : List State) (receipts : List Receipt) → AreRight states receipts
        → (k : ℕ) (s : State) → slice_get states k ≡ Some s → receipts_since k s.mark receipts ≡ entries_since s.mark s.entries
        → (h : List Entry) → Keeps h s → (n : ℕ) (e : Entry) → slice_get h n ≡ Some e → s.mark ≤ n → HasReceipt k e receipts }
    ensures count { (s : State) → IsState s → entries_since s.mark s.entries + s.mark ≡ s.made }
{}
