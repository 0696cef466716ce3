//! Laws of kept histories, as contracts of functions that do nothing.

ghost use Rattle.std.specs.Prelude.{◌≡◌, ◌==◌, ℕ, suc, ◌+◌, ◌*◌, ◌^◌, ◌<◌, ◌≤◌, false, true, List, [], ◌++◌, Some, length, map, take, slice_get, count_by};
ghost use Rattle.ns_types.specs.declared.heard.Heard.{Heard};
ghost use Rattle.ns_types.specs.declared.identity.DevEui.{DevEui};
ghost use Rattle.ns_types.specs.declared.identity.WindowName.{WindowName};
ghost use Rattle.ns_types.specs.Identity.{shard_of};
ghost use Rattle.ns_roster.specs.Network.{Network};
ghost use Rattle.ns_roster.specs.Valid.{IsRoster};
ghost use Rattle.ns_calls.specs.declared.call.Call.{Call};
ghost use Rattle.ns_calls.specs.declared.call.Call.TheVariants.{Uplink};
ghost use Rattle.ns_calls.specs.declared.call.Reply.TheVariants.{Again};
ghost use Rattle.ns_calls.specs.declared.call.Entry.{Entry};
ghost use Rattle.ns_calls.specs.Entries.{open_windows};
ghost use Rattle.ns_calls.specs.History.{greatest_nonce, is_live, is_uplink_open, next_ack};
ghost use Rattle.ns_calls.specs.Reply.{reply_to};
ghost use Rattle.ns_calls.specs.Out.{answer};
ghost use Rattle.ns_calls.specs.Runs.{answers_after};
ghost use Rattle.ns_calls.specs.Legal as calls;
ghost use Rattle.ns_calls.specs.Laws.{Rises, opening_count, closing_count};
ghost use Rattle.ns_calls.specs.Merges.{MergesAreLegal, out};
ghost use Rattle.ns_kept.specs.Kept.{Remains, whole, reading, counted_windows, keep};
ghost use Rattle.ns_kept.specs.Bound.{is_of};
ghost use Rattle.ns_kept.specs.Rounds.{rounds_later, one_round, many_rounds, kept_in, kept_before};
ghost use Rattle.ns_kept.specs.Left.{Leaves, Act, AreLeft, with_call, first_entries, answers_over, calls_in};

/// A history that was never trimmed reads as it is.
pub fn untrimmed_histories_read_as_they_are()
    ensures { (h : List Entry) → reading (whole h) ≡ h }
{}

/// In a kept history whose numbers rise, the windows that are open in what is read are the openings that count and that no entry
/// after them closes.
pub fn only_named_windows_stay_open()
    ensures { (k : Remains) → Rises (map (λ e. e.number) k.entries) → open_windows (reading k) ≡ counted_windows k }
{}

/// After a trim of a legal history that is numbered from 0, each answer is what it was: the reply, and what goes out.
pub fn trims_leave_the_answers()
    ensures { (net : Network) (h : List Entry) → calls.IsLegal net h → calls.IsNumbered h → (call : Call)
        → answer net (reading (keep (length h) (whole h))) call ≡ answer net h call }
{}

/// A legal history leaves itself. What it leaves gives its answers, is left by the longer history after a call, and its trim is
/// left by it; its numbers rise; and the greatest nonce of each device over it is that of the whole history.
pub fn what_histories_leave()
    ensures whole { (net : Network) (h : List Entry) → calls.IsLegal net h → calls.IsNumbered h
        → Leaves net h (whole h) }
    ensures answers { (net : Network) (h : List Entry) (k : Remains) → Leaves net h k → (call : Call)
        → answer net (reading k) call ≡ answer net h call }
    ensures call { (net : Network) (h : List Entry) (k : Remains) → Leaves net h k → (call : Call)
        → Leaves net (calls.with_call net h (length h) call) (with_call net (length h) k call) }
    ensures trim { (net : Network) (h : List Entry) (k : Remains) → Leaves net h k → Leaves net h (keep (length h) k) }
    ensures numbers { (net : Network) (h : List Entry) (k : Remains) → Leaves net h k
        → Rises (map (λ e. e.number) k.entries) }
    ensures nonces { (net : Network) (h : List Entry) (k : Remains) → Leaves net h k → (eui : DevEui)
        → greatest_nonce net (reading k) eui ≡ greatest_nonce net h eui }
{}

/// Over every list of calls and trims the answers are those of the calls alone.
pub fn runs_with_trims_answer_alike()
    ensures { (net : Network) (h : List Entry) (k : Remains) → Leaves net h k → (acts : List Act)
        → answers_over net (length h) k acts ≡ answers_after net h (calls_in acts) }
{}

/// An entry that is numbered at or above the mark has the plain server's reply over what is kept and the entries made since. It
/// stands at its number in each history that leaves these, and the same goes out there.
pub fn entries_from_the_mark_are_legal()
    ensures reply { (net : Network) (h : List Entry) (k : Remains) → Leaves net h k
        → (n : ℕ) (e : Entry) → slice_get k.entries n ≡ Some e → k.mark ≤ e.number
        → e.reply ≡ reply_to net (reading (first_entries n k)) e.call }
    ensures sent { (net : Network) (h : List Entry) (k : Remains) → Leaves net h k
        → (n : ℕ) (e : Entry) → slice_get k.entries n ≡ Some e → k.mark ≤ e.number
        → (slice_get h e.number ≡ Some e) × (out net (reading (first_entries n k)) e ≡ out net (take e.number h) e) }
{}

/// Every merge of histories that leave these, each of its own shard, is a legal history of the one plain server, and what goes out
/// is the same at each entry.
pub fn merges_of_what_leaves_are_legal()
    ensures { (net : Network) → IsRoster net → (lists : List (List Entry)) (kept : List Remains)
        → AreLeft net lists kept
        → MergesAreLegal net lists }
{}

/// A trim of a legal history keeps 208 entries of a device at most, and a shard's trim 208 for each device of the shard.
pub fn few_entries_are_kept()
    ensures device { (net : Network) (h : List Entry) → calls.IsLegal net h → (made : ℕ) (eui : DevEui)
        → count_by (is_of eui) (keep made (whole h)).entries ≤ 208 }
    ensures shard { (net : Network) → IsRoster net → (shard : ℕ) (h : List Entry) → calls.IsHistory net shard h
        → (made : ℕ)
        → length (keep made (whole h)).entries ≤ 208 * count_by (λ d. shard_of d.eui == shard) net.devices }
{}

/// Where no window is open in what is left, each opening in a history that leaves it has exactly one closing.
pub fn drained_histories_closed_all()
    ensures { (net : Network) (h : List Entry) (k : Remains) → Leaves net h k → open_windows (reading k) ≡ []
        → (w : WindowName) → closing_count h w ≡ opening_count h w }
{}

/// Of many rounds of one uplink, each closed before the next, a trim keeps the last alone, and of what was before them what it keeps
/// before one round. Behind a trim that ends with a round, one round more takes its place, and all before it stays.
pub fn the_last_of_many_rounds_is_kept()
    ensures trimmed { (h entries : List Entry) (number next : ℕ) (frame : List ℕ) (heard : Heard) (w : WindowName) (ack : ℕ)
        → is_uplink_open h w ≡ false
        → kept_in h (entries ++ one_round number frame heard w ack) ≡ entries ++ one_round number frame heard w ack
        → kept_before h (entries ++ one_round number frame heard w ack) (one_round next frame heard (rounds_later 1 w) (ack + 1)) ≡ entries }
    ensures many { (h entries : List Entry) (n number : ℕ) (frame : List ℕ) (heard : Heard) (w : WindowName) (ack : ℕ)
        → is_uplink_open h w ≡ false → is_live h w.eui w.session ≡ true
        → kept_in (h ++ many_rounds (suc n) number frame heard w ack) (entries ++ many_rounds (suc n) number frame heard w ack)
        ≡ kept_before h entries (one_round number frame heard w ack) ++ one_round (number + n * 2) frame heard (rounds_later n w) (ack + n) }
{}

/// Rounds of one uplink, each closed before the next, are what the plain server replies to its frame heard again and again, as long as
/// there are numbers of 32 bits for them.
pub fn many_rounds_are_legal()
    ensures { (net : Network) (h : List Entry) (n number : ℕ) (frame : List ℕ) (heard : Heard) (w : WindowName)
        → calls.IsLegal net h → reply_to net h (Uplink frame heard) ≡ Again w
        → w.round + n < 2 ^ 32 → next_ack h w.eui w.session + n < 2 ^ 32
        → calls.IsLegal net (h ++ many_rounds (suc n) number frame heard w (next_ack h w.eui w.session)) }
{}
