//! Laws of a record, as contracts of functions that do nothing.

ghost use Rattle.std.specs.Prelude.{◌≡◌, false, List, [], ◌++◌};
ghost use Rattle.ns_roster.specs.Network.{Network};
ghost use Rattle.ns_calls.specs.declared.call.Call.{Call};
ghost use Rattle.ns_calls.specs.declared.call.Entry.{Entry};
ghost use Rattle.ns_calls.specs.declared.call.Reply.{Reply};
ghost use Rattle.ns_calls.specs.Out.{answer};
ghost use Rattle.ns_calls.specs.Runs.{answers_after, answers_of, history_of};
ghost use Rattle.ns_calls.specs.Legal.{IsLegal};
ghost use Rattle.ns_calls.specs.Laws.{hands_out_uplink, NoncesRise, CountersRise};
ghost use Rattle.ns_calls.specs.Headline.{hands_out_downlink, UplinksGoOutOnce, AcksRise, IsLegalAfter};
ghost use Rattle.ns_recorded.specs.Recorded.{matters, said, recorded, answers_told, AreLives, all_of};

/// Histories that say the same have the same answers, now and after the same calls: what is left out of a record changes none.
pub fn answers_rest_on_the_record()
    ensures now { (net : Network) (g h : List Entry) → said g ≡ said h → (call : Call) → answer net g call ≡ answer net h call }
    ensures later { (net : Network) (g h : List Entry) → said g ≡ said h → (calls : List Call) → answers_after net g calls ≡ answers_after net h calls }
{}

/// The recorded calls of a legal history, run again alone, are answered as they were, each with what went out with it, and leave a
/// history that says the same.
pub fn records_are_run_again()
    ensures said { (net : Network) (h : List Entry) → IsLegal net h → said (history_of net (recorded h)) ≡ said h }
    ensures answers { (net : Network) (h : List Entry) → IsLegal net h → answers_of net (recorded h) ≡ answers_told net [] h }
{}

/// Nothing goes out with a call that is left out of a record.
pub fn what_is_left_out_is_silent()
    ensures uplink { (reply : Reply) → matters reply ≡ false → hands_out_uplink reply ≡ false }
    ensures downlink { (reply : Reply) → matters reply ≡ false → hands_out_downlink reply ≡ false }
{}

/// What is legal after a history that says the same as h is legal after h: entries of a later life stand in one legal history with those
/// of the lives before it.
pub fn lives_are_one_run()
    ensures { (net : Network) (g h more : List Entry) → said g ≡ said h → IsLegal net h → IsLegalAfter net g more → IsLegal net (h ++ more) }
{}

/// The entries of all lives of the program are one legal history: no uplink goes out twice over all lives, no DevNonce is accepted twice,
/// and counters and acknowledgement numbers of a session rise.
pub fn all_lives_are_one_run()
    ensures legal { (net : Network) (lives : List (List Entry)) → AreLives net [] lives → IsLegal net (all_of lives) }
    ensures uplinks { (net : Network) (lives : List (List Entry)) → AreLives net [] lives → UplinksGoOutOnce (all_of lives) }
    ensures nonces { (net : Network) (lives : List (List Entry)) → AreLives net [] lives → NoncesRise (all_of lives) }
    ensures counters { (net : Network) (lives : List (List Entry)) → AreLives net [] lives → CountersRise (all_of lives) }
    ensures acks { (net : Network) (lives : List (List Entry)) → AreLives net [] lives → AcksRise (all_of lives) }
{}
