//! Laws of a device's state and the history of its shard, as contracts of functions that do nothing.

ghost use Rattle.std.specs.Prelude.{ℕ, List, Option};
ghost use Rattle.ns_roster.specs.Network.{Network};
ghost use Rattle.ns_calls.specs.declared.call.Entry.{Entry};
ghost use Rattle.ns_sessions.specs.Laws.{OthersStay, UplinksAgree, ClosingsAgree, JoinsAgree, AnswersAgree};
ghost use Rattle.ns_sessions.specs.Runs.{StateCall, JoinsInTurn};

/// A history of no entries says that a device has not joined, and an entry that does not concern a device leaves what is said of it.
pub fn others_stay()
    ensures { OthersStay }
{}

/// `fresh` and `stale` say where the plain server finds that a frame fits the device, and `take` leaves what the history with the opening says.
pub fn uplinks_agree()
    ensures { (net : Network) (h : List Entry) → UplinksAgree net h }
{}

/// A closing bears the number that `next_ack` gives, and `next_ack` leaves what the history with that closing says.
pub fn closings_agree()
    ensures { (net : Network) (h : List Entry) → ClosingsAgree net h }
{}

/// `ask` gives the plain server's reply, and leaves what the history with the Join-Request says.
pub fn joins_agree()
    ensures { (net : Network) (h : List Entry) → JoinsAgree net h }
{}

/// `answer` gives the plain server's reply, and leaves what the history with the answer says.
pub fn answers_agree()
    ensures { (net : Network) (h : List Entry) → AnswersAgree net h }
{}

/// In every run of calls on one state the accepted nonces are above its last nonce and strictly rise, and a ticket is answered at most once for each time that it
/// was asked for.
pub fn joins_in_turn()
    ensures { (last : Option ℕ) (calls : List StateCall) → JoinsInTurn last calls }
{}
