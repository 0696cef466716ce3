//! Laws of a shard's tables, as contracts of functions that do nothing.

ghost use Rattle.std.specs.Prelude.{◌≡◌, ℕ, suc, ◌+◌, ◌^◌, ◌<◌, List, [], ◌++◌, length};
ghost use Rattle.ns_types.specs.declared.identity.WindowName.{WindowName};
ghost use Rattle.ns_types.specs.declared.heard.Heard.{Heard};
ghost use Rattle.ns_calls.specs.declared.call.Call.TheVariants.{Uplink};
ghost use Rattle.ns_calls.specs.declared.call.Reply.TheVariants.{Again};
ghost use Rattle.ns_calls.specs.History.{next_ack};
ghost use Rattle.ns_calls.specs.Reply.{reply_to};
ghost use Rattle.ns_kept.specs.Rounds.{many_rounds};
ghost use Rattle.ns_devices.specs.Devices.{with_change_of};
ghost use Rattle.ns_shard.specs.Tables.{devices_in, windows_in, TellTheSame, Life, AreLives, calls_of, answers_of_lives};
ghost use Rattle.ns_shard.specs.State.{State, Keeps, answer_in, after_trim};
ghost use Rattle.ns_sessions.specs.Record.{with_rounds};
ghost use Rattle.ns_shard.specs.Rounds.{round_calls, after_calls, after_jump};
ghost use Rattle.std.specs.List.{AllByRecursion};
ghost use Rattle.ns_roster.specs.Network.{Network};
ghost use Rattle.ns_roster.specs.Valid.{IsRoster};
ghost use Rattle.ns_calls.specs.declared.call.Call.{Call};
ghost use Rattle.ns_calls.specs.declared.call.Entry.{Entry};
ghost use Rattle.ns_calls.specs.Shards.{shard_of_call};
ghost use Rattle.ns_calls.specs.Out.{answer};
ghost use Rattle.ns_calls.specs.Runs.{answers_after};
ghost use Rattle.ns_calls.specs.Legal as calls;

/// Histories of a shard that tell the same of its devices and open windows have the same answers to each call of the shard, tell the same
/// after it, and so have the same answers to all later calls.
pub fn answers_rest_on_tables()
    ensures now { (net : Network) → IsRoster net → (index : ℕ) (g h : List Entry) → calls.IsHistory net index g → calls.IsHistory net index h
        → TellTheSame net index g h → (call : Call) → shard_of_call call ≡ index → answer net g call ≡ answer net h call }
    ensures after { (net : Network) → IsRoster net → (index : ℕ) (g h : List Entry) → calls.IsHistory net index g → calls.IsHistory net index h
        → TellTheSame net index g h → (call : Call) → shard_of_call call ≡ index
        → TellTheSame net index (calls.with_call net g (length g) call) (calls.with_call net h (length h) call) }
    ensures later { (net : Network) → IsRoster net → (index : ℕ) (g h : List Entry) → calls.IsHistory net index g → calls.IsHistory net index h
        → TellTheSame net index g h → (calls_after : List Call) → AllByRecursion (λ c. shard_of_call c ≡ index) calls_after
        → answers_after net g calls_after ≡ answers_after net h calls_after }
{}

/// All lives of the program are one run, whatever was made of the record between them, where each begins with a history that tells the same
/// as the one at the end of the life before it: the answers of all lives are those to all their calls after no entries.
pub fn lives_are_one_run()
    ensures { (net : Network) → IsRoster net → (index : ℕ) (lives : List Life) → AreLives net index [] lives
        → answers_after net [] (calls_of lives) ≡ answers_of_lives net lives }
{}

/// Many rounds of one uplink, each closed before the next, change of a shard's devices the last round and the next acknowledgement number
/// of one session, and nothing of its open windows.
pub fn many_rounds_change_one_session()
    ensures devices { (net : Network) → IsRoster net → (index : ℕ) (h : List Entry) (n number : ℕ) (frame : List ℕ) (heard : Heard) (w : WindowName)
        → calls.IsLegal net h → reply_to net h (Uplink frame heard) ≡ Again w
        → w.round + n < 2 ^ 32 → next_ack h w.eui w.session + n < 2 ^ 32
        → devices_in net index (h ++ many_rounds (suc n) number frame heard w (next_ack h w.eui w.session))
        ≡ with_change_of w.eui (with_rounds w.session (w.round + n) (next_ack h w.eui w.session + n + 1)) (devices_in net index h) }
    ensures windows { (net : Network) (h : List Entry) (n number : ℕ) (frame : List ℕ) (heard : Heard) (w : WindowName)
        → calls.IsLegal net h → reply_to net h (Uplink frame heard) ≡ Again w
        → windows_in (h ++ many_rounds n number frame heard w (next_ack h w.eui w.session)) ≡ windows_in h }
{}

/// What many rounds of one uplink and a trim leave of a shard, told without them.
pub fn many_rounds_are_a_jump()
    ensures { (s : State) (h : List Entry) (n : ℕ) (frame : List ℕ) (heard : Heard) (w : WindowName)
        → Keeps h s → (answer_in s (Uplink frame heard)).reply ≡ Again w
        → w.round + n < 2 ^ 32 → next_ack h w.eui w.session + n < 2 ^ 32
        → after_trim (after_calls s (round_calls (suc n) frame heard w)) ≡ after_jump n frame heard w (next_ack h w.eui w.session) s }
{}
