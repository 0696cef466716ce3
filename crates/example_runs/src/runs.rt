//! The runs without a trim, each as the contract of a function that does nothing.

ghost use Rattle.std.specs.Prelude.{List};
ghost use Rattle.ns_roster.specs.Network.{Network};
ghost use Rattle.ns_calls.specs.declared.call.Call.{Call};
ghost use Rattle.example_runs.specs.Legal.{IsRunOf};
ghost use Rattle.example_runs.specs.JsonTexts.{Rosters, RosterFaults, Request, Answers, AnswerFaults};
ghost use Rattle.example_runs.specs.Frames.{DataFrames, Acknowledgements, JoinRequests, JoinAccepts};
ghost use Rattle.example_runs.specs.FirstJoin.{FirstJoin, FirstJoinLines, FirstJoinDatagrams};
ghost use Rattle.example_runs.specs.SecondJoin.{SecondJoin};
ghost use Rattle.example_runs.specs.SentAgain.{SentAgain, SentAgainLines, LastRound};
ghost use Rattle.example_runs.specs.LastCounter.{LastCounter};
ghost use Rattle.example_runs.specs.SharedAddress.{SharedAddress};
ghost use Rattle.example_runs.specs.FirstWindow.{FirstWindow};

/// A device joins, sends a frame that two gateways hear, and joins again: the answers, their lines, and the calls that
/// datagrams make.
pub fn first_join()
    ensures answers { FirstJoin }
    ensures lines { FirstJoinLines }
    ensures datagrams { FirstJoinDatagrams }
{}

/// Acknowledgements, a join beside a session that lives, a payload that stays sealed, a counter beyond 65535.
pub fn second_join()
    ensures { SecondJoin }
{}

/// A confirmed uplink that is sent again, in rounds: the answers, their lines, and the last round that there is.
pub fn sent_again()
    ensures answers { SentAgain }
    ensures lines { SentAgainLines }
    ensures last { LastRound }
{}

/// The last counter of a session.
pub fn last_counter()
    ensures { LastCounter }
{}

/// Two devices at one address, and an acknowledgement whose moment passes 2^64 microseconds.
pub fn shared_address()
    ensures { SharedAddress }
{}

/// The first receive window of an acknowledgement: RxDelay 0 and 1 both mean a second, the moment wraps, and the data rate
/// stops at DR0. Of equal copies the first is the best.
pub fn first_window()
    ensures { FirstWindow }
{}

/// Each run from the roster on is a legal history with the run's calls, so all that is promised of legal histories holds of it.
pub fn runs_are_legal()
    ensures { (net : Network) (calls : List Call) → IsRunOf net calls }
{}

/// A roster's text and its faults, the text that asks a join server, and the text that it answers, with its faults.
pub fn json_texts()
    ensures rosters { Rosters }
    ensures roster_faults { RosterFaults }
    ensures request { Request }
    ensures answers { Answers }
    ensures answer_faults { AnswerFaults }
{}

/// Frames as they are written.
pub fn written_frames()
    ensures data { DataFrames }
    ensures acknowledgements { Acknowledgements }
    ensures join_requests { JoinRequests }
    ensures join_accepts { JoinAccepts }
{}
