//! The runs with a trim, each as the contract of a function that does nothing.

ghost use Rattle.example_runs.specs.TrimmedRuns.{LongRun, OpenRun, AcknowledgedRun, RunSentAgain};

/// A run with two joins, trimmed when no window is open.
pub fn long_run()
    ensures { LongRun }
{}

/// A trim while a window is open.
pub fn open_run()
    ensures { OpenRun }
{}

/// A trim after acknowledgements.
pub fn acknowledged_run()
    ensures { AcknowledgedRun }
{}

/// A trim after an uplink was acknowledged again.
pub fn run_sent_again()
    ensures { RunSentAgain }
{}
