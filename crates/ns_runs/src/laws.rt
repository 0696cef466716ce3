//! Laws of runs, as contracts of functions that do nothing.

ghost use Rattle.std.specs.Prelude.{List, Contains};
ghost use Rattle.ns_roster.specs.declared.Device.{Device};
ghost use Rattle.ns_roster.specs.Network.{Network};
ghost use Rattle.ns_roster.specs.Valid.{IsRoster};
ghost use Rattle.ns_calls.specs.Headline.{AreBelow};
ghost use Rattle.ns_acts.specs.declared.step.Step.{Step};
ghost use Rattle.ns_runs.specs.NextRun.{accepted_by, closing_roster};

/// A run that begins from the closing roster of a run before it accepts of each device only nonces above all that the run before
/// accepted.
pub fn next_run_accepts_above()
    ensures { (net : Network) → IsRoster net → (first second : List Step) (d : Device) → Contains net.devices d
        → AreBelow (accepted_by net first d.eui) (accepted_by (closing_roster net first) second d.eui) }
{}
