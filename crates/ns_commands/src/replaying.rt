//! The command `replay`.

ghost use Rattle.std.specs.Prelude.{◌≡◌, ◌↔◌, ◌⊎◌, true, false, Err, IfSome, OnOk};
ghost use Rattle.std.specs.Arc.{arc_value};
ghost use Rattle.std.specs.Io.KnownBytes.{Appends};
ghost use Rattle.ns_replay.specs.Output.{output};

use crate::fault::{Fault, of_replay};
use crate::roster::read_roster;
use crate::streams::Told;
use ns_log::{Log, error};
use ns_output::Output;
use ns_replay::{ReplayFault, replay};
use ns_roster::Roster;
use ns_types::{OverStd, Sink, Source};
use std::alloc::Global;
use std::io;
use std::rt::Files;
use std::sync::Arc;

/// Answers the steps of a reader, and writes the closing roster where it is asked for. That memory ran out is logged.
pub fn answer<L: Log, S: Source, K: Sink>(
    log: &L,
    alloc: Global,
    roster: Arc<Roster>,
    uplinks: Output,
    closing: bool,
    reader: &mut S,
    writer: &mut K,
) -> Result<(), ReplayFault>
    requires reader_sound { S.Stream.has_failed reader.old ≡ false }
    requires writer_sound { K.Stream.has_failed writer.old ≡ false }
    ensures ok { OnOk result (IfSome (S.left reader.old)
        (λ input. Appends (K.taken writer.old) (K.taken writer.new) (output uplinks closing (arc_value roster) input))) }
    ensures sound { OnOk result ((S.Stream.has_failed reader.new ≡ false) × (K.Stream.has_failed writer.new ≡ false)) }
    ensures io { (result ≡ Err ReplayFault.Io)
        ↔ ((S.Stream.has_failed reader.new ≡ true) ⊎ (K.Stream.has_failed writer.new ≡ true)) }
{
    let outcome = replay(alloc, roster, uplinks, closing, reader, writer);
    if outcome == Err(ReplayFault::NoMemory) {
        error!(log; "no memory for the steps and their answers");
    }
    outcome
}

/// Reads the roster and then answers the steps of standard input.
pub fn run_replay<'a, R: Files + AllocGlobal + Input + Print, L: Log>(
    rt: &R,
    log: &L,
    path: &'a str,
    uplinks: Output,
    closing: bool,
) -> Result<(), Fault<'a>> {
    let roster = read_roster(rt, log, path)?;
    let mut reader = OverStd::new(Told::new(log, "standard input", rt.reader()));
    let mut writer = OverStd::new(Told::new(log, "standard output", io::writer(rt)));
    of_replay(answer(
        log,
        rt.alloc(),
        roster,
        uplinks,
        closing,
        &mut reader,
        &mut writer,
    ))
}
