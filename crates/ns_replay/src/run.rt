//! A run of recorded steps, from a source of step lines to a sink of answer lines.

ghost use Rattle.std.specs.Prelude.{◌≡◌, ◌⊎◌, ℕ, List, false, true, OnOk, OnErr, IfErr, IfOk, IfSome, ◌↔◌};
ghost use Rattle.ns_types.specs.declared.transfer.ReadFault.TheVariants.{Io};
ghost use Rattle.std.specs.Arc.{arc_value};
ghost use Rattle.std.specs.Io.KnownBytes.{Appends};
ghost use Rattle.ns_types.specs.Streams.{AppendsFront};
ghost use Rattle.ns_replay.specs.Output.{output, IsReplay};

use crate::closing::put_closing;
use crate::reading::LineReader;
use crate::taken::AnswerText;
use ns_output::Output;
use ns_roster::Roster;
use ns_runs::Shards;
use ns_types::{Failed, ReadFault, Sink, Source, write_all};
use std::alloc::Global;
use std::sync::Arc;

// How many bytes are written at once.
const WRITE_ROOM: usize = 65_536;

/// Why a run ended early.
#[derive(Clone, Copy, Debug, PartialEq, Eq)]
pub enum ReplayFault {
    /// A growth was refused. Nothing was written.
    NoMemory,
    /// The reader failed, and nothing was written; or the writer failed, and has a beginning of the text.
    Io,
}

// What is written of the lines of a source. The shards are not needed any more when it is made.
fn answers_of<R: Source>(
    alloc: Global,
    roster: Arc<Roster>,
    uplinks: Output,
    closing: bool,
    reader: &mut R,
) -> Result<Vec<u8>, ReadFault>
    requires { R.Stream.has_failed reader.old ≡ false }
    ensures lines { IfOk result (λ text. IfSome (R.left reader.old)
        (λ input. IsReplay uplinks closing (arc_value roster) input text.items)) }
    ensures sound { OnOk result (R.Stream.has_failed reader.new ≡ false) }
    ensures io { IfErr result (λ e. (e ≡ Io) ↔ (R.Stream.has_failed reader.new ≡ true)) }
{
    let mut lines = LineReader::new(alloc)?;
    let mut answers = AnswerText::new(alloc, uplinks);
    let shards = Shards::run_over(
        alloc,
        roster.clone()?,
        true,
        &mut lines,
        reader,
        &mut answers,
    )?;
    let mut text = answers.text;
    put_closing(alloc, &mut text, closing, &roster, &shards)?;
    Ok(text)
}

// Writes a text piece by piece.
fn write_text<W: Sink>(writer: &mut W, text: &[u8]) -> Result<(), Failed>
    requires { W.Stream.has_failed writer.old ≡ false }
    ensures ok { OnOk result (Appends (W.taken writer.old) (W.taken writer.new) text.now) }
    ensures sound { OnOk result (W.Stream.has_failed writer.new ≡ false) }
    ensures front { AppendsFront (W.taken writer.old) (W.taken writer.new) text.now }
    ensures failed { OnErr result (W.Stream.has_failed writer.new ≡ true) }
{
    let mut rest = text;
    'pieces: while !rest.is_empty() {
        let (piece, others) = rest.split_at(rest.len().min(WRITE_ROOM));
        write_all(writer, piece)?;
        rest = others;
    }
    Ok(())
}

/// Reads step lines to the end, and then writes the lines of their answers.
///
/// What is written is the refusal lines and the answers of the run of the steps of the bytes read, in order, each line with a line
/// feed, those of uplinks as `uplinks` says, and then where `closing` asks for it the roster with the devices' greatest nonces, from which the next run begins: each answer is the plain server's, after the entries of its shard that the steps before it made. `Io` comes exactly where the reader or the writer failed.
pub fn replay<R: Source, W: Sink>(
    alloc: Global,
    roster: Arc<Roster>,
    uplinks: Output,
    closing: bool,
    reader: &mut R,
    writer: &mut W,
) -> Result<(), ReplayFault>
    requires reader_sound { R.Stream.has_failed reader.old ≡ false }
    requires writer_sound { W.Stream.has_failed writer.old ≡ false }

    // What is written is the lines of a run of the steps that were read. There are sixteen shards with their whole histories, each legal, with
    // one entry for each call that reached its shard, in order, and each answer is that of its entry. Each uplink goes out at most once,
    // with just its copies, and counters, nonces and acknowledgement numbers rise.
    ensures run { OnOk result (IfSome (R.left reader.old)
        (λ input. (written : List ℕ) × IsReplay uplinks closing (arc_value roster) input written × Appends (W.taken writer.old) (W.taken writer.new) written)) }

    // What is written is the answers' lines, or where the writer fails a beginning of them.
    ensures ok { OnOk result (IfSome (R.left reader.old)
        (λ input. Appends (W.taken writer.old) (W.taken writer.new) (output uplinks closing (arc_value roster) input))) }
    ensures front { (writer.new ≡ writer.old) ⊎ IfSome (R.left reader.old)
        (λ input. AppendsFront (W.taken writer.old) (W.taken writer.new) (output uplinks closing (arc_value roster) input)) }

    // When each fault comes, and that nothing was written before the end was read.
    ensures sound { OnOk result ((R.Stream.has_failed reader.new ≡ false) × (W.Stream.has_failed writer.new ≡ false)) }
    ensures io { (result ≡ Err ReplayFault.Io)
        ↔ ((R.Stream.has_failed reader.new ≡ true) ⊎ (W.Stream.has_failed writer.new ≡ true)) }
    ensures memory { result ≡ Err ReplayFault.NoMemory → writer.new ≡ writer.old }
    ensures unread { R.Stream.has_failed reader.new ≡ true → writer.new ≡ writer.old }
{
    let text = match answers_of(alloc, roster, uplinks, closing, reader) {
        Ok(text) => text,
        Err(ReadFault::NoMemory) => return Err(ReplayFault::NoMemory),
        Err(ReadFault::Io) => return Err(ReplayFault::Io),
    };
    match write_text(writer, text.as_slice()) {
        Ok(()) => Ok(()),
        Err(_) => Err(ReplayFault::Io),
    }
}
