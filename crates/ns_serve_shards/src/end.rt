//! What a server does once its threads have ended: what is still open is closed, and the last lines are written.
ghost use Rattle.std.specs.Prelude.{◌≡◌, ◌⊎◌, [], Some, sum_by, IfOk, IsErr, OnOk, OnErr, true};
ghost use Rattle.std.specs.Io.KnownBytes.{Appends, append_known};
ghost use Rattle.ns_server.specs.Drain.{NoneOpen, EachIsClosed};
ghost use Rattle.ns_workers.specs.Lines.{AppendsLine};
ghost use Rattle.ns_serve_shards.specs.Closing.{last_lines};
ghost use Rattle.ns_serve_streams.specs.Output.{Grows, EndsIn, Sends};

use crate::closing::closing_text;
use ns_calls::Uplink;
use ns_events::uplink_json;
use ns_lines::up_line;
use ns_log::{Log, error};
use ns_output::Output as Written;
use ns_outside::{Downlinks, Receipt};
use ns_roster::Roster;
use ns_serve_events::{note_event, record_call, take_notices, times_of};
use ns_serve_parts::ServeFault;
use ns_serve_sockets::ToSocket;
use ns_serve_state::{State, log_unsent, now_ms};
use ns_serve_streams::Output;
use ns_server::{Naming, Settled};
use ns_types::Sink;
use std::alloc::Global;
use std::sync::Wait;
use std::time::Clock;

// Writes the line of an uplink that was closed at the end. When its first copy came is not known any more.
#[tactic(auto, using(ns_workers::proofs::WrittenLines::line_up, ns_workers::proofs::WrittenLines::line_object))]
fn put_uplink<R: Clock, W: Sink>(
    rt: &R,
    state: &State,
    output: &mut Output<W>,
    uplink: &Uplink,
) -> Result<(), ServeFault>
    ensures ok { OnOk result (AppendsLine state.now.uplinks (append_known (W.taken output.old.writer) output.old.lines.items)
        (append_known (W.taken output.new.writer) output.new.lines.items) (Some uplink.now)) }
    ensures failed { OnErr result (W.has_failed output.new.writer ≡ true) }
{
    match state.uplinks() {
        Written::Lines => output.put_line(up_line(uplink).as_str()),
        Written::Json => {
            let times = times_of(rt, state, now_ms(rt, state));
            output.put_line(uplink_json(&times, uplink).as_str())
        }
    }
}

// Puts the closing of a window down, writes what goes up with it, and sends what goes down.
#[tactic(auto, using(ns_serve_streams::proofs::OutputLemmas::sends_none, ns_workers::proofs::WrittenLines::line_none))]
fn hand_out<R: Wait + Clock + Log, W: Sink, D: Downlinks<R>>(
    rt: &R,
    state: &State,
    output: &mut Output<W>,
    down: &mut D,
    receipt: &Receipt,
) -> Result<(), ServeFault>
    ensures down { Sends (D.taken down.old) (D.taken down.new) receipt.now.downlink }
    ensures ok { OnOk result (AppendsLine state.now.uplinks (append_known (W.taken output.old.writer) output.old.lines.items)
        (append_known (W.taken output.new.writer) output.new.lines.items) receipt.now.uplink) }
    ensures failed { OnErr result (W.has_failed output.new.writer ≡ true) }
{
    state.made.add_one(receipt.shard, &receipt.entry.reply);
    record_call(rt, state, receipt);
    note_event(rt, state, receipt);
    if let Some(downlink) = &receipt.downlink {
        if !down.send(rt, downlink) {
            log_unsent(rt, state, downlink);
        }
    }
    match &receipt.uplink {
        Some(uplink) => put_uplink(rt, state, output, uplink),
        None => Ok(()),
    }
}

// Adds the joins and acknowledgements that were told.
#[tactic(auto, using(ns_serve_streams::proofs::OutputLemmas::grows_none, ns_serve_streams::proofs::OutputLemmas::grows_more,))]
fn put_notices<R: Wait, W: Sink>(
    rt: &R,
    state: &State,
    output: &mut Output<W>,
) -> Result<(), ServeFault>
    ensures { OnOk result (Grows (append_known (W.taken output.old.writer) output.old.lines.items)
        (append_known (W.taken output.new.writer) output.new.lines.items)) }
{
    let lines = take_notices(rt, state);
    match output.put(lines.as_slice()) {
        Ok(()) => Ok(()),
        Err(_) => Err(ServeFault::Io),
    }
}

// Closes all windows that are still open, the oldest of each shard first.
#[tactic(auto, using(ns_serve_streams::proofs::OutputLemmas::grows_none, crate::proofs::DrainLemmas::grows_some,))]
fn drain<B: Naming, R: Wait + Clock + Log, W: Sink>(
    rt: &R,
    state: &State,
    settled: &mut Settled<B>,
    output: &mut Output<W>,
) -> Result<(), ServeFault>
    ensures closed { OnOk result (NoneOpen settled.new × EachIsClosed settled.new) }
    ensures grows { OnOk result (Grows (append_known (W.taken output.old.writer) output.old.lines.items)
        (append_known (W.taken output.new.writer) output.new.lines.items)) }
{
    let mut down = ToSocket { state };
    for _turn in rt.forever() {
        match settled.drain_next() {
            Some(receipt) => hand_out(rt, state, output, &mut down, &receipt)?,
            None => return put_notices(rt, state, output),
        }
    }
    unreachable!()
}

/// Closes what is still open, and writes the last lines: how many entries there are, which it gives, and the closing roster where it
/// is asked for. `Io` where the writer or the record failed; `NoMemory` where a growth was refused.
pub fn finish<B: Naming, R: Wait + Clock + Log, W: Sink>(
    rt: &R,
    alloc: Global,
    roster: &Roster,
    state: &State,
    settled: &mut Settled<B>,
    output: &mut Output<W>,
    closing: bool,
) -> Result<u128, ServeFault>
    requires { roster.now ≡ B.roster }
    ensures total { IfOk result (λ t. t ≡ sum_by (λ s. s.made) settled.new) }
    ensures closed { OnOk result (NoneOpen settled.new × EachIsClosed settled.new) }
    ensures text { IfOk result (λ t. EndsIn (append_known (W.taken output.old.writer) output.old.lines.items)
        (W.taken output.new.writer) (last_lines B.roster settled.new t closing)) }
{
    drain(rt, state, settled, output)?;
    let total = settled.total();
    if !closing {
        output.put_settled(total)?;
        return Ok(total);
    }
    let Ok(text) = closing_text(alloc, roster, settled) else {
        error!(rt; "no memory for the closing roster");
        return Err(ServeFault::NoMemory);
    };
    output.put_settled(total)?;
    output.put_closing(text.as_str())?;
    Ok(total)
}

/// The outcome with which a server ends. After a fault too, what the output was told is written.
pub fn written<R: Log, W: Sink>(
    rt: &R,
    output: &mut Output<W>,
    outcome: Result<u128, ServeFault>,
) -> Result<u128, ServeFault>
    ensures same { result ≡ outcome }
    ensures failed { IsErr outcome → (output.new.lines.items ≡ []) × (Appends (W.taken output.old.writer) (W.taken output.new.writer) output.old.lines.items ⊎ (W.has_failed output.new.writer ≡ true)) }
{
    if outcome.is_err() && output.flush().is_err() {
        error!(rt; "the last lines did not reach standard output");
    }
    outcome
}
