//! What is put down of a server's calls.
ghost use Rattle.std.specs.Prelude.{◌≡◌};
ghost use Rattle.std.specs.Option.{option_map};
ghost use Rattle.ns_lines.specs.Text.{up_text};
ghost use Rattle.ns_record.specs.StepText.{step_text};

use ns_lines::put_uplink;
use ns_outside::{Gate, Receipt};
use ns_record::{matters, put_step};
use ns_record_files::{LineText, RecordFiles, RecordLines, Recorder};
use ns_serve_state::{State, write_record};
use std::sync::Wait;

// A call with its answer, of which a record has the step line, and the `up` line of what goes up with it.
#[derive(Drop)]
struct Answered<'a> {
    receipt: &'a Receipt,
}

impl<'a> RecordLines for Answered<'a> {
    ghost step = { λ a. step_text a.receipt.now.entry.call };

    ghost up = { λ a. option_map up_text a.receipt.now.uplink };

    fn put_step(&self, line: &mut LineText) {
        put_step(line, &self.receipt.entry.call);
    }

    fn put_up(&self, line: &mut LineText) -> bool {
        let Some(uplink) = &self.receipt.uplink else {
            return false;
        };
        put_uplink(line, uplink);
        true
    }
}

// Puts down a call on which later answers rest. It stands by itself, so that a server without a record runs through none of it.
#[inline(never)]
fn put_down<R: Wait>(rt: &R, record: &Recorder<RecordFiles>, receipt: &Receipt) {
    if matters(&receipt.entry.reply) {
        record.put(rt, &Answered { receipt });
    }
}

/// Puts down a call on which later answers rest, and the `up` line of what goes up with it.
pub fn record_call<R: Wait>(rt: &R, state: &State, receipt: &Receipt) {
    if let Some(record) = &state.record {
        put_down(rt, record, receipt);
    }
}

/// A gate that puts down each call, and writes what was put down before where that is much.
#[derive(Clone, Copy)]
pub struct Recording<'a> {
    pub state: &'a State,
}

impl<'a, R: Wait> Gate<R> for Recording<'a> {
    fn before(&self, rt: &R, _shard: u8) {
        if let Some(record) = &self.state.record {
            if record.is_due() {
                let _ = write_record(rt, self.state);
            }
        }
    }

    fn visit(&self, _rt: &R, _shard: u8, _number: u64) {}

    fn made(&self, rt: &R, receipt: &Receipt) {
        record_call(rt, self.state, receipt);
    }
}
