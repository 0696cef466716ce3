//! The base of a record: the lines that a compaction of an older program left.

ghost use Rattle.std.specs.Prelude.{◌≡◌, List, ℕ, length, IfOk, IfErr, IfSome, OnOk};
ghost use Rattle.std.specs.Io.KnownBytes.{Consumes};
ghost use Rattle.ns_steps.specs.StepLines.{ended};
ghost use Rattle.ns_resume.specs.Base.{base_text};
ghost use Rattle.ns_resume.specs.Private.Faults.{NamesNoLine};

use crate::fault::RecordFault;
use crate::line::read_line;
use ns_lines::{Line, put_hex};
use std::alloc::Global;
use std::io::BufRead;

/// What the first line of a compacted record tells: how many lines behind it the compaction left, and how many bytes of the `up` lines were
/// written before it.
#[derive(Clone, Copy)]
pub struct Base {
    pub lines: u64,
    pub ups: u64,
}

/// The first line of a record with this base, without its line feed.
#[tactic(auto, unfolding(crate::specs::Base::base_text))]
pub fn base_line(base: &Base) -> Line
    ensures { result.bytes ≡ base_text base.now }
{
    let mut line = Line::new();
    line.push_str("base ");
    put_hex(&mut line, &base.lines.to_be_bytes());
    line.push_str(" ");
    put_hex(&mut line, &base.ups.to_be_bytes());
    line
}

// The number of sixteen hex digits.
fn number_in(digits: &[u8]) -> Option<u64> {
    let mut bytes = [0u8; 8];
    match hex::decode_to_slice(digits, &mut bytes) {
        Ok(()) => Some(u64::from_be_bytes(bytes)),
        Err(_) => None,
    }
}

/// The base that a line says.
pub fn base_in(line: &[u8]) -> Option<Base>
    ensures { IfSome result (λ base. line.now ≡ base_text base) }
{
    let base = Base {
        lines: number_in(line.get(5..21)?)?,
        ups: number_in(line.get(22..38)?)?,
    };
    if line == base_line(&base).as_str().as_bytes() {
        Some(base)
    } else {
        None
    }
}

/// Reads the first line of a record, which says its base.
pub fn read_base<S: BufRead>(alloc: Global, steps: &mut S) -> Result<Base, RecordFault>
    ensures bytes { IfOk result (λ base. Consumes (S.remaining steps.old) (S.remaining steps.new) (ended (base_text base))) }
    ensures fault { IfErr result NamesNoLine }
{
    let mut line = Vec::new(alloc);
    if !read_line(steps, &mut line)? {
        return Err(RecordFault::BadBase);
    }
    match base_in(line.as_slice()) {
        Some(base) => Ok(base),
        None => Err(RecordFault::BadBase),
    }
}

/// Reads so many bytes of `up` lines, which are whole lines and are there.
pub fn skip_ups<U: BufRead>(alloc: Global, ups: &mut U, bytes: u64) -> Result<(), RecordFault>
    ensures bytes { OnOk result ((there : List ℕ) × Consumes (U.remaining ups.old) (U.remaining ups.new) there × (length there ≡ bytes)) }
    ensures fault { IfErr result NamesNoLine }
{
    let mut line = Vec::new(alloc);
    let mut left = bytes;
    'lines: while left > 0 {
        let is_whole = read_line(ups, &mut line)?;
        if !is_whole {
            return Err(RecordFault::UpShorter(bytes));
        }
        left -= 1;
        let len = line.len() as u64;
        if len > left {
            return Err(RecordFault::UpShorter(bytes));
        }
        left -= len;
    }
    Ok(())
}
