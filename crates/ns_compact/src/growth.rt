//! Whether a record has grown so much that a checkpoint is to take its place.

ghost use Rattle.std.specs.Prelude.{◌≡◌};
ghost use Rattle.ns_compact.specs.Growth.{is_due};

use ns_checkpoint::head_in;
use ns_resume::{RecordFault, base_in};
use std::alloc::Global;
use std::io::BufRead;

// From how many bytes of steps on a compaction is worth its time.
const MANY: u64 = 4_194_304;

// From how many times what the last compaction left.
const TIMES: u64 = 8;

/// Whether steps of so many bytes, of which the last compaction left so many, are to be compacted.
pub fn is_due(left: u64, bytes: u64) -> bool
    ensures { result ≡ is_due left bytes }
{
    bytes >= MANY && bytes / TIMES >= left
}

// How many lines after the first one a compaction left, which this first line says.
fn lines_left(line: &[u8]) -> u64 {
    if let Some(base) = base_in(line) {
        return base.lines;
    }
    match head_in(line) {
        Some(head) => head.lines.saturating_add(1),
        None => 0,
    }
}

// Reads a line with its line feed, and returns how many bytes it has.
fn read<S: BufRead>(steps: &mut S, line: &mut Vec<u8>) -> Result<u64, RecordFault> {
    line.clear();
    Ok(steps.read_until(b'\n', line)? as u64)
}

/// How many bytes of the steps the last compaction left.
pub fn bytes_left<S: BufRead>(alloc: Global, steps: &mut S) -> Result<u64, RecordFault> {
    let mut line = Vec::new(alloc);
    let first = read(steps, &mut line)?;
    if line.last() == Some(&b'\n') {
        line.pop();
    }
    let lines = lines_left(line.as_slice());
    if lines == 0 {
        return Ok(0);
    }
    let mut bytes = first;
    for _line in 0..lines {
        let len = read(steps, &mut line)?;
        if len == 0 {
            return Ok(bytes);
        }
        bytes = bytes.saturating_add(len);
    }
    Ok(bytes)
}
