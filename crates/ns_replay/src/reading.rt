//! The lines of a source, read block by block.

ghost use Rattle.std.specs.Prelude.{◌≡◌, ◌<◌, ◌+◌, ◌^◌, ◌∷◌, ◌++◌, [], false, true, length, option_map, IfOk, IfErr, OnOk, OnErr, ◌↔◌};
ghost use Rattle.ns_types.specs.declared.transfer.ReadFault.TheVariants.{Io};
ghost use Rattle.ns_runs.specs.Lines.{Advances};
ghost use Rattle.ns_steps.specs.StepLines.{step, step_of};
ghost use Rattle.ns_replay.specs.Private.Read.{AreOf, Unended, lines_left};

use ns_runs::{LentStep, StepSource};
use ns_steps::{place_of, step};
use ns_types::{Failed, ReadFault, Source};
use std::alloc::{AllocError, Global};
use std::marker::Model;
use std::mem;

// How many bytes are read at once, into memory that is taken before anything is read.
const READ_ROOM: usize = 65_536;

/// The lines of a source. Of its text one block and one line are in memory at a time. A line that is in the block whole is not copied.
/// Contracts see the line that it is at, what was read of the line behind it, and whether more will be read.
#[derive(Drop)]
pub struct LineReader {
    block: Vec<u8>,
    // Where in the block the next line, or the rest of it, begins, and where what was read ends.
    next: usize,
    filled: usize,
    // Where in the block the line is that it is at, where it is not `carried`.
    start: usize,
    end: usize,
    // What was read of the next line before the block.
    line: Vec<u8>,
    // The line that it is at, where that was `carried` from block to block.
    whole: Vec<u8>,
    carried: bool,
    // Whether the source is at its end.
    ended: bool,
}

impl Model for LineReader {
    ghost use Rattle.std.specs.Prelude.{◌≡◌, ◌<◌, ◌≤◌, ℕ, length, if◌then◌else◌, slice_range};
    ghost use Rattle.ns_replay.specs.Private.Read.{ReadText, Unended};

    ghost Value = { ReadText };

    ghost view = { λ r. record {
      here = if r.carried then r.whole.items else slice_range r.block.items r.start r.end;
      begun = r.line.items;
      block = slice_range r.block.items r.next r.filled;
      ended = r.ended;
    } };

    ghost invariant = { λ r. (0 < length r.block.items) × (r.next ≤ r.filled) × (r.filled ≤ length r.block.items) × (r.start ≤ r.end) × (r.end ≤ length r.block.items) × Unended r.line.items };
}

// Memory of n bytes.
fn zeros(alloc: Global, n: usize) -> Result<Vec<u8>, AllocError>
    ensures { IfOk result (λ bytes. length bytes.items ≡ n) }
{
    vec![in alloc; 0u8; n]
}

impl LineReader {
    /// Before anything is read.
    pub fn new(alloc: Global) -> Result<LineReader, AllocError>
        ensures { IfOk result (λ r. (r.begun ≡ []) × (r.block ≡ []) × (r.ended ≡ false)) }
    {
        Ok(LineReader {
            block: zeros(alloc, READ_ROOM)?,
            next: 0,
            filled: 0,
            start: 0,
            end: 0,
            line: Vec::new(alloc),
            whole: Vec::new(alloc),
            carried: false,
            ended: false,
        })
    }

    // Goes to the next line, where it ends in the block. Else what there is of it is kept, and the block is empty.
    #[inline(always)]
    fn take_line(&mut self) -> Result<bool, AllocError>
        ensures line { IfOk result (λ found. found ≡ true → (self.old.begun ++ self.old.block ≡ self.new.here ++ 10 ∷ self.new.block) × Unended self.new.here × (self.new.begun ≡ [])) }
        ensures part { IfOk result (λ found. found ≡ false → (self.new.begun ≡ self.old.begun ++ self.old.block) × (self.new.block ≡ []) × (length self.new.begun < 2 ^ 64)) }
        ensures ended { OnOk result (self.new.ended ≡ self.old.ended) }
    {
        let rest = &self.block[self.next..self.filled];
        let Some(end) = place_of(b'\n', rest) else {
            self.line.extend_from_slice(rest)?;
            self.next = self.filled;
            return Ok(false);
        };
        if !self.line.is_empty() {
            self.line.extend_from_slice(&rest[..end])?;
            self.next = self.next + end + 1;
            self.carry();
            return Ok(true);
        }
        self.start = self.next;
        self.end = self.next + end;
        self.next = self.end + 1;
        self.carried = false;
        Ok(true)
    }

    // Goes to what was read of a line before the block, of which nothing is left then.
    fn carry(&mut self)
        ensures here { self.new.here ≡ self.old.begun }
        ensures unended { Unended self.new.here }
        ensures begun { self.new.begun ≡ [] }
        ensures block { self.new.block ≡ self.old.block }
        ensures ended { self.new.ended ≡ self.old.ended }
    {
        mem::swap(&mut self.line, &mut self.whole);
        self.line.clear();
        self.carried = true;
    }

    // Reads a block, and says whether the source is at its end.
    fn read<S: Source>(&mut self, source: &mut S) -> Result<bool, Failed>
        requires sound { S.Stream.has_failed source.old ≡ false }
        requires empty { self.old.block ≡ [] }
        ensures bytes { IfOk result (λ is_end. AreOf (S.left source.old) (S.left source.new) is_end self.new.block) }
        ensures begun { OnOk result (self.new.begun ≡ self.old.begun) }
        ensures ended { OnOk result (self.new.ended ≡ self.old.ended) }
        ensures failed { OnOk result (S.Stream.has_failed source.new ≡ false) }
        ensures io { OnErr result (S.Stream.has_failed source.new ≡ true) }
    {
        let n = source.read(self.block.as_mut_slice())?;
        self.next = 0;
        self.filled = n;
        Ok(n == 0)
    }

    // Goes to what was read of a line that has no end, and says whether there is any.
    fn end(&mut self) -> bool
        requires { self.old.block ≡ [] }
        ensures last { result ≡ true → (0 < length self.old.begun) × Unended self.new.here × (self.new.here ≡ self.old.begun) }
        ensures none { result ≡ false → self.old.begun ≡ [] }
        ensures rest { (self.new.begun ≡ []) × (self.new.block ≡ []) × (self.new.ended ≡ true) }
    {
        self.ended = true;
        if self.line.is_empty() {
            return false;
        }
        self.carry();
        true
    }

    // Reads on, to the next line.
    fn read_line<S: Source>(&mut self, source: &mut S) -> Result<bool, ReadFault>
        requires sound { S.Stream.has_failed source.old ≡ false }
        requires empty { self.old.block ≡ [] }
        requires bounded { length self.old.begun < 2 ^ 64 }
        ensures lines { IfOk result (λ more. Advances (lines_left self.old (S.left source.old)) (lines_left self.new (S.left source.new)) more (option_map step_of (step self.new.here))) }
        ensures sound { OnOk result (S.Stream.has_failed source.new ≡ false) }
        ensures io { IfErr result (λ e. (e ≡ Io) ↔ (S.Stream.has_failed source.new ≡ true)) }
    {
        'reading: loop {
            if self.ended {
                return Ok(self.end());
            }
            if self.read(source)? {
                return Ok(self.end());
            }
            if self.take_line()? {
                return Ok(true);
            }
        }
    }
}

impl<S: Source> StepSource<S> for LineReader {
    ghost use Rattle.std.specs.Prelude.{option_map};
    ghost use Rattle.ns_steps.specs.StepLines.{step, step_of};
    ghost use Rattle.ns_replay.specs.Private.Read.{lines_left};

    ghost has_failed = { S.Stream.has_failed };

    ghost left = { λ r source. lines_left r (S.left source) };

    ghost here = { λ r. option_map step_of (step r.here) };

    #[inline(always)]
    fn advance(&mut self, source: &mut S) -> Result<bool, ReadFault> {
        if self.take_line()? {
            return Ok(true);
        }
        self.read_line(source)
    }

    #[inline(always)]
    fn step<'a>(&'a self, room: &'a mut Vec<u8>) -> Result<Option<LentStep<'a>>, AllocError> {
        let line = if self.carried {
            self.whole.as_slice()
        } else {
            &self.block[self.start..self.end]
        };
        match step(room, line)? {
            Some(act) => Ok(Some(LentStep { worker: 0, act })),
            None => Ok(None),
        }
    }
}
