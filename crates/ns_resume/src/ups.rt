//! The `up` lines that are there, beside those that a record implies.

ghost use Rattle.std.specs.Prelude.{◌≡◌, ℕ, List, [], ◌++◌, OnOk, IfOk, IfErr};
ghost use Rattle.std.specs.Io.KnownBytes.{Consumes};
ghost use Rattle.ns_steps.specs.StepLines.{ended};
ghost use Rattle.ns_resume.specs.Resumed.{AreUps, IsAllOf};
ghost use Rattle.ns_resume.specs.Private.Ups.{GoOn};
ghost use Rattle.ns_resume.specs.Private.Lines.{feed_of, is_front, IsFrontOf};
ghost use Rattle.ns_resume.specs.Private.Faults.{NamesNoLine};

use crate::fault::RecordFault;
use crate::line::read_line;
use std::alloc::{AllocError, Global};
use std::io::BufRead;

/// The `up` lines of a source, read along with those that the record implies.
#[derive(Drop)]
pub struct Ups {
    // The line that was read last.
    line: Vec<u8>,
    // How many lines were read.
    count: u64,
    /// How many bytes the source has of a line that is implied, where it has ended within that.
    pub torn: usize,
    /// The lines that are implied and that the source does not have whole, each with its line feed.
    pub missing: Vec<u8>,
}

// Whether a part begins a line, and is the line where it is whole.
fn is_front(whole: bool, part: &[u8], line: &[u8]) -> bool
    ensures { result ≡ is_front whole part.now line.now }
{
    if whole {
        line == part
    } else {
        line.starts_with(part)
    }
}

impl Ups {
    /// Nothing is implied yet.
    pub fn new(alloc: Global) -> Ups
        ensures torn { result.torn ≡ 0 }
        ensures missing { result.missing.items ≡ [] }
    {
        Ups {
            line: Vec::new(alloc),
            count: 0,
            torn: 0,
            missing: Vec::new(alloc),
        }
    }

    // Whether the source has this line next. If not, it has ended, and had a front of it.
    fn has<U: BufRead>(&mut self, source: &mut U, line: &[u8]) -> Result<bool, RecordFault>
        ensures bytes { IfOk result (λ whole. Consumes (U.remaining source.old) (U.remaining source.new) (self.new.line.items ++ feed_of whole)) }
        ensures front { IfOk result (λ whole. IsFrontOf whole self.new.line.items line.now) }
        ensures torn { self.new.torn ≡ self.old.torn }
        ensures missing { self.new.missing.items ≡ self.old.missing.items }
        ensures fault { IfErr result NamesNoLine }
    {
        let is_whole = read_line(source, &mut self.line)?;
        self.count = self.count.saturating_add(1);
        if is_front(is_whole, self.line.as_slice(), line) {
            return Ok(is_whole);
        }
        Err(RecordFault::UpDiffers(self.count))
    }

    // Adds a line to those that are missing.
    fn miss(&mut self, line: &[u8]) -> Result<(), AllocError>
        ensures missing { OnOk result (self.new.missing.items ≡ self.old.missing.items ++ ended line.now) }
        ensures torn { self.new.torn ≡ self.old.torn }
    {
        self.missing.extend_from_slice(line)?;
        self.missing.extend_from_slice(b"\n")?;
        Ok(())
    }

    /// The record implies this line next. The source has it, or ends within it or before it.
    pub fn implied<U: BufRead>(&mut self, source: &mut U, line: &[u8]) -> Result<(), RecordFault>
        ensures ups { OnOk result ((there ups : List ℕ) → AreUps there ups self.old.missing.items self.old.torn
            → GoOn (U.remaining source.old) (U.remaining source.new) there (ups ++ ended line.now) self.new) }
        ensures fault { IfErr result NamesNoLine }
    {
        if self.missing.is_empty() {
            if self.has(source, line)? {
                return Ok(());
            }
            self.torn = self.line.len();
        }
        self.miss(line)?;
        Ok(())
    }

    /// The record implies no more lines.
    pub fn finish<U: BufRead>(&mut self, source: &mut U) -> Result<(), RecordFault>
        ensures ended { OnOk result (IsAllOf (U.remaining source.old) []) }
        ensures torn { self.new.torn ≡ self.old.torn }
        ensures missing { self.new.missing.items ≡ self.old.missing.items }
        ensures fault { IfErr result NamesNoLine }
    {
        if read_line(source, &mut self.line)? || !self.line.is_empty() {
            return Err(RecordFault::UpLonger(self.count));
        }
        Ok(())
    }
}
