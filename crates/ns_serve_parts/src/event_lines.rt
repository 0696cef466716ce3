//! The lines of events until they are written.
ghost use Rattle.std.specs.Prelude.{◌≡◌, ◌++◌, []};
ghost use Rattle.std.specs.Bool.{OnTrue, OnFalse};
ghost use Rattle.ns_serve_parts.specs.Lines.{line};

use std::alloc::Global;
use std::mem;

/// How many bytes wait at most.
const MOST: usize = 1 << 20;

/// Whole lines of events that wait to be written.
#[derive(Drop)]
pub struct EventLines {
    lines: Vec<u8>,
}

impl EventLines {
    /// No lines.
    pub fn new(alloc: Global) -> EventLines
        ensures { result.lines.items ≡ [] }
    {
        EventLines {
            lines: Vec::new(alloc),
        }
    }

    /// Adds a line, with a line feed, and says whether it has. Where a megabyte waits, or memory is refused, it has not.
    pub fn put(&mut self, text: &str) -> bool
        ensures put { OnTrue result (self.new.lines.items ≡ self.old.lines.items ++ line text.now) }
        ensures kept { OnFalse result (self.new.lines.items ≡ self.old.lines.items) }
    {
        let count = text.len() + 1;
        if self.lines.len() + count > MOST || self.lines.reserve(count).is_err() {
            return false;
        }
        if self.lines.extend_from_slice(text.as_bytes()).is_err() {
            return false;
        }
        self.lines.push_reserved(b'\n');
        true
    }

    /// The lines, which wait no longer.
    pub fn take(&mut self, alloc: Global) -> Vec<u8>
        ensures lines { result.items ≡ self.old.lines.items }
        ensures none { self.new.lines.items ≡ [] }
    {
        mem::replace(&mut self.lines, Vec::new(alloc))
    }
}
