//! The lines of a closer until they are handed over.
ghost use Rattle.std.specs.Prelude.{◌≡◌, [], Some, IfOk, false};

use ns_types::{Failed, Sink, Stream};
use std::alloc::{AllocError, Global};

/// Whole lines, of which room for so many bytes is taken first. It fails where a growth beyond them is refused.
#[derive(Drop)]
pub struct Held {
    lines: Vec<u8>,
    failed: bool,
}

impl Held {
    /// No lines.
    pub fn new(alloc: Global, room: usize) -> Result<Held, AllocError>
        ensures { IfOk result (λ h. (h.failed ≡ false) × (h.lines.items ≡ [])) }
    {
        Ok(Held {
            lines: Vec::with_capacity(alloc, room)?,
            failed: false,
        })
    }

    /// The lines.
    pub fn lines(&self) -> &[u8]
        ensures { result.now ≡ self.now.lines.items }
    {
        self.lines.as_slice()
    }

    /// No lines any more. The room stays.
    pub fn clear(&mut self)
        ensures { (self.new.failed ≡ false) × (self.new.lines.items ≡ []) }
    {
        self.lines.clear();
        self.failed = false;
    }
}

impl Stream for Held {
    ghost has_failed = { λ s. s.failed };

    fn failed(&self) -> bool {
        self.failed
    }
}

impl Sink for Held {
    ghost taken = { λ s. Some s.lines.items };

    fn write(&mut self, bytes: &[u8]) -> Result<usize, Failed> {
        match self.lines.extend_from_slice(bytes) {
            Ok(()) => Ok(bytes.len()),
            Err(_) => {
                self.failed = true;
                Err(Failed)
            }
        }
    }
}
