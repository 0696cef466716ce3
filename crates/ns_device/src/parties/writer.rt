//! A writer that fails.

ghost use Rattle.std.specs.Prelude.{None};

use ns_types::{Failed, Sink, Stream};

/// A writer that takes so many texts, and then fails.
#[derive(Drop)]
pub struct Writer<'a> {
    bytes: &'a mut Vec<u8>,
    texts: u32,
    failed: bool,
}

impl<'a> Writer<'a> {
    /// A writer behind these bytes, which takes so many texts.
    pub fn new(bytes: &'a mut Vec<u8>, texts: u32) -> Writer<'a> {
        Writer {
            bytes,
            texts,
            failed: false,
        }
    }
}

impl<'a> Stream for Writer<'a> {
    ghost has_failed = { λ s. s.failed };

    fn failed(&self) -> bool {
        self.failed
    }
}

impl<'a> Sink for Writer<'a> {
    ghost taken = { λ _. None };

    fn write(&mut self, bytes: &[u8]) -> Result<usize, Failed> {
        if self.texts == 0 || bytes.is_empty() || self.bytes.extend_from_slice(bytes).is_err() {
            self.failed = true;
            return Err(Failed);
        }
        self.texts -= 1;
        Ok(bytes.len())
    }
}
