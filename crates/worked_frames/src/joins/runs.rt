//! What several tries came to, one after the other.

use crate::put::{put, put_number};
use std::alloc::Global;

/// Outcomes in order, as lines: how many stand together, and what they are.
#[derive(Drop)]
pub struct Runs {
    lines: String,
    last: String,
    count: u32,
}

impl Runs {
    /// No outcome.
    pub fn new(alloc: Global) -> Runs {
        Runs {
            lines: String::new(alloc),
            last: String::new(alloc),
            count: 0,
        }
    }

    /// Adds an outcome.
    pub fn add(&mut self, outcome: String) {
        if self.last.as_str() != outcome.as_str() {
            self.end();
        }
        self.last = outcome;
        self.count = self.count.wrapping_add(1);
    }

    /// Ends the line of the outcomes that stand together last, if there is any.
    pub fn end(&mut self) {
        if self.count > 0 {
            if !self.lines.is_empty() {
                put(&mut self.lines, "\n");
            }
            put_number(&mut self.lines, "", self.count, " ");
            put(&mut self.lines, self.last.as_str());
            self.count = 0;
        }
    }

    /// The lines that are ended.
    pub fn lines(&self) -> &str {
        self.lines.as_str()
    }
}
