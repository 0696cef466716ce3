//! Rows of tables, and texts of parts.

use std::alloc::{AllocError, Global};
use std::process::Abort;

/// A row of a table.
pub trait Row {
    /// Whether it holds.
    fn holds(&self, alloc: Global) -> bool;
}

/// Each row of a table of this name holds, or the number of the first that does not is told.
pub fn each_holds<R: Abort, T: Row>(rt: &R, alloc: Global, name: &str, rows: &[T]) {
    let mut number = 1u32;
    for row in rows {
        assert!(rt; row.holds(alloc), "{name}, row {number}");
        number = number.wrapping_add(1);
    }
}

/// These parts, one behind the other.
pub fn joined(alloc: Global, parts: &[&str]) -> Result<String, AllocError> {
    let mut text = String::new(alloc);
    for part in parts {
        text.push_str(part)?;
    }
    Ok(text)
}

/// A text with a part that stands so many times between its front and its end.
pub fn filled(
    alloc: Global,
    front: &str,
    part: &str,
    times: usize,
    end: &str,
) -> Result<String, AllocError> {
    let parts = part.repeat(alloc, times)?;
    joined(alloc, &[front, parts.as_str(), end])
}
