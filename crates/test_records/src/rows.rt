//! Rows of tables.

use std::process::Abort;

/// A row holds, or its number is told. Gives the number of the next.
pub fn holds<R: Abort>(rt: &R, is_so: bool, number: usize) -> usize {
    assert!(rt; is_so, "row {number}");
    number.wrapping_add(1)
}
