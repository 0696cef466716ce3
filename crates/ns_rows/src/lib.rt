//! Rows: for each key, a `u64`, the elements that were added at it, in their order.
//!
//! The crate promises that what is added stands behind the others of its key, and that all other keys keep theirs. It stands on no other
//! crate of this repository.
#![tactic(auto)]

ghost use Rattle.std.specs.Prelude.{◌≡◌, ℕ, ◌==◌, ◌++◌, ◌∷◌, [], if◌then◌else◌, OnOk, OnErr};
ghost use Rattle.ns_rows.specs.Rows.{row_in};

use smallvec::SmallVec;
use std::alloc::{AllocError, Global};
use std::collections::HashMap;

/// The elements of each key. Up to `N` of a key lie in the table itself, more of them all in a block of memory of their own.
pub type Rows<T, const N: usize> = HashMap<u64, SmallVec<T, N>>;

/// The elements of a key, none where it is not known.
pub fn row_at<T, const N: usize>(rows: &Rows<T, N>, key: u64) -> &[T]
    ensures { result.now ≡ row_in rows.now.entries key }
{
    match rows.get(&key) {
        Some(row) => row.as_slice(),
        None => &[],
    }
}

/// Adds an element at the end of the row of a key. Where the growth is refused, nothing has changed.
pub fn push_at<T: Copy + Default, const N: usize>(
    rows: &mut Rows<T, N>,
    alloc: Global,
    key: u64,
    element: T,
) -> Result<(), AllocError>
    ensures ok { OnOk result ((k : ℕ) → row_in rows.new.entries k ≡ row_in rows.old.entries k ++ (if key == k then element ∷ [] else [])) }
    ensures err { OnErr result ((k : ℕ) → row_in rows.new.entries k ≡ row_in rows.old.entries k) }
{
    if let Some(row) = rows.get_mut(&key) {
        row.push(element)?;
        return Ok(());
    }
    let mut row = SmallVec::new(alloc);
    row.push(element)?;
    rows.insert(key, row)?;
    Ok(())
}
