//! Reads the texts of joins, and those that go over HTTP, as the server does, and puts what each comes to. Each line of the text is
//! put again, and what it comes to below it:
//!
//! - `> WORD TEXT` is a step: it asks, or says what the questions behind it are about (`worked.rt`). In its text `\r`, `\n`, `\t` and
//!   `\xHH;` are a byte, `\(N PIECE)` is a piece so many times, and `OLD => NEW` is the last `text` with the first OLD replaced by NEW;
//! - any other line is a remark.
//!
//! Two more kinds of lines are answered alone, for `tools/hostile.py`, which holds millions of them against its models:
//!
//! - `roster HEX`: its closing text with the last nonces that it has, or its first fault, as `O1`;
//! - `response HEX`: what an exchange of transaction 1 answers to it, the response read whole and then one byte a read: the Join-Accept,
//!   NwkSKey and AppSKey, or the first fault, as `H3`.

mod devices;
mod exchanges;
mod messages;
mod rosters;
mod runs;
mod scarce;
mod status;
pub mod text;
mod worked;

use crate::joins::worked::Worked;
use std::alloc::Global;

/// Puts what each of these lines comes to.
pub fn make(alloc: Global, lines: &[&str], out: &mut String) {
    let mut worked = Worked::new(alloc);
    for line in lines {
        worked.put(alloc, line, out);
    }
}
