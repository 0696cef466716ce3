//! Adding to a text, and its pieces. Where memory runs out, what was to be added is lost, and then text is missing.

use std::alloc::{AllocError, Global};
use std::fmt::{Display, Write};

/// Adds a text.
pub fn put(out: &mut String, text: &str) {
    let _ = out.push_str(text);
}

/// Adds a line, with its line feed.
pub fn put_line(out: &mut String, line: &str) {
    put(out, line);
    put(out, "\n");
}

/// Adds a text that may have been refused memory.
pub fn put_made(out: &mut String, made: Result<String, AllocError>) {
    if let Ok(text) = made {
        put(out, text.as_str());
    }
}

/// Adds what is shown of a value.
pub fn show<D: Display + Drop>(out: &mut String, shown: D) {
    let _ = write!(out, "{shown}");
}

/// Adds a number between two texts.
pub fn put_number<D: Display + Drop>(out: &mut String, before: &str, number: D, behind: &str) {
    let _ = write!(out, "{before}{number}{behind}");
}

/// Adds bytes in hex.
pub fn put_hex(alloc: Global, out: &mut String, bytes: &[u8]) {
    put_made(out, hex::encode(alloc, bytes));
}

/// The pieces of a text that stand between these marks.
pub fn pieces<'a>(alloc: Global, text: &'a str, mark: &str) -> Vec<&'a str> {
    let mut pieces = Vec::new(alloc);
    let mut rest = text;
    for _ in 0..text.len() {
        let Some((piece, behind)) = rest.split_once(mark) else {
            break;
        };
        let _ = pieces.push(piece);
        rest = behind;
    }
    let _ = pieces.push(rest);
    pieces
}

/// The text in front of the first line feed, and that behind it.
pub fn halves(text: &str) -> (&str, &str) {
    text.split_once("\n").unwrap_or((text, ""))
}
