//! Answers as they grow.

use crate::put::put_hex;
use std::alloc::Global;

/// Lines of words, and the bytes that were put. Where memory ran out a word is lost, and then text is missing.
#[derive(Drop)]
pub struct Answers {
    alloc: Global,
    text: String,
    bytes: Vec<u8>,
}

impl Answers {
    /// No line.
    pub fn new(alloc: Global) -> Answers {
        Answers {
            alloc,
            text: String::new(alloc),
            bytes: Vec::new(alloc),
        }
    }

    /// Takes all lines away.
    pub fn clear(&mut self) {
        self.text.clear();
        self.bytes.clear();
    }

    /// What it allocates from.
    pub fn alloc(&self) -> Global {
        self.alloc
    }

    /// The lines, with a line feed before each.
    pub fn text(&self) -> &str {
        self.text.as_str()
    }

    // Adds a piece and a text behind it.
    fn push(&mut self, piece: &str, text: &str) {
        let _ = self.text.push_str(piece);
        let _ = self.text.push_str(text);
    }

    /// Begins a line with this text.
    pub fn begin(&mut self, text: &str) {
        self.push("\n", text);
    }

    /// Puts a word.
    pub fn word(&mut self, word: &str) {
        self.push(" ", word);
    }

    /// Puts the first word where this is so, and else the second.
    pub fn either(&mut self, is_so: bool, yes: &str, no: &str) {
        self.word(if is_so { yes } else { no });
    }

    /// Puts a number in decimal.
    pub fn number(&mut self, number: u64) {
        let _ = write!(self.text, " {number}");
    }

    /// Puts a fault: the letter and the number.
    pub fn fault(&mut self, letter: &str, number: u8) {
        let _ = write!(self.text, " {letter}{number}");
    }

    /// Puts the words of another.
    pub fn words_of(&mut self, other: &Answers) {
        self.push("", other.text());
    }

    /// Puts a number in decimal, or `none`.
    pub fn option(&mut self, number: Option<u32>) {
        match number {
            Some(number) => self.number(u64::from(number)),
            None => self.word("none"),
        }
    }

    /// Puts bytes in hex, or `-`.
    pub fn hex(&mut self, bytes: &[u8]) {
        let _ = self.bytes.extend_from_slice(bytes);
        self.word(if bytes.is_empty() { "-" } else { "" });
        put_hex(self.alloc, &mut self.text, bytes);
    }

    /// Puts each of these bytes in hex, or `-`.
    pub fn all(&mut self, parts: &[&[u8]]) {
        for part in parts {
            self.hex(part);
        }
    }

    /// Whether the bytes that were put, one after the other, are these.
    pub fn are(&self, bytes: &[u8]) -> bool {
        self.bytes.as_slice() == bytes
    }

    /// Another, with no line.
    pub fn other(&self) -> Answers {
        Answers::new(self.alloc)
    }
}
