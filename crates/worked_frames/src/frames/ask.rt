//! Lines that ask.

use ns_roster::field::hex_bytes;
use ns_secure::Dir;
use ns_types::{DevAddr, DevEui, JoinEui, Key};
use std::str::FromStr;

/// A line that asks, and the one that gives values to it.
#[derive(Clone, Copy)]
pub struct Ask<'a> {
    line: &'a str,
    given: &'a str,
}

// The word behind this one.
fn behind<'a>(line: &'a str, name: &str) -> Option<&'a str> {
    let (mut rest, mut is_next) = (line, false);
    for _ in 0..line.len() {
        let Some((word, behind)) = rest.split_once(" ") else {
            return if is_next { Some(rest) } else { None };
        };
        if is_next {
            return Some(word);
        }
        is_next = word == name;
        rest = behind;
    }
    None
}

impl<'a> Ask<'a> {
    /// The line, and the values given to it.
    pub fn new(line: &'a str, given: &'a str) -> Ask<'a> {
        Ask { line, given }
    }

    /// The first word.
    pub fn what(self) -> &'a str {
        match self.line.split_once(" ") {
            Some((what, _)) => what,
            None => self.line,
        }
    }

    /// The word behind this one, or no word.
    pub fn value(self, name: &str) -> &'a str {
        match behind(self.line, name) {
            Some(value) => value,
            None => behind(self.given, name).unwrap_or(""),
        }
    }

    /// A decimal number, if there is one.
    pub fn option<N: FromStr>(self, name: &str) -> Option<N>
    where
        <N as FromStr>::Err: Drop,
    {
        self.value(name).parse::<N>().ok()
    }

    /// A decimal number, or 0.
    pub fn number<N: FromStr + From<u8> + Drop>(self, name: &str) -> N
    where
        <N as FromStr>::Err: Drop,
    {
        self.option(name).unwrap_or(N::from(0))
    }

    /// So many bytes in hex, or zeros.
    pub fn array<const N: usize>(self, name: &str) -> [u8; N] {
        hex_bytes::<N>(self.value(name)).unwrap_or([0; N])
    }

    /// Bytes in hex, `5a*242` for 242 of 5a, or none; 256 at most.
    pub fn bytes<'b>(self, name: &str, room: &'b mut [u8; 256]) -> &'b mut [u8] {
        let value = self.value(name);
        let (digits, times) = value.split_once("*").unwrap_or((value, ""));
        let len = times.parse::<usize>().unwrap_or(digits.len() / 2);
        let bytes = &mut room[..len.min(256)];
        match hex_bytes::<1>(digits) {
            Some(byte) => bytes.fill(byte[0]),
            None => {
                let _ = hex::decode_to_slice(digits, bytes);
            }
        }
        bytes
    }

    /// The key behind this word.
    pub fn key(self, name: &str) -> Key {
        Key(self.array(name))
    }

    /// The DevAddr, behind `addr`.
    pub fn addr(self) -> DevAddr {
        DevAddr(u32::from_be_bytes(self.array("addr")))
    }

    /// The DevEUI, behind `dev_eui`.
    pub fn dev_eui(self) -> DevEui {
        DevEui(u64::from_be_bytes(self.array("dev_eui")))
    }

    /// The JoinEUI, behind `join_eui`.
    pub fn join_eui(self) -> JoinEui {
        JoinEui(u64::from_be_bytes(self.array("join_eui")))
    }

    /// The direction: down where `dir` says so.
    pub fn dir(self) -> Dir {
        if self.value("dir") == "down" {
            Dir::Down
        } else {
            Dir::Up
        }
    }
}
