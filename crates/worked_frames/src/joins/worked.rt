//! The lines of the text, and what each comes to.

use crate::joins::exchanges::{Asked, Tries};
use crate::joins::scarce::Scarce;
use crate::joins::text::bytes_of;
use crate::joins::{devices, exchanges, messages, rosters, scarce, status};
use crate::put::{put, show};
use ns_device::{TestDevice, TestJoinServer};
use ns_exchange::{AnsFault, AskFault};
use ns_roster::field::hex_bytes;
use ns_roster::{Roster, RosterFault};
use ns_types::Ticket;
use std::alloc::Global;

/// What the questions are about.
#[derive(Drop)]
pub struct Worked {
    text: String,
    message: String,
    transaction: u32,
    server: TestJoinServer,
    device: TestDevice,
}

impl Worked {
    /// Nothing that questions are about.
    pub fn new(alloc: Global) -> Worked {
        Worked {
            text: String::new(alloc),
            message: String::new(alloc),
            transaction: 0,
            server: devices::server(alloc, ""),
            device: devices::device(""),
        }
    }

    /// Puts what is printed for a line.
    pub fn put(&mut self, alloc: Global, line: &str, out: &mut String) {
        if let Some(digits) = line.strip_prefix("roster ") {
            rosters::closing(alloc, decoded(alloc, digits).as_slice(), out);
        } else if let Some(digits) = line.strip_prefix("response ") {
            exchanges::twice(alloc, decoded(alloc, digits).as_slice(), out);
        } else {
            put(out, line);
            if let Some(step) = line.strip_prefix("> ") {
                self.step(alloc, step, out);
            }
        }
        put(out, "\n");
    }

    // Takes a step: changes what questions are about, or puts what a question comes to, on a line of its own.
    fn step(&mut self, alloc: Global, step: &str, out: &mut String) {
        let (word, text) = halves(step);
        if !self.set(alloc, word, text) {
            put(out, "\n");
            self.answer(alloc, step, out);
        }
    }

    // Changes what questions are about. Whether a word does so.
    fn set(&mut self, alloc: Global, word: &str, text: &str) -> bool {
        match word {
            "text" => replace(&mut self.text, text),
            "message" => replace(&mut self.message, text),
            "transaction" => self.transaction = text.parse::<u32>().unwrap_or(0),
            "device" => self.device = devices::device(text),
            "server" => self.server = devices::server(alloc, text),
            "add" => devices::add(&mut self.server, text),
            _ => return false,
        }
        true
    }

    // The bytes of a text. `OLD => NEW` is the text that questions are about with the first OLD replaced; None where it has none.
    fn bytes(&self, alloc: Global, text: &str) -> Option<Vec<u8>> {
        let Some((old, new)) = text.split_once(" => ") else {
            return Some(bytes_of(alloc, text, ""));
        };
        let (before, behind) = self.text.split_once(old)?;
        let mut replaced = String::new(alloc);
        put(&mut replaced, before);
        put(&mut replaced, new);
        put(&mut replaced, behind);
        Some(bytes_of(alloc, replaced.as_str(), ""))
    }

    // Puts what a question comes to.
    fn answer(&mut self, alloc: Global, step: &str, out: &mut String) {
        let scarce = step.strip_prefix("scarce ");
        let (word, text) = halves(scarce.unwrap_or(step));
        let Some(bytes) = self.bytes(alloc, text) else {
            put(out, "the old text is not there");
            return;
        };
        let texts = Texts {
            bytes,
            base: bytes_of(alloc, self.text.as_str(), ""),
            response: bytes_of(alloc, text, self.text.as_str()),
        };
        if scarce.is_some() {
            self.scarce(alloc, word, text, &texts, out);
        } else {
            self.answered(alloc, word, text, &texts, out);
        }
    }

    // Puts what a question comes to, where the join server and the device for tests may change.
    fn answered<'a>(
        &'a mut self,
        alloc: Global,
        word: &str,
        text: &str,
        texts: &'a Texts,
        out: &mut String,
    ) {
        match word {
            "reply" => devices::reply(alloc, &mut self.server, texts.bytes.as_slice(), out),
            "join_request" => devices::join_request(alloc, &self.device, text, out),
            "accept" => devices::accept(alloc, &mut self.device, text, out),
            _ => {
                let asked = asked(alloc, self.message.as_str(), self.transaction, texts);
                read(word, text, asked, texts, out);
            }
        }
    }

    // Puts what a question comes to without memory.
    fn scarce<'a>(
        &'a mut self,
        alloc: Global,
        word: &'a str,
        text: &str,
        texts: &'a Texts,
        out: &mut String,
    ) {
        let roster = Roster::read(alloc, texts.base.as_slice()).ok();
        let asked = asked(alloc, self.message.as_str(), self.transaction, texts);
        let bytes = texts.bytes.as_slice();
        let tried = Scarce::new(word, asked, bytes, ticket(text), roster.as_ref());
        scarce::outcome(&mut self.server, &tried, out);
    }
}

// What a join server is asked.
fn asked<'a>(alloc: Global, message: &'a str, transaction: u32, texts: &'a Texts) -> Asked<'a> {
    Asked {
        alloc,
        message,
        transaction,
        response: texts.response.as_slice(),
    }
}

// The bytes of a question's text, those of the last `text`, and those of a response: the last `text` behind the question's.
#[derive(Drop)]
struct Texts {
    bytes: Vec<u8>,
    base: Vec<u8>,
    response: Vec<u8>,
}

// Puts another text in the place of one.
fn replace(text: &mut String, with: &str) {
    text.clear();
    put(text, with);
}

// The bytes of hex digits; none where they are not that.
fn decoded(alloc: Global, digits: &str) -> Vec<u8> {
    match hex::decode(alloc, digits) {
        Ok(bytes) => bytes,
        Err(_) => Vec::new(alloc),
    }
}

// Puts what a question about a roster, a message or the status comes to.
fn read(word: &str, text: &str, asked: Asked<'_>, texts: &Texts, out: &mut String) {
    let (alloc, bytes, base) = (asked.alloc, texts.bytes.as_slice(), texts.base.as_slice());
    match word {
        "holds" => rosters::roster(alloc, bytes, out),
        "place" => rosters::place(alloc, bytes, out),
        "find" | "knows" | "question" => match Roster::read(alloc, base) {
            Ok(roster) => about(alloc, word, text, &roster, out),
            Err(_) => put(out, "no roster"),
        },
        "field" => rosters::field(alloc, base, text, out),
        "answer" => messages::answer(alloc, bytes, asked.transaction, out),
        "fronts" => messages::fronts(alloc, base, asked.transaction, out),
        "words" => words(out),
        "status" => status::texts(alloc, out),
        _ => exchanged(word, asked, bytes, out),
    }
}

// Puts what a question about a roster comes to.
fn about(alloc: Global, word: &str, text: &str, roster: &Roster, out: &mut String) {
    match word {
        "find" => rosters::found(alloc, roster, text, out),
        "knows" => rosters::known(roster, text, out),
        _ => messages::question(alloc, roster, &ticket(text), out),
    }
}

// Puts what a question about an exchange, a response or a request comes to.
fn exchanged(word: &str, asked: Asked<'_>, bytes: &[u8], out: &mut String) {
    match word {
        "host" => exchanges::host(bytes, out),
        "exchange" => exchanges::response(asked, out),
        "written" => exchanges::each(asked, Tries::Written, out),
        "ends" => exchanges::each(asked, Tries::Ends, out),
        "failed_reads" => exchanges::each(asked, Tries::FailedReads, out),
        "failed_writes" => exchanges::each(asked, Tries::FailedWrites, out),
        "plain" => exchanges::each(asked, Tries::Plain, out),
        "request" => exchanges::each(asked, Tries::Request, out),
        "counts" => exchanges::counts(asked, out),
        "decided" => exchanges::decided(asked, bytes.len(), out),
        _ => put(out, "no question"),
    }
}

// A word, and the text behind it.
fn halves(text: &str) -> (&str, &str) {
    text.split_once(" ").unwrap_or((text, ""))
}

// The Join-Request of a text in hex.
fn ticket(text: &str) -> Ticket {
    Ticket(hex_bytes::<23>(text).unwrap_or([0; 23]))
}

// Puts how want of memory is printed, of a roster, an answer and an exchange.
fn words(out: &mut String) {
    show(out, RosterFault::NoMemory);
    put(out, ", ");
    show(out, AnsFault::NoMemory);
    put(out, ", ");
    show(out, AskFault::NoMemory);
}
