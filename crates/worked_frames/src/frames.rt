//! Asks what a text asks of the crates for frames, from AES to the device for tests, and puts the title of each case. Where the answers are
//! not those of the text, it puts both.
//!
//! `# TITLE` begins a case, and of the lines behind it
//!
//! - `with NAME VALUE ..` gives values for all lines that ask, up to the next such line;
//! - `> WHAT NAME VALUE ..` asks;
//! - `= ..` is an answer that is to come;
//! - any other is a word to the reader.
//!
//! Above each function that answers stand the names that it reads. Bytes, keys, DevAddrs, EUIs and gateways are hex, `-` or no value is
//! no byte, and `5a*242` is 242 bytes 5a; other numbers are decimal, and one that is not named is 0 or none. A device and copies of a
//! frame stay to the end of a case.

mod answers;
mod ask;
mod ciphers;
mod created;
mod datagrams;
mod devices;
mod mics;
mod names;
mod streams;
mod variants;
mod views;

use crate::frames::answers::Answers;
use crate::frames::ask::Ask;
use crate::put::put_line;
use ns_device::TestDevice;
use ns_types::Heard;
use std::alloc::Global;

// What a line asks.
#[derive(Clone, Copy)]
enum Question {
    Device,
    Accept,
    Uplink,
    Best,
    Aes,
    Cmac,
    Read,
    Parts,
    Fronts,
    Changes,
    Data,
    Acknowledgement,
    EachLength,
    JoinRequest,
    JoinAccept,
    Send,
    Pull,
    Address,
    Window,
    Ticket,
    Rx1,
    Source,
    Sink,
    OverStd,
    StdFails,
    Mic,
    Fits,
    Cipher,
    Decipher,
    SessionKeys,
    JoinMic,
    AcceptCipher,
    Counter,
}

// The questions, each by the word that asks it, and with the name of its bytes.
const QUESTIONS: &[(&str, Question, &str)] = &[
    ("device", Question::Device, ""),
    ("accept", Question::Accept, "frame"),
    ("uplink", Question::Uplink, "payload"),
    ("copy", Question::Best, ""),
    ("aes", Question::Aes, ""),
    ("cmac", Question::Cmac, "message"),
    ("read", Question::Read, "bytes"),
    ("parts", Question::Parts, "bytes"),
    ("fronts", Question::Fronts, "bytes"),
    ("changes", Question::Changes, "bytes"),
    ("data", Question::Data, "room"),
    ("acknowledgement", Question::Acknowledgement, "room"),
    ("each_length", Question::EachLength, ""),
    ("join_request", Question::JoinRequest, "room"),
    ("join_accept", Question::JoinAccept, "room"),
    ("send", Question::Send, "frame"),
    ("pull_resp", Question::Pull, "frame"),
    ("address", Question::Address, ""),
    ("window", Question::Window, ""),
    ("ticket", Question::Ticket, ""),
    ("rx1", Question::Rx1, ""),
    ("source", Question::Source, "bytes"),
    ("sink", Question::Sink, "bytes"),
    ("std", Question::OverStd, "bytes"),
    ("std_fails", Question::StdFails, ""),
    ("mic", Question::Mic, "signed"),
    ("fits", Question::Fits, "frame"),
    ("cipher", Question::Cipher, "payload"),
    ("decipher", Question::Decipher, "frame"),
    ("session_keys", Question::SessionKeys, ""),
    ("join_mic", Question::JoinMic, "signed"),
    ("accept_cipher", Question::AcceptCipher, ""),
    ("counter", Question::Counter, ""),
];

// The question that a word asks, and the name of its bytes.
fn question_of(what: &str) -> Option<(Question, &'static str)> {
    for (word, question, name) in QUESTIONS {
        if *word == what {
            return Some((*question, *name));
        }
    }
    None
}

// Puts the answer to a line that asks, where a device and copies of a frame may change.
fn answer(ask: Ask, device: &mut TestDevice, copies: &mut Vec<Heard>, out: &mut Answers) {
    match question_of(ask.what()) {
        Some((Question::Device, _)) => devices::new(ask, device, out),
        Some((Question::Best, _)) => names::copy(ask, copies, out),
        Some((question, name)) => {
            let mut room = [0; 256];
            let bytes = ask.bytes(name, &mut room);
            match question {
                Question::Accept => devices::accept(ask, bytes, device, out),
                Question::Uplink => devices::uplink(ask, bytes, device, out),
                _ => answer_about(question, ask, bytes, out),
            }
        }
        None => out.word("?"),
    }
}

// Puts the answer to a question about bytes.
fn answer_about(question: Question, ask: Ask, bytes: &mut [u8], out: &mut Answers) {
    match question {
        Question::Cmac => ciphers::cmac(ask, bytes, out),
        Question::Read => variants::read(ask, bytes, out),
        Question::Parts => views::parts(bytes, out),
        Question::Fronts => variants::fronts(ask, bytes, out),
        Question::Changes => variants::changes(ask, bytes, out),
        Question::Data => created::data(ask, bytes, out),
        Question::Acknowledgement => created::acknowledgement(ask, bytes, out),
        Question::JoinRequest => created::join_request(ask, bytes, out),
        Question::JoinAccept => created::join_accept(ask, bytes, out),
        Question::Send => datagrams::send(ask, bytes, out),
        Question::Pull => datagrams::pull_resp(ask, bytes, out),
        Question::Source => streams::read(ask, bytes, out),
        Question::Sink => streams::write(ask, bytes, out),
        Question::OverStd => streams::over_std(ask, bytes, out),
        Question::Mic => mics::mic(ask, bytes, out),
        Question::Fits => mics::fits(ask, bytes, out),
        Question::Cipher => mics::cipher(ask, bytes, out),
        Question::Decipher => mics::decipher(ask, bytes, out),
        Question::JoinMic => mics::join_mic(ask, bytes, out),
        _ => answer_to(question, ask, out),
    }
}

// Puts the answer to another question.
fn answer_to(question: Question, ask: Ask, out: &mut Answers) {
    match question {
        Question::Aes => ciphers::aes(ask, out),
        Question::EachLength => created::each_length(ask, out),
        Question::Address => names::address(ask, out),
        Question::Window => names::window(ask, out),
        Question::Ticket => names::ticket(ask, out),
        Question::Rx1 => names::first_window(ask, out),
        Question::StdFails => streams::fails(ask, out),
        Question::SessionKeys => mics::session(ask, out),
        Question::AcceptCipher => mics::accept_cipher(ask, out),
        Question::Counter => mics::counter(ask, out),
        _ => {}
    }
}

// The case at hand: what its lines have named, and its answers; and what is reported so far.
#[derive(Drop)]
struct Case {
    given: Answers,
    device: TestDevice,
    copies: Vec<Heard>,
    found: Answers,
    wanted: Answers,
    report: Answers,
}

impl Case {
    // No line, a device of zeros, and nothing reported.
    fn new(alloc: Global) -> Case {
        Case {
            given: Answers::new(alloc),
            device: devices::device(Ask::new("", "")),
            copies: Vec::new(alloc),
            found: Answers::new(alloc),
            wanted: Answers::new(alloc),
            report: Answers::new(alloc),
        }
    }

    // Takes a line of a case, or the title of the next one.
    fn add(&mut self, line: &str) {
        if let Some(words) = line.strip_prefix("> ") {
            self.found.begin("=");
            let ask = Ask::new(words, self.given.text());
            answer(ask, &mut self.device, &mut self.copies, &mut self.found);
        } else if line.starts_with("=") {
            self.wanted.begin(line);
        } else if line.starts_with("with ") {
            self.given.clear();
            self.given.begin(line);
        } else if let Some(title) = line.strip_prefix("# ") {
            self.end();
            self.report.begin(title);
        }
    }

    // Ends a case, and reports its answers where they are not those that were to come.
    fn end(&mut self) {
        if self.found.text() != self.wanted.text() {
            self.report.begin("differs. Found:");
            self.report.words_of(&self.found);
            self.report.begin("Wanted:");
            self.report.words_of(&self.wanted);
        }
        self.given.clear();
        self.device = devices::device(Ask::new("", ""));
        self.copies.clear();
        self.found.clear();
        self.wanted.clear();
    }
}

/// Puts the titles of the cases of these lines.
pub fn make(alloc: Global, lines: &[&str], out: &mut String) {
    let mut case = Case::new(alloc);
    for line in lines {
        case.add(line);
    }
    case.end();
    put_line(out, case.report.text());
}
