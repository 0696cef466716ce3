//! Calls without memory: all of it is taken, and given back block by block before each further try until one is not refused.
//!
//! Several growths may pass with one block, so these show that a refusal is told as one and that the call is answered in the end, and not
//! each growth refused alone.

ghost use Rattle.std.specs.Prelude.{false, None};

use crate::joins::exchanges::Asked;
use crate::joins::messages::parts;
use crate::joins::rosters::put_roster;
use crate::put::put;
use ns_calls::JoinAns;
use ns_device::{ReplyFault, TestJoinServer};
use ns_exchange::{AnsFault, AskFault, HostName};
use ns_joinclient::ask;
use ns_joinwire::{join_ans, join_req};
use ns_roster::{Roster, RosterFault};
use ns_types::{BLOCKS, DevNonce, Failed, Sink, Source, Stream, Ticket, take_all};
use std::alloc::Global;

/// What is tried.
#[derive(Drop)]
pub struct Scarce<'a> {
    word: &'a str,
    asked: Asked<'a>,
    bytes: &'a [u8],
    ticket: Ticket,
    roster: Option<&'a Roster>,
}

impl<'a> Scarce<'a> {
    /// The try of a word, with a roster if there is one: `holds`, which reads a roster; `closing`, the text of a roster of one device whose
    /// last nonce is 6; `question`, what is asked about a Join-Request by the first device of a roster; `answer`, `exchange` and `reply`.
    pub fn new(
        word: &'a str,
        asked: Asked<'a>,
        bytes: &'a [u8],
        ticket: Ticket,
        roster: Option<&'a Roster>,
    ) -> Scarce<'a> {
        Scarce {
            word,
            asked,
            bytes,
            ticket,
            roster,
        }
    }
}

// What came of a try that was not refused memory.
#[derive(Drop)]
enum Done {
    Roster(Roster),
    Answer(JoinAns),
    Text(String),
    Fault,
}

// A stream that gives a response and lets go of what is written. It takes no memory, and does not tell its bytes.
#[derive(Drop)]
struct Peer<'a> {
    rest: &'a [u8],
}

impl Stream for Peer<'_> {
    ghost has_failed = { λ _. false };

    fn failed(&self) -> bool {
        false
    }
}

impl Source for Peer<'_> {
    ghost left = { λ _. None };

    fn read(&mut self, buf: &mut [u8]) -> Result<usize, Failed> {
        let n = buf.len().min(self.rest.len());
        let (front, rest) = self.rest.split_at(n);
        buf[..n].copy_from_slice(front);
        self.rest = rest;
        Ok(n)
    }
}

impl Sink for Peer<'_> {
    ghost taken = { λ _. None };

    fn write(&mut self, bytes: &[u8]) -> Result<usize, Failed> {
        Ok(bytes.len())
    }
}

// An exchange; None where it is refused memory.
fn exchange(asked: Asked<'_>) -> Option<Done> {
    let host = HostName::new("js.local")?;
    let mut peer = Peer {
        rest: asked.response,
    };
    match ask(
        asked.alloc,
        &mut peer,
        host,
        asked.message,
        asked.transaction,
    ) {
        Ok(answer) => Some(Done::Answer(answer)),
        Err(AskFault::NoMemory) => None,
        Err(_) => Some(Done::Fault),
    }
}

// The closing text of a roster of one device; None where it is refused memory.
fn closing(alloc: Global, roster: &Roster) -> Option<Done> {
    if roster.devices().len() != 1 {
        return Some(Done::Fault);
    }
    let text = roster.closing(alloc, &[Some(DevNonce(6))]).ok()?;
    Some(Done::Text(text))
}

// What the first device of a roster is asked about; None where that is refused memory.
fn question(alloc: Global, roster: &Roster, ticket: &Ticket) -> Option<Done> {
    for device in roster.devices() {
        let text = join_req(alloc, roster, device, ticket).ok()?;
        return Some(Done::Text(text));
    }
    Some(Done::Fault)
}

// Tries once; None where it is refused memory.
fn try_once(server: &mut TestJoinServer, tried: &Scarce<'_>) -> Option<Done> {
    let alloc = tried.asked.alloc;
    match tried.word {
        "holds" => match Roster::read(alloc, tried.bytes) {
            Ok(roster) => Some(Done::Roster(roster)),
            Err(RosterFault::NoMemory) => None,
            Err(_) => Some(Done::Fault),
        },
        "closing" => closing(alloc, tried.roster?),
        "question" => question(alloc, tried.roster?, &tried.ticket),
        "answer" => match join_ans(alloc, tried.bytes, tried.asked.transaction) {
            Ok(answer) => Some(Done::Answer(answer)),
            Err(AnsFault::NoMemory) => None,
            Err(_) => Some(Done::Fault),
        },
        "exchange" => exchange(tried.asked),
        "reply" => match server.reply(alloc, tried.bytes) {
            Ok(reply) => Some(Done::Text(reply)),
            Err(ReplyFault::NoMemory) => None,
            Err(_) => Some(Done::Fault),
        },
        _ => Some(Done::Fault),
    }
}

// Gives blocks back one by one, and tries behind each, until that is not refused memory. None where it is to the end.
fn behind_blocks(
    server: &mut TestJoinServer,
    tried: &Scarce<'_>,
    held: &mut Vec<Vec<u8>>,
) -> Option<Done> {
    for _ in 0..100_000u32 {
        held.pop()?;
        if let Some(done) = try_once(server, tried) {
            return Some(done);
        }
    }
    None
}

// Tries until it is not refused memory. None where it was not refused before, or is to the end.
fn until_done(server: &mut TestJoinServer, tried: &Scarce<'_>) -> Option<Done> {
    let mut held: Vec<Vec<u8>> = Vec::with_capacity(tried.asked.alloc, BLOCKS).ok()?;
    match take_all(tried.asked.alloc, &mut held) {
        Ok(()) if try_once(server, tried).is_none() => behind_blocks(server, tried, &mut held),
        _ => None,
    }
}

// Puts what came.
fn put_done(alloc: Global, done: &Done, out: &mut String) {
    match done {
        Done::Roster(roster) => put_roster(alloc, roster, out),
        Done::Answer(answer) => parts(alloc, answer, out),
        Done::Text(text) => put(out, text.as_str()),
        Done::Fault => put(out, "a fault"),
    }
}

/// Puts what comes of a try in the end, where it was refused memory before.
pub fn outcome(server: &mut TestJoinServer, tried: &Scarce<'_>, out: &mut String) {
    match until_done(server, tried) {
        Some(done) => {
            put(out, "refused, then ");
            put_done(tried.asked.alloc, &done, out);
        }
        None => put(out, "not refused"),
    }
}
