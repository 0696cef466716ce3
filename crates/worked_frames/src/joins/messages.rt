//! The texts of joins: what a join server is asked, and what its answer says.

use crate::joins::runs::Runs;
use crate::put::{put, put_hex, put_made, show};
use ns_calls::JoinAns;
use ns_exchange::AnsFault;
use ns_joinwire::{join_ans, join_req};
use ns_roster::Roster;
use ns_types::Ticket;
use std::alloc::Global;
use std::str;

/// Puts the Join-Accept, NwkSKey and AppSKey of an answer in hex, and a dash where it has no AppSKey.
pub fn parts(alloc: Global, answer: &JoinAns, out: &mut String) {
    put_hex(alloc, out, answer.accept.as_slice());
    put(out, " ");
    put_hex(alloc, out, &answer.nwk.0);
    put(out, " ");
    match &answer.app {
        Some(app) => put_hex(alloc, out, &app.0),
        None => put(out, "-"),
    }
}

/// Puts what a text answers to a transaction: its parts, or its first fault, with the ResultCode of a refusal.
pub fn answer(alloc: Global, text: &[u8], transaction: u32, out: &mut String) {
    match join_ans(alloc, text, transaction) {
        Ok(answer) => parts(alloc, &answer, out),
        Err(fault) => put_fault(fault, out),
    }
}

// Puts the fault of an answer, with the ResultCode of a refusal.
fn put_fault(fault: AnsFault, out: &mut String) {
    show(out, fault);
    if let AnsFault::Refused(code) = fault {
        put(out, " ");
        put(out, str::from_utf8(code.as_bytes()).unwrap_or("no text"));
    }
}

/// Puts what each front of a text answers to a transaction that is not the whole text.
pub fn fronts(alloc: Global, text: &[u8], transaction: u32, out: &mut String) {
    let mut runs = Runs::new(alloc);
    for end in 0..text.len() {
        let mut answered = String::new(alloc);
        answer(alloc, &text[..end], transaction, &mut answered);
        runs.add(answered);
    }
    runs.end();
    put(out, runs.lines());
}

/// Puts what is asked about a Join-Request, by the first device of a roster.
pub fn question(alloc: Global, roster: &Roster, ticket: &Ticket, out: &mut String) {
    for device in roster.devices() {
        put_made(out, join_req(alloc, roster, device, ticket));
        return;
    }
    put(out, "no device");
}
