//! Exchanges with a join server over memory: each is answered the same however the response is cut, and a stream that ends or fails is
//! told at each of its calls. The plain form of responses, and requests for the status, in pieces of each size.

ghost use Rattle.std.specs.Prelude.{◌≡◌, ◌<◌, false};

use crate::joins::messages::parts;
use crate::joins::runs::Runs;
use crate::joins::status::request;
use crate::put::{put, put_made, put_number, show};
use ns_exchange::HostName;
use ns_joinclient::ask;
use ns_responses::Responses;
use ns_types::{Fuse, Stream, read_all};
use std::alloc::Global;
use std::fmt::Write;
use std::str;

// More bytes than any exchange has.
const WHOLE: usize = 1 << 20;

/// What a join server is asked, and the response.
#[derive(Clone, Copy)]
pub struct Asked<'a> {
    pub alloc: Global,
    pub message: &'a str,
    pub transaction: u32,
    pub response: &'a [u8],
}

// Puts what an exchange over a stream comes to: the parts of the answer, or the first fault.
fn outcome(asked: Asked<'_>, stream: &mut Fuse, out: &mut String)
    requires { stream.old.failed ≡ false }
{
    if let Some(host) = HostName::new("js.local") {
        match ask(asked.alloc, stream, host, asked.message, asked.transaction) {
            Ok(answer) => parts(asked.alloc, &answer, out),
            Err(fault) => show(out, fault),
        }
    }
}

// What an exchange comes to where a read or a write moves at most so many bytes, and the read or the write behind so many of them fails.
fn exchange(asked: Asked<'_>, most: usize, reads: Option<u64>, writes: Option<u64>) -> String
    requires { 0 < most }
{
    let mut out = String::new(asked.alloc);
    if let Ok(input) = Vec::from_slice(asked.alloc, asked.response) {
        let mut stream = Fuse::new(asked.alloc, input, most, reads, writes);
        outcome(asked, &mut stream, &mut out);
    }
    out
}

// What a response is answered, where a read moves at most so many bytes.
fn answered(asked: Asked<'_>, most: usize) -> String
    requires { 0 < most }
{
    exchange(asked, most, None, None)
}

// Whether a response is tried in pieces of so many bytes: a long one in one other size than one byte, a short one in all up to 400.
fn is_size_tried(response: &[u8], most: usize) -> bool {
    most == 1 || response.len() <= 1000 || most == 57
}

/// Puts what a response is answered that comes whole; and what it is answered in pieces of another size, where that differs.
pub fn response(asked: Asked<'_>, out: &mut String) {
    let whole = answered(asked, WHOLE);
    put(out, whole.as_str());
    for most in 1..=asked.response.len().min(400) {
        if is_size_tried(asked.response, most) {
            let pieces = answered(asked, most);
            if pieces.as_str() != whole.as_str() {
                put_number(out, ", and by ", most, " bytes ");
                put(out, pieces.as_str());
            }
        }
    }
}

/// Puts the name, where it is one of a host.
pub fn host(name: &[u8], out: &mut String) {
    match HostName::new(str::from_utf8(name).unwrap_or("")) {
        Some(host) => put(out, host.as_str()),
        None => put(out, "no host"),
    }
}

// What an exchange in pieces of one, of seven or of many bytes comes to, and what it writes.
fn written_by(asked: Asked<'_>, at: usize) -> String {
    let most = match at {
        0 => 1,
        1 => 7,
        _ => WHOLE,
    };
    let mut out = String::new(asked.alloc);
    if let Ok(input) = Vec::from_slice(asked.alloc, asked.response) {
        let mut stream = Fuse::new(asked.alloc, input, most, None, None);
        outcome(asked, &mut stream, &mut out);
        put(&mut out, " ");
        put_made(
            &mut out,
            String::from_utf8_lossy(asked.alloc, stream.written()),
        );
    }
    out
}

// What the front of a response is answered whole; and what it is answered one byte a read, where that differs.
fn both(mut asked: Asked<'_>, end: usize) -> String {
    asked.response = asked.response.get(..end).unwrap_or(asked.response);
    let mut whole = answered(asked, WHOLE);
    let pieces = answered(asked, 1);
    if whole.as_str() != pieces.as_str() {
        put(&mut whole, ", and by one byte ");
        put(&mut whole, pieces.as_str());
    }
    whole
}

// The plain form of a response, or a request for the status, where a read moves at most so many bytes; or the fault.
fn in_pieces(asked: Asked<'_>, is_request: bool, most: usize) -> String
    requires { 0 < most }
{
    let mut out = String::new(asked.alloc);
    if let Ok(input) = Vec::from_slice(asked.alloc, asked.response) {
        let mut stream = Fuse::new(asked.alloc, input, most, None, None);
        if is_request {
            request(&mut stream, &mut out);
        } else {
            plain(asked.alloc, stream, &mut out);
        }
    }
    out
}

// Puts the plain form of a stream's response, or the fault.
fn plain(alloc: Global, stream: Fuse, out: &mut String)
    requires { stream.failed ≡ false }
{
    match read_all(alloc, &mut Responses::new(stream)) {
        Ok(bytes) => {
            let text = str::from_utf8(bytes.as_slice()).unwrap_or("no text");
            let _ = write!(out, "{text:?}");
        }
        Err(fault) => {
            let _ = write!(out, "{fault:?}");
        }
    }
}

/// What is tried of exchanges.
#[derive(Clone, Copy)]
pub enum Tries {
    /// What pieces of one, of seven and of many bytes come to and write.
    Written,
    /// A response that ends too early, at each place in turn, whole and one byte a read.
    Ends,
    /// Streams of which a read fails, each in turn where one byte is read at once, and then the one behind them.
    FailedReads,
    /// Streams of which the first write fails, and of which the second one does.
    FailedWrites,
    /// The plain form of a response, in pieces of each size.
    Plain,
    /// A request for the status, in pieces of 1 to 39 bytes.
    Request,
}

// How many tries there are of a response of so many bytes.
fn count_of(tries: Tries, len: usize) -> usize {
    match tries {
        Tries::Written => 3,
        Tries::Ends => len,
        Tries::FailedReads => len.saturating_add(1),
        Tries::FailedWrites => 2,
        Tries::Plain => len.saturating_add(1),
        Tries::Request => 39,
    }
}

// What the try at a place comes to.
fn tried(asked: Asked<'_>, tries: Tries, at: usize) -> String {
    match tries {
        Tries::Written => written_by(asked, at),
        Tries::Ends => both(asked, at),
        Tries::FailedReads => exchange(asked, 1, Some(at as u64), None),
        Tries::FailedWrites => exchange(asked, WHOLE, None, Some(at as u64)),
        Tries::Plain => in_pieces(asked, false, at.saturating_add(1)),
        Tries::Request => in_pieces(asked, true, at.saturating_add(1)),
    }
}

/// Puts what each of these tries comes to.
pub fn each(asked: Asked<'_>, tries: Tries, out: &mut String) {
    let mut runs = Runs::new(asked.alloc);
    for at in 0..count_of(tries, asked.response.len()) {
        runs.add(tried(asked, tries, at));
    }
    runs.end();
    put(out, runs.lines());
}

/// Puts what a response is answered one byte a read where the read behind so many of its bytes fails.
pub fn decided(asked: Asked<'_>, reads: usize, out: &mut String) {
    let answered = exchange(asked, 1, Some(reads as u64), None);
    put(out, answered.as_str());
}

// Whether an exchange comes to the read, or the write, behind so many, which fails.
fn comes_to(asked: Asked<'_>, most: usize, is_write: bool, calls: u64) -> bool
    requires { 0 < most }
{
    let mut out = String::new(asked.alloc);
    let (reads, writes) = if is_write {
        (None, Some(calls))
    } else {
        (Some(calls), None)
    };
    let Ok(input) = Vec::from_slice(asked.alloc, asked.response) else {
        return false;
    };
    let mut stream = Fuse::new(asked.alloc, input, most, reads, writes);
    outcome(asked, &mut stream, &mut out);
    stream.failed()
}

// How many reads, or writes, an exchange makes, of 32,767 at most: bit by bit, the greatest number of which the last is made.
fn count(asked: Asked<'_>, most: usize, is_write: bool) -> u64
    requires { 0 < most }
{
    let mut count = 0u64;
    for bit in [
        1u64 << 14,
        1 << 13,
        1 << 12,
        1 << 11,
        1 << 10,
        512,
        256,
        128,
        64,
        32,
        16,
        8,
        4,
        2,
        1,
    ] {
        let more = count.wrapping_add(bit);
        if comes_to(asked, most, is_write, more.wrapping_sub(1)) {
            count = more;
        }
    }
    count
}

/// Puts how many reads and writes an exchange makes one byte a call, and how many it makes of many bytes.
pub fn counts(asked: Asked<'_>, out: &mut String) {
    let (reads, writes) = (count(asked, 1, false), count(asked, 1, true));
    let _ = write!(out, "{reads} reads and {writes} writes of a byte, ");
    let (reads, writes) = (count(asked, WHOLE, false), count(asked, WHOLE, true));
    let _ = write!(out, "{reads} and {writes} of many");
}

/// Puts what a response answers to an empty message of transaction 1, whole and one byte a read.
pub fn twice(alloc: Global, response: &[u8], out: &mut String) {
    let asked = Asked {
        alloc,
        message: "{}",
        transaction: 1,
        response,
    };
    put(out, answered(asked, WHOLE).as_str());
    put(out, ", ");
    put(out, answered(asked, 1).as_str());
}
