//! Step lines: the step that a line asks for.

ghost use Rattle.std.specs.Prelude.{◌≡◌, ◌<◌, ◌==◌, bytes_eq, codes, length, option_map, IfOk, IfSome, position};
ghost use Rattle.ns_acts.specs.Lent.{act_lent};
ghost use Rattle.ns_steps.specs.StepLines.{without_return, split_by, split_words, number, eui, ticket, datagram_step, answer_step, lost_step, later_round, counter, window, close_step, act, step};

use crate::hex_text::datagram;
use hex::FromHex;
use memchr::memchr;
use ns_acts::LentAct;
use ns_types::{DevEui, Ticket, WindowName};
use std::alloc::AllocError;

/// Where a byte first stands.
#[inline(always)]
pub fn place_of(byte: u8, text: &[u8]) -> Option<usize>
    ensures value { result ≡ position (λ b. b == byte) text.now }
    ensures within { IfSome result (λ i. i < length text.now) }
{
    memchr(byte, text)
}

// The line without one carriage return at its end.
#[tactic(auto, unfolding(crate::specs::StepLines::without_return))]
fn without_return(line: &[u8]) -> &[u8]
    ensures { result.now ≡ without_return line.now }
{
    if !line.is_empty() && line[line.len() - 1] == b'\r' {
        &line[..line.len() - 1]
    } else {
        line
    }
}

// Where a byte first stands in a short text: of a line of words each is found sooner so than by `memchr`.
fn place_near(byte: u8, text: &[u8]) -> Option<usize>
    ensures value { result ≡ position (λ b. b == byte) text.now }
    ensures within { IfSome result (λ i. i < length text.now) }
{
    text.iter().position(|b| *b == byte)
}

// The text before the first such byte and the text behind it.
#[tactic(auto, unfolding(crate::specs::StepLines::split_by))]
fn split_by(byte: u8, text: &[u8]) -> Option<(&[u8], &[u8])>
    ensures { option_map (λ p. (p.0.now, p.1.now)) result ≡ split_by byte text.now }
{
    match place_near(byte, text) {
        Some(at) => Some((&text[..at], &text[at + 1..])),
        None => None,
    }
}

// The text before the first space and the text behind it.
fn split_words(text: &[u8]) -> Option<(&[u8], &[u8])>
    ensures { option_map (λ p. (p.0.now, p.1.now)) result ≡ split_words text.now }
{
    split_by(b' ', text)
}

// The value of decimal digits.
#[tactic(auto, unfolding(crate::specs::StepLines::number))]
fn number(text: &[u8]) -> Option<u32>
    ensures { result ≡ number text.now }
{
    if text.is_empty() {
        return None;
    }
    let mut value = 0u64;
    'digits: for digit in text {
        if !digit.is_ascii_digit() {
            return None;
        }
        value = value * 10 + u64::from(*digit - b'0');
        if value > u64::from(u32::MAX) {
            return None;
        }
    }
    Some(value as u32)
}

// The device of 16 hex digits.
fn eui(text: &[u8]) -> Option<DevEui>
    ensures { result ≡ eui text.now }
{
    let bytes = <[u8; 8]>::from_hex(text).ok()?;
    Some(DevEui(u64::from_be_bytes(bytes)))
}

// The ticket of 46 hex digits.
fn ticket(text: &[u8]) -> Option<Ticket>
    ensures { result ≡ ticket text.now }
{
    let bytes = <[u8; 23]>::from_hex(text).ok()?;
    Some(Ticket(bytes))
}

// The step of the text behind `heard`, with room for its bytes.
#[tactic(auto, unfolding(crate::specs::StepLines::datagram_step))]
fn datagram_step<'a>(room: &'a mut Vec<u8>, text: &[u8]) -> Result<Option<LentAct<'a>>, AllocError>
    ensures { IfOk result (λ a. option_map act_lent a ≡ datagram_step text.now) }
{
    match datagram(room, text)? {
        Some(bytes) if !bytes.is_empty() => Ok(Some(LentAct::Datagram(bytes))),
        _ => Ok(None),
    }
}

// The step of the text behind `answer`.
#[tactic(auto, unfolding(crate::specs::StepLines::answer_step))]
#[inline(never)]
fn answer_step(text: &[u8]) -> Option<LentAct<'_>>
    ensures { option_map act_lent result ≡ answer_step text.now }
{
    let (word, body) = split_words(text)?;
    Some(LentAct::Answer {
        ticket: ticket(word)?,
        body,
    })
}

// The step of the text behind `lost`.
#[tactic(auto, unfolding(crate::specs::StepLines::lost_step))]
#[inline(never)]
fn lost_step(text: &[u8]) -> Option<LentAct<'_>>
    ensures { option_map act_lent result ≡ lost_step text.now }
{
    Some(LentAct::Lost {
        ticket: ticket(text)?,
    })
}

// A round above 1.
#[tactic(auto, unfolding(crate::specs::StepLines::later_round))]
fn later_round(text: &[u8]) -> Option<u32>
    ensures { result ≡ later_round text.now }
{
    let round = number(text)?;
    if round > 1 { Some(round) } else { None }
}

// A counter with its round, which is 1 where no colon follows.
#[tactic(auto, unfolding(crate::specs::StepLines::counter))]
fn counter(text: &[u8]) -> Option<(u32, u32)>
    ensures { result ≡ counter text.now }
{
    match split_by(b':', text) {
        Some((fcnt, round)) => Some((number(fcnt)?, later_round(round)?)),
        None => Some((number(text)?, 1)),
    }
}

// The window of a device, by its session and counter.
#[tactic(auto, unfolding(crate::specs::StepLines::window))]
fn window(eui: DevEui, text: &[u8]) -> Option<WindowName>
    ensures { result ≡ window eui text.now }
{
    let (session, text) = split_words(text)?;
    let session = number(session)?;
    let (fcnt, round) = counter(text)?;
    Some(WindowName {
        eui,
        session,
        fcnt,
        round,
    })
}

// The step of the text behind `close`.
#[tactic(auto, unfolding(crate::specs::StepLines::close_step))]
#[inline(never)]
fn close_step(text: &[u8]) -> Option<LentAct<'_>>
    ensures { option_map act_lent result ≡ close_step text.now }
{
    let (device, text) = split_words(text)?;
    Some(LentAct::Close(window(eui(device)?, text)?))
}

// Whether a word is `heard`. Each of its bytes is looked at: `==` of slices takes ten times as long for so short ones.
fn is_heard(word: &[u8]) -> bool
    ensures { result ≡ bytes_eq word.now (codes "heard") }
{
    matches!(word, [b'h', b'e', b'a', b'r', b'd'])
}

// Whether a word is `close`.
fn is_close(word: &[u8]) -> bool
    ensures { result ≡ bytes_eq word.now (codes "close") }
{
    matches!(word, [b'c', b'l', b'o', b's', b'e'])
}

// The step that a first word asks for, with the text behind it. Most lines are of datagrams: the other steps stay functions of their own, so
// that a datagram makes no room for them.
#[tactic(auto, unfolding(crate::specs::StepLines::act))]
fn act<'a>(
    room: &'a mut Vec<u8>,
    word: &[u8],
    text: &'a [u8],
) -> Result<Option<LentAct<'a>>, AllocError>
    ensures { IfOk result (λ a. option_map act_lent a ≡ act word.now text.now) }
{
    if is_heard(word) {
        datagram_step(room, text)
    } else if word == b"answer".as_slice() {
        Ok(answer_step(text))
    } else if word == b"lost".as_slice() {
        Ok(lost_step(text))
    } else if is_close(word) {
        Ok(close_step(text))
    } else {
        Ok(None)
    }
}

/// The step that a line asks for, where it is a step line: a datagram is lent from `room`, which grows where it is too short, and an answer's
/// body from the line. `NoMemory` (`AllocError`) where that growth was refused.
#[tactic(auto, unfolding(crate::specs::StepLines::step))]
#[inline(always)]
pub fn step<'a>(room: &'a mut Vec<u8>, line: &'a [u8]) -> Result<Option<LentAct<'a>>, AllocError>
    ensures { IfOk result (λ a. option_map act_lent a ≡ step line.now) }
{
    match split_words(without_return(line)) {
        Some((word, text)) => act(room, word, text),
        None => Ok(None),
    }
}
