//! Step lines of many forms: long ones, and digits of every kind.

ghost use Rattle.std.specs.Prelude.{◌<◌};

use crate::counter_tests::JOINED;
use crate::written::{Run, is_written};
use ns_device::worked::{ANSWER, JOIN, ROSTER};
use std::alloc::{AllocError, Global};
use std::test::*;

// A `heard` line up to its Join-Request, and that up to the last byte of its MIC.
const HEAD: &[u8] = b"heard 010100000000000000a100000000000f424033be27a005fc4a004b17";

const REQUEST: &[u8] = b"0004030201040302010d000000000000000100010000";

// What comes of a line that is too short, and of one that is none.
const G1: &[u8] = b"refused G1";

const NO_LINE: &[u8] = b"refused line";

const DIGITS: &[u8; 22] = b"0123456789abcdefABCDEF";

// Which lines a run has.
#[derive(Clone, Copy)]
enum Lines {
    Pairs,
    Digits,
    Lengths,
}

// Whether a run of these lines writes what it is to write.
fn are_read(alloc: Global, lines: Lines) -> Result<bool, AllocError> {
    let mut run = Run::new(alloc, &[], "")?;
    let put = match lines {
        Lines::Pairs => pairs(&mut run),
        Lines::Digits => requests(&mut run),
        Lines::Lengths => lengths(&mut run, alloc),
    };
    put?;
    Ok(run.is_right(alloc))
}

// A Join-Request and its `answer` line of 64 KB, with a field that is not looked at.
fn long_answer(alloc: Global) -> Result<String, AllocError> {
    let (front, back) = ANSWER.split_once("{").unwrap_or((ANSWER, ""));
    let more = "0123456789".repeat(alloc, 6_554)?;
    format!(in alloc; "{JOIN}{front}{{\"more\":\"{more}\",{back}")
}

// Whether an answer of 64 KB is read in pieces of at most so many bytes.
fn is_read(alloc: Global, most: usize) -> Option<bool>
    requires { 0 < most }
{
    let long = long_answer(alloc).ok()?;
    let (steps, lines) = (long.as_bytes(), JOINED.as_bytes());
    is_written(alloc, ROSTER, false, steps, most, lines)
}

/// An answer of 64 KB, in small pieces and in large ones.
#[test]
fn an_answer_of_64_kb(rt: HostRuntime) {
    for most in [7usize, 1 << 20] {
        assert!(rt; is_read(rt.alloc(), most) == Some(true));
    }
}

// The line of two bytes behind a good pair: what it comes to tells whether they are digits.
fn pair(run: &mut Run, first: u8, second: u8) -> Result<(), AllocError> {
    run.step(&[b"heard a7", &[first, second]])?;
    let are_digits = first.is_ascii_hexdigit() && second.is_ascii_hexdigit();
    run.line(&[if are_digits { G1 } else { NO_LINE }])
}

// The lines of each two bytes. A line feed would end one.
fn pairs(run: &mut Run) -> Result<(), AllocError> {
    for first in 0..=255u8 {
        for second in 0..=255u8 {
            if first != b'\n' && second != b'\n' {
                pair(run, first, second)?;
            }
        }
    }
    Ok(())
}

#[test]
fn each_two_bytes(rt: HostRuntime) {
    assert!(rt; are_read(rt.alloc(), Lines::Pairs) == Ok(true));
}

// Two digits as the last byte of a Join-Request, whose ticket has them in lower case.
fn request(run: &mut Run, first: u8, second: u8) -> Result<(), AllocError> {
    let pair: &[u8] = &[first, second];
    run.step(&[HEAD, REQUEST, pair, b"\nlost ", REQUEST, pair])?;
    let lower: &[u8] = &[first.to_ascii_lowercase(), second.to_ascii_lowercase()];
    run.line(&[b"ask ", REQUEST, lower, b"\njoinrefused"])
}

// The lines of each two digits.
fn requests(run: &mut Run) -> Result<(), AllocError> {
    for first in DIGITS {
        for second in DIGITS {
            request(run, *first, *second)?;
        }
    }
    Ok(())
}

#[test]
fn each_two_digits(rt: HostRuntime) {
    assert!(rt; are_read(rt.alloc(), Lines::Digits) == Ok(true));
}

// What comes of a line of so many digits that begin with the right version and a wrong kind.
fn refused(count: u32) -> &'static [u8] {
    match count {
        0 => NO_LINE,
        _ if count % 2 == 1 => NO_LINE,
        1..=55 => G1,
        _ => b"refused G3",
    }
}

// The line of a text of so many digits, and of the same with a last byte that is none.
fn length(run: &mut Run, text: &[u8], count: u32) -> Result<(), AllocError> {
    run.step(&[b"heard ", text, b"\nheard ", text, b" "])?;
    run.line(&[refused(count), b"\n", NO_LINE])
}

// The lines of texts of up to 600 digits.
fn lengths(run: &mut Run, alloc: Global) -> Result<(), AllocError> {
    let mut text = Vec::new(alloc);
    for count in 0..600u32 {
        length(run, text.as_slice(), count)?;
        text.push(DIGITS[(count % 22) as usize])?;
    }
    Ok(())
}

#[test]
fn texts_of_up_to_599_digits(rt: HostRuntime) {
    assert!(rt; are_read(rt.alloc(), Lines::Lengths) == Ok(true));
}
