//! Reading line by line.

ghost use Rattle.std.specs.Prelude.{◌≡◌, ◌+◌, ◌≤◌, ◌++◌, false, length, take, OnOk, IfOk};
ghost use Rattle.std.specs.Io.KnownBytes.{Consumes};
ghost use Rattle.ns_lines.specs.Text.{has_line_feed};
ghost use Rattle.ns_resume.specs.Resumed.{IsAllOf};
ghost use Rattle.ns_resume.specs.Private.Lines.{IsPart, feed_of};

use memchr::memchr;
use std::io;
use std::io::BufRead;

// How many bytes stand before the first line feed, and whether there is one.
fn before_feed(shown: &[u8]) -> (usize, bool)
    ensures within { result.0 + length (feed_of result.1) ≤ length shown.now }
    ensures no_feed { has_line_feed (take result.0 shown.now) ≡ false }
    ensures feed { take (result.0 + length (feed_of result.1)) shown.now ≡ take result.0 shown.now ++ feed_of result.1 }
{
    match memchr(b'\n', shown) {
        Some(at) => (at, true),
        None => (shown.len(), false),
    }
}

// Reads of a line what the source has at hand. Tells how the line ended, where it did: with a line feed, or with the source.
fn read_part<S: BufRead>(source: &mut S, line: &mut Vec<u8>) -> Result<Option<bool>, io::Error>
    ensures { IfOk result (IsPart (S.remaining source.old) (S.remaining source.new) line.old.items line.new.items) }
{
    let shown = match source.fill_buf() {
        Ok(shown) => shown,
        Err(e) => {
            return if e.kind() == io::ErrorKind::Interrupted {
                Ok(None)
            } else {
                Err(e)
            };
        }
    };
    if shown.is_empty() {
        return Ok(Some(false));
    }
    let (len, is_whole) = before_feed(shown);
    line.extend_from_slice(&shown[..len])?;
    source.consume(len + usize::from(is_whole));
    Ok(if is_whole { Some(true) } else { None })
}

/// Reads the next line without its line feed, and tells whether it has one: what stands behind the last one has none. The bytes are
/// looked at many at a time, which `BufRead::read_until` does not do.
pub fn read_line<S: BufRead>(source: &mut S, line: &mut Vec<u8>) -> Result<bool, io::Error>
    ensures bytes { IfOk result (λ whole. Consumes (S.remaining source.old) (S.remaining source.new) (line.new.items ++ feed_of whole)) }
    ensures feed { OnOk result (has_line_feed line.new.items ≡ false) }
    ensures ended { IfOk result (λ whole. whole ≡ false → IsAllOf (S.remaining source.old) line.new.items) }
{
    line.clear();
    'parts: for _ in 0..u64::MAX {
        if let Some(is_whole) = read_part(source, line)? {
            return Ok(is_whole);
        }
    }
    Err(io::ErrorKind::TimedOut.into())
}
