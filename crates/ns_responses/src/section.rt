//! The end of a section of lines: of a head, or of the trailers.

ghost use Rattle.std.specs.Prelude.{◌≡◌, ◌≤◌, ◌<◌, ◌==◌, ◌&&◌, ◌||◌, not, ◌++◌, ℕ, List, [], None, false, is_err, length, IfOk, IfSome, IfNone};
ghost use Rattle.std.specs.Io.KnownBytes.{Consumes};
ghost use Rattle.ns_responses.specs.Held.{unready};
ghost use Rattle.ns_responses.specs.Lines.{section_length, section_of};
ghost use Rattle.ns_responses.specs.Finding.{IsSearchOf, EndsSection, HasSection, FindsSection};

use crate::held::{Held, ROOM};
use ns_types::{Failed, Source};

// Whether a line has text behind a byte: CR is none, and LF ends the line.
fn has_text_behind(has_text: bool, byte: u8) -> bool
    ensures { result ≡ (not (byte == 10) && (has_text || not (byte == 13))) }
{
    byte != b'\n' && (has_text || byte != b'\r')
}

/// How far some bytes were looked at for an empty line, each once.
#[derive(Clone, Copy)]
pub(crate) struct Search {
    // How many were.
    at: usize,
    // Whether the line that they end in has text.
    has_text: bool,
}

impl Search {
    /// No byte yet.
    pub fn new() -> Self
        ensures { IsSearchOf result [] }
    {
        Search {
            at: 0,
            has_text: false,
        }
    }

    /// Looks at the bytes that came, up to the end of the first empty line.
    pub fn end_in(&mut self, bytes: &[u8]) -> Option<usize>
        requires { IsSearchOf self.old bytes.now }
        ensures end { IfSome result (EndsSection bytes.now) }
        ensures none { IfNone result (section_length false bytes.now ≡ None) }
        ensures searched { IfNone result (IsSearchOf self.new bytes.now) }
    {
        while self.at < bytes.len() {
            let byte = bytes[self.at];
            self.at += 1;
            if byte == b'\n' && !self.has_text {
                return Some(self.at);
            }
            self.has_text = has_text_behind(self.has_text, byte);
        }
        None
    }
}

// What the bytes say of a section at their front that begins with a text: its length, or None where none stands there,
// if that is known whatever follows them.
fn section_in(search: &mut Search, bytes: &[u8], text: &[u8]) -> Option<Option<usize>>
    requires searched { IsSearchOf search.old bytes.now }
    requires short { (length text.now ≤ 4096) × (length bytes.now ≤ 4096) }
    ensures known { IfSome result (HasSection text.now bytes.now) }
    ensures searched { IfNone result (IsSearchOf search.new bytes.now) }
    ensures none { IfNone result (section_of text.now bytes.now ≡ None) }
    ensures room { IfNone result (length bytes.now < 4096) }
{
    if bytes.len() < text.len() {
        return None;
    }
    if !bytes.starts_with(text) {
        return Some(None);
    }
    match search.end_in(bytes) {
        Some(end) => Some(Some(end)),
        None if bytes.len() >= ROOM => Some(None),
        None => None,
    }
}

/// Reads until the unread bytes hold a section that begins with a text, and gives its length; or None where they come to
/// hold none.
pub(crate) fn read_section<S: Source>(
    held: &mut Held,
    source: &mut S,
    text: &[u8],
) -> Result<Option<usize>, Failed>
    requires sound { S.Stream.has_failed source.old ≡ false }
    requires unready { held.old.ready ≡ [] }
    requires short { length text.now ≤ 4096 }
    ensures read { (piece : List ℕ) × (held.new ≡ unready (held.old.unread ++ piece))
        × Consumes (S.left source.old) (S.left source.new) piece }
    ensures found { IfOk result (FindsSection text.now held.new.unread (S.left source.new)) }
    ensures failed { S.Stream.has_failed source.new ≡ is_err result }
{
    let mut search = Search::new();
    loop {
        if let Some(found) = section_in(&mut search, held.unread(), text) {
            return Ok(found);
        }
        if held.fill(source, ROOM)? == 0 {
            return Ok(None);
        }
    }
}
