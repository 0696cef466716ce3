//! The lines of a head that frame its body.

ghost use Rattle.std.specs.Prelude.{◌≡◌, ◌≤◌, ◌<◌, ◌∷◌, ◌++◌, length, take, drop, slice_range, is_some, IfSome};
ghost use Rattle.std.specs.List.{list_all};
ghost use Rattle.ns_responses.specs.Lines.{lines_of};
ghost use Rattle.ns_responses.specs.Head.{begins_with, is_transfer_encoding, is_framing, is_blank, is_chunked_text, is_chunked, is_chunked_head, unframed};
ghost use Rattle.ns_responses.specs.Framing.{IsFraming};

use httparse::is_space_or_tab;

const TRANSFER_ENCODING: &[u8] = b"Transfer-Encoding:";

const CONTENT_LENGTH: &[u8] = b"Content-Length:";

const CHUNKED: &[u8] = b"chunked";

// Whether a line begins with a text, in either case.
fn begins_with(text: &[u8], line: &[u8]) -> bool
    ensures { result ≡ begins_with text.now line.now }
{
    line[..text.len().min(line.len())].eq_ignore_ascii_case(text)
}

// Whether a line is a Transfer-Encoding.
fn is_transfer_encoding(line: &[u8]) -> bool
    ensures { result ≡ is_transfer_encoding line.now }
{
    begins_with(TRANSFER_ENCODING, line)
}

// Whether a line is of a field that frames the body.
fn is_framing(line: &[u8]) -> bool
    ensures { result ≡ is_framing line.now }
{
    is_transfer_encoding(line) || begins_with(CONTENT_LENGTH, line)
}

// Whether bytes are white space or the end of a line.
fn is_blank(text: &[u8]) -> bool
    ensures { result ≡ list_all is_blank text.now }
{
    for byte in text {
        if !is_space_or_tab(*byte) && *byte != b'\r' && *byte != b'\n' {
            return false;
        }
    }
    true
}

// Whether a text is `chunked` with white space around it.
fn is_chunked_text(text: &[u8]) -> bool
    ensures { result ≡ is_chunked_text text.now }
{
    let mut rest = text;
    while let [first, behind @ ..] = rest
        && is_space_or_tab(*first)
    {
        rest = behind;
    }
    begins_with(CHUNKED, rest) && is_blank(&rest[CHUNKED.len().min(rest.len())..])
}

// Whether a line is a Transfer-Encoding that names the one coding `chunked`.
fn is_chunked(line: &[u8]) -> bool
    ensures { result ≡ is_chunked line.now }
{
    is_transfer_encoding(line) && is_chunked_text(&line[TRANSFER_ENCODING.len().min(line.len())..])
}

// The length of the first line.
fn line_length(bytes: &[u8]) -> usize
    requires { 0 < length bytes.now }
    ensures some { 0 < result }
    ensures within { result ≤ length bytes.now }
    ensures line { lines_of bytes.now ≡ take result bytes.now ∷ lines_of (drop result bytes.now) }
{
    for i in 0..bytes.len() {
        if bytes[i] == b'\n' {
            return i + 1;
        }
    }
    bytes.len()
}

/// Where a line stands among some bytes.
#[derive(Clone, Copy)]
pub(crate) struct Line {
    pub start: usize,
    pub end: usize,
}

// The one line of a head that frames the body, if there is just one.
fn framing_line(head: &[u8]) -> Option<Line>
    ensures { IsFraming head.now result }
{
    let mut found = None;
    let mut at = 0;
    while at < head.len() {
        let end = at + line_length(&head[at..]);
        if is_framing(&head[at..end]) {
            if found.is_some() {
                return None;
            }
            found = Some(Line { start: at, end });
        }
        at = end;
    }
    found
}

/// The line of a head that says that the body is chunked, if the body is.
pub(crate) fn chunked_line(head: &[u8]) -> Option<Line>
    ensures found { is_some result ≡ is_chunked_head head.now }
    ensures within { IfSome result (λ line. (line.start ≤ line.end) × (line.end ≤ length head.now)) }
    ensures others { IfSome result (λ line. unframed head.now ≡ take line.start head.now ++ drop line.end head.now) }
{
    let line = framing_line(head)?;
    if is_chunked(&head[line.start..line.end]) {
        Some(line)
    } else {
        None
    }
}
