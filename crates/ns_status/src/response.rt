//! The heads of responses.

ghost use Rattle.std.specs.Prelude.{◌≡◌, ◌+◌, ◌≤◌, ◌++◌, length};
ghost use Rattle.arrayvec.specs.ArrayString.{array_string_len};
ghost use Rattle.ns_status.specs.Response.{status_words, media_type, length_text, tag_text, head_text};

use arrayvec::ArrayString;
use itoa::Buffer;

// The fields of each head, and the empty line behind them.
const FIELDS: &str =
    "\r\nAllow: GET, HEAD\r\nCache-Control: no-store\r\nX-Content-Type-Options: nosniff\r\nContent-Security-Policy: default-src 'none'; script-src 'sha256-nfpn4u/agwmbR7fIhNKE1Erb9EYMzXY01sq/KzJ40pQ='; style-src 'sha256-k2OWu7Q3zfUvLXHrBvFTF5s59RCB0x9oo1JwiZz4nUg='; connect-src 'self'; base-uri 'none'; form-action 'none'; frame-ancestors 'none'\r\nConnection: close\r\n\r\n";

/// What a response says of a request.
#[derive(Clone, Copy, PartialEq, Eq)]
pub enum Status {
    /// 200
    Found,
    /// 304
    NotModified,
    /// 400
    Malformed,
    /// 404
    NotFound,
    /// 405
    NoMethod,
    /// 421
    Misdirected,
    /// 431
    TooLong,
    /// 503
    NoMemory,
}

/// What a body is.
#[derive(Clone, Copy)]
pub enum Content {
    /// A text for a person.
    Text,
    /// The page.
    Html,
    /// A list in JSON.
    Json,
    /// Counts for Prometheus.
    Metrics,
}

impl Status {
    /// The number and the words of the status, which stand in a status line, and as the text of a refusal.
    pub fn words(self) -> &'static str
        ensures words { result.now ≡ status_words self }
        ensures short { length result.now ≤ 40 }
    {
        match self {
            Status::Found => "200 OK",
            Status::NotModified => "304 Not Modified",
            Status::Malformed => "400 Bad Request",
            Status::NotFound => "404 Not Found",
            Status::NoMethod => "405 Method Not Allowed",
            Status::Misdirected => "421 Misdirected Request",
            Status::TooLong => "431 Request Header Fields Too Large",
            Status::NoMemory => "503 Service Unavailable",
        }
    }
}

impl Content {
    // The media type.
    fn media_type(self) -> &'static str
        ensures is { result.now ≡ media_type self }
        ensures short { length result.now ≤ 50 }
    {
        match self {
            Content::Text => "text/plain; charset=utf-8",
            Content::Html => "text/html; charset=utf-8",
            Content::Json => "application/json",
            Content::Metrics => "text/plain; version=0.0.4; charset=utf-8",
        }
    }
}

// Puts the length of a body, where it is told.
fn put_length(head: &mut ArrayString<1024>, len: Option<usize>)
    requires { array_string_len head.old + 38 ≤ 1024 }
    ensures bytes { head.new.bytes ≡ head.old.bytes ++ length_text len }
    ensures len { array_string_len head.new ≤ array_string_len head.old + 38 }
{
    if let Some(len) = len {
        head.push_str("\r\nContent-Length: ");
        head.push_str(Buffer::new().format(len));
    }
}

// Puts the tag of a list, where it has one. It is weak, since two answers with the same rows differ in their moment (RFC 9110, 8.8.1).
fn put_tag(head: &mut ArrayString<1024>, tag: Option<u64>)
    requires { array_string_len head.old + 32 ≤ 1024 }
    ensures bytes { head.new.bytes ≡ head.old.bytes ++ tag_text tag }
    ensures len { array_string_len head.new ≤ array_string_len head.old + 32 }
{
    if let Some(tag) = tag {
        head.push_str("\r\nETag: W/\"");
        head.push_str(Buffer::new().format(tag));
        head.push_str("\"");
    }
}

/// The head of a response with a body of so many bytes, or with one that goes on to the end of the connection. The connection is closed
/// behind it, it is not to be kept by anybody, and the page may ask this server alone, run no script and have no style but its own, which are
/// named by their SHA-256, and stand in no other page.
#[tactic(auto, unfolding(crate::specs::Response::fields_text))]
pub fn head_of(
    status: Status,
    content: Content,
    len: Option<usize>,
    tag: Option<u64>,
) -> ArrayString<1024>
    ensures { result.bytes ≡ head_text status content len tag }
{
    let mut head = ArrayString::new();
    head.push_str("HTTP/1.1 ");
    head.push_str(status.words());
    head.push_str("\r\nContent-Type: ");
    head.push_str(content.media_type());
    put_length(&mut head, len);
    put_tag(&mut head, tag);
    head.push_str(FIELDS);
    head
}
