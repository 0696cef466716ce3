//! Requests, of which the head alone is read.

ghost use Rattle.std.specs.Prelude.{◌≡◌, ◌≢◌, ◌+◌, ◌≤◌, ◌↔◌, ◌++◌, ℕ, List, All, false, length, map, option_map, Some, Ok, Err, None, IsOk, OnOk, IfOk, IfErr, IfSome};
ghost use Rattle.std.specs.Io.KnownBytes.{Consumes};
ghost use Rattle.std.specs.List.{list_all};
ghost use Rattle.std.specs.Str.{str_eq_ignore_ascii_case};
ghost use Rattle.httparse.specs.Grammar.{RequestHead, ReadsRequest, HasNoRequest};
ghost use Rattle.httparse.specs.Spans.{header_bytes, IsHeaderWithin};
ghost use Rattle.ns_status.specs.Request.{is_path, begins_with, is_address_byte, is_address, is_host, is_host_named, is_trusted, hosts_of, hosts_seen, host_fault, route_of, request_of, Asks, IsAsked};
ghost use Rattle.ns_status.specs.declared.request.RequestFault.TheVariants.{Ended};

use crate::response::Status;
use arrayvec::ArrayVec;
use httparse::Status::{Complete, Partial};
use httparse::spans::{EMPTY_HEADER_SPAN, HeaderSpan, parse_request};
use ns_types::{DevEui, Failed, Source};

// The most bytes of a head, and the most headers.
const HEAD_MAX: usize = 4096;

const HEADERS_MAX: usize = 64;

// How many bytes are read at once.
const PIECE: usize = 512;

/// What there is to be had.
#[derive(Clone, Copy, PartialEq, Eq)]
pub enum Route {
    Page,
    Metrics,
    Devices,
    Gateways,
    /// Whether the server answers at all.
    Health,
}

/// Which devices of the list are asked for.
#[derive(Clone, Copy, PartialEq, Eq)]
pub struct Part {
    /// Only those behind this one.
    pub after: Option<DevEui>,
    /// At most so many.
    pub limit: Option<u64>,
    /// Only those of which something is known since this moment of the server's clock, in milliseconds.
    pub since_ms: Option<u64>,
}

/// What is asked for.
#[derive(Clone, Copy, PartialEq, Eq)]
pub struct Request {
    pub route: Route,
    /// Whether the head of the response alone is (HEAD).
    pub is_head: bool,
    /// Which part of the list, by the query. None where a value of it is none that it can have.
    pub part: Option<Part>,
    /// The tag of the list that the asker has, if it names one (If-None-Match).
    pub known: Option<u64>,
}

/// Why a request is not met: with which status it is answered, or that nothing more comes.
#[derive(Clone, Copy, PartialEq, Eq)]
pub enum RequestFault {
    /// It is answered with a refusal: `Malformed`, `Misdirected`, `NotFound`, `NoMethod` or `TooLong`.
    Refused(Status),
    /// The stream failed or ended before a whole head came.
    Ended,
}

impl From<Failed> for RequestFault {
    ghost from_gives = { λ _ e. e ≡ Ended };

    fn from(_failed: Failed) -> RequestFault {
        RequestFault::Ended
    }
}

// Whether a target is this path, with a query or without.
fn is_path(target: &[u8], path: &[u8]) -> bool
    ensures { result ≡ is_path path.now target.now }
{
    let n = path.len();
    if target.len() < n || &target[..n] != path {
        return false;
    }
    target.len() == n || target[n] == b'?'
}

// What a target names.
fn route_of(target: &[u8]) -> Option<Route>
    ensures { result ≡ route_of target.now }
{
    if is_path(target, b"/") {
        Some(Route::Page)
    } else if is_path(target, b"/metrics") {
        Some(Route::Metrics)
    } else if is_path(target, b"/devices") {
        Some(Route::Devices)
    } else if is_path(target, b"/gateways") {
        Some(Route::Gateways)
    } else if is_path(target, b"/healthz") {
        Some(Route::Health)
    } else {
        None
    }
}

// What a method and a target ask for, and whether the head of the response alone.
fn request_of(method: &[u8], target: &[u8]) -> Result<(Route, bool), RequestFault>
    ensures { result ≡ request_of method.now target.now }
{
    let is_head = method == b"HEAD".as_slice();
    if !is_head && method != b"GET".as_slice() {
        return Err(RequestFault::Refused(Status::NoMethod));
    }
    match route_of(target) {
        Some(route) => Ok((route, is_head)),
        None => Err(RequestFault::Refused(Status::NotFound)),
    }
}

// Whether a byte is one of an IPv4 address or of a port.
fn is_address_byte(byte: u8) -> bool
    ensures { result ≡ is_address_byte byte }
{
    byte.is_ascii_digit() || byte == b'.' || byte == b':'
}

// Whether a host begins with a bracket.
fn has_bracket(host: &[u8]) -> bool
    ensures { result ≡ begins_with 91 host.now }
{
    match host.first() {
        Some(byte) => *byte == b'[',
        None => false,
    }
}

// Whether all bytes of a host are those of an IPv4 address and a port.
fn are_address_bytes(host: &[u8]) -> bool
    ensures { result ≡ list_all is_address_byte host.now }
{
    for byte in host {
        if !is_address_byte(*byte) {
            return false;
        }
    }
    true
}

// Whether a host is an address: an IPv6 address stands in brackets, and no name has digits and dots alone.
fn is_address(host: &[u8]) -> bool
    ensures { result ≡ is_address host.now }
{
    has_bracket(host) || are_address_bytes(host)
}

// Whether two names are the same, in either case.
fn is_same_name(name: &[u8], other: &[u8]) -> bool
    ensures { result ≡ str_eq_ignore_ascii_case name.now other.now }
{
    name.eq_ignore_ascii_case(other)
}

// Whether a host has this name, in either case, with a port or without.
fn is_host_named(host: &[u8], name: &[u8]) -> bool
    ensures { result ≡ is_host_named name.now host.now }
{
    let n = name.len();
    if host.len() < n {
        return false;
    }
    is_same_name(&host[..n], name) && (host.len() == n || host[n] == b':')
}

// Whether a request to this host is meant for this server: its page could else be read under the name of another, whose owner lets it lead
// here (DNS rebinding).
fn is_trusted(host: &[u8], name: &[u8]) -> bool
    ensures { result ≡ is_trusted name.now host.now }
{
    is_address(host) || is_host_named(host, b"localhost") || is_host_named(host, name)
}

// Whether a header is `Host`.
fn is_host(bytes: &[u8], header: HeaderSpan) -> bool
    requires { IsHeaderWithin (length bytes.now) header }
    ensures { result ≡ is_host (header_bytes bytes.now header) }
{
    is_same_name(header.name.of(bytes), b"host")
}

// The value of the one header `Host`, if there is any. Two are malformed (RFC 9112, 3.2).
fn host_of<'b>(bytes: &'b [u8], headers: &[HeaderSpan]) -> Result<Option<&'b [u8]>, RequestFault>
    requires { All (IsHeaderWithin (length bytes.now)) headers.now }
    ensures { hosts_seen result ≡ hosts_of None (map (header_bytes bytes.now) headers.now) }
{
    let mut host = None;
    for header in headers {
        if is_host(bytes, *header) {
            if host.is_some() {
                return Err(RequestFault::Refused(Status::Malformed));
            }
            host = Some(header.value.of(bytes));
        }
    }
    Ok(host)
}

// Refuses a request to another host than this server. One that names none is met: each browser names one.
fn check_host(bytes: &[u8], headers: &[HeaderSpan], name: &[u8]) -> Result<(), RequestFault>
    requires { All (IsHeaderWithin (length bytes.now)) headers.now }
    ensures { result ≡ host_fault name.now (hosts_of None (map (header_bytes bytes.now) headers.now)) }
{
    match host_of(bytes, headers)? {
        Some(host) if !is_trusted(host, name) => Err(RequestFault::Refused(Status::Misdirected)),
        _ => Ok(()),
    }
}

// A decimal number.
fn number_of(text: &[u8]) -> Option<u64> {
    std::str::from_utf8(text).ok()?.parse::<u64>().ok()
}

// A DevEUI by its sixteen digits.
fn eui_of(text: &[u8]) -> Option<DevEui> {
    if text.len() != 16 {
        return None;
    }
    let number = u64::from_str_radix(std::str::from_utf8(text).ok()?, 16).ok()?;
    Some(DevEui(number))
}

// Which part of the list a target asks for. What else stands in its query is passed over.
fn part_of(target: &[u8]) -> Option<Part> {
    let mut part = Part {
        after: None,
        limit: None,
        since_ms: None,
    };
    for piece in target.split(|byte| *byte == b'?' || *byte == b'&') {
        if let Some(value) = piece.strip_prefix(b"after=".as_slice()) {
            part.after = Some(eui_of(value)?);
        } else if let Some(value) = piece.strip_prefix(b"limit=".as_slice()) {
            part.limit = Some(number_of(value)?);
        } else if let Some(value) = piece.strip_prefix(b"since=".as_slice()) {
            part.since_ms = Some(number_of(value)?);
        }
    }
    Some(part)
}

// The number of a tag as `head_of` writes it, or of a strong one.
fn tag_of(value: &[u8]) -> Option<u64> {
    let weak = value.strip_prefix(b"W/".as_slice());
    let digits = weak
        .unwrap_or(value)
        .strip_prefix(b"\"".as_slice())?
        .strip_suffix(b"\"".as_slice())?;
    number_of(digits)
}

// The tag that the first header `If-None-Match` names. A list of several tags, or `*`, names none here: the answer is then whole.
fn known_of(bytes: &[u8], headers: &[HeaderSpan]) -> Option<u64>
    requires { All (IsHeaderWithin (length bytes.now)) headers.now }
{
    for header in headers {
        if is_same_name(header.name.of(bytes), b"if-none-match") {
            return tag_of(header.value.of(bytes));
        }
    }
    None
}

/// What these bytes ask for of a server that has this name, once they have a whole head with at most 64 headers, and nothing before that.
/// The part of a list is what its query says, and the list that is known what `If-None-Match` says.
pub fn request_in(bytes: &[u8], name: &[u8]) -> Result<Option<Request>, RequestFault>
    ensures whole { (head : RequestHead) (rest : List ℕ) → ReadsRequest bytes.now head rest → length head.fields ≤ 64
        → Asks name.now head result }
    ensures some { IfOk result (λ r. IfSome r (IsAsked name.now bytes.now)) }
    ensures more { result ≡ Ok None → HasNoRequest bytes.now }
{
    let mut headers = [EMPTY_HEADER_SPAN; HEADERS_MAX];
    match parse_request(bytes, &mut headers) {
        Ok(Complete(head)) => {
            check_host(bytes, &headers[..head.headers], name)?;
            let target = head.path.of(bytes);
            let (route, is_head) = request_of(head.method.of(bytes), target)?;
            Ok(Some(Request {
                route,
                is_head,
                part: part_of(target),
                known: known_of(bytes, &headers[..head.headers]),
            }))
        }
        Ok(Partial) => Ok(None),
        Err(_) => Err(RequestFault::Refused(Status::Malformed)),
    }
}

// Adds further bytes to a head, where there is room for them.
fn add(head: &mut ArrayVec<u8, HEAD_MAX>, piece: &[u8]) -> Result<(), RequestFault>
    ensures ok { OnOk result (head.new.items ≡ head.old.items ++ piece.now) }
    ensures full { IsOk result ↔ (length head.old.items + length piece.now ≤ 4096) }
    ensures err { IfErr result (λ e. e ≡ RequestFault.Refused Status.TooLong) }
{
    match head.try_extend_from_slice(piece) {
        Ok(()) => Ok(()),
        Err(_) => Err(RequestFault::Refused(Status::TooLong)),
    }
}

/// Reads the head of a request to a server that has this name, of at most 64 headers, which ends among the first 4,096 bytes with no further bytes coming along beyond these.
/// What comes behind it is not looked at.
pub fn read_request<S: Source>(source: &mut S, name: &[u8]) -> Result<Request, RequestFault>
    requires { S.Stream.has_failed source.old ≡ false }
    ensures asked { IfOk result (λ request. (bytes : List ℕ) × Consumes (S.left source.old) (S.left source.new) bytes
        × IsAsked name.now bytes request) }
    ensures sound { result ≢ Err Ended → S.Stream.has_failed source.new ≡ false }
{
    let mut bytes: ArrayVec<u8, HEAD_MAX> = ArrayVec::new();
    let mut piece = [0; PIECE];
    loop {
        let n = source.read(&mut piece)?;
        if n == 0 {
            return Err(RequestFault::Ended);
        }
        add(&mut bytes, &piece[..n])?;
        if let Some(request) = request_in(bytes.as_slice(), name)? {
            return Ok(request);
        }
    }
}
