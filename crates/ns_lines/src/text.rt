//! The lines of an answer, which `replay` and the server print.
ghost use Rattle.std.specs.Prelude.{◌≡◌, ◌+◌, ◌*◌, ◌≤◌, ◌++◌, ◌∷◌, [], length, map, decimal, codes, flat_map};
ghost use Rattle.arrayvec.specs.ArrayString.{array_string_len};
ghost use Rattle.hex.specs.Hex.{encode_lower};
ghost use Rattle.ns_lines.specs.Text.{text, reply_text, up_text, down_text, window_text, round_text, optional_text, bytes_text, kind_text, gateways_text, number_text, id_text, address_text, wide};

use crate::put::{Line, put_address, put_decimal, put_hex, put_identity};
use arrayvec::ArrayVec;
use ns_calls::{Answer, Downlink, LentUplink, Reply, Uplink};
use ns_types::{DevAddr, DevEui, Heard, Ticket, WindowName};

// A space and a number.
fn put_number(line: &mut Line, n: u64)
    requires { array_string_len line.old + 21 ≤ 1024 }
    ensures bytes { line.new.bytes ≡ line.old.bytes ++ number_text n }
    ensures len { array_string_len line.new ≤ array_string_len line.old + 21 }
{
    line.push_str(" ");
    put_decimal(line, n);
}

// A space and an identity.
#[tactic(auto, unfolding(crate::specs::Text::wide))]
fn put_id(line: &mut Line, n: u64)
    requires { array_string_len line.old + 17 ≤ 1024 }
    ensures bytes { line.new.bytes ≡ line.old.bytes ++ id_text n }
    ensures len { array_string_len line.new ≡ array_string_len line.old + 17 }
{
    line.push_str(" ");
    put_identity(line, n);
}

// A colon and a round above 1.
fn put_round(line: &mut Line, round: u32)
    requires { array_string_len line.old + 21 ≤ 1024 }
    ensures bytes { line.new.bytes ≡ line.old.bytes ++ round_text round }
    ensures len { array_string_len line.new ≤ array_string_len line.old + 21 }
{
    if round > 1 {
        line.push_str(":");
        put_decimal(line, u64::from(round));
    }
}

/// Puts a space and a window's name, at most 80 bytes, at the end of a line.
#[tactic(auto, unfolding(crate::specs::Text::window_text))]
pub fn put_window(line: &mut Line, name: &WindowName)
    requires { array_string_len line.old + 80 ≤ 1024 }
    ensures bytes { line.new.bytes ≡ line.old.bytes ++ window_text name.now }
    ensures len { array_string_len line.new ≤ array_string_len line.old + 80 }
{
    put_id(line, name.eui.0);
    put_number(line, u64::from(name.session));
    put_number(line, u64::from(name.fcnt));
    put_round(line, name.round);
}

// A space and a number, or a dash.
fn put_optional(line: &mut Line, ack: Option<u32>)
    requires { array_string_len line.old + 21 ≤ 1024 }
    ensures bytes { line.new.bytes ≡ line.old.bytes ++ optional_text ack }
    ensures len { array_string_len line.new ≤ array_string_len line.old + 21 }
{
    match ack {
        Some(n) => put_number(line, u64::from(n)),
        None => line.push_str(" -"),
    }
}

// A space and bytes in hex, or a dash.
#[tactic(auto, unfolding(crate::specs::Text::bytes_text))]
fn put_bytes(line: &mut Line, bytes: &[u8])
    requires { array_string_len line.old + 2 + 2 * length bytes.now ≤ 1024 }
    ensures bytes { line.new.bytes ≡ line.old.bytes ++ bytes_text bytes.now }
    ensures len { array_string_len line.new ≤ array_string_len line.old + 2 + 2 * length bytes.now }
{
    if bytes.is_empty() {
        line.push_str(" -");
    } else {
        line.push_str(" ");
        put_hex(line, bytes);
    }
}

// A word and a window's name.
fn put_named(line: &mut Line, word: &str, name: &WindowName)
    requires { array_string_len line.old + length word.now + 80 ≤ 1024 }
    ensures bytes { line.new.bytes ≡ line.old.bytes ++ (word.now ++ window_text name.now) }
    ensures len { array_string_len line.new ≤ array_string_len line.old + length word.now + 80 }
{
    line.push_str(word);
    put_window(line, name);
}

// A word and a number.
fn put_counted(line: &mut Line, word: &str, n: u64)
    requires { array_string_len line.old + length word.now + 21 ≤ 1024 }
    ensures { line.new.bytes ≡ line.old.bytes ++ (word.now ++ number_text n) }
{
    line.push_str(word);
    put_number(line, n);
}

// The reply to a Join-Request that is asked for.
fn put_ask(line: &mut Line, ticket: &Ticket)
    requires { array_string_len line.old + 50 ≤ 1024 }
    ensures { line.new.bytes ≡ line.old.bytes ++ (codes "ask " ++ encode_lower ticket.now.0) }
{
    line.push_str("ask ");
    put_hex(line, &ticket.0);
}

// The reply to a join that is accepted.
#[tactic(auto, unfolding(crate::specs::Text::address_text))]
fn put_accepted(line: &mut Line, eui: DevEui, session: u32, addr: DevAddr)
    requires { array_string_len line.old + 55 ≤ 1024 }
    ensures { line.new.bytes ≡ line.old.bytes ++ (codes "accepted" ++ id_text eui.0 ++ number_text session ++ codes " " ++ address_text addr.0) }
{
    line.push_str("accepted");
    put_id(line, eui.0);
    put_number(line, u64::from(session));
    line.push_str(" ");
    put_address(line, addr.0);
}

/// Puts the line of a reply, at most 107 bytes, at the end of a line.
#[tactic(auto, unfolding(crate::specs::Text::reply_text))]
pub fn put_reply(line: &mut Line, reply: &Reply)
    requires { array_string_len line.old + 107 ≤ 1024 }
    ensures { line.new.bytes ≡ line.old.bytes ++ reply_text reply.now }
{
    match reply {
        Reply::Opened { window } => put_named(line, "opened", window),
        Reply::Copied { window, place } => {
            put_named(line, "copied", window);
            put_number(line, u64::from(*place));
        }
        Reply::Crowded { window } => put_named(line, "crowded", window),
        Reply::Old { eui, session, fcnt } => {
            line.push_str("old");
            put_id(line, eui.0);
            put_number(line, u64::from(*session));
            put_number(line, u64::from(*fcnt));
        }
        Reply::NoSession => line.push_str("nosession"),
        Reply::Busy { eui } => {
            line.push_str("busy");
            put_id(line, eui.0);
        }
        Reply::Ask { ticket } => put_ask(line, ticket),
        Reply::JoinCopied { place } => put_counted(line, "joincopied", u64::from(*place)),
        Reply::JoinCrowded => line.push_str("joincrowded"),
        Reply::NonceOld { greatest } => put_counted(line, "nonceold", u64::from(greatest.0)),
        Reply::NoDevice => line.push_str("nodevice"),
        Reply::JoinBusy => line.push_str("joinbusy"),
        Reply::Accepted { eui, session, addr } => put_accepted(line, *eui, *session, *addr),
        Reply::JoinRefused => line.push_str("joinrefused"),
        Reply::JoinStale { greatest } => put_counted(line, "joinstale", u64::from(greatest.0)),
        Reply::NoTicket => line.push_str("noticket"),
        Reply::Closed { window, ack } => {
            put_named(line, "closed", window);
            put_optional(line, *ack);
        }
        Reply::NoWindow => line.push_str("nowindow"),
        Reply::Again { window } => put_named(line, "again", window),
    }
}

// A comma and a gateway for each of some copies.
fn put_more_gateways(line: &mut Line, copies: &[Heard])
    requires { array_string_len line.old + 17 * length copies.now ≤ 1024 }
    ensures bytes { line.new.bytes
        ≡ line.old.bytes ++ flat_map (λ c. codes "," ++ wide c.gateway.0) copies.now }
    ensures len { array_string_len line.new ≡ array_string_len line.old + 17 * length copies.now }
{
    for copy in copies {
        put_comma(line, copy);
    }
}

// A comma and the gateway of a copy.
#[tactic(auto, unfolding(crate::specs::Text::wide))]
fn put_comma(line: &mut Line, copy: &Heard)
    requires { array_string_len line.old + 17 ≤ 1024 }
    ensures bytes { line.new.bytes ≡ line.old.bytes ++ (codes "," ++ wide copy.now.gateway.0) }
    ensures len { array_string_len line.new ≡ array_string_len line.old + 17 }
{
    line.push_str(",");
    put_identity(line, copy.gateway.0);
}

// The gateways of copies.
#[tactic(auto, unfolding(crate::specs::Text::gateways_text, crate::specs::Text::wide))]
fn put_gateways(line: &mut Line, copies: &[Heard])
    requires { array_string_len line.old + 17 * length copies.now ≤ 1024 }
    ensures bytes { line.new.bytes ≡ line.old.bytes ++ gateways_text copies.now }
    ensures len { array_string_len line.new ≤ array_string_len line.old + 17 * length copies.now }
{
    if let Some((first, others)) = copies.split_first() {
        put_identity(line, first.gateway.0);
        put_more_gateways(line, others);
    }
}

// Whether a payload is as received.
fn put_kind(line: &mut Line, uplink: &LentUplink)
    requires { array_string_len line.old + 7 ≤ 1024 }
    ensures bytes { line.new.bytes ≡ line.old.bytes ++ kind_text uplink.now }
    ensures len { array_string_len line.new ≤ array_string_len line.old + 7 }
{
    if uplink.sealed && !uplink.payload.is_empty() {
        line.push_str(" sealed");
    } else {
        line.push_str(" plain");
    }
}

/// Puts the `up` line of an uplink, at most 854 bytes, at the end of a line: `up E S N PORT KIND OPTS BYTES COUNT GATEWAYS`. `KIND`
/// is `sealed` where there is a payload and it is as received, else `plain`; a port, options or payload that is missing is `-`.
#[tactic(auto, unfolding(crate::specs::Text::up_text))]
pub fn put_lent_uplink(line: &mut Line, uplink: &LentUplink)
    requires { array_string_len line.old + 922 ≤ 1024 }
    ensures bytes { line.new.bytes ≡ line.old.bytes ++ up_text uplink.now }
    ensures len { array_string_len line.new ≤ array_string_len line.old + 922 }
{
    put_named(line, "up", &uplink.window);
    put_optional(line, uplink.port.map(u32::from));
    put_kind(line, uplink);
    put_bytes(line, uplink.fopts);
    put_bytes(line, uplink.payload);
    put_number(line, uplink.copies.len() as u64);
    line.push_str(" ");
    put_gateways(line, uplink.copies);
}

/// The same.
pub fn put_uplink(line: &mut Line, uplink: &Uplink)
    requires { array_string_len line.old + 922 ≤ 1024 }
    ensures bytes { line.new.bytes ≡ line.old.bytes ++ up_text uplink.now }
    ensures len { array_string_len line.new ≤ array_string_len line.old + 922 }
{
    put_lent_uplink(line, &uplink.lend());
}

/// Puts the line of a downlink, at most 148 bytes, at the end of a line.
#[tactic(auto, unfolding(crate::specs::Text::down_text))]
pub fn put_downlink(line: &mut Line, downlink: &Downlink)
    requires { array_string_len line.old + 152 ≤ 1024 }
    ensures { line.new.bytes ≡ line.old.bytes ++ down_text downlink.now }
{
    line.push_str("down");
    put_id(line, downlink.target.gateway.0);
    put_number(line, downlink.target.moment);
    put_number(line, u64::from(downlink.target.freq));
    put_number(line, u64::from(downlink.target.dr));
    put_bytes(line, downlink.frame.as_slice());
}

// The line of a reply.
fn reply_line(reply: &Reply) -> Line
    ensures { result.bytes ≡ reply_text reply.now }
{
    let mut line = Line::new();
    put_reply(&mut line, reply);
    line
}

/// The `up` line of an uplink, as `put_uplink` puts it.
pub fn up_line(uplink: &Uplink) -> Line
    ensures { result.bytes ≡ up_text uplink.now }
{
    let mut line = Line::new();
    put_uplink(&mut line, uplink);
    line
}

// The line of a downlink.
fn down_line(downlink: &Downlink) -> Line
    ensures { result.bytes ≡ down_text downlink.now }
{
    let mut line = Line::new();
    put_downlink(&mut line, downlink);
    line
}

/// The lines of an answer: that of the reply, then the `up` line and the `down` line where they go out. Identities are in
/// lower-case hex of full width, bytes in hex, other numbers in decimal.
pub fn lines(answer: &Answer) -> ArrayVec<Line, 3>
    ensures { map (λ l. l.bytes) result.items ≡ text answer.now }
{
    let mut lines = ArrayVec::new();
    lines.push(reply_line(&answer.reply));
    if let Some(uplink) = &answer.uplink {
        lines.push(up_line(uplink));
    }
    if let Some(downlink) = &answer.downlink {
        lines.push(down_line(downlink));
    }
    lines
}
