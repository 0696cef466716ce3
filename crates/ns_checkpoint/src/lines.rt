//! The lines of a checkpoint, as they are written.

ghost use Rattle.std.specs.Prelude.{◌≡◌, ◌+◌, ◌*◌, ◌≤◌, ◌++◌, ◌∷◌, [], codes, length, flat_map};
ghost use Rattle.arrayvec.specs.ArrayString.{array_string_len};
ghost use Rattle.ns_checkpoint.specs.Text.{hex_field, field_16, field_32, key_field, or_dash, session_fields, heard_fields, head_line, shard_line, device_line, ticket_line, window_line, copy_line, end_line};

use crate::tables::{DeviceTable, Head};
use ns_lines::{Line, put_hex};
use ns_sessions::{OpenTicket, Session};
use ns_types::{DevNonce, Heard, Key};
use ns_windows::Window;

// A space and bytes in hex.
fn put_bytes(line: &mut Line, bytes: &[u8])
    requires { array_string_len line.old + 1 + 2 * length bytes.now ≤ 1024 }
    ensures bytes { line.new.bytes ≡ line.old.bytes ++ hex_field bytes.now }
    ensures len { array_string_len line.new ≡ array_string_len line.old + 1 + 2 * length bytes.now }
{
    line.push_str(" ");
    put_hex(line, bytes);
}

// A space and a dash.
fn put_dash(line: &mut Line)
    requires { array_string_len line.old + 2 ≤ 1024 }
    ensures bytes { line.new.bytes ≡ line.old.bytes ++ codes " -" }
    ensures len { array_string_len line.new ≡ array_string_len line.old + 2 }
{
    line.push_str(" -");
}

// A key, or a dash if there is none.
fn put_app(line: &mut Line, app: &Option<Key>)
    requires { array_string_len line.old + 33 ≤ 1024 }
    ensures bytes { line.new.bytes ≡ line.old.bytes ++ or_dash key_field app.now }
    ensures len { array_string_len line.new ≤ array_string_len line.old + 33 }
{
    match app {
        Some(key) => put_bytes(line, &key.0),
        None => put_dash(line),
    }
}

// A number of 32 bits, or a dash if there is none.
fn put_counter(line: &mut Line, counter: Option<u32>)
    requires { array_string_len line.old + 9 ≤ 1024 }
    ensures bytes { line.new.bytes ≡ line.old.bytes ++ or_dash field_32 counter }
    ensures len { array_string_len line.new ≤ array_string_len line.old + 9 }
{
    match counter {
        Some(n) => put_bytes(line, &n.to_be_bytes()),
        None => put_dash(line),
    }
}

// A DevNonce, or a dash if there is none.
fn put_nonce(line: &mut Line, nonce: Option<DevNonce>)
    requires { array_string_len line.old + 5 ≤ 1024 }
    ensures bytes { line.new.bytes ≡ line.old.bytes ++ or_dash (λ n. field_16 n.0) nonce }
    ensures len { array_string_len line.new ≤ array_string_len line.old + 5 }
{
    match nonce {
        Some(nonce) => put_bytes(line, &nonce.0.to_be_bytes()),
        None => put_dash(line),
    }
}

// `NUMBER NWKSKEY APPSKEY COUNTER ROUND ACK`
#[tactic(auto, unfolding(crate::specs::Text::session_fields))]
fn put_session(line: &mut Line, session: &Session)
    requires { array_string_len line.old + 110 ≤ 1024 }
    ensures bytes { line.new.bytes ≡ line.old.bytes ++ session_fields session.now }
    ensures len { array_string_len line.new ≤ array_string_len line.old + 110 }
{
    put_bytes(line, &session.number.to_be_bytes());
    put_bytes(line, &session.nwk.0);
    put_app(line, &session.app);
    put_counter(line, session.greatest_counter);
    put_bytes(line, &session.round.to_be_bytes());
    put_bytes(line, &session.next_ack.to_be_bytes());
}

// The sessions of a device, one after the other.
fn put_sessions(line: &mut Line, sessions: &[Session])
    requires { array_string_len line.old + 110 * length sessions.now ≤ 1024 }
    ensures { line.new.bytes ≡ line.old.bytes ++ flat_map session_fields sessions.now }
{
    for session in sessions {
        put_session(line, session);
    }
}

// `GATEWAY MOMENT FREQUENCY DR RSSI SNR`
#[tactic(auto, unfolding(crate::specs::Text::heard_fields))]
fn put_heard(line: &mut Line, heard: &Heard)
    requires { array_string_len line.old + 56 ≤ 1024 }
    ensures { line.new.bytes ≡ line.old.bytes ++ heard_fields heard.now }
{
    put_bytes(line, &heard.gateway.0.to_be_bytes());
    put_bytes(line, &heard.moment.to_be_bytes());
    put_bytes(line, &heard.freq.to_be_bytes());
    put_bytes(line, &[heard.dr]);
    put_bytes(line, &heard.rssi.cast_unsigned().to_be_bytes());
    put_bytes(line, &heard.snr.cast_unsigned().to_be_bytes());
}

/// The first line: `checkpoint 1 LINES UPS`.
#[tactic(auto, unfolding(crate::specs::Text::head_line))]
pub fn head_line(head: &Head) -> Line
    ensures { result.bytes ≡ head_line head.now }
{
    let mut line = Line::new();
    line.push_str("checkpoint 1");
    put_bytes(&mut line, &head.lines.to_be_bytes());
    put_bytes(&mut line, &head.ups.to_be_bytes());
    line
}

/// The line before the tables of a shard: `shard NUMBER`.
#[tactic(auto, unfolding(crate::specs::Text::shard_line))]
pub fn shard_line(number: u8) -> Line
    ensures { result.bytes ≡ shard_line number }
{
    let mut line = Line::new();
    line.push_str("shard");
    put_bytes(&mut line, &[number]);
    line
}

/// The line of a device, without its tickets: `device EUI GREATEST NEXT SESSION ..`.
#[tactic(auto, unfolding(crate::specs::Text::device_line))]
pub fn device_line(device: &DeviceTable) -> Line
    ensures { result.bytes ≡ device_line device.now }
{
    let mut line = Line::new();
    line.push_str("device");
    put_bytes(&mut line, &device.eui.0.to_be_bytes());
    put_nonce(&mut line, device.greatest);
    put_bytes(&mut line, &device.next_session.to_be_bytes());
    put_sessions(&mut line, device.sessions.as_slice());
    line
}

/// The line of an open ticket: `ticket TICKET COPIES BEST`.
#[tactic(auto, unfolding(crate::specs::Text::ticket_line))]
pub fn ticket_line(ticket: &OpenTicket) -> Line
    ensures { result.bytes ≡ ticket_line ticket.now }
{
    let mut line = Line::new();
    line.push_str("ticket");
    put_bytes(&mut line, &ticket.ticket.0);
    put_bytes(&mut line, &[ticket.copies.count()]);
    put_heard(&mut line, &ticket.copies.best());
    line
}

/// The line of an open window, without its copies: `window EUI SESSION FCNT ROUND NWKSKEY APPSKEY FRAME`.
#[tactic(auto, unfolding(crate::specs::Text::window_line))]
pub fn window_line(window: &Window) -> Line
    ensures { result.bytes ≡ window_line window.now }
{
    let mut line = Line::new();
    line.push_str("window");
    put_bytes(&mut line, &window.name.eui.0.to_be_bytes());
    put_bytes(&mut line, &window.name.session.to_be_bytes());
    put_bytes(&mut line, &window.name.fcnt.to_be_bytes());
    put_bytes(&mut line, &window.name.round.to_be_bytes());
    put_bytes(&mut line, &window.nwk.0);
    put_app(&mut line, &window.app);
    put_bytes(&mut line, window.frame.bytes());
    line
}

/// The line of a copy of a window: `copy HEARD`.
#[tactic(auto, unfolding(crate::specs::Text::copy_line))]
pub fn copy_line(heard: &Heard) -> Line
    ensures { result.bytes ≡ copy_line heard.now }
{
    let mut line = Line::new();
    line.push_str("copy");
    put_heard(&mut line, heard);
    line
}

/// The last line: `end CHECKSUM`.
#[tactic(auto, unfolding(crate::specs::Text::end_line))]
pub fn end_line(sum: &[u8; 8]) -> Line
    ensures { result.bytes ≡ end_line sum.now }
{
    let mut line = Line::new();
    line.push_str("end");
    put_bytes(&mut line, sum);
    line
}
