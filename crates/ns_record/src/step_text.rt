//! The step line of a call.

ghost use Rattle.std.specs.Prelude.{◌≡◌, ◌+◌, ◌≤◌, ◌++◌, length};
ghost use Rattle.arrayvec.specs.ArrayString.{array_string_len};
ghost use Rattle.ns_record.specs.StepText.{up_header, key_text, app_text, accept_text, join_text, heard_text, lost_text, answer_text, close_text, step_text};

use ns_calls::{Call, JoinAccept, JoinAns, Outcome};
use ns_lines::{Line, put_decimal, put_hex, put_window};
use ns_types::{Heard, Key, Ticket, WindowName};

// The bytes of a datagram before its frame of n bytes.
fn header_of(heard: &Heard, n: u8) -> [u8; 28]
    ensures { result ≡ up_header heard.now n }
{
    let mut header = [1; 28];
    header[2..10].copy_from_slice(&heard.gateway.0.to_be_bytes());
    header[10..18].copy_from_slice(&heard.moment.to_be_bytes());
    header[18..22].copy_from_slice(&heard.freq.to_be_bytes());
    header[22] = heard.dr;
    header[23..25].copy_from_slice(&heard.rssi.cast_unsigned().to_be_bytes());
    header[25..27].copy_from_slice(&heard.snr.cast_unsigned().to_be_bytes());
    header[27] = n;
    header
}

// `heard HEX`
#[tactic(auto, unfolding(crate::specs::StepText::heard_text))]
fn put_heard(line: &mut Line, heard: &Heard, frame: &[u8])
    requires room { array_string_len line.old + 572 ≤ 1024 }
    requires short { length frame.now ≤ 255 }
    ensures { line.new.bytes ≡ line.old.bytes ++ heard_text heard.now frame.now }
{
    line.push_str("heard ");
    put_hex(line, &header_of(heard, frame.len() as u8));
    put_hex(line, frame);
}

// `{"AESKey":"HEX"}`
#[tactic(auto, unfolding(crate::specs::StepText::key_text))]
fn put_key(line: &mut Line, key: &Key)
    requires { array_string_len line.old + 45 ≤ 1024 }
    ensures bytes { line.new.bytes ≡ line.old.bytes ++ key_text key.now }
    ensures len { array_string_len line.new ≡ array_string_len line.old + 45 }
{
    line.push_str("{\"AESKey\":\"");
    put_hex(line, &key.0);
    line.push_str("\"}");
}

// The AppSKey, where it is known.
#[tactic(auto, unfolding(crate::specs::StepText::app_text))]
fn put_app(line: &mut Line, app: &Option<Key>)
    requires { array_string_len line.old + 56 ≤ 1024 }
    ensures bytes { line.new.bytes ≡ line.old.bytes ++ app_text app.now }
    ensures len { array_string_len line.new ≤ array_string_len line.old + 56 }
{
    if let Some(key) = app {
        line.push_str("\"AppSKey\":");
        put_key(line, key);
        line.push_str(",");
    }
}

// The Join-Accept, that the join succeeded, and the transaction.
#[tactic(auto, unfolding(crate::specs::StepText::accept_text))]
fn put_accept(line: &mut Line, transaction: u32, accept: &JoinAccept)
    requires { array_string_len line.old + 210 ≤ 1024 }
    ensures { line.new.bytes ≡ line.old.bytes ++ accept_text transaction accept.now }
{
    line.push_str(",\"PHYPayload\":\"");
    put_hex(line, accept.as_slice());
    line.push_str("\",\"Result\":{\"ResultCode\":\"Success\"},\"TransactionID\":");
    put_decimal(line, u64::from(transaction));
    line.push_str("}");
}

// The text of a JoinAns that says just this.
#[tactic(auto, unfolding(crate::specs::StepText::join_text))]
fn put_join(line: &mut Line, transaction: u32, join: &JoinAns)
    requires { array_string_len line.old + 400 ≤ 1024 }
    ensures { line.new.bytes ≡ line.old.bytes ++ join_text transaction join.now }
{
    line.push_str("{");
    put_app(line, &join.app);
    line.push_str("\"MessageType\":\"JoinAns\",\"NwkSKey\":");
    put_key(line, &join.nwk);
    put_accept(line, transaction, &join.accept);
}

// `lost TICKET`
#[tactic(auto, unfolding(crate::specs::StepText::lost_text))]
fn put_lost(line: &mut Line, ticket: &Ticket)
    requires { array_string_len line.old + 51 ≤ 1024 }
    ensures { line.new.bytes ≡ line.old.bytes ++ lost_text ticket.now }
{
    line.push_str("lost ");
    put_hex(line, &ticket.0);
}

// `answer TICKET TEXT`
#[tactic(auto, unfolding(crate::specs::StepText::answer_text))]
fn put_answer(line: &mut Line, ticket: &Ticket, join: &JoinAns)
    requires { array_string_len line.old + 454 ≤ 1024 }
    ensures { line.new.bytes ≡ line.old.bytes ++ answer_text ticket.now join.now }
{
    line.push_str("answer ");
    put_hex(line, &ticket.0);
    line.push_str(" ");
    put_join(line, ticket.transaction(), join);
}

// `close EUI SESSION FCNT` or `close EUI SESSION FCNT:ROUND`
#[tactic(auto, unfolding(crate::specs::StepText::close_text))]
fn put_close(line: &mut Line, window: &WindowName)
    requires { array_string_len line.old + 85 ≤ 1024 }
    ensures { line.new.bytes ≡ line.old.bytes ++ close_text window.now }
{
    line.push_str("close");
    put_window(line, window);
}

/// Puts the step line of a call, at most 572 bytes, at the end of a line, without a line feed.
pub fn put_step(line: &mut Line, call: &Call)
    requires { array_string_len line.old + 572 ≤ 1024 }
    ensures { line.new.bytes ≡ line.old.bytes ++ step_text call.now }
{
    match call {
        Call::Uplink { frame, heard } => put_heard(line, heard, frame.bytes()),
        Call::Join { ticket, heard } => put_heard(line, heard, &ticket.0),
        Call::JoinReply {
            ticket,
            outcome: Outcome::Success(join),
        } => put_answer(line, ticket, join),
        Call::JoinReply {
            ticket,
            outcome: Outcome::Failed,
        } => put_lost(line, ticket),
        Call::Close { window } => put_close(line, window),
    }
}

/// The step line of a call, without a line feed.
pub fn step_line(call: &Call) -> Line
    ensures { result.bytes ≡ step_text call.now }
{
    let mut line = Line::new();
    put_step(&mut line, call);
    line
}
