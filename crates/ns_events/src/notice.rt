//! The JSON objects of joins and of acknowledgements.
ghost use Rattle.std.specs.Prelude.{◌≡◌, ◌+◌, ◌≤◌, ◌++◌};
ghost use Rattle.arrayvec.specs.ArrayString.{array_string_len};
ghost use Rattle.ns_events.specs.Notice.{ack_json, join_json, session_text, time_text};

use crate::put::{Text, put_address, put_identity, put_number};
use crate::times::put_utc;
use ns_output::Utc;
use ns_types::{DevAddr, DevEui, GatewayId, WindowName};

// Puts when it happened, where there is a clock.
#[tactic(auto, unfolding(crate::specs::Notice::time_text))]
fn put_time_of(text: &mut Text, time: &Option<Utc>)
    requires { array_string_len text.old + 40 ≤ 6400 }
    ensures bytes { text.new.bytes ≡ text.old.bytes ++ time_text time.now }
    ensures len { array_string_len text.new ≤ array_string_len text.old + 40 }
{
    if let Some(time) = time {
        text.push_str(",\"time\":\"");
        put_utc(text, time);
        text.push_str("\"");
    }
}

// Puts of which session it is.
#[tactic(auto, unfolding(crate::specs::Notice::session_text))]
fn put_session(text: &mut Text, eui: DevEui, addr: DevAddr, session: u32)
    requires { array_string_len text.old + 90 ≤ 6400 }
    ensures bytes { text.new.bytes ≡ text.old.bytes ++ session_text eui.0 addr.0 session }
    ensures len { array_string_len text.new ≤ array_string_len text.old + 90 }
{
    text.push_str(",\"devEui\":\"");
    put_identity(text, eui.0);
    text.push_str("\",\"devAddr\":\"");
    put_address(text, addr.0);
    put_number(text, "\",\"session\":", u64::from(session));
}

/// The JSON object of a join on one line without its line feed: where `time` has it, when the session began; then its DevEUI, its
/// DevAddr and its number.
#[tactic(auto, unfolding(crate::specs::Notice::join_json))]
pub fn join_json(time: &Option<Utc>, eui: DevEui, addr: DevAddr, session: u32) -> Text
    ensures { result.bytes ≡ join_json time.now eui.0 addr.0 session }
{
    let mut text = Text::new();
    text.push_str("{\"event\":\"join\"");
    put_time_of(&mut text, time);
    put_session(&mut text, eui, addr, session);
    text.push_str("}");
    text
}

/// The JSON object of an acknowledgement on one line without its line feed: where `time` has it, when it was handed out; then the
/// DevEUI, the DevAddr and the session of the uplink that is acknowledged, its FCnt, and the gateway that is to send it.
#[tactic(auto, unfolding(crate::specs::Notice::ack_json))]
pub fn ack_json(time: &Option<Utc>, window: &WindowName, addr: DevAddr, gateway: GatewayId) -> Text
    ensures { result.bytes ≡ ack_json time.now window.now addr.0 gateway.0 }
{
    let mut text = Text::new();
    text.push_str("{\"event\":\"ack\"");
    put_time_of(&mut text, time);
    put_session(&mut text, window.eui, addr, window.session);
    put_number(&mut text, ",\"fCnt\":", u64::from(window.fcnt));
    text.push_str(",\"gatewayId\":\"");
    put_identity(&mut text, gateway.0);
    text.push_str("\"}");
    text
}
