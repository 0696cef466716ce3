//! The JSON object of an uplink.
ghost use Rattle.std.specs.Prelude.{◌≡◌, ◌+◌, ◌*◌, ◌≤◌, ◌++◌, codes, flat_map, length};
ghost use Rattle.arrayvec.specs.ArrayString.{array_string_len};
ghost use Rattle.ns_events.specs.Uplink.{control_text, copies_text, copy_text, frame_text, front_text, heard_text, is_sealed, options_text, payload_text, port_text, rate_text, signal_text, times_text, uplink_json};

use crate::lora::Lora;
use crate::put::{
    Text, put_address, put_base64, put_flag, put_hex, put_identity, put_number, put_tenths,
};
use crate::times::put_utc;
use ns_calls::Uplink;
use ns_output::Times;
use ns_types::Heard;

// Puts when an uplink came, where there is a clock.
#[tactic(auto, unfolding(crate::specs::Uplink::times_text))]
fn put_times(text: &mut Text, times: &Option<Times>)
    requires { array_string_len text.old + 80 ≤ 6400 }
    ensures bytes { text.new.bytes ≡ text.old.bytes ++ times_text times.now }
    ensures len { array_string_len text.new ≤ array_string_len text.old + 80 }
{
    if let Some(times) = times {
        text.push_str("\"time\":\"");
        put_utc(text, &times.heard);
        text.push_str("\",\"writtenAt\":\"");
        put_utc(text, &times.written);
        text.push_str("\",");
    }
}

// Puts which frame it is.
#[tactic(auto, unfolding(crate::specs::Uplink::frame_text))]
fn put_frame(text: &mut Text, uplink: &Uplink)
    requires { array_string_len text.old + 110 ≤ 6400 }
    ensures bytes { text.new.bytes ≡ text.old.bytes ++ frame_text uplink.now }
    ensures len { array_string_len text.new ≤ array_string_len text.old + 110 }
{
    text.push_str("\"devEui\":\"");
    put_identity(text, uplink.window.eui.0);
    text.push_str("\",\"devAddr\":\"");
    put_address(text, uplink.addr.0);
    put_number(text, "\",\"session\":", u64::from(uplink.window.session));
    put_number(text, ",\"fCnt\":", u64::from(uplink.window.fcnt));
}

// Puts its port, where it has one.
fn put_port(text: &mut Text, port: Option<u8>)
    requires { array_string_len text.old + 29 ≤ 6400 }
    ensures bytes { text.new.bytes ≡ text.old.bytes ++ port_text port }
    ensures len { array_string_len text.new ≤ array_string_len text.old + 29 }
{
    if let Some(port) = port {
        put_number(text, ",\"fPort\":", u64::from(port));
    }
}

// Puts its type and the bits of its FCtrl.
#[tactic(auto, unfolding(crate::specs::Uplink::control_text))]
fn put_control(text: &mut Text, confirmed: bool, fctrl: u8)
    requires { array_string_len text.old + 80 ≤ 6400 }
    ensures bytes { text.new.bytes ≡ text.old.bytes ++ control_text confirmed fctrl }
    ensures len { array_string_len text.new ≤ array_string_len text.old + 80 }
{
    put_flag(text, ",\"confirmed\":", confirmed);
    put_flag(text, ",\"adr\":", fctrl / 128 % 2 == 1);
    put_flag(text, ",\"adrAckReq\":", fctrl / 64 % 2 == 1);
    put_flag(text, ",\"ack\":", fctrl / 32 % 2 == 1);
    put_flag(text, ",\"classB\":", fctrl / 16 % 2 == 1);
}

// Whether there is a payload and it is as received.
fn is_sealed(uplink: &Uplink) -> bool
    ensures { result ≡ is_sealed uplink.now }
{
    uplink.sealed && !uplink.payload.as_slice().is_empty()
}

// Puts its options, and whether its payload is sealed.
#[tactic(auto, unfolding(crate::specs::Uplink::options_text))]
fn put_options(text: &mut Text, uplink: &Uplink)
    requires { array_string_len text.old + 60 ≤ 6400 }
    ensures bytes { text.new.bytes ≡ text.old.bytes ++ options_text uplink.now }
    ensures len { array_string_len text.new ≤ array_string_len text.old + 60 }
{
    text.push_str(",\"fOpts\":\"");
    put_hex(text, uplink.fopts.as_slice());
    put_flag(text, "\",\"sealed\":", is_sealed(uplink));
}

// Puts its payload in hex and in base64.
#[tactic(auto, unfolding(crate::specs::Uplink::payload_text))]
fn put_payload(text: &mut Text, payload: &[u8])
    requires size { length payload.now ≤ 242 }
    requires room { array_string_len text.old + 1000 ≤ 6400 }
    ensures bytes { text.new.bytes ≡ text.old.bytes ++ payload_text payload.now }
    ensures len { array_string_len text.new ≤ array_string_len text.old + 1000 }
{
    text.push_str(",\"payload\":\"");
    put_hex(text, payload);
    text.push_str("\",\"data\":\"");
    put_base64(text, payload);
    text.push_str("\"");
}

// Puts what a data rate is.
#[tactic(auto, unfolding(crate::specs::Uplink::rate_text))]
fn put_rate(text: &mut Text, dr: u8)
    requires { array_string_len text.old + 80 ≤ 6400 }
    ensures bytes { text.new.bytes ≡ text.old.bytes ++ rate_text dr }
    ensures len { array_string_len text.new ≤ array_string_len text.old + 80 }
{
    match Lora::of(dr) {
        Some(lora) => {
            put_number(text, ",\"spreadingFactor\":", u64::from(lora.factor));
            put_number(text, ",\"bandwidth\":", u64::from(lora.bandwidth));
        }
        None if dr == 7 => text.push_str(",\"bitRate\":50000"),
        None => {}
    }
}

// Puts where and how a copy was heard.
#[tactic(auto, unfolding(crate::specs::Uplink::heard_text))]
fn put_heard(text: &mut Text, copy: &Heard)
    requires { array_string_len text.old + 120 ≤ 6400 }
    ensures bytes { text.new.bytes ≡ text.old.bytes ++ heard_text copy.now }
    ensures len { array_string_len text.new ≤ array_string_len text.old + 120 }
{
    text.push_str("{\"gatewayId\":\"");
    put_identity(text, copy.gateway.0);
    put_number(text, "\",\"moment\":", copy.moment);
    put_number(text, ",\"frequency\":", u64::from(copy.freq));
    put_number(text, ",\"dr\":", u64::from(copy.dr));
}

// Puts how strong a copy was.
#[tactic(auto, unfolding(crate::specs::Uplink::signal_text))]
fn put_signal(text: &mut Text, copy: &Heard)
    requires { array_string_len text.old + 100 ≤ 6400 }
    ensures bytes { text.new.bytes ≡ text.old.bytes ++ signal_text copy.now }
    ensures len { array_string_len text.new ≤ array_string_len text.old + 100 }
{
    put_tenths(text, ",\"rssi\":", &copy.rssi);
    put_tenths(text, ",\"snr\":", &copy.snr);
    text.push_str("}");
}

// Puts a copy.
#[tactic(auto, unfolding(crate::specs::Uplink::copy_text))]
fn put_copy(text: &mut Text, copy: &Heard)
    requires { array_string_len text.old + 300 ≤ 6400 }
    ensures bytes { text.new.bytes ≡ text.old.bytes ++ copy_text copy.now }
    ensures len { array_string_len text.new ≤ array_string_len text.old + 300 }
{
    put_heard(text, copy);
    put_rate(text, copy.dr);
    put_signal(text, copy);
}

// Puts a comma and a copy.
fn put_next_copy(text: &mut Text, copy: &Heard)
    requires { array_string_len text.old + 301 ≤ 6400 }
    ensures bytes { text.new.bytes ≡ text.old.bytes ++ (codes "," ++ copy_text copy.now) }
    ensures len { array_string_len text.new ≤ array_string_len text.old + 301 }
{
    text.push_str(",");
    put_copy(text, copy);
}

// Puts a comma and a copy for each of some copies.
fn put_more_copies(text: &mut Text, copies: &[Heard])
    requires { array_string_len text.old + 301 * length copies.now ≤ 6400 }
    ensures bytes { text.new.bytes ≡ text.old.bytes ++ flat_map (λ c. codes "," ++ copy_text c) copies.now }
    ensures len { array_string_len text.new ≤ array_string_len text.old + 301 * length copies.now }
{
    for copy in copies {
        put_next_copy(text, copy);
    }
}

// Puts copies.
#[tactic(auto, unfolding(crate::specs::Uplink::copies_text))]
fn put_copies(text: &mut Text, copies: &[Heard])
    requires { array_string_len text.old + 301 * length copies.now ≤ 6400 }
    ensures bytes { text.new.bytes ≡ text.old.bytes ++ copies_text copies.now }
    ensures len { array_string_len text.new ≤ array_string_len text.old + 301 * length copies.now }
{
    if let Some((first, others)) = copies.split_first() {
        put_copy(text, first);
        put_more_copies(text, others);
    }
}

// Puts what is known of an uplink but for its copies.
#[tactic(auto, unfolding(crate::specs::Uplink::front_text))]
fn put_front(text: &mut Text, times: &Option<Times>, uplink: &Uplink)
    requires { array_string_len text.old + 1370 ≤ 6400 }
    ensures bytes { text.new.bytes ≡ text.old.bytes ++ front_text times.now uplink.now }
    ensures len { array_string_len text.new ≤ array_string_len text.old + 1370 }
{
    text.push_str("{");
    put_times(text, times);
    put_frame(text, uplink);
    put_port(text, uplink.port);
    put_control(text, uplink.confirmed, uplink.fctrl);
    put_options(text, uplink);
    put_payload(text, uplink.payload.as_slice());
}

/// The JSON object of an uplink on one line without its line feed: where `times` has them, when the first copy came and when the line
/// was written; then DevEUI and DevAddr, session, FCnt, port, type, flags, options, payload in hex and in base64, and each copy.
#[tactic(auto, unfolding(crate::specs::Uplink::uplink_json))]
pub fn uplink_json(times: &Option<Times>, uplink: &Uplink) -> Text
    ensures { result.bytes ≡ uplink_json times.now uplink.now }
{
    let mut text = Text::new();
    put_front(&mut text, times, uplink);
    text.push_str(",\"rxInfo\":[");
    put_copies(&mut text, uplink.copies.as_slice());
    text.push_str("]}");
    text
}
