//! The message that asks a forwarder to send a frame.

ghost use Rattle.std.specs.Prelude.{◌≡◌, ◌≤◌, ◌%◌, ◌^◌, ◌⊎◌, true, false, Some, length, IfOk, IfErr, OnOk, string_bytes};
ghost use Rattle.serde_json.specs.View.{view};
ghost use Rattle.serde_json.specs.Data.{number, float};
ghost use Rattle.ns_roster.specs.Field.{value_of};
ghost use Rattle.ns_roster.specs.Object.{scalar_data};
ghost use Rattle.ns_roster.specs.declared.object.Scalar.TheVariants.{Float};
ghost use Rattle.ns_link.specs.Datagram.{lowest_frequency, highest_frequency};
ghost use Rattle.ns_forwarder.specs.declared.fault.ForwarderFault.TheVariants.{NoMemory, Downlink};
ghost use Rattle.ns_forwarder.specs.Txpk.{is_of_band, rate_name, megahertz, base64, lora, fsk, txpk, request, IsPullResp, SaysToSend};

use crate::ForwarderFault;
use crate::item::{FSK_BITS, FSK_RATE, HIGHEST_FREQUENCY, LOWEST_FREQUENCY, MILLION};
use base64::engine::general_purpose::STANDARD_PAD_INDIFFERENT;
use ns_roster::object::Scalar::{Float, Text, Truth, Whole, Word};
use ns_roster::object::object_of;
use ns_types::Target;
use serde_json::{Value, json};
use std::alloc::{AllocError, Global};

/// The identifier of a PULL_RESP.
const PULL_RESP: u8 = 0x03;
/// How many bytes stand before its body.
const HEAD: usize = 4;
/// How far a counter of 32 bits counts.
const WRAP: u64 = 0x1_0000_0000;
/// The deviation of FSK, in Hz (EU868).
const FSK_DEVIATION: u64 = 25_000;

// The name of a data rate of LoRa.
fn rate_name(dr: u8) -> &'static str
    ensures { result.now ≡ rate_name dr }
{
    match dr {
        0 => "SF12BW125",
        1 => "SF11BW125",
        2 => "SF10BW125",
        3 => "SF9BW125",
        4 => "SF8BW125",
        5 => "SF7BW125",
        _ => "SF7BW250",
    }
}

// The counter of a moment: its low 32 bits.
fn counter(moment: u64) -> u32
    ensures { result ≡ moment % 2 ^ 32 }
{
    (moment % WRAP) as u32
}

// A frequency of EU868 in MHz, which is a number of JSON.
fn megahertz(freq: u32) -> f64
    requires lowest { lowest_frequency ≤ freq }
    requires highest { freq ≤ highest_frequency }
    ensures is { result ≡ megahertz freq }
    ensures finite { scalar_data (Float result) ≡ number (float (megahertz freq)) }
{
    f64::from(freq) / MILLION
}

// The bytes of a frame in base64.
fn base64_text(alloc: Global, frame: &[u8]) -> Result<String, AllocError>
    ensures { IfOk result (λ s. string_bytes s ≡ base64 frame.now) }
{
    STANDARD_PAD_INDIFFERENT.encode(alloc, frame)
}

// The `txpk` of LoRa.
fn lora(alloc: Global, target: &Target, power: u8, frame: &[u8]) -> Result<Value, AllocError>
    requires lowest { lowest_frequency ≤ target.now.freq }
    requires highest { target.now.freq ≤ highest_frequency }
    ensures { IfOk result (λ v. view v ≡ lora target.now power frame.now) }
{
    let data = base64_text(alloc, frame)?;
    object_of(
        alloc,
        &[
            ("codr", Word("4/5")),
            ("data", Text(data.as_str())),
            ("datr", Word(rate_name(target.dr))),
            ("freq", Float(megahertz(target.freq))),
            ("imme", Truth(false)),
            ("ipol", Truth(true)),
            ("modu", Word("LORA")),
            ("ncrc", Truth(true)),
            ("powe", Whole(power as u64)),
            ("rfch", Whole(0)),
            ("size", Whole(frame.len() as u64)),
            ("tmst", Whole(counter(target.moment) as u64)),
        ],
    )
}

// The `txpk` of FSK.
fn fsk(alloc: Global, target: &Target, power: u8, frame: &[u8]) -> Result<Value, AllocError>
    requires lowest { lowest_frequency ≤ target.now.freq }
    requires highest { target.now.freq ≤ highest_frequency }
    ensures { IfOk result (λ v. view v ≡ fsk target.now power frame.now) }
{
    let data = base64_text(alloc, frame)?;
    object_of(
        alloc,
        &[
            ("data", Text(data.as_str())),
            ("datr", Whole(FSK_BITS)),
            ("fdev", Whole(FSK_DEVIATION)),
            ("freq", Float(megahertz(target.freq))),
            ("imme", Truth(false)),
            ("modu", Word("FSK")),
            ("powe", Whole(power as u64)),
            ("rfch", Whole(0)),
            ("size", Whole(frame.len() as u64)),
            ("tmst", Whole(counter(target.moment) as u64)),
        ],
    )
}

// The `txpk` of a frame.
fn txpk(alloc: Global, target: &Target, power: u8, frame: &[u8]) -> Result<Value, AllocError>
    requires lowest { lowest_frequency ≤ target.now.freq }
    requires highest { target.now.freq ≤ highest_frequency }
    ensures { IfOk result (λ v. view v ≡ txpk target.now power frame.now) }
{
    if target.dr == FSK_RATE {
        fsk(alloc, target, power, frame)
    } else {
        lora(alloc, target, power, frame)
    }
}

// The value of the body.
fn request(alloc: Global, target: &Target, power: u8, frame: &[u8]) -> Result<Value, AllocError>
    requires lowest { lowest_frequency ≤ target.now.freq }
    requires highest { target.now.freq ≤ highest_frequency }
    ensures { IfOk result (λ v. view v ≡ request target.now power frame.now) }
{
    let txpk = txpk(alloc, target, power, frame)?;
    json!(in alloc; { "txpk": txpk })
}

// The body of the message.
fn body(alloc: Global, target: &Target, power: u8, frame: &[u8]) -> Result<String, AllocError>
    requires lowest { lowest_frequency ≤ target.now.freq }
    requires highest { target.now.freq ≤ highest_frequency }
    ensures { IfOk result (λ s. value_of (string_bytes s) ≡ Some (request target.now power frame.now)) }
{
    request(alloc, target, power, frame)?.to_string(alloc)
}

/// Writes the message that asks a forwarder to send a frame of at most 255 bytes at a moment of its gateway's clock, with a power in dBm:
/// a PULL_RESP of the version of its PULL_DATA, with a token that its TX_ACK repeats. F11 where the frequency or the data rate is not of
/// EU868; NoMemory where memory ran out.
pub fn pull_resp(
    alloc: Global,
    version: u8,
    token: [u8; 2],
    target: &Target,
    power: u8,
    frame: &[u8],
) -> Result<Vec<u8>, ForwarderFault>
    requires { length frame.now ≤ 255 }
    ensures is { IfOk result (λ v. IsPullResp v.items version token (request target.now power frame.now)) }
    ensures says { OnOk result (SaysToSend (txpk target.now power frame.now) target.now frame.now) }
    ensures taken { OnOk result (is_of_band target.now ≡ true) }
    ensures refused { IfErr result (λ e. (e ≡ NoMemory) ⊎ ((e ≡ Downlink) × (is_of_band target.now ≡ false))) }
{
    if target.freq < LOWEST_FREQUENCY || target.freq > HIGHEST_FREQUENCY || target.dr > FSK_RATE {
        return Err(ForwarderFault::Downlink);
    }
    let text = body(alloc, target, power, frame)?;
    let [first, second] = token;
    let mut bytes = Vec::with_capacity(alloc, HEAD + text.len())?;
    bytes.extend_from_slice(&[version, first, second, PULL_RESP])?;
    bytes.extend_from_slice(text.as_bytes())?;
    Ok(bytes)
}
