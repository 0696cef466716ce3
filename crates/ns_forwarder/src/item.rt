//! One frame in a PUSH_DATA: an item of its list `rxpk`.

ghost use Rattle.std.specs.Prelude.{◌≡◌, ◌≤◌, ◌<◌, length, option_map, IfOk, IfSome};
ghost use Rattle.std.specs.Float.{binary64, round_ties_even};
ghost use Rattle.std.specs.Float.Ieee.{mul};
ghost use Rattle.serde_json.specs.View.{view};
ghost use Rattle.ns_types.specs.Results.{Gives};
ghost use Rattle.ns_forwarder.specs.declared.fault.ForwarderFault.TheVariants.{NoMemory};
ghost use Rattle.ns_forwarder.specs.Rxpk.{level_at, hertz_of, tenths_at, crc_of, lora_rate, rate_of, snr_of, frame_of, is_size_of, counter_of, item_of};
ghost use Rattle.ns_forwarder.specs.Held.{item_view};
ghost use Rattle.ns_forwarder.specs.Uplink.{IsOfBand};

use crate::ForwarderFault;
use base64::DecodeAllocError;
use base64::engine::general_purpose::STANDARD_PAD_INDIFFERENT;
use ns_roster::field::{is_missing, text_at, whole_at};
use serde_json::Value;
use std::alloc::Global;
use std::num::{saturating_f64_to_i32, saturating_f64_to_u32};

/// No number of radio is as far from 0.
pub(crate) const FAR: f64 = 1_000_000_000.0;

pub(crate) const FAR_BELOW: f64 = -1_000_000_000.0;
/// Hz in a MHz.
pub(crate) const MILLION: f64 = 1_000_000.0;

pub(crate) const TEN: f64 = 10.0;
/// The band, in Hz (EU868).
pub(crate) const LOWEST_FREQUENCY: u32 = 863_000_000;

pub(crate) const HIGHEST_FREQUENCY: u32 = 870_000_000;
/// The data rate of FSK, and its bits in a second (EU868).
pub(crate) const FSK_RATE: u8 = 7;

pub(crate) const FSK_BITS: u64 = 50_000;

/// What an item says of a frame with a CRC that fits, of EU868.
#[derive(Drop)]
pub struct Item {
    /// The gateway's counter at the frame's end, in microseconds.
    pub counter: u32,
    /// The frequency, in Hz.
    pub freq: u32,
    /// The data rate (EU868: 0 to 7).
    pub dr: u8,
    /// The signal's strength, in tenths of dBm.
    pub rssi: i16,
    /// The signal's strength over the noise, in tenths of dB.
    pub snr: i16,
    /// The frame, of at most 255 bytes.
    pub frame: Vec<u8>,
}

// A number at a key that could be one of radio.
fn level_at(item: &Value, key: &str) -> Option<f64>
    ensures { result ≡ level_at key.now (view item.now) }
{
    let level = item.get(key)?.as_f64()?;
    if FAR_BELOW < level && level < FAR {
        Some(level)
    } else {
        None
    }
}

// The frequency in Hz: `freq`, in MHz.
pub(crate) fn hertz_of(item: &Value) -> Option<u32>
    ensures { result ≡ hertz_of (view item.now) }
{
    let megahertz = level_at(item, "freq")?;
    Some(saturating_f64_to_u32((megahertz * MILLION).round_ties_even()))
}

// A level at a key in tenths.
pub(crate) fn tenths_at(item: &Value, key: &str) -> Option<i16>
    ensures { result ≡ tenths_at key.now (view item.now) }
{
    let level = level_at(item, key)?;
    let tenths = saturating_f64_to_i32((level * TEN).round_ties_even());
    if i32::from(i16::MIN) <= tenths && tenths <= i32::from(i16::MAX) {
        Some(tenths as i16)
    } else {
        None
    }
}

// Whether the CRC fits: `stat` is 1 where it does, -1 where it does not, and 0 where there was none.
pub(crate) fn crc_of(item: &Value) -> Result<(), ForwarderFault>
    ensures { result ≡ crc_of (view item.now) }
{
    let stat = item
        .get("stat")
        .and_then(Value::as_i64)
        .ok_or(ForwarderFault::Field)?;
    if stat == 1 {
        Ok(())
    } else if stat == 0 {
        Err(ForwarderFault::NoCrc)
    } else if stat == -1 {
        Err(ForwarderFault::BadCrc)
    } else {
        Err(ForwarderFault::Field)
    }
}

// The data rate of a name of LoRa (EU868).
fn lora_rate(name: &str) -> Option<u8>
    ensures is { result ≡ lora_rate name.now }
    ensures most { IfSome result (λ dr. dr ≤ 6) }
{
    match name {
        "SF12BW125" => Some(0),
        "SF11BW125" => Some(1),
        "SF10BW125" => Some(2),
        "SF9BW125" => Some(3),
        "SF8BW125" => Some(4),
        "SF7BW125" => Some(5),
        "SF7BW250" => Some(6),
        _ => None,
    }
}

// The data rate of `modu` and `datr`.
pub(crate) fn rate_of(item: &Value) -> Result<u8, ForwarderFault>
    ensures is { result ≡ rate_of (view item.now) }
    ensures most { IfOk result (λ dr. dr ≤ 7) }
{
    let modulation = text_at(item, "modu").ok_or(ForwarderFault::Field)?;
    if modulation == "LORA" {
        let name = text_at(item, "datr").ok_or(ForwarderFault::Field)?;
        lora_rate(name).ok_or(ForwarderFault::Outside)
    } else if modulation == "FSK" {
        let bits = whole_at(item, "datr").ok_or(ForwarderFault::Field)?;
        if bits == FSK_BITS {
            Ok(FSK_RATE)
        } else {
            Err(ForwarderFault::Outside)
        }
    } else {
        Err(ForwarderFault::Outside)
    }
}

// The strength over the noise: `lsnr`, which FSK may leave out.
pub(crate) fn snr_of(item: &Value, dr: u8) -> Option<i16>
    ensures { result ≡ snr_of (view item.now) dr }
{
    if dr == FSK_RATE && is_missing(item, "lsnr") {
        Some(0)
    } else {
        tenths_at(item, "lsnr")
    }
}

// Whether `size` is this, or missing.
fn is_size_of(item: &Value, len: usize) -> bool
    ensures { result ≡ is_size_of len (view item.now) }
{
    match whole_at(item, "size") {
        Some(size) => size == len as u64,
        None => is_missing(item, "size"),
    }
}

// The frame's bytes: `data` in base64, with padding or without, and `size`.
fn frame_of(alloc: Global, item: &Value) -> Result<Vec<u8>, ForwarderFault>
    ensures gives { Gives NoMemory (λ v. v.items) result (frame_of (view item.now)) }
    ensures most { IfOk result (λ v. length v.items ≤ 255) }
{
    let text = text_at(item, "data").ok_or(ForwarderFault::Field)?;
    let frame = match STANDARD_PAD_INDIFFERENT.decode(alloc, text.as_bytes()) {
        Ok(frame) => frame,
        Err(DecodeAllocError::OutOfMemory) => return Err(ForwarderFault::NoMemory),
        Err(DecodeAllocError::DecodeError(_)) => return Err(ForwarderFault::Field),
    };
    if frame.len() > 255 || !is_size_of(item, frame.len()) {
        return Err(ForwarderFault::Field);
    }
    Ok(frame)
}

// The gateway's counter: `tmst`, of 32 bits.
pub(crate) fn counter_of(item: &Value) -> Option<u32>
    ensures { result ≡ counter_of (view item.now) }
{
    let counter = whole_at(item, "tmst")?;
    if counter <= u32::MAX as u64 {
        Some(counter as u32)
    } else {
        None
    }
}

/// Reads an item of the list `rxpk`, or gives its first fault in this order: `stat` (F7, F8, F9), `freq` (F7), `modu` and `datr` (F7,
/// F10), the band (F10), `rssi`, `lsnr`, `data` and `size`, `tmst` (F7). NoMemory where memory ran out before the answer was known.
#[tactic(auto, unfolding(crate::specs::Rxpk::item_of))]
pub(crate) fn read_item(alloc: Global, item: &Value) -> Result<Item, ForwarderFault>
    ensures gives { Gives NoMemory item_view result (item_of (view item.now)) }
    ensures band { IfOk result (λ i. IsOfBand (item_view i)) }
{
    crc_of(item)?;
    let freq = hertz_of(item).ok_or(ForwarderFault::Field)?;
    let dr = rate_of(item)?;
    if freq < LOWEST_FREQUENCY || freq > HIGHEST_FREQUENCY {
        return Err(ForwarderFault::Outside);
    }
    let rssi = tenths_at(item, "rssi").ok_or(ForwarderFault::Field)?;
    let snr = snr_of(item, dr).ok_or(ForwarderFault::Field)?;
    let frame = frame_of(alloc, item)?;
    let counter = counter_of(item).ok_or(ForwarderFault::Field)?;
    Ok(Item {
        counter,
        freq,
        dr,
        rssi,
        snr,
        frame,
    })
}
