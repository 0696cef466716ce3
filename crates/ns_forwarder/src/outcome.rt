//! What a forwarder says came of a downlink.

ghost use Rattle.std.specs.Prelude.{◌≡◌};
ghost use Rattle.serde_json.specs.View.{view};
ghost use Rattle.ns_types.specs.Results.{Gives};
ghost use Rattle.ns_forwarder.specs.declared.fault.ForwarderFault.TheVariants.{NoMemory};
ghost use Rattle.ns_forwarder.specs.TxAck.{are_blank, is_blank, named, outcome_of, tx_ack_of};

use crate::ForwarderFault;
use ns_roster::field::value_of;
use serde_json::Value;
use std::alloc::Global;

/// What came of a downlink.
#[derive(Clone, Copy, Debug, PartialEq, Eq)]
pub enum Outcome {
    /// It is to be sent: NONE, or no error.
    Sent,
    /// TOO_LATE: its moment had passed.
    TooLate,
    /// TOO_EARLY: its moment is too far ahead.
    TooEarly,
    /// COLLISION_PACKET: another frame is to be sent then.
    CollisionPacket,
    /// COLLISION_BEACON: a beacon is to be sent then.
    CollisionBeacon,
    /// TX_FREQ: the gateway does not send at its frequency.
    TxFreq,
    /// TX_POWER: the gateway does not send with its power.
    TxPower,
    /// GPS_UNLOCKED: its moment is one of GPS, which the gateway does not have.
    GpsUnlocked,
    /// Another error.
    Other,
}

// Whether a byte is NUL, a line feed, a carriage return or a space.
fn is_blank(byte: u8) -> bool
    ensures { result ≡ is_blank byte }
{
    byte == 0 || byte == b'\n' || byte == b'\r' || byte == b' '
}

// Whether there is nothing but these.
fn are_blank(body: &[u8]) -> bool
    ensures { result ≡ are_blank body.now }
{
    for &byte in body {
        if !is_blank(byte) {
            return false;
        }
    }
    true
}

// The outcome of an error's name.
fn named(name: &str) -> Outcome
    ensures { result ≡ named name.now }
{
    match name {
        "NONE" => Outcome::Sent,
        "TOO_LATE" => Outcome::TooLate,
        "TOO_EARLY" => Outcome::TooEarly,
        "COLLISION_PACKET" => Outcome::CollisionPacket,
        "COLLISION_BEACON" => Outcome::CollisionBeacon,
        "TX_FREQ" => Outcome::TxFreq,
        "TX_POWER" => Outcome::TxPower,
        "GPS_UNLOCKED" => Outcome::GpsUnlocked,
        _ => Outcome::Other,
    }
}

// The outcome of `txpk_ack`.
fn outcome_of(ack: &Value) -> Outcome
    ensures { result ≡ outcome_of (view ack.now) }
{
    if ack.as_object().is_none() {
        return Outcome::Other;
    }
    match ack.get("error") {
        Some(error) => match error.as_str() {
            Some(name) => named(name),
            None => Outcome::Other,
        },
        None => Outcome::Sent,
    }
}

/// Reads the body of a TX_ACK: what came of the downlink with its token. A blank body and one without `txpk_ack` or without an error tell
/// no error. F6 where another body is no JSON object; NoMemory where memory ran out before the answer was known.
pub fn read_tx_ack(alloc: Global, body: &[u8]) -> Result<Outcome, ForwarderFault>
    ensures { Gives NoMemory (λ o. o) result (tx_ack_of body.now) }
{
    if are_blank(body) {
        return Ok(Outcome::Sent);
    }
    let root = value_of(alloc, body)?.ok_or(ForwarderFault::Body)?;
    root.as_object().ok_or(ForwarderFault::Body)?;
    match root.get("txpk_ack") {
        Some(ack) => Ok(outcome_of(ack)),
        None => Ok(Outcome::Sent),
    }
}
