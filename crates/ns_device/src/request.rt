//! What a join server is asked (TS002, JoinReq).

ghost use Rattle.std.specs.Prelude.{◌≡◌, ◌<◌, ◌^◌, IfSome};
ghost use Rattle.serde_json.specs.View as json;
ghost use Rattle.ns_device.specs.Request.{bytes_at, is_join_request, ticket_at, net_id_at, addr_at, settings_at, delay_at, transaction_at, request_of};

use ns_roster::field::{hex_bytes, text_at, whole_at};
use ns_types::{DevAddr, NetId, Ticket};
use ns_views::{PhyView, view};
use serde_json::Value;

const MAX_RX_DELAY: u64 = 15;

/// What a JoinReq asks: the Join-Request, and what the Join-Accept is to have.
#[derive(Clone, Copy)]
pub struct JoinReq {
    pub ticket: Ticket,
    pub net_id: NetId,
    pub addr: DevAddr,
    pub dl_settings: u8,
    pub rx_delay: u8,
    pub transaction: u32,
}

impl JoinReq {
    /// What the message asks, or None where it is no JoinReq.
    #[tactic(auto, unfolding(crate::specs::Request::request_of))]
    pub(crate) fn of(message: &Value) -> Option<JoinReq>
        ensures is { result ≡ request_of (json.view message.now) }
        ensures net_id { IfSome result (λ r. r.net_id.0 < 2 ^ 24) }
    {
        if text_at(message, "MessageType")? != "JoinReq" {
            return None;
        }
        let ticket = ticket_at(message)?;
        let net_id = net_id_at(message)?;
        let addr = addr_at(message)?;
        let dl_settings = settings_at(message)?;
        let rx_delay = delay_at(message)?;
        let transaction = transaction_at(message)?;
        Some(JoinReq {
            ticket,
            net_id,
            addr,
            dl_settings,
            rx_delay,
            transaction,
        })
    }
}

// The N bytes that the text at a key spells in hex.
fn bytes_at<const N: usize>(message: &Value, key: &str) -> Option<[u8; N]>
    ensures { result ≡ bytes_at N key.now (json.view message.now) }
{
    hex_bytes::<N>(text_at(message, key)?)
}

// Whether 23 bytes are a Join-Request.
fn is_join_request(frame: &[u8; 23]) -> bool
    ensures { result ≡ is_join_request frame.now }
{
    matches!(view(frame), Ok(PhyView::Join(_)))
}

// PHYPayload: a Join-Request.
fn ticket_at(message: &Value) -> Option<Ticket>
    ensures { result ≡ ticket_at (json.view message.now) }
{
    let frame = bytes_at::<23>(message, "PHYPayload")?;
    if is_join_request(&frame) {
        Some(Ticket(frame))
    } else {
        None
    }
}

// SenderID: the NetID of the network that asks.
fn net_id_at(message: &Value) -> Option<NetId>
    ensures is { result ≡ net_id_at (json.view message.now) }
    ensures bits { IfSome result (λ n. n.0 < 2 ^ 24) }
{
    let [a, b, c] = bytes_at::<3>(message, "SenderID")?;
    Some(NetId(u32::from_be_bytes([0, a, b, c])))
}

// DevAddr: the address that the device is to have.
fn addr_at(message: &Value) -> Option<DevAddr>
    ensures { result ≡ addr_at (json.view message.now) }
{
    let bytes = bytes_at::<4>(message, "DevAddr")?;
    Some(DevAddr(u32::from_be_bytes(bytes)))
}

// DLSettings, of one byte.
fn settings_at(message: &Value) -> Option<u8>
    ensures { result ≡ settings_at (json.view message.now) }
{
    let [settings] = bytes_at::<1>(message, "DLSettings")?;
    Some(settings)
}

// RxDelay: a whole number of four bits.
fn delay_at(message: &Value) -> Option<u8>
    ensures { result ≡ delay_at (json.view message.now) }
{
    let delay = whole_at(message, "RxDelay")?;
    if delay <= MAX_RX_DELAY {
        Some(delay as u8)
    } else {
        None
    }
}

// TransactionID: a whole number of 32 bits.
fn transaction_at(message: &Value) -> Option<u32>
    ensures { result ≡ transaction_at (json.view message.now) }
{
    let number = whole_at(message, "TransactionID")?;
    if number <= u32::MAX as u64 {
        Some(number as u32)
    } else {
        None
    }
}
