//! The heads of messages, and what acknowledges them.

ghost use Rattle.std.specs.Prelude.{◌≡◌, ◌≤◌, ◌≢◌, ℕ, List, length, drop, option_map, Ok, IfOk, Some, None};
ghost use Rattle.std.specs.Int.{w64, from_be_bytes};
ghost use Rattle.ns_forwarder.specs.declared.head.Head.{Head};
ghost use Rattle.ns_forwarder.specs.Message.{IsMessage, message_of, kind_of, ack_of, gateway_of};

use crate::ForwarderFault;
use ns_types::{GatewayId, array_at};
use std::marker::Model;

/// How many bytes stand before the body.
const HEAD: usize = 12;
/// The longest message that is looked at, in bytes.
const MOST_BYTES: usize = 16_384;

/// What a forwarder sends.
#[derive(Clone, Copy, PartialEq, Eq)]
pub enum Kind {
    /// PUSH_DATA: frames that were heard, and the gateway's report.
    PushData,
    /// PULL_DATA: downlinks for the gateway go to this address.
    PullData,
    /// TX_ACK: what came of a downlink.
    TxAck,
}

impl Kind {
    /// The kind of an identifier.
    pub fn of(identifier: u8) -> Option<Kind>
        ensures { result ≡ kind_of identifier }
    {
        match identifier {
            0x00 => Some(Kind::PushData),
            0x02 => Some(Kind::PullData),
            0x05 => Some(Kind::TxAck),
            _ => None,
        }
    }
}

/// The 12 bytes before a message's body.
#[derive(Clone, Copy)]
pub struct Head {
    /// The version of the protocol, 1 or 2.
    pub version: u8,
    /// What the acknowledgement repeats.
    pub token: [u8; 2],
    /// What was sent.
    pub kind: Kind,
    /// Who sent it: the gateway's EUI.
    pub gateway: GatewayId,
}

impl Head {
    /// The message that acknowledges this one: PUSH_ACK, PULL_ACK, or none to a TX_ACK.
    pub fn ack(&self) -> Option<[u8; 4]>
        ensures { result ≡ ack_of self.now }
    {
        let [first, second] = self.token;
        match self.kind {
            Kind::PushData => Some([self.version, first, second, 0x01]),
            Kind::PullData => Some([self.version, first, second, 0x04]),
            Kind::TxAck => None,
        }
    }
}

/// A message, whose body is lent from its bytes. A contract sees head and body as a pair.
#[derive(Drop)]
pub struct Message<'a> {
    head: Head,
    body: &'a [u8],
}

impl<'a> Model for Message<'a> {
    ghost Value = { Head × List ℕ };

    ghost view = { λ m. (m.head, m.body.now) };
}

impl<'a> Message<'a> {
    /// The 12 bytes before the body.
    pub fn head(&self) -> Head
        ensures { result ≡ self.now.0 }
    {
        self.head
    }

    /// The body, which is bytes 12 onwards.
    pub fn body(&self) -> &'a [u8]
        ensures { result.now ≡ self.now.1 }
    {
        self.body
    }
}

/// Reads a message of a forwarder: exactly the bytes of the layout are taken. Of other bytes it gives the first fault in the order of
/// the numbers: F1 more than 16,384 bytes, F2 fewer than 12, F3 the version, F4 the identifier. No body is looked at.
pub fn read_message(bytes: &[u8]) -> Result<Message<'_>, ForwarderFault>
    ensures gives { result ≡ message_of bytes.now }
    ensures found { IfOk result (λ m. IsMessage bytes.now m.0 m.1) }
    ensures only { (head : Head) (body : List ℕ) → IsMessage bytes.now head body → result ≡ Ok (head, body) }
{
    if bytes.len() > MOST_BYTES {
        return Err(ForwarderFault::TooLong);
    }
    if bytes.len() < HEAD {
        return Err(ForwarderFault::Short);
    }
    if bytes[0] != 1 && bytes[0] != 2 {
        return Err(ForwarderFault::Version);
    }
    let kind = Kind::of(bytes[3]).ok_or(ForwarderFault::Kind)?;
    let gateway = gateway_of(bytes);
    let head = Head {
        version: bytes[0],
        token: [bytes[1], bytes[2]],
        kind,
        gateway,
    };
    let body = &bytes[HEAD..];
    Ok(Message { head, body })
}

// The gateway's EUI, highest byte first.
fn gateway_of(bytes: &[u8]) -> GatewayId
    requires { 12 ≤ length bytes.now }
    ensures { result ≡ gateway_of bytes.now }
{
    GatewayId(u64::from_be_bytes(array_at(bytes, 4)))
}
