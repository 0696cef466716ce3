//! A join server for tests.

ghost use Rattle.std.specs.Prelude.{◌≡◌, ◌≢◌, ◌≤◌, IfOk, IfErr, IfSome, OnOk, OnErr, slice_index, Some, None, option_map, string_bytes, ◌<◌, ◌^◌, []};
ghost use Rattle.ns_device.specs.declared.join_fault.ReplyFault.TheVariants.{NoMemory};
ghost use Rattle.ns_device.specs.Request.{request_in};
ghost use Rattle.ns_types.specs.Ticket.{dev_eui};
ghost use Rattle.ns_aes_cmac.specs.Aes.{IsBlock};
ghost use Rattle.ns_device.specs.Joins.{BeginsAccept, IsAnswered, IsTaken, IsTakenIfGranted};
ghost use Rattle.ns_device.specs.Server.{app_key, HasAdded, IsJoinNonce, join_nonce_after, answer_to, granted, join_mic_fits, after, answer_text};

use crate::answer::{Answer, Grant};
use crate::join_fault::ReplyFault;
use crate::laws::created_accepts_are_taken;
use crate::request::JoinReq;
use ns_creator::{JoinAcceptCreator, Keys};
use ns_roster::field::value_of;
use ns_secure::{join_mic_of, session_keys};
use ns_types::{DevEui, Key, Ticket};
use std::alloc::{AllocError, Global};
use std::collections::HashMap;
use std::marker::Model;

const MAX_JOIN_NONCE: u32 = 0xFF_FFFF;

/// A join server for tests: it answers the JoinReq of a device that it knows with a Join-Accept and the session keys.
#[derive(Drop)]
pub struct TestJoinServer {
    // Each device's AppKey at its DevEUI.
    app_keys: HashMap<u64, Key>,
    // The next Join-Accept's JoinNonce, 1 to 16,777,215.
    next_join_nonce: u32,
}

impl Model for TestJoinServer {
    ghost use Rattle.ns_device.specs.Server.{JoinServer, IsJoinNonce};

    ghost Value = { JoinServer };

    ghost view = { λ s. record { app_keys = s.app_keys.entries; next_join_nonce = s.next_join_nonce } };

    ghost invariant = { λ s. IsJoinNonce s.next_join_nonce };
}

// The JoinNonce behind this one.
fn join_nonce_after(join_nonce: u32) -> u32
    requires { join_nonce ≤ 16777215 }
    ensures is { result ≡ join_nonce_after join_nonce }
{
    if join_nonce == MAX_JOIN_NONCE {
        1
    } else {
        join_nonce + 1
    }
}

// Whether the Join-Request's MIC is that of the AppKey.
fn join_mic_fits(ticket: &Ticket, app_key: &Key) -> bool
    ensures { result ≡ join_mic_fits ticket.now app_key.now.0 }
{
    let (signed, mic) = ticket.0.split_at(19);
    join_mic_of(app_key, signed).0.as_slice() == mic
}

// The bytes of a key, which are a block of AES-128, as the law of joins asks.
fn key_bytes(key: &[u8; 16]) -> &[u8]
    ensures are { result.now ≡ key.now }
    ensures block { IsBlock key.now }
{
    key.as_slice()
}

// What the device with this AppKey is granted.
fn granted(request: &JoinReq, app_key: &Key, nonce: u32) -> Grant
    requires { request.now.net_id.0 < 2 ^ 24 }
    ensures is { result ≡ granted request.now app_key.now nonce }
    ensures taken { IsTaken app_key.now request.now result }
    ensures mhdr { slice_index result.accept 0 ≡ 0x20 }
{
    created_accepts_are_taken();
    let _bytes = key_bytes(&app_key.0);
    let [a, b, c, _] = nonce.to_le_bytes();
    let join_nonce = [a, b, c];
    let creator = JoinAcceptCreator {
        join_nonce,
        net_id: request.net_id,
        addr: request.addr,
        dl_settings: request.dl_settings,
        rx_delay: request.rx_delay,
        cflist: None,
    };
    let keys = Keys {
        nwk: *app_key,
        app: *app_key,
        root: *app_key,
    };
    let mut accept = [0; 17];
    let _ = creator.write_into(&keys, &mut accept);
    let (nwk, app) = session_keys(app_key, join_nonce, request.net_id, request.ticket.nonce());
    Grant { accept, nwk, app }
}

impl TestJoinServer {
    /// A join server that knows no device. Its first JoinNonce is 1.
    pub fn new(alloc: Global) -> Self
        ensures { result ≡ record { app_keys = []; next_join_nonce = 1 } }
    {
        TestJoinServer::with_join_nonce(alloc, 1)
    }

    /// A join server that knows no device, and whose first JoinNonce is this (L2 6.2.3, JoinNonce).
    pub fn with_join_nonce(alloc: Global, next_join_nonce: u32) -> Self
        requires { IsJoinNonce next_join_nonce }
        ensures { result ≡ record { app_keys = []; next_join_nonce = next_join_nonce } }
    {
        TestJoinServer {
            app_keys: HashMap::new(alloc),
            next_join_nonce,
        }
    }

    /// Makes a device with its AppKey known. It is refused only where memory ran out. A device that is known gets the new AppKey.
    pub fn add(&mut self, dev_eui: DevEui, app_key: Key) -> Result<(), AllocError>
        ensures added { OnOk result (HasAdded self.old dev_eui app_key self.new) }
        ensures refused { OnErr result (self.new ≡ self.old) }
    {
        self.app_keys.insert(dev_eui.0, app_key)?;
        Ok(())
    }

    // What is answered to a JoinReq.
    fn answer(&self, request: &JoinReq) -> Answer
        requires { request.now.net_id.0 < 2 ^ 24 }
        ensures is { result ≡ answer_to self.now request.now }
        ensures taken { IsTakenIfGranted (app_key self.now (dev_eui request.now.ticket).0) request.now result }
        ensures mhdr { BeginsAccept result }
    {
        match self.app_keys.get(&request.ticket.dev_eui().0) {
            None => Answer::Other,
            Some(app_key) => {
                if join_mic_fits(&request.ticket, app_key) {
                    Answer::Success(granted(request, app_key, self.next_join_nonce))
                } else {
                    Answer::MicFailed
                }
            }
        }
    }

    /// The text that answers a JoinReq's text (TS002, JoinAns): `Success` with the Join-Accept and the session keys, `MICFailed`
    /// where the Join-Request's MIC doesn't fit the device's AppKey, `Other` for a device that isn't known. After a success the
    /// next JoinNonce is used. Refuses B1 a text that is no JoinReq; NoMemory where memory ran out before that was known or
    /// the text was written.
    pub fn reply(&mut self, alloc: Global, text: &[u8]) -> Result<String, ReplyFault>
        ensures reply { IfOk result (λ s. option_map (answer_text self.old) (request_in text.now) ≡ Some (string_bytes s)) }
        ensures answered { IfOk result (λ s. IfSome (request_in text.now) (IsAnswered self.old (string_bytes s))) }
        ensures after { OnOk result (option_map (after self.old) (request_in text.now) ≡ Some self.new) }
        ensures fault { IfErr result (λ e. e ≢ NoMemory → request_in text.now ≡ None) }
        ensures refused { OnErr result (self.new ≡ self.old) }
    {
        let message = value_of(alloc, text)?.ok_or(ReplyFault::NoJoinReq)?;
        let request = JoinReq::of(&message).ok_or(ReplyFault::NoJoinReq)?;
        let answer = self.answer(&request);
        let reply = answer.text(alloc, request.transaction)?;
        if answer.is_success() {
            self.next_join_nonce = join_nonce_after(self.next_join_nonce);
        }
        Ok(reply)
    }
}
