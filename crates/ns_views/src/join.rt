//! The view of a Join-Request (LoRaWAN L2 1.0.4, 6.2.5).

ghost use Rattle.std.specs.Prelude.{◌≡◌, ◌<◌, ◌≤◌, List, ℕ, length, IsTrue, OnOk, IfOk, IfErr, Some, None};
ghost use Rattle.ns_types.specs.Ticket.{dev_eui, join_eui, nonce};
ghost use Rattle.ns_views.specs.Grammar.{IsJoinRequest};
ghost use Rattle.ns_views.specs.Frame.{join_fields, is_join_type, major_of, view_fault};

use crate::ViewFault;
use ns_types::{DevEui, DevNonce, JoinEui, Mic, Ticket, array_at};
use std::marker::Model;

/// A Join-Request. A contract sees its bytes.
#[derive(Drop)]
pub struct JoinView<'a> {
    bytes: &'a [u8],
}

impl<'a> Model for JoinView<'a> {
    ghost Value = { List ℕ };

    ghost view = { λ v. v.bytes.now };

    ghost invariant = { λ v. IsJoinRequest v.bytes.now (join_fields v.bytes.now) };
}

impl<'a> JoinView<'a> {
    /// The view of bytes with Major 0 and the type of a Join-Request. V5 where they are not 23.
    pub(crate) fn of(bytes: &'a [u8]) -> Result<JoinView<'a>, ViewFault>
        requires present { 0 < length bytes.now }
        requires major { major_of bytes.now ≡ 0 }
        requires join { IsTrue (is_join_type bytes.now) }
        ensures ok { IfOk result (λ v. (v ≡ bytes.now) × IsJoinRequest bytes.now (join_fields bytes.now)) }
        ensures no_fault { OnOk result (view_fault bytes.now ≡ None) }
        ensures err { IfErr result (λ f. view_fault bytes.now ≡ Some f) }
    {
        if bytes.len() != 23 {
            return Err(ViewFault::JoinLength);
        }
        Ok(JoinView { bytes })
    }

    /// The 23 bytes.
    fn bytes(&self) -> &'a [u8]
        ensures value { result.now ≡ self.now }
        ensures request { IsJoinRequest self.now (join_fields self.now) }
        ensures len { length self.now ≡ 23 }
    {
        self.bytes
    }

    /// The EUI of the join server.
    pub fn join_eui(&self) -> JoinEui
        ensures { result.0 ≡ (join_fields self.now).join_eui }
    {
        JoinEui(u64::from_le_bytes(array_at(self.bytes(), 1)))
    }

    /// The EUI of the device.
    pub fn dev_eui(&self) -> DevEui
        ensures { result.0 ≡ (join_fields self.now).dev_eui }
    {
        DevEui(u64::from_le_bytes(array_at(self.bytes(), 9)))
    }

    /// DevNonce: the device's counter of Join-Requests.
    pub fn nonce(&self) -> DevNonce
        ensures { result.0 ≡ (join_fields self.now).nonce }
    {
        DevNonce(u16::from_le_bytes(array_at(self.bytes(), 17)))
    }

    /// The last four bytes.
    pub fn mic(&self) -> Mic
        ensures { result.0 ≡ (join_fields self.now).mic }
    {
        Mic(array_at(self.bytes(), 19))
    }

    /// The request as the name of a join in progress.
    pub fn ticket(&self) -> Ticket
        ensures bytes { result.0 ≡ self.now }
        ensures request { IsJoinRequest result.0 (join_fields self.now) }
        ensures join_eui { (join_eui result).0 ≡ (join_fields self.now).join_eui }
        ensures dev_eui { (dev_eui result).0 ≡ (join_fields self.now).dev_eui }
        ensures nonce { (nonce result).0 ≡ (join_fields self.now).nonce }
    {
        let mut bytes = [0; 23];
        bytes.copy_from_slice(self.bytes());
        Ticket(bytes)
    }
}
