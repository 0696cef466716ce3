//! The view of a data uplink (LoRaWAN L2 1.0.4, 4.3).

ghost use Rattle.std.specs.Prelude.{◌≡◌, ◌+◌, ◌<◌, ◌≤◌, List, ℕ, length, take, IsTrue, OnOk, IfOk, IfErr, Some, None, slice_index};
ghost use Rattle.ns_views.specs.Grammar.{IsDataUplink};
ghost use Rattle.ns_views.specs.Frame.{data_fields, signed, is_confirmed, is_data_type, major_of, view_fault, fopts_len, port_and_payload};
ghost use Rattle.ns_views.specs.Laws.{PartsCover};

use crate::ViewFault;
use ns_types::{DevAddr, Mic, array_at};
use std::marker::Model;

/// A data uplink. A contract sees its bytes.
#[derive(Drop)]
pub struct DataView<'a> {
    frame: &'a [u8],
}

impl<'a> Model for DataView<'a> {
    ghost Value = { List ℕ };

    ghost view = { λ v. v.frame.now };

    ghost invariant = { λ v. IsDataUplink v.frame.now (data_fields v.frame.now) };
}

impl<'a> DataView<'a> {
    /// The view of bytes with Major 0 and the type of a data uplink. V1, V6, V4 in this order.
    pub(crate) fn of(bytes: &'a [u8]) -> Result<DataView<'a>, ViewFault>
        requires present { 0 < length bytes.now }
        requires major { major_of bytes.now ≡ 0 }
        requires data { IsTrue (is_data_type bytes.now) }
        ensures ok { IfOk result (λ v. (v ≡ bytes.now) × IsDataUplink bytes.now (data_fields bytes.now)) }
        ensures no_fault { OnOk result (view_fault bytes.now ≡ None) }
        ensures err { IfErr result (λ f. view_fault bytes.now ≡ Some f) }
    {
        let len = bytes.len();
        if len < 12 {
            return Err(ViewFault::TooShort);
        }
        if len > 255 {
            return Err(ViewFault::TooLong);
        }
        let options = usize::from(bytes[5] % 16);
        if len < 12 + options {
            return Err(ViewFault::Options);
        }
        Ok(DataView { frame: bytes })
    }

    /// The view of bytes that are known to be a data uplink. Nothing of them is tested.
    pub fn known(bytes: &'a [u8]) -> DataView<'a>
        requires { IsDataUplink bytes.now (data_fields bytes.now) }
        ensures { result ≡ bytes.now }
    {
        Self { frame: bytes }
    }

    /// The whole frame: header, options, port, payload and MIC, one after the other.
    pub fn bytes(&self) -> &'a [u8]
        ensures value { result.now ≡ self.now }
        ensures uplink { IsDataUplink self.now (data_fields self.now) }
        ensures parts { PartsCover self.now }
        ensures least { 12 + fopts_len self.now ≤ length self.now }
        ensures most { length self.now ≤ 255 }
    {
        self.frame
    }

    /// Whether it is a Confirmed Data Up.
    pub fn confirmed(&self) -> bool
        ensures { result ≡ is_confirmed self.now }
    {
        self.bytes()[0] / 32 == 4
    }

    /// The address of the device in its session.
    pub fn dev_addr(&self) -> DevAddr
        ensures { result.0 ≡ (data_fields self.now).addr }
    {
        DevAddr(u32::from_le_bytes(array_at(self.bytes(), 1)))
    }

    /// FCtrl: ADR, ADRACKReq, ACK, ClassB and, in bits 3 to 0, how many bytes of options follow.
    pub fn fctrl(&self) -> u8
        ensures { result ≡ (data_fields self.now).fctrl }
    {
        self.bytes()[5]
    }

    /// The low half of the frame counter.
    pub fn fcnt16(&self) -> u16
        ensures { result ≡ (data_fields self.now).fcnt16 }
    {
        u16::from_le_bytes(array_at(self.bytes(), 6))
    }

    /// Where the options end.
    fn fopts_end(&self) -> usize
        ensures { result ≡ 8 + fopts_len self.now }
    {
        8 + usize::from(self.fctrl() % 16)
    }

    /// FOpts: 0 to 15 bytes of MAC commands.
    pub fn fopts(&self) -> &'a [u8]
        ensures value { result.now ≡ (data_fields self.now).fopts }
        ensures len { length result.now ≤ 15 }
    {
        let end = self.fopts_end();
        &self.bytes()[8..end]
    }

    /// What stands between the options and the MIC.
    fn port_and_payload(&self) -> &'a [u8]
        ensures value { result.now ≡ port_and_payload self.now }
        ensures len { length result.now ≤ 243 }
    {
        let end = self.fopts_end();
        &self.signed()[end..]
    }

    /// The port, where anything stands between the options and the MIC.
    pub fn fport(&self) -> Option<u8>
        ensures { result ≡ (data_fields self.now).port }
    {
        self.port_and_payload().first().copied()
    }

    /// FRMPayload: what stands behind the port, enciphered as it came; empty where there is no port.
    pub fn payload(&self) -> &'a [u8]
        ensures value { result.now ≡ (data_fields self.now).payload }
        ensures len { length result.now ≤ 242 }
    {
        match self.port_and_payload() {
            [_port, payload @ ..] => payload,
            [] => &[],
        }
    }

    /// All but the MIC: what the MIC is over.
    pub fn signed(&self) -> &'a [u8]
        ensures value { result.now ≡ signed self.now }
        ensures least { 8 + fopts_len self.now ≤ length result.now }
        ensures most { length result.now ≤ 251 }
    {
        let bytes = self.bytes();
        &bytes[..bytes.len() - 4]
    }

    /// The last four bytes.
    pub fn mic(&self) -> Mic
        ensures { result.0 ≡ (data_fields self.now).mic }
    {
        let bytes = self.bytes();
        Mic(array_at(bytes, bytes.len() - 4))
    }
}
