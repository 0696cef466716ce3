//! The frames of a join (LoRaWAN L2 1.0.4, 6.2.5 and 6.2.6).

ghost use Rattle.std.specs.Prelude.{◌≡◌, ◌≤◌, ◌<◌, ◌^◌, ◌+◌, ◌++◌, length, IfOk, OnOk, OnErr};
ghost use Rattle.std.specs.Result.{result_err};
ghost use Rattle.ns_types.specs.Results.{or_fault};
ghost use Rattle.ns_types.specs.Bytes.{AreBytes};
ghost use Rattle.ns_views.specs.Grammar.{IsJoinRequest};
ghost use Rattle.ns_creator.specs.JoinFrame.{request_before_mic, request_fields, join_request_frame, cflist_bytes, accept_fields, accept_mic, plain_accept, join_accept_frame, accept_size, IsJoinAccept, room_fault};
ghost use Rattle.ns_creator.specs.Built.{with_front};

use crate::{CreateFault, Keys};
use ns_secure::{accept_cipher_in_place, join_mic_of};
use ns_types::{DevAddr, DevEui, DevNonce, JoinEui, NetId};

/// A Join-Request to be built.
#[derive(Clone, Copy)]
pub struct JoinRequestCreator {
    pub join_eui: JoinEui,
    pub dev_eui: DevEui,
    pub nonce: DevNonce,
}

impl JoinRequestCreator {
    /// Builds the frame of 23 bytes at the front of `buf`, and lends it. Refuses C1, a buffer too short for it.
    #[tactic(auto, using(crate::proofs::Parts::front_is))]
    pub fn build_into<'b>(&self, keys: &Keys, buf: &'b mut [u8]) -> Result<&'b [u8], CreateFault>
        ensures fault { result_err result ≡ room_fault 23 (length buf.old) }
        ensures frame { IfOk result (λ frame. frame.now ≡ join_request_frame keys.now.root.0 self.now) }
        ensures grammar { IfOk result (λ frame. IsJoinRequest frame.now (request_fields keys.now.root.0 self.now)) }
    {
        let size = self.write_into(keys, buf)?;
        Ok(&buf[..size])
    }

    /// Writes the frame to the front of `buf`, and gives its size. Refuses as `build_into` does.
    pub fn write_into(&self, keys: &Keys, buf: &mut [u8]) -> Result<usize, CreateFault>
        ensures size { result ≡ or_fault (room_fault 23 (length buf.old)) 23 }
        ensures length { IfOk result (λ size. length (join_request_frame keys.now.root.0 self.now) ≡ size) }
        ensures written { OnOk result (buf.new ≡ with_front buf.old (join_request_frame keys.now.root.0 self.now)) }
        ensures grammar { OnOk result (IsJoinRequest (join_request_frame keys.now.root.0 self.now) (request_fields keys.now.root.0 self.now)) }
        ensures refused { OnErr result (buf.new ≡ buf.old) }
    {
        if buf.len() < 23 {
            return Err(CreateFault::BufferTooShort { need: 23 });
        }
        let (frame, _) = buf.split_at_mut(23);
        self.write(keys, frame);
        Ok(23)
    }

    /// Writes the frame, which fills `frame`.
    #[tactic(auto, unfolding(crate::specs::JoinFrame::join_request_frame))]
    fn write(&self, keys: &Keys, frame: &mut [u8])
        requires { length frame.old ≡ 23 }
        ensures is { frame.new ≡ join_request_frame keys.now.root.0 self.now }
        ensures grammar { IsJoinRequest frame.new (request_fields keys.now.root.0 self.now) }
    {
        let (signed, mic) = frame.split_at_mut(19);
        self.write_before_mic(signed);
        let mic_bytes = join_mic_of(&keys.root, signed);
        mic.copy_from_slice(&mic_bytes.0);
    }

    /// Writes all before the MIC.
    fn write_before_mic(&self, out: &mut [u8])
        requires { length out.old ≡ 19 }
        ensures is { out.new ≡ request_before_mic self.now }
        ensures join_eui { self.now.join_eui.0 < 2 ^ 64 }
        ensures dev_eui { self.now.dev_eui.0 < 2 ^ 64 }
        ensures nonce { self.now.nonce.0 < 2 ^ 16 }
    {
        let (mhdr, rest) = out.split_at_mut(1);
        mhdr.copy_from_slice(&[0x00]);
        let (join_eui, rest) = rest.split_at_mut(8);
        join_eui.copy_from_slice(&self.join_eui.0.to_le_bytes());
        let (dev_eui, nonce) = rest.split_at_mut(8);
        dev_eui.copy_from_slice(&self.dev_eui.0.to_le_bytes());
        nonce.copy_from_slice(&self.nonce.0.to_le_bytes());
    }
}

/// A Join-Accept to be built.
#[derive(Clone, Copy)]
pub struct JoinAcceptCreator {
    pub join_nonce: [u8; 3],
    /// Of 24 bits.
    pub net_id: NetId,
    pub addr: DevAddr,
    pub dl_settings: u8,
    pub rx_delay: u8,
    pub cflist: Option<[u8; 16]>,
}

impl JoinAcceptCreator {
    /// Builds the frame of 17 bytes, or of 33 with a CFList, at the front of `buf`, and lends it. Refuses C1, a
    /// buffer too short for it.
    #[tactic(auto, using(crate::proofs::Parts::front_is))]
    pub fn build_into<'b>(&self, keys: &Keys, buf: &'b mut [u8]) -> Result<&'b [u8], CreateFault>
        requires net { self.now.net_id.0 < 2 ^ 24 }
        ensures fault { result_err result ≡ room_fault (accept_size self.now) (length buf.old) }
        ensures frame { IfOk result (λ frame. frame.now ≡ join_accept_frame keys.now.root.0 self.now) }
        ensures size { IfOk result (λ frame. length frame.now ≡ accept_size self.now) }
        ensures accept { IfOk result (λ frame. IsJoinAccept keys.now.root.0 frame.now self.now) }
    {
        let need = self.write_into(keys, buf)?;
        Ok(&buf[..need])
    }

    /// Writes the frame to the front of `buf`, and gives its size. Refuses as `build_into` does.
    pub fn write_into(&self, keys: &Keys, buf: &mut [u8]) -> Result<usize, CreateFault>
        requires net { self.now.net_id.0 < 2 ^ 24 }
        ensures size { result ≡ or_fault (room_fault (accept_size self.now) (length buf.old)) (accept_size self.now) }
        ensures length { IfOk result (λ size. length (join_accept_frame keys.now.root.0 self.now) ≡ size) }
        ensures accept { OnOk result (IsJoinAccept keys.now.root.0 (join_accept_frame keys.now.root.0 self.now) self.now) }
        ensures written { OnOk result (buf.new ≡ with_front buf.old (join_accept_frame keys.now.root.0 self.now)) }
        ensures refused { OnErr result (buf.new ≡ buf.old) }
    {
        let need = self.size();
        if buf.len() < need {
            return Err(CreateFault::BufferTooShort { need });
        }
        let (frame, _) = buf.split_at_mut(need);
        self.write(keys, frame);
        Ok(need)
    }

    /// Writes the frame, which fills `frame`.
    #[tactic(auto, unfolding(crate::specs::JoinFrame::join_accept_frame))]
    fn write(&self, keys: &Keys, frame: &mut [u8])
        requires net { self.now.net_id.0 < 2 ^ 24 }
        requires size { length frame.old ≡ accept_size self.now }
        ensures is { frame.new ≡ join_accept_frame keys.now.root.0 self.now }
        ensures accept { IsJoinAccept keys.now.root.0 frame.new self.now }
    {
        self.write_plain(keys, frame);
        let (_, enciphered) = frame.split_at_mut(1);
        accept_cipher_in_place(enciphered, &keys.root);
    }

    /// Writes MHDR, the plain fields and the MIC.
    fn write_plain(&self, keys: &Keys, frame: &mut [u8])
        requires net { self.now.net_id.0 < 2 ^ 24 }
        requires size { length frame.old ≡ accept_size self.now }
        ensures is { frame.new ≡ plain_accept keys.now.root.0 self.now }
        ensures bytes { AreBytes frame.new }
        ensures fields { 5 + length (accept_fields self.now) ≡ accept_size self.now }
        ensures mic { length (accept_mic keys.now.root.0 self.now) ≡ 4 }
        ensures join_nonce { length self.now.join_nonce ≡ 3 }
        ensures addr { self.now.addr.0 < 2 ^ 32 }
    {
        let end = frame.len() - 4;
        let (signed, mic) = frame.split_at_mut(end);
        let (mhdr, fields) = signed.split_at_mut(1);
        mhdr.copy_from_slice(&[0x20]);
        self.write_fields(fields);
        let mic_bytes = join_mic_of(&keys.root, signed);
        mic.copy_from_slice(&mic_bytes.0);
    }

    /// How many bytes the frame has.
    fn size(&self) -> usize
        ensures is { result ≡ accept_size self.now }
        ensures least { 17 ≤ result }
    {
        if self.cflist.is_some() { 33 } else { 17 }
    }

    /// Writes the plain fields.
    fn write_fields(&self, out: &mut [u8])
        requires net { self.now.net_id.0 < 2 ^ 24 }
        requires size { length out.old + 5 ≡ accept_size self.now }
        ensures is { out.new ≡ accept_fields self.now }
        ensures join_nonce { length self.now.join_nonce ≡ 3 }
        ensures addr { self.now.addr.0 < 2 ^ 32 }
    {
        let (fixed, cflist) = out.split_at_mut(12);
        fixed.copy_from_slice(&self.fixed_fields());
        if let Some(bytes) = &self.cflist {
            cflist.copy_from_slice(bytes);
        }
    }

    /// The plain fields before the CFList.
    #[tactic(auto, using(crate::proofs::Parts::three_are))]
    fn fixed_fields(&self) -> [u8; 12]
        requires net { self.now.net_id.0 < 2 ^ 24 }
        ensures is { result ++ cflist_bytes self.now.cflist ≡ accept_fields self.now }
        ensures join_nonce { length self.now.join_nonce ≡ 3 }
        ensures addr { self.now.addr.0 < 2 ^ 32 }
    {
        let [j0, j1, j2] = self.join_nonce;
        let [n0, n1, n2, _] = self.net_id.0.to_le_bytes();
        let [a0, a1, a2, a3] = self.addr.0.to_le_bytes();
        [
            j0,
            j1,
            j2,
            n0,
            n1,
            n2,
            a0,
            a1,
            a2,
            a3,
            self.dl_settings,
            self.rx_delay,
        ]
    }
}
