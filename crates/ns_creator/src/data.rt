//! Data frames (LoRaWAN L2 1.0.4, 4).

ghost use Rattle.std.specs.Prelude.{◌≡◌, ◌≤◌, ◌+◌, ◌++◌, length, IfOk, OnOk, OnErr, false};
ghost use Rattle.std.specs.Result.{result_err};
ghost use Rattle.ns_types.specs.Results.{or_fault};
ghost use Rattle.ns_views.specs.Grammar.{ported, IsDataFrame, IsDataUplink};
ghost use Rattle.ns_secure.specs.declared.Dir.TheVariants.{Up};
ghost use Rattle.ns_secure.specs.Cipher.{cipher};
ghost use Rattle.ns_creator.specs.DataFrame.{plain_frame, AreFlags, payload_key, data_header, data_before_mic, data_frame, frame_size, data_fault, written_fields, lacks_port, ack};
ghost use Rattle.ns_creator.specs.Built.{with_front};

use crate::{CreateFault, Keys};
use ns_secure::{Dir, cipher_in_place, mic_of};
use ns_types::{DevAddr, Key};

/// A data frame to be built.
#[derive(Clone, Copy)]
pub struct DataCreator<'a> {
    pub dir: Dir,
    pub confirmed: bool,
    pub addr: DevAddr,
    /// Bits 7 to 4 of FCtrl: bits 3 to 0 are 0, and in a downlink bit 6 too.
    pub flags: u8,
    /// The whole frame counter, of which the low half goes out.
    pub counter: u32,
    pub fopts: &'a [u8],
    pub port: Option<u8>,
    /// Not enciphered.
    pub payload: &'a [u8],
}

impl DataCreator<'static> {
    /// The acknowledgement with this number that a server sends: an Unconfirmed Data Down of 12 bytes with ACK.
    pub fn acknowledgement(addr: DevAddr, counter: u32) -> Self
        ensures is { plain_frame result ≡ ack addr.0 counter }
        ensures flags { AreFlags result.dir result.flags }
    {
        DataCreator {
            dir: Dir::Down,
            confirmed: false,
            addr,
            flags: 0x20,
            counter,
            fopts: &[],
            port: None,
            payload: &[],
        }
    }
}

impl DataCreator<'_> {
    /// Builds the frame at the front of `buf`, and lends it. Refuses, in this order, C2 over 15 bytes of
    /// FOpts, C3 a payload without a port, C4 a frame over 255 bytes, C1 a buffer too short for it.
    #[tactic(auto, using(crate::proofs::Parts::front_is))]
    pub fn build_into<'b>(&self, keys: &Keys, buf: &'b mut [u8]) -> Result<&'b [u8], CreateFault>
        requires flags { AreFlags self.now.dir self.now.flags }
        ensures fault { result_err result ≡ data_fault (plain_frame self.now) (length buf.old) }
        ensures frame { IfOk result (λ frame. frame.now ≡ data_frame keys.now (plain_frame self.now)) }
        ensures grammar { IfOk result (λ frame. IsDataFrame frame.now (written_fields keys.now (plain_frame self.now))) }
        ensures uplink { self.now.dir ≡ Up → IfOk result (λ frame. IsDataUplink frame.now (written_fields keys.now (plain_frame self.now))) }
    {
        let size = self.write_into(keys, buf)?;
        Ok(&buf[..size])
    }

    /// Writes the frame to the front of `buf`, and gives its size. Refuses as `build_into` does.
    pub fn write_into(&self, keys: &Keys, buf: &mut [u8]) -> Result<usize, CreateFault>
        requires flags { AreFlags self.now.dir self.now.flags }
        ensures size { result ≡ or_fault (data_fault (plain_frame self.now) (length buf.old)) (frame_size (plain_frame self.now)) }
        ensures length { IfOk result (λ size. length (data_frame keys.now (plain_frame self.now)) ≡ size) }
        ensures written { OnOk result (buf.new ≡ with_front buf.old (data_frame keys.now (plain_frame self.now))) }
        ensures grammar { OnOk result (IsDataFrame (data_frame keys.now (plain_frame self.now)) (written_fields keys.now (plain_frame self.now))) }
        ensures refused { OnErr result (buf.new ≡ buf.old) }
    {
        let size = self.size_within(buf.len())?;
        let (frame, _) = buf.split_at_mut(size);
        self.write(keys, frame);
        Ok(size)
    }

    /// Writes the frame, which fills `frame`.
    #[tactic(auto, unfolding(crate::specs::DataFrame::data_frame))]
    fn write(&self, keys: &Keys, frame: &mut [u8])
        requires flags { AreFlags self.now.dir self.now.flags }
        requires options { length self.now.fopts.now ≤ 15 }
        requires most { length frame.old ≤ 255 }
        requires size { length frame.old ≡ frame_size (plain_frame self.now) }
        requires ported { lacks_port self.now.port self.now.payload.now ≡ false }
        ensures is { frame.new ≡ data_frame keys.now (plain_frame self.now) }
        ensures grammar { IsDataFrame frame.new (written_fields keys.now (plain_frame self.now)) }
    {
        let end = frame.len() - 4;
        let (signed, mic) = frame.split_at_mut(end);
        self.write_before_mic(keys, signed);
        let mic_bytes = mic_of(&keys.nwk, self.dir, self.addr, self.counter, signed);
        mic.copy_from_slice(&mic_bytes.0);
    }

    /// Writes all before the MIC.
    fn write_before_mic(&self, keys: &Keys, out: &mut [u8])
        requires flags { AreFlags self.now.dir self.now.flags }
        requires options { length self.now.fopts.now ≤ 15 }
        requires most { length out.old ≤ 251 }
        requires size { length out.old + 4 ≡ frame_size (plain_frame self.now) }
        ensures { out.new ≡ data_before_mic keys.now (plain_frame self.now) }
    {
        let (header, rest) = out.split_at_mut(8);
        header.copy_from_slice(&self.header());
        let (options, ported) = rest.split_at_mut(self.fopts.len());
        options.copy_from_slice(self.fopts);
        self.write_ported(keys, ported);
    }

    /// Writes the port and the enciphered payload, or nothing where there is no port.
    fn write_ported(&self, keys: &Keys, out: &mut [u8])
        requires most { length out.old ≤ 243 }
        requires size { length out.old ≡ length (ported self.now.port self.now.payload.now) }
        ensures { out.new ≡ ported self.now.port (cipher (payload_key keys.now self.now.port).0
            self.now.dir self.now.addr.0 self.now.counter self.now.payload.now) }
    {
        let Some(port) = self.port else {
            return;
        };
        let (first, payload) = out.split_at_mut(1);
        first[0] = port;
        payload.copy_from_slice(self.payload);
        let key = keys.for_port(port);
        cipher_in_place(payload, key, self.dir, self.addr, self.counter);
    }

    /// The eight bytes before the options.
    fn header(&self) -> [u8; 8]
        requires flags { AreFlags self.now.dir self.now.flags }
        requires options { length self.now.fopts.now ≤ 15 }
        ensures { result ≡ data_header (plain_frame self.now) }
    {
        let mhdr = match (self.dir, self.confirmed) {
            (Dir::Up, false) => 0x40,
            (Dir::Down, false) => 0x60,
            (Dir::Up, true) => 0x80,
            (Dir::Down, true) => 0xa0,
        };
        let [a, b, c, d] = self.addr.0.to_le_bytes();
        let fctrl = self.flags + self.fopts.len() as u8;
        let [low, high] = ((self.counter % 65536) as u16).to_le_bytes();
        [mhdr, a, b, c, d, fctrl, low, high]
    }

    /// The frame's size, or the first of C2, C3, C4 and C1.
    fn size_within(&self, room: usize) -> Result<usize, CreateFault>
        ensures { result ≡ or_fault (data_fault (plain_frame self.now) room) (frame_size (plain_frame self.now)) }
    {
        if self.fopts.len() > 15 {
            return Err(CreateFault::OptionsTooLong);
        }
        let ported = match self.port {
            Some(_) => 1 + self.payload.len(),
            None if self.payload.is_empty() => 0,
            None => return Err(CreateFault::PayloadWithoutPort),
        };
        let need = 12 + self.fopts.len() + ported;
        if need > 255 {
            return Err(CreateFault::FrameTooLong);
        }
        if room < need {
            return Err(CreateFault::BufferTooShort { need });
        }
        Ok(need)
    }
}
