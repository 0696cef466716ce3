//! A device for tests.

ghost use Rattle.std.specs.Prelude.{◌≡◌, ◌≤◌, ◌+◌, ◌++◌, [], ◌∷◌, length, take, drop, IfOk, IfSome, OnOk, OnErr, ◌⊎◌};
ghost use Rattle.std.specs.Int.{w32, from_le_bytes};
ghost use Rattle.std.specs.Option.{option_copied};
ghost use Rattle.std.specs.Result.{result_err};

use crate::{DeviceFault, Session};
use ns_creator::{DataCreator, JoinRequestCreator, Keys};
use ns_secure::{Dir, accept_decipher_in_place, join_mic_of, session_keys};
use ns_types::{DevAddr, DevEui, DevNonce, JoinEui, Key, NetId, array_at};

/// A device for tests: it asks to join, takes a Join-Accept, and sends uplinks.
#[derive(Clone, Copy)]
pub struct TestDevice {
    dev_eui: DevEui,
    join_eui: JoinEui,
    app_key: Key,
    session: Option<Session>,
}

impl TestDevice {
    ghost use Rattle.ns_creator.specs.JoinFrame.{join_request_frame};
    ghost use Rattle.ns_creator.specs.DataFrame.{data_frame};
    ghost use Rattle.ns_creator.specs.Built.{with_front};
    ghost use Rattle.ns_device.specs.Device.{Device, device_of, request, session_keys_of, uplink_of, uplink_fault, IsSent};
    ghost use Rattle.ns_device.specs.Accept.{deciphered, has_mic, accept_fault, session_of_accept};

    /// A device that has not joined. `root` is its AppKey.
    pub fn new(dev_eui: DevEui, join_eui: JoinEui, root: Key) -> Self
        ensures { device_of result ≡ record { dev_eui = dev_eui; join_eui = join_eui; app_key = root; session = None } }
    {
        TestDevice {
            dev_eui,
            join_eui,
            app_key: root,
            session: None,
        }
    }

    /// The session, if there is one.
    pub fn session(&self) -> Option<&Session>
        ensures { option_copied result ≡ (device_of self.now).session }
    {
        self.session.as_ref()
    }

    /// The Join-Request with this nonce (section 6.2.5).
    pub fn join_request(&self, nonce: DevNonce) -> [u8; 23]
        ensures { result ≡ join_request_frame (device_of self.now).app_key.0 (request (device_of self.now) nonce) }
    {
        let request = JoinRequestCreator {
            join_eui: self.join_eui,
            dev_eui: self.dev_eui,
            nonce,
        };
        let mut frame = [0; 23];
        let _ = request.write_into(&self.keys(), &mut frame);
        frame
    }

    /// The keys of a device without a session: join frames use AppKey alone.
    fn keys(&self) -> Keys
        ensures { result.root ≡ self.now.app_key }
    {
        Keys {
            nwk: self.app_key,
            app: self.app_key,
            root: self.app_key,
        }
    }

    /// Takes the answer to the Join-Request with this nonce, and begins its session (section 6.2.6). Refuses, in this
    /// order, E1 other than 17 or 33 bytes, E2 an FType other than 1 or a Major other than 0, E3 a MIC that doesn't fit.
    pub fn accept(&mut self, nonce: DevNonce, frame: &[u8]) -> Result<(), DeviceFault>
        ensures fault { result_err result ≡ accept_fault (device_of self.old).app_key.0 frame.now }
        ensures joined { OnOk result (device_of self.new ≡ record (device_of self.old) { session = Some (session_of_accept (device_of self.old).app_key.0 nonce (deciphered (device_of self.old).app_key.0 frame.now)) }) }
        ensures refused { OnErr result (self.new ≡ self.old) }
    {
        if frame.len() != 17 && frame.len() != 33 {
            return Err(DeviceFault::Length);
        }
        if frame[0] / 32 != 1 || frame[0] % 4 != 0 {
            return Err(DeviceFault::FrameType);
        }
        let mut buf = [0; 33];
        let plain = &mut buf[..frame.len()];
        plain.copy_from_slice(frame);
        self.decipher(plain);
        if !self.has_mic(plain) {
            return Err(DeviceFault::Mic);
        }
        self.session = Some(self.session_of_accept(nonce, plain));
        Ok(())
    }

    /// Deciphers all behind MHDR.
    #[tactic(auto, unfolding(crate::specs::Accept::deciphered))]
    fn decipher(&self, frame: &mut [u8])
        requires { (length frame.old ≡ 17) ⊎ (length frame.old ≡ 33) }
        ensures { frame.new ≡ deciphered self.now.app_key.0 frame.old }
    {
        let (_, enciphered) = frame.split_at_mut(1);
        accept_decipher_in_place(enciphered, &self.app_key);
    }

    /// Whether a deciphered Join-Accept has its MIC.
    fn has_mic(&self, plain: &[u8]) -> bool
        requires { 17 ≤ length plain.now }
        ensures { result ≡ has_mic self.now.app_key.0 plain.now }
    {
        let (signed, mic) = plain.split_at(plain.len() - 4);
        join_mic_of(&self.app_key, signed).0.as_slice() == mic
    }

    /// The session that a deciphered Join-Accept begins.
    fn session_of_accept(&self, nonce: DevNonce, plain: &[u8]) -> Session
        requires { 17 ≤ length plain.now }
        ensures { result ≡ session_of_accept self.now.app_key.0 nonce plain.now }
    {
        let join_nonce = array_at::<3>(plain, 1);
        let net_id = net_id_in(plain);
        let addr = addr_in(plain);
        let (nwk, app) = session_keys(&self.app_key, join_nonce, net_id, nonce);
        Session { addr, nwk, app }
    }

    /// Writes an uplink without options to the front of `buf`, and gives its size. Refuses as `uplink` does.
    pub fn write_uplink(
        &self,
        counter: u32,
        confirmed: bool,
        port: Option<u8>,
        plain: &[u8],
        buf: &mut [u8],
    ) -> Result<usize, DeviceFault>
        ensures fault { result_err result ≡ uplink_fault (device_of self.now) counter confirmed port plain.now (length buf.old) }
        ensures written { OnOk result (IfSome (device_of self.now).session (λ s.
            buf.new ≡ with_front buf.old (data_frame (session_keys_of (device_of self.now) s) (uplink_of s counter confirmed port plain.now)))) }
        ensures length { IfOk result (λ size. IfSome (device_of self.now).session (λ s.
            length (data_frame (session_keys_of (device_of self.now) s) (uplink_of s counter confirmed port plain.now)) ≡ size)) }
        ensures grammar { OnOk result (IfSome (device_of self.now).session (λ s.
            IsSent (session_keys_of (device_of self.now) s) (uplink_of s counter confirmed port plain.now))) }
        ensures refused { OnErr result (buf.new ≡ buf.old) }
    {
        let Some(session) = self.session else {
            return Err(DeviceFault::NoSession);
        };
        let keys = Keys {
            nwk: session.nwk,
            app: session.app,
            root: self.app_key,
        };
        let creator = DataCreator {
            dir: Dir::Up,
            confirmed,
            addr: session.addr,
            flags: 0,
            counter,
            fopts: &[],
            port,
            payload: plain,
        };
        Ok(creator.write_into(&keys, buf)?)
    }

    /// Builds an uplink without options at the front of `buf`, and lends it. Refuses, in this order, E4 no session, E5 the
    /// creator's fault.
    pub fn uplink<'a>(
        &self,
        counter: u32,
        confirmed: bool,
        port: Option<u8>,
        plain: &[u8],
        buf: &'a mut [u8],
    ) -> Result<&'a [u8], DeviceFault>
        ensures fault { result_err result ≡ uplink_fault (device_of self.now) counter confirmed port plain.now (length buf.old) }
        ensures frame { IfOk result (λ frame. IfSome (device_of self.now).session (λ s.
            frame.now ≡ data_frame (session_keys_of (device_of self.now) s) (uplink_of s counter confirmed port plain.now))) }
        ensures grammar { OnOk result (IfSome (device_of self.now).session (λ s.
            IsSent (session_keys_of (device_of self.now) s) (uplink_of s counter confirmed port plain.now))) }
    {
        let size = self.write_uplink(counter, confirmed, port, plain, buf)?;
        Ok(&buf[..size])
    }
}

/// The NetID in a deciphered Join-Accept.
fn net_id_in(plain: &[u8]) -> NetId
    requires { 17 ≤ length plain.now }
    ensures { result.0 ≡ from_le_bytes w32 (take 3 (drop 4 plain.now) ++ 0 ∷ []) }
{
    let [a, b, c] = array_at::<3>(plain, 4);
    NetId(u32::from_le_bytes([a, b, c, 0]))
}

/// The address in a deciphered Join-Accept.
fn addr_in(plain: &[u8]) -> DevAddr
    requires { 17 ≤ length plain.now }
    ensures { result.0 ≡ from_le_bytes w32 (take 4 (drop 7 plain.now)) }
{
    DevAddr(u32::from_le_bytes(array_at(plain, 7)))
}
