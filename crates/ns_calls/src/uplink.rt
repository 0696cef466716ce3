//! The uplink of a window's frame.

ghost use Rattle.std.specs.Prelude.{◌≡◌};
ghost use Rattle.ns_calls.specs.Out.{payload_key, uplink_under};
ghost use Rattle.ns_calls.specs.Headline.{frame_under, uplink_read};

use crate::answer::Uplink;
use crate::bytes::Bytes;
use crate::frame::DataFrame;
use crate::limits::MOST_COPIES;
use arrayvec::ArrayVec;
use ns_types::{DevAddr, Heard, Key, WindowName};
use std::marker::Model;

/// The key of a payload on this port: the NwkSKey on port 0, else the AppSKey, where there is one (LoRaWAN L2 1.0.4, 4.3.3).
pub fn payload_key(port: Option<u8>, nwk: Key, app: Option<Key>) -> Option<Key>
    ensures { result ≡ payload_key port nwk app }
{
    match port {
        Some(0) => Some(nwk),
        _ => app,
    }
}

/// An uplink whose parts are lent from where they lie. Contracts see the uplink.
#[derive(Drop)]
pub struct LentUplink<'a> {
    pub window: WindowName,
    pub addr: DevAddr,
    pub confirmed: bool,
    pub fctrl: u8,
    pub port: Option<u8>,
    pub fopts: &'a [u8],
    pub sealed: bool,
    pub payload: &'a [u8],
    pub copies: &'a [Heard],
}

impl<'a> Model for LentUplink<'a> {
    ghost use Rattle.std.specs.Prelude.{◌≤◌, length};
    ghost use Rattle.ns_calls.specs.Entries.{most_copies};
    ghost use Rattle.ns_calls.specs.declared.answer.Uplink.{Uplink};

    ghost Value = { Uplink };

    ghost view = { λ u. record { window = u.window; addr = u.addr; confirmed = u.confirmed; fctrl = u.fctrl; port = u.port; fopts = u.fopts.now; sealed = u.sealed; payload = u.payload.now; copies = record { items = u.copies.now } } };

    ghost invariant = { λ u. (length u.fopts.now ≤ 15) × (length u.payload.now ≤ 242) × (length u.copies.now ≤ most_copies) };
}

impl<'a> LentUplink<'a> {
    /// The uplink of a window by its frame as it stands, with its copies.
    #[inline(always)]
    pub fn of(
        window: WindowName,
        confirmed: bool,
        frame: &'a DataFrame,
        sealed: bool,
        copies: &'a ArrayVec<Heard, MOST_COPIES>,
    ) -> LentUplink<'a>
        ensures { result ≡ uplink_read window confirmed frame.now sealed copies.now.items }
    {
        let view = frame.view();
        LentUplink {
            window,
            addr: view.dev_addr(),
            confirmed,
            fctrl: view.fctrl(),
            port: view.fport(),
            fopts: view.fopts(),
            sealed,
            payload: view.payload(),
            copies: copies.as_slice(),
        }
    }

    /// The uplink itself.
    #[inline(always)]
    pub fn to_uplink(&self) -> Uplink
        ensures { result ≡ self.now }
    {
        let Ok(copies) = ArrayVec::try_from(self.copies) else {
            unreachable!()
        };
        Uplink {
            window: self.window,
            addr: self.addr,
            confirmed: self.confirmed,
            fctrl: self.fctrl,
            port: self.port,
            fopts: Bytes::of(self.fopts),
            sealed: self.sealed,
            payload: Bytes::of(self.payload),
            copies,
        }
    }
}

impl Uplink {
    /// The uplink of a window's frame with its copies, under the key of its payload: deciphered, in the frame itself, or as received and
    /// marked sealed where the key is not known.
    pub fn under(
        window: WindowName,
        frame: &mut DataFrame,
        copies: &ArrayVec<Heard, MOST_COPIES>,
        key: Option<Key>,
    ) -> Uplink
        ensures uplink { result ≡ uplink_under window frame.old copies.now.items key }
        ensures frame { frame.new ≡ frame_under key window.fcnt frame.old }
    {
        let confirmed = frame.view().confirmed();
        if let Some(key) = &key {
            frame.decipher_payload(key, window.fcnt);
        }
        LentUplink::of(window, confirmed, frame, key.is_none(), copies).to_uplink()
    }

    /// Lends the uplink.
    #[inline(always)]
    pub fn lend(&self) -> LentUplink<'_>
        ensures { result ≡ self.now }
    {
        LentUplink {
            window: self.window,
            addr: self.addr,
            confirmed: self.confirmed,
            fctrl: self.fctrl,
            port: self.port,
            fopts: self.fopts.as_slice(),
            sealed: self.sealed,
            payload: self.payload.as_slice(),
            copies: self.copies.as_slice(),
        }
    }
}
