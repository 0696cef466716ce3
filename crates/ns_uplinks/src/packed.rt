//! An uplink in no more memory than it needs.

ghost use Rattle.std.specs.Prelude.{◌≡◌, IfOk};

use ns_calls::{Bytes, LentUplink};
use ns_types::{DevAddr, Heard, WindowName};
use std::alloc::{AllocError, Global};
use std::marker::Model;

/// An uplink whose payload and copies take as much memory as there is of them. Contracts see the uplink.
#[derive(Drop)]
pub struct PackedUplink {
    pub window: WindowName,
    pub addr: DevAddr,
    pub confirmed: bool,
    pub fctrl: u8,
    pub port: Option<u8>,
    pub fopts: Bytes<15>,
    pub sealed: bool,
    pub payload: Vec<u8>,
    pub copies: Vec<Heard>,
}

impl Model for PackedUplink {
    ghost use Rattle.std.specs.Prelude.{◌≤◌, length};
    ghost use Rattle.ns_calls.specs.Entries.{most_copies};
    ghost use Rattle.ns_calls.specs.declared.answer.Uplink.{Uplink};

    ghost Value = { Uplink };

    ghost view = { λ u. record { window = u.window; addr = u.addr; confirmed = u.confirmed; fctrl = u.fctrl; port = u.port; fopts = u.fopts; sealed = u.sealed; payload = u.payload.items; copies = record { items = u.copies.items } } };

    ghost invariant = { λ u. (length u.payload.items ≤ 242) × (length u.copies.items ≤ most_copies) };
}

impl PackedUplink {
    /// This uplink, copied. `NoMemory` (`AllocError`) where a growth was refused.
    pub fn of(alloc: Global, uplink: &LentUplink) -> Result<PackedUplink, AllocError>
        ensures { IfOk result (λ u. u ≡ uplink.now) }
    {
        Ok(PackedUplink {
            window: uplink.window,
            addr: uplink.addr,
            confirmed: uplink.confirmed,
            fctrl: uplink.fctrl,
            port: uplink.port,
            fopts: Bytes::of(uplink.fopts),
            sealed: uplink.sealed,
            payload: Vec::from_slice(alloc, uplink.payload)?,
            copies: Vec::from_slice(alloc, uplink.copies)?,
        })
    }

    /// Lends the uplink.
    pub fn lend(&self) -> LentUplink<'_>
        ensures { result ≡ self.now }
    {
        LentUplink {
            window: self.window,
            addr: self.addr,
            confirmed: self.confirmed,
            fctrl: self.fctrl,
            port: self.port,
            fopts: self.fopts.as_slice(),
            sealed: self.sealed,
            payload: self.payload.as_slice(),
            copies: self.copies.as_slice(),
        }
    }
}
