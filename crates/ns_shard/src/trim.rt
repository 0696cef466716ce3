//! A trim of a shard.

ghost use Rattle.std.specs.Prelude.{◌≡◌, ◌==◌, ◌+◌, ◌*◌, ◌<◌, ◌≤◌, ◌^◌, Err, length, count_by, IfOk, OnOk, OnErr};
ghost use Rattle.std.specs.Arc.{arc_value};
ghost use Rattle.ns_types.specs.Identity.{shard_of};
ghost use Rattle.ns_kept.specs.Bound.{most_kept};
ghost use Rattle.ns_shard.specs.declared.trim.TrimFault.TheVariants.{Full, NoMemory};
ghost use Rattle.ns_devices.specs.Devices.{lives_in, has_ticket_in};
ghost use Rattle.ns_journal.specs.State.{AreNumbersOf, with_numbers, without_numbers};
ghost use Rattle.ns_shard.specs.Private.Parts.{AreParts, state_of};
ghost use Rattle.ns_shard.specs.State.{after_trim, dropped};

use crate::parts::Parts;
use ns_calls::Entry;
use ns_devices::Devices;
use ns_keep::{DeviceTable, numbers_kept};
use ns_types::{DevEui, Ticket, WindowName};
use std::alloc::{AllocError, Global};
use thiserror::Error;

// How many entries may be dropped from a shard, so that no number passes 2^64 - 1.
const MOST_DROPPED: u64 = 1 << 63;

/// What a trim took out: its mark, which is the number of the next entry, and the entries that it dropped, in order.
#[derive(Drop)]
pub struct Dropped {
    pub mark: u64,
    pub entries: Vec<Entry>,
}

/// Why a trim was refused. Then nothing has changed.
#[derive(Clone, Copy, Debug, PartialEq, Eq, Error)]
pub enum TrimFault {
    /// Z1: more than 2^63 entries would be dropped from the shard in all.
    #[error("Z1")]
    Full,
    /// Z2: a growth was refused.
    #[error("Z2")]
    NoMemory,
}

impl From<AllocError> for TrimFault {
    ghost from_gives = { λ _ e. e ≡ NoMemory };

    fn from(_error: AllocError) -> TrimFault {
        TrimFault::NoMemory
    }
}

// The devices of a shard, as a trim asks them.
#[derive(Drop)]
struct Table<'a> {
    devices: &'a Devices,
}

impl DeviceTable for Table<'_> {
    ghost lives = { λ t. lives_in t.devices.now };

    ghost has_ticket = { λ t. has_ticket_in t.devices.now };

    fn is_live(&self, eui: DevEui, session: u32) -> bool {
        self.devices.is_live(eui, session)
    }

    fn is_ticket_open(&self, ticket: &Ticket) -> bool {
        self.devices.is_ticket_open(ticket)
    }
}

impl Parts {
    // The names of the open windows, and the numbers of the entries that a trim keeps.
    fn staying(&self, alloc: Global) -> Result<(Vec<WindowName>, Vec<u64>), TrimFault>
        requires { AreParts self.now }
        ensures named { IfOk result (λ r. r.0.items ≡ (after_trim (state_of self.now)).windows) }
        ensures numbers { IfOk result (λ r. AreNumbersOf self.now.journal.entries r.1.items) }
        ensures stay { IfOk result (λ r. with_numbers r.1.items self.now.journal.entries ≡ (after_trim (state_of self.now)).entries) }
        ensures go { IfOk result (λ r. without_numbers r.1.items self.now.journal.entries ≡ dropped (state_of self.now)) }
        ensures fits { IfOk result (λ r. self.now.journal.made ≤ 2 ^ 63 + length r.1.items) }
        ensures full { result ≡ Err Full → 2 ^ 63 + length (after_trim (state_of self.now)).entries < (state_of self.now).made }
    {
        let named = self.windows.names(alloc)?;
        let table = Table {
            devices: &self.devices,
        };
        let stay = numbers_kept(alloc, self.journal.entries(), named.as_slice(), &table)?;
        if self.journal.made() > MOST_DROPPED + stay.as_slice().len() as u64 {
            return Err(TrimFault::Full);
        }
        Ok((named, stay))
    }

    /// Drops the entries on which no answer rests. Where it is refused, nothing has changed.
    pub fn trim(&mut self, alloc: Global) -> Result<Dropped, TrimFault>
        requires { AreParts self.old }
        ensures state { OnOk result (state_of self.new ≡ after_trim (state_of self.old)) }
        ensures mark { IfOk result (λ d. d.mark ≡ (state_of self.old).made) }
        ensures dropped { IfOk result (λ d. d.entries.items ≡ dropped (state_of self.old)) }
        ensures full { result ≡ Err Full → 2 ^ 63 + length (after_trim (state_of self.old)).entries < (state_of self.old).made }
        ensures few { OnOk result (length (state_of self.new).entries ≤ most_kept * count_by (λ d. shard_of d.eui == self.old.index) (arc_value self.old.roster).devices) }
        ensures err { OnErr result (state_of self.new ≡ state_of self.old) }
        ensures agree { AreParts self.new }
    {
        let (named, stay) = self.staying(alloc)?;
        let entries = self.journal.cut(alloc, stay.as_slice())?;
        let mark = self.journal.made();
        self.mark = mark;
        self.named = named;
        Ok(Dropped { mark, entries })
    }

    /// The same, in the memory of the entries: those that are dropped are counted, and handed out to nobody.
    pub fn trim_in_place(&mut self, alloc: Global) -> Result<u64, TrimFault>
        requires { AreParts self.old }
        ensures state { OnOk result (state_of self.new ≡ after_trim (state_of self.old)) }
        ensures count { IfOk result (λ n. n + length (state_of self.new).entries ≡ length (state_of self.old).entries) }
        ensures full { result ≡ Err Full → 2 ^ 63 + length (after_trim (state_of self.old)).entries < (state_of self.old).made }
        ensures err { OnErr result (state_of self.new ≡ state_of self.old) }
        ensures agree { AreParts self.new }
    {
        let (named, stay) = self.staying(alloc)?;
        let count = self.journal.keep(stay.as_slice());
        self.mark = self.journal.made();
        self.named = named;
        Ok(count)
    }
}
