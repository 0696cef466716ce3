//! What the entries after a place have said.

ghost use Rattle.std.specs.Prelude.{◌≡◌, not, IfOk, OnOk};
ghost use Rattle.ns_keep.specs.Private.Marks.{is_accepted, is_opened, is_opened_in, is_repeated_in, is_acknowledged, is_asked, MarksAccepted, MarksOpened, MarksRepeated, MarksAcknowledged, MarksAsked, IsUnmarked};

use ns_types::{DevEui, Ticket, WindowName};
use std::alloc::{AllocError, Global};
use std::collections::{BTreeSet, HashSet};

/// Of which devices a join was accepted and a window opened, in which sessions a window was opened, one was opened again and an uplink was
/// acknowledged, and which open tickets a join server was asked for.
#[derive(Drop)]
pub(crate) struct Marks {
    pub accepted: HashSet<u64>,
    pub opened: HashSet<u64>,
    pub opened_in: HashSet<(u64, u32)>,
    pub repeated_in: HashSet<(u64, u32)>,
    pub acknowledged: HashSet<(u64, u32)>,
    /// Ordered, since anyone can choose the bytes of a ticket.
    pub asked: BTreeSet<[u8; 23]>,
}

impl Marks {
    /// No marks, and room for the openings of so many sessions.
    pub(crate) fn with_room(alloc: Global, sessions: usize) -> Result<Marks, AllocError>
        ensures { IfOk result IsUnmarked }
    {
        Ok(Marks {
            accepted: HashSet::new(alloc),
            opened: HashSet::with_capacity(alloc, sessions)?,
            opened_in: HashSet::with_capacity(alloc, sessions)?,
            repeated_in: HashSet::new(alloc),
            acknowledged: HashSet::new(alloc),
            asked: BTreeSet::new(alloc),
        })
    }

    /// Marks that a join of a device was accepted, and says whether none was before.
    pub(crate) fn accept(&mut self, eui: DevEui) -> Result<bool, AllocError>
        ensures first { IfOk result (λ first. first ≡ not (is_accepted self.old eui)) }
        ensures marks { OnOk result (MarksAccepted eui self.old self.new) }
    {
        Ok(self.accepted.insert(eui.0)?)
    }

    /// Marks that a window was opened, and says whether none of its device was before, and none of its session.
    pub(crate) fn open(&mut self, window: &WindowName) -> Result<(bool, bool), AllocError>
        ensures first { IfOk result (λ first. first ≡ (not (is_opened self.old window.now.eui), not (is_opened_in self.old window.now))) }
        ensures marks { OnOk result (MarksOpened window.now self.old self.new) }
    {
        let first = self.opened.insert(window.eui.0)?;
        let first_in = self.opened_in.insert((window.eui.0, window.session))?;
        Ok((first, first_in))
    }

    /// Marks that a window of a session was opened again, and says whether none was before.
    pub(crate) fn repeat(&mut self, window: &WindowName) -> Result<bool, AllocError>
        ensures first { IfOk result (λ first. first ≡ not (is_repeated_in self.old window.now)) }
        ensures marks { OnOk result (MarksRepeated window.now self.old self.new) }
    {
        Ok(self.repeated_in.insert((window.eui.0, window.session))?)
    }

    /// Marks that an uplink of a session was acknowledged, and says whether none was before.
    pub(crate) fn acknowledge(&mut self, window: &WindowName) -> Result<bool, AllocError>
        ensures first { IfOk result (λ first. first ≡ not (is_acknowledged self.old window.now)) }
        ensures marks { OnOk result (MarksAcknowledged window.now self.old self.new) }
    {
        Ok(self.acknowledged.insert((window.eui.0, window.session))?)
    }

    /// Marks that a join server was asked for a ticket, and says whether it was not before.
    pub(crate) fn ask(&mut self, ticket: &Ticket) -> Result<bool, AllocError>
        ensures first { IfOk result (λ first. first ≡ not (is_asked self.old ticket.now)) }
        ensures marks { OnOk result (MarksAsked ticket.now self.old self.new) }
    {
        Ok(self.asked.insert(ticket.0)?)
    }

    /// Whether a join server was asked for a ticket.
    pub(crate) fn is_asked(&self, ticket: &Ticket) -> bool
        ensures { result ≡ is_asked self.now ticket.now }
    {
        self.asked.contains(&ticket.0)
    }
}
