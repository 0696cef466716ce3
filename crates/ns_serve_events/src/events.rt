//! What the workers are told to tell: it is counted, kept where it is needed, and logged.

use crate::notices::note_event;
use ns_calls::{Call, Downlink, Reply};
use ns_exchange::{AnsFault, AskFault};
use ns_front::FrameName;
use ns_log::{Level, Log, debug, info, warn};
use ns_outside::{JoinFault, Monitor, Receipt, Refused};
use ns_serve_parts::more;
use ns_serve_state::{State, closing_of, log_seldom, log_unsent, now_ms};
use ns_serve_streams::words_of;
use ns_types::{DevEui, Ticket};
use std::sync::Wait;
use std::time::Clock;

/// Who the workers tell what happens.
#[derive(Clone, Copy)]
pub struct Events<'a> {
    pub state: &'a State,
}

impl<'a, R: Log + Clock + Wait> Monitor<R> for Events<'a> {
    fn refused(&self, rt: &R, why: Refused) {
        self.state.counts.refused(why);
        let (kind, number) = match why {
            Refused::Link(fault) => ('G', fault.number()),
            Refused::View(fault) => ('V', fault.number()),
        };
        debug!(rt; "datagram refused: {kind}{number}");
    }

    fn replied(&self, rt: &R, receipt: &Receipt) {
        let state = self.state;
        let reply = &receipt.entry.reply;
        state.made.add_one(receipt.shard, reply);
        note_closing(rt, state, receipt);
        if state.is_told() || state.notices.is_some() || is_kept_or_logged(reply) {
            tell(rt, state, receipt);
        }
    }

    fn dropped(&self, rt: &R) {
        more(&self.state.counts.dropped);
        warn!(rt; "datagram dropped: no memory");
    }

    fn unanswered(&self, rt: &R, ticket: &Ticket, why: &JoinFault) {
        more(&self.state.counts.unanswered);
        let eui = ticket.dev_eui().0;
        let words = words_of(why);
        match why {
            // A device that the join server does not take is the device's matter.
            JoinFault::Exchange(AskFault::Answer(AnsFault::Refused(code))) => {
                debug!(rt; "join of {eui:016x} refused: H7 A4 {code:?}, {words}");
            }
            why => {
                warn!(rt; "join of {eui:016x} not answered: {why}, {words}");
            }
        }
    }

    fn stale(&self, rt: &R, ticket: &Ticket) {
        more(&self.state.counts.stale);
        let eui = ticket.dev_eui().0;
        debug!(rt; "join of {eui:016x} not asked: the ticket is too old");
    }

    fn unsent(&self, rt: &R, downlink: &Downlink) {
        log_unsent(rt, self.state, downlink);
    }
}

// Whether it is kept or logged who got a reply: one to a join, or to a frame of no session.
fn is_kept_or_logged(reply: &Reply) -> bool {
    match reply {
        Reply::Ask { .. }
        | Reply::Accepted { .. }
        | Reply::NoSession
        | Reply::NoDevice
        | Reply::NonceOld { .. }
        | Reply::JoinRefused => true,
        _ => false,
    }
}

// Keeps and logs what came of a call, where that is asked for. It stands by itself, so that most calls run through none of it.
#[inline(never)]
fn tell<R: Log + Clock + Wait>(rt: &R, state: &State, receipt: &Receipt) {
    if let Some(status) = &state.status {
        status.note(rt, receipt, now_ms(rt, state));
    }
    note_asker(rt, state, receipt);
    note_event(rt, state, receipt);
    log_reply(rt, state, receipt);
}

// Keeps when the window that a reply opened is closed.
fn note_closing<R: Clock + Wait>(rt: &R, state: &State, receipt: &Receipt) {
    if let Call::Uplink { frame, .. } = &receipt.entry.call {
        if let Reply::Opened { .. } | Reply::Again { .. } = receipt.entry.reply {
            let due = closing_of(now_ms(rt, state), state.window_ms);
            state.lates.note(rt, FrameName::of(&frame.view()), due);
        }
    }
}

// Keeps by which gateway a device asked whose join server is asked now.
fn note_asker<R: Wait>(rt: &R, state: &State, receipt: &Receipt) {
    if let (Reply::Ask { .. }, Call::Join { ticket, heard }) = (
        &receipt.entry.reply,
        &receipt.entry.call,
    ) {
        let mut askers = state.askers.lock(rt);
        let _ = askers.note(ticket.dev_eui(), heard.gateway.0);
    }
}

// By which gateway a device asked, 0 where it is not kept.
fn asker_of<R: Wait>(rt: &R, state: &State, eui: DevEui) -> u64 {
    let askers = state.askers.lock(rt);
    askers.gateway(eui).unwrap_or(0)
}

// Logs who got a reply, where an operator is to know.
fn log_reply<R: Log + Clock + Wait>(rt: &R, state: &State, receipt: &Receipt) {
    let seldoms = &state.seldoms;
    match (&receipt.entry.reply, &receipt.entry.call) {
        (Reply::Accepted { eui, session, addr }, _) => {
            log_joined(rt, eui.0, *session, addr.0, &receipt.downlink);
        }
        (Reply::NoSession, Call::Uplink { frame, heard }) => {
            let (addr, gateway) = (frame.view().dev_addr().0, heard.gateway.0);
            let who = format_args!("nosession address {addr:08x} gateway {gateway:016x}");
            log_seldom(rt, state, Level::Info, &seldoms.nosession, who);
        }
        (Reply::NoDevice, Call::Join { ticket, heard }) => {
            let (eui, gateway) = (ticket.dev_eui().0, heard.gateway.0);
            let who = format_args!("nodevice {eui:016x} gateway {gateway:016x}");
            log_seldom(rt, state, Level::Info, &seldoms.nodevice, who);
        }
        (Reply::NonceOld { .. }, Call::Join { ticket, heard }) => {
            let (eui, gateway) = (ticket.dev_eui().0, heard.gateway.0);
            let who = format_args!("nonceold {eui:016x} gateway {gateway:016x}");
            log_seldom(rt, state, Level::Info, &seldoms.nonceold, who);
        }
        (Reply::JoinRefused, Call::JoinReply { ticket, .. }) => {
            let eui = ticket.dev_eui();
            let (device, gateway) = (eui.0, asker_of(rt, state, eui));
            let who = format_args!("joinrefused {device:016x} gateway {gateway:016x}");
            log_seldom(rt, state, Level::Info, &seldoms.joinrefused, who);
        }
        _ => {}
    }
}

// Logs a join.
fn log_joined<R: Log>(rt: &R, eui: u64, session: u32, addr: u32, downlink: &Option<Downlink>) {
    let joined = format_args!("joined {eui:016x} session {session} address {addr:08x}");
    match downlink {
        Some(downlink) => {
            let gateway = downlink.target.gateway.0;
            info!(rt; "{joined} gateway {gateway:016x}");
        }
        None => info!(rt; "{joined}"),
    }
}
