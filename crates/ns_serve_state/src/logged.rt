//! What is logged of what all threads share.

use crate::clock::now_ms;
use crate::counted::log_all;
use crate::state::State;
use ns_calls::Downlink;
use ns_forwarder::{ForwarderFault, Kind, Outcome};
use ns_forwarder_socket::{Event, Heard, outcome_name};
use ns_log::{Level, Log, debug, info, warn};
use ns_serve_parts::{Seldom, more};
use ns_status::Sign;
use std::fmt::Display;
use std::sync::Wait;
use std::sync::atomic::{AtomicU64, Ordering};
use std::time::Clock;

// How often it is looked whether the system dropped datagrams, in milliseconds.
const DROPS_MS: u64 = 5_000;

/// What is logged once a minute at most: who got each of these replies, at the level info, and receives that failed and downlinks that a
/// forwarder did not send, at warn.
#[derive(Drop)]
pub struct Seldoms {
    pub nosession: Seldom,
    pub nodevice: Seldom,
    pub nonceold: Seldom,
    pub joinrefused: Seldom,
    /// Receives that failed.
    pub receive: Seldom,
    transmit: Seldom,
    // When it was looked last whether the system dropped datagrams.
    drops_ms: AtomicU64,
}

impl Seldoms {
    /// None has come yet.
    pub(crate) fn new() -> Seldoms {
        Seldoms {
            nosession: Seldom::new(),
            nodevice: Seldom::new(),
            nonceold: Seldom::new(),
            joinrefused: Seldom::new(),
            receive: Seldom::new(),
            transmit: Seldom::new(),
            drops_ms: AtomicU64::new(0),
        }
    }
}

/// Counts and logs a downlink that was not sent.
pub fn log_unsent<R: Log>(rt: &R, state: &State, downlink: &Downlink) {
    more(&state.counts.unsent);
    let gateway = downlink.target.gateway.0;
    warn!(rt; "downlink to gateway {gateway:016x} not sent");
}

/// Logs the counts.
pub fn log_counts<R: Log>(rt: &R, state: &State) {
    log_all(rt, &state.counts, state.read.all(), &state.made);
    if let Some((forwarders, _)) = &state.forwarders {
        info!(rt; "forwarders:{}", forwarders.counts());
    }
}

// Whether it is to be looked at now, by whoever asks first.
fn is_look_due(state: &State, now_ms: u64) -> bool {
    let last_ms = state.seldoms.drops_ms.load(Ordering::SeqCst);
    if now_ms < last_ms.saturating_add(DROPS_MS) {
        return false;
    }
    let was = state
        .seldoms
        .drops_ms
        .compare_exchange(last_ms, now_ms, Ordering::SeqCst, Ordering::SeqCst);
    was.is_ok()
}

// How many datagrams the system dropped at both sockets since they were opened.
fn drops(state: &State) -> u64 {
    let mut drops: u64 = 0;
    if let Some((_, addr)) = &state.own {
        drops = drops.saturating_add(state.system.drops(*addr).unwrap_or(0));
    }
    if let Some((_, addr)) = &state.forwarders {
        drops = drops.saturating_add(state.system.drops(*addr).unwrap_or(0));
    }
    drops
}

/// Counts, and logs at warn, datagrams that the system dropped since a socket's buffer was full. It looks once in five seconds, or, where it
/// has to, at once.
#[inline(never)]
pub fn look_at_drops<R: Log + Clock>(rt: &R, state: &State, at_once: bool) {
    if !is_look_due(state, now_ms(rt, state)) && !at_once {
        return;
    }
    let drops = drops(state);
    let before = state.counts.lost.fetch_max(drops, Ordering::SeqCst);
    if drops > before {
        let count = drops - before;
        warn!(rt; "{count} datagrams lost: the system dropped them, the buffer of the socket was full");
    }
}

// What is wrong with the field for which an item of a message was left out.
fn words_of(fault: ForwarderFault) -> &'static str {
    match fault {
        ForwarderFault::BadCrc => "says that the CRC is wrong",
        ForwarderFault::NoCrc => "says that there is no CRC",
        ForwarderFault::Outside => "is not of EU868",
        _ => "is missing or wrong",
    }
}

/// Notes of a gateway what a message of its forwarder was, and logs which of its items were left out.
#[inline(never)]
pub fn note_message<R: Log + Clock + Wait>(rt: &R, state: &State, heard: &Heard) {
    let gateway = heard.gateway.0;
    for item in &heard.left_out {
        let (fault, field, words) = (item.fault, item.field, words_of(item.fault));
        debug!(rt; "frame of gateway {gateway:016x} refused: {fault}, {field} {words}");
    }
    let Some(status) = &state.status else {
        return;
    };
    let now_ms = now_ms(rt, state);
    if heard.kind == Kind::PullData {
        status.note_sign(rt, heard.gateway, Sign::Pull, now_ms);
    }
    if heard.has_stat {
        status.note_sign(rt, heard.gateway, Sign::Stat, now_ms);
    }
}

// Notes of a gateway that it refused a downlink.
fn note_refused<R: Log + Clock + Wait>(rt: &R, state: &State, event: Event) {
    match (event, &state.status) {
        (Event::Told(gateway, outcome), Some(status)) if outcome != Outcome::Sent => {
            status.note_sign(rt, gateway, Sign::Refused, now_ms(rt, state));
        }
        _ => {}
    }
}

/// Logs what came of a forwarder's message that gave no datagram, where an operator is to know.
#[inline(never)]
pub fn log_message<R: Log + Clock + Wait>(rt: &R, state: &State, event: Event) {
    note_refused(rt, state, event);
    match event {
        Event::Refused(ForwarderFault::NoMemory) => {
            warn!(rt; "message of a forwarder dropped: no memory");
        }
        Event::Refused(fault) => {
            debug!(rt; "message of a forwarder refused: {fault}");
        }
        Event::Told(gateway, outcome) if outcome != Outcome::Sent => {
            let (gateway, error) = (gateway.0, outcome_name(outcome));
            let what = format_args!("downlink not sent by gateway {gateway:016x}: {error}");
            log_seldom(rt, state, Level::Warn, &state.seldoms.transmit, what);
        }
        _ => {}
    }
}

/// Logs a text at the level debug, and at this one where its line is due.
pub fn log_seldom<R: Log + Clock, D: Display + Drop>(
    rt: &R,
    state: &State,
    level: Level,
    seldom: &Seldom,
    text: D,
) {
    debug!(rt; "{text}");
    if let Some(count) = seldom.happened(now_ms(rt, state)) {
        let what = format_args!("{text}, {count} since the line before");
        rt.line(level, module_path!(), what);
    }
}
