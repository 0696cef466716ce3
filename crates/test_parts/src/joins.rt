//! Join-Requests, answered alike by a shard and by the plain server, which searches the entries.

use self::Step::*;
use crate::calls::{begins_with, roster};
use ns_calls::{Answer, Call, Entry, Reply, shard_of_call};
use ns_device::calls::{join, join_reply};
use ns_lines::lines;
use ns_plain::reply_to_join;
use ns_roster::Roster;
use ns_runs::new_shards;
use ns_shard::Shard;
use ns_types::{DevEui, WindowName};
use std::alloc::Global;

// What comes to shard 13.
#[derive(Clone, Copy)]
enum Step {
    // The Join-Request of a device with a nonce, as a gateway heard it.
    Heard(u32, u32, u32),
    // The join server's answer to that of device 13 with this nonce.
    Answered(u32),
    // That no answer came to it.
    Lost(u32),
}

// Each step, and how the answers to it begin where it is made once and more.
const STEPS: &[(Step, &[&str])] = &[
    (Heard(29, 1, 1), &["nodevice"]),
    (Heard(13, 1, 1), &["ask "]),
    (Heard(13, 1, 2), &["joincopied 2"]),
    (Lost(1), &["joinrefused"]),
    (Heard(13, 1, 2), &["ask "]),
    (Answered(1), &["accepted ", "noticket"]),
    (Heard(13, 1, 1), &["nonceold 1"]),
    (Heard(13, 2, 1), &["ask "]),
    (Heard(13, 3, 1), &["ask "]),
    (Heard(13, 4, 1), &["ask "]),
    (Heard(13, 5, 1), &["ask "]),
    (Heard(13, 6, 1), &["joinbusy"]),
    (Lost(3), &["joinrefused"]),
    // Sixteen copies have a place.
    (Heard(13, 2, 2), &["joincopied "; 15]),
    (Heard(13, 2, 2), &["joincrowded"]),
];

impl Step {
    // Its call.
    fn call(self) -> Call {
        match self {
            Heard(device, nonce, gateway) => join(device, nonce, gateway),
            Answered(nonce) => join_reply(13, nonce, true),
            Lost(nonce) => join_reply(13, nonce, false),
        }
    }
}

// Whether the first line of an answer begins so.
fn has_front(answer: &Answer, front: &str) -> bool {
    match lines(answer).first() {
        Some(first) => first.as_str().starts_with(front),
        None => false,
    }
}

// The plain server's reply to a call, where that is a Join-Request.
fn plain_reply(roster: &Roster, entries: &[Entry], call: &Call) -> Option<Reply> {
    match call {
        Call::Join { ticket, .. } => Some(reply_to_join(roster, entries, ticket)),
        _ => None,
    }
}

// Whether a shard's answer to a call begins so, and is the plain server's where that has one. None where memory was refused.
fn is_alike(roster: &Roster, shard: &mut Shard, call: &Call, front: &str) -> Option<bool> {
    if shard_of_call(call) != shard.index() {
        return Some(false);
    }
    let plain = plain_reply(roster, shard.entries(), call);
    let answer = shard.apply(*call).ok()?;
    Some(plain.unwrap_or(answer.reply) == answer.reply && has_front(&answer, front))
}

// Whether each answer to a step is as wanted, and is the plain server's.
fn are_alike(roster: &Roster, shard: &mut Shard, step: Step, fronts: &[&str]) -> bool {
    for front in fronts {
        if is_alike(roster, shard, &step.call(), front) != Some(true) {
            return false;
        }
    }
    true
}

// The number of the first step that a shard with no entries answers otherwise, if there is one. None where there is no memory.
fn other_step(alloc: Global) -> Option<Option<usize>> {
    let roster = roster(alloc)?;
    let mut shards = new_shards(alloc, roster.clone().ok()?).ok()?;
    let shard = shards.get_mut(13)?;
    for number in 0..STEPS.len() {
        let (step, fronts) = STEPS[number];
        if !are_alike(&roster, shard, step, fronts) {
            return Some(Some(number));
        }
    }
    Some(None)
}

#[test]
fn the_plain_server_replies_alike(rt: HostRuntime) {
    assert!(rt; other_step(rt.alloc()) == Some(None));
}

// The line of the last round that there is.
#[test]
fn line_of_the_last_round(rt: HostRuntime) {
    let window = WindowName {
        eui: DevEui(0x0d),
        session: 1,
        fcnt: 2,
        round: u32::MAX,
    };
    let answer = Answer {
        reply: Reply::Again { window },
        uplink: None,
        downlink: None,
    };
    assert!(rt; begins_with(&answer, "again 000000000000000d 1 2:4294967295"));
}
