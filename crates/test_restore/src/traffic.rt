//! Calls at random.

use crate::network::{INDEX, eui, frame, heard, outcome, ticket, uplink};
use crate::random::Random;
use ns_calls::{Answer, Call, DataFrame, shard_of_call};
use ns_roster::Roster;
use ns_sessions::Session;
use ns_shard::Shard;
use ns_types::{DevAddr, WindowName};
use std::alloc::Global;
use std::sync::Arc;

/// What was sent to a shard, and what comes next.
#[derive(Drop)]
pub struct Traffic {
    alloc: Global,
    random: Random,
    devices: usize,
    // Whether counters leap.
    is_wide: bool,
    sent: Vec<DataFrame>,
}

// A session of a device at random, and the address.
fn session(random: &mut Random, shard: &Shard, device: usize) -> Option<(DevAddr, Session)> {
    let own = shard.devices().get(eui(device))?;
    let sessions = own.state.sessions();
    let place = random.place(sessions.len());
    Some((own.addr, *sessions.get(place)?))
}

impl Traffic {
    /// No traffic yet.
    pub fn new(alloc: Global, seed: u64, devices: usize) -> Traffic {
        Traffic {
            alloc,
            random: Random::new(seed),
            devices,
            is_wide: seed % 2 == 1,
            sent: Vec::new(alloc),
        }
    }

    // A device asks to join, now and then with a nonce that it had.
    fn ask(&mut self, shard: &Shard, device: usize) -> Option<Call> {
        let greatest = match shard.devices().get(eui(device))?.state.greatest() {
            Some(nonce) => nonce.0,
            None => 0,
        };
        let step = [0u16, 1, 1, 2, 3, 5][self.random.below(6) as usize % 6];
        Some(Call::Join {
            ticket: ticket(
                device,
                greatest.wrapping_add(step),
                self.random.below(2).to_le_bytes()[0],
            ),
            heard: heard(&mut self.random),
        })
    }

    // A ticket is answered.
    fn answer(&mut self, shard: &Shard, device: usize) -> Option<Call> {
        let open = shard.devices().get(eui(device))?.state.tickets();
        let ticket = open.get(self.random.place(open.len()))?.ticket;
        Some(Call::JoinReply {
            ticket,
            outcome: outcome(&mut self.random, &ticket),
        })
    }

    // A device sends an uplink. Some before it were not heard.
    fn send(&mut self, shard: &Shard, device: usize) -> Option<Call> {
        let (addr, session) = session(&mut self.random, shard, device)?;
        let kinds = if self.is_wide { 8 } else { 5 };
        let step = [1u32, 1, 1, 2, 3, 4464, 65_536, 40_000][self.random.below(kinds) as usize % 8];
        let counter = match session.greatest_counter {
            Some(greatest) => greatest.wrapping_add(step),
            None => step - 1,
        };
        let is_confirmed = self.random.percent(60);
        let payload = self.random.below(200).to_le_bytes()[0];
        let frame = frame(addr, session.nwk, counter, is_confirmed, payload)?;
        self.sent.push(frame).ok()?;
        Some(uplink(&mut self.random, frame))
    }

    // One of the last uplinks is heard again.
    fn hear_again(&mut self) -> Option<Call> {
        let sent = self.sent.as_slice();
        let back = self.random.place(sent.len().min(12));
        let frame = *sent.get(sent.len().checked_sub(back.saturating_add(1))?)?;
        Some(uplink(&mut self.random, frame))
    }

    // A window is closed: the oldest, or the last but few.
    fn close(&mut self, shard: &Shard) -> Option<Call> {
        let names = shard.open_windows(self.alloc).ok()?;
        let window: WindowName = *names.as_slice().get(self.random.place(names.len()))?;
        Some(Call::Close { window })
    }

    /// A call at random.
    pub fn call(&mut self, shard: &Shard) -> Option<Call> {
        let device = self.random.place(self.devices);
        match self.random.below(100) {
            0..12 => self.ask(shard, device),
            12..22 => self.answer(shard, device),
            22..62 => self.send(shard, device),
            62..78 => self.hear_again(),
            _ => self.close(shard),
        }
    }
}

/// The answer of a shard to a call of it.
pub fn answer(shard: &mut Shard, call: Call) -> Option<Answer> {
    if shard_of_call(&call) != shard.index() {
        return None;
    }
    shard.apply(call).ok()
}

/// A shard after so many calls.
pub fn left(traffic: &mut Traffic, roster: &Arc<Roster>, calls: u32) -> Option<Shard> {
    let mut shard = Shard::new(traffic.alloc, roster.clone().ok()?, INDEX).ok()?;
    for _ in 0..calls {
        if let Some(call) = traffic.call(&shard) {
            answer(&mut shard, call)?;
        }
    }
    Some(shard)
}
