//! Traffic at random, whose record is compacted now and then: no later answer changes.

use crate::life::Life;
use ns_calls::{Call, Reply};
use ns_device::calls::{join, join_reply, uplink};
use ns_resume::RecordFault;
use ns_types::WindowName;
use std::alloc::Global;

const DEVICES: usize = 3;

// Numbers at random.
#[derive(Drop)]
struct Random {
    state: u32,
}

impl Random {
    // A number below this one, or 0.
    fn below(&mut self, bound: u32) -> u32 {
        let next = self.state.wrapping_mul(1_664_525);
        self.state = next.wrapping_add(1_013_904_223);
        (self.state / 65_536).checked_rem(bound).unwrap_or(0)
    }

    // A place in a list of so many.
    fn place(&mut self, len: usize) -> usize {
        (self.below(65_536) as usize).checked_rem(len).unwrap_or(0)
    }
}

// A device: the nonce of its last Join-Request, and of its live session the nonce, if it has joined, and the next counter.
#[derive(Clone, Copy, Drop)]
struct Device {
    eui: u32,
    nonce: u32,
    session: u32,
    counter: u32,
}

// An uplink, and the gateway that heard it.
#[derive(Clone, Copy, Drop)]
struct Sent {
    eui: u32,
    session: u32,
    counter: u32,
    is_confirmed: bool,
    gateway: u32,
}

// A network, with the windows and tickets that may be open, and the uplink before.
#[derive(Drop)]
struct Network {
    life: Life,
    random: Random,
    devices: Vec<Device>,
    windows: Vec<WindowName>,
    tickets: Vec<(usize, u32)>,
    last: Option<Sent>,
}

impl Network {
    fn new(alloc: Global, seed: u32) -> Result<Network, RecordFault> {
        let mut devices = Vec::new(alloc);
        // Two of them are of one shard.
        for eui in [0, 1, 16u32] {
            let device = Device {
                eui,
                nonce: 0,
                session: 0,
                counter: 0,
            };
            devices.extend_from_slice(&[device])?;
        }
        Ok(Network {
            life: Life::new(alloc)?,
            random: Random { state: seed },
            devices,
            windows: Vec::new(alloc),
            tickets: Vec::new(alloc),
            last: None,
        })
    }

    // A device asks to join.
    fn ask(&mut self, at: usize) -> Result<(), RecordFault> {
        let Some(device) = self.devices.get_mut(at) else {
            return Ok(());
        };
        device.nonce = device.nonce.saturating_add(self.random.below(3));
        let (eui, nonce) = (device.eui, device.nonce);
        let call = join(eui, nonce, self.random.below(3));
        if let Reply::Ask { .. } = self.life.make(call)? {
            let _ = self.tickets.push((at, nonce));
        }
        Ok(())
    }

    // A ticket is answered.
    fn answer(&mut self) -> Result<(), RecordFault> {
        let place = self.random.place(self.tickets.len());
        if place >= self.tickets.len() {
            return Ok(());
        }
        let (at, nonce) = self.tickets.swap_remove(place);
        let Some(device) = self.devices.get_mut(at) else {
            return Ok(());
        };
        let call = join_reply(device.eui, nonce, self.random.below(4) > 0);
        if let Reply::Accepted { .. } = self.life.make(call)? {
            device.session = nonce;
            device.counter = 0;
        }
        Ok(())
    }

    // A device sends an uplink. Now and then many before it were not heard.
    fn send(&mut self, at: usize) -> Result<(), RecordFault> {
        let silent = match self.random.below(12) {
            0 => 30_000u32.saturating_add(self.random.below(35_000)),
            _ => self.random.below(3),
        };
        let is_confirmed = self.random.below(3) == 0;
        let gateway = self.random.below(3);
        let Some(device) = self.devices.get_mut(at) else {
            return Ok(());
        };
        let counter = device.counter.saturating_add(silent);
        device.counter = counter.saturating_add(1);
        let (eui, session) = (device.eui, device.session);
        self.hear(Sent {
            eui,
            session,
            counter,
            is_confirmed,
            gateway,
        })
    }

    // The uplink before is heard again, and half of the time as a confirmed one.
    fn hear_again(&mut self) -> Result<(), RecordFault> {
        let is_confirmed = self.random.below(2) == 0;
        match self.last {
            Some(sent) => self.hear(Sent {
                is_confirmed: sent.is_confirmed || is_confirmed,
                ..sent
            }),
            None => Ok(()),
        }
    }

    // An uplink is heard.
    fn hear(&mut self, sent: Sent) -> Result<(), RecordFault> {
        self.last = Some(sent);
        let Some(call) = uplink(
            sent.eui,
            sent.session,
            sent.counter,
            sent.is_confirmed,
            sent.gateway,
        ) else {
            return Ok(());
        };
        if let Reply::Opened { window } | Reply::Again { window } = self.life.make(call)? {
            let _ = self.windows.push(window);
        }
        Ok(())
    }

    // A window is closed.
    fn close(&mut self) -> Result<(), RecordFault> {
        let place = self.random.place(self.windows.len());
        if place >= self.windows.len() {
            return Ok(());
        }
        let window = self.windows.swap_remove(place);
        self.life.make(Call::Close { window })?;
        Ok(())
    }

    // Something happens.
    fn step(&mut self) -> Result<(), RecordFault> {
        let at = self.random.place(DEVICES);
        match self.random.below(40) {
            0..2 => self.ask(at),
            2..5 => self.answer(),
            5..16 => self.send(at),
            16..24 => self.hear_again(),
            _ => self.close(),
        }
    }

    // Puts a checkpoint in the place of the record, and goes on with it. Gives how many lines it has less, if that serves as well.
    fn compact(&mut self) -> Result<Option<u64>, RecordFault> {
        let before = self.life.lines();
        let text = self.life.checkpoint()?;
        if !self.life.take(text)? {
            return Ok(None);
        }
        self.life.restart()?;
        Ok(Some(before.saturating_sub(self.life.lines())))
    }
}

// Two networks of the same traffic, of which one's record is compacted.
#[derive(Drop)]
struct Both {
    plain: Network,
    other: Network,
}

impl Both {
    // So many steps of both.
    fn steps(&mut self, count: u32) -> Result<(), RecordFault> {
        for _step in 0..count {
            self.plain.step()?;
            self.other.step()?;
        }
        Ok(())
    }

    // Whether both said the same, and have the same `up` lines.
    fn are_same(&self) -> bool {
        let (plain, other) = (&self.plain.life, &self.other.life);
        plain.said.as_str() == other.said.as_str() && plain.ups.as_slice() == other.ups.as_slice()
    }
}

// How many lines four compactions leave out. None if a later answer changed, or a checkpoint did not serve as well.
fn saved(alloc: Global, seed: u32) -> Result<Option<u64>, RecordFault> {
    let plain = Network::new(alloc, seed)?;
    let other = Network::new(alloc, seed)?;
    let mut both = Both { plain, other };
    let mut saved = 0u64;
    for _compaction in 0..4 {
        both.steps(200)?;
        if !both.are_same() {
            return Ok(None);
        }
        match both.other.compact()? {
            Some(fewer) => saved = saved.saturating_add(fewer),
            None => return Ok(None),
        }
    }
    Ok(Some(saved))
}

// The same of two networks, with the lines of both together.
fn saved_by_two(alloc: Global) -> Option<u64> {
    let one = saved(alloc, 1).ok()??;
    let other = saved(alloc, 2).ok()??;
    Some(one.saturating_add(other))
}

#[test]
fn no_later_answer_changes(rt: HostRuntime) {
    assert!(rt; saved_by_two(rt.alloc()) > Some(300));
}
