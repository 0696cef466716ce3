//! `up` lines of a record that no step of it implies: the end of the machine may leave them, where steps are not brought to the disk before.

use crate::rerun::Rerun;
use ns_acts::call_of;
use ns_calls::{Call, DataFrame, JoinAccept, JoinAns, Outcome, Reply};
use ns_creator::{DataCreator, Keys};
use ns_resume::{RecordFault, RecordHead, begin_record};
use ns_roster::Roster;
use ns_secure::Dir;
use ns_shard::Shard;
use ns_steps::step;
use ns_types::{DevAddr, DevEui, GatewayId, Heard, JoinEui, Key, Ticket, WindowName};
use ns_views::{PhyView, view};
use std::alloc::Global;
use std::io::BufRead;
use std::sync::Arc;

// How an uplink was heard of which no step tells: by no gateway.
const UNHEARD: Heard = Heard {
    gateway: GatewayId(0),
    moment: 0,
    freq: 868_100_000,
    dr: 0,
    rssi: 0,
    snr: 0,
};

// How many joins are put down for one `up` line at most.
const MOST_JOINS: u32 = 64;

/// What was found of a record whose `up` lines are ahead of its steps.
#[derive(Drop)]
pub struct Ahead {
    /// The shards that have caught up.
    pub shards: Vec<Shard>,
    /// How many `up` lines no step implied, and how many of these are of sessions that no step began.
    pub lines: u64,
    pub unknown: u64,
    /// How many bytes of an incomplete line follow the whole `up` lines.
    pub up_torn: usize,
}

// A run of the steps of a record, and of uplinks that were handed out and are not in them.
#[derive(Drop)]
struct Catching {
    alloc: Global,
    roster: Arc<Roster>,
    rerun: Rerun,
    // The key of sessions that are made up.
    secret: Option<Key>,
    line: Vec<u8>,
    // Room for a datagram.
    room: Vec<u8>,
}

// A Confirmed Data Up without port and payload, which has this counter in the session of this key.
fn uplink_of(counter: u32, nwk: Key, addr: DevAddr) -> Option<Call> {
    let creator = DataCreator {
        dir: Dir::Up,
        confirmed: true,
        addr,
        flags: 0,
        counter,
        fopts: &[],
        port: None,
        payload: &[],
    };
    let keys = Keys {
        nwk,
        app: nwk,
        root: nwk,
    };
    let mut room = [0u8; 12];
    let Ok(frame) = creator.build_into(&keys, &mut room) else {
        return None;
    };
    match view(frame) {
        Ok(PhyView::Frame(data)) => Some(Call::Uplink {
            frame: DataFrame::of(&data),
            heard: UNHEARD,
        }),
        _ => None,
    }
}

// The Join-Request of a device with this DevNonce, without a MIC.
fn ticket_of(eui: DevEui, join_eui: JoinEui, nonce: u16) -> Ticket {
    let mut bytes = [0u8; 23];
    bytes[1..9].copy_from_slice(&join_eui.0.to_le_bytes());
    bytes[9..17].copy_from_slice(&eui.0.to_le_bytes());
    bytes[17..19].copy_from_slice(&nonce.to_le_bytes());
    Ticket(bytes)
}

// The words of an `up` line that name its window: device, session and counter.
fn words_of(line: &[u8]) -> Option<&[u8]> {
    let words = line.strip_prefix(b"up ")?;
    let mut spaces = 0u32;
    for (at, byte) in words.iter().enumerate() {
        if *byte == b' ' {
            spaces = spaces.saturating_add(1);
            if spaces == 3 {
                return words.get(..at);
            }
        }
    }
    None
}

impl Catching {
    // Reads the next line, and says whether it is whole.
    fn read<S: BufRead>(&mut self, source: &mut S) -> Result<bool, RecordFault> {
        self.line.clear();
        source.read_until(b'\n', &mut self.line)?;
        match self.line.pop() {
            Some(b'\n') => Ok(true),
            Some(byte) => {
                self.line.extend_from_slice(&[byte])?;
                Ok(false)
            }
            None => Ok(false),
        }
    }

    // Runs all whole steps. Returns how many `up` lines those imply that no compaction left.
    fn run_steps<S: BufRead>(
        &mut self,
        head: &RecordHead,
        steps: &mut S,
    ) -> Result<u64, RecordFault> {
        let Some(first) = head.first_number() else {
            return Err(RecordFault::TooMany);
        };
        let before = head.lines_before();
        let mut implied = 0u64;
        for place in 0..u64::MAX {
            if !self.read(steps)? {
                return Ok(implied);
            }
            let number = first.saturating_add(place);
            let made = self.rerun.run(number, self.line.as_slice())?;
            if made.goes_up && place >= before {
                implied = implied.saturating_add(1);
            }
        }
        Err(RecordFault::TooMany)
    }

    // Reads the `up` lines that were written before the head, and so many more.
    fn skip_ups<U: BufRead>(
        &mut self,
        head: &RecordHead,
        implied: u64,
        ups: &mut U,
    ) -> Result<(), RecordFault> {
        let bytes = head.ups_before();
        let mut left = bytes;
        for _line in 0..u64::MAX {
            if left == 0 {
                break;
            }
            if !self.read(ups)? {
                return Err(RecordFault::UpShorter(bytes));
            }
            left = left
                .saturating_sub(self.line.len() as u64)
                .saturating_sub(1);
        }
        for _line in 0..implied {
            if !self.read(ups)? {
                return Ok(());
            }
        }
        Ok(())
    }

    // Makes a call.
    fn make(&mut self, call: Call) -> Result<Reply, RecordFault> {
        match self.rerun.make(call)? {
            Some(made) => Ok(made.reply),
            None => Ok(Reply::NoWindow),
        }
    }

    // The window that the line names that was read, if it is an `up` line.
    fn window(&mut self) -> Result<Option<WindowName>, RecordFault> {
        let Some(words) = words_of(self.line.as_slice()) else {
            return Ok(None);
        };
        let mut text = Vec::from_slice(self.alloc, b"close ")?;
        text.extend_from_slice(words)?;
        let Some(act) = step(&mut self.room, text.as_slice())? else {
            return Ok(None);
        };
        match call_of(self.alloc, &act)? {
            Some(Call::Close { window }) => Ok(Some(window)),
            _ => Ok(None),
        }
    }

    // The window of the `up` line that was read is closed, and where it is not open it is opened before, by an uplink in the place of the
    // one that no step tells. It takes a number of an acknowledgement, since that one may have. Says whether its session is known.
    fn catch_up(&mut self) -> Result<bool, RecordFault> {
        let Some(window) = self.window()? else {
            return Ok(false);
        };
        if let Reply::Closed { .. } = self.make(Call::Close { window })? {
            return Ok(true);
        }
        let Some((nwk, addr)) = self.rerun.session(window.eui, window.session) else {
            self.catch_joins(&window)?;
            return Ok(false);
        };
        let Some(uplink) = uplink_of(window.fcnt, nwk, addr) else {
            return Ok(false);
        };
        if let Reply::Opened { window } | Reply::Again { window } = self.make(uplink)? {
            self.make(Call::Close { window })?;
        }
        Ok(true)
    }

    // Joins are put down in the place of those that no step tells, until the device has had a session of this number, so that no later one
    // has it again. Nobody knows the key of these sessions.
    fn catch_joins(&mut self, window: &WindowName) -> Result<(), RecordFault> {
        let Some(secret) = self.secret else {
            return Ok(());
        };
        let last = self.rerun.last_session(window.eui);
        let Some(device) = self.roster.find(window.eui) else {
            return Ok(());
        };
        let join_eui = device.join_eui;
        if window.session > last.saturating_add(MOST_JOINS) {
            return Ok(());
        }
        for _session in last..window.session {
            self.join(window.eui, join_eui, secret)?;
        }
        Ok(())
    }

    // A join of a device, with the DevNonce above all that are known: the one that no step tells had that or a greater one.
    fn join(&mut self, eui: DevEui, join_eui: JoinEui, nwk: Key) -> Result<(), RecordFault> {
        let nonce = match self.rerun.greatest(eui) {
            Some(greatest) => greatest.0.saturating_add(1),
            None => 0,
        };
        let ticket = ticket_of(eui, join_eui, nonce);
        let heard = UNHEARD;
        self.make(Call::Join { ticket, heard })?;
        let outcome = Outcome::Success(JoinAns {
            accept: JoinAccept::Plain([0x20; 17]),
            nwk,
            app: None,
        });
        self.make(Call::JoinReply { ticket, outcome })?;
        Ok(())
    }

    // Catches up with all whole `up` lines that are left.
    fn catch_all<U: BufRead>(mut self, ups: &mut U) -> Result<Ahead, RecordFault> {
        let (mut lines, mut unknown) = (0u64, 0u64);
        for _line in 0..u64::MAX {
            if !self.read(ups)? {
                return Ok(Ahead {
                    up_torn: self.line.len(),
                    shards: self.rerun.into_shards(),
                    lines,
                    unknown,
                });
            }
            lines = lines.saturating_add(1);
            if !self.catch_up()? {
                unknown = unknown.saturating_add(1);
            }
        }
        Err(RecordFault::TooMany)
    }
}

/// Runs the whole steps of a record, and after them, for each `up` line that they do not imply, an uplink in the place of the one that
/// went up: so it does not go up again, and the number of its acknowledgement is not used again. The `up` lines that the steps imply are
/// taken to be there: `run_record` is to be asked before, and of the checkpoint of these shards after. A session that no step began is made up
/// under `secret`, a key that nobody knows, where there is one, so that its number is not used again.
pub fn catch_up<S: BufRead, U: BufRead>(
    alloc: Global,
    roster: Arc<Roster>,
    steps: &mut S,
    ups: &mut U,
    secret: Option<Key>,
) -> Result<Ahead, RecordFault> {
    let (head, shards) = begin_record(alloc, roster.clone()?, steps)?;
    let mut catching = Catching {
        alloc,
        rerun: Rerun::new(alloc, shards),
        roster,
        secret,
        line: Vec::new(alloc),
        room: Vec::new(alloc),
    };
    let implied = catching.run_steps(&head, steps)?;
    catching.skip_ups(&head, implied, ups)?;
    catching.catch_all(ups)
}
