//! What is around the workers: a clock, a monitor, a join server, ways out, and memory that goes and comes.

ghost use Rattle.std.specs.Prelude.{None};

use crate::workers::frames::Response;
use ns_calls::Downlink;
use ns_device::growths::{pause, refuse};
use ns_outside::{
    Connections, Datagrams, Downlinks, Job, JobSource, Jobs, JoinFault, Monitor, Next, Receipt,
    Received, Refused, Timer,
};
use ns_types::{BLOCKS, Fuse, Ticket, take_rest};
use std::alloc::Global;
use std::sync::atomic::{AtomicU64, Ordering};

/// A ticket that waits since a time, and the join server's response.
pub type Asked = (&'static [u8; 23], u64, Response);

/// What fails: the source at its end, each downlink, the write after so many, memory but for so many blocks from one turn of the source to
/// another, and the growth of a number alone (`growths` of ns_device; 0 is none).
#[derive(Clone, Copy)]
pub struct Faults {
    pub source: bool,
    pub downlinks: bool,
    pub writes: Option<u64>,
    pub from: u32,
    pub to: u32,
    pub blocks: u32,
    pub alone: u32,
}

/// Nothing fails.
pub const NONE: Faults = Faults {
    source: false,
    downlinks: false,
    writes: None,
    from: u32::MAX,
    to: u32::MAX,
    blocks: 0,
    alone: 0,
};

/// A clock that goes on by a step with each look, and to the time that is waited for. It is a monitor too, and a join server that gives
/// one response after the other.
///
/// Its numbers count datagrams refused, replied to and dropped, tickets without an answer, downlinks not sent, stale tickets, and
/// connections asked for; the last three are the times of the first replies.
#[derive(Drop)]
pub struct Around {
    alloc: Global,
    time: AtomicU64,
    step: u64,
    asks: &'static [Asked],
    numbers: [AtomicU64; 10],
}

impl Around {
    /// A clock at this time, which goes on by a step each time it is read, and a join server that gives these responses.
    pub fn new(alloc: Global, time: u64, step: u64, asks: &'static [Asked]) -> Around {
        Around {
            alloc,
            time: AtomicU64::new(time),
            step,
            asks,
            numbers: Default::default(),
        }
    }

    // One more at a place, and how many there were.
    fn more(&self, place: usize) -> u64 {
        match self.numbers.get(place) {
            Some(number) => number.fetch_add(1, Ordering::SeqCst),
            None => 0,
        }
    }

    /// The numbers from a place on.
    pub fn told(&self, from: usize) -> [u64; 10] {
        let mut told = [0; 10];
        for place in 0..10usize {
            if let Some(number) = self.numbers.get(place.wrapping_add(from)) {
                told[place] = number.load(Ordering::SeqCst);
            }
        }
        told
    }
}

impl<R> Timer<R> for Around {
    fn now(&self, _rt: &R) -> u64 {
        self.time.fetch_add(self.step, Ordering::SeqCst)
    }

    fn until(&self, _rt: &R, due: u64) {
        if self.time.load(Ordering::SeqCst) < due {
            self.time.store(due, Ordering::SeqCst);
        }
    }
}

impl<R> Monitor<R> for Around {
    fn refused(&self, _rt: &R, _why: Refused) {
        self.more(0);
    }

    fn replied(&self, _rt: &R, _receipt: &Receipt) {
        let at = self.more(1);
        if let Some(noted) = self.numbers.get((at as usize).wrapping_add(7)) {
            noted.store(self.time.load(Ordering::SeqCst), Ordering::SeqCst);
        }
    }

    fn dropped(&self, _rt: &R) {
        self.more(2);
    }

    fn unanswered(&self, _rt: &R, _ticket: &Ticket, _why: &JoinFault) {
        self.more(3);
    }

    fn stale(&self, _rt: &R, _ticket: &Ticket) {
        self.more(5);
    }

    fn unsent(&self, _rt: &R, _downlink: &Downlink) {
        self.more(4);
    }
}

impl<R> Connections<R> for Around {
    type S = Fuse;

    fn open(&self, _rt: &R) -> Option<Fuse> {
        let at = self.more(6);
        let (_, _, response) = self.asks.get(at as usize)?;
        let bytes = response.bytes(self.alloc)?;
        Some(Fuse::new(self.alloc, bytes, 100, None, None))
    }
}

/// Records downlinks, and sends them or not. It has room for the first four of them.
#[derive(Drop)]
pub struct Sent {
    sends: bool,
    pub sent: Vec<Downlink>,
}

impl Sent {
    /// Nothing was sent yet; what is to be sent is, or is not.
    pub fn new(alloc: Global, sends: bool) -> Option<Sent> {
        let sent = Vec::with_capacity(alloc, 4).ok()?;
        Some(Sent { sends, sent })
    }
}

impl<R> Downlinks<R> for Sent {
    fn send(&mut self, _rt: &R, downlink: &Downlink) -> bool {
        self.sent.push(*downlink).is_ok() && self.sends
    }
}

/// Records jobs while it has room for them.
#[derive(Drop)]
pub struct Put {
    room: usize,
    pub jobs: Vec<Job>,
}

impl Put {
    /// Room for so many jobs.
    pub fn new(alloc: Global, room: usize) -> Put {
        let jobs = Vec::new(alloc);
        Put { room, jobs }
    }
}

impl<R> Jobs<R, Job> for Put {
    fn put(&mut self, _rt: &R, job: Job) -> Result<(), Job> {
        if self.jobs.len() >= self.room || self.jobs.push(job).is_err() {
            return Err(job);
        }
        Ok(())
    }
}

/// A source behind which memory goes and comes, as faults say: before the turn of the first number all of it is taken but for its
/// blocks, and before that of the second it is given back. The stack is used before (`use_stack`).
#[derive(Drop)]
pub struct Scarce<S> {
    alloc: Global,
    source: S,
    held: Vec<Vec<u8>>,
    turn: u32,
    has_begun: bool,
    faults: Faults,
}

impl<S: Drop> Scarce<S> {
    /// A source behind which memory goes and comes.
    pub fn new(alloc: Global, source: S, faults: &Faults) -> Option<Scarce<S>> {
        Some(Scarce {
            alloc,
            source,
            held: Vec::with_capacity(alloc, BLOCKS).ok()?,
            turn: 0,
            has_begun: false,
            faults: *faults,
        })
    }

    // The next turn.
    fn turn(&mut self) {
        if self.turn == self.faults.from {
            let _ = take_rest(self.alloc, &mut self.held);
            for _ in 0..self.faults.blocks {
                let _ = self.held.pop();
            }
        }
        if self.turn == self.faults.to {
            self.held.clear();
        }
        self.turn = self.turn.wrapping_add(1);
    }

    /// Has a growth from now on be refused, where the faults name one, and none in later runs over this source.
    pub fn begin(&mut self) {
        if self.faults.alone > 0 && !self.has_begun {
            refuse(self.alloc, self.faults.alone);
            self.has_begun = true;
        }
    }

    /// Gives all memory back, and refuses no growth from now on.
    pub fn give_back(&mut self) {
        self.held.clear();
        if self.has_begun {
            pause(self.alloc);
        }
    }
}

impl<R, S: Datagrams<R> + Drop> Datagrams<R> for Scarce<S> {
    ghost given = { λ _. None };

    fn next(&mut self, rt: &R, buf: &mut [u8; 512]) -> Received {
        self.turn();
        self.source.next(rt, buf)
    }
}

impl<R, J, S: JobSource<R, J> + Drop> JobSource<R, J> for Scarce<S> {
    ghost given = { λ _. None };

    fn take(&mut self, rt: &R) -> Next<J> {
        self.turn();
        self.source.take(rt)
    }
}
