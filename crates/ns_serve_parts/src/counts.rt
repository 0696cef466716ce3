//! How often each thing happened.
ghost use Rattle.std.specs.Prelude.{◌≡◌, ◌+◌};
ghost use Rattle.ns_serve_parts.specs.Counts.{refusal_place};

use crate::made::Made;
use crate::seldom::is_minute_later;
use crate::times::Times;
use ns_link::LinkFault;
use ns_outside::Refused;
use std::sync::atomic::{AtomicU64, Ordering};

// How many kinds of refusals there are.
const KINDS: usize = 12;

// The refusals of datagrams and frames that a gateway worker meets, in the order of their places.
const REFUSALS: [&str; KINDS] = [
    "G1", "G2", "G3", "G4", "G5", "G6", "V1", "V2", "V3", "V4", "V5", "V6",
];

/// How often each thing happened.
#[derive(Drop)]
pub struct Counts {
    // When they were logged last, in milliseconds of the server's clock.
    logged_ms: AtomicU64,
    refusals: [AtomicU64; KINDS],
    /// Datagrams that the system dropped, by what it said last.
    pub lost: AtomicU64,
    /// Datagrams whose calls were refused memory.
    pub dropped: AtomicU64,
    /// Datagrams that were late copies.
    pub late: AtomicU64,
    /// Receives that failed.
    pub unreceived: AtomicU64,
    /// Tickets without an answer of the join server that can be used.
    pub unanswered: AtomicU64,
    /// Downlinks that were not sent.
    pub unsent: AtomicU64,
    /// Tickets that were too old to be asked about.
    pub stale: AtomicU64,
    /// Lines that standard output did not take: `up` lines the record alone has, and lines of events, which are in no record.
    pub unwritten: AtomicU64,
    /// How long exchanges with the join server took, from connecting on.
    pub exchanges: Times,
    /// How long after its time the first window was closed of those closed together, with its downlink sent.
    pub closings: Times,
}

/// How often it was counted.
pub fn value(counter: &AtomicU64) -> u64 {
    counter.load(Ordering::SeqCst)
}

/// One more.
pub fn more(counter: &AtomicU64) {
    counter.fetch_add(1, Ordering::SeqCst);
}

// The place of a refusal's counter: the layouts' refusals come first. None has a full buffer, which no datagram that comes meets.
fn place_of_refusal(why: Refused) -> usize
    ensures { result ≡ refusal_place why }
{
    match why {
        Refused::Link(LinkFault::Buffer) => 12,
        Refused::Link(fault) => usize::from(fault.number()) - 1,
        Refused::View(fault) => usize::from(fault.number()) + 5,
    }
}

impl Counts {
    /// Nothing has happened.
    pub fn new() -> Counts {
        Counts {
            logged_ms: AtomicU64::new(0),
            refusals: Default::default(),
            lost: AtomicU64::new(0),
            dropped: AtomicU64::new(0),
            late: AtomicU64::new(0),
            unreceived: AtomicU64::new(0),
            unanswered: AtomicU64::new(0),
            unsent: AtomicU64::new(0),
            stale: AtomicU64::new(0),
            unwritten: AtomicU64::new(0),
            exchanges: Times::new(),
            closings: Times::new(),
        }
    }

    /// How often each refusal was made, with its name.
    pub fn refusals(&self) -> [(&'static str, u64); KINDS] {
        let mut all = [("", 0); KINDS];
        for place in 0..KINDS {
            all[place] = (REFUSALS[place], value(&self.refusals[place]));
        }
        all
    }

    /// Counts a refusal.
    pub fn refused(&self, why: Refused) {
        if let Some(counter) = self.refusals.get(place_of_refusal(why)) {
            more(counter);
        }
    }

    /// Whether the counts are to be logged: once a minute, by whoever asks first.
    pub fn is_due(&self, now_ms: u64) -> bool {
        let last_ms = value(&self.logged_ms);
        if !is_minute_later(last_ms, now_ms) {
            return false;
        }
        let was = self
            .logged_ms
            .compare_exchange(last_ms, now_ms, Ordering::SeqCst, Ordering::SeqCst);
        was.is_ok()
    }
}
