//! How often each thing happened with forwarders.
ghost use Rattle.std.specs.Prelude.{◌≡◌, ◌<◌};
ghost use Rattle.ns_forwarder_socket.specs.Counts.{kind_place, outcome_place};

use ns_forwarder::{ForwarderFault, Kind, Outcome};
use std::fmt;
use std::fmt::{Display, Formatter};
use std::sync::atomic::{AtomicU64, Ordering};

// The messages, the faults and the outcomes of downlinks, in the order of their places.
const KINDS: [&str; 3] = ["push", "pull", "tx_ack"];

const FAULTS: [&str; 12] = [
    "no_memory",
    "F1",
    "F2",
    "F3",
    "F4",
    "F5",
    "F6",
    "F7",
    "F8",
    "F9",
    "F10",
    "F11",
];

const OUTCOMES: [&str; 9] = [
    "tx_ok",
    "TOO_LATE",
    "TOO_EARLY",
    "COLLISION_PACKET",
    "COLLISION_BEACON",
    "TX_FREQ",
    "TX_POWER",
    "GPS_UNLOCKED",
    "tx_other",
];

/// How often each thing happened with forwarders, printed as names and numbers with a space before each.
#[derive(Drop)]
pub struct ForwarderCounts {
    // Messages by their kinds.
    kinds: [AtomicU64; 3],
    /// Acknowledgements that were sent.
    pub acknowledged: AtomicU64,
    /// Datagrams of frames that were handed on.
    pub frames: AtomicU64,
    // Messages, bodies and items that were refused, by their numbers.
    faults: [AtomicU64; 12],
    // What came of downlinks.
    outcomes: [AtomicU64; 9],
}

// One more at a place, if there is such a place.
fn add(counters: &[AtomicU64], place: usize) {
    if let Some(counter) = counters.get(place) {
        counter.fetch_add(1, Ordering::SeqCst);
    }
}

// The place of a kind's counter.
fn place_of_kind(kind: Kind) -> usize
    ensures place { result ≡ kind_place kind }
    ensures bound { result < 3 }
{
    match kind {
        Kind::PushData => 0,
        Kind::PullData => 1,
        Kind::TxAck => 2,
    }
}

// The place of an outcome's counter.
fn place_of_outcome(outcome: Outcome) -> usize
    ensures place { result ≡ outcome_place outcome }
    ensures bound { result < 9 }
{
    match outcome {
        Outcome::Sent => 0,
        Outcome::TooLate => 1,
        Outcome::TooEarly => 2,
        Outcome::CollisionPacket => 3,
        Outcome::CollisionBeacon => 4,
        Outcome::TxFreq => 5,
        Outcome::TxPower => 6,
        Outcome::GpsUnlocked => 7,
        Outcome::Other => 8,
    }
}

/// The name of an outcome: the protocol's of an error, `tx_other` of an error without a name, and `tx_ok` where there was none.
pub fn outcome_name(outcome: Outcome) -> &'static str {
    OUTCOMES[place_of_outcome(outcome)]
}

impl ForwarderCounts {
    /// Nothing has happened.
    pub fn new() -> ForwarderCounts {
        ForwarderCounts {
            kinds: Default::default(),
            acknowledged: AtomicU64::new(0),
            frames: AtomicU64::new(0),
            faults: Default::default(),
            outcomes: Default::default(),
        }
    }

    /// A message of this kind came.
    pub fn heard(&self, kind: Kind) {
        add(&self.kinds, place_of_kind(kind));
    }

    /// A message, a body or an item was refused.
    pub fn refused(&self, fault: ForwarderFault) {
        add(&self.faults, usize::from(fault.number()));
    }

    /// A forwarder told what came of a downlink.
    pub fn told(&self, outcome: Outcome) {
        add(&self.outcomes, place_of_outcome(outcome));
    }
}

impl ForwarderCounts {
    /// How many messages of each kind came, with its name.
    pub fn messages(&self) -> [(&'static str, u64); 3] {
        let mut all = [("", 0); 3];
        for place in 0..3 {
            all[place] = (KINDS[place], self.kinds[place].load(Ordering::SeqCst));
        }
        all
    }

    /// How many messages, bodies and items were refused for each fault, with its number.
    pub fn refusals(&self) -> [(&'static str, u64); 12] {
        let mut all = [("", 0); 12];
        for place in 0..12 {
            all[place] = (FAULTS[place], self.faults[place].load(Ordering::SeqCst));
        }
        all
    }

    /// How often each thing came of a downlink, with its name.
    pub fn downlinks(&self) -> [(&'static str, u64); 9] {
        let mut all = [("", 0); 9];
        for place in 0..9 {
            all[place] = (OUTCOMES[place], self.outcomes[place].load(Ordering::SeqCst));
        }
        all
    }
}

impl Display for ForwarderCounts {
    fn fmt<W: fmt::Write>(&self, f: &mut Formatter<W>) -> fmt::Result {
        let (kinds, faults) = (self.kinds.as_slice(), self.faults.as_slice());
        put(f, &KINDS, kinds)?;
        let acknowledged = self.acknowledged.load(Ordering::SeqCst);
        let frames = self.frames.load(Ordering::SeqCst);
        write!(f, " acknowledged {acknowledged} frames {frames}")?;
        put(f, &FAULTS, faults)?;
        put(f, &OUTCOMES, self.outcomes.as_slice())
    }
}

// Counters with their names.
fn put<W: fmt::Write>(
    f: &mut Formatter<W>,
    names: &[&'static str],
    counters: &[AtomicU64],
) -> fmt::Result {
    for (name, counter) in names.iter().zip(counters.iter()) {
        write!(f, " {name} {}", counter.load(Ordering::SeqCst))?;
    }
    Ok(())
}
