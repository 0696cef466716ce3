//! How long a gateway's downlinks were on air.

ghost use Rattle.std.specs.Prelude.{◌≡◌, ◌<◌, ◌≤◌, ◌^◌, replicate};
ghost use Rattle.ns_status.specs.Airtime.{quarter_us, symbols_of, airtime_us, slot_of, no_slot, added_at, spent_at, recent};

// How many slots make an hour, and how long each is.
const SLOTS: usize = 12;

const SLOT_MS: u64 = 300_000;

/// How long downlinks were on air in one slot of five minutes.
#[derive(Clone, Copy)]
pub struct Slot {
    /// Which slot of the server's clock it is.
    pub number: u32,
    /// In microseconds.
    pub us: u32,
}

/// The airtime of the downlinks of the last hour: that of the slot of five minutes at hand and of the eleven before it.
#[derive(Clone, Copy)]
pub struct Airtime {
    pub slots: [Slot; SLOTS],
}

// The slot at a moment of the server's clock.
fn slot_of(now_ms: u64) -> u32
    ensures { result ≡ slot_of now_ms }
{
    u32::try_from(now_ms / SLOT_MS).unwrap_or(u32::MAX)
}

// What of a slot is counted at another.
fn recent(slot: Slot, now: u32) -> u64
    ensures is { result ≡ recent now slot }
    ensures small { result < 2 ^ 32 }
{
    if u64::from(now) < u64::from(slot.number) + SLOTS as u64 {
        u64::from(slot.us)
    } else {
        0
    }
}

impl Airtime {
    /// None.
    pub fn none() -> Airtime
        ensures { result.slots ≡ replicate 12 no_slot }
    {
        Airtime {
            slots: [Slot { number: 0, us: 0 }; SLOTS],
        }
    }

    /// Adds that of a downlink, in microseconds.
    pub fn add(&mut self, us: u32, now_ms: u64)
        ensures { self.new.slots ≡ added_at self.old.slots (slot_of now_ms) us }
    {
        let number = slot_of(now_ms);
        let slot = &mut self.slots[number as usize % SLOTS];
        let before = if slot.number == number { slot.us } else { 0 };
        *slot = Slot {
            number,
            us: before.saturating_add(us),
        };
    }

    /// That of the last hour, in microseconds.
    pub fn spent(&self, now_ms: u64) -> u64
        ensures { result ≡ spent_at self.now.slots (slot_of now_ms) }
    {
        let now = slot_of(now_ms);
        let mut spent: u64 = 0;
        for slot in &self.slots {
            spent = spent.saturating_add(recent(*slot, now));
        }
        spent
    }
}

// How many symbols of LoRa the payload of a frame of so many bytes has, at a data rate from 0 to 6.
fn symbols_of(dr: u8, len: u64) -> u64
    requires rate { dr ≤ 6 }
    requires short { len ≤ 255 }
    ensures is { result ≡ symbols_of dr len }
    ensures small { result ≤ 20000 }
{
    let factor = if dr == 6 { 7 } else { 12 - u64::from(dr) };
    let bits = (8 * len + 28).saturating_sub(4 * factor);
    let each = if dr < 2 { 4 * factor - 8 } else { 4 * factor };
    8 + bits.div_ceil(each) * 5
}

// A quarter of a symbol of LoRa at a data rate from 0 to 6, in microseconds.
fn quarter_us(dr: u8) -> u64
    ensures is { result ≡ quarter_us dr }
    ensures small { result ≤ 8192 }
{
    match dr {
        0 => 8192,
        1 => 4096,
        2 => 2048,
        3 => 1024,
        4 => 512,
        5 => 256,
        _ => 128,
    }
}

/// How long a downlink of so many bytes is on air at a data rate of EU868, in microseconds: LoRa with a preamble of 8 symbols, a header, no
/// CRC and coding rate 4/5, or for DR7 FSK of 50,000 bits in a second. A longer one than 255 bytes counts as 255, another rate as DR7.
pub fn airtime_us(dr: u8, len: usize) -> u32
    ensures { result ≡ airtime_us dr len }
{
    let len = (len as u64).min(255);
    if dr > 6 {
        return ((11 + len) * 160) as u32;
    }
    (quarter_us(dr) * (4 * symbols_of(dr, len) + 49)) as u32
}
