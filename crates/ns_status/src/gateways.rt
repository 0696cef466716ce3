//! What is known of the gateways that were heard.

ghost use Rattle.std.specs.Prelude.{◌≡◌, ◌==◌, [], IfOk, OnOk, OnErr, Some, length, map, unwrap_or};
ghost use Rattle.std.specs.NonZero.{non_zero_usize_get};
ghost use Rattle.ns_status.specs.Gateways.{known, most_known, unheard, gateway_at, changed, later, heard_ms, after_sign, with_id};

use crate::airtime::Airtime;
use lru::LruCache;
use ns_types::GatewayId;
use std::alloc::{AllocError, Global};
use std::collections::hash_map::RandomState;
use std::num::NonZeroUsize;

// Of how many gateways something is known.
const MOST: usize = 65_536;

/// What is known of a gateway. Times are in milliseconds of the server's clock.
#[derive(Clone, Copy)]
pub struct Gateway {
    /// How many frames it was heard with.
    pub frames: u64,
    /// When it was last heard with one.
    pub frame_ms: Option<u64>,
    /// When its forwarder last asked for downlinks (PULL_DATA).
    pub pull_ms: Option<u64>,
    /// When its forwarder last sent its status (`stat`).
    pub stat_ms: Option<u64>,
    /// How many downlinks were sent to it.
    pub sent: u64,
    /// How many of these its forwarder said that it does not send.
    pub refused: u64,
    /// For how long the downlinks of the last hour are on air.
    pub airtime: Airtime,
}

/// What a gateway is heard with, or what is sent to it.
#[derive(Clone, Copy, PartialEq, Eq)]
pub enum Sign {
    /// A frame.
    Frame,
    /// Its forwarder asked for downlinks.
    Pull,
    /// Its forwarder sent its status.
    Stat,
    /// A downlink was sent to it that is on air for so many microseconds.
    Sent(u32),
    /// Its forwarder refused a downlink.
    Refused,
}

impl Gateway {
    // A gateway of which nothing is known.
    fn unheard() -> Gateway
        ensures { result ≡ unheard }
    {
        Gateway {
            frames: 0,
            frame_ms: None,
            pull_ms: None,
            stat_ms: None,
            sent: 0,
            refused: 0,
            airtime: Airtime::none(),
        }
    }

    // What is known after a sign of it.
    fn after(mut self, sign: Sign, now_ms: u64) -> Gateway
        ensures { result ≡ changed self sign now_ms }
    {
        match sign {
            Sign::Frame => {
                self.frames = self.frames.saturating_add(1);
                self.frame_ms = Some(now_ms);
            }
            Sign::Pull => self.pull_ms = Some(now_ms),
            Sign::Stat => self.stat_ms = Some(now_ms),
            Sign::Sent(us) => {
                self.sent = self.sent.saturating_add(1);
                self.airtime.add(us, now_ms);
            }
            Sign::Refused => self.refused = self.refused.saturating_add(1),
        }
        self
    }

    /// When it was last heard, with a frame or by its forwarder.
    pub fn heard_ms(&self) -> Option<u64>
        ensures { result ≡ heard_ms self.now }
    {
        later(later(self.frame_ms, self.pull_ms), self.stat_ms)
    }
}

// The later of two times, as far as they are known.
fn later(a: Option<u64>, b: Option<u64>) -> Option<u64>
    ensures { result ≡ later a b }
{
    match (a, b) {
        (None, b) => b,
        (a, None) => a,
        (Some(a), Some(b)) => Some(a.max(b)),
    }
}

/// What is known of at most so many gateways, by their numbers, which are not authenticated. When it is full, the gateway not heard for
/// longest goes.
#[derive(Drop)]
pub struct Gateways {
    list: LruCache<u64, Gateway, RandomState>,
}

impl Gateways {
    /// Room for 65,536 gateways.
    pub fn new(alloc: Global, keys: RandomState) -> Result<Gateways, AllocError>
        ensures most { IfOk result (λ g. most_known g ≡ 65536) }
        ensures none { IfOk result (λ g. known g ≡ []) }
    {
        Gateways::of(alloc, keys, NonZeroUsize::new(MOST).unwrap())
    }

    /// Room for so many gateways.
    pub fn of(alloc: Global, keys: RandomState, most: NonZeroUsize) -> Result<Gateways, AllocError>
        ensures most { IfOk result (λ g. most_known g ≡ non_zero_usize_get most) }
        ensures none { IfOk result (λ g. known g ≡ []) }
    {
        let mut list = LruCache::unbounded_with_hasher(alloc, keys)?;
        list.resize(most);
        Ok(Gateways { list })
    }

    // What is known of a gateway.
    fn at(&self, gateway: GatewayId) -> Gateway
        ensures { result ≡ unwrap_or (gateway_at self.now gateway.0) unheard }
    {
        match self.list.peek(&gateway.0) {
            Some(gateway) => *gateway,
            None => Gateway::unheard(),
        }
    }

    /// Notes a sign of a gateway. Where a growth is refused, nothing has changed.
    pub fn note(&mut self, gateway: GatewayId, sign: Sign, now_ms: u64) -> Result<(), AllocError>
        ensures order { OnOk result (known self.new ≡ after_sign self.old gateway.0 sign now_ms) }
        ensures here { OnOk result (gateway_at self.new gateway.0 ≡ Some (changed (unwrap_or (gateway_at self.old gateway.0) unheard) sign now_ms)) }
        ensures most { most_known self.new ≡ most_known self.old }
        ensures refused { OnErr result (self.new ≡ self.old) }
    {
        let after = self.at(gateway).after(sign, now_ms);
        match self.list.put(gateway.0, after) {
            Ok(_) => Ok(()),
            Err(_) => Err(AllocError),
        }
    }

    /// How many are known.
    pub fn len(&self) -> usize
        ensures { result ≡ length (known self.now) }
    {
        self.list.len()
    }

    /// Whether none is.
    pub fn is_empty(&self) -> bool
        ensures { result ≡ (length (known self.now) == 0) }
    {
        self.list.is_empty()
    }

    /// What is known of each, the one heard last first.
    pub fn all(&self, alloc: Global) -> Result<Vec<(GatewayId, Gateway)>, AllocError>
        ensures { IfOk result (λ v. v.items ≡ map with_id (known self.now)) }
    {
        let mut all = Vec::with_capacity(alloc, self.list.len())?;
        for (number, gateway) in self.list.iter() {
            all.push((GatewayId(*number), *gateway))?;
        }
        Ok(all)
    }
}
