//! The addresses from which gateways were last heard.
ghost use Rattle.std.specs.Prelude.{◌≡◌, ◌≢◌, ◌⊎◌, ℕ, [], None, Some, IfOk, OnOk, OnErr};
ghost use Rattle.std.specs.NonZero.{non_zero_usize_get};
ghost use Rattle.ns_front.specs.Peers.{known_peers, most_peers, addr_of, after_hearing, Goes};

use lru::LruCache;
use std::alloc::{AllocError, Global};
use std::collections::hash_map::RandomState;
use std::net::SocketAddr;
use std::num::NonZeroUsize;

// Of how many gateways the addresses are kept.
const MOST: usize = 65_536;

/// The addresses of at most so many gateways, by their numbers, which are not authenticated. When it is full, the gateway not heard for
/// longest goes.
#[derive(Drop)]
pub struct Peers {
    heard: LruCache<u64, SocketAddr, RandomState>,
}

impl Peers {
    /// Room for the addresses of 65,536 gateways.
    pub fn new(alloc: Global, keys: RandomState) -> Result<Peers, AllocError>
        ensures most { IfOk result (λ p. most_peers p ≡ 65536) }
        ensures none { IfOk result (λ p. known_peers p ≡ []) }
    {
        Peers::of(alloc, keys, NonZeroUsize::new(MOST).unwrap())
    }

    /// Room for the addresses of so many gateways.
    pub fn of(alloc: Global, keys: RandomState, most: NonZeroUsize) -> Result<Peers, AllocError>
        ensures most { IfOk result (λ p. most_peers p ≡ non_zero_usize_get most) }
        ensures none { IfOk result (λ p. known_peers p ≡ []) }
    {
        let mut heard = LruCache::unbounded_with_hasher(alloc, keys)?;
        heard.resize(most);
        Ok(Peers { heard })
    }

    /// Where a gateway was last heard.
    pub fn addr(&self, gateway: u64) -> Option<SocketAddr>
        ensures { result ≡ addr_of self.now gateway }
    {
        self.heard.peek(&gateway).copied()
    }

    /// A gateway was heard from here, and comes first. Where it is a further one and there is no room, the last goes, which was not heard
    /// for longest, and no other does. Where a growth is refused, nothing has changed, and the gateway is not known.
    pub fn hear(&mut self, gateway: u64, addr: SocketAddr) -> Result<(), AllocError>
        ensures order { OnOk result (known_peers self.new ≡ after_hearing self.old gateway addr) }
        ensures here { OnOk result (addr_of self.new gateway ≡ Some addr) }
        ensures same { OnOk result (addr_of self.old gateway ≡ Some addr → (other : ℕ) → addr_of self.new other ≡ addr_of self.old other) }
        ensures kept { OnOk result ((other : ℕ) → other ≢ gateway → Goes self.old gateway other ⊎ (addr_of self.new other ≡ addr_of self.old other)) }
        ensures goes { OnOk result ((gone : ℕ) → Goes self.old gateway gone → addr_of self.new gone ≡ None) }
        ensures most { most_peers self.new ≡ most_peers self.old }
        ensures refused { OnErr result (self.new ≡ self.old) }
        ensures unknown { OnErr result (addr_of self.old gateway ≡ None) }
    {
        // (no gateway stands there twice, as the contract of `len` says)
        let _ = self.heard.len();
        match self.heard.put(gateway, addr) {
            Ok(_) => Ok(()),
            Err(_) => Err(AllocError),
        }
    }
}
