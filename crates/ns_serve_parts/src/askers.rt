//! The gateways by which devices asked to join.

ghost use Rattle.std.specs.Prelude.{◌≡◌, [], IfOk, OnOk, OnErr, nat_eq};
ghost use Rattle.std.specs.Map.{lookup};
ghost use Rattle.lru.specs.LruCache.{lru_cache, put_entries};

use lru::LruCache;
use ns_types::DevEui;
use std::alloc::{AllocError, Global};
use std::collections::hash_map::RandomState;
use std::num::NonZeroUsize;

// Of how many devices the gateways are kept: a roster's devices are fewer.
const MOST: usize = 65_536;

/// By which gateway each device asked to join, as it was heard first. When it is full, the device that asked longest ago goes.
#[derive(Drop)]
pub struct Askers {
    gateways: LruCache<u64, u64, RandomState>,
}

impl Askers {
    /// No device has asked.
    pub fn new(alloc: Global, keys: RandomState) -> Result<Askers, AllocError>
        ensures { IfOk result (λ a. a.gateways.entries ≡ []) }
    {
        let mut gateways = LruCache::unbounded_with_hasher(alloc, keys)?;
        gateways.resize(NonZeroUsize::new(MOST).unwrap());
        Ok(Askers { gateways })
    }

    /// A device asked by this gateway. Where a growth is refused, nothing has changed.
    pub fn note(&mut self, eui: DevEui, gateway: u64) -> Result<(), AllocError>
        ensures ok { OnOk result (self.new.gateways.entries ≡ put_entries nat_eq (lru_cache self.old.gateways.entries self.old.gateways.cap) eui.0 gateway) }
        ensures refused { OnErr result (self.new ≡ self.old) }
    {
        match self.gateways.put(eui.0, gateway) {
            Ok(_) => Ok(()),
            Err(_) => Err(AllocError),
        }
    }

    /// By which gateway a device asked last, where it is kept.
    pub fn gateway(&self, eui: DevEui) -> Option<u64>
        ensures { result ≡ lookup (nat_eq eui.0) self.now.gateways.entries }
    {
        self.gateways.peek(&eui.0).copied()
    }
}
