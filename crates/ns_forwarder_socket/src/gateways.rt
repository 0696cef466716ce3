//! What is known of gateways whose forwarders were heard.

ghost use Rattle.std.specs.Prelude.{◌≡◌, [], Some, nat_eq, IfOk, IfSome, OnOk, OnErr};
ghost use Rattle.std.specs.Option.{option_map};
ghost use Rattle.std.specs.NonZero.{non_zero_usize_get};
ghost use Rattle.ns_forwarder_socket.specs.Gateways.{known, most_known, gateway_at, with_gateway, after_reading, after_asking, after_taking};

use crate::taken::Taken;
use lru::LruCache;
use ns_forwarder::{Clock, Head};
use ns_types::GatewayId;
use std::alloc::{AllocError, Global};
use std::collections::hash_map::RandomState;
use std::net::SocketAddr;
use std::num::NonZeroUsize;

// Of how many gateways something is known.
const MOST: usize = 65_536;

/// Where downlinks for a gateway go: to where its last PULL_DATA came from, by the version of that.
#[derive(Clone, Copy, PartialEq, Eq)]
pub struct Route {
    pub addr: SocketAddr,
    pub version: u8,
}

/// Where downlinks for a gateway go, with its whole number. Only the look-up of that number makes one.
#[derive(Clone, Copy)]
pub struct RouteTo {
    gateway: GatewayId,
    pub(crate) route: Route,
}

/// What is known of a gateway.
#[derive(Clone, Copy)]
pub struct Gateway {
    /// Its counter of microseconds.
    pub clock: Clock,
    /// Where its downlinks go, where it has asked for any.
    pub route: Option<Route>,
}

/// What is known of at most so many gateways, by their numbers, which are not authenticated. When it is full, the gateway not heard for
/// longest goes.
#[derive(Drop)]
pub struct Gateways {
    known: LruCache<u64, Gateway, RandomState>,
}

impl Gateways {
    /// Room for 65,536 gateways.
    pub fn new(alloc: Global, keys: RandomState) -> Result<Gateways, AllocError>
        ensures most { IfOk result (λ g. most_known g ≡ 65536) }
        ensures none { IfOk result (λ g. known g ≡ []) }
    {
        Gateways::of(alloc, keys, NonZeroUsize::new(MOST).unwrap())
    }

    /// Room for so many gateways.
    pub fn of(alloc: Global, keys: RandomState, most: NonZeroUsize) -> Result<Gateways, AllocError>
        ensures most { IfOk result (λ g. most_known g ≡ non_zero_usize_get most) }
        ensures none { IfOk result (λ g. known g ≡ []) }
    {
        let mut known = LruCache::unbounded_with_hasher(alloc, keys)?;
        known.resize(most);
        Ok(Gateways { known })
    }

    /// What is known of a gateway: neither a reading of its counter nor an address where it is not kept.
    pub fn gateway(&self, gateway: GatewayId) -> Gateway
        ensures { result ≡ gateway_at self.now gateway.0 }
    {
        match self.known.peek(&gateway.0) {
            Some(gateway) => *gateway,
            None => Gateway {
                clock: Clock { latest: None },
                route: None,
            },
        }
    }

    /// Where downlinks for a gateway go, if it has asked for any.
    pub fn route_to(&self, gateway: GatewayId) -> Option<RouteTo>
        ensures gateway { IfSome result (λ r. r.gateway ≡ gateway) }
        ensures route { option_map (λ r. r.route) result ≡ (gateway_at self.now gateway.0).route }
    {
        let route = self.gateway(gateway).route?;
        Some(RouteTo { gateway, route })
    }

    // This is known of a gateway from now on.
    fn put(&mut self, number: u64, gateway: Gateway) -> Result<(), AllocError>
        ensures order { OnOk result (known self.new ≡ with_gateway self.old number gateway) }
        ensures here { OnOk result (gateway_at self.new number ≡ gateway) }
        ensures most { most_known self.new ≡ most_known self.old }
        ensures refused { OnErr result (self.new ≡ self.old) }
    {
        match self.known.put(number, gateway) {
            Ok(_) => Ok(()),
            Err(_) => Err(AllocError),
        }
    }

    /// A gateway's counter was read.
    pub fn read(&mut self, gateway: GatewayId, clock: Clock) -> Result<(), AllocError>
        ensures order { OnOk result (known self.new ≡ after_reading self.old gateway.0 clock) }
        ensures clock { OnOk result ((gateway_at self.new gateway.0).clock ≡ clock) }
        ensures route { OnOk result ((gateway_at self.new gateway.0).route ≡ (gateway_at self.old gateway.0).route) }
        ensures most { most_known self.new ≡ most_known self.old }
        ensures refused { OnErr result (self.new ≡ self.old) }
    {
        let route = self.gateway(gateway).route;
        self.put(gateway.0, Gateway { clock, route })
    }

    /// A gateway asked for downlinks.
    pub fn ask(&mut self, gateway: GatewayId, route: Route) -> Result<(), AllocError>
        ensures order { OnOk result (known self.new ≡ after_asking self.old gateway.0 route) }
        ensures route { OnOk result ((gateway_at self.new gateway.0).route ≡ Some route) }
        ensures clock { OnOk result ((gateway_at self.new gateway.0).clock ≡ (gateway_at self.old gateway.0).clock) }
        ensures most { most_known self.new ≡ most_known self.old }
        ensures refused { OnErr result (self.new ≡ self.old) }
    {
        let clock = self.gateway(gateway).clock;
        let route = Some(route);
        self.put(gateway.0, Gateway { clock, route })
    }

    /// Keeps what a message from here tells of its gateway. Where a growth is refused, nothing has changed.
    pub fn note(&mut self, head: &Head, taken: &Taken, peer: SocketAddr) -> Result<(), AllocError>
        ensures order { OnOk result (known self.new ≡ after_taking self.old head.now taken.now peer) }
        ensures most { most_known self.new ≡ most_known self.old }
        ensures refused { OnErr result (self.new ≡ self.old) }
    {
        match taken {
            Taken::Handed(_, clock) => self.read(head.gateway, *clock),
            Taken::Asked => {
                let route = Route {
                    addr: peer,
                    version: head.version,
                };
                self.ask(head.gateway, route)
            }
            Taken::Told(_) => Ok(()),
        }
    }
}
