//! The table of the gateways' addresses.

use crate::keys::zero_keys;
use crate::loopback::local;
use ns_front::Peers;
use std::alloc::Global;
use std::num::NonZeroUsize;

// A table that keeps two gateways.
fn none(alloc: Global) -> Option<Peers> {
    Peers::of(alloc, zero_keys()?, NonZeroUsize::new(2)?).ok()
}

// Three gateways, of which the first is heard again behind the address that the third has.
const HEARD: &[(u64, u16)] = &[(1, 5000), (2, 5000), (1, 5001), (3, 5001)];

// Gateways are heard from there. Whether each was.
fn are_heard(peers: &mut Peers) -> bool {
    let mut are_heard = true;
    for &(gateway, port) in HEARD {
        are_heard = peers.hear(gateway, local(port)).is_ok() && are_heard;
    }
    are_heard
}

// Whether the first and the third are kept then.
fn are_kept(alloc: Global) -> bool {
    let Some(mut peers) = none(alloc) else {
        return false;
    };
    let there = Some(local(5001));
    are_heard(&mut peers)
        && peers.addr(1) == there
        && peers.addr(2).is_none()
        && peers.addr(3) == there
}

/// Where a gateway is heard last is kept, also behind an address that another has; the one not heard for longest goes.
#[test]
fn addresses_are_kept(rt: HostRuntime) {
    assert!(rt; are_kept(rt.alloc()));
}
