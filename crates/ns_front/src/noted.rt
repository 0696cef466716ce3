//! Of which gateways a worker knows that their addresses are in the table, so that it takes no lock for them.

ghost use Rattle.std.specs.Prelude.{◌≡◌, ◌≢◌, ◌↔◌, ℕ, IsTrue, Some};
ghost use Rattle.std.specs.declared.net.socket_addr.SocketAddr.{SocketAddr as Addr};
ghost use Rattle.ns_front.specs.declared.addresses.Addresses.{Addresses};
ghost use Rattle.ns_front.specs.Peers.{addr_of};
ghost use Rattle.ns_front.specs.Noted.{place_of, IsNoted, IsRight, NotesOnly};

use std::net::SocketAddr;

// How many places there are.
const PLACES: usize = 64;

// Where a gateway was heard, and how often addresses had changed by then.
#[derive(Clone, Copy)]
pub(crate) struct Noted {
    gateway: u64,
    addr: SocketAddr,
    changes: u64,
}

// Whether two addresses are the same. Those of IPv4 are compared octet by octet, since `==` would call the comparison of slices.
fn is_same(one: &SocketAddr, other: &SocketAddr) -> bool
    ensures { IsTrue result ↔ (one.now ≡ other.now) }
{
    match (one, other) {
        (SocketAddr::V4(one), SocketAddr::V4(other)) => {
            let [a, b, c, d] = one.ip().octets();
            let [e, f, g, h] = other.ip().octets();
            one.port() == other.port() && a == e && b == f && c == g && d == h
        }
        _ => one == other,
    }
}

/// The gateways that one worker heard last, at most one of those whose numbers modulo 64 are the same.
#[derive(Drop)]
pub struct NotedPeers {
    places: [Option<Noted>; PLACES],
}

impl NotedPeers {
    /// None was heard.
    pub fn new() -> NotedPeers
        ensures none { (gateway : ℕ) (addr : Addr) (changes : ℕ) → ¬ IsNoted result gateway addr changes }
    {
        NotedPeers {
            places: [None; PLACES],
        }
    }

    /// Whether this address of a gateway was noted, as of when addresses had changed so often: where they have not since, it is the one in
    /// the table.
    pub fn has(&self, gateway: u64, addr: SocketAddr, changes: u64) -> bool
        ensures noted { IsTrue result ↔ IsNoted self.now gateway addr changes }
        ensures right { IsTrue result → (addresses : Addresses) → addresses.changes ≡ changes → IsRight self.now addresses → addr_of addresses.peers gateway ≡ Some addr }
    {
        match &self.places[(gateway % PLACES as u64) as usize] {
            Some(noted) => {
                noted.changes == changes && noted.gateway == gateway && is_same(&noted.addr, &addr)
            }
            None => false,
        }
    }

    /// The address of a gateway is noted, and addresses have changed so often. Of other gateways just the one at the same place is
    /// forgotten.
    pub fn put(&mut self, gateway: u64, addr: SocketAddr, changes: u64)
        ensures here { IsNoted self.new gateway addr changes }
        ensures place { (g : ℕ) (a : Addr) (n : ℕ) → place_of g ≡ place_of gateway → IsNoted self.new g a n → (g ≡ gateway) × ((a ≡ addr) × (n ≡ changes)) }
        ensures only { NotesOnly self.old self.new gateway addr }
        ensures others { (g : ℕ) (a : Addr) (n : ℕ) → place_of g ≢ place_of gateway → IsNoted self.new g a n ↔ IsNoted self.old g a n }
    {
        self.places[(gateway % PLACES as u64) as usize] = Some(Noted {
            gateway,
            addr,
            changes,
        });
    }
}
