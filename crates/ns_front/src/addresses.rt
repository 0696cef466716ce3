//! The table of the gateways' addresses with how often it has changed, by which workers see that what they noted is still right.

ghost use Rattle.std.specs.Prelude.{◌≡◌, ◌-◌, ◌^◌, ◌<◌, Some, None, IfSome, OnOk, OnErr};
ghost use Rattle.std.specs.Option.{option_map};
ghost use Rattle.ns_front.specs.declared.noted.NotedPeers.{NotedPeers as NotedSoFar};
ghost use Rattle.ns_front.specs.Peers.{known_peers, addr_of, after_hearing};
ghost use Rattle.ns_front.specs.Noted.{IsNoted, IsRight, NotesOnly};

use crate::noted::NotedPeers;
use crate::peers::Peers;
use ns_types::{GatewayId, Target};
use std::alloc::AllocError;
use std::net::SocketAddr;

/// Where a gateway was last heard, with its whole number. Only the look-up of that number makes one.
#[derive(Clone, Copy)]
pub struct PeerAddr {
    gateway: GatewayId,
    addr: SocketAddr,
}

impl PeerAddr {
    /// The address.
    pub fn addr(&self) -> SocketAddr
        ensures { result ≡ self.now.addr }
    {
        self.addr
    }
}

/// Where gateways were heard last, and how often an address changed or came.
#[derive(Drop)]
pub struct Addresses {
    peers: Peers,
    changes: u64,
}

impl Addresses {
    /// These, of which none has changed.
    pub fn new(peers: Peers) -> Addresses
        ensures { (result.peers ≡ peers) × (result.changes ≡ 0) }
    {
        Addresses { peers, changes: 0 }
    }

    /// How often one changed or came.
    pub fn changes(&self) -> u64
        ensures { result ≡ self.now.changes }
    {
        self.changes
    }

    /// Where the gateway of a downlink was last heard.
    pub fn addr_for(&self, target: &Target) -> Option<PeerAddr>
        ensures gateway { IfSome result (λ p. p.gateway ≡ target.now.gateway) }
        ensures addr { option_map (λ p. p.addr) result ≡ addr_of self.now.peers target.now.gateway.0 }
    {
        let gateway = target.gateway;
        let addr = self.peers.addr(gateway.0)?;
        Some(PeerAddr { gateway, addr })
    }

    // The same without what a worker noted.
    fn hear_counted(&mut self, gateway: u64, addr: SocketAddr) -> Result<(), AllocError>
        ensures here { OnOk result (addr_of self.new.peers gateway ≡ Some addr) }
        ensures order { OnOk result (known_peers self.new.peers ≡ after_hearing self.old.peers gateway addr) }
        ensures others { (other : NotedSoFar) → IsRight other self.old → IsRight other self.new }
        ensures refused { OnErr result (self.new ≡ self.old) }
        ensures unknown { OnErr result (addr_of self.old.peers gateway ≡ None) }
    {
        let is_same = self.peers.addr(gateway) == Some(addr);
        self.peers.hear(gateway, addr)?;
        if !is_same {
            self.changes = self.changes.saturating_add(1);
        }
        Ok(())
    }

    /// A gateway was heard from here by the worker that noted these. What workers noted stays right, of this one and of each other.
    /// Where a growth is refused, nothing has changed, and the gateway is not known.
    pub fn hear(
        &mut self,
        noted: &mut NotedPeers,
        gateway: u64,
        addr: SocketAddr,
    ) -> Result<(), AllocError>
        ensures here { OnOk result (addr_of self.new.peers gateway ≡ Some addr) }
        ensures order { OnOk result (known_peers self.new.peers ≡ after_hearing self.old.peers gateway addr) }
        ensures noted { OnOk result (self.new.changes < 2 ^ 64 - 1 → IsNoted noted.new gateway addr self.new.changes) }
        ensures only { NotesOnly noted.old noted.new gateway addr }
        ensures right { IsRight noted.old self.old → IsRight noted.new self.new }
        ensures others { (other : NotedSoFar) → IsRight other self.old → IsRight other self.new }
        ensures refused { OnErr result ((self.new ≡ self.old) × (noted.new ≡ noted.old)) }
        ensures unknown { OnErr result (addr_of self.old.peers gateway ≡ None) }
    {
        self.hear_counted(gateway, addr)?;
        if self.changes < u64::MAX {
            noted.put(gateway, addr, self.changes);
        }
        Ok(())
    }
}
