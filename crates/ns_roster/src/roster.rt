//! A roster and its readers.

ghost use Rattle.std.specs.Prelude.{◌≡◌, Contains, IfOk, IfSome, option_map};
ghost use Rattle.serde_json.specs.View.{view};
ghost use Rattle.ns_types.specs.Results.{Gives};
ghost use Rattle.ns_types.specs.Identity.{shard_of, shard_of_addr};
ghost use Rattle.ns_roster.specs.declared.fault.RosterFault.TheVariants.{NoMemory};
ghost use Rattle.ns_roster.specs.Network.{device, device_addr, has_join_eui, is_known};
ghost use Rattle.ns_roster.specs.Text.{roster_of, network_in};
ghost use Rattle.ns_roster.specs.Valid.{AreInShards, IsRoster};

use crate::Device;
use crate::fault::RosterFault;
use crate::field::value_of;
use crate::reading::{outer_of, read_devices};
use ns_types::{DevAddr, DevEui, JoinEui, NetId, addr_of};
use serde_json::Value;
use std::alloc::Global;
use std::collections::HashMap;
use std::marker::Model;

// The greatest NetID of type 0: its bits 23 to 21 are 0 (LoRaWAN Backend Interfaces TS002, types of NetIDs).
const MAX_NET_ID: u32 = 0x1F_FFFF;

const MAX_DEVICES: usize = 65_536;

/// The network, its first receive window, and its devices in the order of the text.
#[derive(Drop)]
pub struct Roster {
    net_id: NetId,
    rx1_offset: u8,
    rx_delay: u8,
    devices: Vec<Device>,
    // Each device at its DevEUI.
    by_eui: HashMap<u64, Device>,
}

impl Model for Roster {
    ghost use Rattle.ns_roster.specs.Network.{Network};
    ghost use Rattle.ns_roster.specs.Valid.{IsRoster};
    ghost use Rattle.ns_roster.specs.Held.{Indexes};

    ghost Value = { Network };

    ghost view = { λ r. record { net_id = r.net_id; rx1_offset = r.rx1_offset; rx_delay = r.rx_delay; devices = r.devices.items } };

    ghost invariant = { λ r. Indexes r.by_eui r.devices.items × IsRoster (record { net_id = r.net_id; rx1_offset = r.rx1_offset; rx_delay = r.rx_delay; devices = r.devices.items }) };
}

// The roster that a value spells, or its first fault.
fn read_network(alloc: Global, root: &Value) -> Result<Roster, RosterFault>
    ensures gives { Gives NoMemory (λ r. r) result (network_in (view root.now)) }
    ensures valid { IfOk result IsRoster }
{
    let outer = outer_of(root)?;
    if outer.net_id.0 > MAX_NET_ID {
        return Err(RosterFault::NetId);
    }
    if outer.devices.len() > MAX_DEVICES {
        return Err(RosterFault::TooMany);
    }
    let (devices, by_eui) = read_devices(alloc, outer.version, outer.devices)?;
    Ok(Roster {
        net_id: outer.net_id,
        rx1_offset: outer.rx1_offset,
        rx_delay: outer.rx_delay,
        devices,
        by_eui,
    })
}

impl Roster {
    /// The roster that the bytes spell, or their first fault: O1; O2 of the outer fields; O4; O6; then of each device
    /// in turn O2, O5, O3. NoMemory where memory ran out before that was known.
    #[tactic(auto, unfolding(crate::specs::Text::roster_of))]
    pub fn read(alloc: Global, bytes: &[u8]) -> Result<Roster, RosterFault>
        ensures gives { Gives NoMemory (λ r. r) result (roster_of bytes.now) }
        ensures valid { IfOk result IsRoster }
    {
        let root = value_of(alloc, bytes)?.ok_or(RosterFault::NotJson)?;
        read_network(alloc, &root)
    }

    /// The network's NetID, of type 0.
    pub fn net_id(&self) -> NetId
        ensures is { result ≡ self.now.net_id }
        ensures valid { IsRoster self.now }
    {
        self.net_id
    }

    /// RX1DROffset: how many data rates lower the first receive window is, 0 to 5.
    pub fn rx1_offset(&self) -> u8
        ensures is { result ≡ self.now.rx1_offset }
        ensures valid { IsRoster self.now }
    {
        self.rx1_offset
    }

    /// RxDelay: after how many seconds the first receive window opens, 0 to 15, where 0 means 1.
    pub fn rx_delay(&self) -> u8
        ensures is { result ≡ self.now.rx_delay }
        ensures valid { IsRoster self.now }
    {
        self.rx_delay
    }

    /// The devices in the order of the text.
    pub fn devices(&self) -> &[Device]
        ensures are { result.now ≡ self.now.devices }
        ensures valid { IsRoster self.now }
        ensures shards { AreInShards self.now }
    {
        self.devices.as_slice()
    }

    /// The device of this DevEUI.
    pub fn find(&self, eui: DevEui) -> Option<&Device>
        ensures is { option_map (λ d. d.now) result ≡ device self.now eui }
        ensures eui { IfSome result (λ d. d.now.eui ≡ eui) }
        ensures held { IfSome result (λ d. Contains self.now.devices d.now) }
        ensures valid { IsRoster self.now }
    {
        self.by_eui.get(&eui.0)
    }

    /// Whether there is a device of this DevEUI with this JoinEUI.
    pub fn knows(&self, eui: DevEui, join_eui: JoinEui) -> bool
        ensures is { result ≡ is_known self.now eui join_eui }
        ensures by_device { result ≡ has_join_eui join_eui (device self.now eui) }
    {
        match self.find(eui) {
            Some(device) => device.join_eui.0 == join_eui.0,
            None => false,
        }
    }

    /// The address of one of the devices, which is in the device's shard.
    pub fn device_addr(&self, device: &Device) -> DevAddr
        requires { Contains self.now.devices device.now }
        ensures is { result ≡ device_addr self.now device.now }
        ensures shard { shard_of_addr result ≡ shard_of device.now.eui }
    {
        addr_of(self.net_id, device.eui, device.slot)
    }
}
