//! The devices of one shard, found by DevEUI and by address.
//!
//! `Devices` has the state of each device in the roster's order, in a map by DevEUI, and beside it the places of the devices of each
//! address: a frame is tried with the devices of its own address alone, in that order, and with none where no device has it. Contracts
//! see the list of devices; each call is proved to be its definition on that list (`specs/Devices`). Only `Devices::new` takes memory.
//! Stands on `ns_sessions` for the state of a device, on `ns_rows` for the places of an address, and on `ns_roster` for the roster.
#![tactic(auto)]

mod devices;
mod own;

pub use devices::Devices;
pub use own::{Own, Placed};
