//! Where the first fault of a roster's text is: which field, and of which device.
//!
//! `ns_roster` refuses a text with a number alone. `first_fault` reads such a text again and gives the same fault with the field that it
//! is about, the place of its device in the list, and the text of that device's DevEUI. Which field that is, is a function of the
//! definitions by which `ns_roster` finds the fault, and by a law a field that is named is missing or wrong. A placed fault is printed
//! in words. The crate stands on `ns_roster`, and on `serde_json`, `hex` and `thiserror` of the kit.
#![tactic(auto)]

mod device;
mod find;
pub mod laws;
mod outer;
mod place;

pub use find::first_fault;
pub use place::{DeviceField, OuterField, Place, PlacedFault};
