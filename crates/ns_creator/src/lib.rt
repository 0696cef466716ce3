//! Frames of LoRaWAN L2 1.0.4 Class A, built into a buffer: data frames up and down, Join-Requests and Join-Accepts.
//!
//! `build_into` succeeds exactly where no test refuses, and else answers the first that does (C2, C3, C4, C1). What it
//! lends is the whole frame of the standard with the given fields and reserved bits 0, enciphered and with its MIC; data
//! frames and Join-Requests are in the grammar of `ns_views`, and `frames_read_back` says that `view` reads them to the
//! same fields. `write_into` is the same call without the loan: its contract also says what it leaves in the buffer,
//! which is as it was after a refusal and behind the frame. Nothing here takes memory.
//!
//! Stands on `ns_types` for keys and addresses, on `ns_views` for the grammar, and on `ns_secure` for MICs and ciphers.
#![tactic(auto)]

mod data;
mod fault;
mod join;
mod keys;
mod laws;

pub use data::DataCreator;
pub use fault::CreateFault;
pub use join::{JoinAcceptCreator, JoinRequestCreator};
pub use keys::Keys;
pub use laws::{acknowledgement_law, frames_read_back};
