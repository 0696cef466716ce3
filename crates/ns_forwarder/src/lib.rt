//! The messages of packet forwarders (Semtech UDP protocol, versions 1 and 2; EU868), read and written.
//!
//! `read_message` reads a message's head and lends its body, and `Head::ack` is what acknowledges it. `hand_on` gives the gateways'
//! datagrams that the body of a PUSH_DATA becomes, each at the moment that a `Clock` gives to its gateway's 32-bit counter, and why each of
//! its other items is left out; `read_push` and `Push::datagrams` are its two halves. `pull_resp` writes the message that asks a forwarder to
//! send a frame, and `read_tx_ack` reads what came of it.
//!
//! Each call gives exactly what `specs/` defines, or the first fault by its number, or NoMemory. A datagram is read back to what its item
//! says, and a written downlink to its frame, data rate, frequency and the low 32 bits of its moment; a frequency in MHz is read to the Hz
//! however its decimal is spelled. Stands on ns_types, ns_link and ns_roster, and on serde_json, base64 and thiserror of the kit.
#![tactic(auto)]

mod clock;
mod downlink;
mod fault;
mod handed;
mod head;
mod item;
mod laws;
mod left_out;
mod outcome;
mod push;
mod uplink;

pub use crate::clock::{Clock, Reading};
pub use crate::downlink::pull_resp;
pub use crate::fault::ForwarderFault;
pub use crate::handed::{Handed, hand_on};
pub use crate::head::{Head, Kind, Message, read_message};
pub use crate::item::Item;
pub use crate::laws::{clocks_follow, hertz_exact, messages_exactly};
pub use crate::left_out::LeftOut;
pub use crate::outcome::{Outcome, read_tx_ack};
pub use crate::push::{Push, read_push};
