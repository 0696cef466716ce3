//! What an exchange with a join server is about, below its messages (ns_joinwire) and the exchange itself (ns_joinclient): the name of the
//! join server's host, and why an exchange gave no answer, H1 to H7, or its answer was not taken, A1 to A6.
//!
//! A name is 1 to 255 visible bytes of ASCII, by its type; of a ResultCode are kept the first 32 bytes, cut at a character.
//! The crate stands on `ns_types`, and on `thiserror` of the kit.
#![tactic(auto)]

mod answer;
mod fault;
mod host;

pub use answer::{AnsFault, ResultCode};
pub use fault::AskFault;
pub use host::HostName;
