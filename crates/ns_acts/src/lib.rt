//! What happens at a server, and the call that it makes.
//!
//! An act is a datagram of a gateway, the answer of a join server or its want, or the closing of a window; a step is an act with the number
//! of its worker. Promised: the call of an act is the one of its definition (`call_of`), and only want of memory leaves it open. The crate
//! stands on `ns_link` and `ns_views` for what a datagram holds, on `ns_joinwire` and `ns_exchange` for the answers of join servers, on the
//! calls of `ns_calls`, and on `ns_types`.
#![tactic(auto)]

mod calls;
mod step;

pub use calls::{answer_call, call_into, call_of};
pub use step::{Act, DatagramBytes, LentAct, OwnedBytes, Step};
