//! The join messages of TS002 (LoRaWAN Backend Interfaces 1.0), in this server's profile of it: JoinReq out, JoinAns in.
//!
//! `join_req` gives the text that asks a join server about a Join-Request. A join server that reads it finds a JoinReq with the
//! Join-Request's bytes and its transaction. `join_ans` gives what a join server's text answers to a transaction, or the text's
//! first fault, in a fixed order of tests and in time linear in the text's length.
//! The crate stands on `ns_types`, `ns_roster` and `ns_calls`, on `ns_exchange` for the faults of an answer, and on `serde_json` and `hex` of
//! the kit.
#![tactic(auto)]

mod answer;
mod envelope;
mod laws;
mod request;

pub use crate::answer::join_ans;
pub use crate::laws::answered_exactly;
pub use crate::request::join_req;
