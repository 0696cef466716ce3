//! One device's nonces, sessions and open joins.
//!
//! `DeviceState` has the greatest DevNonce that was accepted, or the roster's last one, the live sessions with their keys and counters, and the open
//! tickets, each with the count of its copies and the best of them. It is of fixed size and takes no memory, and no call of it is refused.
//!
//! Each call is proved to be its definition on a `DeviceRecord` (`specs/Record`), and to agree with the history of the
//! device's shard (`specs/Laws`): it gives the plain server's answer for the device, and leaves what the history with the
//! new entry says of it. An entry of another device leaves it. In every run of joins the accepted nonces rise.
//!
//! Stands on `ns_types`, on `ns_views` and `ns_secure` for the MIC and the counters of an uplink, and on `ns_calls` for
//! the definitions of histories.
#![tactic(auto)]

mod decision;
mod device;
mod laws;
mod recovery;
mod session;
mod ticket;

pub use decision::{AnswerDecision, JoinDecision};
pub use device::{DeviceState, MOST_SESSIONS};
pub use laws::{
    answers_agree, closings_agree, joins_agree, joins_in_turn, others_stay, uplinks_agree,
};
pub use recovery::Recovery;
pub use session::Session;
pub use ticket::{Copies, OpenTicket};
