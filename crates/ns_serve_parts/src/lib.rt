//! What a server over sockets is made of: each part by itself, without what the threads share.
//!
//! The table of devices that ask; the tickets that wait; counters, those of datagrams and calls so that threads do not write to the same
//! cache lines; how long things took; the lines of events; moments of the wall clock; what is to be served and why serving ended. What is computed has a contract
//! over its definition in `specs/`. What is counted no contract says.
//! The crate stands on `ns_outside` for what the workers ask of what stands round them, on `ns_calls`, `ns_output`, `ns_exchange`,
//! `ns_link`, `ns_types` and `ns_views`, and on `crossbeam_utils`, `jiff_core`, `lru` and `thiserror` of the kit.
#![tactic(auto)]

mod askers;
mod asks;
mod counts;
mod event_lines;
mod made;
mod options;
mod reads;
mod seed;
mod seldom;
mod times;
mod wall;

pub use askers::Askers;
pub use asks::Asks;
pub use counts::{Counts, more, value};
pub use event_lines::EventLines;
pub use made::{Made, PLACES};
pub use options::{ServeFault, ServeOptions};
pub use reads::Reads;
pub use seed::keys;
pub use seldom::Seldom;
pub use times::Times;
pub use wall::utc_of;
