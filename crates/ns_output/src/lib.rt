//! How an uplink is written, and the times that are written with it, by their types alone: `Output`, `Utc` and `Times`.
//!
//! No function stands here, so nothing is promised. The texts are those of `ns_lines` and `ns_events`. Stands on std alone.
#![tactic(auto)]

mod output;
mod times;

pub use output::Output;
pub use times::{Times, Utc};
