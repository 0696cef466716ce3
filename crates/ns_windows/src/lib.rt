//! The open windows of one shard, in the order of their opening.
//!
//! A window is open from the first copy of an uplink until it is closed, and gathers the copies that other gateways heard. It holds
//! the keys of its session, since the session can end before the window closes. The crate promises that `Windows` is a list of
//! windows: what is found, counted, added and taken is what a list says. It stands on `ns_types`, `ns_views` and
//! `ns_calls`, and holds the windows in two maps: by name in the order of their opening, and by frame.
#![tactic(auto)]

mod counts;
mod frame_key;
mod iter;
mod places;
mod window;
mod windows;

pub use iter::OpenWindows;
pub use window::{Added, Addition, BoxedWindow, Window};
pub use windows::Windows;
