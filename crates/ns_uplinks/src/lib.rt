//! The uplink of a closed window, where it lies until it goes out.
//!
//! It lies in the memory of its window, or in no more than it needs. The crate promises that an uplink goes out with the first window of
//! its rounds alone, that it is what was received, deciphered where its key is known, with the window's copies and no others, and that
//! what is lent is that uplink. It stands on `ns_windows`, and on the definitions of `ns_calls`.
#![tactic(auto)]

mod boxed;
mod packed;

pub use boxed::BoxedUplink;
pub use packed::PackedUplink;
