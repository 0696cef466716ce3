//! The plain server's reply to a Join-Request.
//!
//! `reply_to_join` searches the whole list of entries for each reply, as the definitions of `ns_calls` do (`Reply`, `History`), and
//! its contract is theirs, over any roster and any entries. The server does not use it: tests hold the server's replies against it.
//! The crate stands on `ns_roster` and `ns_calls`.
#![tactic(auto)]

mod plain;

pub use plain::reply_to_join;
