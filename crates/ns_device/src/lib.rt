//! A device and a join server for tests (LoRaWAN L2 1.0.4, 4 and 6.2; TS002).
//!
//! `TestDevice` asks to join, takes a Join-Accept, and sends uplinks. Each frame is the creators' of `ns_creator`. `accept`
//! answers E1, E2 and E3 in this order and exactly where they hold, and leaves the device as it was;
//! `created_accepts_are_taken` says that a device takes each Join-Accept that `JoinAcceptCreator` makes under its AppKey, and
//! then has exactly the session keys of the fields. `write_uplink` is `uplink` without the loan, and says what it leaves in
//! the buffer. Nothing of it takes memory. `traffic` has the calls of many such devices, without a join server,
//! `calls` those of any one, and `worked` the texts of a run of one, with its roster. `logged` keeps log lines in memory,
//! `growths` has growths of memory refused alone, and `parties` has gateways, a device and a join server over loopback, next to a server in a
//! test.
//!
//! `TestJoinServer` answers a JoinReq's text with the text of a JoinAns: a Join-Accept of the request's fields and the session
//! keys, `MICFailed`, or `Other`. `join_ans` of `ns_joinwire` reads that text as this answer, and the device with this AppKey
//! takes the Join-Accept and has then the same session keys. `reply` refuses B1 exactly where the text is no JoinReq, and a
//! refusal leaves the server as it was.
//!
//! Stands on `ns_log` for log lines, on `ns_types` for identities and keys, on `ns_aes_cmac` for the law of AES-128, on `ns_secure` for MICs, ciphers
//! and session keys, on `ns_creator` for the frames, on `ns_calls` and `ns_views` for calls of these, on `ns_roster` and
//! `ns_joinwire` for the fields of JSON, and on `serde_json`, `hex`, `base64` and `thiserror` of the kit.
#![tactic(auto)]

mod answer;
pub mod calls;
mod device;
mod fault;
pub mod growths;
mod join_fault;
mod join_server;
mod laws;
pub mod logged;
pub mod parties;
mod request;
mod session;
pub mod traffic;
pub mod worked;

pub use device::TestDevice;
pub use fault::DeviceFault;
pub use join_fault::ReplyFault;
pub use join_server::TestJoinServer;
pub use laws::created_accepts_are_taken;
pub use session::Session;
