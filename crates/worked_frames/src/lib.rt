//! What the crates for frames, for joins and for the status answer to the questions of a text: `frames`, from AES to the device for tests,
//! and `joins`, rosters, messages to and from join servers, exchanges with these, responses in plain form, and the status. `put` adds to a
//! text, here and in worked_texts, which reads the texts and prints what comes of them.
//!
//! It promises nothing but to be safe and to end: the answers stand in the texts, and the gate compares them. It is no part of worked_texts,
//! so that it is proved while the server below that still is. It stands on the crates that it asks, on `ns_device` for the device, and on
//! `hex` of the kit.
#![tactic(auto)]

pub mod frames;
pub mod joins;
pub mod put;
