//! Step lines: recorded steps as text, one on each line.
//!
//! `step` reads one line. A step line is defined in `specs/StepLines.antt`, and what `step` gives is that definition. `steps_are_spelled` and
//! `lines_are_spelled` say what step lines are, and where lines end, without an order of tests. The crate stands on `ns_acts`, which has the
//! steps, on `ns_types`, on `ns_aes_cmac` for what is known of vectors, and on `hex` and `memchr` of the kit.
#![tactic(auto)]

mod hex_digits;
mod hex_text;
mod laws;
mod step_lines;

pub use laws::{lines_are_spelled, steps_are_spelled};
pub use step_lines::{place_of, step};
