//! The lines that tell answers.
//!
//! `specs/Text.antt` has the text of an answer: the line of its reply, for all nineteen replies, and the `up` and `down` lines that go
//! out with it. `lines` is exactly that text, and the functions that put one line, or a part of one, at the end of another are exactly
//! theirs: hex digits side by side, decimal numbers, names of windows. A line is of fixed size and takes no memory, and a law says
//! that none has a line feed.
//! The crate stands on `ns_calls`, whose answers it tells, on a lookup of `ns_aes_cmac` for hex digits, and on `arrayvec`, `hex` and
//! `itoa` of the kit.
#![tactic(auto)]

mod digits;
mod laws;
mod put;
mod text;

pub use laws::lines_have_no_line_feed;
pub use put::{Line, put_decimal, put_hex};
pub use text::{lines, put_downlink, put_lent_uplink, put_reply, put_uplink, put_window, up_line};
