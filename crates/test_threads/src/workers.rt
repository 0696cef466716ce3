//! Workers over memory: with jobs, a clock and ways out that record, with streams and sources that fail, and with memory that is really
//! gone. A test is a table of runs and the text that tells all that came of them.

mod alone;
mod around;
mod beside;
mod frames;
mod runs;
mod served;
mod tests;
mod told;

pub use served::{Runs, run_on, tell_replies};
