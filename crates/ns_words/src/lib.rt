//! The command line of the program: what its words ask for, and when they are refused.
//!
//! `read_words` gives the command with its values, each by the option of its name, or why there is nothing to do. Both stand in its
//! contract, over the program's rules as `clap` reads them; the texts of the help are shown by tests. The crate stands on `ns_output` for
//! how uplinks are written, on `ns_exchange` for a host's name, on `ns_serve_parts` for what is to be served, and on `clap` of the
//! kit.
#![tactic(auto)]

mod help;
mod options;

pub use options::{Asked, BadWords, OptionName, Recorded, read_words};
