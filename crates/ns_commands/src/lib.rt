//! What the program does beside serving: `replay`, the roster of a file and the record of a folder, log lines, the texts of faults, and the
//! exit statuses.
//!
//! Which fault each refusal is and which status follows stand in contracts; the texts are shown by tests. Before a run ends early, a log
//! line of level error says where and why. The crate stands on `ns_words` for what the words ask for, on `ns_roster`, which reads the
//! roster, on `ns_roster_place`, which names the place of its fault, on `ns_types` for streams, on `ns_replay`, on `ns_resume`,
//! `ns_record_files` and `ns_serve_parts` for their faults, on `ns_output` for how uplinks are written, on `ns_log` for log lines, and
//! on `arrayvec`, `clap`, `jiff_core`, `jiff_fmt`, `log` and `thiserror` of the kit. It does not stand on `ns_serve`.
#![tactic(auto)]

mod ending;
mod environment;
mod fault;
mod logging;
mod recorded;
mod replaying;
mod roster;
mod streams;

pub use ending::{End, concluded, ended, refused};
pub use environment::{read_filter, words};
pub use fault::{
    Fault, of_files, of_reading, of_record, of_replay, of_roster, of_serve, status_of,
};
pub use logging::{Logging, Timed, VARIABLE, filter_of, time_text};
pub use recorded::{Kept, kept_record, named_folder, open_record};
pub use replaying::{answer, run_replay};
pub use roster::read_roster;
