//! How a record stays short: the program's command `compact`, and what does it while a server goes on with the record. And what is done
//! where its `up` lines are ahead of its steps (`recover`).
//!
//! What a compaction does is `ns_compact`'s; here it gets its folder and its roster. The texts are shown by tests. Before it ends early, a
//! log line of level error says where and why. The crate stands on `ns_compact`, on `ns_commands` for the roster of a file, the files of a
//! record and the texts of faults, and on `ns_log` for log lines.
#![tactic(auto)]

mod checking;
mod folder;

pub use checking::check;
pub use folder::{compact, keeper, recover};
