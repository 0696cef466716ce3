//! A checkpoint in the place of the steps of a record, after which every later answer is the same.
//!
//! `write_shards` writes the checkpoint of the shards that a record leaves. `serves_as_well` starts from what was written, and returns true
//! only if the shards then answer from the same tables: then every later answer is the same (`answers_rest_on_tables` of `ns_shard`). So what
//! was written needs no trust: if it is wrong, it does not take the place of the steps. `Folder` does so with the files of a record, and
//! `Keeper` while a server goes on with them, if they have grown much. Stands on `ns_resume` for starts from records, on `ns_checkpoint` and
//! `ns_restore` for checkpoints, on `ns_shard` and `ns_runs` for runs of single lines, on `ns_record_files`, and on `ns_log` for log lines.
#![tactic(auto)]

mod ahead;
mod files;
mod growth;
mod keeper;
mod part;
mod rerun;
mod same;
mod written;

pub use ahead::{Ahead, catch_up};
pub use files::{Compacted, Folder};
pub use keeper::Keeper;
pub use same::serves_as_well;
pub use written::write_shards;
