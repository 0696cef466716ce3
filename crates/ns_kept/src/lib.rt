//! Histories that were trimmed: what a trim keeps, how what is kept reads, and the laws that answers stay as they were.
//!
//! `specs/Kept` says what is kept and how it reads, `specs/Left` which histories leave what is kept, and `specs/Bound` how many
//! entries of a device that is. There is no code: the laws are contracts of functions that do nothing.
#![tactic(auto)]

mod laws;

pub use laws::{
    drained_histories_closed_all, entries_from_the_mark_are_legal, few_entries_are_kept,
    many_rounds_are_legal, merges_of_what_leaves_are_legal, only_named_windows_stay_open,
    runs_with_trims_answer_alike, the_last_of_many_rounds_is_kept, trims_leave_the_answers,
    untrimmed_histories_read_as_they_are, what_histories_leave,
};
