//! Laws of a record: the calls on which later answers rest, without all others.
//!
//! There is no code: the laws are contracts of functions that do nothing.
#![tactic(auto)]

mod laws;

pub use laws::{
    all_lives_are_one_run, answers_rest_on_the_record, lives_are_one_run, records_are_run_again,
    what_is_left_out_is_silent,
};
