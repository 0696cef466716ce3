//! Tests of records, of what no text of a worked run can say.
//!
//! The lines of calls (ns_record), a start from a record (ns_resume), and compactions (ns_compact): that a
//! server goes on the same after them, that the checkpoint of another server is not taken, what is left of the files of a folder, also where `up` lines
//! are missing or ahead of the steps, and when the record of a server that runs is compacted, and tried again. Also streams that fail and memory that is refused to
//! a whole `replay`, and the texts of faults and keys.
//!
//! They call what those crates give in public, and stand here so that no crate is proved once more for its tests.
#![tactic(auto)]

#[cfg(test)]
mod ahead;
#[cfg(test)]
mod checkpoint;
#[cfg(test)]
mod folder;
#[cfg(test)]
mod grown;
#[cfg(test)]
mod life;
#[cfg(test)]
mod lines;
#[cfg(test)]
mod random;
#[cfg(test)]
mod rows;
#[cfg(test)]
mod start;
#[cfg(test)]
mod streams;
#[cfg(test)]
mod taken;
#[cfg(test)]
mod texts;
#[cfg(test)]
mod worked;
