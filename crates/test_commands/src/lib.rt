//! Tests of the program without its server: what words ask for (ns_words), the texts of faults and of times, how runs end, what `replay`
//! and `compact` write (ns_upkeep), and what the program's runtime hands on (ns_commands).
//!
//! They call what those crates give in public, with a runtime of their own (`stand_in`) and the worked run of `ns_device`, and stand here
//! so that no crate is proved once more for its tests, and apart from `test_records`, which needs none of the three.
#![tactic(auto)]

#[cfg(test)]
mod ends;
#[cfg(test)]
mod runs;
#[cfg(test)]
mod stand_in;
#[cfg(test)]
mod words;
