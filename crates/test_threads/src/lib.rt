//! Tests that make the calls of whole runs (`traffic` of `ns_device`) on one server from several threads, tests at the largest sizes that
//! the server is for, also of `ns_replay`, and those of the workers (`ns_workers`): gateway workers, join workers and closers.
//!
//! They call what those crates give in public, and stand here so that none of these is proved once more for its tests.
#![tactic(auto)]

#[cfg(test)]
mod alone_tests;
#[cfg(test)]
mod caller;
#[cfg(test)]
mod counter_tests;
#[cfg(test)]
mod gate_tests;
#[cfg(test)]
mod growth_tests;
#[cfg(test)]
mod kept_tests;
#[cfg(test)]
mod large_tests;
#[cfg(test)]
mod line_tests;
#[cfg(test)]
mod long_tests;
#[cfg(test)]
mod recorded;
#[cfg(test)]
mod roster_tests;
#[cfg(test)]
mod series;
#[cfg(test)]
mod served;
#[cfg(test)]
mod tests;
#[cfg(test)]
mod trial;
#[cfg(test)]
mod trim_tests;
#[cfg(test)]
mod work;
#[cfg(test)]
mod workers;
#[cfg(test)]
mod written;
