//! Each public call of the crates below the server, of the server and of its workers, in its plain form, which may take more moves or more
//! memory than the faster form beside it. Each function here makes one of these calls with the types that
//! `docs/EMBEDDING.md` lists, so that a call that leaves its form is refused.
#![tactic(auto)]

pub mod frames;
pub mod keepers;
pub mod network;
#[cfg(test)]
mod tests;
pub mod threads;
