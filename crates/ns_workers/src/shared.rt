//! What the workers of a server share.

use ns_output::Output;

/// What the workers of a server share.
#[derive(Drop)]
pub struct Shared<'a, S, R, G, M> {
    /// How uplinks are written.
    pub output: Output,
    pub rt: &'a R,
    pub server: &'a S,
    pub gate: &'a G,
    pub monitor: &'a M,
}
