//! How uplinks are written.

/// How an uplink is written.
#[derive(Clone, Copy, PartialEq, Eq)]
pub enum Output {
    /// Its `up` line.
    Lines,
    /// Its JSON object on a line.
    Json,
}
