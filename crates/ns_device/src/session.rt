//! A session, as a device has it.

use ns_types::{DevAddr, Key};

/// A session, as a device has it.
#[derive(Clone, Copy, PartialEq, Eq)]
pub struct Session {
    pub addr: DevAddr,
    /// NwkSKey.
    pub nwk: Key,
    /// AppSKey.
    pub app: Key,
}
