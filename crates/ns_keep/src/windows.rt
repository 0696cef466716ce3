//! The open windows, and the sessions that have one.

ghost use Rattle.std.specs.Prelude.{◌≡◌, IfOk};
ghost use Rattle.ns_keep.specs.Private.Open.{is_named, has_session, IsOf};

use ns_types::{DevEui, WindowName};
use std::alloc::{AllocError, Global};
use std::collections::HashSet;

/// The open windows by name, and their sessions.
#[derive(Drop)]
pub(crate) struct OpenWindows {
    pub names: HashSet<WindowName>,
    pub sessions: HashSet<(u64, u32)>,
}

impl OpenWindows {
    /// The windows of these names.
    pub(crate) fn new(alloc: Global, windows: &[WindowName]) -> Result<OpenWindows, AllocError>
        ensures { IfOk result (λ o. IsOf o windows.now) }
    {
        let mut names = HashSet::with_capacity(alloc, windows.len())?;
        let mut sessions = HashSet::with_capacity(alloc, windows.len())?;
        for window in windows {
            names.insert(*window)?;
            sessions.insert((window.eui.0, window.session))?;
        }
        Ok(OpenWindows { names, sessions })
    }

    /// Whether a window is open. Where none is, nothing is hashed.
    pub(crate) fn has(&self, window: &WindowName) -> bool
        ensures { result ≡ is_named self.now window.now }
    {
        !self.names.is_empty() && self.names.contains(window)
    }

    /// Whether a session has an open window.
    pub(crate) fn has_session(&self, eui: DevEui, session: u32) -> bool
        ensures { result ≡ has_session self.now eui session }
    {
        self.sessions.contains(&(eui.0, session))
    }
}
