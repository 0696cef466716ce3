//! The keys that frames are built under.

ghost use Rattle.std.specs.Prelude.{◌≡◌, Some};
ghost use Rattle.ns_creator.specs.DataFrame.{payload_key};

use ns_types::Key;

/// The keys that frames are built under: data frames use `nwk` and `app`, join frames use `root`, which is the AppKey.
#[derive(Clone, Copy)]
pub struct Keys {
    /// NwkSKey: the MIC, and the payload on port 0.
    pub nwk: Key,
    /// AppSKey: the payload on any other port.
    pub app: Key,
    /// AppKey.
    pub root: Key,
}

impl Keys {
    /// The key of a payload on this port.
    pub(crate) fn for_port(&self, port: u8) -> &Key
        ensures { result.now ≡ payload_key self.now (Some port) }
    {
        if port == 0 { &self.nwk } else { &self.app }
    }
}
