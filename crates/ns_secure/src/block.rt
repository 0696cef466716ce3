//! The blocks that name a data frame: B0 of its MIC and A i of its payload cipher.

ghost use Rattle.std.specs.Prelude.{◌≡◌};
ghost use Rattle.ns_secure.specs.Integrity.{frame_block, block_b0};
ghost use Rattle.ns_secure.specs.Cipher.{block_a};

use crate::Dir;
use ns_types::DevAddr;

/// What the blocks of one frame have in common.
#[derive(Clone, Copy)]
pub(crate) struct FrameBlocks {
    pub dir: Dir,
    pub addr: DevAddr,
    /// The whole 32-bit counter.
    pub counter: u32,
}

impl FrameBlocks {
    /// B0 before a frame that has `len` bytes without its MIC (4.4).
    pub(crate) fn b0(&self, len: u8) -> [u8; 16]
        ensures { result ≡ block_b0 self.now.dir self.now.addr.0 self.now.counter len }
    {
        self.between(0x49, len)
    }

    /// A i, counted from 1 (4.3.3.1).
    pub(crate) fn a(&self, i: u8) -> [u8; 16]
        ensures { result ≡ block_a self.now.dir self.now.addr.0 self.now.counter i }
    {
        self.between(0x01, i)
    }

    /// The block that begins with `first` and ends with `last`.
    fn between(&self, first: u8, last: u8) -> [u8; 16]
        ensures { result ≡ frame_block first self.now.dir self.now.addr.0 self.now.counter last }
    {
        let dir = match self.dir {
            Dir::Up => 0,
            Dir::Down => 1,
        };
        let [a, b, c, d] = self.addr.0.to_le_bytes();
        let [e, f, g, h] = self.counter.to_le_bytes();
        [first, 0, 0, 0, 0, dir, a, b, c, d, e, f, g, h, 0, last]
    }
}
