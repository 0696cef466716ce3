//! The bytes of a frame as a key of a map.

ghost use Rattle.std.specs.Prelude.{◌≡◌, IfOk};

use indexmap::Equivalent;
use smallvec::SmallVec;
use std::alloc::{AllocError, Global};
use std::hash::{Hash, Hasher};
use std::marker::Model;

/// The bytes of a frame, in memory of their own. Up to 32 lie in the map itself. Contracts see the bytes.
#[derive(Drop)]
pub(crate) struct FrameKey {
    bytes: SmallVec<u8, 32>,
}

impl Model for FrameKey {
    ghost use Rattle.std.specs.Prelude.{List, ℕ};

    ghost Value = { List ℕ };

    ghost view = { λ k. k.bytes.items };
}

impl FrameKey {
    /// These bytes. `AllocError` where a growth was refused.
    pub(crate) fn new(alloc: Global, frame: &[u8]) -> Result<FrameKey, AllocError>
        ensures { IfOk result (λ k. k ≡ frame.now) }
    {
        let mut bytes = SmallVec::new(alloc);
        bytes.extend_from_slice(frame)?;
        Ok(FrameKey { bytes })
    }
}

impl PartialEq for FrameKey {
    ghost use Rattle.std.specs.Prelude.{bytes_eq};
    ghost use Rattle.std.specs.Cmp.{partial_equiv_from_equiv};
    ghost use Rattle.std.specs.Cmp.Lexicographic.{nat_list_eq_equiv};

    ghost eq = { bytes_eq };

    ghost laws = { partial_equiv_from_equiv nat_list_eq_equiv };

    fn eq(&self, other: &FrameKey) -> bool {
        self.bytes.as_slice() == other.bytes.as_slice()
    }
}

impl Eq for FrameKey {
    ghost use Rattle.std.specs.Cmp.Lexicographic.{nat_list_eq_equiv};

    ghost laws = { nat_list_eq_equiv };
}

impl Hash for FrameKey {
    ghost use Rattle.std.specs.Prelude.{[], ◌∷◌};
    ghost use Rattle.std.proofs.Common.{ap};
    ghost use Rattle.std.specs.Cmp.Lexicographic.{bytes_decides};

    ghost hash_input = { λ k. k ∷ [] };

    ghost respects_eq = { λ x y h. ap (λ k. k ∷ []) ((bytes_decides x y).0 h) };

    fn hash<H: Hasher>(&self, state: &mut H) {
        state.write(self.bytes.as_slice());
    }
}

/// The bytes of a frame, lent: what a key is looked up by.
#[derive(Clone, Copy)]
pub(crate) struct LentFrame<'a>(pub &'a [u8]);

impl<'a> PartialEq for LentFrame<'a> {
    ghost use Rattle.std.specs.Prelude.{bytes_eq};
    ghost use Rattle.std.specs.Cmp.{on_per, partial_equiv_from_equiv};
    ghost use Rattle.std.specs.Cmp.Lexicographic.{nat_list_eq_equiv};

    ghost eq = { λ x y. bytes_eq x.0.now y.0.now };

    ghost laws = { on_per (λ x. x.0.now) (partial_equiv_from_equiv nat_list_eq_equiv) };

    fn eq(&self, other: &LentFrame<'a>) -> bool {
        self.0 == other.0
    }
}

impl<'a> Eq for LentFrame<'a> {
    ghost use Rattle.std.specs.Cmp.{on_equiv};
    ghost use Rattle.std.specs.Cmp.Lexicographic.{nat_list_eq_equiv};

    ghost laws = { on_equiv (λ x. x.0.now) nat_list_eq_equiv };
}

impl<'a> Hash for LentFrame<'a> {
    ghost use Rattle.std.specs.Prelude.{[], ◌∷◌};
    ghost use Rattle.std.proofs.Common.{ap};
    ghost use Rattle.std.specs.Cmp.Lexicographic.{bytes_decides};

    ghost hash_input = { λ x. x.0.now ∷ [] };

    ghost respects_eq = { λ x y h. ap (λ k. k ∷ []) ((bytes_decides x.0.now y.0.now).0 h) };

    fn hash<H: Hasher>(&self, state: &mut H) {
        state.write(self.0);
    }
}

impl<'a> Equivalent<FrameKey> for LentFrame<'a> {
    ghost use Rattle.std.specs.Prelude.{[], ◌∷◌, bytes_eq};
    ghost use Rattle.std.proofs.Common.{ap};
    ghost use Rattle.std.specs.Cmp.Lexicographic.{bytes_decides, nat_list_eq_equiv};

    ghost equivalent = { λ q k. bytes_eq q.0.now k };

    ghost respects_hash = { λ q k h. ap (λ b. b ∷ []) ((bytes_decides q.0.now k).0 h) };

    ghost respects_eq = { λ q x y. nat_list_eq_equiv.congr q.0.now x y };

    fn equivalent(&self, key: &FrameKey) -> bool {
        self.0 == key.bytes.as_slice()
    }
}
