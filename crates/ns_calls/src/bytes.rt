//! Byte strings of bounded length that lie in the value itself, so that calls and entries are of fixed size and can be copied.

ghost use Rattle.std.specs.Prelude.{◌≡◌, ◌≤◌, length};

use std::fmt;
use std::marker::Model;

/// At most `N` bytes, for `N` up to 255. Contracts see the list of them.
#[derive(Clone, Copy, PartialEq, Eq)]
pub struct Bytes<const N: usize> {
    pub(crate) len: u8,
    pub(crate) room: [u8; N],
}

impl<const N: usize> Model for Bytes<N> {
    ghost use Rattle.std.specs.Prelude.{◌≡◌, ◌-◌, ◌≤◌, ◌++◌, ℕ, List, length, take, replicate};
    ghost use Rattle.std.specs.Coded.{coded_list, coded_ℕ};

    ghost Value = { List ℕ };

    ghost view = { λ b. take b.len b.room };

    ghost invariant = { λ b. (length (take b.len b.room) ≡ b.len) × (b.room ≡ take b.len b.room ++ replicate (N - b.len) 0) };

    ghost use Rattle.std.proofs.Common.{sym, ap, ◌∙◌};

    ghost inverse = { λ xs. record { len = length xs; room = xs ++ replicate (N - length xs) 0 } };

    ghost inverse_ok = { λ b h i. record { len = h.0 i; room = (ap (λ n. take b.len b.room ++ replicate (N - n) 0) h.0 ∙ sym h.1) i } };
}

impl<const N: usize> Bytes<N> {
    /// These bytes.
    #[inline(always)]
    pub fn of(bytes: &[u8]) -> Self
        requires fits { length bytes.now ≤ N }
        requires short { length bytes.now ≤ 255 }
        ensures { result ≡ bytes.now }
    {
        let mut room = [0; N];
        room[..bytes.len()].copy_from_slice(bytes);
        Bytes {
            len: bytes.len() as u8,
            room,
        }
    }

    /// Becomes these bytes. Of the room it writes no more than they, or the bytes before, take.
    #[inline(always)]
    pub fn put(&mut self, bytes: &[u8])
        requires fits { length bytes.now ≤ N }
        requires short { length bytes.now ≤ 255 }
        ensures { self.new ≡ bytes.now }
    {
        let (len, before) = (bytes.len(), self.len as usize);
        self.room[..len].copy_from_slice(bytes);
        for at in len..before {
            self.room[at] = 0;
        }
        self.len = len as u8;
    }

    /// Becomes other bytes. Of the room it writes no more than one of them takes.
    #[inline(always)]
    pub fn copy_from(&mut self, other: &Self)
        ensures { self.new ≡ other.now }
    {
        let len = self.len.max(other.len) as usize;
        self.room[..len].copy_from_slice(&other.room[..len]);
        self.len = other.len;
    }

    /// The bytes.
    pub fn as_slice(&self) -> &[u8]
        ensures bytes { result.now ≡ self.now }
        ensures fits { length result.now ≤ N }
    {
        &self.room[..self.len as usize]
    }
}

/// The bytes in use alone, as a slice prints them.
impl<const N: usize> fmt::Debug for Bytes<N> {
    fn fmt<W: fmt::Write>(&self, f: &mut fmt::Formatter<W>) -> fmt::Result {
        let bytes = self.as_slice();
        write!(f, "{bytes:?}")
    }
}
