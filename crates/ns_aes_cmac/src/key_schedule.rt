//! The key expansion (FIPS 197, 5.2).

ghost use Rattle.std.specs.Prelude.{◌≡◌, ◌∷◌, map};
ghost use Rattle.ns_aes_cmac.specs.Aes.{next_round_key, round_keys};
ghost use Rattle.ns_aes_cmac.specs.Basis.{from_basis, key_from_basis};
ghost use Rattle.ns_aes_cmac.specs.RoundKeys.{in_order};

use crate::substitution::{from_basis, round_key, substituted_once, to_basis};
use std::simd::prelude::*;

/// The round constants in the basis, with the constant that the look-ups leave out: of all rounds but the last.
const ROUND_CONSTANTS: [u8; 9] = [0x2b, 0x71, 0xc3, 0x53, 0x16, 0x27, 0x26, 0xda, 0x44];

/// That of the last round.
const LAST_CONSTANT: u8 = 0xd8;

/// The key of a round between the first and the last, in the basis of the rounds.
#[derive(Clone, Copy)]
pub(crate) struct RoundKey {
    pub(crate) bytes: u8x16,
}

/// The key (`first`) and the round keys after it, one for each round.
#[derive(Clone, Copy)]
pub(crate) struct RoundKeys {
    pub(crate) first: u8x16,
    pub(crate) between: [RoundKey; 9],
    pub(crate) last: u8x16,
}

impl RoundKeys {
    /// Keys of zeros, in whose place others are put.
    #[inline(always)]
    pub(crate) fn zeros() -> RoundKeys {
        let zeros = u8x16::splat(0);
        RoundKeys {
            first: zeros,
            between: [RoundKey { bytes: zeros }; 9],
            last: zeros,
        }
    }

    /// The round keys between, and the last one. The call stays a call, so the compiler does not see how many there are and keeps a loop
    /// over them: round after round written out takes four times the room in a processor's cache of instructions.
    #[inline(never)]
    pub(crate) fn after_first(&self) -> (&[RoundKey], [u8; 16])
        ensures between { result.0.now ≡ self.now.between }
        ensures last { result.1 ≡ self.now.last }
    {
        (&self.between, self.last.to_array())
    }
}

/// The round constants of all rounds but the last, and that of the last. The call stays a call here too.
#[inline(never)]
fn constants() -> (&'static [u8], u8)
    ensures between { result.0.now ≡ ROUND_CONSTANTS }
    ensures last { result.1 ≡ LAST_CONSTANT }
{
    (&ROUND_CONSTANTS, LAST_CONSTANT)
}

/// The key after `key`, both in the basis. `rcon` is the round constant in the basis, with the constant that the look-ups leave out.
#[inline(always)]
fn next_key(key: u8x16, rcon: u8) -> u8x16
    ensures { map from_basis result ≡ next_round_key (key_from_basis rcon) (map from_basis key) }
{
    let zero = u8x16::splat(0);
    let pairs = zero.shuffle(
        key,
        [0, 0, 0, 0, 16, 17, 18, 19, 20, 21, 22, 23, 24, 25, 26, 27],
    ) ^ key;
    let sums = zero.shuffle(
        pairs,
        [0, 0, 0, 0, 0, 0, 0, 0, 16, 17, 18, 19, 20, 21, 22, 23],
    ) ^ pairs;
    let word = substituted_once(key.swizzle([
        13, 14, 15, 12, 13, 14, 15, 12, 13, 14, 15, 12, 13, 14, 15, 12,
    ]));
    let constants = u8x16::from_array([
        rcon, 0x5b, 0x5b, 0x5b, rcon, 0x5b, 0x5b, 0x5b, rcon, 0x5b, 0x5b, 0x5b, rcon, 0x5b, 0x5b,
        0x5b,
    ]);
    (sums ^ constants) ^ word
}

/// Puts the key and its round keys in the place of others.
#[inline(never)]
pub(crate) fn expand(key: &[u8; 16], keys: &mut RoundKeys)
    ensures { in_order keys.new ≡ key.now ∷ round_keys key.now }
{
    keys.first = u8x16::from_array(*key);
    let mut next = to_basis(keys.first);
    let (constants, last_constant) = constants();
    for i in 0..constants.len() {
        next = next_key(next, constants[i]);
        keys.between[i].bytes = round_key(next);
    }
    keys.last = from_basis(next_key(next, last_constant));
}
