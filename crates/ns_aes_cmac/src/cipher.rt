//! The cipher and the inverse cipher (FIPS 197, 5.1 and 5.3), on expanded keys.

ghost use Rattle.std.specs.Prelude.{◌≡◌, ◌∷◌, List, ℕ};
ghost use Rattle.ns_aes_cmac.specs.Aes.{round_keys, aes, unaes};
ghost use Rattle.ns_aes_cmac.specs.RoundKeys.{in_order};

use crate::key_schedule::RoundKeys;
use crate::round::{inverse_round, last_inverse_round, last_round, round};
use crate::substitution::to_basis;
use std::simd::prelude::*;

/// A block enciphered under the key that `keys` were made of.
#[inline(never)]
pub(crate) fn encrypt(keys: &RoundKeys, block: u8x16) -> u8x16
    ensures { (key : List ℕ) → in_order keys.now ≡ key ∷ round_keys key → result ≡ aes key block }
{
    let (between, last) = keys.after_first();
    let mut v = to_basis(keys.first ^ block);
    for i in 0..between.len() {
        v = round(v, between[i].bytes);
    }
    last_round(v, u8x16::from_array(last))
}

/// Two blocks enciphered side by side.
#[inline(never)]
pub(crate) fn encrypt_two(keys: &RoundKeys, first: u8x16, second: u8x16) -> (u8x16, u8x16)
    ensures first { (key : List ℕ) → in_order keys.now ≡ key ∷ round_keys key → result.0 ≡ aes key first }
    ensures second { (key : List ℕ) → in_order keys.now ≡ key ∷ round_keys key → result.1 ≡ aes key second }
{
    let mut v = to_basis(keys.first ^ first);
    let mut u = to_basis(keys.first ^ second);
    for i in 0..9 {
        v = round(v, keys.between[i].bytes);
        u = round(u, keys.between[i].bytes);
    }
    (last_round(v, keys.last), last_round(u, keys.last))
}

/// A block deciphered under the key that `keys` were made of.
pub(crate) fn decrypt(keys: &RoundKeys, block: u8x16) -> u8x16
    ensures { (key : List ℕ) → in_order keys.now ≡ key ∷ round_keys key → result ≡ unaes key block }
{
    let mut v = keys.last ^ block;
    for i in 0..9 {
        v = inverse_round(v, keys.between[8 - i].bytes);
    }
    last_inverse_round(v, keys.first)
}
