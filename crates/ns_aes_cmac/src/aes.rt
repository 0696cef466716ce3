//! A block cipher with an expanded key.

ghost use Rattle.std.specs.Prelude.{◌≡◌, ◌∷◌, List, ℕ};
ghost use Rattle.ns_aes_cmac.specs.Aes.{aes, unaes, round_keys};
ghost use Rattle.ns_aes_cmac.specs.RoundKeys.{in_order};

use crate::cipher;
use crate::key_schedule::{RoundKeys, expand};
use ns_types::Key;
use std::marker::Model;
use std::simd::prelude::*;

/// AES-128 (FIPS 197) under one key, with the key expanded. Contracts see the key's 16 bytes.
#[derive(Drop)]
pub struct Aes128 {
    pub(crate) keys: RoundKeys,
}

impl Model for Aes128 {
    ghost Value = { List ℕ };

    ghost view = { λ a. a.keys.first };

    ghost invariant = { λ a. in_order a.keys ≡ a.keys.first ∷ round_keys a.keys.first };
}

impl Aes128 {
    /// Expands the key (FIPS 197, 5.2).
    #[inline(always)]
    pub fn new(key: &Key) -> Self
        ensures { result ≡ key.now.0 }
    {
        let mut keys = RoundKeys::zeros();
        expand(&key.0, &mut keys);
        Aes128 { keys }
    }

    /// The block enciphered (FIPS 197, 5.1).
    pub fn encrypt(&self, block: &[u8; 16]) -> [u8; 16]
        ensures { result ≡ aes self.now block.now }
    {
        self.encrypt_vector(u8x16::from_array(*block)).to_array()
    }

    /// Two blocks enciphered side by side, which takes less time than one after the other.
    pub fn encrypt_two(&self, first: &[u8; 16], second: &[u8; 16]) -> ([u8; 16], [u8; 16])
        ensures first { result.0 ≡ aes self.now first.now }
        ensures second { result.1 ≡ aes self.now second.now }
    {
        let (a, b) = self.encrypt_two_vectors(
            u8x16::from_array(*first),
            u8x16::from_array(*second),
        );
        (a.to_array(), b.to_array())
    }

    /// The block deciphered (FIPS 197, 5.3).
    pub fn decrypt(&self, block: &[u8; 16]) -> [u8; 16]
        ensures { result ≡ unaes self.now block.now }
    {
        cipher::decrypt(&self.keys, u8x16::from_array(*block)).to_array()
    }

    /// A block in a vector, enciphered.
    #[inline(always)]
    pub(crate) fn encrypt_vector(&self, block: u8x16) -> u8x16
        ensures { result ≡ aes self.now block }
    {
        cipher::encrypt(&self.keys, block)
    }

    /// Two blocks in vectors, enciphered side by side.
    #[inline(always)]
    pub(crate) fn encrypt_two_vectors(&self, first: u8x16, second: u8x16) -> (u8x16, u8x16)
        ensures first { result.0 ≡ aes self.now first }
        ensures second { result.1 ≡ aes self.now second }
    {
        cipher::encrypt_two(&self.keys, first, second)
    }
}
