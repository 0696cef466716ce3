//! CMAC of a message that comes in pieces (RFC 4493, 2.4).

ghost use Rattle.std.specs.Prelude.{◌≡◌, true, ◌+◌, ◌-◌, ◌/◌, ◌≤◌, ℕ, List, [], ◌++◌, length, take, drop, replicate};
ghost use Rattle.ns_aes_cmac.specs.Aes.{aes, xor_bytes};
ghost use Rattle.ns_aes_cmac.specs.Cmac.{doubled, cmac};
ghost use Rattle.ns_aes_cmac.specs.CmacState.{CmacState, state_of, chained_from};

use crate::aes::Aes128;
use ns_types::Key;
use std::marker::Model;
use std::simd::prelude::*;

/// A CMAC in progress under a key. `state_of key m` is its value once the message `m` has come, which each contract hands on: from `new`
/// over any number of `update` to `finish`.
#[derive(Drop)]
pub struct Cmac {
    cipher: Aes128,
    /// Whether a block was taken, and the block of zeros enciphered with it.
    started: bool,
    enciphered_zeros: [u8; 16],
    chain: [u8; 16],
    /// The bytes not taken yet, then zeros.
    pending: [u8; 16],
    len: usize,
}

impl Model for Cmac {
    ghost Value = { CmacState };

    ghost view = { λ c. record { key = c.cipher; chain = c.chain; pending = take c.len c.pending } };

    ghost invariant = { λ c. (c.len ≤ 16) × (drop c.len c.pending ≡ replicate (16 - c.len) 0) × (c.started ≡ true → c.enciphered_zeros ≡ aes c.cipher (replicate 16 0)) };
}

impl Cmac {
    /// An empty message under a key.
    pub fn new(key: &Key) -> Cmac
        ensures { result ≡ state_of key.now.0 [] }
    {
        Cmac {
            cipher: Aes128::new(key),
            started: false,
            enciphered_zeros: [0; 16],
            chain: [0; 16],
            pending: [0; 16],
            len: 0,
        }
    }

    /// Adds bytes to the end of the message.
    pub fn update(&mut self, bytes: &[u8])
        ensures { (key m : List ℕ) → self.old ≡ state_of key m → self.new ≡ state_of key (m ++ bytes.now) }
    {
        let mut lent = self.lend();
        lent.update(bytes);
        let LentCmac {
            cipher: _,
            started,
            enciphered_zeros,
            chain,
            pending,
            len,
        } = lent;
        self.started = started;
        self.enciphered_zeros = enciphered_zeros;
        self.chain = chain;
        self.pending = pending;
        self.len = len;
    }

    /// The code of the whole message.
    pub fn finish(self) -> [u8; 16]
        ensures { (key m : List ℕ) → self ≡ state_of key m → result ≡ cmac key m }
    {
        self.lend().finish()
    }

    // The same CMAC, over this one's cipher.
    fn lend(&self) -> LentCmac<'_>
        ensures { result ≡ self.now }
    {
        LentCmac {
            cipher: &self.cipher,
            started: self.started,
            enciphered_zeros: self.enciphered_zeros,
            chain: self.chain,
            pending: self.pending,
            len: self.len,
        }
    }
}

/// A CMAC in progress under a key that was expanded before, as for several messages under one key. Its values are those of a `Cmac`.
#[derive(Drop)]
pub struct LentCmac<'a> {
    cipher: &'a Aes128,
    /// Whether a block was taken, and the block of zeros enciphered beside it.
    started: bool,
    enciphered_zeros: [u8; 16],
    chain: [u8; 16],
    /// The bytes not taken yet, then zeros.
    pending: [u8; 16],
    len: usize,
}

impl<'a> Model for LentCmac<'a> {
    ghost Value = { CmacState };

    ghost view = { λ c. record { key = c.cipher.now; chain = c.chain; pending = take c.len c.pending } };

    ghost invariant = { λ c. (c.len ≤ 16) × (drop c.len c.pending ≡ replicate (16 - c.len) 0) × (c.started ≡ true → c.enciphered_zeros ≡ aes c.cipher.now (replicate 16 0)) };
}

impl<'a> LentCmac<'a> {
    /// An empty message under a key.
    #[inline(always)]
    pub fn new(cipher: &'a Aes128) -> LentCmac<'a>
        ensures { result ≡ state_of cipher.now [] }
    {
        LentCmac {
            cipher,
            started: false,
            enciphered_zeros: [0; 16],
            chain: [0; 16],
            pending: [0; 16],
            len: 0,
        }
    }

    /// The bytes after those of the message so far.
    #[inline(always)]
    pub fn update(&mut self, bytes: &[u8])
        ensures state { (key m : List ℕ) → self.old ≡ state_of key m → self.new ≡ state_of key (m ++ bytes.now) }
        ensures key { self.new.key ≡ self.old.key }
    {
        let room = 16 - self.len;
        if bytes.len() <= room {
            self.keep(bytes);
        } else {
            let (front, rest) = bytes.split_at(room);
            self.keep(front);
            self.take_pending();
            let (blocks, last) = rest.split_at((rest.len() - 1) / 16 * 16);
            self.take_blocks(blocks);
            self.keep(last);
        }
    }

    /// The code of the whole message.
    #[inline(always)]
    pub fn finish(self) -> [u8; 16]
        ensures { (key m : List ℕ) → self.entry ≡ state_of key m → result ≡ cmac key m }
    {
        let zeros = if self.started {
            u8x16::from_array(self.enciphered_zeros)
        } else {
            self.cipher.encrypt_vector(u8x16::splat(0))
        };
        let subkey_1 = doubled(zeros);
        let last = if self.len == 16 {
            u8x16::from_array(self.pending) ^ subkey_1
        } else {
            let mut padded = self.pending;
            padded[self.len] = 0x80;
            u8x16::from_array(padded) ^ doubled(subkey_1)
        };
        self.cipher
            .encrypt_vector(u8x16::from_array(self.chain) ^ last)
            .to_array()
    }

    /// More bytes that wait, for which there is room.
    #[inline(always)]
    fn keep(&mut self, bytes: &[u8])
        requires { length self.old.pending + length bytes.now ≤ 16 }
        ensures { self.new ≡ record self.old { pending = self.old.pending ++ bytes.now } }
    {
        let end = self.len + bytes.len();
        self.pending[self.len..end].copy_from_slice(bytes);
        self.len = end;
    }

    /// Takes the pending block, which is whole.
    #[inline(always)]
    fn take_pending(&mut self)
        requires { length self.old.pending ≡ 16 }
        ensures { self.new ≡ record self.old { chain = aes self.old.key (xor_bytes self.old.chain self.old.pending); pending = [] } }
    {
        let block = u8x16::from_array(self.chain) ^ u8x16::from_array(self.pending);
        if self.started {
            self.chain = self.cipher.encrypt_vector(block).to_array();
        } else {
            let (zeros, chain) = self.cipher.encrypt_two_vectors(u8x16::splat(0), block);
            self.enciphered_zeros = zeros.to_array();
            self.chain = chain.to_array();
            self.started = true;
        }
        self.pending = [0; 16];
        self.len = 0;
    }

    /// Takes whole blocks.
    #[inline(always)]
    fn take_blocks(&mut self, blocks: &[u8])
        ensures { self.new ≡ record self.old { chain = chained_from self.old.key self.old.chain blocks.now (length blocks.now / 16) } }
    {
        self.chain = chained(self.cipher, u8x16::from_array(self.chain), blocks).to_array();
    }
}

/// X after whole blocks, begun from `chain`.
#[inline(always)]
fn chained(cipher: &Aes128, chain: u8x16, blocks: &[u8]) -> u8x16
    ensures { result ≡ chained_from cipher.now chain blocks.now (length blocks.now / 16) }
{
    let mut chain = chain;
    for i in 0..blocks.len() / 16 {
        chain = cipher.encrypt_vector(chain ^ u8x16::from_slice(&blocks[16 * i..]));
    }
    chain
}

/// A block doubled in the field of 2^128 elements (RFC 4493, 2.3).
#[inline(always)]
fn doubled(block: u8x16) -> u8x16
    ensures { result ≡ doubled block }
{
    let top_bits = block >> u8x16::splat(7);
    let carries = top_bits.shuffle(
        u8x16::splat(0),
        [1, 2, 3, 4, 5, 6, 7, 8, 9, 10, 11, 12, 13, 14, 15, 16],
    );
    let reduction = 0x87 * (block[0] / 128);
    ((block << u8x16::splat(1)) ^ carries)
        ^ u8x16::from_array([0, 0, 0, 0, 0, 0, 0, 0, 0, 0, 0, 0, 0, 0, 0, reduction])
}
