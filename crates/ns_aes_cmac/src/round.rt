//! The rounds of the cipher and of the inverse cipher (FIPS 197, 5.1 and 5.3), on a state in one vector.

ghost use Rattle.std.specs.Prelude.{◌≡◌, map};
ghost use Rattle.ns_aes_cmac.specs.Aes.{sub_bytes, shift_rows, mix_columns, xor_bytes, inverse_sub_bytes, inverse_shift_rows, inverse_mix_columns};
ghost use Rattle.ns_aes_cmac.specs.Basis.{from_basis, key_from_basis};

use crate::substitution::{
    by_halves, inverse_substituted, key_from_basis, substituted_from_basis, substituted_in_basis,
};
use std::simd::prelude::*;

const TIMES_9_LO: [u8; 16] = [
    0x00, 0x09, 0x12, 0x1b, 0x24, 0x2d, 0x36, 0x3f, 0x48, 0x41, 0x5a, 0x53, 0x6c, 0x65, 0x7e, 0x77,
];

const TIMES_9_HI: [u8; 16] = [
    0x00, 0x90, 0x3b, 0xab, 0x76, 0xe6, 0x4d, 0xdd, 0xec, 0x7c, 0xd7, 0x47, 0x9a, 0x0a, 0xa1, 0x31,
];

const TIMES_11_LO: [u8; 16] = [
    0x00, 0x0b, 0x16, 0x1d, 0x2c, 0x27, 0x3a, 0x31, 0x58, 0x53, 0x4e, 0x45, 0x74, 0x7f, 0x62, 0x69,
];

const TIMES_11_HI: [u8; 16] = [
    0x00, 0xb0, 0x7b, 0xcb, 0xf6, 0x46, 0x8d, 0x3d, 0xf7, 0x47, 0x8c, 0x3c, 0x01, 0xb1, 0x7a, 0xca,
];

const TIMES_13_LO: [u8; 16] = [
    0x00, 0x0d, 0x1a, 0x17, 0x34, 0x39, 0x2e, 0x23, 0x68, 0x65, 0x72, 0x7f, 0x5c, 0x51, 0x46, 0x4b,
];

const TIMES_13_HI: [u8; 16] = [
    0x00, 0xd0, 0xbb, 0x6b, 0x6d, 0xbd, 0xd6, 0x06, 0xda, 0x0a, 0x61, 0xb1, 0xb7, 0x67, 0x0c, 0xdc,
];

const TIMES_14_LO: [u8; 16] = [
    0x00, 0x0e, 0x1c, 0x12, 0x38, 0x36, 0x24, 0x2a, 0x70, 0x7e, 0x6c, 0x62, 0x48, 0x46, 0x54, 0x5a,
];

const TIMES_14_HI: [u8; 16] = [
    0x00, 0xe0, 0xdb, 0x3b, 0xad, 0x4d, 0x76, 0x96, 0x41, 0xa1, 0x9a, 0x7a, 0xec, 0x0c, 0x37, 0xd7,
];

/// A round with its key, all in the basis.
#[inline(always)]
pub(crate) fn round(v: u8x16, key: u8x16) -> u8x16
    ensures { map from_basis result ≡ xor_bytes (map key_from_basis key) (mix_columns (shift_rows (sub_bytes (map from_basis v)))) }
{
    let (one, two) = substituted_in_basis(v);
    (key ^ (two.swizzle([0, 5, 10, 15, 4, 9, 14, 3, 8, 13, 2, 7, 12, 1, 6, 11])
        ^ (two ^ one).swizzle([5, 10, 15, 0, 9, 14, 3, 4, 13, 2, 7, 8, 1, 6, 11, 12])))
        ^ (one.swizzle([10, 15, 0, 5, 14, 3, 4, 9, 2, 7, 8, 13, 6, 11, 12, 1])
            ^ one.swizzle([15, 0, 5, 10, 3, 4, 9, 14, 7, 8, 13, 2, 11, 12, 1, 6]))
}

/// The last round with its key, of a state in the basis.
#[inline(always)]
pub(crate) fn last_round(v: u8x16, key: u8x16) -> u8x16
    ensures { result ≡ xor_bytes key (shift_rows (sub_bytes (map from_basis v))) }
{
    key ^ substituted_from_basis(v).swizzle([0, 5, 10, 15, 4, 9, 14, 3, 8, 13, 2, 7, 12, 1, 6, 11])
}

#[inline(always)]
fn inverse_mixed(v: u8x16) -> u8x16
    ensures { result ≡ inverse_mix_columns v }
{
    let a = by_halves(v, TIMES_14_LO, TIMES_14_HI);
    let b = by_halves(v, TIMES_11_LO, TIMES_11_HI);
    let c = by_halves(v, TIMES_13_LO, TIMES_13_HI);
    let d = by_halves(v, TIMES_9_LO, TIMES_9_HI);
    (a.swizzle([0, 1, 2, 3, 4, 5, 6, 7, 8, 9, 10, 11, 12, 13, 14, 15])
        ^ b.swizzle([1, 2, 3, 0, 5, 6, 7, 4, 9, 10, 11, 8, 13, 14, 15, 12]))
        ^ (c.swizzle([2, 3, 0, 1, 6, 7, 4, 5, 10, 11, 8, 9, 14, 15, 12, 13])
            ^ d.swizzle([3, 0, 1, 2, 7, 4, 5, 6, 11, 8, 9, 10, 15, 12, 13, 14]))
}

/// The last inverse round with its key.
#[inline(always)]
pub(crate) fn last_inverse_round(v: u8x16, key: u8x16) -> u8x16
    ensures { result ≡ xor_bytes key (inverse_sub_bytes (inverse_shift_rows v)) }
{
    key ^ inverse_substituted(v.swizzle([0, 13, 10, 7, 4, 1, 14, 11, 8, 5, 2, 15, 12, 9, 6, 3]))
}

/// An inverse round with its key, which is in the basis of the rounds.
#[inline(always)]
pub(crate) fn inverse_round(v: u8x16, key: u8x16) -> u8x16
    ensures { result ≡ inverse_mix_columns (xor_bytes (map key_from_basis key) (inverse_sub_bytes (inverse_shift_rows v))) }
{
    inverse_mixed(last_inverse_round(v, key_from_basis(key)))
}
