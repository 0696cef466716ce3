//! The S-box and its inverse on each byte of a state, by look-ups of four bits in tables of 16 bytes.
//!
//! The inverse of a byte is computed in a tower of fields, GF((2^4)^2), after M. Hamburg. The rounds keep the state in the
//! basis of that tower, so that only the first state and the last one change bases.

ghost use Rattle.std.specs.Prelude.{◌≡◌, ℕ, List, map, bit_and, bit_xor, ◌/◌};
ghost use lib.Lanes.{zip2};
ghost use Rattle.ns_aes_cmac.specs.Aes.{sub_bytes, inverse_sub_bytes};
ghost use Rattle.ns_aes_cmac.specs.Lookups.{look_at, ArePlaces, half_i, half_j, by_halves, by_inverse};
ghost use Rattle.ns_aes_cmac.specs.Basis.{from_basis, key_from_basis};

use std::simd::prelude::*;

/// The inverse of four bits in GF(2^4). That of 0 is 0x80, which the next look-up takes to 0.
const INVERSES: [u8; 16] = [
    0x80, 0x01, 0x08, 0x0d, 0x0f, 0x06, 0x05, 0x0e, 0x02, 0x0c, 0x0b, 0x0a, 0x09, 0x03, 0x07, 0x04,
];

/// Each inverse times the constant of the tower GF((2^4)^2).
const INVERSES_TIMES_A: [u8; 16] = [
    0x80, 0x07, 0x0b, 0x0f, 0x06, 0x0a, 0x04, 0x01, 0x09, 0x08, 0x05, 0x02, 0x0c, 0x0e, 0x0d, 0x03,
];

/// A byte into the basis of the tower, by its low half and its high half.
const INTO_LO: [u8; 16] = [
    0x00, 0x70, 0x2a, 0x5a, 0x98, 0xe8, 0xb2, 0xc2, 0x08, 0x78, 0x22, 0x52, 0x90, 0xe0, 0xba, 0xca,
];

const INTO_HI: [u8; 16] = [
    0x00, 0x4d, 0x7c, 0x31, 0x7d, 0x30, 0x01, 0x4c, 0x81, 0xcc, 0xfd, 0xb0, 0xfc, 0xb1, 0x80, 0xcd,
];

/// Twice the S-box in the basis, by the two halves of the inverse.
const TWICE_I: [u8; 16] = [
    0x00, 0x24, 0x71, 0x0b, 0xc6, 0x93, 0x7a, 0xe2, 0xcd, 0x2f, 0x98, 0xbc, 0x55, 0xe9, 0xb7, 0x5e,
];

const TWICE_J: [u8; 16] = [
    0x00, 0x29, 0xe1, 0x0a, 0x40, 0x88, 0xeb, 0x69, 0x4a, 0x23, 0x82, 0xab, 0xc8, 0x63, 0xa1, 0xc2,
];

/// The S-box in the basis, by the two halves of the inverse.
const ONCE_I: [u8; 16] = [
    0x00, 0x3e, 0x50, 0xcb, 0x8f, 0xe1, 0x9b, 0xb1, 0x44, 0xf5, 0x2a, 0x14, 0x6e, 0x7a, 0xdf, 0xa5,
];

const ONCE_J: [u8; 16] = [
    0x00, 0x23, 0xe2, 0xfa, 0x15, 0xd4, 0x18, 0x36, 0xef, 0xd9, 0x2e, 0x0d, 0xc1, 0xcc, 0xf7, 0x3b,
];

/// A byte out of the basis, by its low half and its high half.
const OUT_LO: [u8; 16] = [
    0x00, 0x60, 0xb6, 0xd6, 0x29, 0x49, 0x9f, 0xff, 0x08, 0x68, 0xbe, 0xde, 0x21, 0x41, 0x97, 0xf7,
];

const OUT_HI: [u8; 16] = [
    0x00, 0xec, 0xbc, 0x50, 0x51, 0xbd, 0xed, 0x01, 0xe0, 0x0c, 0x5c, 0xb0, 0xb1, 0x5d, 0x0d, 0xe1,
];

/// The S-box out of the basis, by the two halves of the inverse.
const LAST_I: [u8; 16] = [
    0x00, 0xc7, 0xbd, 0x6f, 0x17, 0x6d, 0xd2, 0xd0, 0x78, 0xa8, 0x02, 0xc5, 0x7a, 0xbf, 0xaa, 0x15,
];

const LAST_J: [u8; 16] = [
    0x00, 0x6a, 0xbb, 0x5f, 0xa5, 0x74, 0xe4, 0xcf, 0xfa, 0x35, 0x2b, 0x41, 0xd1, 0x90, 0x1e, 0x8e,
];

/// The inverse affine map and into the basis, by the low half and the high half of a byte.
const BACK_INTO_LO: [u8; 16] = [
    0xe8, 0xb7, 0xbc, 0xe3, 0xec, 0xb3, 0xb8, 0xe7, 0xf2, 0xad, 0xa6, 0xf9, 0xf6, 0xa9, 0xa2, 0xfd,
];

const BACK_INTO_HI: [u8; 16] = [
    0x00, 0x65, 0x05, 0x60, 0xe6, 0x83, 0xe3, 0x86, 0x94, 0xf1, 0x91, 0xf4, 0x72, 0x17, 0x77, 0x12,
];

/// Out of the basis, by the two halves of the inverse.
const BACK_I: [u8; 16] = [
    0x00, 0x40, 0xf9, 0x7e, 0x53, 0xea, 0x87, 0x13, 0x2d, 0x3e, 0x94, 0xd4, 0xb9, 0x6d, 0xaa, 0xc7,
];

const BACK_J: [u8; 16] = [
    0x00, 0x1d, 0x44, 0x93, 0x0f, 0x56, 0xd7, 0x12, 0x9c, 0x8e, 0xc5, 0xd8, 0x59, 0x81, 0x4b, 0xca,
];

/// Each byte of a table at a place: below 16, or 0 from 128 on.
#[inline(always)]
fn look(table: [u8; 16], places: u8x16) -> u8x16
    requires { ArePlaces places }
    ensures { result ≡ map (look_at table) places }
{
    u8x16::from_array(table).swizzle_dyn_within::<16>(places)
}

#[inline(always)]
fn low(v: u8x16) -> u8x16
    ensures { result ≡ map (λ b. bit_and b 15) v }
{
    v & u8x16::splat(15)
}

#[inline(always)]
fn high(v: u8x16) -> u8x16
    ensures { result ≡ map (λ b. b / 16) v }
{
    v >> u8x16::splat(4)
}

/// Each byte by a look-up of each of its halves.
#[inline(always)]
pub(crate) fn by_halves(v: u8x16, low_table: [u8; 16], high_table: [u8; 16]) -> u8x16
    ensures { result ≡ map (by_halves low_table high_table) v }
{
    look(low_table, low(v)) ^ look(high_table, high(v))
}

/// The halves of the inverse of each byte.
#[inline(always)]
fn inverted(v: u8x16) -> (u8x16, u8x16)
    ensures i { result.0 ≡ map half_i v }
    ensures j { result.1 ≡ map half_j v }
    ensures places_i { ArePlaces result.0 }
    ensures places_j { ArePlaces result.1 }
{
    let k = low(v);
    let i = high(v);
    let a = look(INVERSES_TIMES_A, k);
    let j = i ^ k;
    let by_i = look(INVERSES, i) ^ a;
    let by_j = look(INVERSES, j) ^ a;
    (look(INVERSES, by_i) ^ j, look(INVERSES, by_j) ^ i)
}

/// The sum of a look-up of each half.
#[inline(always)]
fn joined(i: u8x16, j: u8x16, u: [u8; 16], t: [u8; 16]) -> u8x16
    requires i { ArePlaces i }
    requires j { ArePlaces j }
    ensures { result ≡ zip2 bit_xor (map (look_at u) i) (map (look_at t) j) }
{
    look(u, i) ^ look(t, j)
}

/// A state in the basis of the rounds.
#[inline(always)]
pub(crate) fn to_basis(v: u8x16) -> u8x16
    ensures { map from_basis result ≡ v }
{
    by_halves(v, INTO_LO, INTO_HI)
}

/// A state out of the basis of the rounds.
#[inline(always)]
pub(crate) fn from_basis(v: u8x16) -> u8x16
    ensures { result ≡ map from_basis v }
{
    by_halves(v, OUT_LO, OUT_HI)
}

/// The round key of a key in the basis: the constant that the look-ups of a round leave out is added.
#[inline(always)]
pub(crate) fn round_key(key: u8x16) -> u8x16
    ensures { map key_from_basis result ≡ map from_basis key }
{
    key ^ u8x16::splat(0x5b)
}

/// A round key out of the basis of the rounds.
#[inline(always)]
pub(crate) fn key_from_basis(key: u8x16) -> u8x16
    ensures { result ≡ map key_from_basis key }
{
    by_halves(key, OUT_LO, OUT_HI) ^ u8x16::splat(0x63)
}

/// Each byte of a key in the basis through the S-box, in the basis and less a constant.
#[inline(always)]
pub(crate) fn substituted_once(v: u8x16) -> u8x16
    ensures { result ≡ map (by_inverse ONCE_I ONCE_J) v }
{
    let (i, j) = inverted(v);
    joined(i, j, ONCE_I, ONCE_J)
}

/// Each byte of a state in the basis through the S-box, and twice that, both in the basis and less a constant.
#[inline(always)]
pub(crate) fn substituted_in_basis(v: u8x16) -> (u8x16, u8x16)
    ensures once { result.0 ≡ map (by_inverse ONCE_I ONCE_J) v }
    ensures twice { result.1 ≡ map (by_inverse TWICE_I TWICE_J) v }
{
    let (i, j) = inverted(v);
    let once = joined(i, j, ONCE_I, ONCE_J);
    let twice = joined(i, j, TWICE_I, TWICE_J);
    (once, twice)
}

/// Each byte of a state in the basis through the S-box, out of the basis.
#[inline(always)]
pub(crate) fn substituted_from_basis(v: u8x16) -> u8x16
    ensures { result ≡ sub_bytes (map from_basis v) }
{
    let (i, j) = inverted(v);
    joined(i, j, LAST_I, LAST_J) ^ u8x16::splat(0x63)
}

/// Each byte through the inverse S-box.
#[inline(always)]
pub(crate) fn inverse_substituted(v: u8x16) -> u8x16
    ensures { result ≡ inverse_sub_bytes v }
{
    let (i, j) = inverted(by_halves(v, BACK_INTO_LO, BACK_INTO_HI));
    joined(i, j, BACK_I, BACK_J)
}
