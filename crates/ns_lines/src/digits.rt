//! Hex digits written side by side.

ghost use Rattle.std.specs.Prelude.{◌≡◌, ◌∷◌, [], map, length, IsAscii};
ghost use Rattle.hex.specs.Hex.{encode_lower, lower_digits};
ghost use Rattle.ns_aes_cmac.specs.Lookups.{look_at, ArePlaces};

use std::simd::prelude::*;

const DIGITS: [u8; 16] = *b"0123456789abcdef";

// Each digit's character.
#[inline(always)]
fn characters(digits: u8x16) -> u8x16
    requires { ArePlaces digits }
    ensures { result ≡ map (look_at lower_digits) digits }
{
    u8x16::from_array(DIGITS).swizzle_dyn_within::<16>(digits)
}

// The characters of eight bytes.
#[inline(always)]
fn text_of(bytes: u8x8) -> u8x16
    ensures { result ≡ encode_lower bytes }
{
    let high = bytes >> u8x8::splat(4);
    let low = bytes & u8x8::splat(15);
    let digits: u8x16 = high.shuffle(low, [0, 8, 1, 9, 2, 10, 3, 11, 4, 12, 5, 13, 6, 14, 7, 15]);
    characters(digits)
}

/// The text of eight bytes in lower-case hex.
#[inline(always)]
pub(crate) fn digits_of_eight(bytes: &[u8]) -> [u8; 16]
    requires { length bytes.now ≡ 8 }
    ensures text { result ≡ encode_lower bytes.now }
    ensures ascii { IsAscii result }
{
    text_of(u8x8::from_slice(bytes)).to_array()
}

/// The text of four bytes in lower-case hex.
#[inline(always)]
pub(crate) fn digits_of_four(bytes: &[u8]) -> [u8; 8]
    requires { length bytes.now ≡ 4 }
    ensures text { result ≡ encode_lower bytes.now }
    ensures ascii { IsAscii result }
{
    // (of eight bytes, of which the others are not looked at)
    let eight = u8x8::from_array([bytes[0], bytes[1], bytes[2], bytes[3], 0, 0, 0, 0]);
    text_of(eight).extract::<0, 8>().to_array()
}

/// The text of one byte in lower-case hex.
#[inline(always)]
#[tactic(auto, unfolding(hex::specs::Hex::encode_with))]
pub(crate) fn digits_of_byte(byte: u8) -> [u8; 2]
    ensures text { result ≡ encode_lower (byte ∷ []) }
    ensures ascii { IsAscii result }
{
    [DIGITS[(byte / 16) as usize], DIGITS[(byte % 16) as usize]]
}
