//! Hex digits read side by side, in vectors of sixteen.

ghost use Rattle.std.specs.Prelude.{◌≡◌, ◌<◌, ◌↔◌, map, length, IsTrue, IfSome, IfNone};
ghost use Rattle.std.specs.Simd.Lanes.{Each1};
ghost use Rattle.ns_aes_cmac.specs.Lookups.{look_at, ArePlaces, low_half, high_half};
ghost use Rattle.ns_steps.specs.Private.HexDigits.{value_or_more, AreDigits, bytes_of};

use std::simd::prelude::*;

// What is added to the low half of a digit, by its high half.
const ADDENDS: [u8; 16] = [0, 0, 0, 0, 9, 0, 9, 0, 0, 0, 0, 0, 0, 0, 0, 0];

// Which kind of digits a high half is of: 16 for those from 0 to 9, 32 for letters, and 64 for none.
const FAULTS_HIGH: [u8; 16] = [
    64, 64, 64, 16, 32, 64, 32, 64, 64, 64, 64, 64, 64, 64, 64, 64,
];

// Of which of these kinds a low half is none.
const FAULTS_LOW: [u8; 16] = [
    96, 64, 64, 64, 64, 64, 64, 96, 96, 96, 112, 112, 112, 112, 112, 112,
];

// Each byte of a table at a place below 16.
#[inline(always)]
fn look(table: [u8; 16], places: u8x16) -> u8x16
    requires { ArePlaces places }
    ensures { result ≡ map (look_at table) places }
{
    u8x16::from_array(table).swizzle_dyn_within::<16>(places)
}

#[inline(always)]
fn low_halves(text: u8x16) -> u8x16
    ensures { result ≡ map low_half text }
{
    text & u8x16::splat(15)
}

#[inline(always)]
fn high_halves(text: u8x16) -> u8x16
    ensures { result ≡ map high_half text }
{
    text >> u8x16::splat(4)
}

// The value of each hex digit, in either case, and 16 or more where a byte is none.
#[inline(always)]
fn values(text: u8x16) -> u8x16
    ensures { result ≡ map value_or_more text }
{
    let low = low_halves(text);
    let high = high_halves(text);
    let sums = low + look(ADDENDS, high);
    sums | (look(FAULTS_HIGH, high) & look(FAULTS_LOW, low))
}

// Whether each lane is the value of a digit.
#[inline(always)]
fn are_digits(values: u8x16) -> bool
    ensures { IsTrue result ↔ Each1 (λ v. v < 16) values }
{
    values.simd_ge(u8x16::splat(16)).to_bitmask() == 0
}

// The bytes of 32 hex digits, in either case: none where one of them is no digit.
#[inline(always)]
pub(crate) fn sixteen_bytes(text: &[u8]) -> Option<[u8; 16]>
    requires { length text.now ≡ 32 }
    ensures read { IfSome result (λ bytes. AreDigits text.now × (bytes ≡ bytes_of text.now)) }
    ensures refused { IfNone result (¬ (AreDigits text.now)) }
{
    let front = values(u8x16::from_slice(text));
    let back = values(u8x16::from_slice(&text[16..]));
    if !are_digits(front | back) {
        return None;
    }
    let high = front.shuffle(
        back,
        [0, 2, 4, 6, 8, 10, 12, 14, 16, 18, 20, 22, 24, 26, 28, 30],
    );
    let low = front.shuffle(
        back,
        [1, 3, 5, 7, 9, 11, 13, 15, 17, 19, 21, 23, 25, 27, 29, 31],
    );
    Some(((high << u8x16::splat(4)) + low).to_array())
}
