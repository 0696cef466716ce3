//! The 32-bit frame counter, recovered from the 16 bits that a frame carries (LoRaWAN L2 1.0.4, 4.3.1.5).

ghost use Rattle.std.specs.Prelude.{◌≡◌};
ghost use Rattle.ns_secure.specs.Counter.{above, below, IsAbove, IsBelow};

/// The least counter above `max` whose low half is `low`: `low` itself where there is no `max`, and none where there is
/// no such counter of 32 bits.
pub fn above(max: Option<u32>, low: u16) -> Option<u32>
    ensures is { result ≡ above max low }
    ensures least { IsAbove max low result }
{
    let Some(max) = max else {
        return Some(low as u32);
    };
    let same = max / 65536 * 65536 + low as u32;
    if same > max {
        Some(same)
    } else {
        same.checked_add(65536)
    }
}

/// The greatest counter of at most `max` whose low half is `low`: none where there is no `max` or no such counter.
pub fn below(max: Option<u32>, low: u16) -> Option<u32>
    ensures is { result ≡ below max low }
    ensures greatest { IsBelow max low result }
{
    let max = max?;
    let same = max / 65536 * 65536 + low as u32;
    if same <= max {
        Some(same)
    } else {
        same.checked_sub(65536)
    }
}
