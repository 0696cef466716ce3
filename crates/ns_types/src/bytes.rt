//! Bytes, a part at a time.

ghost use Rattle.std.specs.Prelude.{◌≡◌, ◌+◌, ◌≤◌, length, take, drop};

/// The N bytes from a place on.
pub fn array_at<const N: usize>(bytes: &[u8], from: usize) -> [u8; N]
    requires { from + N ≤ length bytes.now }
    ensures { result ≡ take N (drop from bytes.now) }
{
    let mut part = [0; N];
    part.copy_from_slice(&bytes[from..from + N]);
    part
}
