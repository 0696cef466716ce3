//! The MIC of a data frame (LoRaWAN L2 1.0.4, 4.4) and of a Join frame (6.2.5, 6.2.6).

ghost use Rattle.std.specs.Prelude.{◌≡◌, ◌≤◌, length, take, bytes_eq};
ghost use Rattle.ns_secure.specs.Integrity.{mic, mic_fits, join_mic};

use crate::Dir;
use crate::block::FrameBlocks;
use ns_aes_cmac::{Aes128, Cmac, LentCmac};
use ns_types::{DevAddr, Key, Mic};
use ns_views::DataView;

/// The MIC of a data frame under the NwkSKey `key`: `signed` is the frame without it, at most 251 bytes, and `counter`
/// the whole 32-bit counter.
pub fn mic_of(key: &Key, dir: Dir, addr: DevAddr, counter: u32, signed: &[u8]) -> Mic
    requires { length signed.now ≤ 251 }
    ensures { result.0 ≡ mic key.now.0 dir addr.0 counter signed.now }
{
    mic_under(&Aes128::new(key), dir, addr, counter, signed)
}

/// What `mic_of` gives, under a key that is expanded already.
pub fn mic_under(key: &Aes128, dir: Dir, addr: DevAddr, counter: u32, signed: &[u8]) -> Mic
    requires { length signed.now ≤ 251 }
    ensures { result.0 ≡ mic key.now dir addr.0 counter signed.now }
{
    let blocks = FrameBlocks { dir, addr, counter };
    let mut cmac = LentCmac::new(key);
    cmac.update(&blocks.b0(signed.len() as u8));
    cmac.update(signed);
    front(cmac.finish())
}

/// Whether the MIC of an uplink is that of the NwkSKey `key` at this whole 32-bit counter.
pub fn mic_fits(view: &DataView, key: &Key, counter: u32) -> bool
    ensures { result ≡ mic_fits view.now key.now.0 counter }
{
    mic_fits_under(view, &Aes128::new(key), counter)
}

/// What `mic_fits` gives, under a key that is expanded already, as for one key at several counters.
pub fn mic_fits_under(view: &DataView, key: &Aes128, counter: u32) -> bool
    ensures { result ≡ mic_fits view.now key.now counter }
{
    let mic = mic_under(key, Dir::Up, view.dev_addr(), counter, view.signed());
    is_same(&mic, &view.mic())
}

// Whether two MICs are the same. Their bytes are compared one by one, since `==` would call the comparison of slices.
#[inline(always)]
fn is_same(one: &Mic, other: &Mic) -> bool
    ensures { result ≡ bytes_eq one.now.0 other.now.0 }
{
    let [a, b, c, d] = one.0;
    let [e, f, g, h] = other.0;
    a == e && b == f && c == g && d == h
}

/// The MIC of a Join-Request, or of a Join-Accept: `signed` is all plain bytes before it.
pub fn join_mic_of(app_key: &Key, signed: &[u8]) -> Mic
    ensures { result.0 ≡ join_mic app_key.now.0 signed.now }
{
    let mut cmac = Cmac::new(app_key);
    cmac.update(signed);
    front(cmac.finish())
}

/// The first four bytes of a code.
fn front(code: [u8; 16]) -> Mic
    ensures { result.0 ≡ take 4 code }
{
    let [a, b, c, d, ..] = code;
    Mic([a, b, c, d])
}
