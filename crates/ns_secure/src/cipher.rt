//! The cipher of FRMPayload (LoRaWAN L2 1.0.4, 4.3.3).

ghost use Rattle.std.specs.Prelude.{◌≡◌, ◌≤◌, ◌++◌, length, drop};
ghost use Rattle.ns_aes_cmac.specs.Aes.{xor_bytes};
ghost use Rattle.ns_secure.specs.Cipher.{cipher};

use crate::Dir;
use crate::block::FrameBlocks;
use ns_aes_cmac::Aes128;
use ns_types::{DevAddr, Key};

/// Enciphers a payload, or deciphers it, which is the same: each byte is XORed with its byte of the key stream.
/// The payload has at most 242 bytes. `key` is the NwkSKey for port 0, else the AppSKey; `counter` is the whole 32-bit
/// counter.
pub fn cipher_in_place(payload: &mut [u8], key: &Key, dir: Dir, addr: DevAddr, counter: u32)
    requires { length payload.old ≤ 242 }
    ensures { payload.new ≡ cipher key.now.0 dir addr.0 counter payload.old }
{
    let aes = Aes128::new(key);
    let blocks = FrameBlocks { dir, addr, counter };
    let count = payload.len().div_ceil(16);
    for pair in 0..count / 2 {
        let i = (2 * pair + 1) as u8;
        let (first, second) = aes.encrypt_two(&blocks.a(i), &blocks.a(i + 1));
        xor_block(&mut payload[32 * pair..], &first);
        xor_block(&mut payload[32 * pair + 16..], &second);
    }
    if count % 2 == 1 {
        let last = aes.encrypt(&blocks.a(count as u8));
        xor_block(&mut payload[16 * (count - 1)..], &last);
    }
}

/// XORs a block of the key stream into the first 16 bytes, or into all where there are fewer.
fn xor_block(bytes: &mut [u8], stream: &[u8; 16])
    ensures { bytes.new ≡ xor_bytes bytes.old stream.now ++ drop 16 bytes.old }
{
    for i in 0..bytes.len().min(16) {
        bytes[i] ^= stream[i];
    }
}
