//! The cipher of a Join-Accept (LoRaWAN L2 1.0.4, 6.2.6).

ghost use Rattle.std.specs.Prelude.{◌≡◌, ◌+◌, ◌*◌, ◌%◌, ◌≤◌, length};
ghost use Rattle.ns_aes_cmac.specs.Cmac.{block};
ghost use Rattle.ns_secure.specs.Cipher.{accept_cipher, accept_decipher};

use ns_aes_cmac::Aes128;
use ns_types::Key;

/// Enciphers what follows the MHDR of a Join-Accept, 16 or 32 bytes, as the server does: its blocks are deciphered by
/// AES-128.
pub fn accept_cipher_in_place(plain: &mut [u8], app_key: &Key)
    requires { length plain.old % 16 ≡ 0 }
    ensures { plain.new ≡ accept_cipher app_key.now.0 plain.old }
{
    let aes = Aes128::new(app_key);
    for i in 0..plain.len() / 16 {
        let block = aes.decrypt(&block_at(plain, i));
        plain[16 * i..16 * i + 16].copy_from_slice(&block);
    }
}

/// Deciphers what follows the MHDR of a Join-Accept, 16 or 32 bytes, as the device does: its blocks are enciphered by
/// AES-128.
pub fn accept_decipher_in_place(enciphered: &mut [u8], app_key: &Key)
    requires { length enciphered.old % 16 ≡ 0 }
    ensures { enciphered.new ≡ accept_decipher app_key.now.0 enciphered.old }
{
    let aes = Aes128::new(app_key);
    for i in 0..enciphered.len() / 16 {
        let block = aes.encrypt(&block_at(enciphered, i));
        enciphered[16 * i..16 * i + 16].copy_from_slice(&block);
    }
}

/// Block `i`, counted from 0.
fn block_at(bytes: &[u8], i: usize) -> [u8; 16]
    requires { 16 * i + 16 ≤ length bytes.now }
    ensures { result ≡ block bytes.now i }
{
    let mut block = [0; 16];
    block.copy_from_slice(&bytes[16 * i..16 * i + 16]);
    block
}
