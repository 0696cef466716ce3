//! AES-128 and AES-CMAC (FIPS 197, RFC 4493).

use crate::frames::answers::Answers;
use crate::frames::ask::Ask;
use ns_aes_cmac::{Aes128, Cmac, LentCmac};
use ns_types::Key;

/// key, block, beside: the block enciphered alone; it and the other one enciphered side by side; and the first deciphered.
pub fn aes(ask: Ask, out: &mut Answers) {
    let cipher = Aes128::new(&ask.key("key"));
    let block = ask.array("block");
    let enciphered = cipher.encrypt(&block);
    let (first, second) = cipher.encrypt_two(&block, &ask.array("beside"));
    out.all(&[&enciphered, &first, &second, &cipher.decrypt(&enciphered)]);
}

/// key, message: the code of the message, whole, once more under the same expanded key, and byte by byte under the key itself; and
/// whether it is that of the message cut in three pieces, wherever it is cut.
pub fn cmac(ask: Ask, message: &[u8], out: &mut Answers) {
    let key = ask.key("key");
    let cipher = Aes128::new(&key);
    let code = code_of(&cipher, message);
    let again = code_of(&cipher, message);
    out.all(&[&code, &again, &code_by_bytes(&key, message)]);
    let is_code = is_code_however_cut(&cipher, message, &code);
    out.either(is_code, "cut", "cut otherwise");
}

// The code of a message that comes whole.
fn code_of(cipher: &Aes128, message: &[u8]) -> [u8; 16] {
    let mut cmac = LentCmac::new(cipher);
    cmac.update(message);
    cmac.finish()
}

// The code of a message that comes byte by byte.
fn code_by_bytes(key: &Key, message: &[u8]) -> [u8; 16] {
    let mut cmac = Cmac::new(key);
    for byte in message {
        cmac.update(&[*byte]);
    }
    cmac.finish()
}

// The code of a message in three pieces.
fn code_of_three(cipher: &Aes128, first: &[u8], second: &[u8], third: &[u8]) -> [u8; 16] {
    let mut cmac = LentCmac::new(cipher);
    cmac.update(first);
    cmac.update(second);
    cmac.update(third);
    cmac.finish()
}

// Whether the message in three pieces has this code, wherever it is cut.
fn is_code_however_cut(cipher: &Aes128, message: &[u8], code: &[u8; 16]) -> bool {
    for end in 0..=message.len() {
        let (front, third) = message.split_at(end);
        for start in 0..=front.len() {
            let (first, second) = front.split_at(start);
            if code_of_three(cipher, first, second, third) != *code {
                return false;
            }
        }
    }
    true
}
