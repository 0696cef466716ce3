//! MICs, payloads, session keys, Join-Accepts and counters (LoRaWAN L2 1.0.4, 4.3.1.5, 4.3.3, 4.4 and 6.2.6).

use crate::frames::answers::Answers;
use crate::frames::ask::Ask;
use ns_aes_cmac::Aes128;
use ns_secure::{
    above, accept_cipher_in_place, accept_decipher_in_place, below, cipher_in_place, join_mic_of,
    mic_fits, mic_fits_under, mic_of, mic_under, session_keys,
};
use ns_types::{DevNonce, NetId};
use ns_views::{PhyView, parts_mut, view};

/// key, dir, addr, counter, signed: the MIC, by the key and by the expanded key.
pub fn mic(ask: Ask, signed: &[u8], out: &mut Answers) {
    if signed.len() <= 251 {
        let (key, counter) = (ask.key("key"), ask.number("counter"));
        out.hex(&mic_of(&key, ask.dir(), ask.addr(), counter, signed).0);
        let under = mic_under(&Aes128::new(&key), ask.dir(), ask.addr(), counter, signed);
        out.hex(&under.0);
    }
}

/// key, counter, frame: whether the MIC of an uplink fits, by the key and by the expanded key.
pub fn fits(ask: Ask, frame: &[u8], out: &mut Answers) {
    if let Ok(PhyView::Frame(frame)) = view(frame) {
        let (key, counter) = (ask.key("key"), ask.number("counter"));
        out.either(mic_fits(&frame, &key, counter), "yes", "no");
        out.either(
            mic_fits_under(&frame, &Aes128::new(&key), counter),
            "yes",
            "no",
        );
    }
}

/// key, dir, addr, counter, payload: the payload enciphered.
pub fn cipher(ask: Ask, payload: &mut [u8], out: &mut Answers) {
    if payload.len() <= 242 {
        cipher_in_place(
            payload,
            &ask.key("key"),
            ask.dir(),
            ask.addr(),
            ask.number("counter"),
        );
        out.hex(payload);
    }
}

/// key, dir, addr, counter, frame: an uplink with its payload deciphered in place.
pub fn decipher(ask: Ask, frame: &mut [u8], out: &mut Answers) {
    let (key, dir, addr, counter) = (ask.key("key"), ask.dir(), ask.addr(), ask.number("counter"));
    let lent = parts_mut(frame, |_header, _options, payload| {
        if payload.len() <= 242 {
            cipher_in_place(payload, &key, dir, addr, counter);
        }
    });
    out.either(lent.is_ok(), "lent", "not lent");
    out.hex(frame);
}

/// root, join_nonce, net_id, nonce: the NwkSKey and the AppSKey.
pub fn session(ask: Ask, out: &mut Answers) {
    let net_id = NetId(ask.number("net_id"));
    let nonce = DevNonce(ask.number("nonce"));
    let (nwk, app) = session_keys(&ask.key("root"), ask.array("join_nonce"), net_id, nonce);
    out.hex(&nwk.0);
    out.hex(&app.0);
}

/// root, signed: the MIC of a Join-Request or of a Join-Accept.
pub fn join_mic(ask: Ask, signed: &[u8], out: &mut Answers) {
    out.hex(&join_mic_of(&ask.key("root"), signed).0);
}

/// root, plain: what follows the MHDR of a Join-Accept with a CFList, enciphered, and that deciphered.
pub fn accept_cipher(ask: Ask, out: &mut Answers) {
    let (root, mut accept) = (ask.key("root"), ask.array::<32>("plain"));
    accept_cipher_in_place(&mut accept, &root);
    out.hex(&accept);
    accept_decipher_in_place(&mut accept, &root);
    out.hex(&accept);
}

/// max, low: the counter with these low 16 bits that is next above the greatest one, and the greatest that is not above it.
pub fn counter(ask: Ask, out: &mut Answers) {
    let (max, low) = (ask.option("max"), ask.number("low"));
    out.option(above(max, low));
    out.option(below(max, low));
}
