//! The keys of a session (LoRaWAN L2 1.0.4, 6.2.6).

ghost use Rattle.std.specs.Prelude.{◌≡◌};
ghost use Rattle.ns_secure.specs.Keys.{nwk_s_key, app_s_key};

use ns_aes_cmac::Aes128;
use ns_types::{DevNonce, Key, NetId};

/// The NwkSKey and the AppSKey of the session that a Join-Accept begins: `join_nonce` as its three bytes in the frame,
/// the NetID's 24 bits, and the DevNonce of the Join-Request.
pub fn session_keys(
    app_key: &Key,
    join_nonce: [u8; 3],
    net_id: NetId,
    dev_nonce: DevNonce,
) -> (Key, Key)
    ensures nwk_s_key { result.0.0 ≡ nwk_s_key app_key.now.0 join_nonce net_id.0 dev_nonce.0 }
    ensures app_s_key { result.1.0 ≡ app_s_key app_key.now.0 join_nonce net_id.0 dev_nonce.0 }
{
    let [a, b, c] = join_nonce;
    let [d, e, f, _] = net_id.0.to_le_bytes();
    let [g, h] = dev_nonce.0.to_le_bytes();
    let network = [1, a, b, c, d, e, f, g, h, 0, 0, 0, 0, 0, 0, 0];
    let application = [2, a, b, c, d, e, f, g, h, 0, 0, 0, 0, 0, 0, 0];
    let (nwk_s_key, app_s_key) = Aes128::new(app_key).encrypt_two(&network, &application);
    (Key(nwk_s_key), Key(app_s_key))
}
