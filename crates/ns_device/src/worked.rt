//! The run that many tests share, as texts: a device joins and sends an uplink, and gateways a1 and a2 hear it. Steps and `up` lines are those
//! of FORMATS, each with its line feed.

use ns_roster::Roster;
use std::alloc::Global;
use std::sync::Arc;

/// The roster: the device, of network 000024.
pub const ROSTER: &str =
    r#"{"version":1,"net_id":"000024","rx1_offset":0,"rx_delay":1,"devices":[{"dev_eui":"000000000000000d","join_eui":"0102030401020304","slot":1998321}]}"#;

/// A datagram before its frame: gateway a1 hears at moment 1,000,000 on 868.1 MHz at DR5, with -95 dBm and an SNR of 7.5 dB.
pub const HEAD: [u8; 27] = [
    1, 1, 0, 0, 0, 0, 0, 0, 0, 0xa1, 0, 0, 0, 0, 0, 0x0f, 0x42, 0x40, 0x33, 0xbe, 0x27, 0xa0, 5,
    0xfc, 0x4a, 0, 0x4b,
];

/// The same of gateway a2, which hears 1 ms later, with -100 dBm and an SNR of 8 dB.
pub const HEAD_2: [u8; 27] = [
    1, 1, 0, 0, 0, 0, 0, 0, 0, 0xa2, 0, 0, 0, 0, 0, 0x0f, 0x46, 0x28, 0x33, 0xbe, 0x27, 0xa0, 5,
    0xfc, 0x18, 0, 0x50,
];

/// The device's Join-Request with nonce 1, as gateway a1 heard it.
pub const JOIN: &str =
    "heard 010100000000000000a100000000000f424033be27a005fc4a004b170004030201040302010d00000000000000010001000000\n";

/// The same as gateway a2 heard it.
pub const JOIN_2: &str =
    "heard 010100000000000000a200000000000f462833be27a005fc180050170004030201040302010d00000000000000010001000000\n";

/// The Join-Request of a device that the roster does not have, as gateway a1 heard it.
pub const UNKNOWN: &str =
    "heard 010100000000000000a100000000000f424033be27a005fc4a004b170004030201040302010e00000000000000010001000000\n";

/// The join server's answer to the device's Join-Request: a Join-Accept and both session keys, each with an empty KEKLabel.
pub const ANSWER: &str =
    "answer 0004030201040302010d00000000000000010001000000 {\"AppSKey\":{\"AESKey\":\"ec925802ae430ca77fd3dd73cb2cc588\",\"KEKLabel\":\"\"},\"MessageType\":\"JoinAns\",\"NwkSKey\":{\"AESKey\":\"44024241ed4ce9a68c6a8bc055233fd3\",\"KEKLabel\":\"\"},\"PHYPayload\":\"20000102030405060708090a0b0c0d0e0f\",\"Result\":{\"ResultCode\":\"Success\"},\"TransactionID\":1}\n";

/// The same as a record keeps it: without KEKLabel.
pub const KEPT_ANSWER: &str =
    "answer 0004030201040302010d00000000000000010001000000 {\"AppSKey\":{\"AESKey\":\"ec925802ae430ca77fd3dd73cb2cc588\"},\"MessageType\":\"JoinAns\",\"NwkSKey\":{\"AESKey\":\"44024241ed4ce9a68c6a8bc055233fd3\"},\"PHYPayload\":\"20000102030405060708090a0b0c0d0e0f\",\"Result\":{\"ResultCode\":\"Success\"},\"TransactionID\":1}\n";

/// The uplink with counter 2 and the payload `test` on port 1, unconfirmed, as gateway a1 heard it.
pub const UPLINK: &str =
    "heard 010100000000000000a100000000000f424033be27a005fc4a004b1140f17dbe4900020001954378762b11ff0d\n";

/// The same as gateway a2 heard it.
pub const UPLINK_2: &str =
    "heard 010100000000000000a200000000000f462833be27a005fc1800501140f17dbe4900020001954378762b11ff0d\n";

/// The confirmed uplink with counter 2 and the same payload, as gateway a1 heard it.
pub const CONFIRMED: &str =
    "heard 010100000000000000a100000000000f424033be27a005fc4a004b1180f17dbe4900020001954378766723abef\n";

/// The closing of the window of the uplink with counter 2.
pub const CLOSE: &str = "close 000000000000000d 1 2\n";

/// The uplink's `up` line where gateway a1 alone heard it.
pub const UP: &str = "up 000000000000000d 1 2 1 plain - 74657374 1 00000000000000a1\n";

/// The roster of this text, if it is one and there is memory for it.
pub fn roster_of(alloc: Global, text: &str) -> Option<Arc<Roster>> {
    let roster = Roster::read(alloc, text.as_bytes()).ok()?;
    Arc::new(alloc, roster).ok()
}
