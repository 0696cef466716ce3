//! The recorded run: its steps, and the lines that are written of them.

use ns_device::worked::{ANSWER, CLOSE, JOIN, JOIN_2, UNKNOWN, UPLINK, UPLINK_2};

/// A device joins, two gateways hear an uplink of it, and it joins anew, with the later of two Join-Requests answered first.
pub const STEPS: &[&str] = &[
    JOIN,
    JOIN_2,
    UNKNOWN,
    ANSWER,
    ANSWER,
    UPLINK,
    UPLINK_2,
    CLOSE,
    CLOSE,
    UPLINK,
    JOIN,
    "heard 010100000000000000a100000000000f424033be27a005fc4a004b170004030201040302010d00000000000000050005000000\n",
    "heard 010100000000000000a100000000000f424033be27a005fc4a004b170004030201040302010d00000000000000060006000000\n",
    "answer 0004030201040302010d00000000000000060006000000 {\"AppSKey\":{\"AESKey\":\"ec925802ae430ca77fd3dd73cb2cc588\",\"KEKLabel\":\"\"},\"MessageType\":\"JoinAns\",\"NwkSKey\":{\"AESKey\":\"2b7e151628aed2a6abf7158809cf4f3c\",\"KEKLabel\":\"\"},\"PHYPayload\":\"20000102030405060708090a0b0c0d0e0f\",\"Result\":{\"ResultCode\":\"Success\"},\"TransactionID\":6}\n",
    "answer 0004030201040302010d00000000000000050005000000 {\"AppSKey\":{\"AESKey\":\"ec925802ae430ca77fd3dd73cb2cc588\",\"KEKLabel\":\"\"},\"MessageType\":\"JoinAns\",\"NwkSKey\":{\"AESKey\":\"44024241ed4ce9a68c6a8bc055233fd3\",\"KEKLabel\":\"\"},\"PHYPayload\":\"20000102030405060708090a0b0c0d0e0f\",\"Result\":{\"ResultCode\":\"Success\"},\"TransactionID\":5}\n",
];

pub const LINES: &str = "\
ask 0004030201040302010d00000000000000010001000000
joincopied 2
nodevice
accepted 000000000000000d 1 49be7df1
down 00000000000000a2 6001000 868100000 5 20000102030405060708090a0b0c0d0e0f
noticket
opened 000000000000000d 1 2
copied 000000000000000d 1 2 2
closed 000000000000000d 1 2 -
up 000000000000000d 1 2 1 plain - 74657374 2 00000000000000a1,00000000000000a2
nowindow
old 000000000000000d 1 2
nonceold 1
ask 0004030201040302010d00000000000000050005000000
ask 0004030201040302010d00000000000000060006000000
accepted 000000000000000d 2 49be7df1
down 00000000000000a1 6000000 868100000 5 20000102030405060708090a0b0c0d0e0f
joinstale 6
";
