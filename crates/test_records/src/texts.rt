//! What faults and keys print as.

use crate::rows::holds;
use ns_shard::TrimFault;
use ns_types::Key;
use std::alloc::Global;

// What each fault of a trim prints: its number.
const FAULTS: &[(TrimFault, &str)] = &[(TrimFault::Full, "Z1"), (TrimFault::NoMemory, "Z2")];

// Whether a fault prints this text.
fn prints(alloc: Global, fault: TrimFault, text: &str) -> bool {
    match format!(in alloc; "{fault}") {
        Ok(printed) => printed.as_str() == text,
        Err(_) => false,
    }
}

// Whether a key prints none of its bytes.
fn is_hidden(alloc: Global, key: Key) -> bool {
    match format!(in alloc; "{key:?}") {
        Ok(printed) => printed.as_str() == "Key(..)",
        Err(_) => false,
    }
}

#[test]
fn faults_print_numbers_and_keys_no_bytes(rt: HostRuntime) {
    let mut number = 1;
    for &(fault, text) in FAULTS {
        number = holds(&rt, prints(rt.alloc(), fault, text), number);
    }
    assert!(rt; is_hidden(rt.alloc(), Key([7; 16])));
}
