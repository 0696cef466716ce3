//! Why an item of a PUSH_DATA is left out, in words for the log.

ghost use Rattle.std.specs.Prelude.{◌≡◌};

use crate::ForwarderFault;
use crate::item::{
    HIGHEST_FREQUENCY, LOWEST_FREQUENCY, counter_of, crc_of, hertz_of, rate_of, snr_of, tenths_at,
};
use ns_roster::field::text_at;
use serde_json::Value;

/// Why an item is left out, and the name of a field that is the reason.
#[derive(Clone, Copy)]
pub struct LeftOut {
    /// F7 to F10.
    pub fault: ForwarderFault,
    /// The field as it is named in the message. `data or size` if one of these two is wrong.
    pub field: &'static str,
}

// The field for which an item has no data rate of EU868.
fn rate_field(item: &Value) -> &'static str {
    match text_at(item, "modu") {
        Some(modulation) if modulation == "LORA" || modulation == "FSK" => "datr",
        _ => "modu",
    }
}

// The same of an item whose CRC fits and whose frequency and data rate are of EU868.
fn later_field(item: &Value, dr: u8) -> &'static str {
    if tenths_at(item, "rssi").is_none() {
        "rssi"
    } else if snr_of(item, dr).is_none() {
        "lsnr"
    } else if counter_of(item).is_none() {
        "tmst"
    } else {
        "data or size"
    }
}

// The field that is the reason why an item is left out.
fn field_of(item: &Value) -> &'static str {
    if crc_of(item).is_err() {
        return "stat";
    }
    let Some(freq) = hertz_of(item) else {
        return "freq";
    };
    let Ok(dr) = rate_of(item) else {
        return rate_field(item);
    };
    if freq < LOWEST_FREQUENCY || freq > HIGHEST_FREQUENCY {
        return "freq";
    }
    later_field(item, dr)
}

impl LeftOut {
    // An item that has this fault.
    pub(crate) fn of(item: &Value, fault: ForwarderFault) -> LeftOut
        ensures { result.fault ≡ fault }
    {
        LeftOut {
            fault,
            field: field_of(item),
        }
    }
}
