//! The data rates of EU868 (RP002).
ghost use Rattle.std.specs.Prelude.{◌≡◌};
ghost use Rattle.ns_events.specs.Lora.{lora_of};

/// A data rate of LoRa.
#[derive(Clone, Copy)]
pub(crate) struct Lora {
    /// The spreading factor.
    pub factor: u8,
    /// The bandwidth, in Hz.
    pub bandwidth: u32,
}

impl Lora {
    /// What a data rate is, where it is LoRa: DR0 to DR6.
    pub fn of(dr: u8) -> Option<Lora>
        ensures { result ≡ lora_of dr }
    {
        match dr {
            0..=5 => Some(Lora {
                factor: 12 - dr,
                bandwidth: 125_000,
            }),
            6 => Some(Lora {
                factor: 7,
                bandwidth: 250_000,
            }),
            _ => None,
        }
    }
}
