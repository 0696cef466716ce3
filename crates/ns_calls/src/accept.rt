//! A Join-Accept as it came.

ghost use Rattle.std.specs.Prelude.{◌≡◌, ◌≤◌, length, IfSome};
ghost use Rattle.ns_calls.specs.Accept.{accept_bytes, accept_of};

/// A Join-Accept as a join server gave it, enciphered (LoRaWAN L2 1.0.4, 6.2.6).
#[derive(Clone, Copy, Debug, PartialEq, Eq)]
pub enum JoinAccept {
    Plain([u8; 17]),
    /// With a list of channel frequencies (CFList).
    WithChannels([u8; 33]),
}

impl JoinAccept {
    /// These bytes, where there are 17 or 33, else none.
    pub fn of(bytes: &[u8]) -> Option<JoinAccept>
        ensures is { result ≡ accept_of bytes.now }
        ensures bytes { IfSome result (λ accept. accept_bytes accept ≡ bytes.now) }
    {
        if bytes.len() == 17 {
            let mut plain = [0; 17];
            plain.copy_from_slice(bytes);
            Some(JoinAccept::Plain(plain))
        } else if bytes.len() == 33 {
            let mut with_channels = [0; 33];
            with_channels.copy_from_slice(bytes);
            Some(JoinAccept::WithChannels(with_channels))
        } else {
            None
        }
    }

    /// The bytes, from MHDR to MIC.
    pub fn as_slice(&self) -> &[u8]
        ensures bytes { result.now ≡ accept_bytes self.now }
        ensures size { length result.now ≤ 33 }
    {
        match self {
            JoinAccept::Plain(bytes) => bytes,
            JoinAccept::WithChannels(bytes) => bytes,
        }
    }
}
