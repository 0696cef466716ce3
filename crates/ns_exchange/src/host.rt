//! The name of a join server's host.

ghost use Rattle.std.specs.Prelude.{◌≡◌, ◌≤◌, true, length, is_some, IfSome};
ghost use Rattle.ns_exchange.specs.Host.{is_host_name};

/// The name of a host: 1 to 255 visible bytes of ASCII.
#[derive(Clone, Copy)]
pub struct HostName<'a> {
    name: &'a str,
    ghost valid: { is_host_name name.now ≡ true },
}

// Whether a text names a host.
fn is_host_name(name: &[u8]) -> bool
    ensures { result ≡ is_host_name name.now }
{
    if name.is_empty() || name.len() > 255 {
        return false;
    }
    for byte in name {
        if !byte.is_ascii_graphic() {
            return false;
        }
    }
    true
}

impl<'a> HostName<'a> {
    ghost use Rattle.ns_exchange.specs.HostText.{host_text};

    /// The name of a host, or None where a text is none.
    pub fn new(name: &'a str) -> Option<HostName<'a>>
        ensures exact { is_some result ≡ is_host_name name.now }
        ensures same { IfSome result (λ host. host_text host ≡ name.now) }
    {
        if is_host_name(name.as_bytes()) {
            Some(HostName { name })
        } else {
            None
        }
    }

    /// The name.
    pub fn as_str(&self) -> &'a str
        ensures same { result.now ≡ host_text self.now }
        ensures valid { is_host_name (host_text self.now) ≡ true }
        ensures short { length result.now ≤ 255 }
    {
        self.name
    }
}
