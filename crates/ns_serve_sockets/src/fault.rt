//! Want of memory, told in the log.
ghost use Rattle.std.specs.Prelude.{◌≡◌};

use ns_log::{Log, error};
use ns_serve_parts::ServeFault;

/// Want of memory for something, which is logged.
pub fn no_memory<R: Log>(rt: &R, what: &str) -> ServeFault
    ensures { result ≡ ServeFault.NoMemory }
{
    error!(rt; "no memory for {what}");
    ServeFault::NoMemory
}
