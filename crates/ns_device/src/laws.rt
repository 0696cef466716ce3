//! The law of a join, as the contract of a function that does nothing.

ghost use Rattle.ns_device.specs.Laws.{CreatedAcceptsAreTaken};

use ns_aes_cmac::ciphers_undo_each_other;

/// A device takes each Join-Accept that `JoinAcceptCreator` makes under its AppKey, and its session then has the address
/// and exactly the `session_keys` of the fields.
pub fn created_accepts_are_taken()
    ensures { CreatedAcceptsAreTaken }
{
    ciphers_undo_each_other();
}
