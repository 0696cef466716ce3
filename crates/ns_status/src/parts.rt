//! Texts that are put one behind the other.

ghost use Rattle.std.specs.Prelude.{◌≡◌, ◌++◌, string_bytes, OnOk};
ghost use Rattle.ns_status.specs.Parts.{parts_text};

use std::alloc::AllocError;

// Puts these parts, one behind the other.
pub(crate) fn put_parts(text: &mut String, parts: &[&str]) -> Result<(), AllocError>
    ensures { OnOk result (string_bytes text.new ≡ string_bytes text.old ++ parts_text parts.now) }
{
    for part in parts {
        text.push_str(part)?;
    }
    Ok(())
}
