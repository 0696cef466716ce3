//! Fewer steps take the place of those of a record.
ghost use Rattle.std.specs.Prelude.{◌≡◌, ◌⊎◌, Option, OnOk, OnErr};
ghost use Rattle.std.specs.Option.{option_map};
ghost use Rattle.ns_record_files.specs.Swap.{Turns, turns, new_safe, named, lasting, SwapsKnown, IsSwapped};

use ns_types::Failed;

/// A folder with the steps of a record, which are on the disk, and with new ones that are written whole.
pub trait Swap {
    // What the folder has been at each moment so far, where that is told.
    ghost moments: { Self → Option Turns };

    /// From then on no crash takes away a byte of the new steps.
    fn sync_new(&mut self) -> Result<(), Failed>
        ensures ok { OnOk result (moments self.new ≡ option_map (turns new_safe) (moments self.old)) }
        ensures same { OnErr result (moments self.new ≡ moments self.old) };

    /// Gives the new steps the name of the old.
    fn rename(&mut self) -> Result<(), Failed>
        ensures ok { OnOk result (moments self.new ≡ option_map (turns named) (moments self.old)) }
        ensures any { OnErr result ((moments self.new ≡ moments self.old) ⊎ (moments self.new ≡ option_map (turns named) (moments self.old))) };

    /// From then on no crash takes a name back.
    fn sync_names(&mut self) -> Result<(), Failed>
        ensures ok { OnOk result (moments self.new ≡ option_map (turns lasting) (moments self.old)) }
        ensures same { OnErr result (moments self.new ≡ moments self.old) };
}

/// Gives new steps the name of the old, where the old still have it: at each moment a crash leaves all of the old, or all of the new, and
/// at `Ok` all of the new.
pub fn swap_in<S: Swap>(folder: &mut S) -> Result<(), Failed>
    ensures any { SwapsKnown (S.moments folder.old) (S.moments folder.new) }
    ensures ok { OnOk result (IsSwapped (S.moments folder.old) (S.moments folder.new)) }
{
    folder.sync_new()?;
    folder.rename()?;
    folder.sync_names()?;
    Ok(())
}
