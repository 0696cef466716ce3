//! The two files of a record as a writer sees them.
ghost use Rattle.std.specs.Prelude.{◌≡◌, List, ℕ, Option, OnOk, OnErr};
ghost use Rattle.std.specs.Option.{option_map};
ghost use Rattle.ns_record_files.specs.Disk.{Moments, IsFront, moves, with_steps, with_ups, all_safe};

use ns_types::Failed;

/// The two files of a record, to which bytes are appended. The crashes that are meant are those that the files are set up against: the
/// end of the program, or that of the machine.
pub trait Disk {
    // What the files have been at each moment so far, where that is told.
    ghost moments: { Self → Option Moments };

    /// Appends to the steps: at a failure a front of the bytes.
    fn append_steps(&mut self, bytes: &[u8]) -> Result<(), Failed>
        ensures ok { OnOk result (moments self.new ≡ option_map (moves (with_steps bytes.now)) (moments self.old)) }
        ensures torn { OnErr result ((front : List ℕ) × IsFront front bytes.now × (moments self.new ≡ option_map (moves (with_steps front)) (moments self.old))) };

    /// From then on no crash takes away a step that was appended before.
    fn sync_steps(&mut self) -> Result<(), Failed>
        ensures ok { OnOk result (moments self.new ≡ option_map (moves all_safe) (moments self.old)) }
        ensures same { OnErr result (moments self.new ≡ moments self.old) };

    /// Appends to the `up` lines: at a failure a front of the bytes.
    fn append_ups(&mut self, bytes: &[u8]) -> Result<(), Failed>
        ensures ok { OnOk result (moments self.new ≡ option_map (moves (with_ups bytes.now)) (moments self.old)) }
        ensures torn { OnErr result ((front : List ℕ) × IsFront front bytes.now × (moments self.new ≡ option_map (moves (with_ups front)) (moments self.old))) };
}
