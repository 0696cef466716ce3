//! The lines of a call as a recorder forms them.
ghost use Rattle.std.specs.Prelude.{◌≡◌, List, ℕ, [], Option, Some, None, if◌then◌else◌};

use arrayvec::ArrayString;

/// The text of one line, without its line feed.
pub type LineText = ArrayString<1024>;

/// What a record has of a call: its step line, and the `up` line that it implies, where there is one. A recorder has the room in which they
/// are formed.
pub trait RecordLines {
    // The step line.
    ghost step: { Self → List ℕ };

    // The `up` line, where there is one.
    ghost up: { Self → Option (List ℕ) };

    /// Puts the step line, without its line feed, where no text is yet.
    fn put_step(&self, line: &mut LineText)
        requires { line.old.bytes ≡ [] }
        ensures { line.new.bytes ≡ step self.now };

    /// Puts the `up` line, without its line feed, where no text is yet, and says whether there is one.
    fn put_up(&self, line: &mut LineText) -> bool
        requires { line.old.bytes ≡ [] }
        ensures { up self.now ≡ (if result then Some line.new.bytes else None) };
}
