//! Laws of the text, as contracts of functions that do nothing.

ghost use Rattle.std.specs.Prelude.{◌≡◌};
ghost use Rattle.ns_types.specs.declared.heard.Heard.{Heard};
ghost use Rattle.ns_sessions.specs.declared.ticket.OpenTicket.{OpenTicket};
ghost use Rattle.ns_windows.specs.declared.window.Window.{Window};
ghost use Rattle.ns_checkpoint.specs.declared.tables.Checkpoint.{Checkpoint};
ghost use Rattle.ns_checkpoint.specs.declared.tables.DeviceTable.{DeviceTable};
ghost use Rattle.ns_checkpoint.specs.declared.tables.Head.{Head};
ghost use Rattle.ns_checkpoint.specs.Text.{head_line, device_line, ticket_line, window_line, copy_line, checkpoint_text};
ghost use Rattle.ns_checkpoint.specs.Whole.{IsHead, IsDevice, IsOpenTicket, IsWindow, IsHeard, IsCheckpoint, HaveOneLine, HaveOneWindowLine, contents};

/// A line has one reading: two values with the same line are equal, but for what other lines have of them.
pub fn lines_have_one_reading()
    ensures head { (a b : Head) → IsHead a → IsHead b → head_line a ≡ head_line b → a ≡ b }
    ensures device { (a b : DeviceTable) → IsDevice a → IsDevice b → device_line a ≡ device_line b → HaveOneLine a b }
    ensures ticket { (a b : OpenTicket) → IsOpenTicket a → IsOpenTicket b → ticket_line a ≡ ticket_line b → a ≡ b }
    ensures window { (a b : Window) → IsWindow a → IsWindow b → window_line a ≡ window_line b → HaveOneWindowLine a b }
    ensures copy { (a b : Heard) → IsHeard a → IsHeard b → copy_line a ≡ copy_line b → a ≡ b }
{}

/// No two checkpoints have one text.
pub fn texts_have_one_reading()
    ensures ups { (a b : Checkpoint) → IsCheckpoint a → IsCheckpoint b → checkpoint_text a ≡ checkpoint_text b → a.ups ≡ b.ups }
    ensures shards { (a b : Checkpoint) → IsCheckpoint a → IsCheckpoint b → checkpoint_text a ≡ checkpoint_text b → contents a ≡ contents b }
{}
