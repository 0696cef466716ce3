//! What comes of a closing.

ghost use Rattle.std.specs.Prelude.{◌≡◌};
ghost use Rattle.ns_windows.specs.Windows.{window_named, without};
ghost use Rattle.ns_shard.specs.Private.Reaction.{ack_of, with_shard_ack, close_ended, with_closing};

use crate::event::Ended;
use ns_devices::Devices;
use ns_types::WindowName;
use ns_windows::{Window, Windows};

// Uses the number of the window's acknowledgement, where one is owed.
fn use_ack(devices: &mut Devices, window: &Window) -> Option<u32>
    ensures number { result ≡ ack_of devices.old window.now }
    ensures devices { devices.new ≡ with_shard_ack window.now devices.old }
{
    if window.frame.view().confirmed() {
        devices.next_ack(&window.name)
    } else {
        None
    }
}

/// Closes a window, where it is open. It takes no memory.
pub fn close(devices: &mut Devices, windows: &mut Windows, name: &WindowName) -> Option<Ended>
    ensures ended { result ≡ close_ended devices.old (window_named name.now windows.old) }
    ensures devices { devices.new ≡ with_closing (window_named name.now windows.old) devices.old }
    ensures windows { windows.new ≡ without name.now windows.old }
{
    let window = windows.take_boxed(name)?;
    let ack = use_ack(devices, window.as_ref());
    Some(Ended::Closed { window, ack })
}
