//! The uplink of a closed window, where the window lies.

ghost use Rattle.std.specs.Prelude.{◌≡◌};
ghost use Rattle.ns_uplinks.specs.Uplinks.{first_uplink_from};

use ns_calls::{LentUplink, payload_key};
use ns_windows::BoxedWindow;
use std::marker::Model;

/// The uplink of a closed window in the memory of the window: nothing of it is moved. Contracts see the uplink.
#[derive(Drop)]
pub struct BoxedUplink {
    window: BoxedWindow,
    confirmed: bool,
    sealed: bool,
}

impl Model for BoxedUplink {
    ghost use Rattle.ns_calls.specs.declared.answer.Uplink.{Uplink};
    ghost use Rattle.ns_calls.specs.Headline.{uplink_read};

    ghost Value = { Uplink };

    ghost view = { λ u. uplink_read u.window.name u.confirmed u.window.frame u.sealed u.window.copies.items };
}

impl BoxedUplink {
    /// The uplink of a window that was closed, where it is the first of its rounds. It is deciphered in the window itself.
    pub fn of(mut closed: BoxedWindow) -> Option<BoxedUplink>
        ensures { result ≡ first_uplink_from closed }
    {
        let window = closed.as_ref();
        if !window.name.is_first() {
            return None;
        }
        let view = window.frame.view();
        let confirmed = view.confirmed();
        let key = payload_key(view.fport(), window.nwk, window.app);
        closed.decipher(&key);
        Some(BoxedUplink {
            window: closed,
            confirmed,
            sealed: key.is_none(),
        })
    }

    /// The closed window in whose memory the uplink lay, for a window to come.
    pub fn into_window(self) -> BoxedWindow {
        self.window
    }

    /// Lends the uplink.
    pub fn lend(&self) -> LentUplink<'_>
        ensures { result ≡ self.now }
    {
        let window = self.window.as_ref();
        LentUplink::of(
            window.name,
            self.confirmed,
            &window.frame,
            self.sealed,
            &window.copies,
        )
    }
}
