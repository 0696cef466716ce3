//! The uplink that goes out with an entry.

ghost use Rattle.std.specs.Prelude.{◌≡◌, ◌≤◌, length};
ghost use Rattle.ns_calls.specs.History.{window_copies};
ghost use Rattle.ns_calls.specs.Out.{key_of, uplink_of, first_uplink_of, uplink_out};
ghost use Rattle.ns_calls.specs.Entries.{most_copies};
ghost use Rattle.ns_sent.specs.Found.{CopiesFit, opening};

use crate::search::{Opened, open_window, session_join, window_copies};
use ns_calls::{Call, Entry, Reply, Uplink, payload_key};
use ns_types::Key;

// The key of a window's payload, where its session's keys have it.
fn key_of(entries: &[Entry], opened: &Opened) -> Option<Key>
    ensures { result ≡ key_of entries.now (opening opened.now) }
{
    let join = session_join(entries, opened.window.eui, opened.window.session)?;
    payload_key(opened.frame.view().fport(), join.nwk, join.app)
}

// The uplink of an open window. A copy of its frame is deciphered.
fn uplink_from(entries: &[Entry], opened: &Opened) -> Uplink
    requires { length (window_copies entries.now opened.now.window) ≤ most_copies }
    ensures { result ≡ uplink_of entries.now (opening opened.now) }
{
    let mut frame = opened.frame;
    let copies = window_copies(entries, &opened.window);
    let key = key_of(entries, opened);
    Uplink::under(opened.window, &mut frame, &copies, key)
}

// The same, where this is the first window of its uplink.
fn first_uplink(entries: &[Entry], opened: &Opened) -> Option<Uplink>
    requires { length (window_copies entries.now opened.now.window) ≤ most_copies }
    ensures { result ≡ first_uplink_of entries.now (opening opened.now) }
{
    if opened.window.is_first() {
        Some(uplink_from(entries, opened))
    } else {
        None
    }
}

/// The uplink that goes out with an entry after these, where their copies fit.
pub fn uplink_of(entries: &[Entry], entry: &Entry) -> Option<Uplink>
    requires { CopiesFit entries.now entry.now }
    ensures { result ≡ uplink_out entries.now entry.now.call entry.now.reply }
{
    let Call::Close { window } = &entry.call else {
        return None;
    };
    match entry.reply {
        Reply::Closed { .. } => {
            let opened = open_window(entries, window)?;
            first_uplink(entries, &opened)
        }
        _ => None,
    }
}
