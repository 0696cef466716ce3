//! Searches of a history.

ghost use Rattle.std.specs.Prelude.{◌≡◌, ◌≤◌, length, option_map};
ghost use Rattle.std.specs.List.{list_any};
ghost use Rattle.ns_types.specs.Identity.{same_window};
ghost use Rattle.ns_calls.specs.Queries.{from_last};
ghost use Rattle.ns_calls.specs.Entries.{says, opened, closes, most_copies};
ghost use Rattle.ns_calls.specs.History.{asks_for, open_window, session_join, window_copies, copies_of_ticket, ticket_copies};
ghost use Rattle.ns_sent.specs.Found.{opening, session_answer, window_copy, ticket_copy};

use arrayvec::ArrayVec;
use ns_calls::{Call, DataFrame, Entry, JoinAns, MOST_COPIES, Outcome, Reply};
use ns_types::{DevEui, Heard, Ticket, WindowName};

/// A window that an entry opened, with the frame and the copy that opened it.
#[derive(Clone, Copy)]
pub struct Opened {
    pub window: WindowName,
    pub frame: DataFrame,
    pub heard: Heard,
}

// Whether two windows have one name.
fn is_same(a: &WindowName, b: &WindowName) -> bool
    ensures { result ≡ same_window a.now b.now }
{
    a.eui.0 == b.eui.0 && a.session == b.session && a.fcnt == b.fcnt && a.round == b.round
}

// The window that an entry opened.
fn window_opened(entry: &Entry) -> Option<Opened>
    ensures { option_map opening result ≡ says opened entry.now }
{
    let Call::Uplink { frame, heard } = &entry.call else {
        return None;
    };
    match entry.reply {
        Reply::Opened { window } | Reply::Again { window } => Some(Opened {
            window,
            frame: *frame,
            heard: *heard,
        }),
        _ => None,
    }
}

// Whether an entry closes a window.
fn closes(entry: &Entry, name: &WindowName) -> bool
    ensures { result ≡ closes name.now entry.now }
{
    let Call::Close { window } = &entry.call else {
        return false;
    };
    match entry.reply {
        Reply::Closed { .. } => is_same(window, name),
        _ => false,
    }
}

// Whether one of these entries closes a window.
fn is_closed(entries: &[Entry], name: &WindowName) -> bool
    ensures { result ≡ list_any (closes name.now) entries.now }
{
    entries.iter().any(|entry| closes(entry, name))
}

/// The window of this name, where it is open after these entries.
pub fn open_window(entries: &[Entry], name: &WindowName) -> Option<Opened>
    ensures { option_map opening result ≡ open_window entries.now name.now }
{
    let mut rest = entries;
    'scan: while let Some((entry, after)) = rest.split_first() {
        if let Some(found) = window_opened(entry) {
            if is_same(&found.window, name) && !is_closed(after, &found.window) {
                return Some(found);
            }
        }
        rest = after;
    }
    None
}

// The join server's answer with which an entry begins a session of a device.
fn session_answer(entry: &Entry, eui: DevEui, session: u32) -> Option<JoinAns>
    ensures { result ≡ session_answer eui session entry.now }
{
    let Call::JoinReply {
        ticket,
        outcome: Outcome::Success(join),
    } = &entry.call
    else {
        return None;
    };
    match entry.reply {
        Reply::Accepted { session: begun, .. } if ticket.dev_eui().0 == eui.0 && begun == session =>
            { Some(*join) }
        _ => None,
    }
}

/// The join server's answer that made a session of a device.
pub fn session_join(entries: &[Entry], eui: DevEui, session: u32) -> Option<JoinAns>
    ensures { result ≡ session_join entries.now eui session }
{
    let mut rest = entries;
    'scan: while let Some((entry, after)) = rest.split_first() {
        if let Some(join) = session_answer(entry, eui, session) {
            return Some(join);
        }
        rest = after;
    }
    None
}

// The copy that an entry adds to a window.
fn window_copy(entry: &Entry, name: &WindowName) -> Option<Heard>
    ensures { result ≡ window_copy name.now entry.now }
{
    let Call::Uplink { heard, .. } = &entry.call else {
        return None;
    };
    let window = match entry.reply {
        Reply::Opened { window } | Reply::Again { window } => window,
        Reply::Copied { window, .. } => window,
        _ => return None,
    };
    if is_same(&window, name) {
        Some(*heard)
    } else {
        None
    }
}

/// The copies of a window, the opening one first, of which there are at most `MOST_COPIES`.
pub fn window_copies(entries: &[Entry], name: &WindowName) -> ArrayVec<Heard, MOST_COPIES>
    requires { length (window_copies entries.now name.now) ≤ most_copies }
    ensures { result.items ≡ window_copies entries.now name.now }
{
    let mut copies = ArrayVec::new();
    let mut rest = entries;
    'scan: while let Some((entry, after)) = rest.split_first() {
        if let Some(heard) = window_copy(entry, name) {
            copies.push(heard);
        }
        rest = after;
    }
    copies
}

// Whether an entry asks for a ticket.
fn asks_for(entry: &Entry, ticket: &Ticket) -> bool
    ensures { result ≡ asks_for ticket.now entry.now }
{
    let Call::Join { ticket: asked, .. } = &entry.call else {
        return false;
    };
    match entry.reply {
        Reply::Ask { .. } => *ticket == *asked,
        _ => false,
    }
}

// Whether one of these entries asks for a ticket.
fn is_asked(entries: &[Entry], ticket: &Ticket) -> bool
    ensures { result ≡ list_any (asks_for ticket.now) entries.now }
{
    entries.iter().any(|entry| asks_for(entry, ticket))
}

// The entries from the last one on that asks for the ticket.
fn since_asked<'a>(entries: &'a [Entry], ticket: &Ticket) -> &'a [Entry]
    ensures { result.now ≡ from_last (asks_for ticket.now) entries.now }
{
    let mut rest = entries;
    'scan: while let Some((entry, after)) = rest.split_first() {
        if !is_asked(after, ticket) {
            return if asks_for(entry, ticket) {
                rest
            } else {
                &rest[..0]
            };
        }
        rest = after;
    }
    rest
}

// The copy that an entry adds to a ticket.
fn ticket_copy(entry: &Entry, ticket: &Ticket) -> Option<Heard>
    ensures { result ≡ ticket_copy ticket.now entry.now }
{
    let Call::Join {
        ticket: asked,
        heard,
    } = &entry.call
    else {
        return None;
    };
    match entry.reply {
        Reply::Ask { .. } | Reply::JoinCopied { .. } if *ticket == *asked => Some(*heard),
        _ => None,
    }
}

// The copies that these entries add to a ticket.
fn copies_of_ticket(entries: &[Entry], ticket: &Ticket) -> ArrayVec<Heard, MOST_COPIES>
    requires { length (copies_of_ticket entries.now ticket.now) ≤ most_copies }
    ensures { result.items ≡ copies_of_ticket entries.now ticket.now }
{
    let mut copies = ArrayVec::new();
    let mut rest = entries;
    'scan: while let Some((entry, after)) = rest.split_first() {
        if let Some(heard) = ticket_copy(entry, ticket) {
            copies.push(heard);
        }
        rest = after;
    }
    copies
}

/// The copies of a ticket since it was last asked for, the asking one first, of which there are at most `MOST_COPIES`.
pub fn ticket_copies(entries: &[Entry], ticket: &Ticket) -> ArrayVec<Heard, MOST_COPIES>
    requires { length (ticket_copies entries.now ticket.now) ≤ most_copies }
    ensures { result.items ≡ ticket_copies entries.now ticket.now }
{
    copies_of_ticket(since_asked(entries, ticket), ticket)
}
