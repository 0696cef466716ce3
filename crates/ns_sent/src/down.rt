//! The downlink that goes out with an entry.

ghost use Rattle.std.specs.Prelude.{◌≡◌, ◌≤◌, length};
ghost use Rattle.ns_types.specs.declared.identity.WindowName.{WindowName};
ghost use Rattle.ns_types.specs.declared.ticket.Ticket.{Ticket};
ghost use Rattle.ns_calls.specs.History.{window_copies, ticket_copies};
ghost use Rattle.ns_calls.specs.Out.{ack_downlink, downlink_out};
ghost use Rattle.ns_calls.specs.Entries.{most_copies};
ghost use Rattle.ns_sent.specs.Found.{CopiesFit, opening, accept_downlink};

use crate::rx1::{accept_at, acknowledgement, best_copy};
use crate::search::{Opened, open_window, session_join, ticket_copies, window_copies};
use ns_calls::{Call, Downlink, Entry, JoinAns, Outcome, Reply};
use ns_roster::Roster;
use ns_types::Ticket;

// The acknowledgement of an open window with this number, at RX1 of its best copy.
fn ack_downlink(roster: &Roster, entries: &[Entry], opened: &Opened, n: u32) -> Option<Downlink>
    requires { length (window_copies entries.now opened.now.window) ≤ most_copies }
    ensures { result ≡ ack_downlink roster.now entries.now (opening opened.now) n }
{
    let join = session_join(entries, opened.window.eui, opened.window.session)?;
    let copies = window_copies(entries, &opened.window);
    acknowledgement(roster, &opened.frame, &join.nwk, n, copies.as_slice())
}

// The Join-Accept of a ticket, at RX1 of the ticket's best copy.
fn accept_downlink(entries: &[Entry], ticket: &Ticket, join: &JoinAns) -> Option<Downlink>
    requires { length (ticket_copies entries.now ticket.now) ≤ most_copies }
    ensures { result ≡ accept_downlink entries.now ticket.now join.now }
{
    let copies = ticket_copies(entries, ticket);
    let copy = best_copy(copies.as_slice())?;
    Some(accept_at(join, &copy))
}

/// The downlink that goes out with an entry after these, where their copies fit.
pub fn downlink_of(roster: &Roster, entries: &[Entry], entry: &Entry) -> Option<Downlink>
    requires { CopiesFit entries.now entry.now }
    ensures { result ≡ downlink_out roster.now entries.now entry.now.call entry.now.reply }
{
    match (&entry.call, entry.reply) {
        (
            Call::JoinReply {
                ticket,
                outcome: Outcome::Success(join),
            },
            Reply::Accepted { .. },
        ) => accept_downlink(entries, ticket, join),
        (Call::Close { window }, Reply::Closed { ack: Some(n), .. }) => {
            let opened = open_window(entries, window)?;
            ack_downlink(roster, entries, &opened, n)
        }
        _ => None,
    }
}
