//! The plain server: it scans the list of entries for each reply.

ghost use Rattle.std.specs.Prelude.{◌≡◌, length};
ghost use Rattle.std.specs.List.{list_any};
ghost use Rattle.ns_roster.specs.Network.{is_known};
ghost use Rattle.ns_calls.specs.History.{asked, ended, asks_for, ends_ticket, last_nonce, greatest_nonce, is_ticket_open, ticket_count, copies_of_ticket, ticket_copies};
ghost use Rattle.ns_calls.specs.Queries.{greater};
ghost use Rattle.ns_calls.specs.Entries.{says};
ghost use Rattle.ns_plain.specs.Private.Scan.{accepted_nonce, adds_copy};
ghost use Rattle.ns_calls.specs.Reply.{reply_to_join};

use ns_calls::{Call, Entry, MOST_COPIES, MOST_TICKETS, Outcome, Reply};
use ns_roster::{Device, Roster};
use ns_types::{DevEui, DevNonce, JoinEui, Ticket};

/// The ticket that an entry asks a join server for.
fn asking_in(entry: &Entry) -> Option<Ticket>
    ensures { result ≡ says asked entry.now }
{
    let Call::Join { ticket, .. } = &entry.call else {
        return None;
    };
    match entry.reply {
        Reply::Ask { .. } => Some(*ticket),
        _ => None,
    }
}

/// The ticket whose join an entry ends.
fn ending_in(entry: &Entry) -> Option<Ticket>
    ensures { result ≡ says ended entry.now }
{
    let Call::JoinReply { ticket, .. } = &entry.call else {
        return None;
    };
    match entry.reply {
        Reply::Accepted { .. } | Reply::JoinRefused | Reply::JoinStale { .. } => Some(*ticket),
        _ => None,
    }
}

/// Whether an entry asks for a ticket.
fn asks_for(entry: &Entry, ticket: &Ticket) -> bool
    ensures { result ≡ asks_for ticket.now entry.now }
{
    match asking_in(entry) {
        Some(other) => other == *ticket,
        None => false,
    }
}

/// Whether an entry ends a ticket.
fn ends_ticket(entry: &Entry, ticket: &Ticket) -> bool
    ensures { result ≡ ends_ticket ticket.now entry.now }
{
    match ending_in(entry) {
        Some(other) => other == *ticket,
        None => false,
    }
}

/// Whether an entry of several asks for a ticket.
fn is_asked(entries: &[Entry], ticket: &Ticket) -> bool
    ensures { result ≡ list_any (asks_for ticket.now) entries.now }
{
    entries.iter().any(|entry| asks_for(entry, ticket))
}

/// Whether an entry of several ends a ticket.
fn is_ended(entries: &[Entry], ticket: &Ticket) -> bool
    ensures { result ≡ list_any (ends_ticket ticket.now) entries.now }
{
    entries.iter().any(|entry| ends_ticket(entry, ticket))
}

/// Whether the roster has the ticket's device, with its join server.
fn is_known(roster: &Roster, eui: DevEui, join_eui: JoinEui) -> bool
    ensures { result ≡ is_known roster.now eui join_eui }
{
    roster.devices().iter().any(|device| device.eui.0 == eui.0 && device.join_eui.0 == join_eui.0)
}

/// Whether a ticket is open.
fn is_ticket_open(entries: &[Entry], ticket: &Ticket) -> bool
    ensures { result ≡ is_ticket_open entries.now ticket.now }
{
    let mut rest = entries;
    'scan: while let Some((entry, after)) = rest.split_first() {
        if asks_for(entry, ticket) && !is_ended(after, ticket) {
            return true;
        }
        rest = after;
    }
    false
}

/// How many tickets of a device are open.
fn ticket_count(entries: &[Entry], eui: DevEui) -> usize
    ensures { result ≡ ticket_count entries.now eui }
{
    let mut count = 0;
    let mut rest = entries;
    'scan: while let Some((entry, after)) = rest.split_first() {
        if let Some(ticket) = asking_in(entry) {
            if ticket.dev_eui().0 == eui.0 && !is_ended(after, &ticket) {
                count += 1;
            }
        }
        rest = after;
    }
    count
}

/// The nonce of a device's join that an entry accepts.
fn accepted_nonce(entry: &Entry, eui: DevEui) -> Option<u16>
    ensures { result ≡ accepted_nonce eui entry.now }
{
    let Call::JoinReply {
        ticket,
        outcome: Outcome::Success(_),
    } = &entry.call
    else {
        return None;
    };
    match entry.reply {
        Reply::Accepted { .. } if ticket.dev_eui().0 == eui.0 => Some(ticket.nonce().0),
        _ => None,
    }
}

/// The last nonce that the roster names of a device.
fn last_nonce(roster: &Roster, eui: DevEui) -> Option<u16>
    ensures { result ≡ last_nonce roster.now eui }
{
    match roster.find(eui)?.last_nonce {
        Some(nonce) => Some(nonce.0),
        None => None,
    }
}

/// The greatest nonce of a device: of those accepted, and of the last one that the roster names.
fn greatest_nonce(roster: &Roster, entries: &[Entry], eui: DevEui) -> Option<u16>
    ensures { result ≡ greatest_nonce roster.now entries.now eui }
{
    let mut greatest = last_nonce(roster, eui);
    let mut rest = entries;
    'scan: while let Some((entry, after)) = rest.split_first() {
        greatest = greater(greatest, accepted_nonce(entry, eui));
        rest = after;
    }
    greatest
}

/// The greater of two numbers, either of which may be missing.
fn greater(a: Option<u16>, b: Option<u16>) -> Option<u16>
    ensures { result ≡ greater a b }
{
    match (a, b) {
        (None, b) => b,
        (Some(a), None) => Some(a),
        (Some(a), Some(b)) => Some(a.max(b)),
    }
}

/// Whether an entry adds a copy to a ticket.
fn is_copy(entry: &Entry, ticket: &Ticket) -> bool
    ensures { result ≡ adds_copy ticket.now entry.now }
{
    let Call::Join { ticket: heard, .. } = &entry.call else {
        return false;
    };
    match entry.reply {
        Reply::Ask { .. } | Reply::JoinCopied { .. } => *ticket == *heard,
        _ => false,
    }
}

/// How many copies these entries add to a ticket.
fn copies(entries: &[Entry], ticket: &Ticket) -> usize
    ensures { result ≡ length (copies_of_ticket entries.now ticket.now) }
{
    let mut count = 0;
    let mut rest = entries;
    'scan: while let Some((entry, after)) = rest.split_first() {
        if is_copy(entry, ticket) {
            count += 1;
        }
        rest = after;
    }
    count
}

/// How many copies a ticket has since it was last asked for.
fn ticket_copies(entries: &[Entry], ticket: &Ticket) -> usize
    ensures { result ≡ length (ticket_copies entries.now ticket.now) }
{
    let mut rest = entries;
    'scan: while let Some((entry, after)) = rest.split_first() {
        if !is_asked(after, ticket) {
            return if asks_for(entry, ticket) {
                copies(rest, ticket)
            } else {
                0
            };
        }
        rest = after;
    }
    0
}

/// The plain server's reply to a Join-Request.
pub fn reply_to_join(roster: &Roster, entries: &[Entry], ticket: &Ticket) -> Reply
    ensures { result ≡ reply_to_join roster.now entries.now ticket.now }
{
    let eui = ticket.dev_eui();
    if !is_known(roster, eui, ticket.join_eui()) {
        return Reply::NoDevice;
    }
    if let Some(greatest) = greatest_nonce(roster, entries, eui) {
        if ticket.nonce().0 <= greatest {
            return Reply::NonceOld {
                greatest: DevNonce(greatest),
            };
        }
    }
    if is_ticket_open(entries, ticket) {
        let copies = ticket_copies(entries, ticket);
        return if copies < MOST_COPIES {
            Reply::JoinCopied {
                place: copies as u8 + 1,
            }
        } else {
            Reply::JoinCrowded
        };
    }
    if ticket_count(entries, eui) >= MOST_TICKETS {
        Reply::JoinBusy
    } else {
        Reply::Ask { ticket: *ticket }
    }
}
