//! The text that tells what came of runs: lines of a word and numbers.

use crate::workers::around::{Around, Sent};
use itoa::Buffer;
use ns_calls::{Downlink, Entry, Reply};
use ns_lines::{Line, put_downlink};
use ns_outside::{AskJob, CloseJob, Job, WorkerFault};
use ns_types::{Ticket, WindowName};

/// Tells a word and numbers.
pub fn tell(log: &mut String, word: &str, numbers: &[u64]) -> Option<()> {
    log.push_str(word).ok()?;
    for number in numbers {
        let mut buffer = Buffer::new();
        log.push_str(" ").ok()?;
        log.push_str(buffer.format(*number)).ok()?;
    }
    log.push_str("\n").ok()
}

/// The number of a fault, or 0.
pub fn fault_number(fault: Option<WorkerFault>) -> u64 {
    match fault {
        None => 0,
        Some(WorkerFault::NoMemory) => 1,
        Some(WorkerFault::SourceFailed) => 2,
        Some(WorkerFault::SinkFailed) => 3,
    }
}

/// Tells a word and a window with one more number.
pub fn tell_window(log: &mut String, word: &str, name: &WindowName, last: u64) -> Option<()> {
    let (session, fcnt, round) = (name.session, name.fcnt, name.round);
    let numbers = [
        name.eui.0,
        u64::from(session),
        u64::from(fcnt),
        u64::from(round),
        last,
    ];
    tell(log, word, &numbers)
}

// Tells a word, the bytes of a ticket, and two more numbers.
fn tell_ticket(log: &mut String, word: &str, ticket: &Ticket, since: u64, due: u64) -> Option<()> {
    let mut numbers = [0; 25];
    for place in 0..23usize {
        numbers[place] = u64::from(ticket.0[place]);
    }
    numbers[23] = since;
    numbers[24] = due;
    tell(log, word, &numbers)
}

/// Tells jobs, each with when it is due, and since when a ticket waits.
pub fn tell_jobs(log: &mut String, jobs: &[Job]) -> Option<()> {
    for job in jobs {
        match job {
            Job::Close(CloseJob { name, due }) => tell_window(log, "close", name, *due)?,
            Job::Ask(AskJob { ticket, since, due }) => {
                tell_ticket(log, "ask", ticket, *since, *due)?;
            }
        }
    }
    Some(())
}

// Tells a downlink.
fn tell_downlink(log: &mut String, downlink: &Downlink) -> Option<()> {
    let mut line = Line::new();
    put_downlink(&mut line, downlink);
    tell(log, line.as_str(), &[])
}

/// Tells lines, downlinks, and the numbers of what is around from a place on.
pub fn tell_out(
    log: &mut String,
    lines: &[u8],
    down: &Sent,
    around: &Around,
    from: usize,
) -> Option<()> {
    log.push_str(str::from_utf8(lines).ok()?).ok()?;
    for downlink in down.sent.iter() {
        tell_downlink(log, downlink)?;
    }
    tell(log, "told", &around.told(from))
}

// The word of a reply that has a window, the window, and one more number.
fn window_of(reply: &Reply) -> Option<(&'static str, WindowName, u64)> {
    match *reply {
        Reply::Opened { window } => Some(("opened", window, 0)),
        Reply::Again { window } => Some(("again", window, 0)),
        Reply::Copied { window, place } => Some(("copied", window, u64::from(place))),
        Reply::Closed { window, ack: None } => Some(("closed", window, 0)),
        Reply::Closed {
            window,
            ack: Some(number),
        } => Some(("acknowledged", window, u64::from(number))),
        _ => None,
    }
}

// The word of a reply that has no numbers.
fn word_of(reply: &Reply) -> &'static str {
    match reply {
        Reply::JoinRefused => "joinrefused",
        Reply::NoTicket => "noticket",
        Reply::NoWindow => "nowindow",
        Reply::NoDevice => "nodevice",
        _ => "another reply",
    }
}

// Tells a reply.
fn tell_reply(log: &mut String, reply: &Reply) -> Option<()> {
    if let Some((word, window, last)) = window_of(reply) {
        return tell_window(log, word, &window, last);
    }
    match reply {
        Reply::Ask { ticket } => tell_ticket(log, "ask", ticket, 0, 0),
        Reply::Accepted { eui, session, addr } => tell(
            log,
            "accepted",
            &[eui.0, u64::from(*session), u64::from(addr.0)],
        ),
        _ => tell(log, word_of(reply), &[]),
    }
}

/// Tells the replies of entries, but for an entry that is as the last but one before it.
pub fn tell_entries(log: &mut String, entries: &[Entry]) -> Option<()> {
    for at in 0..entries.len() {
        let entry = &entries[at];
        let again = match entries.get(at.wrapping_sub(2)) {
            Some(other) => other.call == entry.call && other.reply == entry.reply,
            None => false,
        };
        if !again {
            tell_reply(log, &entry.reply)?;
        }
    }
    Some(())
}
