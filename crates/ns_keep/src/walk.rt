//! The walk over the entries, from the end.

ghost use Rattle.std.specs.Prelude.{◌≡◌, ◌&&◌, not, List, IfOk, OnOk};
ghost use Rattle.ns_calls.specs.declared.call.Entry.{Entry};
ghost use Rattle.ns_keep.specs.Tables.{AreOf, numbers_kept};
ghost use Rattle.ns_keep.specs.Private.Said.{said_in};
ghost use Rattle.ns_keep.specs.Private.Marks.{is_asked};
ghost use Rattle.ns_keep.specs.Private.Keeps.{keeps_said, MarksSaid};

use crate::marks::Marks;
use crate::said::{Said, said_by};
use crate::table::DeviceTable;
use crate::windows::OpenWindows;
use ns_calls::Entry;
use ns_types::{Ticket, WindowName};
use std::alloc::{AllocError, Global};

// There is room for the openings of one session for each so many entries, before the tables grow.
const ENTRIES_OF_A_SESSION: usize = 16;

// Whether the opening of a window is kept: it is the last of its device, or of its session, which lives, or the window is open.
fn keeps_opening<D: DeviceTable>(
    marks: &mut Marks,
    windows: &OpenWindows,
    devices: &D,
    window: &WindowName,
) -> Result<bool, AllocError>
    ensures keeps { IfOk result (λ b. b ≡ keeps_said (D.lives devices.now) (D.has_ticket devices.now) windows.now marks.old (Said.Opened window.now)) }
    ensures marks { OnOk result (MarksSaid (D.has_ticket devices.now) (Said.Opened window.now) marks.old marks.new) }
{
    let (last, last_in) = marks.open(window)?;
    Ok(last || (last_in && devices.is_live(window.eui, window.session)) || windows.has(window))
}

// Whether the repeated opening of a window is kept: it is the last of its session, which lives, or the window is open.
fn keeps_repetition<D: DeviceTable>(
    marks: &mut Marks,
    windows: &OpenWindows,
    devices: &D,
    window: &WindowName,
) -> Result<bool, AllocError>
    ensures keeps { IfOk result (λ b. b ≡ keeps_said (D.lives devices.now) (D.has_ticket devices.now) windows.now marks.old (Said.Repeated window.now)) }
    ensures marks { OnOk result (MarksSaid (D.has_ticket devices.now) (Said.Repeated window.now) marks.old marks.new) }
{
    let last_in = marks.repeat(window)?;
    Ok((last_in && devices.is_live(window.eui, window.session)) || windows.has(window))
}

// Whether an asking for a ticket is kept: it is the last, and the ticket is open.
fn keeps_asking<D: DeviceTable>(
    marks: &mut Marks,
    devices: &D,
    ticket: &Ticket,
) -> Result<bool, AllocError>
    ensures keeps { IfOk result (λ b. b ≡ (D.has_ticket devices.now ticket.now && not (is_asked marks.old ticket.now))) }
    ensures marks { OnOk result (MarksSaid (D.has_ticket devices.now) (Said.Asked ticket.now) marks.old marks.new) }
{
    if !devices.is_ticket_open(ticket) {
        return Ok(false);
    }
    marks.ask(ticket)
}

// Whether an entry is kept, by the marks of the entries after it; its own marks are made.
fn keeps<D: DeviceTable>(
    marks: &mut Marks,
    windows: &OpenWindows,
    devices: &D,
    entry: &Entry,
) -> Result<bool, AllocError>
    ensures keeps { IfOk result (λ b. b ≡ keeps_said (D.lives devices.now) (D.has_ticket devices.now) windows.now marks.old (said_in entry.now.call entry.now.reply)) }
    ensures marks { OnOk result (MarksSaid (D.has_ticket devices.now) (said_in entry.now.call entry.now.reply) marks.old marks.new) }
{
    match said_by(entry) {
        Said::Accepted { eui, session } => {
            let last = marks.accept(eui)?;
            Ok(last || devices.is_live(eui, session) || windows.has_session(eui, session))
        }
        Said::Opened { window } => keeps_opening(marks, windows, devices, &window),
        Said::Repeated { window } => keeps_repetition(marks, windows, devices, &window),
        Said::Copied { window } => Ok(windows.has(&window)),
        Said::Acknowledged { window } => {
            let last = marks.acknowledge(&window)?;
            Ok(last && devices.is_live(window.eui, window.session))
        }
        Said::Asked { ticket } => keeps_asking(marks, devices, &ticket),
        Said::JoinCopied { ticket } => {
            Ok(devices.is_ticket_open(&ticket) && !marks.is_asked(&ticket))
        }
        Said::Nothing => Ok(false),
    }
}

/// The numbers of the entries that a trim keeps, in order: those of `keep`, where the history reads as one of which the table has the
/// live sessions and the open tickets, and these are the names of its open windows. `NoMemory` (`AllocError`) where a growth was
/// refused. The time is in proportion to the entries and the windows.
pub fn numbers_kept<D: DeviceTable>(
    alloc: Global,
    entries: &[Entry],
    windows: &[WindowName],
    devices: &D,
) -> Result<Vec<u64>, AllocError>
    ensures { (h : List Entry) → AreOf h (D.lives devices.now) (D.has_ticket devices.now) windows.now
        → IfOk result (λ v. v.items ≡ numbers_kept h entries.now) }
{
    let open = OpenWindows::new(alloc, windows)?;
    let mut marks = Marks::with_room(alloc, entries.len() / ENTRIES_OF_A_SESSION)?;
    let mut numbers = Vec::new(alloc);
    let mut rest = entries;
    'walk: while let Some((entry, before)) = rest.split_last() {
        if keeps(&mut marks, &open, devices, entry)? {
            numbers.push(entry.number)?;
        }
        rest = before;
    }
    numbers.reverse();
    Ok(numbers)
}
