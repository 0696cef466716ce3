//! Trims of a server: the worked runs, and a device with as much open as a device may have.

use self::Left::*;
use self::Step::*;
use crate::caller::{Caller, Ended, receipt_of};
use crate::series::DEVICE;
use crate::trial::{Trial, on_server};
use ns_calls::{Answer, Call, Entry, Outcome};
use ns_device::traffic::{answer, closing_of, join, join_end, join_reply, uplink};
use ns_lines::lines;
use ns_outside::Receipt;
use ns_types::Key;
use std::alloc::Global;
use std::test::*;

// A step of a run: calls of the device, each from gateway 1 where nothing else is said.
#[derive(Clone, Copy)]
enum Step {
    // The Join-Request with this nonce.
    Join(u16),
    // The join server's answer to it.
    Accept(u16),
    // The same with other session keys.
    AcceptOtherKeys(u16),
    // That no answer came to it.
    Lose(u16),
    // A Join-Request that is answered.
    Joined(u16),
    // A join and the uplink with counter 2, each heard twice, and an answer too many.
    Begun,
    // The uplink with this counter, confirmed or not, as a gateway heard it.
    Up(u32, bool, u8),
    // An uplink that 16 gateways hear.
    Heard(u32),
    // Four Join-Requests from this nonce on, heard 16 times each.
    Asked(u16),
    // The closing of a window: its session, counter and round.
    Close(u32, u32, u32),
    // A confirmed uplink and the closing of its window, which are these.
    Acked(u32, u32, u32),
}

impl Step {
    // How many calls it makes.
    fn calls(self) -> u16 {
        match self {
            Joined(_) | Acked(..) => 2,
            Begun => 6,
            Heard(_) => 16,
            Asked(_) => 64,
            _ => 1,
        }
    }

    // Its call at a place.
    fn call_at(self, place: u16) -> Option<Call> {
        match self {
            Join(nonce) => Some(join(DEVICE, nonce)),
            Joined(nonce) if place == 0 => Some(join(DEVICE, nonce)),
            Accept(nonce) | Joined(nonce) => Some(join_reply(DEVICE, nonce)),
            Begun => begun_at(place),
            AcceptOtherKeys(nonce) => {
                let other = answer(Key([7; 16]), None);
                Some(join_end(DEVICE, nonce, Outcome::Success(other)))
            }
            Lose(nonce) => Some(join_end(DEVICE, nonce, Outcome::Failed)),
            Up(counter, confirmed, gateway) => uplink(DEVICE, counter, confirmed, gateway),
            Heard(counter) => uplink(DEVICE, counter, false, (place % 16) as u8 + 1),
            Asked(first) => Some(join(DEVICE, first.wrapping_add(place / 16))),
            Acked(_, counter, _) if place == 0 => uplink(DEVICE, counter, true, 1),
            Close(session, counter, round) | Acked(session, counter, round) => {
                Some(closing_of(DEVICE, session, counter, round))
            }
        }
    }
}

// A call by which a device joins and its window of counter 2 is opened.
fn begun_at(place: u16) -> Option<Call> {
    match place {
        0 | 1 => Some(join(DEVICE, 1)),
        2 | 3 => Some(join_reply(DEVICE, 1)),
        4 => uplink(DEVICE, 2, false, 1),
        _ => uplink(DEVICE, 2, false, 2),
    }
}

// Puts the lines of what a call's receipt tells.
fn put_lines(receipt: Receipt, text: &mut String) -> Option<()> {
    let answer = Answer {
        reply: receipt.entry.reply,
        uplink: receipt.uplink,
        downlink: receipt.downlink,
    };
    for line in lines(&answer) {
        text.push_str(line.as_str()).ok()?;
        text.push_str("\n").ok()?;
    }
    Some(())
}

// Makes a call, whose answer's lines are put to a text.
fn tell_one<C: Caller>(caller: &mut C, call: Call, text: &mut String) -> Option<()> {
    put_lines(receipt_of(caller, call)?, text)
}

// Makes the calls of steps, whose answers' lines are put to a text. None where there is no such call, or no memory.
fn tell<C: Caller>(caller: &mut C, steps: &[Step], text: &mut String) -> Option<()> {
    for step in steps {
        for place in 0..step.calls() {
            tell_one(caller, step.call_at(place)?, text)?;
        }
    }
    Some(())
}

// Whether entries have these numbers.
fn are_numbered(entries: &[Entry], numbers: &[u64]) -> bool {
    for at in 0..entries.len() {
        if numbers.get(at).copied() != Some(entries[at].number) {
            return false;
        }
    }
    entries.len() == numbers.len()
}

// Whether a trim of the device's shard has this mark and hands out the entries of these numbers.
fn trims_out<C: Caller>(caller: &mut C, mark: u64, out: &[u64]) -> bool {
    match caller.trim(13, false) {
        Ok(dropped) => dropped.mark == mark && are_numbered(dropped.entries.as_slice(), out),
        Err(_) => false,
    }
}

// A run: what is made before a trim, the trim's mark and the numbers of the entries that it hands out, what is made after it, one call a
// step, and how the lines of that begin; they may be all.
#[derive(Clone, Copy)]
pub struct Run {
    before: &'static [Step],
    mark: u64,
    out: &'static [u64],
    after: &'static [Step],
    lines: &'static str,
    is_whole: bool,
    left: Left,
}

// What is left in the end: the numbers of the entries, or how many they are, and how many windows are open, each with 16 copies.
#[derive(Clone, Copy)]
enum Left {
    Numbers(&'static [u64]),
    Counts(usize, u32),
}

// A join and an uplink, each heard twice: six entries. The closing, one too many, late copies, and two joins, of which the later is
// answered first: eight more. With nothing open a trim hands out eleven entries, and what is repeated is answered as without it.
const CLOSED: Run = Run {
    before: &[
        Begun,
        Close(1, 2, 1),
        Close(1, 2, 1),
        Up(2, false, 1),
        Join(1),
        Join(5),
        Join(6),
        AcceptOtherKeys(6),
        AcceptOtherKeys(5),
    ],
    mark: 14,
    out: &[0, 1, 3, 5, 6, 7, 8, 9, 10, 11, 13],
    after: &[Up(2, false, 1), Join(1), Close(1, 2, 1)],
    lines: "old 000000000000000d 1 2\nnonceold 6\nnowindow\n",
    is_whole: true,
    left: Numbers(&[2, 4, 12, 14, 15, 16]),
};

// The first six of these: a trim with an open window keeps its copies, and the window closes with both.
const OPENED: Run = Run {
    before: &[Begun],
    mark: 6,
    out: &[0, 1, 3],
    after: &[Close(1, 2, 1)],
    lines: "closed 000000000000000d 1 2 -\nup 000000000000000d 1 2 1 plain - 55565758595a5b5c5d5e5f60 2 00000000000000a1,00000000000000a2\n",
    is_whole: true,
    left: Numbers(&[2, 4, 5, 6]),
};

// A join, and an uplink that is acknowledged two times: after a trim it is acknowledged again, with the next number.
const TWO_ROUNDS: Run = Run {
    before: &[Joined(1), Acked(1, 2, 1), Acked(1, 2, 2)],
    mark: 6,
    out: &[0, 3],
    after: &[Up(2, true, 1), Close(1, 2, 3)],
    lines: "again 000000000000000d 1 2:3\nclosed 000000000000000d 1 2:3 2\ndown ",
    is_whole: false,
    left: Numbers(&[1, 2, 4, 5, 6, 7]),
};

// The same acknowledged three times.
const THREE_ROUNDS: Run = Run {
    before: &[Joined(1), Acked(1, 2, 1), Acked(1, 2, 2), Acked(1, 2, 3)],
    mark: 8,
    out: &[0, 3, 4, 5],
    after: &[Up(2, true, 1), Close(1, 2, 4)],
    lines: "again 000000000000000d 1 2:4\nclosed 000000000000000d 1 2:4 3\ndown ",
    is_whole: false,
    left: Numbers(&[1, 2, 6, 7, 8, 9]),
};

// The last of two acknowledgements stays, and the next has the next number.
const ACKNOWLEDGED: Run = Run {
    before: &[Joined(1), Acked(1, 4, 1), Acked(1, 5, 1)],
    mark: 6,
    out: &[0, 2, 3],
    after: &[Up(6, true, 1), Close(1, 6, 1)],
    lines: "opened 000000000000000d 1 6\nclosed 000000000000000d 1 6 2\n",
    is_whole: false,
    left: Numbers(&[1, 4, 5, 6, 7]),
};

// Of a Join-Request that is asked again after it was refused the last asking stays, and its copy.
const ASKED_AGAIN: Run = Run {
    before: &[Join(1), Join(1), Lose(1), Join(1), Join(1)],
    mark: 5,
    out: &[0, 1, 2],
    after: &[Accept(1)],
    lines: "accepted 000000000000000d 1 ",
    is_whole: false,
    left: Numbers(&[3, 4, 5]),
};

// Eight windows in one session, and four tickets: 194 entries, of which the asking for the answered join goes out. What is left are 8
// windows and 4 tickets of 16 entries each, and the acceptance.
const ONE_SESSION: Run = Run {
    before: &[
        Joined(1),
        Heard(0),
        Heard(1),
        Heard(2),
        Heard(3),
        Heard(4),
        Heard(5),
        Heard(6),
        Heard(7),
        Asked(2),
    ],
    mark: 194,
    out: &[0],
    after: &[],
    lines: "",
    is_whole: true,
    left: Counts(193, 8),
};

// Eight windows, each in a session of its own, of which the last has acknowledged one uplink twice; a ninth session in which nothing was
// opened, and four tickets: 214 entries. The askings for the nine answered joins go out, the first opening and the first closing of the
// uplink that was acknowledged twice. Counters fall from session to session, so that a frame fits the later one alone. What is left is
// that of one session, with nine acceptances, and the last repeated opening and the last acknowledging closing of the live session.
const NINE_SESSIONS: Run = Run {
    before: &[
        Joined(1),
        Heard(99),
        Joined(2),
        Heard(98),
        Joined(3),
        Heard(97),
        Joined(4),
        Heard(96),
        Joined(5),
        Heard(95),
        Joined(6),
        Heard(94),
        Joined(7),
        Heard(93),
        Joined(8),
        Acked(8, 10, 1),
        Acked(8, 10, 2),
        Heard(11),
        Joined(9),
        Asked(10),
    ],
    mark: 214,
    out: &[0, 18, 36, 54, 72, 90, 108, 126, 128, 129, 148],
    after: &[],
    lines: "",
    is_whole: true,
    left: Counts(203, 8),
};

const RUNS: &[Run] = &[
    CLOSED,
    OPENED,
    TWO_ROUNDS,
    THREE_ROUNDS,
    ACKNOWLEDGED,
    ASKED_AGAIN,
    ONE_SESSION,
    NINE_SESSIONS,
];

impl Run {
    // How many entries are made.
    fn made(&self) -> u64 {
        self.mark.saturating_add(self.after.len() as u64)
    }

    // Whether a text is what is to be told after the trim.
    fn is_told(&self, text: &String) -> bool {
        let is_long = !self.is_whole || text.len() == self.lines.len();
        is_long && text.as_str().starts_with(self.lines)
    }

    /// Makes what is before the trim, the trim, and what comes after it. How many entries were made, where all is as it is to be.
    pub fn make<C: Caller>(&self, alloc: Global, caller: &mut C) -> Option<u64> {
        let mut text = String::new(alloc);
        tell(caller, self.before, &mut text)?;
        text.clear();
        let trims = trims_out(caller, self.mark, self.out);
        tell(caller, self.after, &mut text)?;
        (trims && self.is_told(&text)).then_some(self.made())
    }

    /// Whether what is left is what is to be kept, and what was made since.
    pub fn is_left<E: Ended>(&self, settled: &mut E) -> bool {
        match self.left {
            Numbers(numbers) => {
                self.has_left(settled, numbers.len()) && are_numbered(settled.history(13), numbers)
            }
            Counts(left, windows) => self.has_left(settled, left) && drains(settled, windows),
        }
    }

    // Whether the history has so many entries, with this mark.
    fn has_left<E: Ended>(&self, settled: &E, left: usize) -> bool {
        let left = left as u64;
        let dropped = self.made().saturating_sub(left);
        settled.counts(13) == (self.mark, dropped, left) && settled.counts(12) == (0, 0, 0)
    }
}

// Whether so many windows are open, each with 16 copies.
fn drains<E: Ended>(settled: &mut E, windows: u32) -> bool {
    let mut full = 0u32;
    for _ in 0..9u32 {
        let Some(receipt) = settled.drain_next() else {
            break;
        };
        if let Some(uplink) = &receipt.uplink {
            full = full.wrapping_add(u32::from(uplink.copies.len() == 16));
        }
    }
    full == windows && settled.drain_next().is_none()
}

#[test]
fn trims_of_worked_runs(rt: HostRuntime) {
    for run in RUNS {
        on_server(&rt, rt.alloc(), 16, Trial::Trimmed(run));
    }
}
