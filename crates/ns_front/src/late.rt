//! Frames whose windows were closed a while ago, so that a late copy is not taken for a repetition.

ghost use Rattle.std.specs.Prelude.{◌≡◌, ◌≢◌, ◌<◌, ℕ, Some, vec_len, IfOk};
ghost use Rattle.ns_front.specs.Late.{row_of, row_at, no_row, is_within, due_at, due_in, due_of, with_closing, is_late};
ghost use Rattle.ns_front.specs.Private.Marks.{has_mark, with_mark, no_marks, AreMarked};

use crate::front::FrameName;
use ns_types::{DevAddr, SHARDS, shard_of_addr};
use std::alloc::{AllocError, Global};
use std::sync::{Mutex, Wait};

// How many rows a table has.
const ROWS: usize = 1024;

// Of which frame a window is closed, and when.
#[derive(Clone, Copy)]
struct Closing {
    frame: FrameName,
    due: u64,
}

// When the window of a frame is closed, if it is this one.
fn due_at(closing: &Option<Closing>, frame: FrameName) -> Option<u64>
    ensures { result ≡ due_at frame closing.now }
{
    match closing {
        Some(closing) if closing.frame == frame => Some(closing.due),
        _ => None,
    }
}

// The four frames of a row that were noted last, the last one first.
#[derive(Clone, Copy)]
struct Row {
    first: Option<Closing>,
    second: Option<Closing>,
    third: Option<Closing>,
    fourth: Option<Closing>,
}

impl Row {
    // No frame.
    fn none() -> Row
        ensures { result ≡ no_row }
    {
        Row {
            first: None,
            second: None,
            third: None,
            fourth: None,
        }
    }

    // When the window of a frame is closed, where it is one of these: what was noted last.
    fn due(&self, frame: FrameName) -> Option<u64>
        ensures { result ≡ due_in frame self.now }
    {
        due_at(&self.first, frame)
            .or(due_at(&self.second, frame))
            .or(due_at(&self.third, frame))
            .or(due_at(&self.fourth, frame))
    }

    // The row with one more, for which the fourth goes.
    fn with(&self, closing: Closing) -> Row
        ensures { result ≡ with_closing closing self.now }
    {
        Row {
            first: Some(closing),
            second: self.first,
            third: self.second,
            fourth: self.third,
        }
    }
}

// The MICs of the frames of a row.
#[derive(Clone, Copy)]
struct Marks {
    first: u32,
    second: u32,
    third: u32,
    fourth: u32,
}

impl Marks {
    // Those of a row of no frame.
    fn none() -> Marks
        ensures { result ≡ no_marks }
    {
        Marks {
            first: 0,
            second: 0,
            third: 0,
            fourth: 0,
        }
    }

    // Whether this is one of them.
    fn has(&self, mic: u32) -> bool
        ensures { result ≡ has_mark mic self.now }
    {
        self.first == mic || self.second == mic || self.third == mic || self.fourth == mic
    }

    // The MICs with one more, for which the fourth goes.
    fn with(&self, mic: u32) -> Marks
        ensures { result ≡ with_mark mic self.now }
    {
        Marks {
            first: mic,
            second: self.first,
            third: self.second,
            fourth: self.third,
        }
    }
}

/// When the windows of frames are closed: a table of 1,024 rows of at most four frames. A frame stands in the row of the last bits of its
/// MIC; where that is full, the one that was noted there first goes. The MICs of all rows lie together, in an eighth of the memory: most
/// frames stand in no row, of which they tell.
#[derive(Drop)]
pub(crate) struct Late {
    marks: Vec<Marks>,
    rows: Vec<Row>,
    span_ms: u64,
    ghost marked: { vec_len marks ≡ 1024 },
    ghost whole: { vec_len rows ≡ 1024 },
    ghost told: { AreMarked marks.items rows.items },
}

impl Late {
    ghost use Rattle.std.specs.Prelude.{◌≡◌, vec_len};

    /// No frame is noted. A copy is late for so many milliseconds after the closing.
    pub fn new(alloc: Global, span_ms: u64) -> Result<Late, AllocError>
        ensures none { IfOk result (λ l. (row : ℕ) → row_at l.rows.items row ≡ no_row) }
        ensures span { IfOk result (λ l. l.span_ms ≡ span_ms) }
    {
        let marks = vec![in alloc; Marks::none(); ROWS]?;
        let rows = vec![in alloc; Row::none(); ROWS]?;
        Ok(Late {
            marks,
            rows,
            span_ms,
        })
    }

    // The row of a frame.
    fn row(&self, frame: FrameName) -> Row
        ensures { result ≡ row_at self.now.rows.items (row_of frame) }
    {
        self.rows[frame.mic as usize % ROWS]
    }

    /// The window of a frame is closed at this time.
    pub fn note(&mut self, frame: FrameName, due: u64)
        ensures row { row_at self.new.rows.items (row_of frame) ≡ with_closing (record { frame = frame; due = due }) (row_at self.old.rows.items (row_of frame)) }
        ensures others { (row : ℕ) → row ≢ row_of frame → row_at self.new.rows.items row ≡ row_at self.old.rows.items row }
        ensures late { (now : ℕ) → is_late self.new.span_ms self.new.rows.items frame now ≡ is_within self.old.span_ms due now }
        ensures same { self.new.span_ms ≡ self.old.span_ms }
    {
        let at = frame.mic as usize % ROWS;
        let marks = self.marks[at].with(frame.mic);
        let row = self.row(frame).with(Closing { frame, due });
        self.marks[at] = marks;
        self.rows[at] = row;
    }

    /// When the window of a frame is closed, where that is noted: no copy of another frame is late, and none before then.
    #[tactic(auto, using(crate::proofs::MarkLemmas::unmarked))]
    pub fn due(&self, frame: FrameName) -> Option<u64>
        ensures { result ≡ due_of self.now.rows.items frame }
    {
        if self.marks[frame.mic as usize % ROWS].has(frame.mic) {
            self.row(frame).due(frame)
        } else {
            None
        }
    }

    /// Whether a copy of a frame that comes at this time is late.
    pub fn is_late(&self, frame: FrameName, now: u64) -> bool
        ensures { result ≡ is_late self.now.span_ms self.now.rows.items frame now }
    {
        match self.due(frame) {
            Some(due) => now >= due && now - due < self.span_ms,
            None => false,
        }
    }
}

/// The same for each shard of addresses, each behind its own lock.
#[derive(Drop)]
pub struct Lates {
    shards: Vec<Mutex<Late>>,
}

impl Lates {
    /// No frame is noted.
    pub fn new(alloc: Global, span_ms: u64) -> Result<Lates, AllocError> {
        let mut shards = Vec::new(alloc);
        for _shard in 0..SHARDS {
            let late = Late::new(alloc, span_ms)?;
            shards.push(Mutex::new(late))?;
        }
        Ok(Lates { shards })
    }

    // The lock of an address.
    fn lock_of(&self, addr: u32) -> Option<&Mutex<Late>> {
        self.shards.get(usize::from(shard_of_addr(DevAddr(addr))))
    }

    /// The window of a frame is closed at this time.
    pub fn note<R: Wait>(&self, rt: &R, frame: FrameName, due: u64) {
        if let Some(lock) = self.lock_of(frame.addr) {
            lock.lock(rt).note(frame, due);
        }
    }

    /// When the window of a frame is closed, where that is noted.
    pub fn due<R: Wait>(&self, rt: &R, frame: FrameName) -> Option<u64> {
        let lock = self.lock_of(frame.addr)?;
        lock.lock(rt).due(frame)
    }

    /// Whether a copy of a frame that comes at this time is late.
    pub fn is_late<R: Wait>(&self, rt: &R, frame: FrameName, now: u64) -> bool {
        match self.lock_of(frame.addr) {
            Some(lock) => lock.lock(rt).is_late(frame, now),
            None => false,
        }
    }
}
