//! What threads hand their lines to, and where they wait until these are written.
ghost use Rattle.std.specs.Prelude.{◌≡◌, ◌++◌, [], OnOk};
ghost use Rattle.std.specs.Option.{option_map_or};
ghost use Rattle.ns_record_files.specs.Record.{with_feed};

use crate::disk::Disk;
use crate::lines::{LineText, RecordLines};
use crate::writer::RecordWriter;
use ns_types::Failed;
use std::alloc::{AllocError, Global};
use std::mem;
use std::sync::atomic::{AtomicBool, AtomicU64, Ordering};
use std::sync::{Mutex, Wait};

// The room that is taken at first for the step lines that are not written yet, and for the `up` lines.
const ROOM: usize = 131_072;

// From how many bytes of lines on that are not written yet somebody writes them.
const MANY: u64 = 65_536;

// The lines that are not written yet, in the order in which they were put.
#[derive(Drop)]
struct Lines {
    steps: Vec<u8>,
    ups: Vec<u8>,
    // Where a line is formed: room of its own would be cleared for each.
    line: LineText,
}

// The writer, and the lines that it is given.
#[derive(Drop)]
pub(crate) struct Writing<D: Disk> {
    pub writer: RecordWriter<D>,
    steps: Vec<u8>,
    ups: Vec<u8>,
}

/// Keeps the lines of calls until they are written, in the order in which they were put.
///
/// The lock of the lines is taken behind all others, and none is taken while it is held; that of the writer is taken before it.
#[derive(Drop)]
pub struct Recorder<D: Disk> {
    lines: Mutex<Lines>,
    pub(crate) writing: Mutex<Writing<D>>,
    // How many bytes the lines have. It is changed under their lock.
    pending: AtomicU64,
    // Whether a line could not be kept.
    lost: AtomicBool,
    // Whether its files are to stay as they are but for lines that are written.
    rests: AtomicBool,
}

// Appends a line and its line feed.
fn append_line(to: &mut Vec<u8>, line: &LineText) -> Result<(), AllocError>
    ensures { OnOk result (to.new.items ≡ to.old.items ++ with_feed line.now.bytes) }
{
    to.extend_from_slice(line.as_str().as_bytes())?;
    to.push(b'\n')?;
    Ok(())
}

impl Lines {
    // No lines, with room for some.
    fn new(alloc: Global) -> Result<Lines, AllocError> {
        Ok(Lines {
            steps: Vec::with_capacity(alloc, ROOM)?,
            ups: Vec::with_capacity(alloc, ROOM)?,
            line: LineText::new(),
        })
    }

    // Keeps the step line of a call, and the `up` line that it implies, where there is one.
    fn put<C: RecordLines>(&mut self, call: &C) -> Result<(), AllocError>
        ensures steps { OnOk result (self.new.steps.items ≡ self.old.steps.items ++ with_feed (C.step call.now)) }
        ensures ups { OnOk result (self.new.ups.items ≡ self.old.ups.items ++ option_map_or with_feed (C.up call.now) []) }
    {
        self.line.clear();
        call.put_step(&mut self.line);
        append_line(&mut self.steps, &self.line)?;
        self.line.clear();
        if call.put_up(&mut self.line) {
            append_line(&mut self.ups, &self.line)?;
        }
        Ok(())
    }

    // How many bytes they have.
    fn len(&self) -> u64 {
        self.steps.len() as u64 + self.ups.len() as u64
    }

    // Hands all lines over, into the room of others.
    fn take(&mut self, steps: &mut Vec<u8>, ups: &mut Vec<u8>)
        ensures steps { steps.new.items ≡ self.old.steps.items }
        ensures ups { ups.new.items ≡ self.old.ups.items }
        ensures none { (self.new.steps.items ≡ []) × (self.new.ups.items ≡ []) }
    {
        steps.clear();
        ups.clear();
        mem::swap(&mut self.steps, steps);
        mem::swap(&mut self.ups, ups);
    }
}

impl<D: Disk + Drop> Recorder<D> {
    /// A recorder over a writer, with no lines. Room for lines is taken here.
    pub fn new(alloc: Global, writer: RecordWriter<D>) -> Result<Recorder<D>, AllocError> {
        let lines = Lines::new(alloc)?;
        let writing = Writing {
            writer,
            steps: Vec::with_capacity(alloc, ROOM)?,
            ups: Vec::with_capacity(alloc, ROOM)?,
        };
        Ok(Recorder {
            lines: Mutex::new(lines),
            writing: Mutex::new(writing),
            pending: AtomicU64::new(0),
            lost: AtomicBool::new(false),
            rests: AtomicBool::new(false),
        })
    }

    /// Keeps the step line of a call, and the `up` line that it implies, where there is one. Where there is no memory for them every write
    /// fails from then on.
    pub fn put<R: Wait, C: RecordLines>(&self, rt: &R, call: &C) {
        let mut lines = self.lines.lock(rt);
        if lines.put(call).is_err() {
            self.lost.store(true, Ordering::SeqCst);
        }
        self.pending.store(lines.len(), Ordering::SeqCst);
    }

    /// The files of its writer. Lines that are not written are lost.
    pub fn into_disk(self) -> D {
        let Recorder {
            lines: _,
            writing,
            pending: _,
            lost: _,
            rests: _,
        } = self;
        let Writing {
            writer,
            steps: _,
            ups: _,
        } = writing.into_inner();
        writer.into_disk()
    }

    /// Whether so much is not written that somebody should write it.
    pub fn is_due(&self) -> bool {
        self.pending.load(Ordering::SeqCst) >= MANY
    }

    /// From now on no other steps take the place of those of its files: the server stops.
    pub fn rest(&self) {
        self.rests.store(true, Ordering::SeqCst);
    }

    /// Whether it rests.
    pub fn rests(&self) -> bool {
        self.rests.load(Ordering::SeqCst)
    }

    // Takes all lines that are not written yet.
    fn gather<R: Wait>(&self, rt: &R, steps: &mut Vec<u8>, ups: &mut Vec<u8>) {
        let mut lines = self.lines.lock(rt);
        lines.take(steps, ups);
        self.pending.store(0, Ordering::SeqCst);
    }

    /// Writes all lines that were put before, and waits until no crash takes a step of them away. Where another thread has done so it
    /// writes nothing. After a failure every further call fails, and nothing more is written.
    pub fn write<R: Wait>(&self, rt: &R) -> Result<(), Failed> {
        let mut guard = self.writing.lock(rt);
        let writing = &mut *guard;
        self.gather(rt, &mut writing.steps, &mut writing.ups);
        if self.lost.load(Ordering::SeqCst) {
            writing.writer.fail();
        }
        if writing.steps.is_empty() && writing.ups.is_empty() && !writing.writer.has_failed() {
            return Ok(());
        }
        writing
            .writer
            .write(writing.steps.as_slice(), writing.ups.as_slice())
    }
}
