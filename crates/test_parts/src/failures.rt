//! The files of a record in memory, whose calls fail from one on, of which the failing append takes a front.
ghost use Rattle.std.specs.Prelude.{None};
ghost use Rattle.std.specs.Option.{option_map};

use crate::failures::Act::{Lose, Put, Write};
use crate::rows::{Row, each_holds};
use ns_record_files::{Disk, LineText, RecordLines, RecordWriter, Recorder};
use ns_types::{BLOCKS, Failed, take_all};
use std::alloc::{AllocError, Global};
use std::sync::Wait;

#[derive(Drop)]
struct Memory {
    steps: Vec<u8>,
    safe: usize,
    ups: Vec<u8>,
    calls: u32,
    fails_from: u32,
}

impl Memory {
    fn new(alloc: Global, fails_from: u32) -> Memory {
        Memory {
            steps: Vec::new(alloc),
            safe: 0,
            ups: Vec::new(alloc),
            calls: 0,
            fails_from,
        }
    }

    // Whether this call is done.
    fn is_done(&mut self) -> bool {
        self.calls = self.calls.saturating_add(1);
        self.calls <= self.fails_from
    }
}

// Appends the bytes, or half of them.
fn append(to: &mut Vec<u8>, bytes: &[u8], is_done: bool) -> Result<(), Failed> {
    let len = if is_done {
        bytes.len()
    } else {
        bytes.len() / 2
    };
    if to.extend_from_slice(&bytes[..len]).is_err() || !is_done {
        return Err(Failed);
    }
    Ok(())
}

impl Disk for Memory {
    ghost moments = { λ _. None };

    fn append_steps(&mut self, bytes: &[u8]) -> Result<(), Failed> {
        let is_done = self.is_done();
        append(&mut self.steps, bytes, is_done)
    }

    fn sync_steps(&mut self) -> Result<(), Failed> {
        if !self.is_done() {
            return Err(Failed);
        }
        self.safe = self.steps.len();
        Ok(())
    }

    fn append_ups(&mut self, bytes: &[u8]) -> Result<(), Failed> {
        let is_done = self.is_done();
        append(&mut self.ups, bytes, is_done)
    }
}

// By how many calls were done: what the files have after three batches, how many bytes of the steps are safe, and how many batches are
// told as written.
#[derive(Clone, Copy)]
struct After(u32, &'static str, usize, &'static str, u32);

const AFTER: &[After] = &[
    After(0, "on", 0, "", 0),
    After(1, "one\n", 0, "", 0),
    After(2, "one\n", 4, "", 0),
    After(3, "one\nclose", 4, "", 1),
    After(4, "one\nclose 1\nx\n", 4, "", 1),
    After(5, "one\nclose 1\nx\n", 14, "up", 1),
    After(6, "one\nclose 1\nx\nclos", 14, "up 1\n", 2),
    After(7, "one\nclose 1\nx\nclose 2\n", 14, "up 1\n", 2),
    After(8, "one\nclose 1\nx\nclose 2\n", 22, "up 1\nup", 2),
    After(9, "one\nclose 1\nx\nclose 2\n", 22, "up 1\nup 2\n", 3),
];

// Three batches of steps and `up` lines.
const BATCHES: &[(&str, &str)] = &[
    ("one\n", ""),
    ("close 1\nx\n", "up 1\n"),
    ("close 2\n", "up 2\n"),
];

// Writes them. How many are told as written.
fn write_three(writer: &mut RecordWriter<Memory>) -> u32 {
    let mut told = 0u32;
    for &(steps, ups) in BATCHES {
        if writer.write(steps.as_bytes(), ups.as_bytes()).is_ok() {
            told = told.wrapping_add(1);
        }
    }
    told
}

// Whether the files have these bytes.
fn has(disk: &Memory, steps: &str, safe: usize, ups: &str) -> bool {
    disk.steps.as_slice() == steps.as_bytes()
        && disk.safe == safe
        && disk.ups.as_slice() == ups.as_bytes()
}

impl Row for After {
    fn holds(&self, alloc: Global) -> bool {
        let &After(done, steps, safe, ups, told) = self;
        let mut writer = RecordWriter::new(Memory::new(alloc, done));
        let is_told = write_three(&mut writer) == told && writer.has_failed() == (done < 9);
        is_told && has(&writer.into_disk(), steps, safe, ups)
    }
}

/// Where a call of the files fails, they have what was written before and a front of the rest, and each batch after it is refused.
#[test]
fn each_call_fails_in_turn(rt: HostRuntime) {
    each_holds(&rt, rt.alloc(), "calls", AFTER);
}

// A call of which a record has these lines.
#[derive(Drop)]
pub(crate) struct Told {
    step: LineText,
    up: Option<LineText>,
}

impl Told {
    /// A call with this step line and, if there is one, this `up` line.
    pub fn new(step: &str, up: Option<&str>) -> Told {
        Told {
            step: line_of(step),
            up: up.map(line_of),
        }
    }
}

// A line with this text, where it has room for it.
fn line_of(text: &str) -> LineText {
    let mut line = LineText::new();
    let _ = line.try_push_str(text);
    line
}

impl RecordLines for Told {
    ghost step = { λ t. t.step.bytes };

    ghost up = { λ t. option_map (λ l. l.bytes) t.up };

    fn put_step(&self, line: &mut LineText) {
        line.push_str(self.step.as_str());
    }

    fn put_up(&self, line: &mut LineText) -> bool {
        let Some(up) = &self.up else {
            return false;
        };
        line.push_str(up.as_str());
        true
    }
}

/// Puts a step line and, if there is one, its `up` line, and writes them. Whether they were written.
pub(crate) fn put<R: Wait, D: Disk + Drop>(
    rt: &R,
    recorder: &Recorder<D>,
    step: &str,
    up: Option<&str>,
) -> bool {
    recorder.put(rt, &Told::new(step, up));
    recorder.write(rt).is_ok()
}

// Puts lines, of twice as many bytes as a recorder takes room for at first.
fn put_many<R: Wait>(rt: &R, recorder: &Recorder<Memory>) {
    let call = Told::new("close 000000000000000d 1 2", None);
    for _ in 0..10_000u32 {
        recorder.put(rt, &call);
    }
}

// Puts them while there is no memory. Whether there was none.
fn put_without_memory<R: Wait>(rt: &R, alloc: Global, recorder: &Recorder<Memory>) -> bool {
    let Ok(mut held) = Vec::with_capacity(alloc, BLOCKS) else {
        return false;
    };
    let is_taken = take_all(alloc, &mut held).is_ok();
    put_many(rt, recorder);
    is_taken
}

// What is done to a recorder.
#[derive(Clone, Copy)]
enum Act {
    // A line is put, for which nothing is due yet, with its `up` line, if it has one.
    Put(&'static str, Option<&'static str>),
    // Those that were put are written, or cannot be.
    Write(bool),
    // Lines are put without memory.
    Lose,
}

// Whether this is done.
fn is_done<R: Wait>(rt: &R, alloc: Global, recorder: &Recorder<Memory>, act: Act) -> bool {
    match act {
        Put(step, up) => {
            recorder.put(rt, &Told::new(step, up));
            !recorder.is_due()
        }
        Write(is_written) => recorder.write(rt).is_ok() == is_written,
        Lose => put_without_memory(rt, alloc, recorder),
    }
}

// Whether all of it is done.
fn are_done<R: Wait>(rt: &R, alloc: Global, recorder: &Recorder<Memory>, acts: &[Act]) -> bool {
    for &act in acts {
        if !is_done(rt, alloc, recorder, act) {
            return false;
        }
    }
    true
}

// How many calls of the files are done, what is done to a recorder over them, how many calls there are, and what the files have then.
struct Left(u32, &'static [Act], u32, &'static str, usize, &'static str);

const LEFT: &[Left] = &[
    // A recorder writes each line once, in the order in which they were put, and calls the files only where lines are there.
    Left(
        9,
        &[
            Put("b", None),
            Put("a", Some("up a")),
            Put("c", Some("up c")),
            Write(true),
            Write(true),
            Put("d", None),
            Write(true),
        ],
        6,
        "b\na\nc\nd\n",
        8,
        "up a\nup c\n",
    ),
    // After a failed write every further one fails, also where nothing was put since, and the files are not called again.
    Left(
        0,
        &[Put("a", None), Write(false), Write(false)],
        1,
        "a",
        0,
        "",
    ),
    // Where a line was put for which no memory was left, every write fails from then on, also once there is memory again, and no line of
    // those that were kept is written.
    Left(9, &[Lose, Write(false)], 0, "", 0, ""),
];

// Whether it is left so.
fn is_left<R: Wait>(rt: &R, alloc: Global, left: &Left) -> bool {
    let &Left(done, acts, calls, steps, safe, ups) = left;
    let Ok(recorder) = Recorder::new(alloc, RecordWriter::new(Memory::new(alloc, done))) else {
        return false;
    };
    let are_done = are_done(rt, alloc, &recorder, acts);
    let disk = recorder.into_disk();
    are_done && disk.calls == calls && has(&disk, steps, safe, ups)
}

// Whether each is.
fn are_left<R: Wait>(rt: &R, alloc: Global) -> bool {
    for left in LEFT {
        if !is_left(rt, alloc, left) {
            return false;
        }
    }
    true
}

#[test]
fn recorders_write_once_and_forget_no_failure(rt: HostRuntime) {
    assert!(rt; are_left(&rt, rt.alloc()));
}
