//! Streams that fail, and those over std's.

use crate::frames::answers::Answers;
use crate::frames::ask::Ask;
use ns_types::{Fuse, OverStd, ReadFault, Sink, Source, Stream, read_all, write_all};
use std::io::{Error, ErrorKind, Read, Write};

// Puts what is read of a source, or `io`, and whether it has failed.
fn put_read<S: Source>(source: &mut S, out: &mut Answers) {
    if !source.failed() {
        match read_all(out.alloc(), source) {
            Ok(bytes) => out.hex(bytes.as_slice()),
            Err(ReadFault::Io) => out.word("io"),
            Err(ReadFault::NoMemory) => out.word("no memory"),
        }
    }
    out.either(source.failed(), "failed", "sound");
}

// Puts whether all is written to a sink, and whether it has failed.
fn put_written<S: Sink>(sink: &mut S, bytes: &[u8], out: &mut Answers) {
    if !sink.failed() {
        out.either(write_all(sink, bytes).is_ok(), "written", "io");
    }
    out.either(sink.failed(), "failed", "sound");
}

/// bytes, most, fails: what is read of a source that gives at most so many bytes a read and fails at one.
pub fn read(ask: Ask, bytes: &[u8], out: &mut Answers) {
    let most = ask.number::<u32>("most").max(1) as usize;
    if let Ok(bytes) = Vec::from_slice(out.alloc(), bytes) {
        let mut source = Fuse::new(out.alloc(), bytes, most, ask.option("fails"), None);
        put_read(&mut source, out);
    }
}

/// bytes, most, fails: whether all is written to a sink that takes at most so many bytes a write and fails at one, and what it has taken.
pub fn write(ask: Ask, bytes: &[u8], out: &mut Answers) {
    let most = ask.number::<u32>("most").max(1) as usize;
    let alloc = out.alloc();
    let mut sink = Fuse::new(alloc, Vec::new(alloc), most, None, ask.option("fails"));
    put_written(&mut sink, bytes, out);
    out.hex(sink.written());
}

// Puts whether all is written to a `Vec` of std, and what it has then.
fn put_in_vec(bytes: &[u8], out: &mut Answers) {
    let mut sink = OverStd::new(Vec::new(out.alloc()));
    put_written(&mut sink, bytes, out);
    out.hex(sink.into_inner().as_slice());
}

/// bytes, room: the bytes read from a slice of std, written to its `Vec`, and written to a slice of so much room.
pub fn over_std(ask: Ask, bytes: &[u8], out: &mut Answers) {
    let mut room = [0; 256];
    put_read(&mut OverStd::new(bytes), out);
    put_in_vec(bytes, out);
    put_written(&mut OverStd::new(ask.bytes("room", &mut room)), bytes, out);
}

// Moves one byte a call, and fails at one call, in this way.
#[derive(Drop)]
struct FailsAt {
    calls: u8,
    at: u8,
    kind: ErrorKind,
}

impl FailsAt {
    fn moved(&mut self) -> std::io::Result<usize> {
        let fails = self.calls == self.at;
        self.calls = self.calls.wrapping_add(1);
        if fails {
            return Err(Error::from(self.kind));
        }
        Ok(1)
    }
}

impl Read for FailsAt {
    fn read(&mut self, buf: &mut [u8]) -> std::io::Result<usize> {
        let moved = self.moved()?.min(buf.len());
        Ok(moved)
    }
}

impl Write for FailsAt {
    fn write(&mut self, buf: &[u8]) -> std::io::Result<usize> {
        let moved = self.moved()?.min(buf.len());
        Ok(moved)
    }

    fn flush(&mut self) -> std::io::Result<()> {
        Ok(())
    }
}

// A stream of std that fails at the call behind `at`, in the way behind `by`.
fn fails_at(ask: Ask) -> OverStd<FailsAt> {
    OverStd::new(FailsAt {
        calls: 0,
        at: ask.number("at"),
        kind: match ask.value("by") {
            "interrupted" => ErrorKind::Interrupted,
            "timed_out" => ErrorKind::TimedOut,
            _ => ErrorKind::OutOfMemory,
        },
    })
}

// Whether a read, or a write, moves a byte.
fn moves(stream: &mut OverStd<FailsAt>, writes: bool) -> bool {
    if stream.failed() {
        false
    } else if writes {
        stream.write(&[0; 10]).is_ok()
    } else {
        stream.read(&mut [0; 3]).is_ok()
    }
}

// Puts how many of nine reads, or writes, move a byte, and how many calls reach the stream.
fn put_nine(mut stream: OverStd<FailsAt>, writes: bool, out: &mut Answers) {
    let mut moved = 0u8;
    for _ in 0..9 {
        if moves(&mut stream, writes) {
            moved = moved.wrapping_add(1);
        }
    }
    out.number(u64::from(moved));
    out.number(u64::from(stream.into_inner().calls));
}

/// at, by: of nine reads over a stream of std that moves a byte a call and fails at one, how many move a byte, and how many calls reach it;
/// the same of nine writes; and what comes of reading and of writing all.
pub fn fails(ask: Ask, out: &mut Answers) {
    put_nine(fails_at(ask), false, out);
    put_nine(fails_at(ask), true, out);
    put_read(&mut fails_at(ask), out);
    put_written(&mut fails_at(ask), &[0; 10], out);
}
