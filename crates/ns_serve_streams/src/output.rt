//! The output, which all workers share.
ghost use Rattle.std.specs.Prelude.{◌≡◌, ◌≢◌, [], false, true, None, Err, OnOk, OnErr};
ghost use Rattle.std.specs.Io.KnownBytes.{Appends, append_known};
ghost use Rattle.std.specs.Net.Text.{socket_text};
ghost use Rattle.ns_types.specs.Streams.{AppendsFront};
ghost use Rattle.ns_serve_parts.specs.Lines.{line};
ghost use Rattle.ns_serve_streams.specs.Output.{settled_line, address_line, IsPut};

use arrayvec::ArrayVec;
use itoa::Buffer;
use ns_lines::Line;
use ns_serve_parts::ServeFault;
use ns_types::{Failed, Sink, Stream, write_all};
use std::alloc::Global;
use std::net::SocketAddr;
use std::sync::{Mutex, Wait};

/// A writer, and whole lines that are not written yet. What it has been told is what the writer has, and then these lines.
#[derive(Drop)]
pub struct Output<W> {
    writer: W,
    lines: ArrayVec<u8, 8192>,
}

impl<W: Sink> Output<W> {
    /// An output with no lines.
    pub fn new(writer: W) -> Output<W>
        ensures writer { result.writer ≡ writer }
        ensures lines { result.lines.items ≡ [] }
    {
        Output {
            writer,
            lines: ArrayVec::new(),
        }
    }

    /// Adds whole lines. Where there is no room for them, those before them are written first.
    pub fn put(&mut self, lines: &[u8]) -> Result<(), Failed>
        ensures ok { OnOk result (Appends (append_known (W.taken self.old.writer) self.old.lines.items)
            (append_known (W.taken self.new.writer) self.new.lines.items) lines.now) }
        ensures failed { OnErr result (W.has_failed self.new.writer ≡ true) }
    {
        if self.lines.try_extend_from_slice(lines).is_ok() {
            return Ok(());
        }
        self.flush()?;
        if self.lines.try_extend_from_slice(lines).is_ok() {
            return Ok(());
        }
        write_whole(&mut self.writer, lines)
    }

    /// Adds whole lines, and writes all that there are.
    pub fn put_at_once(&mut self, lines: &[u8]) -> Result<(), Failed>
        ensures ok { OnOk result (Appends (append_known (W.taken self.old.writer) self.old.lines.items)
            (W.taken self.new.writer) lines.now) }
        ensures empty { OnOk result (self.new.lines.items ≡ []) }
        ensures failed { OnErr result (W.has_failed self.new.writer ≡ true) }
    {
        self.put(lines)?;
        self.flush()
    }

    /// Writes the lines that are not written yet. Those that could not be written are lost.
    pub fn flush(&mut self) -> Result<(), Failed>
        ensures ok { OnOk result (Appends (W.taken self.old.writer) (W.taken self.new.writer) self.old.lines.items) }
        ensures front { AppendsFront (W.taken self.old.writer) (W.taken self.new.writer) self.old.lines.items }
        ensures empty { self.new.lines.items ≡ [] }
        ensures failed { OnErr result (W.has_failed self.new.writer ≡ true) }
    {
        let written = write_whole(&mut self.writer, self.lines.as_slice());
        self.lines.clear();
        written
    }

    /// Adds a line, with a line feed.
    pub fn put_line(&mut self, text: &str) -> Result<(), ServeFault>
        ensures ok { OnOk result (Appends (append_known (W.taken self.old.writer) self.old.lines.items)
            (append_known (W.taken self.new.writer) self.new.lines.items) (line text.now)) }
        ensures failed { OnErr result (W.has_failed self.new.writer ≡ true) }
        ensures io { result ≢ Err ServeFault.NoMemory }
    {
        if self.put(text.as_bytes()).is_err() || self.put(b"\n").is_err() {
            return Err(ServeFault::Io);
        }
        Ok(())
    }

    /// Writes an address at which gateways are heard, behind a word.
    pub fn put_address(
        &mut self,
        alloc: Global,
        word: &str,
        addr: SocketAddr,
    ) -> Result<(), ServeFault>
        ensures { OnOk result (Appends (append_known (W.taken self.old.writer) self.old.lines.items)
            (W.taken self.new.writer) (address_line word.now (socket_text addr))) }
    {
        let Ok(text) = format!(in alloc; "{word} {addr}") else {
            return Err(ServeFault::NoMemory);
        };
        self.put_line(text.as_str())?;
        self.flush_all()
    }

    /// Writes how many entries there are.
    pub fn put_settled(&mut self, total: u128) -> Result<(), ServeFault>
        ensures empty { OnOk result (self.new.lines.items ≡ []) }
        ensures ok { OnOk result (Appends (append_known (W.taken self.old.writer) self.old.lines.items)
            (W.taken self.new.writer) (settled_line total)) }
    {
        let mut text = Line::new();
        text.push_str("settled ");
        text.push_str(Buffer::new().format(total));
        self.put_line(text.as_str())?;
        self.flush_all()
    }

    /// Writes the text of the closing roster, with a line feed.
    pub fn put_closing(&mut self, text: &str) -> Result<(), ServeFault>
        ensures { OnOk result (Appends (append_known (W.taken self.old.writer) self.old.lines.items)
            (W.taken self.new.writer) (line text.now)) }
    {
        self.put_line(text)?;
        self.flush_all()
    }

    // Writes the lines that are not written yet.
    fn flush_all(&mut self) -> Result<(), ServeFault>
        ensures empty { self.new.lines.items ≡ [] }
        ensures ok { OnOk result (Appends (W.taken self.old.writer) (W.taken self.new.writer) self.old.lines.items) }
    {
        if self.flush().is_err() {
            return Err(ServeFault::Io);
        }
        Ok(())
    }
}

/// Writes all the bytes, where the writer has not failed before.
pub fn write_whole<W: Sink>(writer: &mut W, bytes: &[u8]) -> Result<(), Failed>
    ensures ok { OnOk result (Appends (W.taken writer.old) (W.taken writer.new) bytes.now) }
    ensures front { AppendsFront (W.taken writer.old) (W.taken writer.new) bytes.now }
    ensures failed { OnErr result (W.has_failed writer.new ≡ true) }
{
    if writer.failed() {
        return Err(Failed);
    }
    write_all(writer, bytes)
}

/// The output as a gateway worker's sink: what is written in one call is taken whole, so that no line is torn, and written at once.
#[derive(Drop)]
pub struct Lines<'a, R, W> {
    rt: &'a R,
    output: &'a Mutex<Output<W>>,
    failed: bool,
}

impl<'a, R, W> Lines<'a, R, W> {
    /// A sink that has not failed.
    pub fn new(rt: &'a R, output: &'a Mutex<Output<W>>) -> Self
        ensures { ⟦<Lines<'a, R, W> as Stream>⟧.has_failed result ≡ false }
    {
        Lines {
            rt,
            output,
            failed: false,
        }
    }
}

impl<'a, R, W> Stream for Lines<'a, R, W> {
    ghost has_failed = { λ s. s.failed };

    fn failed(&self) -> bool {
        self.failed
    }
}

/// Adds whole lines under the lock of the output, and writes them at once. The contract has no name for the output under its lock: it
/// says of some output that it was told these lines, and that its writer has all that it was told.
#[tactic(auto, using(crate::proofs::OutputLemmas::is_put))]
pub fn put_under_lock<R: Wait, W: Sink>(
    rt: &R,
    output: &Mutex<Output<W>>,
    lines: &[u8],
) -> Result<(), Failed>
    ensures ok { OnOk result (IsPut W.taken lines.now) }
    ensures failed { OnErr result ((writer : W) × (W.has_failed writer ≡ true)) }
{
    let mut guard = output.lock(rt);
    guard.put_at_once(lines)
}

impl<'a, R: Wait, W: Sink> Sink for Lines<'a, R, W> {
    ghost taken = { λ _. None };

    fn write(&mut self, bytes: &[u8]) -> Result<usize, Failed> {
        match put_under_lock(self.rt, self.output, bytes) {
            Ok(()) => Ok(bytes.len()),
            Err(_) => {
                self.failed = true;
                Err(Failed)
            }
        }
    }
}
