//! The stream of plain responses over a stream of responses.

ghost use Rattle.std.specs.Prelude.{◌≡◌, ◌==◌, ◌⊎◌, ◌≤◌, ◌<◌, ◌||◌, ℕ, List, [], false, true, Ok, Some, is_err, length, take, IfOk, IfSome, IsErr, OnOk, OnErr};
ghost use Rattle.std.specs.Io.{ReadsAtMost};
ghost use Rattle.std.specs.Io.KnownBytes.{ReadConsumes};
ghost use Rattle.ns_responses.specs.Held.{unready};
ghost use Rattle.ns_responses.specs.Finding.{HasSection};
ghost use Rattle.ns_responses.specs.Plain.{plain_of, version_text, is_done};
ghost use Rattle.ns_responses.specs.Reading.{given_of, left_of, whole_of, Gives, has_failed_of, Fails, steps_left};
ghost use Rattle.ns_responses.specs.declared.part.Part.TheVariants.{Head, Chunks, Trailers};

use crate::head::chunked_line;
use crate::held::Held;
use crate::part::Part;
use crate::section::read_section;
use http1::chunked::ChunkedDecoder;
use ns_types::{Failed, Sink, Source, Stream};

// How many heads are looked at.
const HEADS: usize = 16;

// The most bytes of the chunks of a body, with their lines and extensions.
const CODED_MAX: usize = 65_536;

// What a response begins with that is looked at, and an interim one.
const VERSION: &[u8] = b"HTTP/1.1 ";

const INTERIM: &[u8] = b"HTTP/1.1 1";

/// A stream that reads the responses of another in their plain form, and writes straight to it.
///
/// A head of at most 4,096 bytes with status 1xx is passed over; what follows the sixteenth is given as it came. Where the
/// body behind a head is chunked, in at most 65,536 bytes and with trailers of at most 4,096, the head is given without its
/// Transfer-Encoding, then the content of the chunks, and then the end: trailers are left out, and so is what follows them.
/// Chunks that are not lawful, or that end early, are a failure. All else is given as it came: HTTP/1.0, another coding
/// than `chunked`, two of them, a Transfer-Encoding beside a Content-Length, and what is no head.
#[derive(Drop)]
pub struct Responses<S> {
    stream: S,
    held: Held,
    part: Part,
    // Whether the chunks were not lawful.
    unlawful: bool,
}

impl<S: Stream> Responses<S> {
    /// A stream over one that is at the front of a response.
    pub fn new(stream: S) -> Self
        ensures stream { result.stream ≡ stream }
        ensures sound { ⟦<Responses<S> as Stream>⟧.has_failed result ≡ S.has_failed stream }
        ensures plain { (bytes : List ℕ) → given_of result bytes ≡ plain_of 16 bytes }
    {
        Responses {
            stream,
            held: Held::new(),
            part: Part::Head(HEADS),
            unlawful: false,
        }
    }
}

impl<S: Source> Responses<S> {
    // Goes on by what the head says that the unread bytes begin with, of this length, the first of so many.
    fn pass_head(&mut self, heads: usize, end: usize)
        requires part { (0 < heads) × (self.old.part ≡ Head heads) }
        requires unready { self.old.held.ready ≡ [] }
        requires head { HasSection version_text self.old.held.unread (Some end) }
        ensures gives { Gives S.left self.old self.new [] }
        ensures fewer { steps_left self.new < steps_left self.old }
        ensures sound { has_failed_of S.Stream.has_failed self.new ≡ has_failed_of S.Stream.has_failed self.old }
    {
        let unread = self.held.unread();
        let behind = unread.len() - end;
        let head = &unread[..end];
        if head.starts_with(INTERIM) {
            self.held.skip(end);
            self.part = Part::Head(heads - 1);
        } else if let Some(line) = chunked_line(head) {
            self.held.cut(line.start, line.end);
            self.held.release(end - (line.end - line.start));
            self.part = Part::Chunks {
                decoder: ChunkedDecoder::new(CODED_MAX),
                room: CODED_MAX - behind,
            };
        } else {
            self.part = Part::Unchanged;
        }
    }

    // Reads a head, the first of so many.
    fn read_head(&mut self, heads: usize) -> Result<(), Failed>
        requires part { self.old.part ≡ Head heads }
        requires unready { self.old.held.ready ≡ [] }
        requires sound { has_failed_of S.Stream.has_failed self.old ≡ false }
        ensures gives { Gives S.left self.old self.new [] }
        ensures fewer { OnOk result (steps_left self.new < steps_left self.old) }
        ensures sound { OnOk result (has_failed_of S.Stream.has_failed self.new ≡ false) }
        ensures fault { OnErr result (Fails S.left S.Stream.has_failed self.new) }
    {
        if heads == 0 {
            self.part = Part::Unchanged;
            return Ok(());
        }
        match read_section(&mut self.held, &mut self.stream, VERSION)? {
            Some(end) => self.pass_head(heads, end),
            None => self.part = Part::Unchanged,
        }
        Ok(())
    }

    // The failure of chunks that are not lawful.
    fn refuse(&mut self) -> Failed
        ensures { self.new ≡ record self.old { unlawful = true } }
    {
        self.unlawful = true;
        Failed
    }

    // Reads more of the chunks.
    fn read_chunks(&mut self, decoder: ChunkedDecoder, room: usize) -> Result<(), Failed>
        requires part { self.old.part ≡ Chunks decoder room }
        requires unfinished { is_done decoder.state ≡ false }
        requires empty { self.old.held ≡ unready [] }
        requires sound { has_failed_of S.Stream.has_failed self.old ≡ false }
        ensures gives { Gives S.left self.old self.new [] }
        ensures fewer { OnOk result (steps_left self.new < steps_left self.old) }
        ensures sound { OnOk result (has_failed_of S.Stream.has_failed self.new ≡ false) }
        ensures fault { OnErr result (Fails S.left S.Stream.has_failed self.new) }
    {
        if room == 0 {
            return Err(self.refuse());
        }
        let n = self.held.fill(&mut self.stream, room)?;
        if n == 0 {
            return Err(self.refuse());
        }
        self.part = Part::Chunks {
            decoder,
            room: room - n,
        };
        Ok(())
    }

    // Looks at the unread bytes of the chunks, up to the end of the first data among them.
    fn decode(&mut self, decoder: ChunkedDecoder, room: usize) -> Result<(), Failed>
        requires part { self.old.part ≡ Chunks decoder room }
        requires unfinished { is_done decoder.state ≡ false }
        requires unready { (self.old.held.ready ≡ []) × (0 < length self.old.held.unread) }
        requires sound { has_failed_of S.Stream.has_failed self.old ≡ false }
        ensures gives { Gives S.left self.old self.new [] }
        ensures fewer { OnOk result (steps_left self.new < steps_left self.old) }
        ensures sound { OnOk result (has_failed_of S.Stream.has_failed self.new ≡ false) }
        ensures fault { OnErr result (Fails S.left S.Stream.has_failed self.new) }
    {
        let mut next = decoder;
        match next.decode(self.held.unread()) {
            Ok(span) => {
                self.held.skip(span.start);
                self.held.release(span.end - span.start);
                self.part = Part::Chunks {
                    decoder: next,
                    room,
                };
                Ok(())
            }
            Err(_) => Err(self.refuse()),
        }
    }

    // Goes on with the chunks.
    fn pass_chunks(&mut self, decoder: ChunkedDecoder, room: usize) -> Result<(), Failed>
        requires part { self.old.part ≡ Chunks decoder room }
        requires unready { self.old.held.ready ≡ [] }
        requires sound { has_failed_of S.Stream.has_failed self.old ≡ false }
        ensures gives { Gives S.left self.old self.new [] }
        ensures fewer { OnOk result (steps_left self.new < steps_left self.old) }
        ensures sound { OnOk result (has_failed_of S.Stream.has_failed self.new ≡ false) }
        ensures fault { OnErr result (Fails S.left S.Stream.has_failed self.new) }
    {
        if decoder.is_done() {
            self.part = Part::Trailers;
            return Ok(());
        }
        if self.held.unread().is_empty() {
            self.read_chunks(decoder, room)
        } else {
            self.decode(decoder, room)
        }
    }

    // Reads the trailer section.
    fn read_trailers(&mut self) -> Result<(), Failed>
        requires part { self.old.part ≡ Trailers }
        requires unready { self.old.held.ready ≡ [] }
        requires sound { has_failed_of S.Stream.has_failed self.old ≡ false }
        ensures gives { Gives S.left self.old self.new [] }
        ensures fewer { OnOk result (steps_left self.new < steps_left self.old) }
        ensures sound { OnOk result (has_failed_of S.Stream.has_failed self.new ≡ false) }
        ensures fault { OnErr result (Fails S.left S.Stream.has_failed self.new) }
    {
        match read_section(&mut self.held, &mut self.stream, b"")? {
            Some(_) => {
                self.part = Part::Ended;
                Ok(())
            }
            None => Err(self.refuse()),
        }
    }

    // Takes one step on to bytes that are ready, or to where no more is to be looked at.
    fn step(&mut self) -> Result<(), Failed>
        requires unready { 0 < steps_left self.old }
        requires sound { has_failed_of S.Stream.has_failed self.old ≡ false }
        ensures gives { Gives S.left self.old self.new [] }
        ensures fewer { OnOk result (steps_left self.new < steps_left self.old) }
        ensures sound { OnOk result (has_failed_of S.Stream.has_failed self.new ≡ false) }
        ensures fault { OnErr result (Fails S.left S.Stream.has_failed self.new) }
    {
        match self.part {
            Part::Head(heads) => self.read_head(heads),
            Part::Chunks { decoder, room } => self.pass_chunks(decoder, room),
            Part::Trailers => self.read_trailers(),
            Part::Unchanged | Part::Ended => Ok(()),
        }
    }

    // Whether bytes are ready, or no more is to be looked at.
    fn is_settled(&self) -> bool
        ensures { result ≡ (steps_left self.now == 0) }
    {
        self.held.is_ready() || matches!(self.part, Part::Unchanged | Part::Ended)
    }

    // Reads until bytes are ready, or no more is to be looked at.
    fn settle(&mut self) -> Result<(), Failed>
        requires sound { has_failed_of S.Stream.has_failed self.old ≡ false }
        ensures gives { Gives S.left self.old self.new [] }
        ensures settled { OnOk result (steps_left self.new ≡ 0) }
        ensures sound { OnOk result (has_failed_of S.Stream.has_failed self.new ≡ false) }
        ensures fault { OnErr result (Fails S.left S.Stream.has_failed self.new) }
    {
        while !self.is_settled() {
            self.step()?;
        }
        Ok(())
    }
}

impl<S: Stream> Stream for Responses<S> {
    ghost has_failed = { has_failed_of S.has_failed };

    fn failed(&self) -> bool {
        self.unlawful || self.stream.failed()
    }
}

impl<S: Source> Source for Responses<S> {
    ghost left = { left_of S.left };

    fn read(&mut self, buf: &mut [u8]) -> Result<usize, Failed>
        requires sound { has_failed_of S.Stream.has_failed self.old ≡ false }
        requires room { 0 < length buf.old }
        ensures bound { ReadsAtMost result buf.new }
        ensures bytes { ReadConsumes (left_of S.left self.old) (left_of S.left self.new) result buf.new }
        ensures failed { has_failed_of S.Stream.has_failed self.new ≡ is_err result }
        // Bytes of the stream came, and those that are given stand at the front of what is given in their place.
        ensures gives { IfOk result (λ n. Gives S.left self.old self.new (take n buf.new)) }
        // The end comes where that is whole, and a failure where it is not, or where the stream fails.
        ensures ended { result ≡ Ok 0 → IfSome (whole_of S.left self.old) (λ whole. whole ≡ true) }
        ensures fault { IsErr result → (S.Stream.has_failed self.new.stream ≡ true)
            ⊎ IfSome (whole_of S.left self.old) (λ whole. whole ≡ false) }
    {
        self.settle()?;
        if !self.held.is_ready() {
            let unread = self.held.unread().len();
            match self.part {
                Part::Unchanged if unread == 0 => return self.stream.read(buf),
                Part::Unchanged => self.held.release(unread),
                _ => return Ok(0),
            }
        }
        Ok(self.held.give(buf))
    }
}

impl<S: Sink> Sink for Responses<S> {
    ghost taken = { λ r. S.taken r.stream };

    fn write(&mut self, bytes: &[u8]) -> Result<usize, Failed> {
        self.stream.write(bytes)
    }
}
