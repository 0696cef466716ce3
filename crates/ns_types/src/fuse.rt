//! A stream over memory that fails when it is told to.

ghost use Rattle.std.specs.Prelude.{◌≡◌, ◌<◌, ◌≤◌, Some, IfOk, IsErr, drop, vec_len, [], length, min, false, true, is_err};
ghost use Rattle.std.specs.Io.{ReadsAtMost};
ghost use Rattle.std.specs.Io.KnownBytes.{ReadConsumes, WriteAppends};
ghost use Rattle.ns_types.specs.Streams.{FuseState, is_due, one_fewer};

use crate::stream::{Failed, Sink, Source, Stream};
use std::alloc::Global;
use std::marker::Model;

/// A stream over memory, both source and sink: it moves at most so many bytes a call, and fails at one read or one write. A growth
/// that is refused to it is a failure too.
#[derive(Drop)]
pub struct Fuse {
    input: Vec<u8>,
    at: usize,
    output: Vec<u8>,
    most: usize,
    reads: Option<u64>,
    writes: Option<u64>,
    failed: bool,
}

impl Model for Fuse {
    ghost Value = { FuseState };

    ghost view = { λ f. record { left = drop f.at f.input.items; taken = f.output.items; most = f.most; reads = f.reads; writes = f.writes; failed = f.failed } };

    ghost invariant = { λ f. (f.at ≤ vec_len f.input) × (0 < f.most) };
}

impl Fuse {
    /// A stream that gives these bytes and moves at most `most` of them a call. It fails at the read after the first `reads` of them,
    /// so `Some(0)` at the first and `None` at none, and likewise at a write.
    pub fn new(
        alloc: Global,
        input: Vec<u8>,
        most: usize,
        reads: Option<u64>,
        writes: Option<u64>,
    ) -> Self
        requires { 0 < most }
        ensures { result ≡ record { left = input.items; taken = []; most = most; reads = reads; writes = writes; failed = false } }
    {
        Fuse {
            input,
            at: 0,
            output: Vec::new(alloc),
            most,
            reads,
            writes,
            failed: false,
        }
    }

    /// The bytes that it has taken.
    pub fn written(&self) -> &[u8]
        ensures { result.now ≡ self.now.taken }
    {
        self.output.as_slice()
    }
}

// Whether this call is the one that fails, and one call fewer is left.
fn counts_down(calls: &mut Option<u64>) -> bool
    ensures due { result ≡ is_due calls.old }
    ensures fewer { calls.new ≡ one_fewer calls.old }
{
    match calls {
        None => false,
        Some(0) => true,
        Some(n) => {
            *n -= 1;
            false
        }
    }
}

impl Stream for Fuse {
    ghost has_failed = { λ f. f.failed };

    fn failed(&self) -> bool {
        self.failed
    }
}

impl Source for Fuse {
    ghost left = { λ f. Some f.left };

    fn read(&mut self, buf: &mut [u8]) -> Result<usize, Failed>
        requires sound { self.old.failed ≡ false }
        requires room { 0 < length buf.old }
        ensures bound { ReadsAtMost result buf.new }
        ensures bytes { ReadConsumes (Some self.old.left) (Some self.new.left) result buf.new }
        ensures failed { self.new.failed ≡ is_err result }
        ensures due { is_err result ≡ is_due self.old.reads }
        ensures count { IfOk result (λ n. n ≡ min (length buf.old) (min self.old.most (length self.old.left))) }
        ensures others { self.new ≡ record self.old { left = self.new.left; reads = one_fewer self.old.reads; failed = is_err result } }
    {
        if counts_down(&mut self.reads) {
            self.failed = true;
            return Err(Failed);
        }
        let n = buf.len().min(self.most).min(self.input.len() - self.at);
        buf[..n].copy_from_slice(&self.input[self.at..self.at + n]);
        self.at += n;
        Ok(n)
    }
}

impl Sink for Fuse {
    ghost taken = { λ f. Some f.taken };

    fn write(&mut self, bytes: &[u8]) -> Result<usize, Failed>
        requires sound { self.old.failed ≡ false }
        requires some { 0 < length bytes.now }
        ensures moved { IfOk result (λ n. 0 < n) }
        ensures bound { IfOk result (λ n. n ≤ length bytes.now) }
        ensures bytes { WriteAppends (Some self.old.taken) (Some self.new.taken) result bytes.now }
        ensures failed { self.new.failed ≡ is_err result }
        ensures count { IfOk result (λ n. n ≡ min (length bytes.now) self.old.most) }
        ensures due { is_due self.old.writes ≡ true → IsErr result }
        ensures others { self.new ≡ record self.old { taken = self.new.taken; writes = one_fewer self.old.writes; failed = is_err result } }
    {
        if counts_down(&mut self.writes) {
            self.failed = true;
            return Err(Failed);
        }
        let n = bytes.len().min(self.most);
        match self.output.extend_from_slice(&bytes[..n]) {
            Ok(()) => Ok(n),
            Err(_) => {
                self.failed = true;
                Err(Failed)
            }
        }
    }
}
