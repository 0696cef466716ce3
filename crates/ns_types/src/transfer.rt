//! Reading a source to its end, and writing all of some bytes.

ghost use Rattle.std.specs.Prelude.{◌≡◌, ◌∷◌, ◌++◌, false, true, IfOk, IfErr, OnOk, OnErr, IfSome, ◌↔◌};
ghost use Rattle.std.specs.Io.KnownBytes.{Appends, Consumes, IsAtEnd};
ghost use Rattle.ns_types.specs.Streams.{AppendsFront, ConsumesFront};
ghost use Rattle.ns_types.specs.declared.transfer.ReadFault.TheVariants.{Io, NoMemory};

use crate::stream::{Failed, Sink, Source};
use std::alloc::{AllocError, Global};

/// Why a source was not read to its end.
#[derive(Clone, Copy, Debug, PartialEq, Eq)]
pub enum ReadFault {
    /// A growth was refused.
    NoMemory,
    /// The source failed.
    Io,
}

impl From<Failed> for ReadFault {
    ghost from_gives = { λ _ e. e ≡ Io };

    fn from(_: Failed) -> ReadFault {
        ReadFault::Io
    }
}

impl From<AllocError> for ReadFault {
    ghost from_gives = { λ _ e. e ≡ NoMemory };

    fn from(_: AllocError) -> ReadFault {
        ReadFault::NoMemory
    }
}

/// All the bytes of a source. After a fault what was read is lost, and the source gives what comes behind it.
pub fn read_all<S: Source>(alloc: Global, source: &mut S) -> Result<Vec<u8>, ReadFault>
    requires { S.Stream.has_failed source.old ≡ false }
    ensures bytes { IfOk result (λ v. Consumes (S.left source.old) (S.left source.new) v.items) }
    ensures ended { OnOk result (IsAtEnd (S.left source.new)) }
    ensures sound { OnOk result (S.Stream.has_failed source.new ≡ false) }
    ensures whole { IfOk result (λ v. IfSome (S.left source.old) (λ xs. v.items ≡ xs)) }
    ensures lost { ConsumesFront (S.left source.old) (S.left source.new) }
    ensures io { IfErr result (λ e. (e ≡ Io) ↔ (S.Stream.has_failed source.new ≡ true)) }
{
    let mut bytes = Vec::new(alloc);
    let mut buf = [0u8; 8192];
    loop {
        let n = source.read(&mut buf)?;
        if n == 0 {
            return Ok(bytes);
        }
        bytes.extend_from_slice(&buf[..n])?;
    }
}

/// Writes all of some bytes. After a failure the sink has taken a front of them.
pub fn write_all<S: Sink>(sink: &mut S, bytes: &[u8]) -> Result<(), Failed>
    requires { S.Stream.has_failed sink.old ≡ false }
    ensures ok { OnOk result (Appends (S.taken sink.old) (S.taken sink.new) bytes.now) }
    ensures sound { OnOk result (S.Stream.has_failed sink.new ≡ false) }
    ensures front { AppendsFront (S.taken sink.old) (S.taken sink.new) bytes.now }
    ensures failed { OnErr result (S.Stream.has_failed sink.new ≡ true) }
{
    let mut rest = bytes;
    while !rest.is_empty() {
        let n = sink.write(rest)?;
        rest = &rest[n..];
    }
    Ok(())
}
