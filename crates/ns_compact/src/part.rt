//! What of the files of a record is read, and what fewer steps are written to.
ghost use Rattle.std.specs.Prelude.{◌≡◌};

use ns_log::{Log, error};
use ns_record_files::{Lengths, RecordFiles, Recorder};
use std::fs::File;
use std::io;
use std::io::{ErrorKind, Read, Take, Write};

/// How many bytes of each file of a record are read, and what goes on with the record, if a server does.
#[derive(Drop)]
pub(crate) struct Part<'a> {
    pub steps: u64,
    pub ups: u64,
    record: Option<&'a Recorder<RecordFiles>>,
}

/// So many bytes of a file. A read of them fails once the server stops that goes on with the record.
#[derive(Drop)]
pub(crate) struct PartFile<'a> {
    bytes: Take<File>,
    record: Option<&'a Recorder<RecordFiles>>,
}

impl<'a> Part<'a> {
    /// All that is there of a record with which no server goes on.
    pub fn whole() -> Part<'static> {
        Part {
            steps: u64::MAX,
            ups: u64::MAX,
            record: None,
        }
    }

    /// What a server has written by now.
    pub fn written(record: &'a Recorder<RecordFiles>, lengths: Lengths) -> Part<'a> {
        Part {
            steps: lengths.steps,
            ups: lengths.ups,
            record: Some(record),
        }
    }

    /// So many bytes of a file.
    pub fn of(&self, file: File, bytes: u64) -> PartFile<'a> {
        PartFile {
            bytes: file.take(bytes),
            record: self.record,
        }
    }
}

impl<'a> Read for PartFile<'a> {
    fn read(&mut self, buf: &mut [u8]) -> io::Result<usize> {
        match self.record {
            Some(record) if record.rests() => Err(io::Error::from(ErrorKind::TimedOut)),
            _ => self.bytes.read(buf),
        }
    }
}

/// What a call of the system gave. Where it failed, why is logged.
pub(crate) fn logged<L: Log, T: Drop>(log: &L, outcome: io::Result<T>) -> io::Result<T>
    ensures { result ≡ outcome }
{
    if let Err(error) = &outcome {
        error!(log; "record: {error}");
    }
    outcome
}

/// The file of fewer steps. Why a write of it fails is logged.
#[derive(Drop)]
pub(crate) struct NewSteps<'a, L> {
    pub log: &'a L,
    pub file: &'a File,
}

impl<'a, L: Log> Write for NewSteps<'a, L> {
    fn write(&mut self, buf: &[u8]) -> io::Result<usize> {
        logged(self.log, self.file.write(buf))
    }

    fn flush(&mut self) -> io::Result<()> {
        self.file.flush()
    }
}
