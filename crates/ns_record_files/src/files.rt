//! The two files of a record in a folder.
ghost use Rattle.std.specs.Prelude.{None};

use crate::disk::Disk;
use crate::swap::{Swap, swap_in};
use ns_log::{Log, error, warn};
use ns_types::Failed;
use std::alloc::Global;
use std::fs::{File, OpenOptions, TryLockError};
use std::io::Write;
use std::os::unix::fs::{FileExt, OpenOptionsExt};
use std::rt::Files;
use std::{fs, io};
use thiserror::Error;

/// Why the files of a record were not opened.
#[derive(Clone, Copy, Debug, Error)]
pub enum FilesFault {
    /// A growth was refused.
    #[error("no memory")]
    NoMemory,
    /// A file could not be made, opened or locked.
    #[error("record: io")]
    Io,
    /// Another program has the record.
    #[error("record: in use")]
    InUse,
}

/// How many bytes the files of a record have.
#[derive(Clone, Copy)]
pub struct Lengths {
    pub steps: u64,
    pub ups: u64,
}

/// The files `steps` and `up` of a folder, of which no other program has the lock. They are for their owner alone: the steps have session
/// keys.
#[derive(Drop)]
pub struct RecordFiles {
    // The folder is locked, since other steps may take the place of these, and these too.
    folder: File,
    steps: File,
    ups: File,
    // Whether a step outlives the end of the machine, and not that of the program alone.
    sync: bool,
    failure: Option<io::Error>,
}

// The value of a call of the system. Where there is none, why is logged.
pub(crate) fn told<L: Log, T: Drop>(log: &L, outcome: io::Result<T>) -> Result<T, FilesFault> {
    match outcome {
        Ok(value) => Ok(value),
        Err(error) => {
            error!(log; "record: {error}");
            Err(FilesFault::Io)
        }
    }
}

// The path of a file of a folder.
fn path_of(alloc: Global, folder: &str, name: &str) -> Result<String, FilesFault> {
    match format!(in alloc; "{folder}/{name}") {
        Ok(path) => Ok(path),
        Err(_) => Err(FilesFault::NoMemory),
    }
}

// Opens a file to be read and to be appended to. It is made where it is not there.
fn open_file<R: Files<File = File>>(rt: &R, path: &str) -> io::Result<File> {
    let mut how = OpenOptions::new();
    how.read(true).append(true).create(true).mode(0o600);
    how.open(rt, path)
}

// Opens a file of a folder, as `open_file` does.
fn open_in<R: Files<File = File>, L: Log>(
    rt: &R,
    log: &L,
    alloc: Global,
    folder: &str,
    name: &str,
) -> Result<File, FilesFault> {
    let path = path_of(alloc, folder, name)?;
    told(log, open_file(rt, path.as_str()))
}

// Opens the file of the steps of a folder, and takes its lock.
fn open_locked<R: Files<File = File>, L: Log>(
    rt: &R,
    log: &L,
    alloc: Global,
    folder: &str,
) -> Result<File, FilesFault> {
    let steps = open_in(rt, log, alloc, folder, "steps")?;
    lock(log, &steps)?;
    Ok(steps)
}

// Takes a lock that ends with the program.
fn lock<L: Log>(log: &L, file: &File) -> Result<(), FilesFault> {
    match file.try_lock() {
        Ok(()) => Ok(()),
        Err(TryLockError::WouldBlock) => Err(FilesFault::InUse),
        Err(TryLockError::Error(error)) => told(log, Err(error)),
    }
}

// Cuts bytes off the end of a file.
fn cut(file: &File, bytes: u64) -> io::Result<()> {
    if bytes == 0 {
        return Ok(());
    }
    let len = file.metadata()?.len();
    file.set_len(len.saturating_sub(bytes))
}

// Cuts zeros off the end of a file, which no line has, and says how many: a crash of the machine may keep the length of a file and not what
// was written last.
fn cut_zeros(file: &File) -> io::Result<u64> {
    let len = file.metadata()?.len();
    let mut byte = [0u8];
    for zeros in 0..len {
        file.read_exact_at(&mut byte, len - 1 - zeros)?;
        if byte != [0u8] {
            cut(file, zeros)?;
            return Ok(zeros);
        }
    }
    cut(file, len)?;
    Ok(len)
}

// The same, where it is logged.
fn cut_end<L: Log>(log: &L, file: &File, name: &str) -> Result<(), FilesFault> {
    let zeros = told(log, cut_zeros(file))?;
    if zeros > 0 {
        warn!(log; "record: {zeros} zeros are cut off the end of {name}");
    }
    Ok(())
}

/// Opens a file of a record's folder, to be read from its beginning.
pub fn read_again<R: Files<File = File>, L: Log>(
    rt: &R,
    log: &L,
    alloc: Global,
    folder: &str,
    name: &str,
) -> Result<File, FilesFault> {
    let path = path_of(alloc, folder, name)?;
    told(log, File::open(rt, path.as_str()))
}

/// Fewer steps, in the file `steps.new` of a folder, before they take the place of its steps.
#[derive(Drop)]
pub struct ShorterSteps {
    file: File,
    path: String,
    steps_path: String,
}

impl ShorterSteps {
    /// Makes the file, for its owner alone, without bytes.
    pub fn create<R: Files<File = File>, L: Log>(
        rt: &R,
        log: &L,
        alloc: Global,
        folder: &str,
    ) -> Result<ShorterSteps, FilesFault> {
        let path = path_of(alloc, folder, "steps.new")?;
        let mut how = OpenOptions::new();
        how.write(true).create(true).truncate(true).mode(0o600);
        Ok(ShorterSteps {
            file: told(log, how.open(rt, path.as_str()))?,
            path,
            steps_path: path_of(alloc, folder, "steps")?,
        })
    }

    /// Lends the file, to be written from where it was written last.
    pub fn file(&self) -> &File {
        &self.file
    }

    /// Writes its first bytes anew.
    pub fn begin_with<L: Log>(&self, log: &L, bytes: &[u8]) -> Result<(), FilesFault> {
        told(log, self.file.write_all_at(bytes, 0))
    }

    /// Brings it to the disk.
    pub fn sync<L: Log>(&self, log: &L) -> Result<(), FilesFault> {
        told(log, self.file.sync_all())
    }

    /// Whether it still has its name, as far as can be told.
    pub(crate) fn has_own_name<R: Files<File = File>>(&self, rt: &R) -> bool {
        fs::exists(rt, self.path.as_str()).unwrap_or(false)
    }

    /// Takes the file away, where it still has its name, so that it takes no room.
    pub fn remove<R: Files<File = File>>(&self, rt: &R) {
        let _ = fs::remove_file(rt, self.path.as_str());
    }
}

impl RecordFiles {
    /// Opens the files of a folder, which are made where they are not there, takes their lock, and cuts zeros off their ends. With `sync` a
    /// step that was written outlives the end of the machine, without it that of the program.
    pub fn open<R: Files<File = File>, L: Log>(
        rt: &R,
        log: &L,
        alloc: Global,
        folder: &str,
        sync: bool,
    ) -> Result<RecordFiles, FilesFault> {
        let place = told(log, File::open(rt, folder))?;
        lock(log, &place)?;
        let files = RecordFiles {
            folder: place,
            steps: open_locked(rt, log, alloc, folder)?,
            ups: open_in(rt, log, alloc, folder, "up")?,
            sync,
            failure: None,
        };
        files.begin(log)?;
        Ok(files)
    }

    // Brings the folder to the disk, in which the files may be new, and cuts zeros off their ends.
    fn begin<L: Log>(&self, log: &L) -> Result<(), FilesFault> {
        told(log, self.folder.sync_all())?;
        cut_end(log, &self.steps, "steps")?;
        cut_end(log, &self.ups, "up")
    }

    /// Lends the file of the steps, to be read from where it was read last.
    pub fn steps(&self) -> &File {
        &self.steps
    }

    /// Lends the file of the `up` lines.
    pub fn ups(&self) -> &File {
        &self.ups
    }

    /// Why a call of them failed, if one has.
    pub fn failure(&self) -> &Option<io::Error> {
        &self.failure
    }

    /// Brings both files to the disk, and tells how many bytes the `up` lines have.
    pub fn sync_all<L: Log>(&self, log: &L) -> Result<u64, FilesFault> {
        told(log, self.steps.sync_all())?;
        told(log, self.ups.sync_all())?;
        Ok(told(log, self.ups.metadata())?.len())
    }

    /// Puts fewer steps, of this folder, in the place of these: after a crash at any moment the folder has the ones or the others. The lines
    /// of these are not appended to from then on.
    pub fn replace<R: Files<File = File>, L: Log>(
        &self,
        rt: &R,
        log: &L,
        shorter: &ShorterSteps,
    ) -> Result<(), FilesFault> {
        let folder = &self.folder;
        let mut swap = InFolder {
            rt,
            log,
            folder,
            shorter,
        };
        match swap_in(&mut swap) {
            Ok(()) => Ok(()),
            Err(_) => Err(FilesFault::Io),
        }
    }

    /// The files of the same record with fewer steps, of which no other program has the lock.
    pub(crate) fn over<R: Files<File = File>, L: Log>(
        &self,
        rt: &R,
        log: &L,
        shorter: &ShorterSteps,
    ) -> Result<RecordFiles, FilesFault> {
        let mut how = OpenOptions::new();
        how.read(true).append(true);
        let steps = told(log, how.open(rt, shorter.path.as_str()))?;
        lock(log, &steps)?;
        Ok(RecordFiles {
            folder: told(log, self.folder.try_clone())?,
            steps,
            ups: told(log, self.ups.try_clone())?,
            sync: self.sync,
            failure: None,
        })
    }

    /// How many bytes the files have.
    pub(crate) fn lengths(&self) -> io::Result<Lengths> {
        Ok(Lengths {
            steps: self.steps.metadata()?.len(),
            ups: self.ups.metadata()?.len(),
        })
    }

    // Whether a call of the system was done. Where it was not, why is kept.
    fn keep(&mut self, outcome: io::Result<()>) -> Result<(), Failed> {
        match outcome {
            Ok(()) => Ok(()),
            Err(error) => {
                self.failure = Some(error);
                Err(Failed)
            }
        }
    }

    /// Cuts torn lines off the ends, of so many bytes, and appends the `up` lines that are missing.
    pub fn mend(&mut self, torn: usize, up_torn: usize, missing: &[u8]) -> Result<(), Failed> {
        let cut_steps = cut(&self.steps, torn as u64);
        self.keep(cut_steps)?;
        let cut_ups = cut(&self.ups, up_torn as u64);
        self.keep(cut_ups)?;
        self.sync_steps()?;
        self.append_ups(missing)
    }
}

// A folder in which fewer steps take the place of those of a record.
#[derive(Drop)]
struct InFolder<'a, R, L> {
    rt: &'a R,
    log: &'a L,
    folder: &'a File,
    shorter: &'a ShorterSteps,
}

// Whether a call of the system was done. Where it was not, why is logged.
fn done<L: Log>(log: &L, outcome: io::Result<()>) -> Result<(), Failed> {
    match told(log, outcome) {
        Ok(()) => Ok(()),
        Err(_) => Err(Failed),
    }
}

impl<'a, R: Files<File = File>, L: Log> Swap for InFolder<'a, R, L> {
    ghost moments = { λ _. None };

    fn sync_new(&mut self) -> Result<(), Failed> {
        done(self.log, self.shorter.file.sync_all())
    }

    fn rename(&mut self) -> Result<(), Failed> {
        let (from, to) = (&self.shorter.path, &self.shorter.steps_path);
        done(self.log, fs::rename(self.rt, from.as_str(), to.as_str()))
    }

    fn sync_names(&mut self) -> Result<(), Failed> {
        done(self.log, self.folder.sync_all())
    }
}

impl Disk for RecordFiles {
    ghost moments = { λ _. None };

    fn append_steps(&mut self, bytes: &[u8]) -> Result<(), Failed> {
        let written = self.steps.write_all(bytes);
        self.keep(written)
    }

    fn sync_steps(&mut self) -> Result<(), Failed> {
        if !self.sync {
            return Ok(());
        }
        let synced = self.steps.sync_data();
        self.keep(synced)
    }

    fn append_ups(&mut self, bytes: &[u8]) -> Result<(), Failed> {
        let written = self.ups.write_all(bytes);
        self.keep(written)
    }
}
