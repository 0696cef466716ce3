//! The files of a record in a folder: who may read them, when they are brought to the disk, and what goes on where fewer steps take the
//! place of others while lines are put, or cannot.

use crate::failures::put;
use crate::running::Deed::{
    Follow, HasLengths, Link, Lock, MakeFolder, Put, Remove, Rename, Replace, Rest,
};
use ns_log::Discard;
use ns_record_files::{
    FilesFault, LaterLines, RecordFiles, RecordWriter, Recorder, ShorterSteps, read_again,
};
use std::alloc::{Alloc, Global};
use std::fs;
use std::fs::File;
use std::io::{Read, Write, pipe};
use std::os::fd::AsRawFd;
use std::os::unix::fs::{PermissionsExt, symlink};
use std::rt::Files;
use std::sync::Wait;

// Fewer steps for a record that goes on, and the lines that follow them.
#[derive(Drop)]
struct Fewer {
    shorter: ShorterSteps,
    later: LaterLines,
}

// What is done to a record.
#[derive(Clone, Copy)]
enum Deed {
    // A line of steps is put with its `up` line, and written, or cannot be.
    Put(&'static str, &'static str, bool),
    // The files have so many bytes of steps and of `up` lines.
    HasLengths(u64, u64),
    // The later lines follow the fewer steps.
    Follow,
    // The fewer steps take the place of the others, or do not.
    Replace(bool),
    // The server stops.
    Rest,
    // The fewer steps are taken away.
    Remove,
    // Nobody else is able to open the files.
    Lock,
    // The pipe has the name of the fewer steps.
    Link,
    // A folder is made.
    MakeFolder(&'static str),
    // What has the first name has the second from then on.
    Rename(&'static str, &'static str),
}

// The folder of all runs, its files, their name while a folder has that of the steps, and the name of that folder then.
const PATH: &str = "test_parts_running";

const STEPS: &str = "test_parts_running/steps";

const UPS: &str = "test_parts_running/up";

const FEWER: &str = "test_parts_running/steps.new";

const ASIDE: &str = "test_parts_running/aside";

const FOLDER: &str = "test_parts_running/folder";

const A: Deed = Put("a", "up a", true);

const HAS_A: Deed = HasLengths(2, 5);

const B: Deed = Put("b", "up b", true);

const Z: Deed = Put("z", "up z", true);

// What is done to a record, whose steps outlive the machine where that is asked for.
struct Run {
    sync: bool,
    // What its files have before, or None where they are made.
    before: Option<(&'static str, &'static str)>,
    deeds: &'static [Deed],
    // What they have in the end; files that were made are for their owner alone. None where the steps are the pipe.
    after: Option<(&'static str, &'static str)>,
}

const RUNS: &[Run] = &[
    // Lines that were put before, while and after the fewer steps are prepared follow them, each once. The files have the lock.
    Run {
        sync: true,
        before: None,
        deeds: &[
            A,
            HAS_A,
            B,
            Follow,
            Put("c", "up c", true),
            Replace(true),
            Put("d", "up d", true),
            Z,
            Lock,
        ],
        after: Some(("base\na\nb\nc\nd\nz\n", "up a\nup b\nup c\nup d\nup z\n")),
    },
    // Where the fewer steps are not there any more, or the server stops, it goes on with those that it has.
    Run {
        sync: true,
        before: None,
        deeds: &[A, HAS_A, B, Remove, Replace(false), Z, Lock],
        after: Some(("a\nb\nz\n", "up a\nup b\nup z\n")),
    },
    Run {
        sync: true,
        before: None,
        deeds: &[A, HAS_A, B, Rest, Replace(false), Z, Lock],
        after: Some(("a\nb\nz\n", "up a\nup b\nup z\n")),
    },
    // Where the fewer steps cannot be given the name of the others, since a folder has it, they keep their own, and it goes on with those
    // that it has.
    Run {
        sync: true,
        before: None,
        deeds: &[
            A,
            HAS_A,
            B,
            Rename(STEPS, ASIDE),
            MakeFolder(STEPS),
            Replace(false),
            Rename(STEPS, FOLDER),
            Rename(ASIDE, STEPS),
            Z,
            Lock,
        ],
        after: Some(("a\nb\nz\n", "up a\nup b\nup z\n")),
    },
    // Where fewer steps are a pipe, which takes bytes but cannot be brought to a disk, a line is written without `sync`, and not with it.
    Run {
        sync: false,
        before: None,
        deeds: &[A, HAS_A, Remove, Link, B, Replace(true), Z],
        after: None,
    },
    Run {
        sync: true,
        before: None,
        deeds: &[
            A,
            HAS_A,
            Remove,
            Link,
            B,
            Replace(true),
            Put("z", "up z", false),
        ],
        after: None,
    },
    // Zeros at the ends, which a crash of the machine may leave, are cut off.
    Run {
        sync: true,
        before: Some(("a\nb\0\0\0", "\0\0")),
        deeds: &[],
        after: Some(("a\nb", "")),
    },
];

// Whether a file has these bytes, of which there are fewer than 64.
fn has(mut file: File, text: &str) -> bool {
    let mut buf = [0; 64];
    match file.read(&mut buf) {
        Ok(count) => count == text.len() && buf.starts_with(text.as_bytes()),
        Err(_) => false,
    }
}

// Whether nobody but its owner may read or write a file.
fn is_private(file: &File) -> bool {
    match file.metadata() {
        Ok(metadata) => metadata.permissions().mode() & 0o077 == 0,
        Err(_) => false,
    }
}

// The folder of a record, and the name of a pipe.
#[derive(Drop)]
struct Folder<'a, R> {
    rt: &'a R,
    alloc: Global,
    pipe: &'a str,
}

impl<R: Wait + Files<File = File> + Alloc> Folder<'_, R> {
    // Makes it without files, or with files of these bytes, in the place of one that may be there.
    fn is_made(&self, before: Option<(&str, &str)>) -> bool {
        let _ = fs::remove_dir_all(self.rt, PATH);
        let is_made = fs::create_dir(self.rt, PATH).is_ok();
        match before {
            Some((steps, ups)) => {
                is_made
                    && fs::write(self.rt, STEPS, steps.as_bytes()).is_ok()
                    && fs::write(self.rt, UPS, ups.as_bytes()).is_ok()
            }
            None => is_made,
        }
    }

    // A record over the files.
    fn opened(&self, sync: bool) -> Result<Recorder<RecordFiles>, FilesFault> {
        let files = RecordFiles::open(self.rt, &Discard, self.alloc, PATH, sync)?;
        match Recorder::new(self.alloc, RecordWriter::new(files)) {
            Ok(recorder) => Ok(recorder),
            Err(_) => Err(FilesFault::NoMemory),
        }
    }

    // Fewer steps with these bytes.
    fn shorter(&self, bytes: &[u8]) -> Option<ShorterSteps> {
        let Ok(shorter) = ShorterSteps::create(self.rt, &Discard, self.alloc, PATH) else {
            return None;
        };
        match shorter.file().write_all(bytes) {
            Ok(()) => Some(shorter),
            Err(_) => None,
        }
    }

    // Fewer steps that have the step a, which is to stay, where others were given up before, and the lines behind it.
    fn fewer(&self) -> Option<Fewer> {
        drop(self.shorter(b"more bytes than those that take their place")?);
        let shorter = self.shorter(b"base\na\n")?;
        let steps = read_again(self.rt, &Discard, self.alloc, PATH, "steps").ok()?;
        let later = LaterLines::new(self.alloc, steps, 2).ok()?;
        Some(Fewer { shorter, later })
    }

    // Whether the files are in use.
    fn is_locked(&self) -> bool {
        let opened = RecordFiles::open(self.rt, &Discard, self.alloc, PATH, true);
        matches!(opened, Err(FilesFault::InUse))
    }

    // Whether this was done.
    fn is_done(&self, recorder: &Recorder<RecordFiles>, fewer: &mut Fewer, deed: Deed) -> bool {
        let (shorter, later) = (&fewer.shorter, &mut fewer.later);
        match deed {
            Put(step, up, is_put) => put(self.rt, recorder, step, Some(up)) == is_put,
            HasLengths(steps, ups) => match recorder.lengths(self.rt) {
                Some(lengths) => lengths.steps == steps && lengths.ups == ups,
                None => false,
            },
            Follow => later.follow(&Discard, shorter).is_ok(),
            Replace(is_replaced) => {
                recorder.replace(self.rt, &Discard, shorter, later).is_ok() == is_replaced
            }
            Rest => {
                recorder.rest();
                true
            }
            Remove => {
                shorter.remove(self.rt);
                true
            }
            Lock => self.is_locked(),
            Link => symlink(self.rt, self.pipe, FEWER).is_ok(),
            MakeFolder(path) => fs::create_dir(self.rt, path).is_ok(),
            Rename(from, to) => fs::rename(self.rt, from, to).is_ok(),
        }
    }

    // Whether all of it was done with fewer steps, which have the step a.
    fn are_done(&self, recorder: &Recorder<RecordFiles>, deeds: &[Deed]) -> bool {
        let Some(mut fewer) = self.fewer() else {
            return false;
        };
        let mut are_done = true;
        for &deed in deeds {
            are_done = are_done && self.is_done(recorder, &mut fewer, deed);
        }
        are_done
    }

    // Whether all of it was done to the record, whose files are closed then.
    fn is_recorded(&self, run: &Run) -> bool {
        match self.opened(run.sync) {
            Ok(recorder) => self.are_done(&recorder, run.deeds),
            Err(_) => false,
        }
    }

    // Whether a file has these bytes, for its owner alone where it was made.
    fn has(&self, name: &str, text: &str, is_made: bool) -> bool {
        match read_again(self.rt, &Discard, self.alloc, PATH, name) {
            Ok(file) => (!is_made || is_private(&file)) && has(file, text),
            Err(_) => false,
        }
    }

    // Whether a run left its files as it is to.
    fn is_left(&self, run: &Run) -> bool {
        let is_made = run.before.is_none();
        match run.after {
            Some((steps, ups)) => self.has("steps", steps, is_made) && self.has("up", ups, is_made),
            None => true,
        }
    }

    // Whether all of it is done in the folder made anew, which is taken away then.
    fn is_run(&self, run: &Run) -> bool {
        self.is_made(run.before)
            && self.is_recorded(run)
            && self.is_left(run)
            && fs::remove_dir_all(self.rt, PATH).is_ok()
    }
}

// How many runs end as they are to before the first that does not, with the pipe of this number.
fn count_run<R>(rt: &R, alloc: Global, fd: i32) -> usize
where
    R: Wait + Files<File = File> + Alloc,
{
    let Ok(pipe) = format!(in alloc; "/proc/self/fd/{fd}") else {
        return 0;
    };
    let folder = Folder {
        rt,
        alloc,
        pipe: pipe.as_str(),
    };
    let mut count = 0usize;
    for run in RUNS {
        if !folder.is_run(run) {
            return count;
        }
        count = count.wrapping_add(1);
    }
    count
}

/// Fewer steps take the place of others, or these stay; the files have the lock, and are for their owner alone. With `sync`, and not without
/// it, each write brings the steps to the disk, also once fewer took their place. Zeros at the ends are cut off.
#[test]
fn lines_follow_the_steps_that_go_on(rt: HostRuntime) {
    let count = match pipe(&rt) {
        Ok((_reader, writer)) => count_run(&rt, rt.alloc(), writer.as_raw_fd()),
        Err(_) => 0,
    };
    assert!(rt; count == RUNS.len(), "{count} runs ended as they are to");
}
