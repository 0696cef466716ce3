//! With what a server begins: shards without entries, or those that an earlier life of the program left in its record.
ghost use Rattle.std.specs.Prelude.{◌≡◌, IfOk, vec_len};
ghost use Rattle.std.specs.Arc.{arc_value};
ghost use Rattle.ns_types.specs.Identity.{shard_count};
ghost use Rattle.ns_server.specs.Begun.{ArePlaced};
ghost use Rattle.ns_serve_shards.specs.Begun.{IsBegun};

use ns_log::{Log, info, warn};
use ns_record_files::{RecordFiles, RecordWriter, Recorder};
use ns_resume::{RecordFault, Resumed, run_record};
use ns_roster::Roster;
use ns_serve_parts::{Made, PLACES};
use ns_serve_state::{State, log_failure};
use ns_server::new_shards;
use ns_shard::Shard;
use ns_types::{Ticket, WindowName};
use std::alloc::{AllocError, Global};
use std::io::BufReader;
use std::sync::{Arc, Wait};

// How many bytes of each file are read at once.
const BLOCK: usize = 262_144;

/// What a server begins with: its shards, what of them is open, and the record of its calls, if there is one.
#[derive(Drop)]
pub struct Begun {
    pub shards: Vec<Shard>,
    pub windows: Vec<WindowName>,
    pub tickets: Vec<Ticket>,
    pub record: Option<Recorder<RecordFiles>>,
}

// Runs the lines of the files. No byte of them changes.
fn run_files(
    alloc: Global,
    roster: &Arc<Roster>,
    files: &RecordFiles,
) -> Result<Resumed, RecordFault>
    ensures { IfOk result (λ r. ArePlaced (arc_value roster.now) r.shards.items × (vec_len r.shards ≡ shard_count)) }
{
    let mut steps = BufReader::with_capacity(alloc, BLOCK, files.steps())?;
    let mut ups = BufReader::with_capacity(alloc, BLOCK, files.ups())?;
    run_record(alloc, roster.clone()?, &mut steps, &mut ups)
}

// Logs what the lines left.
fn log_resumed<L: Log>(log: &L, resumed: &Resumed) {
    let (windows, tickets) = (resumed.windows.len(), resumed.tickets.len());
    info!(log; "record: {windows} windows open, {tickets} tickets lost");
    let (torn, missing) = (resumed.torn.max(resumed.up_torn), resumed.missing.len());
    if torn > 0 || missing > 0 {
        warn!(log; "record: a torn line of {torn} bytes is cut off, {missing} bytes of up lines are added");
    }
}

impl Begun {
    /// A server with no entries, of which nothing is put down.
    pub fn new(alloc: Global, roster: &Arc<Roster>) -> Result<Begun, AllocError>
        ensures { IfOk result (IsBegun (arc_value roster.now)) }
    {
        Ok(Begun {
            shards: new_shards(alloc, roster)?,
            windows: Vec::new(alloc),
            tickets: Vec::new(alloc),
            record: None,
        })
    }

    /// A server as the lines of these files leave it, which goes on with them. The files are mended once all lines were run: a fault
    /// before that has changed no byte of them, and one behind it (they could not be mended, or there was no memory for the recorder)
    /// leaves them as far mended as it came.
    pub fn resume<L: Log>(
        log: &L,
        alloc: Global,
        roster: &Arc<Roster>,
        mut files: RecordFiles,
    ) -> Result<Begun, RecordFault>
        ensures { IfOk result (IsBegun (arc_value roster.now)) }
    {
        let resumed = run_files(alloc, roster, &files)?;
        log_resumed(log, &resumed);
        let Resumed {
            shards,
            lines: _,
            torn,
            up_torn,
            missing,
            windows,
            tickets,
        } = resumed;
        if files.mend(torn, up_torn, missing.as_slice()).is_err() {
            log_failure(log, &files);
            return Err(RecordFault::Io);
        }
        Ok(Begun {
            shards,
            windows,
            tickets,
            record: Some(Recorder::new(alloc, RecordWriter::new(files))?),
        })
    }

    /// Tells the status, if it is told, what the shards know of each device: its last session, and the greatest counter in it. Of this they
    /// hold an entry each, however far they were trimmed.
    pub fn recall<R: Wait>(&self, rt: &R, state: &State) {
        let Some(status) = &state.status else {
            return;
        };
        for shard in &self.shards {
            for entry in shard.entries() {
                status.recall(rt, &entry.call, &entry.reply);
            }
        }
    }

    /// How many entries each shard has.
    pub fn made(&self) -> Made {
        let mut counts = [0; PLACES];
        for (count, shard) in counts.iter_mut().zip(self.shards.as_slice()) {
            *count = shard.made();
        }
        Made::of(&counts)
    }
}
