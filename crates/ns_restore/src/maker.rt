//! The calls that a shard is given.

ghost use Rattle.std.specs.Prelude.{◌≡◌, OnOk};
ghost use Rattle.ns_restore.specs.Tables.{AreOfOneShard};

use crate::fault::RestoreFault;
use crate::frames::HEARD;
use ns_calls::{Call, DataFrame, Downlink, Reply, Uplink, shard_of_call};
use ns_shard::Shard;
use ns_types::{Heard, WindowName};
use std::alloc::Global;

// A round that is asked for takes some hundred nanoseconds, and a jump looks at each entry of the shard: for fewer rounds than one for so
// many entries, the rounds are cheaper.
const ENTRIES_OF_A_ROUND: usize = 16;

/// A shard, and what went out with the last call, in whose memory the next one answers.
#[derive(Drop)]
pub(crate) struct Maker {
    pub alloc: Global,
    pub shard: Shard,
    /// By how many bytes of options frames that are made up differ from those of another attempt.
    pub options: usize,
    uplink: Option<Uplink>,
    downlink: Option<Downlink>,
}

impl Maker {
    /// A maker of a shard.
    pub(crate) fn new(alloc: Global, shard: Shard, options: usize) -> Maker
        ensures { result.shard ≡ shard }
    {
        Maker {
            alloc,
            shard,
            options,
            uplink: None,
            downlink: None,
        }
    }

    /// The shard as it is.
    pub(crate) fn into_shard(self) -> Shard
        ensures { result ≡ self.shard }
    {
        self.shard
    }

    /// Makes a call of the shard.
    pub(crate) fn call(&mut self, call: &Call) -> Result<Reply, RestoreFault>
        ensures { OnOk result (AreOfOneShard self.new.shard self.old.shard) }
    {
        if shard_of_call(call) != self.shard.index() {
            return Err(RestoreFault::NoDevice);
        }
        let mut reply = Reply::NoWindow;
        self.shard
            .apply_into(call, &mut reply, &mut self.uplink, &mut self.downlink)?;
        Ok(reply)
    }

    /// Hears an uplink.
    pub(crate) fn hear(&mut self, frame: &DataFrame, heard: Heard) -> Result<Reply, RestoreFault>
        ensures { OnOk result (AreOfOneShard self.new.shard self.old.shard) }
    {
        self.call(&Call::Uplink {
            frame: *frame,
            heard,
        })
    }

    /// Hears an uplink for the first time, which opens this window.
    pub(crate) fn open(
        &mut self,
        frame: &DataFrame,
        heard: Heard,
        name: &WindowName,
    ) -> Result<(), RestoreFault>
        ensures { OnOk result (AreOfOneShard self.new.shard self.old.shard) }
    {
        match self.hear(frame, heard)? {
            Reply::Opened { window } if window == *name => Ok(()),
            _ => Err(RestoreFault::Unreached),
        }
    }

    /// Closes a window.
    pub(crate) fn close(&mut self, name: &WindowName) -> Result<(), RestoreFault>
        ensures { OnOk result (AreOfOneShard self.new.shard self.old.shard) }
    {
        match self.call(&Call::Close { window: *name })? {
            Reply::Closed { .. } => Ok(()),
            _ => Err(RestoreFault::Unreached),
        }
    }

    // Hears an uplink again, and closes its window.
    fn round(&mut self, frame: &DataFrame) -> Result<(), RestoreFault>
        ensures { OnOk result (AreOfOneShard self.new.shard self.old.shard) }
    {
        match self.hear(frame, HEARD)? {
            Reply::Again { window } => self.close(&window),
            _ => Err(RestoreFault::Unreached),
        }
    }

    // What so many rounds leave, by a jump.
    fn jump(&mut self, frame: &DataFrame, heard: &Heard, rounds: u32) -> Result<(), RestoreFault>
        ensures { OnOk result (AreOfOneShard self.new.shard self.old.shard) }
    {
        let call = Call::Uplink {
            frame: *frame,
            heard: *heard,
        };
        if shard_of_call(&call) != self.shard.index() {
            return Err(RestoreFault::NoDevice);
        }
        self.shard.jump(self.alloc, frame, heard, rounds)?;
        Ok(())
    }

    /// Hears an uplink again and closes its window, so many times.
    pub(crate) fn repeat(&mut self, frame: &DataFrame, rounds: u32) -> Result<(), RestoreFault>
        ensures { OnOk result (AreOfOneShard self.new.shard self.old.shard) }
    {
        if rounds as usize > self.shard.entries().len() / ENTRIES_OF_A_ROUND {
            return self.jump(frame, &HEARD, rounds);
        }
        'rounds: for _ in 0..rounds {
            self.round(frame)?;
        }
        Ok(())
    }
}
