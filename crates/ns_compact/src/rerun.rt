//! Shards at which the lines of a record, and then calls that are in no line, are run.

use ns_acts::call_of;
use ns_calls::{Call, Reply, shard_of_call};
use ns_resume::RecordFault;
use ns_runs::{TRIM_FROM, trim_if_due};
use ns_shard::Shard;
use ns_steps::step;
use ns_types::{DevAddr, DevEui, DevNonce, Key, shard_of};
use std::alloc::Global;

/// Shards at which calls are made.
#[derive(Drop)]
pub(crate) struct Rerun {
    alloc: Global,
    shards: Vec<Shard>,
    most: [usize; 16],
    // Room for a datagram.
    room: Vec<u8>,
}

/// What came of a call: the reply, and whether an uplink went up.
#[derive(Clone, Copy)]
pub(crate) struct Made {
    pub reply: Reply,
    pub goes_up: bool,
}

impl Rerun {
    /// These shards.
    pub fn new(alloc: Global, shards: Vec<Shard>) -> Rerun {
        Rerun {
            alloc,
            shards,
            most: [TRIM_FROM; 16],
            room: Vec::new(alloc),
        }
    }

    /// The shards as they are now.
    pub fn into_shards(self) -> Vec<Shard> {
        let Rerun { shards, .. } = self;
        shards
    }

    // The call of a line.
    fn call(&mut self, number: u64, line: &[u8]) -> Result<Call, RecordFault> {
        let Some(act) = step(&mut self.room, line)? else {
            return Err(RecordFault::NoStep(number));
        };
        match call_of(self.alloc, &act)? {
            Some(call) => Ok(call),
            None => Err(RecordFault::NoFit(number)),
        }
    }

    /// Runs the line of this number.
    pub fn run(&mut self, number: u64, line: &[u8]) -> Result<Made, RecordFault> {
        let call = self.call(number, line)?;
        match self.make(call)? {
            Some(made) => Ok(made),
            None => Err(RecordFault::NoFit(number)),
        }
    }

    /// Makes a call at its shard, if there is one.
    pub fn make(&mut self, call: Call) -> Result<Option<Made>, RecordFault> {
        let place = shard_of_call(&call);
        let at = usize::from(place);
        let (Some(shard), Some(most)) = (self.shards.get_mut(at), self.most.get_mut(at)) else {
            return Ok(None);
        };
        if shard.index() != place {
            return Ok(None);
        }
        let answer = shard.apply(call)?;
        trim_if_due(self.alloc, shard, most);
        Ok(Some(Made {
            goes_up: answer.uplink.is_some(),
            reply: answer.reply,
        }))
    }

    /// The NwkSKey and the address of a live session.
    pub fn session(&self, eui: DevEui, session: u32) -> Option<(Key, DevAddr)> {
        let own = self
            .shards
            .get(usize::from(shard_of(eui)))?
            .devices()
            .get(eui)?;
        let (nwk, _app) = own.state.keys(session)?;
        Some((nwk, own.addr))
    }

    /// The number of the last session of a device, or 0.
    pub fn last_session(&self, eui: DevEui) -> u32 {
        let Some(shard) = self.shards.get(usize::from(shard_of(eui))) else {
            return 0;
        };
        match shard.devices().get(eui) {
            Some(own) => own.state.next_session().saturating_sub(1),
            None => 0,
        }
    }

    /// The greatest DevNonce of a device.
    pub fn greatest(&self, eui: DevEui) -> Option<DevNonce> {
        self.shards.get(usize::from(shard_of(eui)))?.greatest(eui)
    }
}
