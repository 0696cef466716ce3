//! A server over memory, and its record.

use crate::worked::roster_of;
use ns_calls::{Answer, Call, Reply, shard_of_call};
use ns_compact::{serves_as_well, write_shards};
use ns_lines::{lines, up_line};
use ns_record::{matters, step_line};
use ns_resume::{RecordFault, Resumed, run_record};
use ns_roster::Roster;
use ns_shard::Shard;
use std::alloc::Global;
use std::io::BufReader;
use std::sync::Arc;

// How many bytes of a file are read at once: few, so that lines stand in several pieces.
const PIECE: usize = 1000;

const ROSTER: &str =
    "{\"version\":1,\"net_id\":\"000024\",\"rx1_offset\":0,\"rx_delay\":1,\"devices\":[{\"dev_eui\":\"0000000000000000\",\"join_eui\":\"0102030401020304\",\"slot\":0},{\"dev_eui\":\"0000000000000001\",\"join_eui\":\"0102030401020304\",\"slot\":1},{\"dev_eui\":\"0000000000000010\",\"join_eui\":\"0102030401020304\",\"slot\":16}]}";

/// A server with its record.
#[derive(Drop)]
pub struct Life {
    alloc: Global,
    roster: Arc<Roster>,
    shards: Vec<Shard>,
    /// The files.
    pub steps: Vec<u8>,
    pub ups: Vec<u8>,
    /// The lines of all answers.
    pub said: String,
}

// The roster, and readers of the files of a record.
#[derive(Drop)]
struct Ready<'a> {
    roster: Arc<Roster>,
    steps: BufReader<&'a [u8]>,
    ups: BufReader<&'a [u8]>,
}

// These from the beginning, in pieces of so many bytes.
fn begin<'a>(
    alloc: Global,
    roster: &Arc<Roster>,
    piece: usize,
    steps: &'a [u8],
    ups: &'a [u8],
) -> Result<Ready<'a>, RecordFault> {
    Ok(Ready {
        roster: roster.clone()?,
        steps: BufReader::with_capacity(alloc, piece, steps)?,
        ups: BufReader::with_capacity(alloc, piece, ups)?,
    })
}

/// What a start finds in these files, read in pieces of so many bytes.
pub fn resumed(
    alloc: Global,
    roster: &Arc<Roster>,
    piece: usize,
    steps: &[u8],
    ups: &[u8],
) -> Result<Resumed, RecordFault> {
    let Ready {
        roster,
        mut steps,
        mut ups,
    } = begin(alloc, roster, piece, steps, ups)?;
    run_record(alloc, roster, &mut steps, &mut ups)
}

impl Life {
    /// A server with no entries.
    pub fn new(alloc: Global) -> Result<Life, RecordFault> {
        let mut life = Life {
            alloc,
            roster: roster_of(alloc, ROSTER)?,
            shards: Vec::new(alloc),
            steps: Vec::new(alloc),
            ups: Vec::new(alloc),
            said: String::new(alloc),
        };
        life.restart()?;
        Ok(life)
    }

    /// Goes on with the record.
    pub fn restart(&mut self) -> Result<(), RecordFault> {
        let (steps, ups) = (self.steps.as_slice(), self.ups.as_slice());
        self.shards = resumed(self.alloc, &self.roster, PIECE, steps, ups)?.shards;
        Ok(())
    }

    // Puts down a line.
    fn put(file: &mut Vec<u8>, line: &str) -> Result<(), RecordFault> {
        file.extend_from_slice(line.as_bytes())?;
        file.extend_from_slice(b"\n")?;
        Ok(())
    }

    /// Makes a call, and puts it down where later answers rest on it.
    pub fn make(&mut self, call: Call) -> Result<Reply, RecordFault> {
        let line = step_line(&call);
        let place = shard_of_call(&call);
        let answer = match self.shards.get_mut(usize::from(place)) {
            Some(shard) if shard.index() == place => shard.apply(call)?,
            _ => return Err(RecordFault::NoFit(0)),
        };
        self.note(line.as_str(), &answer)?;
        Ok(answer.reply)
    }

    // Says what an answer says, and puts down the line of its call where later answers rest on it.
    fn note(&mut self, line: &str, answer: &Answer) -> Result<(), RecordFault> {
        for said in lines(answer) {
            self.said.push_str(said.as_str())?;
            self.said.push_str("\n")?;
        }
        if !matters(&answer.reply) {
            return Ok(());
        }
        Life::put(&mut self.steps, line)?;
        match &answer.uplink {
            Some(uplink) => Life::put(&mut self.ups, up_line(uplink).as_str()),
            None => Ok(()),
        }
    }

    /// The checkpoint of the server.
    pub fn checkpoint(&self) -> Result<Vec<u8>, RecordFault> {
        let mut text = Vec::new(self.alloc);
        let ups = self.ups.len() as u64;
        write_shards(self.alloc, self.shards.as_slice(), ups, &mut text)?;
        Ok(text)
    }

    // Whether a start from these steps serves as well as the server.
    fn serves(&self, steps: &[u8]) -> Result<bool, RecordFault> {
        let Ready {
            roster,
            mut steps,
            mut ups,
        } = begin(self.alloc, &self.roster, PIECE, steps, self.ups.as_slice())?;
        let shards = self.shards.as_slice();
        serves_as_well(self.alloc, roster, shards, &mut steps, &mut ups)
    }

    /// Takes this text in the place of the record, if a start from it serves as well, and says so.
    pub fn take(&mut self, text: Vec<u8>) -> Result<bool, RecordFault> {
        let is_as_well = self.serves(text.as_slice())?;
        if is_as_well {
            self.steps = text;
        }
        Ok(is_as_well)
    }

    /// The number of lines of the steps.
    pub fn lines(&self) -> u64 {
        let mut lines = 0u64;
        for byte in &self.steps {
            if *byte == b'\n' {
                lines = lines.saturating_add(1);
            }
        }
        lines
    }
}
