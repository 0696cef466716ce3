//! A run of the step lines of a record.

ghost use Rattle.std.specs.Prelude.{◌≡◌, ℕ, nat_le, List, [], length, IfOk, IfErr, OnOk};
ghost use Rattle.std.specs.Arc.{arc_value};
ghost use Rattle.ns_types.specs.Identity.{shard_count};
ghost use Rattle.ns_calls.specs.declared.answer.Answer.{Answer};
ghost use Rattle.ns_calls.specs.declared.call.Entry.{Entry};
ghost use Rattle.ns_roster.specs.Network.{Network};
ghost use Rattle.ns_roster.specs.Valid.{IsRoster};
ghost use Rattle.ns_acts.specs.declared.step.Step.{Step};
ghost use Rattle.ns_record.specs.StepText.{ReadsBack};
ghost use Rattle.ns_resume.specs.Resumed.{IsAllOf, HasRunFrom, IsResumed, AreOpenIn, NamesLine, NamesLineFrom, windows_in, tickets_in};
ghost use Rattle.ns_runs.specs.KeptSteps.{AreInPlace, AreHistories, AreKeptFrom};
ghost use Rattle.ns_resume.specs.Private.Running.{HasAnswered, HasRun, RunsOn};
ghost use Rattle.ns_resume.specs.Private.Faults.{MakesNoCall, DoesNotMatter, RefusesLine};

use crate::base::skip_ups;
use crate::fault::RecordFault;
use crate::head::begin_record;
use crate::line::read_line;
use crate::open::{Open, open_in};
use crate::ups::Ups;
use ns_acts::call_into;
use ns_calls::{Call, Downlink, Reply, shard_of_call};
use ns_lines::{Line, put_lent_uplink};
use ns_record::matters;
use ns_roster::Roster;
use ns_runs::{TRIM_FROM, trim_if_due};
use ns_shard::{BoxedUplink, Shard};
use ns_steps::step;
use ns_types::{Ticket, WindowName};
use std::alloc::{AllocError, Global};
use std::io::BufRead;
use std::sync::Arc;

/// What a record leaves.
#[derive(Drop)]
pub struct Resumed {
    /// The sixteen shards, each at its number. Each has made an entry of each line's call that is its own.
    pub shards: Vec<Shard>,
    /// How many step lines were run.
    pub lines: u64,
    /// How many bytes of a torn line follow the whole step lines.
    pub torn: usize,
    /// How many bytes of a torn line follow the whole `up` lines.
    pub up_torn: usize,
    /// The `up` lines that are missing behind the whole ones, each with its line feed.
    pub missing: Vec<u8>,
    /// The windows that are open, shard by shard, in the order of their opening.
    pub windows: Vec<WindowName>,
    /// The tickets that are open, shard by shard, in the order in which they were asked for. One that was answered and asked for again
    /// may stand there more than once.
    pub tickets: Vec<Ticket>,
}

// A run of lines so far.
#[derive(Drop)]
struct Running {
    shards: Vec<Shard>,
    // How many entries each shard holds when it is trimmed.
    most: [usize; 16],
    ups: Ups,
    // What went out with the last answer.
    uplink: Option<BoxedUplink>,
    downlink: Option<Downlink>,
    // Its `up` line. A new one would be 1 KB of zeros each time.
    up: Line,
}

// Room for what a line asks for: the bytes of its datagram, and its call.
#[derive(Drop)]
struct Room {
    bytes: Vec<u8>,
    call: Option<Call>,
}

// The call of the line of this number, in the place of another.
fn call_in<'a>(
    alloc: Global,
    number: u64,
    line: &[u8],
    room: &'a mut Room,
) -> Result<&'a Call, RecordFault>
    ensures call { IfOk result (λ c. ReadsBack line.now c.now) }
    ensures fault { IfErr result (MakesNoCall line.now number) }
{
    let Some(act) = step(&mut room.bytes, line)? else {
        return Err(RecordFault::NoStep(number));
    };
    call_into(alloc, &act, &mut room.call)?;
    match &room.call {
        Some(call) => Ok(call),
        None => Err(RecordFault::NoFit(number)),
    }
}

impl Running {
    // Makes a call at its shard, where later answers rest on the answer.
    fn answer(&mut self, alloc: Global, number: u64, call: &Call) -> Result<(), RecordFault>
        requires sixteen { length self.old.shards.items ≡ shard_count }
        requires in_place { AreInPlace self.old.shards.items }
        ensures answered { OnOk result ((a : Answer) × HasAnswered self.old.shards.items self.new.shards.items call.now a × (self.new.uplink ≡ a.uplink)) }
        ensures fault { IfErr result (DoesNotMatter self.old.shards.items call.now number) }
        ensures ups { self.new.ups ≡ self.old.ups }
    {
        let place = usize::from(shard_of_call(call));
        let shard = &mut self.shards[place];
        let mut reply = Reply::NoWindow;
        shard.apply_lent(call, &mut reply, &mut self.uplink, &mut self.downlink)?;
        if !matters(&reply) {
            return Err(RecordFault::NoFit(number));
        }
        trim_if_due(alloc, shard, &mut self.most[place]);
        Ok(())
    }

    // Runs the line of this number, with room for what it asks for. Its `up` line is implied where it is new.
    fn run_line<U: BufRead>(
        &mut self,
        alloc: Global,
        number: u64,
        line: &[u8],
        is_new: bool,
        ups: &mut U,
        room: &mut Room,
    ) -> Result<(), RecordFault>
        requires sixteen { length self.old.shards.items ≡ shard_count }
        requires in_place { AreInPlace self.old.shards.items }
        ensures run { OnOk result ((net : Network) (starts : ℕ → List Entry) (before : ℕ) (steps : List Step) (read : List ℕ) → HasRun net starts before steps read self.old
            → is_new ≡ nat_le before (length steps) → RunsOn (U.remaining ups.old) (U.remaining ups.new) net starts before steps line.now read self.new) }
        ensures fault { IfErr result (λ e. (net : Network) (starts : ℕ → List Entry) (before : ℕ) (steps : List Step) (read : List ℕ) → HasRun net starts before steps read self.old
            → RefusesLine net starts steps line.now number e) }
    {
        let call = call_in(alloc, number, line, room)?;
        self.answer(alloc, number, call)?;
        if !is_new {
            return Ok(());
        }
        match &self.uplink {
            Some(uplink) => {
                self.up.clear();
                put_lent_uplink(&mut self.up, &uplink.lend());
                self.ups.implied(ups, self.up.as_str().as_bytes())
            }
            None => Ok(()),
        }
    }

    // What such a run of so many lines leaves, where so many bytes of a torn line follow.
    fn end(self, alloc: Global, lines: u64, torn: usize) -> Result<Resumed, AllocError>
        ensures shards { IfOk result (λ r. r.shards.items ≡ self.shards.items) }
        ensures lines { IfOk result (λ r. r.lines ≡ lines) }
        ensures torn { IfOk result (λ r. r.torn ≡ torn) }
        ensures up_torn { IfOk result (λ r. r.up_torn ≡ self.ups.torn) }
        ensures missing { IfOk result (λ r. r.missing.items ≡ self.ups.missing.items) }
        ensures windows { IfOk result (λ r. r.windows.items ≡ windows_in self.shards.items) }
        ensures tickets { IfOk result (λ r. r.tickets.items ≡ tickets_in self.shards.items) }
    {
        let Running { shards, ups, .. } = self;
        let Open { windows, tickets } = open_in(alloc, shards.as_slice())?;
        Ok(Resumed {
            shards,
            lines,
            torn,
            up_torn: ups.torn,
            missing: ups.missing,
            windows,
            tickets,
        })
    }
}

// Runs the whole lines that are left of a record at these shards, where the next one has the first number, and so many imply no `up` line.
fn run_lines<S: BufRead, U: BufRead>(
    alloc: Global,
    shards: Vec<Shard>,
    first: u64,
    before: u64,
    steps: &mut S,
    ups: &mut U,
) -> Result<Resumed, RecordFault>
    requires { (net : Network) × (starts : ℕ → List Entry) × AreKeptFrom net starts [] shards.items }
    ensures resumed { IfOk result (λ r. (net : Network) (starts : ℕ → List Entry) → AreKeptFrom net starts [] shards.items → (text : List ℕ) × (there : List ℕ)
        × IsAllOf (S.remaining steps.old) text × IsAllOf (U.remaining ups.old) there
        × HasRunFrom net starts before text there r) }
    ensures open { IfOk result (λ r. (net : Network) (starts : ℕ → List Entry) → IsRoster net → AreHistories net starts → AreKeptFrom net starts [] shards.items
        → AreOpenIn r.shards.items r.windows.items r.tickets.items) }
    ensures fault { IfErr result (λ e. (net : Network) (starts : ℕ → List Entry) → AreKeptFrom net starts [] shards.items → NamesLineFrom net starts first (S.remaining steps.old) e) }
{
    let mut running = Running {
        shards,
        most: [TRIM_FROM; 16],
        ups: Ups::new(alloc),
        uplink: None,
        downlink: None,
        up: Line::new(),
    };
    let mut line = Vec::new(alloc);
    let mut room = Room {
        bytes: Vec::new(alloc),
        call: None,
    };
    'lines: for number in first..u64::MAX {
        let is_new = number - first >= before;
        if !read_line(steps, &mut line)? {
            if !is_new {
                return Err(RecordFault::BadBase);
            }
            running.ups.finish(ups)?;
            return Ok(running.end(alloc, number - first, line.len())?);
        }
        running.run_line(alloc, number, line.as_slice(), is_new, ups, &mut room)?;
    }
    Err(RecordFault::TooMany)
}

/// Runs the whole lines of a record at the shards with which it begins, and compares the `up` lines that are there with those that go out, as
/// far as they reach. Each line is a step line of `replay`, and its reply is one on which later answers rest. An incomplete last line is
/// reported, and is not run. A record begins with steps at shards without entries, with a checkpoint, or with the line of a base; the `up`
/// lines that were written before a checkpoint, or are of the lines that a base counts, are the first bytes there, and are compared with
/// none. It reads both sources to their ends, line by line, and writes nothing.
pub fn run_record<S: BufRead, U: BufRead>(
    alloc: Global,
    roster: Arc<Roster>,
    steps: &mut S,
    ups: &mut U,
) -> Result<Resumed, RecordFault>
    ensures resumed { IfOk result (λ r. (text : List ℕ) × (there : List ℕ)
        × IsAllOf (S.remaining steps.old) text × IsAllOf (U.remaining ups.old) there
        × IsResumed (arc_value roster) text there r) }
    ensures open { IfOk result (λ r. AreOpenIn r.shards.items r.windows.items r.tickets.items) }
    ensures fault { IfErr result (NamesLine (arc_value roster) (S.remaining steps.old)) }
{
    // A roster that is read is valid: the laws of histories rest on that.
    let _net_id = roster.net_id();
    let (head, shards) = begin_record(alloc, roster, steps)?;
    skip_ups(alloc, ups, head.ups_before())?;
    let Some(first) = head.first_number() else {
        return Err(RecordFault::TooMany);
    };
    run_lines(alloc, shards, first, head.lines_before(), steps, ups)
}
