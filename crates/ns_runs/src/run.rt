//! A run of steps over the sixteen shards.

ghost use Rattle.ns_types.specs.declared.identity.DevEui.{DevEui};
ghost use Rattle.std.specs.Prelude.{◌≡◌, ◌<◌, ℕ, List, [], ◌∷◌, ◌++◌, length, map, flat_map, slice_get, Option, Some, IsOk, IfOk, IfErr, OnOk, OnErr, IfSome, option_map, false, true, ◌↔◌};
ghost use Rattle.std.specs.Arc.{arc_value};
ghost use Rattle.std.specs.List.{AllByRecursion};
ghost use Rattle.std.specs.Option.{option_to_list};
ghost use Rattle.ns_types.specs.Identity.{shard_count};
ghost use Rattle.ns_types.specs.declared.transfer.ReadFault.TheVariants.{Io};
ghost use Rattle.ns_roster.specs.Network.{Network};
ghost use Rattle.ns_calls.specs.Legal.{IsHistory};
ghost use Rattle.ns_calls.specs.Laws.{NoncesRise, CountersRise, WindowsOpenOnce};
ghost use Rattle.ns_calls.specs.Headline.{AcksRise, NoncesAreWithin};
ghost use Rattle.ns_calls.specs.Steps.{datagram_call};
ghost use Rattle.ns_acts.specs.declared.step.Step.{Step};
ghost use Rattle.ns_shard.specs.State.{State, Keeps, MayBeTrimmed};
ghost use Rattle.ns_runs.specs.KeptSteps.{AreKeptAfter, AreReached, AreInPlace};
ghost use Rattle.ns_acts.specs.Lent.{act_lent, step_lent};
ghost use Rattle.ns_runs.specs.Steps.{step_taken, all_taken, AreAfter};
ghost use Rattle.ns_acts.specs.Calls.{call_of};
ghost use Rattle.ns_runs.specs.Taken.{calls_of, OfEach, HandsOut, HasCopies, AreHandedOutOnce};
ghost use Rattle.ns_runs.specs.Lines.{lent, HasAll};
ghost use Rattle.ns_runs.specs.Whole.{HasRun};
ghost use Rattle.ns_runs.specs.NextRun.{greatest_among, greatest_after};
ghost use Rattle.ns_runs.specs.Private.Run.{refused_as, StepEnds};

use crate::lines::{Answers, LentStep, StepSource};
use crate::list::{StepList, TakenList};
use ns_acts::{LentAct, Step, answer_call};
use ns_calls::{Call, DataFrame, Outcome, shard_of_call};
use ns_link::{LinkFault, read_datagram};
use ns_roster::Roster;
use ns_shard::{BoxedAnswer, Shard};
use ns_types::{DevEui, DevNonce, ReadFault, SHARDS, shard_of};
use ns_views::{PhyView, ViewFault, view};
use std::alloc::{AllocError, Global};
use std::marker::Model;
use std::sync::Arc;

/// What came of a step.
#[derive(Drop)]
pub enum Taken {
    /// The layout of its datagram is refused, and no call was made.
    Link(LinkFault),
    /// Its frame is refused, and no call was made.
    View(ViewFault),
    /// It made the entry of this number in this shard, with this answer.
    Made {
        shard: u8,
        number: u64,
        answer: BoxedAnswer,
    },
}

impl Taken {
    /// The same, in no more memory than it needs.
    pub fn packed(self, alloc: Global) -> Result<Taken, AllocError>
        ensures { IfOk result (λ t. t ≡ self) }
    {
        match self {
            Taken::Made {
                shard,
                number,
                answer,
            } => Ok(Taken::Made {
                shard,
                number,
                answer: answer.packed(alloc)?,
            }),
            refused => Ok(refused),
        }
    }
}

/// From how many entries on `trim_if_due` trims a shard, where twice what its last trim left is less: so trims take a part of the time that
/// does not grow with the devices, and sixteen small shards stay in a processor's cache.
pub const TRIM_FROM: usize = 512;

/// Trims a shard that holds `most` entries or more, sets `most` to twice what it then holds, at least `TRIM_FROM`, and makes room for so many
/// more. Where the trim is refused the shard stays as it is, and `most` is set all the same; room that is refused is left out.
pub fn trim_if_due(alloc: Global, shard: &mut Shard, most: &mut usize)
    ensures { MayBeTrimmed shard.old shard.new }
{
    if shard.entries().len() < *most {
        return;
    }
    let _ = shard.trim_in_place(alloc);
    *most = shard.entries().len().saturating_mul(2).max(TRIM_FROM);
    let _ = shard.reserve(*most);
}

/// The sixteen shards. Contracts see the list of their states.
#[derive(Drop)]
pub struct Shards {
    list: Vec<Shard>,
    // How many entries each holds when it is trimmed, where steps are run by `step_and_trim`.
    most: [usize; 16],
}

impl Model for Shards {
    ghost use Rattle.std.specs.Prelude.{◌≡◌, ◌<◌, ℕ, List, length, slice_get, Some};
    ghost use Rattle.ns_shard.specs.State.{State};

    ghost Value = { List State };

    ghost view = { λ s. s.list.items };
}

/// A run of steps: the shards as they are after it, and what came of each step.
#[derive(Drop)]
pub struct Run {
    pub shards: Shards,
    pub taken: Vec<Taken>,
}

impl Run {
    /// The greatest DevNonce of a device after the run: of those accepted, and of the last one that the roster names. None where the
    /// roster does not have the device. It takes no memory.
    pub fn greatest(&self, eui: DevEui) -> Option<DevNonce>
        ensures { option_map (λ n. n.0) result ≡ greatest_among self.now.shards eui }
    {
        self.shards.greatest(eui)
    }
}

impl Shards {
    /// The sixteen shards before any step. `NoMemory` (`AllocError`) where a growth was refused.
    pub fn new(alloc: Global, roster: Arc<Roster>) -> Result<Shards, AllocError>
        ensures shards { IfOk result (AreAfter (arc_value roster) []) }
        ensures kept { IfOk result (AreKeptAfter (arc_value roster) []) }
        ensures reached { IfOk result AreReached }
    {
        Ok(Shards {
            list: new_shards(alloc, roster)?,
            most: [TRIM_FROM; 16],
        })
    }

    /// Runs one step more, at shards that were trimmed before or not; those that never were it leaves so. `NoMemory` (`AllocError`) where a
    /// growth was refused: then nothing has changed.
    pub fn step(&mut self, alloc: Global, step: &Step) -> Result<Taken, AllocError>
        requires { AreReached self.old }
        ensures taken { IfOk result (λ t. (net : Network) (before : List Step) → AreKeptAfter net before self.old → t ≡ step_taken net before step.now) }
        ensures shards { OnOk result ((net : Network) (before : List Step) → AreAfter net before self.old → AreAfter net (before ++ step.now ∷ []) self.new) }
        ensures kept { OnOk result ((net : Network) (before : List Step) → AreKeptAfter net before self.old → AreKeptAfter net (before ++ step.now ∷ []) self.new) }
        ensures reached { OnOk result (AreReached self.new) }
        ensures err { OnErr result (self.new ≡ self.old) }
    {
        self.run_act(alloc, step.worker, &step.act.lend())
    }

    // Runs the step of this worker and act.
    fn run_act(
        &mut self,
        alloc: Global,
        worker: u32,
        act: &LentAct<'_>,
    ) -> Result<Taken, AllocError>
        requires { AreReached self.old }
        ensures taken { IfOk result (λ t. (net : Network) (before : List Step) → AreKeptAfter net before self.old → t ≡ step_taken net before (step_lent worker act.now)) }
        ensures shards { OnOk result ((net : Network) (before : List Step) → AreAfter net before self.old → AreAfter net (before ++ step_lent worker act.now ∷ []) self.new) }
        ensures kept { OnOk result ((net : Network) (before : List Step) → AreKeptAfter net before self.old → AreKeptAfter net (before ++ step_lent worker act.now ∷ []) self.new) }
        ensures reached { OnOk result (AreReached self.new) }
        ensures err { OnErr result (self.new ≡ self.old) }
    {
        run_act(alloc, &mut self.list, act)
    }

    // Trims the shard of this number, where that is due.
    fn trim_one(&mut self, alloc: Global, index: u8)
        requires { length self.old ≡ shard_count }
        ensures { (net : Network) (steps : List Step) → AreKeptAfter net steps self.old → AreKeptAfter net steps self.new }
    {
        let place = usize::from(index);
        if let Some(shard) = self.list.get_mut(place) {
            trim_if_due(alloc, shard, &mut self.most[place]);
        }
    }

    // Makes the step of a line, where it asks for one, and trims its shard where trims are wanted and this one is due.
    #[inline(always)]
    fn run_line(
        &mut self,
        alloc: Global,
        trims: bool,
        step: &Option<LentStep<'_>>,
    ) -> Result<Option<Taken>, AllocError>
        requires { AreReached self.old }
        ensures taken { IfOk result (λ t. (net : Network) (before : List Step) → AreKeptAfter net before self.old → t ≡ option_map (step_taken net before) (option_map lent step.now)) }
        ensures shards { OnOk result (trims ≡ false → (net : Network) (before : List Step) → AreAfter net before self.old → AreAfter net (before ++ option_to_list (option_map lent step.now)) self.new) }
        ensures kept { OnOk result ((net : Network) (before : List Step) → AreKeptAfter net before self.old → AreKeptAfter net (before ++ option_to_list (option_map lent step.now)) self.new) }
        ensures reached { OnOk result (AreReached self.new) }
    {
        match step {
            Some(step) if trims => Ok(Some(self.step_and_trim(alloc, step.worker, &step.act)?)),
            Some(step) => Ok(Some(self.run_act(alloc, step.worker, &step.act)?)),
            None => Ok(None),
        }
    }

    /// Runs the step of this worker and act as `step` does, and trims its shard where that is due (no clause says when): what comes of later
    /// steps is the same. `NoMemory` (`AllocError`) where a growth of the step was refused: then nothing has changed. A trim that is refused
    /// is left out.
    pub fn step_and_trim(
        &mut self,
        alloc: Global,
        worker: u32,
        act: &LentAct<'_>,
    ) -> Result<Taken, AllocError>
        requires { AreReached self.old }
        ensures taken { IfOk result (λ t. (net : Network) (before : List Step) → AreKeptAfter net before self.old → t ≡ step_taken net before (step_lent worker act.now)) }
        ensures kept { OnOk result ((net : Network) (before : List Step) → AreKeptAfter net before self.old → AreKeptAfter net (before ++ step_lent worker act.now ∷ []) self.new) }
        ensures reached { OnOk result (AreReached self.new) }
        ensures err { OnErr result (self.new ≡ self.old) }
    {
        let taken = self.run_act(alloc, worker, act)?;
        if let Taken::Made { shard, .. } = &taken {
            self.trim_one(alloc, *shard);
        }
        Ok(taken)
    }

    /// Takes the memory of what came of a step, for windows that are opened later. Contracts see no change.
    pub fn reuse(&mut self, taken: Taken)
        ensures { self.new ≡ self.old }
    {
        let Taken::Made { shard, answer, .. } = taken else {
            return;
        };
        if let Some(shard) = self.list.get_mut(usize::from(shard)) {
            shard.reuse(answer);
        }
    }

    /// The shards, each at its number.
    pub fn as_slice(&self) -> &[Shard]
        ensures { result.now ≡ self.now }
    {
        self.list.as_slice()
    }

    /// The greatest DevNonce of a device, as `Run::greatest` says.
    pub fn greatest(&self, eui: DevEui) -> Option<DevNonce>
        ensures { option_map (λ n. n.0) result ≡ greatest_among self.now eui }
    {
        match self.as_slice().get(shard_of(eui) as usize) {
            Some(shard) => shard.greatest(eui),
            None => None,
        }
    }

    /// Ends a run: whatever its steps were, what `run` promises holds of the shards as they are without trims (`whole`), of which these keep
    /// what trims leave, and of what came of the steps. It is a law.
    pub fn end(&self)
        ensures histories { (net : Network) (steps : List Step) (whole : List State) → AreAfter net steps whole → OfEach whole (λ shard h. IsHistory net shard h) }
        ensures calls { (net : Network) (steps : List Step) (whole : List State) → AreAfter net steps whole → OfEach whole (λ shard h. map (λ e. e.call) h ≡ calls_of shard steps) }
        ensures nonces_rise { (net : Network) (steps : List Step) (whole : List State) → AreAfter net steps whole → OfEach whole (λ shard h. NoncesRise h) }
        ensures counters_rise { (net : Network) (steps : List Step) (whole : List State) → AreAfter net steps whole → OfEach whole (λ shard h. CountersRise h) }
        ensures acks_rise { (net : Network) (steps : List Step) (whole : List State) → AreAfter net steps whole → OfEach whole (λ shard h. AcksRise h) }
        ensures windows_open_once { (net : Network) (steps : List Step) (whole : List State) → AreAfter net steps whole → OfEach whole (λ shard h. WindowsOpenOnce h) }
        ensures nonces_within { (net : Network) (steps : List Step) (whole : List State) → AreAfter net steps whole → OfEach whole (λ shard h. NoncesAreWithin net h) }
        ensures kept { (net : Network) (steps : List Step) (whole : List State) → AreAfter net steps whole → AreKeptAfter net steps self.now → (shard : ℕ) (w s : State) → slice_get whole shard ≡ Some w → slice_get self.now shard ≡ Some s → Keeps w.entries s }
        ensures greatest { (net : Network) (steps : List Step) → AreKeptAfter net steps self.now → (eui : DevEui) → greatest_among self.now eui ≡ greatest_after net steps eui }
        ensures uplinks { (net : Network) (steps : List Step) → AllByRecursion HandsOut (all_taken net [] steps) }
        ensures copies { (net : Network) (steps : List Step) (whole : List State) → AreAfter net steps whole → AllByRecursion (HasCopies whole) (all_taken net [] steps) }
        ensures handed_out_once { (net : Network) (steps : List Step) → AreHandedOutOnce (all_taken net [] steps) }
    {}

    /// Runs steps on one thread, in order. `NoMemory` (`AllocError`) where a growth was refused, and then there is no run.
    ///
    /// What comes of a step that makes a call is the plain server's answer to it, after the entries of its shard that the steps
    /// before it made. The closing of an uplink's first window hands out the uplink, with just its copies. No other step hands out
    /// an uplink: the closing of a later round, in which the uplink was sent again, acknowledges it where its session lives, and hands out
    /// nothing.
    pub fn run(alloc: Global, roster: Arc<Roster>, steps: &[Step]) -> Result<Run, AllocError>
        ensures taken { IfOk result (λ run. run.taken.items ≡ all_taken (arc_value roster) [] steps.now) }
        ensures shards { IfOk result (λ run. AreAfter (arc_value roster) steps.now run.shards) }
        ensures sixteen { IfOk result (λ run. length run.shards ≡ shard_count) }

        // Each shard's history is legal, numbered from 0, and holds one entry for each call that reached the shard, in order.
        ensures histories { IfOk result (λ run. OfEach run.shards (λ shard h. IsHistory (arc_value roster) shard h)) }
        ensures calls { IfOk result (λ run. OfEach run.shards (λ shard h. map (λ e. e.call) h ≡ calls_of shard steps.now)) }

        // Accepted nonces of a device, and counters and acknowledgement numbers of a session, strictly rise; the window of each round
        // of an uplink opens and closes at most once, and an uplink goes out at the closing of its first window alone.
        ensures nonces_rise { IfOk result (λ run. OfEach run.shards (λ shard h. NoncesRise h)) }
        ensures counters_rise { IfOk result (λ run. OfEach run.shards (λ shard h. CountersRise h)) }
        ensures acks_rise { IfOk result (λ run. OfEach run.shards (λ shard h. AcksRise h)) }
        ensures uplinks { IfOk result (λ run. AllByRecursion HandsOut run.taken.items) }
        ensures windows_open_once { IfOk result (λ run. OfEach run.shards (λ shard h. WindowsOpenOnce h)) }

        // Each nonce that is accepted of a device is above the last one that the roster names, and at most the greatest one, which
        // `Run::greatest` gives.
        ensures nonces_within { IfOk result (λ run. OfEach run.shards (λ shard h. NoncesAreWithin (arc_value roster) h)) }
        ensures greatest { IfOk result (λ run. (eui : DevEui) → greatest_among run.shards eui ≡ greatest_after (arc_value roster) steps.now eui) }

        // An uplink goes out with the first 16 hearings of its frame's bytes from its first window's opening to its closing, and the
        // uplink of a session and counter goes out at most once, however often it is sent.
        ensures copies { IfOk result (λ run. AllByRecursion (HasCopies run.shards) run.taken.items) }
        ensures handed_out_once { IfOk result (λ run. AreHandedOutOnce run.taken.items) }
    {
        let mut lines = StepList::new(steps);
        let mut answers = TakenList {
            taken: Vec::new(alloc),
        };
        match Shards::run_over(alloc, roster, false, &mut lines, &mut (), &mut answers) {
            Ok(shards) => Ok(Run {
                shards,
                taken: answers.taken,
            }),
            Err(_) => Err(AllocError),
        }
    }

    /// Runs the steps of lines on one thread, in order, until there are no more lines, and puts what came of each. It is the loop of every
    /// run, of `run` and of `replay` of ns_replay. With `trims`, shards are trimmed as they grow, as `step_and_trim` does: what comes of each
    /// step is the same, and of each history is kept what trims leave.
    ///
    /// `Io` where `from` failed. `NoMemory` where a growth was refused, or after 2^64 - 1 lines.
    pub fn run_over<R, L: StepSource<R>, A: Answers>(
        alloc: Global,
        roster: Arc<Roster>,
        trims: bool,
        lines: &mut L,
        from: &mut R,
        answers: &mut A,
    ) -> Result<Shards, ReadFault>
        requires { L.has_failed from.old ≡ false }
        ensures run { IfOk result (λ shards. (given : List (Option Step)) × (told : List (Option Taken)) × HasAll (L.left lines.old from.old) given × HasRun (arc_value roster) trims given told shards × (A.held answers.new ≡ A.held answers.old ++ flat_map (A.pieces answers.old) told)) }
        ensures sound { OnOk result (L.has_failed from.new ≡ false) }
        ensures io { IfErr result (λ e. (e ≡ Io) ↔ (L.has_failed from.new ≡ true)) }
    {
        let mut shards = Shards::new(alloc, roster)?;
        let mut room = Vec::new(alloc);
        'given: for _ in 0..u64::MAX {
            if !lines.advance(from)? {
                return Ok(shards);
            }
            let step = lines.step(&mut room)?;
            let taken = shards.run_line(alloc, trims, &step)?;
            if let Some(done) = answers.put(alloc, taken)? {
                shards.reuse(done);
            }
        }
        Err(ReadFault::NoMemory)
    }
}

/// The sixteen shards without entries, each at its number.
pub fn new_shards(alloc: Global, roster: Arc<Roster>) -> Result<Vec<Shard>, AllocError>
    ensures { IfOk result (λ list. AreAfter (arc_value roster) [] list.items) }
{
    let mut list = Vec::with_capacity(alloc, usize::from(SHARDS))?;
    'shards: for index in 0..SHARDS {
        let shard = Shard::new(alloc, roster.clone()?, index)?;
        list.push(shard)?;
    }
    Ok(list)
}

// Makes a call at its shard.
fn apply(alloc: Global, shards: &mut Vec<Shard>, call: &Call) -> Result<Taken, AllocError>
    requires sixteen { length shards.old.items ≡ shard_count }
    requires in_place { AreInPlace shards.old.items }
    ensures { StepEnds shards.old.items (Ok call.now) result shards.new.items }
{
    let index = shard_of_call(call);
    let shard = &mut shards[index as usize];
    let number = shard.made();
    let answer = shard.apply_boxed(alloc, call)?;
    Ok(Taken::Made {
        shard: index,
        number,
        answer,
    })
}

// Makes the call of a datagram. One that is refused makes no call, and wants no memory. A call is made where it is handed on, so that it is not moved.
fn run_datagram(alloc: Global, shards: &mut Vec<Shard>, bytes: &[u8]) -> Result<Taken, AllocError>
    requires sixteen { length shards.old.items ≡ shard_count }
    requires in_place { AreInPlace shards.old.items }
    ensures { StepEnds shards.old.items (refused_as (datagram_call bytes.now)) result shards.new.items }
{
    let datagram = match read_datagram(bytes) {
        Ok(datagram) => datagram,
        Err(fault) => return Ok(Taken::Link(fault)),
    };
    let heard = datagram.heard();
    match view(datagram.frame()) {
        Ok(PhyView::Join(frame)) => {
            let ticket = frame.ticket();
            apply(alloc, shards, &Call::Join { ticket, heard })
        }
        Ok(PhyView::Frame(frame)) => {
            let frame = DataFrame::of(&frame);
            apply(alloc, shards, &Call::Uplink { frame, heard })
        }
        Err(fault) => Ok(Taken::View(fault)),
    }
}

// Makes the call of a step.
fn run_act(alloc: Global, shards: &mut Vec<Shard>, act: &LentAct<'_>) -> Result<Taken, AllocError>
    requires sixteen { length shards.old.items ≡ shard_count }
    requires in_place { AreInPlace shards.old.items }
    ensures { StepEnds shards.old.items (refused_as (call_of (act_lent act.now))) result shards.new.items }
{
    match act {
        LentAct::Datagram(bytes) => run_datagram(alloc, shards, bytes),
        LentAct::Answer { ticket, body } => {
            let call = answer_call(alloc, ticket, body)?;
            apply(alloc, shards, &call)
        }
        LentAct::Lost { ticket } => {
            let call = Call::JoinReply {
                ticket: *ticket,
                outcome: Outcome::Failed,
            };
            apply(alloc, shards, &call)
        }
        LentAct::Close(window) => apply(alloc, shards, &Call::Close { window: *window }),
    }
}
