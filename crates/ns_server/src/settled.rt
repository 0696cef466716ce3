//! A server whose passes have all come back: its histories, its sum, and the closing of what is still open.

ghost use Rattle.std.specs.Prelude.{◌≡◌, ℕ, ◌+◌, ◌<◌, ◌↔◌, true, Some, length, slice_get, slice_index, vec_len, sum_by, option_map, IfOk, IfErr, IsOk, IfSome, IfNone};
ghost use Rattle.ns_types.specs.Identity.{shard_count, shard_of};
ghost use Rattle.ns_calls.specs.declared.call.Call.TheVariants.{Close};
ghost use Rattle.ns_shard.specs.State.{after_call, finds_open, IsState};
ghost use Rattle.ns_server.specs.Receipts.{receipt_for};
ghost use Rattle.ns_server.specs.Kept.{IsStateOf};
ghost use Rattle.ns_server.specs.Begun.{AreBegun};
ghost use Rattle.ns_server.specs.Settled.{histories, AreStates, AreMadeBy, MergesToLegal, greatest_of};
ghost use Rattle.ns_server.specs.Drain.{Drains, NoneOpen, EachIsClosed, OpensFirst};

use crate::names::Naming;
use crate::pass::{PLACES, Pass};
use crate::server::Server;
use ns_calls::{Call, Entry, windows_open_once};
use ns_kept::{drained_histories_closed_all, merges_of_what_leaves_are_legal};
use ns_outside::{Receipt, receipt_of};
use ns_roster::Roster;
use ns_shard::Shard;
use ns_tally::Shares;
use ns_types::{DevEui, DevNonce, WindowName, shard_of};
use std::marker::{Model, PhantomData};
use std::sync::Arc;

/// A server whose passes have all come back. Contracts see the states of its sixteen shards.
#[derive(Drop)]
pub struct Settled<B: Naming> {
    pub(crate) roster: Arc<Roster>,
    pub(crate) shards: [Shard; PLACES],
    of: PhantomData<B>,
}

impl<B: Naming> Model for Settled<B> {
    ghost use Rattle.std.specs.Prelude.{◌≡◌, List, length};
    ghost use Rattle.std.specs.Arc.{arc_value};
    ghost use Rattle.ns_types.specs.Identity.{shard_count};
    ghost use Rattle.ns_shard.specs.State.{State};
    ghost use Rattle.ns_server.specs.Settled.{AreStates};

    ghost Value = { List State };

    ghost view = { λ s. s.shards };

    ghost invariant = { λ s. (arc_value s.roster ≡ B.roster) × (length s.shards ≡ shard_count) × AreStates B.roster s.shards };
}

/// S1: a pass of the server is missing. Both are handed back.
#[derive(Drop)]
pub struct SettleFault<B: Naming> {
    pub server: Server<B>,
    pub passes: Vec<Pass<B>>,
}

// The shares of all passes together.
fn all_shares<B: Naming>(mut passes: Vec<Pass<B>>) -> Shares<B>
    requires { 0 < vec_len passes }
    ensures parts { result.parts ≡ vec_len passes }
    ensures amounts { (k : ℕ) → slice_index result.amounts k ≡ sum_by (λ p. slice_index p k) passes.items }
{
    let first = passes.pop().unwrap();
    let mut all = first.into_shares();
    while let Some(pass) = passes.pop() {
        all.merge(pass.into_shares());
    }
    all
}

impl<B: Naming> Server<B> {
    /// Ends the server, where every pass has come back; S1 where one is missing. No memory is taken.
    pub fn settle(self, passes: Vec<Pass<B>>) -> Result<Settled<B>, SettleFault<B>>
        ensures missing { IsOk result ↔ (vec_len passes ≡ B.workers) }
        ensures back { IfErr result (λ e. (e.server ≡ self) × (e.passes ≡ passes)) }
        ensures sixteen { IfOk result (λ s. length s ≡ shard_count) }
        ensures states { IfOk result (λ s. AreStates B.roster s) }
        ensures made { IfOk result (λ s. AreMadeBy B.begun passes.items s) }
        ensures begun { IfOk result (λ s. AreBegun B.begun s) }
        ensures merges { IfOk result (λ s. MergesToLegal B.roster s) }
    {
        if passes.len() != self.workers {
            return Err(SettleFault {
                server: self,
                passes,
            });
        }
        let all = all_shares(passes);
        let (roster, shards) = self.open_all(all);
        let _net = roster.net_id();
        merges_of_what_leaves_are_legal();
        Ok(Settled {
            roster,
            shards,
            of: PhantomData,
        })
    }
}

impl<B: Naming> Settled<B> {
    /// The entries of a shard that its last trim kept, and those made since, the earliest first: all, where it was never trimmed.
    pub fn history(&self, shard: u8) -> &[Entry]
        requires { shard < shard_count }
        ensures history { slice_get (histories self.now) shard ≡ Some result.now }
        ensures states { AreStates B.roster self.now }
    {
        self.shards[usize::from(shard)].entries()
    }

    /// How many entries of a shard were made before its last trim: none where it was never trimmed.
    pub fn mark(&self, shard: u8) -> u64
        requires { shard < shard_count }
        ensures { option_map (λ s. s.mark) (slice_get self.now shard) ≡ Some result }
    {
        self.shards[usize::from(shard)].mark()
    }

    /// How many entries of a shard its trims dropped.
    pub fn dropped(&self, shard: u8) -> u64
        requires { shard < shard_count }
        ensures { option_map (λ s. s.made) (slice_get self.now shard) ≡ option_map (λ s. length s.entries + result) (slice_get self.now shard) }
    {
        let shard = &self.shards[usize::from(shard)];
        shard.made() - shard.entries().len() as u64
    }

    /// How many entries were made in all shards, those that were dropped among them.
    pub fn total(&self) -> u128
        ensures { result ≡ sum_by (λ s. s.made) self.now }
    {
        let mut total = 0u128;
        for shard in &self.shards {
            total += u128::from(shard.made());
        }
        total
    }

    /// The greatest DevNonce of a device: of those accepted, and of the last one that the roster names. None where the roster does not
    /// have the device. No memory is taken.
    pub fn greatest(&self, eui: DevEui) -> Option<DevNonce>
        ensures { option_map (λ n. n.0) result ≡ greatest_of B.roster self.now eui }
    {
        let place = usize::from(shard_of(eui));
        self.shards[place].greatest(eui)
    }

    /// Closes the open window that was opened first, of the first shard that has one, and gives the receipt. None where no window is
    /// open: then each window that was opened was closed exactly once, in every history that leaves what is left. No memory is taken.
    pub fn drain_next(&mut self) -> Option<Receipt>
        ensures some { IfSome result (λ r. Drains self.old r self.new) }
        ensures none { IfNone result (NoneOpen self.old × (self.new ≡ self.old)) }
        ensures closed { IfNone result (EachIsClosed self.new) }
        ensures states { AreStates B.roster self.new }
    {
        let Some((i, window)) = first_open(&self.shards) else {
            windows_open_once();
            drained_histories_closed_all();
            return None;
        };
        Some(close(&mut self.shards[i], window))
    }
}

// The first shard with an open window, and the window that was opened first there.
fn first_open(shards: &[Shard]) -> Option<(usize, WindowName)>
    ensures none { IfNone result (NoneOpen shards.now) }
    ensures some { IfSome result (λ p. (p.0 < length shards.now) × OpensFirst shards.now p.0 p.1) }
{
    for i in 0..shards.len() {
        if let Some(window) = shards[i].oldest() {
            return Some((i, window));
        }
    }
    None
}

// Closes an open window of a shard.
fn close(shard: &mut Shard, window: WindowName) -> Receipt
    requires own { shard_of window.eui ≡ shard.old.index }
    requires open { finds_open shard.old (Close window) ≡ true }
    ensures done { shard.new ≡ after_call shard.old (Close window) }
    ensures receipt { result ≡ receipt_for shard.old (Close window) }
    ensures state { IsState shard.new }
{
    let number = shard.made();
    let Some(answer) = shard.close(&window) else {
        unreachable!()
    };
    let call = Call::Close { window };
    receipt_of(shard.index(), number, &call, answer)
}
