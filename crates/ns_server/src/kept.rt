//! What lies under a lock: a shard, and the count of its entries.

ghost use Rattle.std.specs.Prelude.{◌≡◌, ◌==◌, ◌≤◌, ◌<◌, ◌+◌, ◌*◌, ◌^◌, Err, length, count_by, slice_index, true, IfOk, IsOk, OnOk, OnErr};
ghost use Rattle.ns_types.specs.Identity.{shard_of};
ghost use Rattle.ns_calls.specs.Shards.{shard_of_call};
ghost use Rattle.ns_kept.specs.Bound.{most_kept};
ghost use Rattle.ns_shard.specs.State.{IsState, after_call, after_trim, dropped, finds_open};
ghost use Rattle.ns_shard.specs.declared.trim.TrimFault.TheVariants.{Full};
ghost use Rattle.ns_tally.specs.Tally.{shard_of_book, total_of_book};
ghost use Rattle.ns_outside.specs.Answered.{HasHistory, RisesAt};
ghost use Rattle.ns_server.specs.Receipts.{receipt_for, AnswersFrom};
ghost use Rattle.ns_server.specs.Kept.{IsStateOf};
ghost use Rattle.ns_server.specs.Trims.{IsTrimOf, IsTrimInPlaceOf};

use crate::names::Naming;
use crate::pass::Pass;
use ns_calls::Call;
use ns_outside::Receipt;
use ns_shard::{Dropped, Shard, TrimFault};
use ns_tally::ShardBook;
use std::alloc::{AllocError, Global};
use std::marker::Model;

/// What a trim in place tells: its mark, which is the number of the next entry, and how many entries it dropped.
#[derive(Clone, Copy, Debug, PartialEq, Eq)]
pub struct Trim {
    pub mark: u64,
    pub dropped: u64,
}

/// What lies under the lock of shard `K`: the shard, and the book that counts its entries since the server began. Contracts see the
/// shard's state.
#[derive(Drop)]
pub struct Kept<B: Naming, const K: usize> {
    pub(crate) shard: Shard,
    pub(crate) book: ShardBook<B>,
    // Nothing: what the next lock guards begins in another cache line, so that two threads on two shards write to no line together.
    pub(crate) apart: [u64; 16],
}

impl<B: Naming, const K: usize> Model for Kept<B, K> {
    ghost use Rattle.ns_shard.specs.State.{State};
    ghost use Rattle.ns_server.specs.Kept.{IsKept};

    ghost Value = { State };

    ghost view = { λ k. k.shard };

    ghost invariant = { λ k. IsKept B.roster (B.begun K) K k.shard k.book };
}

// Makes a call of a shard, and puts its receipt in the place of another. Where a growth was refused nothing has changed. It is one function
// for all shards, so that the calls of all run through the same instructions, which stay in the cache.
#[inline(never)]
fn step_shard(shard: &mut Shard, call: &Call, receipt: &mut Receipt) -> Result<(), AllocError>
    requires { shard_of_call call.now ≡ shard.old.index }
    ensures entry { OnOk result (shard.new ≡ after_call shard.old call.now) }
    ensures receipt { OnOk result (receipt.new ≡ receipt_for shard.old call.now) }
    ensures err { OnErr result ((shard.new ≡ shard.old) × (receipt.new ≡ receipt.old)) }
    ensures open { finds_open shard.old call.now ≡ true → IsOk result }
    ensures state { IsState shard.new }
    ensures made { OnOk result (shard.new.made < 2 ^ 64) }
{
    let (reply, uplink) = (&mut receipt.entry.reply, &mut receipt.uplink);
    match shard.apply_into(call, reply, uplink, &mut receipt.downlink) {
        Ok(()) => {}
        Err(refused) => return Err(refused),
    }
    receipt.put(shard.index(), shard.made() - 1, call);
    Ok(())
}

impl<B: Naming, const K: usize> Kept<B, K> {
    /// How many entries were made, which is the next one's number.
    pub fn made(&self) -> u64
        ensures made { result ≡ self.now.made }
        ensures state { IsStateOf B.roster K self.now }
    {
        self.shard.made()
    }

    /// The shard with which the server `B` begins at place `K`, and the book of its ledger, in which nothing is counted yet. A `Server`
    /// puts each of its sixteen shards so under a lock.
    pub fn new(shard: Shard, book: ShardBook<B>) -> Self
        requires begun { shard ≡ B.begun K }
        requires placed { ((B.begun K).roster ≡ B.roster) × ((B.begun K).index ≡ K) }
        requires book { (shard_of_book book ≡ K) × (total_of_book book ≡ 0) }
        ensures { result ≡ shard }
    {
        let _made = shard.made();
        Kept {
            shard,
            book,
            apart: [0; 16],
        }
    }

    /// Makes a call of the shard, and counts its entry in the book and in the pass. `NoMemory` (`AllocError`) where a growth was refused:
    /// then nothing has changed. A closing or a join answer that finds its window or ticket open takes no memory.
    pub fn step(&mut self, pass: &mut Pass<B>, call: Call) -> Result<Receipt, AllocError>
        requires { shard_of_call call ≡ K }
        ensures entry { OnOk result (self.new ≡ after_call self.old call) }
        ensures receipt { IfOk result (λ r. r ≡ receipt_for self.old call) }
        ensures counted { OnOk result (RisesAt K pass.old pass.new) }
        ensures err { OnErr result ((self.new ≡ self.old) × (pass.new ≡ pass.old)) }
        ensures open { finds_open self.old call ≡ true → IsOk result }
        ensures state { IsStateOf B.roster K self.new }
        ensures behind { OnOk result (slice_index pass.old K ≤ self.old.made) }
        ensures answered { IfOk result (λ r. HasHistory B.roster K r) }
        ensures begun { IfOk result (AnswersFrom B.roster (B.begun K) K) }
    {
        let mut receipt = Receipt::empty();
        self.step_into(pass, &call, &mut receipt)?;
        Ok(receipt)
    }

    /// Makes a call as `step` does, and puts its receipt in the place of another, which stays where a growth was refused. A receipt is
    /// large: a caller of many calls moves none so.
    pub fn step_into(
        &mut self,
        pass: &mut Pass<B>,
        call: &Call,
        receipt: &mut Receipt,
    ) -> Result<(), AllocError>
        requires { shard_of_call call.now ≡ K }
        ensures entry { OnOk result (self.new ≡ after_call self.old call.now) }
        ensures receipt { OnOk result (receipt.new ≡ receipt_for self.old call.now) }
        ensures counted { OnOk result (RisesAt K pass.old pass.new) }
        ensures err { OnErr result ((self.new ≡ self.old) × (pass.new ≡ pass.old) × (receipt.new ≡ receipt.old)) }
        ensures open { finds_open self.old call.now ≡ true → IsOk result }
        ensures state { IsStateOf B.roster K self.new }
        ensures behind { OnOk result (slice_index pass.old K ≤ self.old.made) }
        ensures answered { OnOk result (HasHistory B.roster K receipt.new) }
        ensures begun { OnOk result (AnswersFrom B.roster (B.begun K) K receipt.new) }
    {
        match step_shard(&mut self.shard, call, receipt) {
            Ok(()) => {}
            Err(refused) => return Err(refused),
        }
        self.book.add_one(&mut pass.shares);
        pass.counts[K] += 1;
        Ok(())
    }

    /// Drops the entries on which no answer rests, and hands them out. The count stays: it is of all entries that were ever made. `Full`
    /// (Z1) where more than 2^63 entries would be dropped in all, `NoMemory` (Z2) where a growth was refused: then nothing has changed.
    pub fn trim(&mut self, alloc: Global) -> Result<Dropped, TrimFault>
        ensures kept { OnOk result (self.new ≡ after_trim self.old) }
        ensures mark { IfOk result (λ d. d.mark ≡ self.old.made) }
        ensures dropped { IfOk result (λ d. d.entries.items ≡ dropped self.old) }
        ensures few { OnOk result (length self.new.entries ≤ most_kept * count_by (λ d. shard_of d.eui == K) B.roster.devices) }
        ensures full { result ≡ Err Full → 2 ^ 63 + length (after_trim self.old).entries < self.old.made }
        ensures err { OnErr result (self.new ≡ self.old) }
        ensures state { IsStateOf B.roster K self.new }
        ensures told { IfOk result (IsTrimOf B.roster K) }
    {
        self.shard.trim(alloc)
    }

    /// Trims as `trim` does, in the memory of the entries, and hands none out. Their room stays for later ones (no clause).
    pub fn trim_in_place(&mut self, alloc: Global) -> Result<Trim, TrimFault>
        ensures kept { OnOk result (self.new ≡ after_trim self.old) }
        ensures mark { IfOk result (λ t. t.mark ≡ self.old.made) }
        ensures full { result ≡ Err Full → 2 ^ 63 + length (after_trim self.old).entries < self.old.made }
        ensures err { OnErr result (self.new ≡ self.old) }
        ensures state { IsStateOf B.roster K self.new }
        ensures told { IfOk result (IsTrimInPlaceOf B.roster K) }
    {
        let mark = self.shard.made();
        let dropped = match self.shard.trim_in_place(alloc) {
            Ok(dropped) => dropped,
            Err(fault) => return Err(fault),
        };
        Ok(Trim { mark, dropped })
    }

    /// Makes room for so many more entries. Where that is refused, there is as much room as before.
    pub fn reserve(&mut self, entries: usize)
        ensures same { self.new ≡ self.old }
    {
        let _ = self.shard.reserve(entries);
    }
}
