//! Sixteen shards, each behind its own lock.

ghost use Rattle.std.specs.Prelude.{◌≡◌, ◌≤◌, ◌<◌, ◌+◌, [], suc, length, slice_index, vec_len, vec_capacity, All, IfOk, OnOk, OnErr};
ghost use Rattle.std.specs.Arc.{arc_value};
ghost use Rattle.ns_types.specs.Identity.{shard_count};
ghost use Rattle.ns_calls.specs.Shards.{shard_of_call};
ghost use Rattle.ns_shard.specs.State.{no_entries};
ghost use Rattle.ns_tally.specs.Tally.{none_made, shard_of_book, total_of_book, AreNamed};
ghost use Rattle.ns_outside.specs.Answered.{HasHistory, RisesAt};
ghost use Rattle.ns_server.specs.Receipts.{AnswersFrom};
ghost use Rattle.ns_server.specs.Trims.{IsTrimOf, IsTrimInPlaceOf};
ghost use Rattle.ns_server.specs.Begun.{BeganAs, ArePlaced, states_at};
ghost use Rattle.ns_server.specs.Kept.{IsStateOf};
ghost use Rattle.ns_server.specs.Rows.{new_states, AreRow, AreFirst};

use crate::kept::{Kept, Trim};
use crate::names::Naming;
use crate::pass::{PLACES, Pass};
use ns_calls::{Call, shard_of_call};
use ns_outside::{Gate, Receipt};
use ns_roster::Roster;
use ns_shard::{Dropped, Shard, TrimFault};
use ns_tally::{Blanks, Books, ShardBook, Shares};
use ns_types::SHARDS;
use std::alloc::{AllocError, Global};
use std::marker::Model;
use std::sync::{Arc, Mutex, Wait};

/// Sixteen shards, each behind its own lock. Contracts see the number of workers.
pub struct Server<B: Naming> {
    pub(crate) workers: usize,
    roster: Arc<Roster>,
    k0: Mutex<Kept<B, 0>>,
    k1: Mutex<Kept<B, 1>>,
    k2: Mutex<Kept<B, 2>>,
    k3: Mutex<Kept<B, 3>>,
    k4: Mutex<Kept<B, 4>>,
    k5: Mutex<Kept<B, 5>>,
    k6: Mutex<Kept<B, 6>>,
    k7: Mutex<Kept<B, 7>>,
    k8: Mutex<Kept<B, 8>>,
    k9: Mutex<Kept<B, 9>>,
    k10: Mutex<Kept<B, 10>>,
    k11: Mutex<Kept<B, 11>>,
    k12: Mutex<Kept<B, 12>>,
    k13: Mutex<Kept<B, 13>>,
    k14: Mutex<Kept<B, 14>>,
    k15: Mutex<Kept<B, 15>>,
}

impl<B: Naming> Model for Server<B> {
    ghost use Rattle.std.specs.Prelude.{◌≡◌, ◌<◌, ℕ};
    ghost use Rattle.std.specs.Arc.{arc_value};

    ghost Value = { ℕ };

    ghost view = { λ s. s.workers };

    ghost invariant = { λ s. (s.workers ≡ B.workers) × (0 < s.workers) × (arc_value s.roster ≡ B.roster) };
}

impl<B: Naming> Drop for Server<B> {
    fn drop(self) {
        let Server {
            workers: _,
            roster: _,
            k0: _,
            k1: _,
            k2: _,
            k3: _,
            k4: _,
            k5: _,
            k6: _,
            k7: _,
            k8: _,
            k9: _,
            k10: _,
            k11: _,
            k12: _,
            k13: _,
            k14: _,
            k15: _,
        } = self;
    }
}

// Takes the lock and makes one step, with the gate's visits under it.
fn run<B: Naming, const K: usize, R: Wait, G: Gate<R>>(
    rt: &R,
    lock: &Mutex<Kept<B, K>>,
    pass: &mut Pass<B>,
    call: &Call,
    gate: &G,
    receipt: &mut Receipt,
) -> Result<(), AllocError>
    requires { shard_of_call call.now ≡ K }
    ensures call { OnOk result ((receipt.new.shard ≡ shard_of_call call.now) × (receipt.new.entry.call ≡ call.now)) }
    ensures number { OnOk result (slice_index pass.old (shard_of_call call.now) ≤ receipt.new.entry.number) }
    ensures answered { OnOk result (HasHistory B.roster (shard_of_call call.now) receipt.new) }
    ensures begun { OnOk result (AnswersFrom B.roster (B.begun (shard_of_call call.now)) (shard_of_call call.now) receipt.new) }
    ensures counted { OnOk result (RisesAt (shard_of_call call.now) pass.old pass.new) }
    ensures err { OnErr result ((pass.new ≡ pass.old) × (receipt.new ≡ receipt.old)) }
{
    let mut kept = lock.lock(rt);
    gate.visit(rt, shard_of_call(call), kept.made());
    kept.step_into(pass, call, receipt)?;
    gate.made(rt, receipt);
    Ok(())
}

// Takes the lock and trims. As many entries as were dropped are likely to come before the next trim: there is room for them, and an eighth
// more, so that entries are not moved each time that there are twice as many.
fn trim_kept<B: Naming, const K: usize, R: Wait>(
    rt: &R,
    lock: &Mutex<Kept<B, K>>,
    alloc: Global,
) -> Result<Dropped, TrimFault>
    ensures { IfOk result (IsTrimOf B.roster K) }
{
    let mut kept = lock.lock(rt);
    let dropped = kept.trim(alloc)?;
    let count = dropped.entries.len();
    kept.reserve(count.saturating_add(count / 8));
    Ok(dropped)
}

// Takes the lock and trims in the memory of the entries.
fn trim_kept_in_place<B: Naming, const K: usize, R: Wait>(
    rt: &R,
    lock: &Mutex<Kept<B, K>>,
    alloc: Global,
) -> Result<Trim, TrimFault>
    ensures { IfOk result (IsTrimInPlaceOf B.roster K) }
{
    lock.lock(rt).trim_in_place(alloc)
}

/// The sixteen shards, with no entries.
pub fn new_shards(alloc: Global, roster: &Arc<Roster>) -> Result<Vec<Shard>, AllocError>
    ensures { IfOk result (λ v. v.items ≡ new_states (arc_value roster.now) shard_count) }
{
    let mut shards = Vec::new(alloc);
    for index in 0..SHARDS {
        shards.push(Shard::new(alloc, roster.clone()?, index)?)?;
    }
    Ok(shards)
}

// A lock round the last of the shards.
fn new_lock<B: Naming, const K: usize>(
    shards: &mut Vec<Shard>,
    book: ShardBook<B>,
) -> Mutex<Kept<B, K>>
    requires shards { AreFirst B.roster B.begun (suc K) shards.old.items }
    requires book { (shard_of_book book ≡ K) × (total_of_book book ≡ 0) }
    ensures { AreFirst B.roster B.begun K shards.new.items }
{
    let shard = shards.pop().unwrap();
    let _made = shard.made();
    Mutex::new(Kept {
        shard,
        book,
        apart: [0; 16],
    })
}

// Puts passes with which nothing was made yet, where there is room for them.
fn put_passes<B: Naming>(passes: &mut Vec<Pass<B>>, mut shares: Shares<B>, workers: usize)
    requires none { passes.old.items ≡ [] }
    requires room { vec_len passes.old + workers ≤ vec_capacity passes.old }
    requires parts { shares.parts ≡ workers }
    requires amounts { shares.amounts ≡ none_made }
    ensures count { vec_len passes.new ≡ vec_len passes.old + workers }
    ensures made { All (λ p. p ≡ none_made) passes.new.items }
{
    for _i in 0..workers {
        passes.push_reserved(Pass::new(shares.split_one()));
    }
    drop(shares);
}

impl<B: Naming> Server<B> {
    /// A server with no entries, and a pass for each of its workers. The blanks become the ledgers that `B` names. `NoMemory`
    /// (`AllocError`) where a growth was refused.
    pub fn new(
        alloc: Global,
        roster: Arc<Roster>,
        workers: usize,
        blanks: Blanks,
    ) -> Result<(Server<B>, Vec<Pass<B>>), AllocError>
        requires workers { (0 < workers) × (workers ≤ 64) }
        requires names { AreNamed B.ledger blanks.names }
        requires parts { (blanks.parts ≡ workers) × (B.workers ≡ workers) }
        requires roster { arc_value roster ≡ B.roster }
        requires begun { B.begun ≡ no_entries B.roster }
        ensures server { IfOk result (λ r. r.0 ≡ workers) }
        ensures passes { IfOk result (λ r. (vec_len r.1 ≡ workers) × All (λ p. p ≡ none_made) r.1.items) }
    {
        let Ok(none) = new_shards(alloc, &roster) else {
            drop(blanks);
            return Err(AllocError);
        };
        Server::<B>::over(alloc, roster, workers, blanks, none)
    }

    /// A server that begins with these sixteen shards and their entries, as those that the run of a record leaves, and a pass for each of
    /// its workers. `NoMemory` (`AllocError`) where a growth was refused.
    pub fn resume(
        alloc: Global,
        roster: Arc<Roster>,
        workers: usize,
        blanks: Blanks,
        shards: Vec<Shard>,
    ) -> Result<(Server<B>, Vec<Pass<B>>), AllocError>
        requires workers { (0 < workers) × (workers ≤ 64) }
        requires names { AreNamed B.ledger blanks.names }
        requires parts { (blanks.parts ≡ workers) × (B.workers ≡ workers) }
        requires roster { arc_value roster ≡ B.roster }
        requires sixteen { vec_len shards ≡ shard_count }
        requires places { ArePlaced B.roster shards.items }
        requires begun { B.begun ≡ states_at B.roster shards.items }
        ensures server { IfOk result (λ r. r.0 ≡ workers) }
        ensures passes { IfOk result (λ r. (vec_len r.1 ≡ workers) × All (λ p. p ≡ none_made) r.1.items) }
    {
        Server::<B>::over(alloc, roster, workers, blanks, shards)
    }

    // A server over the sixteen shards with which it begins.
    fn over(
        alloc: Global,
        roster: Arc<Roster>,
        workers: usize,
        blanks: Blanks,
        shards: Vec<Shard>,
    ) -> Result<(Server<B>, Vec<Pass<B>>), AllocError>
        requires workers { (0 < workers) × (workers ≤ 64) }
        requires names { AreNamed B.ledger blanks.names }
        requires parts { (blanks.parts ≡ workers) × (B.workers ≡ workers) }
        requires roster { arc_value roster ≡ B.roster }
        requires shards { AreFirst B.roster B.begun shard_count shards.items }
        ensures server { IfOk result (λ r. r.0 ≡ workers) }
        ensures passes { IfOk result (λ r. (vec_len r.1 ≡ workers) × All (λ p. p ≡ none_made) r.1.items) }
    {
        let Ok(mut passes) = Vec::with_capacity(alloc, workers) else {
            drop(blanks);
            return Err(AllocError);
        };
        let (books, shares) = blanks.open::<B>();
        put_passes(&mut passes, shares, workers);
        let server = Server::<B>::locked(roster, workers, books, shards);
        Ok((server, passes))
    }

    // Puts each of the sixteen shards under its lock, with its book.
    fn locked(
        roster: Arc<Roster>,
        workers: usize,
        books: Books<B>,
        mut shards: Vec<Shard>,
    ) -> Server<B>
        requires workers { (0 < workers) × (B.workers ≡ workers) }
        requires roster { arc_value roster ≡ B.roster }
        requires shards { AreFirst B.roster B.begun shard_count shards.items }
        ensures { result ≡ workers }
    {
        let Books {
            k0,
            k1,
            k2,
            k3,
            k4,
            k5,
            k6,
            k7,
            k8,
            k9,
            k10,
            k11,
            k12,
            k13,
            k14,
            k15,
        } = books;
        Server {
            workers,
            k15: new_lock(&mut shards, k15),
            k14: new_lock(&mut shards, k14),
            k13: new_lock(&mut shards, k13),
            k12: new_lock(&mut shards, k12),
            k11: new_lock(&mut shards, k11),
            k10: new_lock(&mut shards, k10),
            k9: new_lock(&mut shards, k9),
            k8: new_lock(&mut shards, k8),
            k7: new_lock(&mut shards, k7),
            k6: new_lock(&mut shards, k6),
            k5: new_lock(&mut shards, k5),
            k4: new_lock(&mut shards, k4),
            k3: new_lock(&mut shards, k3),
            k2: new_lock(&mut shards, k2),
            k1: new_lock(&mut shards, k1),
            k0: new_lock(&mut shards, k0),
            roster,
        }
    }

    /// Makes a call with a worker's pass, under the lock of the call's shard alone, with the visits of the gate. `NoMemory`
    /// (`AllocError`) where a growth was refused. What it does to the shard, and when it is refused, is said of `Kept::step`: the contract
    /// has no name for what lies under the lock. Each reply is the plain server's after some history of its shard, as long as the
    /// entry's number, and what goes out is what the receipt tells.
    pub fn call<R: Wait, G: Gate<R>>(
        &self,
        rt: &R,
        pass: &mut Pass<B>,
        call: Call,
        gate: &G,
    ) -> Result<Receipt, AllocError>
        ensures call { IfOk result (λ r. (r.shard ≡ shard_of_call call) × (r.entry.call ≡ call)) }
        ensures number { IfOk result (λ r. slice_index pass.old (shard_of_call call) ≤ r.entry.number) }
        ensures answered { IfOk result (λ r. HasHistory B.roster (shard_of_call call) r) }
        ensures begun { IfOk result (AnswersFrom B.roster (B.begun (shard_of_call call)) (shard_of_call call)) }
        ensures counted { OnOk result (RisesAt (shard_of_call call) pass.old pass.new) }
        ensures err { OnErr result (pass.new ≡ pass.old) }
    {
        let mut receipt = Receipt::empty();
        self.call_into(rt, pass, &call, gate, &mut receipt)?;
        Ok(receipt)
    }

    /// The same, with the receipt put in the place of another, which stays where a growth was refused. A receipt is large: who makes many
    /// calls moves none so.
    pub fn call_into<R: Wait, G: Gate<R>>(
        &self,
        rt: &R,
        pass: &mut Pass<B>,
        call: &Call,
        gate: &G,
        receipt: &mut Receipt,
    ) -> Result<(), AllocError>
        ensures call { OnOk result ((receipt.new.shard ≡ shard_of_call call.now) × (receipt.new.entry.call ≡ call.now)) }
        ensures number { OnOk result (slice_index pass.old (shard_of_call call.now) ≤ receipt.new.entry.number) }
        ensures answered { OnOk result (HasHistory B.roster (shard_of_call call.now) receipt.new) }
        ensures begun { OnOk result (AnswersFrom B.roster (B.begun (shard_of_call call.now)) (shard_of_call call.now) receipt.new) }
        ensures counted { OnOk result (RisesAt (shard_of_call call.now) pass.old pass.new) }
        ensures err { OnErr result ((pass.new ≡ pass.old) × (receipt.new ≡ receipt.old)) }
    {
        let shard = shard_of_call(call);
        gate.before(rt, shard);
        match shard {
            0 => run(rt, &self.k0, pass, call, gate, receipt),
            1 => run(rt, &self.k1, pass, call, gate, receipt),
            2 => run(rt, &self.k2, pass, call, gate, receipt),
            3 => run(rt, &self.k3, pass, call, gate, receipt),
            4 => run(rt, &self.k4, pass, call, gate, receipt),
            5 => run(rt, &self.k5, pass, call, gate, receipt),
            6 => run(rt, &self.k6, pass, call, gate, receipt),
            7 => run(rt, &self.k7, pass, call, gate, receipt),
            8 => run(rt, &self.k8, pass, call, gate, receipt),
            9 => run(rt, &self.k9, pass, call, gate, receipt),
            10 => run(rt, &self.k10, pass, call, gate, receipt),
            11 => run(rt, &self.k11, pass, call, gate, receipt),
            12 => run(rt, &self.k12, pass, call, gate, receipt),
            13 => run(rt, &self.k13, pass, call, gate, receipt),
            14 => run(rt, &self.k14, pass, call, gate, receipt),
            _ => run(rt, &self.k15, pass, call, gate, receipt),
        }
    }

    /// Drops the entries of a shard on which no answer rests, under the lock of that shard, and hands them out. No gate is visited, and
    /// no entry is made. What it does to the shard, and when it answers `Full` (Z1) or `NoMemory` (Z2), is said of `Kept::trim`. The
    /// contract has no name for the shard under its lock: it says that some state of the shard is such that the mark is how many entries
    /// were made by then, and that what comes out is all that a trim of it drops.
    pub fn trim<R: Wait>(&self, rt: &R, alloc: Global, shard: u8) -> Result<Dropped, TrimFault>
        requires { shard < shard_count }
        ensures told { IfOk result (IsTrimOf B.roster shard) }
    {
        match shard {
            0 => trim_kept(rt, &self.k0, alloc),
            1 => trim_kept(rt, &self.k1, alloc),
            2 => trim_kept(rt, &self.k2, alloc),
            3 => trim_kept(rt, &self.k3, alloc),
            4 => trim_kept(rt, &self.k4, alloc),
            5 => trim_kept(rt, &self.k5, alloc),
            6 => trim_kept(rt, &self.k6, alloc),
            7 => trim_kept(rt, &self.k7, alloc),
            8 => trim_kept(rt, &self.k8, alloc),
            9 => trim_kept(rt, &self.k9, alloc),
            10 => trim_kept(rt, &self.k10, alloc),
            11 => trim_kept(rt, &self.k11, alloc),
            12 => trim_kept(rt, &self.k12, alloc),
            13 => trim_kept(rt, &self.k13, alloc),
            14 => trim_kept(rt, &self.k14, alloc),
            _ => trim_kept(rt, &self.k15, alloc),
        }
    }

    /// Trims a shard as `trim` does, in the memory of its entries, and hands none out: it tells the mark and how many were dropped. Their
    /// room stays for later ones (no clause).
    pub fn trim_in_place<R: Wait>(
        &self,
        rt: &R,
        alloc: Global,
        shard: u8,
    ) -> Result<Trim, TrimFault>
        requires { shard < shard_count }
        ensures told { IfOk result (IsTrimInPlaceOf B.roster shard) }
    {
        match shard {
            0 => trim_kept_in_place(rt, &self.k0, alloc),
            1 => trim_kept_in_place(rt, &self.k1, alloc),
            2 => trim_kept_in_place(rt, &self.k2, alloc),
            3 => trim_kept_in_place(rt, &self.k3, alloc),
            4 => trim_kept_in_place(rt, &self.k4, alloc),
            5 => trim_kept_in_place(rt, &self.k5, alloc),
            6 => trim_kept_in_place(rt, &self.k6, alloc),
            7 => trim_kept_in_place(rt, &self.k7, alloc),
            8 => trim_kept_in_place(rt, &self.k8, alloc),
            9 => trim_kept_in_place(rt, &self.k9, alloc),
            10 => trim_kept_in_place(rt, &self.k10, alloc),
            11 => trim_kept_in_place(rt, &self.k11, alloc),
            12 => trim_kept_in_place(rt, &self.k12, alloc),
            13 => trim_kept_in_place(rt, &self.k13, alloc),
            14 => trim_kept_in_place(rt, &self.k14, alloc),
            _ => trim_kept_in_place(rt, &self.k15, alloc),
        }
    }

    // Takes all shards out of their locks, with the roster.
    pub(crate) fn open_all(self, mut all: Shares<B>) -> (Arc<Roster>, [Shard; PLACES])
        requires { all.parts ≡ B.workers }
        ensures roster { arc_value result.0 ≡ B.roster }
        ensures states { AreRow (λ k s. IsStateOf B.roster k s) 0 result.1 }
        ensures made { AreRow (λ k s. s.made ≡ (B.begun k).made + slice_index all.amounts k) 0 result.1 }
        ensures begun { AreRow (λ k s. BeganAs (B.begun k) s) 0 result.1 }
        ensures sixteen { length result.1 ≡ shard_count }
    {
        let Server {
            workers: _,
            roster,
            k0,
            k1,
            k2,
            k3,
            k4,
            k5,
            k6,
            k7,
            k8,
            k9,
            k10,
            k11,
            k12,
            k13,
            k14,
            k15,
        } = self;
        let shards = [
            open_one(k0, &mut all),
            open_one(k1, &mut all),
            open_one(k2, &mut all),
            open_one(k3, &mut all),
            open_one(k4, &mut all),
            open_one(k5, &mut all),
            open_one(k6, &mut all),
            open_one(k7, &mut all),
            open_one(k8, &mut all),
            open_one(k9, &mut all),
            open_one(k10, &mut all),
            open_one(k11, &mut all),
            open_one(k12, &mut all),
            open_one(k13, &mut all),
            open_one(k14, &mut all),
            open_one(k15, &mut all),
        ];
        drop(all);
        (roster, shards)
    }
}

// Takes a shard out of its lock, and compares the count of its entries with what all passes made.
fn open_one<B: Naming, const K: usize>(lock: Mutex<Kept<B, K>>, all: &mut Shares<B>) -> Shard
    requires { all.old.parts ≡ B.workers }
    ensures state { IsStateOf B.roster K result }
    ensures made { result.made ≡ (B.begun K).made + slice_index all.old.amounts K }
    ensures begun { BeganAs (B.begun K) result }
    ensures same { all.new ≡ all.old }
{
    let Kept {
        shard,
        mut book,
        apart: _,
    } = lock.into_inner();
    book.audit(all);
    shard
}
