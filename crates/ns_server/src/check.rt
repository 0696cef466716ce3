//! Receipts against the histories.

ghost use Rattle.std.specs.Prelude.{◌≡◌, ◌<◌, ◌≤◌, ◌↔◌, length, IsTrue, MatchResult};
ghost use Rattle.ns_sent.specs.Found.{CopiesFit};
ghost use Rattle.ns_outside.specs.Answered.{Sends};
ghost use Rattle.ns_server.specs.Check.{StandsIn, Stands, IsPassed, IsRepeated, IsRight, AreRight, IsFirstWrong};

use crate::names::Naming;
use crate::settled::Settled;
use ns_calls::{Entry, limits_hold, windows_open_once};
use ns_outside::Receipt;
use ns_roster::Roster;
use ns_sent::{downlink_of, is_downlink, is_entry, is_uplink, uplink_of};
use ns_shard::Shard;

impl<B: Naming> Settled<B> {
    /// Compares receipts with the histories. Those of entries that were made before the last trim of their shard are passed over. The
    /// error is the place of the first receipt whose entry is not at its number in the
    /// history of its shard, that tells something else than what goes out there, or whose shard and number an earlier one has. No
    /// memory is taken.
    pub fn check(&self, receipts: &[Receipt]) -> Result<(), usize>
        ensures { MatchResult result (λ _. AreRight self.now receipts.now) (λ i. IsFirstWrong self.now receipts.now i) }
    {
        for i in 0..receipts.len() {
            if !self.is_right(receipts, i) {
                return Err(i);
            }
        }
        Ok(())
    }

    // Whether a receipt is right: it stands in its shard's history, and no earlier one has its place.
    fn is_right(&self, receipts: &[Receipt], i: usize) -> bool
        requires { i < length receipts.now }
        ensures { IsTrue result ↔ IsRight self.now receipts.now i }
    {
        let receipt = &receipts[i];
        self.is_passed(receipt) || (self.has(receipt) && !is_repeated(receipts, i))
    }

    // Whether the receipt's entry was made before the last trim of its shard.
    fn is_passed(&self, receipt: &Receipt) -> bool
        ensures { IsTrue result ↔ IsPassed self.now receipt.now }
    {
        let place = usize::from(receipt.shard);
        let shards: &[Shard] = &self.shards;
        if place >= shards.len() {
            return false;
        }
        receipt.entry.number < shards[place].mark()
    }

    // Whether the receipt stands in its shard's history, with what goes out there.
    fn has(&self, receipt: &Receipt) -> bool
        requires { IsPassed self.now receipt.now → ⊥ }
        ensures { IsTrue result ↔ Stands self.now receipt.now }
    {
        let place = usize::from(receipt.shard);
        let shards: &[Shard] = &self.shards;
        if place >= shards.len() {
            return false;
        }
        stands_in(&self.roster, &shards[place], receipt)
    }
}

// Whether the receipt's entry, which was not made before the shard's last trim, stands in the shard's history at its number, with what
// goes out there.
fn stands_in(roster: &Roster, shard: &Shard, receipt: &Receipt) -> bool
    requires set_up { shard.now.roster ≡ roster.now }
    requires from_mark { shard.now.mark ≤ receipt.now.entry.number }
    ensures { IsTrue result ↔ StandsIn shard.now receipt.now }
{
    let entries = shard.entries();
    let made = shard.made();
    let number = receipt.entry.number;
    if number >= made {
        return false;
    }
    let place = entries.len() - (made - number) as usize;
    let entry = &entries[place];
    limits_hold();
    windows_open_once();
    is_entry(entry, &receipt.entry) && sends(roster, &entries[..place], receipt)
}

// Whether the receipt tells what goes out at its entry, after these entries.
fn sends(roster: &Roster, before: &[Entry], receipt: &Receipt) -> bool
    requires { CopiesFit before.now receipt.now.entry }
    ensures { IsTrue result ↔ Sends roster.now before.now receipt.now }
{
    is_uplink(&uplink_of(before, &receipt.entry), &receipt.uplink)
        && is_downlink(
            &downlink_of(roster, before, &receipt.entry),
            &receipt.downlink,
        )
}

// Whether an earlier receipt has the shard and the number of this one.
fn is_repeated(receipts: &[Receipt], i: usize) -> bool
    requires { i < length receipts.now }
    ensures { IsTrue result ↔ IsRepeated receipts.now i }
{
    let receipt = &receipts[i];
    for j in 0..i {
        let earlier = &receipts[j];
        if earlier.shard == receipt.shard && earlier.entry.number == receipt.entry.number {
            return true;
        }
    }
    false
}
