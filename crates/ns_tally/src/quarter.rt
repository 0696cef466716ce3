//! The ledgers of four shards, a quarter of the sixteen. Quarter `Q` has the shards `4 * Q` to `4 * Q + 3`.

ghost use Rattle.std.specs.Prelude.{◌≡◌, ◌+◌, ◌*◌, ◌≤◌, slice_index, slice_set, ◌<◌};
ghost use Rattle.ns_tally.specs.Tally.{place_of_book, total_in_quarter, quarter_amounts, with_both, new_share};

use crate::Ledgers;
use std::marker::{Model, PhantomData};
use std::sync::ledger::{Blank, Book, Ledger, Share};

/// The ledger of shard `4 * Q + P`. No value of it is made.
pub struct At<B: Ledgers, const Q: usize, const P: usize> {
    of: PhantomData<B>,
}

impl<B: Ledgers, const Q: usize, const P: usize> Ledger for At<B, Q, P> {
    ghost name = { B.ledger (4 * Q + P) };

    ghost parts = { B.workers };
}

/// The book of the ledger of one of the four shards.
#[derive(Drop)]
pub enum QuarterBook<B: Ledgers, const Q: usize> {
    First(Book<At<B, Q, 0>>),
    Second(Book<At<B, Q, 1>>),
    Third(Book<At<B, Q, 2>>),
    Fourth(Book<At<B, Q, 3>>),
}

// Counts more in a book and in a share of it, and tells how the share's amount stood to the total.
fn count_in<L: Ledger>(book: &mut Book<L>, share: &mut Share<L>, more: u64)
    requires { share.old.parts ≡ 0 → more ≡ 0 }
    ensures total { book.new.total ≡ book.old.total + more }
    ensures amount { share.new.amount ≡ share.old.amount + more }
    ensures parts { share.new.parts ≡ share.old.parts }
    ensures bound { share.old.amount ≤ book.old.total }
    ensures whole { share.old.parts ≡ L.parts → share.old.amount ≡ book.old.total }
{
    book.audit(share);
    if more > 0 {
        book.add(share, more);
    }
}

impl<B: Ledgers, const Q: usize> QuarterBook<B, Q> {
    /// Counts more, in the shard's book and in the share of that shard. With every part, the share's amount is the book's total.
    pub fn count(&mut self, shares: &mut QuarterShares<B, Q>, more: u64)
        requires { shares.old.parts ≡ 0 → more ≡ 0 }
        ensures place { place_of_book self.new ≡ place_of_book self.old }
        ensures total { total_in_quarter self.new ≡ total_in_quarter self.old + more }
        ensures amounts { quarter_amounts shares.new ≡ slice_set (quarter_amounts shares.old) (place_of_book self.old) (slice_index (quarter_amounts shares.old) (place_of_book self.old) + more) }
        ensures parts { shares.new.parts ≡ shares.old.parts }
        ensures bound { slice_index (quarter_amounts shares.old) (place_of_book self.old) ≤ total_in_quarter self.old }
        ensures whole { shares.old.parts ≡ B.workers → slice_index (quarter_amounts shares.old) (place_of_book self.old) ≡ total_in_quarter self.old }
    {
        match self {
            QuarterBook::First(book) => count_in(book, &mut shares.s0, more),
            QuarterBook::Second(book) => count_in(book, &mut shares.s1, more),
            QuarterBook::Third(book) => count_in(book, &mut shares.s2, more),
            QuarterBook::Fourth(book) => count_in(book, &mut shares.s3, more),
        }
    }
}

/// A share of the ledger of each of the four shards. Contracts see its parts and its amounts.
#[derive(Drop)]
pub struct QuarterShares<B: Ledgers, const Q: usize> {
    s0: Share<At<B, Q, 0>>,
    s1: Share<At<B, Q, 1>>,
    s2: Share<At<B, Q, 2>>,
    s3: Share<At<B, Q, 3>>,
}

impl<B: Ledgers, const Q: usize> Model for QuarterShares<B, Q> {
    ghost use Rattle.std.specs.Prelude.{◌≡◌, ℕ};
    ghost use Rattle.ns_tally.specs.Tally.{QuarterHeld};

    ghost Value = { QuarterHeld };

    ghost view = { λ s. record { parts = s.s0.parts; a0 = s.s0.amount; a1 = s.s1.amount; a2 = s.s2.amount; a3 = s.s3.amount } };

    ghost invariant = { λ s. (s.s1.parts ≡ s.s0.parts) × (s.s2.parts ≡ s.s0.parts) × (s.s3.parts ≡ s.s0.parts) };
}

// One part of an empty share.
fn cut_one<L: Ledger>(share: &mut Share<L>) -> Share<L>
    requires parts { 0 < share.old.parts }
    requires amount { share.old.amount ≡ 0 }
    ensures parts { result.parts ≡ 1 }
    ensures amount { result.amount ≡ 0 }
    ensures parts_left { share.new.parts + 1 ≡ share.old.parts }
    ensures amount_left { share.new.amount ≡ 0 }
{
    share.split_off(1, 0)
}

impl<B: Ledgers, const Q: usize> QuarterShares<B, Q> {
    /// Cuts one part off, where nothing was counted yet.
    pub fn split_one(&mut self) -> QuarterShares<B, Q>
        requires parts { 0 < self.old.parts }
        requires amounts { self.old ≡ new_share self.old.parts }
        ensures result { result ≡ new_share 1 }
        ensures left { self.new ≡ new_share self.new.parts }
        ensures parts_left { self.new.parts + 1 ≡ self.old.parts }
    {
        QuarterShares {
            s0: cut_one(&mut self.s0),
            s1: cut_one(&mut self.s1),
            s2: cut_one(&mut self.s2),
            s3: cut_one(&mut self.s3),
        }
    }

    /// Takes another share in.
    pub fn merge(&mut self, other: QuarterShares<B, Q>)
        ensures both { self.new ≡ with_both self.old other }
        ensures apart { self.new.parts ≤ B.workers }
    {
        let QuarterShares { s0, s1, s2, s3 } = other;
        self.s0.merge(s0);
        self.s1.merge(s1);
        self.s2.merge(s2);
        self.s3.merge(s3);
    }
}

/// Books of a quarter that were just opened, shard by shard.
pub struct QuarterBooks<B: Ledgers, const Q: usize> {
    pub p0: QuarterBook<B, Q>,
    pub p1: QuarterBook<B, Q>,
    pub p2: QuarterBook<B, Q>,
    pub p3: QuarterBook<B, Q>,
    pub ghost places: { (place_of_book p0 ≡ 0) × (place_of_book p1 ≡ 1) × (place_of_book p2 ≡ 2) × (place_of_book p3 ≡ 3) },
    pub ghost none: { (total_in_quarter p0 ≡ 0) × (total_in_quarter p1 ≡ 0) × (total_in_quarter p2 ≡ 0)
        × (total_in_quarter p3 ≡ 0) },
}

/// A new ledger for each of four shards, which no type stands for yet. Contracts see their names and their parts.
#[derive(Drop)]
pub struct QuarterBlanks {
    b0: Blank,
    b1: Blank,
    b2: Blank,
    b3: Blank,
}

impl Model for QuarterBlanks {
    ghost use Rattle.std.specs.Prelude.{◌≡◌, ℕ};
    ghost use Rattle.ns_tally.specs.Tally.{QuarterUnnamed};

    ghost Value = { QuarterUnnamed };

    ghost view = { λ s. record { n0 = s.b0.name; n1 = s.b1.name; n2 = s.b2.name; n3 = s.b3.name; parts = s.b0.parts } };

    ghost invariant = { λ s. (s.b1.parts ≡ s.b0.parts) × (s.b2.parts ≡ s.b0.parts) × (s.b3.parts ≡ s.b0.parts) };
}

impl QuarterBlanks {
    /// A ledger for each of four shards, each cut into these parts.
    pub fn new(parts: u64) -> QuarterBlanks
        ensures { result.parts ≡ parts }
    {
        QuarterBlanks {
            b0: Blank::new(parts),
            b1: Blank::new(parts),
            b2: Blank::new(parts),
            b3: Blank::new(parts),
        }
    }

    /// The books of a quarter under a name, and one share with every part.
    pub fn open<B: Ledgers, const Q: usize>(self) -> (QuarterBooks<B, Q>, QuarterShares<B, Q>)
        requires names { (self.n0 ≡ B.ledger (4 * Q)) × (self.n1 ≡ B.ledger (4 * Q + 1)) × (self.n2 ≡ B.ledger (4 * Q + 2))
            × (self.n3 ≡ B.ledger (4 * Q + 3)) }
        requires parts { self.parts ≡ B.workers }
        ensures { result.1 ≡ new_share B.workers }
    {
        let QuarterBlanks { b0, b1, b2, b3 } = self;
        let (p0, s0) = b0.open::<At<B, Q, 0>>();
        let (p1, s1) = b1.open::<At<B, Q, 1>>();
        let (p2, s2) = b2.open::<At<B, Q, 2>>();
        let (p3, s3) = b3.open::<At<B, Q, 3>>();
        (
            QuarterBooks {
                p0: QuarterBook::First(p0),
                p1: QuarterBook::Second(p1),
                p2: QuarterBook::Third(p2),
                p3: QuarterBook::Fourth(p3),
            },
            QuarterShares { s0, s1, s2, s3 },
        )
    }
}
