//! Sixteen ledgers under one name: how many entries each worker has made in each shard, and how many were made in all.
//!
//! A ledger is std's `sync::ledger`: a book, which holds the total, and shares of it, which hold what each worker has added. Its name
//! is part of its type, so sixteen ledgers are sixteen types. Above this crate only `Server::locked` names the sixteen books, to put each under
//! its lock: `ShardBook` is the book of a shard that is a value, and `Shares` is a worker's share of each ledger. The sixteen are four
//! quarters of four: what is done to each of the four is written, and proved, for one quarter. The crate stands on std alone.
#![tactic(auto)]

ghost use Rattle.std.specs.Prelude.{◌≡◌, ◌+◌, ◌≤◌, ◌<◌, ℕ, slice_index, slice_set};
ghost use Rattle.ns_tally.specs.Tally.{shard_of_book, total_of_book, none_made, added, AreNamed};

mod quarter;

use crate::quarter::{QuarterBlanks, QuarterBook, QuarterBooks, QuarterShares};
use std::marker::{Brand, Model};

/// Names the ledgers of one server: shard by shard, each cut into as many parts as there are workers.
pub trait Ledgers {
    ghost ledger: { ℕ → ℕ };

    ghost workers: { ℕ };
}

impl Ledgers for Brand {
    ghost ledger = { λ k. 0 };

    ghost workers = { 0 };
}

/// The book of one shard's ledger, by the quarter of the shard.
#[derive(Drop)]
pub enum ShardBook<B: Ledgers> {
    Q0(QuarterBook<B, 0>),
    Q1(QuarterBook<B, 1>),
    Q2(QuarterBook<B, 2>),
    Q3(QuarterBook<B, 3>),
}

/// A share of each shard's ledger. Contracts see its parts and its amounts.
#[derive(Drop)]
pub struct Shares<B: Ledgers> {
    q0: QuarterShares<B, 0>,
    q1: QuarterShares<B, 1>,
    q2: QuarterShares<B, 2>,
    q3: QuarterShares<B, 3>,
}

impl<B: Ledgers> Model for Shares<B> {
    ghost use Rattle.std.specs.Prelude.{◌≡◌, ℕ, ◌++◌};
    ghost use Rattle.ns_tally.specs.Tally.{Held, quarter_amounts};

    ghost Value = { Held };

    ghost view = { λ s. record {
      parts = s.q0.parts;
      amounts = quarter_amounts s.q0 ++ quarter_amounts s.q1 ++ quarter_amounts s.q2 ++ quarter_amounts s.q3;
    } };

    ghost invariant = { λ s. (s.q1.parts ≡ s.q0.parts) × (s.q2.parts ≡ s.q0.parts) × (s.q3.parts ≡ s.q0.parts) };
}

impl<B: Ledgers> ShardBook<B> {
    // Counts more, in the shard's book and in the share of that shard. With every part, the share's amount is the book's total.
    fn count(&mut self, shares: &mut Shares<B>, more: u64)
        requires { shares.old.parts ≡ 0 → more ≡ 0 }
        ensures shard { shard_of_book self.new ≡ shard_of_book self.old }
        ensures total { total_of_book self.new ≡ total_of_book self.old + more }
        ensures amounts { shares.new.amounts ≡ slice_set shares.old.amounts (shard_of_book self.old) (slice_index shares.old.amounts (shard_of_book self.old) + more) }
        ensures parts { shares.new.parts ≡ shares.old.parts }
        ensures bound { slice_index shares.old.amounts (shard_of_book self.old) ≤ total_of_book self.old }
        ensures whole { shares.old.parts ≡ B.workers → slice_index shares.old.amounts (shard_of_book self.old) ≡ total_of_book self.old }
    {
        match self {
            ShardBook::Q0(book) => book.count(&mut shares.q0, more),
            ShardBook::Q1(book) => book.count(&mut shares.q1, more),
            ShardBook::Q2(book) => book.count(&mut shares.q2, more),
            ShardBook::Q3(book) => book.count(&mut shares.q3, more),
        }
    }

    /// Counts one more, in the shard's book and in the share of that shard.
    pub fn add_one(&mut self, shares: &mut Shares<B>)
        requires { 0 < shares.old.parts }
        ensures shard { shard_of_book self.new ≡ shard_of_book self.old }
        ensures total { total_of_book self.new ≡ total_of_book self.old + 1 }
        ensures amounts { shares.new.amounts ≡ slice_set shares.old.amounts (shard_of_book self.old) (slice_index shares.old.amounts (shard_of_book self.old) + 1) }
        ensures parts { shares.new.parts ≡ shares.old.parts }
        ensures bound { slice_index shares.old.amounts (shard_of_book self.old) ≤ total_of_book self.old }
    {
        self.count(shares, 1);
    }

    /// With every part, the share's amount is the book's total.
    pub fn audit(&mut self, all: &mut Shares<B>)
        requires { all.old.parts ≡ B.workers }
        ensures shard { shard_of_book self.new ≡ shard_of_book self.old }
        ensures total { total_of_book self.new ≡ total_of_book self.old }
        ensures same { all.new ≡ all.old }
        ensures whole { slice_index all.old.amounts (shard_of_book self.old) ≡ total_of_book self.old }
    {
        self.count(all, 0);
    }
}

/// Books that were just opened, shard by shard. They are not dropped: each is put where its shard is.
pub struct Books<B: Ledgers> {
    pub k0: ShardBook<B>,
    pub k1: ShardBook<B>,
    pub k2: ShardBook<B>,
    pub k3: ShardBook<B>,
    pub k4: ShardBook<B>,
    pub k5: ShardBook<B>,
    pub k6: ShardBook<B>,
    pub k7: ShardBook<B>,
    pub k8: ShardBook<B>,
    pub k9: ShardBook<B>,
    pub k10: ShardBook<B>,
    pub k11: ShardBook<B>,
    pub k12: ShardBook<B>,
    pub k13: ShardBook<B>,
    pub k14: ShardBook<B>,
    pub k15: ShardBook<B>,
    pub ghost shards: { (shard_of_book k0 ≡ 0) × (shard_of_book k1 ≡ 1) × (shard_of_book k2 ≡ 2)
        × (shard_of_book k3 ≡ 3) × (shard_of_book k4 ≡ 4) × (shard_of_book k5 ≡ 5) × (shard_of_book k6 ≡ 6)
        × (shard_of_book k7 ≡ 7) × (shard_of_book k8 ≡ 8) × (shard_of_book k9 ≡ 9) × (shard_of_book k10 ≡ 10)
        × (shard_of_book k11 ≡ 11) × (shard_of_book k12 ≡ 12) × (shard_of_book k13 ≡ 13)
        × (shard_of_book k14 ≡ 14) × (shard_of_book k15 ≡ 15) },
    pub ghost none: { (total_of_book k0 ≡ 0) × (total_of_book k1 ≡ 0) × (total_of_book k2 ≡ 0)
        × (total_of_book k3 ≡ 0) × (total_of_book k4 ≡ 0) × (total_of_book k5 ≡ 0) × (total_of_book k6 ≡ 0)
        × (total_of_book k7 ≡ 0) × (total_of_book k8 ≡ 0) × (total_of_book k9 ≡ 0) × (total_of_book k10 ≡ 0)
        × (total_of_book k11 ≡ 0) × (total_of_book k12 ≡ 0) × (total_of_book k13 ≡ 0) × (total_of_book k14 ≡ 0)
        × (total_of_book k15 ≡ 0) },
}

/// A new ledger for each shard, which no type stands for yet. Contracts see their names and their parts.
#[derive(Drop)]
pub struct Blanks {
    q0: QuarterBlanks,
    q1: QuarterBlanks,
    q2: QuarterBlanks,
    q3: QuarterBlanks,
}

impl Model for Blanks {
    ghost use Rattle.std.specs.Prelude.{◌≡◌, ℕ, ◌++◌};
    ghost use Rattle.ns_tally.specs.Tally.{Unnamed, quarter_names};

    ghost Value = { Unnamed };

    ghost view = { λ s. record {
      names = quarter_names s.q0 ++ quarter_names s.q1 ++ quarter_names s.q2 ++ quarter_names s.q3;
      parts = s.q0.parts;
    } };

    ghost invariant = { λ s. (s.q1.parts ≡ s.q0.parts) × (s.q2.parts ≡ s.q0.parts) × (s.q3.parts ≡ s.q0.parts) };
}

impl Blanks {
    /// A ledger for each shard, each cut into these parts.
    pub fn new(parts: u64) -> Blanks
        ensures { result.parts ≡ parts }
    {
        Blanks {
            q0: QuarterBlanks::new(parts),
            q1: QuarterBlanks::new(parts),
            q2: QuarterBlanks::new(parts),
            q3: QuarterBlanks::new(parts),
        }
    }

    /// The books under a name, and one share with every part.
    pub fn open<B: Ledgers>(self) -> (Books<B>, Shares<B>)
        requires names { AreNamed B.ledger self.names }
        requires parts { self.parts ≡ B.workers }
        ensures parts { result.1.parts ≡ B.workers }
        ensures amounts { result.1.amounts ≡ none_made }
    {
        let Blanks { q0, q1, q2, q3 } = self;
        let (
            QuarterBooks {
                p0: k0,
                p1: k1,
                p2: k2,
                p3: k3,
            },
            q0,
        ) = q0.open::<B, 0>();
        let (
            QuarterBooks {
                p0: k4,
                p1: k5,
                p2: k6,
                p3: k7,
            },
            q1,
        ) = q1.open::<B, 1>();
        let (
            QuarterBooks {
                p0: k8,
                p1: k9,
                p2: k10,
                p3: k11,
            },
            q2,
        ) = q2.open::<B, 2>();
        let (
            QuarterBooks {
                p0: k12,
                p1: k13,
                p2: k14,
                p3: k15,
            },
            q3,
        ) = q3.open::<B, 3>();
        (
            Books {
                k0: ShardBook::Q0(k0),
                k1: ShardBook::Q0(k1),
                k2: ShardBook::Q0(k2),
                k3: ShardBook::Q0(k3),
                k4: ShardBook::Q1(k4),
                k5: ShardBook::Q1(k5),
                k6: ShardBook::Q1(k6),
                k7: ShardBook::Q1(k7),
                k8: ShardBook::Q2(k8),
                k9: ShardBook::Q2(k9),
                k10: ShardBook::Q2(k10),
                k11: ShardBook::Q2(k11),
                k12: ShardBook::Q3(k12),
                k13: ShardBook::Q3(k13),
                k14: ShardBook::Q3(k14),
                k15: ShardBook::Q3(k15),
            },
            Shares { q0, q1, q2, q3 },
        )
    }
}

impl<B: Ledgers> Shares<B> {
    /// Cuts one part off, where nothing was counted yet.
    pub fn split_one(&mut self) -> Shares<B>
        requires parts { 0 < self.old.parts }
        requires amounts { self.old.amounts ≡ none_made }
        ensures parts { result.parts ≡ 1 }
        ensures amounts { result.amounts ≡ none_made }
        ensures parts_left { self.new.parts + 1 ≡ self.old.parts }
        ensures amounts_left { self.new.amounts ≡ none_made }
    {
        Shares {
            q0: self.q0.split_one(),
            q1: self.q1.split_one(),
            q2: self.q2.split_one(),
            q3: self.q3.split_one(),
        }
    }

    /// Takes another share in.
    pub fn merge(&mut self, other: Shares<B>)
        ensures parts { self.new.parts ≡ self.old.parts + other.parts }
        ensures amounts { self.new.amounts ≡ added self.old.amounts other.amounts }
        ensures apart { self.new.parts ≤ B.workers }
    {
        let Shares { q0, q1, q2, q3 } = other;
        self.q0.merge(q0);
        self.q1.merge(q1);
        self.q2.merge(q2);
        self.q3.merge(q3);
    }
}
