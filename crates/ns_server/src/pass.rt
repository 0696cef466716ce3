//! The right of one worker to call.

ghost use Rattle.std.specs.Prelude.{◌≡◌, ◌<◌, slice_index};
ghost use Rattle.ns_types.specs.Identity.{shard_count};
ghost use Rattle.ns_tally.specs.Tally.{none_made};

use crate::names::Naming;
use ns_tally::Shares;
use ns_types::SHARDS;
use std::marker::Model;

/// How many places a list of one thing for each shard has.
pub(crate) const PLACES: usize = SHARDS as usize;

/// The right of one worker to make calls on the server `B`. Contracts see how many entries of each shard were made with it.
#[derive(Drop)]
pub struct Pass<B: Naming> {
    pub(crate) counts: [u64; PLACES],
    pub(crate) shares: Shares<B>,
}

impl<B: Naming> Model for Pass<B> {
    ghost use Rattle.std.specs.Prelude.{◌≡◌, ℕ, List};

    ghost Value = { List ℕ };

    ghost view = { λ p. p.counts };

    ghost invariant = { λ p. (p.shares.parts ≡ 1) × (p.shares.amounts ≡ p.counts) };
}

impl<B: Naming> Pass<B> {
    /// A pass with which nothing was made yet, of one part of the shares.
    pub fn new(shares: Shares<B>) -> Pass<B>
        requires part { shares.parts ≡ 1 }
        requires none { shares.amounts ≡ none_made }
        ensures { result ≡ none_made }
    {
        Pass {
            counts: [0; PLACES],
            shares,
        }
    }

    /// How many entries of the shard were made with this pass.
    pub fn made(&self, shard: u8) -> u64
        requires { shard < shard_count }
        ensures { result ≡ slice_index self.now shard }
    {
        self.counts[usize::from(shard)]
    }

    // The shares that stand for the counts.
    pub(crate) fn into_shares(self) -> Shares<B>
        ensures parts { result.parts ≡ 1 }
        ensures amounts { result.amounts ≡ self }
    {
        let Pass { counts: _, shares } = self;
        shares
    }
}
