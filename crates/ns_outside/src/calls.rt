//! What makes the calls of workers.
ghost use Rattle.std.specs.Prelude.{◌≡◌, ℕ, List, OnOk, OnErr};
ghost use Rattle.ns_roster.specs.Network.{Network};
ghost use Rattle.ns_calls.specs.Shards.{shard_of_call};
ghost use Rattle.ns_outside.specs.Answered.{HasHistory, RisesAt};

use crate::gate::Gate;
use crate::receipt::Receipt;
use ns_calls::Call;
use std::alloc::AllocError;

/// Makes the calls of workers, as a server does: each worker has a pass of its own, which counts what was made with it.
pub trait Calls<R> {
    /// The right of one worker to make calls.
    type Pass: Drop;

    // The devices whose frames it answers.
    ghost roster: { Network };

    // How many entries of each shard were made with a pass.
    ghost made: { Self.Pass → List ℕ };

    /// Makes a call, with the visits of the gate, and puts its receipt in the place of another. `NoMemory` (`AllocError`) where a growth was
    /// refused: then nothing was made. Else the reply is the plain server's after some history of the call's shard, as long as the
    /// entry's number, and what goes out is what the receipt tells.
    fn call_into<G: Gate<R>>(
        &self,
        rt: &R,
        pass: &mut Self::Pass,
        call: &Call,
        gate: &G,
        receipt: &mut Receipt,
    ) -> Result<(), AllocError>
        ensures call { OnOk result ((receipt.new.shard ≡ shard_of_call call.now) × (receipt.new.entry.call ≡ call.now)) }
        ensures answered { OnOk result (HasHistory roster (shard_of_call call.now) receipt.new) }
        ensures counted { OnOk result (RisesAt (shard_of_call call.now) (made pass.old) (made pass.new)) }
        ensures err { OnErr result ((made pass.new ≡ made pass.old) × (receipt.new ≡ receipt.old)) };
}
