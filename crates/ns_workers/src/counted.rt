//! Calls, and what goes down with them.
ghost use Rattle.std.specs.Prelude.{◌≡◌, option_to_list, OnOk, OnErr};
ghost use Rattle.ns_outside.specs.Answered.{RisesAt};
ghost use Rattle.ns_workers.specs.Closing.{HasAnswer};
ghost use Rattle.ns_outside.specs.Grown.{Grows};
ghost use Rattle.ns_outside.specs.Notice.{call_replied};

use crate::shared::Shared;
use ns_calls::Call;
use ns_outside::{Calls, Downlinks, Gate, Monitor, Receipt};
use std::alloc::AllocError;

// Makes a call and tells its receipt, which it puts in the place of another.
pub(crate) fn make_call<S: Calls<R>, R, G: Gate<R>, M: Monitor<R>>(
    shared: &Shared<'_, S, R, G, M>,
    pass: &mut S::Pass,
    call: &Call,
    receipt: &mut Receipt,
) -> Result<(), AllocError>
    ensures call { OnOk result (receipt.new.entry.call ≡ call.now) }
    ensures answered { OnOk result (HasAnswer S.roster receipt.new) }
    ensures counted { OnOk result (RisesAt receipt.new.shard (S.made pass.old) (S.made pass.new)) }
    ensures told { OnOk result (M.has_heard shared.now.monitor.now (call_replied receipt.new)) }
    ensures err { OnErr result (S.made pass.new ≡ S.made pass.old) }
{
    shared
        .server
        .call_into(shared.rt, pass, call, shared.gate, receipt)?;
    shared.monitor.replied(shared.rt, receipt);
    Ok(())
}

// Sends what goes down with a receipt. What cannot be sent is lost.
pub(crate) fn send_down<S: Calls<R>, R, G, D: Downlinks<R>, M: Monitor<R>>(
    shared: &Shared<'_, S, R, G, M>,
    down: &mut D,
    receipt: &Receipt,
)
    ensures { Grows (D.taken down.old) (D.taken down.new) (option_to_list receipt.now.downlink) }
{
    if let Some(downlink) = &receipt.downlink {
        if !down.send(shared.rt, downlink) {
            shared.monitor.unsent(shared.rt, downlink);
        }
    }
}
