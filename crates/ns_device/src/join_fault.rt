//! Why a join server for tests gives no reply.

ghost use Rattle.std.specs.Prelude.{◌≡◌};
ghost use Rattle.ns_device.specs.declared.join_fault.ReplyFault.TheVariants.{NoMemory};

use std::alloc::AllocError;
use thiserror::Error;

/// Why a join server gives no reply, printed as its number, or want of memory.
#[derive(Clone, Copy, Debug, PartialEq, Eq, Error)]
pub enum ReplyFault {
    /// B1: the text is no JoinReq.
    #[error("B1")]
    NoJoinReq,
    /// Memory ran out before the reply was written.
    #[error("no memory")]
    NoMemory,
}

impl From<AllocError> for ReplyFault {
    ghost from_gives = { λ _ e. e ≡ NoMemory };

    fn from(_error: AllocError) -> ReplyFault {
        ReplyFault::NoMemory
    }
}
