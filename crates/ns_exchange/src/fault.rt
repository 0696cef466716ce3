//! Why an exchange gave no answer.

ghost use Rattle.std.specs.Prelude.{◌≡◌};
ghost use Rattle.ns_exchange.specs.declared.fault.AskFault.TheVariants.{Ended};

use crate::answer::AnsFault;
use ns_types::Failed;
use thiserror::Error;

/// The first fault of an exchange, printed as its number, or want of memory.
#[derive(Clone, Copy, Debug, PartialEq, Eq, Error)]
pub enum AskFault {
    /// H1: a write failed, or took no byte.
    #[error("H1")]
    Write,
    /// H2: a read failed, or the stream ended before the response was whole.
    #[error("H2")]
    Ended,
    /// H3: there is no response head, or one over 4,096 bytes or 32 headers, or a Content-Length that is not one
    /// decimal number.
    #[error("H3")]
    BadHead,
    /// H4: the status is not 200.
    #[error("H4")]
    Status,
    /// H5: the response has a Transfer-Encoding.
    #[error("H5")]
    Encoded,
    /// H6: the body is over 8,192 bytes.
    #[error("H6")]
    TooLong,
    /// H7: the body is no answer to the transaction.
    #[error("H7 {0}")]
    Answer(AnsFault),
    /// Memory ran out before the answer was known.
    #[error("no memory")]
    NoMemory,
}

/// A read failed.
impl From<Failed> for AskFault {
    ghost from_gives = { λ _ e. e ≡ Ended };

    fn from(_failed: Failed) -> AskFault {
        AskFault::Ended
    }
}
