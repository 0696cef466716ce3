//! Why a worker ended, and why a datagram or a ticket got nothing.

use ns_exchange::AskFault;
use ns_link::LinkFault;
use ns_views::ViewFault;
use thiserror::Error;

/// Why a worker ended before its source did, printed as its number.
#[derive(Clone, Copy, Debug, PartialEq, Eq, Error)]
pub enum WorkerFault {
    /// K1: a growth was refused.
    #[error("K1")]
    NoMemory,
    /// K2: the source of datagrams or jobs failed.
    #[error("K2")]
    SourceFailed,
    /// K3: the sink failed.
    #[error("K3")]
    SinkFailed,
}

/// Why a datagram makes no call.
#[derive(Clone, Copy, Debug, PartialEq, Eq)]
pub enum Refused {
    /// Its layout is refused.
    Link(LinkFault),
    /// Its frame is refused.
    View(ViewFault),
}

/// Why there is no answer of the join server that can be used.
#[derive(Clone, Copy, Debug, PartialEq, Eq, Error)]
pub enum JoinFault {
    /// The roster has no such device.
    #[error("no device")]
    NoDevice,
    /// A growth was refused while the request was made.
    #[error("no memory")]
    NoMemory,
    /// No connection could be opened.
    #[error("no connection")]
    NoConnection,
    /// The exchange failed, or its answer was refused.
    #[error("{0}")]
    Exchange(AskFault),
}
