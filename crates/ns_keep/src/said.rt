//! What of an entry a trim looks at.

ghost use Rattle.std.specs.Prelude.{◌≡◌};
ghost use Rattle.ns_keep.specs.Private.Said.{said_in};

use ns_calls::{Call, Entry, Outcome, Reply};
use ns_types::{DevEui, Ticket, WindowName};

/// What an entry says.
#[derive(Clone, Copy)]
pub(crate) enum Said {
    /// A join was accepted: a session began.
    Accepted { eui: DevEui, session: u32 },
    /// A window was opened.
    Opened { window: WindowName },
    /// A window was opened again, for an uplink that is acknowledged again.
    Repeated { window: WindowName },
    /// A window was given one more copy.
    Copied { window: WindowName },
    /// A window was closed with an acknowledgement.
    Acknowledged { window: WindowName },
    /// A join server was asked.
    Asked { ticket: Ticket },
    /// A ticket was given one more copy.
    JoinCopied { ticket: Ticket },
    /// Nothing that a trim looks at.
    Nothing,
}

/// What an entry says.
pub(crate) fn said_by(entry: &Entry) -> Said
    ensures { result ≡ said_in entry.now.call entry.now.reply }
{
    match &entry.call {
        Call::Uplink { .. } => match entry.reply {
            Reply::Opened { window } => Said::Opened { window },
            Reply::Again { window } => Said::Repeated { window },
            Reply::Copied { window, .. } => Said::Copied { window },
            _ => Said::Nothing,
        },
        Call::Join { ticket, .. } => match entry.reply {
            Reply::Ask { .. } => Said::Asked { ticket: *ticket },
            Reply::JoinCopied { .. } => Said::JoinCopied { ticket: *ticket },
            _ => Said::Nothing,
        },
        Call::JoinReply {
            ticket,
            outcome: Outcome::Success(_),
        } => match entry.reply {
            Reply::Accepted { session, .. } => Said::Accepted {
                eui: ticket.dev_eui(),
                session,
            },
            _ => Said::Nothing,
        },
        Call::JoinReply { .. } => Said::Nothing,
        Call::Close { window } => match entry.reply {
            Reply::Closed { ack: Some(_), .. } => Said::Acknowledged { window: *window },
            _ => Said::Nothing,
        },
    }
}
