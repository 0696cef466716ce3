//! Which calls a record has.

ghost use Rattle.std.specs.Prelude.{◌≡◌};
ghost use Rattle.ns_recorded.specs.Recorded.{matters};

use ns_calls::Reply;

/// Whether later answers rest on a call with this reply. All others change no later answer.
pub fn matters(reply: &Reply) -> bool
    ensures { result ≡ matters reply.now }
{
    matches!(
        reply,
        Reply::Opened { .. }
            | Reply::Again { .. }
            | Reply::Copied { .. }
            | Reply::Ask { .. }
            | Reply::JoinCopied { .. }
            | Reply::Accepted { .. }
            | Reply::JoinRefused
            | Reply::JoinStale { .. }
            | Reply::Closed { .. }
    )
}
