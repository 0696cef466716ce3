//! Downlinks at RX1 of a copy: acknowledgements and Join-Accepts.

ghost use Rattle.std.specs.Prelude.{◌≡◌, option_map};
ghost use Rattle.ns_types.specs.Heard.{best};
ghost use Rattle.ns_roster.specs.Network.{ack_delay};
ghost use Rattle.ns_calls.specs.Out.{ack_frame, ack_at, accept_at};

use ns_calls::{Bytes, DataFrame, Downlink, JoinAns};
use ns_creator::{DataCreator, Keys, acknowledgement_law};
use ns_roster::Roster;
use ns_types::{DevAddr, Heard, Key, best, rx1};

// JOIN_ACCEPT_DELAY1, in microseconds.
const JOIN_ACCEPT_DELAY: u64 = 5_000_000;

/// The best copy, where there is one.
pub(crate) fn best_copy(copies: &[Heard]) -> Option<Heard>
    ensures { result ≡ best copies.now }
{
    if copies.is_empty() {
        None
    } else {
        Some(copies[best(copies)])
    }
}

// RECEIVE_DELAY1 in microseconds.
fn ack_delay(roster: &Roster) -> u64
    ensures { result ≡ ack_delay roster.now }
{
    u64::from(roster.rx_delay()).max(1) * 1_000_000
}

// The acknowledgement frame with this number.
fn ack_frame(nwk: &Key, addr: DevAddr, n: u32) -> Bytes<33>
    ensures { result ≡ ack_frame nwk.now.0 addr.0 n }
{
    let mut room = [0; 12];
    let keys = Keys {
        nwk: *nwk,
        app: *nwk,
        root: *nwk,
    };
    acknowledgement_law();
    match DataCreator::acknowledgement(addr, n).build_into(&keys, &mut room) {
        Ok(frame) => Bytes::of(frame),
        Err(_) => unreachable!(),
    }
}

/// The acknowledgement of a frame with this number, under the NwkSKey of its session, at RX1 of the best of its copies; none where
/// it has no copy.
pub fn acknowledgement(
    roster: &Roster,
    frame: &DataFrame,
    nwk: &Key,
    n: u32,
    copies: &[Heard],
) -> Option<Downlink>
    ensures { result ≡ option_map (ack_at roster.now frame.now nwk.now n) (best copies.now) }
{
    let copy = best_copy(copies)?;
    Some(Downlink {
        target: rx1(&copy, roster.rx1_offset(), ack_delay(roster)),
        frame: ack_frame(nwk, frame.view().dev_addr(), n),
    })
}

/// The Join-Accept of a join server's answer, at RX1 of a copy of the Join-Request.
pub fn accept_at(join: &JoinAns, copy: &Heard) -> Downlink
    ensures { result ≡ accept_at join.now copy.now }
{
    Downlink {
        target: rx1(copy, 0, JOIN_ACCEPT_DELAY),
        frame: Bytes::of(join.accept.as_slice()),
    }
}
