//! What goes out where a window is closed.

ghost use Rattle.std.specs.Prelude.{◌≡◌, option_and_then};
ghost use Rattle.ns_shard.specs.Private.Sending.{ack_from};

use arrayvec::ArrayVec;
use ns_calls::{Bytes, Downlink, LentUplink, Uplink};
use ns_roster::Roster;
use ns_sent::acknowledgement;
use ns_types::{DevAddr, DevEui, WindowName};
use ns_uplinks::BoxedUplink;
use ns_windows::Window;

// Puts a lent uplink where another was, in whose place no more is moved than it has.
fn put_lent(lent: &LentUplink<'_>, uplink: &mut Uplink)
    ensures { uplink.new ≡ lent.now }
{
    uplink.window = lent.window;
    uplink.addr = lent.addr;
    uplink.confirmed = lent.confirmed;
    uplink.fctrl = lent.fctrl;
    uplink.port = lent.port;
    uplink.fopts.put(lent.fopts);
    uplink.sealed = lent.sealed;
    uplink.payload.put(lent.payload);
    uplink.copies.clear();
    let Ok(()) = uplink.copies.try_extend_from_slice(lent.copies) else {
        unreachable!()
    };
}

// Room for an uplink.
fn no_uplink() -> Uplink {
    let window = WindowName {
        eui: DevEui(0),
        session: 0,
        fcnt: 0,
        round: 0,
    };
    Uplink {
        window,
        addr: DevAddr(0),
        confirmed: false,
        fctrl: 0,
        port: None,
        fopts: Bytes::of(&[]),
        sealed: false,
        payload: Bytes::of(&[]),
        copies: ArrayVec::new(),
    }
}

/// Puts the uplink that goes out, if any, where one may be. The room for one is large: where none is, nothing is moved, and where one is,
/// it is put in its place part by part.
pub fn put_uplink(sent: &Option<BoxedUplink>, uplink: &mut Option<Uplink>)
    ensures { uplink.new ≡ sent.now }
{
    let Some(sent) = sent else {
        if uplink.is_some() {
            *uplink = None;
        }
        return;
    };
    if uplink.is_none() {
        *uplink = Some(no_uplink());
    }
    if let Some(room) = uplink {
        put_lent(&sent.lend(), room);
    }
}

/// The acknowledgement of a window with this number, if any, at RX1 of its best copy.
pub fn ack_from(roster: &Roster, window: &Window, number: Option<u32>) -> Option<Downlink>
    ensures { result ≡ option_and_then (ack_from roster.now window.now) number }
{
    acknowledgement(
        roster,
        &window.frame,
        &window.nwk,
        number?,
        window.copies.as_slice(),
    )
}
