//! Which gateway and which frame a datagram names.

ghost use Rattle.std.specs.Prelude.{◌≡◌, ◌≤◌, length};
ghost use Rattle.ns_views.specs.Frame.{data_fields};
ghost use Rattle.ns_front.specs.Front.{name_of, name_of_frame, seen_of, front, Agree};

use ns_link::read_datagram;
use ns_types::array_at;
use ns_views::{DataView, PhyView, view};

// The length of a datagram with the shortest data frame, which has 12 bytes (LoRaWAN L2 1.0.4, 4).
const SHORTEST: usize = 40;

// Where the frame begins.
const FRAME: usize = 28;

/// What tells a frame from others: its address, the low half of its counter, and its MIC.
#[derive(Clone, Copy, PartialEq, Eq)]
pub struct FrameName {
    /// Its DevAddr.
    pub addr: u32,
    /// The low half of its FCnt.
    pub fcnt: u16,
    /// Its MIC, as a number.
    pub mic: u32,
}

impl FrameName {
    /// The name of the frame that a view shows.
    pub fn of(view: &DataView) -> FrameName
        ensures { result ≡ name_of (data_fields view.now) }
    {
        name_in(view.bytes())
    }
}

// What stands in a frame where its name would.
fn name_in(frame: &[u8]) -> FrameName
    requires { 12 ≤ length frame.now }
    ensures { result ≡ name_of (data_fields frame.now) }
{
    let mic = frame.len() - 4;
    FrameName {
        addr: u32::from_le_bytes(array_at(frame, 1)),
        fcnt: u16::from_le_bytes(array_at(frame, 6)),
        mic: u32::from_le_bytes(array_at(frame, mic)),
    }
}

/// Who heard a datagram, and which frame.
#[derive(Clone, Copy)]
pub struct Seen {
    /// The gateway.
    pub gateway: u64,
    /// The frame's name, where it is a data uplink.
    pub frame: Option<FrameName>,
}

/// What a datagram with the right layout names.
pub fn read_seen(datagram: &[u8]) -> Option<Seen>
    ensures { result ≡ seen_of datagram.now }
{
    let Ok(read) = read_datagram(datagram) else {
        return None;
    };
    Some(Seen {
        gateway: read.heard().gateway.0,
        frame: name_of_frame(read.frame()),
    })
}

// The name of a frame, where it is a data uplink.
fn name_of_frame(frame: &[u8]) -> Option<FrameName>
    ensures { result ≡ name_of_frame frame.now }
{
    match view(frame) {
        Ok(PhyView::Frame(frame)) => Some(FrameName::of(&frame)),
        _ => None,
    }
}

/// What stands in a datagram where its gateway and its frame's name would: of one with the right layout and a data frame it is what
/// `read_seen` gives. None of one that is too short for a data frame.
pub fn front_of(datagram: &[u8]) -> Option<(u64, FrameName)>
    ensures places { result ≡ front datagram.now }
    ensures agrees { Agree result (seen_of datagram.now) }
{
    if datagram.len() < SHORTEST {
        return None;
    }
    let gateway = u64::from_be_bytes(array_at(datagram, 2));
    Some((gateway, name_in(&datagram[FRAME..])))
}
