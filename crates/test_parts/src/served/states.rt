//! The state of a server that does not run.

use crate::loopback::local;
use crate::served::standing::Standing;
use ns_calls::{Bytes, Downlink};
use ns_exchange::HostName;
use ns_output::Output;
use ns_roster::Roster;
use ns_serve_parts::{Made, PLACES, ServeOptions};
use ns_serve_state::{State, Status, SystemFiles};
use ns_types::{GatewayId, Target, Ticket};
use std::alloc::{AllocError, Global};
use std::net::{Net, SocketAddr, TcpListener, TcpStream, UdpSocket};
use std::sync::Wait;
use std::time::Clock;

/// A Join-Request of the device 13.
pub const TICKET: Ticket = Ticket([
    0, 4, 3, 2, 1, 4, 3, 2, 1, 13, 0, 0, 0, 0, 0, 0, 0, 1, 0, 1, 0, 0, 0,
]);

// How many devices there are.
const DEVICES: u64 = 150;

/// Options with neither an address for gateways nor one for forwarders, a window of 2 s, and a stop after 1,000 datagrams.
pub fn options() -> Option<ServeOptions<'static>> {
    let host = HostName::new("js.local")?;
    Some(ServeOptions {
        join: local(17092),
        host,
        listen: None,
        forwarders: None,
        power: 14,
        status: None,
        status_host: None,
        workers: 1,
        join_workers: 1,
        window_ms: 2000,
        stop_after: Some(1_000_000),
        stop_at_end: false,
        trim: None,
        output: Output::Lines,
        events: false,
        closing: false,
    })
}

// Puts a device, whose slot is the number of its `dev_eui`.
fn put_device(alloc: Global, text: &mut String, eui: u64) -> Result<(), AllocError> {
    let comma = if eui == 1 { "" } else { "," };
    let device = format!(in alloc;
        "{comma}{{\"dev_eui\":\"{eui:016x}\",\"join_eui\":\"0102030401020304\",\"slot\":{eui}}}"
    )?;
    text.push_str(device.as_str())
}

// The text of a roster with the devices 1 to 150, and an RX1 delay of 1 s.
fn roster_text(alloc: Global) -> Result<String, AllocError> {
    let mut text = String::from_str(
        alloc,
        "{\"version\":1,\"net_id\":\"000024\",\"rx1_offset\":0,\"rx_delay\":1,\"devices\":[",
    )?;
    for eui in 1..=DEVICES {
        put_device(alloc, &mut text, eui)?;
    }
    text.push_str("]}")?;
    Ok(text)
}

// The roster.
fn roster(alloc: Global) -> Option<Roster> {
    match roster_text(alloc) {
        Ok(text) => Roster::read(alloc, text.as_str().as_bytes()).ok(),
        Err(_) => None,
    }
}

/// A state without a record, with this socket of its own and a status that is told at this port.
pub fn state_with<R>(
    rt: &Standing<'_, R>,
    alloc: Global,
    own: Option<(UdpSocket, SocketAddr)>,
    port: Option<u16>,
) -> Option<State>
where
    R: Wait + Clock + Net<Listener = TcpListener, Stream = TcpStream>,
{
    let options = options()?;
    let roster = roster(alloc)?;
    let Ok(status) = Status::open(rt, alloc, &roster, port.map(local), None) else {
        return None;
    };
    let made = Made::of(&[0; PLACES]);
    let system = SystemFiles::none();
    State::new(
        rt, alloc, own, None, &roster, &options, made, None, status, system,
    )
    .ok()
}

/// A downlink of the gateway 161 with this frame.
pub fn downlink(frame: Bytes<33>) -> Downlink {
    Downlink {
        target: Target {
            gateway: GatewayId(161),
            moment: 0,
            freq: 868_100_000,
            dr: 5,
        },
        frame,
    }
}
