//! What is known of devices and gateways, where it is told.

use crate::clock::BEGIN_MS;
use ns_calls::{Call, Reply};
use ns_log::{Log, error, info};
use ns_outside::Receipt;
use ns_roster::Roster;
use ns_serve_parts::{ServeFault, keys};
use ns_status::{Device, Devices, Gateway, Gateways, Sign, gateway_of, news_of};
use ns_types::{DevEui, GatewayId};
use std::alloc::{AllocError, Global};
use std::io;
use std::net::{Net, SocketAddr, TcpListener, TcpStream};
use std::sync::{Mutex, Wait};
use std::time::Clock;

/// How many places of devices are looked at under the lock at once.
pub const BATCH: usize = 64;

// The bounds of the histogram of ages, in milliseconds and as text in seconds: 1 h, 6 h, 25 h and 7 days. A device that sends once a day is
// heard within 25 hours.
const AGES: [(u64, &str); 4] = [
    (3_600_000, "3600"),
    (21_600_000, "21600"),
    (90_000_000, "90000"),
    (604_800_000, "604800"),
];

/// How long ago devices were last heard, of those that were heard since the server began.
#[derive(Clone, Copy)]
pub struct Ages {
    /// How many were heard within each bound, in seconds as text. The last bound is `+Inf`.
    pub within: [(&'static str, u64); 5],
    /// The ages summed, in milliseconds.
    pub sum_ms: u64,
}

// The devices, and a number that differs after each change of them, in this run of the server and in any other.
#[derive(Drop)]
struct Listed {
    devices: Devices,
    version: u64,
}

/// What is known of devices and gateways, and where it is told.
#[derive(Drop)]
pub struct Status {
    listener: TcpListener,
    // The name under which it may be asked for, empty where none is given.
    host: String,
    // When the server began, in milliseconds since 1970.
    start_ms: u64,
    devices: Mutex<Listed>,
    gateways: Mutex<Gateways>,
}

// A listener at an address, whose accepts do not wait, and its address.
fn bind<R: Net<Listener = TcpListener, Stream = TcpStream>>(
    rt: &R,
    addr: SocketAddr,
) -> io::Result<(TcpListener, SocketAddr)> {
    let listener = TcpListener::bind(rt, addr)?;
    listener.set_nonblocking(true)?;
    let bound = listener.local_addr()?;
    Ok((listener, bound))
}

// The same, where both is logged: its address, and why there is none.
fn listen<R: Net<Listener = TcpListener, Stream = TcpStream> + Log>(
    rt: &R,
    addr: SocketAddr,
) -> Result<TcpListener, ServeFault> {
    match bind(rt, addr) {
        Ok((listener, bound)) => {
            info!(rt; "status at http://{bound}/");
            Ok(listener)
        }
        Err(error) => {
            error!(rt; "cannot tell the status at {addr}: {error}");
            Err(ServeFault::Io)
        }
    }
}

impl Status {
    /// Where a status is told, if an address for it is given.
    pub fn open<R: Net<Listener = TcpListener, Stream = TcpStream> + Clock + Log>(
        rt: &R,
        alloc: Global,
        roster: &Roster,
        addr: Option<SocketAddr>,
        host: Option<&str>,
    ) -> Result<Option<Status>, ServeFault> {
        let Some(addr) = addr else {
            return Ok(None);
        };
        let (Ok(since_1970), Ok(keys)) = (rt.since_1970(), keys(rt)) else {
            return Err(ServeFault::Io);
        };
        let devices = Mutex::new(Listed {
            devices: Devices::new(alloc, roster)?,
            // Changes are fewer than microseconds, so a later run begins above all versions of this one.
            version: u64::try_from(since_1970.as_micros()).unwrap_or(u64::MAX),
        });
        let gateways = Mutex::new(Gateways::new(alloc, keys)?);
        let mut name = String::new(alloc);
        if let Some(host) = host {
            name.push_str(host)?;
        }
        Ok(Some(Status {
            listener: listen(rt, addr)?,
            host: name,
            start_ms: u64::try_from(since_1970.as_millis()).unwrap_or(u64::MAX),
            devices,
            gateways,
        }))
    }

    /// Notes what a receipt tells of a device and of a gateway.
    pub fn note<R: Wait>(&self, rt: &R, receipt: &Receipt, now_ms: u64) {
        let entry = &receipt.entry;
        if let Some(news) = news_of(&entry.call, &entry.reply) {
            let mut listed = self.devices.lock(rt);
            listed.devices.note(&news, now_ms);
            listed.version = listed.version.wrapping_add(1);
        }
        if let Some(gateway) = gateway_of(&entry.call) {
            self.note_sign(rt, gateway, Sign::Frame, now_ms);
        }
    }

    /// Notes a sign of a gateway.
    pub fn note_sign<R: Wait>(&self, rt: &R, gateway: GatewayId, sign: Sign, now_ms: u64) {
        let mut gateways = self.gateways.lock(rt);
        let _ = gateways.note(gateway, sign, now_ms);
    }

    /// Notes what an entry of the record tells of a device.
    pub fn recall<R: Wait>(&self, rt: &R, call: &Call, reply: &Reply) {
        if let Some(news) = news_of(call, reply) {
            let mut listed = self.devices.lock(rt);
            listed.devices.recall(&news);
        }
    }

    /// The name under which it may be asked for.
    pub fn host(&self) -> &[u8] {
        self.host.as_str().as_bytes()
    }

    /// Takes the next connection of who asks, if there is one.
    pub fn accept(&self) -> io::Result<TcpStream> {
        let (stream, _) = self.listener.accept()?;
        Ok(stream)
    }

    /// When the server began, in milliseconds since 1970.
    pub fn start_ms(&self) -> u64 {
        self.start_ms
    }

    /// When the workers' clock would have told 0, in milliseconds since 1970.
    pub fn clock_start_ms(&self) -> u64 {
        self.start_ms.saturating_sub(BEGIN_MS)
    }

    /// How many devices there are.
    pub fn count_all<R: Wait>(&self, rt: &R) -> usize {
        let listed = self.devices.lock(rt);
        listed.devices.len()
    }

    /// The version of the list of devices: two lists of one version have the same rows.
    pub fn version<R: Wait>(&self, rt: &R) -> u64 {
        let listed = self.devices.lock(rt);
        listed.version
    }

    /// How many devices there are, and how many of them have joined.
    pub fn count_devices<R: Wait>(&self, rt: &R) -> (usize, usize) {
        let listed = self.devices.lock(rt);
        (listed.devices.len(), listed.devices.joined())
    }

    // How many devices were heard since a moment.
    fn count_heard<R: Wait>(&self, rt: &R, from_ms: u64) -> u64 {
        let listed = self.devices.lock(rt);
        listed.devices.heard_since(from_ms) as u64
    }

    /// How long ago the devices were last heard. The lock is let go of between the bounds, so that nobody waits for all of them. A device
    /// that is heard meanwhile is counted within the later bounds, so no bound has fewer than the one before it.
    pub fn ages<R: Wait>(&self, rt: &R, now_ms: u64) -> Ages {
        let mut within = [("+Inf", 0); 5];
        for (count, age) in within.iter_mut().zip(AGES.iter()) {
            let heard = self.count_heard(rt, now_ms.saturating_sub(age.0));
            *count = (age.1, heard);
        }
        if let Some(count) = within.last_mut() {
            count.1 = self.count_heard(rt, 0);
        }
        let listed = self.devices.lock(rt);
        Ages {
            within,
            sum_ms: listed.devices.sum_of_ages(now_ms),
        }
    }

    /// The place of a device in the list, if it is of the roster.
    pub fn place<R: Wait>(&self, rt: &R, eui: DevEui) -> Option<usize> {
        let listed = self.devices.lock(rt);
        listed.devices.place(eui)
    }

    /// How many gateways are known.
    pub fn count_gateways<R: Wait>(&self, rt: &R) -> usize {
        let gateways = self.gateways.lock(rt);
        gateways.len()
    }

    /// The gateways that are known.
    pub fn all_gateways<R: Wait>(
        &self,
        rt: &R,
        alloc: Global,
    ) -> Result<Vec<(GatewayId, Gateway)>, AllocError> {
        let gateways = self.gateways.lock(rt);
        gateways.all(alloc)
    }

    /// The devices at so many places from this one on, and what is known of each: of all of them, or of those of which something is known
    /// since this moment. They replace what the list had.
    pub fn batch<R: Wait>(
        &self,
        rt: &R,
        place: usize,
        since_ms: Option<u64>,
        batch: &mut Vec<(DevEui, Option<Device>)>,
    ) -> Result<(), AllocError> {
        batch.clear();
        let listed = self.devices.lock(rt);
        for i in place..place.saturating_add(BATCH) {
            match listed.devices.at(i) {
                Some(row) if is_wanted(&row.1, since_ms) => batch.push(row)?,
                _ => {}
            }
        }
        Ok(())
    }
}

// Whether something is known of a device since a moment, where only such are wanted.
fn is_wanted(device: &Option<Device>, since_ms: Option<u64>) -> bool {
    match (device, since_ms) {
        (_, None) => true,
        (Some(device), Some(since_ms)) => device.changed_since(since_ms),
        (None, Some(_)) => false,
    }
}
