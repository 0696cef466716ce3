//! What the system says of this process and of its sockets, in files under `/proc` (proc(5)).
ghost use Rattle.std.specs.Prelude.{◌≤◌};

use std::fs::File;
use std::net::{IpAddr, SocketAddr};
use std::os::unix::fs::FileExt;
use std::rt::Files;

// The unit of processor times: Linux has 100 ticks in a second towards programs.
const TICK_MS: u64 = 10;

// The bytes of a page of memory on x86-64.
const PAGE: u64 = 4096;

// How many bytes are read at once, and how many times at most: a table of some 30,000 sockets.
const PIECE: usize = 4096;

const MOST_PIECES: u64 = 1024;

// How many bytes of a line of a table are kept. The tables pad theirs to fewer.
const LINE: usize = 256;

// The digits of the tables.
const HEX: [u8; 16] = [
    b'0', b'1', b'2', b'3', b'4', b'5', b'6', b'7', b'8', b'9', b'A', b'B', b'C', b'D', b'E', b'F',
];

/// What the system says of this process.
#[derive(Clone, Copy)]
pub struct Process {
    /// The processor time that it took, in milliseconds.
    pub cpu_ms: u64,
    /// The memory that it holds, in bytes.
    pub resident: u64,
    /// How many files it has open. None where the system does not say (Linux before 6.2).
    pub open_files: Option<u64>,
}

/// The files in which the system says it, as far as there are any.
#[derive(Drop)]
pub struct SystemFiles {
    stat: Option<File>,
    statm: Option<File>,
    fds: Option<File>,
    // Of UDP over IPv4, and over IPv6.
    udp: Option<File>,
    udp6: Option<File>,
}

// The text of a number in a file.
fn number(text: &[u8], radix: u32) -> Option<u64>
    requires { (2 ≤ radix) × (radix ≤ 36) }
{
    u64::from_str_radix(std::str::from_utf8(text).ok()?, radix).ok()
}

// The word at a place of a line, from 0 on.
fn word(line: &[u8], place: usize) -> Option<&[u8]> {
    line.split(|byte| *byte == b' ' || *byte == b'\n')
        .filter(|word| !word.is_empty())
        .nth(place)
}

// The last word of a line.
fn last_word(line: &[u8]) -> Option<&[u8]> {
    line.split(|byte| *byte == b' ' || *byte == b'\n')
        .filter(|word| !word.is_empty())
        .last()
}

// The processor time by `stat`: user and system time are the 14th and the 15th of its fields. The second, a name in parentheses, may have
// spaces.
fn cpu_ms(file: &File) -> Option<u64> {
    let mut buf = [0u8; 1024];
    let n = file.read_at(&mut buf, 0).ok()?;
    let text = &buf[..n];
    let end = text.iter().rposition(|byte| *byte == b')')?;
    let fields = text.get(end..)?;
    let user = number(word(fields, 12)?, 10)?;
    let system = number(word(fields, 13)?, 10)?;
    Some(user.saturating_add(system).saturating_mul(TICK_MS))
}

// The memory by `statm`, whose second field is in pages.
fn resident(file: &File) -> Option<u64> {
    let mut buf = [0u8; 256];
    let n = file.read_at(&mut buf, 0).ok()?;
    Some(number(word(&buf[..n], 1)?, 10)?.saturating_mul(PAGE))
}

// A socket's address as the tables write it: each group of four bytes as a number of this machine, which has the lowest byte first.
#[derive(Clone, Copy)]
struct Local {
    text: [u8; 37],
    len: usize,
}

impl Local {
    fn new(addr: SocketAddr) -> Local {
        let mut local = Local {
            text: [0; 37],
            len: 0,
        };
        match addr.ip() {
            IpAddr::V4(ip) => local.put_groups(&ip.octets()),
            IpAddr::V6(ip) => local.put_groups(&ip.octets()),
        }
        local.put(b':');
        let port = addr.port().to_be_bytes();
        local.put_hex(port[0]);
        local.put_hex(port[1]);
        local
    }

    fn put(&mut self, byte: u8) {
        if let Some(place) = self.text.get_mut(self.len) {
            *place = byte;
            self.len += 1;
        }
    }

    fn put_hex(&mut self, byte: u8) {
        self.put(HEX[usize::from(byte / 16)]);
        self.put(HEX[usize::from(byte % 16)]);
    }

    fn put_groups(&mut self, octets: &[u8]) {
        for group in octets.chunks(4) {
            for octet in group.iter().rev() {
                self.put_hex(*octet);
            }
        }
    }

    fn is(&self, text: &[u8]) -> bool {
        match self.text.get(..self.len) {
            Some(own) => own == text,
            None => false,
        }
    }
}

// What a line of a table says that was dropped at a socket, where it is of this address.
fn drops_of(line: &[u8], local: &Local) -> u64 {
    match (word(line, 1), last_word(line)) {
        (Some(addr), Some(drops)) if local.is(addr) => number(drops, 10).unwrap_or(0),
        _ => 0,
    }
}

// How many datagrams were dropped at the sockets of an address, by a table.
fn drops_in(file: &File, local: &Local) -> Option<u64> {
    let mut buf = [0u8; PIECE];
    let mut line = [0u8; LINE];
    let (mut len, mut at, mut drops): (usize, u64, u64) = (0, 0, 0);
    for _piece in 0..MOST_PIECES {
        let n = file.read_at(&mut buf, at).ok()?;
        if n == 0 {
            break;
        }
        at = at.saturating_add(n as u64);
        for byte in &buf[..n] {
            if *byte == b'\n' {
                drops = drops.saturating_add(drops_of(&line[..len.min(LINE)], local));
                len = 0;
            } else if len < LINE {
                line[len] = *byte;
                len += 1;
            }
        }
    }
    Some(drops)
}

impl SystemFiles {
    /// None: the system says nothing.
    pub fn none() -> SystemFiles {
        SystemFiles {
            stat: None,
            statm: None,
            fds: None,
            udp: None,
            udp6: None,
        }
    }

    /// Those of this process.
    pub fn open<R: Files<File = File>>(rt: &R) -> SystemFiles {
        SystemFiles {
            stat: File::open(rt, "/proc/self/stat").ok(),
            statm: File::open(rt, "/proc/self/statm").ok(),
            fds: File::open(rt, "/proc/self/fd").ok(),
            udp: File::open(rt, "/proc/self/net/udp").ok(),
            udp6: File::open(rt, "/proc/self/net/udp6").ok(),
        }
    }

    // How many files are open: Linux says it as the size of this folder.
    fn open_files(&self) -> Option<u64> {
        let count = self.fds.as_ref()?.metadata().ok()?.len();
        if count > 0 { Some(count) } else { None }
    }

    /// What the system says of this process, if it does.
    pub fn process(&self) -> Option<Process> {
        Some(Process {
            cpu_ms: cpu_ms(self.stat.as_ref()?)?,
            resident: resident(self.statm.as_ref()?)?,
            open_files: self.open_files(),
        })
    }

    /// How many datagrams the system dropped at the sockets of this address, if it says so.
    pub fn drops(&self, addr: SocketAddr) -> Option<u64> {
        let file = match addr.ip() {
            IpAddr::V4(_) => &self.udp,
            IpAddr::V6(_) => &self.udp6,
        };
        drops_in(file.as_ref()?, &Local::new(addr))
    }
}
