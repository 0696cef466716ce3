//! The bytes of a head, each looked at once, so that a head that comes in small pieces is not parsed anew after each.

ghost use Rattle.std.specs.Prelude.{◌≡◌, ◌<◌, [], length, true};
ghost use Rattle.ns_joinclient.specs.Place.{IsScanOf, IsInside};

use crate::head::HEADERS_MAX;
use crate::place::{Place, START, begins_status};

/// How far the bytes of a head were looked at.
#[derive(Drop)]
pub(crate) struct Scan {
    // Where in the head they end.
    place: Place,
    // How many they are.
    seen: usize,
    // How many whole lines they have from the status line on.
    lines: usize,
}

impl Scan {
    /// No byte yet.
    pub fn new() -> Self
        ensures { IsScanOf result [] }
    {
        Scan {
            place: Place::Blank,
            seen: 0,
            lines: 0,
        }
    }

    // Looks at the next byte, or at the whole version and status, and says whether they are there.
    fn step(&mut self, bytes: &[u8]) -> bool
        requires scanned { IsScanOf self.old bytes.now }
        requires left { self.old.seen < length bytes.now }
        ensures scanned { IsScanOf self.new bytes.now }
        ensures further { result ≡ true → self.old.seen < self.new.seen }
    {
        let byte = bytes[self.seen];
        match self.place {
            Place::Blank if byte != b'\r' && byte != b'\n' => {
                if !begins_status(&bytes[self.seen..]) {
                    return false;
                }
                self.place = Place::Code;
                self.seen += START;
            }
            place => {
                self.place = place.after(byte);
                self.seen += 1;
                if let Place::Line = self.place {
                    self.lines = self.lines.saturating_add(1);
                }
            }
        }
        true
    }

    /// Looks at the bytes that came, and says whether they end inside a head. It says no too where they end inside the
    /// version and the status, and behind more headers than a head may have.
    pub fn is_inside(&mut self, bytes: &[u8]) -> bool
        requires { IsScanOf self.old bytes.now }
        ensures scanned { IsScanOf self.new bytes.now }
        ensures inside { result ≡ true → IsInside bytes.now }
    {
        while self.seen < bytes.len() {
            if !self.step(bytes) {
                return false;
            }
        }
        match self.place {
            Place::Other => false,
            _ => self.lines <= HEADERS_MAX + 1,
        }
    }
}
