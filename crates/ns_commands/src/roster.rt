//! The roster of a file.

use crate::fault::{Fault, of_reading, of_roster};
use ns_log::{Log, error};
use ns_roster::{Roster, RosterFault};
use ns_roster_place::first_fault;
use std::alloc::Global;
use std::fmt::Display;
use std::fs;
use std::rt::Files;
use std::sync::Arc;

// Want of memory for a roster, which is logged.
fn no_memory<L: Log>(log: &L, path: &str) -> Fault<'static> {
    error!(log; "no memory for the roster {path}");
    Fault::NoMemory
}

// Logs what a fault of a roster's text is, and where, if that is known.
fn log_fault<L: Log, F: Display>(log: &L, path: &str, fault: &F) {
    error!(log; "roster {path}: {fault}");
}

// The fault of a roster's text. What the first one is about is logged.
fn faulty<L: Log>(
    log: &L,
    alloc: Global,
    path: &str,
    bytes: &[u8],
    fault: RosterFault,
) -> Fault<'static> {
    if fault == RosterFault::NoMemory {
        return no_memory(log, path);
    }
    match first_fault(alloc, bytes) {
        Ok(Some(placed)) => log_fault(log, path, &placed),
        _ => log_fault(log, path, &fault),
    }
    of_roster(fault)
}

// The bytes of a file.
fn read_file<'a, R: Files + AllocGlobal, L: Log>(
    rt: &R,
    log: &L,
    path: &'a str,
) -> Result<Vec<u8>, Fault<'a>> {
    match fs::read(rt, path) {
        Ok(bytes) => Ok(bytes),
        Err(error) => {
            error!(log; "cannot read {path}: {error}");
            Err(of_reading(error.kind(), path))
        }
    }
}

// The roster of these bytes of a file.
fn roster_of<L: Log>(
    log: &L,
    alloc: Global,
    path: &str,
    bytes: &[u8],
) -> Result<Arc<Roster>, Fault<'static>> {
    let roster = match Roster::read(alloc, bytes) {
        Ok(roster) => roster,
        Err(fault) => return Err(faulty(log, alloc, path, bytes, fault)),
    };
    match Arc::new(alloc, roster) {
        Ok(roster) => Ok(roster),
        Err(_) => Err(no_memory(log, path)),
    }
}

/// The roster of a file. Why there is none is logged.
pub fn read_roster<'a, R: Files + AllocGlobal, L: Log>(
    rt: &R,
    log: &L,
    path: &'a str,
) -> Result<Arc<Roster>, Fault<'a>> {
    let bytes = read_file(rt, log, path)?;
    roster_of(log, rt.alloc(), path, bytes.as_slice())
}
