//! Files of a folder.

use crate::parties::network::nap;
use crate::parties::text::is_made_of;
use std::alloc::{Alloc, Global};
use std::fs;
use std::fs::File;
use std::io::Read;
use std::rt::Files;
use std::time::Clock;

/// Copies each first file to the second.
pub fn copied<H: Files>(host: &H, files: &[(&str, &str)]) -> Option<()> {
    for (from, to) in files {
        fs::copy(host, from, to).ok()?;
    }
    Some(())
}

/// Waits until a file has a byte, for five seconds at most.
pub fn wait_for_byte<H: Files, R: Clock>(host: &H, rt: &R, path: &str) -> Option<()> {
    for _ in 0..500 {
        if fs::metadata(host, path).ok()?.len() > 0 {
            return Some(());
        }
        nap(rt);
    }
    None
}

/// Makes a folder without files.
pub fn emptied<H: Files + Alloc>(host: &H, folder: &str) -> Option<()> {
    let _ = fs::remove_dir_all(host, folder);
    fs::create_dir(host, folder).ok()
}

// The path of a file of a folder.
fn path_of(alloc: Global, folder: &str, name: &str) -> Option<String> {
    format!(in alloc; "{folder}/{name}").ok()
}

// The bytes of a file of a folder.
fn bytes_of<H: Files<File = File>>(
    host: &H,
    alloc: Global,
    folder: &str,
    name: &str,
) -> Option<Vec<u8>> {
    let path = path_of(alloc, folder, name)?;
    let mut file = File::open(host, path.as_str()).ok()?;
    let mut bytes = Vec::new(alloc);
    file.read_to_end(&mut bytes).ok()?;
    Some(bytes)
}

/// Whether a file of a folder has these lines.
pub fn has_lines<H: Files<File = File>>(
    host: &H,
    alloc: Global,
    folder: &str,
    name: &str,
    lines: &[&str],
) -> bool {
    match bytes_of(host, alloc, folder, name) {
        Some(bytes) => is_made_of(bytes.as_slice(), lines),
        None => false,
    }
}

// The text of these lines.
fn text_of(alloc: Global, lines: &[&str]) -> Option<String> {
    let mut text = String::new(alloc);
    for line in lines {
        text.push_str(line).ok()?;
    }
    Some(text)
}

// Writes a file of a folder.
fn write_file<H: Files>(
    host: &H,
    alloc: Global,
    folder: &str,
    name: &str,
    lines: &[&str],
) -> Option<()> {
    let path = path_of(alloc, folder, name)?;
    let text = text_of(alloc, lines)?;
    fs::write(host, path.as_str(), text.as_bytes()).ok()
}

/// Writes the files of a record in a folder: its steps and its `up` lines.
pub fn write_record<H: Files>(
    host: &H,
    alloc: Global,
    folder: &str,
    steps: &[&str],
    up: &[&str],
) -> Option<()> {
    write_file(host, alloc, folder, "steps", steps)?;
    write_file(host, alloc, folder, "up", up)
}
