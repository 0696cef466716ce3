//! Runs of step lines, and what `replay` is to write of them.

ghost use Rattle.std.specs.Prelude.{◌<◌};

use ns_device::worked::ROSTER;
use ns_output::Output;
use ns_replay::replay;
use ns_roster::Roster;
use ns_types::Fuse;
use std::alloc::{AllocError, Global};
use std::sync::Arc;

/// A roster to share. None where it is none, or there is no memory.
pub fn read_roster(alloc: Global, text: &str) -> Option<Arc<Roster>> {
    let roster = Roster::read(alloc, text.as_bytes()).ok()?;
    Arc::new(alloc, roster).ok()
}

/// Whether a run of these steps, of which a read gives at most so many bytes, writes these lines. None where there is no memory.
pub fn is_written(
    alloc: Global,
    roster: &str,
    closing: bool,
    steps: &[u8],
    most: usize,
    lines: &[u8],
) -> Option<bool>
    requires { 0 < most }
{
    let roster = read_roster(alloc, roster)?;
    let steps = Vec::from_slice(alloc, steps).ok()?;
    let mut reader = Fuse::new(alloc, steps, most, None, None);
    let mut writer = Fuse::new(alloc, Vec::new(alloc), 1 << 20, None, None);
    let ran = replay(
        alloc,
        roster,
        Output::Lines,
        closing,
        &mut reader,
        &mut writer,
    );
    ran.ok().and(Some(writer.written() == lines))
}

/// The text of these parts.
pub fn text_of(alloc: Global, parts: &[&str]) -> Result<Vec<u8>, AllocError> {
    let mut text = Vec::new(alloc);
    for part in parts {
        text.extend_from_slice(part.as_bytes())?;
    }
    Ok(text)
}

// A line of these parts.
fn push_line(lines: &mut Vec<u8>, parts: &[&[u8]]) -> Result<(), AllocError> {
    for part in parts {
        lines.extend_from_slice(part)?;
    }
    lines.push(b'\n')?;
    Ok(())
}

/// A run of one device: its steps, and the lines that are to be written.
#[derive(Drop)]
pub struct Run {
    steps: Vec<u8>,
    lines: Vec<u8>,
}

impl Run {
    /// A run that begins with these steps and lines.
    pub fn new(alloc: Global, steps: &[&str], lines: &str) -> Result<Run, AllocError> {
        Ok(Run {
            steps: text_of(alloc, steps)?,
            lines: Vec::from_slice(alloc, lines.as_bytes())?,
        })
    }

    /// A step line of these parts.
    pub fn step(&mut self, parts: &[&[u8]]) -> Result<(), AllocError> {
        push_line(&mut self.steps, parts)
    }

    /// A line of these parts that is to be written.
    pub fn line(&mut self, parts: &[&[u8]]) -> Result<(), AllocError> {
        push_line(&mut self.lines, parts)
    }

    /// Whether it writes just these lines.
    pub fn is_right(&self, alloc: Global) -> bool {
        let (steps, lines) = (self.steps.as_slice(), self.lines.as_slice());
        is_written(alloc, ROSTER, false, steps, 1 << 20, lines) == Some(true)
    }
}
