//! Makes the worked runs of a text by `replay`, and puts its name and the title of each run. Where a run writes other lines than the
//! text says, it puts what was written and what was wanted.
//!
//! What stands before the first title says what the text is about. `# TITLE` begins a run, and of the lines behind it
//!
//! - `roster JSON` is its roster; a run without one has that of the run before;
//! - `closing` asks for the closing roster;
//! - `json` asks for uplinks as JSON;
//! - `> STEP` is a step line;
//! - any other is a line that is to be written: the answers to a step stand right below it, and `roster: O2` or the like is the
//!   fault of the roster.
//!
//! Empty lines stand for nothing. Each run is made three times, in pieces of one, of seven and of many bytes.

ghost use Rattle.std.specs.Prelude.{◌<◌};

use ns_output::Output;
use ns_replay::{ReplayFault, replay};
use ns_roster::Roster;
use ns_types::Fuse;
use std::alloc::Global;
use std::sync::Arc;
use worked_frames::put::{halves, pieces, put, put_line, put_made, put_number, show};

// A run as its text tells it: its steps, and the lines that are to be written.
#[derive(Drop)]
struct Worked {
    roster: String,
    uplinks: Output,
    closing: bool,
    steps: String,
    lines: String,
}

impl Worked {
    // No run, and no roster.
    fn new(alloc: Global) -> Worked {
        Worked {
            roster: String::new(alloc),
            uplinks: Output::Lines,
            closing: false,
            steps: String::new(alloc),
            lines: String::new(alloc),
        }
    }

    // The run of these lines, in place of the one before. Where they name no roster, that one's stays.
    fn read(&mut self, alloc: Global, lines: &str) {
        self.uplinks = Output::Lines;
        self.closing = false;
        self.steps.clear();
        self.lines.clear();
        for line in &pieces(alloc, lines, "\n") {
            self.add(line);
        }
    }

    // Adds a line of the text.
    fn add(&mut self, line: &str) {
        if let Some(roster) = line.strip_prefix("roster ") {
            self.roster.clear();
            put(&mut self.roster, roster);
        } else if line == "closing" {
            self.closing = true;
        } else if line == "json" {
            self.uplinks = Output::Json;
        } else if let Some(step) = line.strip_prefix(">") {
            put_line(&mut self.steps, step.strip_prefix(" ").unwrap_or(step));
        } else if !line.is_empty() {
            put_line(&mut self.lines, line);
        }
    }

    // Puts what the run writes where at most so many bytes are read or written at once.
    fn put_written(&self, alloc: Global, most: usize, out: &mut String)
        requires { 0 < most }
    {
        match Roster::read(alloc, self.roster.as_bytes()) {
            Ok(roster) => match Arc::new(alloc, roster) {
                Ok(roster) => self.replay(alloc, roster, most, out),
                Err(_) => put(out, "no memory\n"),
            },
            Err(fault) => {
                put(out, "roster: ");
                show(out, fault);
                put(out, "\n");
            }
        }
    }

    // Puts what the run writes with its roster.
    fn replay(&self, alloc: Global, roster: Arc<Roster>, most: usize, out: &mut String)
        requires { 0 < most }
    {
        let Ok(input) = Vec::from_slice(alloc, self.steps.as_bytes()) else {
            return;
        };
        let mut reader = Fuse::new(alloc, input, most, None, None);
        let mut writer = Fuse::new(alloc, Vec::new(alloc), most, None, None);
        match replay(
            alloc,
            roster,
            self.uplinks,
            self.closing,
            &mut reader,
            &mut writer,
        ) {
            Ok(()) => put_made(out, String::from_utf8_lossy(alloc, writer.written())),
            Err(ReplayFault::NoMemory) => put(out, "no memory\n"),
            Err(ReplayFault::Io) => put(out, "io\n"),
        }
    }

    // Puts the run's title, and what is written in place of its lines.
    fn make(&self, alloc: Global, title: &str, out: &mut String) {
        put(out, "  ");
        put_line(out, title);
        for most in [1usize, 7, 1_000_000] {
            let mut written = String::new(alloc);
            self.put_written(alloc, most, &mut written);
            if written.as_str() != self.lines.as_str() {
                put_number(out, "differs, in pieces of ", most, " bytes. Written:\n");
                put(out, written.as_str());
                put(out, "Wanted:\n");
                put_line(out, self.lines.as_str());
            }
        }
    }
}

/// Makes the runs of the parts of the text of this name. The first says what the text is about.
pub fn make(alloc: Global, name: &str, parts: &[&str], out: &mut String) {
    let mut run = Worked::new(alloc);
    put_line(out, name);
    for part in parts.get(1..).unwrap_or(&[]) {
        let (title, lines) = halves(part);
        run.read(alloc, lines);
        run.make(alloc, title, out);
    }
}
