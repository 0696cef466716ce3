//! A logger that keeps lines in memory.

use ns_log::{Level, Log};
use std::alloc::{AllocError, Global};
use std::fmt::Display;
use std::io::Write;
use std::sync::{Mutex, Wait};

/// Which lines are kept.
#[derive(Clone, Copy)]
pub enum Kept {
    None,
    Errors,
    /// All of one module.
    Of(&'static str),
    All,
}

impl Kept {
    // Whether a line is kept.
    fn has(self, level: Level, module: &str) -> bool {
        match self {
            Kept::None => false,
            Kept::Errors => matches!(level, Level::Error),
            Kept::Of(only) => module == only,
            Kept::All => true,
        }
    }
}

/// Keeps lines as `[LEVEL module] text`.
#[derive(Drop)]
pub struct Lines<'a, R: Wait> {
    rt: &'a R,
    kept: Kept,
    lines: Mutex<Vec<u8>>,
}

impl<'a, R: Wait> Lines<'a, R> {
    /// Keeps such lines, with room for so many bytes at first.
    pub fn new(
        rt: &'a R,
        alloc: Global,
        kept: Kept,
        room: usize,
    ) -> Result<Lines<'a, R>, AllocError> {
        Ok(Lines {
            rt,
            kept,
            lines: Mutex::new(Vec::with_capacity(alloc, room)?),
        })
    }

    /// The lines that came.
    pub fn into_lines(self) -> Vec<u8> {
        let Lines {
            rt: _,
            kept: _,
            lines,
        } = self;
        lines.into_inner()
    }
}

// How a level is written.
fn name_of(level: Level) -> &'static str {
    match level {
        Level::Error => "ERROR",
        Level::Warn => "WARN ",
        Level::Info => "INFO ",
        Level::Debug => "DEBUG",
    }
}

impl<'a, R: Wait> Log for Lines<'a, R> {
    fn line<D: Display + Drop>(&self, level: Level, module: &str, text: D) {
        if self.kept.has(level, module) {
            let level = name_of(level);
            let line = format_args!("[{level} {module}] {text}");
            let _ = self.lines.lock(self.rt).writeln(line);
        }
    }
}
