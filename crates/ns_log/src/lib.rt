//! Log lines: what takes them, and the macros that write them, which take what those of `log` take: the logger, a `;` and a text.
//!
//! A line has a level, the module that writes it, and a text. To write one cannot fail and changes nothing that a function gives. This is
//! all that the crates of the server know of logging. The program hands its lines to the facade `log` of the kit, whose filters pick those
//! that an operator wants (`ns_commands`); tests keep them, or drop them. A bound of `log` itself in the public functions of a crate would
//! have each check above it load the whole facade. The crate stands on nothing.
#![tactic(auto)]

mod discard;
mod macros;

pub use discard::Discard;
use std::fmt::Display;

/// How much a line matters.
#[derive(Clone, Copy)]
pub enum Level {
    /// Something failed that an operator is to look at.
    Error,
    /// Something was lost or put off, and the server goes on.
    Warn,
    /// What an operator may want to know always.
    Info,
    /// What is told of single frames.
    Debug,
}

/// What takes log lines.
pub trait Log {
    /// Takes a line of a module, or drops it. The text is made only where the line is wanted.
    fn line<D: Display + Drop>(&self, level: Level, module: &str, text: D);
}
