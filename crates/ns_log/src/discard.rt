//! A logger that drops all lines.

use crate::{Level, Log};
use std::fmt::Display;

/// Drops each line.
#[derive(Clone, Copy, Drop)]
pub struct Discard;

impl Log for Discard {
    fn line<D: Display + Drop>(&self, _level: Level, _module: &str, _text: D) {}
}
