//! What the system gives the program at its start: the words of the command line, and which log lines are asked for.

use crate::logging::{VARIABLE, filter_of};
use log::filter::Filter;
use ns_words::BadWords;
use std::alloc::AllocError;
use std::env;
use std::env::{Env, VarError};
use std::io::ErrorKind;

/// The words of the command line, the program's name first.
pub fn words<R: Env + AllocGlobal>(rt: &R) -> Result<Vec<String>, BadWords> {
    match env::args(rt) {
        Ok(args) => Ok(args.collect(rt.alloc())?),
        Err(error) if error.kind() == ErrorKind::OutOfMemory => Err(BadWords::NoMemory),
        Err(_) => Err(BadWords::NotText),
    }
}

/// The filter of log lines that the environment asks for.
pub fn read_filter<R: Env + AllocGlobal>(rt: &R) -> Result<Filter, AllocError> {
    match env::var(rt, VARIABLE) {
        Ok(text) => filter_of(rt.alloc(), Some(text.as_str())),
        Err(VarError::OutOfMemory) => Err(AllocError),
        Err(_) => filter_of(rt.alloc(), None),
    }
}
