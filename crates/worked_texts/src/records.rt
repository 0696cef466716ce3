//! Makes the lives of records that a text tells, and puts the title of each. Where a record, a server or a start says other
//! lines than the text does, it puts what was said and what was wanted.
//!
//! What stands before the first title says what the text is about. `# TITLE` begins with empty files and no server, and of the lines
//! behind it
//!
//! - `roster JSON` is the roster of the starts from here on; a title without one has that of the title before;
//! - `$ start` ends the server, if one runs, and begins the next one with the files. It says how many entries its shards made, what is cut
//!   off each file, the `up` lines that are added, and the windows and tickets that are open; or why it does not begin;
//! - `> STEP` is a step line for the server, which puts it down where later answers rest on it. It says the answer's lines;
//! - `$ show FILE` says the lines of `steps` or `up`;
//! - `$ put FILE LINE` adds a line to a file, and `$ tear FILE PART` adds bytes without a line feed;
//! - `$ drop FILE` takes the last line of a file away, with its line feed;
//! - any other is a line that is to be said: what comes of a line stands right below it.
//!
//! Empty lines stand for nothing.

mod life;
mod lines;

use crate::records::life::Life;
use std::alloc::Global;
use worked_frames::put::{halves, put_line};

/// Makes the records of a text's parts. The first says what the text is about.
pub fn make(alloc: Global, parts: &[&str], out: &mut String) {
    let mut life = Life::new(alloc);
    for part in parts.get(1..).unwrap_or(&[]) {
        let (title, lines) = halves(part);
        put_line(out, title);
        life.take(lines);
        life.put_difference(out);
    }
}
