//! Makes worked texts, and prints the titles or the answers of each. A word of the arguments is the kind of the texts behind it, and any
//! other names a text of that kind: a file, or standard input, which is `-`. The form of a kind stands at the head of its module, here or
//! in `worked_frames`:
//!
//! - `runs`: runs of step lines by `replay`;
//! - `records`: lives of records;
//! - `forwarders`: messages of packet forwarders;
//! - `frames`: questions to the crates for frames, from AES to the device for tests;
//! - `joins`: rosters, messages to and from join servers, and exchanges with these; responses in plain form; requests for the status
//!   and its texts.
//!
//! `embedding` alone runs the example of a program that embeds the server (`embedding.rt`): here, since a program of its own would be
//! linked and compiled once more.
#![tactic(auto)]

mod embedding;
mod forwarders;
mod records;
mod runs;

use anyhow::bail;
use std::alloc::Global;
use std::rt::Files;
use std::{env, fs, io};
use worked_frames::put::pieces;
use worked_frames::{frames, joins};

// What a text is.
#[derive(Clone, Copy)]
enum Kind {
    Runs,
    Records,
    Forwarders,
    Frames,
    Joins,
}

// The kind that a word names.
fn kind_of(word: &str) -> Option<Kind> {
    match word {
        "runs" => Some(Kind::Runs),
        "records" => Some(Kind::Records),
        "forwarders" => Some(Kind::Forwarders),
        "frames" => Some(Kind::Frames),
        "joins" => Some(Kind::Joins),
        _ => None,
    }
}

// The text of a file, or of standard input.
fn text_of<R: Files + Input + AllocGlobal>(rt: &R, name: &str) -> io::Result<String> {
    if name == "-" {
        io::read_to_string(rt.alloc(), rt.reader())
    } else {
        fs::read_to_string(rt, name)
    }
}

// Puts what comes of the pieces of a text of this kind and name: its parts with a title, or its lines.
fn put_made(alloc: Global, kind: Kind, name: &str, pieces: &[&str], out: &mut String) {
    match kind {
        Kind::Runs => runs::make(alloc, name, pieces, out),
        Kind::Records => records::make(alloc, pieces, out),
        Kind::Forwarders => forwarders::make(alloc, pieces, out),
        Kind::Frames => frames::make(alloc, pieces, out),
        Kind::Joins => joins::make(alloc, pieces, out),
    }
}

// What stands between the pieces of a text of this kind.
fn mark_of(kind: Kind) -> &'static str {
    match kind {
        Kind::Runs | Kind::Records => "\n# ",
        _ => "\n",
    }
}

// What is printed of a text of this kind and name.
fn printed(alloc: Global, kind: Kind, name: &str, text: &str) -> String {
    let mut out = String::new(alloc);
    let whole = text.strip_suffix("\n").unwrap_or(text);
    let pieces = pieces(alloc, whole, mark_of(kind));
    put_made(alloc, kind, name, pieces.as_slice(), &mut out);
    out
}

// Makes the text of this name, and prints what comes of it.
fn make<R: Files + Input + Print + AllocGlobal>(rt: &R, kind: Kind, name: &str) -> io::Result<()> {
    let text = text_of(rt, name)?;
    let printed = printed(rt.alloc(), kind, name, text.as_str());
    rt.print(printed.as_str())
}

// The same; a fault is told with the name.
fn make_named<R: Files + Input + Print + AllocGlobal>(
    rt: &R,
    kind: Kind,
    name: &str,
) -> anyhow::Result<()> {
    match make(rt, kind, name) {
        Ok(()) => Ok(()),
        Err(fault) => bail!("{name}: {fault}"),
    }
}

fn main(rt: HostRuntime) -> anyhow::Result<()> {
    let mut kind = None;
    let mut words = env::args(&rt)?;
    let _program = words.next();
    for word in words {
        let word = word.as_str();
        match (kind_of(word), kind) {
            (Some(named), _) => kind = Some(named),
            (None, _) if word == "embedding" => embedding::run(&rt)?,
            (None, Some(kind)) => make_named(&rt, kind, word)?,
            (None, None) => bail!("no kind of text: {word}"),
        }
    }
    Ok(())
}
