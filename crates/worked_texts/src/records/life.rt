//! A record, and the server that writes it.

use crate::records::lines::{without_end, without_last};
use ns_acts::call_of;
use ns_calls::{Answer, Call, shard_of_call};
use ns_lines::{Line, lines, put_window, up_line};
use ns_record::{matters, step_line};
use ns_resume::{RecordFault, Resumed, run_record};
use ns_roster::Roster;
use ns_shard::Shard;
use ns_steps::step;
use std::alloc::Global;
use std::fmt::Display;
use std::io::BufReader;
use std::sync::Arc;
use worked_frames::put::{pieces, put, put_hex, put_line, show};

// How many bytes of a file are read at once: few, so that lines stand in several pieces.
const PIECE: usize = 16;

/// A record and its server.
#[derive(Drop)]
pub struct Life {
    alloc: Global,
    roster: String,
    // The files.
    steps: String,
    up: String,
    // Those of the server; none where none runs.
    shards: Vec<Shard>,
    said: String,
    wanted: String,
}

impl Life {
    /// No roster, empty files, no server.
    pub fn new(alloc: Global) -> Life {
        Life {
            alloc,
            roster: String::new(alloc),
            steps: String::new(alloc),
            up: String::new(alloc),
            shards: Vec::new(alloc),
            said: String::new(alloc),
            wanted: String::new(alloc),
        }
    }

    /// Takes these lines, which begin with empty files and no server.
    pub fn take(&mut self, lines: &str) {
        self.steps.clear();
        self.up.clear();
        self.shards.clear();
        self.said.clear();
        self.wanted.clear();
        for line in &pieces(self.alloc, lines, "\n") {
            self.add(line);
        }
    }

    /// Puts what was said and what was wanted, where these differ.
    pub fn put_difference(&self, out: &mut String) {
        if self.said.as_str() != self.wanted.as_str() {
            put(out, "differs. Said:\n");
            put(out, self.said.as_str());
            put(out, "Wanted:\n");
            put_line(out, self.wanted.as_str());
        }
    }

    // Does what a line says.
    fn add(&mut self, line: &str) {
        if let Some(roster) = line.strip_prefix("roster ") {
            self.roster.clear();
            put(&mut self.roster, roster);
        } else if let Some(text) = line.strip_prefix("> ") {
            self.step(text);
        } else if let Some(order) = line.strip_prefix("$ ") {
            self.follow(order);
        } else if !line.is_empty() {
            put_line(&mut self.wanted, line);
        }
    }

    // Does what is to be done to the record.
    fn follow(&mut self, order: &str) {
        let (word, rest) = order.split_once(" ").unwrap_or((order, ""));
        let (name, text) = rest.split_once(" ").unwrap_or((rest, ""));
        match name {
            "" if word == "start" => self.start(),
            "steps" => change(self.alloc, &mut self.steps, word, text, &mut self.said),
            "up" => change(self.alloc, &mut self.up, word, text, &mut self.said),
            _ => say(&mut self.said, "no file: ", name),
        }
    }

    // Makes the call of a step at its shard, and puts it down where later answers rest on it.
    fn step(&mut self, text: &str) {
        match call_of_step(self.alloc, text) {
            Some(call) => self.make(call),
            None => say(&mut self.said, "no call: ", text),
        }
    }

    // Makes a call at its shard.
    fn make(&mut self, call: Call) {
        let line = step_line(&call);
        match answer_of(&mut self.shards, call) {
            Some(answer) => self.put_answer(line.as_str(), &answer),
            None => put_line(&mut self.said, "no server runs"),
        }
    }

    // Says the answer to the call of this step line, and puts both down where later answers rest on it.
    fn put_answer(&mut self, line: &str, answer: &Answer) {
        if matters(&answer.reply) {
            put_line(&mut self.steps, line);
            if let Some(uplink) = &answer.uplink {
                put_line(&mut self.up, up_line(uplink).as_str());
            }
        }
        for line in lines(answer) {
            put_line(&mut self.said, line.as_str());
        }
    }

    // What the files leave.
    fn resumed(&self, roster: Arc<Roster>) -> Result<Resumed, RecordFault> {
        let mut steps = BufReader::with_capacity(self.alloc, PIECE, self.steps.as_bytes())?;
        let mut ups = BufReader::with_capacity(self.alloc, PIECE, self.up.as_bytes())?;
        run_record(self.alloc, roster, &mut steps, &mut ups)
    }

    // Begins a server with the files.
    fn start(&mut self) {
        self.shards.clear();
        match Roster::read(self.alloc, self.roster.as_bytes()) {
            Ok(roster) => match Arc::new(self.alloc, roster) {
                Ok(roster) => self.start_with(roster),
                Err(_) => put_line(&mut self.said, "no memory"),
            },
            Err(fault) => say(&mut self.said, "roster: ", fault),
        }
    }

    // Begins a server of this roster with the files.
    fn start_with(&mut self, roster: Arc<Roster>) {
        match self.resumed(roster) {
            Ok(resumed) => {
                self.cut(resumed.shards.as_slice(), resumed.torn, resumed.up_torn);
                self.add_missing(resumed.missing.as_slice());
                put_open(self.alloc, &resumed, &mut self.said);
                self.shards = resumed.shards;
            }
            Err(fault) => say(&mut self.said, "", fault),
        }
    }

    // Says how many entries shards have made, and cuts torn lines of so many bytes off the files.
    fn cut(&mut self, shards: &[Shard], steps: usize, up: usize) {
        say(&mut self.said, "made ", made(shards));
        if steps > 0 {
            say(&mut self.said, "cut steps ", steps);
            let whole = without_end(self.steps.as_str(), steps);
            self.steps = text_of(self.alloc, whole);
        }
        if up > 0 {
            say(&mut self.said, "cut up ", up);
            let whole = without_end(self.up.as_str(), up);
            self.up = text_of(self.alloc, whole);
        }
    }

    // Adds `up` lines that are missing.
    fn add_missing(&mut self, bytes: &[u8]) {
        let missing = str::from_utf8(bytes).unwrap_or("no text\n");
        put(&mut self.up, missing);
        for line in missing.lines() {
            say(&mut self.said, "added ", line);
        }
    }
}

// Says a word and a value.
fn say<D: Display + Drop>(said: &mut String, word: &str, value: D) {
    put(said, word);
    show(said, value);
    put(said, "\n");
}

// A text of its own.
fn text_of(alloc: Global, text: &str) -> String {
    let mut copy = String::new(alloc);
    put(&mut copy, text);
    copy
}

// The call of a step line.
fn call_of_step(alloc: Global, text: &str) -> Option<Call> {
    let mut room = Vec::new(alloc);
    match step(&mut room, text.as_bytes()) {
        Ok(Some(act)) => call_of(alloc, &act).unwrap_or(None),
        _ => None,
    }
}

// The answer to a call at its shard; None where no server runs.
fn answer_of(shards: &mut Vec<Shard>, call: Call) -> Option<Answer> {
    let place = shard_of_call(&call);
    let shard = shards.get_mut(usize::from(place))?;
    if shard.index() != place {
        return None;
    }
    shard.apply(call).ok()
}

// How many entries shards have made.
fn made(shards: &[Shard]) -> u64 {
    let mut made = 0u64;
    for shard in shards {
        made = made.wrapping_add(shard.made());
    }
    made
}

// Says which windows and tickets are open.
fn put_open(alloc: Global, resumed: &Resumed, said: &mut String) {
    for window in &resumed.windows {
        let mut name = Line::new();
        put_window(&mut name, window);
        say(said, "open", name.as_str());
    }
    for ticket in &resumed.tickets {
        put(said, "asked ");
        put_hex(alloc, said, &ticket.0);
        put(said, "\n");
    }
}

// Says a file, or changes it by a line, a text without a line feed, or the loss of its last line.
fn change(alloc: Global, file: &mut String, word: &str, text: &str, said: &mut String) {
    match word {
        "show" => put(said, file.as_str()),
        "put" => put_line(file, text),
        "tear" => put(file, text),
        "drop" => *file = text_of(alloc, without_last(file.as_str())),
        _ => say(said, "nothing to be done: ", word),
    }
}
