//! What an option takes, and what stands at the end of the help of the program and of each command.

use crate::options::OptionName;

// What an address is.
const ADDR: &str = "an IP address and a port, as 127.0.0.1:8080; no name, and no http:// before it";

impl OptionName {
    /// What the option takes.
    pub fn takes(self) -> &'static str {
        match self {
            OptionName::Join | OptionName::Listen | OptionName::Forwarders | OptionName::Status =>
                ADDR,
            OptionName::Power => "a number of dBm from 1 to 27",
            OptionName::Host => "a host's name of 1 to 255 visible characters of ASCII",
            OptionName::Trim => "a number from 1 to 4294967295, or never",
            OptionName::Workers =>
                "a number from 1 to 16, and at least 2 where --listen and --forwarders are given",
            OptionName::JoinWorkers => "a number from 1 to 16",
            OptionName::Window => "a number of milliseconds from 1 to 60000",
            OptionName::StopAfter => "a number from 1 to 4294967295",
            OptionName::Record => "a folder, and not with --closing",
            OptionName::Output => "lines or json",
        }
    }
}

/// Of the program.
pub(crate) const PROGRAM: &str = "\
Standard input: step lines (replay); with --stop-at-end-of-input, serve stops at
its end.
Standard output: the lines of their answers (replay), the uplinks (serve), how
many lines a record had and has (compact).
Standard error: log lines, and in the last line why the program ended early.
RUST_LOG says which log lines are written: error, warn, info (the default),
debug or off.

Status: 0 at a good end; 1 for a roster or a file that could not be read, for
want of memory, for a record that does not fit, and where a stream, the socket or
the record failed; 2 for a bad command line.

Example: lorawan_ns serve --help

docs/FORMATS.md describes rosters, datagrams, step lines and answer lines,
docs/OPERATOR.md says how to use them.";

/// Of `replay`.
pub(crate) const REPLAY: &str = "\
Standard input: step lines, such as those of a record.
Standard output: the lines of their answers, all at the end. Each uplink is an up
line or, with --output json, a JSON object on a line. With --closing the last
line is the roster from which the next run begins.
Standard error: log lines, and in the last line why the program ended early.
RUST_LOG says which log lines are written: error, warn, info (the default),
debug or off.

Status: 0 at a good end; 1 for a roster that could not be read, for want of
memory, and where a stream failed; 2 for a bad command line.

Example: lorawan_ns replay roster.json < steps > answers

docs/FORMATS.md describes rosters, step lines and answer lines.";

/// Of `check`.
pub(crate) const CHECK: &str = "\
It changes no file, and a server may run on the record meanwhile. Sockets are not
looked at.
Standard error: log lines, and in the last line what a start would refuse.
RUST_LOG says which log lines are written: error, warn, info (the default),
debug or off.

Status: 0 where a start would refuse nothing of them; 1 with the line that the
start would end with; 2 for a bad command line.

Example: lorawan_ns check roster.json --record /var/lib/lorawan_ns

docs/FORMATS.md describes rosters and the files of a record.";

/// Of `compact`.
pub(crate) const COMPACT: &str = "\
Standard output: how many step lines the record had, and has.
Standard error: log lines, and in the last line why the program ended early.
RUST_LOG says which log lines are written: error, warn, info (the default),
debug or off.

Status: 0 at a good end; 1 for a roster that could not be read, for want of
memory, and for a record that does not fit, that failed, or that a server runs
on; 2 for a bad command line.

Example: lorawan_ns compact roster.json /var/lib/lorawan_ns

docs/FORMATS.md describes rosters and the files of a record.";

/// Of `serve`.
pub(crate) const SERVE: &str = "\
Standard input: nothing, but with --stop-at-end-of-input its end.
Standard output: the address, then the uplinks, each an up line or, with --output
json, a JSON object on a line. With --closing the last line is the roster from
which the next run begins.
Standard error: log lines, and in the last line why the program ended early.
RUST_LOG says which log lines are written: error, warn, info (the default),
debug or off, or by the part of the program, as in warn,ns_serve=debug.

Status: 0 at a good end; 1 for a roster or a file that could not be read, for
want of memory, for a record that does not fit, and where a stream, the socket or
the record failed; 2 for a bad command line.

Example: lorawan_ns serve roster.json --join 127.0.0.1:8080 \\
             --forwarders 10.0.0.2:1700 --record /var/lib/lorawan_ns

docs/OPERATOR.md says how to use it, docs/FORMATS.md describes what it reads and
writes.";
