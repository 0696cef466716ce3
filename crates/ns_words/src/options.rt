//! The command line.

ghost use Rattle.std.specs.Prelude.{◌≡◌, ◌<◌, ◌≤◌, codes, false, true, IfErr, IfOk, Some, is_some, map, string_bytes};
ghost use Rattle.ns_exchange.specs.HostText.{host_text};
ghost use Rattle.clap.specs.Words.{app_of, first_of, found_of, new_app, rows_of};
ghost use Rattle.ns_words.specs.Asked.{HasAddresses, HasLimits, HasOptions, HasRecord, HasRoster, HasWorkers, IsAddr, IsAddrIfGiven, IsAsked, IsDoable, IsFlag, IsNumber, IsNumberIfGiven, IsNumberOrNever, IsOutput, IsServed, name_of};
ghost use Rattle.ns_words.specs.declared.options.BadWords.TheVariants as refusal;
ghost use Rattle.ns_words.specs.Commands.{AreAdded, AreBelow, IsArg, IsCommand, formed, named_app, plain_rule, program, rule_by, with_arguments, with_subcommands};
ghost use Rattle.ns_words.specs.Refused.{HasNoAddr, HasNoCount, HasNoHost, IsNoOutput, IsNotNever, IsOfClap, IsRead, IsReadBehind, IsRefusal, IsRefused, IsThere, IsTold};

use crate::help;
use clap::builder::ValueParser;
use clap::error::ErrorKind;
use clap::{Arg, ArgAction, ArgMatches, Command};
use ns_exchange::HostName;
use ns_output::Output;
use ns_serve_parts::ServeOptions;
use std::alloc::{AllocError, Global};
use std::error::Error;
use std::fmt;
use std::fmt::{Display, Formatter};
use std::net::SocketAddr;

// What `--version` prints behind the program's name. `tools/package` writes the commit over the zeros of the built program.
const VERSION: &str = "0.1.0 (commit 0000000000000000000000000000000000000000)";

// After how many entries a shard is trimmed where no word says so: sixteen shards then keep some 27 MB of entries, and up to 54 MB
// while their lists grow.
const TRIM: &str = "5000";

// What asks for no trims.
const NEVER: &str = "never";

/// What the words ask for.
#[derive(Drop)]
pub enum Asked<'a> {
    /// To answer the step lines of standard input over the roster of this file, how uplinks are written, and whether the closing roster
    /// is.
    Replay(&'a str, Output, bool),
    /// To check the roster of this file, and over it the record of this folder, if one is given.
    Check(&'a str, Option<&'a str>),
    /// To serve gateways over the roster of this file.
    Serve(&'a str, ServeOptions<'a>, Recorded<'a>),
    /// To compact, over the roster of this file, the record of this folder.
    Compact(&'a str, &'a str),
}

/// What the calls of a server are put down in.
#[derive(Clone, Copy)]
pub struct Recorded<'a> {
    /// The folder of the record, if there is one.
    pub folder: Option<&'a str>,
    /// Whether what was put down is brought to the disk before anything that rests on it leaves the server.
    pub sync: bool,
}

/// The options of `serve` with a value, printed as they are written behind `--`.
#[derive(Clone, Copy, Debug, PartialEq, Eq)]
pub enum OptionName {
    Join,
    Host,
    Listen,
    Forwarders,
    Power,
    Status,
    Workers,
    JoinWorkers,
    Window,
    StopAfter,
    Trim,
    Record,
    Output,
}

impl OptionName {
    /// The name.
    pub fn as_str(self) -> &'static str
        ensures { result.now ≡ name_of self }
    {
        match self {
            OptionName::Join => "join",
            OptionName::Host => "host",
            OptionName::Listen => "listen",
            OptionName::Forwarders => "forwarders",
            OptionName::Power => "power",
            OptionName::Status => "status",
            OptionName::Workers => "workers",
            OptionName::JoinWorkers => "join-workers",
            OptionName::Window => "window",
            OptionName::StopAfter => "stop-after",
            OptionName::Trim => "trim",
            OptionName::Record => "record",
            OptionName::Output => "output",
        }
    }
}

impl Display for OptionName {
    fn fmt<W: fmt::Write>(&self, f: &mut Formatter<W>) -> fmt::Result {
        f.write_str(self.as_str())
    }
}

impl Error for OptionName {}

/// Why there is nothing to do.
#[derive(Drop)]
pub enum BadWords {
    /// A growth was refused.
    NoMemory,
    /// A word is no UTF-8.
    NotText,
    /// The value of this option is none that it can have, or none that it can have beside others: `record` with `--closing`, one worker
    /// for two sockets.
    BadValue(OptionName),
    /// Bad words, or a request for help or the version: the text to print, and whether it is an error.
    Shown(clap::Error),
}

impl From<AllocError> for BadWords {
    ghost from_gives = { λ _ bad. bad ≡ refusal.NoMemory };

    fn from(_error: AllocError) -> BadWords {
        BadWords::NoMemory
    }
}

impl From<clap::Error> for BadWords {
    ghost from_gives = { IsOfClap };

    fn from(error: clap::Error) -> BadWords {
        if error.kind() == ErrorKind::OutOfMemory {
            BadWords::NoMemory
        } else {
            BadWords::Shown(error)
        }
    }
}

// A command of the program.
struct Subcommand {
    name: &'static str,
    about: &'static str,
    // What stands at the end of its help.
    after: &'static str,
    arguments: &'static [Argument],
}

// An argument of a command.
struct Argument {
    // Its name, which is an option's behind `--`.
    name: &'static str,
    // What it is among the words.
    form: Form,
    // Whether each use of the command needs it.
    required: bool,
    // The value that it has where it is left out, if any.
    defaults: &'static [&'static str],
    help: &'static str,
}

// What an argument is among the words.
enum Form {
    // A word at its place.
    Place,
    // An option without a value.
    Switch,
    // An option with a text, which the help calls this.
    Text(&'static str),
    // An option with a number from 1 to this.
    Number(&'static str, u64),
}

// The roster's file, which each command needs.
const ROSTER: Argument = Argument {
    name: "ROSTER",
    form: Form::Place,
    required: true,
    defaults: &[],
    help: "The roster's file",
};

// The folder of a record.
const FOLDER: Argument = Argument {
    name: "DIR",
    form: Form::Place,
    required: true,
    defaults: &[],
    help: "The folder of the record",
};

// The join server, and where gateways are heard.
const JOIN: Argument = Argument {
    name: "join",
    form: Form::Text("ADDR"),
    required: true,
    defaults: &[],
    help: "The join server's address, as 127.0.0.1:8080",
};

const HOST: Argument = Argument {
    name: "host",
    form: Form::Text("NAME"),
    required: false,
    defaults: &["localhost"],
    help: "The host that requests to it name",
};

const LISTEN: Argument = Argument {
    name: "listen",
    form: Form::Text("ADDR"),
    required: false,
    defaults: &[],
    help: "The address for the server's own datagrams; 127.0.0.1:1700 without --forwarders",
};

const FORWARDERS: Argument = Argument {
    name: "forwarders",
    form: Form::Text("ADDR"),
    required: false,
    defaults: &[],
    help: "The address at which packet forwarders are heard",
};

const POWER: Argument = Argument {
    name: "power",
    form: Form::Number("DBM", 27),
    required: false,
    defaults: &["14"],
    help: "The power of the downlinks that forwarders send, 1 to 27 dBm",
};

// How many threads there are.
const WORKERS: Argument = Argument {
    name: "workers",
    form: Form::Number("N", 16),
    required: false,
    defaults: &["4"],
    help: "How many threads hear gateways, 1 to 16; with --listen and --forwarders at least 2",
};

const JOIN_WORKERS: Argument = Argument {
    name: "join-workers",
    form: Form::Number("N", 16),
    required: false,
    defaults: &["4"],
    help: "How many threads ask the join server, 1 to 16",
};

// When a window is closed, the server stops, and a shard is trimmed.
const WINDOW: Argument = Argument {
    name: "window",
    form: Form::Number("MS", 60_000),
    required: false,
    defaults: &["200"],
    help: "How long copies are gathered, 1 to 60000 ms; those of a join 1000 at most",
};

const STOP_AFTER: Argument = Argument {
    name: "stop-after",
    form: Form::Number("N", 4_294_967_295),
    required: false,
    defaults: &[],
    help: "After how many datagrams to stop, 1 to 4294967295; without it, never",
};

const STOP_AT_END: Argument = Argument {
    name: "stop-at-end-of-input",
    form: Form::Switch,
    required: false,
    defaults: &[],
    help: "Stops at the end of standard input, of which nothing else is used",
};

const TRIMS: Argument = Argument {
    name: "trim",
    form: Form::Text("N"),
    required: false,
    defaults: &[TRIM],
    help: "After how many entries a shard is trimmed, 1 to 4294967295, or never",
};

// What the calls of the server are put down in.
const RECORD: Argument = Argument {
    name: "record",
    form: Form::Text("DIR"),
    required: false,
    defaults: &[],
    help: "A folder that is there, for the record with which the next run goes on; not with --closing",
};

// The record that a start would go on with.
const CHECKED: Argument = Argument {
    name: "record",
    form: Form::Text("DIR"),
    required: false,
    defaults: &[],
    help: "The folder of the record that a start would go on with",
};

const SYNC: Argument = Argument {
    name: "sync",
    form: Form::Switch,
    required: false,
    defaults: &[],
    help: "Brings the record to the disk before what rests on it leaves the server",
};

// How uplinks are written, and what else is.
const OUTPUT: Argument = Argument {
    name: "output",
    form: Form::Text("FORM"),
    required: false,
    defaults: &["lines"],
    help: "How uplinks are written: lines, or json for JSON objects",
};

const EVENTS: Argument = Argument {
    name: "events",
    form: Form::Switch,
    required: false,
    defaults: &[],
    help: "Writes joins and acknowledgements too, each as a JSON object on a line",
};

const STATUS: Argument = Argument {
    name: "status",
    form: Form::Text("ADDR"),
    required: false,
    defaults: &[],
    help: "The address at which HTTP tells the status, as 127.0.0.1:9108; without it, none",
};

const STATUS_HOST: Argument = Argument {
    name: "status-host",
    form: Form::Text("NAME"),
    required: false,
    defaults: &[],
    help: "A name under which the status may be asked for, besides addresses and localhost",
};

const CLOSING: Argument = Argument {
    name: "closing",
    form: Form::Switch,
    required: false,
    defaults: &[],
    help: "Writes at the end the roster from which the next run begins",
};

// The commands that answer recorded steps, say what a start would refuse, compact a record, and serve gateways.
const COMMANDS: [Subcommand; 4] = [
    Subcommand {
        name: "replay",
        about: "Answers the step lines of standard input",
        after: help::REPLAY,
        arguments: &[ROSTER, OUTPUT, CLOSING],
    },
    Subcommand {
        name: "check",
        about: "Says what a start of the server would refuse, without a start",
        after: help::CHECK,
        arguments: &[ROSTER, CHECKED],
    },
    Subcommand {
        name: "compact",
        about: "Makes a record shorter that no server runs on; later answers are the same",
        after: help::COMPACT,
        arguments: &[ROSTER, FOLDER],
    },
    Subcommand {
        name: "serve",
        about: "Serves gateways over UDP, with a join server over HTTP",
        after: help::SERVE,
        arguments: &[
            ROSTER,
            JOIN,
            HOST,
            LISTEN,
            FORWARDERS,
            POWER,
            WORKERS,
            JOIN_WORKERS,
            WINDOW,
            STOP_AFTER,
            STOP_AT_END,
            TRIMS,
            RECORD,
            SYNC,
            OUTPUT,
            EVENTS,
            STATUS,
            STATUS_HOST,
            CLOSING,
        ],
    },
];

// The argument, in no form yet.
fn plain<'a>(alloc: Global, argument: &Argument) -> Arg<'a>
    ensures { IsArg (plain_rule argument.now) result }
{
    Arg::new(alloc, argument.name)
        .required(argument.required)
        .default_values(argument.defaults)
        .help(argument.help)
}

// An option with a value.
fn option<'a>(alloc: Global, argument: &Argument, value: &'static str) -> Arg<'a>
    ensures { IsArg (formed (Form.Text value.entry) argument.now.name.now (plain_rule argument.now)) result }
{
    plain(alloc, argument)
        .long(argument.name)
        .value_name(value)
        .action(ArgAction::Set)
}

// An option with a number from 1 to this.
fn number<'a>(alloc: Global, argument: &Argument, value: &'static str, most: u64) -> Arg<'a>
    ensures { IsArg (formed (Form.Number value.entry most) argument.now.name.now (plain_rule argument.now)) result }
{
    option(alloc, argument, value).value_parser(ValueParser::unsigned(1, most))
}

// An option without a value.
fn switch<'a>(alloc: Global, argument: &Argument) -> Arg<'a>
    ensures { IsArg (formed Form.Switch argument.now.name.now (plain_rule argument.now)) result }
{
    plain(alloc, argument)
        .long(argument.name)
        .action(ArgAction::SetTrue)
}

// The argument, as clap is told of it.
fn arg_of<'a>(alloc: Global, argument: &Argument) -> Arg<'a>
    ensures { IsArg (rule_by argument.now) result }
{
    match argument.form {
        Form::Place => plain(alloc, argument).action(ArgAction::Set),
        Form::Switch => switch(alloc, argument),
        Form::Text(value) => option(alloc, argument, value),
        Form::Number(value, most) => number(alloc, argument, value, most),
    }
}

// The arguments.
fn args_of<'a>(alloc: Global, arguments: &[Argument]) -> Result<Vec<Arg<'a>>, AllocError>
    ensures { (app : _) → IfOk result (λ args. AreAdded app args.items (with_arguments app arguments.now)) }
{
    let mut args = Vec::new(alloc);
    for argument in arguments {
        args.push(arg_of(alloc, argument))?;
    }
    Ok(args)
}

// A command with these arguments.
fn command<'a>(
    alloc: Global,
    name: &'static str,
    about: &'static str,
    after: &'static str,
    arguments: &[Argument],
) -> Result<Command<'a>, AllocError>
    ensures { IfOk result (IsCommand (with_arguments (new_app name.entry.now) arguments.now)) }
{
    let args = args_of(alloc, arguments)?;
    Command::new(alloc, name)
        .about(about)
        .after_help(after)
        .args(args)
}

// The commands, each with its arguments.
fn commands_of<'a>(alloc: Global, rows: &[Subcommand]) -> Result<Vec<Command<'a>>, AllocError>
    ensures { (app : _) → IfOk result (λ commands. AreBelow app commands.items (with_subcommands app rows.now)) }
{
    let mut commands = Vec::new(alloc);
    for row in rows {
        let made = command(alloc, row.name, row.about, row.after, row.arguments)?;
        commands.push(made)?;
    }
    Ok(commands)
}

// The program's commands.
fn subcommands<'a>(alloc: Global) -> Result<Vec<Command<'a>>, AllocError>
    ensures { IfOk result (λ commands. AreBelow named_app commands.items program) }
{
    commands_of(alloc, &COMMANDS)
}

// The program with its commands.
fn commands<'a>(alloc: Global) -> Result<Command<'a>, AllocError>
    ensures { IfOk result (λ c. app_of c ≡ program) }
{
    let commands = subcommands(alloc)?;
    command(
        alloc,
        "lorawan_ns",
        "A LoRaWAN network server",
        help::PROGRAM,
        &[],
    )?
    .version(VERSION)
    .subcommand_required(true)
    .subcommands(commands)
}

// The host that the option names.
fn host<'a>(found: &ArgMatches<'a>) -> Result<HostName<'a>, BadWords>
    ensures refused { IfErr result (λ bad. (bad ≡ BadWords.BadValue OptionName.Host)
        × HasNoHost (codes "host") (rows_of (found_of found.now))) }
    ensures host { IfOk result (λ host. first_of (codes "host") (rows_of (found_of found.now)) ≡ Some (host_text host)) }
{
    let Some(text) = found.get_str("host") else {
        return Err(BadWords::BadValue(OptionName::Host));
    };
    HostName::new(text).ok_or(BadWords::BadValue(OptionName::Host))
}

// The address that an option has.
fn addr(found: &ArgMatches<'_>, name: OptionName) -> Result<SocketAddr, BadWords>
    ensures refused { IfErr result (λ bad. (bad ≡ BadWords.BadValue name)
        × HasNoAddr (name_of name) (rows_of (found_of found.now))) }
    ensures addr { IfOk result (IsAddr (name_of name) (rows_of (found_of found.now))) }
{
    let addr: Option<SocketAddr> = found.get_one(name.as_str());
    addr.ok_or(BadWords::BadValue(name))
}

// The address that an option has, where it is given.
fn given_addr(found: &ArgMatches<'_>, name: OptionName) -> Result<Option<SocketAddr>, BadWords>
    ensures refused { IfErr result (λ bad. (bad ≡ BadWords.BadValue name)
        × IsThere (name_of name) (rows_of (found_of found.now)) × HasNoAddr (name_of name) (rows_of (found_of found.now))) }
    ensures addr { IfOk result (IsAddrIfGiven (name_of name) (rows_of (found_of found.now))) }
{
    if found.contains_id(name.as_str()) {
        Ok(Some(addr(found, name)?))
    } else {
        Ok(None)
    }
}

// The number that an option has, from 1 to this.
fn count(found: &ArgMatches<'_>, name: OptionName, most: u32) -> Result<u32, BadWords>
    ensures refused { IfErr result (λ bad. (bad ≡ BadWords.BadValue name)
        × HasNoCount (name_of name) most (rows_of (found_of found.now))) }
    ensures count { IfOk result (λ n. (0 < n) × (n ≤ most)) }
    ensures number { IfOk result (IsNumber (name_of name) (rows_of (found_of found.now))) }
{
    match found.get_one::<u32>(name.as_str()) {
        Some(n) if 0 < n && n <= most => Ok(n),
        _ => Err(BadWords::BadValue(name)),
    }
}

// After how many entries a shard is trimmed, if at all.
fn trim(found: &ArgMatches<'_>) -> Result<Option<u32>, BadWords>
    ensures refused { IfErr result (λ bad. (bad ≡ BadWords.BadValue OptionName.Trim)
        × IsNotNever (codes "trim") (rows_of (found_of found.now)) × HasNoCount (codes "trim") 4294967295 (rows_of (found_of found.now))) }
    ensures number { IfOk result (IsNumberOrNever (codes "trim") (rows_of (found_of found.now))) }
{
    match found.get_str("trim") {
        Some(text) if text == NEVER => Ok(None),
        _ => Ok(Some(count(found, OptionName::Trim, u32::MAX)?)),
    }
}

// The number that an option has, from 1 up, where it is given.
fn given(found: &ArgMatches<'_>, name: OptionName) -> Result<Option<u32>, BadWords>
    ensures refused { IfErr result (λ bad. (bad ≡ BadWords.BadValue name)
        × IsThere (name_of name) (rows_of (found_of found.now)) × HasNoCount (name_of name) 4294967295 (rows_of (found_of found.now))) }
    ensures number { IfOk result (IsNumberIfGiven (name_of name) (rows_of (found_of found.now))) }
{
    if found.contains_id(name.as_str()) {
        Ok(Some(count(found, name, u32::MAX)?))
    } else {
        Ok(None)
    }
}

// How uplinks are written.
fn output_of(found: &ArgMatches<'_>) -> Result<Output, BadWords>
    ensures refused { IfErr result (λ bad. (bad ≡ BadWords.BadValue OptionName.Output) × IsNoOutput (rows_of (found_of found.now))) }
    ensures output { IfOk result (IsOutput (rows_of (found_of found.now))) }
{
    let Some(text) = found.get_str("output") else {
        return Err(BadWords::BadValue(OptionName::Output));
    };
    if text == "lines" {
        Ok(Output::Lines)
    } else if text == "json" {
        Ok(Output::Json)
    } else {
        Err(BadWords::BadValue(OptionName::Output))
    }
}

// Whether a flag was given.
fn flag(found: &ArgMatches<'_>, name: &str) -> bool
    ensures { IsFlag name.now (rows_of (found_of found.now)) result }
{
    found.get_one(name).unwrap_or(false)
}

// Where the join server is, and where gateways are heard.
#[derive(Clone, Copy)]
struct Addresses<'a> {
    join: SocketAddr,
    host: HostName<'a>,
    listen: Option<SocketAddr>,
    forwarders: Option<SocketAddr>,
    power: u8,
}

// Where the status is told, and how many threads there are.
#[derive(Clone, Copy)]
struct Workers {
    status: Option<SocketAddr>,
    workers: usize,
    join_workers: usize,
}

// When a window is closed, the server stops, and a shard is trimmed.
#[derive(Clone, Copy)]
struct Limits {
    window_ms: u32,
    stop_after: Option<u32>,
    stop_at_end: bool,
    trim: Option<u32>,
}

// The addresses that the words after `serve` give.
fn read_addresses<'a>(found: &ArgMatches<'a>) -> Result<Addresses<'a>, BadWords>
    ensures { IsRead (rows_of (found_of found.now)) (HasAddresses (rows_of (found_of found.now))) result }
{
    Ok(Addresses {
        join: addr(found, OptionName::Join)?,
        host: host(found)?,
        listen: given_addr(found, OptionName::Listen)?,
        forwarders: given_addr(found, OptionName::Forwarders)?,
        power: count(found, OptionName::Power, 27)? as u8,
    })
}

// The threads that they ask for.
fn read_workers(found: &ArgMatches<'_>) -> Result<Workers, BadWords>
    ensures { IsRead (rows_of (found_of found.now)) (HasWorkers (rows_of (found_of found.now))) result }
{
    Ok(Workers {
        status: given_addr(found, OptionName::Status)?,
        workers: count(found, OptionName::Workers, 16)? as usize,
        join_workers: count(found, OptionName::JoinWorkers, 16)? as usize,
    })
}

// The limits that they set.
fn read_limits(found: &ArgMatches<'_>) -> Result<Limits, BadWords>
    ensures { IsRead (rows_of (found_of found.now)) (HasLimits (rows_of (found_of found.now))) result }
{
    Ok(Limits {
        window_ms: count(found, OptionName::Window, 60_000)?,
        stop_after: given(found, OptionName::StopAfter)?,
        stop_at_end: flag(found, "stop-at-end-of-input"),
        trim: trim(found)?,
    })
}

// Whether one thread is to hear at two sockets, of which each needs one of its own.
fn is_one_for_both(addresses: &Addresses<'_>, workers: &Workers) -> bool
    ensures one { result ≡ true → (is_some addresses.now.listen ≡ true) × (is_some addresses.now.forwarders ≡ true) × (workers.now.workers ≤ 1) }
    ensures more { result ≡ false → is_some addresses.now.listen ≡ true → is_some addresses.now.forwarders ≡ true → 1 < workers.now.workers }
{
    addresses.listen.is_some() && addresses.forwarders.is_some() && workers.workers <= 1
}

// What the words after `serve` ask for.
fn serve_options<'a>(found: &ArgMatches<'a>) -> Result<ServeOptions<'a>, BadWords>
    ensures { IsRead (rows_of (found_of found.now)) (λ options. IsServed options × HasOptions (rows_of (found_of found.now)) options) result }
{
    let addresses = read_addresses(found)?;
    let workers = read_workers(found)?;
    if is_one_for_both(&addresses, &workers) {
        return Err(BadWords::BadValue(OptionName::Workers));
    }
    let limits = read_limits(found)?;
    let output = output_of(found)?;
    Ok(ServeOptions {
        join: addresses.join,
        host: addresses.host,
        listen: addresses.listen,
        forwarders: addresses.forwarders,
        power: addresses.power,
        status: workers.status,
        status_host: found.get_str("status-host"),
        workers: workers.workers,
        join_workers: workers.join_workers,
        window_ms: limits.window_ms,
        stop_after: limits.stop_after,
        stop_at_end: limits.stop_at_end,
        trim: limits.trim,
        output,
        events: flag(found, "events"),
        closing: flag(found, "closing"),
    })
}

// What the words say of a record. It excludes the closing roster, in which the nonces of its joins are old.
fn record_options<'a>(found: &ArgMatches<'a>) -> Result<Recorded<'a>, BadWords>
    ensures refused { IfErr result (IsRefused (rows_of (found_of found.now))) }
    ensures record { IfOk result (HasRecord (rows_of (found_of found.now))) }
{
    let recorded = Recorded {
        folder: found.get_str("record"),
        sync: flag(found, "sync"),
    };
    if recorded.folder.is_some() && flag(found, "closing") {
        return Err(BadWords::BadValue(OptionName::Record));
    }
    Ok(recorded)
}

// What the words after `serve` ask for, over the roster of this file.
fn read_serve<'a>(path: &'a str, found: &ArgMatches<'a>) -> Result<Asked<'a>, BadWords>
    ensures { HasRoster (rows_of (found_of found.now)) path.entry.now → IsReadBehind (codes "serve") (rows_of (found_of found.now)) result }
{
    let options = serve_options(found)?;
    Ok(Asked::Serve(path, options, record_options(found)?))
}

// And those after `replay`.
fn read_replay<'a>(path: &'a str, found: &ArgMatches<'a>) -> Result<Asked<'a>, BadWords>
    ensures { HasRoster (rows_of (found_of found.now)) path.entry.now → IsReadBehind (codes "replay") (rows_of (found_of found.now)) result }
{
    let output = output_of(found)?;
    Ok(Asked::Replay(path, output, flag(found, "closing")))
}

// And those after `check`.
fn read_check<'a>(path: &'a str, found: &ArgMatches<'a>) -> Result<Asked<'a>, BadWords>
    ensures { HasRoster (rows_of (found_of found.now)) path.entry.now → IsReadBehind (codes "check") (rows_of (found_of found.now)) result }
{
    Ok(Asked::Check(path, found.get_str("record")))
}

// And those after `compact`.
fn read_compact<'a>(path: &'a str, found: &ArgMatches<'a>) -> Result<Asked<'a>, BadWords>
    ensures { HasRoster (rows_of (found_of found.now)) path.entry.now → IsReadBehind (codes "compact") (rows_of (found_of found.now)) result }
{
    match found.get_str("DIR") {
        Some(folder) => Ok(Asked::Compact(path, folder)),
        None => Err(BadWords::NoMemory),
    }
}

// What the words behind the name of a command ask for.
fn read_command<'a>(name: &str, found: &ArgMatches<'a>) -> Result<Asked<'a>, BadWords>
    ensures { IsReadBehind name.now (rows_of (found_of found.now)) result }
{
    let Some(path) = found.get_str("ROSTER") else {
        return Err(BadWords::NoMemory);
    };
    if name == "serve" {
        read_serve(path, found)
    } else if name == "replay" {
        read_replay(path, found)
    } else if name == "check" {
        read_check(path, found)
    } else if name == "compact" {
        read_compact(path, found)
    } else {
        Err(BadWords::NoMemory)
    }
}

/// What the words ask for, each field by the option of its name. Where clap finds a fault in them by the program's rules, as an option that
/// is unknown or a number out of its range, a text that says so is to be printed; and `BadValue` names an option of `serve` only where its
/// value is none that it can have, `record`, where it stands beside `--closing`, or `workers`, where there is one for two sockets. Want of memory is told as such, and never as a text
/// to print.
pub fn read_words<'a>(alloc: Global, words: &'a [String]) -> Result<Asked<'a>, BadWords>
    ensures told { IfErr result IsTold }
    ensures refused { IfErr result (IsRefusal (map string_bytes words.now)) }
    ensures doable { IfOk result IsDoable }
    ensures asked { IfOk result (IsAsked (map string_bytes words.now)) }
{
    let matches = commands(alloc)?.try_get_matches_from(words)?;
    match matches.subcommand() {
        Some((name, found)) => read_command(name, found),
        None => Err(BadWords::NoMemory),
    }
}
