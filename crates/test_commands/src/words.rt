//! What words ask for.

use ns_commands::refused;
use ns_log::Discard;
use ns_output::Output;
use ns_serve_parts::ServeOptions;
use ns_words::{Asked, BadWords, OptionName, read_words};
use std::alloc::{AllocError, Global};
use std::net::SocketAddr;
use std::process::ExitCode;

// Whether the options are those that stand where no word names them.
fn are_usual(options: &ServeOptions<'_>) -> bool {
    options.join == SocketAddr::from(([127, 0, 0, 1], 8080))
        && options.host.as_str() == "localhost"
        && options.listen.is_none()
        && options.forwarders.is_none()
        && options.power == 14
        && options.status.is_none()
        && options.workers == 4
        && options.join_workers == 4
        && options.window_ms == 200
        && options.stop_after.is_none()
        && !options.stop_at_end
        && options.trim == Some(5_000)
        && options.output == Output::Lines
        && !options.events
        && !options.closing
}

// Whether each option's value went into the field of its name, and no other.
fn each_option_is_its_field(options: &ServeOptions<'_>) -> bool {
    options.join == SocketAddr::from(([127, 0, 0, 3], 8081))
        && options.host.as_str() == "js"
        && options.listen == Some(SocketAddr::from(([127, 0, 0, 2], 1711)))
        && options.forwarders == Some(SocketAddr::from(([127, 0, 0, 4], 1712)))
        && options.power == 9
        && options.status == Some(SocketAddr::from(([127, 0, 0, 5], 1713)))
        && options.workers == 3
        && options.join_workers == 5
        && options.window_ms == 77
        && options.stop_after == Some(11)
        && options.stop_at_end
        && options.trim == Some(13)
        && options.output == Output::Json
        && options.events
        && options.closing
}

// One word more.
fn put_word(words: &mut Vec<String>, alloc: Global, word: &str) -> Result<(), AllocError> {
    words.push(String::from_str(alloc, word)?)?;
    Ok(())
}

/// The words of a text, with one space between them, and further ones.
pub(crate) fn words_of(
    alloc: Global,
    text: &str,
    further: &[&str],
) -> Result<Vec<String>, AllocError> {
    let mut words = Vec::new(alloc);
    for word in text.split(" ") {
        put_word(&mut words, alloc, word)?;
    }
    for word in further {
        put_word(&mut words, alloc, word)?;
    }
    Ok(words)
}

// What some words ask for: R to replay, J to replay with uplinks as JSON, C to replay with the closing roster, H to check
// a roster, I with a record, K to compact, U to serve with
// the usual options, D to serve with the closing roster, S to serve with others, O to serve with an own value of each option, T a text that
// was asked for; V is a value that an option cannot have, E another error.
fn asked(rt: &HostRuntime, words: &[String]) -> char {
    match read_words(rt.alloc(), words) {
        Ok(Asked::Replay("roster.json", Output::Lines, false)) => 'R',
        Ok(Asked::Replay("roster.json", Output::Json, false)) => 'J',
        Ok(Asked::Replay("roster.json", Output::Lines, true)) => 'C',
        Ok(Asked::Check("roster.json", None)) => 'H',
        Ok(Asked::Check("roster.json", Some("dir"))) => 'I',
        Ok(Asked::Compact("roster.json", "dir")) => 'K',
        Ok(Asked::Serve(path, options, _)) => letter_of_serving(path, &options),
        Ok(_) => '?',
        Err(bad) => letter(rt, &bad),
    }
}

fn letter_of_serving(path: &str, options: &ServeOptions<'_>) -> char {
    match path {
        "roster.json" if are_usual(options) => 'U',
        "roster.json" if options.closing => 'D',
        "roster.json" => 'S',
        "r.json" if each_option_is_its_field(options) => 'O',
        _ => '?',
    }
}

// The letter where nothing is to be done, if the exit status is that of it.
fn letter(rt: &HostRuntime, bad: &BadWords) -> char {
    let (letter, status) = match bad {
        BadWords::Shown(error) if error.use_stderr() => ('E', 2u8),
        BadWords::Shown(_) => ('T', 0),
        BadWords::BadValue(_) => ('V', 2),
        _ => return '?',
    };
    if refused(rt, &Discard, bad) == ExitCode::from(status) {
        letter
    } else {
        '!'
    }
}

// What the words of a text and further ones ask for.
fn asked_by(rt: &HostRuntime, text: &str, further: &[&str]) -> char {
    match words_of(rt.alloc(), text, further) {
        Ok(words) => asked(rt, words.as_slice()),
        Err(_) => '?',
    }
}

// Command lines, and what they ask for.
const LINES: &[(&str, char)] = &[
    ("lorawan_ns replay roster.json", 'R'),
    ("lorawan_ns replay roster.json --closing", 'C'),
    ("lorawan_ns replay roster.json --output lines", 'R'),
    ("lorawan_ns replay roster.json --output json", 'J'),
    ("lorawan_ns replay roster.json --output JSON", 'V'),
    ("lorawan_ns replay roster.json --output ", 'V'),
    ("lorawan_ns check roster.json", 'H'),
    ("lorawan_ns check roster.json --record dir", 'I'),
    ("lorawan_ns check", 'E'),
    ("lorawan_ns check roster.json dir", 'E'),
    ("lorawan_ns check roster.json --closing", 'E'),
    ("lorawan_ns compact roster.json dir", 'K'),
    ("lorawan_ns compact roster.json", 'E'),
    ("lorawan_ns --help", 'T'),
    ("lorawan_ns replay --help", 'T'),
    ("lorawan_ns --version", 'T'),
    ("lorawan_ns", 'E'),
    ("lorawan_ns replay", 'E'),
    ("lorawan_ns replay roster.json more", 'E'),
    ("lorawan_ns serve roster.json", 'E'),
    (
        "lorawan_ns serve roster.json --join 127.0.0.1:8080 --closing",
        'D',
    ),
    // Each of two sockets needs a worker of its own.
    (
        "lorawan_ns serve roster.json --join 127.0.0.1:8080 --listen 127.0.0.1:1701 --forwarders 127.0.0.1:1700 --workers 1",
        'V',
    ),
    (
        "lorawan_ns serve roster.json --join 127.0.0.1:8080 --listen 127.0.0.1:1701 --forwarders 127.0.0.1:1700 --workers 2",
        'S',
    ),
    (
        "lorawan_ns serve roster.json --join 127.0.0.1:8080 --forwarders 127.0.0.1:1700 --workers 1",
        'S',
    ),
    // Each option's value goes into the field of its name, and no other.
    (
        "lorawan_ns serve r.json --join 127.0.0.3:8081 --host js --listen 127.0.0.2:1711 --forwarders 127.0.0.4:1712 --power 9 --status 127.0.0.5:1713 --workers 3 --join-workers 5 --window 77 --stop-after 11 --stop-at-end-of-input --trim 13 --output json --events --closing",
        'O',
    ),
];

#[test]
fn words_of_the_command_line(rt: HostRuntime) {
    for &(text, wanted) in LINES {
        assert!(rt; asked_by(&rt, text, &[]) == wanted, "{text}");
    }
}

// Options of `serve` with a value, and what is asked for with them.
const SERVING: &[(&str, &str, char)] = &[
    ("--host", "localhost", 'U'),
    ("--host", "js.local", 'S'),
    ("--host", "a b", 'V'),
    ("--listen", "127.0.0.1:1701", 'S'),
    ("--listen", "localhost", 'V'),
    ("--forwarders", "127.0.0.1:1700", 'S'),
    ("--forwarders", "localhost", 'V'),
    ("--power", "27", 'S'),
    ("--power", "14", 'U'),
    ("--power", "0", 'E'),
    ("--power", "28", 'E'),
    ("--workers", "16", 'S'),
    ("--workers", "0", 'E'),
    ("--workers", "17", 'E'),
    ("--join-workers", "16", 'S'),
    ("--join-workers", "17", 'E'),
    ("--window", "60000", 'S'),
    ("--window", "60001", 'E'),
    ("--stop-after", "4294967295", 'S'),
    ("--stop-after", "4294967296", 'E'),
    ("--trim", "1", 'S'),
    ("--trim", "4294967295", 'S'),
    ("--trim", "5000", 'U'),
    ("--trim", "never", 'S'),
    ("--trim", "0", 'V'),
    ("--trim", "4294967296", 'V'),
    ("--trim", "Never", 'V'),
    ("--output", "lines", 'U'),
    ("--output", "json", 'S'),
    ("--output", "xml", 'V'),
];

#[test]
fn words_of_serving(rt: HostRuntime) {
    let text = "lorawan_ns serve roster.json --join 127.0.0.1:8080";
    for &(name, value, wanted) in SERVING {
        assert!(rt;
            asked_by(&rt, text, &[name, value]) == wanted,
            "{name} {value}"
        );
    }
}

// What is said of an option whose value it cannot have.
const TAKES: &[(OptionName, &str)] = &[
    (OptionName::Join, "IP address and a port"),
    (OptionName::Join, "no name"),
    (OptionName::Join, "no http://"),
    (OptionName::Listen, "IP address and a port"),
    (OptionName::Host, "name"),
    (OptionName::Trim, "never"),
    (OptionName::Output, "json"),
    (OptionName::StopAfter, "1 to 4294967295"),
    (OptionName::Workers, "1 to 16"),
    (OptionName::Window, "1 to 60000"),
];

#[test]
fn options_say_what_they_take(rt: HostRuntime) {
    for (name, wanted) in TAKES {
        assert!(rt; name.takes().contains(*wanted), "{wanted}");
    }
}

const NAMES: &[OptionName] = &[
    OptionName::Join,
    OptionName::Host,
    OptionName::Listen,
    OptionName::Forwarders,
    OptionName::Power,
    OptionName::Status,
    OptionName::Workers,
    OptionName::JoinWorkers,
    OptionName::Window,
    OptionName::StopAfter,
    OptionName::Trim,
    OptionName::Record,
    OptionName::Output,
];

// Whether an option is printed by its name, which a contract gives `as_str`.
fn is_printed(alloc: Global, name: &OptionName) -> bool {
    match format!(in alloc; "{name}") {
        Ok(text) => text.as_str() == name.as_str(),
        Err(_) => false,
    }
}

#[test]
fn options_are_printed_by_their_names(rt: HostRuntime) {
    for name in NAMES {
        assert!(rt; is_printed(rt.alloc(), name));
    }
}

// The text that some words ask for.
fn text_by(alloc: Global, words: &[String]) -> Option<String> {
    match read_words(alloc, words) {
        Err(BadWords::Shown(error)) => format!(in alloc; "{error}").ok(),
        _ => None,
    }
}

// Whether the text that a word asks for has this in it.
fn says(alloc: Global, word: &str, wanted: &str) -> Option<bool> {
    let words = words_of(alloc, "lorawan_ns", &[word]).ok()?;
    let text = text_by(alloc, words.as_slice())?;
    Some(text.as_str().contains(wanted))
}

// What `--help` and `--version` print.
const SHOWN: &[(&str, &str)] = &[
    ("--help", "Standard input"),
    ("--help", "Standard output"),
    ("--help", "Status"),
    ("--help", "docs/FORMATS.md"),
    ("--help", "log lines"),
    ("--help", "RUST_LOG"),
    ("--version", "lorawan_ns 0.1.0 (commit "),
];

#[test]
fn help_names_streams_and_statuses(rt: HostRuntime) {
    for &(word, wanted) in SHOWN {
        assert!(rt;
            says(rt.alloc(), word, wanted) == Some(true),
            "{word} {wanted}"
        );
    }
}

// What the help of each command says, and what it does not, since it is of another command.
const HELPS: &[(&str, &str, bool)] = &[
    ("replay", "Example: lorawan_ns replay roster.json", true),
    ("replay", "RUST_LOG", true),
    ("replay", "--stop-at-end-of-input", false),
    ("replay", "compact", false),
    (
        "check",
        "Example: lorawan_ns check roster.json --record",
        true,
    ),
    ("check", "RUST_LOG", true),
    ("check", "step lines (replay)", false),
    ("compact", "Example: lorawan_ns compact roster.json", true),
    ("compact", "RUST_LOG", true),
    ("compact", "--closing", false),
    (
        "serve",
        "Example: lorawan_ns serve roster.json --join",
        true,
    ),
    ("serve", "RUST_LOG", true),
    ("serve", "compact", false),
    ("serve", "answer lines", false),
];

// Whether the help of a command has this in it.
fn help_says(alloc: Global, command: &str, wanted: &str) -> Option<bool> {
    let words = words_of(alloc, "lorawan_ns", &[command, "--help"]).ok()?;
    let text = text_by(alloc, words.as_slice())?;
    Some(text.as_str().contains(wanted))
}

#[test]
fn help_is_of_its_command(rt: HostRuntime) {
    for &(command, wanted, there) in HELPS {
        assert!(rt;
            help_says(rt.alloc(), command, wanted) == Some(there),
            "{command} {wanted}"
        );
    }
}
