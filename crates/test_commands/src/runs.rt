//! What runs write to standard output, and what the program's runtime hands on.

use crate::stand_in::{LIMIT, SINCE_1970, SINCE_START, StandIn};
use ns_commands::{Logging, Timed, VARIABLE, open_record, run_replay};
use ns_device::worked::{ANSWER, CLOSE, JOIN, JOIN_2, ROSTER, UPLINK, UPLINK_2};
use ns_log::{Discard, Log, debug, error, info, warn};
use ns_output::Output;
use ns_upkeep::{check, compact};
use std::alloc::AllocError;
use std::fs::File;
use std::io::ErrorKind;
use std::net::{Net, SocketAddr};
use std::rt::Files;
use std::time::{Clock, Duration};
use std::{fs, io};

// A join and an uplink, each with a copy. What follows is what `tools/model.py` says of them.
const STEPS: &[&str] = &[JOIN, JOIN_2, ANSWER, UPLINK, UPLINK_2, CLOSE];

const ANSWERS: &str = r#"ask 0004030201040302010d00000000000000010001000000
joincopied 2
accepted 000000000000000d 1 49be7df1
down 00000000000000a2 6001000 868100000 5 20000102030405060708090a0b0c0d0e0f
opened 000000000000000d 1 2
copied 000000000000000d 1 2 2
closed 000000000000000d 1 2 -
"#;

const LINE: &str =
    "up 000000000000000d 1 2 1 plain - 74657374 2 00000000000000a1,00000000000000a2\n";

const OBJECT: &str =
    r#"{"devEui":"000000000000000d","devAddr":"49be7df1","session":1,"fCnt":2,"fPort":1,"confirmed":false,"adr":false,"adrAckReq":false,"ack":false,"classB":false,"fOpts":"","sealed":false,"payload":"74657374","data":"dGVzdA==","rxInfo":[{"gatewayId":"00000000000000a1","moment":1000000,"frequency":868100000,"dr":5,"spreadingFactor":7,"bandwidth":125000,"rssi":-95.0,"snr":7.5},{"gatewayId":"00000000000000a2","moment":1001000,"frequency":868100000,"dr":5,"spreadingFactor":7,"bandwidth":125000,"rssi":-100.0,"snr":8.0}]}
"#;

const CLOSING: &str =
    r#"{"devices":[{"dev_eui":"000000000000000d","join_eui":"0102030401020304","last_nonce":1,"slot":1998321}],"net_id":"000024","rx1_offset":0,"rx_delay":1,"version":2}
"#;

// Uplinks as lines or as objects, whether the closing roster is asked for, and what `replay` writes behind the answers.
const REPLAYS: [(Output, bool, &str, &str); 3] = [
    (Output::Lines, false, LINE, ""),
    (Output::Json, false, OBJECT, ""),
    (Output::Lines, true, LINE, CLOSING),
];

// Makes a file of the roster, and replays what comes on standard input by it. Whether that was done.
fn is_replayed<R: Files + AllocGlobal + Input + Print>(
    rt: &R,
    uplinks: Output,
    closing: bool,
) -> io::Result<bool> {
    let path = "test_commands_closing.json";
    fs::write(rt, path, ROSTER.as_bytes())?;
    let outcome = run_replay(rt, &Discard, path, uplinks, closing);
    fs::remove_file(rt, path)?;
    Ok(outcome.is_ok())
}

// Whether `replay` writes the answers to the steps and then these texts.
fn writes(
    rt: HostRuntime,
    steps: &[u8],
    row: (Output, bool, &str, &str),
) -> Result<bool, AllocError> {
    let (uplinks, closing, up, last) = row;
    let stand_in = StandIn::new(rt, steps);
    let is_done = matches!(is_replayed(&stand_in, uplinks, closing), Ok(true));
    let wanted = [ANSWERS, up, last].concat(rt.alloc())?;
    Ok(is_done && stand_in.has_printed(wanted.as_str()))
}

// The row by which `replay` writes otherwise, if one is.
fn other_row(rt: HostRuntime) -> Result<Option<&'static str>, AllocError> {
    let steps = STEPS.concat(rt.alloc())?;
    for row in REPLAYS {
        if !writes(rt, steps.as_bytes(), row)? {
            return Ok(Some(row.2));
        }
    }
    Ok(None)
}

// What `replay` writes: uplinks as lines or as objects, and the closing roster only where it is asked for.
#[test]
fn closing_rosters(rt: HostRuntime) {
    assert!(rt; matches!(other_row(rt), Ok(None)));
}

// Makes the folder of a record, with the steps, no `up` lines, and the roster beside them.
fn make<R: Files + AllocGlobal>(rt: &R, folder: &str) -> io::Result<()> {
    let _ = fs::remove_dir_all(rt, folder);
    fs::create_dir(rt, folder)?;
    let steps = STEPS.concat(rt.alloc())?;
    fs::write(rt, "test_commands_compact/steps", steps.as_bytes())?;
    fs::write(rt, "test_commands_compact/up", b"")?;
    fs::write(rt, "test_commands_compact/roster.json", ROSTER.as_bytes())
}

// Makes a record, and makes it shorter. Whether that was done.
fn is_compacted<R: Files<File = File> + AllocGlobal + Print>(rt: &R) -> io::Result<bool> {
    let folder = "test_commands_compact";
    make(rt, folder)?;
    let outcome = compact(rt, &Discard, "test_commands_compact/roster.json", folder);
    fs::remove_dir_all(rt, folder)?;
    Ok(outcome.is_ok())
}

// What `compact` prints of these six lines: a checkpoint has a line for the device, one for each shard, the first and the last.
#[test]
fn lines_before_and_after(rt: HostRuntime) {
    let stand_in = StandIn::new(rt, b"");
    assert!(rt; matches!(is_compacted(&stand_in), Ok(true)));
    assert!(rt; stand_in.has_printed("compacted 6 19\n"));
}

// The roster with another slot, to which no address of the record belongs.
const MOVED: &str =
    r#"{"version":1,"net_id":"000024","rx1_offset":0,"rx_delay":1,"devices":[{"dev_eui":"000000000000000d","join_eui":"0102030401020304","slot":1998322}]}"#;

// Whether this file has these bytes.
fn has_bytes<R: Files + AllocGlobal>(rt: &R, path: &str, wanted: &[u8]) -> io::Result<bool> {
    Ok(fs::read(rt, path)?.as_slice() == wanted)
}

// Whether a record that a server has fits its roster, and not another one, a folder that is missing is refused, and no file has changed.
fn is_checked<R: Files<File = File> + AllocGlobal>(rt: &R) -> io::Result<bool> {
    let folder = "test_commands_check";
    let _ = fs::remove_dir_all(rt, folder);
    fs::create_dir(rt, folder)?;
    let steps = STEPS.concat(rt.alloc())?;
    fs::write(rt, "test_commands_check/steps", steps.as_bytes())?;
    fs::write(rt, "test_commands_check/roster.json", ROSTER.as_bytes())?;
    fs::write(rt, "test_commands_check/moved.json", MOVED.as_bytes())?;
    let is_made = fs::exists(rt, "test_commands_check/up")?;
    let fits = check(
        rt,
        &Discard,
        "test_commands_check/roster.json",
        Some(folder),
    )
    .is_ok();
    let is_made_by_check = fs::exists(rt, "test_commands_check/up")?;
    fs::write(rt, "test_commands_check/up", LINE.as_bytes())?;
    let held = open_record(rt, &Discard, folder, false);
    let fits_too = check(
        rt,
        &Discard,
        "test_commands_check/roster.json",
        Some(folder),
    )
    .is_ok();
    let moves = check(rt, &Discard, "test_commands_check/moved.json", Some(folder)).is_ok();
    let alone = check(rt, &Discard, "test_commands_check/moved.json", None).is_ok();
    let gone = check(
        rt,
        &Discard,
        "test_commands_check/roster.json",
        Some("test_commands_check/gone"),
    )
    .is_ok();
    let same = has_bytes(rt, "test_commands_check/steps", steps.as_bytes())?
        && has_bytes(rt, "test_commands_check/up", LINE.as_bytes())?;
    fs::remove_dir_all(rt, folder)?;
    let is_left = !is_made && !is_made_by_check && same;
    Ok(fits && held.is_ok() && fits_too && !moves && alone && !gone && is_left)
}

#[test]
fn records_are_checked(rt: HostRuntime) {
    let stand_in = StandIn::new(rt, b"");
    assert!(rt; matches!(is_checked(&stand_in), Ok(true)));
}

// How it was refused, if it was.
fn refusal<T: Drop>(outcome: io::Result<T>) -> Option<ErrorKind> {
    match outcome {
        Ok(_) => None,
        Err(error) => Some(error.kind()),
    }
}

// How the calls of a network are refused.
fn refusals<N: Net>(net: &N) -> [Option<ErrorKind>; 5] {
    let addr = SocketAddr::from(([127, 0, 0, 1], 9));
    [
        refusal(net.bind(addr)),
        refusal(net.connect(addr)),
        refusal(net.connect_timeout(addr, Duration::from_millis(LIMIT))),
        refusal(net.bind_udp(addr)),
        refusal(net.lookup_host("localhost", 9, &mut [addr])),
    ]
}

// Whether a clock tells the times of the stand-in.
fn is_at_the_times<C: Clock>(clock: &C) -> bool {
    clock.monotonic().ok() == Some(Duration::from_millis(SINCE_START))
        && clock.since_1970().ok() == Some(Duration::from_millis(SINCE_1970))
}

// A log line of each level.
fn log_each<L: Log>(log: &L) {
    error!(log; "failed");
    warn!(log; "lost {}", 1);
    info!(log; "heard {}", 2);
    debug!(log; "refused");
}

// These lines as they are written.
const LOGGED: &str = "[2026-11-24T09:30:00.125Z ERROR test_commands::runs] failed
[2026-11-24T09:30:00.125Z WARN  test_commands::runs] lost 1
[2026-11-24T09:30:00.125Z INFO  test_commands::runs] heard 2
[2026-11-24T09:30:00.125Z DEBUG test_commands::runs] refused
";

// The program's runtime hands on each call as it is, and writes log lines behind the time of day; the variable is that of OPERATOR.
#[test]
fn the_wrapper_hands_on(rt: HostRuntime) {
    let stand_in = StandIn::new(rt, b"");
    let logging = Logging::new(&stand_in, Timed(&stand_in));
    assert!(rt; is_at_the_times(&logging));
    let wanted = [
        Some(ErrorKind::AddrInUse),
        Some(ErrorKind::ConnectionRefused),
        Some(ErrorKind::TimedOut),
        Some(ErrorKind::AddrNotAvailable),
        Some(ErrorKind::NotFound),
    ];
    assert!(rt; refusals(&logging) == wanted);
    log_each(&logging);
    assert!(rt; stand_in.has_told(LOGGED));
    assert!(rt; VARIABLE == "RUST_LOG");
}
