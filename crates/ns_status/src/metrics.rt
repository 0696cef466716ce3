//! The counts, in the text format of Prometheus (version 0.0.4).

ghost use Rattle.std.specs.Prelude.{◌≡◌, ◌++◌, ◌≤◌, codes, length, map, string_bytes, IfOk, OnOk};
ghost use Rattle.ns_roster.specs.Field.{hex_number};
ghost use Rattle.ns_status.specs.Metrics.{line_text, family_text, labelled_text, named_texts, single_text, singles_text, seconds_text, timed_text, histogram_text, by_gateway_text, gateway_name, timed_by_gateway_text, single, named, named_family, numbered_family, kind_word, datagram_texts, join_texts, open_texts, known_texts, metrics_text};

use crate::parts::put_parts;
use itoa::Buffer;
use ns_roster::field::eui_text;
use ns_types::GatewayId;
use std::alloc::{AllocError, Global};

/// The version of the program.
pub const VERSION: &str = "0.1.0";

/// What is counted, but for refusals, replies and entries.
#[derive(Clone, Copy)]
pub struct Totals {
    /// When the server began, in seconds since 1970.
    pub start_seconds: u64,
    /// Datagrams that came.
    pub read: u64,
    /// Datagrams that the system dropped before the server read them.
    pub lost: u64,
    /// Datagrams for whose calls there was no memory.
    pub dropped: u64,
    /// Late copies, for which no call was made.
    pub late: u64,
    /// Receives that failed.
    pub unreceived: u64,
    /// Joins without an answer that can be used.
    pub unanswered: u64,
    /// Join-Requests whose tickets were too old to ask the join server for.
    pub stale: u64,
    /// Downlinks that were not sent.
    pub unsent: u64,
    /// Lines that standard output did not take.
    pub unwritten: u64,
    /// Windows that are open.
    pub windows: u64,
    /// Tickets that are open.
    pub tickets: u64,
    /// Devices of the roster.
    pub devices: u64,
    /// Devices whose session is known.
    pub sessions: u64,
    /// Gateways that are known.
    pub gateways: u64,
}

/// What is counted by names or by shards: each refusal and each reply with its name, and the entries of each shard that were made.
#[derive(Clone, Copy)]
pub struct Lists<'a> {
    pub refusals: &'a [(&'static str, u64)],
    pub replies: &'a [(&'static str, u64)],
    pub entries: &'a [u64],
}

/// What a number is.
#[derive(Clone, Copy)]
pub enum Kind {
    Counter,
    Gauge,
    Histogram,
}

/// The name of a metric, its help text, and what its number is.
#[derive(Clone, Copy)]
pub struct Family {
    pub name: &'static str,
    pub help: &'static str,
    pub kind: Kind,
}

/// A histogram: the name of the metric, and those of its buckets, its sum and its count, and its help text.
#[derive(Clone, Copy)]
pub struct Histogram {
    pub name: &'static str,
    pub bucket: &'static str,
    pub sum: &'static str,
    pub count: &'static str,
    pub help: &'static str,
}

/// How long something took, by how often: the times of at most each bound, all of them in milliseconds together, and their number.
#[derive(Clone, Copy)]
pub struct Times<'a> {
    /// Each bound in seconds, as it is written, with how many times are at most as long; the last bound is `+Inf`.
    pub within: &'a [(&'static str, u64)],
    pub sum_ms: u64,
    pub count: u64,
}

impl Kind {
    fn word(self) -> &'static str
        ensures { result.now ≡ kind_word self }
    {
        match self {
            Kind::Counter => "counter",
            Kind::Gauge => "gauge",
            Kind::Histogram => "histogram",
        }
    }
}

// The names with one sample each: the name, its help text, and what the number is.
const SINGLES: [(&str, &str, Kind); 15] = [
    (
        "process_start_time_seconds",
        "When the server began, since 1970.",
        Kind::Gauge,
    ),
    (
        "lorawan_open_windows",
        "Windows that are open: uplinks whose copies are waited for.",
        Kind::Gauge,
    ),
    (
        "lorawan_open_tickets",
        "Tickets that are open: Join-Requests that wait for the join server.",
        Kind::Gauge,
    ),
    ("lorawan_devices", "Devices of the roster.", Kind::Gauge),
    (
        "lorawan_sessions",
        "Devices whose session is known.",
        Kind::Gauge,
    ),
    ("lorawan_gateways", "Gateways that are known.", Kind::Gauge),
    (
        "lorawan_datagrams_total",
        "Datagrams of frames that came.",
        Kind::Counter,
    ),
    (
        "lorawan_lost_datagrams_total",
        "Datagrams that the system dropped since a socket's buffer was full.",
        Kind::Counter,
    ),
    (
        "lorawan_dropped_datagrams_total",
        "Datagrams for which there was no memory.",
        Kind::Counter,
    ),
    (
        "lorawan_late_datagrams_total",
        "Late copies, for which no call was made.",
        Kind::Counter,
    ),
    (
        "lorawan_failed_receives_total",
        "Receives that failed.",
        Kind::Counter,
    ),
    (
        "lorawan_unanswered_joins_total",
        "Joins without an answer that can be used.",
        Kind::Counter,
    ),
    (
        "lorawan_stale_tickets_total",
        "Join-Requests that were too old to ask the join server for.",
        Kind::Counter,
    ),
    (
        "lorawan_unsent_downlinks_total",
        "Downlinks that were not sent.",
        Kind::Counter,
    ),
    (
        "lorawan_unwritten_lines_total",
        "Lines that standard output did not take.",
        Kind::Counter,
    ),
];

// Refusals by their faults, and replies by their kinds.
const REFUSALS: Family = Family {
    name: "lorawan_refusals_total",
    help: "Datagrams that were refused, by fault.",
    kind: Kind::Counter,
};

const REPLIES: Family = Family {
    name: "lorawan_replies_total",
    help: "Replies, by kind.",
    kind: Kind::Counter,
};

// Puts a line: a word, a name, and what is said of it.
fn put_line(text: &mut String, front: &str, name: &str, said: &str) -> Result<(), AllocError>
    ensures { OnOk result (string_bytes text.new ≡ string_bytes text.old ++ line_text front.now name.now said.now) }
{
    put_parts(text, &[front, name, " ", said, "\n"])
}

// Puts what stands before the samples of a name.
fn put_family(text: &mut String, name: &str, help: &str, kind: Kind) -> Result<(), AllocError>
    ensures { OnOk result (string_bytes text.new ≡ string_bytes text.old ++ family_text name.now help.now kind) }
{
    put_line(text, "# HELP ", name, help)?;
    put_line(text, "# TYPE ", name, kind.word())
}

// Puts a name with one sample.
fn put_single(
    text: &mut String,
    name: &str,
    help: &str,
    kind: Kind,
    value: u64,
) -> Result<(), AllocError>
    ensures { OnOk result (string_bytes text.new ≡ string_bytes text.old ++ single_text name.now help.now kind value) }
{
    put_family(text, name, help, kind)?;
    put_line(text, "", name, Buffer::new().format(value))
}

// Puts names with one sample each.
fn put_singles(
    text: &mut String,
    singles: &[(&'static str, &'static str, Kind)],
    values: &[u64],
) -> Result<(), AllocError>
    requires { length singles.now ≤ length values.now }
    ensures { OnOk result (string_bytes text.new ≡ string_bytes text.old ++ singles_text (map single singles.now) values.now) }
{
    for (place, single) in singles.iter().enumerate() {
        put_single(text, single.0, single.1, single.2, values[place])?;
    }
    Ok(())
}

// Puts what is counted by one number each.
fn put_totals(text: &mut String, totals: &Totals) -> Result<(), AllocError>
    ensures { OnOk result (string_bytes text.new ≡ string_bytes text.old
        ++ (open_texts totals.now ++ known_texts totals.now ++ datagram_texts totals.now ++ join_texts totals.now)) }
{
    let values = [
        totals.start_seconds,
        totals.windows,
        totals.tickets,
        totals.devices,
        totals.sessions,
        totals.gateways,
        totals.read,
        totals.lost,
        totals.dropped,
        totals.late,
        totals.unreceived,
        totals.unanswered,
        totals.stale,
        totals.unsent,
        totals.unwritten,
    ];
    put_singles(text, &SINGLES, &values)
}

// Puts a sample with a label.
fn put_labelled<'a>(
    text: &mut String,
    name: &'a str,
    label: &'a str,
    of: &'a str,
    value: u64,
) -> Result<(), AllocError>
    ensures { OnOk result (string_bytes text.new ≡ string_bytes text.old ++ labelled_text name.now label.now of.now value) }
{
    let mut digits = Buffer::new();
    put_parts(
        text,
        &[
            name,
            "{",
            label,
            "=\"",
            of,
            "\"} ",
            digits.format(value),
            "\n",
        ],
    )
}

// Puts samples with their names.
fn put_samples(
    text: &mut String,
    name: &str,
    label: &str,
    samples: &[(&'static str, u64)],
) -> Result<(), AllocError>
    ensures { OnOk result (string_bytes text.new ≡ string_bytes text.old ++ named_texts name.now label.now (map named samples.now)) }
{
    for sample in samples {
        put_labelled(text, name, label, sample.0, sample.1)?;
    }
    Ok(())
}

/// Puts a metric with a sample for each name of this label.
pub fn put_named(
    text: &mut String,
    family: Family,
    label: &str,
    samples: &[(&'static str, u64)],
) -> Result<(), AllocError>
    ensures { OnOk result (string_bytes text.new ≡ string_bytes text.old
        ++ named_family family.name.now family.help.now family.kind label.now (map named samples.now)) }
{
    put_family(text, family.name, family.help, family.kind)?;
    put_samples(text, family.name, label, samples)
}

/// Puts a metric with one sample.
pub fn put_one(text: &mut String, family: Family, value: u64) -> Result<(), AllocError>
    ensures { OnOk result (string_bytes text.new ≡ string_bytes text.old ++ single_text family.name.now family.help.now family.kind value) }
{
    put_single(text, family.name, family.help, family.kind, value)
}

// Puts a line of a name with a number of milliseconds, as seconds with three places.
fn put_seconds(text: &mut String, name: &str, ms: u64) -> Result<(), AllocError>
    ensures { OnOk result (string_bytes text.new ≡ string_bytes text.old ++ seconds_text name.now ms) }
{
    let (mut whole, mut tenths) = (Buffer::new(), Buffer::new());
    let (mut hundredths, mut thousandths) = (Buffer::new(), Buffer::new());
    put_parts(
        text,
        &[
            name,
            " ",
            whole.format(ms / 1000),
            ".",
            tenths.format(ms / 100 % 10),
            hundredths.format(ms / 10 % 10),
            thousandths.format(ms % 10),
            "\n",
        ],
    )
}

/// Puts a metric with one sample, a number of milliseconds, as seconds.
pub fn put_timed(text: &mut String, family: Family, ms: u64) -> Result<(), AllocError>
    ensures { OnOk result (string_bytes text.new ≡ string_bytes text.old ++ timed_text family.name.now family.help.now family.kind ms) }
{
    put_family(text, family.name, family.help, family.kind)?;
    put_seconds(text, family.name, ms)
}

/// Puts a histogram of times in seconds.
pub fn put_histogram(text: &mut String, of: Histogram, times: Times<'_>) -> Result<(), AllocError>
    ensures { OnOk result (string_bytes text.new ≡ string_bytes text.old
        ++ histogram_text of (map named times.entry.within.now) times.entry.sum_ms times.entry.count) }
{
    put_family(text, of.name, of.help, Kind::Histogram)?;
    put_samples(text, of.bucket, "le", times.within)?;
    put_seconds(text, of.sum, times.sum_ms)?;
    put_line(text, "", of.count, Buffer::new().format(times.count))
}

// Puts a sample of a gateway.
fn put_gateway(
    alloc: Global,
    text: &mut String,
    name: &str,
    gateway: GatewayId,
    value: u64,
) -> Result<(), AllocError>
    ensures { OnOk result (string_bytes text.new ≡ string_bytes text.old ++ labelled_text name.now (codes "gateway") (hex_number 8 gateway.0) value) }
{
    let eui = eui_text(alloc, gateway.0)?;
    put_labelled(text, name, "gateway", eui.as_str(), value)
}

/// Puts a metric with a sample for each of these gateways.
pub fn put_by_gateway(
    alloc: Global,
    text: &mut String,
    family: Family,
    samples: &[(GatewayId, u64)],
) -> Result<(), AllocError>
    ensures { OnOk result (string_bytes text.new ≡ string_bytes text.old
        ++ by_gateway_text family.name.now family.help.now family.kind samples.now) }
{
    put_family(text, family.name, family.help, family.kind)?;
    for sample in samples {
        put_gateway(alloc, text, family.name, sample.0, sample.1)?;
    }
    Ok(())
}

// Puts a name, and a sample for each place.
fn put_numbered(
    text: &mut String,
    name: &str,
    help: &str,
    label: &str,
    values: &[u64],
) -> Result<(), AllocError>
    ensures { OnOk result (string_bytes text.new ≡ string_bytes text.old ++ numbered_family name.now help.now label.now values.now) }
{
    put_family(text, name, help, Kind::Counter)?;
    for (place, value) in values.iter().enumerate() {
        put_labelled(text, name, label, Buffer::new().format(place), *value)?;
    }
    Ok(())
}

// The name of a metric with the label of a gateway.
fn name_of(alloc: Global, name: &str, gateway: GatewayId) -> Result<String, AllocError>
    ensures { IfOk result (λ s. string_bytes s ≡ gateway_name name.now gateway) }
{
    let eui = eui_text(alloc, gateway.0)?;
    let mut text = String::from_str(alloc, name)?;
    put_parts(&mut text, &["{gateway=\"", eui.as_str(), "\"}"])?;
    Ok(text)
}

// Puts a sample of a gateway, a number of milliseconds, as seconds.
fn put_gateway_seconds(
    alloc: Global,
    text: &mut String,
    name: &str,
    gateway: GatewayId,
    ms: u64,
) -> Result<(), AllocError>
    ensures { OnOk result (string_bytes text.new ≡ string_bytes text.old ++ seconds_text (gateway_name name.now gateway) ms) }
{
    let name = name_of(alloc, name, gateway)?;
    put_seconds(text, name.as_str(), ms)
}

/// Puts a metric with a number of milliseconds for each of these gateways, as seconds.
pub fn put_timed_by_gateway(
    alloc: Global,
    text: &mut String,
    family: Family,
    samples: &[(GatewayId, u64)],
) -> Result<(), AllocError>
    ensures { OnOk result (string_bytes text.new ≡ string_bytes text.old
        ++ timed_by_gateway_text family.name.now family.help.now family.kind samples.now) }
{
    put_family(text, family.name, family.help, family.kind)?;
    for sample in samples {
        put_gateway_seconds(alloc, text, family.name, sample.0, sample.1)?;
    }
    Ok(())
}

/// Puts the counts.
pub fn put_metrics(text: &mut String, totals: &Totals, lists: Lists<'_>) -> Result<(), AllocError>
    ensures { OnOk result (string_bytes text.new ≡ string_bytes text.old
        ++ metrics_text totals.now (map named lists.entry.refusals.now) (map named lists.entry.replies.now) lists.entry.entries.now) }
{
    put_totals(text, totals)?;
    put_named(text, REFUSALS, "fault", lists.refusals)?;
    put_named(text, REPLIES, "reply", lists.replies)?;
    put_numbered(
        text,
        "lorawan_entries_total",
        "Entries that were made, by shard.",
        "shard",
        lists.entries,
    )
}
