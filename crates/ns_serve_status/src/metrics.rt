//! The text of all counts.

use ns_serve_parts::{Times as Counted, value};
use ns_serve_state::{Ages, Process, State, Status, now_ms};
use ns_status::{
    Family, Gateway, Histogram, Kind, Lists, Times, Totals, VERSION, put_by_gateway, put_histogram,
    put_metrics, put_named, put_one, put_timed, put_timed_by_gateway,
};
use ns_types::GatewayId;
use std::alloc::{AllocError, Global};
use std::sync::Wait;
use std::time::Clock;

// Of how many gateways, the ones heard last, there are samples. Their numbers are not authenticated, so anybody could make more.
const MOST_GATEWAYS: usize = 1_000;

// How often a reply was made.
fn count_of(replies: &[(&'static str, u64)], name: &str) -> u64 {
    for reply in replies {
        if reply.0 == name {
            return reply.1;
        }
    }
    0
}

// How many are open: those that these replies opened, without those that the others ended.
fn open_of(replies: &[(&'static str, u64)], opened: &[&str], ended: &[&str]) -> u64 {
    let mut open: u64 = 0;
    for name in opened {
        open = open.saturating_add(count_of(replies, name));
    }
    for name in ended {
        open = open.saturating_sub(count_of(replies, name));
    }
    open
}

// The counts of one number each.
fn totals_of<R: Wait>(
    rt: &R,
    state: &State,
    status: &Status,
    replies: &[(&'static str, u64)],
) -> Totals {
    let counts = &state.counts;
    let (devices, sessions) = status.count_devices(rt);
    Totals {
        start_seconds: status.start_ms() / 1000,
        read: state.read.all(),
        lost: value(&counts.lost),
        dropped: value(&counts.dropped),
        late: value(&counts.late),
        unreceived: value(&counts.unreceived),
        unanswered: value(&counts.unanswered),
        stale: value(&counts.stale),
        unsent: value(&counts.unsent),
        unwritten: value(&counts.unwritten),
        windows: open_of(replies, &["opened", "again"], &["closed"]),
        tickets: open_of(replies, &["ask"], &["accepted", "joinrefused", "joinstale"]),
        devices: devices as u64,
        sessions: sessions as u64,
        gateways: status.count_gateways(rt) as u64,
    }
}

// A metric.
fn family(name: &'static str, help: &'static str, kind: Kind) -> Family {
    Family { name, help, kind }
}

// Puts what is known of the process: its version, and what the system says.
fn put_process(text: &mut String, process: Option<Process>) -> Result<(), AllocError> {
    let info = family(
        "lorawan_build_info",
        "The version of the server.",
        Kind::Gauge,
    );
    put_named(text, info, "version", &[(VERSION, 1)])?;
    let Some(process) = process else {
        return Ok(());
    };
    let cpu = family(
        "process_cpu_seconds_total",
        "Processor time that the server took, in seconds.",
        Kind::Counter,
    );
    put_timed(text, cpu, process.cpu_ms)?;
    let resident = family(
        "process_resident_memory_bytes",
        "Memory that the server holds, in bytes.",
        Kind::Gauge,
    );
    put_one(text, resident, process.resident)?;
    let Some(count) = process.open_files else {
        return Ok(());
    };
    let open = family(
        "process_open_fds",
        "Files that the server has open.",
        Kind::Gauge,
    );
    put_one(text, open, count)
}

// The names of the histograms.
const EXCHANGES: Histogram = Histogram {
    name: "lorawan_join_server_answer_seconds",
    bucket: "lorawan_join_server_answer_seconds_bucket",
    sum: "lorawan_join_server_answer_seconds_sum",
    count: "lorawan_join_server_answer_seconds_count",
    help: "How long exchanges with the join server took, from connecting on.",
};

const CLOSINGS: Histogram = Histogram {
    name: "lorawan_acknowledgement_delay_seconds",
    bucket: "lorawan_acknowledgement_delay_seconds_bucket",
    sum: "lorawan_acknowledgement_delay_seconds_sum",
    count: "lorawan_acknowledgement_delay_seconds_count",
    help: "How long after its end the first of the windows was closed that are closed together, with its acknowledgement sent.",
};

// Puts a histogram.
fn put_times(text: &mut String, of: Histogram, counted: &Counted) -> Result<(), AllocError> {
    let within = counted.within();
    let times = Times {
        within: &within,
        sum_ms: counted.sum_ms(),
        count: within.last().map_or(0, |last| last.1),
    };
    put_histogram(text, of, times)
}

const AGES: Histogram = Histogram {
    name: "lorawan_device_last_heard_age_seconds",
    bucket: "lorawan_device_last_heard_age_seconds_bucket",
    sum: "lorawan_device_last_heard_age_seconds_sum",
    count: "lorawan_device_last_heard_age_seconds_count",
    help: "How long ago devices were last heard, of those that were heard since the server began.",
};

// Puts how long ago devices were last heard.
fn put_ages(text: &mut String, ages: &Ages) -> Result<(), AllocError> {
    let times = Times {
        within: &ages.within,
        sum_ms: ages.sum_ms,
        count: ages.within.last().map_or(0, |last| last.1),
    };
    put_histogram(text, AGES, times)
}

// Puts what was counted of packet forwarders, where they are heard.
fn put_forwarders(text: &mut String, state: &State) -> Result<(), AllocError> {
    let Some((forwarders, _)) = &state.forwarders else {
        return Ok(());
    };
    let counts = forwarders.counts();
    let messages = family(
        "lorawan_forwarder_messages_total",
        "Messages of packet forwarders, by kind.",
        Kind::Counter,
    );
    put_named(text, messages, "kind", &counts.messages())?;
    let acknowledged = family(
        "lorawan_forwarder_acknowledged_messages_total",
        "Messages of packet forwarders that were acknowledged.",
        Kind::Counter,
    );
    put_one(text, acknowledged, value(&counts.acknowledged))?;
    let frames = family(
        "lorawan_forwarder_frames_total",
        "Frames that packet forwarders sent and the server took.",
        Kind::Counter,
    );
    put_one(text, frames, value(&counts.frames))?;
    let refusals = family(
        "lorawan_forwarder_refusals_total",
        "Messages, bodies and frames of packet forwarders that were refused, by fault.",
        Kind::Counter,
    );
    put_named(text, refusals, "fault", &counts.refusals())?;
    let downlinks = family(
        "lorawan_forwarder_downlinks_total",
        "What packet forwarders said of downlinks, by outcome.",
        Kind::Counter,
    );
    put_named(text, downlinks, "outcome", &counts.downlinks())
}

// What is told of each gateway.
#[derive(Clone, Copy)]
enum Told {
    Heard,
    Frames,
    Sent,
    Refused,
    Airtime,
}

// What is told of a gateway, where it is known.
fn told_of(gateway: &Gateway, told: Told, clock_start_ms: u64, now_ms: u64) -> Option<u64> {
    match told {
        Told::Heard => {
            let at_ms = gateway.heard_ms()?;
            Some(clock_start_ms.saturating_add(at_ms) / 1000)
        }
        Told::Frames => Some(gateway.frames),
        Told::Sent => Some(gateway.sent),
        Told::Refused => Some(gateway.refused),
        // In milliseconds.
        Told::Airtime => Some(gateway.airtime.spent(now_ms) / 1000),
    }
}

// The gateways of which there are samples, and the times that these need.
#[derive(Clone, Copy)]
struct Listed<'a> {
    gateways: &'a [(GatewayId, Gateway)],
    clock_start_ms: u64,
    now_ms: u64,
}

// Puts a sample for each gateway.
fn put_told(
    alloc: Global,
    text: &mut String,
    listed: Listed<'_>,
    told: Told,
    family: Family,
) -> Result<(), AllocError> {
    let mut samples = Vec::with_capacity(alloc, listed.gateways.len().min(MOST_GATEWAYS))?;
    for (id, gateway) in listed.gateways.iter().take(MOST_GATEWAYS) {
        if let Some(value) = told_of(gateway, told, listed.clock_start_ms, listed.now_ms) {
            samples.push((*id, value))?;
        }
    }
    if matches!(told, Told::Airtime) {
        put_timed_by_gateway(alloc, text, family, samples.as_slice())
    } else {
        put_by_gateway(alloc, text, family, samples.as_slice())
    }
}

// Puts what is known of the gateways that were heard last.
fn put_gateways(alloc: Global, text: &mut String, listed: Listed<'_>) -> Result<(), AllocError> {
    let heard = family(
        "lorawan_gateway_last_heard_timestamp_seconds",
        "When a gateway was heard last, with a frame or by its forwarder, since 1970.",
        Kind::Gauge,
    );
    put_told(alloc, text, listed, Told::Heard, heard)?;
    let frames = family(
        "lorawan_gateway_frames_total",
        "Frames that a gateway was heard with.",
        Kind::Counter,
    );
    put_told(alloc, text, listed, Told::Frames, frames)?;
    let sent = family(
        "lorawan_gateway_downlinks_total",
        "Downlinks that were sent to a gateway.",
        Kind::Counter,
    );
    put_told(alloc, text, listed, Told::Sent, sent)?;
    let refused = family(
        "lorawan_gateway_refused_downlinks_total",
        "Downlinks that a gateway said it does not send.",
        Kind::Counter,
    );
    put_told(alloc, text, listed, Told::Refused, refused)?;
    let airtime = family(
        "lorawan_gateway_airtime_last_hour_seconds",
        "For how long the downlinks of a gateway in the last hour are on air.",
        Kind::Gauge,
    );
    put_told(alloc, text, listed, Told::Airtime, airtime)
}

/// The text of all counts.
pub(crate) fn metrics_of<R: Wait + Clock>(
    rt: &R,
    alloc: Global,
    state: &State,
    status: &Status,
) -> Result<String, AllocError> {
    let replies = state.made.replies();
    let totals = totals_of(rt, state, status, &replies);
    let lists = Lists {
        refusals: &state.counts.refusals(),
        replies: &replies,
        entries: &state.made.all(),
    };
    let now_ms = now_ms(rt, state);
    let mut text = String::with_capacity(alloc, 16_384)?;
    put_process(&mut text, state.system.process())?;
    put_metrics(&mut text, &totals, lists)?;
    put_ages(&mut text, &status.ages(rt, now_ms))?;
    put_times(&mut text, EXCHANGES, &state.counts.exchanges)?;
    put_times(&mut text, CLOSINGS, &state.counts.closings)?;
    put_forwarders(&mut text, state)?;
    let all = status.all_gateways(rt, alloc)?;
    let listed = Listed {
        gateways: all.as_slice(),
        clock_start_ms: status.clock_start_ms(),
        now_ms,
    };
    put_gateways(alloc, &mut text, listed)?;
    Ok(text)
}
