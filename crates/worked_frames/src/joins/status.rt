//! Requests for the status, and its texts by the formats of JSON and Prometheus.

ghost use Rattle.std.specs.Prelude.{◌≡◌, false};

use crate::put::put;
use ns_status::{
    Airtime, Content, Device, Family, Gateway, HeardBy, Histogram, Kind, Lists, Part, RequestFault,
    Route, Slot, Status, Times, Totals, airtime_us, head_of, put_by_gateway, put_devices, put_end,
    put_front, put_gateways, put_histogram, put_metrics, put_named, put_timed,
    put_timed_by_gateway, read_request,
};
use ns_types::{DevAddr, DevEui, Fuse, GatewayId};
use std::alloc::Global;
use std::fmt::Write;

/// Puts what a stream asks for, or with which status it is refused.
pub fn request(stream: &mut Fuse, out: &mut String)
    requires { stream.old.failed ≡ false }
{
    match read_request(stream, b"status.example") {
        Ok(request) => {
            put(out, if request.is_head { "head of " } else { "" });
            put(out, name_of(request.route));
            match request.part {
                Some(part) => put_part(part, out),
                None => put(out, " of no part"),
            }
            if let Some(tag) = request.known {
                let _ = write!(out, " known {tag}");
            }
        }
        Err(RequestFault::Refused(status)) => put(out, status.words()),
        Err(RequestFault::Ended) => put(out, "ended"),
    }
}

// Puts which part of a list is asked for.
fn put_part(part: Part, out: &mut String) {
    if let Some(eui) = part.after {
        let _ = write!(out, " after {:x}", eui.0);
    }
    if let Some(limit) = part.limit {
        let _ = write!(out, " limit {limit}");
    }
    if let Some(since_ms) = part.since_ms {
        let _ = write!(out, " since {since_ms}");
    }
}

// The name of what there is to be had.
fn name_of(route: Route) -> &'static str {
    match route {
        Route::Page => "page",
        Route::Metrics => "metrics",
        Route::Devices => "devices",
        Route::Gateways => "gateways",
        Route::Health => "health",
    }
}

// A device of which nothing was heard, and one that was heard since.
const SILENT: Device = Device {
    session: 1,
    addr: DevAddr(0x49be_7df1),
    since_ms: None,
    counters: 0,
    fcnt: None,
    heard: None,
};

const HEARD: Device = Device {
    session: 2,
    addr: DevAddr(0x49be_7df1),
    since_ms: Some(1500),
    counters: 3,
    fcnt: Some(9),
    heard: Some(HeardBy {
        at_ms: 60_000,
        gateway: GatewayId(0xa1),
    }),
};

// Of an hour two slots are within it at 4,000,000 ms, the 13th slot: those of 300,000 ms and of 3,900,000 ms, but not that of 0 ms.
const AIRTIME: Airtime = Airtime {
    slots: [
        Slot {
            number: 0,
            us: 1_000_000,
        },
        Slot {
            number: 13,
            us: 41_216,
        },
        Slot {
            number: 2,
            us: 991_232,
        },
        Slot { number: 0, us: 0 },
        Slot { number: 0, us: 0 },
        Slot { number: 0, us: 0 },
        Slot { number: 0, us: 0 },
        Slot { number: 0, us: 0 },
        Slot { number: 0, us: 0 },
        Slot { number: 0, us: 0 },
        Slot { number: 0, us: 0 },
        Slot { number: 0, us: 0 },
    ],
};

const GATEWAY: Gateway = Gateway {
    frames: 5,
    frame_ms: Some(60_000),
    pull_ms: Some(60_500),
    stat_ms: None,
    sent: 3,
    refused: 1,
    airtime: AIRTIME,
};

const COUNTED: Family = Family {
    name: "a_total",
    help: "A.",
    kind: Kind::Counter,
};

const TIMED: Histogram = Histogram {
    name: "t_seconds",
    bucket: "t_seconds_bucket",
    sum: "t_seconds_sum",
    count: "t_seconds_count",
    help: "T.",
};

const TIMES: Times<'static> = Times {
    within: &[("0.1", 2), ("+Inf", 3)],
    sum_ms: 1_050,
    count: 3,
};

const TOTALS: Totals = Totals {
    start_seconds: 1_764_017_000,
    read: 1,
    lost: 18,
    dropped: 2,
    late: 3,
    unreceived: 4,
    unanswered: 5,
    stale: 6,
    unsent: 7,
    unwritten: 19,
    windows: 8,
    tickets: 9,
    devices: 10,
    sessions: 11,
    gateways: 12,
};

const LISTS: Lists<'static> = Lists {
    refusals: &[("G1", 13)],
    replies: &[("opened", 14), ("copied", 15)],
    entries: &[16, 17],
};

/// Puts a list of three devices, the row of a gateway, the times on air of three downlinks of 12 bytes, metrics, the head that says that a list
/// is the same, and the head of a refusal.
pub fn texts(alloc: Global, out: &mut String) {
    let _ = put_front(out, "devices", 61_000, 1_764_017_000_123);
    let _ = put_devices(alloc, out, true, &[(DevEui(13), Some(SILENT))]);
    let _ = put_devices(
        alloc,
        out,
        false,
        &[(DevEui(14), Some(HEARD)), (DevEui(15), None)],
    );
    let _ = put_end(out);
    let _ = put_gateways(alloc, out, true, &[(GatewayId(0xa1), GATEWAY)], 4_000_000);
    let (fast, slow, fsk) = (airtime_us(5, 12), airtime_us(0, 12), airtime_us(7, 12));
    let _ = write!(out, "\nairtime {fast} {slow} {fsk}\n");
    metrics(alloc, out);
    let same = head_of(
        Status::NotModified,
        Content::Json,
        None,
        Some(1_764_017_000_123_456),
    );
    let refused = head_of(Status::NotFound, Content::Text, Some(14), None);
    let _ = write!(out, "{:?}, {:?}", same.as_str(), refused.as_str());
}

// Puts metrics.
fn metrics(alloc: Global, out: &mut String) {
    let _ = put_metrics(out, &TOTALS, LISTS);
    let _ = put_named(out, COUNTED, "b", &[("c", 1)]);
    let _ = put_timed(out, COUNTED, 12_345);
    let _ = put_histogram(out, TIMED, TIMES);
    let _ = put_by_gateway(alloc, out, COUNTED, &[(GatewayId(0xa1), 20)]);
    let _ = put_timed_by_gateway(alloc, out, COUNTED, &[(GatewayId(0xa1), 20)]);
}
