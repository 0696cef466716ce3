//! Parts of a server: the address at which gateways are heard, and lines that come once a minute at most.

use crate::loopback::local;
use crate::rows::{Row, each_holds};
use crate::served::states::options;
use ns_serve_parts::{Seldom, ServeOptions};
use std::alloc::Global;
use std::net::SocketAddr;

// The ports of the addresses that are given for own datagrams and for forwarders, and that at which own datagrams are heard then.
#[derive(Clone, Copy)]
struct Own(Option<u16>, Option<u16>, Option<u16>);

const OWN: &[Own] = &[
    Own(None, None, Some(1700)),
    Own(Some(1800), None, Some(1800)),
    Own(None, Some(1900), None),
];

// At which address own datagrams are heard, where these are given, or None where there are no options.
fn own_addr(
    listen: Option<SocketAddr>,
    forwarders: Option<SocketAddr>,
) -> Option<Option<SocketAddr>> {
    let options = ServeOptions {
        listen,
        forwarders,
        ..options()?
    };
    Some(options.own_addr())
}

impl Row for Own {
    fn holds(&self, _alloc: Global) -> bool {
        let &Own(listen, forwarders, own) = self;
        own_addr(listen.map(local), forwarders.map(local)) == Some(own.map(local))
    }
}

/// Where no address is given, own datagrams are heard at 127.0.0.1:1700, and at none where forwarders alone are heard.
#[test]
fn own_address(rt: HostRuntime) {
    each_holds(&rt, rt.alloc(), "addresses", OWN);
}

// Moments in milliseconds, and the count that a line tells then, if it comes.
const LINES: &[(u64, Option<u64>)] = &[
    (1000, Some(1)),
    (2000, None),
    (60_999, None),
    (61_000, Some(3)),
    (121_000, Some(1)),
];

// Whether lines come so.
fn lines_come(seldom: &Seldom) -> bool {
    for &(now_ms, count) in LINES {
        if seldom.happened(now_ms) != count {
            return false;
        }
    }
    true
}

/// A line comes at first and once a minute has passed, and tells how often it happened since the one before.
#[test]
fn line_counts_since_the_one_before(rt: HostRuntime) {
    assert!(rt; lines_come(&Seldom::new()));
}
