//! How the counts are logged.

use ns_log::{Log, info, warn};
use ns_serve_parts::{Counts, Made, value};
use std::fmt;
use std::fmt::{Display, Formatter};

// Names with how often each of them is counted, as they are logged.
#[derive(Clone, Copy)]
struct Named<'a> {
    counts: &'a [(&'static str, u64)],
}

impl<'a> Display for Named<'a> {
    fn fmt<W: fmt::Write>(&self, f: &mut Formatter<W>) -> fmt::Result {
        for (name, count) in self.counts {
            write!(f, " {name} {count}")?;
        }
        Ok(())
    }
}

// Logs the counts of datagrams.
fn log_datagrams<R: Log>(rt: &R, counts: &Counts, read: u64) {
    let refusals = counts.refusals();
    let refusals = Named { counts: &refusals };
    let (dropped, late) = (value(&counts.dropped), value(&counts.late));
    let (unreceived, lost) = (value(&counts.unreceived), value(&counts.lost));
    info!(rt; "datagrams: read {read} lost {lost} dropped {dropped} late {late} failed receives {unreceived}{refusals}");
}

// Logs the counts of replies.
fn log_replies<R: Log>(rt: &R, counts: &Counts, made: &Made) {
    let replies = made.replies();
    let replies = Named { counts: &replies };
    let (unanswered, unsent) = (value(&counts.unanswered), value(&counts.unsent));
    let stale = value(&counts.stale);
    info!(rt; "replies:{replies} unanswered {unanswered} unsent {unsent} stale tickets {stale}");
}

/// Logs the counts, with those of so many datagrams and of the replies to them.
pub(crate) fn log_all<R: Log>(rt: &R, counts: &Counts, read: u64, made: &Made) {
    log_datagrams(rt, counts, read);
    log_replies(rt, counts, made);
    let unwritten = value(&counts.unwritten);
    if unwritten > 0 {
        warn!(rt; "standard output failed: {unwritten} lines did not reach it");
    }
}
