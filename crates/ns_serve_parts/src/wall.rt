//! Moments of the wall clock.
ghost use Rattle.std.specs.Prelude.{IfSome};
ghost use Rattle.ns_serve_parts.specs.Wall.{IsUtcOf, Shows};

use jiff_core::civil::DateTime;
use ns_output::Utc;
use std::time::Duration;

// A date with a time of day. None in a year below 0.
fn utc(moment: DateTime) -> Option<Utc>
    ensures { IfSome result (Shows moment) }
{
    let (date, time) = (moment.date, moment.time);
    Some(Utc {
        year: u16::try_from(date.year).ok()?,
        month: date.month,
        day: date.day,
        hour: time.hour,
        minute: time.minute,
        second: time.second,
        millisecond: (time.subsec_nanosecond / 1_000_000) as u16,
    })
}

/// The moment this long after the beginning of 1970, in UTC. None beyond the year 9999.
#[tactic(auto, using(crate::proofs::WallLemmas::is_utc))]
pub fn utc_of(since_1970: Duration) -> Option<Utc>
    ensures { IfSome result (IsUtcOf since_1970) }
{
    match DateTime::from_nanosecond(since_1970.as_nanos() as i128) {
        Ok(moment) => utc(moment),
        Err(_) => None,
    }
}
