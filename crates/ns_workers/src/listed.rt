//! Sources over memory, which tell what they gave.
ghost use Rattle.std.specs.Prelude.{◌≡◌, ◌≤◌, Bool, true, false, vec_len, take};

use ns_outside::{Datagrams, JobSource, Next, Received};

// Where a source over memory stands, and how it has ended.
#[derive(Drop)]
struct Place {
    at: usize,
    fails: bool,
    ended: bool,
    broken: bool,
}

impl Place {
    // At the beginning.
    fn first(fails: bool) -> Place
        ensures begins { (result.at ≡ 0) × (result.fails ≡ fails) }
        ensures goes_on { (result.ended ≡ false) × (result.broken ≡ false) }
    {
        Place {
            at: 0,
            fails,
            ended: false,
            broken: false,
        }
    }

    // Ends, or fails where that is asked, and says whether it fails.
    fn end(&mut self) -> bool
        ensures fails { result ≡ self.old.fails }
        ensures stays { (self.new.at ≡ self.old.at) × (self.new.fails ≡ self.old.fails) }
        ensures ends { result ≡ false → (self.new.ended ≡ true) × (self.new.broken ≡ self.old.broken) }
        ensures breaks { result ≡ true → (self.new.ended ≡ self.old.ended) × (self.new.broken ≡ true) }
    {
        if self.fails {
            self.broken = true;
        } else {
            self.ended = true;
        }
        self.fails
    }
}

/// Jobs of a list, in order, and then the end, or a failure.
#[derive(Drop)]
pub struct ListedJobs<J> {
    jobs: Vec<J>,
    place: Place,
    ghost within: { place.at ≤ vec_len jobs },
    ghost ended: { place.ended ≡ true → (place.at ≡ vec_len jobs) × (place.fails ≡ false) },
    ghost broken: { place.broken ≡ true → (place.at ≡ vec_len jobs) × (place.fails ≡ true) },
}

impl<J: Copy> ListedJobs<J> {
    ghost use Rattle.std.specs.Prelude.{◌≡◌, Some, [], false};
    ghost use Rattle.ns_workers.specs.Listed.{jobs_given};

    /// A source of these jobs, which then ends, or fails.
    pub fn new(jobs: Vec<J>, fails: bool) -> Self
        ensures given { jobs_given result ≡ Some (record { jobs = []; ended = false; broken = false }) }
        ensures all { (result.jobs ≡ jobs) × (result.place.fails ≡ fails) }
    {
        ListedJobs {
            jobs,
            place: Place::first(fails),
        }
    }
}

impl<R, J: Copy> JobSource<R, J> for ListedJobs<J> {
    ghost use Rattle.std.specs.Prelude.{Some};
    ghost use Rattle.ns_outside.specs.Given.{Takes};
    ghost use Rattle.ns_workers.specs.Listed.{jobs_given};

    ghost given = { λ s. jobs_given s };

    ghost all = { λ s. Some s.jobs.items };

    fn take(&mut self, _rt: &R) -> Next<J>
        ensures given { Takes (jobs_given self.old) (jobs_given self.new) result }
        ensures kept { (self.new.jobs ≡ self.old.jobs) × (self.new.place.fails ≡ self.old.place.fails) }
    {
        if self.place.at < self.jobs.len() {
            let job = self.jobs[self.place.at];
            self.place.at += 1;
            return Next::Job(job);
        }
        if self.place.end() {
            Next::Failed
        } else {
            Next::End
        }
    }
}

/// Datagrams of a list, in order, each behind a turn in which none comes, and then the end, or a failure. One over 512 bytes comes
/// cut.
#[derive(Drop)]
pub struct ListedDatagrams {
    datagrams: Vec<Vec<u8>>,
    place: Place,
    idles: bool,
    ghost within: { place.at ≤ vec_len datagrams },
    ghost ended: { place.ended ≡ true → (place.at ≡ vec_len datagrams) × (place.fails ≡ false) },
    ghost broken: { place.broken ≡ true → (place.at ≡ vec_len datagrams) × (place.fails ≡ true) },
}

impl ListedDatagrams {
    ghost use Rattle.std.specs.Prelude.{◌≡◌, Some, [], false};
    ghost use Rattle.ns_workers.specs.Listed.{datagrams_given};

    /// A source of these datagrams, which then ends, or fails.
    pub fn new(datagrams: Vec<Vec<u8>>, fails: bool) -> Self
        ensures given { datagrams_given result ≡ Some (record { jobs = []; ended = false; broken = false }) }
        ensures all { (result.datagrams ≡ datagrams) × (result.place.fails ≡ fails) }
        ensures idles { result.idles ≡ false }
    {
        ListedDatagrams {
            datagrams,
            place: Place::first(fails),
            idles: false,
        }
    }
}

impl<R> Datagrams<R> for ListedDatagrams {
    ghost use Rattle.std.specs.Prelude.{◌≡◌, ◌↔◌, false, not};
    ghost use Rattle.ns_outside.specs.Datagrams.{FitsBuffer, TakesDatagram};
    ghost use Rattle.ns_workers.specs.Listed.{datagrams_given};

    ghost given = { λ s. datagrams_given s };

    fn next(&mut self, _rt: &R, buf: &mut [u8; 512]) -> Received
        ensures fits { FitsBuffer result }
        ensures given { TakesDatagram (datagrams_given self.old) (datagrams_given self.new) result buf.new }
        ensures all { (self.new.datagrams ≡ self.old.datagrams) × (self.new.place.fails ≡ self.old.place.fails) }
        ensures idles { (result ≡ Received.Idle) ↔ (self.old.idles ≡ false) }
        ensures turn { self.new.idles ≡ not self.old.idles }
    {
        self.idles = !self.idles;
        if self.idles {
            return Received::Idle;
        }
        if self.place.at < self.datagrams.len() {
            let n = put_front(buf, self.datagrams[self.place.at].as_slice());
            self.place.at += 1;
            return Received::Got(n);
        }
        if self.place.end() {
            Received::Failed
        } else {
            Received::End
        }
    }
}

// Puts the front of a datagram at the front of a buffer, and says how many bytes.
fn put_front(buf: &mut [u8; 512], datagram: &[u8]) -> usize
    ensures fits { result ≤ 512 }
    ensures front { take result buf.new ≡ take 512 datagram.now }
{
    let n = datagram.len().min(512);
    buf[..n].copy_from_slice(&datagram[..n]);
    n
}
