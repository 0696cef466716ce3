//! What was made in each shard.
ghost use Rattle.std.specs.Prelude.{◌≡◌, ◌<◌};
ghost use Rattle.ns_serve_parts.specs.Counts.{reply_place};

use crate::counts::{more, value};
use crossbeam_utils::CachePadded;
use ns_calls::Reply;
use ns_types::SHARDS;
use std::sync::atomic::{AtomicU64, Ordering};

/// How many places a list of one thing for each shard has.
pub const PLACES: usize = SHARDS as usize;

// How many kinds of replies there are.
const KINDS: usize = 19;

// The replies by the words of their answer lines, in the order of their places.
const REPLIES: [&str; KINDS] = [
    "opened",
    "copied",
    "crowded",
    "old",
    "nosession",
    "busy",
    "ask",
    "joincopied",
    "joincrowded",
    "nonceold",
    "nodevice",
    "joinbusy",
    "accepted",
    "joinrefused",
    "joinstale",
    "noticket",
    "closed",
    "nowindow",
    "again",
];

// How many entries a shard has, and how many replies of each kind it gave.
#[derive(Default, Drop)]
struct ShardCounts {
    entries: AtomicU64,
    replies: [AtomicU64; KINDS],
}

/// How many entries were made in each shard, as far as they were told, and with which replies since the server began. The counters of two
/// shards share no cache line, so that threads that count in two shards do not wait for each other.
#[derive(Drop)]
pub struct Made {
    shards: [CachePadded<ShardCounts>; PLACES],
}

// The place of a reply's counter.
fn place_of_reply(reply: &Reply) -> usize
    ensures place { result ≡ reply_place reply.now }
    ensures bound { result < 19 }
{
    match reply {
        Reply::Opened { .. } => 0,
        Reply::Copied { .. } => 1,
        Reply::Crowded { .. } => 2,
        Reply::Old { .. } => 3,
        Reply::NoSession => 4,
        Reply::Busy { .. } => 5,
        Reply::Ask { .. } => 6,
        Reply::JoinCopied { .. } => 7,
        Reply::JoinCrowded => 8,
        Reply::NonceOld { .. } => 9,
        Reply::NoDevice => 10,
        Reply::JoinBusy => 11,
        Reply::Accepted { .. } => 12,
        Reply::JoinRefused => 13,
        Reply::JoinStale { .. } => 14,
        Reply::NoTicket => 15,
        Reply::Closed { .. } => 16,
        Reply::NoWindow => 17,
        Reply::Again { .. } => 18,
    }
}

impl Made {
    /// So many entries were made in each, and no reply is counted.
    pub fn of(entries: &[u64; PLACES]) -> Made {
        let made = Made {
            shards: Default::default(),
        };
        for (shard, count) in made.shards.iter().zip(entries.iter()) {
            shard.entries.store(*count, Ordering::SeqCst);
        }
        made
    }

    /// One more was made in a shard, with this reply.
    pub fn add_one(&self, shard: u8, reply: &Reply) {
        if let Some(counts) = self.shards.get(usize::from(shard)) {
            more(&counts.entries);
            more(&counts.replies[place_of_reply(reply)]);
        }
    }

    /// How many entries each shard has.
    pub fn all(&self) -> [u64; PLACES] {
        let mut all = [0; PLACES];
        for (shard, place) in self.shards.iter().zip(all.iter_mut()) {
            *place = value(&shard.entries);
        }
        all
    }

    // How often the reply of this place was given.
    fn count(&self, place: usize) -> u64
        requires { place < 19 }
    {
        let mut count = 0u64;
        for shard in &self.shards {
            count = count.saturating_add(value(&shard.replies[place]));
        }
        count
    }

    /// How often each reply was given, with its name.
    pub fn replies(&self) -> [(&'static str, u64); KINDS] {
        let mut all = [("", 0); KINDS];
        for place in 0..KINDS {
            all[place] = (REPLIES[place], self.count(place));
        }
        all
    }
}
