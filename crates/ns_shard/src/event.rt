//! What came of a call, and the answer that is made of it.

ghost use Rattle.std.specs.Prelude.{◌≡◌};
ghost use Rattle.ns_shard.specs.declared.event.Event.TheVariants as event;
ghost use Rattle.ns_shard.specs.Private.Room.{room_of};
ghost use Rattle.ns_shard.specs.Private.Sending.{ended_reply, reply_of, uplink_of, downlink_of};

use crate::room::Room;
use crate::sending::ack_from;
use ns_calls::{Downlink, Reply};
use ns_roster::Roster;
use ns_uplinks::BoxedUplink;
use ns_windows::BoxedWindow;

/// What a join server's answer or a closing ended.
#[derive(Drop)]
pub enum Ended {
    /// A ticket, with this reply. Where the join is accepted, its Join-Accept goes out.
    Answered {
        reply: Reply,
        downlink: Option<Downlink>,
    },
    /// A window, with this acknowledgement number.
    Closed {
        window: BoxedWindow,
        ack: Option<u32>,
    },
}

impl Ended {
    /// The reply.
    pub fn reply(&self) -> Reply
        ensures { result ≡ ended_reply self.now }
    {
        match self {
            Ended::Answered { reply, .. } => *reply,
            Ended::Closed { window, ack } => Reply::Closed {
                window: window.as_ref().name,
                ack: *ack,
            },
        }
    }

    // The reply, with what goes out put where something went out before. It stays a function of its own, so that a call that ends nothing
    // makes no room for a downlink.
    #[inline(never)]
    fn hand_out(
        self,
        roster: &Roster,
        uplink: &mut Option<BoxedUplink>,
        downlink: &mut Option<Downlink>,
    ) -> Reply
        ensures reply { result ≡ ended_reply self }
        ensures uplink { uplink.new ≡ uplink_of (event.Ended self) }
        ensures downlink { downlink.new ≡ downlink_of roster.now (event.Ended self) }
    {
        match self {
            Ended::Answered {
                reply,
                downlink: accept,
            } => {
                *uplink = None;
                *downlink = accept;
                reply
            }
            Ended::Closed { window, ack } => {
                let name = window.as_ref().name;
                *downlink = ack_from(roster, window.as_ref(), ack);
                *uplink = BoxedUplink::of(window);
                Reply::Closed { window: name, ack }
            }
        }
    }
}

/// What came of a call.
#[derive(Drop)]
pub enum Event {
    /// Nothing is opened or ended, and nothing goes out with this reply.
    Quiet(Reply),
    /// A window is opened with this reply, or a ticket is.
    Opened(Reply),
    /// A window or a ticket is ended.
    Ended(Ended),
}

impl Event {
    /// The reply.
    pub fn reply(&self) -> Reply
        ensures { result ≡ reply_of self.now }
    {
        match self {
            Event::Quiet(reply) | Event::Opened(reply) => *reply,
            Event::Ended(ended) => ended.reply(),
        }
    }

    /// What the entry of the call does to the room of those to come.
    #[inline(always)]
    pub fn room(&self) -> Room
        ensures { result ≡ room_of self.now }
    {
        match self {
            Event::Quiet(_) => Room::Free,
            Event::Opened(_) => Room::Reserving,
            Event::Ended(_) => Room::Reserved,
        }
    }

    /// The reply, with what goes out put where something went out before.
    #[inline(always)]
    pub fn hand_out(
        self,
        roster: &Roster,
        uplink: &mut Option<BoxedUplink>,
        downlink: &mut Option<Downlink>,
    ) -> Reply
        ensures reply { result ≡ reply_of self }
        ensures uplink { uplink.new ≡ uplink_of self }
        ensures downlink { downlink.new ≡ downlink_of roster.now self }
    {
        match self {
            Event::Quiet(reply) | Event::Opened(reply) => {
                *uplink = None;
                *downlink = None;
                reply
            }
            Event::Ended(ended) => ended.hand_out(roster, uplink, downlink),
        }
    }
}
