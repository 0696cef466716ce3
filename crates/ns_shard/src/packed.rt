//! An answer of which what goes out lies in memory of its own.

ghost use Rattle.std.specs.Prelude.{◌≡◌, IfOk, is_some, option_map};
ghost use Rattle.ns_shard.specs.declared.event.Event.TheVariants as event;
ghost use Rattle.ns_shard.specs.State.{quiet};
ghost use Rattle.ns_shard.specs.Private.Sending.{answer_of, lain_uplink};

use crate::event::{Ended, Event};
use crate::sending::ack_from;
use ns_calls::{Answer, Downlink, LentUplink, Reply, Uplink};
use ns_roster::Roster;
use ns_uplinks::{BoxedUplink, PackedUplink};
use std::alloc::{AllocError, Global};
use std::marker::Model;

// Where an uplink lies that goes out.
#[derive(Drop)]
enum Lain {
    Window(BoxedUplink),
    Packed(PackedUplink),
}

// Lends an uplink from where it lies.
fn lend(lain: &Lain) -> LentUplink<'_>
    ensures { result ≡ lain_uplink lain.now }
{
    match lain {
        Lain::Window(uplink) => uplink.lend(),
        Lain::Packed(uplink) => uplink.lend(),
    }
}

/// What goes out with a reply.
#[derive(Drop)]
pub(crate) struct Sent {
    uplink: Option<Lain>,
    downlink: Option<Downlink>,
}

impl Sent {
    /// Memory for what goes out, with nothing in it yet. It is taken before a call changes anything.
    pub(crate) fn empty(alloc: Global) -> Result<Box<Sent>, AllocError> {
        let sent = Sent {
            uplink: None,
            downlink: None,
        };
        Ok(Box::new(alloc, sent)?)
    }
}

/// An answer of which what goes out lies in memory of its own: an uplink in that of its window, or in no more than it needs. Contracts see
/// the answer.
pub struct BoxedAnswer {
    reply: Reply,
    sent: Option<Box<Sent>>,
}

// Proved here once, where a derived one is proved again by each crate that lets an answer go.
impl Drop for BoxedAnswer {
    fn drop(self) {
        let BoxedAnswer { reply: _, sent: _ } = self;
    }
}

impl Model for BoxedAnswer {
    ghost use Rattle.std.specs.Prelude.{option_and_then, option_map};
    ghost use Rattle.ns_shard.specs.Private.Sending.{lain_uplink};
    ghost use Rattle.ns_calls.specs.declared.answer.Answer.{Answer};

    ghost Value = { Answer };

    ghost view = { λ a. record { reply = a.reply; uplink = option_and_then (λ s. option_map lain_uplink s.value.uplink) a.sent; downlink = option_and_then (λ s. s.value.downlink) a.sent } };
}

impl BoxedAnswer {
    /// A reply with which nothing goes out.
    pub fn quiet(reply: Reply) -> BoxedAnswer
        ensures { result ≡ quiet reply }
    {
        BoxedAnswer { reply, sent: None }
    }

    // A reply with what goes out with it, if anything does.
    #[inline(always)]
    fn sending(
        mut sent: Box<Sent>,
        reply: Reply,
        uplink: Option<Lain>,
        downlink: Option<Downlink>,
    ) -> BoxedAnswer
        ensures { result ≡ record { reply = reply; uplink = option_map lain_uplink uplink; downlink = downlink } }
    {
        if uplink.is_none() && downlink.is_none() {
            return BoxedAnswer::quiet(reply);
        }
        sent.uplink = uplink;
        sent.downlink = downlink;
        BoxedAnswer {
            reply,
            sent: Some(sent),
        }
    }

    // The answer where something was ended. It stays a function of its own, so that a call that ends nothing makes no room for what goes out.
    #[inline(never)]
    fn ending(sent: Box<Sent>, roster: &Roster, ended: Ended) -> BoxedAnswer
        ensures { result ≡ answer_of roster.now (event.Ended ended) }
    {
        match ended {
            Ended::Answered { reply, downlink } => {
                BoxedAnswer::sending(sent, reply, None, downlink)
            }
            Ended::Closed { window, ack } => {
                let name = window.as_ref().name;
                let downlink = ack_from(roster, window.as_ref(), ack);
                let uplink = BoxedUplink::of(window).map(Lain::Window);
                BoxedAnswer::sending(sent, Reply::Closed { window: name, ack }, uplink, downlink)
            }
        }
    }

    /// The answer to a call of which this came, in memory that was taken before the call.
    pub(crate) fn of(sent: Box<Sent>, roster: &Roster, event: Event) -> BoxedAnswer
        ensures { result ≡ answer_of roster.now event }
    {
        match event {
            Event::Quiet(reply) | Event::Opened(reply) => BoxedAnswer::quiet(reply),
            Event::Ended(ended) => BoxedAnswer::ending(sent, roster, ended),
        }
    }

    /// The same answer, in no more memory than it needs. `NoMemory` (`AllocError`) where a growth was refused.
    pub fn packed(self, alloc: Global) -> Result<BoxedAnswer, AllocError>
        ensures { IfOk result (λ a. a ≡ self) }
    {
        let Some(uplink) = self.lend_uplink() else {
            return Ok(self);
        };
        let uplink = Lain::Packed(PackedUplink::of(alloc, &uplink)?);
        let sent = Sent::empty(alloc)?;
        Ok(BoxedAnswer::sending(sent, self.reply, Some(uplink), self.downlink()))
    }

    /// The uplink that went out, where it lies in the memory of its window.
    pub(crate) fn into_window(mut self) -> Option<BoxedUplink> {
        let Sent {
            uplink,
            downlink: _,
        } = Box::into_inner(self.sent.take()?);
        match uplink {
            Some(Lain::Window(uplink)) => Some(uplink),
            _ => None,
        }
    }

    /// The reply.
    pub fn reply(&self) -> Reply
        ensures { result ≡ self.now.reply }
    {
        self.reply
    }

    /// Whether an uplink goes out.
    pub fn has_uplink(&self) -> bool
        ensures { result ≡ is_some self.now.uplink }
    {
        match &self.sent {
            Some(sent) => sent.uplink.is_some(),
            None => false,
        }
    }

    /// Lends the uplink that goes out.
    pub fn lend_uplink(&self) -> Option<LentUplink<'_>>
        ensures { result ≡ self.now.uplink }
    {
        Some(lend(self.sent.as_ref()?.uplink.as_ref()?))
    }

    /// The uplink that goes out.
    pub fn uplink(&self) -> Option<Uplink>
        ensures { result ≡ self.now.uplink }
    {
        Some(self.lend_uplink()?.to_uplink())
    }

    /// The downlink that goes out.
    pub fn downlink(&self) -> Option<Downlink>
        ensures { result ≡ self.now.downlink }
    {
        self.sent.as_ref()?.downlink
    }

    /// The answer itself.
    pub fn to_answer(&self) -> Answer
        ensures { result ≡ self.now }
    {
        Answer {
            reply: self.reply(),
            uplink: self.uplink(),
            downlink: self.downlink(),
        }
    }
}
