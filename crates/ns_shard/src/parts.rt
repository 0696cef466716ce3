//! The parts of a shard, and what each call does to them.

ghost use Rattle.std.specs.Prelude.{◌≡◌, ◌<◌, false, is_some, IfSome, IfNone, IfOk, OnOk, OnErr};
ghost use Rattle.std.specs.Arc.{arc_value};
ghost use Rattle.ns_types.specs.Identity.{shard_count};
ghost use Rattle.ns_calls.specs.declared.call.Call.TheVariants as call;
ghost use Rattle.ns_calls.specs.Shards.{shard_of_call};
ghost use Rattle.ns_shard.specs.State.{no_entries, after_call, answer_in, finds_open, quiet};
ghost use Rattle.ns_shard.specs.Private.Parts.{AreParts, AreTaken, state_of};

use crate::closing::close;
use crate::event::Event;
use crate::joining::{answer, join};
use crate::packed::{BoxedAnswer, Sent};
use crate::room::push;
use crate::uplink::uplink;
use ns_calls::{Answer, Call, DataFrame, Downlink, Outcome, Reply};
use ns_devices::Devices;
use ns_journal::Journal;
use ns_roster::Roster;
use ns_types::{Heard, Ticket, WindowName};
use ns_uplinks::BoxedUplink;
use ns_windows::Windows;
use std::alloc::{AllocError, Global};
use std::sync::Arc;

// Room for an entry, and for the one that ends what it opens.
const ROOM_TO_OPEN: usize = 2;

/// What a shard keeps.
#[derive(Drop)]
pub struct Parts {
    pub roster: Arc<Roster>,
    pub index: u8,
    pub devices: Devices,
    pub windows: Windows,
    pub journal: Journal,
    /// How many entries were made before the last trim.
    pub mark: u64,
    /// The names of the windows that were open then.
    pub named: Vec<WindowName>,
}

impl Parts {
    /// The parts of a shard with no entries.
    pub fn new(alloc: Global, roster: Arc<Roster>, index: u8) -> Result<Parts, AllocError>
        requires { index < shard_count }
        ensures state { IfOk result (λ p. state_of p ≡ no_entries (arc_value roster) index) }
        ensures agree { IfOk result AreParts }
    {
        let devices = Devices::new(alloc, &roster, index)?;
        Ok(Parts {
            roster,
            index,
            devices,
            windows: Windows::new(alloc),
            journal: Journal::new(alloc),
            mark: 0,
            named: Vec::new(alloc),
        })
    }

    /// Makes room for so many more entries. Where a growth is refused, nothing has changed.
    pub fn reserve(&mut self, entries: usize) -> Result<(), AllocError>
        requires { AreParts self.old }
        ensures state { state_of self.new ≡ state_of self.old }
        ensures agree { AreParts self.new }
    {
        self.journal.room(entries)
    }

    // Takes an uplink: the devices and windows change, and there is room for its entry, and for the one that ends what it opens. Where a
    // growth is refused, nothing has changed.
    #[inline(always)]
    fn uplink(&mut self, frame: &DataFrame, heard: &Heard) -> Result<Event, AllocError>
        requires own { shard_of_call (call.Uplink frame.now heard.now) ≡ self.old.index }
        requires agree { AreParts self.old }
        ensures taken { IfOk result (AreTaken self.new (call.Uplink frame.now heard.now)) }
        ensures state { state_of self.new ≡ state_of self.old }
        ensures err { OnErr result (AreParts self.new) }
    {
        self.journal.room(ROOM_TO_OPEN)?;
        uplink(&mut self.devices, &mut self.windows, frame, heard)
    }

    // The same of a Join-Request.
    fn join(&mut self, ticket: &Ticket, heard: &Heard) -> Result<Event, AllocError>
        requires own { shard_of_call (call.Join ticket.now heard.now) ≡ self.old.index }
        requires agree { AreParts self.old }
        ensures taken { IfOk result (AreTaken self.new (call.Join ticket.now heard.now)) }
        ensures state { state_of self.new ≡ state_of self.old }
        ensures err { OnErr result (AreParts self.new) }
    {
        self.journal.room(ROOM_TO_OPEN)?;
        Ok(join(&mut self.devices, ticket, heard))
    }

    /// Takes a join server's answer, where its ticket is open: room for its entry is reserved. Else nothing has changed.
    pub fn answer(&mut self, ticket: &Ticket, outcome: &Outcome) -> Option<Event>
        requires agree { AreParts self.old }
        ensures open { is_some result ≡ finds_open (state_of self.old) (call.JoinReply ticket.now outcome.now) }
        ensures taken { IfSome result (AreTaken self.new (call.JoinReply ticket.now outcome.now)) }
        ensures state { state_of self.new ≡ state_of self.old }
        ensures none { IfNone result (AreParts self.new) }
    {
        Some(Event::Ended(answer(&mut self.devices, ticket, outcome)?))
    }

    /// The same of a closing, where its window is open.
    pub fn close(&mut self, window: &WindowName) -> Option<Event>
        requires agree { AreParts self.old }
        ensures open { is_some result ≡ finds_open (state_of self.old) (call.Close window.now) }
        ensures taken { IfSome result (AreTaken self.new (call.Close window.now)) }
        ensures state { state_of self.new ≡ state_of self.old }
        ensures none { IfNone result (AreParts self.new) }
    {
        Some(Event::Ended(close(&mut self.devices, &mut self.windows, window)?))
    }

    // Takes a call: the devices and windows change, and there is room for its entry. Where a growth is refused, nothing has changed.
    fn take(&mut self, call: &Call) -> Result<Event, AllocError>
        requires own { shard_of_call call.now ≡ self.old.index }
        requires agree { AreParts self.old }
        ensures taken { IfOk result (AreTaken self.new call.now) }
        ensures state { state_of self.new ≡ state_of self.old }
        ensures open { OnErr result (finds_open (state_of self.old) call.now ≡ false) }
        ensures err { OnErr result (AreParts self.new) }
    {
        match call {
            Call::Uplink { frame, heard } => self.uplink(frame, heard),
            Call::Join { ticket, heard } => self.join(ticket, heard),
            Call::JoinReply { ticket, outcome } => match self.answer(ticket, outcome) {
                Some(event) => Ok(event),
                None => {
                    self.journal.room(1)?;
                    Ok(Event::Quiet(Reply::NoTicket))
                }
            },
            Call::Close { window } => match self.close(window) {
                Some(event) => Ok(event),
                None => {
                    self.journal.room(1)?;
                    Ok(Event::Quiet(Reply::NoWindow))
                }
            },
        }
    }

    // Adds the entry of a call that was taken, and puts the reply and what goes out where others were before.
    #[inline(always)]
    fn entered(
        &mut self,
        call: &Call,
        event: Event,
        reply: &mut Reply,
        uplink: &mut Option<BoxedUplink>,
        downlink: &mut Option<Downlink>,
    )
        requires { AreTaken self.old call.now event }
        ensures reply { reply.new ≡ (answer_in (state_of self.old) call.now).reply }
        ensures uplink { uplink.new ≡ (answer_in (state_of self.old) call.now).uplink }
        ensures downlink { downlink.new ≡ (answer_in (state_of self.old) call.now).downlink }
        ensures state { state_of self.new ≡ after_call (state_of self.old) call.now }
        ensures agree { AreParts self.new }
    {
        let room = event.room();
        let made = event.hand_out(&self.roster, uplink, downlink);
        *reply = made;
        push(&mut self.journal, call, made, room);
    }

    /// Adds the entry of a call that was taken, and gives the answer.
    pub fn answered(&mut self, call: &Call, event: Event) -> Answer
        requires { AreTaken self.old call.now event }
        ensures answer { result ≡ answer_in (state_of self.old) call.now }
        ensures state { state_of self.new ≡ after_call (state_of self.old) call.now }
        ensures agree { AreParts self.new }
    {
        let (mut reply, mut uplink, mut downlink) = (event.reply(), None, None);
        self.entered(call, event, &mut reply, &mut uplink, &mut downlink);
        Answer {
            reply,
            uplink: uplink.map(|sent| sent.lend().to_uplink()),
            downlink,
        }
    }

    /// Answers a call: puts the reply and what goes out where others were before. Where a growth is refused, nothing has changed. Nothing
    /// goes out with an uplink, so that its event is not moved.
    pub fn apply(
        &mut self,
        call: &Call,
        reply: &mut Reply,
        uplink: &mut Option<BoxedUplink>,
        downlink: &mut Option<Downlink>,
    ) -> Result<(), AllocError>
        requires own { shard_of_call call.now ≡ self.old.index }
        requires agree { AreParts self.old }
        ensures reply { OnOk result (reply.new ≡ (answer_in (state_of self.old) call.now).reply) }
        ensures uplink { OnOk result (uplink.new ≡ (answer_in (state_of self.old) call.now).uplink) }
        ensures downlink { OnOk result (downlink.new ≡ (answer_in (state_of self.old) call.now).downlink) }
        ensures state { OnOk result (state_of self.new ≡ after_call (state_of self.old) call.now) }
        ensures open { OnErr result (finds_open (state_of self.old) call.now ≡ false) }
        ensures err { OnErr result ((state_of self.new ≡ state_of self.old) × (reply.new ≡ reply.old) × (uplink.new ≡ uplink.old) × (downlink.new ≡ downlink.old)) }
        ensures agree { AreParts self.new }
    {
        if let Call::Uplink { frame, heard } = call {
            let event = self.uplink(frame, heard)?;
            self.entered(call, event, reply, uplink, downlink);
            return Ok(());
        }
        let event = self.take(call)?;
        self.entered(call, event, reply, uplink, downlink);
        Ok(())
    }

    /// Takes the memory of an uplink that went out, for a window that is opened later.
    pub fn reuse(&mut self, sent: Option<BoxedUplink>)
        requires { AreParts self.old }
        ensures state { state_of self.new ≡ state_of self.old }
        ensures agree { AreParts self.new }
    {
        if let Some(sent) = sent {
            self.windows.reuse(sent.into_window());
        }
    }

    // Adds the entry of a call that was taken, and gives the answer, with which nothing goes out.
    #[inline(always)]
    fn quieted(&mut self, call: &Call, event: Event) -> BoxedAnswer
        requires taken { AreTaken self.old call.now event }
        requires quiet { answer_in (state_of self.old) call.now ≡ quiet (answer_in (state_of self.old) call.now).reply }
        ensures answer { result ≡ answer_in (state_of self.old) call.now }
        ensures state { state_of self.new ≡ after_call (state_of self.old) call.now }
        ensures agree { AreParts self.new }
    {
        let (reply, room) = (event.reply(), event.room());
        push(&mut self.journal, call, reply, room);
        BoxedAnswer::quiet(reply)
    }

    // Adds the entry of a call that was taken, and gives the boxed answer, in memory that was taken before the call.
    fn boxed(&mut self, sent: Box<Sent>, call: &Call, event: Event) -> BoxedAnswer
        requires { AreTaken self.old call.now event }
        ensures answer { result ≡ answer_in (state_of self.old) call.now }
        ensures state { state_of self.new ≡ after_call (state_of self.old) call.now }
        ensures agree { AreParts self.new }
    {
        let (reply, room) = (event.reply(), event.room());
        let answer = BoxedAnswer::of(sent, &self.roster, event);
        push(&mut self.journal, call, reply, room);
        answer
    }

    // Answers a call that may end something: the memory of what then goes out is taken first.
    fn apply_ending(&mut self, alloc: Global, call: &Call) -> Result<BoxedAnswer, AllocError>
        requires own { shard_of_call call.now ≡ self.old.index }
        requires agree { AreParts self.old }
        ensures answer { IfOk result (λ a. a ≡ answer_in (state_of self.old) call.now) }
        ensures state { OnOk result (state_of self.new ≡ after_call (state_of self.old) call.now) }
        ensures err { OnErr result (state_of self.new ≡ state_of self.old) }
        ensures agree { AreParts self.new }
    {
        let sent = Sent::empty(alloc)?;
        let event = self.take(call)?;
        Ok(self.boxed(sent, call, event))
    }

    /// Answers a call, with a boxed answer. Where a growth is refused, nothing has changed.
    pub fn apply_boxed(&mut self, alloc: Global, call: &Call) -> Result<BoxedAnswer, AllocError>
        requires own { shard_of_call call.now ≡ self.old.index }
        requires agree { AreParts self.old }
        ensures answer { IfOk result (λ a. a ≡ answer_in (state_of self.old) call.now) }
        ensures state { OnOk result (state_of self.new ≡ after_call (state_of self.old) call.now) }
        ensures err { OnErr result (state_of self.new ≡ state_of self.old) }
        ensures agree { AreParts self.new }
    {
        if let Call::Uplink { frame, heard } = call {
            let event = self.uplink(frame, heard)?;
            return Ok(self.quieted(call, event));
        }
        if let Call::Join { ticket, heard } = call {
            let event = self.join(ticket, heard)?;
            return Ok(self.quieted(call, event));
        }
        self.apply_ending(alloc, call)
    }
}
