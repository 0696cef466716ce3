//! A device's record, windows, a journal, a shard, and a run of steps.

ghost use Rattle.std.specs.Prelude.{◌≡◌, ◌<◌};
ghost use Rattle.ns_calls.specs.Shards.{shard_of_call};
ghost use Rattle.ns_types.specs.Identity.{shard_count};

use ns_acts::Step;
use ns_calls::{Answer, Call, Entry, Outcome, Reply};
use ns_journal::Journal;
use ns_roster::Roster;
use ns_runs::{Run, Shards};
use ns_sessions::{AnswerDecision, DeviceState, JoinDecision};
use ns_shard::{Dropped, Shard, TrimFault};
use ns_types::{DevEui, DevNonce, Heard, Key, Ticket, WindowName};
use ns_views::DataView;
use ns_windows::{Added, Window, Windows};
use std::alloc::{AllocError, Global};
use std::sync::Arc;

// ---- ns_sessions

pub fn record(last_nonce: Option<DevNonce>) -> DeviceState {
    DeviceState::new(last_nonce)
}

pub fn take_fresh(state: &mut DeviceState, view: &DataView<'_>) -> Option<(u32, u32)> {
    let fresh: Option<(u32, u32)> = state.fresh(view);
    if let Some((session, fcnt)) = fresh {
        state.take(session, fcnt);
    }
    fresh
}

pub fn stale(state: &DeviceState, view: &DataView<'_>) -> Option<(u32, u32)> {
    state.stale(view)
}

pub fn ask(state: &mut DeviceState, ticket: &Ticket, heard: &Heard) -> JoinDecision {
    state.ask(ticket, heard)
}

pub fn answer(state: &mut DeviceState, ticket: &Ticket, outcome: &Outcome) -> AnswerDecision {
    state.answer(ticket, outcome)
}

pub fn next_ack(state: &mut DeviceState, session: u32) -> Option<u32> {
    state.next_ack(session)
}

pub fn session_keys(state: &DeviceState, session: u32) -> Option<(Key, Option<Key>)> {
    state.keys(session)
}

// ---- ns_windows

pub fn open_first(alloc: Global, window: Window) -> Result<Windows, AllocError> {
    let mut windows = Windows::new(alloc);
    windows.put(window)?;
    Ok(windows)
}

pub fn window_of(windows: &Windows, frame: &[u8]) -> Option<WindowName> {
    windows.find(frame)
}

pub fn add_copy(windows: &mut Windows, name: &WindowName, heard: &Heard) -> Added {
    windows.add_copy(name, heard)
}

pub fn open_of(windows: &Windows, eui: DevEui) -> usize {
    windows.count(eui)
}

pub fn take_window(windows: &mut Windows, name: &WindowName) -> Option<Window> {
    windows.take(name)
}

pub fn oldest_window(windows: &Windows) -> Option<WindowName> {
    windows.oldest()
}

// ---- ns_journal

pub fn first_entry(alloc: Global, call: Call, reply: Reply) -> Result<Journal, AllocError> {
    let mut journal = Journal::new(alloc);
    journal.room(1)?;
    let _number: u64 = journal.push(call, reply);
    Ok(journal)
}

pub fn journal_entries(journal: &Journal) -> (&[Entry], u64) {
    (journal.entries(), journal.made())
}

// ---- ns_shard

pub fn shard(alloc: Global, roster: Arc<Roster>, index: u8) -> Result<Shard, AllocError>
    requires { index < shard_count }
{
    Shard::new(alloc, roster, index)
}

pub fn apply(shard: &mut Shard, call: Call) -> Result<Answer, AllocError>
    requires { shard_of_call call ≡ shard.old.index }
{
    shard.apply(call)
}

pub fn close(shard: &mut Shard, window: &WindowName) -> Option<Answer> {
    shard.close(window)
}

pub fn join_reply(shard: &mut Shard, ticket: &Ticket, outcome: Outcome) -> Option<Answer> {
    shard.join_reply(ticket, outcome)
}

pub fn trim(shard: &mut Shard, alloc: Global) -> Result<Dropped, TrimFault> {
    shard.trim(alloc)
}

pub fn shard_entries(shard: &Shard) -> (&[Entry], u64, Option<WindowName>) {
    (shard.entries(), shard.made(), shard.oldest())
}

// ---- ns_runs

pub fn run(alloc: Global, roster: Arc<Roster>, steps: &[Step]) -> Result<Run, AllocError> {
    Shards::run(alloc, roster, steps)
}

pub fn greatest(run: &Run, eui: DevEui) -> Option<DevNonce> {
    run.greatest(eui)
}
