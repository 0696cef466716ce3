//! A roster, calls and their lines, and the texts that go to a join server and come back.

ghost use Rattle.std.specs.Prelude.{◌≡◌, false, length};

use arrayvec::ArrayVec;
use ns_calls::{Answer, Call, DataFrame, JoinAns, Uplink, shard_of_call};
use ns_exchange::{AnsFault, AskFault, HostName};
use ns_joinclient::ask;
use ns_joinwire::{join_ans, join_req};
use ns_lines::{Line, lines, up_line};
use ns_roster::{Device, Roster, RosterFault};
use ns_types::{DevEui, DevNonce, NetId, Sink, Source, Ticket};
use ns_views::DataView;
use std::alloc::{AllocError, Global};

// ---- ns_roster

pub fn roster(alloc: Global, text: &[u8]) -> Result<Roster, RosterFault> {
    Roster::read(alloc, text)
}

pub fn radio(roster: &Roster) -> (NetId, u8, u8) {
    (roster.net_id(), roster.rx1_offset(), roster.rx_delay())
}

pub fn devices(roster: &Roster) -> &[Device] {
    roster.devices()
}

pub fn device(roster: &Roster, eui: DevEui) -> Option<&Device> {
    roster.find(eui)
}

pub fn closing_text(
    roster: &Roster,
    alloc: Global,
    nonces: &[Option<DevNonce>],
) -> Result<String, AllocError>
    requires { length nonces.now ≡ length roster.now.devices }
{
    roster.closing(alloc, nonces)
}

// ---- ns_calls, ns_lines

pub fn shard(call: &Call) -> u8 {
    shard_of_call(call)
}

pub fn frame_of(view: &DataView<'_>) -> DataFrame {
    DataFrame::of(view)
}

pub fn text(answer: &Answer) -> ArrayVec<Line, 3> {
    lines(answer)
}

pub fn up(uplink: &Uplink) -> Line {
    up_line(uplink)
}

// ---- ns_joinwire

pub fn request(alloc: Global, roster: &Roster, ticket: &Ticket) -> Result<String, AllocError> {
    match roster.find(ticket.dev_eui()) {
        Some(device) => join_req(alloc, roster, device, ticket),
        None => Ok(String::new(alloc)),
    }
}

pub fn answer(alloc: Global, body: &[u8], transaction: u32) -> Result<JoinAns, AnsFault> {
    join_ans(alloc, body, transaction)
}

// ---- ns_exchange, ns_joinclient

pub fn host(name: &str) -> Option<HostName<'_>> {
    HostName::new(name)
}

pub fn exchange<S: Source + Sink>(
    alloc: Global,
    stream: &mut S,
    host: HostName<'_>,
    body: &str,
    transaction: u32,
) -> Result<JoinAns, AskFault>
    requires { S.has_failed stream.old ≡ false }
{
    ask(alloc, stream, host, body, transaction)
}
