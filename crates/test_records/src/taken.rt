//! Checkpoints that are taken in the place of a record, and that no other is.

use crate::life::Life;
use ns_calls::{Call, Reply};
use ns_device::calls::{join, join_reply, uplink};
use ns_resume::RecordFault;
use ns_types::WindowName;
use std::alloc::Global;

// A device's uplink is heard, and its window is closed.
fn send(life: &mut Life, counter: u32, confirmed: bool) -> Result<(), RecordFault> {
    let Some(call) = uplink(1, 1, counter, confirmed, 0) else {
        return Ok(());
    };
    if let Reply::Opened { window } = life.make(call)? {
        life.make(Call::Close { window })?;
    }
    Ok(())
}

// One thing of these, by its number: a join, an uplink that is acknowledged, four that are not, and an asking for a further join.
fn happen(life: &mut Life, number: u32) -> Result<(), RecordFault> {
    match number {
        0 => {
            life.make(join(1, 1, 0))?;
        }
        1 => {
            life.make(join_reply(1, 1, true))?;
        }
        2 => send(life, 2, true)?,
        3..6 => send(life, number, false)?,
        _ => {
            life.make(join(1, 2, 0))?;
        }
    }
    Ok(())
}

// A server to which so many of these happened.
fn life_of(alloc: Global, count: u32) -> Result<Life, RecordFault> {
    let mut life = Life::new(alloc)?;
    for number in 0..count {
        happen(&mut life, number)?;
    }
    Ok(life)
}

// How many checkpoints of servers to which less happened are taken, and whether the own one is.
fn taken(alloc: Global) -> Result<(u32, bool), RecordFault> {
    let mut life = life_of(alloc, 7)?;
    let mut others = 0u32;
    for count in 0..7u32 {
        let text = life_of(alloc, count)?.checkpoint()?;
        if life.take(text) == Ok(true) {
            others = others.saturating_add(1);
        }
    }
    let own = life.checkpoint()?;
    let is_taken = life.take(own)?;
    Ok((others, is_taken))
}

#[test]
fn checkpoints_of_less_are_not_taken(rt: HostRuntime) {
    assert!(rt; taken(rt.alloc()) == Ok((0, true)));
}

// One join, two windows of confirmed uplinks and counters up to 400,000.
fn live_long(life: &mut Life) -> Result<(), RecordFault> {
    life.make(join(1, 1, 0))?;
    life.make(join_reply(1, 1, true))?;
    for place in 0..41u32 {
        send(life, place.wrapping_mul(10_000), place % 20 == 10)?;
    }
    Ok(())
}

// How many bytes its checkpoint has, if that is taken.
fn bytes_at_rest(alloc: Global) -> Result<Option<usize>, RecordFault> {
    let mut life = Life::new(alloc)?;
    live_long(&mut life)?;
    let text = life.checkpoint()?;
    let bytes = text.len();
    Ok(if life.take(text)? { Some(bytes) } else { None })
}

/// A device at rest has at most 250 bytes, beside 213 of the head, the sixteen shards and the end.
#[test]
fn bytes_of_a_device_at_rest_are_bounded(rt: HostRuntime) {
    assert!(rt; matches!(bytes_at_rest(rt.alloc()), Ok(Some(213..464))));
}

// An uplink with this counter, of which the first was not confirmed, is heard once more, confirmed, after its closing: a device may do so
// (LoRaWAN L2 1.0.4, 4.3.1.2). Gives its window.
fn send_again(life: &mut Life, counter: u32) -> Result<Option<WindowName>, RecordFault> {
    let Some(call) = uplink(1, 1, counter, true, 0) else {
        return Ok(None);
    };
    let Reply::Again { window } = life.make(call)? else {
        return Ok(None);
    };
    life.make(Call::Close { window })?;
    Ok(Some(window))
}

// Of one session six uplinks, of which the third is acknowledged in a later round.
fn live_again(life: &mut Life) -> Result<Option<WindowName>, RecordFault> {
    life.make(join(1, 1, 0))?;
    life.make(join_reply(1, 1, true))?;
    for counter in 0..3u32 {
        send(life, counter, false)?;
    }
    let window = send_again(life, 2)?;
    for counter in 3..6u32 {
        send(life, counter, false)?;
    }
    Ok(window)
}

// Its window is of the second round. A server that goes on with the checkpoint acknowledges the next uplink with number 1.
fn goes_on_after_again(alloc: Global) -> Result<Option<bool>, RecordFault> {
    let mut life = Life::new(alloc)?;
    let Some(window) = live_again(&mut life)? else {
        return Ok(None);
    };
    let text = life.checkpoint()?;
    if window.round != 2 || !life.take(text)? {
        return Ok(Some(false));
    }
    life.restart()?;
    let Some(call) = uplink(1, 1, 6, true, 0) else {
        return Ok(None);
    };
    let Reply::Opened { window } = life.make(call)? else {
        return Ok(Some(false));
    };
    let reply = life.make(Call::Close { window })?;
    let ack = Some(1);
    Ok(Some(reply == Reply::Closed { window, ack }))
}

/// A counter that came first unconfirmed and then, after the closing, confirmed.
#[test]
fn records_with_a_later_round_are_compacted(rt: HostRuntime) {
    assert!(rt; goes_on_after_again(rt.alloc()) == Ok(Some(true)));
}
