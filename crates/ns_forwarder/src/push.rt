//! The frames of a PUSH_DATA.

ghost use Rattle.std.specs.Prelude.{◌≡◌, ◌+◌, ◌≤◌, length, map, IfOk, IfErr, OnOk};
ghost use Rattle.serde_json.specs.View.{view};
ghost use Rattle.ns_types.specs.Results.{Gives};
ghost use Rattle.ns_forwarder.specs.declared.fault.ForwarderFault.TheVariants.{NoMemory};
ghost use Rattle.ns_forwarder.specs.Rxpk.{item_of};
ghost use Rattle.ns_forwarder.specs.Push.{push_from, with_result, values_of, push_of};
ghost use Rattle.ns_forwarder.specs.Held.{push_view};
ghost use Rattle.ns_forwarder.specs.Handed.{AreOfBand};

use crate::ForwarderFault;
use crate::item::{Item, read_item};
use crate::left_out::LeftOut;
use ns_roster::field::value_of;
use serde_json::Value;
use std::alloc::Global;

/// The most items of a body that are looked at.
const MOST_ITEMS: usize = 255;

/// What the body of a PUSH_DATA says.
#[derive(Drop)]
pub struct Push {
    /// The frames that are handed on, in the order of their items.
    pub items: Vec<Item>,
    /// Why each of the other items is left out (F7 to F10), in order.
    pub left_out: Vec<LeftOut>,
}

// The items of the list `rxpk`; none where there is no such list.
#[tactic(auto, using(ns_roster::proofs::TextLemmas::items_list_of_items))]
fn values_of(root: &Value) -> Result<&[Value], ForwarderFault>
    ensures { Gives NoMemory (λ v. map view v.now) result (values_of (view root.now)) }
{
    root.as_object().ok_or(ForwarderFault::Body)?;
    match root.get("rxpk") {
        Some(found) => {
            let values = found.as_array().ok_or(ForwarderFault::Body)?;
            Ok(values.as_slice())
        }
        None => Ok(&[]),
    }
}

// Puts in what one more item says, or why it is left out.
fn put(alloc: Global, push: &mut Push, value: &Value) -> Result<(), ForwarderFault>
    requires { AreOfBand push.old.items.items }
    ensures put { OnOk result (push_view push.new ≡ with_result (push_view push.old) (item_of (view value.now))) }
    ensures band { OnOk result (AreOfBand push.new.items.items) }
    ensures memory { IfErr result (λ e. e ≡ NoMemory) }
{
    match read_item(alloc, value) {
        Ok(item) => push.items.push(item)?,
        Err(ForwarderFault::NoMemory) => return Err(ForwarderFault::NoMemory),
        Err(fault) => push.left_out.push(LeftOut::of(value, fault))?,
    }
    Ok(())
}

// What the items say, in order.
fn read_items(alloc: Global, values: &[Value]) -> Result<Push, ForwarderFault>
    ensures read { IfOk result (λ p. push_view p ≡ push_from (map view values.now)) }
    ensures band { IfOk result (λ p. AreOfBand p.items.items) }
    ensures memory { IfErr result (λ e. e ≡ NoMemory) }
{
    let mut push = Push {
        items: Vec::new(alloc),
        left_out: Vec::new(alloc),
    };
    for value in values {
        put(alloc, &mut push, value)?;
    }
    Ok(push)
}

/// Reads the body of a PUSH_DATA: the frames that are handed on, and why each of the other items is left out. A body without `rxpk` has
/// no items. F6 where it is no JSON object, or `rxpk` no list, and F5 where that has more than 255 items, none of which is then looked at.
/// NoMemory where memory ran out before the answer was known.
#[tactic(auto, unfolding(crate::specs::Push::push_of))]
pub fn read_push(alloc: Global, body: &[u8]) -> Result<Push, ForwarderFault>
    ensures gives { Gives NoMemory push_view result (push_of body.now) }
    ensures band { IfOk result (λ p. AreOfBand p.items.items) }
{
    let root = value_of(alloc, body)?.ok_or(ForwarderFault::Body)?;
    let values = values_of(&root)?;
    if values.len() > MOST_ITEMS {
        return Err(ForwarderFault::TooMany);
    }
    read_items(alloc, values)
}
