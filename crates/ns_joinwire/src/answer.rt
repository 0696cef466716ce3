//! A join server's answer.

ghost use Rattle.std.specs.Prelude.{◌≡◌, option_map};
ghost use Rattle.serde_json.specs.View.{view};
ghost use Rattle.ns_types.specs.Results.{Gives};
ghost use Rattle.ns_exchange.specs.declared.answer.AnsFault.TheVariants.{NoMemory};
ghost use Rattle.ns_joinwire.specs.JoinAns.{answer_of, joinans};
ghost use Rattle.ns_joinwire.specs.Parts.{head_of, body_of, transaction_of, result_code_of, app_envelope};
ghost use Rattle.ns_joinwire.specs.Private.Held.{head_view, body_view, envelope_view};

use crate::envelope::{KeyEnvelope, app_key, field, join_accept_of};
use ns_calls::JoinAns;
use ns_exchange::{AnsFault, ResultCode};
use ns_roster::field::{text_at, value_of, whole_at};
use serde_json::Value;
use std::alloc::Global;

// What a message is about.
#[derive(Clone, Copy)]
struct Head<'a> {
    message_type: &'a str,
    transaction: u32,
    result_code: &'a str,
}

// The fields of a join that succeeded.
#[derive(Clone, Copy)]
struct Body<'a> {
    phy_payload: &'a str,
    nwk: KeyEnvelope<'a>,
    app: Option<KeyEnvelope<'a>>,
}

// TransactionID: a whole number of 32 bits.
fn transaction_of(message: &Value) -> Option<u32>
    ensures { result ≡ transaction_of (view message.now) }
{
    let number = whole_at(message, "TransactionID")?;
    if number <= u32::MAX as u64 {
        Some(number as u32)
    } else {
        None
    }
}

// ResultCode: a text in the object Result.
fn result_code_of(message: &Value) -> Option<&str>
    ensures { option_map (λ s. s.now) result ≡ result_code_of (view message.now) }
{
    text_at(message.get("Result")?, "ResultCode")
}

// The fields that say which message this is, and whether the join succeeded.
fn head_of(message: &Value) -> Option<Head<'_>>
    ensures { option_map head_view result ≡ head_of (view message.now) }
{
    let message_type = text_at(message, "MessageType")?;
    let transaction = transaction_of(message)?;
    let result_code = result_code_of(message)?;
    Some(Head {
        message_type,
        transaction,
        result_code,
    })
}

// The envelope of the AppSKey, if there is one.
fn app_envelope(message: &Value) -> Option<Option<KeyEnvelope<'_>>>
    ensures { option_map (λ e. option_map envelope_view e) result ≡ app_envelope (view message.now) }
{
    match field(message, "AppSKey") {
        Some(envelope) => KeyEnvelope::of(envelope).map(Some),
        None => Some(None),
    }
}

// The fields of a join that succeeded.
fn body_of(message: &Value) -> Option<Body<'_>>
    ensures { option_map body_view result ≡ body_of (view message.now) }
{
    let phy_payload = text_at(message, "PHYPayload")?;
    let nwk = KeyEnvelope::of(message.get("NwkSKey")?)?;
    let app = app_envelope(message)?;
    Some(Body {
        phy_payload,
        nwk,
        app,
    })
}

// What a message answers to a transaction, or its first fault. It takes no memory.
fn answer_of(message: &Value, transaction: u32) -> Result<JoinAns, AnsFault>
    ensures { result ≡ answer_of (view message.now) transaction }
{
    let head = head_of(message).ok_or(AnsFault::Field)?;
    if head.message_type != "JoinAns" || head.transaction != transaction {
        return Err(AnsFault::AnotherMessage);
    }
    if head.result_code != "Success" {
        return Err(AnsFault::Refused(ResultCode::of(head.result_code)));
    }
    let body = body_of(message).ok_or(AnsFault::Field)?;
    let accept = join_accept_of(body.phy_payload).ok_or(AnsFault::NoJoinAccept)?;
    let nwk = body.nwk.nwk_key().ok_or(AnsFault::NwkSKey)?;
    let app = app_key(body.app).ok_or(AnsFault::Field)?;
    Ok(JoinAns { accept, nwk, app })
}

/// What a join server's text answers to a transaction (TS002, JoinAns), or its first fault. The tests come in this order: A1; A2 of
/// MessageType, TransactionID and ResultCode; A3; A4; A2 of PHYPayload, NwkSKey and AppSKey; A5; A6; A2 of an AppSKey that is not
/// wrapped and is not 16 bytes. NoMemory where memory ran out before the answer was known.
#[tactic(auto, unfolding(crate::specs::JoinAns::joinans))]
pub fn join_ans(alloc: Global, bytes: &[u8], transaction: u32) -> Result<JoinAns, AnsFault>
    ensures { Gives NoMemory (λ answer. answer) result (joinans bytes.now transaction) }
{
    let message = value_of(alloc, bytes)?.ok_or(AnsFault::NotJson)?;
    answer_of(&message, transaction)
}
