//! What a join server answers (TS002, JoinAns).

ghost use Rattle.std.specs.Prelude.{◌≡◌, IfOk, OnOk, string_bytes};
ghost use Rattle.hex.specs.Hex.{encode_lower};
ghost use Rattle.serde_json.specs.Written.{compact_text};
ghost use Rattle.ns_joinwire.specs.JoinAns.{joinans};
ghost use Rattle.ns_device.specs.Joins.{BeginsAccept, GrantReadsBack, HexReadsBack, ReadsBack, read_of};
ghost use Rattle.serde_json.specs.View.{view};
ghost use Rattle.ns_device.specs.Reply.{failed, handed_over, is_success, joined, message, plain_key, result_code};

use ns_types::Key;
use serde_json::{Value, json};
use std::alloc::{AllocError, Global};

/// What a join that succeeds hands over.
#[derive(Clone, Copy)]
pub struct Grant {
    /// The Join-Accept.
    pub accept: [u8; 17],
    /// NwkSKey.
    pub nwk: Key,
    /// AppSKey.
    pub app: Key,
}

/// What is answered to a JoinReq.
#[derive(Clone, Copy)]
pub enum Answer {
    Success(Grant),
    /// The Join-Request's MIC doesn't fit the device's AppKey.
    MicFailed,
    /// The device isn't known.
    Other,
}

// The object of a ResultCode.
fn result_code(alloc: Global, code: &str) -> Result<Value, AllocError>
    ensures { IfOk result (λ v. view v ≡ result_code code.now) }
{
    json!(in alloc; {"ResultCode": code})
}

// The object of a key in hex that none wraps.
fn plain_key(alloc: Global, key: &str) -> Result<Value, AllocError>
    ensures { IfOk result (λ v. view v ≡ plain_key key.now) }
{
    json!(in alloc; {"AESKey": key, "KEKLabel": ""})
}

// The message of a join that failed.
fn failed(alloc: Global, code: &str, transaction: u32) -> Result<Value, AllocError>
    ensures { IfOk result (λ v. view v ≡ failed code.now transaction) }
{
    json!(in alloc; {
        "MessageType": "JoinAns",
        "Result": result_code(alloc, code)?,
        "TransactionID": transaction
    })
}

// The message of a join that succeeded, with its Join-Accept and its keys in hex.
fn joined(
    alloc: Global,
    accept: &str,
    nwk: &str,
    app: &str,
    transaction: u32,
) -> Result<Value, AllocError>
    ensures { IfOk result (λ v. view v ≡ joined accept.now nwk.now app.now transaction) }
{
    json!(in alloc; {
        "AppSKey": plain_key(alloc, app)?,
        "MessageType": "JoinAns",
        "NwkSKey": plain_key(alloc, nwk)?,
        "PHYPayload": accept,
        "Result": result_code(alloc, "Success")?,
        "TransactionID": transaction
    })
}

// A Join-Accept in hex. It is read back.
fn accept_text(alloc: Global, accept: &[u8; 17]) -> Result<String, AllocError>
    ensures text { IfOk result (λ s. string_bytes s ≡ encode_lower accept.now) }
    ensures reads_back { HexReadsBack 17 accept.now }
{
    hex::encode(alloc, accept.as_slice())
}

// A key in hex. It is read back.
fn key_text(alloc: Global, key: &[u8; 16]) -> Result<String, AllocError>
    ensures text { IfOk result (λ s. string_bytes s ≡ encode_lower key.now) }
    ensures reads_back { HexReadsBack 16 key.now }
{
    hex::encode(alloc, key.as_slice())
}

// The message that hands a join over.
fn handed_over(alloc: Global, grant: &Grant, transaction: u32) -> Result<Value, AllocError>
    ensures view { IfOk result (λ v. view v ≡ handed_over grant.now transaction) }
    ensures reads_back { OnOk result (GrantReadsBack grant.now) }
{
    let accept = accept_text(alloc, &grant.accept)?;
    let nwk = key_text(alloc, &grant.nwk.0)?;
    let app = key_text(alloc, &grant.app.0)?;
    joined(
        alloc,
        accept.as_str(),
        nwk.as_str(),
        app.as_str(),
        transaction,
    )
}

impl Answer {
    /// Whether the join succeeded.
    pub(crate) fn is_success(&self) -> bool
        ensures { result ≡ is_success self.now }
    {
        matches!(self, Answer::Success(_))
    }

    // The message that says so of a transaction.
    fn message(&self, alloc: Global, transaction: u32) -> Result<Value, AllocError>
        ensures view { IfOk result (λ v. view v ≡ message self.now transaction) }
        ensures reads_back { OnOk result (ReadsBack self.now) }
    {
        match self {
            Answer::Success(grant) => handed_over(alloc, grant, transaction),
            Answer::MicFailed => failed(alloc, "MICFailed", transaction),
            Answer::Other => failed(alloc, "Other", transaction),
        }
    }

    /// The text that says so of a transaction. It is read back.
    pub(crate) fn text(&self, alloc: Global, transaction: u32) -> Result<String, AllocError>
        requires { BeginsAccept self.now }
        ensures text { IfOk result (λ s. string_bytes s ≡ compact_text (message self.now transaction)) }
        ensures read { IfOk result (λ s. joinans (string_bytes s) transaction ≡ read_of self.now) }
    {
        let message = self.message(alloc, transaction)?;
        message.to_string(alloc)
    }
}
