//! JSON objects whose fields have no parts.

ghost use Rattle.std.specs.Prelude.{◌≡◌, IfOk, OnOk};
ghost use Rattle.serde_json.specs.Data.{no_members, put};
ghost use Rattle.serde_json.specs.View.{view, members_view};
ghost use Rattle.ns_roster.specs.Object.{scalar_data, with_fields, object_of};

use crate::field::eui_text;
use serde_json::{Map, Value};
use std::alloc::{AllocError, Global};

/// A value without parts.
#[derive(Clone, Copy)]
pub enum Scalar<'a> {
    Null,
    Truth(bool),
    Whole(u64),
    /// A number that need not be whole. One that is not finite is written as null.
    Float(f64),
    /// An EUI, in hex, as `eui_text` writes it.
    Eui(u64),
    /// A text of the program.
    Word(&'static str),
    Text(&'a str),
}

// The value of a scalar.
fn scalar_value(alloc: Global, scalar: Scalar<'_>) -> Result<Value, AllocError>
    ensures { IfOk result (λ v. view v ≡ scalar_data scalar.entry) }
{
    match scalar {
        Scalar::Null => Ok(Value::Null),
        Scalar::Truth(truth) => Ok(Value::from(truth)),
        Scalar::Whole(number) => Ok(Value::from(number)),
        Scalar::Float(number) => Ok(Value::from(number)),
        Scalar::Eui(eui) => Ok(Value::String(eui_text(alloc, eui)?)),
        Scalar::Word(text) | Scalar::Text(text) => {
            let text = String::from_str(alloc, text)?;
            Ok(Value::String(text))
        }
    }
}

// Puts a field in; a key that is there gets the new value.
fn put_field(
    alloc: Global,
    members: &mut Map<String, Value>,
    key: &str,
    scalar: Scalar<'_>,
) -> Result<(), AllocError>
    ensures { OnOk result (members_view members.new.entries
        ≡ put key.now (scalar_data scalar.entry) (members_view members.old.entries)) }
{
    let value = scalar_value(alloc, scalar)?;
    serde_json::put(members, alloc, key, value)
}

/// The members with these fields; of equal keys the last counts.
pub(crate) fn members_of(
    alloc: Global,
    fields: &[(&'static str, Scalar<'_>)],
) -> Result<Map<String, Value>, AllocError>
    ensures { IfOk result (λ m. members_view m.entries ≡ with_fields fields.now no_members) }
{
    let mut members = Map::new(alloc);
    for field in fields {
        put_field(alloc, &mut members, field.0, field.1)?;
    }
    Ok(members)
}

/// The object with these fields; of equal keys the last counts. `json!` writes out two steps that may fail for each field, so a function
/// that makes a large object by it takes long to prove.
pub fn object_of(alloc: Global, fields: &[(&'static str, Scalar<'_>)]) -> Result<Value, AllocError>
    ensures { IfOk result (λ v. view v ≡ object_of fields.now) }
{
    Ok(Value::Object(members_of(alloc, fields)?))
}
