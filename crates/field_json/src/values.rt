//! The values of fields as JSON.
ghost use Rattle.std.specs.Prelude.{◌≡◌, IfOk};
ghost use Rattle.serde_json.specs.View.{view};
ghost use Rattle.field_json.specs.Values.{ino_data, number_data, numbers_data, value_data};

use serde_json::Value;
use std::alloc::{AllocError, Global};
use vol_fields::{Name, Spot, ValueKind, number_in, shown_name};
use vol_listing::json::{escaped_text, octal};

/// Returns the value of a field of this kind with these bytes, or null if it has none.
#[tactic(auto, unfolding(crate::specs::Values::value_data))]
pub(crate) fn value_value(alloc: Global, sort: ValueKind, bytes: &[u8]) -> Result<Value, AllocError>
    ensures { IfOk result (λ value. view value ≡ value_data sort bytes.now) }
{
    match sort {
        ValueKind::Name => Ok(Value::String(escaped_text(alloc, shown_name(bytes))?)),
        ValueKind::Bytes => Ok(Value::Null),
        ValueKind::Number
        | ValueKind::Mode
        | ValueKind::Moment
        | ValueKind::Inode
        | ValueKind::Block => match number_in(bytes) {
            Some(n) => number_value(alloc, sort, n),
            None => Ok(Value::Null),
        },
    }
}

/// Returns a number that a field of this kind has.
fn number_value(alloc: Global, sort: ValueKind, n: u32) -> Result<Value, AllocError>
    ensures { IfOk result (λ value. view value ≡ number_data sort n) }
{
    match sort {
        ValueKind::Mode => octal(alloc, (n % 65536) as u16),
        _ => Ok(Value::from(n)),
    }
}

/// Returns the i-number of a part that is an i-node, or null.
#[tactic(auto, unfolding(crate::specs::Values::ino_data))]
pub(crate) fn ino_value(part: Spot) -> Value
    ensures { view result ≡ ino_data part.name part.index }
{
    match part.name {
        Name::Node => Value::from(part.index),
        _ => Value::Null,
    }
}
