//! Numbers, texts, lists of entries and lines of JSON.
ghost use Rattle.std.specs.Prelude.{◌≡◌, ◌++◌, codes, false, IfOk, map, OnOk, string_bytes};
ghost use Rattle.serde_json.specs.Data.{put as with_member};
ghost use Rattle.serde_json.specs.View.{items_of, members_view, view};
ghost use Rattle.serde_json.specs.Written.{compact_text, has_float, items_have_float};
ghost use Rattle.escaped_text.specs.Escape.{escaped};
ghost use Rattle.vol_listing.specs.Json.{count, entries_text, listed, octal};

use escaped_text::push_escaped;
use serde_json::{Map, Value, json, put};
use std::alloc::{AllocError, Global};

/// The format of what is printed as JSON. Of one format keys are added, but none is dropped, and none gets another name or meaning.
pub const FORMAT: u64 = 1;

/// Returns the text of a value that has no floats, followed by a newline.
pub fn line(alloc: Global, value: &Value) -> Result<String, AllocError>
    requires { has_float (view value.now) ≡ false }
    ensures { IfOk result (λ text. string_bytes text ≡ compact_text (view value.now) ++ codes "\n") }
{
    let mut text = value.to_string(alloc)?;
    text.push_str("\n")?;
    Ok(text)
}

/// Returns an object with these entries, on one line.
pub fn entries_line(alloc: Global, entries: Vec<Value>) -> Result<String, AllocError>
    requires { items_have_float (items_of (map view entries.items)) ≡ false }
    ensures { IfOk result (λ text. string_bytes text ≡ entries_text (map view entries.items)) }
{
    let value = listed_value(alloc, entries)?;
    line(alloc, &value)
}

/// Returns an object with these entries.
fn listed_value(alloc: Global, entries: Vec<Value>) -> Result<Value, AllocError>
    ensures { IfOk result (λ value. view value ≡ listed (map view entries.items)) }
{
    let entries = Value::Array(entries);
    json!(in alloc; {"entries": entries, "format": FORMAT})
}

/// Returns a number as text, in octal digits with a zero before them.
pub fn octal(alloc: Global, number: u16) -> Result<Value, AllocError>
    ensures { IfOk result (λ value. view value ≡ octal number) }
{
    let text = format!(in alloc; "0{number:o}")?;
    Ok(Value::String(text))
}

/// Puts a number into an object.
pub fn put_count(
    alloc: Global,
    object: &mut Map<String, Value>,
    key: &str,
    number: u64,
) -> Result<(), AllocError>
    ensures { OnOk result (members_view object.new.entries ≡ with_member key.now (count number) (members_view object.old.entries)) }
{
    put(object, alloc, key, Value::from(number))
}

/// Returns bytes as escaped text.
pub fn escaped_text(alloc: Global, bytes: &[u8]) -> Result<String, AllocError>
    ensures { IfOk result (λ text. string_bytes text ≡ escaped bytes.now) }
{
    let mut text = Vec::new(alloc);
    push_escaped(&mut text, bytes)?;
    match String::from_utf8(text) {
        Ok(text) => Ok(text),
        Err(_) => unreachable!(),
    }
}
