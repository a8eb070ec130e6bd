//! Lists of lines as JSON.
ghost use Rattle.std.specs.Prelude.{◌≡◌, ◌++◌, codes, false, map, IfOk, List, OnOk, string_bytes};
ghost use Rattle.std.specs.List.{flat_map};
ghost use Rattle.serde_json.specs.Data.{Data};
ghost use Rattle.serde_json.specs.View.{items_of, view};
ghost use Rattle.serde_json.specs.Written.{compact_text, has_float, items_have_float};
ghost use Rattle.field_json.specs.Items.{after_first, around, item_text, lines_data, lines_json};

use serde_json::{Value, json};
use std::alloc::{AllocError, Global};
use vol_listing::json::{FORMAT, line};

/// Appends a value without floats as an item of a list, with a comma before it.
#[tactic(auto, unfolding(crate::specs::Items::item_text))]
pub(crate) fn push_item(alloc: Global, items: &mut Vec<u8>, value: &Value) -> Result<(), AllocError>
    requires { has_float (view value.now) ≡ false }
    ensures { OnOk result (items.new.items ≡ items.old.items ++ item_text (view value.now)) }
{
    let item = value.to_string(alloc)?;
    items.push(b',')?;
    Ok(items.extend_from_slice(item.as_bytes())?)
}

/// Returns one JSON object, on one line, with the items of a list, each of which has a comma before it.
pub fn items_json(alloc: Global, items: &[u8]) -> Result<Vec<u8>, AllocError>
    ensures { (datas : List Data) → items.now ≡ flat_map item_text datas → IfOk result (λ text. text.items ≡ lines_json datas) }
{
    let mut text = Vec::new(alloc);
    push_around(&mut text, items)?;
    Ok(text)
}

/// Appends the text of an object with the items of a list, each of which has a comma before it.
fn push_around(text: &mut Vec<u8>, items: &[u8]) -> Result<(), AllocError>
    ensures { OnOk result (text.new.items ≡ text.old.items ++ around items.now) }
{
    text.extend_from_slice(b"{\"format\":1,\"lines\":[")?;
    push_rest(text, items)?;
    Ok(())
}

/// Appends the items of a list without the comma before the first, and the text after them.
fn push_rest(text: &mut Vec<u8>, items: &[u8]) -> Result<(), AllocError>
    ensures { OnOk result (text.new.items ≡ text.old.items ++ (after_first items.now ++ codes "]}\n")) }
{
    text.extend_from_slice(after_first(items))?;
    Ok(text.extend_from_slice(b"]}\n")?)
}

/// Returns the bytes after the first one.
fn after_first(bytes: &[u8]) -> &[u8]
    ensures { result.now ≡ after_first bytes.now }
{
    match bytes.split_first() {
        Some((_, rest)) => rest,
        None => bytes,
    }
}

/// Returns one JSON object, on one line, with these values without floats.
pub fn values_json(alloc: Global, values: Vec<Value>) -> Result<String, AllocError>
    requires { items_have_float (items_of (map view values.items)) ≡ false }
    ensures { IfOk result (λ text. string_bytes text ≡ lines_json (map view values.items)) }
{
    let value = lines_value(alloc, values)?;
    line(alloc, &value)
}

/// Returns an object with these values.
fn lines_value(alloc: Global, values: Vec<Value>) -> Result<Value, AllocError>
    ensures { IfOk result (λ value. view value ≡ lines_data (map view values.items)) }
{
    let lines = Value::Array(values);
    json!(in alloc; {"format": FORMAT, "lines": lines})
}
