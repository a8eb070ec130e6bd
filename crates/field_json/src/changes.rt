//! What differs between two images, as JSON.
ghost use Rattle.std.specs.Prelude.{◌≡◌, ◌+◌, ◌-◌, ◌<◌, ◌≤◌, ◌++◌, length, IfOk, OnOk};
ghost use Rattle.serde_json.specs.View.{view};
ghost use Rattle.vol_layout.specs.Geometry.{Fits};
ghost use Rattle.vol_fields.specs.Differences.{IsShared};
ghost use Rattle.vol_fields.specs.Values.{value_kind};
ghost use Rattle.field_json.specs.Items.{item_text};
ghost use Rattle.field_json.specs.Changes.{
  AreDifferenceItems,
  array_data,
  block_data,
  bytes_data,
  change_data,
  difference_data,
  field_data,
  length_data,
  old_data,
  places_data,
  was_data,
};

use crate::items::push_item;
use crate::roles::role_value;
use crate::values::{ino_value, value_value};
use pdp_words::{BLOCK, Image};
use serde_json::{Value, json};
use std::alloc::{AllocError, Global};
use vol_fields::{
    Difference, Field, MappedImage, Name, Role, ValueKind, changed_bytes, field_at, field_bytes,
    former_text, is_kept, list_differences, place_in, role_at,
};

/// Returns the differences between two images, an item of a list for each line of [`vol_fields::diff_text`], in their order: the text of these items, with
/// a comma before each.
///
/// Takes the memory of [`list_differences`], and memory for the text.
pub fn difference_items(
    alloc: Global,
    old: &MappedImage<'_>,
    new: &MappedImage<'_>,
    all: bool,
) -> Result<Vec<u8>, AllocError>
    requires old { Fits old.now.geometry.now old.now.image.now }
    requires new { Fits new.now.geometry.now new.now.image.now }
    ensures { IfOk result (λ items. AreDifferenceItems old.now.geometry.now old.now.roles.now old.now.image.now new.now.geometry.now new.now.roles.now
        new.now.image.now all items.items) }
{
    let found = list_differences(alloc, old, new, all)?;
    let mut items = Vec::new(alloc);
    for difference in &found {
        push_difference(alloc, &mut items, old, new, *difference)?;
    }
    Ok(items)
}

/// Appends the item of a difference.
fn push_difference(
    alloc: Global,
    items: &mut Vec<u8>,
    old: &MappedImage<'_>,
    new: &MappedImage<'_>,
    difference: Difference,
) -> Result<(), AllocError>
    requires fits { Fits old.now.geometry.now old.now.image.now }
    requires shared { IsShared (length new.now.image.now) (length old.now.image.now) difference }
    ensures { OnOk result (items.new.items ≡ items.old.items ++ item_text
        (difference_data old.now.geometry.now old.now.roles.now old.now.image.now new.now.roles.now new.now.image.now difference)) }
{
    let value = difference_value(alloc, old, new, difference)?;
    push_item(alloc, items, &value)
}

/// Returns a difference as a JSON value.
fn difference_value(
    alloc: Global,
    old: &MappedImage<'_>,
    new: &MappedImage<'_>,
    difference: Difference,
) -> Result<Value, AllocError>
    requires fits { Fits old.now.geometry.now old.now.image.now }
    requires shared { IsShared (length new.now.image.now) (length old.now.image.now) difference }
    ensures { IfOk result (λ value. view value
        ≡ difference_data old.now.geometry.now old.now.roles.now old.now.image.now new.now.roles.now new.now.image.now difference) }
{
    match difference {
        Difference::Lengths { old, new } => length_value(alloc, old, new),
        Difference::Roles { first, count, .. } => {
            block_value(alloc, old.roles, new.roles, first, count)
        }
        Difference::Field(field) => field_value(alloc, old, new, &field),
        Difference::Fields { first, last, count } => {
            array_value(alloc, new.roles, &first, &last, count)
        }
    }
}

/// Returns two lengths as a JSON value.
fn length_value(alloc: Global, old: usize, new: usize) -> Result<Value, AllocError>
    ensures { IfOk result (λ value. view value ≡ length_data old new) }
{
    json!(in alloc; {"line": "length", "new": new, "old": old})
}

/// Returns blocks whose roles changed alike as a JSON value, with the roles of the first of them.
#[tactic(auto, unfolding(crate::specs::Changes::block_data))]
fn block_value(
    alloc: Global,
    old: &[Role],
    new: &[Role],
    first: usize,
    count: usize,
) -> Result<Value, AllocError>
    ensures { IfOk result (λ value. view value ≡ block_data old.now new.now first count) }
{
    let was = role_value(alloc, role_at(old, first))?;
    let is = role_value(alloc, role_at(new, first))?;
    json!(in alloc; {"block": first, "count": count, "line": "role", "new": is, "old": was})
}

/// Returns `count` fields of an array that differ as a JSON value, from the first to the last of them.
#[tactic(auto, unfolding(crate::specs::Changes::array_data))]
fn array_value(
    alloc: Global,
    roles: &[Role],
    first: &Field,
    last: &Field,
    count: usize,
) -> Result<Value, AllocError>
    ensures { IfOk result (λ value. view value ≡ array_data roles.now first.now last.now count) }
{
    let block = first.spot.start / BLOCK;
    let role = role_value(alloc, role_at(roles, block))?;
    json!(in alloc; {
        "block": block,
        "count": count,
        "field": first.spot.name.label(),
        "index": first.spot.index,
        "ino": ino_value(first.part),
        "last_index": last.spot.index,
        "line": "fields",
        "offset": first.spot.start % BLOCK,
        "role": role
    })
}

/// Returns a field of the new image whose bytes differ as a JSON value.
fn field_value(
    alloc: Global,
    old: &MappedImage<'_>,
    new: &MappedImage<'_>,
    field: &Field,
) -> Result<Value, AllocError>
    requires fits { Fits old.now.geometry.now old.now.image.now }
    requires shared { field.now.spot.start < length old.now.image.now }
    requires within { field.now.spot.start + field.now.spot.bytes ≤ length new.now.image.now }
    ensures { IfOk result (λ value. view value ≡ field_data old.now.geometry.now old.now.roles.now old.now.image.now new.now.roles.now new.now.image.now
        (value_kind field.now.spot.name) field.now) }
{
    let kind = field.spot.name.value_kind();
    match kind {
        ValueKind::Bytes => bytes_value(alloc, old.image, new, field),
        _ => change_value(alloc, old, new, kind, field),
    }
}

/// Returns which bytes of a field differ, as far as both images have them, as a JSON value.
#[tactic(auto, unfolding(crate::specs::Changes::bytes_data))]
fn bytes_value(
    alloc: Global,
    old: &Image,
    new: &MappedImage<'_>,
    field: &Field,
) -> Result<Value, AllocError>
    requires shared { field.now.spot.start < length old.now }
    requires within { field.now.spot.start + field.now.spot.bytes ≤ length new.now.image.now }
    ensures { IfOk result (λ value. view value ≡ bytes_data old.now new.now.roles.now new.now.image.now field.now) }
{
    new.image.fits_in_memory();
    let end = (field.spot.start + field.spot.bytes).min(old.len());
    let changed = changed_bytes(alloc, old, new.image, field.spot.start, end)?;
    places_value(alloc, new.roles, field, &changed)
}

/// Returns the places of the bytes of a field that differ as a JSON value.
#[tactic(auto, unfolding(crate::specs::Changes::places_data))]
fn places_value(
    alloc: Global,
    roles: &[Role],
    field: &Field,
    changed: &[usize],
) -> Result<Value, AllocError>
    ensures { IfOk result (λ value. view value ≡ places_data roles.now field.now changed.now) }
{
    let block = field.spot.start / BLOCK;
    let count = changed.len();
    let first = place_in(field.part.start, changed, 0);
    let last = place_in(field.part.start, changed, count.saturating_sub(1));
    let role = role_value(alloc, role_at(roles, block))?;
    json!(in alloc; {
        "block": block,
        "count": count,
        "field": field.spot.name.label(),
        "first_byte": first,
        "ino": ino_value(field.part),
        "last_byte": last,
        "line": "bytes",
        "role": role
    })
}

/// Returns a field of this kind whose value differs as a JSON value.
#[tactic(auto, unfolding(crate::specs::Changes::change_data))]
fn change_value(
    alloc: Global,
    old: &MappedImage<'_>,
    new: &MappedImage<'_>,
    kind: ValueKind,
    field: &Field,
) -> Result<Value, AllocError>
    requires fits { Fits old.now.geometry.now old.now.image.now }
    requires shared { field.now.spot.start < length old.now.image.now }
    requires within { field.now.spot.start + field.now.spot.bytes ≤ length new.now.image.now }
    ensures { IfOk result (λ value. view value
        ≡ change_data old.now.geometry.now old.now.roles.now old.now.image.now new.now.roles.now new.now.image.now kind field.now) }
{
    let block = field.spot.start / BLOCK;
    let was = role_at(old.roles, block);
    let is = role_at(new.roles, block);
    let former = field_at(old.image, old.geometry, old.roles, field.spot.start);
    let kept = is_kept(was, is, &former, field);
    let earlier = old_value(alloc, kept, kind, field_bytes(old.image, &former))?;
    let words = was_value(alloc, kept, was, is, former.spot.name)?;
    let later = value_value(alloc, kind, field_bytes(new.image, field))?;
    let role = role_value(alloc, is)?;
    json!(in alloc; {
        "block": block,
        "field": field.spot.name.label(),
        "index": field.spot.index,
        "ino": ino_value(field.part),
        "line": "field",
        "new": later,
        "offset": field.spot.start % BLOCK,
        "old": earlier,
        "role": role,
        "was": words
    })
}

/// Returns the value of a field with these bytes in the old image, or null if that has another field there.
fn old_value(alloc: Global, kept: bool, kind: ValueKind, bytes: &[u8]) -> Result<Value, AllocError>
    ensures { IfOk result (λ value. view value ≡ old_data kept kind bytes.now) }
{
    if kept {
        value_value(alloc, kind, bytes)
    } else {
        Ok(Value::Null)
    }
}

/// Returns what a field was, or null if the old image has the same field there.
fn was_value(
    alloc: Global,
    kept: bool,
    was: Role,
    is: Role,
    name: Name,
) -> Result<Value, AllocError>
    ensures { IfOk result (λ value. view value ≡ was_data kept was is name) }
{
    if kept {
        Ok(Value::Null)
    } else {
        Ok(Value::String(former_text(alloc, was, is, name)?))
    }
}
