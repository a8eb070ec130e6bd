//! The text of the differences between two images.
ghost use Rattle.std.specs.Prelude.{◌≡◌, ◌+◌, ◌-◌, ◌<◌, ◌≤◌, ◌++◌, length, slice_index, OnOk, IfOk};
ghost use Rattle.std.specs.String.{string_bytes};
ghost use Rattle.vol_layout.specs.Geometry.{Fits};
ghost use Rattle.vol_fields.specs.Differences.{IsDiffText, IsShared};
ghost use Rattle.vol_fields.specs.Values.{value_kind};
ghost use Rattle.vol_fields.specs.DiffLines.{
  after_part,
  array_line,
  block_line,
  block_text,
  blocks_text,
  bytes_text,
  change_text,
  changed_bytes,
  count_text,
  difference_line,
  field_bytes,
  field_line,
  former_text,
  is_kept,
  length_line,
  mode_text,
  named_part,
  old_value,
  part_text,
  places_text,
  plain_number,
  plain_value,
};

use crate::differences::{Difference, MappedImage, list_differences};
use crate::field::{Field, field_at, role_at};
use crate::field_groups::is_same_field;
use crate::lines::fields_name;
use crate::names::{Name, ValueKind};
use crate::role::Role;
use crate::role_changes::is_moved;
use crate::runs::Spot;
use crate::values::{number_in, shown_name};
use escaped_text::push_escaped;
use pdp_words::{BLOCK, Image};
use std::alloc::{AllocError, Global};

/// Returns the differences between two images, a line for each.
pub fn diff_text(
    alloc: Global,
    old: &MappedImage<'_>,
    new: &MappedImage<'_>,
    all: bool,
) -> Result<Vec<u8>, AllocError>
    requires old { Fits old.now.geometry.now old.now.image.now }
    requires new { Fits new.now.geometry.now new.now.image.now }
    ensures { IfOk result (λ text. IsDiffText old.now.geometry.now old.now.roles.now old.now.image.now new.now.geometry.now new.now.roles.now
        new.now.image.now all text.items) }
{
    let found = list_differences(alloc, old, new, all)?;
    let mut text = Vec::new(alloc);
    for difference in &found {
        push_line(alloc, &mut text, old, new, *difference)?;
    }
    Ok(text)
}

/// Appends the line of a difference.
fn push_line(
    alloc: Global,
    text: &mut Vec<u8>,
    old: &MappedImage<'_>,
    new: &MappedImage<'_>,
    difference: Difference,
) -> Result<(), AllocError>
    requires fits { Fits old.now.geometry.now old.now.image.now }
    requires shared { IsShared (length new.now.image.now) (length old.now.image.now) difference }
    ensures { OnOk result (text.new.items ≡ text.old.items
        ++ difference_line old.now.geometry.now old.now.roles.now old.now.image.now new.now.roles.now new.now.image.now difference) }
{
    match difference {
        Difference::Lengths { old, new } => push_length_line(alloc, text, old, new),
        Difference::Roles { first, last, .. } => {
            push_block_line(alloc, text, old.roles, new.roles, first, last)
        }
        Difference::Field(field) => push_field_line(alloc, text, old, new, &field),
        Difference::Fields { first, last, count } => {
            push_array_line(alloc, text, new.roles, &first, &last, count)
        }
    }
}

/// Appends the line of two lengths.
fn push_length_line(
    alloc: Global,
    text: &mut Vec<u8>,
    old: usize,
    new: usize,
) -> Result<(), AllocError>
    ensures { OnOk result (text.new.items ≡ text.old.items ++ length_line old new) }
{
    let line = format!(in alloc; "image: {old} -> {new} bytes\n")?;
    Ok(text.extend_from_slice(line.as_bytes())?)
}

/// Appends the line of blocks whose roles changed alike, with the roles of the first of them.
#[tactic(auto, unfolding(crate::specs::DiffLines::block_line))]
fn push_block_line(
    alloc: Global,
    text: &mut Vec<u8>,
    old: &[Role],
    new: &[Role],
    first: usize,
    last: usize,
) -> Result<(), AllocError>
    ensures { OnOk result (text.new.items ≡ text.old.items ++ block_line old.now new.now first last) }
{
    let blocks = blocks_text(alloc, first, last)?;
    let was = role_at(old, first);
    let is = role_at(new, first);
    let change = format!(in alloc; ": {was} -> {is}\n")?;
    text.extend_from_slice(blocks.as_bytes())?;
    Ok(text.extend_from_slice(change.as_bytes())?)
}

/// Returns the text of the blocks from `first` to `last`.
fn blocks_text(alloc: Global, first: usize, last: usize) -> Result<String, AllocError>
    ensures { IfOk result (λ text. string_bytes text ≡ blocks_text first last) }
{
    if first == last {
        format!(in alloc; "block {first}")
    } else {
        format!(in alloc; "blocks {first} to {last}")
    }
}

/// Appends the line of a field of the new image whose bytes differ.
#[tactic(auto, unfolding(crate::specs::DiffLines::field_line))]
fn push_field_line(
    alloc: Global,
    text: &mut Vec<u8>,
    old: &MappedImage<'_>,
    new: &MappedImage<'_>,
    field: &Field,
) -> Result<(), AllocError>
    requires fits { Fits old.now.geometry.now old.now.image.now }
    requires shared { field.now.spot.start < length old.now.image.now }
    requires within { field.now.spot.start + field.now.spot.bytes ≤ length new.now.image.now }
    ensures { OnOk result (text.new.items ≡ text.old.items
        ++ field_line old.now.geometry.now old.now.roles.now old.now.image.now new.now.roles.now new.now.image.now field.now) }
{
    push_named_part(alloc, text, new.roles, field)?;
    push_change(alloc, text, old, new, field)?;
    Ok(text.extend_from_slice(b"\n")?)
}

/// Appends the line of `count` fields of an array of the new image that differ, from the first to the last of them.
#[tactic(auto, unfolding(crate::specs::DiffLines::array_line))]
fn push_array_line(
    alloc: Global,
    text: &mut Vec<u8>,
    roles: &[Role],
    first: &Field,
    last: &Field,
    count: usize,
) -> Result<(), AllocError>
    ensures { OnOk result (text.new.items ≡ text.old.items ++ array_line roles.now first.now last.now count) }
{
    let part = part_text(alloc, roles, first.part)?;
    text.extend_from_slice(part.as_bytes())?;
    let label = first.spot.name.label();
    let from = first.spot.index;
    let to = last.spot.index;
    let end = format!(in alloc; " {label}[{from}..{to}]: {count} differ\n")?;
    Ok(text.extend_from_slice(end.as_bytes())?)
}

/// Appends the name of a field, after its part.
fn push_named_part(
    alloc: Global,
    text: &mut Vec<u8>,
    roles: &[Role],
    field: &Field,
) -> Result<(), AllocError>
    ensures { OnOk result (text.new.items ≡ text.old.items ++ named_part roles.now field.now) }
{
    let part = part_text(alloc, roles, field.part)?;
    text.extend_from_slice(part.as_bytes())?;
    let name = after_part(alloc, field.spot.name, field.spot.index)?;
    Ok(text.extend_from_slice(name.as_bytes())?)
}

/// Returns the text of a part of an image.
fn part_text(alloc: Global, roles: &[Role], part: Spot) -> Result<String, AllocError>
    ensures { IfOk result (λ text. string_bytes text ≡ part_text roles.now part.name part) }
{
    let index = part.index;
    match part.name {
        Name::Boot => format!(in alloc; "boot block"),
        Name::Super => format!(in alloc; "super-block"),
        Name::Node => format!(in alloc; "i-node {index}"),
        Name::Data => block_text(alloc, index, role_at(roles, index)),
        _ => format!(in alloc; "after the last block"),
    }
}

/// Returns the text of a block with this role, as a part of an image.
fn block_text(alloc: Global, b: usize, role: Role) -> Result<String, AllocError>
    ensures { IfOk result (λ text. string_bytes text ≡ block_text b role) }
{
    match role {
        Role::Slots {
            ino,
            logical: 0,
            ..
        } => format!(in alloc; "directory {ino}"),
        Role::Slots { .. } | Role::Bytes { .. } | Role::Entries { .. } => {
            format!(in alloc; "{role}")
        }
        Role::Chain => format!(in alloc; "chain block {b}"),
        Role::Free => format!(in alloc; "free block {b}"),
        Role::Lost => format!(in alloc; "lost block {b}"),
        Role::Twice => format!(in alloc; "block {b}, named twice"),
        Role::System | Role::Outside => format!(in alloc; "block {b}"),
    }
}

/// Returns the name of a field with this index, as it follows its part. A field that is all of a part has none.
fn after_part(alloc: Global, name: Name, index: usize) -> Result<String, AllocError>
    ensures { IfOk result (λ text. string_bytes text ≡ after_part name index) }
{
    match name {
        Name::Boot | Name::Data | Name::Past | Name::Bytes => Ok(String::new(alloc)),
        _ => {
            let field = fields_name(alloc, name, index, 1)?;
            format!(in alloc; " {field}")
        }
    }
}

/// Appends how a field of the new image differs.
fn push_change(
    alloc: Global,
    text: &mut Vec<u8>,
    old: &MappedImage<'_>,
    new: &MappedImage<'_>,
    field: &Field,
) -> Result<(), AllocError>
    requires fits { Fits old.now.geometry.now old.now.image.now }
    requires shared { field.now.spot.start < length old.now.image.now }
    requires within { field.now.spot.start + field.now.spot.bytes ≤ length new.now.image.now }
    ensures { OnOk result (text.new.items ≡ text.old.items
        ++ change_text old.now.geometry.now old.now.roles.now old.now.image.now new.now.roles.now new.now.image.now (value_kind field.now.spot.name) field.now) }
{
    let kind = field.spot.name.value_kind();
    match kind {
        ValueKind::Bytes => push_bytes(alloc, text, old.image, new.image, field),
        _ => {
            text.extend_from_slice(b" ")?;
            push_old_value(alloc, text, old, new.roles, field)?;
            push_plain_value(alloc, text, kind, field_bytes(new.image, field))
        }
    }
}

/// Returns the bytes of a field in an image.
pub fn field_bytes<'a>(image: &'a Image, field: &Field) -> &'a [u8]
    requires { field.now.spot.start + field.now.spot.bytes ≤ length image.now }
    ensures { result.now ≡ field_bytes image.now field.now }
{
    image.fits_in_memory();
    &image.as_bytes()[field.spot.start..field.spot.start + field.spot.bytes]
}

/// Appends the value of a field in the old image, or what the field was if the old image has another one there, and an arrow.
fn push_old_value(
    alloc: Global,
    text: &mut Vec<u8>,
    old: &MappedImage<'_>,
    roles: &[Role],
    field: &Field,
) -> Result<(), AllocError>
    requires fits { Fits old.now.geometry.now old.now.image.now }
    requires shared { field.now.spot.start < length old.now.image.now }
    ensures { OnOk result (text.new.items ≡ text.old.items
        ++ old_value old.now.geometry.now old.now.roles.now old.now.image.now roles.now field.now) }
{
    let block = field.spot.start / BLOCK;
    let was = role_at(old.roles, block);
    let is = role_at(roles, block);
    let former = field_at(old.image, old.geometry, old.roles, field.spot.start);
    if is_kept(was, is, &former, field) {
        push_plain_value(
            alloc,
            text,
            field.spot.name.value_kind(),
            field_bytes(old.image, &former),
        )?;
        return Ok(text.extend_from_slice(b" -> ")?);
    }
    let words = former_text(alloc, was, is, former.spot.name)?;
    let other = format!(in alloc; "(was {words}) -> ")?;
    Ok(text.extend_from_slice(other.as_bytes())?)
}

/// True if a field of the new image is one of the old image too, in a block of the same role.
pub fn is_kept(was: Role, is: Role, former: &Field, field: &Field) -> bool
    ensures { result ≡ is_kept was is former.now field.now }
{
    is_same_field(former, field) && is_moved(was, is, 0)
}

/// Returns what a field was: the role of its block if that differs, otherwise the name of the other field at its first byte.
pub fn former_text(alloc: Global, was: Role, is: Role, name: Name) -> Result<String, AllocError>
    ensures { IfOk result (λ text. string_bytes text ≡ former_text was is name) }
{
    if is_moved(was, is, 0) {
        String::from_str(alloc, name.label())
    } else {
        format!(in alloc; "{was}")
    }
}

/// Appends the value of a field of this kind with these bytes.
fn push_plain_value(
    alloc: Global,
    text: &mut Vec<u8>,
    kind: ValueKind,
    bytes: &[u8],
) -> Result<(), AllocError>
    ensures { OnOk result (text.new.items ≡ text.old.items ++ plain_value kind bytes.now) }
{
    match kind {
        ValueKind::Name => {
            text.extend_from_slice(b"\"")?;
            push_escaped(text, shown_name(bytes))?;
            Ok(text.extend_from_slice(b"\"")?)
        }
        _ => match number_in(bytes) {
            Some(n) => {
                let digits = plain_number(alloc, kind, n)?;
                Ok(text.extend_from_slice(digits.as_bytes())?)
            }
            None => Ok(()),
        },
    }
}

/// Returns a number that a field of this kind has.
fn plain_number(alloc: Global, kind: ValueKind, n: u32) -> Result<String, AllocError>
    ensures { IfOk result (λ text. string_bytes text ≡ plain_number kind n) }
{
    match kind {
        ValueKind::Mode => mode_text(alloc, n),
        _ => format!(in alloc; "{n}"),
    }
}

/// Returns a mode in octal digits.
fn mode_text(alloc: Global, n: u32) -> Result<String, AllocError>
    ensures { IfOk result (λ text. string_bytes text ≡ mode_text n) }
{
    if n == 0 {
        format!(in alloc; "0")
    } else {
        format!(in alloc; "0{n:o}")
    }
}

/// Appends which bytes of a field differ, as far as both images have them.
fn push_bytes(
    alloc: Global,
    text: &mut Vec<u8>,
    old: &Image,
    new: &Image,
    field: &Field,
) -> Result<(), AllocError>
    requires shared { field.now.spot.start < length old.now }
    requires within { field.now.spot.start + field.now.spot.bytes ≤ length new.now }
    ensures { OnOk result (text.new.items ≡ text.old.items ++ bytes_text old.now new.now field.now) }
{
    new.fits_in_memory();
    let end = (field.spot.start + field.spot.bytes).min(old.len());
    let changed = changed_bytes(alloc, old, new, field.spot.start, end)?;
    let words = places_text(alloc, field.part.start, &changed)?;
    Ok(text.extend_from_slice(words.as_bytes())?)
}

/// Returns the bytes from `from` up to `to` that differ.
#[tactic(auto, unfolding(crate::specs::DiffLines::changed_bytes))]
pub fn changed_bytes(
    alloc: Global,
    old: &Image,
    new: &Image,
    from: usize,
    to: usize,
) -> Result<Vec<usize>, AllocError>
    requires old { to ≤ length old.now }
    requires new { to ≤ length new.now }
    ensures { IfOk result (λ changed. changed.items ≡ changed_bytes old.now new.now from to) }
{
    (from..to)
        .filter(|n| old.byte(*n) != new.byte(*n))
        .collect(alloc)
}

/// Returns how many of the bytes of a part that begins at byte `start` differ, and the places of the first and the last of these in the part.
fn places_text(alloc: Global, start: usize, changed: &[usize]) -> Result<String, AllocError>
    ensures { IfOk result (λ text. string_bytes text ≡ places_text start changed.now) }
{
    let count = changed.len();
    let first = place_in(start, changed, 0);
    let last = place_in(start, changed, count.saturating_sub(1));
    count_text(alloc, count, first, last)
}

/// Returns how many bytes differ, and the places of the first and the last of them.
fn count_text(alloc: Global, count: usize, first: usize, last: usize) -> Result<String, AllocError>
    ensures { IfOk result (λ text. string_bytes text ≡ count_text count first last) }
{
    if count == 1 {
        format!(in alloc; ": 1 byte differs, {first}")
    } else {
        format!(in alloc; ": {count} bytes differ, {first} to {last}")
    }
}

/// Returns how far the byte at place `k` of a list is from byte `start`.
pub fn place_in(start: usize, changed: &[usize], k: usize) -> usize
    ensures { result ≡ slice_index changed.now k - start }
{
    match changed.get(k) {
        Some(n) => n.saturating_sub(start),
        None => 0,
    }
}
