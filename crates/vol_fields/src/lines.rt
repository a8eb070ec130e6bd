//! The lines of a dump.
ghost use Rattle.std.specs.Prelude.{◌≡◌, ◌+◌, ◌-◌, ◌*◌, ◌<◌, ◌≤◌, ◌++◌, ◌∷◌, decimal, length, replicate, OnOk, IfOk};
ghost use Rattle.std.specs.String.{string_bytes};
ghost use Rattle.vol_layout.specs.Geometry.{Fits};
ghost use Rattle.vol_fields.specs.Lines.{
  all_digits,
  byte_digits,
  field_count,
  fields_name,
  first_bytes,
  heading,
  heading_line,
  hex_digit,
  left,
  line_text,
  named_value,
  places,
  right,
  row_columns,
  row_name,
  row_number,
  row_text,
  row_value,
  stored_text,
  unit,
  zeros_text,
};

use crate::field::role_at;
use crate::names::Name;
use crate::role::Role;
use crate::rows::Row;
use crate::runs::Spot;
use crate::values::{number_in, push_value};
use pdp_words::{BLOCK, Image};
use std::alloc::{AllocError, Global};
use vol_layout::Geometry;

/// The digits of bytes.
#[derive(Clone, Copy)]
pub enum Radix {
    /// Two hexadecimal digits.
    Hex,
    /// Three octal digits.
    Octal,
}

/// Appends a row: the line of the heading of its part if it begins that, and its own line without its end.
#[tactic(auto, unfolding(crate::specs::Lines::row_text))]
pub fn push_row(
    alloc: Global,
    text: &mut Vec<u8>,
    image: &Image,
    geometry: &Geometry,
    roles: &[Role],
    radix: Radix,
    row: &Row,
) -> Result<(), AllocError>
    requires fits { Fits geometry.now image.now }
    requires within { row.now.start + row.now.bytes ≤ length image.now }
    ensures { OnOk result (text.new.items ≡ text.old.items ++ row_text geometry.now roles.now image.now radix row.now) }
{
    push_heading_line(alloc, text, roles, row)?;
    push_line(alloc, text, image, geometry, roles, radix, row)
}

/// Appends the line of the heading of a row's part, if the row begins the part.
fn push_heading_line(
    alloc: Global,
    text: &mut Vec<u8>,
    roles: &[Role],
    row: &Row,
) -> Result<(), AllocError>
    ensures { OnOk result (text.new.items ≡ text.old.items ++ heading_line roles.now row.now) }
{
    if row.start != row.field.part.start {
        return Ok(());
    }
    let words = heading(alloc, roles, row.field.part)?;
    text.extend_from_slice(words.as_bytes())?;
    text.extend_from_slice(b"\n")?;
    Ok(())
}

/// Returns the heading of a part.
fn heading(alloc: Global, roles: &[Role], part: Spot) -> Result<String, AllocError>
    ensures { IfOk result (λ text. string_bytes text ≡ heading roles.now part.name part) }
{
    let index = part.index;
    match part.name {
        Name::Boot => format!(in alloc; "block 0: boot block"),
        Name::Super => format!(in alloc; "block 1: super-block"),
        Name::Node => {
            let block = part.start / BLOCK;
            let place = part.start % BLOCK;
            format!(in alloc; "i-node {index}: block {block}, byte {place}")
        }
        Name::Data => {
            let role = role_at(roles, index);
            format!(in alloc; "block {index}: {role}")
        }
        _ => format!(in alloc; "after the last block"),
    }
}

/// Appends the line of a row without its end.
fn push_line(
    alloc: Global,
    text: &mut Vec<u8>,
    image: &Image,
    geometry: &Geometry,
    roles: &[Role],
    radix: Radix,
    row: &Row,
) -> Result<(), AllocError>
    requires fits { Fits geometry.now image.now }
    requires within { row.now.start + row.now.bytes ≤ length image.now }
    ensures { OnOk result (text.new.items ≡ text.old.items ++ line_text geometry.now roles.now image.now radix row.now) }
{
    push_offset(alloc, text, row.start % BLOCK)?;
    push_columns(alloc, text, image, roles, radix, row)?;
    text.extend_from_slice(b"  ")?;
    let name = row_name(alloc, row)?;
    let mut value = Vec::new(alloc);
    push_row_value(alloc, &mut value, image, geometry, roles, row)?;
    push_named(text, name.as_bytes(), &value)
}

/// Appends the place of a byte in its block, right-aligned.
fn push_offset(alloc: Global, text: &mut Vec<u8>, place: usize) -> Result<(), AllocError>
    ensures { OnOk result (text.new.items ≡ text.old.items ++ right 5 (decimal place)) }
{
    let digits = format!(in alloc; "{place}")?;
    push_spaces(text, 5usize.saturating_sub(digits.len()))?;
    text.extend_from_slice(digits.as_bytes())?;
    Ok(())
}

/// Appends the bytes of a row in their columns.
fn push_columns(
    alloc: Global,
    text: &mut Vec<u8>,
    image: &Image,
    roles: &[Role],
    radix: Radix,
    row: &Row,
) -> Result<(), AllocError>
    requires { row.now.start + row.now.bytes ≤ length image.now }
    ensures { OnOk result (text.new.items ≡ text.old.items ++ row_columns roles.now image.now radix row.now) }
{
    let part = row.field.part;
    let width = unit(radix) * places(part.name, role_at(roles, part.index));
    let mut stored = Vec::new(alloc);
    push_stored(alloc, &mut stored, image, radix, row)?;
    push_left(text, &stored, width)
}

/// Appends the bytes of a row.
fn push_stored(
    alloc: Global,
    text: &mut Vec<u8>,
    image: &Image,
    radix: Radix,
    row: &Row,
) -> Result<(), AllocError>
    requires { row.now.start + row.now.bytes ≤ length image.now }
    ensures { OnOk result (text.new.items ≡ text.old.items ++ stored_text radix image.now row.now) }
{
    image.fits_in_memory();
    if row.bytes > 16 || row.bytes > row.field.spot.bytes {
        return push_zeros(alloc, text, radix, row.bytes);
    }
    let bytes = &image.as_bytes()[row.start..row.start + row.bytes];
    push_digits(text, radix, bytes)
}

/// Appends this many zero bytes.
fn push_zeros(
    alloc: Global,
    text: &mut Vec<u8>,
    radix: Radix,
    count: usize,
) -> Result<(), AllocError>
    ensures { OnOk result (text.new.items ≡ text.old.items ++ zeros_text radix count) }
{
    push_byte(text, radix, 0)?;
    let words = format!(in alloc; " .. ({count} bytes)")?;
    text.extend_from_slice(words.as_bytes())?;
    Ok(())
}

/// Appends bytes in digits, with a space before each.
fn push_digits(text: &mut Vec<u8>, radix: Radix, bytes: &[u8]) -> Result<(), AllocError>
    ensures { OnOk result (text.new.items ≡ text.old.items ++ all_digits radix bytes.now) }
{
    for byte in bytes {
        push_byte(text, radix, *byte)?;
    }
    Ok(())
}

/// Appends a byte in digits, with a space before them.
fn push_byte(text: &mut Vec<u8>, radix: Radix, byte: u8) -> Result<(), AllocError>
    ensures { OnOk result (text.new.items ≡ text.old.items ++ (32 ∷ byte_digits radix byte)) }
{
    match radix {
        Radix::Hex => Ok(text.extend_from_slice(&[
            b' ',
            hex_digit(byte / 16),
            hex_digit(byte % 16),
        ])?),
        Radix::Octal => Ok(text.extend_from_slice(&[
            b' ',
            b'0' + byte / 64,
            b'0' + byte / 8 % 8,
            b'0' + byte % 8,
        ])?),
    }
}

/// Returns a digit of a number in hexadecimal digits.
fn hex_digit(digit: u8) -> u8
    requires { digit < 16 }
    ensures { result ≡ hex_digit digit }
{
    if digit < 10 {
        b'0' + digit
    } else {
        b'a' - 10 + digit
    }
}

/// Returns the number of columns of a byte.
fn unit(radix: Radix) -> usize
    ensures exact { result ≡ unit radix }
    ensures few { result ≤ 4 }
{
    match radix {
        Radix::Hex => 3,
        Radix::Octal => 4,
    }
}

/// Returns the number of bytes for which the lines of a part have columns.
fn places(name: Name, role: Role) -> usize
    ensures exact { result ≡ places name role }
    ensures few { result ≤ 16 }
{
    match name {
        Name::Super | Name::Node => 6,
        Name::Data => match role {
            Role::Slots { .. } => 14,
            Role::Entries { .. } | Role::Chain => 6,
            _ => 16,
        },
        _ => 16,
    }
}

/// Returns the name of the fields of a row.
fn row_name(alloc: Global, row: &Row) -> Result<String, AllocError>
    ensures { IfOk result (λ text. string_bytes text ≡ row_name row.now) }
{
    let spot = row.field.spot;
    fields_name(alloc, spot.name, spot.index, row.bytes / spot.bytes.max(1))
}

/// Returns the name of `count` fields that follow one another, the first with this index.
pub(crate) fn fields_name(
    alloc: Global,
    name: Name,
    index: usize,
    count: usize,
) -> Result<String, AllocError>
    ensures { IfOk result (λ text. string_bytes text ≡ fields_name name index count) }
{
    let label = name.label();
    if name.is_in_slot() {
        return format!(in alloc; "slot {index} {label}");
    }
    if !name.is_array() {
        return format!(in alloc; "{label}");
    }
    if count < 2 {
        return format!(in alloc; "{label}[{index}]");
    }
    let last = index as u128 + (count - 1) as u128;
    format!(in alloc; "{label}[{index}..{last}]")
}

impl Row {
    /// Returns the number that the first field of the row has, if it is one of 1 to 4 bytes.
    pub fn number(&self, image: &Image) -> Option<u32>
        requires { self.now.start + self.now.bytes ≤ length image.now }
        ensures { result ≡ row_number image.now self.now }
    {
        number_in(first_bytes(image, self))
    }
}

/// Returns the bytes of the first field of a row.
pub fn first_bytes<'a>(image: &'a Image, row: &Row) -> &'a [u8]
    requires { row.now.start + row.now.bytes ≤ length image.now }
    ensures { result.now ≡ first_bytes image.now row.now }
{
    image.fits_in_memory();
    &image.as_bytes()[row.start..row.start + row.bytes.min(row.field.spot.bytes)]
}

/// Appends the value of the first field of a row, and what it means.
fn push_row_value(
    alloc: Global,
    text: &mut Vec<u8>,
    image: &Image,
    geometry: &Geometry,
    roles: &[Role],
    row: &Row,
) -> Result<(), AllocError>
    requires fits { Fits geometry.now image.now }
    requires within { row.now.start + row.now.bytes ≤ length image.now }
    ensures { OnOk result (text.new.items ≡ text.old.items ++ row_value geometry.now roles.now image.now row.now) }
{
    let bytes = first_bytes(image, row);
    let sort = row.field.spot.name.value_kind();
    push_value(
        alloc,
        text,
        image,
        geometry,
        roles,
        row.field.part,
        sort,
        bytes,
    )
}

/// Appends a name, and a value if there is one.
fn push_named(text: &mut Vec<u8>, name: &[u8], value: &[u8]) -> Result<(), AllocError>
    ensures { OnOk result (text.new.items ≡ text.old.items ++ named_value name.now value.now) }
{
    if value.len() == 0 {
        return Ok(text.extend_from_slice(name)?);
    }
    push_left(text, name, 16)?;
    text.extend_from_slice(b"  ")?;
    text.extend_from_slice(value)?;
    Ok(())
}

/// Appends a text, and spaces after it up to a width.
fn push_left(text: &mut Vec<u8>, words: &[u8], width: usize) -> Result<(), AllocError>
    ensures { OnOk result (text.new.items ≡ text.old.items ++ left width words.now) }
{
    text.extend_from_slice(words)?;
    push_spaces(text, width.saturating_sub(words.len()))
}

/// Appends this many spaces.
fn push_spaces(text: &mut Vec<u8>, count: usize) -> Result<(), AllocError>
    ensures { OnOk result (text.new.items ≡ text.old.items ++ replicate count 32) }
{
    for k in 0..count {
        text.push(b' ')?;
    }
    Ok(())
}
