//! The rows of a dump as JSON.
ghost use Rattle.std.specs.Prelude.{◌≡◌, ◌+◌, ◌≤◌, length, map, IfOk, string_bytes};
ghost use Rattle.serde_json.specs.View.{view};
ghost use Rattle.vol_layout.specs.Geometry.{Fits};
ghost use Rattle.vol_fields.specs.Rows.{AreWithin, bytes_of};
ghost use Rattle.field_json.specs.Rows.{dump_data, field_count, row_data, rows_json};

use crate::meanings::meaning_value;
use crate::roles::role_value;
use crate::values::{ino_value, value_value};
use pdp_words::{BLOCK, Image};
use serde_json::{Value, json};
use std::alloc::{AllocError, Global};
use vol_fields::{Role, Row, first_bytes, role_at};
use vol_layout::Geometry;
use vol_listing::json::{FORMAT, line};

/// Returns rows of bytes of one block as one JSON object, on one line, given the role of each block. Their bytes are from byte `from` of the image up to
/// byte `to`.
///
/// Takes memory for the objects and for the text.
pub fn rows_json(
    alloc: Global,
    image: &Image,
    geometry: &Geometry,
    roles: &[Role],
    from: usize,
    to: usize,
    rows: &[Row],
) -> Result<String, AllocError>
    requires fits { Fits geometry.now image.now }
    requires within { to ≤ length image.now }
    requires rows { AreWithin to rows.now }
    ensures { IfOk result (λ text. string_bytes text ≡ rows_json geometry.now roles.now image.now from rows.now) }
{
    let value = dump_value(alloc, image, geometry, roles, from, to, rows)?;
    line(alloc, &value)
}

/// Returns rows as a JSON value, with the block that they are in.
fn dump_value(
    alloc: Global,
    image: &Image,
    geometry: &Geometry,
    roles: &[Role],
    from: usize,
    to: usize,
    rows: &[Row],
) -> Result<Value, AllocError>
    requires fits { Fits geometry.now image.now }
    requires within { to ≤ length image.now }
    requires rows { AreWithin to rows.now }
    ensures { IfOk result (λ value. view value ≡ dump_data geometry.now roles.now image.now from rows.now) }
{
    let block = from / BLOCK;
    let role = role_value(alloc, role_at(roles, block))?;
    let rows = Value::Array(row_values(alloc, image, geometry, roles, to, rows)?);
    json!(in alloc; {"block": block, "format": FORMAT, "role": role, "rows": rows})
}

/// Returns rows as JSON values.
fn row_values(
    alloc: Global,
    image: &Image,
    geometry: &Geometry,
    roles: &[Role],
    to: usize,
    rows: &[Row],
) -> Result<Vec<Value>, AllocError>
    requires fits { Fits geometry.now image.now }
    requires within { to ≤ length image.now }
    requires rows { AreWithin to rows.now }
    ensures { IfOk result (λ values. map view values.items ≡ map (row_data geometry.now roles.now image.now) rows.now) }
{
    let mut values = Vec::new(alloc);
    for row in rows {
        let value = row_value(alloc, image, geometry, roles, row)?;
        values.push(value)?;
    }
    Ok(values)
}

/// Returns a row as a JSON value.
#[tactic(auto, unfolding(crate::specs::Rows::row_data))]
fn row_value(
    alloc: Global,
    image: &Image,
    geometry: &Geometry,
    roles: &[Role],
    row: &Row,
) -> Result<Value, AllocError>
    requires fits { Fits geometry.now image.now }
    requires within { row.now.start + row.now.bytes ≤ length image.now }
    ensures { IfOk result (λ value. view value ≡ row_data geometry.now roles.now image.now row.now) }
{
    let spot = row.field.spot;
    let part = row.field.part;
    let sort = spot.name.value_kind();
    let hex = hex::encode(alloc, bytes_of(image, row))?;
    let number = row.number(image);
    let meaning = meaning_value(alloc, image, geometry, roles, part, sort, number)?;
    let value = value_value(alloc, sort, first_bytes(image, row))?;
    json!(in alloc; {
        "count": field_count(row),
        "field": spot.name.label(),
        "hex": hex,
        "index": spot.index,
        "ino": ino_value(part),
        "meaning": meaning,
        "offset": row.start % BLOCK,
        "value": value
    })
}

/// Returns the bytes of a row.
fn bytes_of<'a>(image: &'a Image, row: &Row) -> &'a [u8]
    requires { row.now.start + row.now.bytes ≤ length image.now }
    ensures { result.now ≡ bytes_of image.now row.now }
{
    image.fits_in_memory();
    &image.as_bytes()[row.start..row.start + row.bytes]
}

/// Returns the number of fields of a row, which has at least a part of one.
fn field_count(row: &Row) -> usize
    ensures { result ≡ field_count row.now }
{
    (row.bytes / row.field.spot.bytes.max(1)).max(1)
}
