//! The rows of a dump: the bytes of a part of an image, each with its field.
ghost use Rattle.std.specs.Prelude.{◌≡◌, ◌+◌, ◌-◌, ◌*◌, ◌<◌, ◌≤◌, length, min, IfOk, IsTrue};
ghost use Rattle.vol_layout.specs.Geometry.{Fits};
ghost use Rattle.vol_fields.specs.Fields.{field_at};
ghost use Rattle.vol_fields.specs.Rows.{AreRows, array_end, is_zero, is_zero_item, item_end, row_at, row_bytes, row_end, AreWithin};

use crate::field::{Field, field_at};
use crate::role::Role;
use pdp_words::Image;
use std::alloc::{AllocError, Global};
use vol_layout::Geometry;

/// The most bytes of a row that aren't all zero.
const ROW: usize = 16;

/// Bytes of one field, or of fields of an array that are all zero.
#[derive(Clone, Copy)]
pub struct Row {
    /// The field, or the first of the fields.
    pub field: Field,
    /// The first of the bytes in the image.
    pub start: usize,
    /// The number of bytes: at most 16, or more if all are zero.
    pub bytes: usize,
}

/// Returns the rows of the bytes from `from` up to `to`, in their order, given the role of each block.
pub fn rows_of(
    alloc: Global,
    image: &Image,
    geometry: &Geometry,
    roles: &[Role],
    from: usize,
    to: usize,
) -> Result<Vec<Row>, AllocError>
    requires fits { Fits geometry.now image.now }
    requires order { from ≤ to }
    requires within { to ≤ length image.now }
    ensures rows { IfOk result (λ rows. AreRows geometry.now roles.now image.now to from to rows.items) }
    ensures within { IfOk result (λ rows. AreWithin to rows.items) }
{
    let mut rows = Vec::new(alloc);
    let mut n = from;
    while n < to {
        let row = row_at(image, geometry, roles, to, n);
        rows.push(row)?;
        n += row.bytes;
    }
    Ok(rows)
}

/// Returns the row that begins at byte `n`, if the rows end at byte `to`.
#[tactic(auto, unfolding(crate::specs::Rows::row_at))]
fn row_at(image: &Image, geometry: &Geometry, roles: &[Role], to: usize, n: usize) -> Row
    requires fits { Fits geometry.now image.now }
    requires before { n < to }
    requires within { to ≤ length image.now }
    ensures exact { result ≡ row_at geometry.now roles.now image.now to n }
    ensures some { 0 < result.bytes }
    ensures end { n + result.bytes ≤ to }
{
    image.fits_in_memory();
    let field = field_at(image, geometry, roles, n);
    let end = (field.spot.start + field.spot.bytes).min(to);
    let bytes = if field.spot.name.is_array() && is_zero(image, n, end) {
        array_end(image, geometry, roles, to, end) - n
    } else {
        row_bytes(image, n, end)
    };
    Row {
        field,
        start: n,
        bytes,
    }
}

/// Returns the byte after the last of the fields of an array that follow one another from byte `n` on and are zero.
fn array_end(image: &Image, geometry: &Geometry, roles: &[Role], to: usize, n: usize) -> usize
    requires fits { Fits geometry.now image.now }
    requires order { n ≤ to }
    requires within { to ≤ length image.now }
    ensures exact { result ≡ array_end geometry.now roles.now image.now to (to - n) n }
    ensures from { n ≤ result }
    ensures end { result ≤ to }
{
    let mut end = n;
    for k in 0..to - n {
        if !is_zero_item(image, geometry, roles, to, end) {
            return end;
        }
        end = item_end(image, geometry, roles, to, end);
    }
    end
}

/// True if byte `n` is before `to`, in a field of an array, and the bytes of the field from there on are zero.
fn is_zero_item(image: &Image, geometry: &Geometry, roles: &[Role], to: usize, n: usize) -> bool
    requires fits { Fits geometry.now image.now }
    requires within { to ≤ length image.now }
    ensures exact { result ≡ is_zero_item geometry.now roles.now image.now to n }
    ensures before { IsTrue result → n < to }
{
    image.fits_in_memory();
    if n >= to {
        return false;
    }
    let field = field_at(image, geometry, roles, n);
    let end = (field.spot.start + field.spot.bytes).min(to);
    field.spot.name.is_array() && is_zero(image, n, end)
}

/// Returns the byte after the field that has byte `n`, or `to` if that is less.
fn item_end(image: &Image, geometry: &Geometry, roles: &[Role], to: usize, n: usize) -> usize
    requires fits { Fits geometry.now image.now }
    requires before { n < to }
    requires within { to ≤ length image.now }
    ensures exact { result ≡ item_end geometry.now roles.now (length image.now) to n }
    ensures after { n < result }
    ensures end { result ≤ to }
{
    image.fits_in_memory();
    let field = field_at(image, geometry, roles, n);
    (field.spot.start + field.spot.bytes).min(to)
}

/// Returns the number of bytes of a row that begins at byte `n`, if its field ends at byte `end`.
fn row_bytes(image: &Image, n: usize, end: usize) -> usize
    requires before { n < end }
    requires within { end ≤ length image.now }
    ensures exact { result ≡ row_bytes image.now n end }
    ensures some { 0 < result }
    ensures end { n + result ≤ end }
{
    if end - n <= ROW || is_zero(image, n, end) {
        end - n
    } else {
        ROW
    }
}

/// True if all bytes from `n` up to `to` are zero.
fn is_zero(image: &Image, n: usize, to: usize) -> bool
    requires order { n ≤ to }
    requires within { to ≤ length image.now }
    ensures { result ≡ is_zero image.now n to }
{
    image.as_bytes()[n..to].iter().all(|c| *c == 0)
}
