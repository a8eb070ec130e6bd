//! The fields that differ between two images.
ghost use Rattle.std.specs.Prelude.{◌≡◌, ◌+◌, ◌<◌, length, min, IfOk};
ghost use Rattle.vol_layout.specs.Geometry.{Fits};
ghost use Rattle.vol_fields.specs.Changes.{AreShared, ListsChanges, ListsUpTo};

use crate::field::{Field, field_at};
use crate::role::Role;
use pdp_words::Image;
use std::alloc::{AllocError, Global};
use vol_layout::Geometry;

/// Returns the fields of an image in which the other image has other bytes, in ascending order, each once, given the role of each block. If one image
/// is longer, its bytes after the end of the other one aren't compared.
pub fn changed_fields(
    alloc: Global,
    image: &Image,
    other: &Image,
    geometry: &Geometry,
    roles: &[Role],
) -> Result<Vec<Field>, AllocError>
    requires { Fits geometry.now image.now }
    ensures lists { IfOk result (λ found. ListsChanges geometry.now roles.now image.now other.now (min (length image.now) (length other.now)) found.items) }
    ensures shared { IfOk result (λ found. AreShared (length image.now) (length other.now) found.items) }
{
    let mut found = Vec::new(alloc);
    let mut covered = 0;
    for n in 0..image.len().min(other.len()) {
        covered = note_byte(&mut found, image, other, geometry, roles, n, covered)?;
    }
    Ok(found)
}

/// Appends the field of byte `n` if this byte differs and isn't covered by the fields found so far. Returns the byte up to which they cover the image.
fn note_byte(
    found: &mut Vec<Field>,
    image: &Image,
    other: &Image,
    geometry: &Geometry,
    roles: &[Role],
    n: usize,
    covered: usize,
) -> Result<usize, AllocError>
    requires fits { Fits geometry.now image.now }
    requires within { n < length image.now }
    requires within_other { n < length other.now }
    requires before { ListsUpTo geometry.now roles.now image.now other.now n covered found.old.items }
    ensures { IfOk result (λ end. ListsUpTo geometry.now roles.now image.now other.now (n + 1) end found.new.items) }
{
    image.fits_in_memory();
    if n < covered {
        return Ok(covered);
    }
    if image.byte(n) == other.byte(n) {
        return Ok(covered);
    }
    let field = field_at(image, geometry, roles, n);
    found.push(field)?;
    Ok(field.spot.start + field.spot.bytes)
}
