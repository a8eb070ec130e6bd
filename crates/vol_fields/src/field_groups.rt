//! Fields of one array among those that differ between two images.
ghost use Rattle.std.specs.Prelude.{◌≡◌, ◌<◌, length, IfOk};
ghost use Rattle.vol_fields.specs.FieldGroups.{field_joins, is_field_joined, is_one_array, is_same_field, is_same_name, is_same_spot};

use crate::field::Field;
use crate::names::Name;
use crate::runs::Spot;
use std::alloc::{AllocError, Global};

/// Returns, for each of these fields, whether the next one is in the same array.
#[tactic(auto, unfolding(crate::specs::FieldGroups::field_joins))]
pub fn field_joins(alloc: Global, fields: &[Field]) -> Result<Vec<bool>, AllocError>
    ensures { IfOk result (λ joins. joins.items ≡ field_joins fields.now) }
{
    (0..fields.len())
        .map(|k| is_field_joined(fields, k))
        .collect(alloc)
}

/// True if the field at place `k + 1` is in one array with the field at place `k`.
fn is_field_joined(fields: &[Field], k: usize) -> bool
    requires { k < length fields.now }
    ensures { result ≡ is_field_joined fields.now k }
{
    match (fields.get(k), fields.get(k + 1)) {
        (Some(field), Some(other)) => is_one_array(field, other),
        _ => false,
    }
}

/// True if two fields are in one array.
fn is_one_array(field: &Field, other: &Field) -> bool
    ensures { result ≡ is_one_array field.now other.now }
{
    field.spot.name.is_array()
        && is_same_name(field.spot.name, other.spot.name)
        && field.part.start == other.part.start
}

/// True if two fields are the same one.
pub(crate) fn is_same_field(field: &Field, other: &Field) -> bool
    ensures { result ≡ is_same_field field.now other.now }
{
    is_same_spot(field.part, other.part) && is_same_spot(field.spot, other.spot)
}

/// True if two fields or parts have one name, index and place.
fn is_same_spot(spot: Spot, other: Spot) -> bool
    ensures { result ≡ is_same_spot spot other }
{
    is_same_name(spot.name, other.name)
        && spot.index == other.index
        && spot.start == other.start
        && spot.bytes == other.bytes
}

/// True if two fields or parts have one name.
fn is_same_name(name: Name, other: Name) -> bool
    ensures { result ≡ is_same_name name other }
{
    name.label() == other.label()
}
