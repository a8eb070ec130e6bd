//! The differences between two images.
ghost use Rattle.std.specs.Prelude.{◌≡◌, ◌≤◌, ◌<◌, ℕ, length, map, IfOk};
ghost use Rattle.std.specs.List.{All};
ghost use Rattle.vol_layout.specs.Geometry.{Fits};
ghost use Rattle.vol_fields.specs.Changes.{AreShared};
ghost use Rattle.vol_fields.specs.Differences.{AreFieldDifferences, AreRoleDifferences, IsShared, ListsDifferences, field_difference, least, length_differences, role_difference};
ghost use Rattle.vol_fields.specs.Groups.{AreGroupsWithin};

use crate::changes::changed_fields;
use crate::field::Field;
use crate::field_groups::field_joins;
use crate::groups::{Group, groups_of};
use crate::role::Role;
use crate::role_changes::{block_joins, changed_blocks};
use pdp_words::Image;
use std::alloc::{AllocError, Global};
use vol_layout::Geometry;

/// The fewest fields of an array that are shown as one.
const MANY: usize = 9;

/// The fewest neighbours whose roles changed alike that are shown as one.
const FEW: usize = 2;

/// An image with its geometry and the role of each block.
#[derive(Clone, Copy)]
pub struct MappedImage<'a> {
    /// The bytes.
    pub image: &'a Image,
    /// The sizes of the volume.
    pub geometry: &'a Geometry,
    /// The role of each block.
    pub roles: &'a [Role],
}

/// A difference between two images.
#[derive(Clone, Copy)]
pub enum Difference {
    /// Their lengths differ.
    Lengths {
        /// The length of the old image.
        old: usize,
        /// The length of the new image.
        new: usize,
    },
    /// The roles of blocks that follow one another changed alike.
    Roles {
        /// The first block.
        first: usize,
        /// The last block.
        last: usize,
        /// The number of the blocks.
        count: usize,
    },
    /// The bytes of a field of the new image differ.
    Field(Field),
    /// The bytes of several fields of an array of the new image differ.
    Fields {
        /// The first field.
        first: Field,
        /// The last field.
        last: Field,
        /// The number of the fields that differ.
        count: usize,
    },
}

/// Returns the differences between two images: first their lengths, then the roles of their blocks, then the fields of the new image whose bytes differ.
/// Nine or more fields of one array are one difference, and so are neighbours whose roles changed alike; with `all` each is one.
///
/// Takes memory for the fields and blocks that differ.
#[tactic(auto, unfolding(crate::specs::Differences::ListsDifferences))]
pub fn list_differences(
    alloc: Global,
    old: &MappedImage<'_>,
    new: &MappedImage<'_>,
    all: bool,
) -> Result<Vec<Difference>, AllocError>
    requires { Fits new.now.geometry.now new.now.image.now }
    ensures lists { IfOk result (λ found. ListsDifferences old.now.roles.now old.now.image.now new.now.geometry.now new.now.roles.now new.now.image.now
        all found.items) }
    ensures shared { IfOk result (λ found. All (IsShared (length new.now.image.now) (length old.now.image.now)) found.items) }
{
    let mut found = length_differences(alloc, old.image.len(), new.image.len())?;
    let mut blocks = role_differences(alloc, old.roles, new.roles, all)?;
    found.append(&mut blocks)?;
    let mut fields = field_differences(alloc, old.image, new, all)?;
    found.append(&mut fields)?;
    Ok(found)
}

/// Returns the difference of two lengths, if they differ.
fn length_differences(alloc: Global, old: usize, new: usize) -> Result<Vec<Difference>, AllocError>
    ensures lists { IfOk result (λ found. found.items ≡ length_differences old new) }
    ensures shared { (len other : ℕ) → IfOk result (λ found. All (IsShared len other) found.items) }
{
    let mut found = Vec::new(alloc);
    if old != new {
        found.push(Difference::Lengths { old, new })?;
    }
    Ok(found)
}

/// Returns the fewest entries that are shown as one.
fn least(all: bool, few: usize) -> usize
    ensures { result ≡ least all few }
{
    if all { usize::MAX } else { few }
}

/// Returns the blocks whose roles differ.
#[tactic(auto, using(crate::proofs::DiffLaws::blocks_len))]
fn role_differences(
    alloc: Global,
    old: &[Role],
    new: &[Role],
    all: bool,
) -> Result<Vec<Difference>, AllocError>
    ensures lists { IfOk result (λ found. AreRoleDifferences old.now new.now all found.items) }
    ensures shared { (len other : ℕ) → IfOk result (λ found. All (IsShared len other) found.items) }
{
    let blocks = changed_blocks(alloc, old, new)?;
    let joins = block_joins(alloc, old, new, &blocks)?;
    let groups = groups_of(alloc, &joins, least(all, FEW))?;
    role_groups(alloc, &blocks, &groups)
}

/// Returns groups of blocks.
fn role_groups(
    alloc: Global,
    blocks: &[usize],
    groups: &[Group],
) -> Result<Vec<Difference>, AllocError>
    requires { AreGroupsWithin (length blocks.now) groups.now }
    ensures lists { IfOk result (λ found. found.items ≡ map (role_difference blocks.now) groups.now) }
    ensures shared { (len other : ℕ) → IfOk result (λ found. All (IsShared len other) found.items) }
{
    groups
        .iter()
        .map(|group| role_difference(blocks, *group))
        .collect(alloc)
}

/// Returns a group of blocks.
fn role_difference(blocks: &[usize], group: Group) -> Difference
    requires order { group.first ≤ group.last }
    requires within { group.last < length blocks.now }
    ensures { result ≡ role_difference blocks.now group }
{
    Difference::Roles {
        first: blocks[group.first],
        last: blocks[group.last],
        count: group.last - group.first + 1,
    }
}

/// Returns the fields whose bytes differ.
#[tactic(auto, using(crate::proofs::DiffLaws::fields_len))]
fn field_differences(
    alloc: Global,
    old: &Image,
    new: &MappedImage<'_>,
    all: bool,
) -> Result<Vec<Difference>, AllocError>
    requires { Fits new.now.geometry.now new.now.image.now }
    ensures lists { IfOk result (λ found. AreFieldDifferences old.now new.now.geometry.now new.now.roles.now new.now.image.now all found.items) }
    ensures shared { IfOk result (λ found. All (IsShared (length new.now.image.now) (length old.now)) found.items) }
{
    let fields = changed_fields(alloc, new.image, old, new.geometry, new.roles)?;
    let joins = field_joins(alloc, &fields)?;
    let groups = groups_of(alloc, &joins, least(all, MANY))?;
    field_groups(alloc, &fields, &groups)
}

/// Returns groups of fields.
fn field_groups(
    alloc: Global,
    fields: &[Field],
    groups: &[Group],
) -> Result<Vec<Difference>, AllocError>
    requires { AreGroupsWithin (length fields.now) groups.now }
    ensures lists { IfOk result (λ found. found.items ≡ map (field_difference fields.now) groups.now) }
    ensures shared { (len other : ℕ) → AreShared len other fields.now → IfOk result (λ found. All (IsShared len other) found.items) }
{
    groups
        .iter()
        .map(|group| field_difference(fields, *group))
        .collect(alloc)
}

/// Returns a group of fields.
fn field_difference(fields: &[Field], group: Group) -> Difference
    requires order { group.first ≤ group.last }
    requires within { group.last < length fields.now }
    ensures { result ≡ field_difference fields.now group }
{
    let first = fields[group.first];
    if group.first == group.last {
        return Difference::Field(first);
    }
    Difference::Fields {
        first,
        last: fields[group.last],
        count: group.last - group.first + 1,
    }
}
