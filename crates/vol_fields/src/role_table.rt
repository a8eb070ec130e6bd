//! The role of each block, from its use and the position that points to it.
ghost use Rattle.std.specs.Prelude.{◌≡◌, ◌<◌, ◌≤◌, length, map, IfOk};
ghost use Rattle.std.specs.List.{range_with_len};
ghost use Rattle.vol_layout.specs.Geometry.{Fits};
ghost use Rattle.vol_inspect.specs.Holders.{AreHolders};
ghost use Rattle.vol_inspect.specs.Uses.{use_of};
ghost use Rattle.vol_fields.specs.Roles.{data_role, held_role, position_role, role_by, role_of, IsNodes};

use crate::role::Role;
use pdp_words::Image;
use std::alloc::{AllocError, Global};
use vol_inspect::holders::{Holder, holders};
use vol_inspect::{Use, block_uses};
use vol_layout::i_list::{kind, size};
use vol_layout::{Geometry, Kind};

/// Returns the role of each block of a volume, from block 0 to the last. The image may have any bytes otherwise.
///
/// Takes the time of [`block_uses`] and [`holders`], and about 50 bytes for each block.
pub fn block_roles(
    alloc: Global,
    image: &Image,
    geometry: &Geometry,
) -> Result<Vec<Role>, AllocError>
    requires { Fits geometry.now image.now }
    ensures { IfOk result (λ roles. roles.items ≡ map (role_of geometry.now image.now) (range_with_len 0 geometry.now.zone_end)) }
{
    let uses = block_uses(alloc, image, geometry)?;
    let table = holders(alloc, image, geometry)?;
    let mut roles = Vec::new(alloc);
    for b in 0..geometry.zone_end {
        roles.push(role_in(image, geometry, &uses, &table, b))?;
    }
    Ok(roles)
}

/// Returns the role of block `b`, given the use of each block and the first position that points to each.
#[tactic(auto, unfolding(crate::specs::Roles::role_of))]
fn role_in(
    image: &Image,
    geometry: &Geometry,
    uses: &[Use],
    table: &[Option<Holder>],
    b: u32,
) -> Role
    requires fits { Fits geometry.now image.now }
    requires within { b < geometry.now.zone_end }
    requires uses { uses.now ≡ map (use_of geometry.now image.now) (range_with_len 0 geometry.now.zone_end) }
    requires len { length table.now ≡ geometry.now.zone_end }
    requires table { AreHolders geometry.now image.now geometry.now.last_inode table.now }
    ensures { result ≡ role_of geometry.now image.now b }
{
    if b < geometry.zone_start {
        return Role::System;
    }
    role_by(image, geometry, uses[b as usize], table[b as usize])
}

/// Returns the role of a block with this use, if `holder` is the first position that points to it.
fn role_by(image: &Image, geometry: &Geometry, usage: Use, holder: Option<Holder>) -> Role
    requires fits { Fits geometry.now image.now }
    requires nodes { IsNodes geometry.now holder }
    ensures { result ≡ role_by geometry.now image.now usage holder }
{
    match usage {
        Use::Boot | Use::SuperBlock | Use::IList => Role::System,
        Use::Free => Role::Free,
        Use::Chain => Role::Chain,
        Use::Lost | Use::Unreadable | Use::Unknown => Role::Lost,
        Use::Twice => Role::Twice,
        Use::Directory | Use::File | Use::Pointer => held_role(image, geometry, holder),
    }
}

/// Returns the role of a block that an i-node uses, by the first position that points to it.
fn held_role(image: &Image, geometry: &Geometry, holder: Option<Holder>) -> Role
    requires fits { Fits geometry.now image.now }
    requires nodes { IsNodes geometry.now holder }
    ensures { result ≡ held_role geometry.now image.now holder }
{
    match holder {
        None => Role::Lost,
        Some(holder) => position_role(image, geometry, holder),
    }
}

/// Returns the role of the block to which a position in the block map of an i-node points.
fn position_role(image: &Image, geometry: &Geometry, holder: Holder) -> Role
    requires fits { Fits geometry.now image.now }
    requires first { 1 ≤ holder.ino }
    requires last { holder.ino ≤ geometry.now.last_inode }
    ensures { result ≡ position_role geometry.now image.now holder }
{
    let Holder {
        ino,
        level,
        logical,
    } = holder;
    if level > 0 {
        return Role::Entries {
            ino,
            level,
            logical,
        };
    }
    let size = size(image, geometry, ino);
    data_role(kind(image, geometry, ino), ino, logical, size)
}

/// Returns the role of a block with data of an i-node of this kind.
fn data_role(kind: Kind, ino: u16, logical: u32, size: u32) -> Role
    ensures { result ≡ data_role kind ino logical size }
{
    match kind {
        Kind::Directory => Role::Slots { ino, logical, size },
        Kind::Regular | Kind::Special | Kind::Free | Kind::Odd => {
            Role::Bytes { ino, logical, size }
        }
    }
}
