//! The field that has a byte of an image.
ghost use Rattle.std.specs.Prelude.{◌≡◌, ◌+◌, ◌*◌, ◌<◌, ◌≤◌, ◌^◌, length};
ghost use Rattle.vol_layout.specs.Geometry.{Fits};
ghost use Rattle.vol_fields.specs.Fields.{part_at, outer_in, inner_in, field_at};
ghost use Rattle.vol_fields.specs.Runs.{spot_at, total};
ghost use Rattle.vol_fields.specs.Tables.{data_runs, part_runs, inner_runs, role_at};

use crate::names::Name;
use crate::role::Role;
use crate::runs::{Run, Spot, spot_at};
use crate::tables::{bytes_in, chain_runs, node_runs, old_node_runs, super_runs};
use pdp_words::{BLOCK, Image};
use vol_layout::{Edition, Geometry};

/// A field of a volume.
#[derive(Clone, Copy)]
pub struct Field {
    /// The part of the volume: a block, an i-node, or the bytes after the last block.
    pub part: Spot,
    /// The field in this part.
    pub spot: Spot,
}

/// Returns the field that has byte `n` of an image, given the role of each block. A data block that the table lacks is one field.
#[tactic(auto, unfolding(crate::specs::Fields::field_at))]
pub fn field_at(image: &Image, geometry: &Geometry, roles: &[Role], n: usize) -> Field
    requires fits { Fits geometry.now image.now }
    requires within { n < length image.now }
    ensures exact { result ≡ field_at geometry.now roles.now (length image.now) n }
    ensures has { n < result.spot.start + result.spot.bytes }
    ensures end { result.spot.start + result.spot.bytes ≤ length image.now }
{
    image.fits_in_memory();
    let part = part_at(image, geometry, n);
    let role = role_at(roles, part.index);
    let outer = outer_in(geometry.edition, role, part, n);
    let spot = inner_in(outer, n);
    Field { part, spot }
}

/// Returns the role of block `b`.
pub fn role_at(roles: &[Role], b: usize) -> Role
    ensures { result ≡ role_at roles.now b }
{
    match roles.get(b) {
        Some(role) => *role,
        None => Role::Outside,
    }
}

/// Returns the part of an image that has byte `n`.
fn part_at(image: &Image, geometry: &Geometry, n: usize) -> Spot
    requires fits { Fits geometry.now image.now }
    requires within { n < length image.now }
    ensures exact { result ≡ part_at geometry.now (length image.now) n }
{
    image.fits_in_memory();
    let start = geometry.zone_start as usize;
    let end = geometry.zone_end as usize;
    let inode_bytes = geometry.edition.constants().inode_bytes;
    let parts = [
        Run::one(Name::Boot, 0, BLOCK),
        Run::one(Name::Super, 1, BLOCK),
        Run::array(Name::Node, 1, geometry.last_inode as usize, inode_bytes),
        Run::array(Name::Data, start, end - start, BLOCK),
        Run::one(Name::Past, end, image.len() - BLOCK * end),
    ];
    spot_at(&parts, 0, n)
}

/// Returns the field of a part that has byte `n`. A slot of a directory is one such field.
fn outer_in(edition: Edition, role: Role, part: Spot, n: usize) -> Spot
    requires before { part.start ≤ n }
    requires room { part.start + total (part_runs edition role part.name part.bytes) < 2 ^ 64 }
    ensures { result ≡ outer_in edition role part n }
{
    match part.name {
        Name::Super => spot_at(&super_runs(edition), part.start, n),
        Name::Node => match edition {
            Edition::V6 => spot_at(&old_node_runs(), part.start, n),
            Edition::V7 => spot_at(&node_runs(), part.start, n),
        },
        Name::Data => data_spot(edition, role, part.start, n),
        name => spot_at(&[Run::one(name, 0, part.bytes)], part.start, n),
    }
}

/// Returns the field of a data block that has byte `n`.
fn data_spot(edition: Edition, role: Role, start: usize, n: usize) -> Spot
    requires before { start ≤ n }
    requires room { start + total (data_runs edition role) < 2 ^ 64 }
    ensures { result ≡ spot_at (data_runs edition role) start n }
{
    match role {
        Role::Slots { logical, size, .. } => {
            let slots = bytes_in(size, logical) / 16;
            let rest = BLOCK - slots * 16;
            let runs = [
                Run::array(Name::Slot, 0, slots, 16),
                Run::one(Name::Slack, 0, rest),
            ];
            spot_at(&runs, start, n)
        }
        Role::Bytes { logical, size, .. } => {
            let used = bytes_in(size, logical);
            let runs = [
                Run::one(Name::Bytes, 0, used),
                Run::one(Name::Slack, 0, BLOCK - used),
            ];
            spot_at(&runs, start, n)
        }
        Role::Entries { .. } => {
            let constants = edition.constants();
            let pointers = constants.pointers as usize;
            let entries = Run::array(Name::Entry, 0, pointers, constants.number_bytes);
            spot_at(&[entries], start, n)
        }
        Role::Chain => spot_at(&chain_runs(edition), start, n),
        Role::System | Role::Free | Role::Lost | Role::Twice | Role::Outside => {
            spot_at(&[Run::one(Name::Data, 0, BLOCK)], start, n)
        }
    }
}

/// Returns the field of a field that has byte `n`: the i-number or the name if it is a slot, otherwise the field itself.
fn inner_in(outer: Spot, n: usize) -> Spot
    requires before { outer.start ≤ n }
    requires room { outer.start + total (inner_runs outer.name outer.index outer.bytes) < 2 ^ 64 }
    ensures { result ≡ inner_in outer n }
{
    let index = outer.index;
    match outer.name {
        Name::Slot => {
            let runs = [
                Run::one(Name::SlotInode, index, 2),
                Run::one(Name::SlotName, index, 14),
            ];
            spot_at(&runs, outer.start, n)
        }
        name => spot_at(&[Run::one(name, index, outer.bytes)], outer.start, n),
    }
}
