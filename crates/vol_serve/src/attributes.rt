//! The attributes of a node, in the form that the kernel needs.
ghost use Rattle.std.specs.Prelude.{◌≡◌};
ghost use Rattle.vol_layout.specs.Geometry.{Fits};
ghost use Rattle.vol_dir.specs.Tree.{tree};
ghost use Rattle.vol_serve.specs.Attributes.{type_of, device_of, attributes_of, attributes_in, entry_kind_in};

use crate::nodes::{NodeFault, SpecialFile, special_file, stat};
use fuse_words::{Attributes, EntryKind};
use pdp_words::Image;
use vol_layout::{Geometry, Kind};
use vol_volume::Stat;

/// Returns the type bits of a node's mode on Linux (stat.h).
fn type_bits(kind: Kind, special: Option<SpecialFile>) -> u32
    ensures { result ≡ type_of kind special }
{
    match kind {
        Kind::Regular => 0o100000,
        Kind::Directory => 0o040000,
        _ => match special {
            Some(SpecialFile { is_block: true, .. }) => 0o060000,
            _ => 0o020000,
        },
    }
}

/// Returns Linux's device number of a special file; 0 for another node.
fn device(special: Option<SpecialFile>) -> u32
    ensures { result ≡ device_of special }
{
    match special {
        Some(file) => 256 * u32::from(file.major) + u32::from(file.minor),
        None => 0,
    }
}

/// Returns the attributes of a node.
fn attributes_of(stat: &Stat, special: Option<SpecialFile>) -> Attributes
    ensures { result ≡ attributes_of stat.now special }
{
    Attributes {
        ino: u64::from(stat.number),
        size: u64::from(stat.size),
        blocks: (u64::from(stat.size) + 511) / 512,
        accessed: u64::from(stat.accessed),
        modified: u64::from(stat.modified),
        changed: u64::from(stat.changed.unwrap_or(stat.modified)),
        mode: type_bits(stat.kind, special) + u32::from(stat.permissions),
        links: u32::from(stat.links),
        uid: u32::from(stat.uid),
        gid: u32::from(stat.gid),
        rdev: device(special),
        block_size: 512,
    }
}

/// Returns the attributes of node `i`, or `Stale` if no node has this number.
pub fn node_attributes(image: &Image, geometry: &Geometry, i: u16) -> Result<Attributes, NodeFault>
    requires { Fits geometry.now image.now }
    ensures { result ≡ attributes_in (tree geometry.now image.now) i }
{
    match stat(image, geometry, i) {
        Some(stat) => Ok(attributes_of(&stat, special_file(image, geometry, i))),
        None => Err(NodeFault::Stale),
    }
}

/// Returns the kind of node `i` for a directory entry.
pub(crate) fn entry_kind(image: &Image, geometry: &Geometry, i: u16) -> EntryKind
    requires { Fits geometry.now image.now }
    ensures { result ≡ entry_kind_in (tree geometry.now image.now) i }
{
    let Some(stat) = stat(image, geometry, i) else {
        return EntryKind::Unknown;
    };
    match stat.kind {
        Kind::Regular => EntryKind::Regular,
        Kind::Directory => EntryKind::Directory,
        _ => match special_file(image, geometry, i) {
            Some(SpecialFile { is_block: true, .. }) => EntryKind::Block,
            _ => EntryKind::Character,
        },
    }
}
