//! Rules 3 and 4: the kinds, sizes and link counts of i-nodes.
ghost use Rattle.std.specs.Prelude.{◌≡◌, ◌≤◌, IsTrue, ◌↔◌};
ghost use Rattle.vol_layout.specs.Edition.{constants};
ghost use Rattle.vol_layout.specs.Geometry.{Fits};
ghost use Rattle.vol_file.specs.Rules.{HasKinds, HasSizes, kind_at};
ghost use Rattle.vol_judge.specs.Finds.{Finds};
ghost use Rattle.vol_judge.specs.INodes.{IsFirstKind, IsFirstSize};
ghost use Rattle.vol_judge.specs.Limits.{KeepsBadBlocks, IsSized, IsLinked};

use crate::finding::Finding;
use pdp_words::Image;
use vol_layout::i_list::{kind, mode, size};
use vol_layout::{BlockMap, Edition, Geometry, Kind, inode};

/// The greatest size of a small file: eight blocks.
const SMALL_BYTES: u32 = 4096;

/// Returns the first violation of rule 3. Checks that no mode is odd, then the kind of the root, then the kind of i-number 1. Reads the mode of each
/// i-node. Takes no memory.
pub fn find_kind(image: &Image, geometry: &Geometry) -> Option<Finding>
    requires { Fits geometry.now image.now }
    ensures { Finds (HasKinds geometry.now image.now) (IsFirstKind geometry.now image.now) result }
{
    for i in 1..=geometry.last_inode {
        if matches!(kind(image, geometry, i), Kind::Odd) {
            return Some(Finding::OddMode(i));
        }
    }
    if !has_root(image, geometry) {
        return Some(Finding::RootKind);
    }
    if !has_bad_blocks(image, geometry) {
        return Some(Finding::BadBlocksKind);
    }
    None
}

/// Returns the first violation of rule 4: the first i-node that is too large or has too many links. Reads each i-node.
/// Takes no memory.
pub fn find_size(image: &Image, geometry: &Geometry) -> Option<Finding>
    requires { Fits geometry.now image.now }
    ensures { Finds (HasSizes geometry.now image.now) (IsFirstSize geometry.now image.now) result }
{
    for i in 1..=geometry.last_inode {
        if !is_sized(image, geometry, i) {
            return Some(Finding::TooLarge(i));
        }
        if !is_linked(image, geometry, i) {
            return Some(Finding::TooManyLinks(i));
        }
    }
    None
}

/// True if the root is a directory.
fn has_root(image: &Image, geometry: &Geometry) -> bool
    requires { Fits geometry.now image.now }
    ensures { IsTrue result ↔ (kind_at geometry.now image.now (constants geometry.now.edition).root ≡ Kind.Directory) }
{
    let root = geometry.edition.constants().root;
    matches!(kind(image, geometry, root), Kind::Directory)
}

/// True if i-number 1, which the seventh edition reserves for bad blocks, is free or a regular file. Always true in the sixth edition.
fn has_bad_blocks(image: &Image, geometry: &Geometry) -> bool
    requires { Fits geometry.now image.now }
    ensures { IsTrue result ↔ KeepsBadBlocks geometry.now image.now }
{
    match geometry.edition {
        Edition::V6 => true,
        Edition::V7 => matches!(kind(image, geometry, 1), Kind::Free | Kind::Regular),
    }
}

/// True if i-node `i` isn't too large for its block map.
fn is_sized(image: &Image, geometry: &Geometry, i: u16) -> bool
    requires fits { Fits geometry.now image.now }
    requires first { 1 ≤ i }
    requires last { i ≤ geometry.now.last_inode }
    ensures { IsTrue result ↔ IsSized geometry.now image.now i }
{
    let size = size(image, geometry, i);
    match BlockMap::of(geometry.edition, mode(image, geometry, i)) {
        BlockMap::Small => size <= SMALL_BYTES,
        BlockMap::Large | BlockMap::Deep => size <= geometry.edition.constants().greatest,
        BlockMap::Bare => true,
    }
}

/// True if i-node `i` is free, or its link count isn't above the limit.
fn is_linked(image: &Image, geometry: &Geometry, i: u16) -> bool
    requires fits { Fits geometry.now image.now }
    requires first { 1 ≤ i }
    requires last { i ≤ geometry.now.last_inode }
    ensures { IsTrue result ↔ IsLinked geometry.now image.now i }
{
    match kind(image, geometry, i) {
        Kind::Free => true,
        _ => inode(image, geometry, i).links <= geometry.edition.constants().link_limit,
    }
}
