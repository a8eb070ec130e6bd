//! The blocks that files claim: each block by the first position that points to it. Other positions, and those that point outside the data zone, clash.
ghost use Rattle.std.specs.Prelude.{◌≡◌, ◌⊎◌, ℕ, ◌+◌, ◌≤◌, true, false, IfOk, length, slice_index_or};
ghost use Rattle.vol_layout.specs.Edition.{constants};
ghost use Rattle.vol_layout.specs.Geometry.{Fits, in_zone};
ghost use Rattle.vol_layout.specs.BlockPointers.{form_at};
ghost use Rattle.vol_file.specs.Changes.{blocks_of};
ghost use Rattle.vol_judge.specs.Marks.{blocks_from};
ghost use Rattle.vol_repair.specs.Claims.{Claims};
ghost use Rattle.vol_repair.specs.Kept.{FitsFile};
ghost use Rattle.vol_repair.specs.Told.{IsNotFit};

use pdp_words::{BLOCK, Image};
use std::alloc::{AllocError, Global};
use vol_file::next_pointer;
use vol_layout::i_list::{address, kind, mode, size};
use vol_layout::{BlockMap, Geometry, Kind, number};

/// The size in bytes of the largest small file of the sixth edition: eight blocks.
const SMALL: u32 = 4096;

/// Where a block number is stored.
#[derive(Clone, Copy)]
pub(crate) enum Pointer {
    /// An address of an i-node.
    Address { inode: u16, index: usize },
    /// An entry of an indirect block.
    Entry { block: u32, index: u32 },
}

/// A block number that can't stay where it is.
#[derive(Clone, Copy)]
pub(crate) struct Clash {
    /// Where it is stored.
    pub at: Pointer,
    /// The number: it isn't that of a data block, or a position before this one points to the block.
    pub block: u32,
    /// The number of levels below the block.
    pub level: u8,
}

/// The blocks that files claim, and all that is wrong with them.
#[derive(Drop)]
pub(crate) struct FoundClaims {
    /// A mark for each block, true if a position points to it.
    pub used: Vec<bool>,
    /// A mark for each i-number, true if its file doesn't fit.
    pub unfit: Vec<bool>,
    /// The block numbers that can't stay, in the order of i-numbers and block maps.
    pub clashes: Vec<Clash>,
}

/// Finds the blocks that the files of an image claim.
///
/// Costs a read of each i-node and of each entry of each indirect block. Takes a byte for each block and i-number, and memory for the clashes. An error:
/// memory ran out.
pub(crate) fn find_claims(
    alloc: Global,
    image: &Image,
    geometry: &Geometry,
) -> Result<FoundClaims, AllocError>
    requires fits { Fits geometry.now image.now }
    ensures used { IfOk result (λ found. length found.used.items ≡ geometry.now.zone_end) }
    ensures unfit { IfOk result (λ found. IsNotFit geometry.now image.now found.unfit.items) }
{
    let mut used = vec![in alloc; false; geometry.zone_end as usize]?;
    let mut unfit = vec![in alloc; false; geometry.last_inode as usize + 1]?;
    let mut clashes = Vec::new(alloc);
    claim_files(image, geometry, &mut used, &mut unfit, &mut clashes)?;
    Ok(FoundClaims {
        used,
        unfit,
        clashes,
    })
}

/// Claims the blocks of all files, and marks the files that don't fit. There are no marks at first.
fn claim_files(
    image: &Image,
    geometry: &Geometry,
    used: &mut [bool],
    unfit: &mut [bool],
    clashes: &mut Vec<Clash>,
) -> Result<(), AllocError>
    requires fits { Fits geometry.now image.now }
    requires used { length used.old ≡ geometry.now.zone_end }
    requires unfit { length unfit.old ≡ geometry.now.last_inode + 1 }
    requires free { (k : ℕ) → slice_index_or used.old k false ≡ false }
    requires clear { (k : ℕ) → slice_index_or unfit.old k false ≡ false }
    ensures { IfOk result (λ _. IsNotFit geometry.now image.now unfit.new) }
{
    for before in 0..geometry.last_inode {
        let i = before + 1;
        let clash = claim_file(image, geometry, i, used, clashes)?;
        unfit[i as usize] = is_unfit(image, geometry, i, clash);
    }
    Ok(())
}

/// True if i-node `i` has a clash, isn't a regular file, or is the root, or if its size is above the limit.
fn is_unfit(image: &Image, geometry: &Geometry, i: u16, clash: bool) -> bool
    requires fits { Fits geometry.now image.now }
    requires first { 1 ≤ i }
    requires last { i ≤ geometry.now.last_inode }
    ensures { result ≡ true → (clash ≡ true) ⊎ (FitsFile geometry.now image.now i → ⊥) }
{
    clash || !is_regular(image, geometry, i)
}

/// True if i-node `i` is a regular file and not the root, and its size is within the limit.
fn is_regular(image: &Image, geometry: &Geometry, i: u16) -> bool
    requires fits { Fits geometry.now image.now }
    requires first { 1 ≤ i }
    requires last { i ≤ geometry.now.last_inode }
    ensures { result ≡ false → FitsFile geometry.now image.now i → ⊥ }
{
    kind(image, geometry, i) == Kind::Regular
        && i != geometry.edition.constants().root
        && size(image, geometry, i) <= size_limit(image, geometry, i)
}

/// Returns the greatest size that a file with the block map of i-node `i` can have, in bytes.
pub(crate) fn size_limit(image: &Image, geometry: &Geometry, i: u16) -> u32
    requires fits { Fits geometry.now image.now }
    requires first { 1 ≤ i }
    requires last { i ≤ geometry.now.last_inode }
    ensures exact { (result ≡ (constants geometry.now.edition).greatest) ⊎ ((form_at geometry.now image.now i ≡ BlockMap.Small) × (result ≡ 4096)) }
    ensures bound { result ≤ (constants geometry.now.edition).greatest }
{
    match BlockMap::of(geometry.edition, mode(image, geometry, i)) {
        BlockMap::Small => SMALL,
        _ => geometry.edition.constants().greatest,
    }
}

/// Claims the blocks of i-node `i`. Returns true if one of its block numbers can't stay.
fn claim_file(
    image: &Image,
    geometry: &Geometry,
    i: u16,
    used: &mut [bool],
    clashes: &mut Vec<Clash>,
) -> Result<bool, AllocError>
    requires fits { Fits geometry.now image.now }
    requires first { 1 ≤ i }
    requires last { i ≤ geometry.now.last_inode }
    requires len { length used.old ≡ geometry.now.zone_end }
    ensures { IfOk result (λ clash. Claims geometry.now (blocks_of geometry.now image.now i) used.old used.new clash) }
{
    let form = BlockMap::of(geometry.edition, mode(image, geometry, i));
    let mut clash = false;
    for k in 0..form.address_count() {
        let at = Pointer::Address { inode: i, index: k };
        let b = address(image, geometry, i, k);
        let below = claim(image, geometry, at, b, form.levels(k), used, clashes)?;
        clash = clash || below;
    }
    Ok(clash)
}

/// True if block number `b` can't stay: it isn't that of a data block, or the block is claimed.
fn is_taken(geometry: &Geometry, used: &[bool], b: u32) -> bool
    requires { length used.now ≡ geometry.now.zone_end }
    ensures taken { result ≡ true → (in_zone geometry.now b ≡ false) ⊎ (slice_index_or used.now b false ≡ true) }
    ensures inside { result ≡ false → in_zone geometry.now b ≡ true }
{
    !geometry.in_zone(b) || used[b as usize]
}

/// Claims block `b`, which the position `at` points to, and the blocks in the `level` levels below it. Returns true if one of these block numbers can't
/// stay. What is below such a number isn't claimed.
fn claim(
    image: &Image,
    geometry: &Geometry,
    at: Pointer,
    b: u32,
    level: u8,
    used: &mut [bool],
    clashes: &mut Vec<Clash>,
) -> Result<bool, AllocError>
    requires fits { Fits geometry.now image.now }
    requires low { level ≤ 3 }
    requires len { length used.old ≡ geometry.now.zone_end }
    ensures { IfOk result (λ clash. Claims geometry.now (blocks_from geometry.now image.now level b) used.old used.new clash) }
{
    if b == 0 {
        return Ok(false);
    }
    if is_taken(geometry, used, b) {
        clashes.push(Clash {
            at,
            block: b,
            level,
        })?;
        return Ok(true);
    }
    used[b as usize] = true;
    if level == 0 {
        return Ok(false);
    }
    let pointers = geometry.edition.constants().pointers;
    let mut clash = false;
    let mut j = next_pointer(image, geometry, b, 0);
    while j < pointers {
        let at = Pointer::Entry { block: b, index: j };
        let entry = number(image, geometry.edition, BLOCK * b as usize, j as usize);
        let below = claim(image, geometry, at, entry, level - 1, used, clashes)?;
        clash = clash || below;
        j = next_pointer(image, geometry, b, j + 1);
    }
    Ok(clash)
}
