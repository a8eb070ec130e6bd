//! The first position that points to each block.
ghost use Rattle.std.specs.Prelude.{◌≡◌, ◌+◌, ◌<◌, ◌≤◌, ◌^◌, ◌∷◌, [], ◌*◌, length, replicate, false, None, IfOk};
ghost use Rattle.vol_layout.specs.Edition.{constants};
ghost use Rattle.vol_layout.specs.Geometry.{Fits};
ghost use Rattle.vol_inspect.specs.Extents.{single, holdings, holdings_from};
ghost use Rattle.vol_inspect.specs.Holders.{AreHolders, AreNoted, Notes};

use crate::extents::{first_logical, span};
use pdp_words::{BLOCK, Image};
use std::alloc::{AllocError, Global};
use vol_layout::i_list::{address, mode};
use vol_layout::{BlockMap, Geometry, number};

/// A position in the block map of an i-node that points to a block.
#[derive(Clone, Copy)]
pub struct Holder {
    /// The i-node.
    pub ino: u16,
    /// The number of levels of blocks below the block.
    pub level: u8,
    /// The first logical block at or below the block.
    pub logical: u32,
}

/// Notes number `b` and the numbers below it in `level` levels, for the blocks that have no holder yet.
fn note_holders(
    table: &mut [Option<Holder>],
    seen: &mut [bool],
    image: &Image,
    geometry: &Geometry,
    i: u16,
    level: u8,
    logical: u32,
    b: u32,
)
    requires fits { Fits geometry.now image.now }
    requires level { level ≤ 3 }
    requires room { logical + (constants geometry.now.edition).pointers ^ level < 2 ^ 31 }
    requires table { length table.old ≡ geometry.now.zone_end }
    requires noted { AreNoted geometry.now image.now table.old seen.old }
    ensures notes { Notes geometry.now i table.old table.new (holdings_from geometry.now image.now level logical b) }
    ensures noted { AreNoted geometry.now image.now table.new seen.new }
{
    if b == 0 {
        return;
    }
    note_one(table, geometry, i, level, logical, b);
    if level == 0 {
        return;
    }
    if !geometry.in_zone(b) {
        return;
    }
    let at = 4 * b as usize + level as usize;
    if seen[at] {
        return;
    }
    let pointers = geometry.edition.constants().pointers;
    let span = span(geometry, level - 1);
    for j in 0..pointers {
        let entry = number(image, geometry.edition, BLOCK * b as usize, j as usize);
        note_holders(
            table,
            seen,
            image,
            geometry,
            i,
            level - 1,
            logical + j * span,
            entry,
        );
    }
    seen[at] = true;
}

/// Notes one block, if it is a data block without a holder.
fn note_one(
    table: &mut [Option<Holder>],
    geometry: &Geometry,
    ino: u16,
    level: u8,
    logical: u32,
    b: u32,
)
    requires table { length table.old ≡ geometry.now.zone_end }
    ensures { Notes geometry.now ino table.old table.new (single geometry.now level logical b ∷ []) }
{
    if !geometry.in_zone(b) {
        return;
    }
    if table[b as usize].is_some() {
        return;
    }
    table[b as usize] = Some(Holder {
        ino,
        level,
        logical,
    });
}

/// Notes the blocks of i-node `i` that have no holder yet.
fn note_node(
    table: &mut [Option<Holder>],
    seen: &mut [bool],
    image: &Image,
    geometry: &Geometry,
    i: u16,
)
    requires fits { Fits geometry.now image.now }
    requires first { 1 ≤ i }
    requires last { i ≤ geometry.now.last_inode }
    requires table { length table.old ≡ geometry.now.zone_end }
    requires noted { AreNoted geometry.now image.now table.old seen.old }
    ensures notes { Notes geometry.now i table.old table.new (holdings geometry.now image.now i) }
    ensures noted { AreNoted geometry.now image.now table.new seen.new }
{
    let form = BlockMap::of(geometry.edition, mode(image, geometry, i));
    for k in 0..form.address_count() {
        let b = address(image, geometry, i, k);
        let logical = first_logical(form, k);
        note_holders(table, seen, image, geometry, i, form.levels(k), logical, b);
    }
}

/// Returns the first position that points to each block, by block number. The image may have any bytes otherwise.
///
/// Reads each indirect block once for each level at which it occurs. Takes about 16 bytes for each block.
pub fn holders(
    alloc: Global,
    image: &Image,
    geometry: &Geometry,
) -> Result<Vec<Option<Holder>>, AllocError>
    requires { Fits geometry.now image.now }
    ensures len { IfOk result (λ table. length table.items ≡ geometry.now.zone_end) }
    ensures each { IfOk result (λ table. AreHolders geometry.now image.now geometry.now.last_inode table.items) }
{
    let mut table = vec![in alloc; None; geometry.zone_end as usize]?;
    let mut seen = vec![in alloc; false; 4 * geometry.zone_end as usize]?;
    note_all(&mut table, &mut seen, image, geometry);
    Ok(table)
}

/// Notes the blocks of all i-nodes. At the start no block has a holder, and there are no marks.
fn note_all(table: &mut [Option<Holder>], seen: &mut [bool], image: &Image, geometry: &Geometry)
    requires fits { Fits geometry.now image.now }
    requires table { table.old ≡ replicate geometry.now.zone_end None }
    requires seen { seen.old ≡ replicate (4 * geometry.now.zone_end) false }
    ensures len { length table.new ≡ geometry.now.zone_end }
    ensures each { AreHolders geometry.now image.now geometry.now.last_inode table.new }
{
    for before in 0..geometry.last_inode {
        note_node(table, seen, image, geometry, before + 1);
    }
}
