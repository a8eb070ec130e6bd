//! Collects the blocks of an i-node and joins them to extents.
ghost use Rattle.std.specs.Prelude.{◌≡◌, ◌+◌, ◌-◌, ◌<◌, ◌≤◌, ◌^◌, [], ◌∷◌, OnOk, IfOk};
ghost use Rattle.vol_layout.specs.Edition.{constants};
ghost use Rattle.vol_layout.specs.Geometry.{Fits};
ghost use Rattle.vol_file.specs.Clears.{first_at};
ghost use Rattle.vol_inspect.specs.Extents.{Collects, holdings_from, holdings, extents_of};

use crate::extent::Extent;
use pdp_words::{BLOCK, Image};
use std::alloc::{AllocError, Global};
use vol_layout::i_list::{address, mode};
use vol_layout::{BlockMap, Geometry, number};

/// The extents found so far.
#[derive(Drop)]
pub(crate) struct Gathering {
    /// The extents that no more blocks can join.
    pub done: Vec<Extent>,
    /// The last extent, which more blocks may join.
    pub last: Option<Extent>,
}

/// Returns the extents of i-node `i`, from 1 to the last, in the order of its block map.
///
/// Takes memory for the extents. Reads each number in the i-node's block map.
pub(crate) fn extents(
    alloc: Global,
    image: &Image,
    geometry: &Geometry,
    i: u16,
) -> Result<Vec<Extent>, AllocError>
    requires fits { Fits geometry.now image.now }
    requires first { 1 ≤ i }
    requires last { i ≤ geometry.now.last_inode }
    ensures { IfOk result (λ extents. extents.items ≡ extents_of geometry.now image.now i) }
{
    let mut gathering = Gathering {
        done: Vec::new(alloc),
        last: None,
    };
    note_inode(&mut gathering, image, geometry, i)?;
    let Gathering { mut done, last } = gathering;
    if let Some(last) = last {
        done.push(last)?;
    }
    Ok(done)
}

/// Collects the blocks below the addresses of i-node `i`.
fn note_inode(
    gathering: &mut Gathering,
    image: &Image,
    geometry: &Geometry,
    i: u16,
) -> Result<(), AllocError>
    requires fits { Fits geometry.now image.now }
    requires first { 1 ≤ i }
    requires last { i ≤ geometry.now.last_inode }
    ensures { OnOk result (Collects gathering.old gathering.new (holdings geometry.now image.now i)) }
{
    let form = BlockMap::of(geometry.edition, mode(image, geometry, i));
    for k in 0..form.address_count() {
        let b = address(image, geometry, i, k);
        let logical = first_logical(form, k);
        note_from(gathering, image, geometry, form.levels(k), logical, b)?;
    }
    Ok(())
}

/// Returns the first logical block below address `k`.
pub(crate) fn first_logical(form: BlockMap, k: usize) -> u32
    requires { k ≤ 12 }
    ensures value { result ≡ first_at form k }
    ensures bound { result ≤ 16522 }
{
    match form {
        BlockMap::Small | BlockMap::Bare => k as u32,
        BlockMap::Large => 256 * k as u32,
        BlockMap::Deep if k < 11 => k as u32,
        BlockMap::Deep if k == 11 => 138,
        BlockMap::Deep => 16_522,
    }
}

/// Collects number `b` and the numbers below it in `level` levels, if `b` isn't 0. The first logical block below `b` is `logical`.
fn note_from(
    gathering: &mut Gathering,
    image: &Image,
    geometry: &Geometry,
    level: u8,
    logical: u32,
    b: u32,
) -> Result<(), AllocError>
    requires fits { Fits geometry.now image.now }
    requires level { level ≤ 3 }
    requires room { logical + (constants geometry.now.edition).pointers ^ level < 2 ^ 31 }
    ensures { OnOk result (Collects gathering.old gathering.new (holdings_from geometry.now image.now level logical b)) }
{
    if b == 0 {
        return Ok(());
    }
    gathering.note(Extent::single(geometry, level, logical, b))?;
    if level == 0 {
        return Ok(());
    }
    if !geometry.in_zone(b) {
        return Ok(());
    }
    let pointers = geometry.edition.constants().pointers;
    let span = span(geometry, level - 1);
    for j in 0..pointers {
        let entry = number(image, geometry.edition, BLOCK * b as usize, j as usize);
        note_from(
            gathering,
            image,
            geometry,
            level - 1,
            logical + j * span,
            entry,
        )?;
    }
    Ok(())
}

/// Returns the number of logical blocks below a block number with `level` levels of indirect blocks.
pub(crate) fn span(geometry: &Geometry, level: u8) -> u32
    requires { level ≤ 2 }
    ensures { result ≡ (constants geometry.now.edition).pointers ^ level }
{
    let pointers = geometry.edition.constants().pointers;
    match level {
        0 => 1,
        1 => pointers,
        _ => pointers * pointers,
    }
}

impl Gathering {
    /// Collects one block.
    fn note(&mut self, single: Extent) -> Result<(), AllocError>
        requires { single.logical < 2 ^ 32 - 1 }
        ensures { OnOk result (Collects self.old self.new (single ∷ [])) }
    {
        let Some(last) = self.last else {
            self.last = Some(single);
            return Ok(());
        };
        if last.joins(&single) {
            self.last = Some(last.extended());
            return Ok(());
        }
        self.done.push(last)?;
        self.last = Some(single);
        Ok(())
    }
}
