//! The owners of a block.
ghost use Rattle.std.specs.Prelude.{◌≡◌, ℕ, ◌+◌, ◌-◌, ◌*◌, ◌^◌, ◌<◌, ◌≤◌, ◌++◌, ◌∷◌, [], ◌==◌, if◌then◌else◌, true, false, length, None, Some, IfOk, OnOk, slice_index_or};
ghost use Rattle.std.specs.Option.{option_to_list};
ghost use Rattle.std.specs.List.{find};
ghost use Rattle.vol_layout.specs.Edition.{constants};
ghost use Rattle.vol_layout.specs.Geometry.{Fits, in_zone};
ghost use Rattle.vol_free.specs.FreeWalk.{free_walk};
ghost use Rattle.vol_inspect.specs.Extents.{holdings_from};
ghost use Rattle.vol_inspect.specs.Owners.{AreDead, InspectsBlock, is_block, list_owner, listed_in, naming, node_owners, or_lost, owner_by, owners_of};

use crate::extent::Extent;
use crate::extents::{first_logical, span};
use crate::fault::InspectFault;
use pdp_words::{BLOCK, Image};
use std::alloc::{AllocError, Global};
use vol_free::FreeWalk;
use vol_layout::i_list::{address, mode};
use vol_layout::{BlockMap, Edition, Geometry, number};

/// An owner of a block.
#[derive(Clone, Copy)]
pub enum Owner {
    /// No owner: the volume has no such block.
    Outside,
    /// The boot block, block 0.
    Boot,
    /// The super-block, block 1.
    SuperBlock,
    /// The i-list, with these i-nodes.
    IList {
        first: u32,
        last: u32,
    },
    /// The free list: the block that contains the array (1 for the super-block), and the index in that array.
    Free {
        link: u32,
        index: u16,
    },
    /// An i-node: the form of its block map, and the first position in it that points to the block, as an extent of one block.
    Node {
        ino: u16,
        form: BlockMap,
        extent: Extent,
    },
    /// No owner: a data block that is neither free nor in the block map of an i-node.
    Lost,
}

/// Returns the owners of block `b`: the free list first, then i-nodes in ascending order. The image must satisfy rules 1 and 2; otherwise it may have
/// any bytes.
///
/// Reads the free list up to its first fault, the i-list, and each indirect block at most once for each level at which it occurs; reads the indirect
/// blocks above block `b` once for each i-node. Takes five bytes for each block of the volume.
pub fn inspect_block(
    alloc: Global,
    edition: Edition,
    image: &Image,
    b: u32,
) -> Result<Vec<Owner>, InspectFault>
    ensures { InspectsBlock edition image.now b result }
{
    let geometry = Geometry::read(edition, image).map_err(InspectFault::Unsound)?;
    Ok(owners(alloc, image, &geometry, b)?)
}

/// Returns the owners of block `b` of an image with a geometry.
#[tactic(auto, unfolding(crate::specs::Owners::owners_of))]
fn owners(
    alloc: Global,
    image: &Image,
    geometry: &Geometry,
    b: u32,
) -> Result<Vec<Owner>, AllocError>
    requires { Fits geometry.now image.now }
    ensures { IfOk result (λ found. found.items ≡ owners_of geometry.now image.now b) }
{
    if b >= geometry.zone_end {
        return one(alloc, Owner::Outside);
    }
    if b == 0 {
        return one(alloc, Owner::Boot);
    }
    if b == 1 {
        return one(alloc, Owner::SuperBlock);
    }
    if b < geometry.zone_start {
        return one(alloc, list_owner(geometry, b));
    }
    data_owners(alloc, image, geometry, b)
}

/// Returns one owner.
fn one(alloc: Global, owner: Owner) -> Result<Vec<Owner>, AllocError>
    ensures { IfOk result (λ found. found.items ≡ owner ∷ []) }
{
    let mut found = Vec::new(alloc);
    found.push(owner)?;
    Ok(found)
}

/// Returns the i-nodes in block `b` of the i-list.
fn list_owner(geometry: &Geometry, b: u32) -> Owner
    requires from { 2 ≤ b }
    requires end { b ≤ 16777216 }
    ensures { result ≡ list_owner geometry.now b }
{
    let each = u32::from(geometry.edition.constants().inodes_per_block);
    Owner::IList {
        first: each * (b - 2) + 1,
        last: each * (b - 1),
    }
}

/// Returns the owners of data block `b`.
fn data_owners(
    alloc: Global,
    image: &Image,
    geometry: &Geometry,
    b: u32,
) -> Result<Vec<Owner>, AllocError>
    requires fits { Fits geometry.now image.now }
    requires zone { in_zone geometry.now b ≡ true }
    ensures { IfOk result (λ found. found.items ≡ or_lost (option_to_list (listed_in geometry.now image.now b (free_walk geometry.now image.now).met) ++ node_owners geometry.now image.now b)) }
{
    let mut marks = vec![in alloc; false; geometry.zone_end as usize]?;
    let mut dead = vec![in alloc; false; 4 * geometry.zone_end as usize]?;
    let mut found = Vec::new(alloc);
    if let Some(owner) = listed(&mut marks, image, geometry, b) {
        found.push(owner)?;
    }
    push_nodes(&mut found, &mut dead, image, geometry, b)?;
    or_lost(found)
}

/// Returns the owners, or `Lost` if there are none.
fn or_lost(mut found: Vec<Owner>) -> Result<Vec<Owner>, AllocError>
    ensures { IfOk result (λ owners. owners.items ≡ or_lost found.items) }
{
    if found.is_empty() {
        found.push(Owner::Lost)?;
    }
    Ok(found)
}

/// The search for a block in the free list.
#[derive(Clone, Copy)]
struct Listing {
    /// The block's position in the list, if it was found.
    found: Option<Owner>,
    /// The block that contains the current array.
    link: u32,
}

/// Returns the position of block `b` in the free list, up to the list's first fault. At the start no mark is set.
fn listed(marks: &mut [bool], image: &Image, geometry: &Geometry, b: u32) -> Option<Owner>
    requires fits { Fits geometry.now image.now }
    requires marks { length marks.old ≡ geometry.now.zone_end }
    requires clear { (k : ℕ) → slice_index_or marks.old k false ≡ false }
    ensures { result ≡ listed_in geometry.now image.now b (free_walk geometry.now image.now).met }
{
    let mut listing = Listing {
        found: None,
        link: 1,
    };
    let mut walk = FreeWalk::new(image, geometry);
    'walk: loop {
        let left = walk.count;
        match walk.next(image, geometry, marks) {
            Some(Ok(m)) => listing = listing.past(m, left, b),
            Some(Err(_)) => return listing.found,
            None => return listing.found,
        }
    }
}

impl Listing {
    /// Returns the search after block `m`, the last of the `left` numbers left in an array.
    fn past(self, m: u32, left: u16, b: u32) -> Listing
        ensures found { result.found ≡ (if m == b then Some (Owner.Free self.link (left - 1)) else self.found) }
        ensures link { result.link ≡ (if left == 1 then m else self.link) }
    {
        let found = if m == b {
            Some(Owner::Free {
                link: self.link,
                index: if left == 0 { 0 } else { left - 1 },
            })
        } else {
            self.found
        };
        let link = if left == 1 { m } else { self.link };
        Listing { found, link }
    }
}

/// Appends the i-nodes whose block maps have block `b`, in ascending order.
fn push_nodes(
    found: &mut Vec<Owner>,
    dead: &mut [bool],
    image: &Image,
    geometry: &Geometry,
    b: u32,
) -> Result<(), AllocError>
    requires fits { Fits geometry.now image.now }
    requires zone { in_zone geometry.now b ≡ true }
    requires dead { AreDead geometry.now image.now b dead.old }
    ensures { OnOk result (found.new.items ≡ found.old.items ++ node_owners geometry.now image.now b) }
{
    for before in 0..geometry.last_inode {
        let ino = before + 1;
        let form = BlockMap::of(geometry.edition, mode(image, geometry, ino));
        let extent = naming(dead, image, geometry, ino, b);
        push_node(found, ino, form, extent)?;
    }
    Ok(())
}

/// Appends an i-node, if its block map has the block.
fn push_node(
    found: &mut Vec<Owner>,
    ino: u16,
    form: BlockMap,
    extent: Option<Extent>,
) -> Result<(), AllocError>
    ensures { OnOk result (found.new.items ≡ found.old.items ++ owner_by ino form extent) }
{
    if let Some(extent) = extent {
        found.push(Owner::Node { ino, form, extent })?;
    }
    Ok(())
}

/// Returns the first position in the block map of i-node `i` that points to block `b`.
fn naming(dead: &mut [bool], image: &Image, geometry: &Geometry, i: u16, b: u32) -> Option<Extent>
    requires fits { Fits geometry.now image.now }
    requires first { 1 ≤ i }
    requires last { i ≤ geometry.now.last_inode }
    requires zone { in_zone geometry.now b ≡ true }
    requires dead { AreDead geometry.now image.now b dead.old }
    ensures found { result ≡ naming geometry.now image.now b i }
    ensures dead { AreDead geometry.now image.now b dead.new }
{
    let form = BlockMap::of(geometry.edition, mode(image, geometry, i));
    for k in 0..form.address_count() {
        let m = address(image, geometry, i, k);
        let logical = first_logical(form, k);
        let found = find_from(dead, image, geometry, form.levels(k), logical, m, b);
        if found.is_some() {
            return found;
        }
    }
    None
}

/// Returns the first position that points to block `b`, from the position with number `m`, which has `level` levels of blocks below it, and the
/// positions below. The first logical block below it is `logical`. A block that was found not to lead to `b` is marked, and isn't followed again.
fn find_from(
    dead: &mut [bool],
    image: &Image,
    geometry: &Geometry,
    level: u8,
    logical: u32,
    m: u32,
    b: u32,
) -> Option<Extent>
    requires fits { Fits geometry.now image.now }
    requires level { level ≤ 3 }
    requires room { logical + (constants geometry.now.edition).pointers ^ level < 2 ^ 31 }
    requires zone { in_zone geometry.now b ≡ true }
    requires dead { AreDead geometry.now image.now b dead.old }
    ensures found { result ≡ find (is_block b) (holdings_from geometry.now image.now level logical m) }
    ensures none { result ≡ None → (first : ℕ) → find (is_block b) (holdings_from geometry.now image.now level first m) ≡ None }
    ensures dead { AreDead geometry.now image.now b dead.new }
{
    if m == b {
        return Some(Extent::single(geometry, level, logical, m));
    }
    if level == 0 {
        return None;
    }
    if !geometry.in_zone(m) {
        return None;
    }
    let at = 4 * m as usize + level as usize;
    if dead[at] {
        return None;
    }
    let pointers = geometry.edition.constants().pointers;
    let span = span(geometry, level - 1);
    for j in 0..pointers {
        let entry = number(image, geometry.edition, BLOCK * m as usize, j as usize);
        let found = find_from(
            dead,
            image,
            geometry,
            level - 1,
            logical + j * span,
            entry,
            b,
        );
        if found.is_some() {
            return found;
        }
    }
    dead[at] = true;
    None
}
