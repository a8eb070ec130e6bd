//! Checks the twelve rules in order, up to the first that fails.
ghost use Rattle.std.specs.Prelude.{◌≡◌, ℕ, false, true, IfNone, IfOk, List, length, slice_index_or};
ghost use Rattle.std.specs.Result.{result_err};
ghost use Rattle.vol_layout.specs.Geometry.{Fits, geometry_of};
ghost use Rattle.vol_free.specs.Stack.{IsFree};
ghost use Rattle.vol_file.specs.Rules.{IsApart};
ghost use Rattle.vol_judge.specs.Finds.{Finds};
ghost use Rattle.vol_judge.specs.Judge.{IsFirstBroken};
ghost use Rattle.vol_judge.specs.Marks.{MarksNamed};
ghost use Rattle.vol_judge.specs.SharedBlocks.{IsFirstTwice};
ghost use Rattle.vol_judge.specs.Sound.{Asked, IsJudged, free_rules, block_rules, volume_rules};

use crate::directories::judge_directories;
use crate::finding::Finding;
use crate::free_list::find_fault;
use crate::i_nodes::{find_kind, find_size};
use crate::lost::find_lost;
use crate::outside_blocks::find_outside;
use crate::shared_blocks::find_twice;
use pdp_words::Image;
use std::alloc::{AllocError, Global};
use vol_layout::{Edition, Geometry, GeometryFault};

/// Facts about a sound image, found by judging it.
#[derive(Clone, Copy)]
pub struct Examined {
    /// The image's geometry.
    pub geometry: Geometry,
    /// The number of free blocks.
    pub free: u32,
}

/// Returns the first of the twelve rules of soundness that an image breaks, or `None` if it keeps them all. The image may be any bytes. If `free` is
/// false, the free list is neither checked nor read: rules 6 and 8 are skipped, and rule 7 is checked only for the blocks that files use.
///
/// The time grows with the number of blocks of the image and the number of slots of its directories, full or empty, and includes sorting the names of
/// each directory. The memory is a few bytes for each block and i-number, and the names of one directory at a time. Fails only if memory runs out.
pub fn judge(
    alloc: Global,
    edition: Edition,
    image: &Image,
    free: bool,
) -> Result<Option<u8>, AllocError>
    ensures { IfOk result (λ least. IsJudged free edition image.now least) }
{
    Ok(examine(alloc, edition, image, free)?.err())
}

/// Judges an image, as [`judge`] does. Returns the first rule that it breaks as the inner error, or else its geometry and its number of free blocks,
/// which is 0 if the free list isn't checked.
///
/// Costs as much as [`judge`]. Fails only if memory runs out.
pub fn examine(
    alloc: Global,
    edition: Edition,
    image: &Image,
    free: bool,
) -> Result<Result<Examined, u8>, AllocError>
    ensures judged { IfOk result (λ found. IsJudged free edition image.now (result_err found)) }
    ensures sizes { IfOk result (λ found. IfOk found (λ examined. examined.geometry ≡ geometry_of edition image.now)) }
    ensures fits { IfOk result (λ found. IfOk found (λ examined. Fits examined.geometry image.now)) }
    ensures count { IfOk result (λ found. IfOk found (λ examined. Asked free
        ((blocks : List ℕ) → IsFree examined.geometry image.now blocks → examined.free ≡ length blocks))) }
{
    let geometry = match Geometry::read(edition, image) {
        Ok(geometry) => geometry,
        Err(GeometryFault::Short) => return Ok(Err(1)),
        Err(GeometryFault::Bounds) => return Ok(Err(2)),
    };
    match judge_volume(alloc, image, &geometry, free)? {
        Ok(free) => Ok(Ok(Examined { geometry, free })),
        Err(rule) => Ok(Err(rule)),
    }
}

/// Returns the number of free blocks if rules 3 to 12 hold (0 if the free list isn't checked), else the first rule that
/// fails.
fn judge_volume(
    alloc: Global,
    image: &Image,
    geometry: &Geometry,
    free: bool,
) -> Result<Result<u32, u8>, AllocError>
    requires { Fits geometry.now image.now }
    ensures least { IfOk result (λ found. IsFirstBroken 3 (volume_rules free geometry.now image.now) (result_err found)) }
    ensures count { IfOk result (λ found. IfOk found (λ count. Asked free
        ((blocks : List ℕ) → IsFree geometry.now image.now blocks → count ≡ length blocks))) }
{
    if find_kind(image, geometry).is_some() {
        return Ok(Err(3));
    }
    if find_size(image, geometry).is_some() {
        return Ok(Err(4));
    }
    match judge_blocks(alloc, image, geometry, free)? {
        Ok(count) => match judge_directories(alloc, image, geometry)? {
            None => Ok(Ok(count)),
            Some(rule) => Ok(Err(rule)),
        },
        Err(rule) => Ok(Err(rule)),
    }
}

/// Returns the number of free blocks if rules 5 to 8 hold (0 if the free list isn't checked), else the first rule that
/// fails. Takes a byte for each block, and two with the free list.
fn judge_blocks(
    alloc: Global,
    image: &Image,
    geometry: &Geometry,
    free: bool,
) -> Result<Result<u32, u8>, AllocError>
    requires { Fits geometry.now image.now }
    ensures least { IfOk result (λ found. IsFirstBroken 5 (block_rules free geometry.now image.now) (result_err found)) }
    ensures count { IfOk result (λ found. IfOk found (λ count. Asked free
        ((blocks : List ℕ) → IsFree geometry.now image.now blocks → count ≡ length blocks))) }
{
    let mut named = vec![in alloc; 0; geometry.zone_end as usize]?;
    if find_outside(image, geometry, &mut named).is_some() {
        return Ok(Err(5));
    }
    let twice = find_twice(image, geometry, &mut named);
    if free {
        return judge_free(alloc, image, geometry, twice, &named);
    }
    match twice {
        Some(_) => Ok(Err(7)),
        None => Ok(Ok(0)),
    }
}

/// Returns the number of free blocks if rules 6 to 8 hold, else the first rule that fails. `twice` is the first block that files use twice, if any,
/// and `named` marks the blocks that files use.
fn judge_free(
    alloc: Global,
    image: &Image,
    geometry: &Geometry,
    twice: Option<Finding>,
    named: &[u8],
) -> Result<Result<u32, u8>, AllocError>
    requires fits { Fits geometry.now image.now }
    requires room { length named.now ≡ geometry.now.zone_end }
    requires twice { Finds (IsApart geometry.now image.now) (IsFirstTwice geometry.now image.now) twice }
    requires marks { IfNone twice (MarksNamed geometry.now image.now named.now) }
    ensures least { IfOk result (λ found. IsFirstBroken 6 (free_rules true geometry.now image.now) (result_err found)) }
    ensures count { IfOk result (λ found. IfOk found (λ count.
        (blocks : List ℕ) → IsFree geometry.now image.now blocks → count ≡ length blocks)) }
{
    let mut free = vec![in alloc; false; geometry.zone_end as usize]?;
    Ok(judge_marks(image, geometry, twice, named, &mut free))
}

/// Returns the number of free blocks if rules 6 to 8 hold, else the first rule that fails. `twice` is the first block that files use twice, if any,
/// and `named` marks the blocks that files use. Marks the free blocks in `free`, which has no marks at first.
fn judge_marks(
    image: &Image,
    geometry: &Geometry,
    twice: Option<Finding>,
    named: &[u8],
    free: &mut [bool],
) -> Result<u32, u8>
    requires fits { Fits geometry.now image.now }
    requires room { length named.now ≡ geometry.now.zone_end }
    requires free_room { length free.old ≡ geometry.now.zone_end }
    requires clear { (k : ℕ) → slice_index_or free.old k false ≡ false }
    requires twice { Finds (IsApart geometry.now image.now) (IsFirstTwice geometry.now image.now) twice }
    requires marks { IfNone twice (MarksNamed geometry.now image.now named.now) }
    ensures least { IsFirstBroken 6 (free_rules true geometry.now image.now) (result_err result) }
    ensures count { IfOk result (λ count. (blocks : List ℕ) → IsFree geometry.now image.now blocks → count ≡ length blocks) }
{
    let Ok(stack) = find_fault(image, geometry, named, free) else {
        return Err(6);
    };
    if twice.is_some() || stack.named.is_some() {
        return Err(7);
    }
    if find_lost(geometry, named, free).is_some() {
        return Err(8);
    }
    Ok(stack.count)
}
