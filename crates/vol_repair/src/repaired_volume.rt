//! The repair of a damaged volume, to a copy.
ghost use Rattle.std.specs.Prelude.{◌≡◌, ◌≤◌, false, length, true, IfOk, IfErr, IfSome};
ghost use Rattle.std.specs.List.{list_any};
ghost use Rattle.std.specs.Result.{is_ok};
ghost use Rattle.vol_layout.specs.Geometry.{Fits, geometry_of, geometry_read};
ghost use Rattle.vol_judge.specs.Sound.{IsLeastBroken, IsSound};
ghost use Rattle.vol_losses.specs.Losses.{AgreesOutside, is_lost};
ghost use Rattle.vol_repair.specs.Repaired.{HasSameFront, HasSameList, IsRepaired, IsRepairFault, TellsAll};
ghost use Rattle.vol_repair.specs.Told.{IsNotFit};

use crate::claims::find_claims;
use crate::compared::{changed_blocks, is_same_block};
use crate::edits::{EditFault, mend};
use crate::repair_line::RepairLine;
use crate::told_lines::push_lines;
use pdp_words::Image;
use std::alloc::{AllocError, Global};
use thiserror::Error;
use vol_free::walk_free;
use vol_judge::judge;
use vol_layout::{Edition, Geometry, GeometryFault, Super};
use vol_losses::is_lost;

/// The reason why an image wasn't repaired.
#[derive(Clone, Copy, Debug, Error)]
pub enum RepairFault {
    /// The image breaks this rule, 1 or 2, so the sizes of its volume aren't known.
    #[error("unsound, rule {0}")]
    Unsized(u8),
    /// The copy isn't sound after all edits, or a file that fits would have changed.
    #[error("112 NotRepaired")]
    NotRepaired,
    /// There is no room for a directory, or for its entries.
    #[error("28 NoSpace")]
    NoSpace,
    /// Memory ran out.
    #[error("12 NoMemory")]
    NoMemory,
}

impl From<AllocError> for RepairFault {
    ghost use Rattle.vol_repair.specs.declared.repaired_volume.RepairFault.TheVariants as faults;

    ghost from_gives = { λ _ fault. fault ≡ faults.NoMemory };

    fn from(_: AllocError) -> RepairFault {
        RepairFault::NoMemory
    }
}

/// A repaired copy of an image.
#[derive(Drop)]
pub struct Repaired {
    /// The copy.
    pub image: Image,
    /// What differs between the image and the copy: in i-nodes, the bytes of files, slots of directories, the super-block, and the blocks of the copy's free
    /// list.
    pub lines: Vec<RepairLine>,
}

/// Repairs the image of a volume to a copy, which is sound and as long as the image, and returns it with lines that tell what differs. A sound image is
/// its own copy, with no line. A file fits if it is regular, isn't the root, has a size within the limit, and has only data blocks that no other position
/// points to: each such file keeps its i-node and its bytes, and only its link count may differ. `now` is the time of new i-nodes, in seconds.
///
/// Costs a few times as much as judging an image. Takes the memory of the copy, that to judge it, a few bytes for each block, and that of the lines.
/// `Unsized` is checked first; `NoSpace` and `NotRepaired` come only of an image that isn't sound, and `NoMemory` at any time. No clause says which images
/// can be repaired.
pub fn repair(
    alloc: Global,
    edition: Edition,
    old: &Image,
    now: u32,
) -> Result<Repaired, RepairFault>
    ensures repaired { IfOk result (λ repaired. IsRepaired edition old.now repaired.image repaired.lines.items) }
    ensures fault { IfErr result (IsRepairFault edition old.now) }
{
    let geometry = match Geometry::read(edition, old) {
        Ok(geometry) => geometry,
        Err(GeometryFault::Short) => return Err(RepairFault::Unsized(1)),
        Err(GeometryFault::Bounds) => return Err(RepairFault::Unsized(2)),
    };
    match judge(alloc, edition, old, true) {
        Ok(None) => unchanged(alloc, edition, old),
        Ok(Some(rule)) => repair_broken(alloc, edition, &geometry, old, rule, now),
        Err(_) => Err(RepairFault::NoMemory),
    }
}

/// Returns the copy of a sound image.
fn unchanged(alloc: Global, edition: Edition, old: &Image) -> Result<Repaired, RepairFault>
    requires sound { IsSound edition old.now }
    ensures repaired { IfOk result (λ repaired. IsRepaired edition old.now repaired.image repaired.lines.items) }
    ensures fault { IfErr result (IsRepairFault edition old.now) }
{
    Ok(Repaired {
        image: Image::from_bytes(Vec::from_slice(alloc, old.as_bytes())?),
        lines: Vec::new(alloc),
    })
}

/// Repairs an image that breaks `rule`, the least of the broken rules, and not 1 or 2.
fn repair_broken(
    alloc: Global,
    edition: Edition,
    geometry: &Geometry,
    old: &Image,
    rule: u8,
    now: u32,
) -> Result<Repaired, RepairFault>
    requires sized { is_ok (geometry_read edition old.now) ≡ true }
    requires geometry { geometry.now ≡ geometry_of edition old.now }
    requires fits { Fits geometry.now old.now }
    requires broken { IsLeastBroken true edition old.now rule }
    ensures repaired { IfOk result (λ repaired. IsRepaired edition old.now repaired.image repaired.lines.items) }
    ensures fault { IfErr result (IsRepairFault edition old.now) }
{
    let mut image = Image::from_bytes(Vec::from_slice(alloc, old.as_bytes())?);
    let unfit = find_claims(alloc, old, geometry)?.unfit;
    match mend(alloc, &mut image, geometry, rule, now) {
        Ok(()) => told(alloc, edition, geometry, old, image, &unfit),
        Err(EditFault::NoSpace) => Err(RepairFault::NoSpace),
        Err(EditFault::NoMemory) => Err(RepairFault::NoMemory),
    }
}

/// Returns a copy with the lines of what differs, if it is sound and keeps each file that isn't marked in `unfit`.
fn told(
    alloc: Global,
    edition: Edition,
    geometry: &Geometry,
    old: &Image,
    image: Image,
    unfit: &[bool],
) -> Result<Repaired, RepairFault>
    requires sized { is_ok (geometry_read edition old.now) ≡ true }
    requires geometry { geometry.now ≡ geometry_of edition old.now }
    requires old { Fits geometry.now old.now }
    requires new { Fits geometry.now image }
    requires broken { IsSound edition old.now → ⊥ }
    requires unfit { IsNotFit geometry.now old.now unfit.now }
    ensures repaired { IfOk result (λ repaired. IsRepaired edition old.now repaired.image repaired.lines.items) }
    ensures fault { IfErr result (IsRepairFault edition old.now) }
{
    if !has_same_front(edition, old, &image) {
        return Err(RepairFault::NotRepaired);
    }
    if judge(alloc, edition, &image, true)?.is_some() {
        return Err(RepairFault::NotRepaired);
    }
    match lines_of(alloc, geometry, old, &image, unfit)? {
        Some(lines) => Ok(Repaired { image, lines }),
        None => Err(RepairFault::NotRepaired),
    }
}

/// True if two images have the same length, boot block and sizes.
fn has_same_front(edition: Edition, old: &Image, new: &Image) -> bool
    requires old { 1024 ≤ length old.now }
    requires new { 1024 ≤ length new.now }
    ensures { result ≡ true → HasSameFront edition old.now new.now }
{
    if old.len() != new.len() {
        return false;
    }
    is_same_block(old, new, 0) && has_same_sizes(edition, old, new)
}

/// True if the super-blocks of two images have the same sizes.
fn has_same_sizes(edition: Edition, old: &Image, new: &Image) -> bool
    requires old { 1024 ≤ length old.now }
    requires new { 1024 ≤ length new.now }
    ensures { result ≡ true → geometry_of edition new.now ≡ geometry_of edition old.now }
{
    let super_block = Super { edition };
    super_block.list_size(old) == super_block.list_size(new)
        && super_block.block_count(old) == super_block.block_count(new)
}

/// Returns the lines of what differs, or `None` if a file isn't kept that isn't marked in `unfit`.
fn lines_of(
    alloc: Global,
    geometry: &Geometry,
    old: &Image,
    new: &Image,
    unfit: &[bool],
) -> Result<Option<Vec<RepairLine>>, AllocError>
    requires old { Fits geometry.now old.now }
    requires new { Fits geometry.now new.now }
    requires unfit { IsNotFit geometry.now old.now unfit.now }
    ensures { IfOk result (λ told. IfSome told (λ lines. TellsAll geometry.now old.now new.now lines.items)) }
{
    let changed = changed_blocks(alloc, geometry, old, new)?;
    let mut lines = Vec::new(alloc);
    if !push_lines(alloc, old, new, geometry, &changed, unfit, &mut lines)? {
        return Ok(None);
    }
    if is_list_changed(alloc, geometry, old, new, &changed)? {
        lines.push(RepairLine::FreeList)?;
    }
    Ok(Some(lines))
}

/// True if the super-block or a block of the new image's free list differs between two images. `changed` marks each block that does.
///
/// Costs a walk over the free list. Takes a byte for each block of the volume, and four for each block of the list.
fn is_list_changed(
    alloc: Global,
    geometry: &Geometry,
    old: &Image,
    new: &Image,
    changed: &[bool],
) -> Result<bool, AllocError>
    requires old { Fits geometry.now old.now }
    requires new { Fits geometry.now new.now }
    requires agrees { AgreesOutside geometry.now changed.now old.now new.now }
    ensures { IfOk result (λ differs. differs ≡ false → HasSameList geometry.now old.now new.now) }
{
    if !is_same_block(old, new, 1) {
        return Ok(true);
    }
    Ok(is_any_changed(changed, &walk_free(alloc, new, geometry)?.met))
}

/// True if one of some blocks is marked.
fn is_any_changed(changed: &[bool], blocks: &[u32]) -> bool
    ensures { result ≡ list_any (is_lost changed.now) blocks.now }
{
    blocks.iter().any(|block| is_lost(changed, *block))
}
