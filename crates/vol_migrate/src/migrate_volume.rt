//! Migrates a volume.
ghost use Rattle.std.specs.Prelude.{◌≡◌, ℕ, true, false, IfOk, IfErr, OnOk, None, unwrap_or};
ghost use Rattle.vol_layout.specs.Geometry.{Fits, geometry_of};
ghost use Rattle.vol_free.specs.Stack.{IsFree};
ghost use Rattle.vol_free.specs.Rebuild.{unused};
ghost use Rattle.vol_dir.specs.Tree.{state};
ghost use Rattle.vol_judge.specs.Sound.{IsSound, KeepsRules};
ghost use Rattle.vol_mkfs.specs.Mkfs.{is_size, volume_of, IsMakeable};
ghost use Rattle.vol_volume.specs.Volume.{reads_as};
ghost use Rattle.vol_migrate.specs.Migrate.{IsMigrated, IsRelisted};
ghost use Rattle.vol_migrate.specs.Refuse.{refusal};
ghost use Rattle.vol_migrate.specs.Stages.{MayMigrate};

use crate::copy::copy_files;
use crate::count::places_needed;
use crate::devices::Devices;
use crate::fault::MigrateFault;
use crate::i_nodes::{free_all, put_inodes, put_super};
use crate::refuse::{has_above, has_refused, is_size};
use pdp_words::{BLOCK, Image};
use std::alloc::{AllocError, Global};
use vol_free::rebuild;
use vol_judge::named_blocks;
use vol_layout::super_block::HEAD_BYTES;
use vol_layout::{Edition, Geometry, Super};
use vol_volume::Volume;

/// Makes a volume of the seventh edition from one of the sixth, with `blocks` blocks of 512 bytes, of which `list_blocks` are the i-list, and returns
/// its bytes. Each node gets the next i-number, in all entries too; i-number 1 is free. There are three more changes: each i-node was last changed at
/// `now`, in seconds since the beginning of 1970, which is also the super-block's time; block-map positions past a file's size are 0; and all unused
/// bytes of the volume are zero, namely bytes past a size, in an empty slot, and after a name. Blocks are allocated starting with the first data
/// block, by ascending i-number, and for each logical block in order along its path down from the i-node; all other blocks are free.
///
/// The refusals are checked in this order. Invalid: the volume isn't one of the sixth edition. Bounds: a volume of the seventh can't have these
/// sizes. HasDevice: it has a special file, which [`migrate_with`] can keep. NoInode: its highest i-number doesn't fit the i-list. NoSpace: the files
/// need more blocks than there are data blocks. NoMemory comes last, and only if memory runs out.
///
/// Takes memory once for the bytes, and for a while two bytes for each block. Copies each stored block within a size, with a block-map lookup in the
/// new volume, reads each i-node, and builds the free list twice.
pub fn migrate(
    alloc: Global,
    volume: &Volume,
    blocks: u32,
    list_blocks: u16,
    now: u32,
) -> Result<Vec<u8>, MigrateFault>
    ensures migrated { IfOk result (λ bytes. IsMigrated volume.now.image blocks list_blocks now bytes.items) }
    ensures accepted { OnOk result (refusal volume.now.edition (reads_as volume.now.edition volume.now.image) blocks list_blocks Devices.Refuse ≡ None) }
    ensures refused { IfErr result (λ fault. fault
        ≡ unwrap_or (refusal volume.now.edition (reads_as volume.now.edition volume.now.image) blocks list_blocks Devices.Refuse) MigrateFault.NoMemory) }
{
    migrate_with(alloc, volume, blocks, list_blocks, now, Devices::Refuse)
}

/// Migrates a volume as [`migrate`] does. With [`Devices::Keep`] a special file keeps its kind, block or character, and the number of its device;
/// HasDevice then comes only of one that would lose something, because its type isn't one of the two of a new special file, or an address other than
/// the first isn't 0.
///
/// Takes and costs as much as [`migrate`].
pub fn migrate_with(
    alloc: Global,
    volume: &Volume,
    blocks: u32,
    list_blocks: u16,
    now: u32,
    devices: Devices,
) -> Result<Vec<u8>, MigrateFault>
    ensures migrated { IfOk result (λ bytes. IsMigrated volume.now.image blocks list_blocks now bytes.items) }
    ensures accepted { OnOk result (refusal volume.now.edition (reads_as volume.now.edition volume.now.image) blocks list_blocks devices ≡ None) }
    ensures refused { IfErr result (λ fault. fault
        ≡ unwrap_or (refusal volume.now.edition (reads_as volume.now.edition volume.now.image) blocks list_blocks devices) MigrateFault.NoMemory) }
{
    volume.check();
    match volume.edition() {
        Edition::V6 => migrate_image(alloc, volume.image(), blocks, list_blocks, now, devices),
        Edition::V7 => Err(MigrateFault::Invalid),
    }
}

/// Migrates a sound image of the sixth edition, as [`migrate_with`] does. A caller that has judged an image needs no volume, which would keep a copy of its
/// bytes.
///
/// Takes and costs as much as [`migrate`].
pub fn migrate_image(
    alloc: Global,
    old: &Image,
    blocks: u32,
    list_blocks: u16,
    now: u32,
    devices: Devices,
) -> Result<Vec<u8>, MigrateFault>
    requires { IsSound Edition.V6 old.now }
    ensures migrated { IfOk result (λ bytes. IsMigrated old.now blocks list_blocks now bytes.items) }
    ensures accepted { OnOk result (refusal Edition.V6 (reads_as Edition.V6 old.now) blocks list_blocks devices ≡ None) }
    ensures refused { IfErr result (λ fault. fault
        ≡ unwrap_or (refusal Edition.V6 (reads_as Edition.V6 old.now) blocks list_blocks devices) MigrateFault.NoMemory) }
{
    let from = sound_geometry(old);
    if let Some(fault) = check(old, &from, blocks, list_blocks, devices) {
        return Err(fault);
    }
    let to = new_geometry(blocks, list_blocks);
    match make(alloc, old, &from, &to, now) {
        Ok(bytes) => Ok(bytes),
        Err(_) => Err(MigrateFault::NoMemory),
    }
}

/// Returns the geometry of a sound image of the sixth edition.
#[tactic(auto, using(crate::proofs::Migrated::sound_read))]
fn sound_geometry(old: &Image) -> Geometry
    requires { IsSound Edition.V6 old.now }
    ensures value { result ≡ geometry_of Edition.V6 old.now }
    ensures fits { Fits result old.now }
{
    match Geometry::read(Edition::V6, old) {
        Ok(geometry) => geometry,
        Err(_) => unreachable!(),
    }
}

/// Returns the first reason not to migrate a sound image of the sixth edition to a volume of these sizes, or `None`.
fn check(
    old: &Image,
    from: &Geometry,
    blocks: u32,
    list_blocks: u16,
    devices: Devices,
) -> Option<MigrateFault>
    requires sound { IsSound Edition.V6 old.now }
    requires geometry { from.now ≡ geometry_of Edition.V6 old.now }
    requires fits { Fits from.now old.now }
    ensures { result ≡ refusal Edition.V6 (state from.now old.now) blocks list_blocks devices }
{
    if !is_size(blocks, list_blocks) {
        return Some(MigrateFault::Bounds);
    }
    if has_refused(old, from, devices) {
        return Some(MigrateFault::HasDevice);
    }
    if has_above(old, from, 8 * list_blocks) {
        return Some(MigrateFault::NoInode);
    }
    let zone = blocks - (u32::from(list_blocks) + 2);
    if u64::from(zone) < places_needed(old, from) {
        return Some(MigrateFault::NoSpace);
    }
    None
}

/// Returns the geometry of a volume of the seventh edition with this number of blocks and of i-list blocks.
fn new_geometry(blocks: u32, list_blocks: u16) -> Geometry
    requires { is_size Edition.V7 blocks list_blocks ≡ true }
    ensures value { result ≡ volume_of Edition.V7 blocks list_blocks }
    ensures makeable { IsMakeable result }
{
    Geometry {
        edition: Edition::V7,
        zone_start: u32::from(list_blocks) + 2,
        zone_end: blocks,
        last_inode: Edition::V7.constants().inodes_per_block * list_blocks,
    }
}

/// Makes the new volume.
fn make(
    alloc: Global,
    old: &Image,
    from: &Geometry,
    to: &Geometry,
    now: u32,
) -> Result<Vec<u8>, AllocError>
    requires { MayMigrate old.now from.now to.now }
    ensures { IfOk result (λ bytes. (blocks list_blocks : ℕ) → to.now ≡ volume_of Edition.V7 blocks list_blocks
        → IsMigrated old.now blocks list_blocks now bytes.items) }
{
    let zeros = vec![in alloc; 0; to.zone_end as usize * BLOCK]?;
    let mut image = Image::from_bytes(zeros);
    put_super(&mut image, to, now);
    put_inodes(&mut image, to, old, from, now);
    free_all(&mut image, to, alloc)?;
    copy_files(&mut image, to, old, from);
    relist(&mut image, to, alloc)?;
    Ok(image.into_bytes())
}

/// Rebuilds the free list from the data blocks that belong to no file, as in a new volume: old numbers in its array are cleared.
fn relist(image: &mut Image, to: &Geometry, alloc: Global) -> Result<(), AllocError>
    requires seventh { to.now.edition ≡ Edition.V7 }
    requires sizes { geometry_of Edition.V7 image.old ≡ to.now }
    requires fits { Fits to.now image.old }
    requires rules { KeepsRules false Edition.V7 image.old }
    ensures { IfOk result (λ done. IsRelisted to.now image.old image.new) }
{
    let used = named_blocks(alloc, image, to)?;
    let head = Super {
        edition: Edition::V7,
    }
    .free_head();
    image.clear(head, head + HEAD_BYTES);
    rebuild(image, to, &used);
    Ok(())
}
