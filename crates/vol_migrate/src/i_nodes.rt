//! A volume of the seventh edition with the i-nodes of a volume of the sixth, before any of them has a block.
ghost use Rattle.std.specs.Prelude.{◌≡◌, ◌≢◌, ℕ, ◌+◌, ◌*◌, ◌<◌, ◌≤◌, true, false, IfOk, length, replicate, slice_index};
ghost use Rattle.pdp_words.specs.Words.{SameOutside, long};
ghost use Rattle.vol_layout.specs.BlockPointers.{mode_of};
ghost use Rattle.vol_layout.specs.Geometry.{Fits, geometry_of};
ghost use Rattle.vol_layout.specs.Inode.{IsStorable, inode_of};
ghost use Rattle.vol_layout.specs.Super.{time_place};
ghost use Rattle.vol_free.specs.Stack.{IsFree};
ghost use Rattle.vol_free.specs.Rebuild.{KeepsUsed, unused};
ghost use Rattle.vol_file.specs.Rules.{kind_at};
ghost use Rattle.vol_mkfs.specs.Mkfs.{sizes_bytes, IsMakeable, IsNoneOf};
ghost use Rattle.vol_migrate.specs.Stages.{HasInodes, HasInodesBelow, MayMigrate, first_inode};

use pdp_words::Image;
use std::alloc::{AllocError, Global};
use vol_free::rebuild;
use vol_layout::i_list::kind;
use vol_layout::{Edition, Geometry, Inode, Kind, Super, inode, put_inode};

/// Writes the sizes of a volume of the seventh edition and its time to the super-block.
pub(crate) fn put_super(image: &mut Image, to: &Geometry, now: u32)
    requires seventh { to.now.edition ≡ Edition.V7 }
    requires makeable { IsMakeable to.now }
    requires len { length image.old ≡ 512 * to.now.zone_end }
    ensures sizes { geometry_of to.now.edition image.new ≡ to.now }
    ensures time { long image.new (time_place to.now.edition) ≡ now }
    ensures rest { (k : ℕ) → IsNoneOf 512 (sizes_bytes to.now.edition) k → IsNoneOf (time_place to.now.edition) 4 k
        → slice_index image.new k ≡ slice_index image.old k }
    ensures others { SameOutside image.old image.new 512 1024 }
{
    let super_block = Super {
        edition: Edition::V7,
    };
    super_block.put_list_size(image, to.zone_start as u16);
    super_block.put_block_count(image, to.zone_end);
    super_block.put_time(image, now);
}

/// Writes each i-node that isn't free to an i-list of zeros, under the next i-number.
pub(crate) fn put_inodes(image: &mut Image, to: &Geometry, old: &Image, from: &Geometry, now: u32)
    requires may { MayMigrate old.now from.now to.now }
    requires fits { Fits to.now image.old }
    requires zeros { (k : ℕ) → 1024 ≤ k → k < 512 * to.now.zone_start → slice_index image.old k ≡ 0 }
    ensures put { HasInodes from.now to.now old.now now image.new }
    ensures others { SameOutside image.old image.new 1024 (512 * to.now.zone_start) }
{
    for i in 1..=from.last_inode {
        put_next(image, to, old, from, i, now);
    }
}

/// Writes i-node `i`, if it isn't free, under the next i-number.
fn put_next(image: &mut Image, to: &Geometry, old: &Image, from: &Geometry, i: u16, now: u32)
    requires may { MayMigrate old.now from.now to.now }
    requires fits { Fits to.now image.old }
    requires first { 1 ≤ i }
    requires last { i ≤ from.now.last_inode }
    ensures put { HasInodesBelow from.now to.now old.now now image.old i → HasInodesBelow from.now to.now old.now now image.new (i + 1) }
    ensures others { SameOutside image.old image.new 1024 (512 * to.now.zone_start) }
{
    if is_used(old, from, i) {
        let node = raised(old, from, i, now);
        put_inode(image, to, i + 1, &node);
    }
}

/// Returns i-node `i` as it is in the seventh edition before it has a block. A special file has the number of its device.
fn raised(old: &Image, from: &Geometry, i: u16, now: u32) -> Inode
    requires fits { Fits from.now old.now }
    requires first { 1 ≤ i }
    requires last { i ≤ from.now.last_inode }
    requires allocated { 32768 ≤ mode_of from.now old.now i }
    ensures value { result ≡ first_inode (kind_at from.now old.now i) (inode_of from.now.edition old.now i) now }
    ensures storable { IsStorable Edition.V7 result }
{
    let node = inode(old, from, i);
    let raised = node.raised(now);
    match kind(old, from, i) {
        Kind::Special => {
            let mut addresses = [0; 13];
            addresses[0] = u32::from(node.device_number());
            Inode {
                addresses,
                ..raised
            }
        }
        _ => raised,
    }
}

/// True if i-node `i` isn't free.
fn is_used(image: &Image, geometry: &Geometry, i: u16) -> bool
    requires fits { Fits geometry.now image.now }
    requires first { 1 ≤ i }
    requires last { i ≤ geometry.now.last_inode }
    ensures used { result ≡ true → kind_at geometry.now image.now i ≢ Kind.Free }
    ensures free { result ≡ false → kind_at geometry.now image.now i ≡ Kind.Free }
{
    match kind(image, geometry, i) {
        Kind::Free => false,
        _ => true,
    }
}

/// Puts all data blocks in the free list.
pub(crate) fn free_all(image: &mut Image, to: &Geometry, alloc: Global) -> Result<(), AllocError>
    requires { Fits to.now image.old }
    ensures free { IfOk result (λ done. IsFree to.now image.new (unused to.now (replicate to.now.zone_end false))) }
    ensures others { IfOk result (λ done. KeepsUsed to.now (replicate to.now.zone_end false) image.old image.new) }
    ensures fits { IfOk result (λ done. Fits to.now image.new) }
{
    let used = vec![in alloc; false; to.zone_end as usize]?;
    rebuild(image, to, &used);
    Ok(())
}
