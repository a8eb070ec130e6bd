//! The blocks of a new volume that aren't free: the boot block, the super-block, the first block of the i-list, and the root's block.
ghost use Rattle.std.specs.Prelude.{◌≡◌, ℕ, ◌+◌, ◌-◌, ◌<◌, ◌≤◌, false, [], ◌∷◌, length, slice_index};
ghost use Rattle.pdp_words.specs.Words.{SameOutside, word, long};
ghost use Rattle.vol_layout.specs.Edition.{constants};
ghost use Rattle.vol_layout.specs.Geometry.{first_data_block, block_count};
ghost use Rattle.vol_layout.specs.Inode.{inode_place, inode_of, IsStorable};
ghost use Rattle.vol_layout.specs.Slot.{padded_name, slot_at};
ghost use Rattle.vol_layout.specs.Super.{free_head, time_place};
ghost use Rattle.vol_mkfs.specs.Blank.{HasHead, first_chain, IsBlankFirst};
ghost use Rattle.vol_mkfs.specs.Mkfs.{root_inode, sizes_bytes, IsMakeable, IsNoneOf};
ghost use Rattle.vol_layout.specs.Ids.{is_bad_id};

use crate::blank::FIRST_BLOCKS;
use crate::blank::blocks::{first_chain, put_free_head};
use crate::sizes::volume_of;
use pdp_words::{BLOCK, Image};
use vol_layout::slot::SLOT;
use vol_layout::super_block::HEAD_BYTES;
use vol_layout::{Edition, Geometry, Inode, Mode, Slot, Super, put_inode};

/// The position of the root's block, after blocks 0, 1 and 2. It is the same as in the smallest volume, which has four blocks.
const ROOT_PLACE: usize = FIRST_BLOCKS as usize * BLOCK;

/// The number of bytes in blocks 0, 1 and 2 and the root's block.
pub const FIRST_BYTES: usize = ROOT_PLACE + BLOCK;

/// Turns an image of zeros into blocks 0, 1 and 2 of a new volume, followed by the root's block.
pub fn fill(image: &mut Image, geometry: &Geometry, uid: u16, gid: u16, now: u32)
    requires makeable { IsMakeable geometry.now }
    requires id { is_bad_id geometry.now.edition uid gid ≡ false }
    requires len { length image.old ≡ 2048 }
    requires zeros { (k : ℕ) → slice_index image.old k ≡ 0 }
    ensures { IsBlankFirst geometry.now uid gid now image.new }
{
    put_free_list(image, geometry);
    put_super(image, geometry, now);
    put_root(
        image,
        geometry.edition,
        &root_inode(geometry, uid, gid, now),
    );
}

/// Writes the head of the free list to a super-block of zeros. The head stays zero if no block is free.
fn put_free_list(image: &mut Image, geometry: &Geometry)
    requires makeable { IsMakeable geometry.now }
    requires len { length image.old ≡ 2048 }
    ensures none { geometry.now.zone_end ≡ geometry.now.zone_start + 1 → image.new ≡ image.old }
    ensures head { geometry.now.zone_start + 1 < geometry.now.zone_end → HasHead geometry.now image.new (free_head geometry.now.edition)
        (first_chain geometry.now) (first_chain geometry.now - geometry.now.zone_start) }
    ensures others { SameOutside image.old image.new (free_head geometry.now.edition) (free_head geometry.now.edition + 202) }
{
    if geometry.zone_start + 1 < geometry.zone_end {
        let top = first_chain(geometry);
        let mut head = [0; HEAD_BYTES];
        put_free_head(
            &mut head,
            0,
            geometry,
            top,
            (top - geometry.zone_start) as u16,
        );
        let super_block = Super {
            edition: geometry.edition,
        };
        image.put_bytes(super_block.free_head(), &head);
    }
}

/// Writes the sizes and the time to the super-block.
fn put_super(image: &mut Image, geometry: &Geometry, now: u32)
    requires makeable { IsMakeable geometry.now }
    requires room { 1024 ≤ length image.old }
    ensures list_size { first_data_block geometry.now.edition image.new ≡ geometry.now.zone_start }
    ensures block_count { block_count geometry.now.edition image.new ≡ geometry.now.zone_end }
    ensures time { long image.new (time_place geometry.now.edition) ≡ now }
    ensures kept { (k : ℕ) → free_head geometry.now.edition ≤ k → k < free_head geometry.now.edition + 202
        → slice_index image.new k ≡ slice_index image.old k }
    ensures others { SameOutside image.old image.new 512 1024 }
    ensures rest { (k : ℕ) → IsNoneOf 512 (sizes_bytes geometry.now.edition) k → IsNoneOf (time_place geometry.now.edition) 4 k
        → slice_index image.new k ≡ slice_index image.old k }
{
    let super_block = Super {
        edition: geometry.edition,
    };
    let list_size = match geometry.edition {
        Edition::V6 => geometry.zone_start - 2,
        Edition::V7 => geometry.zone_start,
    };
    super_block.put_list_size(image, list_size as u16);
    super_block.put_block_count(image, geometry.zone_end);
    super_block.put_time(image, now);
}

/// Writes the root's i-node, and its two slots to the block after the first block of the i-list.
fn put_root(image: &mut Image, edition: Edition, node: &Inode)
    requires len { length image.old ≡ 2048 }
    requires storable { IsStorable edition node.now }
    ensures root { inode_of edition image.new (constants edition).root ≡ node.now }
    ensures dot { slot_at image.new 1536 ≡ record { inode = (constants edition).root; name = padded_name (46 ∷ []) } }
    ensures dot_dot { slot_at image.new 1552 ≡ record { inode = (constants edition).root; name = padded_name (46 ∷ 46 ∷ []) } }
    ensures before { (k : ℕ) → k < inode_place edition (constants edition).root → slice_index image.new k ≡ slice_index image.old k }
    ensures behind { (k : ℕ) → inode_place edition (constants edition).root + (constants edition).inode_bytes ≤ k → k < 1536
        → slice_index image.new k ≡ slice_index image.old k }
    ensures after { (k : ℕ) → 1568 ≤ k → slice_index image.new k ≡ slice_index image.old k }
    ensures unused { edition ≡ Edition.V7
        → slice_index image.new (inode_place Edition.V7 (constants Edition.V7).root + 51)
        ≡ slice_index image.old (inode_place Edition.V7 (constants Edition.V7).root + 51) }
    ensures len { length image.new ≡ length image.old }
{
    let root = edition.constants().root;
    put_inode(image, &volume_of(edition, 4, 1), root, node);
    image.put_bytes(ROOT_PLACE, &Slot::new(root, b".").to_bytes());
    image.put_bytes(ROOT_PLACE + SLOT, &Slot::new(root, b"..").to_bytes());
}

/// Returns the root's i-node.
fn root_inode(geometry: &Geometry, uid: u16, gid: u16, now: u32) -> Inode
    ensures { result ≡ root_inode geometry.now.edition geometry.now.zone_start uid gid now }
{
    let mode = Mode::directory(geometry.edition, 0o777);
    let mut addresses = [0; 13];
    addresses[0] = geometry.zone_start;
    Inode {
        size: 32,
        addresses,
        ..Inode::new(geometry.edition, mode, 2, uid, gid, now)
    }
}
