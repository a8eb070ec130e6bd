//! The front of a volume: the boot block, the super-block and the first block of the i-list.
ghost use Rattle.std.specs.Prelude.{◌≡◌, ◌+◌, ◌*◌, ◌≤◌, ◌++◌, length, vec_len, IfOk, OnOk};
ghost use Rattle.vol_layout.specs.Geometry.{is_bounded};
ghost use Rattle.vol_identify.specs.Front.{blocks_if, blocks_wanted, front_at, begins, begun, is_volume, may_begin, has_free_head, has_root, swab, volume_of, within_either};

use pdp_words::{BLOCK, Image};
use std::alloc::{AllocError, Global};
use vol_layout::{Edition, Kind, Mode, Super};

/// The number of bytes in a front.
pub(crate) const FRONT: usize = 3 * BLOCK;

/// A volume that seems to be somewhere.
#[derive(Clone, Copy)]
pub struct FoundVolume {
    /// Its edition.
    pub edition: Edition,
    /// Its number of blocks, by its super-block.
    pub blocks: u32,
}

/// Returns the volume that begins with this front, by its super-block and its root.
#[tactic(auto, unfolding(crate::specs::Front::begun))]
pub(crate) fn begun(front: &Image) -> Option<FoundVolume>
    requires { 1536 ≤ length front.now }
    ensures { result ≡ begun front.now }
{
    if begins(Edition::V6, front) {
        Some(volume_of(Edition::V6, front))
    } else if begins(Edition::V7, front) {
        Some(volume_of(Edition::V7, front))
    } else {
        None
    }
}

/// Returns the volume of at most `room` blocks that begins with this front, by its super-block and its root.
pub(crate) fn begun_within(front: &Image, room: usize) -> Option<FoundVolume>
    requires { 1536 ≤ length front.now }
    ensures { result ≡ within_either begins front.now room }
{
    let six = volume_of(Edition::V6, front);
    if begins(Edition::V6, front) && six.blocks as usize <= room {
        return Some(six);
    }
    let seven = volume_of(Edition::V7, front);
    if begins(Edition::V7, front) && seven.blocks as usize <= room {
        return Some(seven);
    }
    None
}

/// Returns the volume of at most `room` blocks that may begin with this front, by its super-block.
pub(crate) fn may_be_within(front: &Image, room: usize) -> Option<FoundVolume>
    requires { 1536 ≤ length front.now }
    ensures { result ≡ within_either may_begin front.now room }
{
    let six = volume_of(Edition::V6, front);
    if may_begin(Edition::V6, front) && six.blocks as usize <= room {
        return Some(six);
    }
    let seven = volume_of(Edition::V7, front);
    if may_begin(Edition::V7, front) && seven.blocks as usize <= room {
        return Some(seven);
    }
    None
}

/// Returns the volume of this edition that a super-block describes.
pub(crate) fn volume_of(edition: Edition, front: &Image) -> FoundVolume
    requires { 1536 ≤ length front.now }
    ensures { result ≡ volume_of edition front.now }
{
    FoundVolume {
        edition,
        blocks: Super { edition }.block_count(front),
    }
}

/// True if a volume of this edition seems to begin with this front: its sizes, the head of its free list and its root are
/// those of one.
#[tactic(auto, unfolding(crate::specs::Front::begins))]
fn begins(edition: Edition, front: &Image) -> bool
    requires { 1536 ≤ length front.now }
    ensures { result ≡ begins edition front.now }
{
    is_bounded(edition, front) && has_free_head(edition, front) && has_root(edition, front)
}

/// True if an image seems to be a whole volume of this edition: rules 1 and 2 hold, and the head of the free list or the
/// root is that of a volume.
#[tactic(auto, unfolding(crate::specs::Front::is_volume))]
pub(crate) fn is_volume(edition: Edition, image: &Image) -> bool
    requires { 1536 ≤ length image.now }
    ensures { result ≡ is_volume edition image.now }
{
    let blocks = Super { edition }.block_count(image);
    BLOCK * blocks as usize <= image.len() && may_begin(edition, image)
}

/// True if a volume of this edition may begin with this front: rule 2 holds, and the head of the free list or the root is that of a volume.
#[tactic(auto, unfolding(crate::specs::Front::may_begin))]
fn may_begin(edition: Edition, front: &Image) -> bool
    requires { 1536 ≤ length front.now }
    ensures { result ≡ may_begin edition front.now }
{
    is_bounded(edition, front) && (has_free_head(edition, front) || has_root(edition, front))
}

/// Returns the number of blocks of the volume of this edition that may begin with this front; 0 if none may.
#[tactic(auto, unfolding(crate::specs::Front::blocks_if))]
fn blocks_if(edition: Edition, front: &Image) -> u32
    requires { 1536 ≤ length front.now }
    ensures { result ≡ blocks_if edition front.now }
{
    if may_begin(edition, front) {
        Super { edition }.block_count(front)
    } else {
        0
    }
}

/// Returns the number of blocks that must be there for the volume which may begin an image to be whole, as it is or with each pair of bytes exchanged; 0
/// if none may. Of a longer image, `identify` needs no more blocks to tell such a volume. Looks at the first three blocks alone.
#[tactic(auto, unfolding(crate::specs::Front::blocks_wanted))]
pub fn blocks_wanted(alloc: Global, image: &Image) -> Result<u32, AllocError>
    ensures { IfOk result (λ blocks. blocks ≡ blocks_wanted image.now) }
{
    if image.len() < FRONT {
        return Ok(0);
    }
    let straight = blocks_if(Edition::V6, image).max(blocks_if(Edition::V7, image));
    let exchanged = match begun(&swapped_front(alloc, image)?) {
        Some(volume) => volume.blocks,
        None => 0,
    };
    Ok(straight.max(exchanged))
}

/// True if rule 2 holds of a super-block.
fn is_bounded(edition: Edition, front: &Image) -> bool
    requires { 1536 ≤ length front.now }
    ensures { result ≡ is_bounded edition front.now }
{
    let super_block = Super { edition };
    let limits = edition.constants();
    let size = u32::from(super_block.list_size(front));
    let most = u32::from(limits.list_block_limit);
    let blocks = super_block.block_count(front);
    match edition {
        Edition::V6 => 1 <= size && size <= most && size + 2 < blocks,
        Edition::V7 => {
            3 <= size && size <= most + 2 && size < blocks && blocks <= limits.block_limit
        }
    }
}

/// True if the array of the free list in the super-block can be one: its count is at most its size, and the number that
/// would be taken next is that of a data block, or 0 at the end of the list.
#[tactic(auto, unfolding(crate::specs::Front::has_free_head))]
fn has_free_head(edition: Edition, front: &Image) -> bool
    requires { 1536 ≤ length front.now }
    ensures { result ≡ has_free_head edition front.now }
{
    let super_block = Super { edition };
    let count = super_block.free_count(front);
    if count == 0 {
        return true;
    }
    if count > edition.constants().free_slots {
        return false;
    }
    let next = super_block.free(front, count as usize - 1);
    let size = u32::from(super_block.list_size(front));
    let first = match edition {
        Edition::V6 => size + 2,
        Edition::V7 => size,
    };
    count == 1 && next == 0 || first <= next && next < super_block.block_count(front)
}

/// True if the root's i-node is that of a directory.
#[tactic(auto, unfolding(crate::specs::Front::has_root))]
fn has_root(edition: Edition, front: &Image) -> bool
    requires { 1536 ≤ length front.now }
    ensures { result ≡ has_root edition front.now }
{
    let constants = edition.constants();
    let place = 2 * BLOCK + constants.inode_bytes * (constants.root as usize - 1);
    let mode = Mode {
        bits: front.word(place),
    };
    matches!(mode.kind(edition), Kind::Directory)
}

/// Returns the front of the volume that would begin at block `k`.
#[tactic(auto, unfolding(crate::specs::Front::front_at))]
pub(crate) fn front_at(alloc: Global, image: &Image, k: u32) -> Result<Image, AllocError>
    requires { 512 * k + 1536 ≤ length image.now }
    ensures front { IfOk result (λ front. front ≡ front_at image.now k) }
    ensures len { IfOk result (λ front. length front ≡ 1536) }
{
    let start = BLOCK * k as usize;
    let bytes = &image.as_bytes()[start..start + FRONT];
    Ok(Image::from_bytes(Vec::from_slice(alloc, bytes)?))
}

/// Returns the front of an image, with each pair of bytes exchanged.
pub(crate) fn swapped_front(alloc: Global, image: &Image) -> Result<Image, AllocError>
    requires { 1536 ≤ length image.now }
    ensures front { IfOk result (λ front. front ≡ swab (front_at image.now 0)) }
    ensures len { IfOk result (λ front. length front ≡ 1536) }
{
    let front = front_at(alloc, image, 0)?;
    let mut bytes = Vec::new(alloc);
    push_swapped(&mut bytes, front.as_bytes())?;
    Ok(Image::from_bytes(bytes))
}

/// Appends bytes, with each pair of them exchanged.
#[tactic(auto, unfolding(crate::specs::Front::swab))]
fn push_swapped(swapped: &mut Vec<u8>, bytes: &[u8]) -> Result<(), AllocError>
    ensures items { OnOk result (swapped.new.items ≡ swapped.old.items ++ swab bytes.now) }
    ensures len { OnOk result (vec_len swapped.new ≡ vec_len swapped.old + length bytes.now) }
{
    match bytes {
        [first, second, rest @ ..] => {
            swapped.push(*second)?;
            swapped.push(*first)?;
            push_swapped(swapped, rest)
        }
        rest => Ok(swapped.extend_from_slice(rest)?),
    }
}
