//! The free list: a stack of block numbers. The super-block has a count and an array of block numbers. Number 0 of the array is the chain block,
//! which begins with the next count and array; 0 means that there is none.
ghost use Rattle.std.specs.Prelude.{◌≡◌, ℕ, ◌+◌, ◌*◌, ◌<◌, ◌≤◌, true, List, ◌∷◌, length, slice_index, IfSome};
ghost use Rattle.pdp_words.specs.Words.{SameOutside, word};
ghost use Rattle.vol_layout.specs.Edition.{constants, number};
ghost use Rattle.vol_layout.specs.Geometry.{Fits, in_zone};
ghost use Rattle.vol_layout.specs.Super.{free_head};
ghost use Rattle.vol_free.specs.Rebuild.{KeepsUsed, unused};
ghost use Rattle.vol_free.specs.Stack.{IsIn, IsFree, HasStack, Pops, HeadTaken, HeadGiven, StaysBut};

use pdp_words::{BLOCK, Image};
use vol_layout::super_block::HEAD_BYTES;
use vol_layout::{Geometry, Super, number};

/// Removes the first block from the free list, clears it, and returns it; returns `None` and changes nothing if no block is free. The number stays in
/// the array, past the count. If it was number 0, the count and array at the start of the block are first copied to the super-block. Takes no memory.
pub fn take(image: &mut Image, geometry: &Geometry) -> Option<u32>
    requires fits { Fits geometry.now image.old }
    requires stack { HasStack geometry.now image.old }
    ensures popped { (blocks : List ℕ) → IsFree geometry.now image.old blocks
        → Pops geometry.now image.old image.new blocks result }
    ensures head { IfSome result (λ b. HeadTaken geometry.now.edition image.old image.new b) }
    ensures stack { HasStack geometry.now image.new }
    ensures fits { Fits geometry.now image.new }
{
    let super_block = Super {
        edition: geometry.edition,
    };
    let count = super_block.free_count(image);
    if count == 0 {
        return None;
    }
    let taken = super_block.free(image, count as usize - 1);
    if taken == 0 {
        return None;
    }
    let block = BLOCK * taken as usize;
    if count == 1 {
        image.copy_within(block, HEAD_BYTES, super_block.free_head());
    } else {
        super_block.put_free_count(image, count - 1);
    }
    image.clear(block, block + BLOCK);
    Some(taken)
}

/// Adds data block `b` to the front of the free list. If the super-block's array is full, its count and array are copied to the start of block `b`;
/// else the block isn't written. The numbers in the array past the count stay. Takes no memory.
pub fn give(image: &mut Image, geometry: &Geometry, b: u32)
    requires fits { Fits geometry.now image.old }
    requires stack { HasStack geometry.now image.old }
    requires zone { in_zone geometry.now b ≡ true }
    requires fresh { (blocks : List ℕ) → IsFree geometry.now image.old blocks → IsIn b blocks → ⊥ }
    ensures pushed { (blocks : List ℕ) → IsFree geometry.now image.old blocks → IsFree geometry.now image.new (b ∷ blocks) }
    ensures head { HeadGiven geometry.now.edition image.old image.new }
    ensures stack { HasStack geometry.now image.new }
    ensures others { StaysBut geometry.now image.old image.new b 202 }
    ensures unwritten { word image.old (free_head geometry.now.edition) < (constants geometry.now.edition).free_slots
        → SameOutside image.old image.new (free_head geometry.now.edition) (free_head geometry.now.edition + 202) }
    ensures chained { word image.old (free_head geometry.now.edition) ≡ (constants geometry.now.edition).free_slots
        → (k : ℕ) → k < 202 → slice_index image.new (512 * b + k) ≡ slice_index image.old (free_head geometry.now.edition + k) }
    ensures fits { Fits geometry.now image.new }
{
    let super_block = Super {
        edition: geometry.edition,
    };
    let count = super_block.free_count(image);
    if count == 0 {
        super_block.put_free(image, 0, 0);
        push(image, super_block, 1, b);
    } else if count == geometry.edition.constants().free_slots {
        image.copy_within(super_block.free_head(), HEAD_BYTES, BLOCK * b as usize);
        push(image, super_block, 0, b);
    } else {
        push(image, super_block, count, b);
    }
}

/// Returns the number of free blocks. Reads the super-block and each chain block once. Takes no memory.
pub fn free_count(image: &Image, geometry: &Geometry) -> u32
    requires fits { Fits geometry.now image.now }
    requires stack { HasStack geometry.now image.now }
    ensures { (blocks : List ℕ) → IsFree geometry.now image.now blocks → result ≡ length blocks }
{
    let super_block = Super {
        edition: geometry.edition,
    };
    image.fits_in_memory();
    let mut head = super_block.free_head();
    let mut count = super_block.free_count(image);
    let mut total = 0;
    while count > 0 {
        let chained = number(image, geometry.edition, head + 2, 0);
        if chained == 0 {
            return total + u32::from(count - 1);
        }
        total += u32::from(count);
        head = BLOCK * chained as usize;
        count = image.word(head);
    }
    total
}

/// Rebuilds the free list from the unused data blocks, in ascending order. `used` has a mark for each block of the volume; marks of blocks before the
/// data zone are ignored, and so is the old list. Like icheck `-s`, it starts with an empty list and adds the unused blocks from the highest down.
/// Takes no memory.
pub fn rebuild(image: &mut Image, geometry: &Geometry, used: &[bool])
    requires fits { Fits geometry.now image.old }
    requires marks { length used.now ≡ geometry.now.zone_end }
    ensures free { IsFree geometry.now image.new (unused geometry.now used.now) }
    ensures others { KeepsUsed geometry.now used.now image.old image.new }
    ensures fits { Fits geometry.now image.new }
{
    let super_block = Super {
        edition: geometry.edition,
    };
    super_block.put_free_count(image, 0);
    for b in (geometry.zone_start..geometry.zone_end).rev() {
        if !used[b as usize] {
            give(image, geometry, b);
        }
    }
}

/// Stores `b` as number `count` of the super-block's array, and sets the count to `count + 1`.
fn push(image: &mut Image, super_block: Super, count: u16, b: u32)
    requires room { 1024 ≤ length image.old }
    requires slots { count < (constants super_block.edition).free_slots }
    requires range { b < (constants super_block.edition).number_limit }
    ensures count { word image.new (free_head super_block.edition) ≡ count + 1 }
    ensures put { number super_block.edition image.new (free_head super_block.edition + 2) count ≡ b }
    ensures kept { (j : ℕ) → j < count → number super_block.edition image.new (free_head super_block.edition + 2) j
        ≡ number super_block.edition image.old (free_head super_block.edition + 2) j }
    ensures past { (k : ℕ) → free_head super_block.edition + 2 + (constants super_block.edition).number_bytes * (count + 1) ≤ k
        → slice_index image.new k ≡ slice_index image.old k }
    ensures others { SameOutside image.old image.new (free_head super_block.edition) (free_head super_block.edition + 202) }
{
    super_block.put_free(image, count as usize, b);
    super_block.put_free_count(image, count + 1);
}
