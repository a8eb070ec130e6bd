//! The walk over the free list of any image, sound or not, up to the first fault.
ghost use Rattle.std.specs.Prelude.{◌≡◌, ℕ, ◌+◌, ◌-◌, ◌*◌, ◌≤◌, List, [], Bool, false, length, reverse, slice_index_or, IfOk};
ghost use Rattle.pdp_words.specs.Words.{word};
ghost use Rattle.vol_layout.specs.Geometry.{Fits};
ghost use Rattle.vol_free.specs.FreeWalk.{free_walk};
ghost use Rattle.vol_free.specs.Walk.{AreZoned};

use pdp_words::{BLOCK, Image};
use std::alloc::{AllocError, Global};
use vol_layout::{Geometry, Super, number};

/// The fault that ends a walk over the free list.
#[derive(Clone, Copy)]
pub enum FreeFault {
    /// A count above the size of the array.
    TooMany,
    /// A number outside the data zone.
    OutOfZone,
    /// A block that the walk has already visited.
    Repeat,
}

impl FreeFault {
    ghost use Rattle.vol_free.specs.FreeWalk.{fault_word};

    /// Returns the words for this fault in a report.
    pub fn word(self) -> &'static str
        ensures { result.now ≡ fault_word self }
    {
        match self {
            FreeFault::TooMany => "free toomany",
            FreeFault::OutOfZone => "free outofzone",
            FreeFault::Repeat => "free repeat",
        }
    }
}

/// The blocks visited by a walk over the free list.
#[derive(Drop)]
pub struct FreeBlocks {
    /// The blocks in order, the next block to be taken first.
    pub met: Vec<u32>,
    /// The fault that ended the walk, if any, with the bad count or block number.
    pub fault: Option<(FreeFault, u32)>,
}

/// A walk over the free list: from the top of the array in the super-block down, and then along the chain blocks, up to the first fault.
#[derive(Clone, Copy)]
pub struct FreeWalk {
    /// The byte at which the current count and array begin.
    head: usize,
    /// The number of entries left in the current array. If it is 1, the next block begins with the next count and array.
    pub count: u16,
    /// The number of blocks visited.
    pub met: u32,
}

impl FreeWalk {
    ghost use Rattle.vol_free.specs.Walk.{HasMet, StepFinds};

    /// Returns a walk that starts at the super-block, with no block visited and no mark set.
    pub fn new(image: &Image, geometry: &Geometry) -> FreeWalk
        requires { Fits geometry.now image.now }
        ensures { (marks : List Bool) → length marks ≡ geometry.now.zone_end
            → ((b : ℕ) → slice_index_or marks b false ≡ false) → HasMet geometry.now image.now marks result [] }
    {
        let super_block = Super {
            edition: geometry.edition,
        };
        FreeWalk {
            head: super_block.free_head(),
            count: super_block.free_count(image),
            met: 0,
        }
    }

    /// Returns the next block and marks it, or the fault that ends the walk with the bad count or block number, or `None` at the end of the list.
    /// There is a mark for each block of the volume. Takes no memory.
    pub fn next(
        &mut self,
        image: &Image,
        geometry: &Geometry,
        marks: &mut [bool],
    ) -> Option<Result<u32, (FreeFault, u32)>>
        requires fits { Fits geometry.now image.now }
        requires walking { (met : List ℕ) × HasMet geometry.now image.now marks.old self.old met }
        ensures { StepFinds geometry.now image.now marks.old marks.new self.old self.new result }
    {
        image.fits_in_memory();
        if self.count == 0 {
            return None;
        }
        if self.count > geometry.edition.constants().free_slots {
            return Some(Err((FreeFault::TooMany, u32::from(self.count))));
        }
        let b = number(
            image,
            geometry.edition,
            self.head + 2,
            self.count as usize - 1,
        );
        if self.count == 1 && b == 0 {
            return None;
        }
        if !geometry.in_zone(b) {
            return Some(Err((FreeFault::OutOfZone, b)));
        }
        if marks[b as usize] {
            return Some(Err((FreeFault::Repeat, b)));
        }
        marks[b as usize] = true;
        self.pass(image, b);
        Some(Ok(b))
    }

    /// Moves past data block `b`, the top entry of those left.
    fn pass(&mut self, image: &Image, b: u32)
        requires room { 512 * b + 2 ≤ length image.now }
        requires some { 1 ≤ self.old.count }
        requires few { self.old.met ≤ 16777216 }
        ensures chain { self.old.count ≡ 1 → (self.new.head ≡ 512 * b) × (self.new.count ≡ word image.now (512 * b)) }
        ensures array { (self.old.count ≡ 1 → ⊥) → (self.new.head ≡ self.old.head) × (self.new.count ≡ self.old.count - 1) }
        ensures met { self.new.met ≡ self.old.met + 1 }
    {
        self.met += 1;
        if self.count > 1 {
            self.count -= 1;
        } else {
            self.head = BLOCK * b as usize;
            self.count = image.word(self.head);
        }
    }
}

/// Collects the blocks of the free list, up to the first fault.
///
/// Reads each block of the free list at most once. Takes one byte for each block of the volume, and four for each block visited.
pub fn walk_free(
    alloc: Global,
    image: &Image,
    geometry: &Geometry,
) -> Result<FreeBlocks, AllocError>
    requires { Fits geometry.now image.now }
    ensures met { IfOk result (λ walk. reverse walk.met.items ≡ (free_walk geometry.now image.now).met) }
    ensures zoned { IfOk result (λ walk. AreZoned geometry.now walk.met.items) }
    ensures fault { IfOk result (λ walk. walk.fault ≡ (free_walk geometry.now image.now).fault) }
{
    let mut marks = vec![in alloc; false; geometry.zone_end as usize]?;
    let mut met = Vec::new(alloc);
    let mut walk = FreeWalk::new(image, geometry);
    'walk: loop {
        match walk.next(image, geometry, &mut marks) {
            Some(Ok(b)) => met.push(b)?,
            Some(Err(fault)) => {
                return Ok(FreeBlocks {
                    met,
                    fault: Some(fault),
                });
            }
            None => return Ok(FreeBlocks { met, fault: None }),
        }
    }
}
