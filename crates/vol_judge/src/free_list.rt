//! Rule 6: the free list is a stack of data blocks, each of which occurs in it once. The search marks the free blocks, and compares them with the
//! blocks that files use.
ghost use Rattle.std.specs.Prelude.{◌≡◌, ℕ, ◌<◌, ◌++◌, ◌∷◌, [], false, length, slice_index_or, List, IfOk, MatchOption};
ghost use Rattle.std.specs.Option.{option_map};
ghost use Rattle.std.specs.Result.{result_err};
ghost use Rattle.vol_layout.specs.Geometry.{Fits};
ghost use Rattle.vol_free.specs.Stack.{HasStack, IsFree};
ghost use Rattle.vol_file.specs.Rules.{IsApart};
ghost use Rattle.vol_judge.specs.Finds.{Finds};
ghost use Rattle.vol_judge.specs.FreeList.{IsFirstFault};
ghost use Rattle.vol_judge.specs.FreeMarks.{AreFreeMarks};
ghost use Rattle.vol_judge.specs.Marks.{MarksZone};
ghost use Rattle.vol_judge.specs.SharedBlocks.{AreClear, IsFirstMarked, IsFirstTwice};
ghost use Rattle.vol_judge.specs.Sound.{IsFreeApart};

use crate::finding::Finding;
use pdp_words::Image;
use vol_free::FreeWalk;
use vol_layout::Geometry;

/// Facts about a free list that is a stack.
#[derive(Clone, Copy)]
pub struct FreeStack {
    /// The number of free blocks.
    pub count: u32,
    /// Rule 7 broken by the first free block, in the order of the list, that is marked as used. It is the first violation of rule 7 if no block is
    /// used twice by files.
    pub named: Option<Finding>,
}

/// Returns the first violation of rule 6, found by walking the free list from its top. If there is none, returns the number of free blocks and the
/// first one that is marked in `named`. Both slices have a mark for each block. The marks in `free` are unset at first; if the result is `Ok`, those
/// of the free blocks are then set. `named` may hold any marks, as it does if rule 5 or 7 fails.
///
/// Reads each block of the free list at most once. Takes no memory.
pub fn find_fault(
    image: &Image,
    geometry: &Geometry,
    named: &[u8],
    free: &mut [bool],
) -> Result<FreeStack, Finding>
    requires fits { Fits geometry.now image.now }
    requires room { length named.now ≡ geometry.now.zone_end }
    requires free_room { length free.old ≡ geometry.now.zone_end }
    requires clear { (k : ℕ) → slice_index_or free.old k false ≡ false }
    ensures fault { Finds (HasStack geometry.now image.now) (IsFirstFault geometry.now image.now) (result_err result) }
    ensures marked { IfOk result (λ _. AreFreeMarks geometry.now image.now free.new) }
    ensures count { IfOk result (λ stack. (blocks : List ℕ) → IsFree geometry.now image.now blocks → stack.count ≡ length blocks) }
    ensures named { IfOk result (λ stack. IsApart geometry.now image.now → MarksZone geometry.now image.now named.now
        → Finds (IsFreeApart geometry.now image.now) (IsFirstTwice geometry.now image.now) stack.named) }
{
    let mut walk = FreeWalk::new(image, geometry);
    let mut first = None;
    'walk: loop {
        match walk.next(image, geometry, free) {
            Some(Ok(b)) => first = first_named(first, named, b),
            Some(Err((fault, number))) => return Err(Finding::FreeList(fault, number)),
            None => {
                return Ok(FreeStack {
                    count: walk.met,
                    named: used_and_free(first),
                });
            }
        }
    }
}

/// Returns the first marked block of a list that ends with block `b`; `first` is the first marked block before `b`.
fn first_named(first: Option<u32>, named: &[u8], b: u32) -> Option<u32>
    requires { b < length named.now }
    ensures { (blocks : List ℕ) → MatchOption first (AreClear named.now blocks) (IsFirstMarked named.now blocks)
        → MatchOption result (AreClear named.now (blocks ++ b ∷ [])) (IsFirstMarked named.now (blocks ++ b ∷ [])) }
{
    match first {
        Some(_) => first,
        None if named[b as usize] != 0 => Some(b),
        None => None,
    }
}

/// Returns the violation of rule 7 by `first`, the first free block that is marked as used.
fn used_and_free(first: Option<u32>) -> Option<Finding>
    ensures { result ≡ option_map Finding.UsedAndFree first }
{
    first.map(Finding::UsedAndFree)
}
