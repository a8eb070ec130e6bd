//! The rules about blocks: 5 to 8.
ghost use Rattle.std.specs.Prelude.{◌≡◌, ℕ, List, false, length, slice_index_or, IfOk};
ghost use Rattle.std.specs.Result.{result_err};
ghost use Rattle.vol_layout.specs.Geometry.{Fits};
ghost use Rattle.vol_free.specs.Stack.{HasStack};
ghost use Rattle.vol_file.specs.Rules.{IsZoned, IsApart};
ghost use Rattle.vol_judge.specs.Finds.{Finds};
ghost use Rattle.vol_judge.specs.FreeList.{IsFirstFault};
ghost use Rattle.vol_judge.specs.FreeMarks.{AreFreeMarks};
ghost use Rattle.vol_judge.specs.Lost.{IsFirstUncovered};
ghost use Rattle.vol_judge.specs.Marks.{MarksNamed};
ghost use Rattle.vol_judge.specs.SharedBlocks.{IsUsedOnce, IsFirstTwice};
ghost use Rattle.vol_judge.specs.Sound.{IsFreeApart, IsNoneLost};
ghost use Rattle.vol_judge.specs.OutsideBlocks.{IsFirstOutside};
ghost use Rattle.vol_findings.specs.Outcomes.{Says, IsTwiceUnasked, TellsBlocks};

use crate::outcome::RuleOutcome;
use pdp_words::Image;
use std::alloc::{AllocError, Global};
use vol_judge::{Finding, FreeStack, find_fault, find_lost, find_outside, find_twice, mark_named};
use vol_layout::Geometry;

/// The outcomes of the rules about blocks.
#[derive(Clone, Copy)]
pub(crate) struct BlockOutcomes {
    /// Rule 5: block maps point only to data blocks.
    pub zoned: RuleOutcome,
    /// Rule 6: the free list is a stack.
    pub listed: RuleOutcome,
    /// Rule 7: no block is used twice.
    pub apart: RuleOutcome,
    /// Rule 8: no block is lost.
    pub covered: RuleOutcome,
}

/// Checks the rules about blocks. Reads the free list once. Takes two bytes for each block.
pub(crate) fn check_blocks(
    alloc: Global,
    image: &Image,
    geometry: &Geometry,
) -> Result<BlockOutcomes, AllocError>
    requires { Fits geometry.now image.now }
    ensures { IfOk result (TellsBlocks geometry.now image.now) }
{
    let mut named = vec![in alloc; 0; geometry.zone_end as usize]?;
    let mut free = vec![in alloc; false; geometry.zone_end as usize]?;
    Ok(check_marks(image, geometry, &mut named, &mut free))
}

/// Checks the rules about blocks, with a mark in `named` for each block of a file and one in `free` for each free block. The values of `named` don't
/// matter at first, and no mark of `free` is set.
fn check_marks(
    image: &Image,
    geometry: &Geometry,
    named: &mut [u8],
    free: &mut [bool],
) -> BlockOutcomes
    requires fits { Fits geometry.now image.now }
    requires room { length named.old ≡ geometry.now.zone_end }
    requires free_room { length free.old ≡ geometry.now.zone_end }
    requires clear { (k : ℕ) → slice_index_or free.old k false ≡ false }
    ensures { TellsBlocks geometry.now image.now result }
{
    let zoned = RuleOutcome::of(find_outside(image, geometry, named));
    let files = check_files(image, geometry, zoned, named);
    let list = find_fault(image, geometry, named, free);
    let listed = RuleOutcome::of(list.err());
    let apart = check_apart(files, list);
    let covered = check_covered(image, geometry, list, named, free);
    BlockOutcomes {
        zoned,
        listed,
        apart,
        covered,
    }
}

/// Checks rule 7 for files, without the free list, given the outcome of rule 5. If rule 7 holds, the blocks of files are marked.
fn check_files(
    image: &Image,
    geometry: &Geometry,
    zoned: RuleOutcome,
    named: &mut [u8],
) -> RuleOutcome
    requires fits { Fits geometry.now image.now }
    requires room { length named.old ≡ geometry.now.zone_end }
    requires zoned { Says (IsZoned geometry.now image.now) (IsFirstOutside geometry.now image.now) ⊥ zoned }
    ensures files { Says (IsApart geometry.now image.now) (IsFirstTwice geometry.now image.now) (IsZoned geometry.now image.now → ⊥) result }
    ensures marks { result ≡ RuleOutcome.Holds → MarksNamed geometry.now image.now named.new }
{
    match zoned {
        RuleOutcome::Holds => RuleOutcome::of(find_twice(image, geometry, named)),
        _ => RuleOutcome::NotAsked,
    }
}

/// Returns the outcome of rule 7, from its outcome for files and from the free list. Two block-map positions that point to one block break it even if
/// the free list is broken.
fn check_apart(files: RuleOutcome, list: Result<FreeStack, Finding>) -> RuleOutcome
    ensures { (geometry : Geometry) (image : List ℕ)
        → Says (IsApart geometry image) (IsFirstTwice geometry image) (IsZoned geometry image → ⊥) files
        → Finds (HasStack geometry image) (IsFirstFault geometry image) (result_err list)
        → IfOk list (λ stack. files ≡ RuleOutcome.Holds → Finds (IsFreeApart geometry image) (IsFirstTwice geometry image) stack.named)
        → Says (IsUsedOnce geometry image) (IsFirstTwice geometry image) (IsTwiceUnasked geometry image) result }
{
    match files {
        RuleOutcome::Holds => match list {
            Ok(stack) => RuleOutcome::of(stack.named),
            Err(_) => RuleOutcome::NotAsked,
        },
        _ => files,
    }
}

/// Returns the outcome of rule 8, from the free list and the marks of its blocks. There is a mark in `named` for each block, with any value at first.
fn check_covered(
    image: &Image,
    geometry: &Geometry,
    list: Result<FreeStack, Finding>,
    named: &mut [u8],
    free: &[bool],
) -> RuleOutcome
    requires fits { Fits geometry.now image.now }
    requires room { length named.old ≡ geometry.now.zone_end }
    requires free_room { length free.now ≡ geometry.now.zone_end }
    requires list { Finds (HasStack geometry.now image.now) (IsFirstFault geometry.now image.now) (result_err list) }
    requires marked { IfOk list (λ _. AreFreeMarks geometry.now image.now free.now) }
    ensures { Says (IsNoneLost geometry.now image.now) (IsFirstUncovered geometry.now image.now) (HasStack geometry.now image.now → ⊥) result }
{
    match list {
        Ok(_) => {
            mark_named(image, geometry, named);
            RuleOutcome::of(find_lost(geometry, named, free))
        }
        Err(_) => RuleOutcome::NotAsked,
    }
}
