//! Iterating over the entries of a directory without reading a block twice, even if the directory has it more than once.
ghost use Rattle.std.specs.Prelude.{◌≡◌, ℕ, ◌+◌, ◌*◌, ◌<◌, ◌≤◌, Bool, true, List, Option, None, IfOk, IfErr, IfSome, MatchOption};
ghost use Rattle.vol_layout.specs.Geometry.{Fits};
ghost use Rattle.vol_dir.specs.Entries.{IsDirectory, slot_count, entry_at};
ghost use Rattle.vol_dir.specs.Repeats.{IsEntryFrom, MarksEmpty, MarksSlots, PassSlots};
ghost use Rattle.vol_dir.specs.Scan.{GoesOn};

use crate::entries::{SLOTS, Sought, block_after, first_in_block, slot_count};
use pdp_words::Image;
use vol_file::{mark_passed, passed_end};
use vol_layout::{Geometry, Slot};

/// Returns the first entry of directory `dir` at or after slot `from` that is not below a marked block, with its i-number and name. `marks` has three
/// marks for each block, or none.
///
/// Also marks each block whose slots are all at or after slot `known` and have been passed. Every slot below a marked block then has each property
/// that empty slots and the slots `known..from` have: if `known` is `from`, it is empty; if `known` is 0, it is empty or has a name that the caller
/// has already visited. Costs at most as much as [`next_entry`](crate::next_entry), and two more block-map lookups for each logical block that is
/// read.
pub fn next_unmarked(
    image: &Image,
    geometry: &Geometry,
    dir: u16,
    from: u32,
    known: u32,
    marks: &mut [bool],
) -> Option<(u32, Slot)>
    requires fits { Fits geometry.now image.now }
    requires directory { IsDirectory geometry.now image.now dir }
    ensures found { IfSome result (λ found. IsEntryFrom geometry.now image.now dir from found.0 found.1) }
    ensures marks { (test : Option (List ℕ × ℕ) → Bool) → test None ≡ true → MarksSlots test geometry.now image.now marks.old
        → PassSlots test geometry.now image.now dir known from → MarksSlots test geometry.now image.now marks.new }
    ensures passed { (test : Option (List ℕ × ℕ) → Bool) → test None ≡ true → MarksSlots test geometry.now image.now marks.old
        → PassSlots test geometry.now image.now dir known from
        → MatchOption result (PassSlots test geometry.now image.now dir from (slot_count geometry.now image.now dir))
        (λ found. PassSlots test geometry.now image.now dir from found.0) }
{
    let count = slot_count(image, geometry, dir);
    let mut b = from.saturating_sub(1) / SLOTS;
    while b < count.div_ceil(SLOTS) {
        match first_or_end(image, geometry, dir, from, b, marks) {
            Ok(found) => return Some(found),
            Err(end) => {
                let to = end.min(count / SLOTS);
                mark_passed(image, geometry, dir, b, known.div_ceil(SLOTS), to, marks);
                b = end;
            }
        }
    }
    None
}

/// Returns the same entry as [`next_entry`](crate::next_entry), and skips marked blocks, below which no slot has an entry.
///
/// Costs at most as much as `next_entry`, and two more block-map lookups for each logical block that is read; marked blocks cost nothing. If several
/// searches share their marks, the slots below a block without entries are read only once.
pub fn next_entry_marked(
    image: &Image,
    geometry: &Geometry,
    dir: u16,
    from: u32,
    marks: &mut [bool],
) -> Option<(u32, Slot)>
    requires fits { Fits geometry.now image.now }
    requires directory { IsDirectory geometry.now image.now dir }
    requires marks { MarksEmpty geometry.now image.now marks.old }
    ensures next { GoesOn (entry_at geometry.now image.now dir) from (slot_count geometry.now image.now dir) result }
    ensures marks { MarksEmpty geometry.now image.now marks.new }
{
    next_unmarked(image, geometry, dir, from, from, marks)
}

/// Returns the first entry in logical block `b` of directory `dir`, from the directory's slot `from` on. If there is none, returns as the error the
/// logical block at which the search continues, skipping holes and the blocks below a marked block.
fn first_or_end(
    image: &Image,
    geometry: &Geometry,
    dir: u16,
    from: u32,
    b: u32,
    marks: &[bool],
) -> Result<(u32, Slot), u32>
    requires fits { Fits geometry.now image.now }
    requires first { 1 ≤ dir }
    requires last { dir ≤ geometry.now.last_inode }
    requires below { 32 * b < slot_count geometry.now image.now dir }
    ensures found { IfOk result (λ found. IsEntryFrom geometry.now image.now dir from found.0 found.1) }
    ensures before { IfOk result (λ found. (test : Option (List ℕ × ℕ) → Bool) → test None ≡ true
        → (t : ℕ) → from ≤ t → 32 * b ≤ t → t < found.0 → test (entry_at geometry.now image.now dir t) ≡ true) }
    ensures onward { IfErr result (λ end. b < end) }
    ensures within { IfErr result (λ end. 32 * end < slot_count geometry.now image.now dir + 32) }
    ensures passed { IfErr result (λ end. (test : Option (List ℕ × ℕ) → Bool) → test None ≡ true → MarksSlots test geometry.now image.now marks.now
        → (t : ℕ) → from ≤ t → 32 * b ≤ t → t < 32 * end → t < slot_count geometry.now image.now dir
        → test (entry_at geometry.now image.now dir t) ≡ true) }
{
    let count = slot_count(image, geometry, dir);
    let blocks = count.div_ceil(SLOTS);
    if from <= SLOTS * b {
        let past = passed_end(image, geometry, dir, b, marks).min(blocks);
        if b < past {
            return Err(past);
        }
    }
    let start = from.saturating_sub(SLOTS * b);
    let few = (count - SLOTS * b).min(SLOTS);
    match first_in_block(image, geometry, dir, b, start, few, Sought::Any) {
        Some((s, slot)) => Ok((SLOTS * b + s, slot)),
        None => Err(block_after(image, geometry, dir, b, blocks, Sought::Any)),
    }
}
