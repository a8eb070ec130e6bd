//! Counts the entries of a directory block by block. Each block of a piece is read once, however often the directory has it.
ghost use Rattle.std.specs.Prelude.{◌≡◌, ℕ, ◌+◌, ◌-◌, ◌*◌, ◌<◌, ◌≤◌, nat_le, if◌then◌else◌, None, All, IfOk};
ghost use Rattle.std.specs.List.{sum_by};
ghost use Rattle.vol_layout.specs.Geometry.{Fits};
ghost use Rattle.vol_dir.specs.Entries.{entry_in, entry_at, slot_count};
ghost use Rattle.count_table.specs.Sums.{below};
ghost use Rattle.count_table.specs.Tallies.{IsSeatAt, table_shape};
ghost use Rattle.count_table.specs.Views.{mark};
ghost use Rattle.vol_file.specs.Runs.{LooksUp};
ghost use Rattle.vol_reports.specs.Words.{HasEntryWords, entry_word};
ghost use Rattle.vol_check.specs.Pieces.{Adds};
ghost use Rattle.vol_check.specs.Slots.{EntryWeight, entry_weight, block_sum};
ghost use Rattle.vol_check.specs.Levels.{IsNamed, KeepsDraws, by_times};

use crate::levels::{NamedBlock, each_once};
use count_table::{Tally, TallySeat};
use pdp_words::{BLOCK, Image};
use std::alloc::{AllocError, Global};
use vol_dir::entries::SLOTS;
use vol_file::{BlockNumbers, next_block};
use vol_layout::slot::SLOT;
use vol_layout::{Geometry, Slot};
use vol_reports::words::entry_word;

/// Counts the entries in the logical blocks `from..end` of directory `d`. The directory's size covers these blocks completely.
///
/// Costs one number for each of these blocks, a block-map lookup for each indirect block, and a read of each slot of the data blocks. Takes sixteen
/// bytes for each.
pub(crate) fn count_blocks(
    alloc: Global,
    tally: &Tally,
    seat: &mut TallySeat,
    image: &Image,
    geometry: &Geometry,
    d: u16,
    from: u32,
    end: u32,
) -> Result<(), AllocError>
    requires fits { Fits geometry.now image.now }
    requires words { HasEntryWords geometry.now (table_shape tally.now) }
    requires own { IsSeatAt tally.now seat.old }
    requires parts { 1 ≤ seat.old.me.0.parts }
    requires first { 1 ≤ d }
    requires last { d ≤ geometry.now.last_inode }
    requires order { from ≤ end }
    requires whole { 32 * end ≤ slot_count geometry.now image.now d }
    ensures kept { KeepsDraws tally.now seat.old seat.new }
    ensures ok { IfOk result (λ _. Adds tally.now seat.old seat.new
        (λ weight. below (λ t. entry_weight geometry.now weight (entry_at geometry.now image.now d (32 * from + t))) (32 * (end - from)))) }
{
    let named = stored_blocks(alloc, image, geometry, d, from, end)?;
    let mut once = each_once(alloc, named)?;
    while let Some(n) = once.pop() {
        count_block(tally, seat, image, geometry, n);
    }
    Ok(())
}

/// Returns the data blocks that hold these logical blocks; a data block that holds several of them occurs once for each.
pub(crate) fn stored_blocks(
    alloc: Global,
    image: &Image,
    geometry: &Geometry,
    d: u16,
    from: u32,
    end: u32,
) -> Result<Vec<NamedBlock>, AllocError>
    requires fits { Fits geometry.now image.now }
    requires first { 1 ≤ d }
    requires last { d ≤ geometry.now.last_inode }
    requires order { from ≤ end }
    requires whole { 32 * end ≤ slot_count geometry.now image.now d }
    ensures named { IfOk result (λ named. All (IsNamed geometry.now) named.items) }
    ensures same { IfOk result (λ named. (weight : EntryWeight) → weight None ≡ 0 → sum_by (by_times (block_sum image.now weight)) named.items
        ≡ below (λ t. weight (entry_at geometry.now image.now d (32 * from + t))) (32 * (end - from))) }
{
    let mut numbers = BlockNumbers::of(image, geometry, d);
    let mut b = next_block(image, geometry, d, from, end);
    let mut named = Vec::with_capacity(alloc, (end - b) as usize)?;
    while b < end {
        b = push_next(image, geometry, &mut numbers, &mut named, d, b, end)?;
    }
    Ok(named)
}

/// Adds the data block that holds logical block `b` of directory `d`, if there is one. Returns the next logical block to check; if `b` is in a hole,
/// the blocks from `b` up to the returned one are all in it.
fn push_next(
    image: &Image,
    geometry: &Geometry,
    numbers: &mut BlockNumbers,
    named: &mut Vec<NamedBlock>,
    d: u16,
    b: u32,
    end: u32,
) -> Result<u32, AllocError>
    requires fits { Fits geometry.now image.now }
    requires first { 1 ≤ d }
    requires last { d ≤ geometry.now.last_inode }
    requires order { b < end }
    requires whole { 32 * end ≤ slot_count geometry.now image.now d }
    requires numbers { LooksUp geometry.now image.now d numbers.old }
    requires named { All (IsNamed geometry.now) named.old.items }
    ensures order { IfOk result (λ next. (b < next) × (next ≤ end)) }
    ensures numbers { IfOk result (λ _. LooksUp geometry.now image.now d numbers.new) }
    ensures named { IfOk result (λ _. All (IsNamed geometry.now) named.new.items) }
    ensures same { IfOk result (λ next. (weight : EntryWeight) → weight None ≡ 0 → sum_by (by_times (block_sum image.now weight)) named.new.items
        ≡ sum_by (by_times (block_sum image.now weight)) named.old.items
        + below (λ t. weight (entry_at geometry.now image.now d (32 * b + t))) (32 * (next - b))) }
{
    let Some(number) = numbers.block_at(image, geometry, b) else {
        return Ok(next_block(image, geometry, d, b, end));
    };
    if !geometry.in_zone(number) {
        return Ok(b + 1);
    }
    named.push(NamedBlock { number, times: 1 })?;
    Ok(b + 1)
}

/// Counts the entries of a data block, once for each logical block that it holds.
fn count_block(
    tally: &Tally,
    seat: &mut TallySeat,
    image: &Image,
    geometry: &Geometry,
    n: NamedBlock,
)
    requires fits { Fits geometry.now image.now }
    requires words { HasEntryWords geometry.now (table_shape tally.now) }
    requires own { IsSeatAt tally.now seat.old }
    requires parts { 1 ≤ seat.old.me.0.parts }
    requires n { IsNamed geometry.now n }
    ensures { Adds tally.now seat.old seat.new (λ weight. by_times (block_sum image.now (entry_weight geometry.now weight)) n) }
{
    for s in 0..SLOTS {
        let at = BLOCK * n.number as usize + SLOT * s as usize;
        let slot = Slot::read(image.as_bytes(), at);
        count_slot(tally, seat, geometry, slot, n.times);
    }
}

/// Counts the entry in a slot, if it has one, `times` times.
fn count_slot(tally: &Tally, seat: &mut TallySeat, geometry: &Geometry, slot: Slot, times: u64)
    requires words { HasEntryWords geometry.now (table_shape tally.now) }
    requires own { IsSeatAt tally.now seat.old }
    requires parts { 1 ≤ seat.old.me.0.parts }
    ensures { Adds tally.now seat.old seat.new (λ weight. times * entry_weight geometry.now weight (entry_in slot)) }
{
    if slot.inode != 0 {
        count_entry(tally, seat, geometry, slot.inode, times);
    }
}

/// Counts `times` entries for i-number `i`, unless `i` is past the last.
pub(crate) fn count_entry(
    tally: &Tally,
    seat: &mut TallySeat,
    geometry: &Geometry,
    i: u16,
    times: u64,
)
    requires words { HasEntryWords geometry.now (table_shape tally.now) }
    requires own { IsSeatAt tally.now seat.old }
    requires parts { 1 ≤ seat.old.me.0.parts }
    requires first { 1 ≤ i }
    ensures { Adds tally.now seat.old seat.new (λ weight. times * (if nat_le i geometry.now.last_inode then weight (mark (entry_word i) 1) else 0)) }
{
    if i <= geometry.last_inode {
        tally.count_times(seat, entry_word(i), times);
    }
}
