//! Marks the blocks below an i-node level by level, so that each indirect block is read once per level, however many block-map positions point to it.
ghost use Rattle.std.specs.Prelude.{◌≡◌, ℕ, ◌+◌, ◌*◌, ◌^◌, ◌<◌, ◌≤◌, All, IfOk, IfSome, IfNone};
ghost use Rattle.std.specs.List.{sum_by};
ghost use Rattle.vol_layout.specs.declared.geometry.Geometry.{Geometry};
ghost use Rattle.vol_layout.specs.Geometry.{Fits};
ghost use Rattle.vol_judge.specs.Marks.{blocks_from};
ghost use Rattle.count_table.specs.Sums.{total};
ghost use Rattle.count_table.specs.Tallies.{IsSeatAt, table_shape};
ghost use Rattle.vol_reports.specs.Words.{HasWords};
ghost use Rattle.vol_check.specs.Pieces.{Adds, place_weight};
ghost use Rattle.vol_check.specs.Levels.{IsNamed, by_times, below_named, below_all, KeepsDraws, AddsBut};

use count_table::{Tally, TallySeat};
use pdp_words::{BLOCK, Image};
use std::alloc::{AllocError, Global};
use vol_layout::{Geometry, number};
use vol_reports::words::{bad_word, least_word, place_word};

/// A data block, and the number of an i-node's block-map positions that point to it.
#[derive(Clone, Copy)]
pub(crate) struct NamedBlock {
    pub(crate) number: u32,
    pub(crate) times: u64,
}

impl NamedBlock {
    /// Returns both as one if they are the same block; returns `None` if they aren't, or if the sum doesn't fit a `u64`.
    fn with(self, other: NamedBlock) -> Option<NamedBlock>
        ensures some { IfSome result (λ both. (both.number ≡ self.number) × (both.number ≡ other.number) × (both.times ≡ self.times + other.times)) }
        ensures none { IfNone result (self.number ≡ other.number → 2 ^ 64 ≤ self.times + other.times) }
    {
        if self.number != other.number {
            return None;
        }
        let times = self.times.checked_add(other.times)?;
        Some(NamedBlock {
            number: self.number,
            times,
        })
    }
}

/// Returns the same blocks, each once with the sum of its positions; a block is in several entries only if its positions number 2^64 or more.
///
/// Costs as much as sorting them. Takes sixteen bytes for each.
pub(crate) fn each_once(
    alloc: Global,
    mut named: Vec<NamedBlock>,
) -> Result<Vec<NamedBlock>, AllocError>
    ensures named { IfOk result (λ once. (geometry : Geometry) → All (IsNamed geometry) named.items → All (IsNamed geometry) once.items) }
    ensures same { IfOk result (λ once. (f : ℕ → ℕ) → sum_by (by_times f) once.items ≡ sum_by (by_times f) named.items) }
{
    let mut once = Vec::new(alloc);
    named.sort_unstable_by_key(|n| n.number);
    while let Some(n) = named.pop() {
        push_once(&mut once, n)?;
    }
    Ok(once)
}

/// Adds a block, or adds its positions to the last block if that is the same block.
fn push_once(once: &mut Vec<NamedBlock>, n: NamedBlock) -> Result<(), AllocError>
    ensures named { IfOk result (λ _. (geometry : Geometry) → All (IsNamed geometry) once.old.items → IsNamed geometry n → All (IsNamed geometry) once.new.items) }
    ensures same { IfOk result (λ _. (f : ℕ → ℕ) → sum_by (by_times f) once.new.items ≡ sum_by (by_times f) once.old.items + by_times f n) }
{
    let Some(last) = once.pop() else {
        once.push(n)?;
        return Ok(());
    };
    if let Some(both) = last.with(n) {
        once.push(both)?;
        return Ok(());
    }
    once.push(last)?;
    once.push(n)?;
    Ok(())
}

/// Marks block number `b`, if it isn't 0, and the numbers in the `level` levels of indirect blocks below it, for i-node `i`.
///
/// Reads each entry of each indirect block below `b` once per level. Takes thirty-two bytes for each block-map position that points to an indirect
/// block.
pub(crate) fn mark_from(
    alloc: Global,
    tally: &Tally,
    seat: &mut TallySeat,
    image: &Image,
    geometry: &Geometry,
    i: u16,
    b: u32,
    level: u8,
) -> Result<(), AllocError>
    requires fits { Fits geometry.now image.now }
    requires first { 1 ≤ i }
    requires last { i ≤ geometry.now.last_inode }
    requires words { HasWords geometry.now (table_shape tally.now) }
    requires own { IsSeatAt tally.now seat.old }
    requires parts { 1 ≤ seat.old.me.0.parts }
    ensures kept { KeepsDraws tally.now seat.old seat.new }
    ensures ok { IfOk result (λ _. Adds tally.now seat.old seat.new (λ weight. total (place_weight geometry.now weight i) (blocks_from geometry.now image.now level b))) }
{
    let mut named = Vec::new(alloc);
    mark_found(tally, seat, image, geometry, i, &mut named, b, 1, level)?;
    let mut left = level;
    while left > 0 {
        left -= 1;
        named = mark_level(alloc, tally, seat, image, geometry, i, named, left)?;
    }
    Ok(())
}

/// Marks the numbers in these indirect blocks, which have `level` levels below them, for i-node `i`. Returns the indirect blocks among the marked
/// numbers.
fn mark_level(
    alloc: Global,
    tally: &Tally,
    seat: &mut TallySeat,
    image: &Image,
    geometry: &Geometry,
    i: u16,
    named: Vec<NamedBlock>,
    level: u8,
) -> Result<Vec<NamedBlock>, AllocError>
    requires fits { Fits geometry.now image.now }
    requires first { 1 ≤ i }
    requires last { i ≤ geometry.now.last_inode }
    requires words { HasWords geometry.now (table_shape tally.now) }
    requires own { IsSeatAt tally.now seat.old }
    requires parts { 1 ≤ seat.old.me.0.parts }
    requires named { All (IsNamed geometry.now) named.items }
    ensures kept { KeepsDraws tally.now seat.old seat.new }
    ensures named { IfOk result (λ next. All (IsNamed geometry.now) next.items) }
    ensures ok { IfOk result (λ next. AddsBut seat.old seat.new
        (λ weight. below_all geometry.now image.now i weight (level + 1) named.items)
        (λ weight. below_all geometry.now image.now i weight level next.items)) }
{
    let mut next = Vec::new(alloc);
    let mut once = each_once(alloc, named)?;
    while let Some(n) = once.pop() {
        mark_entries(tally, seat, image, geometry, i, &mut next, n, level)?;
    }
    Ok(next)
}

/// Marks the numbers in an indirect block, once for each position of the block, and adds the numbers of indirect blocks to `next`.
fn mark_entries(
    tally: &Tally,
    seat: &mut TallySeat,
    image: &Image,
    geometry: &Geometry,
    i: u16,
    next: &mut Vec<NamedBlock>,
    n: NamedBlock,
    level: u8,
) -> Result<(), AllocError>
    requires fits { Fits geometry.now image.now }
    requires first { 1 ≤ i }
    requires last { i ≤ geometry.now.last_inode }
    requires words { HasWords geometry.now (table_shape tally.now) }
    requires own { IsSeatAt tally.now seat.old }
    requires parts { 1 ≤ seat.old.me.0.parts }
    requires next { All (IsNamed geometry.now) next.old.items }
    requires n { IsNamed geometry.now n }
    ensures kept { KeepsDraws tally.now seat.old seat.new }
    ensures named { IfOk result (λ _. All (IsNamed geometry.now) next.new.items) }
    ensures ok { IfOk result (λ _. AddsBut seat.old seat.new
        (λ weight. below_all geometry.now image.now i weight level next.old.items + below_named geometry.now image.now i weight (level + 1) n)
        (λ weight. below_all geometry.now image.now i weight level next.new.items)) }
{
    for j in 0..geometry.edition.constants().pointers {
        let entry = number(
            image,
            geometry.edition,
            BLOCK * n.number as usize,
            j as usize,
        );
        mark_found(tally, seat, image, geometry, i, next, entry, n.times, level)?;
    }
    Ok(())
}

/// Marks number `b`, if it isn't 0, for `times` positions of i-node `i`, and adds it to `next` if it is the number of an indirect block with `level`
/// levels of entries.
fn mark_found(
    tally: &Tally,
    seat: &mut TallySeat,
    image: &Image,
    geometry: &Geometry,
    i: u16,
    next: &mut Vec<NamedBlock>,
    b: u32,
    times: u64,
    level: u8,
) -> Result<(), AllocError>
    requires fits { Fits geometry.now image.now }
    requires first { 1 ≤ i }
    requires last { i ≤ geometry.now.last_inode }
    requires words { HasWords geometry.now (table_shape tally.now) }
    requires own { IsSeatAt tally.now seat.old }
    requires parts { 1 ≤ seat.old.me.0.parts }
    requires next { All (IsNamed geometry.now) next.old.items }
    requires some { 1 ≤ times }
    ensures kept { KeepsDraws tally.now seat.old seat.new }
    ensures named { IfOk result (λ _. All (IsNamed geometry.now) next.new.items) }
    ensures ok { IfOk result (λ _. AddsBut seat.old seat.new
        (λ weight. below_all geometry.now image.now i weight level next.old.items
        + times * total (place_weight geometry.now weight i) (blocks_from geometry.now image.now level b))
        (λ weight. below_all geometry.now image.now i weight level next.new.items)) }
{
    if b == 0 {
        return Ok(());
    }
    mark_times(tally, seat, geometry, i, b, times);
    if level == 0 {
        return Ok(());
    }
    if !geometry.in_zone(b) {
        return Ok(());
    }
    next.push(NamedBlock { number: b, times })?;
    Ok(())
}

/// Marks number `b` for `times` block-map positions of i-node `i`, with one step for each word.
fn mark_times(tally: &Tally, seat: &mut TallySeat, geometry: &Geometry, i: u16, b: u32, times: u64)
    requires zone { geometry.now.zone_start < geometry.now.zone_end }
    requires first { 1 ≤ i }
    requires last { i ≤ geometry.now.last_inode }
    requires words { HasWords geometry.now (table_shape tally.now) }
    requires own { IsSeatAt tally.now seat.old }
    requires parts { 1 ≤ seat.old.me.0.parts }
    requires some { 1 ≤ times }
    ensures { Adds tally.now seat.old seat.new (λ weight. times * place_weight geometry.now weight i b) }
{
    if geometry.in_zone(b) {
        tally.count_times(seat, place_word(geometry, b), times);
    } else {
        tally.count_times(seat, bad_word(geometry, i), times);
        tally.lower_times(seat, least_word(geometry, i), u64::from(b));
    }
}
