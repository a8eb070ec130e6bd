//! The parts of a new sweep, and a seat for each of its threads.
ghost use Rattle.std.specs.Prelude.{◌≡◌, ◌≢◌, ◌+◌, ◌^◌, ◌≤◌, ◌<◌, [], All, Ok, Err, IfOk, length, slice_index, vec_len};
ghost use Rattle.count_table.specs.Tallies.{IsSeatAt};
ghost use Rattle.count_table.specs.Views.{view};
ghost use Rattle.vol_layout.specs.Geometry.{Fits};
ghost use Rattle.count_table.specs.declared.rule.TableShape.{TableShape};
ghost use Rattle.vol_layout.specs.declared.geometry.Geometry.{Geometry};
ghost use Rattle.vol_layout.specs.declared.geometry.GeometryFault.{GeometryFault};
ghost use Rattle.vol_reports.specs.Counted.{HasLinkCounts};
ghost use Rattle.vol_check.specs.declared.checker.Checker.TheVariants.{Blocks, Entries};
ghost use Rattle.vol_check.specs.Parts.{HasStarts};
ghost use Rattle.vol_check.specs.Shapes.{HasWordsOf, IsLaidOut};
ghost use Rattle.vol_check.specs.Seats.{IsFresh};

use crate::checker::Checker;
use crate::parts::part_starts;
use crate::seats::CheckSeat;
use count_table::{TableShape, Tally, TallySeat};
use pdp_words::Image;
use std::alloc::{AllocError, Global};
use vol_layout::{Geometry, GeometryFault};
use vol_reports::{LinkCount, link_counts};

/// Returns, for each i-number, the number of pieces before its first one, then the total; returns an empty list if the pieces are not parts of
/// directories.
pub(crate) fn starts_for(
    alloc: Global,
    checker: Checker,
    image: &Image,
    layout: &Result<Geometry, GeometryFault>,
) -> Result<Vec<u32>, AllocError>
    requires fits { IfOk layout.now (λ geometry. Fits geometry image.now) }
    ensures { IfOk result (λ starts. (geometry : Geometry) → layout.now ≡ Ok geometry → checker ≢ Blocks → HasStarts geometry image.now starts.items) }
{
    match layout {
        Ok(geometry) if checker != Checker::Blocks => part_starts(alloc, image, geometry),
        _ => Ok(Vec::new(alloc)),
    }
}

/// Returns the link counts if the report is on entries, else an empty list.
pub(crate) fn links_for(
    alloc: Global,
    checker: Checker,
    image: &Image,
    layout: &Result<Geometry, GeometryFault>,
) -> Result<Vec<LinkCount>, AllocError>
    requires fits { IfOk layout.now (λ geometry. Fits geometry image.now) }
    ensures { IfOk result (λ links. (geometry : Geometry) → layout.now ≡ Ok geometry → checker ≡ Entries → HasLinkCounts geometry image.now links.items) }
{
    match layout {
        Ok(geometry) if checker == Checker::Entries => link_counts(alloc, image, geometry),
        _ => Ok(Vec::new(alloc)),
    }
}

/// Returns the number of pieces. A sweep over blocks has one for the free list and one for each i-number; any other has one for each part of each
/// i-number.
pub(crate) fn piece_count(
    checker: Checker,
    layout: &Result<Geometry, GeometryFault>,
    starts: &[u32],
) -> u64
    requires starts { (geometry : Geometry) → layout.now ≡ Ok geometry → checker ≢ Blocks → length starts.now ≡ geometry.last_inode + 1 }
    ensures blocks { (geometry : Geometry) → layout.now ≡ Ok geometry → checker ≡ Blocks → result ≡ geometry.last_inode + 1 }
    ensures parts { (geometry : Geometry) → layout.now ≡ Ok geometry → checker ≢ Blocks → result ≡ slice_index starts.now geometry.last_inode }
    ensures none { (fault : GeometryFault) → layout.now ≡ Err fault → result ≡ 0 }
    ensures few { result < 2 ^ 32 }
{
    match layout {
        Ok(geometry) if checker == Checker::Blocks => u64::from(geometry.last_inode) + 1,
        Ok(geometry) => u64::from(starts[geometry.last_inode as usize]),
        Err(_) => 0,
    }
}

/// Returns the words that a sweep needs for images with this layout, or no words if they have no geometry.
pub(crate) fn shape_for(
    checker: Checker,
    layout: &Result<Geometry, GeometryFault>,
    pieces: u64,
    seats: u64,
) -> TableShape
    requires bounds { IfOk layout.now IsLaidOut }
    requires blocks { (geometry : Geometry) → layout.now ≡ Ok geometry → checker ≡ Blocks → pieces ≡ geometry.last_inode + 1 }
    ensures words { (geometry : Geometry) → layout.now ≡ Ok geometry → HasWordsOf checker geometry result }
    ensures pieces { result.pieces ≡ pieces }
    ensures seats { result.seats ≡ seats }
    ensures few { result.counts + result.leasts < 2 ^ 48 }
{
    let (counts, leasts) = match layout {
        Ok(geometry) => words_for(checker, geometry),
        Err(_) => (0, 0),
    };
    TableShape {
        pieces,
        counts,
        leasts,
        seats,
    }
}

/// Returns the numbers of count words and of minimum words that a sweep needs.
fn words_for(checker: Checker, geometry: &Geometry) -> (u64, u64)
    requires zone { geometry.now.zone_start < geometry.now.zone_end }
    ensures words { (shape : TableShape) → (checker ≡ Blocks → shape.pieces ≡ geometry.now.last_inode + 1) → shape.counts ≡ result.0 → shape.leasts ≡ result.1
        → HasWordsOf checker geometry.now shape }
    ensures few { result.0 + result.1 < 2 ^ 48 }
{
    let last = u64::from(geometry.last_inode);
    let zone = u64::from(geometry.zone_end - geometry.zone_start);
    match checker {
        Checker::Blocks => (2 * zone + (last + 4), last),
        Checker::Entries => (last, 0),
        Checker::Names => (0, last),
    }
}

/// Splits `count` seats off the first seat, which holds all parts.
pub(crate) fn deal(
    alloc: Global,
    tally: &Tally,
    mut first: TallySeat,
    count: usize,
) -> Result<Vec<CheckSeat>, AllocError>
    requires own { IsSeatAt tally.now first }
    requires all { first.me.0 ≡ view count [] [] }
    requires some { 1 ≤ count }
    ensures count { IfOk result (λ seats. vec_len seats ≡ count) }
    ensures fresh { IfOk result (λ seats. All (IsFresh tally.now) seats.items) }
{
    let mut seats = Vec::new(alloc);
    for _k in 1..count {
        let seat = tally.split(&mut first);
        push_seat(alloc, tally, &mut seats, seat)?;
    }
    push_seat(alloc, tally, &mut seats, first)?;
    Ok(seats)
}

/// Adds one more seat.
fn push_seat(
    alloc: Global,
    tally: &Tally,
    seats: &mut Vec<CheckSeat>,
    seat: TallySeat,
) -> Result<(), AllocError>
    requires own { IsSeatAt tally.now seat }
    requires one { seat.me.0 ≡ view 1 [] [] }
    requires fresh { All (IsFresh tally.now) seats.old.items }
    ensures len { IfOk result (λ _. vec_len seats.new ≡ vec_len seats.old + 1) }
    ensures fresh { IfOk result (λ _. All (IsFresh tally.now) seats.new.items) }
{
    let fresh = CheckSeat {
        seat,
        fault: None,
        entries: Vec::new(alloc),
        ended: false,
        spoiled: false,
    };
    seats.push(fresh)?;
    Ok(())
}
