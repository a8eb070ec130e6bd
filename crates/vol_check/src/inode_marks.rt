//! The piece for an i-node: marks the blocks of its block map, and its kind.
ghost use Rattle.std.specs.Prelude.{◌≡◌, ◌+◌, ◌<◌, ◌≤◌, IfOk};
ghost use Rattle.vol_layout.specs.Geometry.{Fits};
ghost use Rattle.vol_file.specs.Changes.{blocks_of};
ghost use Rattle.vol_file.specs.Rules.{kind_at};
ghost use Rattle.count_table.specs.Sums.{total};
ghost use Rattle.count_table.specs.Tallies.{IsSeatAt, table_shape};
ghost use Rattle.vol_reports.specs.Words.{HasWords};
ghost use Rattle.vol_check.specs.Pieces.{Adds, place_weight, kind_weight, inode_weight};
ghost use Rattle.vol_check.specs.Levels.{KeepsDraws};

use crate::levels::mark_from;
use count_table::{Tally, TallySeat};
use pdp_words::Image;
use std::alloc::{AllocError, Global};
use vol_layout::i_list::{address, kind, mode};
use vol_layout::{BlockMap, Geometry, Kind};
use vol_reports::words::kind_word;

/// Marks the blocks in the block map of i-node `i`, and its kind.
///
/// Takes thirty-two bytes for each block-map position of the file that points to an indirect block.
pub(crate) fn mark_inode(
    alloc: Global,
    tally: &Tally,
    seat: &mut TallySeat,
    image: &Image,
    geometry: &Geometry,
    i: u16,
) -> Result<(), AllocError>
    requires fits { Fits geometry.now image.now }
    requires first { 1 ≤ i }
    requires last { i ≤ geometry.now.last_inode }
    requires words { HasWords geometry.now (table_shape tally.now) }
    requires own { IsSeatAt tally.now seat.old }
    requires parts { 1 ≤ seat.old.me.0.parts }
    ensures kept { KeepsDraws tally.now seat.old seat.new }
    ensures ok { IfOk result (λ _. Adds tally.now seat.old seat.new (λ weight. inode_weight geometry.now image.now weight i)) }
{
    mark_places(alloc, tally, seat, image, geometry, i)?;
    mark_kind(tally, seat, geometry, kind(image, geometry, i));
    Ok(())
}

/// Marks an i-node's kind, unless it is free.
fn mark_kind(tally: &Tally, seat: &mut TallySeat, geometry: &Geometry, kind: Kind)
    requires zone { geometry.now.zone_start < geometry.now.zone_end }
    requires words { HasWords geometry.now (table_shape tally.now) }
    requires own { IsSeatAt tally.now seat.old }
    requires parts { 1 ≤ seat.old.me.0.parts }
    ensures { Adds tally.now seat.old seat.new (λ weight. kind_weight geometry.now weight kind) }
{
    match kind {
        Kind::Free => {}
        Kind::Regular => tally.count(seat, kind_word(geometry, 0), 1),
        Kind::Directory => tally.count(seat, kind_word(geometry, 1), 1),
        Kind::Special => tally.count(seat, kind_word(geometry, 2), 1),
        Kind::Odd => tally.count(seat, kind_word(geometry, 3), 1),
    }
}

/// Marks the blocks that the block map of i-node `i` points to.
fn mark_places(
    alloc: Global,
    tally: &Tally,
    seat: &mut TallySeat,
    image: &Image,
    geometry: &Geometry,
    i: u16,
) -> Result<(), AllocError>
    requires fits { Fits geometry.now image.now }
    requires first { 1 ≤ i }
    requires last { i ≤ geometry.now.last_inode }
    requires words { HasWords geometry.now (table_shape tally.now) }
    requires own { IsSeatAt tally.now seat.old }
    requires parts { 1 ≤ seat.old.me.0.parts }
    ensures kept { KeepsDraws tally.now seat.old seat.new }
    ensures ok { IfOk result (λ _. Adds tally.now seat.old seat.new (λ weight. total (place_weight geometry.now weight i) (blocks_of geometry.now image.now i))) }
{
    let form = BlockMap::of(geometry.edition, mode(image, geometry, i));
    for k in 0..form.address_count() {
        let b = address(image, geometry, i, k);
        mark_from(alloc, tally, seat, image, geometry, i, b, form.levels(k))?;
    }
    Ok(())
}
