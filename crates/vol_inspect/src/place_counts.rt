//! The number of block-map positions that point to each block, counted up to two.
ghost use Rattle.std.specs.Prelude.{◌≡◌, ◌*◌, ◌≤◌, length};
ghost use Rattle.vol_layout.specs.Geometry.{Fits};
ghost use Rattle.vol_inspect.specs.PlaceCounts.{CountsFrom, CountsNode, CountsWanted, CountsKind, IsTally, IsClear};
ghost use Rattle.vol_reports.specs.Icheck.{is_kind};

use pdp_words::{BLOCK, Image};
use vol_layout::i_list::{address, kind, mode};
use vol_layout::{BlockMap, Geometry, Kind, number};

/// Counts the position with number `b`, which has `level` levels of blocks below it, and the positions below. A block counted twice isn't followed
/// again: the positions below it were counted twice too.
fn count_from(counts: &mut [u8], image: &Image, geometry: &Geometry, level: u8, b: u32)
    requires fits { Fits geometry.now image.now }
    requires level { level ≤ 3 }
    requires tally { IsTally geometry.now image.now level counts.old }
    ensures { CountsFrom geometry.now image.now level b counts.old counts.new }
{
    if !geometry.in_zone(b) {
        return;
    }
    let at = 4 * b as usize + level as usize;
    let count = counts[at];
    if count >= 2 {
        return;
    }
    counts[at] = count + 1;
    if level == 0 {
        return;
    }
    for j in 0..geometry.edition.constants().pointers {
        let entry = number(image, geometry.edition, BLOCK * b as usize, j as usize);
        count_from(counts, image, geometry, level - 1, entry);
    }
}

/// Counts the positions in the block map of i-node `i`.
pub(crate) fn count_node(counts: &mut [u8], image: &Image, geometry: &Geometry, i: u16)
    requires fits { Fits geometry.now image.now }
    requires first { 1 ≤ i }
    requires last { i ≤ geometry.now.last_inode }
    requires tally { IsTally geometry.now image.now 3 counts.old }
    ensures counted { CountsNode geometry.now image.now i counts.old counts.new }
    ensures tally { IsTally geometry.now image.now 3 counts.new }
{
    let form = BlockMap::of(geometry.edition, mode(image, geometry, i));
    for k in 0..form.address_count() {
        let b = address(image, geometry, i, k);
        count_from(counts, image, geometry, form.levels(k), b);
    }
}

/// Counts the block-map positions of all i-nodes of a kind. All counts are 0 at the start.
pub(crate) fn count_kind(counts: &mut [u8], image: &Image, geometry: &Geometry, wanted: Kind)
    requires fits { Fits geometry.now image.now }
    requires len { length counts.old ≡ 4 * geometry.now.zone_end }
    requires clear { IsClear counts.old }
    ensures { CountsKind geometry.now image.now wanted counts.new }
{
    for before in 0..geometry.last_inode {
        count_wanted(counts, image, geometry, before + 1, wanted);
    }
}

/// Counts the block-map positions of i-node `i`, if it is of this kind.
fn count_wanted(counts: &mut [u8], image: &Image, geometry: &Geometry, i: u16, wanted: Kind)
    requires fits { Fits geometry.now image.now }
    requires first { 1 ≤ i }
    requires last { i ≤ geometry.now.last_inode }
    requires tally { IsTally geometry.now image.now 3 counts.old }
    ensures counted { CountsWanted geometry.now image.now wanted i counts.old counts.new }
    ensures tally { IsTally geometry.now image.now 3 counts.new }
{
    if is_kind(wanted, kind(image, geometry, i)) {
        count_node(counts, image, geometry, i);
    }
}

/// True if two kinds are the same.
fn is_kind(wanted: Kind, kind: Kind) -> bool
    ensures { result ≡ is_kind wanted kind }
{
    match wanted {
        Kind::Free => matches!(kind, Kind::Free),
        Kind::Regular => matches!(kind, Kind::Regular),
        Kind::Directory => matches!(kind, Kind::Directory),
        Kind::Special => matches!(kind, Kind::Special),
        Kind::Odd => matches!(kind, Kind::Odd),
    }
}
