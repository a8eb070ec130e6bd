//! The number of blocks that the files of a sixth edition volume need in the seventh.
ghost use Rattle.std.specs.Prelude.{◌≡◌, ◌<◌, ◌≤◌, [], ◌∷◌};
ghost use Rattle.vol_layout.specs.Geometry.{Fits};
ghost use Rattle.vol_layout.specs.BlockPointers.{IsFile};
ghost use Rattle.vol_file.specs.Changes.{whole_blocks};
ghost use Rattle.vol_file.specs.Need.{need_of};
ghost use Rattle.vol_layout.specs.BlockMaps.{has_places};
ghost use Rattle.vol_file.specs.Rules.{HasSizes, kind_at};
ghost use Rattle.vol_file.specs.Shape.{is_on_ways};
ghost use Rattle.vol_dir.specs.Tree.{Shape, state};
ghost use Rattle.vol_migrate.specs.Raised.{stored_blocks};
ghost use Rattle.vol_migrate.specs.Refuse.{places_needed};
ghost use Rattle.vol_migrate.specs.Stages.{ComesAfter, file_need, is_new};

use pdp_words::{BLOCK, Image};
use vol_file::BlockNumbers;
use vol_layout::i_list::{kind, size};
use vol_layout::{BlockMap, Edition, Geometry, Kind};

/// Returns the number of logical blocks of a file of this size.
pub(crate) fn whole_blocks(size: u32) -> u32
    ensures { result ≡ whole_blocks size }
{
    size / BLOCK as u32 + u32::from(size % BLOCK as u32 != 0)
}

/// Returns the number of blocks that all files need.
pub(crate) fn places_needed(old: &Image, from: &Geometry) -> u64
    requires fits { Fits from.now old.now }
    requires sixth { from.now.edition ≡ Edition.V6 }
    requires sizes { HasSizes from.now old.now }
    ensures { result ≡ places_needed (state from.now old.now) }
{
    let mut needed = 0;
    for i in 1..=from.last_inode {
        needed += u64::from(places_of(old, from, i));
    }
    needed
}

/// Returns the number of blocks that i-node `i` needs: 0 if it isn't a file.
fn places_of(old: &Image, from: &Geometry, i: u16) -> u32
    requires fits { Fits from.now old.now }
    requires sixth { from.now.edition ≡ Edition.V6 }
    requires sizes { HasSizes from.now old.now }
    requires first { 1 ≤ i }
    requires last { i ≤ from.now.last_inode }
    ensures need { result ≡ file_need from.now old.now i }
    ensures bound { result ≤ 131072 }
{
    if is_file(old, from, i) {
        places_of_file(old, from, i)
    } else {
        0
    }
}

/// True if i-node `i` is a regular file or a directory.
pub(crate) fn is_file(image: &Image, geometry: &Geometry, i: u16) -> bool
    requires fits { Fits geometry.now image.now }
    requires first { 1 ≤ i }
    requires last { i ≤ geometry.now.last_inode }
    ensures { result ≡ has_places (kind_at geometry.now image.now i) }
{
    matches!(kind(image, geometry, i), Kind::Regular | Kind::Directory)
}

/// Returns the number of blocks that file `i` needs: its stored logical blocks within the size, and the indirect blocks on
/// their paths.
fn places_of_file(old: &Image, from: &Geometry, i: u16) -> u32
    requires fits { Fits from.now old.now }
    requires sixth { from.now.edition ≡ Edition.V6 }
    requires sizes { HasSizes from.now old.now }
    requires file { IsFile from.now old.now i }
    ensures need { result ≡ file_need from.now old.now i }
    ensures bound { result ≤ 131072 }
{
    let end = whole_blocks(size(old, from, i));
    let mut places = 0;
    let mut passed = 0;
    let mut numbers = BlockNumbers::of(old, from, i);
    let mut b = numbers.next_block(old, from, 0, end);
    while b < end {
        places += new_places(b, passed);
        passed = b + 1;
        b = numbers.next_block(old, from, passed, end);
    }
    places
}

/// Returns the number of block-map positions on the path of logical block `b` in the seventh edition that are on the path of no earlier stored
/// logical block. The last earlier stored one is block `passed` - 1; if `passed` is 0, there is none.
fn new_places(b: u32, passed: u32) -> u32
    requires { b < 2113674 }
    ensures exact { (shape : Shape) → ComesAfter shape b passed
        → result ≡ need_of BlockMap.Deep (is_on_ways BlockMap.Deep (stored_blocks shape b)) (b ∷ []) }
    ensures bound { result ≤ 4 }
{
    match b {
        0..10 => 1,
        10..138 => 1 + is_new(passed, 10),
        138..16_522 => 1 + is_new(passed, 138) + is_new(passed, 138 + (b - 138) / 128 * 128),
        _ => {
            1 + is_new(passed, 16_522)
                + is_new(passed, 16_522 + (b - 16_522) / 16_384 * 16_384)
                + is_new(passed, 16_522 + (b - 16_522) / 128 * 128)
        }
    }
}

/// Returns 1 if `start`, the first logical block below a block-map position, is not before `passed`, else 0.
fn is_new(passed: u32, start: u32) -> u32
    ensures exact { result ≡ is_new passed start }
    ensures bound { result ≤ 1 }
{
    u32::from(passed <= start)
}
