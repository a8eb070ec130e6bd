//! Copies the blocks of files from a volume of the sixth edition to one of the seventh.
ghost use Rattle.std.specs.Prelude.{◌≡◌, ◌≢◌, ℕ, ◌+◌, ◌*◌, ◌^◌, ◌<◌, ◌≤◌, true};
ghost use Rattle.vol_layout.specs.BlockPointers.{IsFile, form_at, stored};
ghost use Rattle.vol_layout.specs.Geometry.{Fits};
ghost use Rattle.vol_file.specs.Rules.{kind_at, size_of};
ghost use Rattle.vol_file.specs.Runs.{LooksUp};
ghost use Rattle.vol_migrate.specs.Stages.{MayMigrate, HasStage, CarriesTo};

use crate::count::{is_file, whole_blocks};
use crate::slots::raised_slots;
use pdp_words::{BLOCK, Image};
use vol_file::{BlockNumbers, write};
use vol_layout::i_list::{kind, size};
use vol_layout::{Geometry, Kind};

/// Copies the blocks of all files.
pub(crate) fn copy_files(image: &mut Image, to: &Geometry, old: &Image, from: &Geometry)
    requires may { MayMigrate old.now from.now to.now }
    requires stage { HasStage from.now to.now old.now image.old 1 0 }
    ensures { CarriesTo from.now to.now old.now image.old 1 0 image.new (from.now.last_inode + 1) 0 }
{
    for i in 1..=from.last_inode {
        if is_file(old, from, i) {
            copy_file(image, to, old, from, i);
        }
    }
}

/// Copies the blocks of file `i` that hold its logical blocks within the size. Blocks that follow one another in the old volume too are copied at once, but
/// those of a directory.
fn copy_file(image: &mut Image, to: &Geometry, old: &Image, from: &Geometry, i: u16)
    requires may { MayMigrate old.now from.now to.now }
    requires stage { HasStage from.now to.now old.now image.old i 0 }
    requires file { IsFile from.now old.now i }
    ensures { CarriesTo from.now to.now old.now image.old i 0 image.new (i + 1) 0 }
{
    let end = whole_blocks(size(old, from, i));
    let most = run_limit(old, from, i);
    let mut numbers = BlockNumbers::of(old, from, i);
    let mut b = numbers.next_block(old, from, 0, end);
    while b < end {
        let Some(m) = numbers.block_at(old, from, b) else {
            unreachable!()
        };
        let count = run_len(&mut numbers, old, from, b, m, most.min(end - b));
        copy_run(image, to, old, from, i, b, m, count);
        b = numbers.next_block(old, from, b + count, end);
    }
}

/// Returns the greatest number of blocks of i-node `i` that are copied at once: one of a directory.
fn run_limit(old: &Image, from: &Geometry, i: u16) -> u32
    requires fits { Fits from.now old.now }
    requires first { 1 ≤ i }
    requires last { i ≤ from.now.last_inode }
    ensures some { 1 ≤ result }
    ensures one { kind_at from.now old.now i ≡ Kind.Directory → result ≡ 1 }
{
    match kind(old, from, i) {
        Kind::Directory => 1,
        _ => u32::MAX,
    }
}

/// Returns how many logical blocks from `b` on, at most `most`, the blocks from `m` on hold. Block `m` holds logical block `b`.
fn run_len(
    numbers: &mut BlockNumbers,
    old: &Image,
    from: &Geometry,
    b: u32,
    m: u32,
    most: u32,
) -> u32
    requires fits { Fits from.now old.now }
    requires own { LooksUp from.now old.now numbers.old.inode numbers.old }
    requires some { 1 ≤ most }
    requires near { b + most < 2 ^ 32 }
    requires holds { stored from.now old.now numbers.old.inode (form_at from.now old.now numbers.old.inode) b ≡ m }
    ensures own { LooksUp from.now old.now numbers.old.inode numbers.new }
    ensures some { 1 ≤ result }
    ensures within { result ≤ most }
    ensures run { (c : ℕ) → c < result
        → stored from.now old.now numbers.old.inode (form_at from.now old.now numbers.old.inode) (b + c) ≡ m + c }
{
    for count in 1..most {
        if !is_next(numbers, old, from, b + count, m, count) {
            return count;
        }
    }
    most
}

/// True if logical block `b` is in the block `count` blocks after `m`.
fn is_next(
    numbers: &mut BlockNumbers,
    old: &Image,
    from: &Geometry,
    b: u32,
    m: u32,
    count: u32,
) -> bool
    requires fits { Fits from.now old.now }
    requires own { LooksUp from.now old.now numbers.old.inode numbers.old }
    ensures own { LooksUp from.now old.now numbers.old.inode numbers.new }
    ensures next { result ≡ true → stored from.now old.now numbers.old.inode (form_at from.now old.now numbers.old.inode) b ≡ m + count }
{
    match numbers.block_at(old, from, b) {
        Some(k) => k >= count && k - count == m,
        None => false,
    }
}

/// Copies the `count` blocks from `m` on, which hold the logical blocks from `b` on of file `i`, up to the file's size. In a directory, of which one block
/// is copied, the i-numbers are raised by one.
fn copy_run(
    image: &mut Image,
    to: &Geometry,
    old: &Image,
    from: &Geometry,
    i: u16,
    b: u32,
    m: u32,
    count: u32,
)
    requires may { MayMigrate old.now from.now to.now }
    requires stage { HasStage from.now to.now old.now image.old i b }
    requires file { IsFile from.now old.now i }
    requires block { m ≢ 0 }
    requires some { 1 ≤ count }
    requires one { kind_at from.now old.now i ≡ Kind.Directory → count ≡ 1 }
    requires holds { (c : ℕ) → c < count → stored from.now old.now i (form_at from.now old.now i) (b + c) ≡ m + c }
    requires within { 512 * (b + count) < size_of from.now old.now i + 512 }
    ensures { CarriesTo from.now to.now old.now image.old i b image.new i (b + count) }
{
    let offset = BLOCK as u32 * b;
    let len = (size(old, from, i) - offset).min(BLOCK as u32 * count) as usize;
    let start = BLOCK * m as usize;
    let text = &old.as_bytes()[start..start + len];
    match kind(old, from, i) {
        Kind::Directory => write(image, to, i + 1, offset, &raised_slots(text)[..len]),
        _ => write(image, to, i + 1, offset, text),
    }
}
