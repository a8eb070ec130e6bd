//! Truncating a file: the blocks past its new size are returned to the free list.
ghost use Rattle.std.specs.Prelude.{◌≡◌, ℕ, ◌*◌, ◌≤◌, List, [], ◌∷◌, length};
ghost use Rattle.vol_layout.specs.Geometry.{Fits};
ghost use Rattle.vol_layout.specs.BlockPointers.{form_at, IsFile, named};
ghost use Rattle.vol_file.specs.Rules.{size_of, Rules3To7With, Rules3To7};
ghost use Rattle.vol_file.specs.Changes.{blocks_past, Truncates};
ghost use Rattle.vol_file.specs.Clears.{first_at, ClearsPast, Gains, Drops, HasPointer, HasAddress, IsNamedAtLevel, ClearsBelow};

use crate::holes::blocks_below;
use pdp_words::{BLOCK, Image};
use vol_free::give;
use vol_layout::i_list::{address, mode};
use vol_layout::{
    BlockMap, Edition, Geometry, number, put_address, put_mode, put_number, put_size,
};

/// Truncates file `i` to its first `size` bytes, at most its current size, and returns the number of blocks freed. Keeps the blocks on the paths of
/// the logical blocks that hold these bytes. All others are freed from the last position in the block map to the first, so the next block to be taken
/// is the freed block whose position comes first. In the sixth edition the large flag is cleared if `size` is 0; the rest of the mode stays.
/// Takes no memory.
///
/// Costs one read for each entry of the file's indirect blocks after the kept ones, including those on the path of the last kept block, and two
/// writes for each block freed.
pub fn truncate(image: &mut Image, geometry: &Geometry, i: u16, size: u32) -> u32
    requires file { IsFile geometry.now image.old i }
    requires within { size ≤ size_of geometry.now image.old i }
    requires sound { Rules3To7 geometry.now image.old }
    ensures truncated { (blocks : List ℕ) → Rules3To7With geometry.now image.old blocks
        → Truncates geometry.now image.old image.new i size blocks }
    ensures count { result ≡ length (blocks_past geometry.now image.old i size) }
    ensures sound { Rules3To7 geometry.now image.new }
    ensures fits { Fits geometry.now image.new }
{
    let mode = mode(image, geometry, i);
    let form = BlockMap::of(geometry.edition, mode);
    let kept = (size + (BLOCK as u32 - 1)) / BLOCK as u32;
    let given = clear_addresses(image, geometry, i, form, kept);
    put_size(image, geometry, i, size);
    if size == 0 {
        match geometry.edition {
            Edition::V6 => put_mode(image, geometry, i, mode.with_large(false)),
            Edition::V7 => {}
        }
    }
    given
}

/// Frees the blocks below the addresses of file `i` past its first `kept` logical blocks, the last address first. Clears the addresses with no kept
/// block below them, and returns the number of blocks freed.
fn clear_addresses(image: &mut Image, geometry: &Geometry, i: u16, form: BlockMap, kept: u32) -> u32
    requires file { IsFile geometry.now image.old i }
    requires sound { Rules3To7 geometry.now image.old }
    requires form { form ≡ form_at geometry.now image.old i }
    ensures cleared { (blocks : List ℕ) → Rules3To7With geometry.now image.old blocks
        → ClearsPast geometry.now image.old image.new i kept blocks }
    ensures counted { Gains geometry.now image.old image.new result }
{
    let mut given = 0;
    let mut k = form.address_count();
    while k > 0 {
        k -= 1;
        let b = address(image, geometry, i, k);
        if b != 0 {
            let rest = kept.saturating_sub(first_at(form, k));
            given += clear_below(image, geometry, b, form.levels(k), rest);
            if rest == 0 {
                drop_address(image, geometry, i, k, b);
                given += 1;
            }
        }
    }
    given
}

/// Returns the first logical block below address `k` of a file.
fn first_at(form: BlockMap, k: usize) -> u32
    requires { k ≤ 12 }
    ensures { result ≡ first_at form k }
{
    match form {
        BlockMap::Large => 256 * k as u32,
        BlockMap::Deep if k == 11 => 138,
        BlockMap::Deep if k == 12 => 16_522,
        _ => k as u32,
    }
}

/// Frees the blocks below the entries of block `m` past the first `kept` logical blocks below `m`, the last entry first. Clears the entries with no
/// kept block below them, and returns the number of blocks freed. Block `m` has `level` levels below it; if `level` is 0, does nothing.
fn clear_below(image: &mut Image, geometry: &Geometry, m: u32, level: u8, kept: u32) -> u32
    requires { IsNamedAtLevel geometry.now image.old m level }
    ensures cleared { ClearsBelow geometry.now image.old image.new m level kept }
    ensures counted { Gains geometry.now image.old image.new result }
{
    if level == 0 {
        return 0;
    }
    let below = blocks_below(geometry, level as usize - 1);
    let first = kept / below;
    let mut given = 0;
    let mut j = geometry.edition.constants().pointers;
    while j > first {
        j -= 1;
        let b = number(image, geometry.edition, BLOCK * m as usize, j as usize);
        if b != 0 {
            let rest = kept.saturating_sub(j * below);
            given += clear_below(image, geometry, b, level - 1, rest);
            if rest == 0 {
                drop_entry(image, geometry, m, j, b);
                given += 1;
            }
        }
    }
    given
}

/// Clears entry `j` of block `m`, and frees block `b`, to which the entry pointed.
fn drop_entry(image: &mut Image, geometry: &Geometry, m: u32, j: u32, b: u32)
    requires { HasPointer geometry.now image.old m j b }
    ensures dropped { (i a : ℕ) (p blocks : List ℕ) → named geometry.now image.old i (a ∷ p) ≡ m
        → Drops geometry.now image.old image.new i (j ∷ (a ∷ p)) b blocks }
    ensures counted { Gains geometry.now image.old image.new 1 }
{
    put_number(image, geometry.edition, BLOCK * m as usize, j as usize, 0);
    give(image, geometry, b);
}

/// Clears address `k` of file `i`, and frees block `b`, to which the address pointed.
fn drop_address(image: &mut Image, geometry: &Geometry, i: u16, k: usize, b: u32)
    requires { HasAddress geometry.now image.old i k b }
    ensures dropped { (blocks : List ℕ) → Drops geometry.now image.old image.new i (k ∷ []) b blocks }
    ensures counted { Gains geometry.now image.old image.new 1 }
{
    put_address(image, geometry, i, k, 0);
    give(image, geometry, b);
}
