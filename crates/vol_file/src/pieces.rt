//! Writing to the blocks that a file already has.
ghost use Rattle.std.specs.Prelude.{◌≡◌, ℕ, ◌+◌, ◌-◌, ◌*◌, ◌/◌, ◌%◌, ◌^◌, ◌<◌, ◌≤◌, true, List, length, slice_index};
ghost use Rattle.vol_layout.specs.Geometry.{in_zone};
ghost use Rattle.vol_layout.specs.BlockPointers.{form_at, IsFile, stored};
ghost use Rattle.vol_file.specs.Rules.{Rules3To7With, Rules3To7};
ghost use Rattle.vol_file.specs.Steps.{Rewrites, text_at, zeros_at};

use crate::block_lookup::number_at;
use crate::holes::next_stored;
use pdp_words::{BLOCK, Image};
use vol_layout::{BlockMap, Geometry};

/// Writes `piece` at byte `at` of file `i`. All its bytes are in one logical block, which is stored.
fn put_piece(
    image: &mut Image,
    geometry: &Geometry,
    i: u16,
    form: BlockMap,
    at: usize,
    piece: &[u8],
)
    requires form { form ≡ form_at geometry.now image.old i }
    requires file { IsFile geometry.now image.old i }
    requires sound { Rules3To7 geometry.now image.old }
    requires near { at < 2 ^ 32 }
    requires room { at % 512 + length piece.now ≤ 512 }
    requires zone { in_zone geometry.now (stored geometry.now image.old i form (at / 512)) ≡ true }
    ensures { (content : ℕ → ℕ) (blocks : List ℕ) → Rules3To7With geometry.now image.old blocks
        → ((n : ℕ) → n < length piece.now → slice_index piece.now n ≡ content (at + n))
        → Rewrites geometry.now image.old image.new i at (at + length piece.now) content blocks }
{
    let block = number_at(image, geometry, i, form, (at / BLOCK) as u32);
    image.put_bytes(BLOCK * block as usize + at % BLOCK, piece);
}

/// Clears `count` bytes at byte `at` of file `i`. All of them are in one logical block; a hole stays a hole.
fn clear_piece(
    image: &mut Image,
    geometry: &Geometry,
    i: u16,
    form: BlockMap,
    at: usize,
    count: usize,
)
    requires form { form ≡ form_at geometry.now image.old i }
    requires file { IsFile geometry.now image.old i }
    requires sound { Rules3To7 geometry.now image.old }
    requires near { at < 2 ^ 32 }
    requires room { at % 512 + count ≤ 512 }
    ensures { (blocks : List ℕ) → Rules3To7With geometry.now image.old blocks
        → Rewrites geometry.now image.old image.new i at (at + count) zeros_at blocks }
{
    let block = number_at(image, geometry, i, form, (at / BLOCK) as u32);
    if block != 0 {
        let start = BLOCK * block as usize + at % BLOCK;
        image.clear(start, start + count);
    }
}

/// Writes `text` at byte `offset` of file `i`, which must already have a block for each of these bytes.
pub(crate) fn put_text(
    image: &mut Image,
    geometry: &Geometry,
    i: u16,
    form: BlockMap,
    offset: u32,
    text: &[u8],
)
    requires form { form ≡ form_at geometry.now image.old i }
    requires file { IsFile geometry.now image.old i }
    requires sound { Rules3To7 geometry.now image.old }
    requires range { offset + length text.now < 2 ^ 32 }
    requires zone { (n : ℕ) → n < length text.now
        → in_zone geometry.now (stored geometry.now image.old i form ((offset + n) / 512)) ≡ true }
    ensures { (blocks : List ℕ) → Rules3To7With geometry.now image.old blocks
        → Rewrites geometry.now image.old image.new i offset (offset + length text.now) (text_at offset text.now) blocks }
{
    let mut done = 0;
    while done < text.len() {
        let at = offset as usize + done;
        let count = (BLOCK - at % BLOCK).min(text.len() - done);
        put_piece(image, geometry, i, form, at, &text[done..done + count]);
        done += count;
    }
}

/// Clears the bytes `from..to` of file `i`. Holes stay holes.
///
/// Costs one [`next_block`](crate::next_block) for each stored logical block in the range: the time depends on the number of the file's blocks, not
/// on the distance between `from` and `to`.
pub(crate) fn clear_between(
    image: &mut Image,
    geometry: &Geometry,
    i: u16,
    form: BlockMap,
    from: u32,
    to: u32,
)
    requires form { form ≡ form_at geometry.now image.old i }
    requires file { IsFile geometry.now image.old i }
    requires sound { Rules3To7 geometry.now image.old }
    requires order { from ≤ to }
    ensures { (blocks : List ℕ) → Rules3To7With geometry.now image.old blocks
        → Rewrites geometry.now image.old image.new i from to zeros_at blocks }
{
    let end = to as usize;
    let mut at = from as usize;
    while at < end {
        let first = (at / BLOCK) as u32;
        let b = next_stored(image, geometry, i, form, first, end.div_ceil(BLOCK) as u32);
        let start = (BLOCK * b as usize).clamp(at, end);
        let count = (BLOCK - start % BLOCK).min(end - start);
        clear_piece(image, geometry, i, form, start, count);
        at = start + count;
    }
}
