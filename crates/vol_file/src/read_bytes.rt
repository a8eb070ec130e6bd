//! Reading the bytes of a file.
ghost use Rattle.std.specs.Prelude.{◌≡◌, ℕ, ◌+◌, ◌-◌, ◌^◌, ◌<◌, ◌≤◌, min, length, take, drop, slice_index, slice_range};
ghost use Rattle.vol_layout.specs.Geometry.{Fits};
ghost use Rattle.vol_layout.specs.Body.{zone_byte, body_byte, body_size, body};

use crate::runs::BlockNumbers;
use pdp_words::{BLOCK, Image};
use vol_layout::Geometry;
use vol_layout::i_list::size;

/// Reads bytes of i-node `i`, an i-number of the volume, starting at byte `offset`, into `buffer`, until the buffer is full or the file ends, and
/// returns the number of bytes read, which is 0 at the end and past it. The rest of `buffer` is unchanged. Holes and blocks outside the data zone are
/// read as zeros, and so is an i-node that isn't a regular file or directory.
///
/// Costs a copy of the bytes, a read of one block number for each logical block, and one block-map lookup for each indirect block.
pub fn read(image: &Image, geometry: &Geometry, i: u16, offset: u32, buffer: &mut [u8]) -> usize
    requires fits { Fits geometry.now image.now }
    requires first { 1 ≤ i }
    requires last { i ≤ geometry.now.last_inode }
    ensures count { result ≡ min (length buffer.old) (body_size geometry.now image.now i - offset) }
    ensures bytes { take result buffer.new ≡ slice_range (body geometry.now image.now i) offset (offset + result) }
    ensures rest { drop result buffer.new ≡ drop result buffer.old }
{
    let length = body_length(image, geometry, i);
    if length <= offset {
        return 0;
    }
    let count = buffer.len().min((length - offset) as usize);
    read_whole(image, geometry, i, offset, &mut buffer[..count]);
    count
}

/// Returns the length of i-node `i`'s body: its size, but at most the greatest size of the edition.
fn body_length(image: &Image, geometry: &Geometry, i: u16) -> u32
    requires fits { Fits geometry.now image.now }
    requires first { 1 ≤ i }
    requires last { i ≤ geometry.now.last_inode }
    ensures { result ≡ body_size geometry.now image.now i }
{
    size(image, geometry, i).min(geometry.edition.constants().greatest)
}

/// Fills `buffer` with the bytes of i-node `i` that start at byte `offset`.
fn read_whole(image: &Image, geometry: &Geometry, i: u16, offset: u32, buffer: &mut [u8])
    requires fits { Fits geometry.now image.now }
    requires first { 1 ≤ i }
    requires last { i ≤ geometry.now.last_inode }
    requires range { offset + length buffer.old < 2 ^ 32 }
    ensures { (n : ℕ) → n < length buffer.old
        → slice_index buffer.new n ≡ body_byte geometry.now image.now i (offset + n) }
{
    let mut numbers = BlockNumbers::of(image, geometry, i);
    let mut done = 0;
    while done < buffer.len() {
        let at = offset as usize + done;
        let block = numbers.number_at(image, geometry, (at / BLOCK) as u32);
        let start = at % BLOCK;
        let count = (BLOCK - start).min(buffer.len() - done);
        read_piece(
            image,
            geometry,
            block,
            start,
            &mut buffer[done..done + count],
        );
        done += count;
    }
}

/// Fills `piece` with the bytes of block `k` that start at its byte `start`, or with zeros if `k` isn't a data block.
#[tactic(auto, unfolding(vol_layout::specs::Body::zone_byte))]
fn read_piece(image: &Image, geometry: &Geometry, k: u32, start: usize, piece: &mut [u8])
    requires fits { Fits geometry.now image.now }
    requires range { start + length piece.old ≤ 512 }
    ensures { (n : ℕ) → n < length piece.old → slice_index piece.new n ≡ zone_byte geometry.now image.now k (start + n) }
{
    if geometry.in_zone(k) {
        let block = image.block(k);
        piece.copy_from_slice(&block[start..start + piece.len()]);
    } else {
        piece.fill(0);
    }
}
