//! The blocks of a new volume, each computed from its number.
ghost use Rattle.std.specs.Prelude.{◌≡◌, ℕ, ◌+◌, ◌-◌, ◌*◌, ◌<◌, ◌≤◌, true, IfErr, OnErr, OnOk, length, slice_index};
ghost use Rattle.std.specs.Io.KnownBytes.{Appends};
ghost use Rattle.pdp_words.specs.Devices.{AppendsFront};
ghost use Rattle.pdp_words.specs.Words.{SameOutside};
ghost use Rattle.vol_layout.specs.Edition.{constants, number};
ghost use Rattle.vol_mkfs.specs.Blank.{listed, HasHead, first_chain, block_byte, volume_byte, volume_bytes};
ghost use Rattle.vol_mkfs.specs.Mkfs.{is_chain, IsMakeable};

use crate::blank::FIRST_BLOCKS;
use pdp_words::{BLOCK, Image, SaveFault, Sink, words, write_all};
use vol_layout::{Edition, Geometry};

/// The number of blocks in the buffer through which a volume is written.
const BUFFER_BLOCKS: u32 = 128;

/// Writes all blocks of a new volume to `sink`. `first` has blocks 0, 1 and 2, followed by the root's block. Fails only if the sink fails, after
/// taking exactly the first `written` bytes.
pub fn write_blocks<W: Sink>(
    sink: &mut W,
    first: &Image,
    geometry: &Geometry,
) -> Result<(), SaveFault>
    requires makeable { IsMakeable geometry.now }
    requires first { length first.now ≡ 2048 }
    ensures ok { OnOk result (Appends (W.contents sink.old) (W.contents sink.new) (volume_bytes geometry.now first.now)) }
    ensures working { OnOk result (W.failed sink.new ≡ W.failed sink.old) }
    ensures part { IfErr result (λ e. AppendsFront (W.contents sink.old) (W.contents sink.new)
        (volume_bytes geometry.now first.now) e.written) }
    ensures fault { OnErr result (W.failed sink.new ≡ true) }
{
    let mut buffer = [0; BUFFER_BLOCKS as usize * BLOCK];
    let mut next = 0;
    while next < geometry.zone_end {
        let end = (next + BUFFER_BLOCKS).min(geometry.zone_end);
        gather(first, geometry, next, end, &mut buffer);
        if let Err(fault) = write_all(sink, &buffer[..(end - next) as usize * BLOCK]) {
            return Err(SaveFault {
                written: u64::from(next) * BLOCK as u64 + fault.written,
            });
        }
        next = end;
    }
    Ok(())
}

/// Fills the beginning of `buffer` with the blocks `from..to` of a new volume. `first` has blocks 0, 1 and 2, followed by the root's block.
pub fn gather(first: &Image, geometry: &Geometry, from: u32, to: u32, buffer: &mut [u8])
    requires makeable { IsMakeable geometry.now }
    requires first { length first.now ≡ 2048 }
    requires order { from ≤ to }
    requires within { to ≤ geometry.now.zone_end }
    requires room { 512 * (to - from) ≤ length buffer.old }
    ensures { (k : ℕ) → k < 512 * (to - from) → slice_index buffer.new k ≡ volume_byte geometry.now first.now (512 * from + k) }
{
    for b in from..to {
        put_block(buffer, (b - from) as usize * BLOCK, first, geometry, b);
    }
}

/// Writes block `b` of a new volume to `buffer`, starting at byte `at`.
fn put_block(buffer: &mut [u8], at: usize, first: &Image, geometry: &Geometry, b: u32)
    requires makeable { IsMakeable geometry.now }
    requires first { length first.now ≡ 2048 }
    requires within { b < geometry.now.zone_end }
    requires room { at + 512 ≤ length buffer.old }
    ensures put { (r : ℕ) → r < 512 → slice_index buffer.new (at + r) ≡ block_byte geometry.now first.now b r }
    ensures others { SameOutside buffer.old buffer.new at (at + 512) }
{
    if b < FIRST_BLOCKS {
        words::put_bytes(buffer, at, first.block(b));
    } else if b == geometry.zone_start {
        words::put_bytes(buffer, at, first.block(FIRST_BLOCKS));
    } else {
        words::clear(buffer, at, at + BLOCK);
        if is_chain(geometry, b) {
            let slots = geometry.edition.constants().free_slots;
            put_free_head(buffer, at, geometry, b + u32::from(slots), slots);
        }
    }
}

/// True if block `b` is a chain block of the free list: one that stores an array of the numbers of free blocks. The distance between chain blocks,
/// and from the last one to the volume's end, is the number of entries in an array.
#[tactic(auto, unfolding(crate::specs::Mkfs::is_chain))]
fn is_chain(geometry: &Geometry, b: u32) -> bool
    ensures { result ≡ is_chain geometry.now b }
{
    let slots = u32::from(geometry.edition.constants().free_slots);
    geometry.zone_start < b && b < geometry.zone_end && (geometry.zone_end - b) % slots == 0
}

/// Returns the first chain block, or the volume's end if there is none. The array in the super-block has the numbers of the free blocks up to it.
#[tactic(auto, unfolding(crate::specs::Blank::first_chain), using(crate::proofs::BlankStacks::chain_within))]
pub fn first_chain(geometry: &Geometry) -> u32
    requires { geometry.now.zone_start < geometry.now.zone_end }
    ensures { result ≡ first_chain geometry.now }
{
    let slots = u32::from(geometry.edition.constants().free_slots);
    geometry.zone_start + (geometry.zone_end - geometry.zone_start - 1) % slots + 1
}

/// Writes a count and an array of the free list, starting at byte `at`. Entry 0 of the array is the chain block `top`, or 0 if `top` is the volume's
/// end.
pub fn put_free_head(bytes: &mut [u8], at: usize, geometry: &Geometry, top: u32, count: u16)
    requires makeable { IsMakeable geometry.now }
    requires top { top ≤ geometry.now.zone_end }
    requires count { count ≤ top }
    requires chain { top < geometry.now.zone_end → top + (constants geometry.now.edition).free_slots ≤ geometry.now.zone_end }
    requires room { at + 202 ≤ length bytes.old }
    ensures head { HasHead geometry.now bytes.new at top count }
    ensures others { SameOutside bytes.old bytes.new at (at + 202) }
{
    words::put_word(bytes, at, count);
    for j in 0..geometry.edition.constants().free_slots {
        let number = listed(geometry, top, count, j);
        put_number(bytes, geometry.edition, at + 2, j, number);
    }
}

/// Returns entry `j` of the array that [`put_free_head`] writes. The entries past the count are left over from the array before it.
#[tactic(auto, unfolding(crate::specs::Blank::listed))]
fn listed(geometry: &Geometry, top: u32, count: u16, j: u16) -> u32
    requires top { top ≤ geometry.now.zone_end }
    requires count { count ≤ top }
    requires chain { top < geometry.now.zone_end → top + (constants geometry.now.edition).free_slots ≤ geometry.now.zone_end }
    requires slot { j < (constants geometry.now.edition).free_slots }
    ensures value { result ≡ listed geometry.now top count j }
    ensures limit { result ≤ geometry.now.zone_end }
{
    if 0 < j && j < count {
        top - u32::from(j)
    } else if top == geometry.zone_end {
        0
    } else if j == 0 {
        top
    } else {
        top + u32::from(geometry.edition.constants().free_slots) - u32::from(j)
    }
}

/// Writes entry `j` of the array that begins at byte `at`.
fn put_number(bytes: &mut [u8], edition: Edition, at: usize, j: u16, value: u32)
    requires room { at + (constants edition).number_bytes * (j + 1) ≤ length bytes.old }
    requires range { edition ≡ Edition.V6 → value < 65536 }
    ensures put { number edition bytes.new at j ≡ value }
    ensures others { SameOutside bytes.old bytes.new
        (at + (constants edition).number_bytes * j) (at + (constants edition).number_bytes * (j + 1)) }
{
    match edition {
        Edition::V6 => words::put_word(bytes, at + 2 * j as usize, value as u16),
        Edition::V7 => words::put_long(bytes, at + 4 * j as usize, value),
    }
}
