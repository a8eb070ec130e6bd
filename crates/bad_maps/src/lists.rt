//! Reads lists of blocks.
ghost use Rattle.std.specs.Prelude.{◌≡◌, ◌≤◌, IfSome};
ghost use Rattle.bad_maps.specs.Lists.{ReadsList, between, bytes_around, listed_in};

use crate::maps::ReadRange;
use line_words::{Pieces, number_in};
use std::alloc::Global;

/// The number of bytes of a block.
const BYTES: u64 = 512;

/// The greatest number of a block.
const MOST: u64 = 4_294_967_295;

/// The reason why a list can't be read.
#[derive(Clone, Copy)]
pub enum ListFault {
    /// It isn't a list of blocks.
    Wrong,
    /// Memory ran out.
    NoMemory,
}

/// Blocks that a list names, one after the other.
#[derive(Clone, Copy)]
pub(crate) struct ListedBlocks {
    /// The first.
    pub(crate) first: u64,
    /// The one after the last.
    pub(crate) end: u64,
}

/// Reads a list of blocks of 512 bytes: numbers, and ranges with a hyphen, apart by commas and in strictly ascending order, as `12,878-4871`. Returns
/// the ranges of all bytes outside these blocks, in ascending order; some of them may be empty.
///
/// Takes memory for the ranges. Costs the length of the text.
pub fn read_list(alloc: Global, text: &[u8]) -> Result<Vec<ReadRange>, ListFault>
    ensures { ReadsList (bytes_around text.now) result }
{
    let mut ranges = Vec::new(alloc);
    let mut next = 0;
    let mut pieces = Pieces::of(b',', text);
    'pieces: while let Some(piece) = pieces.take_next() {
        let Some(blocks) = listed_in(next, piece) else {
            return Err(ListFault::Wrong);
        };
        let before = ReadRange {
            first: BYTES * next,
            end: BYTES * blocks.first,
        };
        if ranges.push(before).is_err() {
            return Err(ListFault::NoMemory);
        }
        next = blocks.end;
    }
    let after = ReadRange {
        first: BYTES * next,
        end: u64::MAX,
    };
    match ranges.push(after) {
        Ok(()) => Ok(ranges),
        Err(_) => Err(ListFault::NoMemory),
    }
}

/// Returns the blocks that a piece of a list names: one, or those from the first to the last. They begin at block `next` or after it.
fn listed_in(next: u64, piece: &[u8]) -> Option<ListedBlocks>
    ensures exact { result ≡ listed_in next piece.now }
    ensures first { IfSome result (λ blocks. blocks.first ≤ 4294967295) }
    ensures end { IfSome result (λ blocks. blocks.end ≤ 4294967296) }
{
    let mut words = Pieces::of(b'-', piece);
    let first = words.take_next()?;
    match words.take_next() {
        None => between(next, first, first),
        Some(last) if words.is_empty() => between(next, first, last),
        Some(_) => None,
    }
}

/// Returns the blocks from the first to the last, if these words are their numbers. They begin at block `next` or after it.
fn between(next: u64, first: &[u8], last: &[u8]) -> Option<ListedBlocks>
    ensures exact { result ≡ between next first.now last.now }
    ensures first { IfSome result (λ blocks. blocks.first ≤ 4294967295) }
    ensures end { IfSome result (λ blocks. blocks.end ≤ 4294967296) }
{
    let first = number_in(10, MOST, first)?;
    let last = number_in(10, MOST, last)?;
    if first < next || last < first {
        return None;
    }
    Some(ListedBlocks {
        first,
        end: last + 1,
    })
}
