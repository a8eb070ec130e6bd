//! The cells of a picture, each for one block or several.
ghost use Rattle.std.specs.Prelude.{◌≡◌, ◌+◌, ◌*◌, ◌<◌, ◌≤◌, ◌^◌, ℕ, length, IfOk};
ghost use Rattle.vol_inspect.specs.Cells.{cell_count, cell_of, cell_with, cells, has_fault, has_use, hides_fault, hides_gap, is_hidden, more_common, most_common, most_of, piece, telling, use_count};

use crate::uses::Use;
use std::alloc::{AllocError, Global};

/// A cell of a picture: what it shows of its blocks.
#[derive(Clone, Copy)]
pub enum Cell {
    /// None of its blocks is shown.
    Blank,
    /// The use of most of its blocks.
    Of(Use),
    /// Some of its blocks are lost or named twice, and not all of its faults and gaps are of the use that has most.
    Faulty,
    /// None of its blocks is lost or named twice; some are unreadable or of unknown use, and not all of these are of the use that has most.
    Unsure,
}

/// The uses that may be more common than that of free blocks, the one with the highest priority last.
const RIVALS: [Use; 11] = [
    Use::Chain,
    Use::File,
    Use::Pointer,
    Use::Directory,
    Use::IList,
    Use::Boot,
    Use::SuperBlock,
    Use::Lost,
    Use::Twice,
    Use::Unknown,
    Use::Unreadable,
];

impl Use {
    /// Returns the priority of a use if several uses have the most blocks of a cell: what is unreadable or unknown first, then faults, then uses that
    /// occur once on a volume, then directories, indirect blocks, files and free blocks.
    fn telling(self) -> u8
        ensures { result ≡ telling self }
    {
        match self {
            Use::Free => 0,
            Use::Chain => 1,
            Use::File => 2,
            Use::Pointer => 3,
            Use::Directory => 4,
            Use::IList => 5,
            Use::Boot => 6,
            Use::SuperBlock => 7,
            Use::Lost => 8,
            Use::Twice => 9,
            Use::Unknown => 10,
            Use::Unreadable => 11,
        }
    }
}

/// True if a block is shown, and has this use.
fn has_use(usage: Use, block: Option<Use>) -> bool
    ensures { result ≡ has_use usage block }
{
    match block {
        None => false,
        Some(its) => its.telling() == usage.telling(),
    }
}

/// Returns the number of blocks that are shown with this use.
pub fn use_count(usage: Use, blocks: &[Option<Use>]) -> usize
    ensures value { result ≡ use_count usage blocks.now }
    ensures bound { result ≤ length blocks.now }
{
    blocks
        .iter()
        .filter(|block| has_use(usage, **block))
        .count()
}

/// Returns the use of more blocks; if both have as many, the second.
fn more_common(blocks: &[Option<Use>], one: Use, other: Use) -> Use
    ensures { result ≡ more_common blocks.now one other }
{
    if use_count(other, blocks) < use_count(one, blocks) {
        one
    } else {
        other
    }
}

/// Returns the use of most blocks; if several have as many, the one with the highest priority.
fn most_common(blocks: &[Option<Use>]) -> Use
    ensures { result ≡ most_common blocks.now }
{
    most_of(blocks, &RIVALS)
}

/// Returns the use of most blocks among that of free blocks and these; if several have as many, the last.
fn most_of(blocks: &[Option<Use>], rivals: &[Use]) -> Use
    ensures { result ≡ most_of blocks.now Use.Free rivals.now }
{
    let mut best = Use::Free;
    for one in rivals {
        best = more_common(blocks, best, *one);
    }
    best
}

/// True if some blocks have this use, and another one is that of most.
fn is_hidden(blocks: &[Option<Use>], best: Use, usage: Use) -> bool
    ensures { result ≡ is_hidden blocks.now best usage }
{
    usage.telling() != best.telling() && use_count(usage, blocks) > 0
}

/// True if the use of most blocks hides that some of them are lost or named twice.
fn hides_fault(blocks: &[Option<Use>], best: Use) -> bool
    ensures { result ≡ hides_fault blocks.now best }
{
    is_hidden(blocks, best, Use::Lost) || is_hidden(blocks, best, Use::Twice)
}

/// True if the use of most blocks hides that some of them are unreadable, or that their use isn't known.
fn hides_gap(blocks: &[Option<Use>], best: Use) -> bool
    ensures { result ≡ hides_gap blocks.now best }
{
    is_hidden(blocks, best, Use::Unknown) || is_hidden(blocks, best, Use::Unreadable)
}

/// True if some blocks are lost or named twice.
fn has_fault(blocks: &[Option<Use>]) -> bool
    ensures { result ≡ has_fault blocks.now }
{
    use_count(Use::Lost, blocks) > 0 || use_count(Use::Twice, blocks) > 0
}

/// Returns the cell of some blocks: the use of most of them, unless that hides that some are lost or named twice, unreadable or of unknown use. If
/// several uses have as many blocks, it is the one with the highest priority.
///
/// Visits the blocks 23 to 29 times.
pub fn cell_of(blocks: &[Option<Use>]) -> Cell
    ensures { result ≡ cell_of blocks.now }
{
    cell_with(blocks, most_common(blocks))
}

/// Returns the cell of some blocks, of which most have this use.
fn cell_with(blocks: &[Option<Use>], best: Use) -> Cell
    ensures { result ≡ cell_with blocks.now best }
{
    if use_count(best, blocks) == 0 {
        return Cell::Blank;
    }
    if hides_fault(blocks, best) {
        return Cell::Faulty;
    }
    if !hides_gap(blocks, best) {
        return Cell::Of(best);
    }
    if has_fault(blocks) {
        Cell::Faulty
    } else {
        Cell::Unsure
    }
}

/// Returns the blocks of cell `k`, if each cell is for `each` blocks.
pub(crate) fn piece(blocks: &[Option<Use>], each: usize, k: usize) -> &[Option<Use>]
    requires { k * each < length blocks.now }
    ensures { result.now ≡ piece each blocks.now k }
{
    let from = k * each;
    let left = blocks.len() - from;
    &blocks[from..from + each.min(left)]
}

/// Returns the number of cells for `n` blocks.
pub(crate) fn cell_count(each: usize, n: usize) -> usize
    requires some { 1 ≤ each }
    requires narrow { each < 2 ^ 32 }
    requires few { n < 2 ^ 63 }
    ensures { result ≡ cell_count each n }
{
    (n + (each - 1)) / each
}

/// Returns the cells of `each` blocks, in order; the last one is for the blocks that are left. A block without a use isn't shown. A cell shows the use
/// of most of its blocks, or that some of them are lost or named twice, unreadable or of unknown use.
pub fn cells(alloc: Global, blocks: &[Option<Use>], each: usize) -> Result<Vec<Cell>, AllocError>
    requires some { 1 ≤ each }
    requires narrow { each < 2 ^ 32 }
    ensures all { IfOk result (λ found. found.items ≡ cells each blocks.now) }
    ensures places { IfOk result (λ found. (k : ℕ) → k < length found.items → k * each < length blocks.now) }
    ensures few { IfOk result (λ found. length found.items ≤ length blocks.now) }
{
    let mut found = Vec::new(alloc);
    for k in 0..cell_count(each, blocks.len()) {
        found.push(cell_of(piece(blocks, each, k)))?;
    }
    Ok(found)
}
