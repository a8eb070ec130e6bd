//! The legend of a picture of the blocks.
ghost use Rattle.std.specs.Prelude.{◌≡◌, ◌≤◌, length, IfOk};
ghost use Rattle.vol_inspect.specs.Cells.{is_faulty, is_unsure};
ghost use Rattle.vol_inspect.specs.Legend.{is_blank, is_there, label, legend, legend_count, letter, name};

use crate::cell_groups::{Cell, use_count};
use crate::uses::Use;
use std::alloc::{AllocError, Global};

/// All kinds of cells, in the order of the legend.
pub(crate) const KINDS: [Cell; 15] = [
    Cell::Of(Use::Boot),
    Cell::Of(Use::SuperBlock),
    Cell::Of(Use::IList),
    Cell::Of(Use::Directory),
    Cell::Of(Use::File),
    Cell::Of(Use::Pointer),
    Cell::Of(Use::Free),
    Cell::Of(Use::Chain),
    Cell::Of(Use::Lost),
    Cell::Of(Use::Twice),
    Cell::Of(Use::Unreadable),
    Cell::Of(Use::Unknown),
    Cell::Faulty,
    Cell::Unsure,
    Cell::Blank,
];

impl Use {
    /// Returns the letter of a use.
    pub fn letter(self) -> &'static str
        ensures { result.now ≡ letter self }
    {
        match self {
            Use::Boot => "B",
            Use::SuperBlock => "S",
            Use::IList => "i",
            Use::Directory => "d",
            Use::File => "f",
            Use::Pointer => "p",
            Use::Free => "o",
            Use::Chain => "c",
            Use::Lost => "L",
            Use::Twice => "T",
            Use::Unreadable => "U",
            Use::Unknown => "?",
        }
    }

    /// Returns the name of the use.
    pub fn name(self) -> &'static str
        ensures { result.now ≡ name self }
    {
        match self {
            Use::Boot => "boot",
            Use::SuperBlock => "super-block",
            Use::IList => "i-list",
            Use::Directory => "directory",
            Use::File => "file",
            Use::Pointer => "pointer",
            Use::Free => "free",
            Use::Chain => "chain",
            Use::Lost => "lost",
            Use::Twice => "named twice",
            Use::Unreadable => "unreadable",
            Use::Unknown => "unknown",
        }
    }
}

impl Cell {
    /// Returns what the cell shows, in words.
    pub(crate) fn label(self) -> &'static str
        ensures { result.now ≡ label self }
    {
        match self {
            Cell::Blank => "other blocks",
            Cell::Of(usage) => usage.name(),
            Cell::Faulty => "cells with some blocks that are lost or named twice",
            Cell::Unsure => "cells with some blocks that are unreadable or of unknown use",
        }
    }

    /// True if the cell is marked as faulty.
    fn is_faulty(self) -> bool
        ensures { result ≡ is_faulty self }
    {
        match self {
            Cell::Blank | Cell::Of(_) | Cell::Unsure => false,
            Cell::Faulty => true,
        }
    }

    /// True if the cell is marked as unsure.
    fn is_unsure(self) -> bool
        ensures { result ≡ is_unsure self }
    {
        match self {
            Cell::Blank | Cell::Of(_) | Cell::Faulty => false,
            Cell::Unsure => true,
        }
    }
}

/// Returns the number in the legend for a kind of cell: how many blocks have the use, or aren't shown; but how many cells are `Faulty` or `Unsure`.
pub(crate) fn legend_count(blocks: &[Option<Use>], cells: &[Cell], kind: Cell) -> usize
    ensures { result ≡ legend_count blocks.now cells.now kind }
{
    match kind {
        Cell::Blank => blocks.iter().filter(|block| is_blank(**block)).count(),
        Cell::Of(usage) => use_count(usage, blocks),
        Cell::Faulty => cells.iter().filter(|cell| cell.is_faulty()).count(),
        Cell::Unsure => cells.iter().filter(|cell| cell.is_unsure()).count(),
    }
}

/// True if a block isn't shown.
fn is_blank(block: Option<Use>) -> bool
    ensures { result ≡ is_blank block }
{
    match block {
        None => true,
        Some(_) => false,
    }
}

/// True if the legend has a kind of cell.
fn is_there(blocks: &[Option<Use>], cells: &[Cell], kind: Cell) -> bool
    ensures { result ≡ is_there blocks.now cells.now kind }
{
    legend_count(blocks, cells, kind) > 0
}

/// Returns the kinds of cells in a legend: those of which there is one.
pub(crate) fn legend(
    alloc: Global,
    blocks: &[Option<Use>],
    cells: &[Cell],
) -> Result<Vec<Cell>, AllocError>
    ensures all { IfOk result (λ kinds. kinds.items ≡ legend blocks.now cells.now) }
    ensures few { IfOk result (λ kinds. length kinds.items ≤ 15) }
{
    KINDS
        .iter()
        .copied()
        .filter(|kind| is_there(blocks, cells, *kind))
        .collect(alloc)
}
