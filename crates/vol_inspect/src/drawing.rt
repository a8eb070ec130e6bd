//! Pictures of the uses of blocks as text for a terminal.
ghost use Rattle.std.specs.Prelude.{◌≡◌, ◌≤◌, ◌<◌, ◌*◌, ◌^◌, ◌++◌, ℕ, IfOk, OnOk, length};
ghost use Rattle.std.specs.String.{string_bytes};
ghost use Rattle.vol_inspect.specs.Pictures.{
  cell_colour,
  cell_letter,
  cell_text,
  cells_drawing,
  colour,
  drawing,
  legend_line,
  legend_lines,
  number_column,
  row_cell,
  row_head,
  rows_text,
};

use crate::cell_groups::{Cell, cells};
use crate::legend::{legend, legend_count};
use crate::uses::Use;
use std::alloc::{AllocError, Global};

impl Use {
    /// Returns the number of the background colour on a terminal.
    fn colour(self) -> u8
        ensures { result ≡ colour self }
    {
        match self {
            Use::Boot => 100,
            Use::SuperBlock => 100,
            Use::IList => 43,
            Use::Directory => 44,
            Use::File => 42,
            Use::Pointer => 46,
            Use::Free => 47,
            Use::Chain => 45,
            Use::Lost => 103,
            Use::Twice => 41,
            Use::Unreadable => 101,
            Use::Unknown => 105,
        }
    }
}

impl Cell {
    /// Returns the number of the background colour on a terminal.
    fn colour(self) -> u8
        ensures { result ≡ cell_colour self }
    {
        match self {
            Cell::Blank => 49,
            Cell::Of(usage) => usage.colour(),
            Cell::Faulty => 41,
            Cell::Unsure => 101,
        }
    }

    /// Returns the letter of a cell.
    fn letter(self) -> &'static str
        ensures { result.now ≡ cell_letter self }
    {
        match self {
            Cell::Blank => ".",
            Cell::Of(usage) => usage.letter(),
            Cell::Faulty => "!",
            Cell::Unsure => "%",
        }
    }
}

/// Draws blocks, `each` in a cell, and a legend with the number of blocks of each use. A block without a use isn't shown. A row has `width` cells, after
/// the number of its first block. With colours, each letter is between the colour codes of a terminal.
///
/// Takes memory for the cells and the text, and time in proportion to the number of blocks.
pub fn draw(
    alloc: Global,
    blocks: &[Option<Use>],
    each: usize,
    width: usize,
    coloured: bool,
) -> Result<String, AllocError>
    requires some { 1 ≤ each }
    requires narrow { each < 2 ^ 32 }
    requires wide { 1 ≤ width }
    ensures { IfOk result (λ text. string_bytes text ≡ drawing coloured width each blocks.now) }
{
    let cells = cells(alloc, blocks, each)?;
    draw_cells(alloc, blocks, &cells, each, width, coloured)
}

/// Draws these cells of some blocks, and the legend.
fn draw_cells(
    alloc: Global,
    blocks: &[Option<Use>],
    cells: &[Cell],
    each: usize,
    width: usize,
    coloured: bool,
) -> Result<String, AllocError>
    requires wide { 1 ≤ width }
    requires places { (k : ℕ) → k < length cells.now → k * each < length blocks.now }
    ensures { IfOk result (λ text. string_bytes text ≡ cells_drawing coloured width each blocks.now cells.now) }
{
    let kinds = legend(alloc, blocks, cells)?;
    let mut text = String::new(alloc);
    push_rows(&mut text, cells, each, width, coloured)?;
    text.push_str("\n\n")?;
    push_legend_lines(&mut text, blocks, cells, &kinds, coloured)?;
    Ok(text)
}

/// Appends the rows.
fn push_rows(
    text: &mut String,
    cells: &[Cell],
    each: usize,
    width: usize,
    coloured: bool,
) -> Result<(), AllocError>
    requires wide { 1 ≤ width }
    requires places { (k : ℕ) → k < length cells.now → k * each < 2 ^ 64 }
    ensures { OnOk result (string_bytes text.new ≡ string_bytes text.old ++ rows_text coloured width each cells.now) }
{
    for k in 0..cells.len() {
        push_row_cell(text, cells[k], k, each, width, coloured)?;
    }
    Ok(())
}

/// Appends cell `k`, after the beginning of a row if it is a row's first one.
fn push_row_cell(
    text: &mut String,
    cell: Cell,
    k: usize,
    each: usize,
    width: usize,
    coloured: bool,
) -> Result<(), AllocError>
    requires wide { 1 ≤ width }
    requires place { k * each < 2 ^ 64 }
    ensures { OnOk result (string_bytes text.new ≡ string_bytes text.old ++ row_cell coloured width each cell k) }
{
    if k % width == 0 {
        push_row_head(text, k * each)?;
    }
    push_cell(text, cell, coloured)
}

/// Appends the beginning of a row: a newline, and the number of its first block.
fn push_row_head(text: &mut String, first: usize) -> Result<(), AllocError>
    ensures { OnOk result (string_bytes text.new ≡ string_bytes text.old ++ row_head first) }
{
    text.push_str("\n")?;
    push_number(text, first)?;
    text.push_str(" ")?;
    Ok(())
}

/// Appends a number, right-aligned in 7 columns.
fn push_number(text: &mut String, n: usize) -> Result<(), AllocError>
    ensures { OnOk result (string_bytes text.new ≡ string_bytes text.old ++ number_column n) }
{
    write!(text, "{n:>7}")
}

/// Appends a cell.
fn push_cell(text: &mut String, cell: Cell, coloured: bool) -> Result<(), AllocError>
    ensures { OnOk result (string_bytes text.new ≡ string_bytes text.old ++ cell_text coloured cell) }
{
    let letter = cell.letter();
    if !coloured {
        return write!(text, "{letter}");
    }
    let colour = cell.colour();
    write!(text, "\x1b[{colour}m{letter}\x1b[0m")
}

/// Appends the lines of these kinds of cells in the legend.
fn push_legend_lines(
    text: &mut String,
    blocks: &[Option<Use>],
    cells: &[Cell],
    kinds: &[Cell],
    coloured: bool,
) -> Result<(), AllocError>
    ensures { OnOk result (string_bytes text.new ≡ string_bytes text.old ++ legend_lines coloured blocks.now cells.now kinds.now) }
{
    for one in kinds {
        push_legend_line(text, blocks, cells, *one, coloured)?;
    }
    Ok(())
}

/// Appends the line of a kind of cell in the legend.
fn push_legend_line(
    text: &mut String,
    blocks: &[Option<Use>],
    cells: &[Cell],
    kind: Cell,
    coloured: bool,
) -> Result<(), AllocError>
    ensures { OnOk result (string_bytes text.new ≡ string_bytes text.old ++ legend_line coloured blocks.now cells.now kind) }
{
    push_number(text, legend_count(blocks, cells, kind))?;
    text.push_str(" ")?;
    push_cell(text, kind, coloured)?;
    let label = kind.label();
    write!(text, " {label}\n")
}
