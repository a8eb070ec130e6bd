//! A picture of the uses of blocks as SVG, for a browser.
ghost use Rattle.std.specs.Prelude.{◌≡◌, ◌+◌, ◌*◌, ◌<◌, ◌≤◌, ◌^◌, ◌++◌, ℕ, length, map, slice_index_or, IfOk, OnOk};
ghost use Rattle.std.specs.String.{string_bytes};
ghost use Rattle.vol_inspect.specs.Cells.{piece};
ghost use Rattle.vol_inspect.specs.Svg.{block_title, cells_picture, class, columns_for, entry_text, head_text, laid_out, part_text, parts_text, picture, row_count, square_text, squares_text, swatch_text, swatches_text, title_text, titled_text};

use crate::cell_groups::{Cell, cells, piece};
use crate::legend::{legend, legend_count};
use crate::uses::Use;
use std::alloc::{AllocError, Global};

/// The fonts and colours of a picture.
const STYLE: &str =
    "<style>text{font:10px sans-serif}.B{fill:#888}.S{fill:#444}.i{fill:#a6761d}.d{fill:#1f78b4}.f{fill:#33a02c}.p{fill:#b2df8a}.o{fill:#e8e8e8}.c{fill:#c8b8e8}.L{fill:#ff7f00}.T{fill:#e31a1c}.U{fill:#6a3d9a}.q{fill:#ffff99}.x{fill:#fb9a99;stroke:#e31a1c}.y{fill:#cab2d6;stroke:#6a3d9a}.n{fill:#fafafa}</style>\n";

impl Cell {
    /// Returns the class of the cell, by which it has its colour.
    fn class(self) -> &'static str
        ensures { result.now ≡ class self }
    {
        match self {
            Cell::Blank => "n",
            Cell::Of(Use::Unknown) => "q",
            Cell::Of(usage) => usage.letter(),
            Cell::Faulty => "x",
            Cell::Unsure => "y",
        }
    }
}

/// Returns a picture of blocks as SVG, `each` in a square, with a legend below the squares. A block without a use isn't shown. A row has as many squares
/// as there are rows, to the next power of two from 4 to 128. The tool-tip of a square says which blocks it is for and what they are used for; that of a
/// square for one block has the block's title, if it is one of the first blocks, which have `titles`. These are written as they are: no `<` and no `&`
/// is escaped.
///
/// Takes memory for the cells and the text, and time in proportion to the number of blocks.
pub fn svg(
    alloc: Global,
    blocks: &[Option<Use>],
    titles: &[String],
    each: usize,
) -> Result<String, AllocError>
    requires some { 1 ≤ each }
    requires narrow { each < 2 ^ 32 }
    requires few { length blocks.now < 2 ^ 32 }
    ensures { IfOk result (λ text. string_bytes text ≡ picture each (map string_bytes titles.now) blocks.now) }
{
    let cells = cells(alloc, blocks, each)?;
    draw_squares(
        alloc,
        blocks,
        titles,
        &cells,
        each,
        columns_for(cells.len()),
    )
}

/// Returns the number of squares in a row.
fn columns_for(squares: usize) -> usize
    ensures value { result ≡ columns_for squares }
    ensures some { 1 ≤ result }
    ensures few { result ≤ 128 }
{
    match squares {
        0..=16 => 4,
        17..=64 => 8,
        65..=256 => 16,
        257..=1024 => 32,
        1025..=4096 => 64,
        _ => 128,
    }
}

/// Returns the picture of these cells of some blocks.
fn draw_squares(
    alloc: Global,
    blocks: &[Option<Use>],
    titles: &[String],
    cells: &[Cell],
    each: usize,
    width: usize,
) -> Result<String, AllocError>
    requires some { 1 ≤ width }
    requires narrow { width ≤ 128 }
    requires few { length cells.now < 2 ^ 33 }
    requires places { (k : ℕ) → k < length cells.now → k * each < length blocks.now }
    ensures { IfOk result (λ text. string_bytes text ≡ cells_picture width each (map string_bytes titles.now) blocks.now cells.now) }
{
    let kinds = legend(alloc, blocks, cells)?;
    let top = 10 * row_count(cells.len(), width) + 10;
    lay_out(alloc, blocks, titles, cells, &kinds, each, width, top)
}

/// Returns the picture of these cells of some blocks, with a legend from height `top` on.
fn lay_out(
    alloc: Global,
    blocks: &[Option<Use>],
    titles: &[String],
    cells: &[Cell],
    kinds: &[Cell],
    each: usize,
    width: usize,
    top: usize,
) -> Result<String, AllocError>
    requires some { 1 ≤ width }
    requires narrow { width ≤ 128 }
    requires few { length cells.now < 2 ^ 33 }
    requires kinds { length kinds.now < 100 }
    requires low { top < 2 ^ 40 }
    requires places { (k : ℕ) → k < length cells.now → k * each < length blocks.now }
    ensures { IfOk result (λ text. string_bytes text ≡ laid_out width each (map string_bytes titles.now) blocks.now cells.now kinds.now top) }
{
    let across = (10 * width).max(320);
    let down = top + 14 * kinds.len();
    let mut text = String::new(alloc);
    push_head(&mut text, across, down, blocks.len(), each)?;
    push_squares(alloc, &mut text, blocks, titles, cells, each, width)?;
    push_swatches(&mut text, blocks, cells, kinds, top)?;
    text.push_str("</svg>\n")?;
    Ok(text)
}

/// Returns the number of rows of this width that some squares fill.
fn row_count(squares: usize, width: usize) -> usize
    requires some { 1 ≤ width }
    requires narrow { width ≤ 128 }
    requires few { squares < 2 ^ 33 }
    ensures value { result ≡ row_count width squares }
    ensures bound { result < 2 ^ 34 }
{
    (squares + (width - 1)) / width
}

/// Appends the text before the squares, for `count` blocks.
fn push_head(
    text: &mut String,
    across: usize,
    down: usize,
    count: usize,
    each: usize,
) -> Result<(), AllocError>
    ensures { OnOk result (string_bytes text.new ≡ string_bytes text.old ++ head_text across down count each) }
{
    write!(
        text,
        "<svg xmlns='http://www.w3.org/2000/svg' viewBox='0 0 {across} {down}' role='img'>\n<title>{count} blocks, {each} in each square</title>\n"
    )?;
    text.push_str(STYLE)?;
    Ok(())
}

/// Appends the squares.
fn push_squares(
    alloc: Global,
    text: &mut String,
    blocks: &[Option<Use>],
    titles: &[String],
    cells: &[Cell],
    each: usize,
    width: usize,
) -> Result<(), AllocError>
    requires some { 1 ≤ width }
    requires few { length cells.now < 2 ^ 33 }
    requires places { (k : ℕ) → k < length cells.now → k * each < length blocks.now }
    ensures { OnOk result (string_bytes text.new ≡ string_bytes text.old ++ squares_text width each (map string_bytes titles.now) blocks.now cells.now) }
{
    for k in 0..cells.len() {
        push_titled(
            alloc,
            text,
            titles,
            piece(blocks, each, k),
            k * each,
            cells[k],
            10 * (k % width),
            10 * (k / width),
        )?;
    }
    Ok(())
}

/// Appends a square with its tool-tip, for blocks from `first` on.
fn push_titled(
    alloc: Global,
    text: &mut String,
    titles: &[String],
    blocks: &[Option<Use>],
    first: usize,
    cell: Cell,
    x: usize,
    y: usize,
) -> Result<(), AllocError>
    requires place { first + length blocks.now < 2 ^ 64 }
    ensures { OnOk result (string_bytes text.new ≡ string_bytes text.old ++ titled_text (map string_bytes titles.now) blocks.now first cell x y) }
{
    push_square(text, cell, x, y)?;
    text.push_str("><title>")?;
    push_title(alloc, text, titles, blocks, first, cell)?;
    text.push_str("</title></path>\n")?;
    Ok(())
}

/// Appends the beginning of a square.
fn push_square(text: &mut String, cell: Cell, x: usize, y: usize) -> Result<(), AllocError>
    ensures { OnOk result (string_bytes text.new ≡ string_bytes text.old ++ square_text cell x y) }
{
    let class = cell.class();
    write!(text, "<path class='{class}' d='M{x} {y}h9v9h-9z'")
}

/// Appends the tool-tip of a square for blocks from `first` on.
fn push_title(
    alloc: Global,
    text: &mut String,
    titles: &[String],
    blocks: &[Option<Use>],
    first: usize,
    cell: Cell,
) -> Result<(), AllocError>
    requires place { first + length blocks.now < 2 ^ 64 }
    ensures { OnOk result (string_bytes text.new ≡ string_bytes text.old ++ title_text (map string_bytes titles.now) blocks.now first cell) }
{
    if blocks.len() == 1 {
        let title = block_title(titles, first, cell);
        return write!(text, "block {first}: {title}");
    }
    let last = first + blocks.len().saturating_sub(1);
    write!(text, "blocks {first} to {last}")?;
    let kinds = legend(alloc, blocks, &[])?;
    push_parts(text, blocks, &kinds)
}

/// Returns the title of block `b`, from those of the first blocks; of a block without one, what its square shows.
fn block_title(titles: &[String], b: usize, cell: Cell) -> &str
    ensures { result.now ≡ block_title (map string_bytes titles.now) b cell }
{
    match titles.get(b) {
        Some(title) => title.as_str(),
        None => cell.label(),
    }
}

/// Appends the numbers of blocks of these kinds.
fn push_parts(text: &mut String, blocks: &[Option<Use>], kinds: &[Cell]) -> Result<(), AllocError>
    ensures { OnOk result (string_bytes text.new ≡ string_bytes text.old ++ parts_text blocks.now kinds.now) }
{
    for kind in kinds {
        push_part(text, blocks, *kind)?;
    }
    Ok(())
}

/// Appends the number of blocks of a kind.
fn push_part(text: &mut String, blocks: &[Option<Use>], kind: Cell) -> Result<(), AllocError>
    ensures { OnOk result (string_bytes text.new ≡ string_bytes text.old ++ part_text blocks.now kind) }
{
    let count = legend_count(blocks, &[], kind);
    let label = kind.label();
    write!(text, "\n{count} {label}")
}

/// Appends the legend.
fn push_swatches(
    text: &mut String,
    blocks: &[Option<Use>],
    cells: &[Cell],
    kinds: &[Cell],
    top: usize,
) -> Result<(), AllocError>
    requires few { length kinds.now < 100 }
    requires low { top < 2 ^ 40 }
    ensures { OnOk result (string_bytes text.new ≡ string_bytes text.old ++ swatches_text blocks.now cells.now top kinds.now) }
{
    for k in 0..kinds.len() {
        push_entry(text, blocks, cells, kinds[k], top + 14 * k)?;
    }
    Ok(())
}

/// Appends a line of the legend at height `y`.
fn push_entry(
    text: &mut String,
    blocks: &[Option<Use>],
    cells: &[Cell],
    kind: Cell,
    y: usize,
) -> Result<(), AllocError>
    requires low { y < 2 ^ 41 }
    ensures { OnOk result (string_bytes text.new ≡ string_bytes text.old ++ entry_text blocks.now cells.now kind y) }
{
    push_square(text, kind, 0, y)?;
    text.push_str("/>\n")?;
    push_swatch(text, blocks, cells, kind, y + 9)
}

/// Appends what a kind of cell shows, and its number of blocks.
fn push_swatch(
    text: &mut String,
    blocks: &[Option<Use>],
    cells: &[Cell],
    kind: Cell,
    y: usize,
) -> Result<(), AllocError>
    ensures { OnOk result (string_bytes text.new ≡ string_bytes text.old ++ swatch_text blocks.now cells.now kind y) }
{
    let label = kind.label();
    let count = legend_count(blocks, cells, kind);
    write!(text, "<text x='14' y='{y}'>{label} {count}</text>\n")
}
