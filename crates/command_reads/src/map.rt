//! The command that draws the use of each block.
ghost use Rattle.std.specs.Prelude.{◌≡◌, ◌*◌, ◌≤◌, ◌<◌, ◌^◌, Ok, [], IfErr, IfOk, IfSome, length, map, option_map, string_bytes};
ghost use Rattle.vol_inspect.specs.Svg.{picture};
ghost use Rattle.vol_layout.specs.Geometry.{Fits, geometry_read};
ghost use Rattle.command_reads.specs.Map.{blocks_for, blocks_shown, cells_text, file_node, is_coloured, map_text, node_within, scale_end, scale_text, squares_text, titles_for, width_on, IsMap, IsPictureFault};

use crate::faults::unmeasured;
use command_faults::Fault;
use command_terms::Picture;
use pdp_words::Image;
use std::alloc::{AllocError, Global};
use vol_dir::{Cred, Refusal, walk};
use vol_fields::{block_roles, block_titles};
use vol_inspect::{Use, draw, node_uses, shown_uses, svg};
use vol_layout::{Edition, Geometry};
use vol_listing::Screen;

/// The greatest number of rows of letters.
const ROWS: usize = 32;

/// The number of letters in a row if the width of a terminal isn't available.
const WIDTH: usize = 64;

/// The columns of a row before its letters.
const NUMBER: usize = 8;

/// The greatest number of squares.
const SQUARES: usize = 16384;

/// Returns a drawing of the use of each block of an image, or of the blocks of the file or directory at a path. The image must keep rules 1 and 2, and
/// may be any bytes otherwise. Fails if it breaks one of these rules, if the path leads to none, or if memory ran out. Rows are as wide as the terminal;
/// colours are used only on a terminal that wants them. There are at most 32 rows of letters, or 128 rows of 128 squares, so a cell represents several
/// blocks of a large volume.
///
/// Takes the time and memory of [`block_uses`](vol_inspect::block_uses), and memory for the text.
pub(crate) fn map_text(
    alloc: Global,
    edition: Edition,
    image: &Image,
    picture: Picture,
    file: Option<&str>,
    screen: Screen,
) -> Result<String, Fault>
    ensures text { IfOk result (λ text. IsMap edition image.now screen picture (option_map (λ word. word.now) file.entry) (string_bytes text)) }
    ensures fault { IfErr result (IsPictureFault edition image.now (option_map (λ word. word.now) file.entry)) }
{
    match Geometry::read(edition, image) {
        Ok(geometry) => placed_map(alloc, edition, image, &geometry, picture, file, screen),
        Err(fault) => Err(unmeasured(fault)),
    }
}

/// Returns a drawing of an image whose geometry was read.
fn placed_map(
    alloc: Global,
    edition: Edition,
    image: &Image,
    geometry: &Geometry,
    picture: Picture,
    file: Option<&str>,
    screen: Screen,
) -> Result<String, Fault>
    requires fits { Fits geometry.now image.now }
    requires read { geometry_read edition image.now ≡ Ok geometry.now }
    ensures text { IfOk result (λ text. IsMap edition image.now screen picture (option_map (λ word. word.now) file.entry) (string_bytes text)) }
    ensures fault { IfErr result (IsPictureFault edition image.now (option_map (λ word. word.now) file.entry)) }
{
    match file_node(image, geometry, file) {
        Ok(node) => Ok(node_map(alloc, image, geometry, picture, node, screen)?),
        Err(refusal) => Err(Fault::Refused(refusal)),
    }
}

/// Returns the number of the i-node whose blocks are shown, if not all are.
fn file_node(image: &Image, geometry: &Geometry, file: Option<&str>) -> Result<Option<u16>, Refusal>
    requires { Fits geometry.now image.now }
    ensures exact { result ≡ file_node geometry.now image.now (option_map (λ word. word.now) file.entry) }
    ensures first { IfOk result (λ node. IfSome node (λ i. 1 ≤ i)) }
    ensures last { IfOk result (λ node. IfSome node (λ i. i ≤ geometry.now.last_inode)) }
{
    match file {
        None => Ok(None),
        Some(path) => node_within(geometry, walk(image, geometry, Cred::ROOT, path.as_bytes())),
    }
}

/// Returns the number that a walk led to, if the volume has such an i-node.
fn node_within(geometry: &Geometry, walked: Result<u16, Refusal>) -> Result<Option<u16>, Refusal>
    ensures exact { result ≡ node_within geometry.now walked }
    ensures first { IfOk result (λ node. IfSome node (λ i. 1 ≤ i)) }
    ensures last { IfOk result (λ node. IfSome node (λ i. i ≤ geometry.now.last_inode)) }
{
    match walked {
        Ok(number) if number == 0 || number > geometry.last_inode => Err(Refusal::NoEntry),
        Ok(number) => Ok(Some(number)),
        Err(refusal) => Err(refusal),
    }
}

/// Returns a drawing of the blocks of an i-node, or of all.
fn node_map(
    alloc: Global,
    image: &Image,
    geometry: &Geometry,
    picture: Picture,
    node: Option<u16>,
    screen: Screen,
) -> Result<String, AllocError>
    requires fits { Fits geometry.now image.now }
    requires first { IfSome node (λ i. 1 ≤ i) }
    requires last { IfSome node (λ i. i ≤ geometry.now.last_inode) }
    ensures { IfOk result (λ text. string_bytes text ≡ map_text geometry.now image.now (blocks_shown geometry.now image.now node) screen picture) }
{
    let blocks = blocks_shown(alloc, image, geometry, node)?;
    picture_of(alloc, image, geometry, &blocks, picture, screen)
}

/// Returns the blocks of a volume, of which those of an i-node are shown, or all.
fn blocks_shown(
    alloc: Global,
    image: &Image,
    geometry: &Geometry,
    node: Option<u16>,
) -> Result<Vec<Option<Use>>, AllocError>
    requires fits { Fits geometry.now image.now }
    requires first { IfSome node (λ i. 1 ≤ i) }
    requires last { IfSome node (λ i. i ≤ geometry.now.last_inode) }
    ensures { IfOk result (λ blocks. blocks.items ≡ blocks_shown geometry.now image.now node) }
{
    match node {
        None => shown_uses(alloc, image, geometry),
        Some(i) => node_uses(alloc, image, geometry, i),
    }
}

/// Returns the block map of some blocks of a volume.
fn picture_of(
    alloc: Global,
    image: &Image,
    geometry: &Geometry,
    blocks: &[Option<Use>],
    picture: Picture,
    screen: Screen,
) -> Result<String, AllocError>
    requires fits { Fits geometry.now image.now }
    requires some { 1 ≤ length blocks.now }
    requires few { length blocks.now < 2 ^ 32 }
    ensures { IfOk result (λ text. string_bytes text ≡ map_text geometry.now image.now blocks.now screen picture) }
{
    match picture {
        Picture::Cells => letters(alloc, blocks, screen),
        Picture::Svg => squares(alloc, image, geometry, blocks),
    }
}

/// Returns the block map as rows of letters.
pub(crate) fn letters(
    alloc: Global,
    blocks: &[Option<Use>],
    screen: Screen,
) -> Result<String, AllocError>
    requires some { 1 ≤ length blocks.now }
    requires few { length blocks.now < 2 ^ 32 }
    ensures { IfOk result (λ text. string_bytes text ≡ cells_text blocks.now (width_on screen) (is_coloured screen) (blocks_for (32 * width_on screen) (length blocks.now))) }
{
    let width = width_on(screen);
    let each = blocks_for(ROWS * width, blocks.len());
    let drawing = draw(alloc, blocks, each, width, is_coloured(screen))?;
    let mut text = scale_text(alloc, blocks.len(), each)?;
    text.push_str(drawing.as_str())?;
    Ok(text)
}

/// Returns the block map as squares. If each square is for one block, its tool-tip has the role of the block.
fn squares(
    alloc: Global,
    image: &Image,
    geometry: &Geometry,
    blocks: &[Option<Use>],
) -> Result<String, AllocError>
    requires fits { Fits geometry.now image.now }
    requires some { 1 ≤ length blocks.now }
    requires few { length blocks.now < 2 ^ 32 }
    ensures { IfOk result (λ text. string_bytes text ≡ squares_text geometry.now image.now blocks.now (blocks_for 16384 (length blocks.now))) }
{
    let each = blocks_for(SQUARES, blocks.len());
    let titles = titles_for(alloc, image, geometry, each)?;
    svg(alloc, blocks, &titles, each)
}

/// Returns the block map as squares without titles: a square's tool-tip has the uses of its blocks.
pub(crate) fn untitled(alloc: Global, blocks: &[Option<Use>]) -> Result<String, AllocError>
    requires some { 1 ≤ length blocks.now }
    requires few { length blocks.now < 2 ^ 32 }
    ensures { IfOk result (λ text. string_bytes text ≡ picture (blocks_for 16384 (length blocks.now)) [] blocks.now) }
{
    let each = blocks_for(SQUARES, blocks.len());
    let titles = Vec::new(alloc);
    svg(alloc, blocks, &titles, each)
}

/// Returns the titles of the blocks of a volume for a picture with `each` blocks in a square.
fn titles_for(
    alloc: Global,
    image: &Image,
    geometry: &Geometry,
    each: usize,
) -> Result<Vec<String>, AllocError>
    requires { Fits geometry.now image.now }
    ensures { IfOk result (λ titles. map string_bytes titles.items ≡ titles_for geometry.now image.now each) }
{
    if each != 1 {
        return Ok(Vec::new(alloc));
    }
    let roles = block_roles(alloc, image, geometry)?;
    block_titles(alloc, &roles)
}

/// Returns the number of blocks and of blocks per cell.
fn scale_text(alloc: Global, blocks: usize, each: usize) -> Result<String, AllocError>
    ensures { IfOk result (λ text. string_bytes text ≡ scale_text blocks each) }
{
    let end = scale_end(each);
    format!(in alloc; "{blocks} blocks, {each} in each cell{end}\n")
}

/// Returns what a cell of several blocks shows.
fn scale_end(each: usize) -> &'static str
    ensures { result.now ≡ scale_end each }
{
    if each == 1 {
        ""
    } else {
        "; a cell shows the use of most of its blocks"
    }
}

/// Returns the number of cells in a row.
fn width_on(screen: Screen) -> usize
    ensures value { result ≡ width_on screen }
    ensures some { 1 ≤ result }
    ensures few { result < 2 ^ 16 }
{
    match screen {
        Screen::Terminal { columns, .. } if columns > 0 => {
            (columns as usize).saturating_sub(NUMBER).max(1)
        }
        Screen::Terminal { .. } | Screen::Stream => WIDTH,
    }
}

/// True if cells have colours.
fn is_coloured(screen: Screen) -> bool
    ensures { result ≡ is_coloured screen }
{
    match screen {
        Screen::Terminal { colours, .. } => colours,
        Screen::Stream => false,
    }
}

/// Returns the least number of blocks per cell with which `blocks` blocks fit in `room` cells.
fn blocks_for(room: usize, blocks: usize) -> usize
    requires some { 1 ≤ room }
    requires narrow { room < 2 ^ 32 }
    requires few { blocks < 2 ^ 32 }
    ensures value { result ≡ blocks_for room blocks }
    ensures some { 1 ≤ blocks → 1 ≤ result }
    ensures few { result ≤ blocks }
{
    (blocks + (room - 1)) / room
}
