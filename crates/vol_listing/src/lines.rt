//! The lines of a listing.
ghost use Rattle.std.specs.Prelude.{◌≡◌, ◌++◌, IfOk, OnOk};
ghost use Rattle.std.specs.List.{flat_map};
ghost use Rattle.vol_dir.specs.Tree.{tree};
ghost use Rattle.vol_layout.specs.Geometry.{Fits};
ghost use Rattle.vol_listing.specs.Lines.{entry_line};
ghost use Rattle.vol_listing.specs.LongLines.{long_line};
ghost use Rattle.vol_listing.specs.Lines.{shown, line_of, names_text, section_text, other_text, lines_text};

use crate::directories::{names, opens};
use crate::long_lines::{padded, push_columns};
use crate::options::{Depth, Screen};
use crate::places::ListedNode;
use crate::rows::{Row, row_at};
use escaped_text::push_escaped;
use pdp_words::Image;
use std::alloc::{AllocError, Global};
use vol_layout::Geometry;
use vol_volume::Bytes;

/// The format of lines.
#[derive(Clone, Copy)]
pub(crate) struct Style {
    /// True for long lines, with the i-node's attributes.
    pub(crate) is_long: bool,
    /// The destination of the output.
    pub(crate) screen: Screen,
}

/// Returns the lines of a directory's names; if its subdirectories are to be listed too, also the lines of their names, each directory under its path
/// and after an empty line. Anything else, or a directory that is listed itself, has one line.
pub(crate) fn lines_text(
    alloc: Global,
    image: &Image,
    geometry: &Geometry,
    style: Style,
    depth: Depth,
    place: &ListedNode,
    places: &[ListedNode],
) -> Result<Vec<u8>, AllocError>
    requires { Fits geometry.now image.now }
    ensures { IfOk result (λ text. text.items ≡ lines_text style (tree geometry.now image.now) depth place.now places.now) }
{
    let path = place.path.as_slice();
    let mut text = Vec::new(alloc);
    if !opens(image, geometry, depth, place.inode) {
        push_line(image, geometry, style, path, place.inode, &mut text)?;
    } else if depth.goes_below() {
        push_section(alloc, image, geometry, style, place, &mut text)?;
        push_others(alloc, image, geometry, style, places, &mut text)?;
    } else {
        push_names(alloc, image, geometry, style, path, &mut text)?;
    }
    Ok(text)
}

/// Appends directories, each under its path and after an empty line.
fn push_others(
    alloc: Global,
    image: &Image,
    geometry: &Geometry,
    style: Style,
    places: &[ListedNode],
    text: &mut Vec<u8>,
) -> Result<(), AllocError>
    requires { Fits geometry.now image.now }
    ensures { OnOk result (text.new.items ≡ text.old.items ++ flat_map (other_text style (tree geometry.now image.now)) places.now) }
{
    'places: for place in places {
        push_other(alloc, image, geometry, style, place, text)?;
    }
    Ok(())
}

/// Appends a directory under its path and after an empty line.
fn push_other(
    alloc: Global,
    image: &Image,
    geometry: &Geometry,
    style: Style,
    place: &ListedNode,
    text: &mut Vec<u8>,
) -> Result<(), AllocError>
    requires { Fits geometry.now image.now }
    ensures { OnOk result (text.new.items ≡ text.old.items ++ other_text style (tree geometry.now image.now) place.now) }
{
    text.push(b'\n')?;
    push_section(alloc, image, geometry, style, place, text)?;
    Ok(())
}

/// Appends a directory under its path.
fn push_section(
    alloc: Global,
    image: &Image,
    geometry: &Geometry,
    style: Style,
    place: &ListedNode,
    text: &mut Vec<u8>,
) -> Result<(), AllocError>
    requires { Fits geometry.now image.now }
    ensures { OnOk result (text.new.items ≡ text.old.items ++ section_text style (tree geometry.now image.now) place.now) }
{
    let path = place.path.as_slice();
    push_shown(style.screen, path, text)?;
    text.extend_from_slice(b":\n")?;
    push_names(alloc, image, geometry, style, path, text)?;
    Ok(())
}

/// Appends the lines of the names of a directory.
#[tactic(auto, unfolding(crate::specs::Lines::names_text))]
fn push_names(
    alloc: Global,
    image: &Image,
    geometry: &Geometry,
    style: Style,
    path: &[u8],
    text: &mut Vec<u8>,
) -> Result<(), AllocError>
    requires { Fits geometry.now image.now }
    ensures { OnOk result (text.new.items ≡ text.old.items ++ names_text style (tree geometry.now image.now) path.now) }
{
    let names = names(alloc, image, geometry, path)?;
    push_lines(image, geometry, style, &names, text)?;
    Ok(())
}

/// Appends the lines of names, in the same order.
fn push_lines(
    image: &Image,
    geometry: &Geometry,
    style: Style,
    names: &[(Bytes, u16)],
    text: &mut Vec<u8>,
) -> Result<(), AllocError>
    requires { Fits geometry.now image.now }
    ensures { OnOk result (text.new.items ≡ text.old.items ++ flat_map (line_of style (tree geometry.now image.now)) names.now) }
{
    'names: for (name, number) in names {
        push_line(image, geometry, style, name.as_slice(), *number, text)?;
    }
    Ok(())
}

/// Appends the line of a name and its i-number.
fn push_line(
    image: &Image,
    geometry: &Geometry,
    style: Style,
    name: &[u8],
    number: u16,
    text: &mut Vec<u8>,
) -> Result<(), AllocError>
    requires { Fits geometry.now image.now }
    ensures { OnOk result (text.new.items ≡ text.old.items ++ line_of style (tree geometry.now image.now) (name.now, number)) }
{
    if style.is_long {
        let row = row_at(image, geometry, number);
        push_long_line(style.screen, row, name, text)
    } else {
        push_plain_line(style.screen, number, name, text)
    }
}

/// Appends the short line of a name: its i-number and the name.
fn push_plain_line(
    screen: Screen,
    number: u16,
    name: &[u8],
    text: &mut Vec<u8>,
) -> Result<(), AllocError>
    ensures { OnOk result (text.new.items ≡ text.old.items ++ entry_line (shown screen name.now, number)) }
{
    text.extend_from_slice(&padded(number))?;
    text.push(b' ')?;
    push_shown(screen, name, text)?;
    text.push(b'\n')?;
    Ok(())
}

/// Appends the long line of a name, with its node's attributes.
#[tactic(auto, unfolding(crate::specs::LongLines::long_line))]
fn push_long_line(
    screen: Screen,
    row: Row,
    name: &[u8],
    text: &mut Vec<u8>,
) -> Result<(), AllocError>
    ensures { OnOk result (text.new.items ≡ text.old.items ++ long_line row (shown screen name.now)) }
{
    push_columns(text, row)?;
    push_shown(screen, name, text)?;
    text.push(b'\n')?;
    Ok(())
}

/// Appends a name or a path as it is shown: escaped on a terminal, otherwise unchanged.
pub fn push_shown(screen: Screen, name: &[u8], text: &mut Vec<u8>) -> Result<(), AllocError>
    ensures { OnOk result (text.new.items ≡ text.old.items ++ shown screen name.now) }
{
    match screen {
        Screen::Terminal { .. } => push_escaped(text, name),
        Screen::Stream => Ok(text.extend_from_slice(name)?),
    }
}
