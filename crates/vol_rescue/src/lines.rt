//! The lines about an image with lost blocks.
ghost use Rattle.std.specs.Prelude.{◌≡◌, ◌+◌, ◌-◌, ◌*◌, ◌<◌, ◌≤◌, ◌^◌, ◌++◌, IfOk, OnOk, codes, string_bytes};
ghost use Rattle.std.specs.List.{count_by};
ghost use Rattle.vol_layout.specs.Edition.{constants};
ghost use Rattle.vol_layout.specs.Geometry.{Fits};
ghost use Rattle.vol_rescue.specs.Lines.{AddsEntry, AreEntryLines, IsEntryLine, NamesLosses, TellsLosses, TellsNamed, blocks_line, inode_lines, inode_text, inodes_line, lost_inodes_line, named_line, reason_text, role_line, top_entry};

use crate::damage::{Damage, damage_of};
use escaped_text::push_escaped;
use pdp_words::{Bytes, Image};
use std::alloc::{AllocError, Global};
use vol_archive::{MetEntry, Reason, Role};
use vol_layout::{Edition, Geometry};
use vol_losses::{is_lost, loss_text};

/// The lines about an image with lost blocks.
#[derive(Drop)]
pub struct ToldLosses {
    /// The lines. The first names the number of lost blocks.
    pub lines: Vec<u8>,
    /// True if an i-node, an entry or the directory itself is damaged, or an entry is left out.
    pub is_short: bool,
}

/// Returns the lines about an image with lost blocks: the number of the lost blocks; a line for each block of i-nodes that is lost; and, in the order
/// of the walk, one for directory `start`, as `.`, and for each entry below it, if it is damaged or left out.
///
/// Costs [`damage_of`] and [`loss_text`] for each entry. An error: memory ran out.
pub fn tell_losses(
    alloc: Global,
    image: &Image,
    geometry: &Geometry,
    lost: &[bool],
    start: u16,
    founds: &[MetEntry],
) -> Result<ToldLosses, AllocError>
    requires { Fits geometry.now image.now }
    ensures { IfOk result (λ told. TellsLosses geometry.now image.now lost.now start founds.now told.lines.items told.is_short) }
{
    let first = blocks_line(alloc, lost)?;
    let inodes = inode_lines(alloc, geometry, lost)?;
    let top = top_line(alloc, image, geometry, lost, start)?;
    let entries = entry_lines(alloc, image, geometry, lost, founds)?;
    let is_short = !inodes.is_empty() || !top.is_empty() || !entries.is_empty();
    let mut lines = first.into_bytes();
    lines.extend_from_slice(&inodes)?;
    lines.extend_from_slice(&top)?;
    lines.extend_from_slice(&entries)?;
    Ok(ToldLosses { lines, is_short })
}

/// Returns the lines about some entries of an image with lost blocks: the number of the lost blocks, and a line for each entry that is damaged or left
/// out.
///
/// Costs [`damage_of`] and [`loss_text`] for each entry. An error: memory ran out.
pub fn tell_named(
    alloc: Global,
    image: &Image,
    geometry: &Geometry,
    lost: &[bool],
    founds: &[MetEntry],
) -> Result<ToldLosses, AllocError>
    requires { Fits geometry.now image.now }
    ensures { IfOk result (λ told. TellsNamed geometry.now image.now lost.now founds.now told.lines.items told.is_short) }
{
    let first = blocks_line(alloc, lost)?;
    let entries = entry_lines(alloc, image, geometry, lost, founds)?;
    let is_short = !entries.is_empty();
    let mut lines = first.into_bytes();
    lines.extend_from_slice(&entries)?;
    Ok(ToldLosses { lines, is_short })
}

/// Returns the line that names the number of lost blocks.
#[tactic(auto, unfolding(crate::specs::Lines::blocks_line))]
fn blocks_line(alloc: Global, lost: &[bool]) -> Result<String, AllocError>
    ensures { IfOk result (λ line. string_bytes line ≡ blocks_line lost.now) }
{
    let count = lost_count(lost);
    let blocks = lost.len();
    format!(in alloc; "unixvol: {count} of {blocks} blocks are lost\n")
}

/// Returns the number of lost blocks.
pub(crate) fn lost_count(lost: &[bool]) -> usize
    ensures { result ≡ count_by (λ mark. mark) lost.now }
{
    lost.iter().filter(|mark| **mark).count()
}

/// Returns a line for each block of i-nodes that is lost.
fn inode_lines(alloc: Global, geometry: &Geometry, lost: &[bool]) -> Result<Vec<u8>, AllocError>
    ensures { IfOk result (λ lines. lines.items ≡ inode_lines geometry.now lost.now) }
{
    let mut lines = Vec::new(alloc);
    for b in 0..geometry.zone_start.saturating_sub(2) {
        push_block(alloc, geometry, lost, b, &mut lines)?;
    }
    Ok(lines)
}

/// Appends the line of block `b` of the i-list, if it is lost.
fn push_block(
    alloc: Global,
    geometry: &Geometry,
    lost: &[bool],
    b: u32,
    lines: &mut Vec<u8>,
) -> Result<(), AllocError>
    requires { b < 2 ^ 32 - 2 }
    ensures { OnOk result (lines.new.items ≡ lines.old.items ++ lost_inodes_line geometry.now lost.now b) }
{
    if is_lost(lost, b + 2) {
        let line = inodes_line(alloc, geometry.edition, b)?;
        lines.extend_from_slice(line.as_bytes())?;
    }
    Ok(())
}

/// Returns the line of block `b` of the i-list, counted from 0.
#[tactic(auto, unfolding(crate::specs::Lines::inodes_line))]
fn inodes_line(alloc: Global, edition: Edition, b: u32) -> Result<String, AllocError>
    ensures { IfOk result (λ line. string_bytes line ≡ inodes_line edition b) }
{
    let (first, last) = inodes_in(edition, b);
    format!(in alloc; "unixvol: i-nodes {first} to {last} are lost\n")
}

/// Returns the first and the last i-number in block `b` of the i-list, counted from 0.
fn inodes_in(edition: Edition, b: u32) -> (u64, u64)
    ensures first { result.0 ≡ (constants edition).inodes_per_block * b + 1 }
    ensures last { result.1 ≡ (constants edition).inodes_per_block * b + (constants edition).inodes_per_block }
{
    let count = u64::from(edition.constants().inodes_per_block);
    let before = count * u64::from(b);
    (before + 1, before + count)
}

/// Returns the line of directory `start`, if it is damaged.
fn top_line(
    alloc: Global,
    image: &Image,
    geometry: &Geometry,
    lost: &[bool],
    start: u16,
) -> Result<Vec<u8>, AllocError>
    requires { Fits geometry.now image.now }
    ensures { IfOk result (λ line. IsEntryLine geometry.now image.now lost.now (top_entry start) line.items) }
{
    let top = MetEntry {
        path: Bytes::from_vec(Vec::from_slice(alloc, b".")?),
        inode: start,
        role: Role::Directory,
    };
    entry_line(alloc, image, geometry, lost, &top)
}

/// Returns the lines of the entries that are damaged or left out.
fn entry_lines(
    alloc: Global,
    image: &Image,
    geometry: &Geometry,
    lost: &[bool],
    founds: &[MetEntry],
) -> Result<Vec<u8>, AllocError>
    requires { Fits geometry.now image.now }
    ensures { IfOk result (λ lines. AreEntryLines geometry.now image.now lost.now founds.now lines.items) }
{
    let mut lines = Vec::new(alloc);
    'founds: for found in founds {
        push_entry(alloc, image, geometry, lost, found, &mut lines)?;
    }
    Ok(lines)
}

/// Appends the line of an entry, if it is damaged or left out.
fn push_entry(
    alloc: Global,
    image: &Image,
    geometry: &Geometry,
    lost: &[bool],
    found: &MetEntry,
    lines: &mut Vec<u8>,
) -> Result<(), AllocError>
    requires { Fits geometry.now image.now }
    ensures { OnOk result (AddsEntry geometry.now image.now lost.now found.now lines.old.items lines.new.items) }
{
    let line = entry_line(alloc, image, geometry, lost, found)?;
    lines.extend_from_slice(line.as_slice())?;
    Ok(())
}

/// Returns the line of an entry, if it is damaged or left out; else nothing.
fn entry_line(
    alloc: Global,
    image: &Image,
    geometry: &Geometry,
    lost: &[bool],
    found: &MetEntry,
) -> Result<Vec<u8>, AllocError>
    requires { Fits geometry.now image.now }
    ensures { IfOk result (λ line. IsEntryLine geometry.now image.now lost.now found.now line.items) }
{
    let path = found.path.as_slice();
    match damage_of(image, geometry, lost, found) {
        None => role_line(alloc, path, found.role),
        Some(Damage::Inode) => inode_line(alloc, path, found.inode),
        Some(Damage::Bytes) => lost_line(alloc, image, geometry, lost, found, b": "),
        Some(Damage::Names) => {
            let between = b": names may be missing: ";
            lost_line(alloc, image, geometry, lost, found, between)
        }
    }
}

/// Returns the line that names the lost bytes of an entry for an i-node of the volume.
fn lost_line(
    alloc: Global,
    image: &Image,
    geometry: &Geometry,
    lost: &[bool],
    found: &MetEntry,
    between: &[u8],
) -> Result<Vec<u8>, AllocError>
    requires fits { Fits geometry.now image.now }
    requires first { 1 ≤ found.now.inode }
    requires last { found.now.inode ≤ geometry.now.last_inode }
    ensures { IfOk result (λ line. NamesLosses geometry.now image.now lost.now found.now between.now line.items) }
{
    let text = loss_text(alloc, image, geometry, lost, found.inode)?;
    let line = named_line(alloc, found.path.as_slice(), between, text.as_slice())?;
    Ok(line)
}

/// Returns the line of an entry with this role, if it is left out; else nothing.
fn role_line(alloc: Global, path: &[u8], role: Role) -> Result<Vec<u8>, AllocError>
    ensures { IfOk result (λ line. line.items ≡ role_line path.now role) }
{
    let mut line = Vec::new(alloc);
    push_role(&mut line, path, role)?;
    Ok(line)
}

/// Appends the line of an entry with this path and role, if it is left out.
pub fn push_role(lines: &mut Vec<u8>, path: &[u8], role: Role) -> Result<(), AllocError>
    ensures { OnOk result (lines.new.items ≡ lines.old.items ++ role_line path.now role) }
{
    match role {
        Role::Left(reason) => push_named(lines, path, b": ", reason_text(reason)),
        _ => Ok(()),
    }
}

/// Returns the reason for leaving out an entry, in plain words.
fn reason_text(reason: Reason) -> &'static [u8]
    ensures { result.now ≡ reason_text reason }
{
    match reason {
        Reason::NoNode => b"no i-node",
        Reason::OddNode => b"an i-node of no known kind",
        Reason::Again => b"a directory that was met before",
        Reason::LongPath => b"a path above 4096 bytes",
        Reason::BadName => b"the name is empty or has a slash",
    }
}

/// Returns the line of an entry whose i-node is lost.
fn inode_line(alloc: Global, path: &[u8], i: u16) -> Result<Vec<u8>, AllocError>
    ensures { IfOk result (λ line. line.items ≡ named_line path.now (codes ": ") (inode_text i)) }
{
    let text = inode_text(alloc, i)?;
    named_line(alloc, path, b": ", text.as_bytes())
}

/// Returns the words for an i-node that is lost.
#[tactic(auto, unfolding(crate::specs::Lines::inode_text))]
fn inode_text(alloc: Global, i: u16) -> Result<String, AllocError>
    ensures { IfOk result (λ text. string_bytes text ≡ inode_text i) }
{
    format!(in alloc; "i-node {i} is lost")
}

/// Returns a line about a path.
fn named_line(
    alloc: Global,
    path: &[u8],
    between: &[u8],
    text: &[u8],
) -> Result<Vec<u8>, AllocError>
    ensures { IfOk result (λ line. line.items ≡ named_line path.now between.now text.now) }
{
    let mut line = Vec::new(alloc);
    push_named(&mut line, path, between, text)?;
    Ok(line)
}

/// Appends a line about a path.
#[tactic(auto, unfolding(crate::specs::Lines::named_line))]
fn push_named(
    lines: &mut Vec<u8>,
    path: &[u8],
    between: &[u8],
    text: &[u8],
) -> Result<(), AllocError>
    ensures { OnOk result (lines.new.items ≡ lines.old.items ++ named_line path.now between.now text.now) }
{
    lines.extend_from_slice(b"unixvol: ")?;
    push_escaped(lines, path)?;
    lines.extend_from_slice(between)?;
    lines.extend_from_slice(text)?;
    lines.push(b'\n')?;
    Ok(())
}
