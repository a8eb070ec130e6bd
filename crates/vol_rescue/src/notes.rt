//! The notes on damaged files, for an archive with them.
ghost use Rattle.std.specs.Prelude.{◌≡◌, ◌+◌, ◌≤◌, IfOk, length};
ghost use Rattle.vol_layout.specs.Geometry.{Fits};
ghost use Rattle.vol_rescue.specs.Notes.{AreNotes, HasNotes, IsNote, is_damaged};

use pdp_words::{Bytes, Image};
use std::alloc::{AllocError, Global};
use vol_layout::Geometry;
use vol_losses::{is_node_lost, is_whole, loss_text};

/// Returns the notes for an archive that has the damaged files too: on each i-node whose block isn't lost, but of which bytes are, the text that names them. Without
/// `damaged`, or with no marks, there are no notes.
///
/// Costs [`is_whole`] for each i-node and [`loss_text`] for each that is damaged, and memory for a note on each i-node. An error: memory ran out.
pub fn notes_on(
    alloc: Global,
    image: &Image,
    geometry: &Geometry,
    lost: &[bool],
    damaged: bool,
) -> Result<Vec<Bytes>, AllocError>
    requires { Fits geometry.now image.now }
    ensures { IfOk result (λ notes. HasNotes geometry.now image.now lost.now damaged notes.items) }
{
    if lost.is_empty() || !damaged {
        return Ok(Vec::new(alloc));
    }
    let notes = all_notes(alloc, image, geometry, lost)?;
    Ok(notes)
}

/// Returns the notes on all i-nodes, each at its number.
fn all_notes(
    alloc: Global,
    image: &Image,
    geometry: &Geometry,
    lost: &[bool],
) -> Result<Vec<Bytes>, AllocError>
    requires { Fits geometry.now image.now }
    ensures notes { IfOk result (λ notes. AreNotes geometry.now image.now lost.now notes.items) }
    ensures count { IfOk result (λ notes. length notes.items ≡ geometry.now.last_inode + 1) }
{
    let mut notes = Vec::new(alloc);
    notes.push(Bytes::from_vec(Vec::new(alloc)))?;
    for before in 0..geometry.last_inode {
        notes.push(note_on(alloc, image, geometry, lost, before + 1)?)?;
    }
    Ok(notes)
}

/// Returns the note on i-node `i`, an i-number of the volume.
fn note_on(
    alloc: Global,
    image: &Image,
    geometry: &Geometry,
    lost: &[bool],
    i: u16,
) -> Result<Bytes, AllocError>
    requires fits { Fits geometry.now image.now }
    requires first { 1 ≤ i }
    requires last { i ≤ geometry.now.last_inode }
    ensures { IfOk result (λ note. IsNote geometry.now image.now lost.now i note) }
{
    if is_damaged(image, geometry, lost, i) {
        let text = loss_text(alloc, image, geometry, lost, i)?;
        return Ok(Bytes::from_vec(text));
    }
    Ok(Bytes::from_vec(Vec::new(alloc)))
}

/// True if bytes of file `i` are lost, but not its i-node.
fn is_damaged(image: &Image, geometry: &Geometry, lost: &[bool], i: u16) -> bool
    requires fits { Fits geometry.now image.now }
    requires first { 1 ≤ i }
    requires last { i ≤ geometry.now.last_inode }
    ensures { result ≡ is_damaged geometry.now image.now lost.now i }
{
    !is_node_lost(geometry, lost, i) && !is_whole(image, geometry, lost, i)
}
