//! `map` of an image with lost blocks.
ghost use Rattle.std.specs.Prelude.{◌≡◌, ◌==◌, ◌≤◌, ◌<◌, ◌^◌, [], if◌then◌else◌, true, Ok, IfOk, length, slice_index_or, string_bytes};
ghost use Rattle.vol_archive.specs.Write.{Writes};
ghost use Rattle.vol_layout.specs.Geometry.{Fits, geometry_read};
ghost use Rattle.command_faults.specs.Faults.{line_after};
ghost use Rattle.command_faults.specs.Streams.{streams};
ghost use Rattle.command_reads.specs.BadUses.{IsCountLine, known_as, known_map_sights, known_picture, known_uses, known_uses_json, known_uses_sights, map_sights, or_unknown, uses_sights, uses_text};
ghost use Rattle.command_reads.specs.Export.{told_status};
ghost use Rattle.command_reads.specs.MapJson.{runs};
ghost use Rattle.command_reads.specs.Print.{IsSight, ShowsInPieces};

use crate::export::ending_with;
use crate::faults::unmeasured;
use crate::map::{letters, map_text, untitled};
use crate::map_json::{UseRun, put_runs, runs, show_uses};
use crate::print::{Shown, ended_after, plain_string};
use crate::remarks::Remarks;
use command_faults::{Ending, Fault};
use command_terms::Picture;
use pdp_words::{Image, Sink};
use std::alloc::{AllocError, Global};
use vol_archive::WriteFault;
use vol_dir::Refusal;
use vol_inspect::{Use, all_shown, block_uses};
use vol_layout::{Edition, Geometry};
use vol_listing::Screen;
use vol_losses::is_lost;
use vol_rescue::tell_named;

/// Returns the block map of an image of which blocks may be lost. If none is, it is that of [`map_text`] for all blocks. Else a lost block is shown as
/// unreadable, and one that nothing that is left uses as unknown; a line has the number of lost blocks, and the status is 5. Fails if the image breaks rule 1
/// or 2, or memory ran out.
///
/// Costs what [`map_text`] costs.
pub(crate) fn map_in(
    alloc: Global,
    edition: Edition,
    image: &Image,
    lost: &[bool],
    picture: Picture,
    screen: Screen,
) -> Result<Shown, Fault>
    ensures { IsSight (map_sights edition image.now lost.now screen picture) result }
{
    if lost.is_empty() {
        return whole_map(alloc, edition, image, picture, screen);
    }
    known_map(alloc, edition, image, lost, picture, screen)
}

/// Returns the block map of an image without lost blocks.
fn whole_map(
    alloc: Global,
    edition: Edition,
    image: &Image,
    picture: Picture,
    screen: Screen,
) -> Result<Shown, Fault>
    ensures { IsSight (map_sights edition image.now [] screen picture) result }
{
    plain_string(map_text(alloc, edition, image, picture, None, screen))
}

/// Returns the block map of an image with lost blocks.
fn known_map(
    alloc: Global,
    edition: Edition,
    image: &Image,
    lost: &[bool],
    picture: Picture,
    screen: Screen,
) -> Result<Shown, Fault>
    ensures { IsSight (known_map_sights edition image.now lost.now screen picture) result }
{
    match Geometry::read(edition, image) {
        Ok(geometry) => Ok(measured_map(alloc, image, &geometry, lost, picture, screen)?),
        Err(fault) => Err(unmeasured(fault)),
    }
}

/// Returns the block map of an image with lost blocks, whose geometry was read.
fn measured_map(
    alloc: Global,
    image: &Image,
    geometry: &Geometry,
    lost: &[bool],
    picture: Picture,
    screen: Screen,
) -> Result<Shown, AllocError>
    requires { Fits geometry.now image.now }
    ensures text { IfOk result (λ shown. shown.text.items ≡ known_picture geometry.now image.now lost.now screen picture) }
    ensures line { IfOk result (λ shown. IsCountLine geometry.now image.now lost.now (line_after shown.ending.fault)) }
    ensures status { IfOk result (λ shown. shown.ending.status ≡ (if length (line_after shown.ending.fault) == 0 then 0 else told_status true true)) }
{
    let text = known_picture(alloc, image, geometry, lost, picture, screen)?;
    let ending = lost_ending(alloc, image, geometry, lost)?;
    Ok(Shown {
        text: text.into_bytes(),
        ending,
    })
}

/// Returns the ending of a command that has shown all blocks of an image with lost blocks: status 5, and the line with their number.
fn lost_ending(
    alloc: Global,
    image: &Image,
    geometry: &Geometry,
    lost: &[bool],
) -> Result<Ending, AllocError>
    requires { Fits geometry.now image.now }
    ensures line { IfOk result (λ ending. IsCountLine geometry.now image.now lost.now (line_after ending.fault)) }
    ensures status { IfOk result (λ ending. ending.status ≡ (if length (line_after ending.fault) == 0 then 0 else told_status true true)) }
{
    let told = tell_named(alloc, image, geometry, lost, &[])?;
    let remarks = Remarks {
        rule: None,
        lines: told.lines,
        is_short: true,
    };
    Ok(ending_with(true, remarks))
}

/// Returns a picture of what is known of the use of each block.
fn known_picture(
    alloc: Global,
    image: &Image,
    geometry: &Geometry,
    lost: &[bool],
    picture: Picture,
    screen: Screen,
) -> Result<String, AllocError>
    requires { Fits geometry.now image.now }
    ensures { IfOk result (λ text. string_bytes text ≡ known_picture geometry.now image.now lost.now screen picture) }
{
    let uses = known_uses(alloc, image, geometry, lost)?;
    let blocks = all_shown(alloc, &uses)?;
    uses_text(alloc, &blocks, picture, screen)
}

/// Returns a picture of blocks with these uses.
fn uses_text(
    alloc: Global,
    blocks: &[Option<Use>],
    picture: Picture,
    screen: Screen,
) -> Result<String, AllocError>
    requires some { 1 ≤ length blocks.now }
    requires few { length blocks.now < 2 ^ 32 }
    ensures { IfOk result (λ text. string_bytes text ≡ uses_text blocks.now screen picture) }
{
    match picture {
        Picture::Cells => letters(alloc, blocks, screen),
        Picture::Svg => untitled(alloc, blocks),
    }
}

/// Returns what is known of the use of each block.
fn known_uses(
    alloc: Global,
    image: &Image,
    geometry: &Geometry,
    lost: &[bool],
) -> Result<Vec<Use>, AllocError>
    requires { Fits geometry.now image.now }
    ensures { IfOk result (λ known. known.items ≡ known_uses geometry.now image.now lost.now) }
{
    let uses = block_uses(alloc, image, geometry)?;
    let mut known = Vec::new(alloc);
    for b in 0..geometry.zone_end {
        let usage = use_at(&uses, b);
        known.push(known_as(is_lost(lost, b), usage))?;
    }
    Ok(known)
}

/// Returns the use of block `b`.
fn use_at(uses: &[Use], b: u32) -> Use
    requires { b < length uses.now }
    ensures { result ≡ slice_index_or uses.now b Use.Boot }
{
    uses[b as usize]
}

/// Returns what is known of the use of a block, given whether it is lost, and its use by what is left.
fn known_as(unread: bool, usage: Use) -> Use
    ensures { result ≡ known_as unread usage }
{
    if unread {
        Use::Unreadable
    } else {
        or_unknown(usage)
    }
}

/// Returns the use of a block, given its use by what is left: it isn't known if nothing that is left uses the block.
fn or_unknown(usage: Use) -> Use
    ensures { result ≡ or_unknown usage }
{
    match usage {
        Use::Lost => Use::Unknown,
        known => known,
    }
}

/// Shows the use of each block of an image of which blocks may be lost as one JSON object. If none is, it is that of [`show_uses`]. Else a lost block is
/// unreadable, and one that nothing that is left uses is unknown; a line has the number of lost blocks, and the status is 5.
///
/// Costs what [`show_uses`] costs.
pub(crate) fn show_uses_in<O: Sink>(
    alloc: Global,
    edition: Edition,
    image: &Image,
    lost: &[bool],
    output: &mut O,
) -> Ending
    ensures { ShowsInPieces (uses_sights edition image.now lost.now) (streams O.contents O.failed output.old output.new result.fault) result.status }
{
    if lost.is_empty() {
        return show_uses(alloc, edition, image, output);
    }
    show_known(alloc, edition, image, lost, output)
}

/// Shows the use of each block of an image with lost blocks.
#[tactic(auto, using(crate::proofs::Printed::kept_same))]
fn show_known<O: Sink>(
    alloc: Global,
    edition: Edition,
    image: &Image,
    lost: &[bool],
    output: &mut O,
) -> Ending
    ensures { ShowsInPieces (known_uses_sights edition image.now lost.now) (streams O.contents O.failed output.old output.new result.fault) result.status }
{
    match Geometry::read(edition, image) {
        Ok(geometry) => put_measured(alloc, edition, image, &geometry, lost, output),
        Err(fault) => Ending::from(unmeasured(fault)),
    }
}

/// Shows the use of each block of an image with lost blocks, whose geometry was read.
#[tactic(auto, using(crate::proofs::Printed::kept_same))]
fn put_measured<O: Sink>(
    alloc: Global,
    edition: Edition,
    image: &Image,
    geometry: &Geometry,
    lost: &[bool],
    output: &mut O,
) -> Ending
    requires fits { Fits geometry.now image.now }
    requires read { geometry_read edition image.now ≡ Ok geometry.now }
    ensures { ShowsInPieces (known_uses_sights edition image.now lost.now) (streams O.contents O.failed output.old output.new result.fault) result.status }
{
    match lost_ending(alloc, image, geometry, lost) {
        Ok(ending) => ended_after(put_known(alloc, image, geometry, lost, output), ending),
        Err(_) => Ending::from(Fault::Refused(Refusal::NoMemory)),
    }
}

/// Writes what is known of the use of each block.
fn put_known<O: Sink>(
    alloc: Global,
    image: &Image,
    geometry: &Geometry,
    lost: &[bool],
    output: &mut O,
) -> Result<(), WriteFault>
    requires { Fits geometry.now image.now }
    ensures { Writes (O.contents output.old) (O.contents output.new) (O.failed output.old) (O.failed output.new)
        (known_uses_json geometry.now image.now lost.now) result }
{
    let runs = known_runs(alloc, image, geometry, lost)?;
    put_runs(alloc, &runs, output)
}

/// Returns the runs of blocks of which the same is known.
fn known_runs(
    alloc: Global,
    image: &Image,
    geometry: &Geometry,
    lost: &[bool],
) -> Result<Vec<UseRun>, AllocError>
    requires { Fits geometry.now image.now }
    ensures { IfOk result (λ found. found.items ≡ runs (known_uses geometry.now image.now lost.now)) }
{
    let uses = known_uses(alloc, image, geometry, lost)?;
    runs(alloc, &uses)
}
