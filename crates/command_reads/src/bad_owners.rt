//! `block` of an image with lost blocks.
ghost use Rattle.std.specs.Prelude.{◌≡◌, ◌||◌, ◌++◌, ◌∷◌, [], IfErr, IfOk, OnOk, Ok, string_bytes};
ghost use Rattle.serde_json.specs.Data.{array};
ghost use Rattle.serde_json.specs.View.{items_of, view};
ghost use Rattle.vol_layout.specs.Geometry.{Fits, geometry_read};
ghost use Rattle.command_faults.specs.Faults.{line_after, no_memory};
ghost use Rattle.command_reads.specs.BadOwners.{TellsOwners, block_sights, is_nobody, is_unknown, known_block_sights, known_data, known_in, known_json, known_lines, known_uses, unknown_data, unknown_line, unread_line};
ghost use Rattle.command_reads.specs.Print.{IsSight};

use crate::block::block_text;
use crate::export::ending_with;
use crate::faults::{uninspected, unmeasured};
use crate::json::list;
use crate::print::{Shown, plain_string};
use crate::remarks::Remarks;
use command_faults::Fault;
use command_terms::OutputForm;
use pdp_words::Image;
use serde_json::{Value, json};
use std::alloc::{AllocError, Global};
use vol_inspect::{Owner, inspect_block, push_owners};
use vol_layout::{Edition, Geometry};
use vol_listing::json::{FORMAT, line};
use vol_losses::is_lost;
use vol_rescue::tell_named;

/// Returns the owners of a block of an image of which blocks may be lost. If none is, they are those of [`block_text`]. Else a line says that the block
/// couldn't be read, if it is lost; its owners are those that are known from what is left; if there is none, a line says that its use isn't known. The
/// status is 5 with one of these two lines, else 1. Fails if the image breaks rule 1 or 2, or memory ran out.
///
/// Costs what [`inspect_block`] costs.
pub(crate) fn block_in(
    alloc: Global,
    edition: Edition,
    image: &Image,
    lost: &[bool],
    block: u32,
    form: OutputForm,
) -> Result<Shown, Fault>
    ensures { IsSight (block_sights edition image.now lost.now block form) result }
{
    if lost.is_empty() {
        return whole_block(alloc, edition, image, block, form);
    }
    known_block(alloc, edition, image, lost, block, form)
}

/// Returns the owners of a block of an image without lost blocks.
fn whole_block(
    alloc: Global,
    edition: Edition,
    image: &Image,
    block: u32,
    form: OutputForm,
) -> Result<Shown, Fault>
    ensures { IsSight (block_sights edition image.now [] block form) result }
{
    plain_string(block_text(alloc, edition, image, block, form))
}

/// Returns what is known of a block of an image with lost blocks.
fn known_block(
    alloc: Global,
    edition: Edition,
    image: &Image,
    lost: &[bool],
    block: u32,
    form: OutputForm,
) -> Result<Shown, Fault>
    ensures { IsSight (known_block_sights edition image.now lost.now block form) result }
{
    match Geometry::read(edition, image) {
        Ok(geometry) => measured_block(alloc, edition, image, &geometry, lost, block, form),
        Err(fault) => Err(unmeasured(fault)),
    }
}

/// Returns what is known of a block of an image with lost blocks, whose geometry was read.
fn measured_block(
    alloc: Global,
    edition: Edition,
    image: &Image,
    geometry: &Geometry,
    lost: &[bool],
    block: u32,
    form: OutputForm,
) -> Result<Shown, Fault>
    requires fits { Fits geometry.now image.now }
    requires read { geometry_read edition image.now ≡ Ok geometry.now }
    ensures { IsSight (known_block_sights edition image.now lost.now block form) result }
{
    match inspect_block(alloc, edition, image, block) {
        Ok(owners) => owned_block(alloc, image, geometry, lost, block, &owners, form),
        Err(fault) => Err(uninspected(fault)),
    }
}

/// Returns what is known of a block with these owners, by what is left.
fn owned_block(
    alloc: Global,
    image: &Image,
    geometry: &Geometry,
    lost: &[bool],
    block: u32,
    owners: &[Owner],
    form: OutputForm,
) -> Result<Shown, Fault>
    requires { Fits geometry.now image.now }
    ensures shown { IfOk result (λ shown. TellsOwners geometry.now image.now lost.now block form owners.now shown.text.items shown.ending.status
        (line_after shown.ending.fault)) }
    ensures fault { IfErr result (λ fault. fault ≡ no_memory) }
{
    let unread = is_lost(lost, block);
    let text = known_in(alloc, block, unread, owners, form)?;
    let told = tell_named(alloc, image, geometry, lost, &[])?;
    let remarks = Remarks {
        rule: None,
        lines: told.lines,
        is_short: is_unsure(unread, owners),
    };
    let ending = ending_with(true, remarks);
    Ok(Shown {
        text: text.into_bytes(),
        ending,
    })
}

/// True if a block with these owners, by what is left, couldn't be read, or its use isn't known.
fn is_unsure(unread: bool, owners: &[Owner]) -> bool
    ensures { result ≡ (unread || is_unknown owners.now) }
{
    unread || is_unknown(owners)
}

/// True if the use of a block with these owners, by what is left, isn't known.
fn is_unknown(owners: &[Owner]) -> bool
    ensures { result ≡ is_unknown owners.now }
{
    owners.iter().any(|owner| is_nobody(*owner))
}

/// True if this says that nothing uses a data block.
fn is_nobody(owner: Owner) -> bool
    ensures { result ≡ is_nobody owner }
{
    match owner {
        Owner::Lost => true,
        _ => false,
    }
}

/// Returns what is known of a block in this format.
fn known_in(
    alloc: Global,
    block: u32,
    unread: bool,
    owners: &[Owner],
    form: OutputForm,
) -> Result<String, AllocError>
    ensures { IfOk result (λ text. string_bytes text ≡ known_in block unread owners.now form) }
{
    match form {
        OutputForm::Text => known_lines(alloc, block, unread, owners),
        OutputForm::Json => known_json(alloc, block, unread, owners),
    }
}

/// Returns the line of a block, if it couldn't be read, and the lines of its owners that are known.
fn known_lines(
    alloc: Global,
    block: u32,
    unread: bool,
    owners: &[Owner],
) -> Result<String, AllocError>
    ensures { IfOk result (λ text. string_bytes text ≡ unread_line block unread ++ known_lines block owners.now) }
{
    let mut text = unread_line(alloc, block, unread)?;
    push_known(&mut text, block, owners)?;
    Ok(text)
}

/// Returns the line of a block, if it couldn't be read; else nothing.
#[tactic(auto, unfolding(crate::specs::BadOwners::unread_line))]
fn unread_line(alloc: Global, block: u32, unread: bool) -> Result<String, AllocError>
    ensures { IfOk result (λ text. string_bytes text ≡ unread_line block unread) }
{
    if unread {
        format!(in alloc; "block {block}: unreadable\n")
    } else {
        Ok(String::new(alloc))
    }
}

/// Appends the lines of the owners of a block that are known, or the line that none is.
fn push_known(text: &mut String, block: u32, owners: &[Owner]) -> Result<(), AllocError>
    ensures { OnOk result (string_bytes text.new ≡ string_bytes text.old ++ known_lines block owners.now) }
{
    if is_unknown(owners) {
        push_unknown(text, block)
    } else {
        push_owners(text, block, owners)
    }
}

/// Appends the line of a block that nothing uses by what is left.
#[tactic(auto, unfolding(crate::specs::BadOwners::unknown_line))]
fn push_unknown(text: &mut String, block: u32) -> Result<(), AllocError>
    ensures { OnOk result (string_bytes text.new ≡ string_bytes text.old ++ unknown_line block) }
{
    write!(
        text,
        "block {block}: use unknown, nothing that is left uses it\n"
    )
}

/// Returns what is known of a block as JSON, on one line.
fn known_json(
    alloc: Global,
    block: u32,
    unread: bool,
    owners: &[Owner],
) -> Result<String, AllocError>
    ensures { IfOk result (λ text. string_bytes text ≡ known_json block unread owners.now) }
{
    let value = known_value(alloc, block, unread, owners)?;
    line(alloc, &value)
}

/// Returns what is known of a block as a JSON value.
fn known_value(
    alloc: Global,
    block: u32,
    unread: bool,
    owners: &[Owner],
) -> Result<Value, AllocError>
    ensures { IfOk result (λ value. view value ≡ known_data block unread owners.now) }
{
    let uses = known_uses(alloc, owners)?;
    json!(in alloc; {"block": block, "format": FORMAT, "unreadable": unread, "uses": uses})
}

/// Returns the owners of a block that are known as a JSON value, or one use that isn't known.
fn known_uses(alloc: Global, owners: &[Owner]) -> Result<Value, AllocError>
    ensures { IfOk result (λ value. view value ≡ known_uses owners.now) }
{
    if is_unknown(owners) {
        unknown_uses(alloc)
    } else {
        list(alloc, owners)
    }
}

/// Returns a list of one use that isn't known as a JSON value.
fn unknown_uses(alloc: Global) -> Result<Value, AllocError>
    ensures { IfOk result (λ value. view value ≡ array (items_of (unknown_data ∷ []))) }
{
    let one = unknown_value(alloc)?;
    let mut uses = Vec::new(alloc);
    uses.push(one)?;
    Ok(Value::Array(uses))
}

/// Returns the use of a block that isn't known as a JSON value.
fn unknown_value(alloc: Global) -> Result<Value, AllocError>
    ensures { IfOk result (λ value. view value ≡ unknown_data) }
{
    json!(in alloc; {"use": "unknown"})
}
