//! `block`: shows the owners of a block.
ghost use Rattle.std.specs.Prelude.{◌≡◌, IfErr, IfOk, string_bytes};
ghost use Rattle.serde_json.specs.View.{view};
ghost use Rattle.vol_inspect.specs.OwnerTexts.{owners_text};
ghost use Rattle.command_reads.specs.Block.{IsBlockFault, IsBlockText, owners_data, owners_in, owners_json};

use crate::faults::uninspected;
use crate::json::list;
use command_faults::Fault;
use command_terms::OutputForm;
use pdp_words::Image;
use serde_json::{Value, json};
use std::alloc::{AllocError, Global};
use vol_inspect::{Owner, inspect_block, push_owners};
use vol_layout::Edition;
use vol_listing::json::{FORMAT, line};

/// Returns the owners of a block of an image in which rules 1 and 2 hold, a line each or as one JSON object.
///
/// Takes the memory of [`inspect_block`], and memory for the text.
pub(crate) fn block_text(
    alloc: Global,
    edition: Edition,
    image: &Image,
    block: u32,
    form: OutputForm,
) -> Result<String, Fault>
    ensures text { IfOk result (λ text. IsBlockText edition image.now block form (string_bytes text)) }
    ensures fault { IfErr result (λ fault. IsBlockFault edition image.now block fault) }
{
    match inspect_block(alloc, edition, image, block) {
        Ok(owners) => Ok(owners_in(alloc, block, &owners, form)?),
        Err(fault) => Err(uninspected(fault)),
    }
}

/// Returns the owners of a block in this format.
fn owners_in(
    alloc: Global,
    block: u32,
    owners: &[Owner],
    form: OutputForm,
) -> Result<String, AllocError>
    ensures { IfOk result (λ text. string_bytes text ≡ owners_in block owners.now form) }
{
    match form {
        OutputForm::Text => owners_text(alloc, block, owners),
        OutputForm::Json => owners_json(alloc, block, owners),
    }
}

/// Returns the owners of a block as JSON, on one line.
fn owners_json(alloc: Global, block: u32, owners: &[Owner]) -> Result<String, AllocError>
    ensures { IfOk result (λ text. string_bytes text ≡ owners_json block owners.now) }
{
    let value = owners_value(alloc, block, owners)?;
    line(alloc, &value)
}

/// Returns a block and its owners as a JSON value.
fn owners_value(alloc: Global, block: u32, owners: &[Owner]) -> Result<Value, AllocError>
    ensures { IfOk result (λ value. view value ≡ owners_data block owners.now) }
{
    let uses = list(alloc, owners)?;
    json!(in alloc; {"block": block, "format": FORMAT, "uses": uses})
}

/// Returns a line for each owner of a block.
fn owners_text(alloc: Global, block: u32, owners: &[Owner]) -> Result<String, AllocError>
    ensures { IfOk result (λ text. string_bytes text ≡ owners_text block owners.now) }
{
    let mut text = String::new(alloc);
    push_owners(&mut text, block, owners)?;
    Ok(text)
}
