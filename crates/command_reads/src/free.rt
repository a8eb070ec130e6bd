//! `free`: shows the chain of the free list.
ghost use Rattle.std.specs.Prelude.{◌≡◌, IfErr, IfOk, string_bytes};
ghost use Rattle.serde_json.specs.View.{view};
ghost use Rattle.command_reads.specs.Free.{chain_data, chain_in, chain_json, IsChainFault, IsChainText};

use crate::faults::uninspected;
use crate::json::list;
use crate::super_block::fault_value;
use command_faults::Fault;
use command_terms::OutputForm;
use pdp_words::Image;
use serde_json::{Value, json};
use std::alloc::{AllocError, Global};
use vol_inspect::{ChainReport, inspect_chain};
use vol_layout::Edition;
use vol_listing::json::{FORMAT, line};

/// Returns the chain of the free list of an image in which rules 1 and 2 hold, link by link, in this format.
///
/// Takes the memory of [`inspect_chain`], and memory for the text.
pub(crate) fn free_text(
    alloc: Global,
    edition: Edition,
    image: &Image,
    form: OutputForm,
) -> Result<String, Fault>
    ensures text { IfOk result (λ text. IsChainText edition image.now form (string_bytes text)) }
    ensures fault { IfErr result (λ fault. IsChainFault edition image.now fault) }
{
    match inspect_chain(alloc, edition, image) {
        Ok(report) => Ok(chain_in(alloc, &report, form)?),
        Err(fault) => Err(uninspected(fault)),
    }
}

/// Returns the report on the chain in this format.
fn chain_in(alloc: Global, report: &ChainReport, form: OutputForm) -> Result<String, AllocError>
    ensures { IfOk result (λ text. string_bytes text ≡ chain_in report.now form) }
{
    match form {
        OutputForm::Json => chain_json(alloc, report),
        OutputForm::Text => {
            let mut text = String::new(alloc);
            report.push_text(&mut text)?;
            Ok(text)
        }
    }
}

/// Returns the chain as JSON, on one line.
fn chain_json(alloc: Global, report: &ChainReport) -> Result<String, AllocError>
    ensures { IfOk result (λ text. string_bytes text ≡ chain_json report.now) }
{
    let value = chain_value(alloc, report)?;
    line(alloc, &value)
}

/// Returns the chain as a JSON value.
fn chain_value(alloc: Global, report: &ChainReport) -> Result<Value, AllocError>
    ensures { IfOk result (λ value. view value ≡ chain_data report.now) }
{
    let fault = fault_value(alloc, report.fault)?;
    let chain = list(alloc, &report.links)?;
    json!(in alloc; {
        "chain": chain,
        "format": FORMAT,
        "free_blocks": report.free_blocks,
        "free_fault": fault
    })
}
