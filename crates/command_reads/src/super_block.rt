//! `super` and `df`: show the super-block, or the space of the volume.
ghost use Rattle.std.specs.Prelude.{◌≡◌, ◌≤◌, ◌++◌, IfErr, IfOk, OnOk, string_bytes};
ghost use Rattle.serde_json.specs.View.{members_view, view};
ghost use Rattle.command_reads.specs.SuperBlock.{fault_data, part_data, part_text, space_data, super_data, super_in, with_sizes, with_flags, with_free, with_cache, IsSuperText, IsSuperFault};

use crate::faults::uninspected;
use crate::json::list;
use command_faults::Fault;
use command_terms::OutputForm;
use pdp_words::Image;
use serde_json::{Map, Value, json, put};
use std::alloc::{AllocError, Global};
use vol_free::FreeFault;
use vol_inspect::{SuperReport, in_use, inspect_super};
use vol_layout::Edition;
use vol_listing::json::{FORMAT, line, put_count};

/// The part of the report on a super-block that a command shows.
#[derive(Clone, Copy)]
pub(crate) enum SuperPart {
    /// The fields, and the totals.
    Fields,
    /// The space of the volume.
    Space,
}

/// Returns part of the report on the super-block of an image in which rules 1 and 2 hold, in this format.
///
/// Takes the memory of [`inspect_super`], and memory for the text.
pub(crate) fn super_text(
    alloc: Global,
    edition: Edition,
    image: &Image,
    part: SuperPart,
    form: OutputForm,
) -> Result<String, Fault>
    ensures text { IfOk result (λ text. IsSuperText edition image.now part form (string_bytes text)) }
    ensures fault { IfErr result (λ fault. IsSuperFault edition image.now fault) }
{
    match inspect_super(alloc, edition, image) {
        Ok(report) => Ok(super_in(alloc, &report, part, form)?),
        Err(fault) => Err(uninspected(fault)),
    }
}

/// Returns part of the report on the super-block in this format.
fn super_in(
    alloc: Global,
    report: &SuperReport,
    part: SuperPart,
    form: OutputForm,
) -> Result<String, AllocError>
    requires { report.now.geometry.zone_start ≤ report.now.geometry.zone_end }
    ensures { IfOk result (λ text. string_bytes text ≡ super_in report.now part form) }
{
    match form {
        OutputForm::Json => {
            let value = part_value(alloc, report, part)?;
            line(alloc, &value)
        }
        OutputForm::Text => {
            let mut text = String::new(alloc);
            push_part(report, part, &mut text)?;
            Ok(text)
        }
    }
}

/// Appends the text of part of the report on the super-block.
fn push_part(report: &SuperReport, part: SuperPart, text: &mut String) -> Result<(), AllocError>
    requires { report.now.geometry.zone_start ≤ report.now.geometry.zone_end }
    ensures { OnOk result (string_bytes text.new ≡ string_bytes text.old ++ part_text part report.now) }
{
    match part {
        SuperPart::Fields => report.push_text(text),
        SuperPart::Space => report.push_space(text),
    }
}

/// Returns part of the report on the super-block as a JSON value.
fn part_value(alloc: Global, report: &SuperReport, part: SuperPart) -> Result<Value, AllocError>
    requires { report.now.geometry.zone_start ≤ report.now.geometry.zone_end }
    ensures { IfOk result (λ value. view value ≡ part_data part report.now) }
{
    match part {
        SuperPart::Fields => super_value(alloc, report),
        SuperPart::Space => space_value(alloc, report),
    }
}

/// Returns the space of the volume as a JSON value.
#[tactic(auto, unfolding(crate::specs::SuperBlock::space_data))]
fn space_value(alloc: Global, report: &SuperReport) -> Result<Value, AllocError>
    requires { report.now.geometry.zone_start ≤ report.now.geometry.zone_end }
    ensures { IfOk result (λ value. view value ≡ space_data report.now) }
{
    let fault = fault_value(alloc, report.fault)?;
    let blocks = report.geometry.zone_end as u64;
    let data_blocks = (report.geometry.zone_end - report.geometry.zone_start) as u64;
    let free_blocks = report.free_blocks as u64;
    let inodes = report.geometry.last_inode as u64;
    let free_inodes = report.free_inodes as u64;
    let used_blocks = in_use(blocks, free_blocks);
    let used_data_blocks = in_use(data_blocks, free_blocks);
    let used_inodes = in_use(inodes, free_inodes);
    json!(in alloc; {
        "blocks": blocks,
        "data_blocks": data_blocks,
        "format": FORMAT,
        "free_blocks": free_blocks,
        "free_fault": fault,
        "free_inodes": free_inodes,
        "inodes": inodes,
        "used_blocks": used_blocks,
        "used_data_blocks": used_data_blocks,
        "used_inodes": used_inodes
    })
}

/// Returns the super-block as a JSON value.
fn super_value(alloc: Global, report: &SuperReport) -> Result<Value, AllocError>
    requires { report.now.geometry.zone_start ≤ report.now.geometry.zone_end }
    ensures { IfOk result (λ value. view value ≡ super_data report.now) }
{
    let mut object = Map::new(alloc);
    put_sizes(alloc, report, &mut object)?;
    put_flags(alloc, report, &mut object)?;
    put_free(alloc, report, &mut object)?;
    put_cache(alloc, report, &mut object)?;
    Ok(Value::Object(object))
}

/// Puts the number of the format, the sizes of a volume, and its time into an object.
#[tactic(auto, unfolding(crate::specs::SuperBlock::with_sizes))]
fn put_sizes(
    alloc: Global,
    report: &SuperReport,
    object: &mut Map<String, Value>,
) -> Result<(), AllocError>
    requires { report.now.geometry.zone_start ≤ report.now.geometry.zone_end }
    ensures { OnOk result (members_view object.new.entries ≡ with_sizes report.now (members_view object.old.entries)) }
{
    let blocks = report.geometry.zone_end - report.geometry.zone_start;
    put_count(alloc, object, "format", FORMAT)?;
    put_count(alloc, object, "isize", u64::from(report.list_size))?;
    put_count(alloc, object, "fsize", u64::from(report.block_count))?;
    put_count(alloc, object, "data_blocks", u64::from(blocks))?;
    put_count(
        alloc,
        object,
        "inodes",
        u64::from(report.geometry.last_inode),
    )?;
    put_count(alloc, object, "time", u64::from(report.time))
}

/// Puts the flags of a super-block into an object.
#[tactic(auto, unfolding(crate::specs::SuperBlock::with_flags))]
fn put_flags(
    alloc: Global,
    report: &SuperReport,
    object: &mut Map<String, Value>,
) -> Result<(), AllocError>
    ensures { OnOk result (members_view object.new.entries ≡ with_flags report.now (members_view object.old.entries)) }
{
    put_count(alloc, object, "flock", u64::from(report.flags[0]))?;
    put_count(alloc, object, "ilock", u64::from(report.flags[1]))?;
    put_count(alloc, object, "fmod", u64::from(report.flags[2]))?;
    put_count(alloc, object, "ronly", u64::from(report.flags[3]))
}

/// Puts the free list into an object; the numbers in the array are in the super-block's order.
#[tactic(auto, unfolding(crate::specs::SuperBlock::with_free))]
fn put_free(
    alloc: Global,
    report: &SuperReport,
    object: &mut Map<String, Value>,
) -> Result<(), AllocError>
    ensures { OnOk result (members_view object.new.entries ≡ with_free report.now (members_view object.old.entries)) }
{
    let free = list(alloc, &report.free)?;
    let fault = fault_value(alloc, report.fault)?;
    put_count(alloc, object, "nfree", u64::from(report.free_count))?;
    put(object, alloc, "free", free)?;
    put_count(alloc, object, "free_blocks", report.free_blocks as u64)?;
    put(object, alloc, "free_fault", fault)
}

/// Puts the i-number cache and the number of free i-nodes into an object.
#[tactic(auto, unfolding(crate::specs::SuperBlock::with_cache))]
fn put_cache(
    alloc: Global,
    report: &SuperReport,
    object: &mut Map<String, Value>,
) -> Result<(), AllocError>
    ensures { OnOk result (members_view object.new.entries ≡ with_cache report.now (members_view object.old.entries)) }
{
    let cache = list(alloc, &report.cache)?;
    put_count(alloc, object, "ninode", u64::from(report.cache_count))?;
    put(object, alloc, "cache", cache)?;
    put_count(alloc, object, "free_inodes", u64::from(report.free_inodes))
}

/// Returns the fault that ended the walk over the free list as a JSON value.
pub(crate) fn fault_value(
    alloc: Global,
    fault: Option<(FreeFault, u32)>,
) -> Result<Value, AllocError>
    ensures { IfOk result (λ value. view value ≡ fault_data fault) }
{
    match fault {
        None => Ok(Value::Null),
        Some((fault, number)) => {
            let word = fault.word();
            json!(in alloc; {"fault": word, "number": number})
        }
    }
}
