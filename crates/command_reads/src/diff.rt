//! `diff --fields`: shows the fields in which two images differ.
ghost use Rattle.std.specs.Prelude.{◌≡◌, ◌++◌, ◌⊎◌, IfErr, IfOk, OnOk, Ok};
ghost use Rattle.command_terms.specs.declared.looks.OutputForm.TheVariants as forms;
ghost use Rattle.std.specs.String.{string_bytes};
ghost use Rattle.vol_layout.specs.Geometry.{Fits, geometry_read};
ghost use Rattle.command_faults.specs.Faults.{no_memory};
ghost use Rattle.command_reads.specs.Faults.{broken_rule};
ghost use Rattle.command_reads.specs.Diff.{IsDiffFault, IsDiffIn, IsMappedIn, IsUnmeasuredAt, IsUnmeasuredImage, diff_status, field_differences, rule_start, unsound_line};
ghost use Rattle.command_reads.specs.Print.{IsSight};

use crate::print::{Shown, silent};
use command_faults::Fault;
use command_faults::status::DONE;
use command_terms::OutputForm;
use escaped_text::push_escaped;
use field_json::{difference_items, items_json};
use pdp_words::Image;
use std::alloc::{AllocError, Global};
use vol_fields::{MappedImage, block_roles, diff_text};
use vol_layout::{Edition, Geometry, GeometryFault};

/// The status if two images differ.
pub(crate) const DIFFERENT: u8 = 1;

/// An image, and the name of its file.
#[derive(Drop)]
pub struct NamedImage<'a> {
    /// The path of the file.
    pub name: &'a str,
    /// The bytes of the image.
    pub bytes: Vec<u8>,
}

/// Returns the fields in which two images differ, one line each, or one item of a JSON object each; with `all` also those of an array that are one line
/// otherwise. The images must keep rules 1 and 2, and may be any bytes otherwise. The status is 0 if they are equal, 1 if they differ. Fails if one of
/// them breaks one of these rules, or if memory ran out.
///
/// Takes the time and the memory of [`block_roles`] for each image, and memory for the text and the fields that differ.
pub(crate) fn diff_fields(
    alloc: Global,
    edition: Edition,
    old: NamedImage<'_>,
    new: NamedImage<'_>,
    all: bool,
    form: OutputForm,
) -> Result<Shown, Fault>
    ensures { IsSight (field_differences edition old.entry new.entry all form) result }
{
    match form {
        OutputForm::Text => diff_lines(alloc, edition, old, new, all),
        OutputForm::Json => diff_json(alloc, edition, old, new, all),
    }
}

/// Returns the fields in which two images differ, one line each.
fn diff_lines(
    alloc: Global,
    edition: Edition,
    old: NamedImage<'_>,
    new: NamedImage<'_>,
    all: bool,
) -> Result<Shown, Fault>
    ensures { IsSight (field_differences edition old.entry new.entry all forms.Text) result }
{
    let text = named_text(alloc, edition, old, new, all, OutputForm::Text)?;
    let status = diff_status(&text);
    Ok(silent(text, status))
}

/// Returns the fields in which two images differ as one JSON object.
fn diff_json(
    alloc: Global,
    edition: Edition,
    old: NamedImage<'_>,
    new: NamedImage<'_>,
    all: bool,
) -> Result<Shown, Fault>
    ensures { IsSight (field_differences edition old.entry new.entry all forms.Json) result }
{
    let items = named_text(alloc, edition, old, new, all, OutputForm::Json)?;
    let status = diff_status(&items);
    let text = items_json(alloc, &items)?;
    Ok(silent(text, status))
}

/// Returns the status of a text of differences: 0 if it is empty.
fn diff_status(text: &[u8]) -> u8
    ensures { result ≡ diff_status text.now }
{
    if text.is_empty() { DONE } else { DIFFERENT }
}

/// Returns the lines of the differences between two images, or the text of their items in JSON.
fn named_text(
    alloc: Global,
    edition: Edition,
    old: NamedImage<'_>,
    new: NamedImage<'_>,
    all: bool,
    form: OutputForm,
) -> Result<Vec<u8>, Fault>
    ensures text { IfOk result (λ text. IsDiffIn form edition old.entry.bytes.items new.entry.bytes.items all text.items) }
    ensures fault { IfErr result (IsDiffFault edition old.entry new.entry) }
{
    let before = Image::from_bytes(old.bytes);
    let after = Image::from_bytes(new.bytes);
    let first = measured(alloc, edition, &before, old.name)?;
    let second = measured(alloc, edition, &after, new.name)?;
    Ok(mapped_text(alloc, &before, &first, &after, &second, all, form)?)
}

/// Returns the geometry of the image in a file of this name.
pub(crate) fn measured(
    alloc: Global,
    edition: Edition,
    image: &Image,
    name: &str,
) -> Result<Geometry, Fault>
    ensures read { IfOk result (λ geometry. geometry_read edition image.now ≡ Ok geometry) }
    ensures fits { IfOk result (λ geometry. Fits geometry image.now) }
    ensures fault { IfErr result (λ fault. IsUnmeasuredImage edition image.now name.now fault ⊎ (fault ≡ no_memory)) }
{
    match Geometry::read(edition, image) {
        Ok(geometry) => Ok(geometry),
        Err(why) => Err(unmeasured_at(alloc, why, name)?),
    }
}

/// Returns the lines of the differences between two images whose geometries were read, or the text of their items in JSON.
fn mapped_text(
    alloc: Global,
    old: &Image,
    old_geometry: &Geometry,
    new: &Image,
    new_geometry: &Geometry,
    all: bool,
    form: OutputForm,
) -> Result<Vec<u8>, AllocError>
    requires old_fits { Fits old_geometry.now old.now }
    requires new_fits { Fits new_geometry.now new.now }
    ensures { IfOk result (λ text. IsMappedIn form old_geometry.now old.now new_geometry.now new.now all text.items) }
{
    let old_roles = block_roles(alloc, old, old_geometry)?;
    let new_roles = block_roles(alloc, new, new_geometry)?;
    let before = MappedImage {
        image: old,
        geometry: old_geometry,
        roles: &old_roles,
    };
    let after = MappedImage {
        image: new,
        geometry: new_geometry,
        roles: &new_roles,
    };
    match form {
        OutputForm::Text => diff_text(alloc, &before, &after, all),
        OutputForm::Json => difference_items(alloc, &before, &after, all),
    }
}

/// Returns the fault of an image that breaks rule 1 or rule 2, whose line names the file.
fn unmeasured_at(alloc: Global, why: GeometryFault, name: &str) -> Result<Fault, AllocError>
    ensures { IfOk result (λ fault. IsUnmeasuredAt why name.now fault) }
{
    let rule = broken_rule(why);
    let mut lines = Vec::new(alloc);
    push_unsound_line(alloc, &mut lines, rule, name)?;
    Ok(Fault::Worded {
        rule: Some(rule),
        lines,
    })
}

/// Appends the line of an image in a file of this name that breaks a rule.
pub fn push_unsound_line(
    alloc: Global,
    lines: &mut Vec<u8>,
    rule: u8,
    name: &str,
) -> Result<(), AllocError>
    ensures { OnOk result (lines.new.items ≡ lines.old.items ++ unsound_line rule name.now) }
{
    let start = rule_start(alloc, rule)?;
    lines.extend_from_slice(start.as_bytes())?;
    push_escaped(lines, name.as_bytes())?;
    Ok(lines.push(b'\n')?)
}

/// Returns the start of the line of an image that breaks a rule.
#[tactic(auto, unfolding(crate::specs::Diff::rule_start))]
fn rule_start(alloc: Global, rule: u8) -> Result<String, AllocError>
    ensures { IfOk result (λ text. string_bytes text ≡ rule_start rule) }
{
    format!(in alloc; "unixvol: unsound, rule {rule}: ")
}

/// Returns the rule that a volume's sizes break.
fn broken_rule(why: GeometryFault) -> u8
    ensures { result ≡ broken_rule why }
{
    match why {
        GeometryFault::Short => 1,
        GeometryFault::Bounds => 2,
    }
}
