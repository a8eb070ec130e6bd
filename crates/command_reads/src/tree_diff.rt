//! `diff` by tree: shows which files, directories and links of two images differ.
ghost use Rattle.std.specs.Prelude.{◌≡◌, ◌==◌, if◌then◌else◌, length, Some, IfErr, IfOk, OnOk};
ghost use Rattle.vol_layout.specs.Geometry.{Fits};
ghost use Rattle.vol_compare.specs.Json.{differences_data};
ghost use Rattle.vol_compare.specs.Merge.{tree_lines};
ghost use Rattle.field_json.specs.Items.{lines_json};
ghost use Rattle.command_faults.specs.Faults.{fault_status, line_after};
ghost use Rattle.command_faults.specs.Streams.{streams};
ghost use Rattle.command_terms.specs.declared.looks.OutputForm.TheVariants as forms;
ghost use Rattle.command_reads.specs.Diff.{items_status};
ghost use Rattle.command_reads.specs.Export.{unwritten};
ghost use Rattle.command_reads.specs.Print.{ShowsInPieces};
ghost use Rattle.command_reads.specs.TreeDiff.{AppendsSoundness, AreRemarks, IsTreeOf, PrintsTrees, tree_differences, tree_status};

use crate::diff::{DIFFERENT, NamedImage, measured, push_unsound_line};
use crate::export::unwritten;
use crate::print::{Shown, print_text, silent};
use command_faults::status::DONE;
use command_faults::{Ending, Fault};
use command_terms::OutputForm;
use field_json::values_json;
use pdp_words::{Image, Sink};
use serde_json::Value;
use std::alloc::{AllocError, Global};
use vol_archive::WriteFault;
use vol_compare::{MetTree, difference_values, met_tree, put_differences};
use vol_judge::judge;
use vol_layout::{Edition, Geometry};

/// An image that keeps rules 1 and 2, and the name of its file.
#[derive(Clone, Copy)]
struct MeasuredImage<'a> {
    /// The image.
    image: &'a Image,
    /// Its geometry.
    geometry: &'a Geometry,
    /// The path of the file.
    name: &'a str,
}

/// Two trees, and the lines about images that aren't sound.
#[derive(Drop)]
struct Trees<'a> {
    /// The old tree.
    old: MetTree<'a>,
    /// The new tree.
    new: MetTree<'a>,
    /// The remarks.
    remarks: Soundness,
}

/// The lines about images that aren't sound.
#[derive(Drop)]
struct Soundness {
    /// The rule that the last line names, if there is a line.
    rule: Option<u8>,
    /// The lines.
    lines: Vec<u8>,
}

/// Shows which paths of two images differ, one line each, or as one JSON object. With `times` the times of the last read and of the last change are compared too. The images must
/// keep rules 1 and 2, and may be any bytes otherwise; of an image that isn't sound the fault has a line, which names the first rule that it breaks and its
/// file. The status is 0 if the trees are equal, 1 if they differ or an image breaks rule 1 or 2; 3 if `output` failed, 4 if memory ran out.
///
/// Costs [`judge`] and [`met_tree`] of each image, and [`put_differences`] or [`difference_values`].
pub(crate) fn show_tree_diff<O: Sink>(
    alloc: Global,
    edition: Edition,
    old: NamedImage<'_>,
    new: NamedImage<'_>,
    times: bool,
    form: OutputForm,
    output: &mut O,
) -> Ending
    ensures { ShowsInPieces (tree_differences edition old.entry new.entry times form) (streams O.contents O.failed output.old output.new result.fault) result.status }
{
    let before = Image::from_bytes(old.bytes);
    let after = Image::from_bytes(new.bytes);
    let first = match measured(alloc, edition, &before, old.name) {
        Ok(geometry) => geometry,
        Err(fault) => return Ending::from(fault),
    };
    let second = match measured(alloc, edition, &after, new.name) {
        Ok(geometry) => geometry,
        Err(fault) => return Ending::from(fault),
    };
    let was = MeasuredImage {
        image: &before,
        geometry: &first,
        name: old.name,
    };
    let is = MeasuredImage {
        image: &after,
        geometry: &second,
        name: new.name,
    };
    match trees_of(alloc, edition, was, is) {
        Ok(trees) => print_trees(alloc, trees, times, form, output),
        Err(error) => Ending::from(Fault::from(error)),
    }
}

/// Returns the trees of two images, with the remarks on these.
fn trees_of<'a>(
    alloc: Global,
    edition: Edition,
    old: MeasuredImage<'a>,
    new: MeasuredImage<'a>,
) -> Result<Trees<'a>, AllocError>
    requires old_fits { Fits old.geometry.now old.image.now }
    requires new_fits { Fits new.geometry.now new.image.now }
    ensures old { IfOk result (λ trees. IsTreeOf old.entry.geometry.now old.entry.image.now trees.old) }
    ensures new { IfOk result (λ trees. IsTreeOf new.entry.geometry.now new.entry.image.now trees.new) }
    ensures remarks { IfOk result (λ trees. AreRemarks edition old.entry.image.now old.entry.name.now new.entry.image.now new.entry.name.now
        trees.remarks.lines.items) }
{
    let mut remarks = Soundness {
        rule: None,
        lines: Vec::new(alloc),
    };
    push_soundness(alloc, edition, old.image, old.name, &mut remarks)?;
    push_soundness(alloc, edition, new.image, new.name, &mut remarks)?;
    Ok(Trees {
        old: met_tree(alloc, old.image, old.geometry)?,
        new: met_tree(alloc, new.image, new.geometry)?,
        remarks,
    })
}

/// Appends the line of an image in a file of this name, if it isn't sound.
fn push_soundness(
    alloc: Global,
    edition: Edition,
    image: &Image,
    name: &str,
    remarks: &mut Soundness,
) -> Result<(), AllocError>
    ensures { OnOk result (AppendsSoundness edition image.now name.now remarks.old.lines.items remarks.new.lines.items) }
{
    let Some(rule) = judge(alloc, edition, image, true)? else {
        return Ok(());
    };
    push_unsound_line(alloc, &mut remarks.lines, rule, name)?;
    remarks.rule = Some(rule);
    Ok(())
}

/// Prints which paths of two trees differ, and returns the remarks on them as a fault.
fn print_trees<O: Sink>(
    alloc: Global,
    trees: Trees<'_>,
    times: bool,
    form: OutputForm,
    output: &mut O,
) -> Ending
    requires old_fits { Fits trees.old.geometry.now trees.old.image.now }
    requires new_fits { Fits trees.new.geometry.now trees.new.image.now }
    requires roots { trees.old.root.path ≡ trees.new.root.path }
    ensures { PrintsTrees form times trees.entry.old trees.entry.new trees.entry.remarks.lines.items
        (streams O.contents O.failed output.old output.new result.fault) result.status }
{
    match form {
        OutputForm::Text => print_lines(alloc, trees, times, output),
        OutputForm::Json => print_json(alloc, trees, times, output),
    }
}

/// Prints the lines of the paths of two trees that differ.
fn print_lines<O: Sink>(alloc: Global, trees: Trees<'_>, times: bool, output: &mut O) -> Ending
    requires old_fits { Fits trees.old.geometry.now trees.old.image.now }
    requires new_fits { Fits trees.new.geometry.now trees.new.image.now }
    requires roots { trees.old.root.path ≡ trees.new.root.path }
    ensures { PrintsTrees forms.Text times trees.entry.old trees.entry.new trees.entry.remarks.lines.items
        (streams O.contents O.failed output.old output.new result.fault) result.status }
{
    let differ = put_differences(alloc, &trees.old, &trees.new, times, output);
    ending_of(differ, trees.remarks)
}

/// Prints the paths of two trees that differ as one JSON object.
fn print_json<O: Sink>(alloc: Global, trees: Trees<'_>, times: bool, output: &mut O) -> Ending
    requires old_fits { Fits trees.old.geometry.now trees.old.image.now }
    requires new_fits { Fits trees.new.geometry.now trees.new.image.now }
    requires roots { trees.old.root.path ≡ trees.new.root.path }
    ensures { PrintsTrees forms.Json times trees.entry.old trees.entry.new trees.entry.remarks.lines.items
        (streams O.contents O.failed output.old output.new result.fault) result.status }
{
    match trees_json(alloc, &trees.old, &trees.new, times) {
        Ok(Shown { text, ending }) => {
            let told = Ending {
                status: ending.status,
                fault: fault_of(trees.remarks),
            };
            print_text(&text, told, output)
        }
        Err(error) => Ending::from(Fault::from(error)),
    }
}

/// Returns the paths of two trees that differ as one JSON object.
fn trees_json(
    alloc: Global,
    old: &MetTree<'_>,
    new: &MetTree<'_>,
    times: bool,
) -> Result<Shown, AllocError>
    requires old_fits { Fits old.now.geometry.now old.now.image.now }
    requires new_fits { Fits new.now.geometry.now new.now.image.now }
    requires roots { old.now.root.path ≡ new.now.root.path }
    ensures text { IfOk result (λ shown. shown.text.items ≡ lines_json (differences_data times old.now new.now)) }
    ensures status { IfOk result (λ shown. shown.ending.status ≡ items_status (differences_data times old.now new.now)) }
{
    let values = difference_values(alloc, old, new, times)?;
    let status = values_status(&values);
    let text = values_json(alloc, values)?;
    Ok(silent(text.into_bytes(), status))
}

/// Returns the status after a list of differences: 0 if it is empty.
fn values_status(values: &[Value]) -> u8
    ensures { result ≡ (if length values.now == 0 then 0 else 1) }
{
    if values.is_empty() { DONE } else { DIFFERENT }
}

/// Returns the result of a comparison whose lines were written: `differ` is true if there is a line.
fn ending_of(differ: Result<bool, WriteFault>, remarks: Soundness) -> Ending
    ensures status { IfOk differ (λ differ. result.status ≡ tree_status differ) }
    ensures said { IfOk differ (λ differ. line_after result.fault ≡ remarks.lines.items) }
    ensures fault { IfErr differ (λ fault. (result.status ≡ fault_status (unwritten fault)) × (result.fault ≡ Some (unwritten fault))) }
{
    match differ {
        Ok(differ) => Ending {
            status: if differ { DIFFERENT } else { DONE },
            fault: fault_of(remarks),
        },
        Err(fault) => Ending::from(unwritten(fault)),
    }
}

/// Returns the lines about images that aren't sound as a fault, if there are any.
fn fault_of(remarks: Soundness) -> Option<Fault>
    ensures { line_after result ≡ remarks.lines.items }
{
    let Soundness { rule, lines } = remarks;
    if lines.is_empty() {
        None
    } else {
        Some(Fault::Worded { rule, lines })
    }
}
