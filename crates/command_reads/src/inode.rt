//! `inode`: shows an i-node.
ghost use Rattle.std.specs.Prelude.{◌≡◌, ◌≤◌, ◌-◌, ◌++◌, drop, IfErr, IfOk, length, OnOk, string_bytes, take};
ghost use Rattle.serde_json.specs.Data.{object};
ghost use Rattle.serde_json.specs.View.{members_view, view};
ghost use Rattle.serde_json.specs.Written.{compact_text};
ghost use Rattle.vol_archive.specs.Write.{Writes};
ghost use Rattle.vol_layout.specs.Inode.{device_of, kind_of};
ghost use Rattle.command_faults.specs.Streams.{streams};
ghost use Rattle.command_reads.specs.Inode.{
  IsInodeFault,
  IsInodeText,
  device_lines,
  found,
  inode_back,
  inode_front,
  inode_json,
  inode_lines,
  kind_word,
  members_back,
  members_front,
  with_numbers,
  with_special,
  with_words,
};
ghost use Rattle.command_reads.specs.Node.{number_of};
ghost use Rattle.command_reads.specs.Print.{ShowsIn, ShowsInPieces, plainly};
ghost use Rattle.command_reads.specs.Json.{count_or_null, extent_data, listed_text};

use crate::check_json::words_value;
use crate::faults::uninspected;
use crate::json::list;
use crate::node::number_of;
use crate::pieces::put_items;
use crate::print::{ending_after, plain_string, print, put};
use command_faults::status::DONE;
use command_faults::{Ending, Fault};
use command_terms::{NodeName, OutputForm};
use pdp_words::{Image, Sink};
use serde_json::{Map, Value, json, put as put_member};
use std::alloc::{AllocError, Global};
use std::fmt;
use vol_archive::WriteFault;
use vol_inspect::{InodeReport, inspect_inode, kind_name};
use vol_layout::{Edition, Kind, Mode};
use vol_listing::json::{FORMAT, octal, put_count};
use vol_listing::special_word;

/// Shows an i-node of an image. The image must keep rules 1 and 2, and may be any bytes otherwise. The status is 0; 1 if the image breaks one of
/// these rules, has no i-node with this number, or the path leads to none; 3 if `output` failed, 4 if memory ran out. Nothing is printed until the
/// whole report is ready; with 3, and as JSON with 4 too, some of it may have been printed.
///
/// Takes the memory of [`inspect_inode`], and memory for the text; as JSON, for the text of a few extents at a time.
pub(crate) fn show_inode<O: Sink>(
    alloc: Global,
    edition: Edition,
    image: &Image,
    node: NodeName<'_>,
    form: OutputForm,
    output: &mut O,
) -> Ending
    ensures { ShowsIn form (found edition image.now form (number_of edition image.now node.entry)) (streams O.contents O.failed output.old output.new result.fault) result.status }
{
    match number_of(edition, image, node) {
        Ok(number) => show_number(alloc, edition, image, number, form, output),
        Err(fault) => Ending::from(fault.as_fault()),
    }
}

/// Shows the i-node with a number.
fn show_number<O: Sink>(
    alloc: Global,
    edition: Edition,
    image: &Image,
    number: u16,
    form: OutputForm,
    output: &mut O,
) -> Ending
    ensures { ShowsIn form (plainly (IsInodeText edition image.now number form) (IsInodeFault edition image.now number))
        (streams O.contents O.failed output.old output.new result.fault) result.status }
{
    match form {
        OutputForm::Text => {
            let text = inode_text(alloc, edition, image, number);
            print(plain_string(text), output)
        }
        OutputForm::Json => print_json(alloc, edition, image, number, output),
    }
}

/// Returns the text of an i-node.
fn inode_text(alloc: Global, edition: Edition, image: &Image, number: u16) -> Result<String, Fault>
    ensures text { IfOk result (λ text. IsInodeText edition image.now number OutputForm.Text (string_bytes text)) }
    ensures fault { IfErr result (λ fault. IsInodeFault edition image.now number fault) }
{
    match inspect_inode(alloc, edition, image, number) {
        Ok(report) => Ok(report_text(alloc, &report)?),
        Err(fault) => Err(uninspected(fault)),
    }
}

/// Returns the text of the report on an i-node.
fn report_text(alloc: Global, report: &InodeReport) -> Result<String, AllocError>
    ensures { IfOk result (λ text. string_bytes text ≡ inode_lines report.now) }
{
    let mut text = String::new(alloc);
    report.push_text(&mut text)?;
    push_device(report, &mut text)?;
    Ok(text)
}

/// Appends the lines of a special file's device.
fn push_device(report: &InodeReport, text: &mut String) -> Result<(), AllocError>
    ensures { OnOk result (string_bytes text.new ≡ string_bytes text.old
        ++ device_lines (kind_of report.now.edition report.now.node.mode.bits) (device_of report.now.node)) }
{
    match report.node.mode.kind(report.edition) {
        Kind::Special => {
            let device = report.node.device_number();
            let (major, minor) = (device / 256, device % 256);
            write!(text, "major {major}\nminor {minor}\n")
        }
        Kind::Free | Kind::Regular | Kind::Directory | Kind::Odd => Ok(()),
    }
}

/// Prints an i-node as JSON.
fn print_json<O: Sink>(
    alloc: Global,
    edition: Edition,
    image: &Image,
    number: u16,
    output: &mut O,
) -> Ending
    ensures { ShowsInPieces (plainly (IsInodeText edition image.now number OutputForm.Json) (IsInodeFault edition image.now number))
        (streams O.contents O.failed output.old output.new result.fault) result.status }
{
    match inspect_inode(alloc, edition, image, number) {
        Ok(report) => ending_after(put_report(alloc, &report, output), DONE),
        Err(fault) => Ending::from(uninspected(fault)),
    }
}

/// Writes an i-node as JSON, on one line, a few of its extents at a time.
fn put_report<O: Sink>(
    alloc: Global,
    report: &InodeReport,
    output: &mut O,
) -> Result<(), WriteFault>
    ensures { Writes (O.contents output.old) (O.contents output.new) (O.failed output.old) (O.failed output.new) (inode_json report.now) result }
{
    put_front(alloc, report, output)?;
    put_rest(alloc, report, output)
}

/// Writes the text in front of the extents.
fn put_front<O: Sink>(alloc: Global, report: &InodeReport, output: &mut O) -> Result<(), WriteFault>
    ensures { Writes (O.contents output.old) (O.contents output.new) (O.failed output.old) (O.failed output.new) (inode_front report.now) result }
{
    let front = inode_front(alloc, report)?;
    put(&front, output)
}

/// Writes the extents, and the text after them.
fn put_rest<O: Sink>(alloc: Global, report: &InodeReport, output: &mut O) -> Result<(), WriteFault>
    ensures { Writes (O.contents output.old) (O.contents output.new) (O.failed output.old) (O.failed output.new)
        (listed_text extent_data report.now.extents.items ++ inode_back report.now) result }
{
    put_items(alloc, &report.extents, output)?;
    put_back(alloc, report, output)
}

/// Writes the text after the extents.
fn put_back<O: Sink>(alloc: Global, report: &InodeReport, output: &mut O) -> Result<(), WriteFault>
    ensures { Writes (O.contents output.old) (O.contents output.new) (O.failed output.old) (O.failed output.new) (inode_back report.now) result }
{
    let back = inode_back(alloc, report)?;
    put(&back, output)
}

/// Returns the text in front of the extents: that of an object with the members before them, without its brace.
fn inode_front(alloc: Global, report: &InodeReport) -> Result<Vec<u8>, AllocError>
    ensures { IfOk result (λ text. text.items ≡ inode_front report.now) }
{
    let members = front_text(alloc, report)?;
    let mut text = Vec::from_slice(alloc, before_last(members.as_bytes()))?;
    text.extend_from_slice(b",\"extents\":[")?;
    Ok(text)
}

/// Returns the text after the extents: that of an object with the members after them, without its first brace.
fn inode_back(alloc: Global, report: &InodeReport) -> Result<Vec<u8>, AllocError>
    ensures { IfOk result (λ text. text.items ≡ inode_back report.now) }
{
    let members = back_text(alloc, report)?;
    let mut text = Vec::new(alloc);
    text.extend_from_slice(b"],")?;
    text.extend_from_slice(after_first(members.as_bytes()))?;
    text.push(b'\n')?;
    Ok(text)
}

/// Returns the bytes before the last one.
fn before_last(text: &[u8]) -> &[u8]
    requires { 1 ≤ length text.now }
    ensures { result.now ≡ take (length text.now - 1) text.now }
{
    &text[..text.len() - 1]
}

/// Returns the bytes after the first one.
fn after_first(text: &[u8]) -> &[u8]
    requires { 1 ≤ length text.now }
    ensures { result.now ≡ drop 1 text.now }
{
    &text[1..]
}

/// Returns the text of an object with the members before the extents.
fn front_text(alloc: Global, report: &InodeReport) -> Result<String, AllocError>
    ensures { IfOk result (λ text. string_bytes text ≡ compact_text (object (members_front report.now))) }
{
    let value = front_value(alloc, report)?;
    value.to_string(alloc)
}

/// Returns the text of an object with the members after the extents.
fn back_text(alloc: Global, report: &InodeReport) -> Result<String, AllocError>
    ensures { IfOk result (λ text. string_bytes text ≡ compact_text (object (members_back report.now))) }
{
    let value = back_value(alloc, report)?;
    value.to_string(alloc)
}

/// Returns the members of an i-node before the extents.
#[tactic(auto, unfolding(crate::specs::Inode::members_front))]
fn front_value(alloc: Global, report: &InodeReport) -> Result<Value, AllocError>
    ensures { IfOk result (λ value. view value ≡ object (members_front report.now)) }
{
    let addresses = list(alloc, report.addresses())?;
    let changed = optional(report.node.changed);
    json!(in alloc; {"addr": addresses, "atime": report.node.accessed, "ctime": changed})
}

/// Returns the members of an i-node after the extents.
fn back_value(alloc: Global, report: &InodeReport) -> Result<Value, AllocError>
    ensures { IfOk result (λ value. view value ≡ object (members_back report.now)) }
{
    let mut object = Map::new(alloc);
    put_numbers(alloc, report, &mut object)?;
    put_words(alloc, report, &mut object)?;
    put_device(alloc, report, &mut object)?;
    Ok(Value::Object(object))
}

/// Puts the number of the format and the numbers of an i-node that come after the extents into an object.
#[tactic(auto, unfolding(crate::specs::Inode::with_numbers))]
fn put_numbers(
    alloc: Global,
    report: &InodeReport,
    object: &mut Map<String, Value>,
) -> Result<(), AllocError>
    ensures { OnOk result (members_view object.new.entries ≡ with_numbers report.now (members_view object.old.entries)) }
{
    let node = &report.node;
    put_count(alloc, object, "format", FORMAT)?;
    put_count(alloc, object, "gid", u64::from(node.gid))?;
    put_count(alloc, object, "ino", u64::from(report.number))?;
    put_count(alloc, object, "links", u64::from(node.links))?;
    put_count(alloc, object, "mtime", u64::from(node.modified))?;
    put_count(alloc, object, "size", u64::from(node.size))?;
    put_count(alloc, object, "uid", u64::from(node.uid))
}

/// Puts the kind, the mode and the permissions of an i-node into an object.
#[tactic(auto, unfolding(crate::specs::Inode::with_words))]
fn put_words(
    alloc: Global,
    report: &InodeReport,
    object: &mut Map<String, Value>,
) -> Result<(), AllocError>
    ensures { OnOk result (members_view object.new.entries ≡ with_words report.now (members_view object.old.entries)) }
{
    let mode = report.node.mode;
    let kind = words_value(alloc, kind_word(report.edition, mode))?;
    let bits = octal(alloc, mode.bits)?;
    let permissions = octal(alloc, mode.permissions())?;
    put_member(object, alloc, "kind", kind)?;
    put_member(object, alloc, "mode", bits)?;
    put_member(object, alloc, "permissions", permissions)
}

/// Puts the device of a special file into an object.
fn put_device(
    alloc: Global,
    report: &InodeReport,
    object: &mut Map<String, Value>,
) -> Result<(), AllocError>
    ensures { OnOk result (members_view object.new.entries
        ≡ with_special (kind_of report.now.edition report.now.node.mode.bits) (device_of report.now.node) (members_view object.old.entries)) }
{
    match report.node.mode.kind(report.edition) {
        Kind::Special => {
            let device = report.node.device_number();
            put_count(alloc, object, "major", u64::from(device / 256))?;
            put_count(alloc, object, "minor", u64::from(device % 256))
        }
        Kind::Free | Kind::Regular | Kind::Directory | Kind::Odd => Ok(()),
    }
}

/// Returns the word for the kind of an i-node with this mode; that of a special file says of which type it is.
fn kind_word(edition: Edition, mode: Mode) -> &'static str
    ensures { result.now ≡ kind_word edition mode.bits }
{
    match mode.kind(edition) {
        Kind::Special => special_word(mode.bits / 4096),
        kind => kind_name(kind),
    }
}

/// Returns a number, or null if there is none.
fn optional(number: Option<u32>) -> Value
    ensures { view result ≡ count_or_null number }
{
    match number {
        Some(number) => Value::from(number),
        None => Value::Null,
    }
}
