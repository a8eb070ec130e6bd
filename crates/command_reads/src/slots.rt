//! `ls --slots`: shows the slots of a directory, and the names that empty slots keep.
ghost use Rattle.std.specs.Prelude.{◌≡◌, ◌+◌, ◌-◌, ◌*◌, ◌≤◌, ◌==◌, ◌++◌, ◌∷◌, codes, drop, IfOk, length, OnOk, string_bytes};
ghost use Rattle.std.specs.List.{list_all};
ghost use Rattle.serde_json.specs.View.{view};
ghost use Rattle.serde_json.specs.Written.{compact_text};
ghost use Rattle.vol_layout.specs.Geometry.{Fits};
ghost use Rattle.vol_dir.specs.Entries.{slot_count};
ghost use Rattle.command_faults.specs.Streams.{streams};
ghost use Rattle.vol_archive.specs.Write.{Writes};
ghost use Rattle.command_reads.specs.Print.{ShowsInPieces, plainly};
ghost use Rattle.command_reads.specs.Slots.{is_blank, slot_columns, slot_data, slot_item, slot_line, slot_lines, slot_text, slots_in, slots_json, IsSlotsFault, IsSlotsText};

use crate::export::unstarted;
use crate::print::{ending_after, put};
use command_faults::Ending;
use command_faults::status::DONE;
use command_terms::OutputForm;
use pdp_words::{BLOCK, Image, Sink};
use serde_json::{Value, json};
use std::alloc::{AllocError, Global};
use vol_archive::WriteFault;
use vol_dir::entries::{SLOTS, slot_count};
use vol_dir::find_directory;
use vol_file::{block_at, next_block};
use vol_layout::slot::SLOT;
use vol_layout::{Edition, Geometry, Slot};
use vol_listing::json::escaped_text;
use vol_listing::{Screen, push_shown};

/// How a slot is shown.
#[derive(Clone, Copy)]
pub(crate) enum SlotForm {
    /// As a line on this screen.
    Line(Screen),
    /// As an object of a list, with a comma before it.
    Item,
}

/// Shows the slots of the directory at a path, in order, each on a line: its number, its i-number and its name. An empty slot has i-number 0, and
/// still has the name of the entry that was removed. A slot with only zero bytes has no line. As JSON, one object has the same. The path is walked as
/// user 0. The image must keep rules 1 and 2, and may be any bytes otherwise. The status is 0; 1 if the image breaks one of these rules or the path
/// leads to no directory, 3 if `output` failed, 4 if memory ran out. With 3 or 4 some of the lines may have been printed.
///
/// Costs the walk of the path, and two block-map lookups and a read of its slots for each stored logical block of the directory: the time depends on
/// the number of these blocks, not on the directory's size. Takes memory for the lines of one block, which are printed before the next block's.
#[tactic(auto, using(crate::proofs::Printed::kept_same))]
pub(crate) fn show_slots<O: Sink>(
    alloc: Global,
    edition: Edition,
    image: &Image,
    path: &str,
    form: OutputForm,
    screen: Screen,
    output: &mut O,
) -> Ending
    ensures { ShowsInPieces (plainly (IsSlotsText edition image.now path.now form screen) (IsSlotsFault edition image.now path.now))
        (streams O.contents O.failed output.old output.new result.fault) result.status }
{
    match find_directory(edition, image, path.as_bytes()) {
        Ok(start) => {
            let (geometry, dir) = (&start.geometry, start.inode);
            let written = put_all(alloc, image, geometry, dir, form, screen, output);
            ending_after(written, DONE)
        }
        Err(fault) => Ending::from(unstarted(fault)),
    }
}

/// Writes the slots of directory `dir` in this format.
fn put_all<O: Sink>(
    alloc: Global,
    image: &Image,
    geometry: &Geometry,
    dir: u16,
    form: OutputForm,
    screen: Screen,
    output: &mut O,
) -> Result<(), WriteFault>
    requires fits { Fits geometry.now image.now }
    requires first { 1 ≤ dir }
    requires last { dir ≤ geometry.now.last_inode }
    ensures { Writes (O.contents output.old) (O.contents output.new) (O.failed output.old) (O.failed output.new)
        (slots_in geometry.now image.now dir form screen) result }
{
    match form {
        OutputForm::Text => put_slots(
            alloc,
            image,
            geometry,
            dir,
            SlotForm::Line(screen),
            0,
            output,
        ),
        OutputForm::Json => put_json(alloc, image, geometry, dir, output),
    }
}

/// Writes the slots of directory `dir` as one object, on one line.
fn put_json<O: Sink>(
    alloc: Global,
    image: &Image,
    geometry: &Geometry,
    dir: u16,
    output: &mut O,
) -> Result<(), WriteFault>
    requires fits { Fits geometry.now image.now }
    requires first { 1 ≤ dir }
    requires last { dir ≤ geometry.now.last_inode }
    ensures { Writes (O.contents output.old) (O.contents output.new) (O.failed output.old) (O.failed output.new)
        (slots_json geometry.now image.now dir) result }
{
    put(b"{\"format\":1,\"slots\":[", output)?;
    put_items(alloc, image, geometry, dir, output)
}

/// Writes the objects of the slots of directory `dir`, and the text after them.
fn put_items<O: Sink>(
    alloc: Global,
    image: &Image,
    geometry: &Geometry,
    dir: u16,
    output: &mut O,
) -> Result<(), WriteFault>
    requires fits { Fits geometry.now image.now }
    requires first { 1 ≤ dir }
    requires last { dir ≤ geometry.now.last_inode }
    ensures { Writes (O.contents output.old) (O.contents output.new) (O.failed output.old) (O.failed output.new)
        (drop 1 (slot_lines SlotForm.Item geometry.now image.now dir 0 (slot_count geometry.now image.now dir)) ++ codes "]}\n") result }
{
    put_slots(alloc, image, geometry, dir, SlotForm::Item, 1, output)?;
    put(b"]}\n", output)
}

/// Writes the texts of the slots of directory `dir` without their first `left` bytes, those of one block at a time.
fn put_slots<O: Sink>(
    alloc: Global,
    image: &Image,
    geometry: &Geometry,
    dir: u16,
    form: SlotForm,
    left: usize,
    output: &mut O,
) -> Result<(), WriteFault>
    requires fits { Fits geometry.now image.now }
    requires first { 1 ≤ dir }
    requires last { dir ≤ geometry.now.last_inode }
    ensures { Writes (O.contents output.old) (O.contents output.new) (O.failed output.old) (O.failed output.new)
        (drop left (slot_lines form geometry.now image.now dir 0 (slot_count geometry.now image.now dir))) result }
{
    let mut left = left;
    let count = slot_count(image, geometry, dir);
    let blocks = count.div_ceil(SLOTS);
    let mut b = next_block(image, geometry, dir, 0, blocks);
    while b < blocks {
        let few = (count - SLOTS * b).min(SLOTS);
        left = put_block(alloc, image, geometry, dir, b, few, form, left, output)?;
        b = next_block(image, geometry, dir, b + 1, blocks);
    }
    Ok(())
}

/// Writes the texts of the first `count` slots in logical block `b` of directory `dir`, without their first `left` bytes. Returns how many of these
/// there are still to leave out.
fn put_block<O: Sink>(
    alloc: Global,
    image: &Image,
    geometry: &Geometry,
    dir: u16,
    b: u32,
    count: u32,
    form: SlotForm,
    left: usize,
    output: &mut O,
) -> Result<usize, WriteFault>
    requires fits { Fits geometry.now image.now }
    requires first { 1 ≤ dir }
    requires last { dir ≤ geometry.now.last_inode }
    requires few { count ≤ 32 }
    requires within { 32 * b + count ≤ slot_count geometry.now image.now dir }
    ensures written { Writes (O.contents output.old) (O.contents output.new) (O.failed output.old) (O.failed output.new)
        (drop left (slot_lines form geometry.now image.now dir (32 * b) count)) result }
    ensures left { IfOk result (λ rest. rest ≡ left - length (slot_lines form geometry.now image.now dir (32 * b) count)) }
{
    let mut text = Vec::new(alloc);
    push_block(alloc, image, geometry, dir, b, count, form, &mut text)?;
    put(after(&text, left), output)?;
    Ok(left.saturating_sub(text.len()))
}

/// Returns the bytes after the first `count`, of which there may be fewer.
#[tactic(auto, using(crate::proofs::SlotItems::drop_most))]
fn after(text: &[u8], count: usize) -> &[u8]
    ensures { result.now ≡ drop count text.now }
{
    &text[count.min(text.len())..]
}

/// Appends the texts of the first `count` slots in logical block `b` of directory `dir`.
fn push_block(
    alloc: Global,
    image: &Image,
    geometry: &Geometry,
    dir: u16,
    b: u32,
    count: u32,
    form: SlotForm,
    text: &mut Vec<u8>,
) -> Result<(), AllocError>
    requires fits { Fits geometry.now image.now }
    requires first { 1 ≤ dir }
    requires last { dir ≤ geometry.now.last_inode }
    requires few { count ≤ 32 }
    requires within { 32 * b + count ≤ slot_count geometry.now image.now dir }
    ensures { OnOk result (text.new.items ≡ text.old.items ++ slot_lines form geometry.now image.now dir (32 * b) count) }
{
    let Some(k) = block_at(image, geometry, dir, b) else {
        return Ok(());
    };
    if !geometry.in_zone(k) {
        return Ok(());
    }
    for t in 0..count {
        let at = BLOCK * k as usize + SLOT * t as usize;
        let slot = Slot::read(image.as_bytes(), at);
        push_slot(alloc, SLOTS * b + t, &slot, form, text)?;
    }
    Ok(())
}

/// Appends the text of a slot with this number, unless all its bytes are zero.
#[tactic(auto, unfolding(crate::specs::Slots::slot_line))]
fn push_slot(
    alloc: Global,
    number: u32,
    slot: &Slot,
    form: SlotForm,
    text: &mut Vec<u8>,
) -> Result<(), AllocError>
    ensures { OnOk result (text.new.items ≡ text.old.items ++ slot_line form number slot.now) }
{
    if is_blank(slot) {
        return Ok(());
    }
    push_text(alloc, number, slot, form, text)
}

/// Appends the text of a slot with this number.
fn push_text(
    alloc: Global,
    number: u32,
    slot: &Slot,
    form: SlotForm,
    text: &mut Vec<u8>,
) -> Result<(), AllocError>
    ensures { OnOk result (text.new.items ≡ text.old.items ++ slot_text form number slot.now) }
{
    match form {
        SlotForm::Line(screen) => push_line(alloc, number, slot, screen, text),
        SlotForm::Item => push_item(alloc, number, slot, text),
    }
}

/// Appends the line of a slot with this number.
#[tactic(auto, unfolding(crate::specs::Slots::slot_text))]
fn push_line(
    alloc: Global,
    number: u32,
    slot: &Slot,
    screen: Screen,
    text: &mut Vec<u8>,
) -> Result<(), AllocError>
    ensures { OnOk result (text.new.items ≡ text.old.items ++ slot_text (SlotForm.Line screen) number slot.now) }
{
    let columns = slot_columns(alloc, number, slot.inode)?;
    text.extend_from_slice(columns.as_bytes())?;
    push_shown(screen, slot.name(), text)?;
    text.push(b'\n')?;
    Ok(())
}

/// Appends the object of a slot with this number, with a comma before it.
fn push_item(alloc: Global, number: u32, slot: &Slot, text: &mut Vec<u8>) -> Result<(), AllocError>
    ensures { OnOk result (text.new.items ≡ text.old.items ++ slot_item number slot.now) }
{
    let item = item_text(alloc, number, slot)?;
    text.push(b',')?;
    text.extend_from_slice(item.as_bytes())?;
    Ok(())
}

/// Returns the text of the object of a slot with this number.
fn item_text(alloc: Global, number: u32, slot: &Slot) -> Result<String, AllocError>
    ensures { IfOk result (λ text. string_bytes text ≡ compact_text (slot_data number slot.now)) }
{
    let value = slot_value(alloc, number, slot)?;
    value.to_string(alloc)
}

/// Returns a slot with this number as a JSON value.
fn slot_value(alloc: Global, number: u32, slot: &Slot) -> Result<Value, AllocError>
    ensures { IfOk result (λ value. view value ≡ slot_data number slot.now) }
{
    let name = escaped_text(alloc, slot.name())?;
    json!(in alloc; {"ino": slot.inode, "name": name, "slot": number})
}

/// Returns the number of a slot and its i-number, each followed by a space.
fn slot_columns(alloc: Global, number: u32, inode: u16) -> Result<String, AllocError>
    ensures { IfOk result (λ text. string_bytes text ≡ slot_columns number inode) }
{
    format!(in alloc; "{number:>5} {inode:>5} ")
}

/// True if all bytes of a slot are zero.
fn is_blank(slot: &Slot) -> bool
    ensures { result ≡ is_blank slot.now }
{
    slot.inode == 0 && is_zero(&slot.name)
}

/// True if all bytes are zero.
fn is_zero(bytes: &[u8]) -> bool
    ensures { result ≡ list_all (λ c. c == 0) bytes.now }
{
    bytes.iter().all(|c| *c == 0)
}
