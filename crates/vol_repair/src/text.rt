//! The text of the lines about a repair.
ghost use Rattle.std.specs.Prelude.{◌≡◌, ◌++◌, IfOk, OnOk, string_bytes};
ghost use Rattle.vol_repair.specs.Text.{contents_text, line_text, lines_text, slot_text, subject_text};

use crate::repair_line::RepairLine;
use escaped_text::push_escaped;
use std::alloc::{AllocError, Global};
use vol_layout::Slot;

/// Returns the text of lines, one after another, each with its newline. Names are escaped, so that all of it is printable ASCII. An error: memory ran out.
pub fn text_of(alloc: Global, lines: &[RepairLine]) -> Result<Vec<u8>, AllocError>
    ensures { IfOk result (λ text. text.items ≡ lines_text lines.now) }
{
    let mut text = Vec::new(alloc);
    for line in lines {
        push_line(alloc, *line, &mut text)?;
    }
    Ok(text)
}

/// Appends the text of a line.
fn push_line(alloc: Global, line: RepairLine, text: &mut Vec<u8>) -> Result<(), AllocError>
    ensures { OnOk result (text.new.items ≡ text.old.items ++ line_text line) }
{
    let subject = subject_text(alloc, line)?;
    text.extend_from_slice(subject.as_bytes())?;
    push_contents(alloc, line, text)?;
    Ok(text.push(b'\n')?)
}

/// Returns the subject of a line, with what differs in numbers and words.
fn subject_text(alloc: Global, line: RepairLine) -> Result<String, AllocError>
    ensures { IfOk result (λ text. string_bytes text ≡ subject_text line) }
{
    match line {
        RepairLine::Cleared(i) => format!(in alloc; "i-node {i}: cleared"),
        RepairLine::Made(i) => format!(in alloc; "i-node {i}: made"),
        RepairLine::Size { inode, old, new } => {
            format!(in alloc; "i-node {inode}: size {old} -> {new}")
        }
        RepairLine::Changed(i) => format!(in alloc; "i-node {i}: contents or fields changed"),
        RepairLine::Links { inode, old, new } => {
            format!(in alloc; "i-node {inode}: links {old} -> {new}")
        }
        RepairLine::Entry {
            directory,
            slot,
            ..
        } => format!(in alloc; "directory {directory}, slot {slot}: "),
        RepairLine::FreeList => format!(in alloc; "free list: rebuilt"),
    }
}

/// Appends both contents of a slot, if the line is about one.
fn push_contents(alloc: Global, line: RepairLine, text: &mut Vec<u8>) -> Result<(), AllocError>
    ensures { OnOk result (text.new.items ≡ text.old.items ++ contents_text line) }
{
    let RepairLine::Entry { old, new, .. } = line else {
        return Ok(());
    };
    push_slot(alloc, old, text)?;
    text.extend_from_slice(b" -> ")?;
    push_slot(alloc, new, text)
}

/// Appends the content of a slot.
fn push_slot(alloc: Global, slot: Slot, text: &mut Vec<u8>) -> Result<(), AllocError>
    ensures { OnOk result (text.new.items ≡ text.old.items ++ slot_text slot) }
{
    if slot.inode == 0 {
        return Ok(text.extend_from_slice(b"empty")?);
    }
    let inode = slot.inode;
    let number = format!(in alloc; "{inode} ")?;
    text.extend_from_slice(number.as_bytes())?;
    push_escaped(text, slot.name())
}
