//! The lines about the parts of a pack.
ghost use Rattle.std.specs.Prelude.{◌≡◌, ◌++◌, IfOk, OnOk, codes, decimal, string_bytes};
ghost use Rattle.vol_identify.specs.Texts.{volume_text};
ghost use Rattle.vol_identify.specs.PackTexts.{between_text, command_text, is_later, is_pack, pack_lines, part_line, part_text, verdict_text};

use crate::front::FoundVolume;
use crate::pack_scan::Part;
use std::alloc::{AllocError, Global};
use vol_findings::edition_number;

/// A part of a pack, and the first rule that it breaks, if it is a volume.
#[derive(Clone, Copy)]
pub struct JudgedPart {
    /// The part.
    pub part: Part,
    /// The first rule that the volume breaks. `None` if it is sound, or if the part is no volume.
    pub broken: Option<u8>,
}

/// True if these are the parts of a pack: a volume begins after block 0, or a volume has other bytes than zeros after it.
pub fn is_pack(parts: &[Part]) -> bool
    ensures { result ≡ is_pack parts.now }
{
    parts.iter().any(|part| is_later(*part))
}

/// True if a part begins after block 0, and is a volume or other bytes than zeros.
fn is_later(part: Part) -> bool
    ensures { result ≡ is_later part }
{
    match part {
        Part::Volume { block, .. } => 0 < block,
        Part::Between { block, zeros, .. } => 0 < block && !zeros,
    }
}

/// Returns the lines of the pack in the file at `path`: what it looks like, and a line for each of its parts. `word` is this path as one word of a shell, for
/// the commands in these lines.
pub fn pack_lines(
    alloc: Global,
    path: &str,
    word: &str,
    parts: &[JudgedPart],
) -> Result<String, AllocError>
    ensures { IfOk result (λ lines. string_bytes lines ≡ pack_lines path.now word.now parts.now) }
{
    let mut lines = format!(in alloc; "{path}: looks like a larger pack\n")?;
    for part in parts {
        push_line(alloc, &mut lines, word, *part)?;
    }
    Ok(lines)
}

/// Appends the line of a part.
fn push_line(
    alloc: Global,
    lines: &mut String,
    path: &str,
    judged: JudgedPart,
) -> Result<(), AllocError>
    ensures { OnOk result (string_bytes lines.new ≡ string_bytes lines.old ++ part_line path.now judged) }
{
    let text = part_text(alloc, path, judged.part, judged.broken)?;
    let line = format!(in alloc; "  at {text}\n")?;
    lines.push_str(&line)
}

/// Returns what a part is. `broken` is the first rule that it breaks, if it is a volume.
fn part_text(
    alloc: Global,
    path: &str,
    part: Part,
    broken: Option<u8>,
) -> Result<String, AllocError>
    ensures { IfOk result (λ text. string_bytes text ≡ part_text path.now part broken) }
{
    match part {
        Part::Volume { block, volume } => volume_text(alloc, path, block, volume, broken),
        Part::Between {
            block,
            blocks,
            zeros,
        } => {
            let bytes = between_text(zeros);
            format!(in alloc; "{block}: {blocks} blocks of {bytes}")
        }
    }
}

/// Returns what a volume is that begins at a block.
fn volume_text(
    alloc: Global,
    path: &str,
    block: u32,
    volume: FoundVolume,
    broken: Option<u8>,
) -> Result<String, AllocError>
    ensures { IfOk result (λ text. string_bytes text ≡ decimal block ++ (codes ": " ++ (volume_text volume ++ verdict_text path.now block volume broken))) }
{
    let verdict = verdict_text(alloc, path, block, volume, broken)?;
    format!(in alloc; "{block}: {volume}{verdict}")
}

/// Returns what is between volumes.
fn between_text(zeros: bool) -> &'static str
    ensures { result.now ≡ between_text zeros }
{
    if zeros { "zeros" } else { "other bytes" }
}

/// Returns what judging says of a volume, and the command to go on with: `ls` if it is sound, else `check`.
fn verdict_text(
    alloc: Global,
    path: &str,
    block: u32,
    volume: FoundVolume,
    broken: Option<u8>,
) -> Result<String, AllocError>
    ensures { IfOk result (λ text. string_bytes text ≡ verdict_text path.now block volume broken) }
{
    let edition = edition_number(volume.edition);
    match broken {
        None => {
            let command = command_text(alloc, "ls", edition, path, block)?;
            format!(in alloc; ", sound: {command}")
        }
        Some(rule) => {
            let command = command_text(alloc, "check", edition, path, block)?;
            format!(in alloc; ", which breaks rule {rule}: {command}")
        }
    }
}

/// Returns a command for the volume of an edition at a block of the file at `path`.
pub fn command_text(
    alloc: Global,
    word: &str,
    edition: u8,
    path: &str,
    block: u32,
) -> Result<String, AllocError>
    ensures { IfOk result (λ text. string_bytes text ≡ command_text word.now edition path.now block) }
{
    if block == 0 {
        format!(in alloc; "unixvol {word} {edition} {path}")
    } else {
        format!(in alloc; "unixvol {word} {edition} {path} --at {block}")
    }
}
