//! What a file seems to be, as JSON.
ghost use Rattle.std.specs.Prelude.{◌≡◌, IfOk, map, string_bytes};
ghost use Rattle.serde_json.specs.View.{view};
ghost use Rattle.identify_lines.specs.GuessJson.{between_data, fault_word, foreign_word, front_data, guess_parts, guess_word, next_command, part_by, part_data, seen_data, seen_json, seen_parts, seen_read, seen_word, tail_of, unread_data, unread_json, volume_command, volume_data};

use crate::seen::{BLOCK, Seen};
use crate::shell_words::file_word;
use serde_json::{Value, json};
use std::alloc::{AllocError, Global};
use vol_findings::edition_number;
use vol_identify::{Foreign, FoundVolume, Guess, JudgedPart, Part, command_text, packing_text};
use vol_listing::json::line;

/// The status of a run that had too little memory.
const NO_MEMORY: u8 = 4;

/// The number of the format of these lines.
const FORMAT: u64 = 1;

/// Returns what the file at `path` seems to be as one JSON object, on one line. `size` is the number of its bytes, if the system knows it.
pub fn seen_json(
    alloc: Global,
    path: &str,
    size: Option<u64>,
    seen: &Seen,
) -> Result<String, AllocError>
    ensures { IfOk result (λ line. string_bytes line ≡ seen_json path.now size seen.now) }
{
    let value = seen_value(alloc, path, size, seen)?;
    line(alloc, &value)
}

/// Returns the fault of the file at `path`, which wasn't read, as one JSON object, on one line. `status` is 4 if memory ran out.
pub fn unread_json(alloc: Global, path: &str, status: u8) -> Result<String, AllocError>
    ensures { IfOk result (λ line. string_bytes line ≡ unread_json path.now status) }
{
    let value = unread_value(alloc, path, status)?;
    line(alloc, &value)
}

/// Returns what the file at `path` seems to be as a JSON value.
#[tactic(auto, unfolding(crate::specs::GuessJson::seen_data))]
fn seen_value(
    alloc: Global,
    path: &str,
    size: Option<u64>,
    seen: &Seen,
) -> Result<Value, AllocError>
    ensures { IfOk result (λ value. view value ≡ seen_data path.now size seen.now) }
{
    let parts = Value::Array(seen_parts(alloc, path, seen)?);
    json!(in alloc; {
        "bytes": size,
        "file": path,
        "format": FORMAT,
        "guess": seen_word(seen),
        "parts": parts,
        "read": seen_read(seen),
        "tail": tail_of(size)
    })
}

/// Returns the fault of a file that wasn't read as a JSON value.
fn unread_value(alloc: Global, path: &str, status: u8) -> Result<Value, AllocError>
    ensures { IfOk result (λ value. view value ≡ unread_data path.now status) }
{
    json!(in alloc; {"fault": fault_word(status), "file": path, "format": FORMAT})
}

/// Returns the words for the fault of a file.
fn fault_word(status: u8) -> &'static str
    ensures { result.now ≡ fault_word status }
{
    if status == NO_MEMORY {
        "12 NoMemory"
    } else {
        "cannot read"
    }
}

/// Returns the word for what a file seems to be.
fn seen_word(seen: &Seen) -> &'static str
    ensures { result.now ≡ seen_word seen.now }
{
    match seen {
        Seen::Pack(_) => "pack",
        Seen::Image { found, .. } => guess_word(found.guess),
    }
}

/// Returns the word for a guess: of a packed file, the name of what packed it.
fn guess_word(guess: Guess) -> &'static str
    ensures { result.now ≡ guess_word guess }
{
    match guess {
        Guess::Empty => "empty",
        Guess::Packed(packing) => packing_text(packing),
        Guess::Tar => "tar",
        Guess::Volume(_) => "volume",
        Guess::Swapped(_) => "swapped",
        Guess::Ext2 => "ext2",
        Guess::CutOff { .. } => "cut",
        Guess::Foreign(foreign) => foreign_word(foreign),
        Guess::Inside { .. } => "inside",
        Guess::Unknown => "unknown",
    }
}

/// Returns the word for a tape or a disk of another system.
fn foreign_word(foreign: Foreign) -> &'static str
    ensures { result.now ≡ foreign_word foreign }
{
    match foreign {
        Foreign::Simh => "simh",
        Foreign::Dump => "dump",
        Foreign::Tp => "tp",
        Foreign::Fat => "fat",
        Foreign::Rt11 => "rt11",
        Foreign::Files11 => "files11",
    }
}

/// Returns the number of bytes that a guess is by. `None` of a pack, which was read as a whole.
fn seen_read(seen: &Seen) -> Option<usize>
    ensures { result ≡ seen_read seen.now }
{
    match seen {
        Seen::Pack(_) => None,
        Seen::Image { read, .. } => Some(*read),
    }
}

/// Returns the number of bytes after the last whole block of a file, if its size is known.
fn tail_of(size: Option<u64>) -> Option<u64>
    ensures { result ≡ tail_of size }
{
    match size {
        None => None,
        Some(size) => Some(size % BLOCK),
    }
}

/// Returns the parts of what the file at `path` seems to be as JSON values.
fn seen_parts(alloc: Global, path: &str, seen: &Seen) -> Result<Vec<Value>, AllocError>
    ensures { IfOk result (λ values. map view values.items ≡ seen_parts path.now seen.now) }
{
    match seen {
        Seen::Pack(parts) => part_values(alloc, path, parts),
        Seen::Image { found, .. } => guess_parts(alloc, path, found.guess, found.broken),
    }
}

/// Returns the parts of the pack in the file at `path` as JSON values.
fn part_values(alloc: Global, path: &str, parts: &[JudgedPart]) -> Result<Vec<Value>, AllocError>
    ensures { IfOk result (λ values. map view values.items ≡ map (part_data path.now) parts.now) }
{
    let mut values = Vec::new(alloc);
    'parts: for part in parts {
        values.push(part_value(alloc, path, part.part, part.broken)?)?;
    }
    Ok(values)
}

/// Returns a part of the pack in the file at `path` as a JSON value. `broken` is the first rule that it breaks, if it is a volume.
fn part_value(
    alloc: Global,
    path: &str,
    part: Part,
    broken: Option<u8>,
) -> Result<Value, AllocError>
    ensures { IfOk result (λ value. view value ≡ part_by path.now part broken) }
{
    match part {
        Part::Volume { block, volume } => volume_value(alloc, path, block, volume, broken),
        Part::Between {
            block,
            blocks,
            zeros,
        } => between_value(alloc, block, blocks, zeros),
    }
}

/// Returns the volume of a guess about the file at `path`, if it has one, as JSON values.
fn guess_parts(
    alloc: Global,
    path: &str,
    guess: Guess,
    broken: Option<u8>,
) -> Result<Vec<Value>, AllocError>
    ensures { IfOk result (λ values. map view values.items ≡ guess_parts path.now guess broken) }
{
    let mut values = Vec::new(alloc);
    match guess {
        Guess::Volume(volume) => values.push(volume_value(alloc, path, 0, volume, broken)?)?,
        Guess::Swapped(volume) | Guess::CutOff { volume, .. } => {
            values.push(front_value(alloc, 0, volume)?)?;
        }
        Guess::Inside { volume, block } => values.push(front_value(alloc, block, volume)?)?,
        Guess::Empty
        | Guess::Packed(_)
        | Guess::Tar
        | Guess::Ext2
        | Guess::Foreign(_)
        | Guess::Unknown => {}
    }
    Ok(values)
}

/// Returns a judged volume of the file at `path` as a JSON value.
fn volume_value(
    alloc: Global,
    path: &str,
    block: u32,
    volume: FoundVolume,
    broken: Option<u8>,
) -> Result<Value, AllocError>
    ensures { IfOk result (λ value. view value ≡ volume_data path.now block volume broken) }
{
    let command = volume_command(alloc, path, block, volume, broken)?;
    json!(in alloc; {
        "block": block,
        "blocks": volume.blocks,
        "command": command,
        "edition": edition_number(volume.edition),
        "rule": broken,
        "sound": broken.is_none()
    })
}

/// Returns the command to go on with for a judged volume of the file at `path`.
fn volume_command(
    alloc: Global,
    path: &str,
    block: u32,
    volume: FoundVolume,
    broken: Option<u8>,
) -> Result<String, AllocError>
    ensures { IfOk result (λ command. string_bytes command ≡ volume_command path.now block volume broken) }
{
    let name = file_word(alloc, path)?;
    let edition = edition_number(volume.edition);
    command_text(alloc, next_command(broken), edition, &name, block)
}

/// Returns the command to go on with: `ls` if the volume is sound, else `check`.
fn next_command(broken: Option<u8>) -> &'static str
    ensures { result.now ≡ next_command broken }
{
    match broken {
        None => "ls",
        Some(_) => "check",
    }
}

/// Returns a volume that isn't judged as a JSON value.
fn front_value(alloc: Global, block: u32, volume: FoundVolume) -> Result<Value, AllocError>
    ensures { IfOk result (λ value. view value ≡ front_data block volume) }
{
    json!(in alloc; {
        "block": block,
        "blocks": volume.blocks,
        "edition": edition_number(volume.edition)
    })
}

/// Returns what is between volumes as a JSON value.
fn between_value(alloc: Global, block: u32, blocks: u32, zeros: bool) -> Result<Value, AllocError>
    ensures { IfOk result (λ value. view value ≡ between_data block blocks zeros) }
{
    json!(in alloc; {"block": block, "blocks": blocks, "zeros": zeros})
}
