//! The rows of a catalogue, as comma-separated values.
ghost use Rattle.std.specs.Prelude.{◌≡◌, decimal, IfOk, map, string_bytes};
ghost use Rattle.std.specs.List.{flat_map};
ghost use Rattle.csv.specs.Writing.{default_writer, row_text};
ghost use Rattle.vol_catalogue.specs.Rows.{files_text, free_text, header_row, row_of, time_text, verdict_text};

use crate::facts::{Counts, VolumeFacts};
use csv::{Error, WriterBuilder};
use std::alloc::{AllocError, Global};
use vol_findings::edition_number;
use vol_identify::FoundVolume;
use vol_listing::push_moment;

/// What a catalogue has of a file.
#[derive(Clone, Copy)]
pub struct FileFacts {
    /// The number of its bytes.
    pub size: u64,
    /// The SHA-256 of its bytes.
    pub sum: [u8; 32],
}

/// A volume of a file, and what is known of it.
#[derive(Clone, Copy)]
pub struct ListedVolume {
    /// The block that it begins at.
    pub block: u32,
    /// Its edition and its size.
    pub volume: FoundVolume,
    /// What is known of it.
    pub facts: VolumeFacts,
}

/// Returns the first row, which names the columns.
pub fn header() -> &'static [u8]
    ensures { result.now ≡ header_row }
{
    b"file,bytes,sha256,block,edition,blocks,free_blocks,files,verdict,time\n"
}

/// Returns the rows of the volumes of the file at `path`.
pub fn volume_rows(
    alloc: Global,
    path: &str,
    file: FileFacts,
    volumes: &[ListedVolume],
) -> Result<Vec<u8>, AllocError>
    ensures { IfOk result (λ text. text.items ≡ flat_map (row_of path.now file) volumes.now) }
{
    let mut text = Vec::new(alloc);
    'volumes: for volume in volumes {
        let row = row(alloc, path, file, *volume)?;
        text.extend_from_slice(&row)?;
    }
    Ok(text)
}

/// Returns the row of a volume of the file at `path`.
fn row(
    alloc: Global,
    path: &str,
    file: FileFacts,
    listed: ListedVolume,
) -> Result<Vec<u8>, AllocError>
    ensures { IfOk result (λ row. row.items ≡ row_of path.now file listed) }
{
    let size = decimal_text(alloc, file.size)?;
    let sum = hex::encode(alloc, file.sum)?;
    let block = decimal_text(alloc, u64::from(listed.block))?;
    let edition = decimal_text(alloc, u64::from(edition_number(listed.volume.edition)))?;
    let blocks = decimal_text(alloc, u64::from(listed.volume.blocks))?;
    let free = free_text(alloc, listed.facts.counts)?;
    let files = files_text(alloc, listed.facts.counts)?;
    let verdict = verdict_text(alloc, listed.facts.broken)?;
    let time = time_text(alloc, listed.facts.counts)?;
    row_bytes(
        alloc,
        &[
            path.as_bytes(),
            size.as_bytes(),
            sum.as_bytes(),
            block.as_bytes(),
            edition.as_bytes(),
            blocks.as_bytes(),
            free.as_bytes(),
            files.as_bytes(),
            verdict.as_bytes(),
            time.as_slice(),
        ],
    )
}

/// Returns a number in decimal digits.
fn decimal_text(alloc: Global, number: u64) -> Result<String, AllocError>
    ensures { IfOk result (λ text. string_bytes text ≡ decimal number) }
{
    format!(in alloc; "{number}")
}

/// Returns the verdict on a volume.
fn verdict_text(alloc: Global, broken: Option<u8>) -> Result<String, AllocError>
    ensures { IfOk result (λ text. string_bytes text ≡ verdict_text broken) }
{
    match broken {
        None => String::from_str(alloc, "sound"),
        Some(rule) => format!(in alloc; "rule {rule}"),
    }
}

/// Returns the number of free blocks of a volume in which they were counted.
fn free_text(alloc: Global, counts: Option<Counts>) -> Result<String, AllocError>
    ensures { IfOk result (λ text. string_bytes text ≡ free_text counts) }
{
    match counts {
        None => Ok(String::new(alloc)),
        Some(counts) => decimal_text(alloc, counts.free_blocks as u64),
    }
}

/// Returns the number of files of a volume in which they were counted.
fn files_text(alloc: Global, counts: Option<Counts>) -> Result<String, AllocError>
    ensures { IfOk result (λ text. string_bytes text ≡ files_text counts) }
{
    match counts {
        None => Ok(String::new(alloc)),
        Some(counts) => decimal_text(alloc, u64::from(counts.files)),
    }
}

/// Returns the time of a volume in which it was read, in universal time.
fn time_text(alloc: Global, counts: Option<Counts>) -> Result<Vec<u8>, AllocError>
    ensures { IfOk result (λ text. text.items ≡ time_text counts) }
{
    let mut text = Vec::new(alloc);
    if let Some(counts) = counts {
        push_moment(&mut text, counts.time)?;
    }
    Ok(text)
}

/// Returns the text of a record.
fn row_bytes(alloc: Global, fields: &[&[u8]]) -> Result<Vec<u8>, AllocError>
    ensures { IfOk result (λ row. row.items ≡ row_text default_writer (map (λ field. field.now) fields.now)) }
{
    match written_row(alloc, fields) {
        Ok(row) => Ok(row),
        // A record is written to memory, so this fails only if memory runs out.
        Err(_) => Err(AllocError),
    }
}

/// Writes a record to memory.
fn written_row(alloc: Global, fields: &[&[u8]]) -> Result<Vec<u8>, Error>
    ensures { IfOk result (λ row. row.items ≡ row_text default_writer (map (λ field. field.now) fields.now)) }
{
    let mut writer = WriterBuilder::new().from_writer(Vec::new(alloc));
    writer.write_fields(fields)?;
    match writer.into_inner() {
        Ok(row) => Ok(row),
        Err(error) => Err(error.into_error()),
    }
}
