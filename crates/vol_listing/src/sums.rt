//! Manifests: the attributes of nodes, with the SHA-256 of each file.
ghost use Rattle.std.specs.Prelude.{◌≡◌, ◌≤◌, ◌++◌, None, IfOk, OnOk, if◌then◌else◌, map, option_map, string_bytes};
ghost use Rattle.std.specs.Option.{option_to_list};
ghost use Rattle.serde_json.specs.View.{view};
ghost use Rattle.sha2.specs.Sha256.{sha256};
ghost use Rattle.vol_dir.specs.Tree.{tree};
ghost use Rattle.vol_layout.specs.Body.{body};
ghost use Rattle.vol_layout.specs.Geometry.{Fits};
ghost use Rattle.vol_listing.specs.KnownSums.{AreKnownData, IsKnownData, IsKnownJson, known_line, known_text};
ghost use Rattle.vol_listing.specs.LongLines.{column};
ghost use Rattle.vol_listing.specs.Sums.{attribute_columns, mode_columns, is_left, sum_at, sum_data, sum_line, sum_text, summed_data};

use crate::dates::push_moment;
use crate::json::entries_line;
use crate::known_sums::{is_damaged, put_losses, spans_if};
use crate::listing_json::row_object;
use crate::long_lines::{kind_column, padded, push_column, size_text};
use crate::places::joined;
use crate::rows::{Row, is_number, row_at};
use escaped_text::push_escaped;
use pdp_words::Image;
use serde_json::{Value, put};
use sha2::{Digest, Sha256};
use std::alloc::{AllocError, Global};
use vol_archive::{MetEntry, Role};
use vol_file::read;
use vol_layout::i_list::kind;
use vol_layout::{Geometry, Kind};
use vol_losses::LostSpan;

/// A SHA-256.
type Sum = [u8; 32];

/// The size in bytes of the buffer for the bodies of files.
const BUFFER: usize = 64 * 1024;

/// Returns a line for each entry that isn't left out of an archive: the SHA-256 of a regular file's bytes, or a dash; the mode, the owner, the group,
/// the size and the time of the node, and the path with unprintable bytes escaped. If blocks are lost, a file of which bytes are lost has a dash too.
///
/// Costs the bytes of the files; all bodies are read through one buffer of 64 KiB. Costs [`vol_losses::is_whole`] for each if there are marks. Takes
/// memory for the text.
pub fn sums_text(
    alloc: Global,
    image: &Image,
    geometry: &Geometry,
    lost: &[bool],
    founds: &[MetEntry],
) -> Result<Vec<u8>, AllocError>
    requires { Fits geometry.now image.now }
    ensures { IfOk result (λ text. text.items ≡ known_text geometry.now image.now lost.now founds.now) }
{
    let mut text = Vec::new(alloc);
    let mut buffer = [0; BUFFER];
    'founds: for found in founds {
        push_met(alloc, image, geometry, lost, found, &mut buffer, &mut text)?;
    }
    Ok(text)
}

/// Returns the contents of [`sums_text`] as one JSON object, on one line; each path begins with `top`, the path of the directory. An entry of which bytes
/// are lost has their ranges.
///
/// Takes memory for the objects too.
pub fn sums_json(
    alloc: Global,
    image: &Image,
    geometry: &Geometry,
    lost: &[bool],
    top: &[u8],
    founds: &[MetEntry],
) -> Result<String, AllocError>
    requires { Fits geometry.now image.now }
    ensures { IfOk result (λ text. IsKnownJson geometry.now image.now lost.now top.now founds.now (string_bytes text)) }
{
    let values = sum_values(alloc, image, geometry, lost, top, founds)?;
    let text = entries_line(alloc, values)?;
    Ok(text)
}

/// Appends the line of an entry, unless it is left out.
fn push_met(
    alloc: Global,
    image: &Image,
    geometry: &Geometry,
    lost: &[bool],
    found: &MetEntry,
    buffer: &mut [u8; BUFFER],
    text: &mut Vec<u8>,
) -> Result<(), AllocError>
    requires { Fits geometry.now image.now }
    ensures { OnOk result (text.new.items ≡ text.old.items ++ known_line geometry.now image.now lost.now found.now) }
{
    if is_left(found.role) {
        return Ok(());
    }
    let damaged = is_damaged(image, geometry, lost, found.inode);
    let sum = sum_unless(image, geometry, damaged, found.inode, buffer);
    let row = row_at(image, geometry, found.inode);
    push_line(alloc, sum, row, found.path.as_slice(), text)
}

/// True if an entry with this role is left out of an archive.
fn is_left(role: Role) -> bool
    ensures { result ≡ is_left role }
{
    matches!(role, Role::Left(_))
}

/// Appends the line of a node at a path.
#[tactic(auto, unfolding(crate::specs::Sums::sum_line))]
fn push_line(
    alloc: Global,
    sum: Option<Sum>,
    row: Row,
    path: &[u8],
    text: &mut Vec<u8>,
) -> Result<(), AllocError>
    ensures { OnOk result (text.new.items ≡ text.old.items ++ sum_line sum row path.now) }
{
    push_sum(alloc, text, sum)?;
    push_attributes(text, row)?;
    push_escaped(text, path)?;
    text.push(b'\n')?;
    Ok(())
}

/// Appends a sum as hexadecimal digits, or a dash if there is no sum.
fn push_sum(alloc: Global, text: &mut Vec<u8>, sum: Option<Sum>) -> Result<(), AllocError>
    ensures { OnOk result (text.new.items ≡ text.old.items ++ column (sum_text sum)) }
{
    let sum = sum_text(alloc, sum)?;
    push_column(text, sum.as_bytes())
}

/// Appends the mode of a node, its owner, its group, its size and its time.
#[tactic(auto, unfolding(crate::specs::Sums::attribute_columns))]
fn push_attributes(text: &mut Vec<u8>, row: Row) -> Result<(), AllocError>
    ensures { OnOk result (text.new.items ≡ text.old.items ++ attribute_columns row) }
{
    push_mode(text, row)?;
    push_column(text, &size_text(row.sort, row.size))?;
    push_moment(text, row.modified)?;
    text.push(b' ')?;
    Ok(())
}

/// Appends the mode of a node, its owner and its group.
#[tactic(auto, unfolding(crate::specs::Sums::mode_columns))]
fn push_mode(text: &mut Vec<u8>, row: Row) -> Result<(), AllocError>
    ensures { OnOk result (text.new.items ≡ text.old.items ++ mode_columns row) }
{
    push_column(text, &kind_column(row))?;
    push_column(text, &padded(row.uid))?;
    push_column(text, &padded(row.gid))?;
    Ok(())
}

/// Returns a sum as hexadecimal digits, or a dash if there is no sum.
fn sum_text(alloc: Global, sum: Option<Sum>) -> Result<String, AllocError>
    ensures { IfOk result (λ text. string_bytes text ≡ sum_text sum) }
{
    match sum {
        Some(sum) => hex::encode(alloc, sum),
        None => String::from_str(alloc, "-"),
    }
}

/// Returns the objects of the entries that aren't left out.
fn sum_values(
    alloc: Global,
    image: &Image,
    geometry: &Geometry,
    lost: &[bool],
    top: &[u8],
    founds: &[MetEntry],
) -> Result<Vec<Value>, AllocError>
    requires { Fits geometry.now image.now }
    ensures { IfOk result (λ values. AreKnownData geometry.now image.now lost.now top.now founds.now (map view values.items)) }
{
    let mut values = Vec::new(alloc);
    let mut buffer = [0; BUFFER];
    'founds: for found in founds {
        let more = value_of(alloc, image, geometry, lost, top, found, &mut buffer)?;
        push_if(&mut values, more)?;
    }
    Ok(values)
}

/// Returns the object of an entry, unless it is left out.
fn value_of(
    alloc: Global,
    image: &Image,
    geometry: &Geometry,
    lost: &[bool],
    top: &[u8],
    found: &MetEntry,
    buffer: &mut [u8; BUFFER],
) -> Result<Option<Value>, AllocError>
    requires { Fits geometry.now image.now }
    ensures { IfOk result (λ value. IsKnownData geometry.now image.now lost.now top.now found.now (map view (option_to_list value))) }
{
    let damaged = is_damaged(image, geometry, lost, found.inode);
    let losses = spans_if(alloc, image, geometry, lost, damaged, found.inode)?;
    if is_left(found.role) {
        return Ok(None);
    }
    let sum = sum_unless(image, geometry, damaged, found.inode, buffer);
    let row = row_at(image, geometry, found.inode);
    let path = joined(alloc, top, found.path.as_slice())?;
    let value = summed_value(alloc, sum, losses, row, &path)?;
    Ok(Some(value))
}

/// Appends a value, if there is one.
fn push_if(values: &mut Vec<Value>, value: Option<Value>) -> Result<(), AllocError>
    ensures { OnOk result (map view values.new.items ≡ map view values.old.items ++ map view (option_to_list value)) }
{
    if let Some(value) = value {
        values.push(value)?;
    }
    Ok(())
}

/// Returns the object of a node at a path, with its sum, and with the bytes of it that are lost.
#[tactic(auto, unfolding(crate::specs::Sums::summed_data))]
fn summed_value(
    alloc: Global,
    sum: Option<Sum>,
    losses: Option<Vec<LostSpan>>,
    row: Row,
    path: &[u8],
) -> Result<Value, AllocError>
    ensures { IfOk result (λ value. view value ≡ summed_data sum (option_map (λ spans. spans.items) losses) row path.now) }
{
    let mut object = row_object(alloc, path, row)?;
    let sum = sum_value(alloc, sum)?;
    put(&mut object, alloc, "sha256", sum)?;
    put_losses(alloc, &mut object, losses)?;
    Ok(Value::Object(object))
}

/// Returns a sum as JSON, or null if there is no sum.
fn sum_value(alloc: Global, sum: Option<Sum>) -> Result<Value, AllocError>
    ensures { IfOk result (λ value. view value ≡ sum_data sum) }
{
    match sum {
        Some(sum) => Ok(Value::String(hex::encode(alloc, sum)?)),
        None => Ok(Value::Null),
    }
}

/// Returns the SHA-256 of the bytes of node `i`, if it is a regular file and isn't damaged.
fn sum_unless(
    image: &Image,
    geometry: &Geometry,
    damaged: bool,
    i: u16,
    buffer: &mut [u8; BUFFER],
) -> Option<Sum>
    requires { Fits geometry.now image.now }
    ensures { result ≡ (if damaged then None else sum_at (tree geometry.now image.now) i) }
{
    if damaged {
        None
    } else {
        sum_at(image, geometry, i, buffer)
    }
}

/// Returns the SHA-256 of the bytes of node `i`, if it is a regular file.
#[tactic(auto, using(crate::proofs::NodesRead::sum_regular, crate::proofs::NodesRead::sum_other, crate::proofs::NodesRead::sum_outside))]
fn sum_at(image: &Image, geometry: &Geometry, i: u16, buffer: &mut [u8; BUFFER]) -> Option<Sum>
    requires { Fits geometry.now image.now }
    ensures { result ≡ sum_at (tree geometry.now image.now) i }
{
    if is_number(geometry, i) && kind(image, geometry, i) == Kind::Regular {
        Some(sum_of_body(image, geometry, i, buffer))
    } else {
        None
    }
}

/// Returns the SHA-256 of the body of i-node `i`, which is read through a buffer.
fn sum_of_body(image: &Image, geometry: &Geometry, i: u16, buffer: &mut [u8; BUFFER]) -> Sum
    requires fits { Fits geometry.now image.now }
    requires first { 1 ≤ i }
    requires last { i ≤ geometry.now.last_inode }
    ensures { result ≡ sha256 (body geometry.now image.now i) }
{
    let mut hasher = Sha256::new();
    let mut hashed = 0;
    'pieces: loop {
        let count = read(image, geometry, i, hashed, buffer);
        if count == 0 {
            return hasher.finalize();
        }
        hasher.update(&buffer[..count]);
        hashed += count as u32;
    }
}
