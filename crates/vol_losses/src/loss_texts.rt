//! The texts that name the lost bytes of a file.
ghost use Rattle.std.specs.Prelude.{◌≡◌, ◌+◌, ◌*◌, ◌≤◌, ◌^◌, ◌++◌, IfOk, OnOk, length, map, min, string_bytes};
ghost use Rattle.std.specs.List.{flat_map, sum};
ghost use Rattle.vol_layout.specs.Geometry.{Fits};
ghost use Rattle.vol_losses.specs.LossTexts.{AreLosses, IsLossText, counts_text, next_text, range_bytes, range_text, ranges_text};

use crate::ranges::{LostRange, losses};
use crate::sure_blocks::body_size;
use pdp_words::{BLOCK, Image};
use std::alloc::{AllocError, Global};
use vol_layout::Geometry;

/// The number of ranges that are named after the first.
const MORE: usize = 7;

/// Returns the text that names the lost bytes of i-node `i`, an i-number of the volume whose block isn't lost: `10400 of 100000 bytes are lost:
/// 89600-99999`. At most eight ranges are named; then `, ..` follows if there are more.
///
/// Costs what [`losses`] costs. An error: memory ran out.
pub fn loss_text(
    alloc: Global,
    image: &Image,
    geometry: &Geometry,
    lost: &[bool],
    i: u16,
) -> Result<Vec<u8>, AllocError>
    requires fits { Fits geometry.now image.now }
    requires first { 1 ≤ i }
    requires last { i ≤ geometry.now.last_inode }
    ensures { IfOk result (λ text. IsLossText geometry.now image.now lost.now i text.items) }
{
    let ranges = body_losses(alloc, image, geometry, lost, i)?;
    let text = losses_text(alloc, body_size(image, geometry, i), &ranges)?;
    Ok(text)
}

/// Returns the ranges of the logical blocks within the size of i-node `i`, an i-number of the volume whose block isn't lost, that can't be trusted.
///
/// Costs what [`losses`] costs. An error: memory ran out.
pub(crate) fn body_losses(
    alloc: Global,
    image: &Image,
    geometry: &Geometry,
    lost: &[bool],
    i: u16,
) -> Result<Vec<LostRange>, AllocError>
    requires fits { Fits geometry.now image.now }
    requires first { 1 ≤ i }
    requires last { i ≤ geometry.now.last_inode }
    ensures exact { IfOk result (λ ranges. AreLosses geometry.now image.now lost.now i ranges.items) }
    ensures few { IfOk result (λ ranges. length ranges.items ≤ 2 ^ 32) }
{
    let end = body_size(image, geometry, i).div_ceil(BLOCK as u32);
    let ranges = losses(alloc, image, geometry, lost, i, end)?;
    Ok(ranges)
}

/// Returns the number of lost bytes of a file of this size, and the ranges.
fn losses_text(alloc: Global, bytes: u32, ranges: &[LostRange]) -> Result<Vec<u8>, AllocError>
    requires { length ranges.now ≤ 2 ^ 32 }
    ensures { IfOk result (λ text. text.items ≡ counts_text bytes ranges.now ++ ranges_text bytes ranges.now) }
{
    let mut text = counts_text(alloc, bytes, ranges)?.into_bytes();
    push_ranges(alloc, bytes, ranges, &mut text)?;
    Ok(text)
}

/// Returns the number of lost bytes of a file of this size, in words.
#[tactic(auto, unfolding(crate::specs::LossTexts::counts_text))]
fn counts_text(alloc: Global, bytes: u32, ranges: &[LostRange]) -> Result<String, AllocError>
    requires { length ranges.now ≤ 2 ^ 32 }
    ensures { IfOk result (λ text. string_bytes text ≡ counts_text bytes ranges.now) }
{
    let count = lost_bytes(bytes, ranges);
    format!(in alloc; "{count} of {bytes} bytes are lost: ")
}

/// Returns the number of bytes that a file of this size has in the ranges.
fn lost_bytes(bytes: u32, ranges: &[LostRange]) -> u64
    requires { length ranges.now ≤ 2 ^ 32 }
    ensures { result ≡ sum (map (range_bytes bytes) ranges.now) }
{
    let mut count = 0;
    for range in ranges {
        count += u64::from(range_bytes(bytes, range));
    }
    count
}

/// Returns the number of bytes that a file of this size has in a range.
fn range_bytes(bytes: u32, range: &LostRange) -> u32
    ensures { result ≡ range_bytes bytes range.now }
{
    let first = BLOCK as u64 * u64::from(range.first);
    end_of(bytes, range).saturating_sub(first) as u32
}

/// Returns the first byte after a range, or the size of the file if the range goes on past it.
pub(crate) fn end_of(bytes: u32, range: &LostRange) -> u64
    ensures { result ≡ min (512 * range.now.end) bytes }
{
    (BLOCK as u64 * u64::from(range.end)).min(u64::from(bytes))
}

/// Appends the ranges of a file of this size.
fn push_ranges(
    alloc: Global,
    bytes: u32,
    ranges: &[LostRange],
    text: &mut Vec<u8>,
) -> Result<(), AllocError>
    ensures { OnOk result (text.new.items ≡ text.old.items ++ ranges_text bytes ranges.now) }
{
    let Some((first, others)) = ranges.split_first() else {
        return Ok(());
    };
    push_range(alloc, bytes, first, text)?;
    let named = others.len().min(MORE);
    push_more(alloc, bytes, &others[..named], text)?;
    if others.len() > MORE {
        text.extend_from_slice(b", ..")?;
    }
    Ok(())
}

/// Appends ranges of a file of this size, each with a comma before it.
fn push_more(
    alloc: Global,
    bytes: u32,
    ranges: &[LostRange],
    text: &mut Vec<u8>,
) -> Result<(), AllocError>
    ensures { OnOk result (text.new.items ≡ text.old.items ++ flat_map (next_text bytes) ranges.now) }
{
    for range in ranges {
        push_next(alloc, bytes, range, text)?;
    }
    Ok(())
}

/// Appends a comma and a range of a file of this size.
fn push_next(
    alloc: Global,
    bytes: u32,
    range: &LostRange,
    text: &mut Vec<u8>,
) -> Result<(), AllocError>
    ensures { OnOk result (text.new.items ≡ text.old.items ++ next_text bytes range.now) }
{
    text.extend_from_slice(b", ")?;
    push_range(alloc, bytes, range, text)
}

/// Appends a range of a file of this size.
#[tactic(auto, unfolding(crate::specs::LossTexts::range_text))]
fn push_range(
    alloc: Global,
    bytes: u32,
    range: &LostRange,
    text: &mut Vec<u8>,
) -> Result<(), AllocError>
    ensures { OnOk result (text.new.items ≡ text.old.items ++ range_text bytes range.now) }
{
    let first = BLOCK as u64 * u64::from(range.first);
    let last = end_of(bytes, range).saturating_sub(1);
    let named = format!(in alloc; "{first}-{last}")?;
    text.extend_from_slice(named.as_bytes())?;
    Ok(())
}
