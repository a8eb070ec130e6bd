//! The lost bytes of a file.
ghost use Rattle.std.specs.Prelude.{◌≡◌, ◌≤◌, IfOk, map};
ghost use Rattle.vol_layout.specs.Geometry.{Fits};
ghost use Rattle.vol_losses.specs.Spans.{AreLostSpans, span_in};

use crate::loss_texts::{body_losses, end_of};
use crate::ranges::LostRange;
use crate::sure_blocks::body_size;
use pdp_words::{BLOCK, Image};
use std::alloc::{AllocError, Global};
use vol_layout::Geometry;

/// Bytes of a file that are lost, one after the other.
#[derive(Clone, Copy)]
pub struct LostSpan {
    /// The first.
    pub first: u64,
    /// The one after the last.
    pub end: u64,
}

/// Returns the lost bytes of i-node `i`, an i-number of the volume whose block isn't lost: all that [`loss_text`](crate::loss_text) names, and those that it
/// leaves out.
///
/// Costs what [`losses`](crate::losses) costs. An error: memory ran out.
pub fn lost_spans(
    alloc: Global,
    image: &Image,
    geometry: &Geometry,
    lost: &[bool],
    i: u16,
) -> Result<Vec<LostSpan>, AllocError>
    requires fits { Fits geometry.now image.now }
    requires first { 1 ≤ i }
    requires last { i ≤ geometry.now.last_inode }
    ensures { IfOk result (λ spans. AreLostSpans geometry.now image.now lost.now i spans.items) }
{
    let ranges = body_losses(alloc, image, geometry, lost, i)?;
    let spans = spans_in(alloc, body_size(image, geometry, i), &ranges)?;
    Ok(spans)
}

/// Returns the bytes that a file of this size has in each range.
fn spans_in(alloc: Global, bytes: u32, ranges: &[LostRange]) -> Result<Vec<LostSpan>, AllocError>
    ensures { IfOk result (λ spans. spans.items ≡ map (span_in bytes) ranges.now) }
{
    let mut spans = Vec::new(alloc);
    for range in ranges {
        spans.push(span_in(bytes, range))?;
    }
    Ok(spans)
}

/// Returns the bytes that a file of this size has in a range.
fn span_in(bytes: u32, range: &LostRange) -> LostSpan
    ensures { result ≡ span_in bytes range.now }
{
    LostSpan {
        first: BLOCK as u64 * u64::from(range.first),
        end: end_of(bytes, range),
    }
}
