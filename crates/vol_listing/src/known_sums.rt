//! The parts of a manifest that say which bytes of a node are lost.
ghost use Rattle.std.specs.Prelude.{◌≡◌, ◌≤◌, true, IfOk, OnOk, map, option_map};
ghost use Rattle.serde_json.specs.View.{members_view, view};
ghost use Rattle.vol_layout.specs.Geometry.{Fits};
ghost use Rattle.vol_listing.specs.KnownSums.{AreSpansIf, is_damaged};
ghost use Rattle.vol_listing.specs.Sums.{span_data, with_losses};

use crate::rows::is_number;
use pdp_words::Image;
use serde_json::{Map, Value, put};
use std::alloc::{AllocError, Global};
use vol_layout::Geometry;
use vol_losses::{LostSpan, is_whole, lost_spans};

/// True if i-node `i` isn't whole: its block is lost, or bytes of its file or directory are. Costs what [`is_whole`] costs, and nothing if there are no
/// marks.
pub(crate) fn is_damaged(image: &Image, geometry: &Geometry, lost: &[bool], i: u16) -> bool
    requires { Fits geometry.now image.now }
    ensures { result ≡ is_damaged geometry.now image.now lost.now i }
{
    !lost.is_empty() && is_number(geometry, i) && !is_whole(image, geometry, lost, i)
}

/// Returns the lost bytes of i-node `i`, if it isn't whole.
pub(crate) fn spans_if(
    alloc: Global,
    image: &Image,
    geometry: &Geometry,
    lost: &[bool],
    damaged: bool,
    i: u16,
) -> Result<Option<Vec<LostSpan>>, AllocError>
    requires fits { Fits geometry.now image.now }
    requires first { damaged ≡ true → 1 ≤ i }
    requires last { damaged ≡ true → i ≤ geometry.now.last_inode }
    ensures { IfOk result (λ spans. AreSpansIf damaged geometry.now image.now lost.now i (option_map (λ found. found.items) spans)) }
{
    if damaged {
        Ok(Some(lost_spans(alloc, image, geometry, lost, i)?))
    } else {
        Ok(None)
    }
}

/// Puts the lost bytes of a file into an object, if some are lost.
pub(crate) fn put_losses(
    alloc: Global,
    object: &mut Map<String, Value>,
    losses: Option<Vec<LostSpan>>,
) -> Result<(), AllocError>
    ensures { OnOk result (members_view object.new.entries ≡ with_losses (option_map (λ spans. spans.items) losses) (members_view object.old.entries)) }
{
    let Some(spans) = losses else {
        return Ok(());
    };
    let values = span_values(alloc, &spans)?;
    put(object, alloc, "lost", Value::Array(values))
}

/// Returns an array of two numbers for each span.
fn span_values(alloc: Global, spans: &[LostSpan]) -> Result<Vec<Value>, AllocError>
    ensures { IfOk result (λ values. map view values.items ≡ map span_data spans.now) }
{
    let mut values = Vec::new(alloc);
    for span in spans {
        values.push(span_value(alloc, *span)?)?;
    }
    Ok(values)
}

/// Returns a span as an array: the first byte, and the one after the last.
fn span_value(alloc: Global, span: LostSpan) -> Result<Value, AllocError>
    ensures { IfOk result (λ value. view value ≡ span_data span) }
{
    let mut ends = Vec::new(alloc);
    ends.push(Value::from(span.first))?;
    ends.push(Value::from(span.end))?;
    Ok(Value::Array(ends))
}
