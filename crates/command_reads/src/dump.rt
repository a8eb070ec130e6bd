//! `dump`: shows the bytes of a block or an i-node, field by field.
ghost use Rattle.std.specs.Prelude.{◌≡◌, ◌≤◌, ◌+◌, ◌++◌, length, IfErr, IfOk, OnOk};
ghost use Rattle.vol_layout.specs.Geometry.{Fits, geometry_read};
ghost use Rattle.vol_fields.specs.Rows.{AreWithin};
ghost use Rattle.command_reads.specs.Dump.{IsDump, IsDumpFault, IsDumpText, meaning_text, row_line, rows_in, rows_text, span_of};
ghost use Rattle.command_reads.specs.Dump.{inode_span, block_span, path_span};

use crate::faults::unmeasured;
use command_faults::Fault;
use command_terms::{DumpForm, DumpTarget};
use field_json::{push_mode_words, rows_json};
use pdp_words::{BLOCK, Image};
use std::alloc::{AllocError, Global};
use vol_dir::{Cred, Refusal, walk};
use vol_fields::{Radix, Role, Row, ValueKind, block_roles, push_row, rows_of};
use vol_layout::{Edition, Geometry};
use vol_listing::push_moment;

/// Bytes of an image that follow one another.
#[derive(Clone, Copy)]
pub struct Span {
    /// The first byte.
    pub from: usize,
    /// The byte after the last one.
    pub to: usize,
}

/// Returns the bytes of a block or an i-node, a line a field, or as one JSON object. The image must keep rules 1 and 2, and may be any bytes otherwise. Fails if it breaks
/// one of these rules, has no such block or i-node, the path leads to none, or memory ran out.
///
/// Takes the time and the memory of [`block_roles`], and memory for the text.
pub(crate) fn dump_text(
    alloc: Global,
    edition: Edition,
    image: &Image,
    target: DumpTarget<'_>,
    form: DumpForm,
) -> Result<Vec<u8>, Fault>
    ensures text { IfOk result (λ text. IsDumpText edition image.now target.entry form text.items) }
    ensures fault { IfErr result (λ fault. IsDumpFault edition image.now target.entry fault) }
{
    match Geometry::read(edition, image) {
        Ok(geometry) => placed_text(alloc, edition, image, &geometry, target, form),
        Err(fault) => Err(unmeasured(fault)),
    }
}

/// Returns the text of a dump of an image whose geometry was read.
fn placed_text(
    alloc: Global,
    edition: Edition,
    image: &Image,
    geometry: &Geometry,
    target: DumpTarget<'_>,
    form: DumpForm,
) -> Result<Vec<u8>, Fault>
    requires fits { Fits geometry.now image.now }
    requires read { geometry_read edition image.now ≡ Ok geometry.now }
    ensures text { IfOk result (λ text. IsDumpText edition image.now target.entry form text.items) }
    ensures fault { IfErr result (λ fault. IsDumpFault edition image.now target.entry fault) }
{
    match span_of(image, geometry, target) {
        Ok(span) => Ok(span_text(alloc, image, geometry, span, form)?),
        Err(refusal) => Err(Fault::Refused(refusal)),
    }
}

/// Returns the place of what is dumped.
fn span_of(image: &Image, geometry: &Geometry, target: DumpTarget<'_>) -> Result<Span, Refusal>
    requires { Fits geometry.now image.now }
    ensures exact { result ≡ span_of geometry.now image.now target.entry }
    ensures order { IfOk result (λ span. span.from ≤ span.to) }
    ensures within { IfOk result (λ span. span.to ≤ length image.now) }
{
    match target {
        DumpTarget::Block(block) => block_span(image, geometry, block),
        DumpTarget::Inode(number) => inode_span(image, geometry, number),
        DumpTarget::Path(path) => match walk(image, geometry, Cred::ROOT, path.as_bytes()) {
            Ok(number) => inode_span(image, geometry, u32::from(number)),
            Err(refusal) => Err(refusal),
        },
    }
}

/// Returns the place of a block.
fn block_span(image: &Image, geometry: &Geometry, block: u32) -> Result<Span, Refusal>
    requires { Fits geometry.now image.now }
    ensures exact { result ≡ block_span geometry.now block }
    ensures order { IfOk result (λ span. span.from ≤ span.to) }
    ensures within { IfOk result (λ span. span.to ≤ length image.now) }
{
    image.fits_in_memory();
    if block >= geometry.zone_end {
        return Err(Refusal::NoEntry);
    }
    let from = BLOCK * block as usize;
    Ok(Span {
        from,
        to: from + BLOCK,
    })
}

/// Returns the place of the i-node with a number.
fn inode_span(image: &Image, geometry: &Geometry, number: u32) -> Result<Span, Refusal>
    requires { Fits geometry.now image.now }
    ensures exact { result ≡ inode_span geometry.now number }
    ensures order { IfOk result (λ span. span.from ≤ span.to) }
    ensures within { IfOk result (λ span. span.to ≤ length image.now) }
{
    image.fits_in_memory();
    if number == 0 || number > u32::from(geometry.last_inode) {
        return Err(Refusal::NoEntry);
    }
    let bytes = geometry.edition.constants().inode_bytes;
    let from = 2 * BLOCK + bytes * (number as usize - 1);
    Ok(Span {
        from,
        to: from + bytes,
    })
}

/// Returns the bytes at a place in this format.
fn span_text(
    alloc: Global,
    image: &Image,
    geometry: &Geometry,
    span: Span,
    form: DumpForm,
) -> Result<Vec<u8>, AllocError>
    requires fits { Fits geometry.now image.now }
    requires order { span.from ≤ span.to }
    requires within { span.to ≤ length image.now }
    ensures { IfOk result (λ text. IsDump geometry.now image.now form span text.items) }
{
    let roles = block_roles(alloc, image, geometry)?;
    let rows = rows_of(alloc, image, geometry, &roles, span.from, span.to)?;
    rows_in(alloc, image, geometry, &roles, span, form, &rows)
}

/// Returns the rows of the bytes at a place in this format.
fn rows_in(
    alloc: Global,
    image: &Image,
    geometry: &Geometry,
    roles: &[Role],
    span: Span,
    form: DumpForm,
    rows: &[Row],
) -> Result<Vec<u8>, AllocError>
    requires fits { Fits geometry.now image.now }
    requires within { span.to ≤ length image.now }
    requires rows { AreWithin span.to rows.now }
    ensures { IfOk result (λ text. text.items ≡ rows_in geometry.now roles.now image.now form span.from rows.now) }
{
    let (from, to) = (span.from, span.to);
    match form {
        DumpForm::Text(radix) => rows_text(alloc, image, geometry, roles, to, radix, rows),
        DumpForm::Json => {
            let text = rows_json(alloc, image, geometry, roles, from, to, rows)?;
            Ok(text.into_bytes())
        }
    }
}

/// Returns the lines of rows.
fn rows_text(
    alloc: Global,
    image: &Image,
    geometry: &Geometry,
    roles: &[Role],
    to: usize,
    radix: Radix,
    rows: &[Row],
) -> Result<Vec<u8>, AllocError>
    requires fits { Fits geometry.now image.now }
    requires within { to ≤ length image.now }
    requires rows { AreWithin to rows.now }
    ensures { IfOk result (λ text. text.items ≡ rows_text geometry.now roles.now image.now radix rows.now) }
{
    let mut text = Vec::new(alloc);
    for row in rows {
        push_line(alloc, &mut text, image, geometry, roles, radix, row)?;
    }
    Ok(text)
}

/// Appends a row, the meaning of its value, and a newline.
#[tactic(auto, unfolding(crate::specs::Dump::row_line))]
fn push_line(
    alloc: Global,
    text: &mut Vec<u8>,
    image: &Image,
    geometry: &Geometry,
    roles: &[Role],
    radix: Radix,
    row: &Row,
) -> Result<(), AllocError>
    requires fits { Fits geometry.now image.now }
    requires within { row.now.start + row.now.bytes ≤ length image.now }
    ensures { OnOk result (text.new.items ≡ text.old.items ++ row_line geometry.now roles.now image.now radix row.now) }
{
    push_row(alloc, text, image, geometry, roles, radix, row)?;
    if let Some(n) = row.number(image) {
        push_meaning(text, geometry, row.field.spot.name.value_kind(), n)?;
    }
    text.push(b'\n')?;
    Ok(())
}

/// Appends what a number means: a mode as letters, a time as a date.
fn push_meaning(
    text: &mut Vec<u8>,
    geometry: &Geometry,
    kind: ValueKind,
    n: u32,
) -> Result<(), AllocError>
    ensures { OnOk result (text.new.items ≡ text.old.items ++ meaning_text geometry.now.edition kind n) }
{
    match kind {
        ValueKind::Mode => {
            text.extend_from_slice(b"  ")?;
            push_mode_words(text, geometry.edition, n)
        }
        ValueKind::Moment => {
            text.extend_from_slice(b"  ")?;
            push_moment(text, n)
        }
        ValueKind::Number
        | ValueKind::Inode
        | ValueKind::Block
        | ValueKind::Name
        | ValueKind::Bytes => Ok(()),
    }
}
