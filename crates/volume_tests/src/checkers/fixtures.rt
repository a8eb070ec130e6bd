//! An image, and reports as text.
use crate::fixtures::new_bytes;
use pdp_words::Image;
use std::alloc::{AllocError, Global};
use std::process::Abort;
use vol_check::Report;
use vol_layout::Edition;

/// The block report of the image.
pub(crate) const BLOCKS: &[u8] =
    b"files 0\ndirectories 1\nspecial 0\nodd 0\nused 1\nfree 95\nmissing 0\n";

/// Returns the image of a new volume, of the sixth edition.
pub(crate) fn sixth_image(rt: &impl Abort, alloc: Global) -> Image {
    Image::from_bytes(new_bytes(rt, alloc, Edition::V6))
}

/// Checks the text of a report.
pub(crate) fn check_report(
    rt: &impl Abort,
    alloc: Global,
    report: Result<Report, AllocError>,
    wanted: &[u8],
) {
    let report = report.expect(rt, "memory for the report");
    let mut text = Vec::new(alloc);
    report
        .push_text(&mut text)
        .expect(rt, "memory for the text");
    assert_eq!(rt; text.as_slice(), wanted);
}
