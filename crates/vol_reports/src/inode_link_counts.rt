//! The link counts of an image.
ghost use Rattle.std.specs.Prelude.{◌≡◌, ◌≤◌, IfOk};
ghost use Rattle.vol_layout.specs.Geometry.{Fits};
ghost use Rattle.vol_reports.specs.Dcheck.{link_count, wants_entry};
ghost use Rattle.vol_reports.specs.Counted.{HasLinkCounts};

use pdp_words::Image;
use std::alloc::{AllocError, Global};
use vol_layout::i_list::{inode, kind};
use vol_layout::{Geometry, Kind};

/// The link count of an i-number, which the entry report compares with the number of its entries.
#[derive(Clone, Copy)]
pub struct LinkCount {
    /// The link count, or 0 if the i-node is free.
    pub links: u16,
    /// True if the i-number must have an entry.
    pub wants_entry: bool,
}

/// Returns the link counts of an image, starting with i-number 1. Reads only the i-list. Takes four bytes for each i-number.
pub fn link_counts(
    alloc: Global,
    image: &Image,
    geometry: &Geometry,
) -> Result<Vec<LinkCount>, AllocError>
    requires fits { Fits geometry.now image.now }
    ensures { IfOk result (λ links. HasLinkCounts geometry.now image.now links.items) }
{
    let mut links = Vec::new(alloc);
    for before in 0..geometry.last_inode {
        let link_count = link_count(image, geometry, before + 1);
        links.push(link_count)?;
    }
    Ok(links)
}

/// Returns the link count of i-number `i`.
fn link_count(image: &Image, geometry: &Geometry, i: u16) -> LinkCount
    requires fits { Fits geometry.now image.now }
    requires first { 1 ≤ i }
    requires last { i ≤ geometry.now.last_inode }
    ensures links { result.links ≡ link_count geometry.now image.now i }
    ensures wanted { result.wants_entry ≡ wants_entry geometry.now image.now i }
{
    if kind(image, geometry, i) == Kind::Free {
        return LinkCount {
            links: 0,
            wants_entry: false,
        };
    }
    LinkCount {
        links: inode(image, geometry, i).links,
        wants_entry: geometry.edition.constants().root <= i,
    }
}
