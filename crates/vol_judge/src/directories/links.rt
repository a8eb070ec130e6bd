//! Rule 12: the link counts.
ghost use Rattle.std.specs.Prelude.{◌≤◌, IsTrue, ◌↔◌};
ghost use Rattle.vol_layout.specs.Geometry.{Fits};
ghost use Rattle.vol_judge.specs.Directories.{HasLinks};
ghost use Rattle.vol_judge.specs.EntryCounts.{HasCounts, IsCounted};
ghost use Rattle.vol_judge.specs.Finds.{Finds};
ghost use Rattle.vol_judge.specs.Links.{IsFirstLink};

use crate::finding::Finding;
use pdp_words::Image;
use vol_layout::i_list::{inode, kind};
use vol_layout::{Geometry, Kind};

/// Returns the first violation of rule 12: the first i-node whose link count is wrong. `counts` has the number of entries for each i-number.
///
/// Costs a read of each i-node. Takes no memory.
pub fn find_link(image: &Image, geometry: &Geometry, counts: &[u64]) -> Option<Finding>
    requires fits { Fits geometry.now image.now }
    requires counts { HasCounts geometry.now image.now counts.now }
    ensures { Finds (HasLinks geometry.now image.now) (IsFirstLink geometry.now image.now) result }
{
    for i in 1..=geometry.last_inode {
        let entries = counts[i as usize];
        if !is_counted(image, geometry, i, entries) {
            return Some(Finding::BadLinks(i, entries, inode(image, geometry, i).links));
        }
    }
    None
}

/// True if i-node `i` is free, or its link count is `count`, which must be at least 1 from the root's i-number on.
fn is_counted(image: &Image, geometry: &Geometry, i: u16, count: u64) -> bool
    requires fits { Fits geometry.now image.now }
    requires first { 1 ≤ i }
    requires last { i ≤ geometry.now.last_inode }
    ensures { IsTrue result ↔ IsCounted geometry.now image.now i count }
{
    let links = u64::from(inode(image, geometry, i).links);
    kind(image, geometry, i) == Kind::Free
        || links == count && (i < geometry.edition.constants().root || 1 <= links)
}
