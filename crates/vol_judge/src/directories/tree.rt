//! Rule 11: the tree of directories.
ghost use Rattle.std.specs.Prelude.{◌≡◌, ◌≢◌, ◌+◌, true, false, IfOk};
ghost use Rattle.vol_layout.specs.Geometry.{Fits};
ghost use Rattle.vol_dir.specs.Entries.{IsDirectory};
ghost use Rattle.vol_judge.specs.Directories.{IsTree, IsReached, root_of};
ghost use Rattle.vol_judge.specs.Finds.{Finds};
ghost use Rattle.vol_judge.specs.InodeMarks.{IsOnce};
ghost use Rattle.vol_judge.specs.Reach.{AreWalked};
ghost use Rattle.vol_judge.specs.DirectoryTree.{KnowsParents, IsEnteredAgain, IsFirstTree};

use crate::entry_walk::is_directory;
use crate::finding::Finding;
use pdp_words::Image;
use std::alloc::{AllocError, Global};
use vol_layout::Geometry;

/// Returns the first violation of rule 11. It is `again` if that is given: the first entry, other than `.` and `..`, that is for the root or isn't
/// the first entry for a directory. Otherwise it is the first directory that can't be reached from the root. `parents` has the directory that holds
/// an entry for each directory.
///
/// Costs a few reads of each i-node. Takes memory for two bytes per i-number.
pub fn find_tree(
    alloc: Global,
    image: &Image,
    geometry: &Geometry,
    again: Option<Finding>,
    parents: &[Option<u16>],
) -> Result<Option<Finding>, AllocError>
    requires fits { Fits geometry.now image.now }
    requires again { Finds (IsOnce geometry.now image.now) (IsEnteredAgain geometry.now image.now) again }
    requires parents { IsOnce geometry.now image.now → KnowsParents geometry.now image.now parents.now }
    ensures { IfOk result (Finds (IsTree geometry.now image.now) (IsFirstTree geometry.now image.now)) }
{
    if let Some(finding) = again {
        return Ok(Some(finding));
    }
    find_unreached(alloc, image, geometry, parents)
}

/// Returns the first directory that can't be reached from the root. There is at most one entry for each directory, other than `.` and `..`, and
/// `parents` has the directory that holds it.
fn find_unreached(
    alloc: Global,
    image: &Image,
    geometry: &Geometry,
    parents: &[Option<u16>],
) -> Result<Option<Finding>, AllocError>
    requires fits { Fits geometry.now image.now }
    requires once { IsOnce geometry.now image.now }
    requires parents { KnowsParents geometry.now image.now parents.now }
    ensures { IfOk result (Finds (IsTree geometry.now image.now) (IsFirstTree geometry.now image.now)) }
{
    let root = geometry.edition.constants().root;
    let mut walks = vec![in alloc; 0; geometry.last_inode as usize + 1]?;
    walks[root as usize] = root;
    for d in 1..=geometry.last_inode {
        if d != root
            && is_directory(image, geometry, d)
            && !goes_to_root(image, geometry, parents, d, &mut walks)
        {
            return Ok(Some(Finding::Unreached(d)));
        }
    }
    Ok(None)
}

/// True if the walk up from directory `d`, from parent to parent, reaches the root; false if it ends at a directory without a parent or in a cycle.
/// It marks each directory with `d`, and ends at a directory that an earlier walk marked, since the earlier walk reached the root.
fn goes_to_root(
    image: &Image,
    geometry: &Geometry,
    parents: &[Option<u16>],
    d: u16,
    walks: &mut [u16],
) -> bool
    requires fits { Fits geometry.now image.now }
    requires parents { KnowsParents geometry.now image.now parents.now }
    requires directory { IsDirectory geometry.now image.now d }
    requires below { d ≢ root_of geometry.now }
    requires walked { AreWalked geometry.now image.now d walks.old }
    ensures walked { result ≡ true → AreWalked geometry.now image.now (d + 1) walks.new }
    ensures reached { result ≡ true → IsReached geometry.now image.now d }
    ensures unreached { result ≡ false → IsReached geometry.now image.now d → ⊥ }
{
    let mut at = d;
    while walks[at as usize] == 0 {
        walks[at as usize] = d;
        let Some(up) = parents[at as usize] else {
            return false;
        };
        at = up;
    }
    walks[at as usize] != d
}
