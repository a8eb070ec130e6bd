//! The walk over everything in a volume that has an i-node.
ghost use Rattle.std.specs.Prelude.{◌≡◌, ◌+◌, ◌≤◌, ◌&&◌, IfOk, All, map, true};
ghost use Rattle.vol_layout.specs.Geometry.{Fits};
ghost use Rattle.vol_dir.specs.Tree.{is_number};
ghost use Rattle.vol_dir.specs.Walk.{is_nil};
ghost use Rattle.vol_judge.specs.Directories.{root_of};
ghost use Rattle.vol_archive.specs.Export.{is_directory};
ghost use Rattle.vol_archive.specs.Marks.{AreFirsts};
ghost use Rattle.vol_archive.specs.Walk.{lost_entry, Walks};
ghost use Rattle.vol_archive.specs.Rescue.{is_missed, with_first, IsRescue, IsRescued, IsRescuedUpTo, IsWalkWith};

use crate::export_tree::is_directory;
use crate::met_entries::MetEntry;
use crate::names::{lost_entries, lost_entry};
use crate::tree_walk::{
    Walked, push_all, push_lost_directory, role_of, unwalked, walk_on, walk_tree,
};
use pdp_words::Image;
use std::alloc::{AllocError, Global};
use vol_layout::Geometry;

/// Everything that is rescued of a volume.
#[derive(Drop)]
pub struct Rescue {
    /// All visited entries, in the order of the walk.
    pub founds: Vec<MetEntry>,
    /// The i-nodes that the root and the orphans don't reach, in the order in which they were visited by their numbers.
    pub unreached: Vec<u16>,
}

/// The state of a rescue that begins at the root.
#[derive(Drop)]
struct Rescued {
    /// The state of the walk.
    walked: Walked,
    /// The i-nodes that were missed and then visited by their numbers.
    unreached: Vec<u16>,
}

/// Returns everything that [`walk`](crate::walk) visits below directory `start`, then the `orphans`, i-nodes without a directory entry, and then the
/// i-nodes that are still missed, as those in a ring of directories, each with everything below it. If the root is no directory and `start` is the
/// root, returns only these i-nodes, and the root is one of them.
///
/// The i-nodes that are missed are those of a walk from the root, whatever `start` is: as long as an i-node isn't a member, the least such i-node is
/// visited next. So if `start` is the root, each i-node of a known kind is a member, except the root's directory itself. Their paths are
/// `lost+found/#` and the i-number. Before the first comes a directory `lost+found` with the permissions, the owner and the times of `start`, unless
/// an entry has that path or `start` is no directory.
///
/// Costs as much as a walk from the root; if `start` isn't the root, also as much as a walk from `start`.
pub fn rescue_below(
    alloc: Global,
    image: &Image,
    geometry: &Geometry,
    start: u16,
    orphans: &[u16],
) -> Result<Rescue, AllocError>
    requires { Fits geometry.now image.now }
    ensures rescue { IfOk result (λ rescue. IsRescue geometry.now image.now start orphans.now rescue.unreached.items rescue.founds.items) }
    ensures numbers { IfOk result (λ rescue. All (λ i. is_number geometry.now i ≡ true) rescue.unreached.items) }
{
    let rescued = rescue_all(alloc, image, geometry, orphans)?;
    let Rescued { walked, unreached } = rescued;
    if start == geometry.edition.constants().root {
        return Ok(Rescue {
            founds: walked.founds,
            unreached,
        });
    }
    let mut lost = Vec::from_slice(alloc, orphans)?;
    lost.extend_from_slice(&unreached)?;
    let founds = walk_with(alloc, image, geometry, start, &lost)?.founds;
    Ok(Rescue { founds, unreached })
}

/// Walks over everything in a volume, from the root on.
fn rescue_all(
    alloc: Global,
    image: &Image,
    geometry: &Geometry,
    orphans: &[u16],
) -> Result<Rescued, AllocError>
    requires { Fits geometry.now image.now }
    ensures { IfOk result (λ after. IsRescued geometry.now image.now orphans.now after.unreached.items after.walked.founds.items) }
{
    let root = geometry.edition.constants().root;
    let mut rescued = Rescued {
        walked: walk_with(alloc, image, geometry, root, orphans)?,
        unreached: Vec::new(alloc),
    };
    for i in root..=geometry.last_inode {
        rescued = rescue_missed(alloc, image, geometry, orphans, rescued, i)?;
    }
    Ok(rescued)
}

/// Continues a rescue with i-node `i` and everything below it, if that i-node is still missed.
fn rescue_missed(
    alloc: Global,
    image: &Image,
    geometry: &Geometry,
    orphans: &[u16],
    rescued: Rescued,
    i: u16,
) -> Result<Rescued, AllocError>
    requires fits { Fits geometry.now image.now }
    requires root { root_of geometry.now ≤ i }
    requires last { i ≤ geometry.now.last_inode }
    requires before { IsRescuedUpTo geometry.now image.now orphans.now rescued.unreached.items rescued.walked.founds.items i }
    requires firsts { AreFirsts geometry.now rescued.walked.firsts.items rescued.walked.founds.items }
    ensures firsts { IfOk result (λ after. AreFirsts geometry.now after.walked.firsts.items after.walked.founds.items) }
    ensures after { IfOk result (λ after. IsRescuedUpTo geometry.now image.now orphans.now after.unreached.items after.walked.founds.items (i + 1)) }
{
    let root = geometry.edition.constants().root;
    if !is_missed(alloc, image, geometry, &rescued.walked, i)? {
        return Ok(rescued);
    }
    let Rescued {
        walked,
        mut unreached,
    } = rescued;
    let walked = begin_lost(alloc, image, geometry, orphans, &unreached, i, walked)?;
    let walked = walk_lost(alloc, image, geometry, root, &[i], walked)?;
    unreached.push(i)?;
    Ok(Rescued { walked, unreached })
}

/// Appends the directory of lost i-nodes to a walk from the root, before i-node `i`: if that is the first one in it, the root is a directory, and no
/// entry has its path.
fn begin_lost(
    alloc: Global,
    image: &Image,
    geometry: &Geometry,
    orphans: &[u16],
    unreached: &[u16],
    i: u16,
    walked: Walked,
) -> Result<Walked, AllocError>
    requires fits { Fits geometry.now image.now }
    requires firsts { AreFirsts geometry.now walked.firsts.items walked.founds.items }
    ensures firsts { IfOk result (λ after. AreFirsts geometry.now after.firsts.items after.founds.items) }
    ensures met { IfOk result (λ after. after.founds.items ≡ with_first ((is_nil orphans.now && is_nil unreached.now)
        && is_directory geometry.now image.now (root_of geometry.now)) (root_of geometry.now) i walked.founds.items) }
{
    let root = geometry.edition.constants().root;
    let is_first = orphans.is_empty() && unreached.is_empty();
    if is_first && is_directory(image, geometry, root) {
        push_lost_directory(alloc, root, &[i], walked)
    } else {
        Ok(walked)
    }
}

/// True if i-node `i` is missed by a walk from the root.
fn is_missed(
    alloc: Global,
    image: &Image,
    geometry: &Geometry,
    walked: &Walked,
    i: u16,
) -> Result<bool, AllocError>
    requires fits { Fits geometry.now image.now }
    requires firsts { AreFirsts geometry.now walked.now.firsts.items walked.now.founds.items }
    ensures { IfOk result (λ missed. missed ≡ is_missed geometry.now image.now (root_of geometry.now) walked.now.founds.items i) }
{
    let entry = lost_entry(alloc, i)?;
    let root = geometry.edition.constants().root;
    Ok(role_of(image, geometry, root, &walked.firsts, &entry).is_first())
}

/// Walks over everything below `start` if it is a directory, and then over these i-nodes, with everything below them.
fn walk_with(
    alloc: Global,
    image: &Image,
    geometry: &Geometry,
    start: u16,
    lost: &[u16],
) -> Result<Walked, AllocError>
    requires { Fits geometry.now image.now }
    ensures firsts { IfOk result (λ walked. AreFirsts geometry.now walked.firsts.items walked.founds.items) }
    ensures walk { IfOk result (λ walked. IsWalkWith geometry.now image.now start lost.now walked.founds.items) }
{
    if is_directory(image, geometry, start) {
        let walked = walk_tree(alloc, image, geometry, start)?;
        let walked = push_lost_directory(alloc, start, lost, walked)?;
        walk_lost(alloc, image, geometry, start, lost, walked)
    } else {
        let walked = unwalked(alloc, geometry)?;
        walk_lost(alloc, image, geometry, start, lost, walked)
    }
}

/// Continues a walk below `start` with these i-nodes, by their numbers, and everything below them.
fn walk_lost(
    alloc: Global,
    image: &Image,
    geometry: &Geometry,
    start: u16,
    lost: &[u16],
    walked: Walked,
) -> Result<Walked, AllocError>
    requires fits { Fits geometry.now image.now }
    requires firsts { AreFirsts geometry.now walked.firsts.items walked.founds.items }
    ensures firsts { IfOk result (λ after. AreFirsts geometry.now after.firsts.items after.founds.items) }
    ensures walk { IfOk result (λ after. Walks geometry.now image.now start walked.founds.items (map lost_entry lost.now) after.founds.items) }
{
    let mut pending = Vec::new(alloc);
    push_all(lost_entries(alloc, lost)?, &mut pending)?;
    walk_on(alloc, image, geometry, start, walked, pending)
}
