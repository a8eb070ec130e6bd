//! Link counts.
ghost use Rattle.std.specs.Prelude.{◌≡◌, ◌≢◌, ℕ, ◌+◌, ◌-◌, ◌<◌, ◌≤◌};
ghost use Rattle.vol_layout.specs.Edition.{constants};
ghost use Rattle.vol_layout.specs.Inode.{inode_of};
ghost use Rattle.vol_layout.specs.declared.mode.Kind.TheVariants as kinds;
ghost use Rattle.vol_file.specs.Rules.{kind_at};
ghost use Rattle.vol_dir.specs.Tree.{state};
ghost use Rattle.vol_judge.specs.Graph.{graph_of};
ghost use Rattle.vol_change.specs.Changed.{Changed, IsAny, as_before};
ghost use Rattle.vol_change.specs.Edits.{add_link, change_node, drop_link, with_links};
ghost use Rattle.vol_change.specs.NodeGraphs.{SetsLinks};
ghost use Rattle.vol_change.specs.Unused.{KeepsAllUnused};
ghost use Rattle.vol_change.specs.Whole.{Rules3To8, HasNode};

use crate::times::stamp;
use pdp_words::Image;
use vol_layout::i_list::inode;
use vol_layout::{Geometry, Inode, put_inode};

/// Sets the link count of i-node `i`, which isn't free. In the seventh edition, also sets the time of its last change to `now`, in seconds.
pub fn put_links(image: &mut Image, geometry: &Geometry, i: u16, links: u16, now: u32)
    requires node { HasNode geometry.now image.old i }
    requires limit { links ≤ (constants geometry.now.edition).link_limit }
    ensures changed { Changed geometry.now image.old image.new IsAny
        (change_node i (with_links now links) (state geometry.now image.old)) as_before }
    ensures graph { SetsLinks (graph_of geometry.now image.old) (graph_of geometry.now image.new) i links }
    ensures unused { KeepsAllUnused geometry.now image.old image.new }
{
    let node = inode(image, geometry, i);
    let linked = Inode {
        links,
        changed: stamp(node.changed, now),
        ..node
    };
    put_inode(image, geometry, i, &linked);
}

/// Adds a link to i-node `i`, which isn't free and has fewer links than the limit. Sets the same time as [`put_links`].
pub fn add_link(image: &mut Image, geometry: &Geometry, i: u16, now: u32)
    requires node { HasNode geometry.now image.old i }
    requires room { (inode_of geometry.now.edition image.old i).links < (constants geometry.now.edition).link_limit }
    ensures changed { Changed geometry.now image.old image.new IsAny
        (add_link now i (state geometry.now image.old)) as_before }
    ensures graph { SetsLinks (graph_of geometry.now image.old) (graph_of geometry.now image.new) i
        ((inode_of geometry.now.edition image.old i).links + 1) }
    ensures unused { KeepsAllUnused geometry.now image.old image.new }
{
    let links = inode(image, geometry, i).links;
    put_links(image, geometry, i, links + 1, now);
}

/// Removes a link from i-node `i`, which isn't free and has at least one. Sets the same time as [`put_links`].
pub fn drop_link(image: &mut Image, geometry: &Geometry, i: u16, now: u32)
    requires node { HasNode geometry.now image.old i }
    requires some { 1 ≤ (inode_of geometry.now.edition image.old i).links }
    ensures changed { Changed geometry.now image.old image.new IsAny
        (drop_link now i (state geometry.now image.old)) as_before }
    ensures graph { SetsLinks (graph_of geometry.now image.old) (graph_of geometry.now image.new) i
        ((inode_of geometry.now.edition image.old i).links - 1) }
    ensures unused { KeepsAllUnused geometry.now image.old image.new }
{
    let links = inode(image, geometry, i).links;
    put_links(image, geometry, i, links - 1, now);
}
