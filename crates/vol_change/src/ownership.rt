//! Permission bits and owners.
ghost use Rattle.std.specs.Prelude.{◌≡◌, ◌+◌, ◌≤◌};
ghost use Rattle.pdp_words.specs.Words.{SameOutside};
ghost use Rattle.vol_layout.specs.Edition.{constants};
ghost use Rattle.vol_layout.specs.Body.{body};
ghost use Rattle.vol_layout.specs.Inode.{inode_place};
ghost use Rattle.vol_layout.specs.BlockPointers.{IsFile};
ghost use Rattle.vol_file.specs.Rules.{kind_at};
ghost use Rattle.vol_dir.specs.Tree.{state};
ghost use Rattle.vol_judge.specs.Graph.{graph_of};
ghost use Rattle.vol_judge.specs.GraphEdits.{IsSameGraph};
ghost use Rattle.vol_change.specs.Changed.{Changed, IsAny, IsOther, as_before};
ghost use Rattle.vol_change.specs.Edits.{change_node, with_owner, with_permission_bits};
ghost use Rattle.vol_change.specs.Unused.{KeepsAllUnused};
ghost use Rattle.vol_change.specs.Whole.{Rules3To8, HasNode};

use crate::times::stamp;
use pdp_words::Image;
use vol_layout::i_list::inode;
use vol_layout::{Geometry, Inode, put_inode};

/// Sets the permission bits of node `i`, which isn't free, to those bits of `permissions` that are in octal 7777. In the seventh edition, also sets
/// the time of its i-node's last change to `now`, in seconds. The rest of the mode doesn't change.
pub fn put_permissions(image: &mut Image, geometry: &Geometry, i: u16, permissions: u16, now: u32)
    requires node { HasNode geometry.now image.old i }
    ensures changed { Changed geometry.now image.old image.new (IsOther i)
        (change_node i (with_permission_bits now permissions) (state geometry.now image.old)) as_before }
    ensures graph { IsSameGraph (graph_of geometry.now image.old) (graph_of geometry.now image.new) }
    ensures kind { kind_at geometry.now image.new i ≡ kind_at geometry.now image.old i }
    ensures bytes { IsFile geometry.now image.old i → body geometry.now image.new i ≡ body geometry.now image.old i }
    ensures unused { KeepsAllUnused geometry.now image.old image.new }
    ensures others { SameOutside image.old image.new (inode_place geometry.now.edition i)
        (inode_place geometry.now.edition i + (constants geometry.now.edition).inode_bytes) }
{
    let node = inode(image, geometry, i);
    let permitted = Inode {
        mode: node.mode.with_permissions(permissions),
        changed: stamp(node.changed, now),
        ..node
    };
    put_inode(image, geometry, i, &permitted);
}

/// Changes the user and group of node `i`, which isn't free. In the seventh edition, also sets the time of its i-node's last change to `now`, in
/// seconds.
pub fn put_owner(image: &mut Image, geometry: &Geometry, i: u16, uid: u16, gid: u16, now: u32)
    requires node { HasNode geometry.now image.old i }
    requires user { uid ≤ (constants geometry.now.edition).id_limit }
    requires group { gid ≤ (constants geometry.now.edition).id_limit }
    ensures changed { Changed geometry.now image.old image.new IsAny
        (change_node i (with_owner now uid gid) (state geometry.now image.old)) as_before }
    ensures graph { IsSameGraph (graph_of geometry.now image.old) (graph_of geometry.now image.new) }
    ensures unused { KeepsAllUnused geometry.now image.old image.new }
    ensures others { SameOutside image.old image.new (inode_place geometry.now.edition i)
        (inode_place geometry.now.edition i + (constants geometry.now.edition).inode_bytes) }
{
    let node = inode(image, geometry, i);
    let owned = Inode {
        uid,
        gid,
        changed: stamp(node.changed, now),
        ..node
    };
    put_inode(image, geometry, i, &owned);
}
