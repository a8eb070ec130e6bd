//! Removing a name of a node.
ghost use Rattle.std.specs.Prelude.{◌≡◌, ◌≢◌, ℕ, ◌<◌, ◌≤◌, Some, ◌++◌, [], ◌∷◌, ◌*◌, nat_le, if◌then◌else◌};
ghost use Rattle.vol_layout.specs.Inode.{inode_of};
ghost use Rattle.vol_layout.specs.declared.mode.Kind.TheVariants as kinds;
ghost use Rattle.vol_file.specs.Rules.{kind_at};
ghost use Rattle.vol_dir.specs.Entries.{IsDirectory, slots};
ghost use Rattle.vol_dir.specs.Names.{get};
ghost use Rattle.vol_dir.specs.Search.{slot_named};
ghost use Rattle.vol_dir.specs.Tree.{place_count, shapes, state};
ghost use Rattle.vol_change.specs.Alone.{KeepsContent};
ghost use Rattle.vol_change.specs.Changed.{FreeBecomes, KeepsFilesBut, as_before, blocks_freed, PutsInBody};
ghost use Rattle.vol_change.specs.Edits.{at_time};
ghost use Rattle.vol_change.specs.Nodes.{names_at};
ghost use Rattle.vol_change.specs.Unused.{IsCleared, KeepsUnused, KeepsUnusedBut};
ghost use Rattle.vol_change.specs.Effects.{after_unlink};
ghost use Rattle.vol_change.specs.Ready.{Rules1To12, Becomes};

use crate::entries::leave;
use crate::free::free_node;
use crate::links::drop_link;
use crate::times::put_time;
use pdp_words::Image;
use vol_layout::Geometry;
use vol_layout::i_list::inode;

/// Removes the entry `name` of directory `dir`, which is for node `i`, not a directory. If this is the node's last name, frees the node: its blocks,
/// its i-node and its i-number. Returns the number of blocks freed. The time of the call is `moment`, in seconds.
///
/// Costs writing the slot and, if the name is the last one, freeing the node.
pub fn unlink(
    image: &mut Image,
    geometry: &Geometry,
    dir: u16,
    slot: u32,
    name: &[u8],
    i: u16,
    moment: u32,
) -> u32
    requires ready { Rules1To12 geometry.now image.old }
    requires directory { IsDirectory geometry.now image.old dir }
    requires slot { slot ≡ slot_named name.now (slots geometry.now image.old dir) }
    requires named { get (names_at (state geometry.now image.old).tree dir) name.now ≡ Some i }
    requires other { kind_at geometry.now image.old i ≢ kinds.Directory }
    ensures changes { Becomes geometry.now image.old image.new
        (at_time moment (after_unlink (state geometry.now image.old) moment dir name.now)) }
    ensures freed { (inode_of geometry.now.edition image.old i).links ≤ 1
        → FreeBecomes geometry.now image.old image.new (λ blocks. blocks_freed geometry.now image.old i ++ blocks) }
    ensures list { 1 < (inode_of geometry.now.edition image.old i).links → FreeBecomes geometry.now image.old image.new as_before }
    ensures count { result ≡ (if nat_le (inode_of geometry.now.edition image.old i).links 1
        then place_count geometry.now.edition (shapes geometry.now image.old i) else 0) }
    ensures kept { 1 < (inode_of geometry.now.edition image.old i).links → KeepsContent geometry.now image.old image.new i }
    ensures bytes { PutsInBody geometry.now image.old image.new dir (16 * slot) (0 ∷ 0 ∷ []) }
    ensures files { KeepsFilesBut geometry.now image.old image.new dir i }
    ensures cleared { (inode_of geometry.now.edition image.old i).links ≤ 1 → IsCleared geometry.now image.new i }
    ensures unused { 1 < (inode_of geometry.now.edition image.old i).links → KeepsUnused geometry.now image.old image.new i }
    ensures others { KeepsUnusedBut geometry.now image.old image.new i }
{
    leave(image, geometry, dir, slot, name, moment);
    let given = if inode(image, geometry, i).links <= 1 {
        free_node(image, geometry, i)
    } else {
        drop_link(image, geometry, i, moment);
        0
    };
    put_time(image, geometry, moment);
    given
}
