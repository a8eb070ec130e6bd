//! Times of the last change of a volume or a node.
ghost use Rattle.std.specs.Prelude.{◌≡◌, ◌≢◌, ℕ, ◌+◌, ◌≤◌};
ghost use Rattle.std.specs.Option.{option_map};
ghost use Rattle.pdp_words.specs.Words.{SameOutside};
ghost use Rattle.vol_layout.specs.Edition.{constants};
ghost use Rattle.vol_layout.specs.Inode.{inode_place};
ghost use Rattle.vol_layout.specs.Super.{time_place};
ghost use Rattle.vol_layout.specs.declared.mode.Kind.TheVariants as kinds;
ghost use Rattle.vol_file.specs.Rules.{kind_at};
ghost use Rattle.vol_dir.specs.Tree.{state};
ghost use Rattle.vol_judge.specs.Graph.{graph_of};
ghost use Rattle.vol_judge.specs.GraphEdits.{IsSameGraph};
ghost use Rattle.vol_change.specs.Changed.{Changed, IsAny, as_before};
ghost use Rattle.vol_change.specs.Edits.{at_time, change_node, modified, with_times};
ghost use Rattle.vol_change.specs.Unused.{KeepsAllUnused};
ghost use Rattle.vol_change.specs.Whole.{Rules3To8, HasNode};

use pdp_words::Image;
use vol_layout::i_list::inode;
use vol_layout::{Geometry, Inode, Super, put_inode};

/// Sets the time of the volume's last change to `now`, in seconds. No other byte changes.
pub fn put_time(image: &mut Image, geometry: &Geometry, now: u32)
    requires rules { Rules3To8 geometry.now image.old }
    ensures changed { Changed geometry.now image.old image.new IsAny
        (at_time now (state geometry.now image.old)) as_before }
    ensures graph { IsSameGraph (graph_of geometry.now image.old) (graph_of geometry.now image.new) }
    ensures others { SameOutside image.old image.new (time_place geometry.now.edition) (time_place geometry.now.edition + 4) }
{
    let super_block = Super {
        edition: geometry.edition,
    };
    super_block.put_time(image, now);
}

/// Sets the time of the last change of node `i`'s bytes or entries to `now`, in seconds. In the seventh edition, also sets the time of its i-node's
/// last change. Node `i` isn't free.
pub fn touch(image: &mut Image, geometry: &Geometry, i: u16, now: u32)
    requires node { HasNode geometry.now image.old i }
    ensures changed { Changed geometry.now image.old image.new IsAny
        (change_node i (modified now) (state geometry.now image.old)) as_before }
    ensures graph { IsSameGraph (graph_of geometry.now image.old) (graph_of geometry.now image.new) }
    ensures unused { KeepsAllUnused geometry.now image.old image.new }
    ensures others { SameOutside image.old image.new (inode_place geometry.now.edition i)
        (inode_place geometry.now.edition i + (constants geometry.now.edition).inode_bytes) }
{
    let node = inode(image, geometry, i);
    let touched = Inode {
        modified: now,
        changed: stamp(node.changed, now),
        ..node
    };
    put_inode(image, geometry, i, &touched);
}

/// Sets the times of node `i`, in seconds: `accessed` for its last access, `modified` for its last modification, and in the seventh edition `now` for
/// its i-node's change. Node `i` may be of any kind but isn't free.
pub fn put_times(
    image: &mut Image,
    geometry: &Geometry,
    i: u16,
    accessed: u32,
    modified: u32,
    now: u32,
)
    requires node { HasNode geometry.now image.old i }
    ensures changed { Changed geometry.now image.old image.new IsAny
        (change_node i (with_times now accessed modified) (state geometry.now image.old)) as_before }
    ensures graph { IsSameGraph (graph_of geometry.now image.old) (graph_of geometry.now image.new) }
    ensures unused { KeepsAllUnused geometry.now image.old image.new }
    ensures others { SameOutside image.old image.new (inode_place geometry.now.edition i)
        (inode_place geometry.now.edition i + (constants geometry.now.edition).inode_bytes) }
{
    let node = inode(image, geometry, i);
    let timed = Inode {
        accessed,
        modified,
        changed: stamp(node.changed, now),
        ..node
    };
    put_inode(image, geometry, i, &timed);
}

/// Returns the new time of an i-node's change: `now`, or `None` in the sixth edition, which doesn't store one.
pub(crate) fn stamp(changed: Option<u32>, now: u32) -> Option<u32>
    ensures { result ≡ option_map (λ _. now) changed }
{
    changed.map(|_| now)
}
