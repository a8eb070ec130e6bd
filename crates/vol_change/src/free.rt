//! Freeing nodes.
ghost use Rattle.std.specs.Prelude.{◌≡◌, ◌≢◌, ℕ, ◌<◌, ◌≤◌, List, ◌++◌};
ghost use Rattle.vol_layout.specs.Edition.{constants};
ghost use Rattle.vol_layout.specs.BlockPointers.{IsPlaceOf, named};
ghost use Rattle.vol_layout.specs.declared.mode.Kind.TheVariants as kinds;
ghost use Rattle.vol_dir.specs.Tree.{place_count, shapes, state};
ghost use Rattle.vol_judge.specs.Graph.{graph_of};
ghost use Rattle.vol_change.specs.Changed.{Changed, FreeBecomes, IsOther, blocks_freed};
ghost use Rattle.vol_change.specs.Alone.{ChangesOnly};
ghost use Rattle.vol_change.specs.Edits.{remove_node};
ghost use Rattle.vol_change.specs.NodeGraphs.{DropsNode};
ghost use Rattle.vol_change.specs.Unused.{IsCleared, KeepsUnusedBut};
ghost use Rattle.vol_change.specs.Whole.{Rules3To8};

use pdp_words::Image;
use vol_file::truncate;
use vol_free::give_inode;
use vol_layout::i_list::kind;
use vol_layout::{Geometry, Kind, clear_inode};

/// Frees node `i`, which isn't the root. Puts its blocks on the free list, clears all bytes of its i-node, and puts its i-number in the cache if
/// there is room. Returns the number of blocks freed. Takes no memory.
///
/// Costs as much as truncating the file, if the node is one.
pub fn free_node(image: &mut Image, geometry: &Geometry, i: u16) -> u32
    requires rules { Rules3To8 geometry.now image.old }
    requires above { (constants geometry.now.edition).root < i }
    requires last { i ≤ geometry.now.last_inode }
    ensures changed { Changed geometry.now image.old image.new (IsOther i)
        (remove_node i (state geometry.now image.old)) (λ blocks. blocks_freed geometry.now image.old i ++ blocks) }
    ensures count { result ≡ place_count geometry.now.edition (shapes geometry.now image.old i) }
    ensures graph { DropsNode (graph_of geometry.now image.old) (graph_of geometry.now image.new) i }
    ensures cleared { IsCleared geometry.now image.new i }
    ensures others { KeepsUnusedBut geometry.now image.old image.new i }
{
    let given = free_blocks(image, geometry, i);
    clear_inode(image, geometry, i);
    give_inode(image, geometry, i);
    given
}

/// Truncates node `i` to zero bytes if it is a file, and returns the number of blocks freed.
fn free_blocks(image: &mut Image, geometry: &Geometry, i: u16) -> u32
    requires rules { Rules3To8 geometry.now image.old }
    requires first { 1 ≤ i }
    requires last { i ≤ geometry.now.last_inode }
    ensures rules { Rules3To8 geometry.now image.new }
    ensures only { ChangesOnly geometry.now image.old image.new i }
    ensures others { KeepsUnusedBut geometry.now image.old image.new i }
    ensures free { FreeBecomes geometry.now image.old image.new (λ blocks. blocks_freed geometry.now image.old i ++ blocks) }
    ensures count { result ≡ place_count geometry.now.edition (shapes geometry.now image.old i) }
    ensures none { (p : List ℕ) → IsPlaceOf geometry.now image.new i p → named geometry.now image.new i p ≡ 0 }
{
    match kind(image, geometry, i) {
        Kind::Regular | Kind::Directory => truncate(image, geometry, i, 0),
        Kind::Free | Kind::Special | Kind::Odd => 0,
    }
}
