//! Removing a directory.
ghost use Rattle.std.specs.Prelude.{◌≡◌, ◌≢◌, ℕ, ◌≤◌, List, not, false, Some, ◌++◌, [], ◌∷◌, ◌*◌};
ghost use Rattle.std.specs.List.{list_any};
ghost use Rattle.vol_dir.specs.Entries.{IsDirectory, slots};
ghost use Rattle.vol_dir.specs.Names.{get, is_dots};
ghost use Rattle.vol_dir.specs.Search.{slot_named};
ghost use Rattle.vol_dir.specs.Tree.{place_count, shapes, state};
ghost use Rattle.vol_change.specs.Changed.{FreeBecomes, KeepsFilesBut, blocks_freed, PutsInBody};
ghost use Rattle.vol_change.specs.Edits.{at_time};
ghost use Rattle.vol_change.specs.Nodes.{names_at};
ghost use Rattle.vol_change.specs.Unused.{IsCleared, KeepsUnusedBut};
ghost use Rattle.vol_change.specs.Effects.{after_rmdir};
ghost use Rattle.vol_change.specs.Ready.{Rules1To12, Becomes};

use crate::entries::leave;
use crate::free::free_node;
use crate::links::drop_link;
use crate::times::put_time;
use pdp_words::Image;
use vol_layout::Geometry;

/// Removes directory `i`, which has only `.` and `..`, and its entry `name` in directory `dir`. Frees its blocks, its i-node and its i-number; `dir`
/// loses the link from `..`. Returns the number of blocks freed. The time of the call is `moment`, in seconds.
///
/// Costs writing the slot and freeing the node.
pub fn rmdir(
    image: &mut Image,
    geometry: &Geometry,
    dir: u16,
    slot: u32,
    name: &[u8],
    i: u16,
    moment: u32,
) -> u32
    requires ready { Rules1To12 geometry.now image.old }
    requires directory { IsDirectory geometry.now image.old dir }
    requires slot { slot ≡ slot_named name.now (slots geometry.now image.old dir) }
    requires named { get (names_at (state geometry.now image.old).tree dir) name.now ≡ Some i }
    requires plain { is_dots name.now ≡ false }
    requires gone { IsDirectory geometry.now image.old i }
    requires only { list_any (λ (entry : List ℕ × ℕ). not (is_dots entry.0)) (names_at (state geometry.now image.old).tree i) ≡ false }
    ensures changes { Becomes geometry.now image.old image.new
        (at_time moment (after_rmdir (state geometry.now image.old) moment dir name.now)) }
    ensures list { FreeBecomes geometry.now image.old image.new (λ blocks. blocks_freed geometry.now image.old i ++ blocks) }
    ensures count { result ≡ place_count geometry.now.edition (shapes geometry.now image.old i) }
    ensures bytes { PutsInBody geometry.now image.old image.new dir (16 * slot) (0 ∷ 0 ∷ []) }
    ensures files { KeepsFilesBut geometry.now image.old image.new dir i }
    ensures cleared { IsCleared geometry.now image.new i }
    ensures others { KeepsUnusedBut geometry.now image.old image.new i }
{
    leave(image, geometry, dir, slot, name, moment);
    drop_link(image, geometry, dir, moment);
    let given = free_node(image, geometry, i);
    put_time(image, geometry, moment);
    given
}
