//! Allocating blocks for a write: each position in the block map on the path of a logical block that points to no block gets one.
ghost use Rattle.std.specs.Prelude.{◌≡◌, ℕ, ◌-◌, ◌*◌, ◌≤◌, Bool, List, [], ◌∷◌};
ghost use Rattle.vol_layout.specs.BlockPointers.{form_at};
ghost use Rattle.vol_file.specs.Steps.{
  Reaches,
  IsWanted,
  MayName,
  NamesNext,
  MayNameEntry,
  WantsWay,
  MayNameWay,
  NamesWay,
  WantsWays,
  MayNameWays,
  NamesWays,
};

use pdp_words::{BLOCK, Image};
use vol_free::take;
use vol_layout::i_list::address;
use vol_layout::{BlockMap, Geometry, number, put_address, put_number};

/// Returns the block to which address `k` of i-node `i` points. If it points to none, first allocates a block for it.
fn name_address(image: &mut Image, geometry: &Geometry, i: u16, k: usize) -> u32
    requires may { MayName geometry.now image.old i (k ∷ []) }
    ensures { (wanted : List ℕ → Bool) (blocks : List ℕ) → IsWanted geometry.now image.old i wanted (k ∷ []) blocks
        → Reaches geometry.now image.old image.new i wanted (k ∷ []) blocks result }
{
    let named = address(image, geometry, i, k);
    if named != 0 {
        return named;
    }
    match take(image, geometry) {
        None => 0,
        Some(b) => {
            put_address(image, geometry, i, k, b);
            b
        }
    }
}

/// Returns the block to which entry `j` of indirect block `m` points. If it points to none, first allocates a block for it.
fn name_entry(image: &mut Image, geometry: &Geometry, m: u32, j: u32) -> u32
    requires may { MayNameEntry geometry.now image.old m j }
    ensures { (old : List ℕ) (i : ℕ) (wanted : List ℕ → Bool) (a : ℕ) (p blocks : List ℕ)
        → NamesNext geometry.now old image.old i wanted j a p blocks m
        → Reaches geometry.now old image.new i wanted (j ∷ (a ∷ p)) blocks result }
{
    let at = BLOCK * m as usize;
    let named = number(image, geometry.edition, at, j as usize);
    if named != 0 {
        return named;
    }
    match take(image, geometry) {
        None => 0,
        Some(b) => {
            put_number(image, geometry.edition, at, j as usize, b);
            b
        }
    }
}

/// Allocates a block for each position in the block map on the path of logical block `b` of file `i` that points to no block, from the i-node down.
fn name_way(image: &mut Image, geometry: &Geometry, i: u16, form: BlockMap, b: u32)
    requires form { form ≡ form_at geometry.now image.old i }
    requires may { MayNameWay geometry.now image.old i b }
    ensures { (wanted : List ℕ → Bool) (blocks : List ℕ) → WantsWay geometry.now image.old i wanted b blocks
        → NamesWay geometry.now image.old image.new i wanted b blocks }
{
    let Some(way) = form.way(b) else { return };
    let mut block = name_address(image, geometry, i, way.address);
    for d in 0..way.depth {
        block = name_entry(image, geometry, block, way.entries[d]);
    }
}

/// Like [`name_way`], for each of the logical blocks `from..to` of file `i`.
pub(crate) fn name_ways(
    image: &mut Image,
    geometry: &Geometry,
    i: u16,
    form: BlockMap,
    from: u32,
    to: u32,
)
    requires form { form ≡ form_at geometry.now image.old i }
    requires order { from ≤ to }
    requires may { MayNameWays geometry.now image.old i from (to - from) }
    ensures { (wanted : List ℕ → Bool) (blocks : List ℕ) → WantsWays geometry.now image.old i wanted from (to - from) blocks
        → NamesWays geometry.now image.old image.new i wanted from (to - from) blocks }
{
    for b in from..to {
        name_way(image, geometry, i, form, b);
    }
}
