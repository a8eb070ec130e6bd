//! The entries of a directory in two images, slot by slot.
ghost use Rattle.std.specs.Prelude.{◌≡◌, ℕ, ◌<◌, ◌≤◌, true, MatchOption};
ghost use Rattle.vol_layout.specs.Geometry.{Fits};
ghost use Rattle.vol_dir.specs.Entries.{entry_in};
ghost use Rattle.vol_dir.specs.Repeats.{MarksEmpty};
ghost use Rattle.vol_repair.specs.Pairs.{IsFirstEntry, IsNextPair, IsPastPairs};

use pdp_words::Image;
use vol_dir::next_entry_marked;
use vol_judge::entry_walk::is_directory;
use vol_layout::slot::NAME;
use vol_layout::{Geometry, Slot};

/// An empty slot.
const EMPTY: Slot = Slot {
    inode: 0,
    name: [0; NAME],
};

/// A slot of a directory in two images, of which at least one has an entry there.
#[derive(Clone, Copy)]
pub(crate) struct SlotPair {
    /// The number of the slot.
    pub number: u32,
    /// The content in the old image.
    pub old: Slot,
    /// The content in the new image.
    pub new: Slot,
}

impl SlotPair {
    /// True if both images have the same entry.
    pub(crate) fn is_same(&self) -> bool
        ensures { result ≡ true → entry_in self.now.new ≡ entry_in self.now.old }
    {
        is_same_entry(&self.old, &self.new)
    }
}

/// True if two slots have the same entry, or none.
fn is_same_entry(old: &Slot, new: &Slot) -> bool
    ensures { result ≡ true → entry_in new.now ≡ entry_in old.now }
{
    old.inode == new.inode && old.name() == new.name()
}

/// Returns the first entry of i-node `d` at or after slot `from`, with its slot; `None` also if it isn't a directory. `marks` has three marks for each
/// block, or none: marked blocks have no entries.
///
/// Costs what [`next_entry_marked`] costs.
fn first_entry(
    image: &Image,
    geometry: &Geometry,
    d: u16,
    from: u32,
    marks: &mut [bool],
) -> Option<(u32, Slot)>
    requires fits { Fits geometry.now image.now }
    requires first { 1 ≤ d }
    requires last { d ≤ geometry.now.last_inode }
    requires marks { MarksEmpty geometry.now image.now marks.old }
    ensures next { IsFirstEntry geometry.now image.now d from result }
    ensures marks { MarksEmpty geometry.now image.now marks.new }
{
    if !is_directory(image, geometry, d) {
        return None;
    }
    next_entry_marked(image, geometry, d, from, marks)
}

/// Returns the first slot of directory `d`, at or after slot `from`, that has an entry in one of two images.
///
/// Costs what [`next_entry_marked`] costs in each.
pub(crate) fn next_pair(
    old: &Image,
    new: &Image,
    geometry: &Geometry,
    d: u16,
    from: u32,
    old_marks: &mut [bool],
    new_marks: &mut [bool],
) -> Option<SlotPair>
    requires old { Fits geometry.now old.now }
    requires new { Fits geometry.now new.now }
    requires first { 1 ≤ d }
    requires last { d ≤ geometry.now.last_inode }
    requires old_marks { MarksEmpty geometry.now old.now old_marks.old }
    requires new_marks { MarksEmpty geometry.now new.now new_marks.old }
    ensures next { MatchOption result (IsPastPairs geometry.now old.now new.now d from) (IsNextPair geometry.now old.now new.now d from) }
    ensures old_marks { MarksEmpty geometry.now old.now old_marks.new }
    ensures new_marks { MarksEmpty geometry.now new.now new_marks.new }
{
    let was = first_entry(old, geometry, d, from, old_marks);
    let is = first_entry(new, geometry, d, from, new_marks);
    match (was, is) {
        (None, None) => None,
        (Some((number, old)), None) => Some(SlotPair {
            number,
            old,
            new: EMPTY,
        }),
        (None, Some((number, new))) => Some(SlotPair {
            number,
            old: EMPTY,
            new,
        }),
        (Some((s, old)), Some((t, new))) => Some(SlotPair {
            number: s.min(t),
            old: if s <= t { old } else { EMPTY },
            new: if t <= s { new } else { EMPTY },
        }),
    }
}
