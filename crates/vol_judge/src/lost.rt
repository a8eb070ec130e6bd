//! Rule 8: each data block is used by a file or free.
ghost use Rattle.std.specs.Prelude.{◌≡◌, ℕ, List, length};
ghost use Rattle.vol_layout.specs.Geometry.{Fits};
ghost use Rattle.vol_judge.specs.Finds.{Finds};
ghost use Rattle.vol_judge.specs.FreeMarks.{AreFreeMarks};
ghost use Rattle.vol_judge.specs.Lost.{IsFirstUncovered};
ghost use Rattle.vol_judge.specs.Marks.{MarksZone};
ghost use Rattle.vol_judge.specs.Sound.{IsNoneLost};

use crate::finding::Finding;
use vol_layout::Geometry;

/// Returns the first violation of rule 8: the first data block that is neither used by a file nor free. Reads each mark once. Takes no memory.
pub fn find_lost(geometry: &Geometry, named: &[u8], free: &[bool]) -> Option<Finding>
    requires room { length named.now ≡ geometry.now.zone_end }
    requires free_room { length free.now ≡ geometry.now.zone_end }
    ensures { (image : List ℕ) → Fits geometry.now image → MarksZone geometry.now image named.now → AreFreeMarks geometry.now image free.now
        → Finds (IsNoneLost geometry.now image) (IsFirstUncovered geometry.now image) result }
{
    for b in geometry.zone_start..geometry.zone_end {
        if named[b as usize] == 0 && !free[b as usize] {
            return Some(Finding::Lost(b));
        }
    }
    None
}
