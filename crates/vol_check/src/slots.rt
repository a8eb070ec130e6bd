//! Keeps the entries of directories, and offers their ranks.
ghost use Rattle.std.specs.Prelude.{◌≡◌, ◌+◌, ◌-◌, ◌*◌, ◌<◌, ◌≤◌, nat_le, if◌then◌else◌, Some, IfOk, IfErr};
ghost use Rattle.count_table.specs.Sums.{total};
ghost use Rattle.count_table.specs.Views.{mark};
ghost use Rattle.count_table.specs.Tallies.{IsSeatAt, table_shape};
ghost use Rattle.vol_reports.specs.Words.{HasNameWords, name_word};
ghost use Rattle.vol_reports.specs.Ncheck.{entered};
ghost use Rattle.vol_judge.specs.Steps.{rank};
ghost use Rattle.vol_check.specs.Pieces.{Adds};
ghost use Rattle.vol_check.specs.Slots.{name_weight};
ghost use Rattle.vol_check.specs.Notes.{Notes, Stays};

use crate::seats::CheckSeat;
use count_table::{Tally, TallySeat};
use std::alloc::AllocError;
use vol_dir::is_dots;
use vol_layout::Geometry;
use vol_reports::EnteredName;
use vol_reports::words::{name_word, rank};

/// Keeps an entry, unless its name is `.` or `..`, and offers its rank as the least for its i-number.
pub(crate) fn keep_entry(
    tally: &Tally,
    seat: &mut CheckSeat,
    geometry: &Geometry,
    entry: EnteredName,
) -> Result<(), AllocError>
    requires words { HasNameWords geometry.now (table_shape tally.now) }
    requires own { IsSeatAt tally.now seat.old.seat }
    requires parts { 1 ≤ seat.old.seat.me.0.parts }
    requires first { 1 ≤ entry.inode }
    ensures ok { IfOk result (λ _. Notes tally.now seat.old seat.new
        (λ weight. name_weight geometry.now weight entry.directory entry.slot (Some (entry.name, entry.inode)))
        (λ weight. total weight (entered entry.directory entry.slot (Some (entry.name, entry.inode))))) }
    ensures err { IfErr result (λ _. Stays tally.now seat.old seat.new) }
{
    if is_dots(entry.name()) {
        return Ok(());
    }
    give_rank(tally, &mut seat.seat, geometry, &entry);
    seat.entries.push(entry)?;
    Ok(())
}

/// Offers an entry's rank as the least for its i-number, unless that is past the last i-number.
fn give_rank(tally: &Tally, seat: &mut TallySeat, geometry: &Geometry, entry: &EnteredName)
    requires words { HasNameWords geometry.now (table_shape tally.now) }
    requires own { IsSeatAt tally.now seat.old }
    requires parts { 1 ≤ seat.old.me.0.parts }
    requires first { 1 ≤ entry.now.inode }
    ensures { Adds tally.now seat.old seat.new
        (λ weight. if nat_le entry.now.inode geometry.now.last_inode then weight (mark (name_word entry.now.inode) (rank entry.now.directory entry.now.slot)) else 0) }
{
    if entry.inode() <= geometry.last_inode {
        let place = rank(entry.directory(), entry.slot());
        tally.lower(seat, name_word(entry.inode()), place);
    }
}
