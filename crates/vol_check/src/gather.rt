//! Joining all seats of a sweep.
ghost use Rattle.std.specs.Prelude.{◌≤◌, All, IfOk};
ghost use Rattle.std.specs.List.{count_by};
ghost use Rattle.count_table.specs.Tallies.{IsSeatAt};
ghost use Rattle.vol_check.specs.Seats.{IsSeatOf, is_stopped};
ghost use Rattle.vol_check.specs.Gather.{Joins, Gathers};

use crate::seats::CheckSeat;
use count_table::Tally;
use std::alloc::AllocError;

/// Returns one seat with the marks and entries of all these seats. Takes memory for the entries that they keep.
pub(crate) fn gather(tally: &Tally, mut seats: Vec<CheckSeat>) -> Result<CheckSeat, AllocError>
    requires own { All (IsSeatOf tally.now) seats.items }
    requires stopped { 1 ≤ count_by is_stopped seats.items }
    ensures { IfOk result (λ all. Gathers tally.now seats.items all) }
{
    let Some(mut all) = seats.pop() else {
        unreachable!()
    };
    while let Some(other) = seats.pop() {
        join(tally, &mut all, other)?;
    }
    Ok(all)
}

/// Adds the marks and entries of another seat.
fn join(tally: &Tally, all: &mut CheckSeat, other: CheckSeat) -> Result<(), AllocError>
    requires all { IsSeatAt tally.now all.old.seat }
    requires other { IsSeatAt tally.now other.seat }
    ensures { IfOk result (λ _. Joins tally.now all.old other all.new) }
{
    let CheckSeat {
        seat,
        fault,
        mut entries,
        ended,
        spoiled,
    } = other;
    tally.join(&mut all.seat, seat);
    all.fault = all.fault.or(fault);
    all.entries.append(&mut entries)?;
    all.ended |= ended;
    all.spoiled |= spoiled;
    Ok(())
}
