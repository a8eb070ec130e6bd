//! Replays a volume's records.
ghost use Rattle.std.specs.Prelude.{◌≡◌, ◌≤◌, ◌<◌, ◌+◌, length, IfOk, OnOk, Some};
ghost use Rattle.std.specs.List.{slice_get};
ghost use Rattle.vol_receipts.specs.Replay.{HasFirst, HasAtMost};

use std::alloc::{AllocError, Global};
use vol_volume::{MountFault, Record, Volume};

/// Returns a volume with the first `count` records replayed, starting from `again` if it is given.
pub(crate) fn go_on(
    volume: &Volume,
    again: Option<Volume>,
    alloc: Global,
    count: usize,
) -> Result<Volume, AllocError>
    requires behind { HasAtMost volume.now again count }
    requires within { count ≤ length volume.now.journal }
    ensures { IfOk result (λ made. HasFirst volume.now made count) }
{
    let mut made = match again {
        Some(made) => made,
        None => begin(volume, alloc)?,
    };
    for k in made.journal().len()..count {
        redo_next(volume, &mut made, alloc, k)?;
    }
    Ok(made)
}

/// Returns a copy of a volume as it was before its journal's first record.
fn begin(volume: &Volume, alloc: Global) -> Result<Volume, AllocError>
    ensures { IfOk result (λ made. HasFirst volume.now made 0) }
{
    volume.check();
    let base = Vec::from_slice(alloc, volume.base())?;
    match Volume::mount(alloc, volume.edition(), base) {
        Ok(made) => Ok(made),
        Err((MountFault::NoMemory, _)) => Err(AllocError),
        Err((MountFault::Unsound(_), _)) => unreachable!(),
    }
}

/// Replays record `k` of a volume, counted from the first record of its journal, on `made`, which has replayed the records before it.
#[tactic(auto, using(crate::proofs::Records::has_more))]
fn redo_next(volume: &Volume, made: &mut Volume, alloc: Global, k: usize) -> Result<(), AllocError>
    requires first { HasFirst volume.now made.old k }
    requires within { k < length volume.now.journal }
    ensures { OnOk result (HasFirst volume.now made.new (k + 1)) }
{
    volume.check();
    made.check();
    let entry = copy_of(volume.journal(), k)?;
    match made.redo(alloc, entry) {
        Ok(()) => Ok(()),
        Err((error, _)) => Err(error),
    }
}

/// Returns a copy of record `k` of a journal.
#[tactic(auto, using(std::proofs::lemmas::Option::slice_get_read))]
fn copy_of(journal: &[Record], k: usize) -> Result<Record, AllocError>
    requires { k < length journal.now }
    ensures { IfOk result (λ entry. slice_get journal.now k ≡ Some entry) }
{
    journal[k].clone()
}
