//! Removing a path, all or nothing.
ghost use Rattle.std.specs.Prelude.{◌≡◌, IfOk, IfErr, OnOk};
ghost use Rattle.vol_judge.specs.Sound.{IsSound};
ghost use Rattle.vol_volume.specs.Volume.{mounted};
ghost use Rattle.vol_batch.specs.Batch.{AreMade};
ghost use Rattle.vol_batch.specs.Remove.{RemovesTo, IsReason, IsUnmounted, IsStop};

use crate::batch::make_all;
use crate::faults::RemovalFault;
use crate::plan::removal;
use std::alloc::Global;
use vol_dir::Refusal;
use vol_layout::Edition;
use vol_volume::{Call, Volume};

/// Removes a path of the volume stored in these bytes, and for a directory everything below it, and returns the volume after that, in which the path
/// leads nowhere; its journal has the calls. Makes all calls of [`removal`], in order and as user 0. If one step fails, nothing is returned but the first reason: of the
/// image, then of the path, then of the calls.
///
/// Takes memory to mount the image, for [`removal`] and for the calls. Costs the same, and for each node removed the walk of its path and a search of
/// its directory.
pub fn remove_all(
    alloc: Global,
    edition: Edition,
    image: Vec<u8>,
    path: &[u8],
    now: u32,
) -> Result<Volume, RemovalFault>
    ensures removed { IfOk result (RemovesTo edition image.items path.now now) }
    ensures fault { IfErr result (IsReason edition image.items path.now now) }
{
    let mut volume = mount(alloc, edition, image)?;
    let calls = removal(alloc, &volume, path, now)?;
    make(alloc, &mut volume, calls)?;
    volume.check();
    Ok(volume)
}

/// Mounts the volume stored in these bytes.
#[tactic(auto, using(crate::proofs::Removals::is_unmounted))]
fn mount(alloc: Global, edition: Edition, image: Vec<u8>) -> Result<Volume, RemovalFault>
    ensures mounted { IfOk result (λ volume. volume ≡ mounted edition image.items) }
    ensures sound { OnOk result (IsSound edition image.items) }
    ensures fault { IfErr result (IsUnmounted edition image.items) }
{
    Volume::mount(alloc, edition, image).map_err(|(fault, _)| RemovalFault::from(fault))
}

/// Makes calls on a volume, up to the first that is refused, which becomes the fault.
#[tactic(auto, unfolding(crate::specs::Remove::IsStop))]
fn make(alloc: Global, volume: &mut Volume, calls: Vec<Call>) -> Result<(), RemovalFault>
    ensures made { OnOk result (AreMade volume.old calls.items volume.new) }
    ensures fault { IfErr result (IsStop volume.old calls.items volume.new) }
{
    match make_all(alloc, volume, calls) {
        Ok(()) => Ok(()),
        Err((Refusal::NoMemory, _)) => Err(RemovalFault::NoMemory),
        Err((refusal, call)) => Err(RemovalFault::Refused(refusal, call)),
    }
}
