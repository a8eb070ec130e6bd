//! Queries on an image that isn't mounted.
ghost use Rattle.std.specs.Prelude.{OnOk, IfOk, IfErr};
ghost use Rattle.vol_judge.specs.Sound.{IsSound};
ghost use Rattle.vol_volume.specs.Answer.{Answers};
ghost use Rattle.vol_volume.specs.Faults.{IsFaultOf};
ghost use Rattle.vol_volume.specs.Volume.{reads_as};

use crate::answer::ask_image;
use crate::queries::{Query, Reply};
use crate::volume::MountFault;
use pdp_words::Image;
use std::alloc::Global;
use vol_dir::Refusal;
use vol_judge::examine;
use vol_layout::Edition;

/// Answers a query of the volume in an image, exactly as [`Volume::ask`](crate::Volume::ask) would if the same bytes were mounted. If the image is
/// unsound, returns that fault and doesn't answer the query.
///
/// Takes memory to judge the image and for the reply; the image isn't copied.
pub fn ask(
    alloc: Global,
    edition: Edition,
    image: &Image,
    query: &Query,
) -> Result<Result<Reply, Refusal>, MountFault>
    ensures sound { OnOk result (IsSound edition image.now) }
    ensures answered { IfOk result (λ answer. Answers (reads_as edition image.now).tree query.now answer) }
    ensures fault { IfErr result (λ fault. IsFaultOf edition image.now fault) }
{
    match examine(alloc, edition, image, true) {
        Ok(Ok(examined)) => Ok(ask_image(alloc, image, &examined.geometry, query)),
        Ok(Err(rule)) => Err(MountFault::Unsound(rule)),
        Err(_) => Err(MountFault::NoMemory),
    }
}
