//! `resize` gives the volume in an image another number of blocks, and returns the bytes to save.
ghost use Rattle.std.specs.Prelude.{◌⊎◌, IfErr, IfOk};
ghost use Rattle.vol_resize.specs.Resized.{IsResized};
ghost use Rattle.vol_resize.specs.declared.resized_volume.ResizeFault.TheVariants as resizes;
ghost use Rattle.command_changes.specs.Resize.{IsUnresized, TellsResize};

use command_faults::Fault;
use std::alloc::{AllocError, Global};
use vol_dir::Refusal;
use vol_layout::Edition;
use vol_resize::ResizeFault;

/// Gives the volume in an image exactly `blocks` blocks, for `resize`. The fault says why this can't be: the edition has no volume of so many blocks, the
/// first rule that the image breaks, the volume has so many blocks, the fewest that it can have, or out of memory.
///
/// Takes the memory of [`vol_resize::resize`].
pub fn resize_image(
    alloc: Global,
    edition: Edition,
    image: Vec<u8>,
    blocks: u32,
) -> Result<Vec<u8>, Fault>
    ensures resized { IfOk result (λ bytes. IsResized edition blocks image.items bytes.items) }
    ensures fault { IfErr result (IsUnresized edition blocks image.items) }
{
    match vol_resize::resize(alloc, edition, image, blocks) {
        Ok(bytes) => Ok(bytes),
        Err((why, _)) => Err(unresized(alloc, why)),
    }
}

/// Returns the fault of a volume that isn't resized for this reason, or out of memory if there is too little memory for its line.
fn unresized(alloc: Global, why: ResizeFault) -> Fault
    ensures { TellsResize why result ⊎ TellsResize resizes.NoMemory result }
{
    match worded(alloc, why) {
        Ok(fault) => fault,
        Err(refused) => Fault::from(refused),
    }
}

/// Returns the fault of a volume that isn't resized for this reason.
fn worded(alloc: Global, why: ResizeFault) -> Result<Fault, AllocError>
    ensures { IfOk result (TellsResize why) }
{
    let line = match why {
        ResizeFault::TooMany => return Ok(Fault::Bounds),
        ResizeFault::Unsound(rule) => return Ok(Fault::Unsound(rule)),
        ResizeFault::NoMemory => return Ok(Fault::Refused(Refusal::NoMemory)),
        ResizeFault::Same => format!(in alloc; "unixvol: it has that many blocks\n")?,
        ResizeFault::Needs(blocks) => format!(in alloc; "unixvol: it needs {blocks} blocks\n")?,
    };
    Ok(Fault::Worded {
        rule: None,
        lines: line.into_bytes(),
    })
}
