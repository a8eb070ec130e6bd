//! The call that changes permission bits.
ghost use Rattle.std.specs.Prelude.{◌≡◌, IfOk, OnErr};
ghost use Rattle.std.specs.Result.{result_err};
ghost use Rattle.vol_dir.specs.Tree.{state};
ghost use Rattle.vol_change.specs.Ready.{Rules1To12, free_in};
ghost use Rattle.vol_volume.specs.Perform.{IsPerformed};
ghost use Rattle.vol_volume.specs.Verdict.{verdict};

use crate::calls::{Call, Caller, Done};
use crate::checked_calls::asked::find_owned;
use crate::checked_calls::{Performed, ready_stands};
use pdp_words::Image;
use vol_dir::Refusal;
use vol_layout::Geometry;

/// Changes the permission bits of a node, if no check fails.
#[tactic(auto, unfolding(crate::specs::Verdict::verdict))]
pub(crate) fn make(
    image: &mut Image,
    geometry: &Geometry,
    free: u32,
    caller: Caller,
    path: &[u8],
    perm: u16,
) -> Result<Performed, Refusal>
    requires ready { Rules1To12 geometry.now image.old }
    requires count { free ≡ free_in (state geometry.now image.old) }
    ensures refusal { result_err result ≡ verdict (state geometry.now image.old) (Call.Chmod caller.cred caller.moment path.now perm) }
    ensures unchanged { OnErr result (image.new ≡ image.old) }
    ensures done { IfOk result (λ performed. performed.done ≡ Done.Plain) }
    ensures performed { IfOk result (λ performed. IsPerformed geometry.now image.old image.new
        (Call.Chmod caller.cred caller.moment path.now perm) performed.done performed.free) }
{
    ready_stands(image, geometry);
    let i = find_owned(image, geometry, caller.cred, path)?;
    vol_change::chmod(image, geometry, i, perm, caller.moment);
    Ok(Performed {
        done: Done::Plain,
        free,
    })
}
