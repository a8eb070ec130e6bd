//! The call that changes a node's owner.
ghost use Rattle.std.specs.Prelude.{◌≡◌, if◌then◌else◌, [], ◌∷◌, Some, IfOk, OnErr};
ghost use Rattle.std.specs.Result.{result_err};
ghost use Rattle.vol_dir.specs.Tree.{tree, state};
ghost use Rattle.vol_dir.specs.Walk.{walk};
ghost use Rattle.vol_change.specs.Ready.{Rules1To12, free_in};
ghost use Rattle.vol_layout.specs.Ids.{is_bad_id};
ghost use Rattle.vol_volume.specs.Perform.{LeadsToNode, IsPerformed};
ghost use Rattle.vol_volume.specs.Stands.{Rules3To7And9};
ghost use Rattle.vol_volume.specs.Verdict.{first_of, then_others, of_node, chown_tests, verdict};

use crate::calls::{Call, Caller, Done};
use crate::checked_calls::asked::{find_node, refuse_if};
use crate::checked_calls::{Performed, ready_stands};
use pdp_words::Image;
use vol_dir::{Cred, Refusal};
use vol_layout::{Geometry, is_bad_id};

/// Checks the call. Returns the node whose owner changes, or the first refusal that applies.
#[tactic(auto, using(crate::proofs::NodeReadings::tree_geometry))]
pub(crate) fn check(
    image: &Image,
    geometry: &Geometry,
    cred: Cred,
    path: &[u8],
    owner: Cred,
) -> Result<u16, Refusal>
    requires { Rules3To7And9 geometry.now image.now }
    ensures refusal { result_err result ≡ (if is_bad_id (tree geometry.now image.now).geometry.edition owner.uid owner.gid then Some Refusal.BadId
        else then_others (tree geometry.now image.now) cred (path.now ∷ [])
        (of_node (walk (tree geometry.now image.now) cred path.now) (λ i. first_of (chown_tests cred)))) }
    ensures node { IfOk result (λ i. LeadsToNode geometry.now image.now cred path.now i) }
{
    if is_bad_id(geometry.edition, owner.uid, owner.gid) {
        return Err(Refusal::BadId);
    }
    let i = find_node(image, geometry, cred, path)?;
    refuse_if(cred.uid != 0, Refusal::NotOwner)?;
    Ok(i)
}

/// Changes the owner of a node to `owner`, if no check fails.
#[tactic(auto, unfolding(crate::specs::Verdict::verdict))]
pub(crate) fn make(
    image: &mut Image,
    geometry: &Geometry,
    free: u32,
    caller: Caller,
    path: &[u8],
    owner: Cred,
) -> Result<Performed, Refusal>
    requires ready { Rules1To12 geometry.now image.old }
    requires count { free ≡ free_in (state geometry.now image.old) }
    ensures refusal { result_err result ≡ verdict (state geometry.now image.old)
        (Call.Chown caller.cred caller.moment path.now owner.uid owner.gid) }
    ensures unchanged { OnErr result (image.new ≡ image.old) }
    ensures done { IfOk result (λ performed. performed.done ≡ Done.Plain) }
    ensures performed { IfOk result (λ performed. IsPerformed geometry.now image.old image.new
        (Call.Chown caller.cred caller.moment path.now owner.uid owner.gid) performed.done performed.free) }
{
    ready_stands(image, geometry);
    let i = check(image, geometry, caller.cred, path, owner)?;
    vol_change::chown(image, geometry, i, owner.uid, owner.gid, caller.moment);
    Ok(Performed {
        done: Done::Plain,
        free,
    })
}
