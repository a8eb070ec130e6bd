//! The call that shortens a file.
ghost use Rattle.std.specs.Prelude.{◌≡◌, ◌≤◌, ◌∷◌, [], IfOk, OnErr, OnOk};
ghost use Rattle.std.specs.Result.{result_err};
ghost use Rattle.vol_dir.specs.Entries.{IsInUse};
ghost use Rattle.vol_dir.specs.Tree.{tree, state};
ghost use Rattle.vol_dir.specs.Walk.{walk};
ghost use Rattle.vol_file.specs.Rules.{kind_at, size_of};
ghost use Rattle.vol_change.specs.Ready.{Rules1To12, free_in};
ghost use Rattle.vol_volume.specs.Perform.{LeadsToNode, IsPerformed};
ghost use Rattle.vol_volume.specs.Stands.{Rules3To7And9};
ghost use Rattle.vol_volume.specs.Verdict.{first_of, then_others, of_node, truncate_tests, verdict};

use crate::calls::{Call, Caller, Done};
use crate::checked_calls::asked::{body_tests, find_node, refuse_if};
use crate::checked_calls::{Performed, ready_stands};
use pdp_words::Image;
use vol_dir::{Access, Cred, Refusal};
use vol_layout::i_list::size;
use vol_layout::{Geometry, Kind};

/// Checks that i-node `i`, which is in use, may be cut to its first `length` bytes.
#[tactic(auto, using(crate::proofs::NodeReadings::size_is))]
fn truncate_tests(
    image: &Image,
    geometry: &Geometry,
    cred: Cred,
    i: u16,
    length: u32,
) -> Result<(), Refusal>
    requires stands { Rules3To7And9 geometry.now image.now }
    requires used { IsInUse geometry.now image.now i }
    ensures refusal { result_err result ≡ first_of (truncate_tests (tree geometry.now image.now) cred length i) }
    ensures regular { OnOk result (kind_at geometry.now image.now i ≡ Kind.Regular) }
    ensures size { OnOk result (length ≤ size_of geometry.now image.now i) }
{
    body_tests(image, geometry, Access::Write, cred, i)?;
    refuse_if(size(image, geometry, i) < length, Refusal::Invalid)
}

/// Checks the call. Returns the file, or the first refusal that applies.
pub(crate) fn check(
    image: &Image,
    geometry: &Geometry,
    cred: Cred,
    path: &[u8],
    length: u32,
) -> Result<u16, Refusal>
    requires { Rules3To7And9 geometry.now image.now }
    ensures refusal { result_err result ≡ then_others (tree geometry.now image.now) cred (path.now ∷ [])
        (of_node (walk (tree geometry.now image.now) cred path.now) (λ i. first_of (truncate_tests (tree geometry.now image.now) cred length i))) }
    ensures node { IfOk result (λ i. LeadsToNode geometry.now image.now cred path.now i) }
    ensures regular { IfOk result (λ i. kind_at geometry.now image.now i ≡ Kind.Regular) }
    ensures size { IfOk result (λ i. length ≤ size_of geometry.now image.now i) }
{
    let i = find_node(image, geometry, cred, path)?;
    truncate_tests(image, geometry, cred, i, length)?;
    Ok(i)
}

/// Shortens a file to its first `length` bytes, if no check fails.
#[tactic(auto, unfolding(crate::specs::Verdict::verdict))]
pub(crate) fn make(
    image: &mut Image,
    geometry: &Geometry,
    free: u32,
    caller: Caller,
    path: &[u8],
    length: u32,
) -> Result<Performed, Refusal>
    requires ready { Rules1To12 geometry.now image.old }
    requires count { free ≡ free_in (state geometry.now image.old) }
    ensures refusal { result_err result ≡ verdict (state geometry.now image.old) (Call.Truncate caller.cred caller.moment path.now length) }
    ensures unchanged { OnErr result (image.new ≡ image.old) }
    ensures done { IfOk result (λ performed. performed.done ≡ Done.Plain) }
    ensures performed { IfOk result (λ performed. IsPerformed geometry.now image.old image.new
        (Call.Truncate caller.cred caller.moment path.now length) performed.done performed.free) }
{
    ready_stands(image, geometry);
    let i = check(image, geometry, caller.cred, path, length)?;
    let freed = vol_change::truncate(image, geometry, i, length, caller.moment);
    Ok(Performed {
        done: Done::Plain,
        free: free + freed,
    })
}
