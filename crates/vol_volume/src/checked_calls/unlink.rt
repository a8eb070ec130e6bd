//! The call that removes a name.
ghost use Rattle.std.specs.Prelude.{◌≡◌, [], ◌∷◌, IfOk, OnErr};
ghost use Rattle.std.specs.Result.{result_err};
ghost use Rattle.vol_dir.specs.Entries.{IsDirectory};
ghost use Rattle.vol_dir.specs.Tree.{tree, state};
ghost use Rattle.vol_dir.specs.Walk.{walk_parent};
ghost use Rattle.vol_change.specs.Ready.{Rules1To12, free_in};
ghost use Rattle.vol_volume.specs.Perform.{LeadsToParent, IsEntry, IsPerformed};
ghost use Rattle.vol_volume.specs.Stands.{Rules3To7And9};
ghost use Rattle.vol_volume.specs.Verdict.{first_of, then_others, of_parent, unlink_tests, verdict};

use crate::calls::{Call, Caller, Done};
use crate::checked_calls::asked::{entry_of, find_parent, is_directory, is_granted, refuse_if};
use crate::checked_calls::found::OldEntry;
use crate::checked_calls::{Performed, ready_stands};
use pdp_words::Image;
use vol_dir::{Access, Cred, Entry, Refusal};
use vol_layout::Geometry;

/// Checks the parent of a name to remove, and the named node. Returns the name's entry.
fn unlink_tests(
    image: &Image,
    geometry: &Geometry,
    cred: Cred,
    dir: u16,
    name: &[u8],
) -> Result<Entry, Refusal>
    requires stands { Rules3To7And9 geometry.now image.now }
    requires directory { IsDirectory geometry.now image.now dir }
    ensures refusal { result_err result ≡ first_of (unlink_tests (state geometry.now image.now) cred dir name.now) }
    ensures entry { IfOk result (λ entry. IsEntry geometry.now image.now dir name.now entry) }
{
    let entry = entry_of(image, geometry, dir, name)?;
    refuse_if(
        !is_granted(image, geometry, dir, Access::Write, cred),
        Refusal::Access,
    )?;
    refuse_if(
        is_directory(image, geometry, entry.inode),
        Refusal::IsDirectory,
    )?;
    Ok(entry)
}

/// Checks the call. Returns the entry of the name, or the first refusal that applies.
pub(crate) fn check<'a>(
    image: &Image,
    geometry: &Geometry,
    cred: Cred,
    path: &'a [u8],
) -> Result<OldEntry<'a>, Refusal>
    requires { Rules3To7And9 geometry.now image.now }
    ensures refusal { result_err result ≡ then_others (tree geometry.now image.now) cred (path.now ∷ [])
        (of_parent (walk_parent (tree geometry.now image.now) cred path.now) Refusal.IsDirectory (unlink_tests (state geometry.now image.now) cred)) }
    ensures leads { IfOk result (λ found. LeadsToParent geometry.now image.now cred path.now found.dir found.name.now) }
    ensures entry { IfOk result (λ found. IsEntry geometry.now image.now found.dir found.name.now found.entry) }
{
    let (dir, name) = find_parent(image, geometry, cred, path, Refusal::IsDirectory)?;
    let entry = unlink_tests(image, geometry, cred, dir, name)?;
    Ok(OldEntry { dir, name, entry })
}

/// Removes a name, if no check fails.
#[tactic(auto, unfolding(crate::specs::Verdict::verdict))]
pub(crate) fn make(
    image: &mut Image,
    geometry: &Geometry,
    free: u32,
    caller: Caller,
    path: &[u8],
) -> Result<Performed, Refusal>
    requires ready { Rules1To12 geometry.now image.old }
    requires count { free ≡ free_in (state geometry.now image.old) }
    ensures refusal { result_err result ≡ verdict (state geometry.now image.old) (Call.Unlink caller.cred caller.moment path.now) }
    ensures unchanged { OnErr result (image.new ≡ image.old) }
    ensures done { IfOk result (λ performed. performed.done ≡ Done.Plain) }
    ensures performed { IfOk result (λ performed. IsPerformed geometry.now image.old image.new
        (Call.Unlink caller.cred caller.moment path.now) performed.done performed.free) }
{
    ready_stands(image, geometry);
    let found = check(image, geometry, caller.cred, path)?;
    let OldEntry { dir, name, entry } = found;
    let freed = vol_change::unlink(
        image,
        geometry,
        dir,
        entry.slot,
        name,
        entry.inode,
        caller.moment,
    );
    Ok(Performed {
        done: Done::Plain,
        free: free + freed,
    })
}
