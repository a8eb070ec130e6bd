//! The call that adds a name to a node.
ghost use Rattle.std.specs.Prelude.{◌≡◌, false, [], ◌∷◌, IfOk, OnErr};
ghost use Rattle.std.specs.Result.{result_err};
ghost use Rattle.vol_dir.specs.Entries.{IsDirectory, IsInUse};
ghost use Rattle.vol_dir.specs.Tree.{tree, state};
ghost use Rattle.vol_dir.specs.Walk.{has_zero, walk};
ghost use Rattle.vol_change.specs.Ready.{Rules1To12, free_in};
ghost use Rattle.vol_volume.specs.Perform.{LeadsToParent, LeadsToNode, IsEntryPlace, IsPerformed};
ghost use Rattle.vol_volume.specs.Stands.{Rules3To7And9};
ghost use Rattle.vol_volume.specs.Verdict.{first_of, then_others, of_node, link_tests, link_refusal, verdict};

use crate::calls::{Call, Caller, Done};
use crate::checked_calls::asked::{
    entry_need, first_tests, has_zero, is_directory, is_full, is_granted, is_too_great_with_entry,
    parent, refuse_if, vacant,
};
use crate::checked_calls::found::{EntryPlace, NewEntry};
use crate::checked_calls::{Performed, ready_stands};
use pdp_words::Image;
use vol_dir::{Access, Cred, Refusal, walk};
use vol_layout::Geometry;

/// Checks the parent and the name when a name is added to i-node `i`. Returns the position of its entry.
#[tactic(auto, using(crate::proofs::NeedReadings::slots_are))]
fn link_tests(
    image: &Image,
    geometry: &Geometry,
    free: u32,
    cred: Cred,
    i: u16,
    dir: u16,
    name: &[u8],
) -> Result<EntryPlace, Refusal>
    requires stands { Rules3To7And9 geometry.now image.now }
    requires count { free ≡ free_in (state geometry.now image.now) }
    requires used { IsInUse geometry.now image.now i }
    requires directory { IsDirectory geometry.now image.now dir }
    ensures refusal { result_err result ≡ first_of (link_tests (state geometry.now image.now) cred i dir name.now) }
    ensures place { IfOk result (λ place. IsEntryPlace geometry.now image.now dir place) }
{
    let slot = vacant(image, geometry, dir, name)?;
    refuse_if(
        !is_granted(image, geometry, dir, Access::Write, cred),
        Refusal::Access,
    )?;
    refuse_if(is_full(image, geometry, i), Refusal::TooManyLinks)?;
    refuse_if(
        is_too_great_with_entry(image, geometry, dir, slot),
        Refusal::TooBig,
    )?;
    let needed = entry_need(image, geometry, dir, slot);
    refuse_if(free < needed, Refusal::NoSpace)?;
    Ok(EntryPlace { slot, needed })
}

/// Checks that another name may be added to i-node `i`, which is in use. Returns the new entry.
fn check_target<'a>(
    image: &Image,
    geometry: &Geometry,
    free: u32,
    cred: Cred,
    target: &'a [u8],
    i: u16,
) -> Result<NewEntry<'a>, Refusal>
    requires stands { Rules3To7And9 geometry.now image.now }
    requires count { free ≡ free_in (state geometry.now image.now) }
    requires used { IsInUse geometry.now image.now i }
    requires text { has_zero target.now ≡ false }
    ensures refusal { result_err result ≡ link_refusal (state geometry.now image.now) cred target.now i }
    ensures leads { IfOk result (λ found. LeadsToParent geometry.now image.now cred target.now found.dir found.name.now) }
    ensures place { IfOk result (λ found. IsEntryPlace geometry.now image.now found.dir found.place) }
{
    refuse_if(is_directory(image, geometry, i), Refusal::IsDirectory)?;
    let (dir, name) = parent(image, geometry, cred, target, Refusal::Exists)?;
    let place = link_tests(image, geometry, free, cred, i, dir, name)?;
    Ok(NewEntry { dir, name, place })
}

/// Checks the call. Returns the node that gets the name and the new entry, or the first refusal that applies.
#[tactic(auto, using(crate::proofs::NodeReadings::tree_geometry))]
pub(crate) fn check<'a>(
    image: &Image,
    geometry: &Geometry,
    free: u32,
    cred: Cred,
    source: &[u8],
    target: &'a [u8],
) -> Result<(u16, NewEntry<'a>), Refusal>
    requires stands { Rules3To7And9 geometry.now image.now }
    requires count { free ≡ free_in (state geometry.now image.now) }
    ensures refusal { result_err result ≡ then_others (tree geometry.now image.now) cred (source.now ∷ target.now ∷ [])
        (of_node (walk (tree geometry.now image.now) cred source.now) (link_refusal (state geometry.now image.now) cred target.now)) }
    ensures node { IfOk result (λ found. LeadsToNode geometry.now image.now cred source.now found.0) }
    ensures leads { IfOk result (λ found. LeadsToParent geometry.now image.now cred target.now found.1.dir found.1.name.now) }
    ensures place { IfOk result (λ found. IsEntryPlace geometry.now image.now found.1.dir found.1.place) }
{
    first_tests(geometry, cred, source)?;
    refuse_if(has_zero(target), Refusal::Invalid)?;
    let i = walk(image, geometry, cred, source)?;
    let entry = check_target(image, geometry, free, cred, target, i)?;
    Ok((i, entry))
}

/// Adds a name to a node, if no check fails.
#[tactic(auto, unfolding(crate::specs::Verdict::verdict))]
pub(crate) fn make(
    image: &mut Image,
    geometry: &Geometry,
    free: u32,
    caller: Caller,
    source: &[u8],
    target: &[u8],
) -> Result<Performed, Refusal>
    requires ready { Rules1To12 geometry.now image.old }
    requires count { free ≡ free_in (state geometry.now image.old) }
    ensures refusal { result_err result ≡ verdict (state geometry.now image.old) (Call.Link caller.cred caller.moment source.now target.now) }
    ensures unchanged { OnErr result (image.new ≡ image.old) }
    ensures done { IfOk result (λ performed. performed.done ≡ Done.Plain) }
    ensures performed { IfOk result (λ performed. IsPerformed geometry.now image.old image.new
        (Call.Link caller.cred caller.moment source.now target.now) performed.done performed.free) }
{
    ready_stands(image, geometry);
    let (i, found) = check(image, geometry, free, caller.cred, source, target)?;
    let NewEntry { dir, name, place } = found;
    vol_change::link(image, geometry, i, dir, place.slot, name, caller.moment);
    Ok(Performed {
        done: Done::Plain,
        free: free - place.needed,
    })
}
