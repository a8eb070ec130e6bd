//! The calls that create a file.
ghost use Rattle.std.specs.Prelude.{◌≡◌, true, [], ◌∷◌, IfSome, IfOk, OnErr};
ghost use Rattle.std.specs.Result.{result_err};
ghost use Rattle.vol_dir.specs.Entries.{IsDirectory};
ghost use Rattle.vol_dir.specs.Tree.{tree, state};
ghost use Rattle.vol_dir.specs.Walk.{walk_parent};
ghost use Rattle.vol_change.specs.Ready.{Rules1To12, free_in};
ghost use Rattle.vol_volume.specs.Perform.{LeadsToParent, IsEntryPlace, IsPerformed};
ghost use Rattle.vol_volume.specs.Stands.{Rules3To7And9};
ghost use Rattle.vol_volume.specs.Verdict.{first_of, then_others, of_parent, create_tests, creation, file_tests, is_free_number, verdict};

use crate::calls::Done;
use crate::checked_calls::asked::{
    entry_need, find_parent, free_number, is_granted, is_too_great_with_entry, refuse_if, vacant,
};
use crate::checked_calls::found::{EntryPlace, NewEntry};
use crate::checked_calls::{Performed, ready_stands};
use pdp_words::Image;
use vol_change::{NewFile, NewNode};
use vol_dir::{Access, Cred, Refusal};
use vol_layout::Geometry;

/// Checks the parent and name of a new file. Returns the position of its entry and its i-number.
#[tactic(auto, using(crate::proofs::NeedReadings::slots_are))]
fn create_tests(
    image: &Image,
    geometry: &Geometry,
    free: u32,
    cred: Cred,
    dir: u16,
    name: &[u8],
) -> Result<(EntryPlace, u16), Refusal>
    requires stands { Rules3To7And9 geometry.now image.now }
    requires count { free ≡ free_in (state geometry.now image.now) }
    requires directory { IsDirectory geometry.now image.now dir }
    ensures refusal { result_err result ≡ first_of (create_tests (state geometry.now image.now) cred dir name.now) }
    ensures place { IfOk result (λ found. IsEntryPlace geometry.now image.now dir found.0) }
    ensures number { IfOk result (λ found. is_free_number (tree geometry.now image.now) found.1 ≡ true) }
{
    let slot = vacant(image, geometry, dir, name)?;
    refuse_if(
        !is_granted(image, geometry, dir, Access::Write, cred),
        Refusal::Access,
    )?;
    refuse_if(
        is_too_great_with_entry(image, geometry, dir, slot),
        Refusal::TooBig,
    )?;
    let number = free_number(image, geometry)?;
    let needed = entry_need(image, geometry, dir, slot);
    refuse_if(free < needed, Refusal::NoSpace)?;
    Ok((EntryPlace { slot, needed }, number))
}

/// Checks the user, if the file is a special file, and then the parent and the name. Returns the position of the entry and the i-number.
fn file_tests(
    image: &Image,
    geometry: &Geometry,
    free: u32,
    file: NewFile,
    cred: Cred,
    dir: u16,
    name: &[u8],
) -> Result<(EntryPlace, u16), Refusal>
    requires stands { Rules3To7And9 geometry.now image.now }
    requires count { free ≡ free_in (state geometry.now image.now) }
    requires directory { IsDirectory geometry.now image.now dir }
    ensures refusal { result_err result ≡ first_of (file_tests file (state geometry.now image.now) cred dir name.now) }
    ensures place { IfOk result (λ found. IsEntryPlace geometry.now image.now dir found.0) }
    ensures number { IfOk result (λ found. is_free_number (tree geometry.now image.now) found.1 ≡ true) }
{
    match file {
        NewFile::Regular => create_tests(image, geometry, free, cred, dir, name),
        NewFile::Special(_) => {
            refuse_if(cred.uid != 0, Refusal::NotOwner)?;
            create_tests(image, geometry, free, cred, dir, name)
        }
    }
}

/// Checks the call. Returns the new entry and its i-number, or the first refusal that applies.
pub(crate) fn check<'a>(
    image: &Image,
    geometry: &Geometry,
    free: u32,
    file: NewFile,
    cred: Cred,
    path: &'a [u8],
) -> Result<(NewEntry<'a>, u16), Refusal>
    requires stands { Rules3To7And9 geometry.now image.now }
    requires count { free ≡ free_in (state geometry.now image.now) }
    ensures refusal { result_err result ≡ then_others (tree geometry.now image.now) cred (path.now ∷ [])
        (of_parent (walk_parent (tree geometry.now image.now) cred path.now) Refusal.Exists (file_tests file (state geometry.now image.now) cred)) }
    ensures leads { IfOk result (λ found. LeadsToParent geometry.now image.now cred path.now found.0.dir found.0.name.now) }
    ensures place { IfOk result (λ found. IsEntryPlace geometry.now image.now found.0.dir found.0.place) }
    ensures number { IfOk result (λ found. is_free_number (tree geometry.now image.now) found.1 ≡ true) }
{
    let (dir, name) = find_parent(image, geometry, cred, path, Refusal::Exists)?;
    let (place, number) = file_tests(image, geometry, free, file, cred, dir, name)?;
    Ok((NewEntry { dir, name, place }, number))
}

/// Creates a file, if no check fails. If a recorded i-number is given, the file gets it.
#[tactic(auto, using(crate::proofs::Accepted::creation_verdict))]
pub(crate) fn make(
    image: &mut Image,
    geometry: &Geometry,
    free: u32,
    file: NewFile,
    new: NewNode,
    path: &[u8],
    recorded: Option<u16>,
) -> Result<Performed, Refusal>
    requires ready { Rules1To12 geometry.now image.old }
    requires count { free ≡ free_in (state geometry.now image.old) }
    requires recorded { IfSome recorded (λ i. is_free_number (tree geometry.now image.old) i ≡ true) }
    ensures refusal { result_err result ≡ verdict (state geometry.now image.old) (creation file new.owner new.moment path.now new.permissions) }
    ensures unchanged { OnErr result (image.new ≡ image.old) }
    ensures performed { IfOk result (λ performed. IsPerformed geometry.now image.old image.new
        (creation file new.owner new.moment path.now new.permissions) performed.done performed.free) }
    ensures recorded { IfSome recorded (λ i. IfOk result (λ performed. performed.done ≡ Done.Made i)) }
{
    ready_stands(image, geometry);
    let (found, _) = check(image, geometry, free, file, new.owner, path)?;
    let NewEntry { dir, name, place } = found;
    let made = vol_change::create(image, geometry, file, new, dir, place.slot, name, recorded);
    Ok(Performed {
        done: Done::Made(made),
        free: free - place.needed,
    })
}
