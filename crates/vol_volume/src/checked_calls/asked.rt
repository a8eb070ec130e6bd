//! Checks that several calls share: tests of i-nodes, names and free blocks.
ghost use Rattle.std.specs.Prelude.{◌≡◌, ◌≢◌, ℕ, ◌*◌, ◌≤◌, if◌then◌else◌, Bool, true, false, List, [], ◌∷◌, None, Some, Ok, OnOk, IfOk, IfErr, IsTrue, ◌↔◌, MatchResult};
ghost use Rattle.std.specs.Result.{result_err};
ghost use Rattle.vol_layout.specs.Geometry.{Fits};
ghost use Rattle.vol_file.specs.Rules.{kind_at};
ghost use Rattle.vol_dir.specs.Access.{bit_of, grants};
ghost use Rattle.vol_dir.specs.Entries.{IsDirectory, IsInUse, slots};
ghost use Rattle.vol_dir.specs.Names.{get, names_in};
ghost use Rattle.vol_dir.specs.Search.{new_slot, slot_named};
ghost use Rattle.vol_dir.specs.Tree.{tree, state};
ghost use Rattle.vol_dir.specs.Walk.{IsComponent, has_zero, is_directory, walk, walk_parent};
ghost use Rattle.vol_change.specs.Nodes.{node_at, names_at, size_with_entry};
ghost use Rattle.vol_volume.specs.NodeLookup.{IsPathRefused, LeadsTo, IsParentRefused, IsParentAsked};
ghost use Rattle.vol_layout.specs.Ids.{is_bad_id};
ghost use Rattle.vol_volume.specs.Perform.{LeadsToParent, LeadsToNode};
ghost use Rattle.vol_volume.specs.Stands.{Rules3To7And9};
ghost use Rattle.vol_volume.specs.Verdict.{first_of, has_name, has_others, is_device, has_free_number, is_free_number, is_too_great, is_full, is_owner, then_others, of_node, of_parent, body_tests, owner_tests};
ghost use Rattle.vol_change.specs.Ready.{entry_need};

use pdp_words::Image;
use vol_dir::{Access, Cred, Entry, Refusal, grants, is_empty_dir, lookup, walk, walk_parent};
use vol_file::need;
use vol_free::{is_free_inode, next_inode};
use vol_layout::i_list::{kind, size};
use vol_layout::slot::SLOT;
use vol_layout::{Geometry, Kind, inode, is_bad_id};

/// True if i-node `i` is a directory.
#[tactic(auto, using(crate::proofs::NodeReadings::directory_is, crate::proofs::NodeReadings::directory_not))]
pub(crate) fn is_directory(image: &Image, geometry: &Geometry, i: u16) -> bool
    requires fits { Fits geometry.now image.now }
    requires first { 1 ≤ i }
    requires last { i ≤ geometry.now.last_inode }
    ensures node { result ≡ is_directory (node_at (tree geometry.now image.now) i) }
    ensures directory { result ≡ true → IsDirectory geometry.now image.now i }
    ensures other { result ≡ false → kind_at geometry.now image.now i ≢ Kind.Directory }
{
    kind(image, geometry, i) == Kind::Directory
}

/// True if i-node `i` is a special file.
#[tactic(auto, using(crate::proofs::NodeReadings::device_is, crate::proofs::NodeReadings::device_not))]
pub(crate) fn is_device(image: &Image, geometry: &Geometry, i: u16) -> bool
    requires fits { Fits geometry.now image.now }
    requires first { 1 ≤ i }
    requires last { i ≤ geometry.now.last_inode }
    ensures node { result ≡ is_device (node_at (tree geometry.now image.now) i).content }
    ensures other { result ≡ false → kind_at geometry.now image.now i ≢ Kind.Special }
{
    kind(image, geometry, i) == Kind::Special
}

/// True if i-node `i`, which is in use, grants the user this access.
#[tactic(auto, using(crate::proofs::NodeReadings::node_stored))]
pub(crate) fn is_granted(
    image: &Image,
    geometry: &Geometry,
    i: u16,
    access: Access,
    cred: Cred,
) -> bool
    requires stands { Rules3To7And9 geometry.now image.now }
    requires used { IsInUse geometry.now image.now i }
    ensures { result ≡ grants (bit_of access) cred (node_at (tree geometry.now image.now) i) }
{
    grants(image, geometry, i, access, cred)
}

/// True if the link count of i-node `i`, which is in use, is at its limit.
#[tactic(auto, using(crate::proofs::NodeReadings::links_are, crate::proofs::NodeReadings::tree_geometry))]
pub(crate) fn is_full(image: &Image, geometry: &Geometry, i: u16) -> bool
    requires stands { Rules3To7And9 geometry.now image.now }
    requires used { IsInUse geometry.now image.now i }
    ensures { result ≡ is_full (tree geometry.now image.now) (node_at (tree geometry.now image.now) i) }
{
    geometry.edition.constants().link_limit <= inode(image, geometry, i).links
}

/// True if the user may change i-node `i`, which is in use, as its owner: user 0 and the owner may.
#[tactic(auto, using(crate::proofs::NodeReadings::owner_is))]
pub(crate) fn is_owner(image: &Image, geometry: &Geometry, i: u16, cred: Cred) -> bool
    requires stands { Rules3To7And9 geometry.now image.now }
    requires used { IsInUse geometry.now image.now i }
    ensures { result ≡ is_owner cred (node_at (tree geometry.now image.now) i) }
{
    cred.uid == 0 || cred.uid == inode(image, geometry, i).uid
}

/// Returns the entry of `name` in directory `dir`, or NoEntry if the directory doesn't have the name.
#[tactic(auto, using(crate::proofs::NodeReadings::names_are, vol_dir::proofs::WalkLaws::found_in_use))]
pub(crate) fn entry_of(
    image: &Image,
    geometry: &Geometry,
    dir: u16,
    name: &[u8],
) -> Result<Entry, Refusal>
    requires stands { Rules3To7And9 geometry.now image.now }
    requires directory { IsDirectory geometry.now image.now dir }
    ensures number { IfOk result (λ entry. get (names_at (tree geometry.now image.now) dir) name.now ≡ Some entry.inode) }
    ensures slot { IfOk result (λ entry. entry.slot ≡ slot_named name.now (slots geometry.now image.now dir)) }
    ensures used { IfOk result (λ entry. IsInUse geometry.now image.now entry.inode) }
    ensures missing { IfErr result (λ refusal. (get (names_at (tree geometry.now image.now) dir) name.now ≡ None)
        × (refusal ≡ Refusal.NoEntry)) }
{
    match lookup(image, geometry, dir, name) {
        Ok(entry) => Ok(entry),
        Err(_) => Err(Refusal::NoEntry),
    }
}

/// Returns the slot of directory `dir` for an entry of the new `name`, or Exists if the directory already has the name.
#[tactic(auto, using(crate::proofs::NodeReadings::names_are))]
pub(crate) fn vacant(
    image: &Image,
    geometry: &Geometry,
    dir: u16,
    name: &[u8],
) -> Result<u32, Refusal>
    requires stands { Rules3To7And9 geometry.now image.now }
    requires directory { IsDirectory geometry.now image.now dir }
    ensures fresh { OnOk result (get (names_at (tree geometry.now image.now) dir) name.now ≡ None) }
    ensures slot { IfOk result (λ slot. slot ≡ new_slot (names_in (slots geometry.now image.now dir))) }
    ensures there { IfErr result (λ refusal. (has_name (tree geometry.now image.now) dir name.now ≡ true)
        × (refusal ≡ Refusal.Exists)) }
{
    match lookup(image, geometry, dir, name) {
        Ok(_) => Err(Refusal::Exists),
        Err(slot) => Ok(slot),
    }
}

/// True if directory `dir` has entries other than `.` and `..`.
#[tactic(auto, using(crate::proofs::NodeReadings::names_are))]
pub(crate) fn has_others(image: &Image, geometry: &Geometry, dir: u16) -> bool
    requires fits { Fits geometry.now image.now }
    requires directory { IsDirectory geometry.now image.now dir }
    ensures { result ≡ has_others (tree geometry.now image.now) dir }
{
    !is_empty_dir(image, geometry, dir)
}

/// Returns the i-number that the next new node gets, or NoInode if none is free.
#[tactic(auto, using(crate::proofs::FreeNumbers::number_has, crate::proofs::FreeNumbers::number_free, crate::proofs::FreeNumbers::none_has))]
pub(crate) fn free_number(image: &Image, geometry: &Geometry) -> Result<u16, Refusal>
    requires { Rules3To7And9 geometry.now image.now }
    ensures some { OnOk result (has_free_number (tree geometry.now image.now) ≡ true) }
    ensures free { IfOk result (λ i. is_free_number (tree geometry.now image.now) i ≡ true) }
    ensures none { IfErr result (λ refusal. (has_free_number (tree geometry.now image.now) ≡ false)
        × (refusal ≡ Refusal.NoInode)) }
{
    match next_inode(image, geometry) {
        Some(i) => Ok(i),
        None => Err(Refusal::NoInode),
    }
}

/// True if i-number `i`, which may be any number, can be given to a new node.
#[tactic(auto, using(crate::proofs::FreeNumbers::number_free, crate::proofs::FreeNumbers::free_of))]
pub(crate) fn is_free_number(image: &Image, geometry: &Geometry, i: u16) -> bool
    requires { Rules3To7And9 geometry.now image.now }
    ensures { IsTrue result ↔ (is_free_number (tree geometry.now image.now) i ≡ true) }
{
    is_free_inode(image, geometry, i)
}

/// True if directory `dir` would be larger than the greatest file after an entry is added in `slot`.
#[tactic(auto, using(crate::proofs::NeedReadings::too_great_is))]
pub(crate) fn is_too_great_with_entry(
    image: &Image,
    geometry: &Geometry,
    dir: u16,
    slot: u32,
) -> bool
    requires fits { Fits geometry.now image.now }
    requires directory { IsDirectory geometry.now image.now dir }
    requires slot { slot ≡ new_slot (names_in (slots geometry.now image.now dir)) }
    ensures { result ≡ is_too_great (tree geometry.now image.now) (size_with_entry (state geometry.now image.now) dir) }
{
    let end = SLOT as u64 * u64::from(slot) + SLOT as u64;
    u64::from(geometry.edition.constants().greatest)
        < u64::from(size(image, geometry, dir)).max(end)
}

/// Returns the number of blocks needed to add an entry to directory `dir` in `slot`.
#[tactic(auto, using(crate::proofs::NeedReadings::entry_need_is, vol_dir::proofs::Searches::slots_low, vol_dir::proofs::NewEntries::new_within))]
pub(crate) fn entry_need(image: &Image, geometry: &Geometry, dir: u16, slot: u32) -> u32
    requires fits { Fits geometry.now image.now }
    requires directory { IsDirectory geometry.now image.now dir }
    requires slot { slot ≡ new_slot (names_in (slots geometry.now image.now dir)) }
    ensures { result ≡ entry_need (state geometry.now image.now) dir }
{
    need(image, geometry, dir, SLOT as u32 * slot, SLOT as u32)
}

/// True if a path has a zero byte.
pub(crate) fn has_zero(path: &[u8]) -> bool
    ensures { result ≡ has_zero path.now }
{
    path.contains(&0)
}

/// Returns `refusal` as an error if `is_met` is true.
pub(crate) fn refuse_if(is_met: bool, refusal: Refusal) -> Result<(), Refusal>
    ensures { MatchResult result (λ _. is_met ≡ false) (λ error. (is_met ≡ true) × (error ≡ refusal)) }
{
    if is_met { Err(refusal) } else { Ok(()) }
}

/// Runs the first checks of every call and query: of its user and group numbers, and for zero bytes in its path.
pub(crate) fn first_tests(geometry: &Geometry, cred: Cred, path: &[u8]) -> Result<(), Refusal>
    ensures { result_err result ≡ (if is_bad_id geometry.now.edition cred.uid cred.gid then Some Refusal.BadId
        else if has_zero path.now then Some Refusal.Invalid else None) }
{
    refuse_if(
        is_bad_id(geometry.edition, cred.uid, cred.gid),
        Refusal::BadId,
    )?;
    refuse_if(has_zero(path), Refusal::Invalid)
}

/// Returns the node at a path, or the refusal of [`first_tests`] or of the walk.
pub(crate) fn find_node(
    image: &Image,
    geometry: &Geometry,
    cred: Cred,
    path: &[u8],
) -> Result<u16, Refusal>
    requires stands { Rules3To7And9 geometry.now image.now }
    ensures found { MatchResult result (LeadsTo (tree geometry.now image.now) cred path.now)
        (IsPathRefused (tree geometry.now image.now) cred path.now) }
    ensures used { IfOk result (λ i. IsInUse geometry.now image.now i) }
{
    first_tests(geometry, cred, path)?;
    walk(image, geometry, cred, path)
}

/// Returns the node at a path if the caller is user 0 or the node's owner; else the first refusal that applies.
pub(crate) fn find_owned(
    image: &Image,
    geometry: &Geometry,
    cred: Cred,
    path: &[u8],
) -> Result<u16, Refusal>
    requires { Rules3To7And9 geometry.now image.now }
    ensures refusal { result_err result ≡ then_others (tree geometry.now image.now) cred (path.now ∷ [])
        (of_node (walk (tree geometry.now image.now) cred path.now) (λ i. first_of (owner_tests (tree geometry.now image.now) cred i))) }
    ensures node { IfOk result (λ i. LeadsToNode geometry.now image.now cred path.now i) }
{
    let i = find_node(image, geometry, cred, path)?;
    refuse_if(!is_owner(image, geometry, i, cred), Refusal::NotOwner)?;
    Ok(i)
}

/// Returns the parent at a path, and the last component. A path without components is refused with `bare`.
pub(crate) fn parent<'a>(
    image: &Image,
    geometry: &Geometry,
    cred: Cred,
    path: &'a [u8],
    bare: Refusal,
) -> Result<(u16, &'a [u8]), Refusal>
    requires { Fits geometry.now image.now }
    ensures exact { MatchResult result
        (λ found. walk_parent (tree geometry.now image.now) cred path.now ≡ Some (Ok (found.0, found.1.now)))
        (λ refusal. (tests : ℕ → List ℕ → List (Bool × Refusal))
        → of_parent (walk_parent (tree geometry.now image.now) cred path.now) bare tests ≡ Some refusal) }
    ensures directory { IfOk result (λ found. IsDirectory geometry.now image.now found.0) }
    ensures component { IfOk result (λ found. IsComponent found.1.now) }
    ensures nonzero { has_zero path.now ≡ false → IfOk result (λ found. has_zero found.1.now ≡ false) }
{
    walk_parent(image, geometry, cred, path).unwrap_or(Err(bare))
}

/// Returns the parent at a path, and the last component, or the refusal of [`first_tests`] or of the walk. A path without components is refused with
/// `bare`.
pub(crate) fn find_parent<'a>(
    image: &Image,
    geometry: &Geometry,
    cred: Cred,
    path: &'a [u8],
    bare: Refusal,
) -> Result<(u16, &'a [u8]), Refusal>
    requires { Rules3To7And9 geometry.now image.now }
    ensures exact { MatchResult result (λ found. IsParentAsked (tree geometry.now image.now) cred path.now bare found.0 found.1.now)
        (IsParentRefused (tree geometry.now image.now) cred path.now bare) }
    ensures leads { IfOk result (λ found. LeadsToParent geometry.now image.now cred path.now found.0 found.1.now) }
{
    first_tests(geometry, cred, path)?;
    parent(image, geometry, cred, path, bare)
}

/// Checks that i-node `i`, which is in use, is a regular file that grants this access.
#[tactic(auto, using(crate::proofs::NodeReadings::regular_left))]
pub(crate) fn body_tests(
    image: &Image,
    geometry: &Geometry,
    access: Access,
    cred: Cred,
    i: u16,
) -> Result<(), Refusal>
    requires stands { Rules3To7And9 geometry.now image.now }
    requires used { IsInUse geometry.now image.now i }
    ensures exact { result_err result ≡ first_of (body_tests (tree geometry.now image.now) (bit_of access) cred i) }
    ensures regular { OnOk result (kind_at geometry.now image.now i ≡ Kind.Regular) }
{
    refuse_if(is_directory(image, geometry, i), Refusal::IsDirectory)?;
    refuse_if(is_device(image, geometry, i), Refusal::NotRegular)?;
    refuse_if(
        !is_granted(image, geometry, i, access, cred),
        Refusal::Access,
    )
}
