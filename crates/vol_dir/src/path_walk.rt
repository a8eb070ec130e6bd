//! Looking up paths.
ghost use Rattle.std.specs.Prelude.{◌≡◌, ◌≤◌, ◌∷◌, false, None, Some, Ok, Err, MatchOption, MatchResult, IfOk, IfSome};
ghost use Rattle.vol_layout.specs.Geometry.{Fits};
ghost use Rattle.vol_file.specs.Rules.{Rules3To7};
ghost use Rattle.vol_dir.specs.Tree.{tree};
ghost use Rattle.vol_dir.specs.Names.{names_of};
ghost use Rattle.vol_dir.specs.Entries.{slots, IsDirectory, HasEntries, IsInUse};
ghost use Rattle.vol_dir.specs.Walk.{components, has_zero, IsComponent, search, find_in, walk, parent_over, walk_parent};

use crate::access::{Access, grants};
use crate::cred::Cred;
use crate::entries::find;
use crate::paths::split_component;
use crate::refusal::Refusal;
use pdp_words::Image;
use vol_layout::i_list::kind;
use vol_layout::{Geometry, Kind};

/// Returns the i-number of the node at a path, walked from the root as a user; the empty path is the root. At each component the walk is refused if
/// the current i-node isn't a directory (NotDirectory), doesn't grant execute (Access) or doesn't have the name (NoEntry), checked in this order
/// (Lions on namei). In an unsound image, an entry may have a number outside the volume, which doesn't count as a directory.
///
/// Costs one [`find`] for each component.
pub fn walk(image: &Image, geometry: &Geometry, cred: Cred, path: &[u8]) -> Result<u16, Refusal>
    requires { Fits geometry.now image.now }
    ensures exact { result ≡ walk (tree geometry.now image.now) cred path.now }
    ensures used { Rules3To7 geometry.now image.now → HasEntries geometry.now image.now
        → IfOk result (λ i. IsInUse geometry.now image.now i) }
{
    let mut i = geometry.edition.constants().root;
    let mut rest = path;
    while let Some((name, after)) = split_component(rest) {
        i = step(image, geometry, cred, i, name)?;
        rest = after;
    }
    Ok(i)
}

/// Returns the parent directory of a path and the path's last component, cut to 14 bytes, or `None` for a path without components. The walk over all
/// components but the last is refused in the same cases as [`walk`]; then also if the parent isn't a directory (NotDirectory) or doesn't grant
/// execute (Access) (Lions on namei).
///
/// Costs one [`find`] for each component but the last.
pub fn walk_parent<'a>(
    image: &Image,
    geometry: &Geometry,
    cred: Cred,
    path: &'a [u8],
) -> Option<Result<(u16, &'a [u8]), Refusal>>
    requires { Fits geometry.now image.now }
    ensures exact { let walked = walk_parent (tree geometry.now image.now) cred path.now in
        MatchOption result (walked ≡ None) (λ parent. MatchResult parent
        (λ found. walked ≡ Some (Ok (found.0, found.1.now))) (λ refusal. walked ≡ Some (Err refusal))) }
    ensures directory { IfSome result (λ parent. IfOk parent (λ found. IsDirectory geometry.now image.now found.0)) }
    ensures component { IfSome result (λ parent. IfOk parent (λ found. IsComponent found.1.now)) }
    ensures nonzero { has_zero path.now ≡ false
        → IfSome result (λ parent. IfOk parent (λ found. has_zero found.1.now ≡ false)) }
{
    let (first, rest) = split_component(path)?;
    Some(parent_from(image, geometry, cred, first, rest))
}

/// Returns the parent directory of the path that consists of component `first` and the components of `rest`, walked from the root, and its last
/// component.
fn parent_from<'a>(
    image: &Image,
    geometry: &Geometry,
    cred: Cred,
    first: &'a [u8],
    rest: &'a [u8],
) -> Result<(u16, &'a [u8]), Refusal>
    requires fits { Fits geometry.now image.now }
    requires component { IsComponent first.now }
    ensures exact { let walked = parent_over (tree geometry.now image.now) cred (first.now ∷ components rest.now) in
        MatchResult result (λ found. walked ≡ Some (Ok (found.0, found.1.now))) (λ refusal. walked ≡ Some (Err refusal)) }
    ensures directory { IfOk result (λ found. IsDirectory geometry.now image.now found.0) }
    ensures component { IfOk result (λ found. IsComponent found.1.now) }
    ensures nonzero { has_zero first.now ≡ false → has_zero rest.now ≡ false
        → IfOk result (λ found. has_zero found.1.now ≡ false) }
{
    let mut dir = geometry.edition.constants().root;
    let mut name = first;
    let mut rest = rest;
    while let Some((next, after)) = split_component(rest) {
        dir = step(image, geometry, cred, dir, name)?;
        name = next;
        rest = after;
    }
    search(image, geometry, cred, dir)?;
    Ok((dir, name))
}

/// Looks one name up in i-node `i`, and returns its i-number.
fn step(image: &Image, geometry: &Geometry, cred: Cred, i: u16, name: &[u8]) -> Result<u16, Refusal>
    requires { Fits geometry.now image.now }
    ensures exact { result ≡ find_in (tree geometry.now image.now) cred i name.now }
    ensures used { HasEntries geometry.now image.now → IfOk result (λ j. IsInUse geometry.now image.now j) }
{
    search(image, geometry, cred, i)?;
    find(image, geometry, i, name).ok_or(Refusal::NoEntry)
}

/// Checks that `i`, which may be any number, is the i-number of a directory that may be searched.
fn search(image: &Image, geometry: &Geometry, cred: Cred, i: u16) -> Result<(), Refusal>
    requires { Fits geometry.now image.now }
    ensures exact { MatchResult result
        (λ _. search (tree geometry.now image.now) cred i ≡ Ok (names_of (slots geometry.now image.now i)))
        (λ refusal. search (tree geometry.now image.now) cred i ≡ Err refusal) }
    ensures directory { IfOk result (λ _. IsDirectory geometry.now image.now i) }
{
    if 1 <= i && i <= geometry.last_inode {
        search_node(image, geometry, cred, i)
    } else {
        Err(Refusal::NotDirectory)
    }
}

/// Checks that i-node `i` of the volume is a directory that may be searched.
fn search_node(image: &Image, geometry: &Geometry, cred: Cred, i: u16) -> Result<(), Refusal>
    requires fits { Fits geometry.now image.now }
    requires first { 1 ≤ i }
    requires last { i ≤ geometry.now.last_inode }
    ensures exact { MatchResult result
        (λ _. search (tree geometry.now image.now) cred i ≡ Ok (names_of (slots geometry.now image.now i)))
        (λ refusal. search (tree geometry.now image.now) cred i ≡ Err refusal) }
    ensures directory { IfOk result (λ _. IsDirectory geometry.now image.now i) }
{
    match kind(image, geometry, i) {
        Kind::Directory if grants(image, geometry, i, Access::Execute, cred) => Ok(()),
        Kind::Directory => Err(Refusal::Access),
        _ => Err(Refusal::NotDirectory),
    }
}
