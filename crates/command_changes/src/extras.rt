//! `sync --delete` removes from a directory of a volume what a tree hasn't.
ghost use Rattle.std.specs.Prelude.{◌≡◌, ◌++◌, ◌∷◌, [], IfOk, IfSome, List, OnOk};
ghost use Rattle.std.specs.List.{flat_map};
ghost use Rattle.vol_layout.specs.Geometry.{Fits};
ghost use Rattle.vol_dir.specs.Entries.{IsDirectory};
ghost use Rattle.command_changes.specs.Extras.{AreBelow, HoldsPaths, Removes, entry_calls, entry_line, has_member, pruned, removal, removal_call, removal_line, removal_word};
ghost use Rattle.command_changes.specs.declared.sync.TreeMember.{TreeMember as Member};

use crate::lookup::name_in;
use crate::sync::{SyncPlan, Syncing, TreeMember, push_line};
use pdp_words::Image;
use std::alloc::{AllocError, Global};
use std::collections::BTreeSet;
use vol_archive::{MetEntry, Role, is_directory, walk};
use vol_dir::{Cred, walk as walk_path};
use vol_layout::Geometry;
use vol_volume::{Bytes, Call, Volume};

/// What becomes of what the directory has and the tree hasn't.
#[derive(Clone, Copy)]
pub enum Extra {
    /// It stays.
    Keep,
    /// It is removed.
    Remove,
}

/// Returns the calls and the lines for what is removed: of all entries below the directory those whose paths no member has, each directory after what is
/// in it. There are none if what the tree hasn't stays, or if the directory's path leads nowhere or to a file.
///
/// Costs a walk of the path, and memory and time for all paths below the directory and for the members' paths.
pub(crate) fn removals(
    alloc: Global,
    volume: &Volume,
    syncing: Syncing<'_>,
    extra: Extra,
    members: &[TreeMember],
) -> Result<SyncPlan, AllocError>
    ensures { IfOk result (Removes volume.now.edition volume.now.image syncing.entry extra members.now) }
{
    let image = volume.image();
    let geometry = volume.geometry();
    let start = pruned(image, geometry, extra, syncing.directory.as_bytes());
    let mut founds = met_below(alloc, image, geometry, start)?;
    founds.reverse();
    plan_removals(alloc, syncing, members, &founds)
}

/// Returns the i-number of the directory from which something may be removed, if there is one.
fn pruned(image: &Image, geometry: &Geometry, extra: Extra, path: &[u8]) -> Option<u16>
    requires { Fits geometry.now image.now }
    ensures exact { result ≡ pruned extra geometry.now image.now path.now }
    ensures directory { IfSome result (λ start. IsDirectory geometry.now image.now start) }
{
    match extra {
        Extra::Keep => None,
        Extra::Remove => match walk_path(image, geometry, Cred::ROOT, path) {
            Ok(start) if is_directory(image, geometry, start) => Some(start),
            _ => None,
        },
    }
}

/// Returns all entries below a directory, if there is one.
fn met_below(
    alloc: Global,
    image: &Image,
    geometry: &Geometry,
    start: Option<u16>,
) -> Result<Vec<MetEntry>, AllocError>
    requires fits { Fits geometry.now image.now }
    requires directory { IfSome start (λ start. IsDirectory geometry.now image.now start) }
    ensures { IfOk result (λ founds. AreBelow start geometry.now image.now founds.items) }
{
    match start {
        Some(start) => walk(alloc, image, geometry, start),
        None => Ok(Vec::new(alloc)),
    }
}

/// Returns the calls and the lines for those of some entries whose paths no member has, in order.
fn plan_removals<'a>(
    alloc: Global,
    syncing: Syncing<'_>,
    members: &'a [TreeMember],
    founds: &'a [MetEntry],
) -> Result<SyncPlan, AllocError>
    ensures calls { IfOk result (λ plan. plan.calls.items ≡ flat_map (entry_calls syncing.entry members.now) founds.now) }
    ensures lines { IfOk result (λ plan. plan.lines.items ≡ flat_map (entry_line syncing.entry members.now) founds.now) }
{
    let known = paths_of(alloc, members)?;
    let mut calls = Vec::new(alloc);
    let mut lines = Vec::new(alloc);
    'entries: for found in founds {
        if has_path(&known, found.path.as_slice()) {
            continue;
        }
        push_removal(alloc, syncing, found, &mut calls, &mut lines)?;
    }
    Ok(SyncPlan { calls, lines })
}

/// Returns the set of the members' paths.
fn paths_of<'m>(alloc: Global, members: &'m [TreeMember]) -> Result<BTreeSet<&'m [u8]>, AllocError>
    ensures { IfOk result (λ known. HoldsPaths known members.now) }
{
    let mut known = BTreeSet::new(alloc);
    for member in members {
        known.insert(member.path.as_bytes())?;
    }
    Ok(known)
}

/// True if a path is in a set.
fn has_path<'k>(known: &BTreeSet<&'k [u8]>, path: &'k [u8]) -> bool
    ensures { (members : List Member) → HoldsPaths known.now members → result ≡ has_member members path.now }
{
    known.contains(&path)
}

/// Appends the call that removes an entry, and its line.
fn push_removal(
    alloc: Global,
    syncing: Syncing<'_>,
    found: &MetEntry,
    calls: &mut Vec<Call>,
    lines: &mut Vec<u8>,
) -> Result<(), AllocError>
    ensures calls { OnOk result (calls.new.items ≡ calls.old.items ++ removal syncing.entry found.now ∷ []) }
    ensures lines { OnOk result (lines.new.items ≡ lines.old.items ++ removal_line syncing.entry found.now) }
{
    let path = name_in(alloc, syncing.directory.as_bytes(), found.path.as_slice())?;
    push_line(word_of(found.role), path.as_slice(), lines)?;
    calls.push(removal_call(found.role, syncing.now, path))?;
    Ok(())
}

/// Returns the word for removing an entry.
fn word_of(role: Role) -> &'static [u8]
    ensures { result.now ≡ removal_word role }
{
    match role {
        Role::Directory => b"rmdir ",
        Role::File | Role::Special | Role::Link(_) | Role::Left(_) => b"rm ",
    }
}

/// Returns the call that removes an entry from a path.
fn removal_call(role: Role, now: u32, path: Bytes) -> Call
    ensures { result ≡ removal_call role now path }
{
    let cred = Cred::ROOT;
    match role {
        Role::Directory => Call::Rmdir { cred, now, path },
        Role::File | Role::Special | Role::Link(_) | Role::Left(_) => {
            Call::Unlink { cred, now, path }
        }
    }
}
