//! `build` makes a volume of a list, and returns the bytes to save.
ghost use Rattle.std.specs.Prelude.{◌≡◌, IfErr, IfOk, map, option_map};
ghost use Rattle.pack_lists.specs.Archive.{filled};
ghost use Rattle.vol_mkfs.specs.Blank.{IsMade, blank_of};
ghost use Rattle.command_faults.specs.ChangeFaults.{IsReason, Makes};
ghost use Rattle.command_changes.specs.Build.{Builds, IsBegun, IsStarted, IsUnbegun, IsUnbuilt, IsUnmade, IsUnstarted, new_volume, program_of, root_calls, root_owner};

use crate::boot::boot;
use crate::chmod::chmod;
use crate::import_lines::fault_of;
use crate::mkfs::unmade;
use command_faults::Fault;
use command_terms::PermissionChange;
use pack_lists::{FilledMember, ListedOwner, ListedVolume, RootMarks, archive_of};
use std::alloc::Global;
use vol_import::import;
use vol_mkfs::mkfs::mkfs;

/// The path of the root, without names: below it a path of a list begins with two slashes, of which messages leave out one.
const ROOT: &str = "";

/// The user and the group that own a root if the list doesn't say another.
const SUPERUSER: ListedOwner = ListedOwner { uid: 0, gid: 0 };

/// A list of what a new volume has, with the bytes of its files.
#[derive(Drop)]
pub struct FilledList<'a> {
    /// The sizes and the time of the volume.
    pub volume: ListedVolume,
    /// The program in its boot block, if it has one.
    pub boot: Option<Vec<u8>>,
    /// The permissions and the owner of its root, if they aren't those of `mkfs`, for user 0 and group 0.
    pub root: Option<RootMarks>,
    /// The members, each with the bytes of its file, in their order.
    pub members: Vec<FilledMember<'a>>,
}

/// Makes the volume of a list, for `build`: that of `mkfs`, with the program of `boot` in it, if there is one, and with the permissions and the owner of its
/// root, if the list says them; then all members are imported below its root. The fault is the first reason against it: of the sizes, of the root's owner, then
/// of the program, then of the members, with the path of the first that can't be made; or out of memory. The same list gives the same bytes.
///
/// Takes memory for the volume, twice for the bytes of the files, and that of [`import`].
pub fn build_volume(alloc: Global, list: FilledList<'_>) -> Result<Vec<u8>, Fault>
    ensures built { IfOk result (λ bytes. Builds list.entry.volume list.entry.root (program_of list.entry) (map filled list.entry.members.items) bytes.items) }
    ensures fault { IfErr result (IsUnbuilt list.entry.volume list.entry.root (program_of list.entry) (map filled list.entry.members.items)) }
{
    let FilledList {
        volume,
        boot,
        root,
        members,
    } = list;
    let begun = begun_volume(alloc, volume, root, boot)?;
    let archive = archive_of(alloc, &members)?;
    drop(members);
    match import(
        alloc,
        volume.sizes.edition,
        begun,
        archive,
        ROOT.as_bytes(),
        volume.time,
    ) {
        Ok(bytes) => Ok(bytes),
        Err(why) => Err(fault_of(alloc, &why)),
    }
}

/// Makes the volume of a list without its members, with a program in its boot block, if there is one, and with the permissions and the owner of its root, if
/// the list says them.
fn begun_volume(
    alloc: Global,
    volume: ListedVolume,
    root: Option<RootMarks>,
    program: Option<Vec<u8>>,
) -> Result<Vec<u8>, Fault>
    ensures begun { IfOk result (λ bytes. IsBegun volume root (option_map (λ program. program.items) program) bytes.items) }
    ensures fault { IfErr result (IsUnbegun volume root (option_map (λ program. program.items) program)) }
{
    let started = started_volume(alloc, volume, root_owner(root), program)?;
    match root {
        Some(root) => permit(alloc, volume, root.permissions, started),
        None => Ok(started),
    }
}

/// Returns the user and the group that own the root.
fn root_owner(root: Option<RootMarks>) -> ListedOwner
    ensures { result ≡ root_owner root }
{
    match root {
        Some(root) => root.owner,
        None => SUPERUSER,
    }
}

/// Makes the volume of a list with an empty root, which belongs to this user and group, and with a program in its boot block, if there is one.
fn started_volume(
    alloc: Global,
    volume: ListedVolume,
    owner: ListedOwner,
    program: Option<Vec<u8>>,
) -> Result<Vec<u8>, Fault>
    ensures started { IfOk result (λ bytes. IsStarted volume owner (option_map (λ program. program.items) program) bytes.items) }
    ensures fault { IfErr result (IsUnstarted volume owner (option_map (λ program. program.items) program)) }
{
    let made = empty_volume(alloc, volume, owner)?;
    match program {
        Some(program) => boot(alloc, volume.sizes.edition, made, &program),
        None => Ok(made),
    }
}

/// Makes the volume of a list with an empty root, which belongs to this user and group.
fn empty_volume(alloc: Global, volume: ListedVolume, owner: ListedOwner) -> Result<Vec<u8>, Fault>
    ensures made { IfOk result (λ bytes. IsMade (blank_of (new_volume volume owner)) bytes.items) }
    ensures fault { IfErr result (IsUnmade volume owner) }
{
    let sizes = volume.sizes;
    match mkfs(
        alloc,
        sizes.edition,
        sizes.blocks,
        sizes.list_blocks,
        owner.uid,
        owner.gid,
        volume.time,
    ) {
        Ok(bytes) => Ok(bytes),
        Err(fault) => Err(unmade(fault)),
    }
}

/// Gives the root of a list's volume these permissions, as `chmod` does.
fn permit(
    alloc: Global,
    volume: ListedVolume,
    permissions: u16,
    started: Vec<u8>,
) -> Result<Vec<u8>, Fault>
    ensures permitted { IfOk result (λ bytes. Makes volume.sizes.edition started.items (root_calls volume permissions started.items) bytes.items) }
    ensures fault { IfErr result (IsReason volume.sizes.edition started.items (root_calls volume permissions started.items)) }
{
    let change = PermissionChange::to(permissions);
    let permitted = chmod(
        alloc,
        volume.sizes.edition,
        started,
        ROOT,
        change,
        volume.time,
    )?;
    Ok(permitted.unmount())
}
