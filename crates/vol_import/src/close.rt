//! The calls that end an import.
ghost use Rattle.std.specs.Prelude.{◌≡◌, ◌++◌, IfOk, OnOk, reverse};
ghost use Rattle.std.specs.List.{find};
ghost use Rattle.std.specs.Option.{option_map};
ghost use Rattle.vol_volume.specs.Answer.{answer};
ghost use Rattle.vol_volume.specs.Volume.{reads_as};
ghost use Rattle.vol_volume.specs.declared.queries.Query.TheVariants as questions;
ghost use Rattle.vol_dir.specs.Access.{user};
ghost use Rattle.vol_import.specs.Plan.{is_base, permissions_given, permissions_told, base_permissions, closed, made_as, time_calls, times};

use crate::archive_members::Member;
use crate::draft::{first_step, is_directory, is_directory_kind};
use crate::import_plan::{moment_of, permissions_of};
use crate::member_check::{MadeAs, made_as};
use std::alloc::{AllocError, Global};
use vol_batch::below;
use vol_dir::Cred;
use vol_layout::Kind;
use vol_volume::{Bytes, Call, Query, Reply, Volume};

/// Returns the permissions of the last member for the directory of the import, or `None` if there is no such member.
pub(crate) fn permissions_given(members: &[Member]) -> Option<u16>
    ensures { result ≡ permissions_given members.now }
{
    match last_base(members) {
        Some(member) => Some(permissions_of(&member.header)),
        None => None,
    }
}

/// Returns the last member for the directory of the import.
fn last_base(members: &[Member]) -> Option<&Member>
    ensures { option_map (λ member. member.now) result ≡ find is_base (reverse members.now) }
{
    members.iter().rev().find(|member| is_base(member))
}

/// True if a member is the directory of the import itself.
fn is_base(member: &Member) -> bool
    ensures { result ≡ is_base member.now }
{
    let path = member.path.as_slice();
    match made_as(member.header.flag, path) {
        Ok(MadeAs::Directory) => first_step(path).is_none(),
        Ok(MadeAs::File | MadeAs::Link | MadeAs::Device(_)) => false,
        Err(_) => false,
    }
}

/// Appends one more call to the calls that make members, if there are any and the directory of the import exists or they make it. The call gives this
/// directory the permissions that it already has, at time `now`.
pub(crate) fn close(
    alloc: Global,
    volume: &Volume,
    base: &[u8],
    now: u32,
    given: Option<u16>,
    calls: &mut Vec<Call>,
) -> Result<(), AllocError>
    ensures { OnOk result (calls.new.items ≡ closed now base.now (base_permissions (answer (reads_as volume.now.edition volume.now.image).tree (questions.Stat user base.now)) given) calls.old.items) }
{
    if calls.is_empty() {
        return Ok(());
    }
    let Some(perm) = base_permissions(alloc, volume, base, given)? else {
        return Ok(());
    };
    calls.push(Call::Chmod {
        cred: Cred::ROOT,
        now,
        path: Bytes::from_slice(alloc, base)?,
        perm,
    })?;
    Ok(())
}

/// Returns the permissions of the directory at a path, or `given` if there is none.
fn base_permissions(
    alloc: Global,
    volume: &Volume,
    base: &[u8],
    given: Option<u16>,
) -> Result<Option<u16>, AllocError>
    ensures { IfOk result (λ permissions. permissions ≡ base_permissions (answer (reads_as volume.now.edition volume.now.image).tree (questions.Stat user base.now)) given) }
{
    let query = Query::Stat {
        cred: Cred::ROOT,
        path: Bytes::from_slice(alloc, base)?,
    };
    match volume.ask(alloc, &query) {
        Ok(Reply::Stat(stat)) => Ok(permissions_told(stat.kind, stat.permissions, given)),
        Ok(_) => Ok(given),
        Err(_) => Ok(given),
    }
}

/// Returns the permissions of a node that is a directory, or `given` for any other node.
fn permissions_told(kind: Kind, permissions: u16, given: Option<u16>) -> Option<u16>
    ensures { result ≡ permissions_told kind permissions given }
{
    if is_directory_kind(kind) {
        Some(permissions)
    } else {
        given
    }
}

/// Returns the calls that give new directories the times of the members that make them, in the order of the members. A directory that already exists
/// is left as it is.
pub(crate) fn directory_times(
    alloc: Global,
    volume: &Volume,
    base: &[u8],
    now: u32,
    members: &[Member],
) -> Result<Vec<Call>, AllocError>
    ensures { IfOk result (λ calls. calls.items ≡ times (reads_as volume.now.edition volume.now.image).tree base.now now members.now) }
{
    let mut calls = Vec::new(alloc);
    for member in members {
        push_time(alloc, volume, base, now, member, &mut calls)?;
    }
    Ok(calls)
}

/// Appends the call that gives a directory the time of its member, if the member is a directory that doesn't exist yet.
fn push_time(
    alloc: Global,
    volume: &Volume,
    base: &[u8],
    now: u32,
    member: &Member,
    calls: &mut Vec<Call>,
) -> Result<(), AllocError>
    ensures { OnOk result (calls.new.items ≡ calls.old.items ++ time_calls (reads_as volume.now.edition volume.now.image).tree base.now now member.now (made_as member.now.header.flag member.now.path)) }
{
    let path = member.path.as_slice();
    match made_as(member.header.flag, path) {
        Ok(MadeAs::Directory) => {
            let path = below(alloc, base, path)?;
            if !is_directory(alloc, volume, Bytes::from_slice(alloc, path.as_slice())?) {
                let moment = moment_of(&member.header, now);
                calls.push(Call::Times {
                    cred: Cred::ROOT,
                    now,
                    path,
                    atime: moment,
                    mtime: moment,
                })?;
            }
            Ok(())
        }
        Ok(MadeAs::File | MadeAs::Link | MadeAs::Device(_)) => Ok(()),
        Err(_) => Ok(()),
    }
}
