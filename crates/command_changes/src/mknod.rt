//! `mknod` makes the special file of a device.
ghost use Rattle.std.specs.Prelude.{◌≡◌, IfErr, IfOk};
ghost use Rattle.command_faults.specs.ChangeFaults.{IsReason};
ghost use Rattle.command_changes.specs.Mknod.{mknod_calls};
ghost use Rattle.command_changes.specs.Traced.{MakesVolume};

use crate::calls::{make_calls, push};
use crate::chown::push_owner;
use crate::put::FILE_PERMISSIONS;
use command_faults::Fault;
use command_faults::mount::mount;
use command_terms::PermissionChange;
use std::alloc::{AllocError, Global};
use vol_dir::Cred;
use vol_layout::{DeviceId, Edition};
use vol_volume::{Bytes, Call, Volume};

/// Makes the special file of a device at a path, with the permissions that a change makes of 0644, and gives it its owner, if one is given, with calls as
/// user 0.
///
/// Takes the memory of [`Volume::mount`], and memory for a copy of the path per call.
pub(crate) fn mknod(
    alloc: Global,
    edition: Edition,
    image: Vec<u8>,
    path: &str,
    device: DeviceId,
    change: PermissionChange,
    owner: Option<Cred>,
    now: u32,
) -> Result<Volume, Fault>
    ensures made { IfOk result (MakesVolume edition image.items (mknod_calls now device change owner path.now)) }
    ensures fault { IfErr result (IsReason edition image.items (mknod_calls now device change owner path.now)) }
{
    let mut volume = mount(alloc, edition, image)?;
    let calls = mknod_calls(alloc, path.as_bytes(), device, change, owner, now)?;
    make_calls(alloc, &mut volume, calls)?;
    Ok(volume)
}

/// Returns the calls that `mknod` makes.
fn mknod_calls(
    alloc: Global,
    path: &[u8],
    device: DeviceId,
    change: PermissionChange,
    owner: Option<Cred>,
    now: u32,
) -> Result<Vec<Call>, AllocError>
    ensures { IfOk result (λ calls. calls.items ≡ mknod_calls now device change owner path.now) }
{
    let mut calls = Vec::new(alloc);
    let call = Call::Mknod {
        cred: Cred::ROOT,
        now,
        path: Bytes::from_slice(alloc, path)?,
        perm: change.apply(FILE_PERMISSIONS),
        device,
    };
    push(&mut calls, call)?;
    push_owner(alloc, path, owner, now, &mut calls)?;
    Ok(calls)
}
