//! The calls for new nodes, removed names, new links and writes; and their checks.
ghost use Rattle.std.specs.Prelude.{◌≡◌, ◌%◌};
ghost use Rattle.vol_mounted.specs.Plans.{cred_of, is_regular, major_of, minor_of, new_file, owner_of, short_number, special_file};

use crate::calls::Calls;
use crate::owner::Owner;
use crate::refusal::MountedRefusal;
use crate::scene::Scene;
use fuse_words::Header;
use pdp_words::Bytes;
use std::alloc::AllocError;
use vol_change::NewFile;
use vol_dir::{Cred, Refusal};
use vol_layout::{DeviceId, DeviceKind, Edition, is_bad_id};
use vol_volume::Call;

impl Scene<'_> {
    ghost use Rattle.std.specs.Prelude.{◌≡◌, ◌∷◌, IfOk, None, Some, MatchResult};
    ghost use Rattle.std.specs.Option.{option_map};
    ghost use Rattle.vol_dir.specs.Access.{user};
    ghost use Rattle.vol_dir.specs.Tree.{state};
    ghost use Rattle.vol_volume.specs.Verdict.{creation, verdict};
    ghost use Rattle.vol_volume.specs.declared.calls.Call.TheVariants as calls;
    ghost use Rattle.vol_mounted.specs.declared.refusal.MountedRefusal.TheVariants as mounted;
    ghost use Rattle.vol_mounted.specs.Plans.{file_calls, directory_calls, given_to, unlink_calls, rmdir_calls, link_calls, write_calls, first_refused};
    ghost use Rattle.vol_mounted.specs.Refusals.{Gives};
    ghost use Rattle.vol_mounted.specs.Scenes.{sight_of};

    /// Returns the calls of MKNOD. Regular files can be made, and by user 0 special files whose major and minor numbers are at most 255: the kernel lets every
    /// user make character file 0, 0.
    pub(crate) fn make_file(
        &self,
        header: &Header,
        dir: u16,
        name: &[u8],
        mode: u32,
        device: u32,
    ) -> Result<Calls, MountedRefusal>
        ensures { Gives (file_calls (sight_of self.now) header.now dir name.now mode device) result }
    {
        let file = new_file(header.uid, mode, device).ok_or(MountedRefusal::NotPermitted)?;
        let owner = owner_of(self.geometry.edition, self.owner, header)?;
        let path = self.path_of_name(dir, name)?;
        let again = Bytes::from_slice(self.alloc, path.as_slice())?;
        let call = self.call_create(file, path, permissions(mode));
        Ok(self.make_for(owner, call, again)?)
    }

    /// Returns the call that creates a file.
    fn call_create(&self, file: NewFile, path: Bytes, perm: u16) -> Call
        ensures { result ≡ creation file user self.now.moment path perm }
    {
        let cred = Cred::ROOT;
        let now = self.moment;
        match file {
            NewFile::Regular => Call::Create {
                cred,
                now,
                path,
                perm,
            },
            NewFile::Special(device) => Call::Mknod {
                cred,
                now,
                path,
                perm,
                device,
            },
        }
    }

    /// Returns the calls of MKDIR.
    pub(crate) fn make_directory(
        &self,
        header: &Header,
        dir: u16,
        name: &[u8],
        mode: u32,
    ) -> Result<Calls, MountedRefusal>
        ensures { Gives (directory_calls (sight_of self.now) header.now dir name.now mode) result }
    {
        let owner = owner_of(self.geometry.edition, self.owner, header)?;
        let path = self.path_of_name(dir, name)?;
        let again = Bytes::from_slice(self.alloc, path.as_slice())?;
        let call = Call::Mkdir {
            cred: Cred::ROOT,
            now: self.moment,
            path,
            perm: permissions(mode),
        };
        Ok(self.make_for(owner, call, again)?)
    }

    /// Returns the call that makes the node at a path, and the call that changes its owner, unless the owner is user 0 of group 0.
    fn make_for(&self, owner: Cred, call: Call, path: Bytes) -> Result<Calls, AllocError>
        ensures { IfOk result (λ calls. calls ≡ call ∷ given_to owner self.now.moment path) }
    {
        let mut calls = Calls::one(self.alloc, call)?;
        if owner.uid != 0 || owner.gid != 0 {
            calls.push(Call::Chown {
                cred: Cred::ROOT,
                now: self.moment,
                path,
                uid: owner.uid,
                gid: owner.gid,
            })?;
        }
        Ok(calls)
    }

    /// Returns the call of UNLINK.
    pub(crate) fn unlink(&self, dir: u16, name: &[u8]) -> Result<Calls, MountedRefusal>
        ensures { Gives (unlink_calls (sight_of self.now) dir name.now) result }
    {
        let path = self.path_of_name(dir, name)?;
        Ok(Calls::one(self.alloc, self.call_unlink(path))?)
    }

    /// Returns the call of RMDIR.
    pub(crate) fn remove_directory(&self, dir: u16, name: &[u8]) -> Result<Calls, MountedRefusal>
        ensures { Gives (rmdir_calls (sight_of self.now) dir name.now) result }
    {
        let path = self.path_of_name(dir, name)?;
        let call = Call::Rmdir {
            cred: Cred::ROOT,
            now: self.moment,
            path,
        };
        Ok(Calls::one(self.alloc, call)?)
    }

    /// Returns the call of LINK of node `i`.
    pub(crate) fn link(&self, i: u16, dir: u16, name: &[u8]) -> Result<Calls, MountedRefusal>
        ensures { Gives (link_calls (sight_of self.now) i dir name.now) result }
    {
        let source = self.path(i)?;
        let target = self.path_of_name(dir, name)?;
        Ok(Calls::one(self.alloc, self.call_link(source, target))?)
    }

    /// Returns the call of WRITE into node `i`.
    pub(crate) fn write(&self, i: u16, offset: u64, content: &[u8]) -> Result<Calls, MountedRefusal>
        ensures { Gives (write_calls (sight_of self.now) i offset content.now) result }
    {
        let offset = short_number(offset)?;
        let path = self.path(i)?;
        let call = Call::Write {
            cred: Cred::ROOT,
            now: self.moment,
            path,
            offset,
            bytes: Bytes::from_slice(self.alloc, content)?,
        };
        Ok(Calls::one(self.alloc, call)?)
    }

    /// Returns the call that removes a name.
    pub(crate) fn call_unlink(&self, path: Bytes) -> Call
        ensures { result ≡ calls.Unlink user self.now.moment path }
    {
        Call::Unlink {
            cred: Cred::ROOT,
            now: self.moment,
            path,
        }
    }

    /// Returns the call that adds another name to a node other than a directory.
    pub(crate) fn call_link(&self, source: Bytes, target: Bytes) -> Call
        ensures { result ≡ calls.Link user self.now.moment source target }
    {
        Call::Link {
            cred: Cred::ROOT,
            now: self.moment,
            source,
            target,
        }
    }

    #[tactic(auto, using(crate::proofs::Asked::next_asked))]
    /// Checks some calls, each on the unchanged volume, and returns the first refusal.
    pub(crate) fn ask(&self, tests: &[Call]) -> Result<(), MountedRefusal>
        ensures { MatchResult result
            (λ _. first_refused (state self.now.geometry.now self.now.volume.now.image) tests.now ≡ None)
            (λ refusal. option_map mounted.Call (first_refused (state self.now.geometry.now self.now.volume.now.image) tests.now) ≡ Some refusal) }
    {
        'tests: for call in tests {
            if let Some(refusal) = self.refusal(call) {
                return Err(MountedRefusal::Call(refusal));
            }
        }
        Ok(())
    }

    /// Returns the refusal of a call on the unchanged volume, if it would be refused for a reason other than memory.
    fn refusal(&self, call: &Call) -> Option<Refusal>
        ensures { result ≡ verdict (state self.now.geometry.now self.now.volume.now.image) call.now }
    {
        self.volume.refusal(call)
    }
}

/// True if a mode has the type bits of a regular file, or no type bits.
fn is_regular(mode: u32) -> bool
    ensures { result ≡ is_regular mode }
{
    matches!(mode / 0o10000 % 16, 0 | 8)
}

/// Returns the major number of a device, from Linux's number.
fn major_of(device: u32) -> u32
    ensures { result ≡ major_of device }
{
    device / 256 % 4096
}

/// Returns the minor number of a device, from Linux's number.
fn minor_of(device: u32) -> u32
    ensures { result ≡ minor_of device }
{
    device % 256 + device / 1_048_576 * 256
}

/// Returns the special file of a device, by Linux's number, or `None` if its major or minor number is above 255.
fn special_file(kind: DeviceKind, device: u32) -> Option<NewFile>
    ensures { result ≡ special_file kind device }
{
    let major = major_of(device);
    let minor = minor_of(device);
    if major > 255 || minor > 255 {
        return None;
    }
    Some(NewFile::Special(DeviceId {
        kind,
        major: major as u8,
        minor: minor as u8,
    }))
}

/// Returns the file that MKNOD makes for a user, by a mode and Linux's number of a device. `None` for any other type than a regular, character or block
/// file's, for a special file if the user isn't 0, or if its major or minor number is above 255.
fn new_file(uid: u32, mode: u32, device: u32) -> Option<NewFile>
    ensures { result ≡ new_file uid mode device }
{
    if is_regular(mode) {
        return Some(NewFile::Regular);
    }
    if uid != 0 {
        return None;
    }
    match mode / 0o10000 % 16 {
        2 => special_file(DeviceKind::Character, device),
        6 => special_file(DeviceKind::Block, device),
        _ => None,
    }
}

/// Returns the permission bits of a mode.
pub(crate) fn permissions(mode: u32) -> u16
    ensures { result ≡ mode % 4096 }
{
    (mode % 0o10000) as u16
}

/// Returns a user and a group, or BadId if the edition's i-nodes can't hold them.
pub(crate) fn cred_of(edition: Edition, uid: u32, gid: u32) -> Result<Cred, MountedRefusal>
    ensures { result ≡ cred_of edition uid gid }
{
    match (u16::try_from(uid), u16::try_from(gid)) {
        (Ok(uid), Ok(gid)) if !is_bad_id(edition, uid, gid) => Ok(Cred { uid, gid }),
        _ => Err(MountedRefusal::Call(Refusal::BadId)),
    }
}

/// Returns the owner of a new node: user 0 if all nodes are shown as one user's, else the caller.
fn owner_of(edition: Edition, owner: Option<Owner>, header: &Header) -> Result<Cred, MountedRefusal>
    ensures { result ≡ owner_of edition owner header.now }
{
    match owner {
        Some(_) => Ok(Cred::ROOT),
        None => cred_of(edition, header.uid, header.gid),
    }
}

/// Returns a number of 32 bits, or TooBig if it has more.
pub(crate) fn short_number(n: u64) -> Result<u32, MountedRefusal>
    ensures { result ≡ short_number n }
{
    match u32::try_from(n) {
        Ok(n) => Ok(n),
        Err(_) => Err(MountedRefusal::Call(Refusal::TooBig)),
    }
}
