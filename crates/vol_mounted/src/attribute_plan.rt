//! The calls of SETATTR.
ghost use Rattle.std.specs.Prelude.{◌≡◌};
ghost use Rattle.vol_mounted.specs.Plans.{set_time, time_of};

use crate::calls::Calls;
use crate::plan::{cred_of, permissions, short_number};
use crate::refusal::MountedRefusal;
use crate::scene::Scene;
use fuse_words::{AttributeChanges, NewTime};
use pdp_words::Bytes;
use vol_dir::Cred;
use vol_volume::{Call, Stat};

impl Scene<'_> {
    ghost use Rattle.std.specs.Prelude.{◌≡◌, Ok, Err};
    ghost use Rattle.vol_mounted.specs.Plans.{attribute_calls, size_call, mode_call, owner_call, times_call};
    ghost use Rattle.vol_mounted.specs.Refusals.{Gives};
    ghost use Rattle.vol_mounted.specs.Scenes.{sight_of};

    /// Returns the calls of SETATTR of node `i`. All calls are checked first.
    pub(crate) fn set_attributes(
        &self,
        i: u16,
        changes: &AttributeChanges,
    ) -> Result<Calls, MountedRefusal>
        ensures { Gives (attribute_calls (sight_of self.now) i changes.now) result }
    {
        let path = self.path(i)?;
        let stat = self.stat(i)?;
        let sized = self.size_call(&stat, path.as_slice(), changes.size)?;
        let owned = self.owner_call(&stat, path.as_slice(), changes.uid, changes.gid)?;
        let mut calls = Calls::none(self.alloc);
        calls.extend(sized)?;
        calls.extend(self.mode_call(path.as_slice(), changes.mode)?)?;
        calls.extend(owned)?;
        calls.extend(self.times_call(&stat, path.as_slice(), changes.accessed, changes.modified)?)?;
        self.ask(calls.as_slice())?;
        Ok(calls)
    }

    /// Returns the call that changes a file's size: it truncates the file, or writes a zero byte at the new end.
    fn size_call(
        &self,
        stat: &Stat,
        path: &[u8],
        size: Option<u64>,
    ) -> Result<Option<Call>, MountedRefusal>
        ensures { Gives (size_call self.now.moment stat.now path.now size) result }
    {
        let Some(size) = size else {
            return Ok(None);
        };
        let size = short_number(size)?;
        let path = Bytes::from_slice(self.alloc, path)?;
        if size <= stat.size {
            return Ok(Some(Call::Truncate {
                cred: Cred::ROOT,
                now: self.moment,
                path,
                length: size,
            }));
        }
        let bytes = Bytes::from_slice(self.alloc, &[0])?;
        Ok(Some(Call::Write {
            cred: Cred::ROOT,
            now: self.moment,
            path,
            offset: size - 1,
            bytes,
        }))
    }

    /// Returns the call that changes a node's permissions.
    fn mode_call(&self, path: &[u8], mode: Option<u32>) -> Result<Option<Call>, MountedRefusal>
        ensures { Gives (Ok (mode_call self.now.moment path.now mode)) result }
    {
        let Some(mode) = mode else {
            return Ok(None);
        };
        Ok(Some(Call::Chmod {
            cred: Cred::ROOT,
            now: self.moment,
            path: Bytes::from_slice(self.alloc, path)?,
            perm: permissions(mode),
        }))
    }

    /// Returns the call that changes a node's user and group, if a user or a group is given.
    fn owner_call(
        &self,
        stat: &Stat,
        path: &[u8],
        uid: Option<u32>,
        gid: Option<u32>,
    ) -> Result<Option<Call>, MountedRefusal>
        ensures { Gives (owner_call (sight_of self.now) stat.now path.now uid gid) result }
    {
        if uid.is_none() && gid.is_none() {
            return Ok(None);
        }
        if let Some(owner) = self.owner {
            return if uid.unwrap_or(owner.uid) == owner.uid
                && gid.unwrap_or(owner.gid) == owner.gid
            {
                Ok(None)
            } else {
                Err(MountedRefusal::NotPermitted)
            };
        }
        let uid = uid.unwrap_or(u32::from(stat.uid));
        let gid = gid.unwrap_or(u32::from(stat.gid));
        let cred = cred_of(self.geometry.edition, uid, gid)?;
        Ok(Some(Call::Chown {
            cred: Cred::ROOT,
            now: self.moment,
            path: Bytes::from_slice(self.alloc, path)?,
            uid: cred.uid,
            gid: cred.gid,
        }))
    }
    /// Returns the call that sets a node's times, if a time is given. A time that isn't given stays the same.
    fn times_call(
        &self,
        stat: &Stat,
        path: &[u8],
        accessed: Option<NewTime>,
        modified: Option<NewTime>,
    ) -> Result<Option<Call>, MountedRefusal>
        ensures { Gives (Ok (times_call self.now.moment stat.now path.now accessed modified)) result }
    {
        if accessed.is_none() && modified.is_none() {
            return Ok(None);
        }
        Ok(Some(Call::Times {
            cred: Cred::ROOT,
            now: self.moment,
            path: Bytes::from_slice(self.alloc, path)?,
            atime: set_time(self.moment, stat.accessed, accessed),
            mtime: set_time(self.moment, stat.modified, modified),
        }))
    }
}

/// Returns the time to set: the new one, if it is given; else the node's present time.
fn set_time(now: u32, present: u32, time: Option<NewTime>) -> u32
    ensures { result ≡ set_time now present time }
{
    match time {
        Some(time) => time_of(now, time),
        None => present,
    }
}

/// Returns a new time: the current time, or the given one, limited to the times that an i-node can hold.
pub(crate) fn time_of(now: u32, time: NewTime) -> u32
    ensures { result ≡ time_of now time }
{
    match time {
        NewTime::Now => now,
        NewTime::At(seconds) if seconds >= 1 << 63 => 0,
        NewTime::At(seconds) => u32::try_from(seconds).unwrap_or(u32::MAX),
    }
}
