//! The changes that SETATTR makes.
ghost use Rattle.std.specs.Prelude.{◌≡◌, ◌≤◌, length};
ghost use Rattle.fuse_words.specs.Requests.{given, new_time, changes_of};

use crate::request::{u32_at, u64_at};

// Flags in the first field, each for one of the other fields: a field counts if its flag is set (FATTR_MODE to FATTR_MTIME_NOW).
const MODE: u32 = 1;

const UID: u32 = 2;

const GID: u32 = 4;

const SIZE: u32 = 8;

const ACCESSED: u32 = 16;

const MODIFIED: u32 = 32;

const ACCESSED_NOW: u32 = 128;

const MODIFIED_NOW: u32 = 256;

/// A time to set.
#[derive(Clone, Copy, Drop)]
pub enum NewTime {
    /// The current time.
    Now,
    /// Whole seconds since the beginning of 1970, as a signed number of 64 bits.
    At(u64),
}

/// The attributes of a node to set. An attribute that is `None` isn't changed.
#[derive(Clone, Copy)]
pub struct AttributeChanges {
    /// Kind and permissions, as in stat(2).
    pub mode: Option<u32>,
    /// The owner.
    pub uid: Option<u32>,
    /// The owner's group.
    pub gid: Option<u32>,
    /// The size in bytes.
    pub size: Option<u64>,
    /// The time of the last access.
    pub accessed: Option<NewTime>,
    /// The time of the last change of its bytes.
    pub modified: Option<NewTime>,
}

/// Reads the changes in a body (`fuse_setattr_in`).
#[tactic(auto, unfolding(crate::specs::Requests::changes_of))]
pub(crate) fn read_changes(body: &[u8]) -> AttributeChanges
    requires { 88 ≤ length body.now }
    ensures { result ≡ changes_of body.now }
{
    let valid = u32_at(body, 0);
    AttributeChanges {
        mode: given(valid, MODE, u32_at(body, 68)),
        uid: given(valid, UID, u32_at(body, 76)),
        gid: given(valid, GID, u32_at(body, 80)),
        size: given(valid, SIZE, u64_at(body, 16)),
        accessed: given(
            valid,
            ACCESSED,
            new_time(valid, ACCESSED_NOW, u64_at(body, 32)),
        ),
        modified: given(
            valid,
            MODIFIED,
            new_time(valid, MODIFIED_NOW, u64_at(body, 40)),
        ),
    }
}

/// Returns the value of a field, if its flag is set.
fn given<T: Drop>(valid: u32, flag: u32, value: T) -> Option<T>
    ensures { result ≡ given valid flag value }
{
    if valid & flag == 0 { None } else { Some(value) }
}

/// Returns the time of a field, or `Now` if the flag `now` is set.
fn new_time(valid: u32, now: u32, seconds: u64) -> NewTime
    ensures { result ≡ new_time valid now seconds }
{
    if valid & now == 0 {
        NewTime::At(seconds)
    } else {
        NewTime::Now
    }
}
