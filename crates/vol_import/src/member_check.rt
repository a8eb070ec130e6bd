//! Checks that a member can be made.
ghost use Rattle.std.specs.Prelude.{◌≡◌, ◌==◌};
ghost use Rattle.std.specs.List.{list_any};
ghost use Rattle.vol_import.specs.Plan.{is_long_path, names_of, is_long, is_dot_dot, check_path, ends_in_slash, made_as, check_link, check_device, owner_of, check};

use crate::archive_members::Member;
use ustar::{MemberKind, ReadHeader, TypeFlag};
use vol_dir::Cred;
use vol_layout::slot::NAME;
use vol_layout::{DeviceKind, Edition};

/// The greatest number of bytes in the path of a member, and in the path that it links to.
pub const MOST_PATH_BYTES: usize = 4096;

/// The kind of node that a member becomes.
#[derive(Clone, Copy)]
pub enum MadeAs {
    /// A regular file.
    File,
    /// A directory.
    Directory,
    /// Another name of a file.
    Link,
    /// The special file of a device of this kind.
    Device(DeviceKind),
}

/// The reason why no calls can make a member.
#[derive(Clone, Copy)]
pub enum MemberFault {
    /// The member is a FIFO, a symbolic link, or of an unknown kind.
    Kind,
    /// The member's path is longer than [`MOST_PATH_BYTES`].
    LongPath,
    /// A name in the member's path is longer than 14 bytes.
    LongName,
    /// The member's path has a name `..`.
    DotDot,
    /// The member is a link to a path longer than [`MOST_PATH_BYTES`].
    LongLinkPath,
    /// The member is a link to a path with a name longer than 14 bytes.
    LongLink,
    /// The member is a link to a path with a name `..`.
    DotDotLink,
    /// The member is a special file, and the major or the minor number of its device is above 255.
    Device,
    /// The number of the member's owner or group is above the edition's limit: 255 in the sixth, 32,767 in the seventh.
    Owner,
    /// The directories of the members before it and the directories on its path are more than the volume has i-nodes. The fault has the member's path
    /// in the volume, like the fault of a refused call.
    NoInode,
    /// A field of the member's header isn't a number. The fault has the path in the header.
    Number,
}

/// Returns the kind of node that a member becomes in a volume of an edition, and its owner, or the first fault in its kind, its path, its link path,
/// the numbers of its device, and its owner.
#[tactic(auto, unfolding(crate::specs::Plan::check))]
pub fn check(edition: Edition, member: &Member) -> Result<(MadeAs, Cred), MemberFault>
    ensures { result ≡ check edition member.now }
{
    let path = member.path.as_slice();
    let made = made_as(member.header.flag, path)?;
    check_path(path)?;
    check_link(made, member.link.as_slice())?;
    check_device(made, &member.header)?;
    let owner = owner_of(edition, &member.header)?;
    Ok((made, owner))
}

/// Returns the kind of node that a member becomes, from its type flag and its path.
pub(crate) fn made_as(flag: TypeFlag, path: &[u8]) -> Result<MadeAs, MemberFault>
    ensures { result ≡ made_as flag path.now }
{
    match flag {
        TypeFlag::Member(MemberKind::File) if ends_in_slash(path) => Ok(MadeAs::Directory),
        TypeFlag::Member(MemberKind::File) => Ok(MadeAs::File),
        TypeFlag::Member(MemberKind::Directory) => Ok(MadeAs::Directory),
        TypeFlag::Member(MemberKind::Link) => Ok(MadeAs::Link),
        TypeFlag::Member(MemberKind::Character) => Ok(MadeAs::Device(DeviceKind::Character)),
        TypeFlag::Member(MemberKind::Block) => Ok(MadeAs::Device(DeviceKind::Block)),
        TypeFlag::SymbolicLink | TypeFlag::Fifo => Err(MemberFault::Kind),
        TypeFlag::LongName | TypeFlag::LongLink => Err(MemberFault::Kind),
        TypeFlag::Extended | TypeFlag::Global => Err(MemberFault::Kind),
        TypeFlag::VolumeLabel | TypeFlag::Other(_) => Err(MemberFault::Kind),
    }
}

/// True if a path ends in a slash.
fn ends_in_slash(path: &[u8]) -> bool
    ensures { result ≡ ends_in_slash path.now }
{
    path.len() > 0 && path[path.len() - 1] == b'/'
}

/// Checks that a path can be made: it is at most [`MOST_PATH_BYTES`] long, no name in it is longer than 14 bytes, and none is
/// `..`.
fn check_path(path: &[u8]) -> Result<(), MemberFault>
    ensures { result ≡ check_path path.now }
{
    if is_long_path(path) {
        Err(MemberFault::LongPath)
    } else if has_long_name(path) {
        Err(MemberFault::LongName)
    } else if has_dot_dot(path) {
        Err(MemberFault::DotDot)
    } else {
        Ok(())
    }
}

/// True if a path is longer than [`MOST_PATH_BYTES`].
fn is_long_path(path: &[u8]) -> bool
    ensures { result ≡ is_long_path path.now }
{
    path.len() > MOST_PATH_BYTES
}

/// True if a name in a path is longer than 14 bytes.
fn has_long_name(path: &[u8]) -> bool
    ensures { result ≡ list_any is_long (names_of path.now) }
{
    path.split(|c| *c == b'/').any(|name| name.len() > NAME)
}

/// True if a name in a path is `..`.
fn has_dot_dot(path: &[u8]) -> bool
    ensures { result ≡ list_any is_dot_dot (names_of path.now) }
{
    path.split(|c| *c == b'/')
        .any(|name| name == b"..".as_slice())
}

/// Checks that the link path of a member, if it is a link, can be walked.
fn check_link(made: MadeAs, link: &[u8]) -> Result<(), MemberFault>
    ensures { result ≡ check_link made link.now }
{
    match made {
        MadeAs::Link if is_long_path(link) => Err(MemberFault::LongLinkPath),
        MadeAs::Link if has_long_name(link) => Err(MemberFault::LongLink),
        MadeAs::Link if has_dot_dot(link) => Err(MemberFault::DotDotLink),
        MadeAs::Link | MadeAs::File | MadeAs::Directory | MadeAs::Device(_) => Ok(()),
    }
}

/// Checks that the numbers of a special file's device fit a byte each.
fn check_device(made: MadeAs, header: &ReadHeader) -> Result<(), MemberFault>
    ensures { result ≡ check_device made header.now }
{
    match made {
        MadeAs::Device(_) if header.major > 255 || header.minor > 255 => Err(MemberFault::Device),
        MadeAs::Device(_) | MadeAs::File | MadeAs::Directory | MadeAs::Link => Ok(()),
    }
}

/// Returns the owner and the group of a member, if both are within the edition's limits.
fn owner_of(edition: Edition, header: &ReadHeader) -> Result<Cred, MemberFault>
    ensures { result ≡ owner_of edition header.now }
{
    let limit = u64::from(edition.constants().id_limit);
    if header.uid > limit || header.gid > limit {
        return Err(MemberFault::Owner);
    }
    Ok(Cred {
        uid: header.uid as u16,
        gid: header.gid as u16,
    })
}
