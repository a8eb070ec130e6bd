//! Plans the calls that make the members of an archive.
ghost use Rattle.std.specs.Prelude.{◌≡◌, ◌≤◌, [], IfOk, IfErr, OnOk, Ok, length};
ghost use Rattle.vol_volume.specs.Volume.{reads_as};
ghost use Rattle.vol_batch.specs.Paths.{below};
ghost use Rattle.vol_import.specs.Plan.{check, permissions_of, moment_of, device_of, owner_calls, write_calls, file_calls, special_calls, directory_calls, given_calls, with_directory, way_length, way_of, steps_of, with_way, with_calls, with_made, drafted, onto, plan, Tells, no_memory};

use crate::archive_members::Member;
use crate::close::{close, directory_times, permissions_given};
use crate::draft::{Draft, ends_in_dot, is_there, joined, note_known, push_way, steps_of};
use crate::member_check::{MadeAs, MemberFault, check};
use std::alloc::{AllocError, Global};
use ustar::ReadHeader;
use vol_batch::below;
use vol_dir::Cred;
use vol_layout::{DeviceId, DeviceKind};
use vol_volume::{Bytes, Call, Volume};

/// Times below this bound fit a volume.
const TIMES: u64 = 4_294_967_296;

/// The reason why no calls can make the members of an archive.
#[derive(Drop)]
pub enum PlanFault {
    /// No calls can make the member at this path of the archive; for [`MemberFault::NoInode`], at this path of the volume.
    Member(Bytes, MemberFault),
    /// Memory ran out.
    NoMemory,
}

impl From<AllocError> for PlanFault {
    ghost use Rattle.vol_import.specs.Plan.{no_memory};

    ghost from_gives = { λ _ fault. fault ≡ no_memory };

    fn from(_: AllocError) -> PlanFault {
        PlanFault::NoMemory
    }
}

/// Returns the calls that make the members of an archive below the path `base` of a volume, as user 0, member by member. A regular file is made,
/// written if it has bytes, and given to its owner unless that is user 0 of group 0. A special file is made and given to its owner in the same way, and
/// so is a directory if it doesn't exist; a directory that earlier calls make is given its member's permissions and owner. A link becomes another name. A call's time is the time of its
/// member's last change, or `now` if that doesn't fit 32 bits. Before a member, each missing directory on its path is made, at `now`, with
/// permissions 0755, but not the directory at `base`. If there are any calls, one more call after them gives the directory at `base` the permissions
/// that it already has, at `now`, which becomes the time of the volume; it is left out if there is no such directory and no member makes it. The last
/// calls, at `now` too, give each directory that a member makes the time of that member.
///
/// If no calls can make a member, the fault has its path in the archive and the reason. The fault is NoInode, with the path in the volume, if the
/// directories of the members so far and the directories on its path are more than the volume has i-nodes. The calls would be refused for this reason
/// too, but usually at an earlier member.
///
/// The bytes of the members are moved into the calls. Takes memory for the calls, each with its whole path, of at most `base` and 4,097 bytes: up to
/// three for a member, and one for each missing directory. Also takes memory for the paths of the directories: each is kept once, and there are at
/// most as many as the volume has i-nodes, plus the number of names in one path.
///
/// The cost of a member is the square of the length of its path, since the path of each directory on it is copied and looked up, even if all are
/// known: about 4 MB and 2,048 look-ups for a path of 4,096 bytes. A directory that isn't known also costs a walk, and each member that is a
/// directory costs two.
pub fn plan(
    alloc: Global,
    volume: &Volume,
    base: &[u8],
    now: u32,
    members: Vec<Member>,
) -> Result<Vec<Call>, PlanFault>
    ensures ok { IfOk result (λ calls. plan (reads_as volume.now.edition volume.now.image).tree base.now now members.items ≡ Ok calls.items) }
    ensures fault { IfErr result (Tells (plan (reads_as volume.now.edition volume.now.image).tree base.now now members.items)) }
{
    let given = permissions_given(&members);
    let mut times = directory_times(alloc, volume, base, now, &members)?;
    let mut draft = Draft::new(alloc);
    let mut left = members;
    left.reverse();
    'members: while let Some(member) = left.pop() {
        push_member(alloc, volume, base, now, member, &mut draft)?;
    }
    let mut calls = draft.into_calls();
    close(alloc, volume, base, now, given, &mut calls)?;
    calls.append(&mut times)?;
    Ok(calls)
}

/// Appends the calls that make a member.
fn push_member(
    alloc: Global,
    volume: &Volume,
    base: &[u8],
    now: u32,
    member: Member,
    draft: &mut Draft,
) -> Result<(), PlanFault>
    ensures ok { OnOk result (onto (reads_as volume.now.edition volume.now.image).tree base.now now (drafted draft.old) member (check volume.now.edition member) ≡ Ok (drafted draft.new)) }
    ensures fault { IfErr result (Tells (onto (reads_as volume.now.edition volume.now.image).tree base.now now (drafted draft.old) member (check volume.now.edition member))) }
{
    match check(volume.edition(), &member) {
        Ok((made, owner)) => {
            push_way_to(alloc, volume, base, now, member.path.as_slice(), draft)?;
            if draft.is_crowded(volume) {
                let path = below(alloc, base, member.path.as_slice())?;
                return Err(PlanFault::Member(path, MemberFault::NoInode));
            }
            push_made(alloc, volume, base, now, member, made, owner, draft)?;
            Ok(())
        }
        Err(cause) => Err(PlanFault::Member(member.path, cause)),
    }
}

/// Appends the calls that make the missing directories on the path of a member.
fn push_way_to(
    alloc: Global,
    volume: &Volume,
    base: &[u8],
    now: u32,
    path: &[u8],
    draft: &mut Draft,
) -> Result<(), AllocError>
    ensures { OnOk result (drafted draft.new ≡ with_way (reads_as volume.now.edition volume.now.image).tree base.now now [] (way_of path.now) (drafted draft.old)) }
{
    let steps = steps_of(alloc, path)?;
    let count = way_length(path, steps.len());
    push_way(alloc, volume, base, now, &steps[..count], draft)
}

/// Returns the number of directories on the way to a path with this number of steps: `n/.` is in `n`.
fn way_length(path: &[u8], steps: usize) -> usize
    requires { steps ≡ length (steps_of path.now) }
    ensures exact { result ≡ way_length path.now }
    ensures within { result ≤ steps }
{
    if ends_in_dot(path) {
        steps
    } else {
        steps.saturating_sub(1)
    }
}

/// Appends the calls that make a member as a node of this kind, for its owner.
fn push_made(
    alloc: Global,
    volume: &Volume,
    base: &[u8],
    now: u32,
    member: Member,
    made: MadeAs,
    owner: Cred,
    draft: &mut Draft,
) -> Result<(), AllocError>
    ensures { OnOk result (drafted draft.new ≡ with_made made (reads_as volume.now.edition volume.now.image).tree base.now now member owner (drafted draft.old)) }
{
    let moment = moment_of(&member.header, now);
    let perm = permissions_of(&member.header);
    let path = below(alloc, base, member.path.as_slice())?;
    match made {
        MadeAs::File => push_file(alloc, moment, path, perm, owner, member.content, draft),
        MadeAs::Directory => {
            let steps = joined(alloc, &steps_of(alloc, member.path.as_slice())?)?;
            push_directory(
                alloc, volume, base, &steps, moment, path, perm, owner, draft,
            )
        }
        MadeAs::Device(kind) => {
            let device = device_of(kind, &member.header);
            push_special(alloc, moment, path, perm, owner, device, draft)
        }
        MadeAs::Link => draft.push(Call::Link {
            cred: Cred::ROOT,
            now: moment,
            source: below(alloc, base, member.link.as_slice())?,
            target: path,
        }),
    }
}

/// Returns the permission bits of a member.
pub(crate) fn permissions_of(header: &ReadHeader) -> u16
    ensures { result ≡ permissions_of header.now }
{
    (header.permissions % 4096) as u16
}

/// Returns the time of a member's calls: the time of its last change if it fits 32 bits, else `now`.
pub(crate) fn moment_of(header: &ReadHeader, now: u32) -> u32
    ensures { result ≡ moment_of header.now now }
{
    let modified = header.modified;
    if modified < TIMES {
        modified as u32
    } else {
        now
    }
}

/// Appends the call that gives a file or a directory to its owner, unless that is user 0 of group 0.
fn push_owner(moment: u32, path: Bytes, owner: Cred, draft: &mut Draft) -> Result<(), AllocError>
    ensures { OnOk result (drafted draft.new ≡ with_calls (drafted draft.old) (owner_calls moment path owner)) }
{
    if owner.uid == 0 && owner.gid == 0 {
        return Ok(());
    }
    draft.push(Call::Chown {
        cred: Cred::ROOT,
        now: moment,
        path,
        uid: owner.uid,
        gid: owner.gid,
    })
}

/// Appends the call that writes the bytes of a file, if it has any.
fn push_write(
    alloc: Global,
    moment: u32,
    path: &[u8],
    content: Bytes,
    draft: &mut Draft,
) -> Result<(), AllocError>
    ensures { OnOk result (drafted draft.new ≡ with_calls (drafted draft.old) (write_calls moment path.now content)) }
{
    if content.as_slice().is_empty() {
        return Ok(());
    }
    draft.push(Call::Write {
        cred: Cred::ROOT,
        now: moment,
        path: Bytes::from_slice(alloc, path)?,
        offset: 0,
        bytes: content,
    })
}

/// Appends the calls that make a regular file.
fn push_file(
    alloc: Global,
    moment: u32,
    path: Bytes,
    perm: u16,
    owner: Cred,
    content: Bytes,
    draft: &mut Draft,
) -> Result<(), AllocError>
    ensures { OnOk result (drafted draft.new ≡ with_calls (drafted draft.old) (file_calls moment path perm owner content)) }
{
    draft.push(Call::Create {
        cred: Cred::ROOT,
        now: moment,
        path: Bytes::from_slice(alloc, path.as_slice())?,
        perm,
    })?;
    push_write(alloc, moment, path.as_slice(), content, draft)?;
    push_owner(moment, path, owner, draft)
}

/// Returns the device of a special file of this kind.
fn device_of(kind: DeviceKind, header: &ReadHeader) -> DeviceId
    ensures { result ≡ device_of kind header.now }
{
    DeviceId {
        kind,
        major: (header.major % 256) as u8,
        minor: (header.minor % 256) as u8,
    }
}

/// Appends the calls that make a special file.
fn push_special(
    alloc: Global,
    moment: u32,
    path: Bytes,
    perm: u16,
    owner: Cred,
    device: DeviceId,
    draft: &mut Draft,
) -> Result<(), AllocError>
    ensures { OnOk result (drafted draft.new ≡ with_calls (drafted draft.old) (special_calls moment path perm owner device)) }
{
    draft.push(Call::Mknod {
        cred: Cred::ROOT,
        now: moment,
        path: Bytes::from_slice(alloc, path.as_slice())?,
        perm,
        device,
    })?;
    push_owner(moment, path, owner, draft)
}

/// Appends the calls of a member that is a directory, at a path below another: none if the directory exists; the calls that give it its permissions
/// and owner if earlier calls make it; else the calls that make it.
fn push_directory(
    alloc: Global,
    volume: &Volume,
    base: &[u8],
    steps: &[u8],
    moment: u32,
    path: Bytes,
    perm: u16,
    owner: Cred,
    draft: &mut Draft,
) -> Result<(), AllocError>
    ensures { OnOk result (drafted draft.new ≡ with_directory (reads_as volume.now.edition volume.now.image).tree base.now steps.now moment path perm owner (drafted draft.old)) }
{
    let added = note_known(alloc, steps, &mut draft.known)?;
    if is_there(alloc, volume, base, steps)? {
        Ok(())
    } else if added {
        push_new_directory(alloc, moment, path, perm, owner, draft)
    } else {
        push_given(alloc, moment, path, perm, owner, draft)
    }
}

/// Appends the calls that make a directory.
fn push_new_directory(
    alloc: Global,
    moment: u32,
    path: Bytes,
    perm: u16,
    owner: Cred,
    draft: &mut Draft,
) -> Result<(), AllocError>
    ensures { OnOk result (drafted draft.new ≡ with_calls (drafted draft.old) (directory_calls moment path perm owner)) }
{
    draft.push(Call::Mkdir {
        cred: Cred::ROOT,
        now: moment,
        path: Bytes::from_slice(alloc, path.as_slice())?,
        perm,
    })?;
    push_owner(moment, path, owner, draft)
}

/// Appends the calls that give a directory new permissions and a new owner.
fn push_given(
    alloc: Global,
    moment: u32,
    path: Bytes,
    perm: u16,
    owner: Cred,
    draft: &mut Draft,
) -> Result<(), AllocError>
    ensures { OnOk result (drafted draft.new ≡ with_calls (drafted draft.old) (given_calls moment path perm owner)) }
{
    draft.push(Call::Chmod {
        cred: Cred::ROOT,
        now: moment,
        path: Bytes::from_slice(alloc, path.as_slice())?,
        perm,
    })?;
    draft.push(Call::Chown {
        cred: Cred::ROOT,
        now: moment,
        path,
        uid: owner.uid,
        gid: owner.gid,
    })
}
