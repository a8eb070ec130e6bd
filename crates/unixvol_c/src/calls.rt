//! Calls that change a volume.
ghost use Rattle.std.specs.Prelude.{◌≡◌, ◌↔◌, ◌⊎◌, ◌+◌, ◌^◌, ◌≤◌, None, Some, IfSome, length};
ghost use Rattle.vol_volume.specs.Volume.{after_cut};
ghost use Rattle.vol_volume.specs.declared.calls.Call.TheVariants as called;
ghost use Rattle.unixvol_c.specs.Calls.{MakesNode, ReturnsCall, ReturnsNode, device_kind_of};
ghost use Rattle.unixvol_c.specs.Opened.{CanCut};

use crate::handle::Handle;
use crate::{CLOSED, DONE, NO_DEVICE, NO_MEMORY, TOO_MANY};
use std::alloc::Global;
use vol_dir::Cred;
use vol_layout::{DeviceId, DeviceKind};
use vol_volume::{Bytes, Call, Done};

/// Makes an empty regular file, and sets `inode` to its i-number.
///
/// Each function of this module that makes a call takes memory for the call's bytes and for the journal, and costs as much as `Volume::call`.
#[unsafe(no_mangle)]
pub extern "C" fn unixvol_create(
    alloc: Global,
    handle: &mut Handle,
    uid: u16,
    gid: u16,
    now: u32,
    path: &[u8],
    perm: u16,
    inode: &mut u16,
) -> i32
    ensures { let call = called.Create (record { uid = uid; gid = gid }) now path.now perm in
        ReturnsNode handle.old.sealed.held handle.new.sealed.held call inode.old inode.new result }
{
    let Ok(path) = Bytes::from_slice(alloc, path) else {
        return not_copied(handle);
    };
    let cred = Cred { uid, gid };
    let call = Call::Create {
        cred,
        now,
        path,
        perm,
    };
    make_node(alloc, handle, call, inode)
}

/// Makes a directory that contains only `.` and `..`, and sets `inode` to its i-number.
#[unsafe(no_mangle)]
pub extern "C" fn unixvol_mkdir(
    alloc: Global,
    handle: &mut Handle,
    uid: u16,
    gid: u16,
    now: u32,
    path: &[u8],
    perm: u16,
    inode: &mut u16,
) -> i32
    ensures { let call = called.Mkdir (record { uid = uid; gid = gid }) now path.now perm in
        ReturnsNode handle.old.sealed.held handle.new.sealed.held call inode.old inode.new result }
{
    let Ok(path) = Bytes::from_slice(alloc, path) else {
        return not_copied(handle);
    };
    let cred = Cred { uid, gid };
    let call = Call::Mkdir {
        cred,
        now,
        path,
        perm,
    };
    make_node(alloc, handle, call, inode)
}

/// Makes the special file of a device, of kind `c` (character) or `b` (block), and sets `inode` to its i-number.
#[unsafe(no_mangle)]
pub extern "C" fn unixvol_mknod(
    alloc: Global,
    handle: &mut Handle,
    uid: u16,
    gid: u16,
    now: u32,
    path: &[u8],
    perm: u16,
    kind: u8,
    major: u8,
    minor: u8,
    inode: &mut u16,
) -> i32
    ensures made { IfSome (device_kind_of kind) (λ known. ReturnsNode handle.old.sealed.held handle.new.sealed.held
        (called.Mknod (record { uid = uid; gid = gid }) now path.now perm (record { kind = known; major = major; minor = minor })) inode.old inode.new result) }
    ensures unnamed { device_kind_of kind ≡ None → (result ≡ CLOSED) ⊎ (result ≡ NO_DEVICE) }
    ensures closed { device_kind_of kind ≡ None → (result ≡ CLOSED ↔ handle.old.sealed.held ≡ None) }
    ensures unchanged { device_kind_of kind ≡ None → (handle.new.sealed.held ≡ handle.old.sealed.held) × (inode.new ≡ inode.old) }
{
    let Some(kind) = device_kind_of(kind) else {
        return if handle.is_open() { NO_DEVICE } else { CLOSED };
    };
    let Ok(path) = Bytes::from_slice(alloc, path) else {
        return not_copied(handle);
    };
    let cred = Cred { uid, gid };
    let device = DeviceId { kind, major, minor };
    let call = Call::Mknod {
        cred,
        now,
        path,
        perm,
        device,
    };
    make_node(alloc, handle, call, inode)
}

/// Returns the kind of device with a letter.
fn device_kind_of(letter: u8) -> Option<DeviceKind>
    ensures { result ≡ device_kind_of letter }
{
    match letter {
        b'c' => Some(DeviceKind::Character),
        b'b' => Some(DeviceKind::Block),
        _ => None,
    }
}

/// Adds another name to a node other than a directory.
#[unsafe(no_mangle)]
pub extern "C" fn unixvol_link(
    alloc: Global,
    handle: &mut Handle,
    uid: u16,
    gid: u16,
    now: u32,
    source: &[u8],
    target: &[u8],
) -> i32
    ensures { ReturnsCall handle.old.sealed.held handle.new.sealed.held (called.Link (record { uid = uid; gid = gid }) now source.now target.now) result }
{
    let Ok(source) = Bytes::from_slice(alloc, source) else {
        return not_copied(handle);
    };
    let Ok(target) = Bytes::from_slice(alloc, target) else {
        return not_copied(handle);
    };
    let cred = Cred { uid, gid };
    let call = Call::Link {
        cred,
        now,
        source,
        target,
    };
    make(alloc, handle, call)
}

/// Removes a name of a node other than a directory; removing the last name frees the node.
#[unsafe(no_mangle)]
pub extern "C" fn unixvol_unlink(
    alloc: Global,
    handle: &mut Handle,
    uid: u16,
    gid: u16,
    now: u32,
    path: &[u8],
) -> i32
    ensures { ReturnsCall handle.old.sealed.held handle.new.sealed.held (called.Unlink (record { uid = uid; gid = gid }) now path.now) result }
{
    let Ok(path) = Bytes::from_slice(alloc, path) else {
        return not_copied(handle);
    };
    let cred = Cred { uid, gid };
    let call = Call::Unlink { cred, now, path };
    make(alloc, handle, call)
}

/// Removes a directory that contains only `.` and `..`.
#[unsafe(no_mangle)]
pub extern "C" fn unixvol_rmdir(
    alloc: Global,
    handle: &mut Handle,
    uid: u16,
    gid: u16,
    now: u32,
    path: &[u8],
) -> i32
    ensures { ReturnsCall handle.old.sealed.held handle.new.sealed.held (called.Rmdir (record { uid = uid; gid = gid }) now path.now) result }
{
    let Ok(path) = Bytes::from_slice(alloc, path) else {
        return not_copied(handle);
    };
    let cred = Cred { uid, gid };
    let call = Call::Rmdir { cred, now, path };
    make(alloc, handle, call)
}

/// Writes bytes into a regular file, all or none. Bytes between its end and the offset become zeros.
#[unsafe(no_mangle)]
pub extern "C" fn unixvol_write(
    alloc: Global,
    handle: &mut Handle,
    uid: u16,
    gid: u16,
    now: u32,
    path: &[u8],
    offset: u32,
    bytes: &[u8],
) -> i32
    ensures { ReturnsCall handle.old.sealed.held handle.new.sealed.held (called.Write (record { uid = uid; gid = gid }) now path.now offset bytes.now) result }
{
    let Ok(path) = Bytes::from_slice(alloc, path) else {
        return not_copied(handle);
    };
    let Ok(bytes) = Bytes::from_slice(alloc, bytes) else {
        return not_copied(handle);
    };
    let cred = Cred { uid, gid };
    let call = Call::Write {
        cred,
        now,
        path,
        offset,
        bytes,
    };
    make(alloc, handle, call)
}

/// Cuts a regular file to its first `length` bytes.
#[unsafe(no_mangle)]
pub extern "C" fn unixvol_truncate(
    alloc: Global,
    handle: &mut Handle,
    uid: u16,
    gid: u16,
    now: u32,
    path: &[u8],
    length: u32,
) -> i32
    ensures { ReturnsCall handle.old.sealed.held handle.new.sealed.held (called.Truncate (record { uid = uid; gid = gid }) now path.now length) result }
{
    let Ok(path) = Bytes::from_slice(alloc, path) else {
        return not_copied(handle);
    };
    let cred = Cred { uid, gid };
    let call = Call::Truncate {
        cred,
        now,
        path,
        length,
    };
    make(alloc, handle, call)
}

/// Changes the permission bits of a node.
#[unsafe(no_mangle)]
pub extern "C" fn unixvol_chmod(
    alloc: Global,
    handle: &mut Handle,
    uid: u16,
    gid: u16,
    now: u32,
    path: &[u8],
    perm: u16,
) -> i32
    ensures { ReturnsCall handle.old.sealed.held handle.new.sealed.held (called.Chmod (record { uid = uid; gid = gid }) now path.now perm) result }
{
    let Ok(path) = Bytes::from_slice(alloc, path) else {
        return not_copied(handle);
    };
    let cred = Cred { uid, gid };
    let call = Call::Chmod {
        cred,
        now,
        path,
        perm,
    };
    make(alloc, handle, call)
}

/// Changes the user and group of a node.
#[unsafe(no_mangle)]
pub extern "C" fn unixvol_chown(
    alloc: Global,
    handle: &mut Handle,
    uid: u16,
    gid: u16,
    now: u32,
    path: &[u8],
    owner: u16,
    group: u16,
) -> i32
    ensures { ReturnsCall handle.old.sealed.held handle.new.sealed.held (called.Chown (record { uid = uid; gid = gid }) now path.now owner group) result }
{
    let Ok(path) = Bytes::from_slice(alloc, path) else {
        return not_copied(handle);
    };
    let cred = Cred { uid, gid };
    let call = Call::Chown {
        cred,
        now,
        path,
        uid: owner,
        gid: group,
    };
    make(alloc, handle, call)
}

/// Sets the times of a node's last access and of the last change of its contents.
#[unsafe(no_mangle)]
pub extern "C" fn unixvol_times(
    alloc: Global,
    handle: &mut Handle,
    uid: u16,
    gid: u16,
    now: u32,
    path: &[u8],
    accessed: u32,
    modified: u32,
) -> i32
    ensures { ReturnsCall handle.old.sealed.held handle.new.sealed.held (called.Times (record { uid = uid; gid = gid }) now path.now accessed modified) result }
{
    let Ok(path) = Bytes::from_slice(alloc, path) else {
        return not_copied(handle);
    };
    let cred = Cred { uid, gid };
    let call = Call::Times {
        cred,
        now,
        path,
        atime: accessed,
        mtime: modified,
    };
    make(alloc, handle, call)
}

/// Cuts the journal: the present image becomes its start, and the records are freed. Calls do this themselves once the journal counts as more than an
/// eighth of the image's bytes. Takes no memory.
#[unsafe(no_mangle)]
pub extern "C" fn unixvol_cut(alloc: Global, handle: &mut Handle) -> i32
    ensures closed { handle.old.sealed.held ≡ None → (result ≡ CLOSED) × (handle.new.sealed.held ≡ None) }
    ensures cut { IfSome handle.old.sealed.held (λ held. CanCut held.volume
        → (result ≡ DONE) × (handle.new.sealed.held ≡ Some (record held { volume = after_cut held.volume }))) }
    ensures many { IfSome handle.old.sealed.held (λ held. 2 ^ 64 ≤ held.volume.first + length held.volume.journal
        → (result ≡ TOO_MANY) × (handle.new.sealed.held ≡ handle.old.sealed.held)) }
{
    let Some(mut held) = handle.take(alloc) else {
        return CLOSED;
    };
    let is_cut = held.cut();
    handle.put(held);
    if is_cut { DONE } else { TOO_MANY }
}

/// Makes a call for a new node, on the volume of a handle, and sets `inode` to the node's i-number.
fn make_node(alloc: Global, handle: &mut Handle, call: Call, inode: &mut u16) -> i32
    requires { MakesNode call }
    ensures { ReturnsNode handle.old.sealed.held handle.new.sealed.held call inode.old inode.new result }
{
    let Some(mut held) = handle.take(alloc) else {
        return CLOSED;
    };
    let outcome = held.call(alloc, call);
    handle.put(held);
    match outcome {
        Ok(Done::Made(number)) => {
            *inode = number;
            DONE
        }
        Ok(_) => unreachable!(),
        Err(refusal) => refusal.number() as i32,
    }
}

/// Makes a call on the volume of a handle.
fn make(alloc: Global, handle: &mut Handle, call: Call) -> i32
    ensures { ReturnsCall handle.old.sealed.held handle.new.sealed.held call result }
{
    let Some(mut held) = handle.take(alloc) else {
        return CLOSED;
    };
    let outcome = held.call(alloc, call);
    handle.put(held);
    match outcome {
        Ok(_) => DONE,
        Err(refusal) => refusal.number() as i32,
    }
}

/// Returns the number for bytes that couldn't be copied because memory ran out; if the handle is closed, the number for this instead.
pub(crate) fn not_copied(handle: &Handle) -> i32
    ensures closed { result ≡ CLOSED ↔ handle.now.sealed.held ≡ None }
    ensures others { (result ≡ CLOSED) ⊎ (result ≡ NO_MEMORY) }
{
    if handle.is_open() { NO_MEMORY } else { CLOSED }
}
