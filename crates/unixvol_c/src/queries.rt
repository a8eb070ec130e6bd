//! Queries on a volume.
ghost use Rattle.std.specs.Prelude.{◌≡◌, ◌<◌, ◌≤◌, ◌++◌, map, min, take, drop, length, None, IsSome, IfSome, IfOk, IfErr, Ok};
ghost use Rattle.vol_volume.specs.declared.queries.Query.TheVariants as asked;
ghost use Rattle.vol_volume.specs.declared.queries.Reply.TheVariants as replies;
ghost use Rattle.unixvol_c.specs.Calls.{IsAnswered, RefusesQuery, Replies, Returns};
ghost use Rattle.unixvol_c.specs.Structs.{IsAbout, TellsNames, TellsNode, entry_of};

use crate::calls::not_copied;
use crate::handle::Handle;
use crate::structs::{ListedName, Node, VolumeSizes};
use crate::{CLOSED, DONE, NO_ROOM};
use std::alloc::Global;
use vol_dir::Cred;
use vol_volume::{Bytes, Query, Reply};

/// Sets `node` to the attributes of a node, as the user `uid` of the group `gid` sees it.
///
/// Takes memory for the path.
#[unsafe(no_mangle)]
pub extern "C" fn unixvol_stat(
    alloc: Global,
    handle: &mut Handle,
    uid: u16,
    gid: u16,
    path: &[u8],
    node: &mut Node,
) -> i32
    ensures told { let held = handle.old.sealed.held in let query = asked.Stat (record { uid = uid; gid = gid }) path.now in
        Returns held (TellsNode held query node.new) (RefusesQuery held query) (node.new ≡ node.old) result }
    ensures same { handle.new.sealed.held ≡ handle.old.sealed.held }
{
    let Ok(path) = Bytes::from_slice(alloc, path) else {
        return not_copied(handle);
    };
    let cred = Cred { uid, gid };
    match ask(alloc, handle, &Query::Stat { cred, path }) {
        Ok(Reply::Stat(stat)) => {
            *node = Node::of(stat);
            DONE
        }
        Ok(_) => unreachable!(),
        Err(number) => number,
    }
}

/// Reads bytes of a regular file, starting at an offset: as many as the buffer has room for, fewer at the file's end.
///
/// Takes memory for the path and for the bytes.
#[unsafe(no_mangle)]
pub extern "C" fn unixvol_read(
    alloc: Global,
    handle: &mut Handle,
    uid: u16,
    gid: u16,
    path: &[u8],
    offset: u32,
    into: &mut [u8],
    count: &mut usize,
) -> i32
    ensures read { let held = handle.old.sealed.held in
        let query = asked.Read (record { uid = uid; gid = gid }) path.now offset (min (length into.old) 4294967295) in
        Returns held (IsAnswered held query (Ok (replies.Bytes (take count.new into.new)))) (RefusesQuery held query)
        ((into.new ≡ into.old) × (count.new ≡ count.old)) result }
    ensures rest { result ≡ DONE → (count.new ≤ length into.old) × (drop count.new into.new ≡ drop count.new into.old) }
    ensures same { handle.new.sealed.held ≡ handle.old.sealed.held }
{
    let Ok(path) = Bytes::from_slice(alloc, path) else {
        return not_copied(handle);
    };
    let cred = Cred { uid, gid };
    let len = into.len().min(0xffff_ffff) as u32;
    let query = Query::Read {
        cred,
        path,
        offset,
        len,
    };
    match ask(alloc, handle, &query) {
        Ok(Reply::Bytes(bytes)) => {
            *count = put_bytes(bytes.as_slice(), into);
            DONE
        }
        Ok(_) => unreachable!(),
        Err(number) => number,
    }
}

/// Copies the names in a directory, in ascending order of their bytes, as many as the buffer has room for, and sets `count` to the number of all
/// names.
///
/// Takes memory for the path and for the names.
#[unsafe(no_mangle)]
pub extern "C" fn unixvol_list(
    alloc: Global,
    handle: &mut Handle,
    uid: u16,
    gid: u16,
    path: &[u8],
    into: &mut [ListedName],
    count: &mut usize,
) -> i32
    ensures told { let held = handle.old.sealed.held in let query = asked.List (record { uid = uid; gid = gid }) path.now in
        Returns held (TellsNames held query into.old into.new count.new) (RefusesQuery held query)
        ((into.new ≡ into.old) × (count.new ≡ count.old)) result }
    ensures same { handle.new.sealed.held ≡ handle.old.sealed.held }
{
    let Ok(path) = Bytes::from_slice(alloc, path) else {
        return not_copied(handle);
    };
    let cred = Cred { uid, gid };
    match ask(alloc, handle, &Query::List { cred, path }) {
        Ok(Reply::Names(names)) => {
            *count = put_names(names.as_slice(), into);
            DONE
        }
        Ok(_) => unreachable!(),
        Err(number) => number,
    }
}

/// Sets `about` to the edition and the sizes of a volume. Takes no memory.
#[unsafe(no_mangle)]
pub extern "C" fn unixvol_about(alloc: Global, handle: &mut Handle, about: &mut VolumeSizes) -> i32
    ensures closed { handle.old.sealed.held ≡ None → (result ≡ CLOSED) × (about.new ≡ about.old) }
    ensures held { IfSome handle.old.sealed.held (λ held. (result ≡ DONE) × IsAbout held.volume about.new) }
    ensures same { handle.new.sealed.held ≡ handle.old.sealed.held }
{
    let Some(held) = handle.take(alloc) else {
        return CLOSED;
    };
    *about = VolumeSizes::of(held.volume());
    handle.put(held);
    DONE
}

/// Returns the reply to a query on the volume of a handle; the error is the number to return.
fn ask(alloc: Global, handle: &mut Handle, query: &Query) -> Result<Reply, i32>
    ensures answered { IfOk result (λ reply. IsAnswered handle.old.sealed.held query.now (Ok reply)) }
    ensures alike { IfOk result (λ reply. Replies query.now reply) }
    ensures open_handle { IfOk result (λ reply. IsSome handle.old.sealed.held) }
    ensures refused { IfErr result (λ number. Returns handle.old.sealed.held ⊥ (RefusesQuery handle.old.sealed.held query.now) (Unit {0}) number) }
    ensures same { handle.new.sealed.held ≡ handle.old.sealed.held }
{
    let Some(held) = handle.take(alloc) else {
        return Err(CLOSED);
    };
    let answer = held.volume().ask(alloc, query);
    handle.put(held);
    match answer {
        Ok(reply) => Ok(reply),
        Err(refusal) => Err(refusal.number() as i32),
    }
}

/// Copies bytes to the beginning of a buffer, and returns their number.
pub(crate) fn put_bytes(bytes: &[u8], into: &mut [u8]) -> usize
    requires { length bytes.now ≤ length into.old }
    ensures count { result ≡ length bytes.now }
    ensures front { take result into.new ≡ bytes.now }
    ensures rest { drop result into.new ≡ drop result into.old }
{
    into[..bytes.len()].copy_from_slice(bytes);
    bytes.len()
}

/// Puts a text into a buffer, and sets `count` to its length. If the buffer is too short, sets only `count`.
pub(crate) fn put_text(text: &[u8], into: &mut [u8], count: &mut usize) -> i32
    ensures count { count.new ≡ length text.now }
    ensures whole { length text.now ≤ length into.old
        → (result ≡ DONE) × (take count.new into.new ≡ text.now) × (drop count.new into.new ≡ drop count.new into.old) }
    ensures room { length into.old < length text.now → (result ≡ NO_ROOM) × (into.new ≡ into.old) }
{
    *count = text.len();
    if text.len() > into.len() {
        return NO_ROOM;
    }
    into[..text.len()].copy_from_slice(text);
    DONE
}

/// Puts names into a buffer, as many as it has room for, and returns the number of all names.
fn put_names(names: &[(Bytes, u16)], into: &mut [ListedName]) -> usize
    ensures count { result ≡ length names.now }
    ensures front { into.new ≡ map entry_of (take (length into.old) names.now) ++ drop (length names.now) into.old }
{
    let count = names.len().min(into.len());
    for i in 0..count {
        into[i] = ListedName::of(&names[i]);
    }
    names.len()
}
