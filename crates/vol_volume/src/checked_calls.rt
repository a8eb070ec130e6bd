//! Calls, each in a module of its own, with its checks and its change. The checks walk each path once and search the last directory once, and the
//! change uses their results.
ghost use Rattle.std.specs.Prelude.{◌≡◌, ◌↔◌, IsTrue, IfSome, IfOk, OnErr};
ghost use Rattle.std.specs.Result.{result_and, result_err};
ghost use Rattle.vol_layout.specs.Geometry.{geometry_of};
ghost use Rattle.vol_dir.specs.Tree.{state};
ghost use Rattle.vol_judge.specs.Sound.{IsSound};
ghost use Rattle.vol_change.specs.Ready.{Rules1To12, free_in};
ghost use Rattle.vol_volume.specs.Journal.{MayAnswer};
ghost use Rattle.vol_volume.specs.Perform.{IsPerformed, recorded_number};
ghost use Rattle.vol_volume.specs.Stands.{Rules3To7And9};
ghost use Rattle.vol_volume.specs.Verdict.{verdict};

pub(crate) mod asked;
mod chmod;
mod chown;
mod create;
pub(crate) mod found;
mod link;
mod mkdir;
mod rmdir;
mod times;
mod truncate;
mod unlink;
mod write;

use crate::calls::{Call, Caller, Done};
use crate::checked_calls::asked::{find_owned, is_free_number};
use pdp_words::Image;
use vol_change::{NewFile, NewNode};
use vol_dir::{Cred, Refusal};
use vol_layout::Geometry;
use vol_layout::super_block::SUPER;

/// The answer to an accepted call, and the number of free blocks after it.
#[derive(Clone, Copy)]
pub(crate) struct Performed {
    /// The answer.
    pub done: Done,
    /// The number of free blocks.
    pub free: u32,
}

/// Returns the answer that a call would get, or the first refusal that applies, in the order of the definition `verdict`. NoMemory is never returned.
/// `free` is the number of free blocks.
///
/// Costs the walks of the call's paths, and one search of the last directory. A new node costs a search for a free
/// i-number, removing a directory costs a read of its slots, and a write costs one block-map lookup for each logical
/// block that it touches.
#[tactic(auto, unfolding(crate::specs::Verdict::verdict))]
pub(crate) fn check(
    image: &Image,
    geometry: &Geometry,
    free: u32,
    call: &Call,
) -> Result<Done, Refusal>
    requires stands { Rules3To7And9 geometry.now image.now }
    requires count { free ≡ free_in (state geometry.now image.now) }
    ensures refusal { result_err result ≡ verdict (state geometry.now image.now) call.now }
    ensures answered { IfOk result (λ done. MayAnswer (state geometry.now image.now) call.now done) }
{
    let cred = call.caller().cred;
    let path = call.path();
    match call {
        Call::Create { .. } => {
            let (_, number) = create::check(image, geometry, free, NewFile::Regular, cred, path)?;
            Ok(Done::Made(number))
        }
        Call::Mknod { device, .. } => {
            let file = NewFile::Special(*device);
            let (_, number) = create::check(image, geometry, free, file, cred, path)?;
            Ok(Done::Made(number))
        }
        Call::Mkdir { .. } => {
            let (_, number) = mkdir::check(image, geometry, free, cred, path)?;
            Ok(Done::Made(number))
        }
        Call::Link { target, .. } => {
            plain(link::check(image, geometry, free, cred, path, target.as_slice()))
        }
        Call::Unlink { .. } => plain(unlink::check(image, geometry, cred, path)),
        Call::Rmdir { .. } => plain(rmdir::check(image, geometry, cred, path)),
        Call::Write { offset, bytes, .. } => {
            let len = bytes.as_slice().len();
            write::check(image, geometry, free, cred, path, *offset, len)?;
            Ok(Done::Wrote(len as u32))
        }
        Call::Truncate { length, .. } => {
            plain(truncate::check(image, geometry, cred, path, *length))
        }
        Call::Chmod { .. } => plain(find_owned(image, geometry, cred, path)),
        Call::Chown { uid, gid, .. } => {
            plain(chown::check(image, geometry, cred, path, new_owner(*uid, *gid)))
        }
        Call::Times { .. } => plain(find_owned(image, geometry, cred, path)),
    }
}

/// Returns the plain answer if no check failed.
fn plain<T: Drop>(checked: Result<T, Refusal>) -> Result<Done, Refusal>
    ensures { result ≡ result_and checked (Ok Done.Plain) }
{
    checked.and(Ok(Done::Plain))
}

/// Makes a call. If [`check`] refuses it, returns the refusal and changes nothing. `free` is the number of free blocks. If a recorded answer is
/// given, it becomes the answer.
///
/// Costs one [`check`], and the change.
pub(crate) fn make(
    image: &mut Image,
    geometry: &Geometry,
    free: u32,
    call: &Call,
    recorded: Option<Done>,
) -> Result<Performed, Refusal>
    requires ready { Rules1To12 geometry.now image.old }
    requires count { free ≡ free_in (state geometry.now image.old) }
    requires recorded { IfSome recorded (λ done. MayAnswer (state geometry.now image.old) call.now done) }
    ensures refusal { result_err result ≡ verdict (state geometry.now image.old) call.now }
    ensures unchanged { OnErr result (image.new ≡ image.old) }
    ensures performed { IfOk result (λ performed. IsPerformed geometry.now image.old image.new call.now performed.done performed.free) }
    ensures recorded { IfSome recorded (λ done. IfOk result (λ performed. performed.done ≡ done)) }
{
    let caller = call.caller();
    let path = call.path();
    let number = recorded_number(recorded);
    match call {
        Call::Create { perm, .. } => {
            let node = new_node(caller, *perm);
            create::make(image, geometry, free, NewFile::Regular, node, path, number)
        }
        Call::Mknod { perm, device, .. } => {
            let node = new_node(caller, *perm);
            let file = NewFile::Special(*device);
            create::make(image, geometry, free, file, node, path, number)
        }
        Call::Mkdir { perm, .. } => {
            let node = new_node(caller, *perm);
            mkdir::make(image, geometry, free, node, path, number)
        }
        Call::Link { target, .. } => {
            link::make(image, geometry, free, caller, path, target.as_slice())
        }
        Call::Unlink { .. } => unlink::make(image, geometry, free, caller, path),
        Call::Rmdir { .. } => rmdir::make(image, geometry, free, caller, path),
        Call::Write { offset, bytes, .. } => {
            let bytes = bytes.as_slice();
            write::make(image, geometry, free, caller, path, *offset, bytes)
        }
        Call::Truncate { length, .. } => {
            truncate::make(image, geometry, free, caller, path, *length)
        }
        Call::Chmod { perm, .. } => chmod::make(image, geometry, free, caller, path, *perm),
        Call::Chown { uid, gid, .. } => {
            let owner = new_owner(*uid, *gid);
            chown::make(image, geometry, free, caller, path, owner)
        }
        Call::Times { atime, mtime, .. } => {
            times::make(image, geometry, free, caller, path, *atime, *mtime)
        }
    }
}

/// True if `done` is a possible answer to the call, if the call is accepted.
pub(crate) fn may_answer(image: &Image, geometry: &Geometry, call: &Call, done: Done) -> bool
    requires { Rules3To7And9 geometry.now image.now }
    ensures { IsTrue result ↔ MayAnswer (state geometry.now image.now) call.now done }
{
    match (call, done) {
        (Call::Create { .. } | Call::Mkdir { .. } | Call::Mknod { .. }, Done::Made(i)) => {
            is_free_number(image, geometry, i)
        }
        (Call::Write { bytes, .. }, Done::Wrote(n)) => n as usize == bytes.as_slice().len(),
        (
            Call::Link { .. }
            | Call::Unlink { .. }
            | Call::Rmdir { .. }
            | Call::Truncate { .. }
            | Call::Chmod { .. }
            | Call::Chown { .. }
            | Call::Times { .. },
            Done::Plain,
        ) => true,
        _ => false,
    }
}

/// Returns the new node that a call describes.
fn new_node(caller: Caller, permissions: u16) -> NewNode
    ensures owner { result.owner ≡ caller.cred }
    ensures moment { result.moment ≡ caller.moment }
    ensures permissions { result.permissions ≡ permissions }
{
    NewNode {
        owner: caller.cred,
        permissions,
        moment: caller.moment,
    }
}

/// Returns the new user and group of a node as one value.
fn new_owner(uid: u16, gid: u16) -> Cred
    ensures user { result.uid ≡ uid }
    ensures group { result.gid ≡ gid }
{
    Cred { uid, gid }
}

/// Returns the i-number in a recorded answer, or `None` if there is none.
fn recorded_number(recorded: Option<Done>) -> Option<u16>
    ensures { result ≡ recorded_number recorded }
{
    match recorded {
        Some(Done::Made(i)) => Some(i),
        _ => None,
    }
}

/// Does nothing. The contract states facts about a sound image.
pub(crate) fn ready_stands(image: &Image, geometry: &Geometry)
    requires { Rules1To12 geometry.now image.now }
    ensures { Rules3To7And9 geometry.now image.now }
{
    // Only the contract uses the parameters.
    let _ = image;
    let _ = geometry;
}

/// Does nothing. The contract states facts about a sound image with its own geometry.
pub(crate) fn stands(image: &Image, geometry: &Geometry)
    requires sound { IsSound geometry.now.edition image.now }
    requires sizes { geometry.now ≡ geometry_of geometry.now.edition image.now }
    ensures { Rules3To7And9 geometry.now image.now }
{
    // No rule limits the number of blocks in the sixth edition. It is stored in a word, and reading this word shows the proof that it is below 65536.
    let _ = image.word(SUPER + 2);
}
