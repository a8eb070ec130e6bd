//! A volume with one file, and many queries and calls on it.
ghost use Rattle.std.specs.Prelude.{◌≡◌, Some};

use crate::steps::{Kind, bytes_of, create, query, write};
use std::alloc::Global;
use std::sync::Wait;
use std::sync::atomic::{AtomicBool, Ordering};
use vol_layout::Edition;
use vol_shared::{Outcome, Receipt, Session, Shared, View};
use vol_volume::{Bytes, Call, Volume, mkfs};

/// The path of the file.
const FILE: &[u8] = b"/file";

/// The number of calls after which a session that writes again and again cuts the journal, and checks whether to stop.
const UNCUT: u64 = 100;

/// Returns a new volume of the seventh edition, mounted.
pub(crate) fn new_volume(alloc: Global, blocks: u32, list_blocks: u16) -> Option<Volume> {
    let bytes = mkfs(alloc, Edition::V7, blocks, list_blocks, 0, 0, 0).ok()?;
    Volume::mount(alloc, Edition::V7, bytes).ok()
}

/// Returns a new volume of `blocks` blocks, with the file.
pub(crate) fn new_volume_with_file(alloc: Global, blocks: u32) -> Option<Volume> {
    let mut volume = new_volume(alloc, blocks, 10)?;
    let create = create(1, bytes_of(alloc, FILE)?);
    volume.call(alloc, create).ok()?;
    Some(volume)
}

/// Returns the call that writes `length` bytes at the beginning of the file.
fn write_file(alloc: Global, length: u32) -> Option<Call> {
    let bytes = vec![in alloc; 7u8; length as usize].ok()?;
    Some(write(2, bytes_of(alloc, FILE)?, Bytes::from_vec(bytes)))
}

/// Returns `None` if a receipt reports a refusal.
fn accepted(receipt: Receipt) -> Option<()> {
    match receipt.outcome {
        Outcome::Accepted(_) | Outcome::Answered(_) => Some(()),
        Outcome::Refused(_) => None,
    }
}

/// Queries the file's attributes `count` times with a view, and returns that number, or `None` if memory ran out or a query
/// was refused.
pub(crate) fn ask_view(alloc: Global, shared: &Shared, view: &mut View, count: u64) -> Option<u64>
    requires { shared.now.of.book ≡ Some view.old.book }
    ensures { shared.now.of.book ≡ Some view.new.book }
{
    // Only the contract reads the volume.
    let _ = shared;
    for _ in 0..count {
        let query = query(alloc, Kind::Stat, FILE)?;
        accepted(view.ask(alloc, query).ok()?)?;
    }
    Some(count)
}

/// Queries the file's attributes with a session, as `ask_view` does with a view.
pub(crate) fn ask_session<R: Wait>(
    rt: &R,
    alloc: Global,
    shared: &Shared,
    session: &mut Session,
    count: u64,
) -> Option<u64>
    requires { session.old.of ≡ shared.now.of }
    ensures { session.new.of ≡ session.old.of }
{
    for _ in 0..count {
        let query = query(alloc, Kind::Stat, FILE)?;
        accepted(shared.ask(rt, alloc, session, query).ok()?)?;
    }
    Some(count)
}

/// Writes `length` bytes of the file `count` times with a session, and returns that number, or `None` if memory ran out or a
/// call was refused.
pub(crate) fn call_session<R: Wait>(
    rt: &R,
    alloc: Global,
    shared: &Shared,
    session: &mut Session,
    length: u32,
    count: u64,
) -> Option<u64>
    requires { session.old.of ≡ shared.now.of }
    ensures { session.new.of ≡ session.old.of }
{
    for _ in 0..count {
        let call = write_file(alloc, length)?;
        accepted(shared.call(rt, alloc, session, call).ok()?)?;
    }
    Some(count)
}

/// Writes `length` bytes of the file with a session, again and again, until it is stopped. Returns `None` if memory ran out or a call was refused.
pub(crate) fn write_on<R: Wait>(
    rt: &R,
    alloc: Global,
    shared: &Shared,
    session: &mut Session,
    length: u32,
    ends: &AtomicBool,
) -> Option<()>
    requires { session.old.of ≡ shared.now.of }
    ensures { session.new.of ≡ session.old.of }
{
    for _ in rt.forever() {
        if ends.load(Ordering::SeqCst) {
            return Some(());
        }
        call_session(rt, alloc, shared, session, length, UNCUT)?;
        shared.cut(rt, session);
    }
    unreachable!()
}
