//! A run over one volume, and steps on volumes that other runs share.

use crate::refused::found::Found;
use crate::steps::{Kind, bytes_of, copied, create, query, write};
use std::alloc::Global;
use vol_dir::Refusal;
use vol_layout::Edition;
use vol_volume::{Call, Done, MkfsFault, MountFault, Query, Reply, Volume, mkfs};

/// The time of all calls.
pub(crate) const NOW: u32 = 0x0A0B_0C0D;

/// Changes and queries a volume, does the same again with a second volume, and compares the resulting bytes.
pub(crate) fn change(alloc: Global, found: &mut Found) -> Option<()> {
    let first = changed(alloc, found)?;
    let second = changed(alloc, found)?;
    found.wants(first == second);
    found.wants(first.len() == 10_240);
    Some(())
}

/// Mounts a volume, makes a file, writes 600 bytes into it, queries it, cuts the journal, and unmounts.
fn changed(alloc: Global, found: &mut Found) -> Option<Vec<u8>> {
    let mut volume = sixth(alloc, found)?;
    make_file(alloc, found, &mut volume, b"/a", 32)?;
    let call = write(NOW, bytes_of(alloc, b"/a")?, bytes_of(alloc, &[7; 600])?);
    make(alloc, found, &mut volume, call, Done::Wrote(600))?;
    for kind in [Kind::Read, Kind::List, Kind::Stat] {
        ask(alloc, found, &volume, kind)?;
    }
    found.wants(volume.journal().len() == 2);
    found.wants(volume.cut().is_ok());
    found.wants(volume.journal().is_empty());
    Some(volume.unmount())
}

/// Returns a new volume of the sixth edition of 20 blocks, mounted. If memory runs out, mounting must return the same bytes.
pub(crate) fn sixth(alloc: Global, found: &mut Found) -> Option<Volume> {
    let bytes = made(alloc, found)?;
    let before = copied(alloc, &bytes)?;
    match Volume::mount(alloc, Edition::V6, bytes) {
        Ok(volume) => Some(volume),
        Err((fault, same)) => {
            found.wants(fault == MountFault::NoMemory && same == before);
            Volume::mount(alloc, Edition::V6, same).ok()
        }
    }
}

/// Returns the bytes of a new volume, with an i-list of two blocks.
fn made(alloc: Global, found: &mut Found) -> Option<Vec<u8>> {
    match mkfs(alloc, Edition::V6, 20, 2, 0, 0, NOW) {
        Ok(bytes) => Some(bytes),
        Err(fault) => {
            found.wants(fault == MkfsFault::NoMemory);
            mkfs(alloc, Edition::V6, 20, 2, 0, 0, NOW).ok()
        }
    }
}

/// Makes a file, which gets this i-number.
pub(crate) fn make_file(
    alloc: Global,
    found: &mut Found,
    volume: &mut Volume,
    path: &[u8],
    number: u16,
) -> Option<()> {
    let call = create(NOW, bytes_of(alloc, path)?);
    make(alloc, found, volume, call, Done::Made(number))
}

/// Makes a call. If memory runs out, the image and the journal must be unchanged, and the same call must be returned.
fn make(
    alloc: Global,
    found: &mut Found,
    volume: &mut Volume,
    call: Call,
    wanted: Done,
) -> Option<()> {
    let before = copied(alloc, volume.image().as_bytes())?;
    let asked = copy_of(&call)?;
    let records = volume.journal().len();
    let done = match volume.call(alloc, call) {
        Ok(done) => done,
        Err((refusal, same)) => {
            found.wants(refusal == Refusal::NoMemory && same == asked);
            found.wants(volume.image().as_bytes() == before.as_slice());
            found.wants(volume.journal().len() == records);
            volume.call(alloc, same).ok()?
        }
    };
    found.wants(done == wanted);
    Some(())
}

/// Returns a copy of a call.
pub(crate) fn copy_of(call: &Call) -> Option<Call> {
    if let Ok(copy) = call.clone() {
        return Some(copy);
    }
    call.clone().ok()
}

/// Makes a query on a volume whose root has the file `a` of 600 bytes. Only a query that takes memory may run out of it.
fn ask(alloc: Global, found: &mut Found, volume: &Volume, kind: Kind) -> Option<()> {
    let query = asking(alloc, kind)?;
    let reply = match volume.ask(alloc, &query) {
        Ok(reply) => reply,
        Err(refusal) => {
            found.wants(refusal == Refusal::NoMemory && takes_memory(&query));
            volume.ask(alloc, &query).ok()?
        }
    };
    found.wants(match reply {
        Reply::Bytes(bytes) => bytes.as_slice() == [7; 600].as_slice(),
        Reply::Names(listing) => listing.as_slice().len() == 3,
        Reply::Stat(stat) => stat.size == 600,
    });
    Some(())
}

/// Returns a query about the file `a`, or about the names in the root.
pub(crate) fn asking(alloc: Global, kind: Kind) -> Option<Query> {
    let path: &[u8] = match kind {
        Kind::List => b"/",
        Kind::Read | Kind::Stat => b"/a",
    };
    query(alloc, kind, path)
}

/// True if the reply to a query takes memory.
pub(crate) fn takes_memory(query: &Query) -> bool {
    !matches!(query, Query::Stat { .. })
}
