//! Bytes and volumes that several test modules share.
use pdp_words::IntoWrite;
use pdp_words::test_streams::ScriptedWriter;
use pdp_words::words::put_bytes;
use std::alloc::Global;
use std::process::Abort;
use vol_dir::Cred;
use vol_layout::Edition;
use vol_volume::{Bytes, Call, Volume, mkfs};

/// Bytes at an offset.
pub(crate) type Piece = (usize, &'static [u8]);

/// A stream that takes all bytes.
pub(crate) type Stream = IntoWrite<ScriptedWriter>;

/// The time of the new volumes.
const MADE: u32 = 0x0A0B_0C0D;

/// The time of the calls.
const LATER: u32 = 0x0102_0304;

/// Puts pieces at their offsets, if they fit.
pub(crate) fn put_all(bytes: &mut [u8], pieces: &[Piece]) {
    for (at, piece) in pieces {
        if at.saturating_add(piece.len()) <= bytes.len() {
            put_bytes(bytes, *at, piece);
        }
    }
}

/// Returns a stream that takes all bytes.
pub(crate) fn stream(alloc: Global) -> Stream {
    IntoWrite::new(ScriptedWriter::new(alloc, 4096))
}

/// Returns the bytes that a stream took.
pub(crate) fn taken(stream: Stream) -> Vec<u8> {
    stream.into_inner().taken
}

/// Returns a copy of some bytes.
pub(crate) fn copied(rt: &impl Abort, alloc: Global, bytes: &[u8]) -> Vec<u8> {
    Vec::from_slice(alloc, bytes).expect(rt, "memory for the bytes")
}

/// Returns a path, or bytes to write.
pub(crate) fn bytes_of(rt: &impl Abort, alloc: Global, bytes: &[u8]) -> Bytes {
    Bytes::from_vec(copied(rt, alloc, bytes))
}

/// Returns the bytes of a new volume of 100 blocks. It has 32 i-nodes in the sixth edition, and 16 in the seventh;
/// the last is allocated first.
pub(crate) fn new_bytes(rt: &impl Abort, alloc: Global, edition: Edition) -> Vec<u8> {
    mkfs(alloc, edition, 100, 2, 0, 0, MADE).expect(rt, "a new volume")
}

/// Returns a new volume of 100 blocks, mounted.
pub(crate) fn new_volume(rt: &impl Abort, alloc: Global, edition: Edition) -> Volume {
    match Volume::mount(alloc, edition, new_bytes(rt, alloc, edition)) {
        Ok(volume) => volume,
        Err((fault, _)) => panic!(rt; "{fault:?}"),
    }
}

/// Returns a call that makes an empty file.
pub(crate) fn create(rt: &impl Abort, alloc: Global, path: &[u8]) -> Call {
    Call::Create {
        cred: Cred::ROOT,
        now: LATER,
        path: bytes_of(rt, alloc, path),
        perm: 0o644,
    }
}

/// Returns a call that writes bytes into a file.
pub(crate) fn write(
    rt: &impl Abort,
    alloc: Global,
    path: &[u8],
    offset: u32,
    bytes: &[u8],
) -> Call {
    Call::Write {
        cred: Cred::ROOT,
        now: LATER,
        path: bytes_of(rt, alloc, path),
        offset,
        bytes: bytes_of(rt, alloc, bytes),
    }
}
