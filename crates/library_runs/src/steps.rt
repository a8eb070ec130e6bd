//! Bytes, calls and queries. Each refused allocation is tried again, so that one refusal doesn't end the run.
use std::alloc::Global;
use vol_dir::Cred;
use vol_volume::{Bytes, Call, Query};

/// Returns a copy of some bytes.
pub(crate) fn copied(alloc: Global, bytes: &[u8]) -> Option<Vec<u8>> {
    if let Ok(copy) = Vec::from_slice(alloc, bytes) {
        return Some(copy);
    }
    Vec::from_slice(alloc, bytes).ok()
}

/// Returns a path, or bytes to write.
pub(crate) fn bytes_of(alloc: Global, bytes: &[u8]) -> Option<Bytes> {
    Some(Bytes::from_vec(copied(alloc, bytes)?))
}

/// Returns the call that makes a file.
pub(crate) fn create(now: u32, path: Bytes) -> Call {
    Call::Create {
        cred: Cred::ROOT,
        now,
        path,
        perm: 0o644,
    }
}

/// Returns the call that writes some bytes at the beginning of a file.
pub(crate) fn write(now: u32, path: Bytes, bytes: Bytes) -> Call {
    Call::Write {
        cred: Cred::ROOT,
        now,
        path,
        offset: 0,
        bytes,
    }
}

/// The kind of a query.
#[derive(Clone, Copy)]
pub(crate) enum Kind {
    /// The first 1,024 bytes of a file.
    Read,
    /// The names in a directory.
    List,
    /// A node's attributes.
    Stat,
}

/// Returns a query.
pub(crate) fn query(alloc: Global, kind: Kind, path: &[u8]) -> Option<Query> {
    let path = bytes_of(alloc, path)?;
    let cred = Cred::ROOT;
    Some(match kind {
        Kind::Read => Query::Read {
            cred,
            path,
            offset: 0,
            len: 1024,
        },
        Kind::List => Query::List { cred, path },
        Kind::Stat => Query::Stat { cred, path },
    })
}
