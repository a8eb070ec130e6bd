//! Creating a volume.
ghost use Rattle.std.specs.Prelude.{◌≡◌, ◌↔◌, true, false, IfOk, OnOk, IsErrOf};
ghost use Rattle.vol_judge.specs.Sound.{IsSound};
ghost use Rattle.vol_mkfs.specs.Mkfs.{is_size, volume_of, IsNewVolume};
ghost use Rattle.vol_layout.specs.Ids.{is_bad_id};

use crate::blank::{BlankVolume, MkfsFault, NewVolume};
use std::alloc::Global;
use vol_layout::Edition;

/// Creates a volume of `blocks` blocks of 512 bytes, with an i-list of `list_blocks` blocks, and returns its bytes. The root, a directory with
/// permissions 0777, belongs to `uid` and `gid`. All times are `now`, in seconds since the beginning of 1970. `Bounds` is checked before `BadId`;
/// `NoMemory` is reported last.
///
/// Takes memory for the bytes, once, and for four blocks. [`BlankVolume`] writes a volume without keeping its bytes in memory.
pub fn mkfs(
    alloc: Global,
    edition: Edition,
    blocks: u32,
    list_blocks: u16,
    uid: u16,
    gid: u16,
    now: u32,
) -> Result<Vec<u8>, MkfsFault>
    ensures made { IfOk result (λ bytes. IsNewVolume (volume_of edition blocks list_blocks) uid gid now bytes.items) }
    ensures sound { IfOk result (λ bytes. IsSound edition bytes.items) }
    ensures size { OnOk result (is_size edition blocks list_blocks ≡ true) }
    ensures id { OnOk result (is_bad_id edition uid gid ≡ false) }
    ensures bounds { IsErrOf result MkfsFault.Bounds ↔ (is_size edition blocks list_blocks ≡ false) }
    ensures bad_id { IsErrOf result MkfsFault.BadId ↔ ((is_size edition blocks list_blocks ≡ true) × (is_bad_id edition uid gid ≡ true)) }
{
    let volume = NewVolume {
        edition,
        blocks,
        list_blocks,
        uid,
        gid,
        now,
    };
    let blank = BlankVolume::new(alloc, volume)?;
    match blank.to_bytes(alloc) {
        Ok(bytes) => Ok(bytes),
        Err(_) => Err(MkfsFault::NoMemory),
    }
}
