//! New volumes that aren't written yet.
ghost use Rattle.std.specs.Prelude.{◌≡◌, ◌↔◌, true, false, IfOk, IfErr, OnOk, OnErr, IsErrOf};
ghost use Rattle.vol_mkfs.specs.Blank.{blank_of, IsMade, WritesVolume, WritesFront};
ghost use Rattle.vol_mkfs.specs.Mkfs.{is_size};
ghost use Rattle.vol_layout.specs.Ids.{is_bad_id};

mod blocks;
mod first;

use crate::sizes::{is_size, volume_of};
use blocks::{gather, write_blocks};
use first::{FIRST_BYTES, fill};
use pdp_words::{BLOCK, Image, SaveFault, Sink};
use std::alloc::{AllocError, Global};
use std::marker::Model;
use thiserror::Error;
use vol_layout::{Edition, Geometry, is_bad_id};

/// The number of blocks up to and including the first block of the i-list: the boot block, the super-block and that block.
const FIRST_BLOCKS: u32 = 3;

/// The parameters of a new volume: its sizes, in blocks of 512 bytes, the root's user and group, and the time, in seconds
/// since the beginning of 1970.
#[derive(Clone, Copy)]
pub struct NewVolume {
    /// The edition of Unix.
    pub edition: Edition,
    /// The number of blocks of the volume.
    pub blocks: u32,
    /// The number of blocks of the i-list.
    pub list_blocks: u16,
    /// The user that owns the root.
    pub uid: u16,
    /// The group that owns the root.
    pub gid: u16,
    /// The time of the super-block and the root.
    pub now: u32,
}

/// The reason why no volume was created.
#[derive(Clone, Copy, Debug, PartialEq, Eq, Error)]
pub enum MkfsFault {
    /// The sizes are out of range: rule 2 would fail, or a sixth edition volume would have more than 65,535 blocks.
    #[error("bounds")]
    Bounds,
    /// The user or group number is above 255 in the sixth edition, or 32,767 in the seventh.
    #[error("104 BadId")]
    BadId,
    /// Memory ran out.
    #[error("12 NoMemory")]
    NoMemory,
}

/// A new volume whose bytes aren't in memory. It has only the root, and all other data blocks are free. Only blocks 0, 1 and 2 and the root's block
/// are stored; all others are computed from the sizes.
#[derive(Drop)]
pub struct BlankVolume {
    geometry: Geometry,
    first: Image,
}

impl Model for BlankVolume {
    ghost use Rattle.vol_mkfs.specs.Blank.{Blank, blank_in, IsBlank};

    ghost Value = { Blank };

    ghost view = { λ v. blank_in v.geometry v.first };

    ghost invariant = { λ v. IsBlank v.geometry v.first };
}

impl BlankVolume {
    /// Returns the new volume, whose root has permissions 0777. `Bounds` is checked before `BadId`; `NoMemory` is reported last.
    ///
    /// Takes memory for four blocks.
    pub fn new(alloc: Global, volume: NewVolume) -> Result<BlankVolume, MkfsFault>
        ensures blank { IfOk result (λ blank. blank ≡ blank_of volume) }
        ensures size { OnOk result (is_size volume.edition volume.blocks volume.list_blocks ≡ true) }
        ensures id { OnOk result (is_bad_id volume.edition volume.uid volume.gid ≡ false) }
        ensures bounds { IsErrOf result MkfsFault.Bounds ↔ (is_size volume.edition volume.blocks volume.list_blocks ≡ false) }
        ensures bad_id { IsErrOf result MkfsFault.BadId ↔ ((is_size volume.edition volume.blocks volume.list_blocks ≡ true)
            × (is_bad_id volume.edition volume.uid volume.gid ≡ true)) }
    {
        let NewVolume {
            edition,
            blocks,
            list_blocks,
            uid,
            gid,
            now,
        } = volume;
        if !is_size(edition, blocks, list_blocks) {
            return Err(MkfsFault::Bounds);
        }
        if is_bad_id(edition, uid, gid) {
            return Err(MkfsFault::BadId);
        }
        let Ok(zeros) = vec![in alloc; 0; FIRST_BYTES] else {
            return Err(MkfsFault::NoMemory);
        };
        let mut first = Image::from_bytes(zeros);
        let geometry = volume_of(edition, blocks, list_blocks);
        fill(&mut first, &geometry, uid, gid, now);
        Ok(BlankVolume { geometry, first })
    }

    /// Returns all bytes of the volume.
    ///
    /// Takes memory for these bytes, once.
    pub fn to_bytes(&self, alloc: Global) -> Result<Vec<u8>, AllocError>
        ensures { IfOk result (λ bytes. IsMade self.now bytes.items) }
    {
        let mut bytes = vec![in alloc; 0; self.geometry.zone_end as usize * BLOCK]?;
        gather(
            &self.first,
            &self.geometry,
            0,
            self.geometry.zone_end,
            &mut bytes,
        );
        Ok(bytes)
    }

    /// Writes the volume to `sink`, from its first byte to its last. Fails only if the sink fails, after taking exactly the first `written` bytes.
    ///
    /// Takes no memory: the bytes are written through a buffer of 64 KiB.
    pub fn write_to<W: Sink>(&self, sink: &mut W) -> Result<(), SaveFault>
        ensures ok { OnOk result (WritesVolume self.now (W.contents sink.old) (W.contents sink.new)) }
        ensures working { OnOk result (W.failed sink.new ≡ W.failed sink.old) }
        ensures part { IfErr result (λ e. WritesFront self.now (W.contents sink.old) (W.contents sink.new) e.written) }
        ensures fault { OnErr result (W.failed sink.new ≡ true) }
    {
        write_blocks(sink, &self.first, &self.geometry)
    }
}
