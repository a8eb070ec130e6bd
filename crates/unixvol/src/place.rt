//! The place of a resized volume in its file.
ghost use Rattle.std.specs.Prelude.{◌≡◌, IfErr, OnOk};
ghost use Rattle.unixvol.specs.FileFaults.{file_status};
ghost use Rattle.unixvol.specs.Resize.{IsAlone, has_only};
ghost use Rattle.unixvol.specs.Runs.{IsStatusOfFileOrMemory};

use crate::explain::reason_of;
use crate::file_fault::{FileFault, NamedFile};
use host_files::{FileKind, ImageFiles, Stamp, open_sized};
use pack_files::{Growth, PackFault, other_volume};
use pdp_words::BLOCK;
use std::alloc::{AllocError, Global};
use std::io;
use vol_identify::Part;

/// Checks that a volume can become larger in the file at `path`, which has this stamp: no other volume has blocks that it would get, and a pack or a
/// device has them. A volume can always become smaller.
pub fn expect_place<'a, R: ImageFiles + AllocGlobal>(
    rt: &R,
    path: &'a str,
    stamp: Stamp,
    growth: Growth,
) -> Result<(), FileFault<'a>>
    ensures place { OnOk result (IsAlone R.File.remaining R.had growth) }
    ensures fault { IfErr result (λ fault. IsStatusOfFileOrMemory (file_status fault)) }
{
    if growth.gets <= growth.had {
        return Ok(());
    }
    if growth.at > 0 || stamp.kind != FileKind::Regular {
        expect_end(rt, path, stamp, growth)?;
    }
    let named = NamedFile::File(path);
    match other_volume(rt, path, growth) {
        Ok(None) => Ok(()),
        Ok(Some(part)) => Err(FileFault::Taken(path, part)),
        Err(PackFault::Unread(why)) => Err(FileFault::Unread(named, reason_of(why))),
        Err(PackFault::Short) => Err(FileFault::Unread(named, reason_of(None))),
        Err(PackFault::NoMemory) => Err(FileFault::NoMemory),
    }
}

/// Checks that the file at `path`, which has this stamp, has all blocks of a volume.
fn expect_end<'a, R: ImageFiles>(
    rt: &R,
    path: &'a str,
    stamp: Stamp,
    growth: Growth,
) -> Result<(), FileFault<'a>>
    ensures { IfErr result (λ fault. IsStatusOfFileOrMemory (file_status fault)) }
{
    let size = match size_at(rt, path, stamp) {
        Ok(size) => size,
        Err(why) => return Err(FileFault::Unwritten(NamedFile::File(path), why)),
    };
    let end = u64::from(growth.at) + u64::from(growth.gets);
    let blocks = size / BLOCK as u64;
    if blocks < end {
        return Err(FileFault::Small(path, blocks));
    }
    Ok(())
}

/// Checks that the device at `path` has room for so many bytes, if a device is there and its end is known: else what it holds would be lost for a part of
/// them. A device without an end has size 0.
pub fn expect_device<'a, R: ImageFiles>(
    rt: &R,
    path: &'a str,
    bytes: u64,
) -> Result<(), FileFault<'a>>
    ensures { IfErr result (λ fault. IsStatusOfFileOrMemory (file_status fault)) }
{
    let Ok(there) = rt.stamp_at(path) else {
        return Ok(());
    };
    if there.kind != FileKind::Device {
        return Ok(());
    }
    let Ok((_, sized)) = open_sized(rt, path) else {
        return Ok(());
    };
    if sized.size > 0 && sized.size < bytes {
        return Err(FileFault::Small(path, sized.size / BLOCK as u64));
    }
    Ok(())
}

/// Returns the number of bytes of the file at `path`, which has this stamp: of a device, those up to its end.
fn size_at<R: ImageFiles>(rt: &R, path: &str, stamp: Stamp) -> io::Result<u64> {
    if stamp.kind == FileKind::Regular {
        return Ok(stamp.size);
    }
    let (_, sized) = open_sized(rt, path)?;
    Ok(sized.size)
}

/// Checks that a new volume can be made in the file at `path`, which has this stamp: the file has all its blocks, and none of them is another volume's.
pub fn expect_room<'a, R: ImageFiles + AllocGlobal>(
    rt: &R,
    path: &'a str,
    stamp: Stamp,
    place: Growth,
) -> Result<(), FileFault<'a>>
    ensures room { OnOk result (IsAlone R.File.remaining R.had place) }
    ensures fault { IfErr result (λ fault. IsStatusOfFileOrMemory (file_status fault)) }
{
    expect_end(rt, path, stamp, place)?;
    expect_place(rt, path, stamp, place)
}

/// True if a regular file with this stamp has nothing but the volume, before or after it is resized.
pub fn has_only(stamp: Stamp, growth: Growth) -> bool
    ensures { result ≡ has_only stamp growth }
{
    let blocks = u64::from(growth.had.max(growth.gets));
    growth.at == 0 && matches!(stamp.kind, FileKind::Regular) && stamp.size <= BLOCK as u64 * blocks
}

/// Describes the volume whose blocks would be overwritten.
pub fn taken_words(alloc: Global, other: Part) -> Result<String, AllocError> {
    match other {
        Part::Volume { block, volume } => {
            let blocks = volume.blocks;
            format!(in alloc;
                "it would overwrite blocks of the volume at block {block}, which has {blocks}"
            )
        }
        Part::Between { block, .. } => {
            format!(in alloc; "it would overwrite the blocks from block {block} on")
        }
    }
}
