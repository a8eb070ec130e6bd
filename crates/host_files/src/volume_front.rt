//! Reads the image or the archive in a file, and nothing after it.
ghost use Rattle.std.specs.Prelude.{◌≡◌, false, true, IfOk, OnErr, OnOk, IsErrOf};
ghost use Rattle.pdp_words.specs.Devices.{LosesFront};
ghost use Rattle.host_files.specs.ReadParts.{IsEndless, IsPast, IsReadOn, IsReadUpTo, IsSkipped, IsVolumeRead};

use crate::archive_front::read_archive;
use pdp_words::{BLOCK, Image, LoadFault, Source, load};
use std::alloc::Global;
use std::io;
use vol_layout::{Edition, Super};

/// The end of the part of a file that is read.
#[derive(Clone, Copy)]
pub enum UpTo {
    /// The end of the file.
    End,
    /// The last block of the volume in the file.
    Volume(Edition),
    /// The end of the archive in the file, which has at most this many blocks.
    Archive(u32),
}

/// The reason why a file wasn't read.
#[derive(Clone, Copy)]
pub enum FrontFault {
    /// The source failed.
    Device,
    /// An allocation was refused.
    NoMemory,
    /// The super-block records more blocks than any volume has, and the file continues past them; or the archive in the file has more blocks than
    /// allowed.
    Endless,
}

/// The greatest number of bytes in one read. The piece lies on the stack, which may be small.
pub(crate) const PIECE: usize = 16 * 1024;

/// The number of bytes up to the end of the super-block.
const HEAD: usize = 1024;

/// Reads a source up to the end that `up_to` names. Whatever the result, the bytes that were read are no longer in the source.
pub fn read_up_to<S: Source>(
    alloc: Global,
    up_to: UpTo,
    source: &mut S,
) -> Result<Image, FrontFault>
    requires { S.failed source.old ≡ false }
    ensures ok { IfOk result (IsReadUpTo up_to (S.remaining source.old) (S.remaining source.new)) }
    ensures front { OnErr result (LosesFront (S.remaining source.old) (S.remaining source.new)) }
    ensures device { IsErrOf result FrontFault.Device → S.failed source.new ≡ true }
    ensures memory { IsErrOf result FrontFault.NoMemory → S.failed source.new ≡ false }
    ensures endless { IsErrOf result FrontFault.Endless → IsPast up_to (S.remaining source.old) (S.remaining source.new) }
{
    match up_to {
        UpTo::Volume(edition) => read_volume(alloc, edition, source),
        UpTo::Archive(blocks) => read_archive(alloc, blocks, source).map(Image::from_bytes),
        UpTo::End => load(alloc, source).map_err(|fault| match fault {
            LoadFault::Device => FrontFault::Device,
            LoadFault::NoMemory => FrontFault::NoMemory,
        }),
    }
}

/// Reads the image of a volume up to the last block that its super-block records, or to the source's end. If it records more blocks than any volume
/// of the edition has, the bytes after the super-block are read and dropped: if the source ends before it has one block more than the largest volume,
/// the image breaks rule 1; otherwise this is a fault.
///
/// Takes memory as `pdp_words::load` does, for the bytes that are returned.
fn read_volume<S: Source>(
    alloc: Global,
    edition: Edition,
    source: &mut S,
) -> Result<Image, FrontFault>
    requires { S.failed source.old ≡ false }
    ensures ok { IfOk result (IsVolumeRead edition (S.remaining source.old) (S.remaining source.new)) }
    ensures front { OnErr result (LosesFront (S.remaining source.old) (S.remaining source.new)) }
    ensures device { IsErrOf result FrontFault.Device → S.failed source.new ≡ true }
    ensures memory { IsErrOf result FrontFault.NoMemory → S.failed source.new ≡ false }
    ensures endless { IsErrOf result FrontFault.Endless → IsEndless edition (S.remaining source.old) (S.remaining source.new) }
{
    let head = read_on(Vec::new(alloc), HEAD, source)?;
    if head.len() < HEAD {
        return Ok(Image::from_bytes(head));
    }
    let head = Image::from_bytes(head);
    let blocks = Super { edition }.block_count(&head);
    let greatest = edition.constants().block_limit;
    if blocks <= greatest {
        let bytes = read_on(head.into_bytes(), BLOCK * blocks as usize, source)?;
        return Ok(Image::from_bytes(bytes));
    }
    match skip(source, BLOCK * (greatest as usize - 1)) {
        Ok(true) => Ok(head),
        Ok(false) => Err(FrontFault::Endless),
        Err(_) => Err(FrontFault::Device),
    }
}

/// Appends bytes from the source to `bytes`, until `bytes` has `most` or the source ends. Takes memory for the bytes that are there, whatever `most` is.
pub fn read_on<S: Source>(
    mut bytes: Vec<u8>,
    most: usize,
    source: &mut S,
) -> Result<Vec<u8>, FrontFault>
    requires { S.failed source.old ≡ false }
    ensures ok { IfOk result (λ all. IsReadOn (S.remaining source.old) (S.remaining source.new) bytes.items all.items most) }
    ensures working { OnOk result (S.failed source.new ≡ false) }
    ensures front { OnErr result (LosesFront (S.remaining source.old) (S.remaining source.new)) }
    ensures device { IsErrOf result FrontFault.Device → S.failed source.new ≡ true }
    ensures memory { IsErrOf result FrontFault.NoMemory → S.failed source.new ≡ false }
    ensures endless { IsErrOf result FrontFault.Endless → ⊥ }
{
    if bytes.len() >= most {
        return Ok(bytes);
    }
    let mut piece = [0; PIECE];
    'pieces: while bytes.len() < most {
        let room = PIECE.min(most - bytes.len());
        let Ok(count) = source.read(&mut piece[..room]) else {
            return Err(FrontFault::Device);
        };
        if count == 0 {
            return Ok(bytes);
        }
        if bytes.extend_from_slice(&piece[..count]).is_err() {
            return Err(FrontFault::NoMemory);
        }
    }
    Ok(bytes)
}

/// Reads up to `most` bytes and drops them. True if the source has then reached its end.
pub(crate) fn skip<S: Source>(source: &mut S, most: usize) -> io::Result<bool>
    ensures ok { IfOk result (IsSkipped most (S.remaining source.old) (S.remaining source.new)) }
    ensures front { OnErr result (LosesFront (S.remaining source.old) (S.remaining source.new)) }
    ensures working { OnOk result (S.failed source.new ≡ S.failed source.old) }
    ensures device { OnErr result (S.failed source.new ≡ true) }
{
    let mut piece = [0; PIECE];
    let mut left = most;
    'pieces: while left > 0 {
        let room = PIECE.min(left);
        let count = source.read(&mut piece[..room])?;
        if count == 0 {
            return Ok(true);
        }
        left -= count;
    }
    Ok(false)
}
