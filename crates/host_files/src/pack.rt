//! A volume in a pack: the part of a file from a block on, which is read, and saved so that every other byte of the pack stays the same.
ghost use Rattle.std.specs.Prelude.{◌≡◌, ◌≢◌, ◌+◌, ◌*◌, true, length, IfErr, IfOk, IsErrAnd, IsErrOf, OnOk};
ghost use Rattle.host_files.specs.Packs.{HasBytes, HasFailed, IsCopied, IsMisfit, IsMoveFault, IsMovedTo, IsShorter, IsSpliced};

use crate::holes::{HoleSink, write_with_holes};
use crate::image_file::{FileKind, Stamp};
use crate::noted::{Noted, noted_reader};
use crate::system::ImageFiles;
use crate::volume_front::{PIECE, skip};
use pdp_words::{BLOCK, FromRead, Source};
use std::io::{self, ErrorKind, Read};

/// The reason why a file wasn't moved to a block.
#[derive(Clone, Copy)]
pub enum MoveFault {
    /// The file ends before the block.
    Short,
    /// It can't be read, or has no such place: the system's error.
    Unread(io::Error),
}

/// Moves an open file of which nothing was read to the block `first`, and returns it. `stamp` is the file's. A regular file or a device is moved without
/// reading it; of anything else the blocks before are read and dropped.
pub fn moved_to<R: ImageFiles>(
    rt: &R,
    file: R::File,
    stamp: Stamp,
    first: u32,
) -> Result<R::File, MoveFault>
    requires { R.had file stamp }
    ensures moved { IfOk result (λ moved. IsMovedTo (512 * first) (R.File.remaining file) (R.File.remaining moved)) }
    ensures fault { IfErr result (IsMoveFault R.File.remaining R.refused ⟦<Noted<FromRead<R::File>> as Source>⟧.remaining
        ⟦<Noted<FromRead<R::File>> as Source>⟧.failed stamp file (512 * first)) }
{
    let bytes = BLOCK as u64 * u64::from(first);
    match stamp.kind {
        FileKind::Regular if stamp.size < bytes => Err(MoveFault::Short),
        FileKind::Regular => match passed_over(rt, file, bytes) {
            Ok(moved) => Ok(moved),
            Err(why) => Err(MoveFault::Unread(why)),
        },
        FileKind::Device => match passed_over(rt, file, bytes) {
            Ok(moved) => Ok(moved),
            // A device that ends before has no such place.
            Err(why) if why.kind() == ErrorKind::InvalidInput => Err(MoveFault::Short),
            Err(why) => Err(MoveFault::Unread(why)),
        },
        FileKind::Directory | FileKind::Stream => read_past(file, bytes as usize),
    }
}

/// Moves over bytes of an open file without reading or writing them, and returns it. A regular file must have them. A file that can't be moved serves
/// too, if there are none.
pub(crate) fn passed_over<R: ImageFiles>(
    rt: &R,
    mut file: R::File,
    bytes: u64,
) -> io::Result<R::File>
    requires { HasBytes R.had file bytes }
    ensures moved { IfOk result (λ moved. IsMovedTo bytes (R.File.remaining file) (R.File.remaining moved)) }
    ensures fault { IfErr result (R.refused file bytes) }
{
    if bytes > 0 {
        rt.pass_over(&mut file, bytes)?;
    }
    Ok(file)
}

/// Reads and drops the first bytes of an open file, and returns it.
fn read_past<F: Read + Drop>(file: F, bytes: usize) -> Result<F, MoveFault>
    ensures moved { IfOk result (λ moved. IsMovedTo bytes (F.remaining file) (F.remaining moved)) }
    ensures short { IsErrOf result MoveFault.Short → IsShorter bytes (F.remaining file) }
    ensures unread { IsErrAnd result (λ fault. fault ≢ MoveFault.Short) → HasFailed ⟦<Noted<FromRead<F>> as Source>⟧.remaining
        ⟦<Noted<FromRead<F>> as Source>⟧.failed (F.remaining file) }
{
    let mut source = noted_reader(file);
    match skip(&mut source, bytes) {
        Ok(false) => Ok(source.into_inner().into_inner()),
        Ok(true) => Err(MoveFault::Short),
        Err(why) => Err(MoveFault::Unread(why)),
    }
}

/// The reason why a pack wasn't written anew.
#[derive(Clone, Copy)]
pub enum SpliceFault {
    /// The old pack can't be read.
    Unread,
    /// The new pack can't be written.
    Unwritten,
    /// The old pack doesn't have all bytes that are to be replaced, or continues for 2^64 - 1 bytes after them.
    Misfit,
}

/// Writes a pack anew, with `bytes` in the place of as many from byte `at` on. Reads all of the old pack, and takes no memory. Zeros become holes as in
/// [`write_with_holes`].
pub fn splice<S: Source, W: HoleSink>(
    pack: &mut S,
    sink: &mut W,
    at: usize,
    bytes: &[u8],
) -> Result<(), SpliceFault>
    ensures ok { OnOk result (IsSpliced at bytes.now (S.remaining pack.old) (S.remaining pack.new) (W.contents sink.old) (W.contents sink.new)) }
    ensures unread { IsErrOf result SpliceFault.Unread → S.failed pack.new ≡ true }
    ensures unwritten { IsErrOf result SpliceFault.Unwritten → W.failed sink.new ≡ true }
    ensures misfit { IsErrOf result SpliceFault.Misfit → IsMisfit (at + length bytes.now) (S.remaining pack.old) (S.remaining pack.new) }
{
    if copy(pack, sink, at)? {
        return Err(SpliceFault::Misfit);
    }
    let Ok(()) = write_with_holes(sink, bytes) else {
        return Err(SpliceFault::Unwritten);
    };
    match skip(pack, bytes.len()) {
        Ok(false) => {}
        Ok(true) => return Err(SpliceFault::Misfit),
        Err(_) => return Err(SpliceFault::Unread),
    }
    if copy(pack, sink, usize::MAX)? {
        Ok(())
    } else {
        Err(SpliceFault::Misfit)
    }
}

/// Copies up to `most` bytes, with holes for zeros. True if the source has then reached its end.
fn copy<S: Source, W: HoleSink>(
    source: &mut S,
    sink: &mut W,
    most: usize,
) -> Result<bool, SpliceFault>
    ensures ok { IfOk result (IsCopied most (S.remaining source.old) (S.remaining source.new) (W.contents sink.old) (W.contents sink.new)) }
    ensures unread { IsErrOf result SpliceFault.Unread → S.failed source.new ≡ true }
    ensures unwritten { IsErrOf result SpliceFault.Unwritten → W.failed sink.new ≡ true }
    ensures misfit { IsErrOf result SpliceFault.Misfit → ⊥ }
{
    let mut piece = [0; PIECE];
    let mut left = most;
    'pieces: while left > 0 {
        let room = PIECE.min(left);
        let Ok(count) = source.read(&mut piece[..room]) else {
            return Err(SpliceFault::Unread);
        };
        if count == 0 {
            return Ok(true);
        }
        let Ok(()) = write_with_holes(sink, &piece[..count]) else {
            return Err(SpliceFault::Unwritten);
        };
        left -= count;
    }
    Ok(false)
}
