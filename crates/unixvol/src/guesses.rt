//! Reads as much of a file as a guess needs.
ghost use Rattle.std.specs.Prelude.{◌≡◌, ◌*◌, ◌+◌, false, true, Err, IfErr, IfOk, IsErrOf};
ghost use Rattle.unixvol.specs.FileFaults.{file_status};
ghost use Rattle.unixvol.specs.Identify.{GaveFront, IsFrontRead, most_bytes};
ghost use Rattle.unixvol.specs.Runs.{IsStatusOfFileOrMemory};

use crate::explain::reason_of;
use crate::file_fault::{FileFault, NamedFile};
use host_files::{FrontFault, ImageFiles, noted_reader, open_stamped, read_on};
use identify_lines::MOST;
use pdp_words::{BLOCK, Image, Source};
use std::alloc::{AllocError, Global};
use std::fs::{self, Files};
use vol_identify::{Guess, blocks_wanted, guess_image};

/// The number of bytes that say whether a volume may begin at the front.
const HEAD: usize = 3 * BLOCK;

/// Reads the front of a file for a guess.
pub fn read_to_guess<'a, R: ImageFiles + AllocGlobal>(
    rt: &R,
    path: &'a str,
) -> Result<Image, FileFault<'a>>
    ensures given { IfOk result (GaveFront R.File.remaining) }
    ensures fault { IfErr result (λ fault. IsStatusOfFileOrMemory (file_status fault)) }
{
    let named = NamedFile::File(path);
    let (file, _) = match open_stamped(rt, path) {
        Ok(opened) => opened,
        Err(why) => return Err(FileFault::Unread(named, why)),
    };
    let mut source = noted_reader(file);
    match read_front(rt.alloc(), &mut source) {
        Ok(front) => Ok(front),
        Err(FrontFault::NoMemory) => Err(FileFault::NoMemoryFor(path)),
        Err(_) => Err(FileFault::Unread(named, reason_of(source.error()))),
    }
}

/// Guesses what the image in a file is, without a word about a fault. Returns `None` if the file can't be read, or memory ran out.
pub fn guess_at<R: Files + AllocGlobal>(rt: &R, path: &str) -> Option<Guess> {
    let mut source = noted_reader(fs::open(rt, path).ok()?);
    let front = read_front(rt.alloc(), &mut source).ok()?;
    guess_image(rt.alloc(), &front).ok()
}

/// Reads the front of a source for a guess: the blocks of the volume that may begin there, and one block more; or [`MOST`] bytes if none may. Takes
/// memory for the bytes that are there.
fn read_front<S: Source>(alloc: Global, source: &mut S) -> Result<Image, FrontFault>
    requires { S.failed source.old ≡ false }
    ensures front { IfOk result (IsFrontRead (S.remaining source.old) (S.remaining source.new)) }
{
    let head = Image::from_bytes(read_on(Vec::new(alloc), HEAD, source)?);
    let Ok(most) = most_bytes(alloc, &head) else {
        return Err(FrontFault::NoMemory);
    };
    Ok(Image::from_bytes(read_on(head.into_bytes(), most, source)?))
}

/// Returns the greatest number of bytes of a file that are read for a guess, by its first three blocks.
#[tactic(auto, unfolding(crate::specs::Identify::most_bytes))]
fn most_bytes(alloc: Global, head: &Image) -> Result<usize, AllocError>
    ensures { IfOk result (λ most. most ≡ most_bytes head.now) }
{
    let blocks = blocks_wanted(alloc, head)?;
    if blocks == 0 {
        Ok(MOST)
    } else {
        Ok(BLOCK * blocks as usize + BLOCK)
    }
}
