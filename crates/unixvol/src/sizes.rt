//! The sizes of an image in a file, and what the file seems to hold.

use crate::guesses::guess_at;
use host_files::{FileKind, ImageFiles, UpTo, moved_to, noted_reader, open_stamped, read_up_to};
use pdp_words::{BLOCK, Image};
use vol_findings::other_edition;
use vol_identify::Guess;
use vol_layout::{Edition, Geometry, Super};

/// The number of bytes up to the end of the super-block.
pub const HEAD: usize = 2 * BLOCK;

/// The sizes of an image in a file, and what the file seems to hold.
#[derive(Clone, Copy)]
pub struct Sizes {
    /// The number of whole blocks in the file, from its first block on.
    pub blocks: u64,
    /// The number of blocks that its super-block records, if it has a super-block.
    pub said: Option<u32>,
    /// The other edition, if rules 1 and 2 hold for it.
    pub other: Option<Edition>,
    /// The guess of `identify`.
    pub guess: Option<Guess>,
}

/// Returns the sizes of an image of an edition that begins at block `at` of a regular file. Returns `None` if the file isn't regular, or can't be read.
/// There is a guess only of a whole file.
///
/// Reads the file as far as [`guess_at`] does, and then up to the last block that its super-block records in the other edition; takes memory for one
/// of these at a time.
pub fn sizes_in<R: ImageFiles + AllocGlobal>(
    rt: &R,
    path: &str,
    at: u32,
    edition: Edition,
) -> Option<Sizes> {
    let (file, stamp) = open_stamped(rt, path).ok()?;
    if stamp.kind != FileKind::Regular {
        return None;
    }
    let guess = if at == 0 { guess_at(rt, path) } else { None };
    let other = other_edition(edition);
    let mut source = noted_reader(moved_to(rt, file, stamp, at).ok()?);
    let image = read_up_to(rt.alloc(), UpTo::Volume(other), &mut source).ok()?;
    Some(Sizes {
        blocks: (stamp.size / BLOCK as u64).saturating_sub(u64::from(at)),
        said: said_in(edition, &image),
        other: Geometry::read(other, &image).ok().map(|_| other),
        guess,
    })
}

/// Returns the number of blocks that the super-block of an image records, if it has a super-block.
fn said_in(edition: Edition, image: &Image) -> Option<u32> {
    if image.len() < HEAD {
        return None;
    }
    Some(Super { edition }.block_count(image))
}
