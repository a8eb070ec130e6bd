//! The guess, and what the rules say of a volume.
ghost use Rattle.std.specs.Prelude.{◌≡◌, ◌+◌, ◌*◌, ◌≤◌, length, IfOk};
ghost use Rattle.vol_identify.specs.Guesses.{IsJudgedSo, begun_whole, is_open, by_front, by_magic, cut_off, fits_in, guess_of, inside, inside_at, swapped, whole};

use crate::foreign::{Foreign, foreign_of};
use crate::front::{
    FRONT, FoundVolume, begun, begun_within, front_at, is_volume, swapped_front, volume_of,
};
use crate::magic::{Packing, is_ext2, is_tar, packing_of};
use pdp_words::{BLOCK, Image};
use std::alloc::{AllocError, Global};
use ustar::is_zeros;
use vol_judge::judge;
use vol_layout::Edition;

/// What an image seems to be.
#[derive(Clone, Copy)]
pub enum Guess {
    /// It has no bytes but zeros.
    Empty,
    /// A packed file.
    Packed(Packing),
    /// An archive of tar.
    Tar,
    /// A whole volume.
    Volume(FoundVolume),
    /// A whole volume with each pair of bytes exchanged.
    Swapped(FoundVolume),
    /// A volume of Linux's ext2 or its successors.
    Ext2,
    /// A volume of which only the first `there` blocks are there.
    CutOff { volume: FoundVolume, there: u32 },
    /// The tape or the disk of another system.
    Foreign(Foreign),
    /// A larger pack: a volume begins at this block.
    Inside { volume: FoundVolume, block: u32 },
    /// None of these.
    Unknown,
}

impl Guess {
    /// True if bytes after those of the image could change the guess: it says something of all bytes, or of the first volume in them.
    pub fn is_open(self) -> bool
        ensures { result ≡ is_open self }
    {
        matches!(self, Guess::Empty | Guess::Inside { .. } | Guess::Unknown)
    }
}

/// What an image seems to be, and whether it is sound.
#[derive(Clone, Copy)]
pub struct Identified {
    /// The guess.
    pub guess: Guess,
    /// The first rule that a whole volume breaks.
    pub broken: Option<u8>,
}

/// Guesses what an image is, which may be any bytes. Of a whole volume, also says whether it is sound.
///
/// Reads each block at most a few times, and judges a whole volume; takes the memory for that. Fails only if memory runs
/// out.
pub fn identify(alloc: Global, image: &Image) -> Result<Identified, AllocError>
    ensures guess { IfOk result (λ found. found.guess ≡ guess_of image.now) }
    ensures judged { IfOk result (λ found. IsJudgedSo image.now found.guess found.broken) }
{
    let guess = guess_image(alloc, image)?;
    let broken = match guess {
        Guess::Volume(volume) => judge(alloc, volume.edition, image, true)?,
        _ => None,
    };
    Ok(Identified { guess, broken })
}

/// Guesses what an image is: a volume that begins it; otherwise by its first bytes, or by super-blocks. Judges no volume.
#[tactic(auto, unfolding(crate::specs::Guesses::guess_of))]
pub fn guess_image(alloc: Global, image: &Image) -> Result<Guess, AllocError>
    ensures { IfOk result (λ guess. guess ≡ guess_of image.now) }
{
    if let Some(guess) = begun_whole(image) {
        return Ok(guess);
    }
    if let Some(guess) = by_magic(image) {
        return Ok(guess);
    }
    if image.len() < FRONT {
        return Ok(Guess::Unknown);
    }
    by_front(alloc, image)
}

/// Guesses a whole volume whose sizes, head of the free list and root are those of one.
#[tactic(auto, unfolding(crate::specs::Guesses::begun_whole))]
fn begun_whole(image: &Image) -> Option<Guess>
    ensures { result ≡ begun_whole image.now }
{
    if image.len() < FRONT {
        return None;
    }
    match begun_within(image, image.len() / BLOCK) {
        Some(volume) => Some(Guess::Volume(volume)),
        None => None,
    }
}

/// Guesses by the first bytes.
#[tactic(auto, unfolding(crate::specs::Guesses::by_magic))]
pub(crate) fn by_magic(image: &Image) -> Option<Guess>
    ensures { result ≡ by_magic image.now }
{
    if is_zeros(image.as_bytes()) {
        return Some(Guess::Empty);
    }
    if let Some(packing) = packing_of(image.as_bytes()) {
        return Some(Guess::Packed(packing));
    }
    if is_tar(image) {
        return Some(Guess::Tar);
    }
    None
}

/// Guesses by super-blocks.
#[tactic(auto, unfolding(crate::specs::Guesses::by_front))]
fn by_front(alloc: Global, image: &Image) -> Result<Guess, AllocError>
    requires { 1536 ≤ length image.now }
    ensures { IfOk result (λ guess. guess ≡ by_front image.now) }
{
    if let Some(guess) = whole(image) {
        return Ok(guess);
    }
    if let Some(guess) = swapped(alloc, image)? {
        return Ok(guess);
    }
    if is_ext2(image) {
        return Ok(Guess::Ext2);
    }
    if let Some(guess) = cut_off(image) {
        return Ok(guess);
    }
    if let Some(foreign) = foreign_of(image) {
        return Ok(Guess::Foreign(foreign));
    }
    Ok(inside(alloc, image)?.unwrap_or(Guess::Unknown))
}

/// Guesses a whole volume, the sixth edition first.
#[tactic(auto, unfolding(crate::specs::Guesses::whole))]
fn whole(image: &Image) -> Option<Guess>
    requires { 1536 ≤ length image.now }
    ensures { result ≡ whole image.now }
{
    if is_volume(Edition::V6, image) {
        Some(Guess::Volume(volume_of(Edition::V6, image)))
    } else if is_volume(Edition::V7, image) {
        Some(Guess::Volume(volume_of(Edition::V7, image)))
    } else {
        None
    }
}

/// Guesses a whole volume with each pair of bytes exchanged.
#[tactic(auto, unfolding(crate::specs::Guesses::swapped))]
fn swapped(alloc: Global, image: &Image) -> Result<Option<Guess>, AllocError>
    requires { 1536 ≤ length image.now }
    ensures { IfOk result (λ guess. guess ≡ swapped image.now) }
{
    let front = swapped_front(alloc, image)?;
    match begun(&front) {
        Some(volume) if fits_in(volume, image.len()) => Ok(Some(Guess::Swapped(volume))),
        _ => Ok(None),
    }
}

/// Guesses a volume that is cut off.
#[tactic(auto, unfolding(crate::specs::Guesses::cut_off))]
fn cut_off(image: &Image) -> Option<Guess>
    requires { 1536 ≤ length image.now }
    ensures { result ≡ cut_off image.now }
{
    match begun(image) {
        Some(volume) => Some(Guess::CutOff {
            volume,
            there: image.blocks(),
        }),
        None => None,
    }
}

/// Guesses a larger pack, by the first block after block 0 at which a whole volume begins.
#[tactic(auto, unfolding(crate::specs::Guesses::inside, crate::specs::Guesses::inside_from))]
fn inside(alloc: Global, image: &Image) -> Result<Option<Guess>, AllocError>
    ensures { IfOk result (λ guess. guess ≡ inside image.now) }
{
    let blocks = image.blocks();
    for k in 1..blocks.saturating_sub(2) {
        if let Some(guess) = inside_at(alloc, image, k)? {
            return Ok(Some(guess));
        }
    }
    Ok(None)
}

/// Guesses a larger pack, if a whole volume begins at block `k`.
#[tactic(auto, unfolding(crate::specs::Guesses::inside_at))]
fn inside_at(alloc: Global, image: &Image, k: u32) -> Result<Option<Guess>, AllocError>
    requires { 512 * k + 1536 ≤ length image.now }
    ensures { IfOk result (λ guess. guess ≡ inside_at image.now k) }
{
    let front = front_at(alloc, image, k)?;
    match begun(&front) {
        Some(volume) if fits_in(volume, image.len() - BLOCK * k as usize) => {
            Ok(Some(Guess::Inside { volume, block: k }))
        }
        _ => Ok(None),
    }
}

/// True if so many bytes have all blocks of a volume.
fn fits_in(volume: FoundVolume, bytes: usize) -> bool
    ensures { result ≡ fits_in volume bytes }
{
    BLOCK * volume.blocks as usize <= bytes
}
