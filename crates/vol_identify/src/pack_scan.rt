//! A scan of a pack for its volumes, which is given the bytes of the pack piece by piece.
ghost use Rattle.std.specs.Prelude.{false, true, IsErrOf, OnErr, ◌≡◌, ◌∷◌, [], ◌+◌, ◌*◌, ◌^◌, ◌<◌, ◌≤◌, ◌++◌, ℕ, List, Some, drop, length, IfOk};
ghost use Rattle.pdp_words.specs.Words.{block_of};
ghost use Rattle.vol_identify.specs.Front.{front_at};
ghost use Rattle.vol_identify.specs.Packs.{CanLook, Fits, HasScanned, IsCutShort, IsScanned, cut_at, found_of, looked_at, parts_at_end, parts_before, parts_of, ready_of, step, through, volume_at};
ghost use Rattle.pdp_words.specs.Devices.{LosesFront};

use crate::front::{FoundVolume, begun_within, front_at, may_be_within};
use crate::guess::{Guess, by_magic, guess_image};
use pdp_words::{BLOCK, Image, Source};
use std::alloc::{AllocError, Global};
use ustar::is_zeros;

/// A part of a pack.
#[derive(Clone, Copy)]
pub enum Part {
    /// A volume, which begins at this block. The last of a pack may be cut off.
    Volume {
        block: u32,
        volume: FoundVolume,
    },
    /// Blocks that no volume has, from this block on. `zeros` is true if all their bytes are zeros.
    Between {
        block: u32,
        blocks: u32,
        zeros: bool,
    },
}

/// What is known of a pack after some of its blocks.
#[derive(Drop)]
pub(crate) struct Found {
    /// The block after the last volume.
    pub next: u32,
    /// True if all bytes from there on are zeros.
    pub zeros: bool,
    /// The volume that begins there and is cut off.
    pub cut: Option<FoundVolume>,
    /// The parts up to there.
    pub parts: Vec<Part>,
}

/// A scan of a pack.
#[derive(Drop)]
pub(crate) struct PackScan {
    /// The number of blocks in the pack.
    pub blocks: u32,
    /// The number of blocks that were looked at.
    pub at: u32,
    /// The bytes after those that it was given.
    pub window: Vec<u8>,
    /// What is known.
    pub found: Found,
}

/// The reason why a pack wasn't scanned.
#[derive(Clone, Copy)]
pub enum ScanFault {
    /// The source failed.
    Device,
    /// Out of memory.
    NoMemory,
    /// The source ended before the pack did.
    Short,
}

/// The greatest number of bytes in one read.
const PIECE: usize = 64 * 1024;

/// Returns the parts of a pack of `blocks` blocks, which are read from a source. Takes no more memory for a longer pack, but for its parts.
pub fn scan_pack<S: Source>(
    alloc: Global,
    source: &mut S,
    blocks: u32,
) -> Result<Vec<Part>, ScanFault>
    requires { S.failed source.old ≡ false }
    ensures parts { IfOk result (λ parts. IsScanned blocks (S.remaining source.old) (S.remaining source.new) parts.items) }
    ensures front { OnErr result (LosesFront (S.remaining source.old) (S.remaining source.new)) }
    ensures device { IsErrOf result ScanFault.Device → S.failed source.new ≡ true }
    ensures memory { IsErrOf result ScanFault.NoMemory → S.failed source.new ≡ false }
    ensures short { IsErrOf result ScanFault.Short → IsCutShort blocks (S.remaining source.old) (S.remaining source.new) }
{
    let mut scan = PackScan::new(alloc, blocks);
    let mut piece = [0; PIECE];
    let mut left = BLOCK * blocks as usize;
    'pieces: while left > 0 {
        let room = PIECE.min(left);
        let Ok(count) = source.read(&mut piece[..room]) else {
            return Err(ScanFault::Device);
        };
        if count == 0 {
            return Err(ScanFault::Short);
        }
        scan = match scan.feed(alloc, &piece[..count]) {
            Ok(more) => more,
            Err(_) => return Err(ScanFault::NoMemory),
        };
        left -= count;
    }
    match scan.into_parts() {
        Ok(parts) => Ok(parts),
        Err(_) => Err(ScanFault::NoMemory),
    }
}

impl PackScan {
    /// Begins a scan of a pack with so many blocks.
    fn new(alloc: Global, blocks: u32) -> PackScan
        ensures begun { HasScanned [] result }
        ensures blocks { result.blocks ≡ blocks }
    {
        PackScan {
            blocks,
            at: 0,
            window: Vec::new(alloc),
            found: Found {
                next: 0,
                zeros: true,
                cut: None,
                parts: Vec::new(alloc),
            },
        }
    }

    /// Goes on with the next bytes of the pack.
    fn feed(self, alloc: Global, bytes: &[u8]) -> Result<PackScan, AllocError>
        ensures fed { IfOk result (λ scan. (before : List ℕ) → HasScanned before self → length before + length bytes.now ≤ 512 * self.blocks → HasScanned (before ++ bytes.now) scan) }
        ensures blocks { IfOk result (λ scan. scan.blocks ≡ self.blocks) }
    {
        let mut window = self.window;
        window.extend_from_slice(bytes)?;
        let window = Image::from_bytes(window);
        let ready = ready_blocks(self.blocks, self.at, &window);
        let found = look_through(alloc, self.found, self.blocks, self.at, &window, ready)?;
        Ok(PackScan {
            blocks: self.blocks,
            at: self.at + ready,
            window: bytes_after(alloc, &window, ready)?,
            found,
        })
    }

    /// Returns the parts of the pack, of which all bytes were given.
    fn into_parts(self) -> Result<Vec<Part>, AllocError>
        ensures { IfOk result (λ parts. (pack : List ℕ) → HasScanned pack self → length pack ≡ 512 * self.blocks → parts.items ≡ parts_of self.blocks pack) }
    {
        self.found.parts_at_end(self.blocks)
    }
}

/// Returns the number of blocks that a window is enough to look at: it has two more after each of them, or the pack ends there.
fn ready_blocks(blocks: u32, at: u32, window: &Image) -> u32
    ensures ready { result ≡ ready_of blocks at window.now }
    ensures can { CanLook blocks at window.now result }
{
    let left = blocks.saturating_sub(at);
    let here = window.len() / BLOCK;
    if here < left as usize {
        here.saturating_sub(2) as u32
    } else {
        left
    }
}

/// Returns the bytes after the first `count` blocks of a window.
fn bytes_after(alloc: Global, window: &Image, count: u32) -> Result<Vec<u8>, AllocError>
    requires { 512 * count ≤ length window.now }
    ensures { IfOk result (λ bytes. bytes.items ≡ drop (512 * count) window.now) }
{
    Vec::from_slice(alloc, &window.as_bytes()[BLOCK * count as usize..])
}

/// Looks at the first `count` blocks of a window, which begins at block `at` of a pack of `blocks` blocks.
fn look_through(
    alloc: Global,
    found: Found,
    blocks: u32,
    at: u32,
    window: &Image,
    count: u32,
) -> Result<Found, AllocError>
    requires { CanLook blocks at window.now count }
    ensures { IfOk result (λ after. found_of after ≡ through blocks at window.now count (found_of found)) }
{
    let mut found = found;
    for k in 0..count {
        found = found.look(alloc, blocks, at, window, k)?;
    }
    Ok(found)
}

/// Returns the volume that begins at block `k` of a window, which begins at block `at` of a pack of `blocks` blocks.
#[tactic(auto, unfolding(crate::specs::Packs::volume_at))]
fn volume_at(
    alloc: Global,
    blocks: u32,
    at: u32,
    window: &Image,
    k: u32,
) -> Result<Option<FoundVolume>, AllocError>
    requires here { at + k < blocks }
    requires there { at + k + 3 ≤ blocks → 512 * k + 1536 ≤ length window.now }
    ensures is { IfOk result (λ volume. volume ≡ volume_at blocks (at + k) (front_at window.now k)) }
    ensures fits { IfOk result (λ volume. Fits blocks (at + k) volume) }
{
    let block = at + k;
    let room = blocks - block;
    if room < 3 {
        return Ok(None);
    }
    let front = front_at(alloc, window, k)?;
    if let Some(volume) = begun_within(&front, room as usize) {
        return Ok(Some(volume));
    }
    if block == 0 && by_magic(&front).is_none() {
        Ok(may_be_within(&front, blocks as usize))
    } else {
        Ok(None)
    }
}

/// Returns the volume that begins at block `k` of a window and is cut off, where no whole volume begins. The window begins at block `at` of a pack of
/// `blocks` blocks.
#[tactic(auto, unfolding(crate::specs::Packs::cut_at))]
fn cut_at(
    alloc: Global,
    blocks: u32,
    at: u32,
    window: &Image,
    k: u32,
) -> Result<Option<FoundVolume>, AllocError>
    requires here { at + k < blocks }
    requires there { at + k + 3 ≤ blocks → 512 * k + 1536 ≤ length window.now }
    ensures { IfOk result (λ volume. volume ≡ cut_at blocks (at + k) (front_at window.now k)) }
{
    if blocks - (at + k) < 3 {
        return Ok(None);
    }
    match guess_image(alloc, &front_at(alloc, window, k)?)? {
        Guess::CutOff { volume, .. } => Ok(Some(volume)),
        _ => Ok(None),
    }
}

impl Found {
    /// Returns what is known after block `k` of a window, which begins at block `at` of a pack of `blocks` blocks.
    #[tactic(auto, unfolding(crate::specs::Packs::step))]
    fn look(
        self,
        alloc: Global,
        blocks: u32,
        at: u32,
        window: &Image,
        k: u32,
    ) -> Result<Found, AllocError>
        requires here { at + k < blocks }
        requires block { 512 * k + 512 ≤ length window.now }
        requires there { at + k + 3 ≤ blocks → 512 * k + 1536 ≤ length window.now }
        ensures { IfOk result (λ found. found_of found ≡ step blocks (at + k) (front_at window.now k) (block_of window.now k) (found_of self)) }
    {
        let block = at + k;
        if block < self.next {
            return Ok(self);
        }
        match volume_at(alloc, blocks, at, window, k)? {
            Some(volume) => self.with_volume(block, volume),
            None => {
                let cut = if block == self.next {
                    cut_at(alloc, blocks, at, window, k)?
                } else {
                    self.cut
                };
                Ok(Found {
                    zeros: self.zeros && is_zeros(window.block(k)),
                    next: self.next,
                    cut,
                    parts: self.parts,
                })
            }
        }
    }

    /// Returns the parts up to block `k`, where a volume or the end of the pack is.
    fn parts_before(self, k: u32) -> Result<Vec<Part>, AllocError>
        ensures { IfOk result (λ parts. parts.items ≡ parts_before k (found_of self)) }
    {
        let mut parts = self.parts;
        if self.next < k {
            parts.push(Part::Between {
                block: self.next,
                blocks: k - self.next,
                zeros: self.zeros,
            })?;
        }
        Ok(parts)
    }

    /// Returns the parts of a pack of `blocks` blocks, all of which were looked at.
    fn parts_at_end(self, blocks: u32) -> Result<Vec<Part>, AllocError>
        ensures { IfOk result (λ parts. parts.items ≡ parts_at_end blocks (found_of self)) }
    {
        let Some(volume) = self.cut else {
            return self.parts_before(blocks);
        };
        let mut parts = self.parts;
        parts.push(Part::Volume {
            block: self.next,
            volume,
        })?;
        Ok(parts)
    }

    /// Returns what is known after block `k`, at which this volume begins.
    fn with_volume(self, k: u32, volume: FoundVolume) -> Result<Found, AllocError>
        requires { k + volume.blocks < 2 ^ 32 }
        ensures { IfOk result (λ found. found_of found ≡ looked_at k [] None (found_of self) (Some volume)) }
    {
        let mut parts = self.parts_before(k)?;
        parts.push(Part::Volume { block: k, volume })?;
        Ok(Found {
            next: k + volume.blocks,
            zeros: true,
            cut: None,
            parts,
        })
    }
}
