//! Finds the volumes of the pack in a file, and judges them one at a time.
ghost use Rattle.std.specs.Prelude.{◌≡◌, false, true, IfOk, List, ℕ};
ghost use Rattle.host_files.specs.ReadParts.{IsReadUpTo};
ghost use Rattle.vol_judge.specs.Sound.{IsJudged};
ghost use Rattle.pack_files.specs.PackFiles.{AreJudged, AreScanned, FindsPack, GivesPack, IsFound, IsJudgedAt, IsOpenedFound, IsPartJudged, blocks_in, is_regular};

use host_files::{
    FileKind, FrontFault, ImageFiles, MoveFault, Noted, Stamp, UpTo, moved_to, noted_reader,
    open_stamped, read_up_to,
};
use pdp_words::{BLOCK, Source};
use std::alloc::Global;
use std::io::{self, Read};
use vol_identify::{JudgedPart, Part, ScanFault, is_pack, scan_pack};
use vol_judge::judge;
use vol_layout::Edition;

/// The reason why a pack wasn't found and judged.
#[derive(Clone, Copy)]
pub enum PackFault {
    /// The file can't be read: the system's error, if there was one.
    Unread(Option<io::Error>),
    /// The file ends before the block that is wanted.
    Short,
    /// Out of memory.
    NoMemory,
}

/// Returns the parts of the pack in a file, with the first rule that each volume breaks. Returns `None` if no volume begins after block 0 and nothing but zeros
/// follows one, or if it isn't a regular file, which isn't opened.
///
/// Reads the file to its end, and then each volume again; takes memory for one volume at a time.
pub fn judged_pack<R: ImageFiles + AllocGlobal>(
    rt: &R,
    path: &str,
) -> Result<Option<Vec<JudgedPart>>, PackFault>
    ensures { IfOk result (GivesPack R.File.remaining R.had R.stood) }
{
    match pack_at(rt, path)? {
        Some(parts) => Ok(Some(judged_parts(rt, path, &parts)?)),
        None => Ok(None),
    }
}

/// Returns the parts of the pack in a file, unless it isn't one.
fn pack_at<R: ImageFiles + AllocGlobal>(rt: &R, path: &str) -> Result<Option<Vec<Part>>, PackFault>
    ensures { IfOk result (FindsPack R.File.remaining R.had R.stood) }
{
    match rt.stamp_at(path) {
        Ok(stamp) => {
            if is_regular(stamp) {
                opened_pack(rt, path)
            } else {
                Ok(None)
            }
        }
        Err(why) => Err(PackFault::Unread(Some(why))),
    }
}

/// Opens a file, and returns the parts of the pack in it, unless it isn't one.
fn opened_pack<R: ImageFiles + AllocGlobal>(
    rt: &R,
    path: &str,
) -> Result<Option<Vec<Part>>, PackFault>
    ensures { IfOk result (IsOpenedFound R.File.remaining R.had) }
{
    match open_stamped(rt, path) {
        Ok((file, stamp)) => {
            if is_regular(stamp) {
                scan_file(rt.alloc(), file, blocks_in(stamp.size))
            } else {
                Ok(None)
            }
        }
        Err(why) => Err(PackFault::Unread(Some(why))),
    }
}

/// True if a stamp is that of a regular file.
pub(crate) fn is_regular(stamp: Stamp) -> bool
    ensures { result ≡ is_regular stamp.kind }
{
    matches!(stamp.kind, FileKind::Regular)
}

/// Returns the number of whole blocks in a file of so many bytes, but at most 2^32 - 1.
pub fn blocks_in(size: u64) -> u32
    ensures { result ≡ blocks_in size }
{
    (size / BLOCK as u64).min(u64::from(u32::MAX)) as u32
}

/// Returns the parts of the pack of `blocks` blocks in an open file, unless it isn't one.
fn scan_file<F: Read + Drop>(
    alloc: Global,
    file: F,
    blocks: u32,
) -> Result<Option<Vec<Part>>, PackFault>
    ensures { IfOk result (λ found. (new : F) × IsFound blocks (F.remaining file) (F.remaining new) found) }
{
    let mut source = noted_reader(file);
    scan_source(alloc, &mut source, blocks)
}

/// Returns the parts of the pack of `blocks` blocks that a source gives, unless it isn't one.
fn scan_source<S: Source>(
    alloc: Global,
    source: &mut Noted<S>,
    blocks: u32,
) -> Result<Option<Vec<Part>>, PackFault>
    requires { ⟦<Noted<S> as Source>⟧.failed source.old ≡ false }
    ensures { IfOk result (IsFound blocks (⟦<Noted<S> as Source>⟧.remaining source.old) (⟦<Noted<S> as Source>⟧.remaining source.new)) }
{
    match scanned_parts(alloc, source, blocks)? {
        Some(parts) => {
            if is_pack(&parts) {
                Ok(Some(parts))
            } else {
                Ok(None)
            }
        }
        None => Ok(None),
    }
}

/// Returns the parts of the pack of `blocks` blocks that a source gives. Returns `None` if the source ends before it has so many.
pub(crate) fn scanned_parts<S: Source>(
    alloc: Global,
    source: &mut Noted<S>,
    blocks: u32,
) -> Result<Option<Vec<Part>>, PackFault>
    requires { ⟦<Noted<S> as Source>⟧.failed source.old ≡ false }
    ensures { IfOk result (AreScanned blocks (⟦<Noted<S> as Source>⟧.remaining source.old) (⟦<Noted<S> as Source>⟧.remaining source.new)) }
{
    match scan_pack(alloc, source, blocks) {
        Ok(parts) => Ok(Some(parts)),
        Err(ScanFault::Short) => Ok(None),
        Err(ScanFault::Device) => Err(PackFault::Unread(source.error())),
        Err(ScanFault::NoMemory) => Err(PackFault::NoMemory),
    }
}

/// Judges the volumes of a pack in the file at `path`, one at a time.
fn judged_parts<R: ImageFiles + AllocGlobal>(
    rt: &R,
    path: &str,
    parts: &[Part],
) -> Result<Vec<JudgedPart>, PackFault>
    ensures { IfOk result (λ judged. AreJudged R.File.remaining parts.now judged.items) }
{
    let mut judged = Vec::new(rt.alloc());
    'parts: for part in parts {
        let one = judged_part(rt, path, *part)?;
        let Ok(()) = judged.push(one) else {
            return Err(PackFault::NoMemory);
        };
    }
    Ok(judged)
}

/// Judges a part of the pack in the file at `path`, if it is a volume.
fn judged_part<R: ImageFiles + AllocGlobal>(
    rt: &R,
    path: &str,
    part: Part,
) -> Result<JudgedPart, PackFault>
    ensures part { IfOk result (λ one. one.part ≡ part) }
    ensures judged { IfOk result (λ one. IsPartJudged R.File.remaining part one.broken) }
{
    match part {
        Part::Volume { block, volume } => {
            let broken = judged_at(rt, path, block, volume.edition)?;
            Ok(JudgedPart { part, broken })
        }
        Part::Between { .. } => Ok(JudgedPart { part, broken: None }),
    }
}

/// Returns the first rule that the volume of an edition at block `at` of a file breaks.
pub(crate) fn judged_at<R: ImageFiles + AllocGlobal>(
    rt: &R,
    path: &str,
    at: u32,
    edition: Edition,
) -> Result<Option<u8>, PackFault>
    ensures { IfOk result (IsJudgedAt R.File.remaining at edition) }
{
    let (file, stamp) = match open_stamped(rt, path) {
        Ok(opened) => opened,
        Err(why) => return Err(PackFault::Unread(Some(why))),
    };
    match moved_to(rt, file, stamp, at) {
        Ok(moved) => judge_file(rt.alloc(), edition, moved),
        Err(MoveFault::Short) => Err(PackFault::Short),
        Err(MoveFault::Unread(why)) => Err(PackFault::Unread(Some(why))),
    }
}

/// Returns the first rule that the volume of an edition in an open file breaks.
fn judge_file<F: Read + Drop>(
    alloc: Global,
    edition: Edition,
    file: F,
) -> Result<Option<u8>, PackFault>
    ensures { IfOk result (λ broken. (new : F) × (bytes : List ℕ) × IsReadUpTo (UpTo.Volume edition) (F.remaining file) (F.remaining new) bytes
        × IsJudged true edition bytes broken) }
{
    let mut source = noted_reader(file);
    match read_up_to(alloc, UpTo::Volume(edition), &mut source) {
        Ok(image) => match judge(alloc, edition, &image, true) {
            Ok(broken) => Ok(broken),
            Err(_) => Err(PackFault::NoMemory),
        },
        Err(FrontFault::NoMemory) => Err(PackFault::NoMemory),
        Err(FrontFault::Device | FrontFault::Endless) => { Err(PackFault::Unread(source.error())) }
    }
}
