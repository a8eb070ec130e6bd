//! Finds what a catalogue has of a file: its SHA-256, and its volumes with what is counted in them.
ghost use Rattle.std.specs.Prelude.{◌≡◌, ◌++◌, IfOk, List, OnOk, false, length, ℕ};
ghost use Rattle.std.specs.Io.KnownBytes.{Consumes};
ghost use Rattle.host_files.specs.ReadParts.{IsReadUpTo};
ghost use Rattle.sha2.specs.Sha256.{sha256};
ghost use Rattle.vol_catalogue.specs.Facts.{AreFacts};
ghost use Rattle.vol_identify.specs.Packs.{IsScanned};
ghost use Rattle.vol_identify.specs.declared.pack_scan.Part.{Part};
ghost use Rattle.vol_catalogue.specs.declared.rows.ListedVolume.{ListedVolume};
ghost use Rattle.pack_files.specs.Catalogued.{AreListed, AreParts, GaveFacts, IsListedPart, IsSummed};

use crate::judged_packs::{PackFault, blocks_in, is_regular, scanned_parts};
use host_files::{
    FrontFault, ImageFiles, MoveFault, Stamp, UpTo, moved_to, noted_reader, open_stamped,
    read_up_to,
};
use pdp_words::Source;
use sha2::{Digest, Sha256};
use std::alloc::Global;
use std::io::{self, Read};
use vol_catalogue::{FileFacts, ListedVolume, VolumeFacts, facts_of};
use vol_identify::{FoundVolume, Part};
use vol_layout::Edition;

/// The message for a file that isn't regular.
const IRREGULAR: &str = "it is no regular file, and a catalogue reads it more than once";

/// The message for a file that has changed while it was read.
const CHANGED: &str = "it has changed while it was read";

/// The greatest number of bytes in one read.
const PIECE: usize = 16 * 1024;

/// What a catalogue has of a file.
#[derive(Drop)]
pub struct Catalogued {
    /// Its size and its SHA-256.
    pub file: FileFacts,
    /// Its volumes, in order.
    pub volumes: Vec<ListedVolume>,
}

/// Returns the size and the SHA-256 of a regular file, and its volumes with what is counted in them.
///
/// Reads the file to its end twice, and then each volume again; takes memory for one volume at a time.
pub fn catalogued_file<R: ImageFiles + AllocGlobal>(
    rt: &R,
    path: &str,
) -> Result<Catalogued, PackFault>
    ensures file { IfOk result (λ found. IsSummed R.File.remaining R.had found.file) }
    ensures volumes { IfOk result (λ found. (parts : List Part) × AreParts R.File.remaining R.had parts × AreListed R.File.remaining parts found.volumes.items) }
{
    let summed = summed_file(rt, path)?;
    let parts = parts_in(rt, path, summed.stamp)?;
    let volumes = listed_volumes(rt, path, &parts)?;
    Ok(Catalogued {
        file: summed.facts,
        volumes,
    })
}

/// A file whose SHA-256 was computed.
#[derive(Clone, Copy)]
struct SummedFile {
    stamp: Stamp,
    facts: FileFacts,
}

/// Returns the stamp of a regular file, its size and its SHA-256. Anything else isn't opened.
fn summed_file<R: ImageFiles + AllocGlobal>(rt: &R, path: &str) -> Result<SummedFile, PackFault>
    ensures { IfOk result (λ summed. IsSummed R.File.remaining R.had summed.facts) }
{
    match rt.stamp_at(path) {
        Ok(stamp) if is_regular(stamp) => opened_sum(rt, path),
        Ok(_) => Err(PackFault::Unread(Some(io::Error::other(IRREGULAR)))),
        Err(why) => Err(PackFault::Unread(Some(why))),
    }
}

/// Opens a file, and returns its stamp, its size and its SHA-256.
fn opened_sum<R: ImageFiles + AllocGlobal>(rt: &R, path: &str) -> Result<SummedFile, PackFault>
    ensures { IfOk result (λ summed. IsSummed R.File.remaining R.had summed.facts) }
{
    match open_stamped(rt, path) {
        Ok((file, stamp)) => {
            let sum = file_sum(file, stamp.size)?;
            let facts = FileFacts {
                size: stamp.size,
                sum,
            };
            Ok(SummedFile { stamp, facts })
        }
        Err(why) => Err(PackFault::Unread(Some(why))),
    }
}

/// Returns the SHA-256 of the first `size` bytes of an open file.
fn file_sum<F: Read + Drop>(file: F, size: u64) -> Result<[u8; 32], PackFault>
    ensures { IfOk result (λ sum. (new : F) × (bytes : List ℕ) × Consumes (F.remaining file) (F.remaining new) bytes × (length bytes ≡ size) × (sum ≡ sha256 bytes)) }
{
    let mut source = noted_reader(file);
    match source_sum(&mut source, size) {
        Ok(sum) => Ok(sum),
        Err(SumFault::Short) => Err(PackFault::Short),
        Err(SumFault::Device) => Err(PackFault::Unread(source.error())),
    }
}

/// The reason why there is no SHA-256 of a source.
#[derive(Clone, Copy)]
enum SumFault {
    /// The source failed.
    Device,
    /// The source ended before it had all bytes.
    Short,
}

/// Returns the SHA-256 of the next `size` bytes of a source.
fn source_sum<S: Source>(source: &mut S, size: u64) -> Result<[u8; 32], SumFault>
    requires { S.failed source.old ≡ false }
    ensures { IfOk result (λ sum. (bytes : List ℕ) × Consumes (S.remaining source.old) (S.remaining source.new) bytes × (length bytes ≡ size) × (sum ≡ sha256 bytes)) }
{
    let mut hasher = Sha256::new();
    let mut piece = [0; PIECE];
    let mut left = size as usize;
    'pieces: while left > 0 {
        let room = PIECE.min(left);
        let Ok(count) = source.read(&mut piece[..room]) else {
            return Err(SumFault::Device);
        };
        if count == 0 {
            return Err(SumFault::Short);
        }
        hasher.update(&piece[..count]);
        left -= count;
    }
    Ok(hasher.finalize())
}

/// Returns the parts of the pack in a regular file. The file must still have the stamp `summed`.
fn parts_in<R: ImageFiles + AllocGlobal>(
    rt: &R,
    path: &str,
    summed: Stamp,
) -> Result<Vec<Part>, PackFault>
    ensures { IfOk result (λ parts. AreParts R.File.remaining R.had parts.items) }
{
    match open_stamped(rt, path) {
        Ok((_, stamp)) if stamp != summed => {
            Err(PackFault::Unread(Some(io::Error::other(CHANGED))))
        }
        Ok((file, stamp)) => scanned_file(rt.alloc(), file, blocks_in(stamp.size)),
        Err(why) => Err(PackFault::Unread(Some(why))),
    }
}

/// Returns the parts of the pack of `blocks` blocks in an open file.
fn scanned_file<F: Read + Drop>(alloc: Global, file: F, blocks: u32) -> Result<Vec<Part>, PackFault>
    ensures { IfOk result (λ parts. (new : F) × IsScanned blocks (F.remaining file) (F.remaining new) parts.items) }
{
    let mut source = noted_reader(file);
    match scanned_parts(alloc, &mut source, blocks)? {
        Some(parts) => Ok(parts),
        None => Err(PackFault::Short),
    }
}

/// Returns the volumes among the parts of the file at `path`, with what is counted in them.
fn listed_volumes<R: ImageFiles + AllocGlobal>(
    rt: &R,
    path: &str,
    parts: &[Part],
) -> Result<Vec<ListedVolume>, PackFault>
    ensures { IfOk result (λ listed. AreListed R.File.remaining parts.now listed.items) }
{
    let mut listed = Vec::new(rt.alloc());
    'parts: for part in parts {
        push_listed(rt, path, *part, &mut listed)?;
    }
    Ok(listed)
}

/// Appends a part of the file at `path`, with what is counted in it, if it is a volume.
fn push_listed<R: ImageFiles + AllocGlobal>(
    rt: &R,
    path: &str,
    part: Part,
    listed: &mut Vec<ListedVolume>,
) -> Result<(), PackFault>
    ensures { OnOk result ((more : List ListedVolume) × IsListedPart R.File.remaining part more × (listed.new.items ≡ listed.old.items ++ more)) }
{
    let Part::Volume { block, volume } = part else {
        return Ok(());
    };
    let one = listed_at(rt, path, block, volume)?;
    match listed.push(one) {
        Ok(()) => Ok(()),
        Err(_) => Err(PackFault::NoMemory),
    }
}

/// Returns the volume at a block of the file at `path`, with what is counted in it.
fn listed_at<R: ImageFiles + AllocGlobal>(
    rt: &R,
    path: &str,
    block: u32,
    volume: FoundVolume,
) -> Result<ListedVolume, PackFault>
    ensures block { IfOk result (λ listed. listed.block ≡ block) }
    ensures volume { IfOk result (λ listed. listed.volume ≡ volume) }
    ensures facts { IfOk result (λ listed. GaveFacts R.File.remaining block volume.edition listed.facts) }
{
    let (file, stamp) = match open_stamped(rt, path) {
        Ok(opened) => opened,
        Err(why) => return Err(PackFault::Unread(Some(why))),
    };
    let facts = match moved_to(rt, file, stamp, block) {
        Ok(moved) => facts_in(rt.alloc(), volume.edition, moved)?,
        Err(MoveFault::Short) => return Err(PackFault::Short),
        Err(MoveFault::Unread(why)) => return Err(PackFault::Unread(Some(why))),
    };
    Ok(ListedVolume {
        block,
        volume,
        facts,
    })
}

/// Returns what is counted in the volume of an edition in an open file.
fn facts_in<F: Read + Drop>(
    alloc: Global,
    edition: Edition,
    file: F,
) -> Result<VolumeFacts, PackFault>
    ensures { IfOk result (λ facts. (new : F) × (bytes : List ℕ) × IsReadUpTo (UpTo.Volume edition) (F.remaining file) (F.remaining new) bytes
        × AreFacts edition bytes facts) }
{
    let mut source = noted_reader(file);
    match read_up_to(alloc, UpTo::Volume(edition), &mut source) {
        Ok(image) => match facts_of(alloc, edition, &image) {
            Ok(facts) => Ok(facts),
            Err(_) => Err(PackFault::NoMemory),
        },
        Err(FrontFault::NoMemory) => Err(PackFault::NoMemory),
        Err(FrontFault::Device | FrontFault::Endless) => { Err(PackFault::Unread(source.error())) }
    }
}
