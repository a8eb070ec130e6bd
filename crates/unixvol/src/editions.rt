//! Finds the edition of a volume for the word `any`: the one of which it is sound.
ghost use Rattle.std.specs.Prelude.{IfErr, IfOk, Some, map, string_bytes};
ghost use Rattle.pack_files.specs.Verdicts.{AreVerdicts, only_sound};
ghost use Rattle.pack_files.specs.declared.verdicts.Verdicts.{Verdicts};
ghost use Rattle.unixvol.specs.FileFaults.{file_status};
ghost use Rattle.unixvol.specs.Editions.{IsFault, IsFoundEdition, IsSettled, IsVolumeSettled, ReadsSettled};

use crate::explain::reason_of;
use crate::file_fault::{FileFault, NamedFile};
use crate::meanings::shown;
use clap::Error;
use command_line::{Invocation, VolumeFile};
use host_files::{FileKind, ImageFiles};
use identify_lines::file_word;
use pack_files::{PackFault, Verdicts, judge_twice};
use std::alloc::{AllocError, Global};
use std::io;
use vol_layout::Edition;

/// The message for a pipe.
const PIPE: &str = "it can be read only once: write 6 or 7 for any";

/// Reads the words of the command line, and finds the edition of the volume if they leave it open.
pub fn read_settled<'a, R: ImageFiles + AllocGlobal>(
    rt: &R,
    clock: Option<u32>,
    words: &'a [String],
) -> Result<Result<Invocation<'a>, Error>, FileFault<'a>>
    ensures read { IfOk result (ReadsSettled R.File.remaining clock (map string_bytes words.entry.now)) }
    ensures fault { IfErr result (λ fault. IsFault (file_status fault)) }
{
    match command_line::read(rt.alloc(), clock, words) {
        Ok(asked) => Ok(Ok(settle(rt, asked)?)),
        Err(error) => Ok(Err(error)),
    }
}

/// Returns a command with the edition of its volume found, if its words leave that open; else the command itself.
fn settle<'a, R: ImageFiles + AllocGlobal>(
    rt: &R,
    asked: Invocation<'a>,
) -> Result<Invocation<'a>, FileFault<'a>>
    ensures settled { IfOk result (IsSettled R.File.remaining asked.entry) }
    ensures fault { IfErr result (λ fault. IsFault (file_status fault)) }
{
    match asked.volume() {
        Some(volume) => {
            let found = settled_volume(rt, volume)?;
            Ok(asked.with_volume(found))
        }
        None => Ok(asked),
    }
}

/// Returns a volume with its edition found, if that is open.
fn settled_volume<'a, R: ImageFiles + AllocGlobal>(
    rt: &R,
    volume: VolumeFile<'a>,
) -> Result<VolumeFile<'a>, FileFault<'a>>
    ensures settled { IfOk result (IsVolumeSettled R.File.remaining volume.entry) }
    ensures fault { IfErr result (λ fault. IsFault (file_status fault)) }
{
    if !volume.is_any {
        return Ok(volume);
    }
    let edition = found_edition(rt, volume)?;
    Ok(VolumeFile {
        edition,
        is_any: false,
        ..volume
    })
}

/// Returns the edition of which the volume in a file is sound, unless it is sound as one of neither or of both.
fn found_edition<'a, R: ImageFiles + AllocGlobal>(
    rt: &R,
    volume: VolumeFile<'a>,
) -> Result<Edition, FileFault<'a>>
    ensures found { IfOk result (IsFoundEdition R.File.remaining volume.entry.at) }
    ensures fault { IfErr result (λ fault. IsFault (file_status fault)) }
{
    let named = NamedFile::File(volume.image);
    if is_stream(rt, volume.image) {
        return Err(FileFault::Unread(named, io::Error::other(PIPE)));
    }
    let verdicts = match judge_twice(rt, volume.image, volume.at) {
        Ok(verdicts) => verdicts,
        Err(PackFault::Short) => return Err(FileFault::Short(volume.image, volume.at)),
        Err(PackFault::Unread(why)) => return Err(FileFault::Unread(named, reason_of(why))),
        Err(PackFault::NoMemory) => return Err(FileFault::NoMemory),
    };
    match verdicts.only_sound() {
        Some(edition) => Ok(edition),
        None => Err(FileFault::Ambiguous(volume, verdicts)),
    }
}

/// True if a file is a pipe or a socket, which can be read only once.
fn is_stream<R: ImageFiles>(rt: &R, path: &str) -> bool {
    match rt.stamp_at(path) {
        Ok(stamp) => stamp.kind == FileKind::Stream,
        Err(_) => false,
    }
}

/// Returns the second line for a volume that is sound as one of neither edition, or of both.
pub fn ambiguous_words(
    alloc: Global,
    volume: VolumeFile<'_>,
    verdicts: Verdicts,
) -> Result<String, AllocError> {
    let name = shown(alloc, volume.image)?;
    match (verdicts.sixth, verdicts.seventh) {
        (Some(sixth), Some(seventh)) => {
            let word = file_word(alloc, volume.image)?;
            format!(in alloc;
                "{name}: it breaks rule {sixth} as one of the sixth edition, and rule {seventh} as one of the seventh: write 6 or 7 for any; `unixvol identify {word}` guesses which"
            )
        }
        _ => format!(in alloc; "{name}: write 6 or 7 for any"),
    }
}
