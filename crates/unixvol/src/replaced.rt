//! The contents of a file before it is replaced.
use crate::host::Surroundings;
use crate::meanings::shown;
use host_files::{FileKind, ImageFiles, UpTo, noted_reader, read_up_to};
use pdp_words::{BLOCK, Image};
use std::alloc::AllocError;
use std::{fmt, fs};
use vol_catalogue::file_count;
use vol_findings::edition_number;
use vol_layout::{Edition, Geometry};
use vol_volume::judge;

/// The contents of a file.
#[derive(Clone, Copy)]
pub enum Held {
    /// A volume.
    Volume(HeldVolume),
    /// This number of bytes, which don't begin with a volume.
    Bytes(usize),
}

/// A volume in a file.
#[derive(Clone, Copy)]
pub struct HeldVolume {
    /// Its edition.
    edition: Edition,
    /// True if all twelve rules hold.
    is_sound: bool,
    /// The number of its regular files.
    files: u16,
    /// The number of bytes after it.
    rest: usize,
}

/// Returns the contents of the regular file at a path, so that a message can describe them once the file is replaced. Returns `None` if nobody reads
/// the message, if there is no such file, or if it can't be read.
///
/// Reads the whole file, and takes memory for it and for judging whether a volume is sound.
pub fn held_at<R: ImageFiles + AllocGlobal>(
    host: &Surroundings<'_, R>,
    path: &str,
) -> Option<Held> {
    if !host.is_watched {
        return None;
    }
    let stamp = host.rt.stamp_at(path).ok()?;
    if stamp.kind != FileKind::Regular {
        return None;
    }
    let mut source = noted_reader(fs::open(host.rt, path).ok()?);
    let image = read_up_to(host.rt.alloc(), UpTo::End, &mut source).ok()?;
    held_in(host, &image).ok()
}

/// Describes the contents of a file. If they are a volume of either edition, prefers the sound one.
fn held_in<R: AllocGlobal>(host: &Surroundings<'_, R>, image: &Image) -> Result<Held, AllocError> {
    let sixth = volume_in(host, Edition::V6, image)?;
    let seventh = volume_in(host, Edition::V7, image)?;
    Ok(match (sixth, seventh) {
        (Some(sixth), Some(seventh)) => Held::Volume(sixth.or_sound(seventh)),
        (Some(sixth), None) => Held::Volume(sixth),
        (None, Some(seventh)) => Held::Volume(seventh),
        (None, None) => Held::Bytes(image.len()),
    })
}

/// Writes what the volume is, and how many bytes are after it.
impl fmt::Display for HeldVolume {
    fn fmt<W: fmt::Write>(&self, f: &mut fmt::Formatter<W>) -> fmt::Result {
        let sound = if self.is_sound {
            "a sound"
        } else {
            "an unsound"
        };
        let number = edition_number(self.edition);
        let files = self.files;
        let word = if files == 1 { "file" } else { "files" };
        write!(f, "{sound} volume of edition {number} with {files} {word}")?;
        match self.rest {
            0 => Ok(()),
            rest => write!(f, ", and {rest} bytes after it"),
        }
    }
}

impl HeldVolume {
    /// Returns the other volume if it is sound, else this one.
    fn or_sound(self, other: HeldVolume) -> HeldVolume {
        if other.is_sound { other } else { self }
    }
}

/// Returns the volume of an edition in some bytes, if they keep rules 1 and 2.
fn volume_in<R: AllocGlobal>(
    host: &Surroundings<'_, R>,
    edition: Edition,
    image: &Image,
) -> Result<Option<HeldVolume>, AllocError> {
    let Ok(geometry) = Geometry::read(edition, image) else {
        return Ok(None);
    };
    let is_sound = judge(host.rt.alloc(), edition, image, true)?.is_none();
    let files = file_count(image, &geometry);
    let rest = image
        .len()
        .saturating_sub(BLOCK * geometry.zone_end as usize);
    Ok(Some(HeldVolume {
        edition,
        is_sound,
        files,
        rest,
    }))
}

/// Prints the old contents of a file that was replaced, if they are available.
pub fn tell_replaced<R: Eprint + AllocGlobal>(
    host: &Surroundings<'_, R>,
    path: &str,
    held: Option<Held>,
) {
    if let Some(held) = held {
        tell_held(host, path, held);
    }
}

/// Prints the old contents of a file.
fn tell_held<R: Eprint + AllocGlobal>(host: &Surroundings<'_, R>, path: &str, held: Held) {
    let Ok(name) = shown(host.rt.alloc(), path) else {
        return;
    };
    let _ = match held {
        Held::Volume(volume) => eprintln!(host.rt; "unixvol: {name}: it held {volume}"),
        Held::Bytes(count) => {
            eprintln!(host.rt; "unixvol: {name}: it held {count} bytes, with no volume at block 0")
        }
    };
}
