//! Rescues the image of a served volume that can't be saved in its file at the end: it is written to another file.
ghost use Rattle.std.specs.Prelude.{◌≡◌, IfErr, IfOk, OnOk, false, true};
ghost use Rattle.host_files.specs.Save.{IsTaken};
ghost use Rattle.unixvol.specs.FileFaults.{file_status};

use crate::explain::tell_why;
use crate::file_fault::{FileFault, NamedFile};
use crate::host::Surroundings;
use host_files::{Content, ImageFiles, save_apart};
use pdp_words::Image;
use std::env::{self, Env};
use std::io::{self, ErrorKind};
use std::path::Path;

/// The number of names that are tried in a folder.
const TRIES: u32 = 1000;

/// The folder for files that don't stay, if the variable TMPDIR names none.
const TEMPORARY: &str = "/tmp";

/// The message for a file that exists before the volume is served.
const THERE: &str = "it is there already, and --rescue replaces no file";

/// The message if all names of files in a folder are in use.
const NO_NAME: &str = "IMAGE.unixvol-rescue-0 to IMAGE.unixvol-rescue-999 are all there";

/// Checks that nothing exists at the path for a rescue, if one is named.
pub fn expect_free<'a, R: ImageFiles>(rt: &R, rescue: Option<&'a str>) -> Result<(), FileFault<'a>>
    ensures { IfErr result (λ fault. file_status fault ≡ 3) }
{
    match rescue {
        Some(path) if rt.is_there(path) => {
            let why = io::Error::other(THERE);
            Err(FileFault::Unwritten(NamedFile::File(path), why))
        }
        _ => Ok(()),
    }
}

/// Writes an image to a new file that only its owner may use, and prints where it is, or that it couldn't be written. The file is the one named for a
/// rescue; or, if none is named or it can't be written, one beside the file `path`; or one in the folder for files that don't stay. True if the image
/// was written.
pub fn rescue<R: ImageFiles + Env + Eprint + AllocGlobal>(
    host: &Surroundings<'_, R>,
    path: &str,
    rescue: Option<&str>,
    image: &Image,
) -> bool
    ensures { result ≡ true → IsTaken R.File.contents image.now }
{
    if let Some(place) = rescue {
        match write_image(host, place, image) {
            Ok(()) => return tell_place(host, path, place),
            Err(why) => tell_why(host, NamedFile::File(place), why),
        }
    }
    match save_unasked(host, path, image) {
        Ok(place) => tell_place(host, path, place.as_str()),
        Err(why) => tell_loss(host, path, why),
    }
}

/// Prints where the image of a served volume is that couldn't be saved in the file `path`.
fn tell_place<R: Eprint>(host: &Surroundings<'_, R>, path: &str, place: &str) -> bool
    ensures { result ≡ true }
{
    let _ = eprintln!(host.rt; "unixvol: {path}: not saved; the volume is in {place}");
    true
}

/// Prints that the image of a served volume couldn't be written to any file.
fn tell_loss<R: Eprint + AllocGlobal>(
    host: &Surroundings<'_, R>,
    path: &str,
    why: io::Error,
) -> bool
    ensures { result ≡ false }
{
    let _ = eprintln!(host.rt; "unixvol: {path}: not saved, and nowhere else: changes are lost");
    tell_why(host, NamedFile::File(path), why);
    false
}

/// Writes an image to a new file beside the file `path`, or else to one in the folder for files that don't stay, and returns its path.
fn save_unasked<R: ImageFiles + Env + Eprint + AllocGlobal>(
    host: &Surroundings<'_, R>,
    path: &str,
    image: &Image,
) -> io::Result<String>
    ensures { IfOk result (λ _. IsTaken R.File.contents image.now) }
{
    match save_numbered(host, path, image) {
        Ok(place) => return Ok(place),
        Err(why) => tell_why(host, NamedFile::File(path), why),
    }
    let folder = match env::var(host.rt, "TMPDIR") {
        Ok(folder) if !folder.is_empty() => folder,
        _ => String::from_str(host.rt.alloc(), TEMPORARY)?,
    };
    let name = Path::new(path).file_name().unwrap_or("image");
    let stem = Path::new(folder.as_str()).join(host.rt.alloc(), name)?;
    save_numbered(host, stem.as_path().as_str(), image)
}

/// Writes an image to a new file whose name is that of `path` with `.unixvol-rescue-` and the least number that is free, and returns its path.
fn save_numbered<R: ImageFiles + AllocGlobal>(
    host: &Surroundings<'_, R>,
    path: &str,
    image: &Image,
) -> io::Result<String>
    ensures { IfOk result (λ _. IsTaken R.File.contents image.now) }
{
    for number in 0..TRIES {
        let place = format!(in host.rt.alloc(); "{path}.unixvol-rescue-{number}")?;
        match write_image(host, place.as_str(), image) {
            Err(why) if why.kind() == ErrorKind::AlreadyExists => {}
            Err(why) => return Err(why),
            Ok(()) => return Ok(place),
        }
    }
    Err(io::Error::new(ErrorKind::AlreadyExists, NO_NAME))
}

/// Writes an image to a new file at `place`.
fn write_image<R: ImageFiles + AllocGlobal>(
    host: &Surroundings<'_, R>,
    place: &str,
    image: &Image,
) -> io::Result<()>
    ensures { OnOk result (IsTaken R.File.contents image.now) }
{
    save_apart(host.rt, place, Content::Bytes(image.as_bytes()))
}
