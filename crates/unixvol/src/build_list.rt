//! `build --list`: writes the list of a volume, and the files that it names beside it.
ghost use Rattle.std.specs.Prelude.{◌≡◌, ℕ, Bool, IfErr, IfOk, IfSome, List, OnOk, Option};
ghost use Rattle.command_faults.specs.Streams.{still};
ghost use Rattle.host_files.specs.Save.{IsTaken};
ghost use Rattle.unixvol.specs.Copies.{IsListSaved, RunsBuildList};
ghost use Rattle.unixvol.specs.FileFaults.{file_status, run_fault, run_status};
ghost use Rattle.unixvol.specs.Runs.{Ends, GaveAt, IsStatusOfFileOrMemory, IsUnread, host_files};

use crate::copy::save_copied;
use crate::file_fault::{FailedRun, FileFault, NamedFile, after_saving};
use crate::get_trees::{path_of, save_nodes};
use crate::host::Surroundings;
use crate::read::read_stamped;
use crate::save::{expect_new, expect_other};
use command_copies::{VolumeListed, list_volume, name_of};
use command_faults::Ending;
use command_faults::status::DONE;
use command_line::{MadeFile, VolumeFile};
use host_files::{FileKind, ImageFiles, Stamp, UpTo};
use pack_lists::list_text;
use std::io;
use std::rt::Clock;

/// Reads the volume in a file as a list, then saves the list in the file `new` and the files that it names beside that, and returns the result of the run.
/// The volume's own file is never replaced.
pub fn run_build_list<'a, R: ImageFiles + Clock + Eprint + AllocGlobal>(
    host: &Surroundings<'_, R>,
    volume: VolumeFile<'a>,
    new: MadeFile<'a>,
) -> Result<Ending, FailedRun<'a>>
    ensures runs { (known : Option (List ℕ)) (failed : Bool)
        → RunsBuildList (still known failed (run_fault result)) (host_files volume.entry.at R.File.remaining R.File.contents R.had R.stood) volume.entry.edition new.entry.path.now (run_status result) }
    ensures ends { (known : Option (List ℕ)) (failed : Bool) → Ends (still known failed (run_fault result)) (run_status result) }
{
    let (image, stamp) = read_listable(host.rt, volume, new.path)?;
    let name = name_of(new.path);
    match list_volume(host.rt.alloc(), volume.edition, image, name) {
        Ok(read) => {
            let saved = save_listed(host, new, stamp, &read);
            after_saving(saved, DONE, None)
        }
        Err(fault) => Ok(Ending::from(fault)),
    }
}

/// Reads the image of the volume in a file, with the file's stamp, if the path of the list ends with the name of a file.
fn read_listable<'a, R: ImageFiles + AllocGlobal>(
    rt: &R,
    volume: VolumeFile<'a>,
    list: &'a str,
) -> Result<(Vec<u8>, Stamp), FileFault<'a>>
    ensures given { IfOk result (λ read. GaveAt volume.entry.at (UpTo.Volume volume.entry.edition) R.File.remaining read.0.items) }
    ensures fault { IfErr result (λ fault. IsUnread R.File.remaining (file_status fault)) }
{
    expect_file(list)?;
    read_stamped(rt, volume)
}

/// Saves a volume that was read as a list: its files in a folder beside the list, its boot block, if that isn't all zeros, and the list last. After the first
/// file that can't be saved none is.
fn save_listed<'a, R: ImageFiles + Clock + Eprint + AllocGlobal>(
    host: &Surroundings<'_, R>,
    new: MadeFile<'a>,
    image: Stamp,
    read: &VolumeListed,
) -> Result<(), FileFault<'a>>
    ensures saved { OnOk result (IsListSaved (IsTaken R.File.contents) R.stood read.now) }
    ensures fault { IfErr result (λ fault. IsStatusOfFileOrMemory (file_status fault)) }
{
    let Ok(text) = list_text(host.rt.alloc(), &read.list) else {
        return Err(FileFault::NoMemory);
    };
    expect_list(host.rt, new, image)?;
    let folder = beside(host, new.path, ".files")?;
    save_nodes(host, &folder, image, &read.nodes, false)?;
    save_boot(host, new.path, image, &read.boot)?;
    save_copied(host, path_of(host, new.path)?, image, &text, None)
}

/// The message for a path whose last name, if it has one, is that of a folder.
const NAMES_FOLDER: &str = "it names a folder";

/// Checks that a path ends with the name of a file.
fn expect_file<'a>(path: &'a str) -> Result<(), FileFault<'a>>
    ensures { IfErr result (λ fault. file_status fault ≡ 3) }
{
    let name = name_of(path);
    if name.is_empty() || !path.ends_with(name) {
        let why = io::Error::other(NAMES_FOLDER);
        return Err(FileFault::Unwritten(NamedFile::File(path), why));
    }
    Ok(())
}

/// Checks that a list can be saved: if it must be new, nothing is there; and it is neither a folder nor the image that was read.
fn expect_list<'a, R: ImageFiles>(
    rt: &R,
    new: MadeFile<'a>,
    image: Stamp,
) -> Result<(), FileFault<'a>>
    ensures { IfErr result (λ fault. IsStatusOfFileOrMemory (file_status fault)) }
{
    expect_new(rt, new)?;
    let checked = match rt.stamp_at(new.path) {
        Ok(there) if there.kind == FileKind::Directory => Err(io::Error::other(NAMES_FOLDER)),
        _ => expect_other(rt, new.path, image),
    };
    match checked {
        Ok(()) => Ok(()),
        Err(why) => Err(FileFault::unsaved(new.path, why)),
    }
}

/// Saves the boot block beside the list, if it isn't all zeros.
fn save_boot<'a, R: ImageFiles + Clock + Eprint + AllocGlobal>(
    host: &Surroundings<'_, R>,
    list: &str,
    image: Stamp,
    boot: &Option<Vec<u8>>,
) -> Result<(), FileFault<'a>>
    ensures saved { OnOk result (IfSome boot.now (λ bytes. IsTaken R.File.contents bytes.items)) }
    ensures fault { IfErr result (λ fault. IsStatusOfFileOrMemory (file_status fault)) }
{
    let Some(bytes) = boot else {
        return Ok(());
    };
    let place = beside(host, list, ".boot")?;
    save_copied(host, path_of(host, &place)?, image, bytes, None)
}

/// Returns the path of a list with these letters after it.
fn beside<'a, R: AllocGlobal>(
    host: &Surroundings<'_, R>,
    list: &str,
    letters: &str,
) -> Result<String, FileFault<'a>>
    ensures { IfErr result (λ fault. IsStatusOfFileOrMemory (file_status fault)) }
{
    let alloc = host.rt.alloc();
    match format!(in alloc; "{list}{letters}") {
        Ok(path) => Ok(path),
        Err(_) => Err(FileFault::NoMemory),
    }
}
