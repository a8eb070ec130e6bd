//! `get -r`: copies files and directories of a volume, with everything below them, into a folder.
ghost use Rattle.std.specs.Prelude.{◌≡◌, ℕ, Bool, IfErr, List, OnOk, Option, map};
ghost use Rattle.command_faults.specs.Streams.{still};
ghost use Rattle.host_files.specs.Folders.{IsFolderThere};
ghost use Rattle.host_files.specs.Save.{IsTaken};
ghost use Rattle.unixvol.specs.FileFaults.{file_status, run_fault, run_status};
ghost use Rattle.unixvol.specs.Copies.{AreCopied, IsCopied, RunsGetTrees};
ghost use Rattle.unixvol.specs.Runs.{Ends, IsStatusOfFileOrMemory, host_files};

use crate::copy::{save_copied, uncopied};
use crate::file_fault::{FailedRun, FileFault, after_saving};
use crate::host::Surroundings;
use crate::read::read_stamped;
use command_copies::{NodeContent, NodeRead, ending_of, get_trees};
use command_faults::Ending;
use command_line::VolumeFile;
use host_files::{ImageFiles, Marks, Stamp, make_folder, mark_folder};
use std::path::{Path, PathBuf};
use std::rt::Clock;

/// Reads the trees at some paths of the volume in a file, then saves them in a folder, which is made if there is none, and returns the result of the
/// run. The volume's own file is never replaced.
pub fn run_get_trees<'a, R: ImageFiles + Clock + Eprint + AllocGlobal>(
    host: &Surroundings<'_, R>,
    volume: VolumeFile<'a>,
    folder: &'a str,
    paths: &[&str],
    keeps: bool,
) -> Result<Ending, FailedRun<'a>>
    ensures runs { (known : Option (List ℕ)) (failed : Bool)
        → RunsGetTrees (still known failed (run_fault result)) (host_files volume.entry.at R.File.remaining R.File.contents R.had R.stood) volume.entry.edition (map (λ path. path.now) paths.now) (run_status result) }
    ensures ends { (known : Option (List ℕ)) (failed : Bool) → Ends (still known failed (run_fault result)) (run_status result) }
{
    let (image, stamp) = read_stamped(host.rt, volume)?;
    match get_trees(host.rt.alloc(), volume.edition, image, paths) {
        Ok(read) => {
            let saved = save_nodes(host, folder, stamp, &read.nodes, keeps);
            let Ending { status, fault } = ending_of(read.lines);
            after_saving(saved, status, fault)
        }
        Err(fault) => Ok(Ending::from(fault)),
    }
}

/// Saves nodes of a volume in a folder, with their marks if `keeps`. After the first that can't be saved none is.
pub fn save_nodes<'a, R: ImageFiles + Clock + Eprint + AllocGlobal>(
    host: &Surroundings<'_, R>,
    folder: &str,
    image: Stamp,
    nodes: &[NodeRead],
    keeps: bool,
) -> Result<(), FileFault<'a>>
    ensures saved { OnOk result (AreCopied (IsTaken R.File.contents) R.stood nodes.now) }
    ensures fault { IfErr result (λ fault. IsStatusOfFileOrMemory (file_status fault)) }
{
    make_top(host, folder)?;
    'nodes: for node in nodes {
        save_node(host, folder, image, node, keeps)?;
    }
    if keeps {
        mark_folders(host, folder, nodes)?;
    }
    Ok(())
}

/// Saves a node of a volume in a folder: makes a directory, if there is none; or saves a file, with its marks if `keeps`.
fn save_node<'a, R: ImageFiles + Clock + Eprint + AllocGlobal>(
    host: &Surroundings<'_, R>,
    folder: &str,
    image: Stamp,
    node: &NodeRead,
    keeps: bool,
) -> Result<(), FileFault<'a>>
    ensures saved { OnOk result (IsCopied (IsTaken R.File.contents) R.stood node.now.content) }
    ensures fault { IfErr result (λ fault. IsStatusOfFileOrMemory (file_status fault)) }
{
    let place = place_of(host, folder, node.path.as_str())?;
    match &node.content {
        NodeContent::Directory => make_at(host, place),
        NodeContent::File(bytes) => {
            let marks = keeps.then_some(marks_of(node));
            save_copied(host, place, image, bytes, marks)
        }
    }
}

/// Gives directories that were saved in a folder their marks, the last one first: what has been marked may not be entered again.
fn mark_folders<'a, R: ImageFiles + AllocGlobal>(
    host: &Surroundings<'_, R>,
    folder: &str,
    nodes: &[NodeRead],
) -> Result<(), FileFault<'a>>
    ensures { IfErr result (λ fault. IsStatusOfFileOrMemory (file_status fault)) }
{
    for node in nodes.iter().rev() {
        if let NodeContent::Directory = node.content {
            let place = place_of(host, folder, node.path.as_str())?;
            match mark_folder(host.rt, place.as_str(), marks_of(node)) {
                Ok(()) => {}
                Err(why) => return Err(uncopied(place, why)),
            }
        }
    }
    Ok(())
}

/// Makes the folder into which is copied, if there is none.
fn make_top<'a, R: ImageFiles + AllocGlobal>(
    host: &Surroundings<'_, R>,
    folder: &str,
) -> Result<(), FileFault<'a>>
    ensures { IfErr result (λ fault. IsStatusOfFileOrMemory (file_status fault)) }
{
    let place = place_of(host, folder, "")?;
    match make_folder(host.rt, place.as_str()) {
        Ok(()) => Ok(()),
        Err(why) => Err(uncopied(path_of(host, folder)?, why)),
    }
}

/// Returns a path in memory of its own.
pub fn path_of<'a, R: AllocGlobal>(
    host: &Surroundings<'_, R>,
    path: &str,
) -> Result<PathBuf, FileFault<'a>>
    ensures { IfErr result (λ fault. IsStatusOfFileOrMemory (file_status fault)) }
{
    match PathBuf::from_str(host.rt.alloc(), path) {
        Ok(path) => Ok(path),
        Err(_) => Err(FileFault::NoMemory),
    }
}

/// Makes a folder at a place, if there is none.
fn make_at<'a, R: ImageFiles>(
    host: &Surroundings<'_, R>,
    place: PathBuf,
) -> Result<(), FileFault<'a>>
    ensures made { OnOk result (IsFolderThere R.stood) }
    ensures fault { IfErr result (λ fault. IsStatusOfFileOrMemory (file_status fault)) }
{
    match make_folder(host.rt, place.as_str()) {
        Ok(()) => Ok(()),
        Err(why) => Err(uncopied(place, why)),
    }
}

/// Returns the place of a path in a folder; of the empty path, the folder itself, with a slash at the end, so that a link to it is followed.
fn place_of<'a, R: AllocGlobal>(
    host: &Surroundings<'_, R>,
    folder: &str,
    path: &str,
) -> Result<PathBuf, FileFault<'a>>
    ensures { IfErr result (λ fault. IsStatusOfFileOrMemory (file_status fault)) }
{
    match Path::new(folder).join(host.rt.alloc(), path) {
        Ok(place) => Ok(place),
        Err(_) => Err(FileFault::NoMemory),
    }
}

/// Returns the marks of a node.
fn marks_of(node: &NodeRead) -> Marks {
    Marks {
        permissions: node.permissions,
        modified: node.modified,
    }
}
