//! Folders of the host into which directories of a volume are copied.
ghost use Rattle.std.specs.Prelude.{OnOk};
ghost use Rattle.host_files.specs.Folders.{IsFolderThere};

use crate::image_file::FileKind;
use crate::marks::{Marks, give_marks};
use crate::system::ImageFiles;
use std::fs;
use std::io::{self, ErrorKind};

/// The message for a path at which there is something that isn't a folder.
const NO_FOLDER: &str = "it is there already, and is no folder";

/// Makes a folder at `path`, unless there is one. A symbolic link isn't followed, unless `path` ends in a slash.
///
/// The error is `NotADirectory` if there is anything else at `path`, even a symbolic link that leads to a folder; else it is the system's.
pub fn make_folder<R: ImageFiles>(rt: &R, path: &str) -> io::Result<()>
    ensures { OnOk result (IsFolderThere R.stood) }
{
    match fs::create_dir(rt, path) {
        Err(why) if why.kind() != ErrorKind::AlreadyExists => return Err(why),
        _ => {}
    }
    if rt.stamp_of_name(path)?.kind == FileKind::Directory {
        Ok(())
    } else {
        Err(io::Error::new(ErrorKind::NotADirectory, NO_FOLDER))
    }
}

/// Gives the folder at `path` its permissions and its time of last modification. What is made in it later changes its time.
///
/// The error is the system's.
pub fn mark_folder<R: ImageFiles>(rt: &R, path: &str, marks: Marks) -> io::Result<()> {
    let folder = fs::open(rt, path)?;
    give_marks(&folder, marks)
}
