//! Folders of the host: what is in them, and the order in which it is visited.
ghost use Rattle.std.specs.Prelude.{◌≡◌, ◌++◌, List, OnErr, OnOk};
ghost use Rattle.host_files.specs.Folders.{AreStacked};

use std::alloc::{AllocError, Global};
use std::fs::{self, DirEntry};
use std::io;

/// The message for a name that isn't text.
const NOT_TEXT: &str = "a name in it is not UTF-8 text";

/// The kind of what was found in a folder: files come before folders, and these before all else.
#[derive(Clone, Copy, PartialEq, Eq, PartialOrd, Ord)]
pub enum FoundKind {
    /// A regular file.
    File,
    /// A folder.
    Folder,
    /// Neither: a symbolic link, a pipe, a socket or a device.
    Other,
}

/// A file, a folder, or what is neither.
#[derive(PartialEq, Eq, PartialOrd, Ord, Drop)]
pub struct Found {
    /// Its kind.
    pub kind: FoundKind,
    /// Its path.
    pub path: String,
}

/// What is in a folder.
#[derive(Drop)]
pub struct FolderListing {
    /// All that could be examined, in any order.
    pub found: Vec<Found>,
    /// The last reason why something in it couldn't be examined.
    pub fault: Option<io::Error>,
}

/// Returns what is in a folder; symbolic links aren't followed. Takes memory for all of it.
pub(crate) fn folder_listing(rt: &HostRuntime, path: &str) -> io::Result<FolderListing> {
    let mut listing = FolderListing {
        found: Vec::new(rt.alloc()),
        fault: None,
    };
    for entry in fs::read_dir(rt, path)? {
        match found_in(rt.alloc(), entry) {
            Ok(found) => listing.found.push(found)?,
            Err(why) if why.kind() == io::ErrorKind::OutOfMemory => return Err(why),
            Err(why) => listing.fault = Some(reworded(why)),
        }
    }
    Ok(listing)
}

/// Returns what an entry of a folder is.
fn found_in(alloc: Global, entry: io::Result<DirEntry>) -> io::Result<Found> {
    let entry = entry?;
    let file_type = entry.file_type()?;
    let kind = if file_type.is_file() {
        FoundKind::File
    } else if file_type.is_dir() {
        FoundKind::Folder
    } else {
        FoundKind::Other
    };
    let path = String::from_str(alloc, entry.path().as_str())?;
    Ok(Found { kind, path })
}

/// Returns an error with a message of its own if a name isn't text.
fn reworded(why: io::Error) -> io::Error {
    if why.kind() == io::ErrorKind::InvalidFilename {
        io::Error::other(NOT_TEXT)
    } else {
        why
    }
}

/// Puts what was found in a folder on a stack, the first in order on the top. If memory runs out, the stack stays as it was.
pub fn stack_found(stack: &mut Vec<Found>, found: Vec<Found>) -> Result<(), AllocError>
    ensures ok { OnOk result ((more : List Found) × AreStacked found.items more × (stack.new.items ≡ stack.old.items ++ more)) }
    ensures err { OnErr result (stack.new.items ≡ stack.old.items) }
{
    let mut more = stacked(found);
    stack.append(&mut more)
}

/// Returns what was found, from the last in order to the first.
fn stacked(found: Vec<Found>) -> Vec<Found>
    ensures { AreStacked found.items result.items }
{
    let mut found = found;
    found.sort_unstable();
    found.reverse();
    found
}
