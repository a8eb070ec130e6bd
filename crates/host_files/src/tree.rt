//! A folder of the host with all below it.
ghost use Rattle.std.specs.Prelude.{◌≡◌, ◌++◌, ◌∷◌, [], List, IfOk, OnErr, OnOk, string_bytes};
ghost use Rattle.host_files.specs.Folders.{HasIn, IsTree};
ghost use Rattle.host_files.specs.declared.folders.Found.{Found};
ghost use Rattle.host_files.specs.declared.folders.FoundKind.TheVariants as kinds;

use crate::folders::{FolderListing, Found, FoundKind, stack_found};
use crate::system::ImageFiles;
use std::alloc::{AllocError, Global};
use std::io;

/// The greatest number of files and folders in a tree.
const MOST: u32 = u32::MAX;

/// The message for more of them.
const TOO_MANY: &str = "more than 4294967295 files and folders";

/// The message for what is neither a file nor a folder.
const OTHER: &str = "it is a symbolic link, a pipe, a socket or a device, which isn't copied";

/// The reason why a tree can't be listed.
#[derive(Drop)]
pub enum TreeFault {
    /// What is at this path in it can't be read, or is neither a file nor a folder.
    Unread(String, io::Error),
    /// Memory ran out.
    NoMemory,
}

impl From<AllocError> for TreeFault {
    fn from(_: AllocError) -> TreeFault {
        TreeFault::NoMemory
    }
}

impl TreeFault {
    /// Returns the fault for what is at a path.
    fn of(path: String, why: io::Error) -> TreeFault {
        if why.kind() == io::ErrorKind::OutOfMemory {
            TreeFault::NoMemory
        } else {
            TreeFault::Unread(path, why)
        }
    }
}

/// Returns a folder and all files and folders below it. A folder precedes what is in it: first its files, and then its folders, each by the bytes of their
/// names. Fails at the first of them that can't be read, or is neither a regular file nor a folder; symbolic links aren't followed, but for `folder` itself.
///
/// Takes memory for all their paths.
pub fn tree_below<R: ImageFiles + AllocGlobal>(
    rt: &R,
    folder: &str,
) -> Result<Vec<Found>, TreeFault>
    ensures { IfOk result (λ members. IsTree R.listed folder.now members.items) }
{
    let mut stack = root_stack(rt.alloc(), folder)?;
    let mut members = Vec::new(rt.alloc());
    let mut visited = 0;
    'visits: while visited < MOST {
        visited += 1;
        let Some(found) = stack.pop() else {
            return Ok(members);
        };
        match open_found(rt, &found, &mut stack) {
            Ok(()) => {}
            Err(why) => return Err(TreeFault::of(found.path, why)),
        }
        let Ok(()) = members.push(found) else {
            return Err(TreeFault::NoMemory);
        };
    }
    Err(too_many(rt.alloc(), folder))
}

/// Returns the fault of a folder with too much below it.
fn too_many(alloc: Global, folder: &str) -> TreeFault {
    match String::from_str(alloc, folder) {
        Ok(path) => TreeFault::Unread(path, io::Error::other(TOO_MANY)),
        Err(_) => TreeFault::NoMemory,
    }
}

/// Returns the stack of a folder alone.
fn root_stack(alloc: Global, folder: &str) -> Result<Vec<Found>, AllocError>
    ensures { IfOk result (λ stack. (root : Found) × (root.kind ≡ kinds.Folder) × (string_bytes root.path ≡ folder.now) × (stack.items ≡ root ∷ [])) }
{
    let root = Found {
        kind: FoundKind::Folder,
        path: String::from_str(alloc, folder)?,
    };
    Ok(vec![in alloc; root]?)
}

/// Puts what is in a folder on a stack; of a file nothing. Fails if it is neither.
fn open_found<R: ImageFiles>(rt: &R, found: &Found, stack: &mut Vec<Found>) -> io::Result<()>
    ensures ok { OnOk result ((more : List Found) × HasIn R.listed found.now.kind (string_bytes found.now.path) more × (stack.new.items ≡ stack.old.items ++ more)) }
    ensures err { OnErr result (stack.new.items ≡ stack.old.items) }
{
    match found.kind {
        FoundKind::File => Ok(()),
        FoundKind::Folder => open_folder(rt, &found.path, stack),
        FoundKind::Other => Err(io::Error::other(OTHER)),
    }
}

/// Puts what is in the folder at a path on a stack. Fails if some of it can't be examined.
fn open_folder<R: ImageFiles>(rt: &R, path: &str, stack: &mut Vec<Found>) -> io::Result<()>
    ensures ok { OnOk result ((more : List Found) × HasIn R.listed kinds.Folder path.now more × (stack.new.items ≡ stack.old.items ++ more)) }
    ensures err { OnErr result (stack.new.items ≡ stack.old.items) }
{
    let FolderListing { found, fault } = rt.folder_at(path)?;
    match fault {
        None => Ok(stack_found(stack, found)?),
        Some(why) => Err(why),
    }
}
