//! `sync` and `put -r`: reading folders of the host with all below them, and saving the volume.
ghost use Rattle.std.specs.Prelude.{◌≡◌, ℕ, Bool, IfErr, IfOk, List, OnOk, Option, [], map, string_bytes};
ghost use Rattle.std.specs.List.{FoldsTo};
ghost use Rattle.std.specs.Path.{StripsPrefix};
ghost use Rattle.command_copies.specs.Trees.{name_of};
ghost use Rattle.command_faults.specs.Streams.{streams};
ghost use Rattle.unixvol.specs.Copies.{RunsPutTree};
ghost use Rattle.unixvol.specs.FileFaults.{file_status, run_fault, run_status};
ghost use Rattle.unixvol.specs.Runs.{Ends, GavePut, IsKept, IsStatusOfFileOrMemory, host_files};
ghost use Rattle.unixvol.specs.Syncs.{AddsMember, AddsTree, EndsSynced, IsMemberGiven, IsNodeGiven, IsTreeGiven, RunsSync, path_after};

use crate::copy::moment_file;
use crate::file_fault::{FailedRun, FileFault, NamedFile};
use crate::host::Surroundings;
use crate::read::{expect_volume, kept_of, read_given, read_image};
use crate::save::{save_bytes, save_traced};
use command_changes::{
    Extra, Kept, SyncedImage, Syncing, TreeMember, TreeNode, Unchanged, sync_image, sync_tree,
};
use command_copies::name_of;
use command_faults::Ending;
use command_faults::status::DONE;
use command_line::VolumeFile;
use command_reads::print::print_with;
use command_terms::Keep;
use command_words::Moment;
use host_files::{Found, FoundKind, ImageFiles, Stamp, TreeFault, open_stamped, tree_below};
use pdp_words::Sink;
use std::alloc::{AllocError, Global};
use std::io;
use std::path::Path;
use std::rt::Clock;
use vol_dir::Cred;
use vol_layout::Edition;

/// Puts folders, each with all below it, into a directory of the volume in a file, saves the volume, prints the trace of the calls if `trace`, and returns
/// the result of the run. If the word that was read as the time is also the path of an existing file, it may be meant as one of the folders: then
/// nothing is opened.
pub fn run_put_tree<'a, R: ImageFiles + Clock + Eprint + AllocGlobal, O: Sink>(
    host: &Surroundings<'_, R>,
    output: &mut O,
    volume: VolumeFile<'a>,
    directory: &str,
    folders: &[&'a str],
    keep: Keep,
    owner: Option<Cred>,
    now: Moment<'a>,
    trace: bool,
) -> Result<Ending, FailedRun<'a>>
    ensures runs { RunsPutTree (streams O.contents O.failed output.old output.new (run_fault result)) (host_files volume.entry.at R.File.remaining R.File.contents R.had R.stood) R.stands R.listed
        volume.entry.edition directory.entry (map (λ folder. folder.now) folders.now) keep owner now.entry trace (run_status result) }
    ensures ends { Ends (streams O.contents O.failed output.old output.new (run_fault result)) (run_status result) }
{
    if let Some(word) = moment_file(host.rt, now) {
        return Err(FailedRun::from(FileFault::Moment(word)));
    }
    expect_volume(host.rt, volume)?;
    let members = read_trees(host.rt, volume.edition, folders, keep)?;
    // The image's file stays open, and so locked, until the result is saved.
    let (image, stamp, _locked) = read_image(host, volume)?;
    let syncing = Syncing {
        directory,
        owner,
        unchanged: Unchanged::Put,
        now: now.seconds,
    };
    let alloc = host.rt.alloc();
    let outcome = sync_tree(alloc, volume.edition, image, syncing, members, trace);
    save_traced(host.rt, volume, stamp, outcome, output)
}

/// Makes a directory of the volume in a file what a folder is, saves the volume, unless nothing differed, and returns the result of the run. What the folder
/// hasn't stays or is removed, as `extra` says. If `is_trial`, saves nothing, and prints what would be done.
pub fn run_sync<'a, R: ImageFiles + Clock + Eprint + AllocGlobal, O: Sink>(
    host: &Surroundings<'_, R>,
    output: &mut O,
    volume: VolumeFile<'a>,
    syncing: Syncing<'_>,
    extra: Extra,
    folder: &'a str,
    is_trial: bool,
) -> Result<Ending, FailedRun<'a>>
    ensures runs { RunsSync (streams O.contents O.failed output.old output.new (run_fault result)) (host_files volume.entry.at R.File.remaining R.File.contents R.had R.stood) R.listed
        volume.entry.edition syncing.entry extra folder.entry.now is_trial (run_status result) }
    ensures ends { Ends (streams O.contents O.failed output.old output.new (run_fault result)) (run_status result) }
{
    expect_volume(host.rt, volume)?;
    let members = read_tree(host.rt, volume.edition, folder, "", Keep::All)?;
    // The image's file stays open, and so locked, until the result is saved.
    let (image, stamp, _locked) = read_image(host, volume)?;
    let alloc = host.rt.alloc();
    match sync_image(alloc, volume.edition, image, syncing, extra, members) {
        Ok(synced) => end_sync(host, output, volume, stamp, synced, is_trial),
        Err(fault) => Ok(Ending::from(fault)),
    }
}

/// Saves the volume after the calls of `sync`, if there were any; or, if `is_trial`, prints what they did.
fn end_sync<'a, R: ImageFiles + AllocGlobal, O: Sink>(
    host: &Surroundings<'_, R>,
    output: &mut O,
    volume: VolumeFile<'a>,
    stamp: Stamp,
    synced: SyncedImage,
    is_trial: bool,
) -> Result<Ending, FailedRun<'a>>
    ensures { EndsSynced (host_files volume.entry.at R.File.remaining R.File.contents R.had R.stood) stamp is_trial synced
        (streams O.contents O.failed output.old output.new (run_fault result)) (run_status result) }
{
    if is_trial {
        return Ok(print_with(&synced.lines, DONE, output));
    }
    if !synced.is_same {
        save_bytes(host.rt, volume, stamp, &synced.bytes)?;
    }
    Ok(Ending {
        status: DONE,
        fault: None,
    })
}

/// Reads folders with all below them, each under its last name.
fn read_trees<'a, R: ImageFiles + AllocGlobal>(
    rt: &R,
    edition: Edition,
    folders: &[&'a str],
    keep: Keep,
) -> Result<Vec<TreeMember>, FileFault<'a>>
    ensures read { IfOk result (λ members. FoldsTo (AddsTree (GavePut edition R.File.remaining) R.listed keep) [] (map (λ folder. folder.now) folders.now) members.items) }
    ensures fault { IfErr result (λ fault. IsStatusOfFileOrMemory (file_status fault)) }
{
    let mut members = Vec::new(rt.alloc());
    'folders: for folder in folders {
        let mut more = read_tree(rt, edition, folder, name_of(folder), keep)?;
        let Ok(()) = members.append(&mut more) else {
            return Err(FileFault::NoMemory);
        };
    }
    Ok(members)
}

/// Reads a folder with all below it, each with a prefix before its path below the folder.
fn read_tree<'a, R: ImageFiles + AllocGlobal>(
    rt: &R,
    edition: Edition,
    folder: &'a str,
    prefix: &str,
    keep: Keep,
) -> Result<Vec<TreeMember>, FileFault<'a>>
    ensures read { IfOk result (λ members. IsTreeGiven (GavePut edition R.File.remaining) R.listed keep prefix.now folder.entry.now members.items) }
    ensures fault { IfErr result (λ fault. IsStatusOfFileOrMemory (file_status fault)) }
{
    let found = match tree_below(rt, folder) {
        Ok(found) => found,
        Err(fault) => return Err(FileFault::from(fault)),
    };
    read_members(rt, edition, folder, prefix, keep, &found)
}

/// Reads all that was found in a folder, as members of a tree, in order.
fn read_members<'a, R: ImageFiles + AllocGlobal>(
    rt: &R,
    edition: Edition,
    folder: &str,
    prefix: &str,
    keep: Keep,
    found: &[Found],
) -> Result<Vec<TreeMember>, FileFault<'a>>
    ensures read { IfOk result (λ members. FoldsTo (AddsMember (GavePut edition R.File.remaining) keep folder.now prefix.now) [] found.now members.items) }
    ensures fault { IfErr result (λ fault. IsStatusOfFileOrMemory (file_status fault)) }
{
    let mut members = Vec::new(rt.alloc());
    'members: for one in found {
        let member = read_member(rt, edition, folder, prefix, keep, one)?;
        let Ok(()) = members.push(member) else {
            return Err(FileFault::NoMemory);
        };
    }
    Ok(members)
}

/// Reads what was found in a folder, as a member of a tree.
fn read_member<'a, R: ImageFiles + AllocGlobal>(
    rt: &R,
    edition: Edition,
    folder: &str,
    prefix: &str,
    keep: Keep,
    found: &Found,
) -> Result<TreeMember, FileFault<'a>>
    ensures read { IfOk result (IsMemberGiven (GavePut edition R.File.remaining) keep folder.now prefix.now found.now) }
    ensures fault { IfErr result (λ fault. IsStatusOfFileOrMemory (file_status fault)) }
{
    let path = match path_below(rt.alloc(), folder, prefix, &found.path) {
        Ok(path) => path,
        Err(why) => return Err(FileFault::below(rt.alloc(), &found.path, why)),
    };
    match read_node(rt, edition, keep, found) {
        Ok(node) => Ok(TreeMember { path, node }),
        Err(fault) => Err(fault.owned(rt.alloc(), &found.path)),
    }
}

/// The message for a path that isn't below its folder's.
const STRAY: &str = "the system didn't say its path below the folder";

/// Returns a path below a folder, with a prefix before it.
fn path_below(alloc: Global, folder: &str, prefix: &str, path: &str) -> io::Result<String>
    ensures { IfOk result (λ below. (rest : List ℕ) × StripsPrefix path.now folder.now rest × (string_bytes below ≡ path_after prefix.now rest)) }
{
    match Path::new(path).strip_prefix(folder) {
        Ok(rest) => Ok(path_after(alloc, prefix, rest.as_str())?),
        Err(_) => Err(io::Error::other(STRAY)),
    }
}

/// Returns a path with a prefix before it; the prefix itself if the path is empty.
fn path_after(alloc: Global, prefix: &str, path: &str) -> Result<String, AllocError>
    ensures { IfOk result (λ after. string_bytes after ≡ path_after prefix.now path.now) }
{
    if path.is_empty() {
        return String::from_str(alloc, prefix);
    }
    let after = Path::new(prefix).join(alloc, path)?;
    String::from_str(alloc, after.as_str())
}

/// Reads a file or a folder, with what is kept of it.
fn read_node<'f, R: ImageFiles + AllocGlobal>(
    rt: &R,
    edition: Edition,
    keep: Keep,
    found: &'f Found,
) -> Result<TreeNode, FileFault<'f>>
    ensures read { IfOk result (IsNodeGiven (GavePut edition R.File.remaining) keep found.entry.now.kind) }
    ensures fault { IfErr result (λ fault. IsStatusOfFileOrMemory (file_status fault)) }
{
    match found.kind {
        FoundKind::File => Ok(TreeNode::File(read_given(rt, edition, &found.path, keep)?)),
        FoundKind::Folder => Ok(TreeNode::Folder(read_kept(rt, &found.path, keep)?)),
        FoundKind::Other => Err(FileFault::Unread(
            NamedFile::File(&found.path),
            io::Error::other(STRAY),
        )),
    }
}

/// Returns what is kept of the folder at a path.
fn read_kept<'f, R: ImageFiles + AllocGlobal>(
    rt: &R,
    path: &'f str,
    keep: Keep,
) -> Result<Kept, FileFault<'f>>
    ensures kept { IfOk result (IsKept keep) }
    ensures fault { IfErr result (λ fault. file_status fault ≡ 3) }
{
    let kept = match open_stamped(rt, path) {
        Ok((folder, stamp)) => kept_of(keep, &folder, stamp),
        Err(why) => Err(why),
    };
    match kept {
        Ok(kept) => Ok(kept),
        Err(why) => Err(FileFault::Unread(NamedFile::File(path), why)),
    }
}
