//! `sync` makes a directory of a volume what a folder of the host is; `put -r` puts folders with all below them into a directory.
ghost use Rattle.std.specs.Prelude.{◌≡◌, ◌++◌, ◌==◌, List, ℕ, IfErr, IfOk, OnOk, Ok};
ghost use Rattle.vol_dir.specs.Access.{user};
ghost use Rattle.vol_volume.specs.Answer.{answer};
ghost use Rattle.vol_volume.specs.Volume.{reads_as};
ghost use Rattle.vol_volume.specs.declared.queries.Query.TheVariants as questions;
ghost use Rattle.vol_import.specs.Make.{told};
ghost use Rattle.vol_import.specs.Plan.{Tells};
ghost use Rattle.command_faults.specs.Outcomes.{IsAmong};
ghost use Rattle.command_changes.specs.Extras.{IsPlanned, IsStopped, IsSynced, IsSyncedVolume, IsUnplanned, IsUnsynced};
ghost use Rattle.command_changes.specs.Import.{IsUnimported, of_import};
ghost use Rattle.command_changes.specs.Sync.{apart, calls_onto, calls_to_sync, compared, has_kept, is_body, is_kept_by, is_long_name, is_shared, line_of, lines_of_sync, member_line, member_onto, node_calls, node_line, folder_calls, folder_line, place_of, shared_owner, step_calls, step_line, step_of};
ghost use Rattle.command_changes.specs.Traced.{ImportsVolume};

use crate::calls::push;
use crate::extras::{Extra, removals};
use crate::import_lines::{fault_of, from_root};
use crate::kept::{GivenFile, Kept};
use crate::lookup::{PathKind, find, name_in};
use crate::mkdir::{PERMISSIONS, push_mkdir};
use crate::put::{Target, find_target, push_calls, push_kept, push_onto, with_execution};
use crate::rm::unlink_call;
use crate::traced::traced;
use command_faults::{Fault, Remarked};
use escaped_text::push_escaped;
use std::alloc::{AllocError, Global};
use std::path::Path;
use vol_dir::{Cred, Refusal};
use vol_import::{ImportFault, MemberFault, PlanFault, make};
use vol_layout::slot::NAME;
use vol_layout::{Edition, Kind};
use vol_volume::{Bytes, Call, Query, Reply, Volume};

/// What becomes of a file that the volume has with the same bytes.
#[derive(Clone, Copy)]
pub enum Unchanged {
    /// It gets only what is kept of the host's file, if it hasn't that.
    Skip,
    /// It is put as any other.
    Put,
}

/// The directory of a volume that gets a tree, and how.
#[derive(Clone, Copy)]
pub struct Syncing<'a> {
    /// Its path.
    pub directory: &'a str,
    /// The owner of what is made or put, if one is given.
    pub owner: Option<Cred>,
    /// What becomes of files with the same bytes.
    pub unchanged: Unchanged,
    /// The time of the calls, in seconds since the beginning of 1970.
    pub now: u32,
}

/// A folder or a regular file of the host.
#[derive(Drop)]
pub enum TreeNode {
    /// A folder, of which this is kept if its directory is made.
    Folder(Kept),
    /// A regular file.
    File(GivenFile),
}

/// A member of a tree: one of the folders and files to put into a directory.
#[derive(Drop)]
pub struct TreeMember {
    /// Its path below the directory; empty for the directory itself.
    pub path: String,
    /// What it is.
    pub node: TreeNode,
}

/// What is done with a file.
#[derive(Clone, Copy)]
pub(crate) enum FileStep {
    /// Nothing.
    Leave,
    /// It gets what is kept of the host's file, and its bytes stay.
    Mark,
    /// It is put.
    Put,
    /// It has further names in the volume, which keep it: its name is removed, and a new file is put, with the old one's owner if none is given.
    Replace { owner: Cred },
}

/// The calls for what is removed and for the members of a tree, and what they do in words.
#[derive(Drop)]
pub(crate) struct SyncPlan {
    /// The calls.
    pub(crate) calls: Vec<Call>,
    /// A line for each entry that is removed, and for each member that isn't the same in the volume.
    pub(crate) lines: Vec<u8>,
}

/// A volume after the calls for a tree.
#[derive(Drop)]
pub(crate) struct SyncedVolume {
    /// The volume, whose journal has the calls.
    pub(crate) volume: Volume,
    /// A line for each entry that was removed, and for each member that wasn't the same in it.
    pub(crate) lines: Vec<u8>,
    /// True if there was no call to make.
    pub(crate) is_same: bool,
}

/// An image after the calls for a tree.
#[derive(Drop)]
pub struct SyncedImage {
    /// Its bytes.
    pub bytes: Vec<u8>,
    /// A line for each entry that was removed: `rm` or `rmdir`, and its path with unprintable bytes escaped; then one for each member that wasn't the same:
    /// `mkdir`, `put` or `mark`, and its path.
    pub lines: Vec<u8>,
    /// True if there was no call to make, so that the bytes are the same as before.
    pub is_same: bool,
}

/// Makes a directory of a volume what a tree is, except that nothing is removed. Each folder that is missing is made with permissions 0755, and gets the
/// owner, if one is given, and what is kept of the host's folder. Each file that is missing, or that has other bytes, is put as by `put`. A file with the same bytes
/// gets only what is kept of the host's file, if it hasn't that, and nothing otherwise. A file that differs and has further names in the volume is replaced by
/// a new one, so that these keep what they have. If `syncing` says so, all files are put instead. The members must come
/// so that a folder precedes what is in it. If one of them can't be put, nothing is saved, and the fault is the rule that the image breaks, the path of the
/// first name above 14 bytes, or the refusal of a call with its path: as `Exists` if a file is in the place of a folder, and as `IsDirectory` if a directory is
/// in the place of a file. If `trace` is true, the outcome has the trace of the calls.
///
/// Moves the files' bytes into the calls. Takes memory to mount the image, for two paths per member, and for the bytes of a file of the volume at a time.
/// Walks each member's path three times. For a trace, takes the memory and the time of [`vol_trace::trace_of`] too.
pub fn sync_tree(
    alloc: Global,
    edition: Edition,
    image: Vec<u8>,
    syncing: Syncing<'_>,
    members: Vec<TreeMember>,
    trace: bool,
) -> Result<Remarked, Fault>
    ensures { IsAmong (of_import edition image.items (told (calls_to_sync (reads_as edition image.items).tree syncing.entry members.items)) trace) result }
{
    let made = sync_into(alloc, edition, image, syncing, members);
    traced(alloc, made, trace)
}

/// Returns the volume after the calls for a tree.
fn sync_into(
    alloc: Global,
    edition: Edition,
    image: Vec<u8>,
    syncing: Syncing<'_>,
    members: Vec<TreeMember>,
) -> Result<Volume, Fault>
    ensures made { IfOk result (ImportsVolume edition image.items (told (calls_to_sync (reads_as edition image.items).tree syncing.entry members.items))) }
    ensures fault { IfErr result (IsUnimported edition image.items (told (calls_to_sync (reads_as edition image.items).tree syncing.entry members.items))) }
{
    match make_syncs(alloc, edition, image, syncing, Extra::Keep, members) {
        Ok(synced) => Ok(synced.volume),
        Err(why) => Err(fault_of(alloc, &why)),
    }
}

/// Makes a directory of a volume what a tree is, as [`sync_tree`] does, and also returns what that did, and whether it did anything. If `extra` says so, all
/// below the directory whose path no member has is removed first, which frees its blocks: each name by Unlink, and each directory by Rmdir, after what is in
/// it. A refusal of these calls stops all, as any other.
///
/// Takes the memory and the time of `sync_tree`, and memory for the lines. What is removed costs a walk of all below the directory, with memory for its paths.
pub fn sync_image(
    alloc: Global,
    edition: Edition,
    image: Vec<u8>,
    syncing: Syncing<'_>,
    extra: Extra,
    members: Vec<TreeMember>,
) -> Result<SyncedImage, Fault>
    ensures synced { IfOk result (IsSynced edition image.items syncing.entry extra members.items) }
    ensures fault { IfErr result (IsUnsynced edition image.items syncing.entry extra members.items) }
{
    match make_syncs(alloc, edition, image, syncing, extra, members) {
        Ok(synced) => {
            let SyncedVolume {
                volume,
                lines,
                is_same,
            } = synced;
            Ok(SyncedImage {
                bytes: volume.unmount(),
                lines,
                is_same,
            })
        }
        Err(why) => Err(fault_of(alloc, &why)),
    }
}

/// Makes the calls for a tree, or returns the reason not to make them.
fn make_syncs(
    alloc: Global,
    edition: Edition,
    image: Vec<u8>,
    syncing: Syncing<'_>,
    extra: Extra,
    members: Vec<TreeMember>,
) -> Result<SyncedVolume, ImportFault>
    ensures synced { IfOk result (IsSyncedVolume edition image.items syncing.entry extra members.items) }
    ensures fault { IfErr result (IsStopped edition image.items syncing.entry extra members.items) }
{
    let mut volume = make::mount(alloc, edition, image)?;
    let plan = match plan_syncs(alloc, &volume, syncing, extra, members) {
        Ok(plan) => plan,
        Err(fault) => return Err(make::unplanned(fault)),
    };
    let SyncPlan { calls, lines } = plan;
    let is_same = calls.is_empty();
    make::make(alloc, &mut volume, calls)?;
    volume.check();
    Ok(SyncedVolume {
        volume,
        lines,
        is_same,
    })
}

/// Returns the calls for what is removed and for a tree, and what they do.
fn plan_syncs(
    alloc: Global,
    volume: &Volume,
    syncing: Syncing<'_>,
    extra: Extra,
    members: Vec<TreeMember>,
) -> Result<SyncPlan, PlanFault>
    ensures plan { IfOk result (IsPlanned volume.now.edition volume.now.image syncing.entry extra members.items) }
    ensures fault { IfErr result (IsUnplanned volume.now.edition volume.now.image syncing.entry extra members.items) }
{
    let begun = removals(alloc, volume, syncing, extra, &members)?;
    calls_to_sync(alloc, volume, syncing, begun, members)
}

/// Returns the calls of a plan, followed by those for a tree, and what they do.
fn calls_to_sync(
    alloc: Global,
    volume: &Volume,
    syncing: Syncing<'_>,
    begun: SyncPlan,
    members: Vec<TreeMember>,
) -> Result<SyncPlan, PlanFault>
    ensures calls { IfOk result (λ plan. calls_onto (reads_as volume.now.edition volume.now.image).tree syncing.entry begun.calls.items members.items ≡ Ok plan.calls.items) }
    ensures lines { IfOk result (λ plan. plan.lines.items ≡ begun.lines.items ++ lines_of_sync (reads_as volume.now.edition volume.now.image).tree syncing.entry members.items) }
    ensures fault { IfErr result (Tells (calls_onto (reads_as volume.now.edition volume.now.image).tree syncing.entry begun.calls.items members.items)) }
{
    let SyncPlan {
        mut calls,
        mut lines,
    } = begun;
    let mut left = members;
    left.reverse();
    'members: while let Some(member) = left.pop() {
        push_member(alloc, volume, syncing, member, &mut calls, &mut lines)?;
    }
    Ok(SyncPlan { calls, lines })
}

/// Appends the calls for a member of a tree, and its line, unless its name is too long for a directory.
fn push_member(
    alloc: Global,
    volume: &Volume,
    syncing: Syncing<'_>,
    member: TreeMember,
    calls: &mut Vec<Call>,
    lines: &mut Vec<u8>,
) -> Result<(), PlanFault>
    ensures calls { OnOk result (member_onto (reads_as volume.now.edition volume.now.image).tree syncing.entry calls.old.items member ≡ Ok calls.new.items) }
    ensures lines { OnOk result (lines.new.items ≡ lines.old.items ++ member_line (reads_as volume.now.edition volume.now.image).tree syncing.entry member) }
    ensures fault { IfErr result (Tells (member_onto (reads_as volume.now.edition volume.now.image).tree syncing.entry calls.old.items member)) }
{
    if is_long_name(&member.path) {
        let path = Bytes::from_slice(alloc, member.path.as_bytes())?;
        return Err(PlanFault::Member(path, MemberFault::LongName));
    }
    let TreeMember { path, node } = member;
    let place = place_of(alloc, syncing.directory.as_bytes(), path.as_bytes())?;
    push_node(alloc, volume, syncing, place.as_slice(), node, calls, lines)?;
    Ok(())
}

/// True if the last name of a path is longer than an entry of a directory can hold.
fn is_long_name(path: &str) -> bool
    ensures { result ≡ is_long_name path.now }
{
    Path::new(path).file_name().unwrap_or("").len() > NAME
}

/// Returns the path in the volume of a member of a tree.
fn place_of(alloc: Global, directory: &[u8], path: &[u8]) -> Result<Bytes, AllocError>
    ensures { IfOk result (λ place. place ≡ place_of directory.now path.now) }
{
    if path.is_empty() {
        Bytes::from_slice(alloc, directory)
    } else {
        name_in(alloc, directory, path)
    }
}

/// Appends the calls and the line for what is to be at a path.
fn push_node(
    alloc: Global,
    volume: &Volume,
    syncing: Syncing<'_>,
    path: &[u8],
    node: TreeNode,
    calls: &mut Vec<Call>,
    lines: &mut Vec<u8>,
) -> Result<(), AllocError>
    ensures calls { OnOk result (calls.new.items ≡ calls.old.items ++ node_calls (reads_as volume.now.edition volume.now.image).tree syncing.entry path.now node) }
    ensures lines { OnOk result (lines.new.items ≡ lines.old.items ++ node_line (reads_as volume.now.edition volume.now.image).tree syncing.entry path.now node) }
{
    let Syncing {
        owner,
        unchanged,
        now,
        ..
    } = syncing;
    match node {
        TreeNode::Folder(kept) => {
            let found = find(alloc, volume, path)?;
            push_folder(alloc, found, path, kept, owner, now, calls)?;
            push_folder_line(found, path, lines)
        }
        TreeNode::File(file) => {
            let step = step_of(alloc, volume, unchanged, path, &file)?;
            push_step(alloc, volume, step, path, file, owner, now, calls)?;
            push_step_line(step, path, lines)
        }
    }
}

/// Appends the calls that make a directory if its path leads to none.
fn push_folder(
    alloc: Global,
    found: PathKind,
    path: &[u8],
    kept: Kept,
    owner: Option<Cred>,
    now: u32,
    calls: &mut Vec<Call>,
) -> Result<(), AllocError>
    ensures { OnOk result (calls.new.items ≡ calls.old.items ++ folder_calls found now path.now kept owner) }
{
    match found {
        PathKind::Directory => Ok(()),
        PathKind::File | PathKind::Nothing => {
            push_mkdir(alloc, path, owner, now, calls)?;
            let made = Target::Node {
                permissions: PERMISSIONS,
            };
            push_kept(alloc, made, path, kept, now, calls)
        }
    }
}

/// Appends the line for a directory that is made.
fn push_folder_line(found: PathKind, path: &[u8], lines: &mut Vec<u8>) -> Result<(), AllocError>
    ensures { OnOk result (lines.new.items ≡ lines.old.items ++ folder_line found path.now) }
{
    match found {
        PathKind::Directory => Ok(()),
        PathKind::File | PathKind::Nothing => push_line(b"mkdir ", path, lines),
    }
}

/// Returns what is done with a file. Costs up to three walks, and reading the file of the volume.
fn step_of(
    alloc: Global,
    volume: &Volume,
    unchanged: Unchanged,
    path: &[u8],
    file: &GivenFile,
) -> Result<FileStep, AllocError>
    ensures { IfOk result (λ step. step ≡ step_of (reads_as volume.now.edition volume.now.image).tree unchanged path.now file.now) }
{
    match unchanged {
        Unchanged::Put => Ok(FileStep::Put),
        Unchanged::Skip => compared(alloc, volume, path, file),
    }
}

/// Returns what is done with a file, if a file that is the same is left.
fn compared(
    alloc: Global,
    volume: &Volume,
    path: &[u8],
    file: &GivenFile,
) -> Result<FileStep, AllocError>
    ensures { IfOk result (λ step. step ≡ compared (reads_as volume.now.edition volume.now.image).tree path.now file.now) }
{
    if !is_body(alloc, volume, path, &file.bytes)? {
        return apart(alloc, volume, path, FileStep::Put);
    }
    if is_kept(alloc, volume, path, file.kept)? {
        Ok(FileStep::Leave)
    } else {
        apart(alloc, volume, path, FileStep::Mark)
    }
}

/// Returns what is done with a file that differs: one with further names is replaced, so that these keep what they have. Costs a walk.
fn apart(
    alloc: Global,
    volume: &Volume,
    path: &[u8],
    step: FileStep,
) -> Result<FileStep, AllocError>
    ensures { IfOk result (λ next. next ≡ apart (shared_owner (answer (reads_as volume.now.edition volume.now.image).tree (questions.Stat user path.now))) step) }
{
    match shared_owner(alloc, volume, path)? {
        Some(owner) => Ok(FileStep::Replace { owner }),
        None => Ok(step),
    }
}

/// Returns the owner of the regular file that a path leads to, if it has further names.
fn shared_owner(alloc: Global, volume: &Volume, path: &[u8]) -> Result<Option<Cred>, AllocError>
    ensures { IfOk result (λ owner. owner ≡ shared_owner (answer (reads_as volume.now.edition volume.now.image).tree (questions.Stat user path.now))) }
{
    let query = Query::Stat {
        cred: Cred::ROOT,
        path: Bytes::from_slice(alloc, path)?,
    };
    match volume.ask(alloc, &query) {
        Ok(Reply::Stat(stat)) if is_shared(stat.kind, stat.links) => Ok(Some(Cred {
            uid: stat.uid,
            gid: stat.gid,
        })),
        _ => Ok(None),
    }
}

/// True if a node of this kind with so many links is a regular file with further names.
fn is_shared(kind: Kind, links: u16) -> bool
    ensures { result ≡ is_shared kind links }
{
    match kind {
        Kind::Regular => links > 1,
        _ => false,
    }
}

/// True if a path leads to a regular file with these bytes.
fn is_body(alloc: Global, volume: &Volume, path: &[u8], bytes: &[u8]) -> Result<bool, AllocError>
    ensures { IfOk result (λ same. same ≡ is_body (answer (reads_as volume.now.edition volume.now.image).tree (questions.Read user path.now 0 4294967295)) bytes.now) }
{
    let query = Query::Read {
        cred: Cred::ROOT,
        path: Bytes::from_slice(alloc, path)?,
        offset: 0,
        len: u32::MAX,
    };
    match volume.ask(alloc, &query) {
        Ok(Reply::Bytes(found)) => Ok(found.as_slice() == bytes),
        Err(Refusal::NoMemory) => Err(AllocError),
        _ => Ok(false),
    }
}

/// True if what a path leads to has what is kept of the host's file.
fn is_kept(alloc: Global, volume: &Volume, path: &[u8], kept: Kept) -> Result<bool, AllocError>
    ensures { IfOk result (λ same. same ≡ is_kept_by (answer (reads_as volume.now.edition volume.now.image).tree (questions.Stat user path.now)) kept) }
{
    let query = Query::Stat {
        cred: Cred::ROOT,
        path: Bytes::from_slice(alloc, path)?,
    };
    match volume.ask(alloc, &query) {
        Ok(Reply::Stat(stat)) => Ok(has_kept(stat.permissions, stat.modified, kept)),
        _ => Ok(false),
    }
}

/// True if a file with these permissions and this time of last modification has what is kept of the host's file.
fn has_kept(own: u16, modified: u32, kept: Kept) -> bool
    ensures { result ≡ has_kept own modified kept }
{
    match kept {
        Kept::Nothing => true,
        Kept::Execution { permissions } => own == with_execution(own, permissions),
        Kept::All {
            permissions,
            modified: time,
        } => own == permissions && modified == time,
    }
}

/// Appends the calls for a file.
fn push_step(
    alloc: Global,
    volume: &Volume,
    step: FileStep,
    path: &[u8],
    file: GivenFile,
    owner: Option<Cred>,
    now: u32,
    calls: &mut Vec<Call>,
) -> Result<(), AllocError>
    ensures { OnOk result (calls.new.items ≡ calls.old.items
        ++ step_calls step (reads_as volume.now.edition volume.now.image).tree now path.now file owner) }
{
    match step {
        FileStep::Leave => Ok(()),
        FileStep::Mark => {
            let target = find_target(alloc, volume, path)?;
            push_kept(alloc, target, path, file.kept, now, calls)
        }
        FileStep::Put => push_calls(alloc, volume, path, file, owner, now, calls),
        FileStep::Replace { owner: old } => {
            let unlink = unlink_call(alloc, path, now)?;
            push(calls, unlink)?;
            let owner = Some(owner.unwrap_or(old));
            push_onto(alloc, Target::Missing, path, file, owner, now, calls)
        }
    }
}

/// Appends the line for a file that something is done with.
fn push_step_line(step: FileStep, path: &[u8], lines: &mut Vec<u8>) -> Result<(), AllocError>
    ensures { OnOk result (lines.new.items ≡ lines.old.items ++ step_line step path.now) }
{
    match step {
        FileStep::Leave => Ok(()),
        FileStep::Mark => push_line(b"mark ", path, lines),
        FileStep::Put | FileStep::Replace { .. } => push_line(b"put ", path, lines),
    }
}

/// Appends a line: a word, and a path of the volume with unprintable bytes escaped.
pub(crate) fn push_line(word: &[u8], path: &[u8], lines: &mut Vec<u8>) -> Result<(), AllocError>
    ensures { OnOk result (lines.new.items ≡ lines.old.items ++ line_of word.now path.now) }
{
    lines.extend_from_slice(word)?;
    push_escaped(lines, from_root(path))?;
    lines.push(b'\n')?;
    Ok(())
}
