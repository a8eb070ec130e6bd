//! `put` puts a file into a volume; `put -t` puts several files into a directory.
ghost use Rattle.std.specs.Prelude.{◌≡◌, ◌++◌, IfOk, IfErr, OnOk, Ok};
ghost use Rattle.vol_dir.specs.Access.{user};
ghost use Rattle.vol_volume.specs.Answer.{answer};
ghost use Rattle.vol_volume.specs.Volume.{reads_as};
ghost use Rattle.vol_volume.specs.declared.queries.Query.TheVariants as questions;
ghost use Rattle.vol_import.specs.Make.{IsReason as IsStopped, told};
ghost use Rattle.vol_import.specs.Plan.{Tells};
ghost use Rattle.command_faults.specs.ChangeFaults.{IsReason};
ghost use Rattle.command_faults.specs.Outcomes.{Concludes, IsAmong};
ghost use Rattle.command_faults.specs.Streams.{Hears, heard, streams};
ghost use Rattle.command_changes.specs.Import.{IsUnimported, of_import};
ghost use Rattle.command_changes.specs.Put.{calls_on, calls_to_put, emptying_by, kept_calls, onto, permissions_of, put_calls, target_by, with_execution};
ghost use Rattle.command_changes.specs.Traced.{ImportsVolume, MakesVolume};

use crate::calls::{make_calls, push};
use crate::chown::push_owner;
use crate::import_lines::fault_of;
use crate::kept::{GivenFile, Kept};
use crate::lookup::name_in;
use crate::traced::traced;
use command_faults::answer::{conclude, tell};
use command_faults::mount::mount;
use command_faults::{Answer, Fault, Remarked};
use pdp_words::Sink;
use std::alloc::{AllocError, Global};
use vol_dir::{Cred, Refusal};
use vol_import::{ImportFault, MemberFault, PlanFault, make};
use vol_layout::Edition;
use vol_layout::slot::NAME;
use vol_volume::{Bytes, Call, Query, Reply, Volume};

/// The permissions of a new file.
pub(crate) const FILE_PERMISSIONS: u16 = 0o644;

/// The permissions to execute a file.
const EXECUTION: u16 = 0o111;

/// All other permissions.
const NO_EXECUTION: u16 = 0o7666;

/// A file to put into a directory of a volume.
#[derive(Drop)]
pub struct NewFile<'a> {
    /// Its name there, at most 14 bytes.
    pub name: &'a str,
    /// Its bytes, and what it gets besides them.
    pub content: GivenFile,
}

/// What is at a path.
#[derive(Clone, Copy)]
pub(crate) enum Target {
    /// Nothing.
    Missing,
    /// A node with these permissions.
    Node { permissions: u16 },
    /// What can't be told, since the path can't be walked.
    Unknown,
}

/// Empties a file, or makes an empty one, writes the bytes of `file` into it, and gives it its owner, if one is given, and what is kept of the host's
/// file, for `put`. Nothing is saved unless all calls are accepted.
///
/// Takes the memory of [`Volume::mount`], and memory for a copy of the path per call, which the journal keeps; the file's bytes are in memory only once.
/// Walks the path once per call, and once more first.
pub(crate) fn put(
    alloc: Global,
    edition: Edition,
    image: Vec<u8>,
    path: &str,
    file: GivenFile,
    owner: Option<Cred>,
    now: u32,
) -> Result<Volume, Fault>
    ensures made { IfOk result (MakesVolume edition image.items
        (put_calls (reads_as edition image.items).tree now path.now file.bytes.items file.kept owner)) }
    ensures fault { IfErr result (IsReason edition image.items
        (put_calls (reads_as edition image.items).tree now path.now file.bytes.items file.kept owner)) }
{
    let mut volume = mount(alloc, edition, image)?;
    let calls = calls_for(alloc, &volume, path.as_bytes(), file, owner, now)?;
    make_calls(alloc, &mut volume, calls)?;
    Ok(volume)
}

/// Returns the calls that `put` makes.
fn calls_for(
    alloc: Global,
    volume: &Volume,
    path: &[u8],
    file: GivenFile,
    owner: Option<Cred>,
    now: u32,
) -> Result<Vec<Call>, AllocError>
    ensures { IfOk result (λ calls. calls.items
        ≡ put_calls (reads_as volume.now.edition volume.now.image).tree now path.now file.bytes.items file.kept owner) }
{
    let mut calls = Vec::new(alloc);
    push_calls(alloc, volume, path, file, owner, now, &mut calls)?;
    Ok(calls)
}

/// Puts files as [`put_files`] does, and writes the line of a fault to `errors`. Writes nothing to `_output`.
pub fn put_all<O: Sink, E: Sink>(
    alloc: Global,
    edition: Edition,
    image: Vec<u8>,
    directory: &str,
    files: Vec<NewFile<'_>>,
    owner: Option<Cred>,
    now: u32,
    trace: bool,
    _output: &mut O,
    errors: &mut E,
) -> Answer
    ensures outcome { Concludes (of_import edition image.items (told (calls_to_put (reads_as edition image.items).tree now directory.now owner files.entry.items)) trace)
        (streams O.contents O.failed _output.old _output.new result.fault) result }
    ensures told { Hears (heard E.contents E.failed errors.old errors.new) result.fault }
{
    let answer = conclude(put_files(alloc, edition, image, directory, files, owner, now, trace));
    tell(&answer.fault, errors);
    answer
}

/// Puts files into a directory, each as `put` does, for `put -t`: a missing file is made with permissions 0644, an existing one is emptied, then the
/// bytes are written, and then the file gets its owner, if one is given, and what is kept of the host's file. If one of the files can't be put, nothing
/// is saved, and the fault is the rule that the image breaks, the first name above 14 bytes, or the refusal of a call with its path. If two files have
/// the same name, the second is refused as `Exists` if the name is new, and otherwise replaces the first. If `trace` is true, the outcome has the trace
/// of the calls.
///
/// Moves the files' bytes into the calls. Takes memory to mount the image and for two paths per file, and walks each file's path. For a trace, takes the
/// memory and the time of [`vol_trace::trace_of`] too.
pub fn put_files(
    alloc: Global,
    edition: Edition,
    image: Vec<u8>,
    directory: &str,
    files: Vec<NewFile<'_>>,
    owner: Option<Cred>,
    now: u32,
    trace: bool,
) -> Result<Remarked, Fault>
    ensures { IsAmong (of_import edition image.items (told (calls_to_put (reads_as edition image.items).tree now directory.now owner files.entry.items)) trace) result }
{
    let made = put_into(alloc, edition, image, directory, files, owner, now);
    traced(alloc, made, trace)
}

/// Makes the calls of `put -t`, and returns the volume after them.
fn put_into(
    alloc: Global,
    edition: Edition,
    image: Vec<u8>,
    directory: &str,
    files: Vec<NewFile<'_>>,
    owner: Option<Cred>,
    now: u32,
) -> Result<Volume, Fault>
    ensures made { IfOk result (ImportsVolume edition image.items (told (calls_to_put (reads_as edition image.items).tree now directory.now owner files.entry.items))) }
    ensures fault { IfErr result (IsUnimported edition image.items (told (calls_to_put (reads_as edition image.items).tree now directory.now owner files.entry.items))) }
{
    match make_puts(
        alloc,
        edition,
        image,
        directory.as_bytes(),
        files,
        owner,
        now,
    ) {
        Ok(volume) => Ok(volume),
        Err(why) => Err(fault_of(alloc, &why)),
    }
}

/// Makes the calls of `put -t`, or returns the reason not to make them.
fn make_puts(
    alloc: Global,
    edition: Edition,
    image: Vec<u8>,
    directory: &[u8],
    files: Vec<NewFile<'_>>,
    owner: Option<Cred>,
    now: u32,
) -> Result<Volume, ImportFault>
    ensures made { IfOk result (ImportsVolume edition image.items (told (calls_to_put (reads_as edition image.items).tree now directory.now owner files.entry.items))) }
    ensures fault { IfErr result (IsStopped edition image.items (told (calls_to_put (reads_as edition image.items).tree now directory.now owner files.entry.items))) }
{
    let mut volume = make::mount(alloc, edition, image)?;
    let calls = match calls_to_put(alloc, &volume, directory, files, owner, now) {
        Ok(calls) => calls,
        Err(fault) => return Err(make::unplanned(fault)),
    };
    make::make(alloc, &mut volume, calls)?;
    volume.check();
    Ok(volume)
}

/// Returns the calls that `put -t` makes.
fn calls_to_put(
    alloc: Global,
    volume: &Volume,
    directory: &[u8],
    files: Vec<NewFile<'_>>,
    owner: Option<Cred>,
    now: u32,
) -> Result<Vec<Call>, PlanFault>
    ensures ok { IfOk result (λ calls. calls_to_put (reads_as volume.now.edition volume.now.image).tree now directory.now owner files.entry.items ≡ Ok calls.items) }
    ensures fault { IfErr result (Tells (calls_to_put (reads_as volume.now.edition volume.now.image).tree now directory.now owner files.entry.items)) }
{
    let mut calls = Vec::new(alloc);
    let mut left = files;
    left.reverse();
    'files: while let Some(file) = left.pop() {
        push_file(alloc, volume, directory, file, owner, now, &mut calls)?;
    }
    Ok(calls)
}

/// Appends the calls that put a file, unless its name is too long for a directory.
fn push_file(
    alloc: Global,
    volume: &Volume,
    directory: &[u8],
    file: NewFile<'_>,
    owner: Option<Cred>,
    now: u32,
    calls: &mut Vec<Call>,
) -> Result<(), PlanFault>
    ensures ok { OnOk result (onto (reads_as volume.now.edition volume.now.image).tree now directory.now owner calls.old.items file.entry ≡ Ok calls.new.items) }
    ensures fault { IfErr result (Tells (onto (reads_as volume.now.edition volume.now.image).tree now directory.now owner calls.old.items file.entry)) }
{
    if file.name.len() > NAME {
        let name = Bytes::from_slice(alloc, file.name.as_bytes())?;
        return Err(PlanFault::Member(name, MemberFault::LongName));
    }
    let path = name_in(alloc, directory, file.name.as_bytes())?;
    push_calls(
        alloc,
        volume,
        path.as_slice(),
        file.content,
        owner,
        now,
        calls,
    )?;
    Ok(())
}

/// Appends the calls that put a file at a path, by what is there. Costs a walk.
pub(crate) fn push_calls(
    alloc: Global,
    volume: &Volume,
    path: &[u8],
    file: GivenFile,
    owner: Option<Cred>,
    now: u32,
    calls: &mut Vec<Call>,
) -> Result<(), AllocError>
    ensures { OnOk result (calls.new.items ≡ calls.old.items
        ++ put_calls (reads_as volume.now.edition volume.now.image).tree now path.now file.bytes.items file.kept owner) }
{
    let target = find_target(alloc, volume, path)?;
    push_onto(alloc, target, path, file, owner, now, calls)
}

/// Appends the calls that put a file at a path where this is.
pub(crate) fn push_onto(
    alloc: Global,
    target: Target,
    path: &[u8],
    file: GivenFile,
    owner: Option<Cred>,
    now: u32,
    calls: &mut Vec<Call>,
) -> Result<(), AllocError>
    ensures { OnOk result (calls.new.items ≡ calls.old.items ++ calls_on target now path.now file.bytes.items file.kept owner) }
{
    let GivenFile { bytes, kept } = file;
    let empty = emptying_call(alloc, target, path, now)?;
    push(calls, empty)?;
    let write = Call::Write {
        cred: Cred::ROOT,
        now,
        path: Bytes::from_slice(alloc, path)?,
        offset: 0,
        bytes: Bytes::from_vec(bytes),
    };
    push(calls, write)?;
    push_owner(alloc, path, owner, now, calls)?;
    push_kept(alloc, target, path, kept, now, calls)
}

/// Returns what is at a path. Costs a walk.
pub(crate) fn find_target(alloc: Global, volume: &Volume, path: &[u8]) -> Result<Target, AllocError>
    ensures { IfOk result (λ target. target ≡ target_by (answer (reads_as volume.now.edition volume.now.image).tree (questions.Stat user path.now))) }
{
    let query = Query::Stat {
        cred: Cred::ROOT,
        path: Bytes::from_slice(alloc, path)?,
    };
    match volume.ask(alloc, &query) {
        Ok(Reply::Stat(stat)) => Ok(Target::Node {
            permissions: stat.permissions,
        }),
        Err(Refusal::NoEntry) => Ok(Target::Missing),
        _ => Ok(Target::Unknown),
    }
}

/// Returns the call that empties a file, or makes an empty one if it is missing.
fn emptying_call(alloc: Global, target: Target, path: &[u8], now: u32) -> Result<Call, AllocError>
    ensures { IfOk result (λ call. call ≡ emptying_by target now path.now) }
{
    let cred = Cred::ROOT;
    let path = Bytes::from_slice(alloc, path)?;
    match target {
        Target::Missing => Ok(Call::Create {
            cred,
            now,
            path,
            perm: FILE_PERMISSIONS,
        }),
        Target::Node { .. } | Target::Unknown => Ok(Call::Truncate {
            cred,
            now,
            path,
            length: 0,
        }),
    }
}

/// Appends the calls that give a file what is kept of the host's file, besides its bytes.
pub(crate) fn push_kept(
    alloc: Global,
    target: Target,
    path: &[u8],
    kept: Kept,
    now: u32,
    calls: &mut Vec<Call>,
) -> Result<(), AllocError>
    ensures { OnOk result (calls.new.items ≡ calls.old.items ++ kept_calls target now path.now kept) }
{
    let cred = Cred::ROOT;
    match kept {
        Kept::Nothing => Ok(()),
        Kept::Execution { permissions } => {
            let perm = with_execution(permissions_of(target), permissions);
            let path = Bytes::from_slice(alloc, path)?;
            push(
                calls,
                Call::Chmod {
                    cred,
                    now,
                    path,
                    perm,
                },
            )
        }
        Kept::All {
            permissions,
            modified,
        } => {
            let chmod = Call::Chmod {
                cred,
                now,
                path: Bytes::from_slice(alloc, path)?,
                perm: permissions,
            };
            push(calls, chmod)?;
            let times = Call::Times {
                cred,
                now,
                path: Bytes::from_slice(alloc, path)?,
                atime: now,
                mtime: modified,
            };
            push(calls, times)
        }
    }
}

/// Returns the permissions of a file after it was emptied or made.
pub(crate) fn permissions_of(target: Target) -> u16
    ensures { result ≡ permissions_of target }
{
    match target {
        Target::Node { permissions } => permissions,
        Target::Missing | Target::Unknown => FILE_PERMISSIONS,
    }
}

/// Returns permissions with their execute bits replaced by those of others.
#[tactic(auto, unfolding(crate::specs::Put::with_execution))]
pub(crate) fn with_execution(own: u16, other: u16) -> u16
    ensures { result ≡ with_execution own other }
{
    own & NO_EXECUTION | other & EXECUTION
}
