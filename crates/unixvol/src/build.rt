//! `build`: reading its list and the files that the list names, and saving the volume.
ghost use Rattle.std.specs.Prelude.{◌≡◌, ℕ, All, Bool, IfErr, IfOk, List, Option, map};
ghost use Rattle.std.specs.Path.{path_buf_bytes};
ghost use Rattle.command_faults.specs.Streams.{still};
ghost use Rattle.unixvol.specs.Builds.{IsContentRead, IsFilled, IsProgramRead, place_of};
ghost use Rattle.unixvol.specs.FileFaults.{file_status, run_fault, run_status};
ghost use Rattle.unixvol.specs.Runs.{Ends, GaveBytes, GavePut, IsStatusOfFileOrMemory, IsUnread, RunsBuild, host_files};

use crate::file_fault::{FailedRun, FileFault, NamedFile, after_saving};
use crate::host::Surroundings;
use crate::read::{read_given, read_open};
use crate::save::{expect_apart, save_answer_over};
use command_changes::{FilledList, build_volume, list_of};
use command_faults::Ending;
use command_faults::answer::{conclude, unremarked};
use command_line::MadeFile;
use command_terms::Keep;
use host_files::{ImageFiles, Stamp, UpTo, open_stamped};
use pack_lists::{FilledMember, HostPath, ListedMember, PackList};
use std::alloc::{AllocError, Global};
use std::path::{Path, PathBuf};
use std::rt::Clock;
use vol_layout::Edition;

/// Makes a volume of all that the list in the file `list` has, saves it in the file `new`, and returns the result of the run. Neither the file of the list nor
/// one that it names is replaced, whatever its path.
pub fn run_build<'a, R: ImageFiles + Clock + Eprint + AllocGlobal>(
    host: &Surroundings<'_, R>,
    list: &'a str,
    new: MadeFile<'a>,
) -> Result<Ending, FailedRun<'a>>
    ensures runs { (known : Option (List ℕ)) (failed : Bool)
        → RunsBuild (still known failed (run_fault result)) (host_files 0 R.File.remaining R.File.contents R.had R.stood) list.now (run_status result) }
    ensures ends { (known : Option (List ℕ)) (failed : Bool) → Ends (still known failed (run_fault result)) (run_status result) }
{
    let alloc = host.rt.alloc();
    let (text, stamp) = read_text(host.rt, list)?;
    let listed = match list_of(alloc, list, &text) {
        Ok(listed) => listed,
        Err(ending) => return Ok(ending),
    };
    let filled = fill(host.rt, list, &listed, new.path)?;
    let answer = conclude(unremarked(alloc, build_volume(alloc, filled)));
    let saved = save_answer_over(host, new, stamp, &answer);
    after_saving(saved, answer.status, answer.fault)
}

/// Reads a file to its end, and returns its bytes with its stamp.
fn read_text<'a, R: ImageFiles + AllocGlobal>(
    rt: &R,
    path: &'a str,
) -> Result<(Vec<u8>, Stamp), FileFault<'a>>
    ensures given { IfOk result (λ read. GaveBytes R.File.remaining read.0.items) }
    ensures fault { IfErr result (λ fault. IsUnread R.File.remaining (file_status fault)) }
{
    let named = NamedFile::File(path);
    match open_stamped(rt, path) {
        Ok((file, stamp)) => Ok((read_open(rt.alloc(), named, UpTo::End, file)?.bytes, stamp)),
        Err(why) => Err(FileFault::Unread(named, why)),
    }
}

/// Reads the files that the list in the file `list` names, that of the boot block and then those of its members, in their order; unless one of them is the file
/// to write, `new`.
fn fill<'a, 'l, R: ImageFiles + AllocGlobal>(
    rt: &R,
    list: &str,
    listed: &'l PackList,
    new: &'a str,
) -> Result<FilledList<'l>, FileFault<'a>>
    ensures filled { IfOk result (IsFilled (λ edition. GavePut edition R.File.remaining) listed.now) }
    ensures fault { IfErr result (λ fault. IsStatusOfFileOrMemory (file_status fault)) }
{
    expect_unlisted(rt, list, listed, new)?;
    let volume = listed.volume;
    let boot = read_program(rt, list, volume.sizes.edition, &listed.boot)?;
    let members = fill_members(rt, list, volume.sizes.edition, &listed.members)?;
    Ok(FilledList {
        volume,
        boot,
        root: listed.root,
        members,
    })
}

/// Checks that a file to write, `new`, is none of those that the list in the file `list` names.
fn expect_unlisted<'a, R: ImageFiles + AllocGlobal>(
    rt: &R,
    list: &str,
    listed: &PackList,
    new: &'a str,
) -> Result<(), FileFault<'a>>
    ensures { IfErr result (λ fault. IsStatusOfFileOrMemory (file_status fault)) }
{
    if let Some(file) = &listed.boot {
        expect_unread(rt, list, file, new)?;
    }
    for member in &listed.members {
        if let ListedMember::File { file, .. } = member {
            expect_unread(rt, list, file, new)?;
        }
    }
    Ok(())
}

/// Checks that a file to write, `new`, isn't this one that the list in the file `list` names.
fn expect_unread<'a, R: ImageFiles + AllocGlobal>(
    rt: &R,
    list: &str,
    file: &HostPath,
    new: &'a str,
) -> Result<(), FileFault<'a>>
    ensures { IfErr result (λ fault. IsStatusOfFileOrMemory (file_status fault)) }
{
    let Ok(place) = place_of(rt.alloc(), list, file.as_str()) else {
        return Err(FileFault::NoMemory);
    };
    expect_apart(rt, place.as_str(), new)
}

/// Reads the program for the boot block, if a list names its file.
fn read_program<'a, R: ImageFiles + AllocGlobal>(
    rt: &R,
    list: &str,
    edition: Edition,
    boot: &Option<HostPath>,
) -> Result<Option<Vec<u8>>, FileFault<'a>>
    ensures read { IfOk result (IsProgramRead (GavePut edition R.File.remaining) boot.now) }
    ensures fault { IfErr result (λ fault. IsStatusOfFileOrMemory (file_status fault)) }
{
    match boot {
        Some(file) => Ok(Some(read_listed(rt, list, edition, file.as_str())?)),
        None => Ok(None),
    }
}

/// Reads the files of the members of a list.
fn fill_members<'a, 'l, R: ImageFiles + AllocGlobal>(
    rt: &R,
    list: &str,
    edition: Edition,
    members: &'l [ListedMember],
) -> Result<Vec<FilledMember<'l>>, FileFault<'a>>
    ensures members { IfOk result (λ filled. map (λ member. member.listed.now) filled.items ≡ members.now) }
    ensures read { IfOk result (λ filled. All (λ member. IsContentRead (GavePut edition R.File.remaining) member.listed.now member.content.items) filled.items) }
    ensures fault { IfErr result (λ fault. IsStatusOfFileOrMemory (file_status fault)) }
{
    let mut filled = Vec::new(rt.alloc());
    'members: for listed in members {
        let content = read_content(rt, list, edition, listed)?;
        let Ok(()) = filled.push(FilledMember { listed, content }) else {
            return Err(FileFault::NoMemory);
        };
    }
    Ok(filled)
}

/// Reads the file of a member; a member that is no regular file has none.
fn read_content<'a, R: ImageFiles + AllocGlobal>(
    rt: &R,
    list: &str,
    edition: Edition,
    listed: &ListedMember,
) -> Result<Vec<u8>, FileFault<'a>>
    ensures read { IfOk result (λ bytes. IsContentRead (GavePut edition R.File.remaining) listed.now bytes.items) }
    ensures fault { IfErr result (λ fault. IsStatusOfFileOrMemory (file_status fault)) }
{
    match listed {
        ListedMember::File { file, .. } => read_listed(rt, list, edition, file.as_str()),
        _ => Ok(Vec::new(rt.alloc())),
    }
}

/// Reads a file that the list in the file `list` names, up to one byte more than any file of the edition has.
fn read_listed<'a, R: ImageFiles + AllocGlobal>(
    rt: &R,
    list: &str,
    edition: Edition,
    file: &str,
) -> Result<Vec<u8>, FileFault<'a>>
    ensures given { IfOk result (λ bytes. GavePut edition R.File.remaining bytes.items) }
    ensures fault { IfErr result (λ fault. IsStatusOfFileOrMemory (file_status fault)) }
{
    let Ok(place) = place_of(rt.alloc(), list, file) else {
        return Err(FileFault::NoMemory);
    };
    match read_given(rt, edition, place.as_str(), Keep::Nothing) {
        Ok(given) => Ok(given.bytes),
        Err(fault) => Err(fault.owned(rt.alloc(), place.as_str())),
    }
}

/// Returns the path of a file that the list in the file `list` names: a relative one begins at the folder of the list.
fn place_of(alloc: Global, list: &str, file: &str) -> Result<PathBuf, AllocError>
    ensures { IfOk result (λ place. path_buf_bytes place ≡ place_of list.now file.now) }
{
    let folder = Path::new(list).parent().unwrap_or(Path::new(""));
    folder.join(alloc, file)
}
