//! Messages for archives that can't be imported.
ghost use Rattle.std.specs.Prelude.{◌≡◌, ◌++◌, IfOk, OnOk};
ghost use Rattle.command_faults.specs.Faults.{fault_line, fault_status};
ghost use Rattle.command_changes.specs.Import.{TellsFault};
ghost use Rattle.command_changes.specs.ImportLines.{header_text, line_at, archive_line, worded_line, member_line, path_of, archive_status, from_root, import_status, import_line, left_line, left_lines};

use command_faults::Fault;
use command_faults::path_lines::refused_at;
use escaped_text::push_escaped;
use std::alloc::{AllocError, Global};
use ustar::HeaderFault;
use vol_dir::Refusal;
use vol_import::{ArchiveFault, ImportFault, MemberFault};
use vol_volume::{Bytes, Call};

/// The reason in the line about a member that is a sparse file.
pub const SPARSE_FILE: &[u8] = b"a sparse file";

/// Returns the fault of a command that can't import an archive for this reason, or out of memory if there is too little memory for its line.
pub(crate) fn fault_of(alloc: Global, why: &ImportFault) -> Fault
    ensures { TellsFault why.now result }
{
    match worded(alloc, why) {
        Ok(fault) => fault,
        Err(refused) => Fault::from(refused),
    }
}

/// Returns the fault of a command that can't import an archive for this reason.
fn worded(alloc: Global, why: &ImportFault) -> Result<Fault, AllocError>
    ensures status { IfOk result (λ fault. fault_status fault ≡ import_status why.now) }
    ensures line { IfOk result (λ fault. fault_line fault ≡ import_line why.now) }
{
    match why {
        ImportFault::Unsound(rule) => Ok(Fault::Unsound(*rule)),
        ImportFault::Archive(fault) => unread(alloc, fault),
        ImportFault::Member(path, cause) => unmade(alloc, path.as_slice(), *cause),
        ImportFault::Refused(refusal, call) => refused_at(
            alloc,
            *refusal,
            from_root(path_of(call).as_slice()),
        ),
        ImportFault::NoMemory => Ok(Fault::Refused(Refusal::NoMemory)),
    }
}

/// Returns the fault for an archive that can't be read.
fn unread(alloc: Global, fault: &ArchiveFault) -> Result<Fault, AllocError>
    ensures status { IfOk result (λ unread. fault_status unread ≡ archive_status fault.now) }
    ensures line { IfOk result (λ unread. fault_line unread ≡ archive_line fault.now) }
{
    let lines = match fault {
        ArchiveFault::Truncated(at) => line_at(alloc, *at, b"cut off")?,
        ArchiveFault::LoneZeroBlock(at) => line_at(alloc, *at, b"a lone block of zeros")?,
        ArchiveFault::Header(at, fault) => line_at(alloc, *at, header_text(*fault))?,
        ArchiveFault::Records(at) => line_at(alloc, *at, b"records of pax that can't be read")?,
        ArchiveFault::Unsupported(at) => {
            line_at(alloc, *at, b"records of pax that can't be followed")?
        }
        ArchiveFault::Sparse(path) => worded_line(alloc, path.as_slice(), SPARSE_FILE)?,
        ArchiveFault::NoMemory => return Ok(Fault::Refused(Refusal::NoMemory)),
    };
    Ok(Fault::Worded { rule: None, lines })
}

/// Returns the reason why a block isn't a header.
fn header_text(fault: HeaderFault) -> &'static [u8]
    ensures { result.now ≡ header_text fault }
{
    match fault {
        HeaderFault::Magic => b"no header of tar",
        HeaderFault::Checksum => b"a header with a wrong checksum",
        HeaderFault::Number => b"a header with a field that is no number",
    }
}

/// Returns the message for a byte of an archive.
fn line_at(alloc: Global, at: usize, text: &[u8]) -> Result<Vec<u8>, AllocError>
    ensures { IfOk result (λ line. line.items ≡ line_at at text.now) }
{
    let place = format!(in alloc; "unixvol: archive, byte {at}: ")?;
    let mut line = Vec::from_slice(alloc, place.as_bytes())?;
    line.extend_from_slice(text)?;
    line.push(b'\n')?;
    Ok(line)
}

/// Returns the fault for a member that can't be made.
fn unmade(alloc: Global, path: &[u8], cause: MemberFault) -> Result<Fault, AllocError>
    ensures status { IfOk result (λ fault. fault_status fault ≡ 1) }
    ensures line { IfOk result (λ fault. fault_line fault ≡ member_line path.now cause) }
{
    match cause {
        MemberFault::Kind => in_words(
            alloc,
            path,
            b"neither a file, a directory, a hard link nor a device",
        ),
        MemberFault::LongPath => in_words(alloc, path, b"a path above 4096 bytes"),
        MemberFault::LongName => in_words(alloc, path, b"a name above 14 bytes"),
        MemberFault::DotDot => in_words(alloc, path, b"a name .."),
        MemberFault::LongLinkPath => in_words(alloc, path, b"a link to a path above 4096 bytes"),
        MemberFault::LongLink => in_words(
            alloc,
            path,
            b"a link to a path with a name above 14 bytes",
        ),
        MemberFault::DotDotLink => in_words(alloc, path, b"a link to a path with a name .."),
        MemberFault::Device => in_words(alloc, path, b"a major or minor number above 255"),
        MemberFault::Owner => in_words(
            alloc,
            path,
            b"an owner or a group above the edition's highest",
        ),
        MemberFault::NoInode => refused_at(alloc, Refusal::NoInode, from_root(path)),
        MemberFault::Number => in_words(alloc, path, header_text(HeaderFault::Number)),
    }
}

/// Returns the fault for a member, with a text.
fn in_words(alloc: Global, path: &[u8], text: &[u8]) -> Result<Fault, AllocError>
    ensures status { IfOk result (λ fault. fault_status fault ≡ 1) }
    ensures line { IfOk result (λ fault. fault_line fault ≡ worded_line path.now text.now) }
{
    let lines = worded_line(alloc, path, text)?;
    Ok(Fault::Worded { rule: None, lines })
}

/// Returns the message for a member, with a text.
pub(crate) fn worded_line(alloc: Global, path: &[u8], text: &[u8]) -> Result<Vec<u8>, AllocError>
    ensures { IfOk result (λ line. line.items ≡ worded_line path.now text.now) }
{
    let mut line = Vec::from_slice(alloc, b"unixvol: ")?;
    push_escaped(&mut line, path)?;
    line.extend_from_slice(b": ")?;
    line.extend_from_slice(text)?;
    line.push(b'\n')?;
    Ok(line)
}

/// Returns the lines for the members that are left out, by their paths.
pub(crate) fn left_lines(alloc: Global, paths: &[Bytes]) -> Result<Vec<u8>, AllocError>
    ensures { IfOk result (λ lines. lines.items ≡ left_lines paths.now) }
{
    let mut lines = Vec::new(alloc);
    for path in paths {
        push_left(alloc, path.as_slice(), &mut lines)?;
    }
    Ok(lines)
}

/// Appends the line for a member that is left out.
fn push_left(alloc: Global, path: &[u8], lines: &mut Vec<u8>) -> Result<(), AllocError>
    ensures { OnOk result (lines.new.items ≡ lines.old.items ++ left_line path.now) }
{
    let line = worded_line(alloc, path, b"a special file, left out")?;
    lines.extend_from_slice(&line)?;
    Ok(())
}

/// Returns a path in a volume. If it begins with two slashes (the root, and a name below it), the first one is dropped.
pub(crate) fn from_root(path: &[u8]) -> &[u8]
    ensures { result.now ≡ from_root path.now }
{
    if path.len() > 1 && path[0] == b'/' && path[1] == b'/' {
        &path[1..]
    } else {
        path
    }
}

/// Returns the path that a call makes or changes.
fn path_of(call: &Call) -> &Bytes
    ensures { result.now ≡ path_of call.now }
{
    match call {
        Call::Create { path, .. } | Call::Mkdir { path, .. } | Call::Mknod { path, .. } => path,
        Call::Link { target, .. } => target,
        Call::Unlink { path, .. } | Call::Rmdir { path, .. } => path,
        Call::Write { path, .. } | Call::Truncate { path, .. } => path,
        Call::Chmod { path, .. } | Call::Chown { path, .. } | Call::Times { path, .. } => path,
    }
}
