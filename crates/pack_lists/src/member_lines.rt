//! Reads the lines of a list after their first word.
ghost use Rattle.std.specs.Prelude.{◌≡◌, Ok, IfOk, IfErr};
ghost use Rattle.line_words.specs.Pieces.{words_of};
ghost use Rattle.pack_lists.specs.Faults.{TellsLine};
ghost use Rattle.pack_lists.specs.MemberLines.{boot_in, device_in, directory_in, file_member_in, kind_named, kind_word, link_in, member_in, root_in, sizes_in, start_in, time_in};
ghost use Rattle.pack_lists.specs.Texts.{device_line, line_of};

use crate::faults::LineFault;
use crate::members::{
    HostPath, ListedMember, ListedOwner, ListedPath, NodeMarks, RootMarks, VolumeSizes,
};
use crate::words::{
    blocks, device_number, edition, end, file, list_blocks_or, owner, path, permissions, seconds,
    seconds_or,
};
use disk_sizes::list_default;
use line_words::Pieces;
use std::alloc::Global;
use vol_layout::{DeviceId, DeviceKind};

/// The kind of a member, which the first word of its line names.
#[derive(Clone, Copy)]
pub(crate) enum MemberKind {
    Directory,
    File,
    Link,
    Character,
    Block,
}

/// All kinds.
static KINDS: [MemberKind; 5] = [
    MemberKind::Directory,
    MemberKind::File,
    MemberKind::Link,
    MemberKind::Character,
    MemberKind::Block,
];

impl MemberKind {
    /// Returns the kind of a member.
    pub(crate) fn of(member: &ListedMember) -> MemberKind
        ensures { result ≡ line_of member.now }
    {
        match member {
            ListedMember::Directory { .. } => MemberKind::Directory,
            ListedMember::File { .. } => MemberKind::File,
            ListedMember::Device { device, .. } => MemberKind::of_device(device.kind),
            ListedMember::Link { .. } => MemberKind::Link,
        }
    }

    /// Returns the kind of a special file.
    fn of_device(kind: DeviceKind) -> MemberKind
        ensures { result ≡ device_line kind }
    {
        match kind {
            DeviceKind::Character => MemberKind::Character,
            DeviceKind::Block => MemberKind::Block,
        }
    }

    /// Returns the word for the kind.
    pub(crate) fn word(self) -> &'static str
        ensures { result.now ≡ kind_word self }
    {
        match self {
            MemberKind::Directory => "dir",
            MemberKind::File => "file",
            MemberKind::Link => "link",
            MemberKind::Character => "char",
            MemberKind::Block => "block",
        }
    }

    /// Returns the kind with this word.
    pub(crate) fn named(word: &[u8]) -> Option<MemberKind>
        ensures { result ≡ kind_named word.now }
    {
        KINDS
            .iter()
            .copied()
            .find(|kind| kind.word().as_bytes() == word)
    }
}

/// The values that begin the lines of all members but links.
#[derive(Drop)]
struct LineStart {
    path: ListedPath,
    permissions: u16,
    owner: ListedOwner,
}

impl LineStart {
    /// Returns the path, and the marks of a member that was last written at this time.
    fn marked(self, modified: u32) -> (ListedPath, NodeMarks)
        ensures path { result.0 ≡ self.path }
        ensures permissions { result.1.permissions ≡ self.permissions }
        ensures owner { result.1.owner ≡ self.owner }
        ensures modified { result.1.modified ≡ modified }
    {
        let LineStart {
            path,
            permissions,
            owner,
        } = self;
        let marks = NodeMarks {
            permissions,
            owner,
            modified,
        };
        (path, marks)
    }
}

/// Reads the words after `volume`.
pub(crate) fn sizes_in(alloc: Global, words: &mut Pieces<'_>) -> Result<VolumeSizes, LineFault>
    ensures ok { IfOk result (λ sizes. sizes_in (words_of words.old) ≡ Ok sizes) }
    ensures fault { IfErr result (TellsLine (sizes_in (words_of words.old))) }
{
    let edition = edition(alloc, words)?;
    let blocks = blocks(alloc, words)?;
    let list_blocks = list_blocks_or(alloc, words, list_default(edition, blocks))?;
    Ok(VolumeSizes {
        edition,
        blocks,
        list_blocks,
    })
}

/// Reads the words after `time`.
pub(crate) fn time_in(alloc: Global, words: &mut Pieces<'_>) -> Result<u32, LineFault>
    ensures ok { IfOk result (λ time. time_in (words_of words.old) ≡ Ok time) }
    ensures fault { IfErr result (TellsLine (time_in (words_of words.old))) }
{
    let time = seconds(alloc, words)?;
    end(alloc, words)?;
    Ok(time)
}

/// Reads the words after `boot`.
pub(crate) fn boot_in(alloc: Global, words: &mut Pieces<'_>) -> Result<HostPath, LineFault>
    ensures ok { IfOk result (λ boot. boot_in (words_of words.old) ≡ Ok boot) }
    ensures fault { IfErr result (TellsLine (boot_in (words_of words.old))) }
{
    let boot = file(alloc, words)?;
    end(alloc, words)?;
    Ok(boot)
}

/// Reads the words after `root`.
pub(crate) fn root_in(alloc: Global, words: &mut Pieces<'_>) -> Result<RootMarks, LineFault>
    ensures ok { IfOk result (λ root. root_in (words_of words.old) ≡ Ok root) }
    ensures fault { IfErr result (TellsLine (root_in (words_of words.old))) }
{
    let permissions = permissions(alloc, words)?;
    let owner = owner(alloc, words)?;
    end(alloc, words)?;
    Ok(RootMarks { permissions, owner })
}

/// Reads the words after the first word of a member's line. A member without a time of its own has this time.
pub(crate) fn member_in(
    alloc: Global,
    kind: MemberKind,
    time: u32,
    words: &mut Pieces<'_>,
) -> Result<ListedMember, LineFault>
    ensures ok { IfOk result (λ member. member_in kind time (words_of words.old) ≡ Ok member) }
    ensures fault { IfErr result (TellsLine (member_in kind time (words_of words.old))) }
{
    match kind {
        MemberKind::Directory => directory_in(alloc, time, words),
        MemberKind::File => file_member_in(alloc, time, words),
        MemberKind::Link => link_in(alloc, time, words),
        MemberKind::Character => device_in(alloc, DeviceKind::Character, time, words),
        MemberKind::Block => device_in(alloc, DeviceKind::Block, time, words),
    }
}

/// Reads the words `PATH PERM UID:GID`.
fn start_in(alloc: Global, words: &mut Pieces<'_>) -> Result<LineStart, LineFault>
    ensures ok { IfOk result (λ start. start_in (words_of words.old) ≡ Ok (start.path, start.permissions, start.owner, words_of words.new)) }
    ensures fault { IfErr result (TellsLine (start_in (words_of words.old))) }
{
    let path = path(alloc, words)?;
    let permissions = permissions(alloc, words)?;
    let owner = owner(alloc, words)?;
    Ok(LineStart {
        path,
        permissions,
        owner,
    })
}

/// Reads the words after `dir`.
fn directory_in(alloc: Global, time: u32, words: &mut Pieces<'_>) -> Result<ListedMember, LineFault>
    ensures ok { IfOk result (λ member. directory_in time (words_of words.old) ≡ Ok member) }
    ensures fault { IfErr result (TellsLine (directory_in time (words_of words.old))) }
{
    let start = start_in(alloc, words)?;
    let modified = seconds_or(alloc, words, time)?;
    let (path, marks) = start.marked(modified);
    Ok(ListedMember::Directory { path, marks })
}

/// Reads the words after `file`.
fn file_member_in(
    alloc: Global,
    time: u32,
    words: &mut Pieces<'_>,
) -> Result<ListedMember, LineFault>
    ensures ok { IfOk result (λ member. file_member_in time (words_of words.old) ≡ Ok member) }
    ensures fault { IfErr result (TellsLine (file_member_in time (words_of words.old))) }
{
    let start = start_in(alloc, words)?;
    let file = file(alloc, words)?;
    let modified = seconds_or(alloc, words, time)?;
    let (path, marks) = start.marked(modified);
    Ok(ListedMember::File { path, marks, file })
}

/// Reads the words after `link`.
fn link_in(alloc: Global, time: u32, words: &mut Pieces<'_>) -> Result<ListedMember, LineFault>
    ensures ok { IfOk result (λ member. link_in time (words_of words.old) ≡ Ok member) }
    ensures fault { IfErr result (TellsLine (link_in time (words_of words.old))) }
{
    let link = path(alloc, words)?;
    let target = path(alloc, words)?;
    end(alloc, words)?;
    Ok(ListedMember::Link {
        path: link,
        target,
        modified: time,
    })
}

/// Reads the words after `char` or `block`.
fn device_in(
    alloc: Global,
    kind: DeviceKind,
    time: u32,
    words: &mut Pieces<'_>,
) -> Result<ListedMember, LineFault>
    ensures ok { IfOk result (λ member. device_in kind time (words_of words.old) ≡ Ok member) }
    ensures fault { IfErr result (TellsLine (device_in kind time (words_of words.old))) }
{
    let start = start_in(alloc, words)?;
    let major = device_number(alloc, words)?;
    let minor = device_number(alloc, words)?;
    let modified = seconds_or(alloc, words, time)?;
    let (path, marks) = start.marked(modified);
    let device = DeviceId { kind, major, minor };
    Ok(ListedMember::Device {
        path,
        marks,
        device,
    })
}
