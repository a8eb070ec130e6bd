//! A volume, read as the list of what it has.
ghost use Rattle.std.specs.Prelude.{◌≡◌, ◌==◌, ◌++◌, ◌≤◌, false, length, map, true, IfErr, IfOk, OnOk, option_map};
ghost use Rattle.std.specs.List.{flat_map, list_all};
ghost use Rattle.vol_archive.specs.Walk.{IsWalk};
ghost use Rattle.vol_dir.specs.Entries.{IsDirectory};
ghost use Rattle.vol_judge.specs.Directories.{root_of};
ghost use Rattle.vol_layout.specs.Geometry.{Fits};
ghost use Rattle.pack_lists.specs.Words.{is_list_word};
ghost use Rattle.command_copies.specs.Lists.{AppendsMember, HasMembers, IsEntryFault, IsListOf, IsUnlistable, IsUnlistedAmong, IsUnlistedAt, IsUnread, ListsVolume, boot_path, has_bad_blocks, has_blocks, list_blocks, program_of, root_marks, saved_nodes, volume_of};
ghost use Rattle.command_copies.specs.Members.{entry_member};
ghost use Rattle.command_copies.specs.Nodes.{copied_as};

use crate::members::{MemberFault, member_of, owner_of, rooted, time_of};
use crate::nodes::{NodeRead, Uncopied, read_node};
use crate::trees::push_uncopied;
use command_faults::Fault;
use command_faults::mount::mount;
use pack_lists::{
    HostPath, ListedMember, ListedVolume, PackList, RootMarks, VolumeSizes, is_list_word,
};
use pdp_words::Image;
use std::alloc::{AllocError, Global};
use vol_archive::{MetEntry, Role, walk};
use vol_dir::Refusal;
use vol_layout::{Edition, Geometry, Inode, inode};

/// A volume, read as the list of what it has.
#[derive(Drop)]
pub struct VolumeListed {
    /// The list.
    pub list: PackList,
    /// The files and directories to save in the folder beside the list: each directory before what is in it, and each file once.
    pub nodes: Vec<NodeRead>,
    /// The bytes of block 0, to save beside the list, if they aren't all zeros.
    pub boot: Option<Vec<u8>>,
}

/// Reads a volume as the list of what it has, for `build --list`: all of it or nothing. The list has the name `name` in its folder; it names the file
/// `NAME.files/PATH` for the bytes of each regular file, and the file `NAME.boot` for block 0, if that isn't all zeros. The members are all entries of the
/// tree, in the order of a walk from the root, with further names of a file as links to the first.
///
/// If nothing is read, the fault is the first rule that the image breaks; or, in this order, that `name` can't be a word of a list; that the bad-block file of
/// the seventh edition, i-node 1, has blocks, which a new volume wouldn't keep apart; or the first entry that a list has no place for, with its path: one with a
/// space or a newline, with more than 4,095 bytes, or, of a file or a directory, with bytes that aren't UTF-8 text.
///
/// Takes memory to mount the image, and for all paths and bytes; costs the walk, and a copy of the bytes.
pub fn list_volume(
    alloc: Global,
    edition: Edition,
    image: Vec<u8>,
    name: &str,
) -> Result<VolumeListed, Fault>
    ensures { ListsVolume edition image.items name.now result }
{
    let volume = mount(alloc, edition, image)?;
    read_list(alloc, volume.image(), volume.geometry(), name)
}

/// Reads the list of a volume with this geometry.
fn read_list(
    alloc: Global,
    image: &Image,
    geometry: &Geometry,
    name: &str,
) -> Result<VolumeListed, Fault>
    requires fits { Fits geometry.now image.now }
    requires root { IsDirectory geometry.now image.now (root_of geometry.now) }
    ensures read { IfOk result (IsListOf geometry.now image.now name.now) }
    ensures fault { IfErr result (IsUnread geometry.now image.now name.now) }
{
    expect_listable(alloc, image, geometry, name)?;
    let root = geometry.edition.constants().root;
    let founds = walk(alloc, image, geometry, root)?;
    let members = members_of(alloc, image, geometry, name, &founds)?;
    let nodes = nodes_of(alloc, image, geometry, &founds)?;
    let boot = program_of(alloc, image)?;
    let list = PackList {
        volume: volume_of(image, geometry),
        boot: boot_path(alloc, name, &boot)?,
        root: Some(root_marks(&inode(image, geometry, root))),
        members,
    };
    Ok(VolumeListed { list, nodes, boot })
}

/// The line for a volume whose bad-block file has blocks.
const BAD_BLOCKS: &[u8] = b"unixvol: i-node 1 has bad blocks, which a list has no place for\n";

/// Succeeds if a list can have this name, and the volume has no bad blocks.
fn expect_listable(
    alloc: Global,
    image: &Image,
    geometry: &Geometry,
    name: &str,
) -> Result<(), Fault>
    requires { Fits geometry.now image.now }
    ensures named { OnOk result (is_list_word name.now ≡ true) }
    ensures whole { OnOk result (has_bad_blocks geometry.now image.now ≡ false) }
    ensures fault { IfErr result (IsUnlistable geometry.now image.now name.now) }
{
    if !is_list_word(name.as_bytes()) {
        return Err(unlisted(alloc, name.as_bytes(), Uncopied::Spaced)?);
    }
    if has_bad_blocks(image, geometry) {
        let lines = Vec::from_slice(alloc, BAD_BLOCKS)?;
        return Err(Fault::Worded { rule: None, lines });
    }
    Ok(())
}

/// Returns the fault of an entry at a path that a list has no place for.
fn unlisted(alloc: Global, path: &[u8], why: Uncopied) -> Result<Fault, AllocError>
    ensures { IfOk result (IsUnlistedAt path.now why) }
{
    let mut lines = Vec::new(alloc);
    push_uncopied(&mut lines, path, why)?;
    Ok(Fault::Worded { rule: None, lines })
}

/// True if the bad-block file of the seventh edition has blocks.
fn has_bad_blocks(image: &Image, geometry: &Geometry) -> bool
    requires { Fits geometry.now image.now }
    ensures { result ≡ has_bad_blocks geometry.now image.now }
{
    match geometry.edition {
        Edition::V6 => false,
        Edition::V7 => has_blocks(&inode(image, geometry, 1)),
    }
}

/// True if an i-node is allocated and has blocks.
fn has_blocks(node: &Inode) -> bool
    ensures { result ≡ has_blocks node.now }
{
    node.mode.bits != 0 && !are_zero(&node.addresses)
}

/// True if all addresses are 0.
pub(crate) fn are_zero(addresses: &[u32]) -> bool
    ensures { result ≡ list_all (λ address. address == 0) addresses.now }
{
    addresses.iter().all(|address| *address == 0)
}

/// Returns the members for all entries that a walk from the root met, in their order.
fn members_of(
    alloc: Global,
    image: &Image,
    geometry: &Geometry,
    name: &str,
    founds: &[MetEntry],
) -> Result<Vec<ListedMember>, Fault>
    requires { Fits geometry.now image.now }
    ensures members { IfOk result (λ members. HasMembers (entry_member geometry.now image.now name.now founds.now) founds.now members.items) }
    ensures fault { IfErr result (IsUnlistedAmong (entry_member geometry.now image.now name.now founds.now) founds.now) }
{
    let mut members = Vec::new(alloc);
    'founds: for found in founds {
        push_member(alloc, image, geometry, name, founds, found, &mut members)?;
    }
    Ok(members)
}

/// Appends the member for an entry.
fn push_member(
    alloc: Global,
    image: &Image,
    geometry: &Geometry,
    name: &str,
    founds: &[MetEntry],
    found: &MetEntry,
    members: &mut Vec<ListedMember>,
) -> Result<(), Fault>
    requires { Fits geometry.now image.now }
    ensures pushed { OnOk result (AppendsMember (entry_member geometry.now image.now name.now founds.now) found.now members.old.items members.new.items) }
    ensures fault { IfErr result (IsEntryFault (entry_member geometry.now image.now name.now founds.now) found.now) }
{
    match member_of(alloc, image, geometry, name, founds, found) {
        Ok(member) => members
            .push(member)
            .map_err(|_| Fault::Refused(Refusal::NoMemory)),
        Err(MemberFault::Unlisted(why)) => {
            let path = rooted(alloc, found.path.as_slice())?;
            Err(unlisted(alloc, &path, why)?)
        }
        Err(MemberFault::NoMemory) => Err(Fault::Refused(Refusal::NoMemory)),
    }
}

/// Returns what is saved of the entries that a walk from the root met, in their order: directories, and regular files with their bytes.
fn nodes_of(
    alloc: Global,
    image: &Image,
    geometry: &Geometry,
    founds: &[MetEntry],
) -> Result<Vec<NodeRead>, AllocError>
    requires { Fits geometry.now image.now }
    ensures { IfOk result (λ nodes. map copied_as nodes.items ≡ flat_map (saved_nodes geometry.now image.now) founds.now) }
{
    let mut nodes = Vec::new(alloc);
    'founds: for found in founds {
        push_saved(alloc, image, geometry, found, &mut nodes)?;
    }
    Ok(nodes)
}

/// Appends what is saved of an entry.
fn push_saved(
    alloc: Global,
    image: &Image,
    geometry: &Geometry,
    found: &MetEntry,
    nodes: &mut Vec<NodeRead>,
) -> Result<(), AllocError>
    requires { Fits geometry.now image.now }
    ensures { OnOk result (map copied_as nodes.new.items ≡ map copied_as nodes.old.items ++ saved_nodes geometry.now image.now found.now) }
{
    match found.role {
        Role::File | Role::Directory => {
            let path = Vec::from_slice(alloc, found.path.as_slice())?;
            match read_node(alloc, image, geometry, path, found.inode)? {
                Ok(node) => Ok(nodes.push(node)?),
                Err(_) => Ok(()),
            }
        }
        Role::Special | Role::Link(_) | Role::Left(_) => Ok(()),
    }
}

/// Returns the bytes of block 0, if they aren't all zeros.
fn program_of(alloc: Global, image: &Image) -> Result<Option<Vec<u8>>, AllocError>
    requires { 512 ≤ length image.now }
    ensures { IfOk result (λ program. option_map (λ bytes. bytes.items) program ≡ program_of image.now) }
{
    let block = image.block(0);
    if is_zero(block) {
        return Ok(None);
    }
    Ok(Some(Vec::from_slice(alloc, block)?))
}

/// True if all bytes are zeros.
fn is_zero(bytes: &[u8]) -> bool
    ensures { result ≡ list_all (λ byte. byte == 0) bytes.now }
{
    bytes.iter().all(|byte| *byte == 0)
}

/// Returns the path of the file with block 0, if that is saved.
fn boot_path(
    alloc: Global,
    name: &str,
    program: &Option<Vec<u8>>,
) -> Result<Option<HostPath>, AllocError>
    ensures { IfOk result (λ path. path ≡ boot_path name.now (option_map (λ bytes. bytes.items) program.now)) }
{
    match program {
        Some(_) => {
            let text = format!(in alloc; "{name}.boot")?;
            Ok(Some(HostPath::from_str(alloc, &text)?))
        }
        None => Ok(None),
    }
}

/// Returns the sizes and the time of a volume.
fn volume_of(image: &Image, geometry: &Geometry) -> ListedVolume
    requires { Fits geometry.now image.now }
    ensures { result ≡ volume_of geometry.now image.now }
{
    ListedVolume {
        sizes: VolumeSizes {
            edition: geometry.edition,
            blocks: geometry.zone_end,
            list_blocks: list_blocks(geometry),
        },
        time: time_of(image, geometry),
    }
}

/// Returns the number of blocks of the i-list.
fn list_blocks(geometry: &Geometry) -> u16
    ensures { result ≡ list_blocks geometry.now }
{
    match geometry.edition {
        Edition::V6 => geometry.last_inode / 16,
        Edition::V7 => geometry.last_inode / 8,
    }
}

/// Returns the marks of the root, of its i-node.
fn root_marks(node: &Inode) -> RootMarks
    ensures { result ≡ root_marks node.now }
{
    RootMarks {
        permissions: node.mode.permissions(),
        owner: owner_of(node),
    }
}
