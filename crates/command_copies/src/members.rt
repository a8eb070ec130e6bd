//! The member of a list for an entry of a volume.
ghost use Rattle.std.specs.Prelude.{◌≡◌, ◌∷◌, Ok, IfErr, IfOk, nat_lt, slice_get};
ghost use Rattle.std.specs.String.{string_bytes};
ghost use Rattle.vol_layout.specs.Geometry.{Fits};
ghost use Rattle.command_copies.specs.Members.{TellsMember, device_id, directory_member, entry_member, file_member, first_path, host_path, is_device_type, is_made_device, link_member, listed_path, marks_of, no_memory_of_member, node_of, owner_of, special_member, text_path, time_of};

use crate::lists::are_zero;
use crate::nodes::{Uncopied, text_of};
use pack_lists::{
    HostPath, ListedMember, ListedOwner, ListedPath, NodeMarks, is_list_word, is_path,
};
use pdp_words::Image;
use std::alloc::{AllocError, Global};
use vol_archive::{MetEntry, Reason, Role};
use vol_layout::{DeviceId, DeviceKind, Edition, Geometry, Inode, Mode, Super, inode};

/// The reason why an entry has no member.
#[derive(Drop)]
pub(crate) enum MemberFault {
    /// A list has no place for it.
    Unlisted(Uncopied),
    /// Memory ran out.
    NoMemory,
}

impl From<AllocError> for MemberFault {
    ghost from_gives = { λ _ fault. fault ≡ no_memory_of_member };

    fn from(_: AllocError) -> MemberFault {
        MemberFault::NoMemory
    }
}

/// Returns the member for an entry that a walk from the root met, among all of them, in a list whose files are saved in the folder `NAME.files`.
pub(crate) fn member_of(
    alloc: Global,
    image: &Image,
    geometry: &Geometry,
    name: &str,
    founds: &[MetEntry],
    found: &MetEntry,
) -> Result<ListedMember, MemberFault>
    requires { Fits geometry.now image.now }
    ensures ok { IfOk result (λ member. entry_member geometry.now image.now name.now founds.now found.now ≡ Ok member) }
    ensures fault { IfErr result (TellsMember (entry_member geometry.now image.now name.now founds.now found.now)) }
{
    match found.role {
        Role::File => file_member(alloc, image, geometry, name, found),
        Role::Directory => directory_member(alloc, image, geometry, found),
        Role::Special => special_member(alloc, image, geometry, found),
        Role::Link(k) => link_member(alloc, time_of(image, geometry), founds, found, k),
        Role::Left(reason) => Err(MemberFault::Unlisted(Uncopied::Left(reason))),
    }
}

/// Returns the member for a regular file. Its bytes are saved below the folder `NAME.files`, by its path.
fn file_member(
    alloc: Global,
    image: &Image,
    geometry: &Geometry,
    name: &str,
    found: &MetEntry,
) -> Result<ListedMember, MemberFault>
    requires { Fits geometry.now image.now }
    ensures ok { IfOk result (λ member. file_member geometry.now image.now name.now found.now ≡ Ok member) }
    ensures fault { IfErr result (TellsMember (file_member geometry.now image.now name.now found.now)) }
{
    let path = listed_path(alloc, found.path.as_slice())?;
    let text = text_path(alloc, found.path.as_slice())?;
    let node = node_of(image, geometry, found.inode)?;
    let file = host_path(alloc, name, &text)?;
    Ok(ListedMember::File {
        path,
        marks: marks_of(&node),
        file,
    })
}

/// Returns the member for a directory.
fn directory_member(
    alloc: Global,
    image: &Image,
    geometry: &Geometry,
    found: &MetEntry,
) -> Result<ListedMember, MemberFault>
    requires { Fits geometry.now image.now }
    ensures ok { IfOk result (λ member. directory_member geometry.now image.now found.now ≡ Ok member) }
    ensures fault { IfErr result (TellsMember (directory_member geometry.now image.now found.now)) }
{
    let path = listed_path(alloc, found.path.as_slice())?;
    let _text = text_path(alloc, found.path.as_slice())?;
    let node = node_of(image, geometry, found.inode)?;
    Ok(ListedMember::Directory {
        path,
        marks: marks_of(&node),
    })
}

/// Returns the member for a special file.
fn special_member(
    alloc: Global,
    image: &Image,
    geometry: &Geometry,
    found: &MetEntry,
) -> Result<ListedMember, MemberFault>
    requires { Fits geometry.now image.now }
    ensures ok { IfOk result (λ member. special_member geometry.now image.now found.now ≡ Ok member) }
    ensures fault { IfErr result (TellsMember (special_member geometry.now image.now found.now)) }
{
    let path = listed_path(alloc, found.path.as_slice())?;
    let node = node_of(image, geometry, found.inode)?;
    if !is_made_device(geometry.edition, &node) {
        return Err(MemberFault::Unlisted(Uncopied::Device));
    }
    Ok(ListedMember::Device {
        path,
        marks: marks_of(&node),
        device: device_id(&node),
    })
}

/// Returns the member for another name of the file that was met at position `k`, in a list with this time.
fn link_member(
    alloc: Global,
    time: u32,
    founds: &[MetEntry],
    found: &MetEntry,
    k: usize,
) -> Result<ListedMember, MemberFault>
    ensures ok { IfOk result (λ member. link_member time founds.now found.now k ≡ Ok member) }
    ensures fault { IfErr result (TellsMember (link_member time founds.now found.now k)) }
{
    let path = listed_path(alloc, found.path.as_slice())?;
    let target = first_path(alloc, founds, k)?;
    Ok(ListedMember::Link {
        path,
        target,
        modified: time,
    })
}

/// Returns the path of the first name of a file, which was met at position `k`.
fn first_path(alloc: Global, founds: &[MetEntry], k: usize) -> Result<ListedPath, MemberFault>
    ensures ok { IfOk result (λ path. first_path (slice_get founds.now k) ≡ Ok path) }
    ensures fault { IfErr result (TellsMember (first_path (slice_get founds.now k))) }
{
    match founds.get(k) {
        Some(first) => listed_path(alloc, first.path.as_slice()),
        None => Err(MemberFault::Unlisted(Uncopied::Left(Reason::NoNode))),
    }
}

/// Returns the path that a list has for the entry at a path below the root.
fn listed_path(alloc: Global, path: &[u8]) -> Result<ListedPath, MemberFault>
    ensures ok { IfOk result (λ listed. listed_path path.now ≡ Ok listed) }
    ensures fault { IfErr result (TellsMember (listed_path path.now)) }
{
    if !is_list_word(path) {
        return Err(MemberFault::Unlisted(Uncopied::Spaced));
    }
    let listed = rooted(alloc, path)?;
    if !is_path(&listed) {
        return Err(MemberFault::Unlisted(Uncopied::Left(Reason::LongPath)));
    }
    Ok(ListedPath::from_slice(alloc, &listed)?)
}

/// Returns a path below the root with a slash before it.
pub(crate) fn rooted(alloc: Global, path: &[u8]) -> Result<Vec<u8>, AllocError>
    ensures { IfOk result (λ bytes. bytes.items ≡ 47 ∷ path.now) }
{
    let mut bytes = Vec::from_slice(alloc, b"/")?;
    bytes.extend_from_slice(path)?;
    Ok(bytes)
}

/// Returns a path as text.
fn text_path(alloc: Global, path: &[u8]) -> Result<String, MemberFault>
    ensures ok { IfOk result (λ text. text_path path.now ≡ Ok (string_bytes text)) }
    ensures fault { IfErr result (TellsMember (text_path path.now)) }
{
    match text_of(Vec::from_slice(alloc, path)?) {
        Some(text) => Ok(text),
        None => Err(MemberFault::Unlisted(Uncopied::NotText)),
    }
}

/// Returns the path of the file, outside the volume, with the bytes of the file at a path.
#[tactic(auto, unfolding(crate::specs::Members::host_path))]
fn host_path(alloc: Global, name: &str, path: &str) -> Result<HostPath, AllocError>
    ensures { IfOk result (λ file. file ≡ host_path name.now path.now) }
{
    let text = format!(in alloc; "{name}.files/{path}")?;
    HostPath::from_str(alloc, &text)
}

/// Returns i-node `i`, if it is one of the volume.
fn node_of(image: &Image, geometry: &Geometry, i: u16) -> Result<Inode, MemberFault>
    requires { Fits geometry.now image.now }
    ensures ok { IfOk result (λ node. node_of geometry.now image.now i ≡ Ok node) }
    ensures fault { IfErr result (TellsMember (node_of geometry.now image.now i)) }
{
    if i == 0 || i > geometry.last_inode {
        return Err(MemberFault::Unlisted(Uncopied::Left(Reason::NoNode)));
    }
    Ok(inode(image, geometry, i))
}

/// Returns the owner of an i-node.
pub(crate) fn owner_of(node: &Inode) -> ListedOwner
    ensures { result ≡ owner_of node.now }
{
    ListedOwner {
        uid: node.uid,
        gid: node.gid,
    }
}

/// Returns the marks of an i-node.
fn marks_of(node: &Inode) -> NodeMarks
    ensures { result ≡ marks_of node.now }
{
    NodeMarks {
        permissions: node.mode.permissions(),
        owner: owner_of(node),
        modified: node.modified,
    }
}

/// True if a special file is one that mknod makes: its type is that of a character or a block file, and its addresses are the number of its device alone.
fn is_made_device(edition: Edition, node: &Inode) -> bool
    ensures { result ≡ is_made_device edition node.now }
{
    is_device_type(edition, node.mode)
        && is_number(node.addresses[0])
        && are_zero(&node.addresses[1..])
}

/// True if an address can be the number of a device.
fn is_number(address: u32) -> bool
    ensures { result ≡ nat_lt address 65536 }
{
    address < 65536
}

/// True if the type in a mode is that of a character or a block file.
fn is_device_type(edition: Edition, mode: Mode) -> bool
    ensures { result ≡ is_device_type edition mode.bits }
{
    match edition {
        Edition::V6 => matches!(mode.bits / 0o10000, 0o12 | 0o16),
        Edition::V7 => matches!(mode.bits / 0o10000, 0o2 | 0o6),
    }
}

/// Returns the device of a special file.
fn device_id(node: &Inode) -> DeviceId
    ensures { result ≡ device_id node.now }
{
    let kind = if node.mode.is_block() {
        DeviceKind::Block
    } else {
        DeviceKind::Character
    };
    let number = node.device_number();
    DeviceId {
        kind,
        major: (number / 256) as u8,
        minor: (number % 256) as u8,
    }
}

/// Returns the time of a volume, in seconds since the beginning of 1970.
pub(crate) fn time_of(image: &Image, geometry: &Geometry) -> u32
    requires { Fits geometry.now image.now }
    ensures { result ≡ time_of geometry.now image.now }
{
    let super_block = Super {
        edition: geometry.edition,
    };
    super_block.time(image)
}
