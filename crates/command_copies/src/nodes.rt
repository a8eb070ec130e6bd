//! A node of a volume that is copied to the host.
ghost use Rattle.std.specs.Option.{is_some};
ghost use Rattle.std.specs.Prelude.{◌≡◌, ◌≤◌, IfOk, IfSome, string_bytes};
ghost use Rattle.std.specs.Str.{is_utf8};
ghost use Rattle.vol_file.specs.Rules.{kind_at};
ghost use Rattle.vol_layout.specs.Body.{body};
ghost use Rattle.vol_layout.specs.Geometry.{Fits};
ghost use Rattle.command_copies.specs.Nodes.{entry_node, kind_node, node_at, read_as};

use pdp_words::Image;
use std::alloc::{AllocError, Global};
use vol_archive::{MetEntry, Reason, Role};
use vol_file::read;
use vol_layout::i_list::{kind, size};
use vol_layout::{Geometry, Kind, inode};

/// What is copied of a node, besides its attributes.
#[derive(Drop)]
pub enum NodeContent {
    /// A directory. What is in it is copied as nodes of their own.
    Directory,
    /// The bytes of a regular file.
    File(Vec<u8>),
}

/// A file or a directory of a volume, read to be copied into a folder of the host.
#[derive(Drop)]
pub struct NodeRead {
    /// Its path below the folder, without a slash at the start or the end. It is empty for the folder itself.
    pub path: String,
    /// Its permissions, the low 12 bits of its mode.
    pub permissions: u16,
    /// The time of its last modification, in seconds since the beginning of 1970.
    pub modified: u32,
    /// What is copied of it.
    pub content: NodeContent,
}

/// The reason why an entry of a volume isn't copied, or can't be in a list.
#[derive(Clone, Copy)]
pub enum Uncopied {
    /// An archive doesn't have it either.
    Left(Reason),
    /// It is a special file.
    Special,
    /// Its path isn't UTF-8 text.
    NotText,
    /// Its path can't be a word of a list, since it has a space or a newline.
    Spaced,
    /// It is a special file that a list can't say: a multiplexor of the seventh edition, or one whose i-node has more than the number of a device.
    Device,
}

/// Reads an entry that a walk met below a directory, to copy it to `path`.
pub(crate) fn read_entry(
    alloc: Global,
    image: &Image,
    geometry: &Geometry,
    path: Vec<u8>,
    found: &MetEntry,
) -> Result<Result<NodeRead, Uncopied>, AllocError>
    requires { Fits geometry.now image.now }
    ensures { IfOk result (λ read. read_as read ≡ entry_node geometry.now image.now path.items found.now.inode found.now.role) }
{
    match found.role {
        Role::Left(reason) => Ok(Err(Uncopied::Left(reason))),
        _ => read_node(alloc, image, geometry, path, found.inode),
    }
}

/// Reads i-node `i`, to copy it to `path`. Takes memory for the bytes of a regular file.
#[tactic(auto, unfolding(crate::specs::Nodes::node_at))]
pub(crate) fn read_node(
    alloc: Global,
    image: &Image,
    geometry: &Geometry,
    path: Vec<u8>,
    i: u16,
) -> Result<Result<NodeRead, Uncopied>, AllocError>
    requires { Fits geometry.now image.now }
    ensures { IfOk result (λ read. read_as read ≡ node_at geometry.now image.now path.items i) }
{
    let Some(path) = text_of(path) else {
        return Ok(Err(Uncopied::NotText));
    };
    if i == 0 || i > geometry.last_inode {
        return Ok(Err(Uncopied::Left(Reason::NoNode)));
    }
    read_kind(alloc, image, geometry, path, i)
}

/// Returns bytes as text, if they are UTF-8.
pub(crate) fn text_of(bytes: Vec<u8>) -> Option<String>
    ensures text { IfSome result (λ text. string_bytes text ≡ bytes.items) }
    ensures utf8 { is_some result ≡ is_utf8 bytes.items }
{
    match String::from_utf8(bytes) {
        Ok(text) => Some(text),
        Err(_) => None,
    }
}

/// Reads i-node `i`, an i-number of the volume, to copy it to `path`.
fn read_kind(
    alloc: Global,
    image: &Image,
    geometry: &Geometry,
    path: String,
    i: u16,
) -> Result<Result<NodeRead, Uncopied>, AllocError>
    requires fits { Fits geometry.now image.now }
    requires first { 1 ≤ i }
    requires last { i ≤ geometry.now.last_inode }
    ensures { IfOk result (λ read. read_as read ≡ kind_node geometry.now image.now (string_bytes path) i (kind_at geometry.now image.now i)) }
{
    let content = match kind(image, geometry, i) {
        Kind::Regular => NodeContent::File(body_of(alloc, image, geometry, i)?),
        Kind::Directory => NodeContent::Directory,
        Kind::Special => return Ok(Err(Uncopied::Special)),
        Kind::Free => return Ok(Err(Uncopied::Left(Reason::NoNode))),
        Kind::Odd => return Ok(Err(Uncopied::Left(Reason::OddNode))),
    };
    let node = inode(image, geometry, i);
    Ok(Ok(NodeRead {
        path,
        permissions: node.mode.permissions(),
        modified: node.modified,
        content,
    }))
}

/// Returns all bytes of the file with i-number `i`.
fn body_of(alloc: Global, image: &Image, geometry: &Geometry, i: u16) -> Result<Vec<u8>, AllocError>
    requires fits { Fits geometry.now image.now }
    requires first { 1 ≤ i }
    requires last { i ≤ geometry.now.last_inode }
    ensures { IfOk result (λ bytes. bytes.items ≡ body geometry.now image.now i) }
{
    let length = size(image, geometry, i).min(geometry.edition.constants().greatest);
    let mut bytes = vec![in alloc; 0; length as usize]?;
    read(image, geometry, i, 0, &mut bytes);
    Ok(bytes)
}
