//! The rows of a listing.
ghost use Rattle.std.specs.Prelude.{◌≡◌, ◌/◌, ◌%◌, slice_index};
ghost use Rattle.vol_layout.specs.Geometry.{Fits};
ghost use Rattle.vol_dir.specs.Tree.{tree, is_number};
ghost use Rattle.vol_change.specs.Nodes.{no_node, node_at};
ghost use Rattle.vol_listing.specs.Rows.{is_blank, row_of, row_with, special_sort, special_word};

use pdp_words::Image;
use vol_layout::i_list::kind;
use vol_layout::{Geometry, Inode, Kind, Mode, inode};

/// A row of a listing: the attributes of a node.
#[derive(Clone, Copy)]
pub(crate) struct Row {
    /// The i-number.
    pub(crate) number: u16,
    /// The kind of node.
    pub(crate) sort: Sort,
    /// The type of a special file, the highest four bits of its mode; 0 for any other node.
    pub(crate) type_bits: u16,
    /// The permission bits, the low 12 bits of the mode.
    pub(crate) permissions: u16,
    /// The link count.
    pub(crate) links: u16,
    /// The owner.
    pub(crate) uid: u16,
    /// The owner's group.
    pub(crate) gid: u16,
    /// The size, in bytes.
    pub(crate) size: u32,
    /// The time of the last write to the file, in seconds since the beginning of 1970.
    pub(crate) modified: u32,
}

impl Row {
    /// True if the row has neither links nor permissions nor a time, as that of an i-node that is free or lost: of what kind it is isn't known.
    pub(crate) fn is_blank(self) -> bool
        ensures { result ≡ is_blank self }
    {
        self.links == 0 && self.permissions == 0 && self.modified == 0
    }
}

/// The kind of a node.
#[derive(Clone, Copy)]
pub(crate) enum Sort {
    /// A regular file.
    Regular,
    /// A directory.
    Directory,
    /// A character special file, with its device number.
    Character(u16),
    /// A block special file, with its device number.
    Block(u16),
}

/// Returns the row of node `i`. If no node has this number, returns the row of an empty file without links.
pub(crate) fn row_at(image: &Image, geometry: &Geometry, i: u16) -> Row
    requires { Fits geometry.now image.now }
    ensures { result ≡ row_of i (node_at (tree geometry.now image.now) i) }
{
    if !is_number(geometry, i) {
        return no_row(i);
    }
    let node = inode(image, geometry, i);
    match kind(image, geometry, i) {
        Kind::Free | Kind::Odd => no_row(i),
        Kind::Regular => row_with(i, &node, Sort::Regular, 0),
        Kind::Directory => row_with(i, &node, Sort::Directory, 0),
        Kind::Special => row_with(i, &node, special_sort(&node), node.mode.bits / 4096),
    }
}

/// True if the volume has an i-node with this number.
pub(crate) fn is_number(geometry: &Geometry, i: u16) -> bool
    ensures { result ≡ is_number geometry.now i }
{
    i >= 1 && i <= geometry.last_inode
}

/// Returns the row of a number that has no node.
fn no_row(number: u16) -> Row
    ensures { result ≡ row_of number no_node }
{
    Row {
        number,
        sort: Sort::Regular,
        type_bits: 0,
        permissions: 0,
        links: 0,
        uid: 0,
        gid: 0,
        size: 0,
        modified: 0,
    }
}

/// Returns the row of an i-node of some kind and type.
fn row_with(number: u16, node: &Inode, sort: Sort, type_bits: u16) -> Row
    ensures { result ≡ row_with number node.now sort type_bits }
{
    Row {
        number,
        sort,
        type_bits,
        permissions: node.mode.permissions(),
        links: node.links,
        uid: node.uid,
        gid: node.gid,
        size: node.size,
        modified: node.modified,
    }
}

/// Returns the kind of a special file.
fn special_sort(node: &Inode) -> Sort
    ensures { result ≡ special_sort (node.now.mode.bits / 4096) (slice_index node.now.addresses 0 % 65536) }
{
    let device = (node.addresses[0] % 65_536) as u16;
    special_type(node.mode, device)
}

/// Returns the kind of a special file with this mode and device number.
pub(crate) fn special_type(mode: Mode, device: u16) -> Sort
    ensures { result ≡ special_sort (mode.bits / 4096) device }
{
    if mode.bits / 4096 / 2 % 4 == 3 {
        Sort::Block(device)
    } else {
        Sort::Character(device)
    }
}

/// Returns the word for a special file of this type, the highest four bits of its mode.
pub fn special_word(type_bits: u16) -> &'static str
    ensures { result.now ≡ special_word type_bits }
{
    if type_bits == 3 || type_bits == 7 {
        "multiplexor"
    } else if type_bits / 2 % 4 == 3 {
        "block"
    } else {
        "character"
    }
}
