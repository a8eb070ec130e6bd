//! Creates nodes and chooses their i-numbers.
ghost use Rattle.std.specs.Prelude.{◌≡◌, ◌≢◌, ℕ, ◌+◌, ◌<◌, ◌≤◌, ◌∷◌, replicate, true, false, [], Some, None, IfSome, slice_index};
ghost use Rattle.vol_layout.specs.Edition.{constants};
ghost use Rattle.vol_layout.specs.Inode.{device_number, device_type, inode_place, is_large, kind_of, new_inode, special_inode};
ghost use Rattle.vol_layout.specs.BlockMaps.{has_places};
ghost use Rattle.vol_layout.specs.declared.edition.Edition.TheVariants as editions;
ghost use Rattle.vol_layout.specs.declared.mode.Kind.TheVariants as kinds;
ghost use Rattle.vol_free.specs.Numbers.{IsFreeNumber};
ghost use Rattle.vol_dir.specs.Tree.{Body, Device, Directory, no_shape, state};
ghost use Rattle.vol_judge.specs.Graph.{graph_of};
ghost use Rattle.vol_judge.specs.GraphEdits.{IsSameGraph};
ghost use Rattle.vol_change.specs.Changed.{Changed, IsAny, IsOther, as_before};
ghost use Rattle.vol_change.specs.Edits.{new_content, new_kind, new_node, put_node, put_shape};
ghost use Rattle.vol_change.specs.Inodes.{MakesInode};
ghost use Rattle.vol_change.specs.NodeGraphs.{AddsNode};
ghost use Rattle.vol_change.specs.Unused.{KeepsAllUnused, KeepsUnusedBut};
ghost use Rattle.vol_change.specs.Whole.{Rules3To8};

use pdp_words::Image;
use vol_dir::Cred;
use vol_free::take_inode;
use vol_layout::{DeviceId, Geometry, Inode, Mode, clear_inode, put_inode};

/// A node that a call creates.
#[derive(Clone, Copy)]
pub struct NewNode {
    /// The user and group that own the node.
    pub owner: Cred,
    /// The permission bits; only those in octal 7777 count.
    pub permissions: u16,
    /// The time of its creation, in seconds.
    pub moment: u32,
}

/// What a new file is.
#[derive(Clone, Copy, PartialEq, Eq)]
pub enum NewFile {
    /// A regular file without bytes.
    Regular,
    /// The special file of a device.
    Special(DeviceId),
}

/// Returns the i-number for a new node: the recorded one if given, else one taken from the cache or the i-list. In both cases the cache changes as if
/// one were taken.
pub(crate) fn pick_number(image: &mut Image, geometry: &Geometry, recorded: Option<u16>) -> u16
    requires rules { Rules3To8 geometry.now image.old }
    requires some { ((i : ℕ) → IsFreeNumber geometry.now image.old i → ⊥) → ⊥ }
    requires recorded { IfSome recorded (λ i. IsFreeNumber geometry.now image.old i) }
    ensures free { IsFreeNumber geometry.now image.new result }
    ensures recorded { IfSome recorded (λ i. result ≡ i) }
    ensures changed { Changed geometry.now image.old image.new IsAny
        (state geometry.now image.old) as_before }
    ensures graph { IsSameGraph (graph_of geometry.now image.old) (graph_of geometry.now image.new) }
    ensures unused { KeepsAllUnused geometry.now image.old image.new }
{
    let Some(taken) = take_inode(image, geometry) else {
        unreachable!()
    };
    recorded.unwrap_or(taken)
}

/// Turns i-node `i`, which is free, into a new file with one link. The file has no bytes and no blocks, and all its times are `node.moment`. The unused
/// bytes of the i-node become zero.
pub fn make_file(image: &mut Image, geometry: &Geometry, i: u16, file: NewFile, node: NewNode)
    requires rules { Rules3To8 geometry.now image.old }
    requires free { IsFreeNumber geometry.now image.old i }
    requires user { node.owner.uid ≤ (constants geometry.now.edition).id_limit }
    requires group { node.owner.gid ≤ (constants geometry.now.edition).id_limit }
    ensures changed { Changed geometry.now image.old image.new (IsOther i)
        (put_shape i no_shape (put_node i (Some (new_node geometry.now.edition node.owner node.moment node.permissions
        (new_content geometry.now.edition file) 1 0))
        (state geometry.now image.old))) as_before }
    ensures graph { AddsNode (graph_of geometry.now image.old) (graph_of geometry.now image.new) i (new_kind file) 1 }
    ensures unused { geometry.now.edition ≡ editions.V7 → slice_index image.new (inode_place editions.V7 i + 51) ≡ 0 }
    ensures others { KeepsUnusedBut geometry.now image.old image.new i }
{
    match file {
        NewFile::Regular => make_regular(image, geometry, i, node),
        NewFile::Special(device) => make_special(image, geometry, i, device, node),
    }
}

/// Turns i-node `i`, which is free, into a new regular file with one link. The file has no bytes and no blocks, and all its times are `node.moment`.
/// The unused bytes of the i-node become zero.
fn make_regular(image: &mut Image, geometry: &Geometry, i: u16, node: NewNode)
    requires rules { Rules3To8 geometry.now image.old }
    requires free { IsFreeNumber geometry.now image.old i }
    requires user { node.owner.uid ≤ (constants geometry.now.edition).id_limit }
    requires group { node.owner.gid ≤ (constants geometry.now.edition).id_limit }
    ensures changed { Changed geometry.now image.old image.new (IsOther i)
        (put_shape i no_shape (put_node i (Some (new_node geometry.now.edition node.owner node.moment node.permissions (Body []) 1 0))
        (state geometry.now image.old))) as_before }
    ensures graph { AddsNode (graph_of geometry.now image.old) (graph_of geometry.now image.new) i kinds.Regular 1 }
    ensures unused { geometry.now.edition ≡ editions.V7 → slice_index image.new (inode_place editions.V7 i + 51) ≡ 0 }
    ensures others { KeepsUnusedBut geometry.now image.old image.new i }
{
    let mode = Mode::regular(geometry.edition, node.permissions);
    make_node(image, geometry, i, mode, 1, node);
}

/// Does nothing. The contract states that the number of a device fits an address of either edition.
fn device_fits(device: DeviceId)
    ensures { device_number device < 65536 }
{
    let _number = device.number();
}

/// Turns i-node `i`, which is free, into the new special file of a device, with one link. It has no blocks, and all its times are `node.moment`. The
/// unused bytes of the i-node become zero.
fn make_special(image: &mut Image, geometry: &Geometry, i: u16, device: DeviceId, node: NewNode)
    requires rules { Rules3To8 geometry.now image.old }
    requires free { IsFreeNumber geometry.now image.old i }
    requires user { node.owner.uid ≤ (constants geometry.now.edition).id_limit }
    requires group { node.owner.gid ≤ (constants geometry.now.edition).id_limit }
    ensures changed { Changed geometry.now image.old image.new (IsOther i)
        (put_shape i no_shape (put_node i (Some (new_node geometry.now.edition node.owner node.moment node.permissions
        (Device (device_type geometry.now.edition device.kind) (device_number device ∷ replicate 12 0)) 1 0))
        (state geometry.now image.old))) as_before }
    ensures graph { AddsNode (graph_of geometry.now image.old) (graph_of geometry.now image.new) i kinds.Special 1 }
    ensures unused { geometry.now.edition ≡ editions.V7 → slice_index image.new (inode_place editions.V7 i + 51) ≡ 0 }
    ensures others { KeepsUnusedBut geometry.now image.old image.new i }
{
    let NewNode {
        owner,
        permissions,
        moment,
    } = node;
    device_fits(device);
    let edition = geometry.edition;
    let mode = Mode::special(edition, device.kind, permissions);
    let inode = Inode::special(edition, mode, device, owner.uid, owner.gid, moment);
    clear_inode(image, geometry, i);
    put_inode(image, geometry, i, &inode);
}

/// Turns i-node `i`, which is free, into a new directory with two links. The directory has no slots and no blocks, and all its times are
/// `node.moment`. The unused bytes of the i-node become zero.
pub fn make_directory(image: &mut Image, geometry: &Geometry, i: u16, node: NewNode)
    requires rules { Rules3To8 geometry.now image.old }
    requires free { IsFreeNumber geometry.now image.old i }
    requires user { node.owner.uid ≤ (constants geometry.now.edition).id_limit }
    requires group { node.owner.gid ≤ (constants geometry.now.edition).id_limit }
    ensures changed { Changed geometry.now image.old image.new (IsOther i)
        (put_shape i no_shape (put_node i (Some (new_node geometry.now.edition node.owner node.moment node.permissions (Directory []) 2 0))
        (state geometry.now image.old))) as_before }
    ensures graph { AddsNode (graph_of geometry.now image.old) (graph_of geometry.now image.new) i kinds.Directory 2 }
    ensures unused { geometry.now.edition ≡ editions.V7 → slice_index image.new (inode_place editions.V7 i + 51) ≡ 0 }
    ensures others { KeepsUnusedBut geometry.now image.old image.new i }
{
    let mode = Mode::directory(geometry.edition, node.permissions);
    make_node(image, geometry, i, mode, 2, node);
}

/// Turns i-node `i`, which is free, into an empty file with this mode and link count.
fn make_node(image: &mut Image, geometry: &Geometry, i: u16, mode: Mode, links: u16, node: NewNode)
    requires rules { Rules3To8 geometry.now image.old }
    requires free { IsFreeNumber geometry.now image.old i }
    requires file { has_places (kind_of geometry.now.edition mode.bits) ≡ true }
    requires small { is_large geometry.now.edition mode.bits ≡ false }
    requires few { links ≤ 2 }
    requires user { node.owner.uid ≤ (constants geometry.now.edition).id_limit }
    requires group { node.owner.gid ≤ (constants geometry.now.edition).id_limit }
    ensures makes { MakesInode geometry.now image.old image.new i
        (new_inode geometry.now.edition mode links node.owner.uid node.owner.gid node.moment) }
    ensures unused { geometry.now.edition ≡ editions.V7 → slice_index image.new (inode_place editions.V7 i + 51) ≡ 0 }
{
    let NewNode { owner, moment, .. } = node;
    let inode = Inode::new(geometry.edition, mode, links, owner.uid, owner.gid, moment);
    clear_inode(image, geometry, i);
    put_inode(image, geometry, i, &inode);
}
