//! The members of a tree: what each path leads to.
ghost use Rattle.std.specs.Prelude.{◌≡◌, ◌≤◌, ℕ, List, option_map, IfOk};
ghost use Rattle.vol_layout.specs.Geometry.{Fits};
ghost use Rattle.vol_layout.specs.declared.mode.Kind.{Kind};
ghost use Rattle.vol_judge.specs.Directories.{root_of};
ghost use Rattle.vol_compare.specs.Members.{AreMet, Node, bytes_of, content_at, content_of, facts_of, first_kind, role_content, root_entry, root_role, special_kind, is_file, time_if};
ghost use Rattle.vol_layout.specs.Inode.{inode_of};
ghost use Rattle.vol_layout.specs.declared.geometry.Geometry.{Geometry};
ghost use Rattle.vol_compare.specs.declared.members.NamedNode.{NamedNode};

use pdp_words::{Bytes, Image};
use std::alloc::{AllocError, Global};
use vol_archive::{MetEntry, Reason, Role, is_directory, walk};
use vol_layout::i_list::kind;
use vol_layout::{Geometry, Inode, Kind, inode};

/// The kind of a node, with what only this kind has.
#[derive(Clone, Copy)]
pub(crate) enum NodeKind {
    /// A regular file, with its size in bytes.
    File(u32),
    /// A directory.
    Directory,
    /// A block special file, with its device number.
    Block(u16),
    /// A character special file, with its device number.
    Character(u16),
}

/// What is compared of a node, but its bytes.
#[derive(Clone, Copy)]
pub(crate) struct Facts {
    /// The kind.
    pub(crate) kind: NodeKind,
    /// The permission bits, the low 12 bits of the mode.
    pub(crate) permissions: u16,
    /// The link count.
    pub(crate) links: u16,
    /// The owner.
    pub(crate) uid: u16,
    /// The owner's group.
    pub(crate) gid: u16,
    /// The time of the last write, in seconds.
    pub(crate) modified: u32,
    /// The time of the last read, in seconds; 0 if it isn't compared.
    pub(crate) accessed: u32,
    /// The time of the i-node's last change, in seconds; 0 if it isn't compared, or isn't stored.
    pub(crate) changed: u32,
}

/// A node to which a path leads.
#[derive(Clone, Copy)]
pub(crate) struct NamedNode<'a> {
    /// What is compared of the node.
    pub(crate) facts: Facts,
    /// The path of the node's first name, if this is a further one.
    pub(crate) first: Option<&'a [u8]>,
}

/// What a path leads to.
#[derive(Clone, Copy)]
pub(crate) enum Target<'a> {
    /// A node.
    Node(NamedNode<'a>),
    /// Nothing that a tree has, for this reason.
    Left(Reason),
}

/// The tree of an image, as a walk from its root finds it.
#[derive(Drop)]
pub struct MetTree<'a> {
    /// The image.
    pub(crate) image: &'a Image,
    /// The geometry of the image.
    pub(crate) geometry: &'a Geometry,
    /// The root.
    pub(crate) root: MetEntry,
    /// All that the walk found below the root, in its order.
    pub(crate) founds: Vec<MetEntry>,
}

impl NodeKind {
    /// True for the kind of a regular file.
    pub(crate) fn is_file(self) -> bool
        ensures { result ≡ is_file self }
    {
        matches!(self, NodeKind::File(_))
    }
}

impl MetTree<'_> {
    /// Returns all that the walk found below the root, in its order.
    pub fn founds(&self) -> &[MetEntry]
        ensures { result.now ≡ self.now.founds.items }
    {
        &self.founds
    }
}

/// Walks the tree of an image from its root. If the root is no directory, the root is all that there is.
///
/// Costs [`walk`], and takes memory for all paths.
pub fn met_tree<'a>(
    alloc: Global,
    image: &'a Image,
    geometry: &'a Geometry,
) -> Result<MetTree<'a>, AllocError>
    requires { Fits geometry.now image.now }
    ensures image { IfOk result (λ tree. tree.image.now ≡ image.now) }
    ensures geometry { IfOk result (λ tree. tree.geometry.now ≡ geometry.now) }
    ensures root { IfOk result (λ tree. tree.root ≡ root_entry geometry.now image.now) }
    ensures founds { IfOk result (λ tree. AreMet geometry.now image.now tree.founds.items) }
{
    let start = geometry.edition.constants().root;
    let root = MetEntry {
        path: Bytes::from_vec(Vec::new(alloc)),
        inode: start,
        role: root_role(kind(image, geometry, start)),
    };
    let founds = met_below(alloc, image, geometry, start)?;
    Ok(MetTree {
        image,
        geometry,
        root,
        founds,
    })
}

/// Returns all that a walk from the root, `start`, finds; nothing if it is no directory.
#[tactic(auto, using(crate::proofs::Walks::met_directory, crate::proofs::Walks::met_nothing))]
fn met_below(
    alloc: Global,
    image: &Image,
    geometry: &Geometry,
    start: u16,
) -> Result<Vec<MetEntry>, AllocError>
    requires fits { Fits geometry.now image.now }
    requires root { start ≡ root_of geometry.now }
    ensures { IfOk result (λ founds. AreMet geometry.now image.now founds.items) }
{
    if is_directory(image, geometry, start) {
        walk(alloc, image, geometry, start)
    } else {
        Ok(Vec::new(alloc))
    }
}

/// Returns the role of the root, by its kind.
fn root_role(kind: Kind) -> Role
    ensures { result ≡ root_role kind }
{
    match kind {
        Kind::Free => Role::Left(Reason::NoNode),
        Kind::Odd => Role::Left(Reason::OddNode),
        Kind::Regular => Role::File,
        Kind::Special => Role::Special,
        Kind::Directory => Role::Directory,
    }
}

/// Returns what an entry of a tree leads to. The times of the last read and of the last change are left out unless `times` is true.
#[tactic(auto, unfolding(crate::specs::Members::content_at))]
pub(crate) fn target_of<'a>(tree: &'a MetTree<'_>, found: &MetEntry, times: bool) -> Target<'a>
    requires { Fits tree.now.geometry.now tree.now.image.now }
    ensures content { content_of tree.now.geometry.now tree.now.image.now found.now.inode result
        ≡ content_at times tree.now.geometry.now tree.now.image.now tree.now.founds.items found.now }
    ensures number { (node : NamedNode) → result ≡ Target.Node node → (1 ≤ found.now.inode) × (found.now.inode ≤ tree.now.geometry.now.last_inode) }
{
    let i = found.inode;
    if i == 0 || i > tree.geometry.last_inode {
        return Target::Left(Reason::NoNode);
    }
    role_target(tree, i, found.role, times)
}

/// Returns what an entry with this role for i-node `i`, an i-number of the volume, leads to.
fn role_target<'a>(tree: &'a MetTree<'_>, i: u16, role: Role, times: bool) -> Target<'a>
    requires fits { Fits tree.now.geometry.now tree.now.image.now }
    requires first { 1 ≤ i }
    requires last { i ≤ tree.now.geometry.now.last_inode }
    ensures { content_of tree.now.geometry.now tree.now.image.now i result
        ≡ role_content times tree.now.geometry.now tree.now.image.now tree.now.founds.items i (inode_of tree.now.geometry.now.edition tree.now.image.now i) role }
{
    let node = inode(tree.image, tree.geometry, i);
    match role {
        Role::File => named(&node, NodeKind::File(node.size), times, None),
        Role::Directory => named(&node, NodeKind::Directory, times, None),
        Role::Special => named(&node, special(&node), times, None),
        Role::Link(k) => match tree.founds.get(k) {
            Some(first) => {
                let kind = first_kind(first.role, &node);
                named(&node, kind, times, Some(first.path.as_slice()))
            }
            None => Target::Left(Reason::NoNode),
        },
        Role::Left(reason) => Target::Left(reason),
    }
}

/// Returns a node of this kind, with the path of its first name if this is a further one.
fn named<'a>(node: &Inode, kind: NodeKind, times: bool, first: Option<&'a [u8]>) -> Target<'a>
    ensures { (g : Geometry) (image : List ℕ) (i : ℕ) → content_of g image i result
        ≡ Node (facts_of times node.now kind) (bytes_of g image i kind) (option_map (λ path. path.now) first.entry) }
{
    Target::Node(NamedNode {
        facts: facts_of(node, kind, times),
        first,
    })
}

/// Returns the kind of a node whose first name has this role.
fn first_kind(role: Role, node: &Inode) -> NodeKind
    ensures { result ≡ first_kind role node.now }
{
    match role {
        Role::Special => special(node),
        Role::File | Role::Directory | Role::Link(_) | Role::Left(_) => NodeKind::File(node.size),
    }
}

/// Returns the kind of a special file.
fn special(node: &Inode) -> NodeKind
    ensures { result ≡ special_kind node.now }
{
    let device = node.device_number();
    if node.mode.is_block() {
        NodeKind::Block(device)
    } else {
        NodeKind::Character(device)
    }
}

/// Returns what is compared of an i-node of this kind.
fn facts_of(node: &Inode, kind: NodeKind, times: bool) -> Facts
    ensures { result ≡ facts_of times node.now kind }
{
    Facts {
        kind,
        permissions: node.mode.permissions(),
        links: node.links,
        uid: node.uid,
        gid: node.gid,
        modified: node.modified,
        accessed: time_if(times, node.accessed),
        changed: time_if(times, node.changed.unwrap_or(0)),
    }
}

/// Returns a time that is compared, or 0.
fn time_if(times: bool, time: u32) -> u32
    ensures { result ≡ time_if times time }
{
    if times { time } else { 0 }
}
