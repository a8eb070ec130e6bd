//! The lines of what differs between two trees.
ghost use Rattle.std.specs.Prelude.{◌≡◌, ◌≤◌, ◌++◌, ◌∷◌, [], ℕ, List, true, if◌then◌else◌, option_map, IfOk, OnOk};
ghost use Rattle.vol_layout.specs.Geometry.{Fits};
ghost use Rattle.vol_compare.specs.Lines.{bytes_change, changed_line, fact_changes, first_changed, gone_line, added_line, is_one_kind, is_one_name, is_one_reason, kind_text, left_text, link_text, lone_line, name_remark, name_text, named_line, node_changes, node_text, nodes_line, own_text, pair_line, path_text, renamed_line, turned_line, unseen_line};
ghost use Rattle.vol_compare.specs.Members.{LeftOut, content_at, content_of, is_unseen};
ghost use Rattle.vol_layout.specs.declared.geometry.Geometry.{Geometry};

use crate::changes::{push_bytes_change, push_fact_changes};
use crate::members::{Facts, MetTree, NamedNode, NodeKind, Target, target_of};
use escaped_text::push_escaped;
use std::alloc::{AllocError, Global};
use vol_archive::{MetEntry, Reason};

/// Returns the line of a path that only the old tree has.
pub(crate) fn gone_line(
    alloc: Global,
    tree: &MetTree<'_>,
    found: &MetEntry,
    times: bool,
) -> Result<Vec<u8>, AllocError>
    requires { Fits tree.now.geometry.now tree.now.image.now }
    ensures { IfOk result (λ line. line.items ≡ gone_line found.now.path
        (content_at times tree.now.geometry.now tree.now.image.now tree.now.founds.items found.now)) }
{
    lone_line(alloc, b'D', tree, found, times)
}

/// Returns the line of a path that only the new tree has.
pub(crate) fn added_line(
    alloc: Global,
    tree: &MetTree<'_>,
    found: &MetEntry,
    times: bool,
) -> Result<Vec<u8>, AllocError>
    requires { Fits tree.now.geometry.now tree.now.image.now }
    ensures { IfOk result (λ line. line.items ≡ added_line found.now.path
        (content_at times tree.now.geometry.now tree.now.image.now tree.now.founds.items found.now)) }
{
    lone_line(alloc, b'A', tree, found, times)
}

/// Returns the line of a path that only one tree has.
fn lone_line(
    alloc: Global,
    letter: u8,
    tree: &MetTree<'_>,
    found: &MetEntry,
    times: bool,
) -> Result<Vec<u8>, AllocError>
    requires { Fits tree.now.geometry.now tree.now.image.now }
    ensures { IfOk result (λ line. line.items ≡ lone_line letter found.now.path
        (content_at times tree.now.geometry.now tree.now.image.now tree.now.founds.items found.now)) }
{
    let mut line = Vec::new(alloc);
    line.push(letter)?;
    push_path(&mut line, found.path.as_slice())?;
    push_name_remark(&mut line, target_of(tree, found, times))?;
    line.push(b'\n')?;
    Ok(line)
}

/// Appends a remark on a path that only one tree has, if its last name is empty or has a slash, so that it looks like another path.
fn push_name_remark(text: &mut Vec<u8>, target: Target<'_>) -> Result<(), AllocError>
    ensures { (g : Geometry) (image : List ℕ) (i : ℕ) → OnOk result (text.new.items ≡ text.old.items ++ name_remark (content_of g image i target.entry)) }
{
    let Target::Left(Reason::BadName) = target else {
        return Ok(());
    };
    text.extend_from_slice(b" (")?;
    text.extend_from_slice(left_text(Reason::BadName))?;
    Ok(text.extend_from_slice(b")")?)
}

/// Appends a path of a tree, from the root.
fn push_path(text: &mut Vec<u8>, path: &[u8]) -> Result<(), AllocError>
    ensures { OnOk result (text.new.items ≡ text.old.items ++ path_text path.now) }
{
    text.extend_from_slice(b" /")?;
    push_escaped(text, path)
}

/// Returns the line of a path that leads to different things in two trees; no bytes if it leads to the same. The paths of the entries are equal, and
/// `first` is the first byte that differs.
pub(crate) fn pair_line(
    alloc: Global,
    old: &MetTree<'_>,
    old_found: &MetEntry,
    new: &MetTree<'_>,
    new_found: &MetEntry,
    times: bool,
    first: Option<u32>,
) -> Result<Vec<u8>, AllocError>
    requires old_fits { Fits old.now.geometry.now old.now.image.now }
    requires new_fits { Fits new.now.geometry.now new.now.image.now }
    requires first { first ≡ first_changed
        (content_at times old.now.geometry.now old.now.image.now old.now.founds.items old_found.now)
        (content_at times new.now.geometry.now new.now.image.now new.now.founds.items new_found.now) }
    ensures { IfOk result (λ line. line.items ≡ pair_line old_found.now.path
        (content_at times old.now.geometry.now old.now.image.now old.now.founds.items old_found.now)
        (content_at times new.now.geometry.now new.now.image.now new.now.founds.items new_found.now)) }
{
    let before = target_of(old, old_found, times);
    let after = target_of(new, new_found, times);
    targets_line(alloc, old_found.path.as_slice(), before, after, first)
}

/// Returns the line of a path that leads to different things in two trees; no bytes if it leads to the same.
fn targets_line(
    alloc: Global,
    path: &[u8],
    old: Target<'_>,
    new: Target<'_>,
    first: Option<u32>,
) -> Result<Vec<u8>, AllocError>
    ensures { (g h : Geometry) (image other : List ℕ) (i j : ℕ) → first ≡ first_changed (content_of g image i old.entry) (content_of h other j new.entry)
        → IfOk result (λ line. line.items ≡ pair_line path.now (content_of g image i old.entry) (content_of h other j new.entry)) }
{
    match (old, new) {
        (Target::Node(f), Target::Node(h)) => named_line(alloc, path, f, h, first),
        (Target::Left(r), Target::Left(s)) => reasons_line(alloc, path, r, s),
        (Target::Node(f), Target::Left(s)) => {
            let from = node_text(alloc, f)?;
            turned_line(alloc, path, &from, left_text(s))
        }
        (Target::Left(r), Target::Node(h)) => {
            let to = node_text(alloc, h)?;
            turned_line(alloc, path, left_text(r), &to)
        }
    }
}

/// Returns the line of a path that leads to nodes in two trees; no bytes if they are the same.
fn named_line(
    alloc: Global,
    path: &[u8],
    old: NamedNode<'_>,
    new: NamedNode<'_>,
    first: Option<u32>,
) -> Result<Vec<u8>, AllocError>
    ensures { IfOk result (λ line. line.items ≡ named_line path.now old.entry.facts (option_map (λ p. p.now) old.entry.first)
        new.entry.facts (option_map (λ p. p.now) new.entry.first) first) }
{
    if is_one_name(old.first, new.first) {
        nodes_line(alloc, path, old.facts, new.facts, first)
    } else {
        renamed_line(alloc, path, old, new, first)
    }
}

/// Returns the line of a path that is no name of one file now, or wasn't.
#[tactic(auto, unfolding(crate::specs::Lines::renamed_line))]
fn renamed_line(
    alloc: Global,
    path: &[u8],
    old: NamedNode<'_>,
    new: NamedNode<'_>,
    first: Option<u32>,
) -> Result<Vec<u8>, AllocError>
    ensures { IfOk result (λ line. line.items ≡ renamed_line path.now old.entry.facts (option_map (λ p. p.now) old.entry.first)
        new.entry.facts (option_map (λ p. p.now) new.entry.first) first) }
{
    let mut line = Vec::new(alloc);
    line.push(renamed_letter(old.facts.kind, new.facts.kind))?;
    push_path(&mut line, path)?;
    line.push(b' ')?;
    push_name(&mut line, old)?;
    line.extend_from_slice(b" -> ")?;
    push_name(&mut line, new)?;
    push_if_one_kind(alloc, &mut line, old.facts, new.facts, first)?;
    line.push(b'\n')?;
    Ok(line)
}

/// Returns the letter of a path at which nodes of these kinds have other names: `M` if they are of one kind.
fn renamed_letter(old: NodeKind, new: NodeKind) -> u8
    ensures { result ≡ (if is_one_kind old new then 77 else 84) }
{
    if is_one_kind(old, new) { b'M' } else { b'T' }
}

/// Appends the words for a node whose names changed.
fn push_name(text: &mut Vec<u8>, node: NamedNode<'_>) -> Result<(), AllocError>
    ensures { OnOk result (text.new.items ≡ text.old.items ++ name_text node.entry.facts.kind (option_map (λ p. p.now) node.entry.first)) }
{
    match node.first {
        None => Ok(text.extend_from_slice(own_text(node.facts.kind))?),
        Some(path) => push_link(text, path),
    }
}

/// Appends the words for a further name of the file at a path.
fn push_link(text: &mut Vec<u8>, path: &[u8]) -> Result<(), AllocError>
    ensures { OnOk result (text.new.items ≡ text.old.items ++ link_text path.now) }
{
    text.extend_from_slice(b"link to /")?;
    push_escaped(text, path)
}

/// Returns the words for a node.
fn node_text(alloc: Global, node: NamedNode<'_>) -> Result<Vec<u8>, AllocError>
    ensures { IfOk result (λ text. text.items ≡ node_text node.entry.facts.kind (option_map (λ p. p.now) node.entry.first)) }
{
    let mut text = Vec::new(alloc);
    match node.first {
        None => text.extend_from_slice(kind_text(node.facts.kind))?,
        Some(path) => push_link(&mut text, path)?,
    }
    Ok(text)
}

/// True if a path is the first name of two nodes, or a further one of those with one first name.
fn is_one_name(old: Option<&[u8]>, new: Option<&[u8]>) -> bool
    ensures { result ≡ is_one_name (option_map (λ p. p.now) old.entry) (option_map (λ p. p.now) new.entry) }
{
    match (old, new) {
        (None, None) => true,
        (Some(a), Some(b)) => a == b,
        (None, Some(_)) | (Some(_), None) => false,
    }
}

/// Returns the line of a path that is left out for two reasons; no bytes if these are the same and the path leads to nothing.
fn reasons_line(alloc: Global, path: &[u8], old: Reason, new: Reason) -> Result<Vec<u8>, AllocError>
    ensures { IfOk result (λ line. line.items ≡ pair_line path.now (LeftOut old) (LeftOut new)) }
{
    if !is_one_reason(old, new) {
        return turned_line(alloc, path, left_text(old), left_text(new));
    }
    if is_unseen(old) {
        unseen_line(alloc, path, old)
    } else {
        Ok(Vec::new(alloc))
    }
}

/// Returns the line of a path at which both trees are left out for this reason, so that it is unknown if it leads to the same.
fn unseen_line(alloc: Global, path: &[u8], reason: Reason) -> Result<Vec<u8>, AllocError>
    ensures { IfOk result (λ line. line.items ≡ unseen_line path.now reason) }
{
    let mut line = Vec::new(alloc);
    line.push(b'U')?;
    push_path(&mut line, path)?;
    line.push(b' ')?;
    line.extend_from_slice(left_text(reason))?;
    line.push(b'\n')?;
    Ok(line)
}

/// True if an entry is left out for a reason that leaves unknown what it leads to.
fn is_unseen(reason: Reason) -> bool
    ensures { result ≡ is_unseen reason }
{
    matches!(reason, Reason::LongPath)
}

/// True if two entries are left out for one reason.
pub(crate) fn is_one_reason(old: Reason, new: Reason) -> bool
    ensures { result ≡ is_one_reason old new }
{
    match (old, new) {
        (Reason::NoNode, Reason::NoNode)
        | (Reason::OddNode, Reason::OddNode)
        | (Reason::Again, Reason::Again)
        | (Reason::LongPath, Reason::LongPath)
        | (Reason::BadName, Reason::BadName) => true,
        _ => false,
    }
}

/// Returns the line of two nodes at a path, if they differ.
fn nodes_line(
    alloc: Global,
    path: &[u8],
    old: Facts,
    new: Facts,
    first: Option<u32>,
) -> Result<Vec<u8>, AllocError>
    ensures { IfOk result (λ line. line.items ≡ nodes_line path.now old new first) }
{
    if !is_one_kind(old.kind, new.kind) {
        return turned_line(alloc, path, kind_text(old.kind), kind_text(new.kind));
    }
    let mut changes = Vec::new(alloc);
    push_node_changes(alloc, &mut changes, old, new, first)?;
    changed_line(alloc, path, &changes)
}

/// Appends all that differs between two nodes, each after a comma, if they are of one kind.
fn push_if_one_kind(
    alloc: Global,
    text: &mut Vec<u8>,
    old: Facts,
    new: Facts,
    first: Option<u32>,
) -> Result<(), AllocError>
    ensures { OnOk result (text.new.items ≡ text.old.items ++ (if is_one_kind old.kind new.kind then node_changes old new first else [])) }
{
    if is_one_kind(old.kind, new.kind) {
        push_node_changes(alloc, text, old, new, first)
    } else {
        Ok(())
    }
}

/// Appends all that differs between two nodes of one kind, each after a comma.
fn push_node_changes(
    alloc: Global,
    text: &mut Vec<u8>,
    old: Facts,
    new: Facts,
    first: Option<u32>,
) -> Result<(), AllocError>
    ensures { OnOk result (text.new.items ≡ text.old.items ++ node_changes old new first) }
{
    push_fact_changes(alloc, text, old, new)?;
    push_bytes_change(alloc, text, first)
}

/// Returns the line of a path whose node changed in this way: the changes without the comma before the first; no bytes if there are none.
fn changed_line(alloc: Global, path: &[u8], changes: &[u8]) -> Result<Vec<u8>, AllocError>
    ensures { IfOk result (λ line. line.items ≡ changed_line path.now changes.now) }
{
    let mut line = Vec::new(alloc);
    if let Some((_, changes)) = changes.split_first() {
        line.push(b'M')?;
        push_path(&mut line, path)?;
        line.extend_from_slice(changes)?;
        line.push(b'\n')?;
    }
    Ok(line)
}

/// True if two nodes are of one kind.
pub(crate) fn is_one_kind(old: NodeKind, new: NodeKind) -> bool
    ensures { result ≡ is_one_kind old new }
{
    match (old, new) {
        (NodeKind::File(_), NodeKind::File(_))
        | (NodeKind::Directory, NodeKind::Directory)
        | (NodeKind::Block(_), NodeKind::Block(_))
        | (NodeKind::Character(_), NodeKind::Character(_)) => true,
        _ => false,
    }
}

/// Returns the words for a kind of node.
fn kind_text(kind: NodeKind) -> &'static [u8]
    ensures { result.now ≡ kind_text kind }
{
    match kind {
        NodeKind::File(_) => b"file",
        NodeKind::Directory => b"directory",
        NodeKind::Block(_) => b"block special file",
        NodeKind::Character(_) => b"character special file",
    }
}

/// Returns the words for an entry that leads to nothing, for this reason.
pub(crate) fn left_text(reason: Reason) -> &'static [u8]
    ensures { result.now ≡ left_text reason }
{
    match reason {
        Reason::NoNode => b"entry without an i-node",
        Reason::OddNode => b"i-node of no known kind",
        Reason::Again => b"directory met before",
        Reason::LongPath => b"path above 4096 bytes",
        Reason::BadName => b"name that is empty or has a slash",
    }
}

/// Returns the words for a node that was or is no further name.
fn own_text(kind: NodeKind) -> &'static [u8]
    ensures { result.now ≡ own_text kind }
{
    match kind {
        NodeKind::File(_) => b"own file",
        NodeKind::Directory => b"directory",
        NodeKind::Block(_) => b"own block special file",
        NodeKind::Character(_) => b"own character special file",
    }
}

/// Returns the line of a path that leads to something else, with the words for both.
#[tactic(auto, unfolding(crate::specs::Lines::turned_line))]
fn turned_line(alloc: Global, path: &[u8], old: &[u8], new: &[u8]) -> Result<Vec<u8>, AllocError>
    ensures { IfOk result (λ line. line.items ≡ turned_line path.now old.now new.now) }
{
    let mut line = Vec::new(alloc);
    line.push(b'T')?;
    push_path(&mut line, path)?;
    line.push(b' ')?;
    line.extend_from_slice(old)?;
    line.extend_from_slice(b" -> ")?;
    line.extend_from_slice(new)?;
    line.push(b'\n')?;
    Ok(line)
}
