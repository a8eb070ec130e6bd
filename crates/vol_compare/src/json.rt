//! What differs between two trees, as JSON.
ghost use Rattle.std.specs.Prelude.{◌≡◌, ◌≤◌, ◌++◌, ℕ, List, map, option_map, string_bytes, IfOk, OnOk};
ghost use Rattle.std.specs.List.{flat_map};
ghost use Rattle.serde_json.specs.View.{view};
ghost use Rattle.vol_layout.specs.Geometry.{Fits};
ghost use Rattle.vol_layout.specs.declared.geometry.Geometry.{Geometry};
ghost use Rattle.vol_compare.specs.Members.{content_at, content_of};
ghost use Rattle.vol_compare.specs.Lines.{first_changed};
ghost use Rattle.vol_compare.specs.Merge.{first_of, pairing_of};
ghost use Rattle.vol_compare.specs.Json.{
  added_data,
  both_data,
  differences_data,
  first_data,
  gone_data,
  is_change_stored,
  kind_word,
  left_data,
  link_data,
  major_data,
  minor_data,
  node_data,
  nodes_word,
  pair_word,
  pairing_data,
  path_text,
  reasons_word,
  side_data,
  size_data,
  time_data,
  told_data,
};

use crate::lines::{is_one_kind, is_one_reason, left_text};
use crate::members::{MetTree, NamedNode, NodeKind, Target, target_of};
use crate::merge::{Pair, first_of, line_of, pairs};
use serde_json::{Value, json};
use std::alloc::{AllocError, Global};
use vol_archive::{MetEntry, Reason};
use vol_layout::Edition;
use vol_listing::json::{escaped_text, octal};

/// Returns what differs between two trees, a value for each line of [`put_differences`](crate::merge::put_differences), in their order.
///
/// Takes the memory of [`pairs`], and memory for the values. Costs [`put_differences`](crate::merge::put_differences).
pub fn difference_values(
    alloc: Global,
    old: &MetTree<'_>,
    new: &MetTree<'_>,
    times: bool,
) -> Result<Vec<Value>, AllocError>
    requires old_fits { Fits old.now.geometry.now old.now.image.now }
    requires new_fits { Fits new.now.geometry.now new.now.image.now }
    requires roots { old.now.root.path ≡ new.now.root.path }
    ensures { IfOk result (λ values. map view values.items ≡ differences_data times old.now new.now) }
{
    let pairs = pairs(alloc, old, new)?;
    pair_values(alloc, old, new, times, &pairs)
}

/// Returns the values of what differs at some paths.
fn pair_values(
    alloc: Global,
    old: &MetTree<'_>,
    new: &MetTree<'_>,
    times: bool,
    pairs: &[Pair<'_>],
) -> Result<Vec<Value>, AllocError>
    requires old_fits { Fits old.now.geometry.now old.now.image.now }
    requires new_fits { Fits new.now.geometry.now new.now.image.now }
    ensures { IfOk result (λ values. map view values.items
        ≡ flat_map (told_data times old.now.geometry.now.edition new.now.geometry.now.edition) (map (pairing_of times old.now new.now) pairs.now)) }
{
    let mut values = Vec::new(alloc);
    for pair in pairs {
        push_told(alloc, &mut values, old, new, times, *pair)?;
    }
    Ok(values)
}

/// Appends the value of what differs at a path, if it has a line.
#[tactic(auto, unfolding(crate::specs::Json::told_data))]
fn push_told(
    alloc: Global,
    values: &mut Vec<Value>,
    old: &MetTree<'_>,
    new: &MetTree<'_>,
    times: bool,
    pair: Pair<'_>,
) -> Result<(), AllocError>
    requires old_fits { Fits old.now.geometry.now old.now.image.now }
    requires new_fits { Fits new.now.geometry.now new.now.image.now }
    ensures { OnOk result (map view values.new.items ≡ map view values.old.items
        ++ told_data times old.now.geometry.now.edition new.now.geometry.now.edition (pairing_of times old.now new.now pair.entry)) }
{
    let first = first_of(old, new, times, pair);
    let line = line_of(alloc, old, new, times, pair, first)?;
    if line.is_empty() {
        return Ok(());
    }
    let value = pair_value(alloc, old, new, times, pair, first)?;
    Ok(values.push(value)?)
}

/// Returns what two trees have at a path, at which this is the first byte that differs.
fn pair_value(
    alloc: Global,
    old: &MetTree<'_>,
    new: &MetTree<'_>,
    times: bool,
    pair: Pair<'_>,
    first: Option<u32>,
) -> Result<Value, AllocError>
    requires old_fits { Fits old.now.geometry.now old.now.image.now }
    requires new_fits { Fits new.now.geometry.now new.now.image.now }
    requires first { first ≡ first_of (pairing_of times old.now new.now pair) }
    ensures { IfOk result (λ value. view value
        ≡ pairing_data times old.now.geometry.now.edition new.now.geometry.now.edition (pairing_of times old.now new.now pair.entry)) }
{
    match pair {
        Pair::Gone(found) => gone_value(alloc, old, found, times),
        Pair::Added(found) => added_value(alloc, new, found, times),
        Pair::Both(found, other) => both_value(alloc, old, found, new, other, times, first),
    }
}

/// Returns a path that only the old tree has.
fn gone_value(
    alloc: Global,
    tree: &MetTree<'_>,
    found: &MetEntry,
    times: bool,
) -> Result<Value, AllocError>
    requires { Fits tree.now.geometry.now tree.now.image.now }
    ensures { IfOk result (λ value. view value ≡ gone_data times tree.now.geometry.now.edition found.now.path
        (content_at times tree.now.geometry.now tree.now.image.now tree.now.founds.items found.now)) }
{
    let side = entry_value(alloc, tree, found, times)?;
    let path = path_text(alloc, found.path.as_slice())?;
    json!(in alloc; {"line": "gone", "old": side, "path": path})
}

/// Returns a path that only the new tree has.
fn added_value(
    alloc: Global,
    tree: &MetTree<'_>,
    found: &MetEntry,
    times: bool,
) -> Result<Value, AllocError>
    requires { Fits tree.now.geometry.now tree.now.image.now }
    ensures { IfOk result (λ value. view value ≡ added_data times tree.now.geometry.now.edition found.now.path
        (content_at times tree.now.geometry.now tree.now.image.now tree.now.founds.items found.now)) }
{
    let side = entry_value(alloc, tree, found, times)?;
    let path = path_text(alloc, found.path.as_slice())?;
    json!(in alloc; {"line": "added", "new": side, "path": path})
}

/// Returns what an entry of a tree leads to.
fn entry_value(
    alloc: Global,
    tree: &MetTree<'_>,
    found: &MetEntry,
    times: bool,
) -> Result<Value, AllocError>
    requires { Fits tree.now.geometry.now tree.now.image.now }
    ensures { IfOk result (λ value. view value ≡ side_data times tree.now.geometry.now.edition
        (content_at times tree.now.geometry.now tree.now.image.now tree.now.founds.items found.now)) }
{
    let target = target_of(tree, found, times);
    side_value(alloc, times, tree.geometry.edition, target)
}

/// Returns a path that leads to different things in two trees. The paths of the entries are equal, and `first` is the first byte that differs.
fn both_value(
    alloc: Global,
    old: &MetTree<'_>,
    old_found: &MetEntry,
    new: &MetTree<'_>,
    new_found: &MetEntry,
    times: bool,
    first: Option<u32>,
) -> Result<Value, AllocError>
    requires old_fits { Fits old.now.geometry.now old.now.image.now }
    requires new_fits { Fits new.now.geometry.now new.now.image.now }
    requires first { first ≡ first_changed
        (content_at times old.now.geometry.now old.now.image.now old.now.founds.items old_found.now)
        (content_at times new.now.geometry.now new.now.image.now new.now.founds.items new_found.now) }
    ensures { IfOk result (λ value. view value ≡ both_data times old.now.geometry.now.edition new.now.geometry.now.edition old_found.now.path
        (content_at times old.now.geometry.now old.now.image.now old.now.founds.items old_found.now)
        (content_at times new.now.geometry.now new.now.image.now new.now.founds.items new_found.now)) }
{
    let before = target_of(old, old_found, times);
    let after = target_of(new, new_found, times);
    let was = side_value(alloc, times, old.geometry.edition, before)?;
    let is = side_value(alloc, times, new.geometry.edition, after)?;
    let path = path_text(alloc, old_found.path.as_slice())?;
    json!(in alloc; {
        "first_byte": first_value(first),
        "line": pair_word(before, after),
        "new": is,
        "old": was,
        "path": path
    })
}

/// Returns a place, or null if there is none.
#[tactic(auto, unfolding(crate::specs::Json::first_data))]
fn first_value(first: Option<u32>) -> Value
    ensures { view result ≡ first_data first }
{
    match first {
        Some(at) => Value::from(at),
        None => Value::Null,
    }
}

/// Returns the word for the line of a path that leads to these things in two trees.
fn pair_word(old: Target<'_>, new: Target<'_>) -> &'static str
    ensures { (g h : Geometry) (image other : List ℕ) (i j : ℕ) → result.now ≡ pair_word (content_of g image i old.entry) (content_of h other j new.entry) }
{
    match (old, new) {
        (Target::Node(f), Target::Node(h)) => nodes_word(f.facts.kind, h.facts.kind),
        (Target::Left(r), Target::Left(s)) => reasons_word(r, s),
        _ => "turned",
    }
}

/// Returns the word for the line of a path that leads to nodes of these kinds.
fn nodes_word(old: NodeKind, new: NodeKind) -> &'static str
    ensures { result.now ≡ nodes_word old new }
{
    if is_one_kind(old, new) {
        "changed"
    } else {
        "turned"
    }
}

/// Returns the word for the line of a path that leads to nothing, for these reasons.
fn reasons_word(old: Reason, new: Reason) -> &'static str
    ensures { result.now ≡ reasons_word old new }
{
    if is_one_reason(old, new) {
        "unseen"
    } else {
        "turned"
    }
}

/// Returns what a path leads to in a tree of this edition.
fn side_value(
    alloc: Global,
    times: bool,
    edition: Edition,
    target: Target<'_>,
) -> Result<Value, AllocError>
    ensures { (g : Geometry) (image : List ℕ) (i : ℕ) → IfOk result (λ value. view value ≡ side_data times edition (content_of g image i target.entry)) }
{
    match target {
        Target::Node(node) => node_value(alloc, times, edition, node),
        Target::Left(reason) => left_value(alloc, reason),
    }
}

/// Returns why a path leads to nothing.
#[tactic(auto, unfolding(crate::specs::Json::left_data))]
fn left_value(alloc: Global, reason: Reason) -> Result<Value, AllocError>
    ensures { IfOk result (λ value. view value ≡ left_data reason) }
{
    let words = escaped_text(alloc, left_text(reason))?;
    json!(in alloc; {"reason": words})
}

/// Returns a node in a tree of this edition.
#[tactic(auto, unfolding(crate::specs::Json::node_data))]
fn node_value(
    alloc: Global,
    times: bool,
    edition: Edition,
    node: NamedNode<'_>,
) -> Result<Value, AllocError>
    ensures { IfOk result (λ value. view value ≡ node_data times edition node.entry.facts (option_map (λ p. p.now) node.entry.first)) }
{
    let facts = node.facts;
    let permissions = octal(alloc, facts.permissions)?;
    let link = link_value(alloc, node.first)?;
    json!(in alloc; {
        "atime": time_value(times, facts.accessed),
        "ctime": time_value(is_change_stored(times, edition), facts.changed),
        "gid": facts.gid,
        "kind": kind_word(facts.kind),
        "link": link,
        "links": facts.links,
        "major": major_value(facts.kind),
        "minor": minor_value(facts.kind),
        "mtime": facts.modified,
        "permissions": permissions,
        "size": size_value(facts.kind),
        "uid": facts.uid
    })
}

/// True if the times of the last change are compared, and an edition stores them.
fn is_change_stored(times: bool, edition: Edition) -> bool
    ensures { result ≡ is_change_stored times edition }
{
    match edition {
        Edition::V6 => false,
        Edition::V7 => times,
    }
}

/// Returns a time, or null if it isn't compared.
#[tactic(auto, unfolding(crate::specs::Json::time_data))]
fn time_value(compared: bool, time: u32) -> Value
    ensures { view result ≡ time_data compared time }
{
    if compared {
        Value::from(time)
    } else {
        Value::Null
    }
}

/// Returns the word for a kind of node.
fn kind_word(kind: NodeKind) -> &'static str
    ensures { result.now ≡ kind_word kind }
{
    match kind {
        NodeKind::File(_) => "file",
        NodeKind::Directory => "directory",
        NodeKind::Block(_) => "block",
        NodeKind::Character(_) => "character",
    }
}

/// Returns the size of a regular file, or null for another kind of node.
#[tactic(auto, unfolding(crate::specs::Json::size_data))]
fn size_value(kind: NodeKind) -> Value
    ensures { view result ≡ size_data kind }
{
    match kind {
        NodeKind::File(size) => Value::from(size),
        NodeKind::Directory | NodeKind::Block(_) | NodeKind::Character(_) => Value::Null,
    }
}

/// Returns the high byte of a special file's device number, or null for another kind of node.
#[tactic(auto, unfolding(crate::specs::Json::major_data))]
fn major_value(kind: NodeKind) -> Value
    ensures { view result ≡ major_data kind }
{
    match kind {
        NodeKind::Block(device) | NodeKind::Character(device) => Value::from(device / 256),
        NodeKind::File(_) | NodeKind::Directory => Value::Null,
    }
}

/// Returns the low byte of a special file's device number, or null for another kind of node.
#[tactic(auto, unfolding(crate::specs::Json::minor_data))]
fn minor_value(kind: NodeKind) -> Value
    ensures { view result ≡ minor_data kind }
{
    match kind {
        NodeKind::Block(device) | NodeKind::Character(device) => Value::from(device % 256),
        NodeKind::File(_) | NodeKind::Directory => Value::Null,
    }
}

/// Returns the path of the first name of a node, or null if there is none.
#[tactic(auto, unfolding(crate::specs::Json::link_data))]
fn link_value(alloc: Global, first: Option<&[u8]>) -> Result<Value, AllocError>
    ensures { IfOk result (λ value. view value ≡ link_data (option_map (λ p. p.now) first.entry)) }
{
    match first {
        Some(path) => Ok(Value::String(path_text(alloc, path)?)),
        None => Ok(Value::Null),
    }
}

/// Returns a path of a tree, from the root, as escaped text.
#[tactic(auto, unfolding(crate::specs::Json::path_text))]
fn path_text(alloc: Global, path: &[u8]) -> Result<String, AllocError>
    ensures { IfOk result (λ text. string_bytes text ≡ path_text path.now) }
{
    let mut whole = Vec::new(alloc);
    whole.push(b'/')?;
    whole.extend_from_slice(path)?;
    escaped_text(alloc, &whole)
}
