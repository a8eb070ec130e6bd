//! The first byte that differs at a path of two trees.
ghost use Rattle.std.specs.Prelude.{◌≡◌, ◌≤◌};
ghost use Rattle.vol_layout.specs.Geometry.{Fits};
ghost use Rattle.vol_compare.specs.Lines.{first_changed, nodes_changed};
ghost use Rattle.vol_compare.specs.Members.{bytes_of, content_at, content_of};
ghost use Rattle.vol_compare.specs.declared.members.NamedNode.{NamedNode};

use crate::bodies::{StoredFile, first_difference};
use crate::lines::is_one_kind;
use crate::members::{MetTree, NodeKind, Target, target_of};
use vol_archive::MetEntry;

/// Returns the first place at which the bytes of what two entries lead to differ, if they lead to regular files and there is one.
///
/// Costs [`first_difference`] of two files.
pub(crate) fn first_changed(
    old: &MetTree<'_>,
    old_found: &MetEntry,
    new: &MetTree<'_>,
    new_found: &MetEntry,
    times: bool,
) -> Option<u32>
    requires old_fits { Fits old.now.geometry.now old.now.image.now }
    requires new_fits { Fits new.now.geometry.now new.now.image.now }
    ensures { result ≡ first_changed
        (content_at times old.now.geometry.now old.now.image.now old.now.founds.items old_found.now)
        (content_at times new.now.geometry.now new.now.image.now new.now.founds.items new_found.now) }
{
    let before = target_of(old, old_found, times);
    let after = target_of(new, new_found, times);
    let was = StoredFile {
        image: old.image,
        geometry: old.geometry,
        inode: old_found.inode,
    };
    let is = StoredFile {
        image: new.image,
        geometry: new.geometry,
        inode: new_found.inode,
    };
    targets_changed(before, was, after, is)
}

/// Returns the first place at which the bytes of what two paths lead to differ, if they lead to regular files and there is one.
fn targets_changed(
    old: Target<'_>,
    old_file: StoredFile<'_>,
    new: Target<'_>,
    new_file: StoredFile<'_>,
) -> Option<u32>
    requires old_fits { Fits old_file.geometry.now old_file.image.now }
    requires old_number { (node : NamedNode) → old ≡ Target.Node node → (1 ≤ old_file.inode) × (old_file.inode ≤ old_file.geometry.now.last_inode) }
    requires new_fits { Fits new_file.geometry.now new_file.image.now }
    requires new_number { (node : NamedNode) → new ≡ Target.Node node → (1 ≤ new_file.inode) × (new_file.inode ≤ new_file.geometry.now.last_inode) }
    ensures { result ≡ first_changed
        (content_of old_file.entry.geometry.now old_file.entry.image.now old_file.entry.inode old.entry)
        (content_of new_file.entry.geometry.now new_file.entry.image.now new_file.entry.inode new.entry) }
{
    match (old, new) {
        (Target::Node(f), Target::Node(h)) => {
            nodes_changed(f.facts.kind, old_file, h.facts.kind, new_file)
        }
        _ => None,
    }
}

/// Returns the first place at which the bytes of two nodes differ, if they are regular files and there is one.
#[tactic(auto, using(crate::proofs::NodeBytes::file_bytes, crate::proofs::NodeBytes::no_bytes))]
fn nodes_changed(
    old: NodeKind,
    old_file: StoredFile<'_>,
    new: NodeKind,
    new_file: StoredFile<'_>,
) -> Option<u32>
    requires old_fits { Fits old_file.geometry.now old_file.image.now }
    requires old_first { 1 ≤ old_file.inode }
    requires old_last { old_file.inode ≤ old_file.geometry.now.last_inode }
    requires new_fits { Fits new_file.geometry.now new_file.image.now }
    requires new_first { 1 ≤ new_file.inode }
    requires new_last { new_file.inode ≤ new_file.geometry.now.last_inode }
    ensures { result ≡ nodes_changed old (bytes_of old_file.entry.geometry.now old_file.entry.image.now old_file.entry.inode old)
        new (bytes_of new_file.entry.geometry.now new_file.entry.image.now new_file.entry.inode new) }
{
    if old.is_file() && is_one_kind(old, new) {
        first_difference(old_file, new_file)
    } else {
        None
    }
}
