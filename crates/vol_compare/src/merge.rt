//! Two trees, merged by their paths, and the lines of what differs between them.
ghost use Rattle.std.specs.Prelude.{◌≡◌, ◌≤◌, ◌<◌, ◌+◌, ◌++◌, ◌∷◌, not, nat_lt, Bool, if◌then◌else◌, length, map, IfOk};
ghost use Rattle.std.specs.List.{flat_map};
ghost use Rattle.std.specs.declared.cmp.Ordering.TheVariants.{Less, Equal, Greater};
ghost use Rattle.vol_layout.specs.Geometry.{Fits};
ghost use Rattle.vol_archive.specs.Write.{Writes};
ghost use Rattle.vol_dir.specs.Walk.{is_nil};
ghost use Rattle.vol_compare.specs.Merge.{all_of, first_of, length_order, line_of, merged, order_of, pairing_of, path_order, rank, rest_of, tree_lines};

use crate::changed_bytes::first_changed;
use crate::lines::{added_line, gone_line, pair_line};
use crate::members::MetTree;
use pdp_words::{Sink, write_all};
use std::alloc::{AllocError, Global};
use std::cmp::Ordering;
use vol_archive::{MetEntry, WriteFault};

/// What two trees have at a path.
#[derive(Clone, Copy)]
pub(crate) enum Pair<'a> {
    /// An entry that only the old tree has.
    Gone(&'a MetEntry),
    /// An entry that only the new tree has.
    Added(&'a MetEntry),
    /// An entry of each tree.
    Both(&'a MetEntry, &'a MetEntry),
}

/// What two trees have at the next path, and the places in both after it.
#[derive(Clone, Copy)]
struct Step<'a> {
    /// What they have.
    pair: Pair<'a>,
    /// The number of old entries that were merged.
    old: usize,
    /// The number of new entries that were merged.
    new: usize,
}

/// Writes the lines of the differences between two trees, in the order of their paths: of each path that only one of them has, and of each that leads to
/// different things. The times of the last read and of the last change are compared only if `times` is true. Returns true if there is a line.
///
/// Takes the memory of [`pairs`], and memory for one line at a time. Costs [`first_difference`](crate::bodies::first_difference) of each pair of files.
pub fn put_differences<O: Sink>(
    alloc: Global,
    old: &MetTree<'_>,
    new: &MetTree<'_>,
    times: bool,
    output: &mut O,
) -> Result<bool, WriteFault>
    requires old_fits { Fits old.now.geometry.now old.now.image.now }
    requires new_fits { Fits new.now.geometry.now new.now.image.now }
    requires roots { old.now.root.path ≡ new.now.root.path }
    ensures written { Writes (O.contents output.old) (O.contents output.new) (O.failed output.old) (O.failed output.new)
        (tree_lines times old.now new.now) result }
    ensures differs { IfOk result (λ differs. differs ≡ not (is_nil (tree_lines times old.now new.now))) }
{
    let pairs = pairs(alloc, old, new)?;
    put_lines(alloc, old, new, times, &pairs, output)
}

/// Writes the lines of what two trees have at some paths. Returns true if there is one.
fn put_lines<O: Sink>(
    alloc: Global,
    old: &MetTree<'_>,
    new: &MetTree<'_>,
    times: bool,
    pairs: &[Pair<'_>],
    output: &mut O,
) -> Result<bool, WriteFault>
    requires old_fits { Fits old.now.geometry.now old.now.image.now }
    requires new_fits { Fits new.now.geometry.now new.now.image.now }
    ensures written { Writes (O.contents output.old) (O.contents output.new) (O.failed output.old) (O.failed output.new)
        (flat_map line_of (map (pairing_of times old.now new.now) pairs.now)) result }
    ensures differs { IfOk result (λ differs. differs ≡ not (is_nil (flat_map line_of (map (pairing_of times old.now new.now) pairs.now)))) }
{
    let mut differs = false;
    for pair in pairs {
        let some = put_line(alloc, old, new, times, *pair, output)?;
        differs = differs || some;
    }
    Ok(differs)
}

/// Writes the line of what two trees have at a path. Returns true if there is one.
fn put_line<O: Sink>(
    alloc: Global,
    old: &MetTree<'_>,
    new: &MetTree<'_>,
    times: bool,
    pair: Pair<'_>,
    output: &mut O,
) -> Result<bool, WriteFault>
    requires old_fits { Fits old.now.geometry.now old.now.image.now }
    requires new_fits { Fits new.now.geometry.now new.now.image.now }
    ensures written { Writes (O.contents output.old) (O.contents output.new) (O.failed output.old) (O.failed output.new)
        (line_of (pairing_of times old.now new.now pair.entry)) result }
    ensures some { IfOk result (λ some. some ≡ not (is_nil (line_of (pairing_of times old.now new.now pair.entry)))) }
{
    let first = first_of(old, new, times, pair);
    let line = line_of(alloc, old, new, times, pair, first)?;
    put(&line, output)?;
    Ok(!line.is_empty())
}

/// Writes a piece of text.
fn put<O: Sink>(piece: &[u8], output: &mut O) -> Result<(), WriteFault>
    ensures { Writes (O.contents output.old) (O.contents output.new) (O.failed output.old) (O.failed output.new) piece.now result }
{
    match write_all(output, piece) {
        Ok(()) => Ok(()),
        Err(_) => Err(WriteFault::Output),
    }
}

/// Returns the first byte that differs at a path, if it leads to regular files in both trees and there is one.
///
/// Costs [`first_changed`].
pub(crate) fn first_of(
    old: &MetTree<'_>,
    new: &MetTree<'_>,
    times: bool,
    pair: Pair<'_>,
) -> Option<u32>
    requires old_fits { Fits old.now.geometry.now old.now.image.now }
    requires new_fits { Fits new.now.geometry.now new.now.image.now }
    ensures { result ≡ first_of (pairing_of times old.now new.now pair.entry) }
{
    match pair {
        Pair::Both(found, other) => first_changed(old, found, new, other, times),
        Pair::Gone(_) | Pair::Added(_) => None,
    }
}

/// Returns the line of what two trees have at a path, at which this is the first byte that differs; no bytes if it is the same.
pub(crate) fn line_of(
    alloc: Global,
    old: &MetTree<'_>,
    new: &MetTree<'_>,
    times: bool,
    pair: Pair<'_>,
    first: Option<u32>,
) -> Result<Vec<u8>, AllocError>
    requires old_fits { Fits old.now.geometry.now old.now.image.now }
    requires new_fits { Fits new.now.geometry.now new.now.image.now }
    requires first { first ≡ first_of (pairing_of times old.now new.now pair) }
    ensures { IfOk result (λ line. line.items ≡ line_of (pairing_of times old.now new.now pair.entry)) }
{
    match pair {
        Pair::Gone(found) => gone_line(alloc, old, found, times),
        Pair::Added(found) => added_line(alloc, new, found, times),
        Pair::Both(found, other) => pair_line(alloc, old, found, new, other, times, first),
    }
}

/// Returns what two trees have at each path, in the order of the paths.
///
/// Takes memory for two places for each path.
pub(crate) fn pairs<'a>(
    alloc: Global,
    old: &'a MetTree<'_>,
    new: &'a MetTree<'_>,
) -> Result<Vec<Pair<'a>>, AllocError>
    requires { old.now.root.path ≡ new.now.root.path }
    ensures { (times : Bool) → IfOk result (λ pairs. map (pairing_of times old.now new.now) pairs.items ≡ merged (all_of times old.now) (all_of times new.now)) }
{
    let mut pairs = Vec::new(alloc);
    pairs.push(Pair::Both(&old.root, &new.root))?;
    let mut i = 0;
    let mut j = 0;
    while i < old.founds.len() || j < new.founds.len() {
        let step = next_step(old, new, i, j);
        pairs.push(step.pair)?;
        i = step.old;
        j = step.new;
    }
    Ok(pairs)
}

/// Returns what two trees have at the next path, and the places after it.
fn next_step<'a>(old: &'a MetTree<'_>, new: &'a MetTree<'_>, i: usize, j: usize) -> Step<'a>
    requires old_within { i ≤ length old.now.founds.items }
    requires new_within { j ≤ length new.now.founds.items }
    requires some { i + j < length old.now.founds.items + length new.now.founds.items }
    ensures rest { (times : Bool) → pairing_of times old.now new.now result.pair
        ∷ merged (rest_of times old.now result.old) (rest_of times new.now result.new) ≡ merged (rest_of times old.now i) (rest_of times new.now j) }
    ensures old_within { result.old ≤ length old.now.founds.items }
    ensures new_within { result.new ≤ length new.now.founds.items }
    ensures on { i + j < result.old + result.new }
{
    match next_order(old, new, i, j) {
        Ordering::Less => Step {
            pair: Pair::Gone(&old.founds[i]),
            old: i + 1,
            new: j,
        },
        Ordering::Greater => Step {
            pair: Pair::Added(&new.founds[j]),
            old: i,
            new: j + 1,
        },
        Ordering::Equal => Step {
            pair: Pair::Both(&old.founds[i], &new.founds[j]),
            old: i + 1,
            new: j + 1,
        },
    }
}

/// Returns the order of the paths of two members, one at least of which is there; a tree without more members has the greater one.
fn next_order(old: &MetTree<'_>, new: &MetTree<'_>, i: usize, j: usize) -> Ordering
    requires old_within { i ≤ length old.now.founds.items }
    requires new_within { j ≤ length new.now.founds.items }
    requires some { i + j < length old.now.founds.items + length new.now.founds.items }
    ensures order { (times : Bool) → result ≡ order_of (rest_of times old.now i) (rest_of times new.now j) }
    ensures less { result ≡ Less → i < length old.now.founds.items }
    ensures greater { result ≡ Greater → j < length new.now.founds.items }
    ensures equal_old { result ≡ Equal → i < length old.now.founds.items }
    ensures equal_new { result ≡ Equal → j < length new.now.founds.items }
{
    if i >= old.founds.len() {
        return Ordering::Greater;
    }
    if j >= new.founds.len() {
        return Ordering::Less;
    }
    path_order(old.founds[i].path.as_slice(), new.founds[j].path.as_slice())
}

/// Returns the order of two paths: a slash is before all other bytes, so that a directory comes before what is in it.
fn path_order(old: &[u8], new: &[u8]) -> Ordering
    ensures { result ≡ path_order old.now new.now }
{
    let mut k = 0;
    while k < old.len() && k < new.len() {
        if old[k] != new[k] {
            return byte_order(old[k], new[k]);
        }
        k += 1;
    }
    length_order(old.len() - k, new.len() - k)
}

/// Returns the order of two paths that are equal up to the end of one, by how many bytes each has after it.
fn length_order(old: usize, new: usize) -> Ordering
    ensures { result ≡ length_order old new }
{
    if old > 0 {
        return Ordering::Greater;
    }
    if new == 0 {
        Ordering::Equal
    } else {
        Ordering::Less
    }
}

/// Returns the order of two different bytes of paths.
fn byte_order(old: u8, new: u8) -> Ordering
    ensures { result ≡ (if nat_lt (rank old) (rank new) then Less else Greater) }
{
    if rank(old) < rank(new) {
        Ordering::Less
    } else {
        Ordering::Greater
    }
}

/// Returns the place of a byte in the order of paths: a slash is before all others.
fn rank(byte: u8) -> u16
    ensures { result ≡ rank byte }
{
    if byte == b'/' { 0 } else { u16::from(byte) + 1 }
}
