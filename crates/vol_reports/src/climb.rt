//! The paths of entries: climbs from a directory to the root over the entries that name the directories.
ghost use Rattle.std.specs.Prelude.{◌≡◌, ◌+◌, ◌++◌, [], length, IfOk, OnOk};
ghost use Rattle.vol_judge.specs.Directories.{root_of};
ghost use Rattle.vol_reports.specs.Ncheck.{slashed, path_up};
ghost use Rattle.vol_reports.specs.Climb.{naming_in, trail, path_start, AreBefore, Steps};

use crate::entered::EnteredName;
use std::alloc::{AllocError, Global};
use vol_layout::Geometry;

/// The beginning of a path that doesn't start at the root.
const DOTS: &[u8] = b"...";

/// Returns the path of an entry. Climbs are numbered by turns, and this is turn `turn`; a directory's mark is the last turn that passed it. `way` is
/// a buffer for the entries that the climb passes.
///
/// Takes time in proportion to the length of the path.
pub(crate) fn entry_path<'a>(
    alloc: Global,
    geometry: &Geometry,
    naming: &[Option<&'a EnteredName>],
    marks: &mut [usize],
    turn: usize,
    way: &mut Vec<&'a EnteredName>,
    entry: &EnteredName,
) -> Result<Vec<u8>, AllocError>
    requires room { length marks.old ≡ length naming.now }
    requires marks { AreBefore turn marks.old }
    requires way { way.old.items ≡ [] }
    ensures path { IfOk result (λ path. path.items ≡ path_up (root_of geometry.now) (naming_in naming.now) (length naming.now + 1) [] entry.now.directory
        ++ slashed entry.now.name) }
    ensures marks { OnOk result (AreBefore (turn + 1) marks.new) }
    ensures way { OnOk result (way.new.items ≡ []) }
{
    let rooted = climb(geometry, naming, marks, turn, way, entry.directory())?;
    let mut path = first_bytes(alloc, rooted)?;
    push_names(&mut path, way)?;
    push_name(&mut path, entry.name())?;
    Ok(path)
}

/// Climbs from directory `d`, and collects the naming entries that it passes, the lowest first. Returns true if it ends at the root; returns false if
/// it ends at a directory that it passed before or that has no naming entry.
fn climb<'a>(
    geometry: &Geometry,
    naming: &[Option<&'a EnteredName>],
    marks: &mut [usize],
    turn: usize,
    way: &mut Vec<&'a EnteredName>,
    d: u16,
) -> Result<bool, AllocError>
    requires room { length marks.old ≡ length naming.now }
    requires marks { AreBefore turn marks.old }
    requires way { way.old.items ≡ [] }
    ensures path { IfOk result (λ rooted. path_up (root_of geometry.now) (naming_in naming.now) (length naming.now + 1) [] d
        ≡ path_start rooted ++ trail way.new.items) }
    ensures marks { OnOk result (AreBefore (turn + 1) marks.new) }
{
    let root = geometry.edition.constants().root;
    let mut at = d;
    while at != root {
        let Some(entry) = step(naming, marks, turn, at) else {
            return Ok(false);
        };
        way.push(entry)?;
        at = entry.directory();
    }
    Ok(true)
}

/// Marks directory `at`, and returns its naming entry, or `None` if it was marked in this turn or has no naming entry.
fn step<'a>(
    naming: &[Option<&'a EnteredName>],
    marks: &mut [usize],
    turn: usize,
    at: u16,
) -> Option<&'a EnteredName>
    requires room { length marks.old ≡ length naming.now }
    requires marks { AreBefore (turn + 1) marks.old }
    ensures step { Steps naming.now turn at marks.old marks.new result }
    ensures marks { AreBefore (turn + 1) marks.new }
{
    let k = at as usize;
    if k >= marks.len() {
        return None;
    }
    if marks[k] == turn {
        return None;
    }
    marks[k] = turn;
    naming[k]
}

/// Returns the beginning of a path: empty, or dots if the path doesn't start at the root.
fn first_bytes(alloc: Global, rooted: bool) -> Result<Vec<u8>, AllocError>
    ensures { IfOk result (λ path. path.items ≡ path_start rooted) }
{
    let mut path = Vec::new(alloc);
    if !rooted {
        path.extend_from_slice(DOTS)?;
    }
    Ok(path)
}

/// Appends the names of the entries that a climb passed, starting with the last, and empties `way`.
fn push_names(path: &mut Vec<u8>, way: &mut Vec<&EnteredName>) -> Result<(), AllocError>
    ensures path { IfOk result (λ _. path.new.items ≡ path.old.items ++ trail way.old.items) }
    ensures way { OnOk result (way.new.items ≡ []) }
{
    while let Some(entry) = way.pop() {
        push_name(path, entry.name())?;
    }
    Ok(())
}

/// Appends a slash and a name.
fn push_name(path: &mut Vec<u8>, name: &[u8]) -> Result<(), AllocError>
    ensures { IfOk result (λ _. path.new.items ≡ path.old.items ++ slashed name.now) }
{
    path.push(b'/')?;
    path.extend_from_slice(name)?;
    Ok(())
}
