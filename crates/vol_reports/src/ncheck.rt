//! The name report, built from the entries found and a table of counts.
ghost use Rattle.std.specs.Prelude.{◌≡◌, ℕ, ◌+◌, ◌<◌, ◌≤◌, List, length, map, IfOk};
ghost use Rattle.count_table.specs.Tallies.{items_of};
ghost use Rattle.vol_judge.specs.Directories.{root_of};
ghost use Rattle.vol_reports.specs.Ncheck.{IsNameLines, name_line};
ghost use Rattle.vol_reports.specs.Counted.{CountsNames, HasEntryWidth};
ghost use Rattle.vol_reports.specs.Climb.{HasNaming, PutsNaming, path_in, seen_pair};

use crate::climb::entry_path;
use crate::entered::EnteredName;
use crate::line::Line;
use crate::report::Report;
use crate::words::{name_word, rank};
use count_table::Summed;
use pdp_words::Bytes;
use std::alloc::{AllocError, Global};
use vol_layout::Geometry;

/// Returns the name report of any image that has these entries, each once, in any order. The words contain the ranks of the naming entries.
///
/// Takes time in proportion to the length of the report, and to sort it. Takes memory for the paths, and some for each i-number.
pub fn name_report(
    alloc: Global,
    geometry: &Geometry,
    words: &Summed,
    entries: &[EnteredName],
) -> Result<Report, AllocError>
    requires { HasEntryWidth geometry.now (items_of words.now) }
    ensures { IfOk result (λ report. (image : List ℕ) → CountsNames geometry.now image (items_of words.now) entries.now
        → IsNameLines geometry.now image report) }
{
    let naming = naming_entries(alloc, geometry, words, entries)?;
    let mut paths = paths_of(alloc, geometry, &naming, entries)?;
    paths.sort()?;
    let lines = lines_of(alloc, paths)?;
    Ok(Report::from_vec(lines))
}

/// Returns the naming entry of each i-number that has one, at the index of that number.
fn naming_entries<'a>(
    alloc: Global,
    geometry: &Geometry,
    words: &Summed,
    entries: &'a [EnteredName],
) -> Result<Vec<Option<&'a EnteredName>>, AllocError>
    requires { HasEntryWidth geometry.now (items_of words.now) }
    ensures len { IfOk result (λ naming. length naming.items ≡ geometry.now.last_inode + 1) }
    ensures naming { IfOk result (λ naming. (i : ℕ) → i ≤ geometry.now.last_inode → HasNaming (items_of words.now) entries.now naming.items i) }
{
    let mut naming = vec![in alloc; None; geometry.last_inode as usize + 1]?;
    for entry in entries {
        put_naming(words, &mut naming, entry);
    }
    Ok(naming)
}

/// Puts an entry at the index of its i-number, if it is the first entry for it.
fn put_naming<'a>(words: &Summed, naming: &mut [Option<&'a EnteredName>], entry: &'a EnteredName)
    requires { length (items_of words.now) ≡ length naming.old }
    ensures { (i : ℕ) → i < length naming.old → PutsNaming (items_of words.now) entry.now naming.old naming.new i }
{
    let i = entry.inode();
    if i as usize >= naming.len() {
        return;
    }
    if words.word(name_word(i)) == rank(entry.directory(), entry.slot()) {
        naming[i as usize] = Some(entry);
    }
}

/// Returns the i-number and the path of each entry.
fn paths_of(
    alloc: Global,
    geometry: &Geometry,
    naming: &[Option<&EnteredName>],
    entries: &[EnteredName],
) -> Result<Vec<(u16, Vec<u8>)>, AllocError>
    ensures { IfOk result (λ paths. map seen_pair paths.items ≡ map (path_in (root_of geometry.now) naming.now) entries.now) }
{
    let mut marks = vec![in alloc; 0; naming.len()]?;
    let mut way = Vec::new(alloc);
    let mut paths = Vec::new(alloc);
    for (k, entry) in entries.iter().enumerate() {
        let path = entry_path(alloc, geometry, naming, &mut marks, k + 1, &mut way, entry)?;
        paths.push((entry.inode(), path))?;
    }
    Ok(paths)
}

/// Returns the lines of i-numbers and paths.
fn lines_of(alloc: Global, paths: Vec<(u16, Vec<u8>)>) -> Result<Vec<Line>, AllocError>
    ensures { IfOk result (λ lines. lines.items ≡ map name_line (map seen_pair paths.items)) }
{
    let mut lines = Vec::new(alloc);
    for (inode, bytes) in paths {
        let path = Bytes::from_vec(bytes);
        lines.push(Line::Name { inode, path })?;
    }
    Ok(lines)
}
