//! The block report, built from a table of counts.
ghost use Rattle.std.specs.Prelude.{◌≡◌, ℕ, ◌<◌, ◌≤◌, true, List, IfOk};
ghost use Rattle.count_table.specs.Tallies.{items_of};
ghost use Rattle.vol_layout.specs.Geometry.{in_zone};
ghost use Rattle.vol_reports.specs.Icheck.{block_lines, bad_line_of, dup_line_of, lost_line_of, free_list_line, zone_count};
ghost use Rattle.vol_reports.specs.Counted.{CountsBlocks, HasBlockWidth};
ghost use Rattle.vol_reports.specs.FromWords.{bad_line_in, dup_line_in, lost_line_in, total_line, total_lines_in, is_used_in, is_met_in, is_lost_in, inode_lines, zone_lines, Appended};

use crate::line::{Line, Total};
use crate::report::Report;
use crate::words::{bad_word, free_word, kind_word, least_word, place_word};
use count_table::Summed;
use std::alloc::{AllocError, Global};
use vol_free::FreeFault;
use vol_layout::Geometry;

/// Returns the block report of any image whose blocks are counted in these words, and whose free list's walk ended with this fault.
///
/// Costs a few reads of the words of each data block and i-number, and memory for the lines.
pub fn block_report(
    alloc: Global,
    geometry: &Geometry,
    words: &Summed,
    fault: Option<(FreeFault, u32)>,
) -> Result<Report, AllocError>
    requires zone { geometry.now.zone_start < geometry.now.zone_end }
    requires wide { HasBlockWidth geometry.now (items_of words.now) }
    ensures { IfOk result (λ report. (image : List ℕ) → CountsBlocks geometry.now image (items_of words.now) fault
        → report ≡ block_lines geometry.now image) }
{
    let mut lines = Vec::new(alloc);
    push_bad_lines(&mut lines, geometry, words)?;
    push_dup_lines(&mut lines, geometry, words)?;
    push_lost_lines(&mut lines, geometry, words)?;
    push_fault(&mut lines, fault)?;
    push_totals(&mut lines, geometry, words)?;
    Ok(Report::from_vec(lines))
}

/// True if a block-map position points to data block `b`.
fn is_used(geometry: &Geometry, words: &Summed, b: u32) -> bool
    requires zone { in_zone geometry.now b ≡ true }
    requires wide { HasBlockWidth geometry.now (items_of words.now) }
    ensures { result ≡ is_used_in geometry.now (items_of words.now) b }
{
    words.word(place_word(geometry, b)) > 0
}

/// True if the walk over the free list passed data block `b`.
fn is_free(geometry: &Geometry, words: &Summed, b: u32) -> bool
    requires zone { in_zone geometry.now b ≡ true }
    requires wide { HasBlockWidth geometry.now (items_of words.now) }
    ensures { result ≡ is_met_in geometry.now (items_of words.now) b }
{
    words.word(free_word(geometry, b)) > 0
}

/// True if data block `b` is neither used nor free.
fn is_lost(geometry: &Geometry, words: &Summed, b: u32) -> bool
    requires zone { in_zone geometry.now b ≡ true }
    requires wide { HasBlockWidth geometry.now (items_of words.now) }
    ensures { result ≡ is_lost_in geometry.now (items_of words.now) b }
{
    !is_used(geometry, words, b) && !is_free(geometry, words, b)
}

/// Appends the lines of the i-nodes with bad block addresses.
fn push_bad_lines(
    lines: &mut Vec<Line>,
    geometry: &Geometry,
    words: &Summed,
) -> Result<(), AllocError>
    requires zone { geometry.now.zone_start < geometry.now.zone_end }
    requires wide { HasBlockWidth geometry.now (items_of words.now) }
    ensures { IfOk result (λ _. Appended lines.old.items lines.new.items (inode_lines geometry.now (bad_line_in geometry.now (items_of words.now)))) }
{
    for before in 0..geometry.last_inode {
        push_bad(lines, geometry, words, before + 1)?;
    }
    Ok(())
}

/// Appends the line of i-node `i`, if its block map has numbers outside the data blocks.
fn push_bad(
    lines: &mut Vec<Line>,
    geometry: &Geometry,
    words: &Summed,
    i: u16,
) -> Result<(), AllocError>
    requires zone { geometry.now.zone_start < geometry.now.zone_end }
    requires wide { HasBlockWidth geometry.now (items_of words.now) }
    requires first { 1 ≤ i }
    requires last { i ≤ geometry.now.last_inode }
    ensures { IfOk result (λ _. Appended lines.old.items lines.new.items (bad_line_in geometry.now (items_of words.now) i)) }
{
    let count = words.word(bad_word(geometry, i));
    if count > 0 {
        lines.push(Line::Bad {
            inode: i,
            count,
            least: words.word(least_word(geometry, i)),
        })?;
    }
    Ok(())
}

/// Appends the lines of the blocks that are claimed more than once.
fn push_dup_lines(
    lines: &mut Vec<Line>,
    geometry: &Geometry,
    words: &Summed,
) -> Result<(), AllocError>
    requires zone { geometry.now.zone_start < geometry.now.zone_end }
    requires wide { HasBlockWidth geometry.now (items_of words.now) }
    ensures { IfOk result (λ _. Appended lines.old.items lines.new.items (zone_lines geometry.now (dup_line_in geometry.now (items_of words.now)))) }
{
    for b in geometry.zone_start..geometry.zone_end {
        push_dup(lines, geometry, words, b)?;
    }
    Ok(())
}

/// Appends the line of data block `b`, if it is claimed more than once.
fn push_dup(
    lines: &mut Vec<Line>,
    geometry: &Geometry,
    words: &Summed,
    b: u32,
) -> Result<(), AllocError>
    requires zone { in_zone geometry.now b ≡ true }
    requires wide { HasBlockWidth geometry.now (items_of words.now) }
    ensures { IfOk result (λ _. Appended lines.old.items lines.new.items (dup_line_in geometry.now (items_of words.now) b)) }
{
    let places = words.word(place_word(geometry, b));
    let free = is_free(geometry, words, b);
    if places > 1 || places == 1 && free {
        lines.push(Line::Dup {
            block: b,
            places,
            free,
        })?;
    }
    Ok(())
}

/// Appends the lines of the blocks that are neither used nor free.
fn push_lost_lines(
    lines: &mut Vec<Line>,
    geometry: &Geometry,
    words: &Summed,
) -> Result<(), AllocError>
    requires zone { geometry.now.zone_start < geometry.now.zone_end }
    requires wide { HasBlockWidth geometry.now (items_of words.now) }
    ensures { IfOk result (λ _. Appended lines.old.items lines.new.items (zone_lines geometry.now (lost_line_in geometry.now (items_of words.now)))) }
{
    for b in geometry.zone_start..geometry.zone_end {
        push_lost(lines, geometry, words, b)?;
    }
    Ok(())
}

/// Appends the line of data block `b`, if it is lost.
fn push_lost(
    lines: &mut Vec<Line>,
    geometry: &Geometry,
    words: &Summed,
    b: u32,
) -> Result<(), AllocError>
    requires zone { in_zone geometry.now b ≡ true }
    requires wide { HasBlockWidth geometry.now (items_of words.now) }
    ensures { IfOk result (λ _. Appended lines.old.items lines.new.items (lost_line_in geometry.now (items_of words.now) b)) }
{
    if is_lost(geometry, words, b) {
        lines.push(Line::Lost(b))?;
    }
    Ok(())
}

/// Appends the line of the fault that ended the walk over the free list, if there is one.
fn push_fault(lines: &mut Vec<Line>, fault: Option<(FreeFault, u32)>) -> Result<(), AllocError>
    ensures { IfOk result (λ _. Appended lines.old.items lines.new.items (free_list_line fault)) }
{
    if let Some((fault, number)) = fault {
        lines.push(Line::FreeList(fault, number))?;
    }
    Ok(())
}

/// The number of data blocks that are used, free, and neither.
#[derive(Clone, Copy)]
struct ZoneCounts {
    used: u32,
    free: u32,
    missing: u32,
}

/// Counts the data blocks that are used, free, and neither.
fn zone_counts(geometry: &Geometry, words: &Summed) -> ZoneCounts
    requires zone { geometry.now.zone_start < geometry.now.zone_end }
    requires wide { HasBlockWidth geometry.now (items_of words.now) }
    ensures used { result.used ≡ zone_count geometry.now (is_used_in geometry.now (items_of words.now)) }
    ensures free { result.free ≡ zone_count geometry.now (is_met_in geometry.now (items_of words.now)) }
    ensures missing { result.missing ≡ zone_count geometry.now (is_lost_in geometry.now (items_of words.now)) }
{
    let mut counts = ZoneCounts {
        used: 0,
        free: 0,
        missing: 0,
    };
    for b in geometry.zone_start..geometry.zone_end {
        counts.used += u32::from(is_used(geometry, words, b));
        counts.free += u32::from(is_free(geometry, words, b));
        counts.missing += u32::from(is_lost(geometry, words, b));
    }
    counts
}

/// Appends the totals.
fn push_totals(lines: &mut Vec<Line>, geometry: &Geometry, words: &Summed) -> Result<(), AllocError>
    requires zone { geometry.now.zone_start < geometry.now.zone_end }
    requires wide { HasBlockWidth geometry.now (items_of words.now) }
    ensures { IfOk result (λ _. Appended lines.old.items lines.new.items (total_lines_in geometry.now (items_of words.now))) }
{
    let zone = zone_counts(geometry, words);
    push_total(lines, Total::Files, words.word(kind_word(geometry, 0)))?;
    push_total(
        lines,
        Total::Directories,
        words.word(kind_word(geometry, 1)),
    )?;
    push_total(lines, Total::Special, words.word(kind_word(geometry, 2)))?;
    push_total(lines, Total::Odd, words.word(kind_word(geometry, 3)))?;
    push_total(lines, Total::Used, u64::from(zone.used))?;
    push_total(lines, Total::Free, u64::from(zone.free))?;
    push_total(lines, Total::Missing, u64::from(zone.missing))
}

/// Appends one total.
fn push_total(lines: &mut Vec<Line>, total: Total, count: u64) -> Result<(), AllocError>
    ensures { IfOk result (λ _. Appended lines.old.items lines.new.items (total_line total count)) }
{
    lines.push(Line::Total(total, count))?;
    Ok(())
}
