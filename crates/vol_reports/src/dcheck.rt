//! The entry report, built from a table of counts.
ghost use Rattle.std.specs.Prelude.{◌≡◌, ℕ, ◌<◌, ◌≤◌, List, length, IfOk};
ghost use Rattle.count_table.specs.Tallies.{items_of};
ghost use Rattle.vol_reports.specs.Dcheck.{entry_lines};
ghost use Rattle.vol_reports.specs.Counted.{CountsEntries, HasEntryWidth, HasLinkCounts};
ghost use Rattle.vol_reports.specs.FromWords.{links_line_in, no_links, inode_lines, Appended};

use crate::inode_link_counts::LinkCount;
use crate::line::Line;
use crate::report::Report;
use crate::words::entry_word;
use count_table::Summed;
use std::alloc::{AllocError, Global};
use vol_layout::Geometry;

/// Returns the entry report of any image whose entries are counted in these words and whose link counts, starting with i-number 1, are these.
///
/// Reads each word and each link count once. Takes memory for the lines.
pub fn entry_report(
    alloc: Global,
    geometry: &Geometry,
    words: &Summed,
    links: &[LinkCount],
) -> Result<Report, AllocError>
    requires wide { HasEntryWidth geometry.now (items_of words.now) }
    requires links { length links.now ≡ geometry.now.last_inode }
    ensures { IfOk result (λ report. (image : List ℕ) → CountsEntries geometry.now image (items_of words.now)
        → HasLinkCounts geometry.now image links.now → report ≡ entry_lines geometry.now image) }
{
    let mut lines = Vec::new(alloc);
    for before in 0..geometry.last_inode {
        push_links(&mut lines, words, links, before + 1)?;
    }
    Ok(Report::from_vec(lines))
}

/// Appends the line of i-number `i`, if its number of entries and its link count don't agree.
fn push_links(
    lines: &mut Vec<Line>,
    words: &Summed,
    links: &[LinkCount],
    i: u16,
) -> Result<(), AllocError>
    requires first { 1 ≤ i }
    requires last { i ≤ length links.now }
    requires wide { i < length (items_of words.now) }
    ensures { IfOk result (λ _. Appended lines.old.items lines.new.items (links_line_in (items_of words.now) links.now no_links i)) }
{
    let entries = words.word(entry_word(i));
    let link_count = links[i as usize - 1];
    if entries != u64::from(link_count.links) || entries == 0 && link_count.wants_entry {
        lines.push(Line::Links {
            inode: i,
            entries,
            links: link_count.links,
        })?;
    }
    Ok(())
}
