//! The text of the reports.
ghost use Rattle.std.specs.Prelude.{◌≡◌, ◌≤◌, ◌++◌, OnOk, Some};
ghost use Rattle.std.specs.String.{string_bytes};
ghost use Rattle.vol_inspect.specs.Texts.{
  octal_text,
  all_spaced,
  array_item,
  array_text,
  kind_name,
  range_text,
  below_text,
  inside_text,
  extent_text,
  extents_text,
  fields_text,
  times_text,
  inode_text,
  free_fault_line,
  sizes_text,
  guards_text,
  counts_text,
  free_text,
  cache_text,
  found_text,
  super_text,
  link_where,
  link_text,
  links_text,
  chain_totals,
  chain_text,
};

use crate::extent::Extent;
use crate::free_chain::{ChainReport, FreeLink};
use crate::inode_report::InodeReport;
use crate::super_report::SuperReport;
use std::alloc::AllocError;
use std::fmt;
use vol_free::FreeFault;
use vol_layout::Kind;

impl InodeReport {
    /// Appends the report's text: a line for each field by its name in the manual, the mode in octal digits followed by the
    /// kind and the permissions; then a line for each extent.
    ///
    /// Takes time in proportion to the length of the text.
    pub fn push_text(&self, text: &mut String) -> Result<(), AllocError>
        ensures { OnOk result (string_bytes text.new ≡ string_bytes text.old ++ inode_text self.now) }
    {
        self.push_head(text)?;
        push_spaced(text, self.addresses())?;
        push_times(
            text,
            self.node.accessed,
            self.node.modified,
            self.node.changed,
        )?;
        push_extents(text, &self.extents)
    }

    /// Appends the lines of the fields before the addresses.
    fn push_head(&self, text: &mut String) -> Result<(), AllocError>
        ensures { OnOk result (string_bytes text.new ≡ string_bytes text.old ++ fields_text self.now) }
    {
        let number = self.number;
        let mode = Octal(self.node.mode.bits);
        let kind = kind_name(self.node.mode.kind(self.edition));
        let permissions = Octal(self.node.mode.permissions());
        let links = self.node.links;
        let uid = self.node.uid;
        let gid = self.node.gid;
        let size = self.node.size;
        write!(
            text,
            "i-node {number}\nmode {mode} {kind} {permissions}\nnlink {links}\nuid {uid}\ngid {gid}\nsize {size}\naddr"
        )
    }
}

impl SuperReport {
    /// Appends the report's text: a line for each field by its name in `filsys.h`, with the numbers of each array after its count, ten on a line
    /// after the index of the first; then the numbers of data blocks and i-nodes, and how many of them are free; then a line for the fault of the
    /// free list, if it has one, as the checkers print it.
    ///
    /// Takes time in proportion to the length of the text.
    pub fn push_text(&self, text: &mut String) -> Result<(), AllocError>
        requires { self.now.geometry.zone_start ≤ self.now.geometry.zone_end }
        ensures { OnOk result (string_bytes text.new ≡ string_bytes text.old ++ super_text self.now) }
    {
        self.push_free(text)?;
        self.push_cache(text)?;
        self.push_guards(text)?;
        self.push_found(text)
    }

    /// Appends the lines of the counts and of the free array.
    fn push_free(&self, text: &mut String) -> Result<(), AllocError>
        ensures { OnOk result (string_bytes text.new ≡ string_bytes text.old ++ free_text self.now) }
    {
        self.push_sizes(text)?;
        push_array(text, "free", &self.free)
    }

    /// Appends the lines of the i-number cache.
    fn push_cache(&self, text: &mut String) -> Result<(), AllocError>
        ensures { OnOk result (string_bytes text.new ≡ string_bytes text.old ++ cache_text self.now) }
    {
        let count = self.cache_count;
        write!(text, "\nninode {count}")?;
        push_words(text, "inode", &self.cache)
    }

    /// Appends the lines of the totals and of the fault.
    fn push_found(&self, text: &mut String) -> Result<(), AllocError>
        requires { self.now.geometry.zone_start ≤ self.now.geometry.zone_end }
        ensures { OnOk result (string_bytes text.new ≡ string_bytes text.old ++ found_text self.now) }
    {
        self.push_counts(text)?;
        push_fault(text, self.fault)
    }

    /// Appends the lines of the counts, up to the numbers of the free list.
    fn push_sizes(&self, text: &mut String) -> Result<(), AllocError>
        ensures { OnOk result (string_bytes text.new ≡ string_bytes text.old ++ sizes_text self.now) }
    {
        let list_size = self.list_size;
        let block_count = self.block_count;
        let free_count = self.free_count;
        write!(
            text,
            "isize {list_size}\nfsize {block_count}\nnfree {free_count}"
        )
    }

    /// Appends the lines of the flags and of the time.
    fn push_guards(&self, text: &mut String) -> Result<(), AllocError>
        ensures { OnOk result (string_bytes text.new ≡ string_bytes text.old ++ guards_text self.now) }
    {
        let free_lock = self.flags[0];
        let inode_lock = self.flags[1];
        let modified = self.flags[2];
        let read_only = self.flags[3];
        let time = self.time;
        write!(
            text,
            "\nflock {free_lock}\nilock {inode_lock}\nfmod {modified}\nronly {read_only}\ntime {time}\n"
        )
    }

    /// Appends the lines of the totals.
    fn push_counts(&self, text: &mut String) -> Result<(), AllocError>
        requires { self.now.geometry.zone_start ≤ self.now.geometry.zone_end }
        ensures { OnOk result (string_bytes text.new ≡ string_bytes text.old ++ counts_text self.now) }
    {
        let blocks = self.geometry.zone_end - self.geometry.zone_start;
        let free_blocks = self.free_blocks;
        let inodes = self.geometry.last_inode;
        let free_inodes = self.free_inodes;
        write!(
            text,
            "data blocks {blocks}, free {free_blocks}\ni-nodes {inodes}, free {free_inodes}\n"
        )
    }
}

impl ChainReport {
    /// Appends the report's text: for each link a line with its block and its count, and its numbers, ten on a line after the index of the first;
    /// then a line for the fault of the free list, if it has one, as the checkers print it; then the numbers of links and of free blocks.
    ///
    /// Takes time in proportion to the length of the text.
    pub fn push_text(&self, text: &mut String) -> Result<(), AllocError>
        ensures { OnOk result (string_bytes text.new ≡ string_bytes text.old ++ chain_text self.now) }
    {
        push_links(text, &self.links)?;
        push_fault(text, self.fault)?;
        self.push_totals(text)
    }

    /// Appends the line of the totals.
    fn push_totals(&self, text: &mut String) -> Result<(), AllocError>
        ensures { OnOk result (string_bytes text.new ≡ string_bytes text.old ++ chain_totals self.now) }
    {
        let links = self.links.len();
        let free_blocks = self.free_blocks;
        write!(text, "links {links}, free blocks {free_blocks}\n")
    }
}

/// Appends the lines of links.
fn push_links(text: &mut String, links: &[FreeLink]) -> Result<(), AllocError>
    ensures { OnOk result (string_bytes text.new ≡ string_bytes text.old ++ links_text links.now) }
{
    for link in links {
        push_link(text, link)?;
    }
    Ok(())
}

/// Appends the lines of a link.
fn push_link(text: &mut String, link: &FreeLink) -> Result<(), AllocError>
    ensures { OnOk result (string_bytes text.new ≡ string_bytes text.old ++ link_text link.now) }
{
    push_where(text, link.block)?;
    let count = link.count;
    write!(text, ": nfree {count}")?;
    push_array(text, "free", &link.numbers)?;
    write!(text, "\n")
}

/// Appends the block that contains a link.
pub(crate) fn push_where(text: &mut String, block: u32) -> Result<(), AllocError>
    ensures { OnOk result (string_bytes text.new ≡ string_bytes text.old ++ link_where block) }
{
    if block == 1 {
        return write!(text, "super-block");
    }
    write!(text, "block {block}")
}

/// Appends the line of the fault that ended the walk over the free list.
pub(crate) fn push_fault(
    text: &mut String,
    fault: Option<(FreeFault, u32)>,
) -> Result<(), AllocError>
    ensures { OnOk result (string_bytes text.new ≡ string_bytes text.old ++ free_fault_line fault) }
{
    let Some((fault, number)) = fault else {
        return Ok(());
    };
    let word = fault.word();
    write!(text, "{word} {number}\n")
}

/// A number in octal digits.
#[derive(Drop)]
struct Octal(u16);

impl fmt::Display for Octal {
    ghost output = { λ n. Some (octal_text n.0) };

    fn fmt<W: fmt::Write>(&self, f: &mut fmt::Formatter<W>) -> fmt::Result {
        let bits = self.0;
        write!(f, "0{bits:o}")
    }
}

/// A range of `count` numbers.
#[derive(Drop)]
struct Range {
    first: u32,
    count: u32,
}

impl fmt::Display for Range {
    ghost output = { λ r. Some (range_text r.first r.count) };

    fn fmt<W: fmt::Write>(&self, f: &mut fmt::Formatter<W>) -> fmt::Result {
        let first = self.first;
        if self.count < 2 {
            return write!(f, "{first}");
        }
        let last = u64::from(first) + u64::from(self.count - 1);
        write!(f, "{first}-{last}")
    }
}

/// The part of an indirect block's line about its levels and its first logical block.
#[derive(Drop)]
struct Below {
    level: u8,
    logical: u32,
}

impl fmt::Display for Below {
    ghost output = { λ b. Some (below_text b.level b.logical) };

    fn fmt<W: fmt::Write>(&self, f: &mut fmt::Formatter<W>) -> fmt::Result {
        let level = self.level;
        let logical = self.logical;
        write!(f, "pointers, level {level}, from logical {logical}")
    }
}

impl fmt::Display for Extent {
    ghost output = { λ e. Some (extent_text e) };

    fn fmt<W: fmt::Write>(&self, f: &mut fmt::Formatter<W>) -> fmt::Result {
        let inside = inside_text(self.inside);
        if self.level == 0 {
            let blocks = Range {
                first: self.block,
                count: self.count,
            };
            let logical = Range {
                first: self.logical,
                count: self.count,
            };
            return write!(f, "block {blocks}: logical {logical}{inside}");
        }
        let block = self.block;
        let below = Below {
            level: self.level,
            logical: self.logical,
        };
        write!(f, "block {block}: {below}{inside}")
    }
}

/// Returns the remark on numbers outside the data blocks.
fn inside_text(inside: bool) -> &'static str
    ensures { result.now ≡ inside_text inside }
{
    if inside { "" } else { ", no data block" }
}

/// Returns the word for a kind of i-node.
pub fn kind_name(kind: Kind) -> &'static str
    ensures { result.now ≡ kind_name kind }
{
    match kind {
        Kind::Free => "free",
        Kind::Regular => "file",
        Kind::Directory => "directory",
        Kind::Special => "special",
        Kind::Odd => "odd",
    }
}

/// Appends numbers with a space before each.
fn push_spaced(text: &mut String, numbers: &[u32]) -> Result<(), AllocError>
    ensures { OnOk result (string_bytes text.new ≡ string_bytes text.old ++ all_spaced numbers.now) }
{
    for number in numbers {
        write!(text, " {number}")?;
    }
    Ok(())
}

/// Appends the numbers of an array with this name, ten on a line after the index of the first.
fn push_array(text: &mut String, name: &str, numbers: &[u32]) -> Result<(), AllocError>
    ensures { OnOk result (string_bytes text.new ≡ string_bytes text.old ++ array_text name.now numbers.now) }
{
    for k in 0..numbers.len() {
        push_item(text, name, numbers[k], k)?;
    }
    Ok(())
}

/// Appends the words of an array with this name, as [`push_array`] does.
fn push_words(text: &mut String, name: &str, numbers: &[u16]) -> Result<(), AllocError>
    ensures { OnOk result (string_bytes text.new ≡ string_bytes text.old ++ array_text name.now numbers.now) }
{
    for k in 0..numbers.len() {
        let number = u32::from(numbers[k]);
        push_item(text, name, number, k)?;
    }
    Ok(())
}

/// Appends number `k` of an array with this name, at the beginning of a line or after other numbers.
fn push_item(text: &mut String, name: &str, number: u32, k: usize) -> Result<(), AllocError>
    ensures { OnOk result (string_bytes text.new ≡ string_bytes text.old ++ array_item name.now number k) }
{
    if k % 10 == 0 {
        write!(text, "\n{name}[{k}]")?;
    }
    write!(text, " {number}")
}
/// Appends the lines of the times.
fn push_times(
    text: &mut String,
    accessed: u32,
    modified: u32,
    changed: Option<u32>,
) -> Result<(), AllocError>
    ensures { OnOk result (string_bytes text.new ≡ string_bytes text.old ++ times_text accessed modified changed) }
{
    match changed {
        None => write!(text, "\natime {accessed}\nmtime {modified}\n"),
        Some(changed) => {
            write!(
                text,
                "\natime {accessed}\nmtime {modified}\nctime {changed}\n"
            )
        }
    }
}

/// Appends extents, each on a line.
fn push_extents(text: &mut String, extents: &[Extent]) -> Result<(), AllocError>
    ensures { OnOk result (string_bytes text.new ≡ string_bytes text.old ++ extents_text extents.now) }
{
    for extent in extents {
        write!(text, "{extent}\n")?;
    }
    Ok(())
}
