//! The space of a volume: how much of it is used.
ghost use Rattle.std.specs.Prelude.{◌≡◌, ◌≤◌, ◌++◌, OnOk};
ghost use Rattle.std.specs.String.{string_bytes};
ghost use Rattle.vol_inspect.specs.Space.{in_use, space_line, space_text};

use crate::super_report::SuperReport;
use crate::texts::push_fault;
use std::alloc::AllocError;

impl SuperReport {
    /// Appends the lines of the volume's space: a heading; one line each for all blocks, the data blocks and the i-nodes, with their number, how many
    /// are used and how many are free; then a line for the fault of the free list, if it has one, as the checkers print it. A block counts as free if
    /// the free list has it, up to the list's first fault.
    pub fn push_space(&self, text: &mut String) -> Result<(), AllocError>
        requires { self.now.geometry.zone_start ≤ self.now.geometry.zone_end }
        ensures { OnOk result (string_bytes text.new ≡ string_bytes text.old ++ space_text self.now) }
    {
        let blocks = self.geometry.zone_end as u64;
        let data_blocks = (self.geometry.zone_end - self.geometry.zone_start) as u64;
        let free_blocks = self.free_blocks as u64;
        let inodes = self.geometry.last_inode as u64;
        let free_inodes = self.free_inodes as u64;
        text.push_str("                  all      used      free\n")?;
        push_line(text, "blocks     ", blocks, free_blocks)?;
        push_line(text, "data blocks", data_blocks, free_blocks)?;
        push_line(text, "i-nodes    ", inodes, free_inodes)?;
        push_fault(text, self.fault)
    }
}

/// Returns the number of items in use, given the number of all items and the number of free ones.
pub fn in_use(all: u64, free: u64) -> u64
    ensures { result ≡ in_use all free }
{
    all.saturating_sub(free)
}

/// Appends the line for the items with this name.
#[tactic(auto, unfolding(crate::specs::Space::space_line))]
fn push_line(text: &mut String, name: &str, all: u64, free: u64) -> Result<(), AllocError>
    ensures { OnOk result (string_bytes text.new ≡ string_bytes text.old ++ space_line name.now all free) }
{
    let used = in_use(all, free);
    write!(text, "{name}{all:>10}{used:>10}{free:>10}\n")
}
