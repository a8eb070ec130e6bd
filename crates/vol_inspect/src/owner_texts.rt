//! The lines of the owners of a block.
ghost use Rattle.std.specs.Prelude.{◌≡◌, ◌≤◌, ◌++◌, drop, OnOk};
ghost use Rattle.std.specs.String.{string_bytes};
ghost use Rattle.vol_layout.specs.BlockMaps.{end_of};
ghost use Rattle.vol_inspect.specs.OwnerTexts.{inodes_text, level_text, listed_text, logical_text, node_text, owner_line, owner_text, owners_text, pointers_text, way_text};

use crate::owners::Owner;
use crate::texts::push_where;
use std::alloc::AllocError;
use vol_layout::{BlockMap, BlockPath};

/// Appends a line for each owner of block `b`.
pub fn push_owners(text: &mut String, b: u32, owners: &[Owner]) -> Result<(), AllocError>
    ensures { OnOk result (string_bytes text.new ≡ string_bytes text.old ++ owners_text b owners.now) }
{
    for owner in owners {
        push_line(text, b, owner)?;
    }
    Ok(())
}

/// Appends the line of an owner.
fn push_line(text: &mut String, b: u32, owner: &Owner) -> Result<(), AllocError>
    ensures { OnOk result (string_bytes text.new ≡ string_bytes text.old ++ owner_line b owner.now) }
{
    write!(text, "block {b}: ")?;
    push_owner(text, owner)?;
    write!(text, "\n")
}

/// Appends an owner.
fn push_owner(text: &mut String, owner: &Owner) -> Result<(), AllocError>
    ensures { OnOk result (string_bytes text.new ≡ string_bytes text.old ++ owner_text owner.now) }
{
    match *owner {
        Owner::Outside => write!(text, "outside the volume"),
        Owner::Boot => write!(text, "boot block"),
        Owner::SuperBlock => write!(text, "super-block"),
        Owner::IList { first, last } => push_inodes(text, first, last),
        Owner::Free { link, index } => push_listed(text, link, index),
        Owner::Node { ino, form, extent } => {
            push_node(text, ino, form, extent.level, extent.logical)
        }
        Owner::Lost => write!(text, "lost"),
    }
}

/// Appends the i-nodes of a block of the i-list.
fn push_inodes(text: &mut String, first: u32, last: u32) -> Result<(), AllocError>
    ensures { OnOk result (string_bytes text.new ≡ string_bytes text.old ++ inodes_text first last) }
{
    write!(text, "i-list, i-nodes {first} to {last}")
}

/// Appends a block of an i-node with `level` levels of blocks below it; the first logical block at or below it is `logical`.
fn push_node(
    text: &mut String,
    ino: u16,
    form: BlockMap,
    level: u8,
    logical: u32,
) -> Result<(), AllocError>
    ensures { OnOk result (string_bytes text.new ≡ string_bytes text.old ++ node_text ino form level logical) }
{
    let word = level_text(level);
    write!(text, "{word} of i-node {ino}")?;
    push_logical(text, level, logical)?;
    push_way(text, form, level, logical)
}

/// Returns the word for a block with `level` levels of blocks below it.
fn level_text(level: u8) -> &'static str
    ensures { result.now ≡ level_text level }
{
    match level {
        0 => "data",
        1 => "indirect block",
        2 => "doubly indirect block",
        _ => "triply indirect block",
    }
}

/// Appends the position of a free block in the free list.
fn push_listed(text: &mut String, link: u32, index: u16) -> Result<(), AllocError>
    ensures { OnOk result (string_bytes text.new ≡ string_bytes text.old ++ listed_text link index) }
{
    write!(text, "free, listed in ")?;
    push_where(text, link)?;
    write!(text, " free[{index}]")
}

/// Appends the first logical block.
fn push_logical(text: &mut String, level: u8, logical: u32) -> Result<(), AllocError>
    ensures { OnOk result (string_bytes text.new ≡ string_bytes text.old ++ logical_text level logical) }
{
    if level == 0 {
        return write!(text, ", logical {logical}");
    }
    write!(text, ", from logical {logical}")
}

/// Appends the pointers to a block with `level` levels of blocks below it; the first logical block at or below it is `logical`.
fn push_way(text: &mut String, form: BlockMap, level: u8, logical: u32) -> Result<(), AllocError>
    ensures { OnOk result (string_bytes text.new ≡ string_bytes text.old ++ way_text form level logical) }
{
    match form.way(logical) {
        Some(way) => push_pointers(text, &way, level as usize),
        None => Ok(()),
    }
}

/// Appends the pointers of a path through the block map, without the last `level` of them.
fn push_pointers(text: &mut String, way: &BlockPath, level: usize) -> Result<(), AllocError>
    requires { way.now.depth ≤ 3 }
    ensures { OnOk result (string_bytes text.new ≡ string_bytes text.old ++ pointers_text (drop level (end_of way.now))) }
{
    if level > way.depth {
        return Ok(());
    }
    let address = way.address;
    write!(text, ", addr[{address}]")?;
    for k in 0..way.depth - level {
        let entry = way.entries[k];
        write!(text, "[{entry}]")?;
    }
    Ok(())
}
