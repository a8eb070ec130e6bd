//! What differs between two nodes of one kind, but their bytes.
ghost use Rattle.std.specs.Prelude.{◌≡◌, ◌++◌, ◌∷◌, [], codes, decimal, IfOk, OnOk, string_bytes};
ghost use Rattle.vol_listing.specs.Dates.{moment_text};
ghost use Rattle.vol_compare.specs.Lines.{bytes_change, change, device_change, device_numbers, fact_changes, kind_change, mode_change, mode_digits, moment_after, number_change, owner_changes, time_change, time_changes, without_date};

use crate::members::{Facts, NodeKind};
use std::alloc::{AllocError, Global};
use vol_listing::push_moment;

/// Appends all that differs between two nodes of one kind, but their bytes, each after a comma.
#[tactic(auto, unfolding(crate::specs::Lines::fact_changes))]
pub(crate) fn push_fact_changes(
    alloc: Global,
    text: &mut Vec<u8>,
    old: Facts,
    new: Facts,
) -> Result<(), AllocError>
    ensures { OnOk result (text.new.items ≡ text.old.items ++ fact_changes old new) }
{
    push_owner_changes(alloc, text, old, new)?;
    push_kind_change(alloc, text, old.kind, new.kind)?;
    push_time_changes(alloc, text, old, new)
}

/// Appends the first place at which the bytes of two files differ, if they do.
pub(crate) fn push_bytes_change(
    alloc: Global,
    text: &mut Vec<u8>,
    at: Option<u32>,
) -> Result<(), AllocError>
    ensures { OnOk result (text.new.items ≡ text.old.items ++ bytes_change at) }
{
    if let Some(at) = at {
        let words = format!(in alloc; ", bytes from {at}")?;
        text.extend_from_slice(words.as_bytes())?;
    }
    Ok(())
}

/// Appends the permissions, the link count, the owner and the group, if they differ.
fn push_owner_changes(
    alloc: Global,
    text: &mut Vec<u8>,
    old: Facts,
    new: Facts,
) -> Result<(), AllocError>
    ensures { OnOk result (text.new.items ≡ text.old.items ++ owner_changes old new) }
{
    push_mode_change(alloc, text, old.permissions, new.permissions)?;
    push_number_change(
        alloc,
        text,
        b"links",
        u32::from(old.links),
        u32::from(new.links),
    )?;
    push_number_change(alloc, text, b"uid", u32::from(old.uid), u32::from(new.uid))?;
    push_number_change(alloc, text, b"gid", u32::from(old.gid), u32::from(new.gid))
}

/// Appends the times that differ.
fn push_time_changes(
    alloc: Global,
    text: &mut Vec<u8>,
    old: Facts,
    new: Facts,
) -> Result<(), AllocError>
    ensures { OnOk result (text.new.items ≡ text.old.items ++ time_changes old new) }
{
    push_time_change(alloc, text, b"mtime", old.modified, new.modified)?;
    push_time_change(alloc, text, b"atime", old.accessed, new.accessed)?;
    push_time_change(alloc, text, b"ctime", old.changed, new.changed)
}

/// Appends the size of a file or the device of a special file, if it differs.
fn push_kind_change(
    alloc: Global,
    text: &mut Vec<u8>,
    old: NodeKind,
    new: NodeKind,
) -> Result<(), AllocError>
    ensures { OnOk result (text.new.items ≡ text.old.items ++ kind_change old new) }
{
    match (old, new) {
        (NodeKind::File(old), NodeKind::File(new)) => {
            push_number_change(alloc, text, b"size", old, new)
        }
        (NodeKind::Block(old), NodeKind::Block(new)) => push_device_change(alloc, text, old, new),
        (NodeKind::Character(old), NodeKind::Character(new)) => {
            push_device_change(alloc, text, old, new)
        }
        _ => Ok(()),
    }
}

/// Appends a number, if it differs.
fn push_number_change(
    alloc: Global,
    text: &mut Vec<u8>,
    name: &[u8],
    old: u32,
    new: u32,
) -> Result<(), AllocError>
    ensures { OnOk result (text.new.items ≡ text.old.items ++ number_change name.now old new) }
{
    if old == new {
        return Ok(());
    }
    let before = format!(in alloc; "{old}")?;
    let after = format!(in alloc; "{new}")?;
    push_change(text, name, before.as_bytes(), after.as_bytes())
}

/// Appends the permissions, if they differ.
fn push_mode_change(alloc: Global, text: &mut Vec<u8>, old: u16, new: u16) -> Result<(), AllocError>
    ensures { OnOk result (text.new.items ≡ text.old.items ++ mode_change old new) }
{
    if old == new {
        return Ok(());
    }
    let before = format!(in alloc; "0{old:o}")?;
    let after = format!(in alloc; "0{new:o}")?;
    push_change(text, b"mode", before.as_bytes(), after.as_bytes())
}

/// Appends a device, if it differs.
fn push_device_change(
    alloc: Global,
    text: &mut Vec<u8>,
    old: u16,
    new: u16,
) -> Result<(), AllocError>
    ensures { OnOk result (text.new.items ≡ text.old.items ++ device_change old new) }
{
    if old == new {
        return Ok(());
    }
    let before = device_numbers(alloc, old)?;
    let after = device_numbers(alloc, new)?;
    push_change(text, b"device", before.as_bytes(), after.as_bytes())
}

/// Returns the major and the minor number of a device.
#[tactic(auto, unfolding(crate::specs::Lines::device_numbers))]
fn device_numbers(alloc: Global, device: u16) -> Result<String, AllocError>
    ensures { IfOk result (λ text. string_bytes text ≡ device_numbers device) }
{
    let major = device / 256;
    let minor = device % 256;
    format!(in alloc; "{major},{minor}")
}

/// Appends a time, if it differs: both dates, or of the new one the time of day alone if both are on one day.
fn push_time_change(
    alloc: Global,
    text: &mut Vec<u8>,
    name: &[u8],
    old: u32,
    new: u32,
) -> Result<(), AllocError>
    ensures { OnOk result (text.new.items ≡ text.old.items ++ time_change name.now old new) }
{
    if old == new {
        return Ok(());
    }
    let mut before = Vec::new(alloc);
    push_moment(&mut before, old)?;
    let mut after = Vec::new(alloc);
    push_moment(&mut after, new)?;
    push_change(text, name, &before, moment_after(old, new, &after))
}

/// The number of seconds in a day.
const DAY: u32 = 86_400;

/// Returns the date of a time after another one, or only the time of day if both are on one day.
fn moment_after(earlier: u32, seconds: u32, moment: &[u8]) -> &[u8]
    requires { moment.now ≡ moment_text seconds }
    ensures { result.now ≡ moment_after earlier seconds }
{
    if earlier / DAY == seconds / DAY {
        without_date(moment)
    } else {
        moment
    }
}

/// The length of a date, and of the space after it.
const DATE: usize = 11;

/// Returns a date and a time of day without the date.
fn without_date(moment: &[u8]) -> &[u8]
    ensures { result.now ≡ without_date moment.now }
{
    if moment.len() < DATE {
        moment
    } else {
        &moment[DATE..]
    }
}

/// Appends a value that differs, after a comma.
#[tactic(auto, unfolding(crate::specs::Lines::change))]
fn push_change(text: &mut Vec<u8>, name: &[u8], old: &[u8], new: &[u8]) -> Result<(), AllocError>
    ensures { OnOk result (text.new.items ≡ text.old.items ++ change name.now old.now new.now) }
{
    text.extend_from_slice(b", ")?;
    text.extend_from_slice(name)?;
    text.push(b' ')?;
    text.extend_from_slice(old)?;
    text.extend_from_slice(b" -> ")?;
    text.extend_from_slice(new)?;
    Ok(())
}
