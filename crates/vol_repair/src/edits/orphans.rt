//! Names for what has none, and the entries `.` and `..`.
ghost use Rattle.std.specs.Prelude.{◌≡◌, ◌+◌, ◌≤◌, IfSome, IfOk, length};
ghost use Rattle.vol_layout.specs.Geometry.{Fits};

use super::EditFault;
use super::entries::{add_entry, put_number_in};
use super::nodes::put_directory;
use pdp_words::Image;
use vol_dir::lookup;
use vol_judge::entry_walk::is_directory;
use vol_layout::i_list::kind;
use vol_layout::slot::NAME;
use vol_layout::{Geometry, Kind, Slot, Super};

/// The permissions of `/lost+found`, octal.
const LOST_PERMISSIONS: u16 = 0o755;

/// The name of the directory of orphans, and the one if that is a file.
const NAMES: [&[u8]; 2] = [b"lost+found", b"lost+found.2"];

/// Gives each orphan a name in `/lost+found`, which is made if it isn't there: `#` and its i-number. `parents` has the directory above each directory.
pub(super) fn name_orphans(
    image: &mut Image,
    geometry: &Geometry,
    orphans: &[u16],
    parents: &mut [u16],
    used: &mut [bool],
    now: u32,
) -> Result<(), EditFault>
    requires fits { Fits geometry.now image.old }
    requires room { length parents.old ≡ geometry.now.last_inode + 1 }
    requires len { length used.old ≡ geometry.now.zone_end }
    ensures { Fits geometry.now image.new }
{
    if orphans.is_empty() {
        return Ok(());
    }
    let lost = lost_directory(image, geometry, parents, used, now)?;
    let mut from = 2;
    for orphan in orphans {
        let i = *orphan;
        from = add_entry(image, geometry, lost, from, &orphan_slot(i), used)?;
        if (i as usize) < parents.len() && parents[i as usize] == i {
            parents[i as usize] = lost;
        }
    }
    Ok(())
}

/// Returns the slot of an orphan: `#` and its i-number.
fn orphan_slot(i: u16) -> Slot {
    let mut name = [0; NAME];
    name[0] = b'#';
    let mut rest = i;
    let digits = digit_count(i);
    for k in 0..digits {
        name[digits - k] = b'0' + (rest % 10) as u8;
        rest /= 10;
    }
    Slot { inode: i, name }
}

/// Returns the number of decimal digits of an i-number.
fn digit_count(i: u16) -> usize
    ensures { result ≤ 5 }
{
    match i {
        0..=9 => 1,
        10..=99 => 2,
        100..=999 => 3,
        1000..=9999 => 4,
        _ => 5,
    }
}

/// Returns the directory of orphans, which is made if it isn't there.
fn lost_directory(
    image: &mut Image,
    geometry: &Geometry,
    parents: &mut [u16],
    used: &mut [bool],
    now: u32,
) -> Result<u16, EditFault>
    requires fits { Fits geometry.now image.old }
    requires room { length parents.old ≡ geometry.now.last_inode + 1 }
    requires len { length used.old ≡ geometry.now.zone_end }
    ensures fits { Fits geometry.now image.new }
    ensures first { IfOk result (λ i. 1 ≤ i) }
    ensures last { IfOk result (λ i. i ≤ geometry.now.last_inode) }
{
    let root = geometry.edition.constants().root;
    for name in NAMES {
        match lookup(image, geometry, root, name) {
            Ok(entry) => {
                let i = entry.inode;
                if 1 <= i && i <= geometry.last_inode && is_directory(image, geometry, i) {
                    return Ok(i);
                }
            }
            Err(slot) => return make_lost(image, geometry, slot, name, parents, used, now),
        }
    }
    Err(EditFault::NoSpace)
}

/// Makes the directory of orphans with this name, in a slot of the root.
fn make_lost(
    image: &mut Image,
    geometry: &Geometry,
    slot: u32,
    name: &[u8],
    parents: &mut [u16],
    used: &mut [bool],
    now: u32,
) -> Result<u16, EditFault>
    requires fits { Fits geometry.now image.old }
    requires room { length parents.old ≡ geometry.now.last_inode + 1 }
    requires len { length used.old ≡ geometry.now.zone_end }
    requires short { length name.now ≤ 14 }
    ensures fits { Fits geometry.now image.new }
    ensures first { IfOk result (λ i. 1 ≤ i) }
    ensures last { IfOk result (λ i. i ≤ geometry.now.last_inode) }
{
    let root = geometry.edition.constants().root;
    let Some(i) = free_number(image, geometry) else {
        return Err(EditFault::NoSpace);
    };
    put_directory(image, geometry, i, LOST_PERMISSIONS, now);
    add_entry(image, geometry, root, slot, &Slot::new(i, name), used)?;
    parents[i as usize] = root;
    Super {
        edition: geometry.edition,
    }
    .put_cache_count(image, 0);
    mend_dots_of(image, geometry, i, root, used)?;
    Ok(i)
}

/// Returns the first i-number after the root's whose i-node is free.
fn free_number(image: &Image, geometry: &Geometry) -> Option<u16>
    requires { Fits geometry.now image.now }
    ensures first { IfSome result (λ i. 1 ≤ i) }
    ensures last { IfSome result (λ i. i ≤ geometry.now.last_inode) }
{
    for before in geometry.edition.constants().root..geometry.last_inode {
        if kind(image, geometry, before + 1) == Kind::Free {
            return Some(before + 1);
        }
    }
    None
}

/// Sets `.` and `..` of each directory. `parents` has the directory above each.
pub(super) fn mend_dots(
    image: &mut Image,
    geometry: &Geometry,
    parents: &[u16],
    used: &mut [bool],
) -> Result<(), EditFault>
    requires fits { Fits geometry.now image.old }
    requires room { length parents.now ≡ geometry.now.last_inode + 1 }
    requires len { length used.old ≡ geometry.now.zone_end }
    ensures { Fits geometry.now image.new }
{
    for before in 0..geometry.last_inode {
        let d = before + 1;
        if is_directory(image, geometry, d) {
            mend_dots_of(image, geometry, d, parents[d as usize], used)?;
        }
    }
    Ok(())
}

/// Sets `.` and `..` of directory `d`, below directory `parent`.
fn mend_dots_of(
    image: &mut Image,
    geometry: &Geometry,
    d: u16,
    parent: u16,
    used: &mut [bool],
) -> Result<(), EditFault>
    requires fits { Fits geometry.now image.old }
    requires first { 1 ≤ d }
    requires last { d ≤ geometry.now.last_inode }
    requires len { length used.old ≡ geometry.now.zone_end }
    ensures { Fits geometry.now image.new }
{
    set_entry(image, geometry, d, b".", d, used)?;
    set_entry(image, geometry, d, b"..", parent, used)
}

/// Makes the entry of directory `d` with this name one for i-number `i`.
fn set_entry(
    image: &mut Image,
    geometry: &Geometry,
    d: u16,
    name: &[u8],
    i: u16,
    used: &mut [bool],
) -> Result<(), EditFault>
    requires fits { Fits geometry.now image.old }
    requires first { 1 ≤ d }
    requires last { d ≤ geometry.now.last_inode }
    requires len { length used.old ≡ geometry.now.zone_end }
    requires short { length name.now ≤ 14 }
    ensures { Fits geometry.now image.new }
{
    match lookup(image, geometry, d, name) {
        Ok(entry) if entry.inode == i => Ok(()),
        Ok(entry) => {
            put_number_in(image, geometry, d, entry.slot, i);
            Ok(())
        }
        Err(slot) => {
            add_entry(image, geometry, d, slot, &Slot::new(i, name), used)?;
            Ok(())
        }
    }
}
