//! The repair of a damaged image, and what it changed.
ghost use Rattle.std.specs.Prelude.{◌≡◌, ◌≢◌, ◌↔◌, ◌≤◌, ◌++◌, pos, length, map, drop};
ghost use Rattle.vol_repair.specs.Repaired.{IsRepairFault};
ghost use Rattle.vol_repair.specs.declared.repaired_volume.RepairFault.{RepairFault};
ghost use Rattle.unixvol_c.specs.Calls.{edition_of, IsNoEdition};
ghost use Rattle.unixvol_c.specs.Repaired.{RepairsIn, WantsRoom, line_of, repair_number};

use crate::open::{edition_of, unsound};
use crate::structs::RepairedLine;
use crate::{DONE, NO_EDITION, NO_MEMORY, NO_ROOM, NO_SPACE, NOT_REPAIRED};
use pdp_words::Image;
use std::alloc::Global;
use vol_repair::{RepairFault, RepairLine, repair};

/// Repairs an image in place, and tells all that it changed: the image is sound then, and each file that was well by itself is as it was. Puts as many lines
/// as `into` has room for there, and sets `count` to the number of all; if that is more, the image is unchanged. `now` is the time of new i-nodes.
///
/// Takes memory for two copies of the image, to judge it, and for the lines.
#[unsafe(no_mangle)]
pub extern "C" fn unixvol_repair(
    alloc: Global,
    edition: u8,
    bytes: &mut [u8],
    now: u32,
    into: &mut [RepairedLine],
    count: &mut usize,
) -> i32
    ensures repaired { result ≡ DONE → RepairsIn (edition_of edition) bytes.old bytes.new into.old into.new count.new }
    ensures room { result ≡ NO_ROOM → WantsRoom (edition_of edition) bytes.old into.old count.new }
    ensures edition { result ≡ NO_EDITION ↔ IsNoEdition edition }
    ensures refused { result ≢ DONE → result ≢ NO_ROOM → result ≢ NO_EDITION → result ≢ NO_MEMORY
        → (fault : RepairFault) × (result ≡ pos (repair_number fault)) × IsRepairFault (edition_of edition) bytes.old fault }
    ensures same { result ≢ DONE → (bytes.new ≡ bytes.old) × (into.new ≡ into.old) }
    ensures unchanged { result ≢ DONE → result ≢ NO_ROOM → count.new ≡ count.old }
{
    let Some(edition) = edition_of(edition) else {
        return NO_EDITION;
    };
    let Ok(copy) = Vec::from_slice(alloc, bytes) else {
        return NO_MEMORY;
    };
    match repair(alloc, edition, &Image::from_bytes(copy), now) {
        Ok(repaired) => {
            *count = repaired.lines.len();
            if *count > into.len() {
                return NO_ROOM;
            }
            bytes.copy_from_slice(repaired.image.as_bytes());
            put_lines(&repaired.lines, into);
            DONE
        }
        Err(fault) => repair_number(fault),
    }
}

/// Returns the number for the reason why an image isn't repaired.
fn repair_number(fault: RepairFault) -> i32
    ensures { result ≡ pos (repair_number fault) }
{
    match fault {
        RepairFault::Unsized(rule) => unsound(rule),
        RepairFault::NotRepaired => NOT_REPAIRED,
        RepairFault::NoSpace => NO_SPACE,
        RepairFault::NoMemory => NO_MEMORY,
    }
}

/// Puts lines into a buffer that has room for them.
fn put_lines(lines: &[RepairLine], into: &mut [RepairedLine])
    requires { length lines.now ≤ length into.old }
    ensures { into.new ≡ map line_of lines.now ++ drop (length lines.now) into.old }
{
    for i in 0..lines.len() {
        into[i] = RepairedLine::of(lines[i]);
    }
}
