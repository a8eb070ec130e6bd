//! Damaged images: finding the rules that they break, and rebuilding the free list.
ghost use Rattle.std.specs.Prelude.{◌≡◌, ◌≢◌, ◌↔◌, ◌⊎◌, ◌+◌, ◌<◌, ◌≤◌, pos, ℕ, List, false, IfOk, length, take, drop};
ghost use Rattle.vol_judge.specs.Sound.{IsLeastBroken};
ghost use Rattle.vol_check.specs.SalvagedImages.{IsSalvaged};
ghost use Rattle.unixvol_c.specs.Calls.{edition_of, IsNoEdition};
ghost use Rattle.unixvol_c.specs.Texts.{Explains};

use crate::open::{edition_of, unsound};
use crate::queries::put_text;
use crate::{DONE, NO_EDITION, NO_MEMORY, NO_ROOM};
use pdp_words::Image;
use std::alloc::Global;
use vol_check::{SalvageFault, salvage};
use vol_findings::make_report;

/// Puts the finding for each of the twelve rules into a buffer, one line each, and sets `count` to the number of
/// bytes. The image may be any bytes. If the buffer is too short, sets only `count`.
///
/// Costs checking each rule. Takes memory for a copy, for the checks, and for the text, which is about a thousand bytes.
#[unsafe(no_mangle)]
pub extern "C" fn unixvol_explain(
    alloc: Global,
    edition: u8,
    bytes: &[u8],
    into: &mut [u8],
    count: &mut usize,
) -> i32
    ensures told { result ≡ DONE → Explains (edition_of edition) bytes.now (take count.new into.new) }
    ensures rest { result ≡ DONE → (count.new ≤ length into.old) × (drop count.new into.new ≡ drop count.new into.old) }
    ensures room { result ≡ NO_ROOM → (length into.old < count.new) × ((text : List ℕ) × (count.new ≡ length text) × Explains (edition_of edition) bytes.now text) }
    ensures edition { result ≡ NO_EDITION ↔ IsNoEdition edition }
    ensures others { (result ≡ DONE) ⊎ (result ≡ NO_ROOM) ⊎ (result ≡ NO_EDITION) ⊎ (result ≡ NO_MEMORY) }
    ensures same { result ≢ DONE → into.new ≡ into.old }
    ensures unchanged { result ≢ DONE → result ≢ NO_ROOM → count.new ≡ count.old }
{
    let Some(edition) = edition_of(edition) else {
        return NO_EDITION;
    };
    let Ok(bytes) = Vec::from_slice(alloc, bytes) else {
        return NO_MEMORY;
    };
    let Ok(report) = make_report(alloc, edition, &Image::from_bytes(bytes)) else {
        return NO_MEMORY;
    };
    put_text(report.text.as_bytes(), into, count)
}

/// Rebuilds the free list of an image, in place, if the image breaks no rule except those of the free list. The image is then sound, and its files
/// and directories are unchanged. Otherwise returns 200 plus the number of the first other rule that it breaks.
///
/// Takes memory for a copy, to judge it, and two bytes for each block.
#[unsafe(no_mangle)]
pub extern "C" fn unixvol_salvage(alloc: Global, edition: u8, bytes: &mut [u8]) -> i32
    ensures salvaged { result ≡ DONE → IsSalvaged (edition_of edition) bytes.old bytes.new }
    ensures edition { result ≡ NO_EDITION ↔ IsNoEdition edition }
    ensures unsound { result ≢ DONE → result ≢ NO_EDITION → result ≢ NO_MEMORY
        → (rule : ℕ) × (result ≡ pos (200 + rule)) × IsLeastBroken false (edition_of edition) bytes.old rule }
    ensures unchanged { result ≢ DONE → bytes.new ≡ bytes.old }
{
    let Some(edition) = edition_of(edition) else {
        return NO_EDITION;
    };
    let Ok(copy) = Vec::from_slice(alloc, bytes) else {
        return NO_MEMORY;
    };
    match salvage(alloc, edition, copy) {
        Ok(salvaged) => {
            bytes.copy_from_slice(&salvaged);
            DONE
        }
        Err((SalvageFault::Unsound(rule), _)) => unsound(rule),
        Err((SalvageFault::NoMemory, _)) => NO_MEMORY,
    }
}
