//! Answers whose length isn't known before: they are stored in the handle, and copied from there.
ghost use Rattle.std.specs.Prelude.{◌≡◌, ◌≢◌, ◌↔◌, ◌⊎◌, ◌-◌, pos, None, IsSomeAnd, IfSome, IfOk, length, min, take, drop};
ghost use Rattle.vol_layout.specs.Geometry.{Fits};
ghost use Rattle.vol_dir.specs.Entries.{IsDirectory};
ghost use Rattle.vol_check.specs.Layouts.{HasSwept, IsFor, IsSeatIn};
ghost use Rattle.vol_check.specs.SweepReports.{IsReport};
ghost use Rattle.vol_check.specs.Steps.{Ran};
ghost use Rattle.unixvol_c.specs.Calls.{Returns};
ghost use Rattle.unixvol_c.specs.Texts.{BothHeld, IsArchive, IsNoStart, IsReportText, KeepsArchive, KeepsReport, checker_of, start_number};

use crate::handle::Handle;
use crate::open_volume::OpenVolume;
use crate::queries::put_bytes;
use crate::{CLOSED, DONE, NO_MEMORY, NO_REPORT};
use pdp_words::{Image, IntoWrite};
use std::alloc::{AllocError, Global};
use vol_archive::{Role, export};
use vol_check::{CheckSeat, Checker, Sweep};
use vol_dir::{DirectoryFault, FoundDirectory, find_directory};
use vol_layout::{Edition, GeometryFault};
use vol_reports::Report;

/// Stores a checker's report on the volume as the handle's answer: the report of `icheck` for the letter `i`, of `dcheck` for `d`, of `ncheck` for
/// `n`. It is the text that the program prints.
///
/// Takes the time and memory of the checker with one thread, and memory for the text.
#[unsafe(no_mangle)]
pub extern "C" fn unixvol_report(alloc: Global, handle: &mut Handle, letter: u8) -> i32
    ensures kept { let held = handle.old.sealed.held in
        Returns held (BothHeld held handle.new.sealed.held (KeepsReport letter)) (λ number. number ≡ NO_REPORT) (handle.new.sealed.held ≡ held) result }
    ensures unnamed { IfSome handle.old.sealed.held (λ held. result ≡ NO_REPORT ↔ checker_of letter ≡ None) }
{
    let Some(mut held) = handle.take(alloc) else {
        return CLOSED;
    };
    let answer = keep_report(alloc, &mut held, letter);
    handle.put(held);
    answer
}

/// Stores a tar archive of everything below a directory as the handle's answer, and sets `left_out` to the number of entries that are left out
/// because their paths have more than 4,096 bytes. The empty path is the root.
///
/// Costs the walk over the tree. Takes memory for all paths and for the archive.
#[unsafe(no_mangle)]
pub extern "C" fn unixvol_export(
    alloc: Global,
    handle: &mut Handle,
    path: &[u8],
    left_out: &mut usize,
) -> i32
    ensures { let held = handle.old.sealed.held in Returns held (BothHeld held handle.new.sealed.held (KeepsArchive path.now left_out.new))
        (λ number. IsSomeAnd held (λ held. IsNoStart path.now held number)) ((handle.new.sealed.held ≡ held) × (left_out.new ≡ left_out.old)) result }
{
    let Some(mut held) = handle.take(alloc) else {
        return CLOSED;
    };
    let answer = keep_archive(alloc, &mut held, path, left_out);
    handle.put(held);
    answer
}

/// Sets `count` to the number of bytes of the stored answer. Takes no memory.
#[unsafe(no_mangle)]
pub extern "C" fn unixvol_answer_size(alloc: Global, handle: &mut Handle, count: &mut usize) -> i32
    ensures closed { handle.old.sealed.held ≡ None → (result ≡ CLOSED) × (count.new ≡ count.old) }
    ensures held { IfSome handle.old.sealed.held (λ held. (result ≡ DONE) × (count.new ≡ length held.answer)) }
    ensures same { handle.new.sealed.held ≡ handle.old.sealed.held }
{
    let Some(held) = handle.take(alloc) else {
        return CLOSED;
    };
    *count = held.answer().len();
    handle.put(held);
    DONE
}

/// Copies bytes of the stored answer, starting at an offset: as many as the buffer has room for, fewer at the end. Takes no memory.
#[unsafe(no_mangle)]
pub extern "C" fn unixvol_answer(
    alloc: Global,
    handle: &mut Handle,
    from: usize,
    into: &mut [u8],
    count: &mut usize,
) -> i32
    ensures closed { handle.old.sealed.held ≡ None → (result ≡ CLOSED) × (count.new ≡ count.old) × (into.new ≡ into.old) }
    ensures done { IfSome handle.old.sealed.held (λ held. result ≡ DONE) }
    ensures count { IfSome handle.old.sealed.held (λ held. count.new ≡ min (length into.old) (length held.answer - from)) }
    ensures bytes { IfSome handle.old.sealed.held (λ held. take count.new into.new ≡ take count.new (drop from held.answer)) }
    ensures rest { IfSome handle.old.sealed.held (λ held. drop count.new into.new ≡ drop count.new into.old) }
    ensures same { handle.new.sealed.held ≡ handle.old.sealed.held }
{
    let Some(held) = handle.take(alloc) else {
        return CLOSED;
    };
    *count = copy_from(held.answer(), from, into);
    handle.put(held);
    DONE
}

/// Copies bytes, starting at an offset, as many as are available and fit in the buffer, and returns their number.
fn copy_from(bytes: &[u8], from: usize, into: &mut [u8]) -> usize
    ensures count { result ≡ min (length into.old) (length bytes.now - from) }
    ensures bytes { take result into.new ≡ take result (drop from bytes.now) }
    ensures rest { drop result into.new ≡ drop result into.old }
{
    if from >= bytes.len() {
        return 0;
    }
    let count = into.len().min(bytes.len() - from);
    put_bytes(&bytes[from..from + count], into)
}

/// Stores the report of a checker.
fn keep_report(alloc: Global, held: &mut OpenVolume, letter: u8) -> i32
    ensures kept { result ≡ DONE → KeepsReport letter held.old held.new }
    ensures unnamed { result ≡ NO_REPORT ↔ checker_of letter ≡ None }
    ensures others { (result ≡ DONE) ⊎ (result ≡ NO_REPORT) ⊎ (result ≡ NO_MEMORY) }
    ensures unchanged { result ≢ DONE → held.new ≡ held.old }
{
    let Some(checker) = checker_of(letter) else {
        return NO_REPORT;
    };
    let volume = held.volume();
    let Ok(text) = report_text(alloc, volume.edition(), volume.image(), checker) else {
        return NO_MEMORY;
    };
    held.keep(text);
    DONE
}

/// Returns the checker with a letter.
fn checker_of(letter: u8) -> Option<Checker>
    ensures { result ≡ checker_of letter }
{
    match letter {
        b'i' => Some(Checker::Blocks),
        b'd' => Some(Checker::Entries),
        b'n' => Some(Checker::Names),
        _ => None,
    }
}

/// Returns the text of a checker's report.
fn report_text(
    alloc: Global,
    edition: Edition,
    image: &Image,
    checker: Checker,
) -> Result<Vec<u8>, AllocError>
    ensures { IfOk result (λ text. IsReportText checker edition image.now text.items) }
{
    let report = report(alloc, edition, image, checker)?;
    let mut text = Vec::new(alloc);
    report.push_text(&mut text)?;
    Ok(text)
}

/// Returns a checker's report, made by one seat of a sweep.
fn report(
    alloc: Global,
    edition: Edition,
    image: &Image,
    checker: Checker,
) -> Result<Report, AllocError>
    ensures { IfOk result (λ report. IsReport checker edition image.now report) }
{
    let (sweep, mut seats) = Sweep::new(alloc, edition, image, checker, 1)?;
    let Some(mut seat) = seats.pop() else {
        unreachable!();
    };
    run(alloc, &sweep, image, &mut seat);
    seats.push(seat)?;
    sweep.finish(alloc, seats)
}

/// Runs the steps of the sweep until none is left, or memory runs out.
fn run(alloc: Global, sweep: &Sweep, image: &Image, seat: &mut CheckSeat)
    requires own { IsSeatIn sweep.now seat.old }
    requires layout { IsFor sweep.now image.now }
    requires image { HasSwept sweep.now image.now seat.old }
    ensures { Ran sweep.now image.now seat.new }
{
    while let Ok(Some(_piece)) = sweep.step(alloc, image, seat) {}
}

/// An archive, and the number of entries that are left out of it.
#[derive(Drop)]
struct Archive {
    bytes: Vec<u8>,
    left_out: usize,
}

/// Stores the archive of everything below a directory.
fn keep_archive(alloc: Global, held: &mut OpenVolume, path: &[u8], left_out: &mut usize) -> i32
    ensures kept { result ≡ DONE → KeepsArchive path.now left_out.new held.old held.new }
    ensures refused { result ≢ DONE → result ≢ NO_MEMORY → IsNoStart path.now held.old result }
    ensures few { result ≢ CLOSED }
    ensures unchanged { result ≢ DONE → (held.new ≡ held.old) × (left_out.new ≡ left_out.old) }
{
    let volume = held.volume();
    let start = match find_directory(volume.edition(), volume.image(), path) {
        Ok(start) => start,
        Err(fault) => return start_number(fault),
    };
    let Ok(archive) = archive_of(alloc, volume.image(), &start) else {
        return NO_MEMORY;
    };
    let Archive {
        bytes,
        left_out: count,
    } = archive;
    *left_out = count;
    held.keep(bytes);
    DONE
}

/// Returns the archive of everything below a starting directory.
fn archive_of(alloc: Global, image: &Image, start: &FoundDirectory) -> Result<Archive, AllocError>
    requires fits { Fits start.now.geometry image.now }
    requires directory { IsDirectory start.now.geometry image.now start.now.inode }
    ensures { IfOk result (λ archive. IsArchive start.now image.now archive.bytes.items archive.left_out) }
{
    let mut sink = IntoWrite::new(Vec::new(alloc));
    let Ok(founds) = export(alloc, image, &start.geometry, start.inode, &mut sink) else {
        return Err(AllocError);
    };
    let left_out = founds
        .iter()
        .filter(|found| matches!(found.role, Role::Left(_)))
        .count();
    Ok(Archive {
        bytes: sink.into_inner(),
        left_out,
    })
}

/// Returns the number for the reason why there is nothing to export.
fn start_number(fault: DirectoryFault) -> i32
    ensures number { result ≡ pos (start_number fault) }
    ensures few { (result ≢ DONE) × (result ≢ CLOSED) }
{
    match fault {
        DirectoryFault::Unsound(GeometryFault::Short) => 201,
        DirectoryFault::Unsound(GeometryFault::Bounds) => 202,
        DirectoryFault::Refused(refusal) => refusal.number() as i32,
    }
}
