//! Checks of an image, with any number of threads.
ghost use Rattle.std.specs.Prelude.{◌≡◌, ◌≤◌, IfOk};
ghost use Rattle.vol_reports.specs.Reports.{block_report, entry_report, IsNameReport};
ghost use Rattle.vol_check.specs.SweepReports.{IsReport};

use crate::checker::Checker;
use crate::gate::Gate;
use crate::memory_check::try_room;
use crate::sweeps::Sweep;
use pdp_words::Image;
use std::alloc::{AllocError, Global};
use std::sync::Wait;
use std::thread::Threads;
use vol_layout::Edition;
use vol_reports::Report;

/// The greatest number of threads of a check, and of seats of a sweep.
pub const MOST_WORKERS: usize = 64;

/// Returns the block report of an image, made by `workers` threads, which take no lock. If a thread can't be started, the others do its pieces. The
/// gate is called before and after each piece.
///
/// Reads each address of each i-node, each entry of each indirect block below it once for each level at which the block occurs, the free list, and
/// the words of each data block. Takes sixteen bytes for each data block and each i-number, one more byte for each data block, at most 1 MB for each
/// thread while it works on a file with indirect blocks, and memory for the lines.
pub fn icheck<R: Threads + Sync, W: Wait, G: Gate>(
    threads: &R,
    _wait: &W,
    alloc: Global,
    edition: Edition,
    image: &Image,
    workers: usize,
    gate: &G,
) -> Result<Report, AllocError>
    requires first { 1 ≤ workers }
    requires last { workers ≤ MOST_WORKERS }
    ensures { IfOk result (λ report. report ≡ block_report edition image.now) }
{
    check(
        threads,
        alloc,
        edition,
        image,
        Checker::Blocks,
        workers,
        gate,
    )
}

/// Returns the entry report of an image, made by `workers` threads, as [`icheck`] does.
///
/// Reads one block number for each logical block of a directory that isn't in a hole, and each slot of the data blocks of each piece. Takes sixteen
/// bytes for each i-number, a few KB for each thread, and memory for the lines.
pub fn dcheck<R: Threads + Sync, W: Wait, G: Gate>(
    threads: &R,
    _wait: &W,
    alloc: Global,
    edition: Edition,
    image: &Image,
    workers: usize,
    gate: &G,
) -> Result<Report, AllocError>
    requires first { 1 ≤ workers }
    requires last { workers ≤ MOST_WORKERS }
    ensures { IfOk result (λ report. report ≡ entry_report edition image.now) }
{
    check(
        threads,
        alloc,
        edition,
        image,
        Checker::Entries,
        workers,
        gate,
    )
}

/// Returns the name report of an image, made by `workers` threads, as [`icheck`] does.
///
/// Reads each slot of each stored block of each directory, makes the lines and sorts them. Takes twelve bytes for each i-number, and memory for each
/// entry and its path. It begins with one allocation of the least memory that the lines need, which it frees at once.
pub fn ncheck<R: Threads + Sync, W: Wait, G: Gate>(
    threads: &R,
    _wait: &W,
    alloc: Global,
    edition: Edition,
    image: &Image,
    workers: usize,
    gate: &G,
) -> Result<Report, AllocError>
    requires first { 1 ≤ workers }
    requires last { workers ≤ MOST_WORKERS }
    ensures { IfOk result (λ report. IsNameReport edition image.now report) }
{
    let _lines = try_room(alloc, edition, image)?;
    check(
        threads,
        alloc,
        edition,
        image,
        Checker::Names,
        workers,
        gate,
    )
}

/// Returns this checker's report of an image, made by `workers` threads.
fn check<R: Threads + Sync, G: Gate>(
    threads: &R,
    alloc: Global,
    edition: Edition,
    image: &Image,
    checker: Checker,
    workers: usize,
    gate: &G,
) -> Result<Report, AllocError>
    requires first { 1 ≤ workers }
    requires last { workers ≤ MOST_WORKERS }
    ensures { IfOk result (λ report. IsReport checker edition image.now report) }
{
    let (sweep, mut seats) = Sweep::new(alloc, edition, image, checker, workers)?;
    sweep.run_all(threads, alloc, gate, image, &mut seats);
    sweep.finish(alloc, seats)
}
