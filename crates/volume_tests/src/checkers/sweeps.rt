//! Sweeps whose seats are stepped by hand.
ghost use Rattle.std.specs.Prelude.{◌≡◌, ◌≤◌, ◌<◌, All, length, vec_len};
ghost use Rattle.vol_check.specs.Layouts.{IsFor, HasSameHead, seat_count};
ghost use Rattle.vol_check.specs.Steps.{Ran};
ghost use Rattle.volume_tests.specs.Work.{IsAtWork};

use crate::checkers::fixtures::{BLOCKS, check_report, sixth_image};
use pdp_words::{BLOCK, Image};
use std::alloc::{AllocError, Global};
use std::process::Abort;
use std::thread;
use std::thread::Threads;
use vol_check::{CheckSeat, Checker, MOST_WORKERS, Report, Sweep};
use vol_layout::{Edition, Geometry};

/// More pieces than any of the sweeps has.
const ENOUGH: u64 = 40_000;

/// Steps a seat until no piece is left. The pieces' numbers must ascend.
fn run(rt: &impl Abort, alloc: Global, sweep: &Sweep, image: &Image, seat: &mut CheckSeat)
    requires layout { IsFor sweep.now image.now }
    requires work { IsAtWork sweep.now image.now seat.old }
    ensures { Ran sweep.now image.now seat.new }
{
    let mut least = 0;
    for _count in 0..ENOUGH {
        match sweep.step(alloc, image, seat) {
            Ok(Some(piece)) => {
                assert!(rt; least <= piece.number);
                least = piece.number.saturating_add(1);
            }
            _ => return,
        }
    }
    panic!(rt; "a sweep doesn't end")
}

/// Takes one piece with each seat in turn.
fn take_turn<R: Threads + Abort + Sync>(
    rt: &R,
    alloc: Global,
    sweep: &Sweep,
    image: &Image,
    seats: &mut [CheckSeat],
)
    requires layout { IsFor sweep.now image.now }
    requires work { All (IsAtWork sweep.now image.now) seats.old }
    ensures len { length seats.new ≡ length seats.old }
    ensures work { All (IsAtWork sweep.now image.now) seats.new }
{
    let turn = |_: usize, seat: &mut CheckSeat|
        requires { IsFor sweep.now image.now × IsAtWork sweep.now image.now seat.old }
        ensures { IsAtWork sweep.entry.now image.entry.now seat.new }
    {
        let stepped = sweep.step(alloc, image, seat);
        assert!(rt; stepped.is_ok());
    };
    thread::for_each_mut(rt, seats, 1, &turn);
}

/// Takes one piece with each seat in turn, and then pieces with each until none is left, on `threads` threads.
fn run_all<R: Threads + Abort + Sync>(
    rt: &R,
    alloc: Global,
    sweep: &Sweep,
    image: &Image,
    seats: &mut [CheckSeat],
    threads: usize,
)
    requires threads { 0 < threads }
    requires layout { IsFor sweep.now image.now }
    requires work { All (IsAtWork sweep.now image.now) seats.old }
    ensures len { length seats.new ≡ length seats.old }
    ensures ran { All (Ran sweep.now image.now) seats.new }
{
    take_turn(rt, alloc, sweep, image, seats);
    let run = |_: usize, seat: &mut CheckSeat|
        requires { IsFor sweep.now image.now × IsAtWork sweep.now image.now seat.old }
        ensures { Ran sweep.entry.now image.entry.now seat.new }
    { run(rt, alloc, sweep, image, seat) };
    thread::for_each_mut(rt, seats, threads, &run);
}

/// Returns the report on an image of a sweep with these seats on `threads` threads.
fn swept<R: Threads + Abort + Sync>(
    rt: &R,
    alloc: Global,
    sweep: Sweep,
    image: &Image,
    mut seats: Vec<CheckSeat>,
    threads: usize,
) -> Result<Report, AllocError>
    requires threads { 0 < threads }
    requires layout { IsFor sweep image.now }
    requires work { All (IsAtWork sweep image.now) seats.items }
    requires some { 1 ≤ vec_len seats }
    requires count { vec_len seats ≡ seat_count sweep }
{
    run_all(rt, alloc, &sweep, image, &mut seats, threads);
    sweep.finish(alloc, seats)
}

/// Checks the report of a sweep with `seats` seats, each on its own thread.
fn check_swept<R: Threads + Abort + Sync>(
    rt: &R,
    alloc: Global,
    image: &Image,
    checker: Checker,
    seats: usize,
    wanted: &[u8],
)
    requires first { 1 ≤ seats }
    requires last { seats ≤ MOST_WORKERS }
{
    let Ok((sweep, all)) = Sweep::new(alloc, Edition::V6, image, checker, seats) else {
        panic!(rt; "memory for a sweep")
    };
    let report = swept(rt, alloc, sweep, image, all, seats);
    check_report(rt, alloc, report, wanted);
}

#[test]
fn a_sweep_is_stepped_by_its_seats(rt: HostRuntime) {
    let alloc = rt.alloc();
    let image = sixth_image(&rt, alloc);
    for (checker, wanted) in [
        (Checker::Blocks, BLOCKS),
        (Checker::Entries, b""),
        (Checker::Names, b""),
    ] {
        check_swept(&rt, alloc, &image, checker, 1, wanted);
        check_swept(&rt, alloc, &image, checker, 7, wanted);
        // One turn of 64 seats takes all pieces of the volume.
        check_swept(&rt, alloc, &image, checker, 64, wanted);
    }
}

/// The byte of the image that has the i-number of `..` in the root.
const PARENT: usize = 4 * BLOCK + 16;

/// Puts a byte into the data zone, which changes no byte before it.
fn put_data(rt: &impl Abort, image: &mut Image, at: usize, value: u8)
    ensures { HasSameHead Edition.V6 image.old image.new }
{
    let Ok(geometry) = Geometry::read(Edition::V6, image) else {
        panic!(rt; "no geometry")
    };
    assert!(rt; BLOCK * geometry.zone_start as usize <= at);
    assert!(rt; at < image.len());
    image.put_byte(at, value);
}

/// Checks the report of a sweep that was made before `..` in the root became an entry for i-number 2.
fn check_changed<R: Threads + Abort + Sync>(
    rt: &R,
    alloc: Global,
    checker: Checker,
    wanted: &[u8],
) {
    let mut image = sixth_image(rt, alloc);
    let Ok((sweep, seats)) = Sweep::new(alloc, Edition::V6, &image, checker, 2) else {
        panic!(rt; "memory for a sweep")
    };
    put_data(rt, &mut image, PARENT, 2);
    let report = swept(rt, alloc, sweep, &image, seats, 2);
    check_report(rt, alloc, report, wanted);
}

#[test]
fn a_sweep_reports_the_image_that_is_stepped(rt: HostRuntime) {
    let alloc = rt.alloc();
    check_changed(&rt, alloc, Checker::Blocks, BLOCKS);
    check_changed(&rt, alloc, Checker::Entries, b"1 1 2\n2 1 0\n");
    check_changed(&rt, alloc, Checker::Names, b"");
}
