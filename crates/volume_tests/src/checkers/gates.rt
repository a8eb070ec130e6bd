//! Tests of gates: four workers that work at the same time, and each piece of work between two calls of the gate.
use crate::checkers::fixtures::{BLOCKS, check_report, sixth_image};
use crate::meeting::Meeting;
use std::sync::atomic::{AtomicU64, Ordering};
use vol_check::{Gate, icheck};
use vol_layout::Edition;

#[test]
fn four_workers_meet_before_their_first_pieces(rt: HostRuntime) {
    let alloc = rt.alloc();
    let image = sixth_image(&rt, alloc);
    let gate = Meeting::of(4);
    let report = icheck(&rt, &rt, alloc, Edition::V6, &image, 4, &gate);
    assert_eq!(rt; gate.missed(), 0);
    check_report(&rt, alloc, report, BLOCKS);
}

/// The unit in which calls are counted; the lower bits represent the pieces.
const CALLS: u64 = 1 << 40;

/// Counts the calls, and their pieces.
#[derive(Drop)]
struct Counting {
    before: AtomicU64,
    after: AtomicU64,
}

/// Returns the count of one call, for this piece.
fn one_call(piece: u64) -> u64 {
    if piece < 40 {
        CALLS + (1 << piece)
    } else {
        CALLS
    }
}

impl Gate for Counting {
    fn before(&self, piece: u64) {
        self.before.fetch_add(one_call(piece), Ordering::SeqCst);
    }

    fn after(&self, piece: u64) {
        self.after.fetch_add(one_call(piece), Ordering::SeqCst);
    }
}

#[test]
fn each_piece_is_between_two_calls_of_the_gate(rt: HostRuntime) {
    let alloc = rt.alloc();
    let image = sixth_image(&rt, alloc);
    let gate = Counting {
        before: AtomicU64::new(0),
        after: AtomicU64::new(0),
    };
    let report = icheck(&rt, &rt, alloc, Edition::V6, &image, 7, &gate);
    assert!(rt; report.is_ok());
    // 33 calls, for the pieces 0 to 32.
    let wanted = 33 * CALLS + (1 << 33) - 1;
    assert_eq!(rt; gate.before.load(Ordering::SeqCst), wanted);
    assert_eq!(rt; gate.after.load(Ordering::SeqCst), wanted);
}
