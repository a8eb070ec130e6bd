//! A gate that makes threads work on pieces at the same time.
use std::sync::atomic::{AtomicU64, Ordering};
use std::thread;
use vol_check::Gate;

/// The number of times that a `Meeting` yields while it holds back a piece.
const TURNS: u32 = 20_000_000;

/// A gate that holds back the first pieces until all of them have arrived.
#[derive(Drop)]
pub(crate) struct Meeting {
    pieces: u64,
    came: AtomicU64,
    missed: AtomicU64,
    left: AtomicU64,
}

impl Meeting {
    /// Returns a gate for the first `pieces` pieces. None has arrived yet.
    pub(crate) fn of(pieces: u64) -> Meeting {
        Meeting {
            pieces,
            came: AtomicU64::new(0),
            missed: AtomicU64::new(0),
            left: AtomicU64::new(0),
        }
    }

    /// Returns the number of these pieces that continued without the others.
    pub(crate) fn missed(&self) -> u64 {
        self.missed.load(Ordering::SeqCst)
    }

    /// Returns the number of pieces that are done.
    pub(crate) fn left(&self) -> u64 {
        self.left.load(Ordering::SeqCst)
    }
}

impl Gate for Meeting {
    fn before(&self, piece: u64) {
        if piece >= self.pieces {
            return;
        }
        self.came.fetch_add(1, Ordering::SeqCst);
        for _ in 0..TURNS {
            if self.came.load(Ordering::SeqCst) == self.pieces {
                return;
            }
            thread::yield_now();
        }
        self.missed.fetch_add(1, Ordering::SeqCst);
    }

    fn after(&self, _piece: u64) {
        self.left.fetch_add(1, Ordering::SeqCst);
    }
}
