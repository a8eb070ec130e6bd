//! The line on a terminal that says how much of a file was read or written.
use crate::image_file::Stamp;
use std::rt::Clock;
use std::sync::atomic::{AtomicBool, AtomicU64, Ordering};

/// The milliseconds for which a command is silent before there is a line.
const PATIENCE: u64 = 1000;

/// The milliseconds between two updates of the line.
const PAUSE: u64 = 100;

/// The number of bytes after which the clock is read again.
const PIECE: u64 = 64 * 1024;

/// The bytes in a unit of the line.
const KILO: u64 = 1000;

/// The bytes in the unit of a line about more than ten of them.
const MEGA: u64 = 1000 * KILO;

/// What a command does with a file, which may take long.
#[derive(Clone, Copy)]
pub enum Stage {
    /// It reads a file of this number of bytes, if that is known.
    Reading(Option<u64>),
    /// It writes this number of bytes, if that is known.
    Writing(Option<u64>),
    /// Neither.
    Rest,
}

impl Stage {
    /// Returns the stage in which the file with a stamp is read.
    pub(crate) fn of_reading(stamp: Stamp) -> Stage {
        Stage::Reading(if stamp.size > 0 {
            Some(stamp.size)
        } else {
            None
        })
    }
}

/// The line on standard error that says how much of a file was read or written. It comes after a second, if standard error is a terminal, and is wiped
/// before anything else is printed. Threads may share it.
#[derive(Drop)]
pub struct ProgressLine {
    /// True if there may be a line.
    is_wanted: AtomicBool,
    /// True if the line is on the terminal.
    is_shown: AtomicBool,
    /// True if bytes are counted that are read.
    is_reading: AtomicBool,
    /// True if bytes are counted that are written.
    is_writing: AtomicBool,
    /// The number of bytes that were counted.
    done: AtomicU64,
    /// The number of all bytes; 0 if that isn't known.
    total: AtomicU64,
    /// The time before which the line doesn't change, in milliseconds of the clock.
    next: AtomicU64,
}

impl ProgressLine {
    /// Returns a line that isn't on the terminal yet, and never will be unless it is wanted.
    pub fn new(is_wanted: bool) -> ProgressLine {
        ProgressLine {
            is_wanted: AtomicBool::new(is_wanted),
            is_shown: AtomicBool::new(false),
            is_reading: AtomicBool::new(false),
            is_writing: AtomicBool::new(false),
            done: AtomicU64::new(0),
            total: AtomicU64::new(0),
            next: AtomicU64::new(0),
        }
    }

    /// True if there may be a line.
    pub(crate) fn is_wanted(&self) -> bool {
        self.is_wanted.load(Ordering::Relaxed)
    }

    /// Wipes the line, and begins to count the bytes of a stage.
    pub(crate) fn begin<R: Clock + Eprint>(&self, rt: &R, stage: Stage) {
        self.rest(rt);
        let (is_writing, total) = match stage {
            Stage::Reading(total) => (false, total),
            Stage::Writing(total) => (true, total),
            Stage::Rest => return,
        };
        if !self.is_wanted() {
            return;
        }
        let Some(now) = milliseconds(rt) else {
            return;
        };
        self.done.store(0, Ordering::Relaxed);
        self.total.store(total.unwrap_or(0), Ordering::Relaxed);
        self.next
            .store(now.saturating_add(PATIENCE), Ordering::Relaxed);
        self.is_reading.store(!is_writing, Ordering::Relaxed);
        self.is_writing.store(is_writing, Ordering::Relaxed);
    }

    /// Wipes the line, and counts no bytes until a stage begins.
    pub(crate) fn rest<R: Eprint>(&self, rt: &R) {
        self.is_reading.store(false, Ordering::Relaxed);
        self.is_writing.store(false, Ordering::Relaxed);
        self.wipe(rt);
    }

    /// Ends the stage if bytes are counted that are read.
    pub(crate) fn end_reading<R: Eprint>(&self, rt: &R) {
        if self.is_reading.load(Ordering::Relaxed) {
            self.rest(rt);
        }
    }

    /// Wipes the line. There is none from now on.
    pub fn end<R: Eprint>(&self, rt: &R) {
        self.is_wanted.store(false, Ordering::Relaxed);
        self.rest(rt);
    }

    /// Wipes the line, if it is on the terminal. If bytes are counted, it may come again.
    pub(crate) fn wipe<R: Eprint>(&self, rt: &R) {
        if self.is_shown.swap(false, Ordering::Relaxed) {
            let _ = eprint!(rt; "\r\x1b[K");
        }
    }

    /// Counts bytes that were read, and shows the line if it is time.
    pub(crate) fn count_read<R: Clock + Eprint>(&self, rt: &R, count: u64) {
        if self.is_reading.load(Ordering::Relaxed) {
            self.count(rt, "reading", count);
        }
    }

    /// Counts bytes that were written, and shows the line if it is time.
    pub(crate) fn count_written<R: Clock + Eprint>(&self, rt: &R, count: u64) {
        if self.is_writing.load(Ordering::Relaxed) {
            self.count(rt, "writing", count);
        }
    }

    /// Counts bytes, and shows the line with this word if it is time.
    fn count<R: Clock + Eprint>(&self, rt: &R, word: &str, count: u64) {
        let before = self.done.load(Ordering::Relaxed);
        let done = before.saturating_add(count);
        self.done.store(done, Ordering::Relaxed);
        if before / PIECE == done / PIECE {
            return;
        }
        let Some(now) = milliseconds(rt) else {
            return;
        };
        if now < self.next.load(Ordering::Relaxed) {
            return;
        }
        self.next
            .store(now.saturating_add(PAUSE), Ordering::Relaxed);
        self.is_shown.store(true, Ordering::Relaxed);
        show(rt, word, done, self.total.load(Ordering::Relaxed));
    }
}

/// Shows the line over itself.
fn show<R: Eprint>(rt: &R, word: &str, done: u64, total: u64) {
    let (unit, name) = if done.max(total) < 10 * MEGA {
        (KILO, "kB")
    } else {
        (MEGA, "MB")
    };
    let (done, all) = (done / unit, total / unit);
    let _ = if total == 0 {
        eprint!(rt; "\r{word} {done} {name}\x1b[K")
    } else {
        eprint!(rt; "\r{word} {done} of {all} {name}\x1b[K")
    };
}

/// Returns the time of the clock that never goes back, in milliseconds.
fn milliseconds<R: Clock>(rt: &R) -> Option<u64> {
    let now = rt.monotonic().ok()?;
    u64::try_from(now.as_millis()).ok()
}
