//! Many checks of an image.
//!
//! checks 6|7 icheck|dcheck|ncheck WORKERS TIMES < IMAGE
//!
//! Checks the image on standard input TIMES times, with WORKERS threads, 1 to 64, and prints the number of lines in all
//! reports.
ghost use Rattle.std.specs.Prelude.{◌≤◌, IfSome};

use crate::number;
use pdp_words::Image;
use std::alloc::Global;
use std::sync::Wait;
use std::thread::Threads;
use vol_check::{MOST_WORKERS, Open, dcheck, icheck, ncheck};
use vol_layout::Edition;

/// A checker.
#[derive(Clone, Copy)]
enum Checker {
    Blocks,
    Entries,
    Names,
}

/// The checks to run.
#[derive(Clone, Copy)]
pub(crate) struct Task {
    edition: Edition,
    checker: Checker,
    workers: usize,
    times: u32,
}

impl Task {
    /// Reads a task from words, the first of which is its name.
    pub(crate) fn read(words: &[String]) -> Option<Task>
        ensures { IfSome result (λ task. (1 ≤ task.workers) × (task.workers ≤ MOST_WORKERS)) }
    {
        let edition = match words.get(1)?.as_str() {
            "6" => Edition::V6,
            "7" => Edition::V7,
            _ => return None,
        };
        let checker = match words.get(2)?.as_str() {
            "icheck" => Checker::Blocks,
            "dcheck" => Checker::Entries,
            "ncheck" => Checker::Names,
            _ => return None,
        };
        let workers = number(words, 3)? as usize;
        let times = number(words, 4)?;
        if workers < 1 || workers > MOST_WORKERS {
            return None;
        }
        Some(Task {
            edition,
            checker,
            workers,
            times,
        })
    }

    /// Checks an image once, and returns the number of lines in the report.
    fn check<R: Threads + Wait + Sync>(self, rt: &R, alloc: Global, image: &Image) -> Option<u64>
        requires first { 1 ≤ self.workers }
        requires last { self.workers ≤ MOST_WORKERS }
    {
        let Task {
            edition,
            workers,
            ..
        } = self;
        let report = match self.checker {
            Checker::Blocks => icheck(rt, rt, alloc, edition, image, workers, &Open),
            Checker::Entries => dcheck(rt, rt, alloc, edition, image, workers, &Open),
            Checker::Names => ncheck(rt, rt, alloc, edition, image, workers, &Open),
        };
        Some(report.ok()?.lines().len() as u64)
    }

    /// Checks an image `times` times, and returns the output.
    pub(crate) fn run<R: Threads + Wait + Sync>(
        self,
        rt: &R,
        alloc: Global,
        image: &Image,
    ) -> Option<Vec<u8>>
        requires first { 1 ≤ self.workers }
        requires last { self.workers ≤ MOST_WORKERS }
    {
        let mut lines: u64 = 0;
        for _ in 0..self.times {
            lines = lines.checked_add(self.check(rt, alloc, image)?)?;
        }
        let line = format!(in alloc; "{lines} lines\n").ok()?;
        Some(line.into_bytes())
    }
}
