//! Many queries or calls on a shared volume.
//!
//! views lock|view|views|calls COUNT VIEWS BLOCKS BYTES
//!
//! Makes a volume of the seventh edition of BLOCKS blocks with one file in it, and shares it between two sessions and VIEWS views, at most 16. With
//! `lock` one session queries the file's attributes COUNT times, and with `view` the last view does, while the other session writes BYTES bytes of
//! the file again and again until that is done. With `views` VIEWS views, at most 4, make COUNT queries each, on their own threads, and nothing is
//! written. With `calls` one session writes BYTES bytes of the file COUNT times; without views the volume is opened without publishing. Prints the
//! number of answered queries or, with `calls`, of accepted calls.
use crate::number;
use crate::queries::new_volume_with_file;
use crate::sessions::{share, share_published};
use std::alloc::Global;
use std::sync::Wait;
use std::thread::Threads;
use vol_shared::MOST_VIEWS;

/// The kind of work on the volume.
#[derive(Clone, Copy)]
pub(crate) enum Job {
    /// Queries by a session, while another writes.
    Lock,
    /// Queries by one view, while a session writes.
    View,
    /// Queries by each view, and nothing is written.
    Views,
    /// Calls by one session.
    Calls,
}

/// The work on the volume.
#[derive(Clone, Copy)]
pub(crate) struct Task {
    pub(crate) job: Job,
    pub(crate) count: u64,
    pub(crate) views: usize,
    pub(crate) blocks: u32,
    pub(crate) length: u32,
}

impl Task {
    /// Reads a task from words, the first of which is its name.
    pub(crate) fn read(words: &[String]) -> Option<Task> {
        let job = match words.get(1)?.as_str() {
            "lock" => Job::Lock,
            "view" => Job::View,
            "views" => Job::Views,
            "calls" => Job::Calls,
            _ => return None,
        };
        Some(Task {
            job,
            count: u64::from(number(words, 2)?),
            views: number(words, 3)? as usize,
            blocks: number(words, 4)?,
            length: number(words, 5)?,
        })
    }

    /// Runs the task with a new volume, and returns the output.
    pub(crate) fn run<R: Threads + Wait + Sync>(self, rt: &R, alloc: Global) -> Option<Vec<u8>> {
        let volume = new_volume_with_file(alloc, self.blocks)?;
        let done = match self.job {
            Job::Calls if self.views == 0 => share(rt, alloc, volume, self),
            Job::Views if self.views > 4 => None,
            Job::Views => share_published(rt, alloc, volume, 4 * self.views, self),
            _ if self.views > MOST_VIEWS => None,
            _ => share_published(rt, alloc, volume, self.views, self),
        }?;
        let line = format!(in alloc; "{done} done\n").ok()?;
        Some(line.into_bytes())
    }
}
