//! A system whose reads and writes of files are shown in a line on a terminal.
use crate::folders::FolderListing;
use crate::image_file::Stamp;
use crate::progress::{ProgressLine, Stage};
use crate::system::ImageFiles;
use std::alloc::{Alloc, Allocator};
use std::env::{Env, FillError};
use std::fmt::Display;
use std::fs::{FileTimes, Files, Metadata, OpenFile, OpenOptions, Permissions};
use std::io::{self, Read, Seek, SeekFrom, Write};
use std::path::PathBuf;
use std::rt::Clock;
use std::sync::Wait;
use std::thread::Threads;
use std::time::Duration;

/// The greatest number of bytes that are written at once, so that the line can change before a whole image is written.
const PIECE: usize = 1024 * 1024;

/// A system that counts what is read from its files and written to them, and wipes the line that shows this before it prints anything.
#[derive(Drop)]
pub struct WatchedHost<'a, R> {
    pub(crate) rt: &'a R,
    pub(crate) line: &'a ProgressLine,
}

/// An open file of a watched system.
pub struct WatchedFile<'a, R: Files + Clock + Eprint> {
    file: R::File,
    host: WatchedHost<'a, R>,
}

impl<'a, R> WatchedHost<'a, R> {
    /// Returns a system whose files are counted for this line.
    pub fn new(rt: &'a R, line: &'a ProgressLine) -> WatchedHost<'a, R> {
        WatchedHost { rt, line }
    }
}

impl<R: Wait> Wait for WatchedHost<'_, R> {}

impl<R: Threads> Threads for WatchedHost<'_, R> {}

impl<R: Alloc> Alloc for WatchedHost<'_, R> {
    type A = R::A;

    fn alloc(&self) -> R::A {
        self.rt.alloc()
    }
}

impl<R: Eprint> Eprint for WatchedHost<'_, R> {
    fn eprint<D: Display + Drop>(&self, value: D) -> io::Result<()> {
        self.line.wipe(self.rt);
        self.rt.eprint(value)
    }

    fn eprintln<D: Display + Drop>(&self, value: D) -> io::Result<()> {
        self.line.wipe(self.rt);
        self.rt.eprintln(value)
    }
}

impl<R: Clock> Clock for WatchedHost<'_, R> {
    fn monotonic(&self) -> io::Result<Duration> {
        self.rt.monotonic()
    }

    fn since_1970(&self) -> io::Result<Duration> {
        self.rt.since_1970()
    }

    fn sleep(&self, duration: Duration) {
        self.rt.sleep(duration)
    }
}

impl<R: Env> Env for WatchedHost<'_, R> {
    fn arg(&self, i: usize, buf: &mut [u8]) -> Result<usize, FillError> {
        self.rt.arg(i, buf)
    }

    fn var(&self, name: &str, buf: &mut [u8]) -> Result<usize, FillError> {
        self.rt.var(name, buf)
    }

    fn var_at(&self, i: usize, buf: &mut [u8]) -> Result<usize, FillError> {
        self.rt.var_at(i, buf)
    }
}

impl<'a, R: Files + Clock + Eprint> Files for WatchedHost<'a, R> {
    type File = WatchedFile<'a, R>;

    type Dir = R::Dir;

    fn open_file(&self, how: &OpenOptions, path: &str) -> io::Result<WatchedFile<'a, R>> {
        let file = self.rt.open_file(how, path)?;
        let host = WatchedHost::new(self.rt, self.line);
        Ok(WatchedFile { file, host })
    }

    fn open_dir(&self, path: &str) -> io::Result<R::Dir> {
        self.rt.open_dir(path)
    }

    fn metadata(&self, path: &str) -> io::Result<Metadata> {
        self.rt.metadata(path)
    }

    fn symlink_metadata(&self, path: &str) -> io::Result<Metadata> {
        self.rt.symlink_metadata(path)
    }

    fn copy(&self, from: &str, to: &str) -> io::Result<u64> {
        self.rt.copy(from, to)
    }

    fn rename(&self, from: &str, to: &str) -> io::Result<()> {
        self.rt.rename(from, to)
    }

    fn remove_file(&self, path: &str) -> io::Result<()> {
        self.rt.remove_file(path)
    }

    fn create_dir(&self, path: &str) -> io::Result<()> {
        self.rt.create_dir(path)
    }

    fn remove_dir(&self, path: &str) -> io::Result<()> {
        self.rt.remove_dir(path)
    }

    fn remove_dir_all<B: Allocator>(&self, alloc: B, path: &str) -> io::Result<()> {
        self.rt.remove_dir_all(alloc, path)
    }

    fn read_link<B: Allocator>(&self, alloc: B, path: &str) -> io::Result<PathBuf<B>> {
        self.rt.read_link(alloc, path)
    }
}

impl<'a, R: ImageFiles + Clock + Eprint> ImageFiles for WatchedHost<'a, R> {
    ghost had = { λ watched stamp. R.had watched.file stamp };

    ghost stood = { R.stood };

    ghost stands = { R.stands };

    ghost listed = { R.listed };

    ghost refused = { λ watched count why. R.refused watched.file count why };

    fn stamp_of(&self, file: &WatchedFile<'a, R>) -> io::Result<Stamp> {
        self.rt.stamp_of(&file.file)
    }

    fn sized_stamp_of(&self, file: &mut WatchedFile<'a, R>) -> io::Result<Stamp> {
        self.rt.sized_stamp_of(&mut file.file)
    }

    fn stamp_at(&self, path: &str) -> io::Result<Stamp> {
        self.rt.stamp_at(path)
    }

    fn stamp_of_name(&self, path: &str) -> io::Result<Stamp> {
        self.rt.stamp_of_name(path)
    }

    fn folder_at(&self, path: &str) -> io::Result<FolderListing> {
        self.rt.folder_at(path)
    }

    fn is_there(&self, path: &str) -> bool {
        self.rt.is_there(path)
    }

    fn give(&self, file: &WatchedFile<'a, R>, user: Option<u32>, group: Option<u32>) -> bool {
        self.rt.give(&file.file, user, group)
    }

    fn try_lock(&self, file: &WatchedFile<'a, R>) -> bool {
        self.rt.try_lock(&file.file)
    }

    fn pass_over(&self, file: &mut WatchedFile<'a, R>, count: u64) -> io::Result<()> {
        self.line.count_read(self.rt, count);
        self.rt.pass_over(&mut file.file, count)
    }

    fn append_hole(&self, file: &mut WatchedFile<'a, R>, count: u64) -> io::Result<()> {
        self.line.count_written(self.rt, count);
        self.rt.append_hole(&mut file.file, count)
    }

    fn begin(&self, stage: Stage) {
        self.line.begin(self.rt, stage);
    }
}

impl<R: Files + Clock + Eprint> Drop for WatchedFile<'_, R> {
    fn drop(self) {
        self.host.line.end_reading(self.host.rt);
        let WatchedFile { file: _, host: _ } = self;
    }
}

impl<R: Files + Clock + Eprint> Read for WatchedFile<'_, R> {
    ghost remaining = { λ watched. R.File.remaining watched.file };

    fn read(&mut self, buf: &mut [u8]) -> io::Result<usize> {
        let result = self.file.read(buf);
        if let Ok(count) = result {
            self.host.line.count_read(self.host.rt, count as u64);
        }
        result
    }
}

impl<R: Files + Clock + Eprint> Write for WatchedFile<'_, R> {
    ghost contents = { λ watched. R.File.contents watched.file };

    fn write(&mut self, buf: &[u8]) -> io::Result<usize> {
        let result = self.file.write(&buf[..buf.len().min(PIECE)]);
        if let Ok(count) = result {
            self.host.line.count_written(self.host.rt, count as u64);
        }
        result
    }

    fn flush(&mut self) -> io::Result<()> {
        self.file.flush()
    }
}

impl<R: Files + Clock + Eprint> Seek for WatchedFile<'_, R> {
    fn seek(&mut self, to: SeekFrom) -> io::Result<u64> {
        self.file.seek(to)
    }
}

impl<R: Files + Clock + Eprint> OpenFile for WatchedFile<'_, R> {
    fn metadata(&self) -> io::Result<Metadata> {
        self.file.metadata()
    }

    fn set_len(&self, size: u64) -> io::Result<()> {
        self.file.set_len(size)
    }

    fn sync_all(&self) -> io::Result<()> {
        self.file.sync_all()
    }

    fn sync_data(&self) -> io::Result<()> {
        self.file.sync_data()
    }

    fn set_permissions(&self, permissions: Permissions) -> io::Result<()> {
        self.file.set_permissions(permissions)
    }

    fn set_times(&self, times: FileTimes) -> io::Result<()> {
        self.file.set_times(times)
    }
}
