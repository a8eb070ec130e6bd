//! Many calls on a new volume.
//!
//! calls DIRECTORIES NAMES create|write [image]
//!
//! Makes a volume of the seventh edition of 16,000 blocks, with DIRECTORIES directories and NAMES empty files in each. With
//! `write` it then writes one byte into each file. Prints the number of accepted calls or, with another word, the bytes of
//! the volume.
use crate::number;
use crate::queries::new_volume;
use crate::steps::{bytes_of, create, write};
use std::alloc::Global;
use vol_dir::Cred;
use vol_volume::{Bytes, Call, Volume};

/// The directories and files to make.
#[derive(Clone, Copy)]
pub(crate) struct Task {
    directories: u32,
    names: u32,
    writes: bool,
    prints_image: bool,
}

impl Task {
    /// Reads a task from words, the first of which is its name.
    pub(crate) fn read(words: &[String]) -> Option<Task> {
        Some(Task {
            directories: number(words, 1)?,
            names: number(words, 2)?,
            writes: words.get(3)?.as_str() == "write",
            prints_image: words.len() > 4,
        })
    }

    /// Makes the calls on a new volume, and returns the output, or `None` if a call is refused.
    pub(crate) fn run(self, alloc: Global) -> Option<Vec<u8>> {
        let mut volume = new_volume(alloc, 16_000, 1_300)?;
        self.make_calls(alloc, &mut volume)?;
        if self.prints_image {
            return Some(volume.unmount());
        }
        let line = format!(in alloc; "{} calls\n", volume.journal().len()).ok()?;
        Some(line.into_bytes())
    }

    /// Makes the calls on a volume. Returns `None` if one is refused.
    fn make_calls(self, alloc: Global, volume: &mut Volume) -> Option<()> {
        for d in 0..self.directories {
            accept(alloc, volume, mkdir(alloc, d)?)?;
            for n in 0..self.names {
                accept(alloc, volume, create(2, file_path(alloc, d, n)?))?;
            }
        }
        if self.writes {
            self.write_files(alloc, volume)?;
        }
        Some(())
    }

    /// Writes one byte into each file.
    fn write_files(self, alloc: Global, volume: &mut Volume) -> Option<()> {
        for d in 0..self.directories {
            for n in 0..self.names {
                accept(alloc, volume, write_file(alloc, d, n)?)?;
            }
        }
        Some(())
    }
}

/// Returns the call that makes directory number `d`.
fn mkdir(alloc: Global, d: u32) -> Option<Call> {
    let path = format!(in alloc; "/d{d}").ok()?;
    Some(Call::Mkdir {
        cred: Cred::ROOT,
        now: 1,
        path: Bytes::from_vec(path.into_bytes()),
        perm: 0o755,
    })
}

/// Returns the call that writes a byte into file number `n` of a directory.
fn write_file(alloc: Global, d: u32, n: u32) -> Option<Call> {
    Some(write(3, file_path(alloc, d, n)?, bytes_of(alloc, b"x")?))
}

/// Returns the path of file number `n` of a directory.
fn file_path(alloc: Global, d: u32, n: u32) -> Option<Bytes> {
    let path = format!(in alloc; "/d{d}/f{n}").ok()?;
    Some(Bytes::from_vec(path.into_bytes()))
}

/// Makes a call. Returns `None` if it is refused.
fn accept(alloc: Global, volume: &mut Volume, call: Call) -> Option<()> {
    volume.call(alloc, call).ok()?;
    Some(())
}
