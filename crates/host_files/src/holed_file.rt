//! A new file of the host that keeps the holes of the file that it replaces.
ghost use Rattle.std.specs.Prelude.{◌≡◌, false};
ghost use Rattle.std.specs.Option.{is_some};

use crate::holes::{HoleSink, SinkFailed};
use crate::system::ImageFiles;
use pdp_words::{Sink, write_uninterrupted};
use std::io;

/// A new file that bytes are appended to, zeros as holes if it may have holes.
#[derive(Drop)]
pub(crate) struct HoledFile<'a, R: ImageFiles> {
    rt: &'a R,
    file: R::File,
    has_holes: bool,
    error: Option<io::Error>,
}

impl<'a, R: ImageFiles> HoledFile<'a, R> {
    /// Returns a sink into an open file, after the bytes that it holds. The sink hasn't failed.
    pub(crate) fn new(rt: &'a R, file: R::File, has_holes: bool) -> HoledFile<'a, R>
        ensures bytes { ⟦<HoledFile<'a, R> as Sink>⟧.contents result ≡ R.File.contents file }
        ensures fresh { ⟦<HoledFile<'a, R> as Sink>⟧.failed result ≡ false }
    {
        HoledFile {
            rt,
            file,
            has_holes,
            error: None,
        }
    }

    /// Returns the file, with the bytes that it holds.
    pub(crate) fn into_inner(self) -> R::File
        ensures { R.File.contents result ≡ ⟦<HoledFile<'a, R> as Sink>⟧.contents self.entry }
    {
        self.file
    }

    /// Returns the system's last error, if it had one.
    pub(crate) fn error(&self) -> Option<io::Error> {
        self.error
    }
}

impl<R: ImageFiles> Sink for HoledFile<'_, R> {
    ghost contents = { λ sink. R.File.contents sink.file };

    ghost failed = { λ sink. is_some sink.error };

    fn write(&mut self, buf: &[u8]) -> io::Result<usize> {
        let result = write_uninterrupted(&mut self.file, buf);
        if let Err(error) = result {
            self.error = Some(error);
        }
        result
    }

    fn failed(&self) -> bool {
        self.error.is_some()
    }
}

impl<R: ImageFiles> HoleSink for HoledFile<'_, R> {
    fn has_holes(&self) -> bool {
        self.has_holes
    }

    fn append_zeros(&mut self, zeros: &[u8]) -> Result<(), SinkFailed> {
        let result = self.rt.append_hole(&mut self.file, zeros.len() as u64);
        if let Err(error) = result {
            self.error = Some(error);
            return Err(SinkFailed);
        }
        Ok(())
    }
}
