//! A source made from a reader of the standard library.
ghost use Rattle.std.specs.Prelude.{◌≡◌, ◌≢◌, false, IfErr};
ghost use Rattle.std.specs.IoError.{error_kind};
ghost use Rattle.std.specs.Io.{ReadsAtMost};
ghost use Rattle.std.specs.Io.KnownBytes.{ReadConsumes};
ghost use Rattle.pdp_words.specs.Adapters.{reader_in, has_read_failed};

use crate::device::Source;
use std::io::{self, Error, ErrorKind, Read};

/// A source that returns a reader's bytes. A read that a signal interrupts is retried; after 2^64 - 1 interrupts the call returns `TimedOut`, so that
/// every call ends. To only borrow a reader, use `FromRead::new(&mut reader)`.
#[derive(Drop)]
pub struct FromRead<R> {
    reader: R,
    failed: bool,
}

impl<R: Read> FromRead<R> {
    /// Returns a source of the bytes that `reader` has left, with `failed` false.
    pub fn new(reader: R) -> FromRead<R>
        ensures reader { reader_in result ≡ reader }
        ensures bytes { ⟦<FromRead<R> as Source>⟧.remaining result ≡ R.remaining reader }
        ensures fresh { ⟦<FromRead<R> as Source>⟧.failed result ≡ false }
    {
        FromRead {
            reader,
            failed: false,
        }
    }

    /// Returns the reader, with the bytes that it has left.
    pub fn into_inner(self) -> R
        ensures reader { result ≡ reader_in self }
        ensures bytes { R.remaining result ≡ ⟦<FromRead<R> as Source>⟧.remaining self }
    {
        self.reader
    }
}

impl<R: Read> Source for FromRead<R> {
    ghost remaining = { λ source. R.remaining (reader_in source) };

    ghost failed = { has_read_failed };

    fn read(&mut self, buf: &mut [u8]) -> io::Result<usize> {
        let result = read_uninterrupted(&mut self.reader, buf);
        if result.is_err() {
            self.failed = true;
        }
        result
    }

    fn failed(&self) -> bool {
        self.failed
    }
}

// Reads once, and again if a signal interrupts the read.
fn read_uninterrupted<R: Read>(reader: &mut R, buf: &mut [u8]) -> io::Result<usize>
    ensures bound { ReadsAtMost result buf.new }
    ensures bytes { ReadConsumes (R.remaining reader.old) (R.remaining reader.new) result buf.new }
    ensures retried { IfErr result (λ e. error_kind e ≢ ErrorKind.Interrupted) }
{
    'tries: for _ in 0..u64::MAX {
        match reader.read(buf) {
            Ok(count) => return Ok(count),
            Err(error) if error.kind() != ErrorKind::Interrupted => return Err(error),
            Err(_) => {}
        }
    }
    Err(Error::from(ErrorKind::TimedOut))
}
