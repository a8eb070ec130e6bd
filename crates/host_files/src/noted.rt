//! A device that keeps the system's reason for a failure.
ghost use Rattle.std.specs.Prelude.{◌≡◌, false};

use pdp_words::{FromRead, IntoWrite, Sink, Source};
use std::io::{self, Read, Write};

/// A source or a sink that forwards to another one, and keeps its last error.
#[derive(Drop)]
pub struct Noted<D> {
    device: D,
    error: Option<io::Error>,
}

/// Returns a source of the bytes that `reader` has left, as [`FromRead::new`] does. The source hasn't failed.
pub fn noted_reader<R: Read>(reader: R) -> Noted<FromRead<R>>
    ensures bytes { ⟦<Noted<FromRead<R>> as Source>⟧.remaining result ≡ R.remaining reader }
    ensures fresh { ⟦<Noted<FromRead<R>> as Source>⟧.failed result ≡ false }
{
    Noted {
        device: FromRead::new(reader),
        error: None,
    }
}

/// Returns a sink into `writer`, after the bytes that it holds, as [`IntoWrite::new`] does. The sink hasn't failed.
pub fn noted_writer<W: Write>(writer: W) -> Noted<IntoWrite<W>>
    ensures bytes { ⟦<Noted<IntoWrite<W>> as Sink>⟧.contents result ≡ W.contents writer }
    ensures fresh { ⟦<Noted<IntoWrite<W>> as Sink>⟧.failed result ≡ false }
{
    Noted {
        device: IntoWrite::new(writer),
        error: None,
    }
}

impl<D> Noted<D> {
    /// Returns the device.
    pub fn into_inner(self) -> D
        ensures { result ≡ self.device }
    {
        self.device
    }

    /// Returns the device's last error, if it had one.
    pub fn error(&self) -> Option<io::Error> {
        self.error
    }
}

impl<D: Source> Source for Noted<D> {
    ghost remaining = { λ noted. D.remaining noted.device };

    ghost failed = { λ noted. D.failed noted.device };

    fn read(&mut self, buf: &mut [u8]) -> io::Result<usize> {
        let result = self.device.read(buf);
        if let Err(error) = result {
            self.error = Some(error);
        }
        result
    }

    fn failed(&self) -> bool {
        self.device.failed()
    }
}

impl<D: Sink> Sink for Noted<D> {
    ghost contents = { λ noted. D.contents noted.device };

    ghost failed = { λ noted. D.failed noted.device };

    fn write(&mut self, buf: &[u8]) -> io::Result<usize> {
        let result = self.device.write(buf);
        if let Err(error) = result {
            self.error = Some(error);
        }
        result
    }

    fn failed(&self) -> bool {
        self.device.failed()
    }
}
