//! Readers and writers for tests. They read or write in pieces, and one of their calls may fail. `FromRead` and `IntoWrite` make devices of them.
ghost use Rattle.std.specs.Prelude.{◌≡◌, ◌-◌, ◌<◌, Some, None, Ok, [], min, length, take, IfSome, IsErrAnd, IsOk, MatchResult};
ghost use Rattle.std.specs.IoError.{error_kind};
ghost use Rattle.std.specs.Io.{ReadsAtMost, WritesAtMost};
ghost use Rattle.std.specs.Io.KnownBytes.{ReadConsumes, WriteAppends};
ghost use Rattle.pdp_words.specs.Mishaps.{due, not_due};

use std::alloc::Global;
use std::io::{self, Error, ErrorKind, Read, Write};

/// A failure of one call, after `left` calls that succeed.
#[derive(Clone, Copy)]
pub struct Mishap<T> {
    pub left: u64,
    pub kind: Option<T>,
}

impl<T: Copy> Mishap<T> {
    // Counts one call, and returns the failure if it is this call that fails.
    fn at_this_call(&mut self) -> Option<T>
        ensures now { result ≡ due self.old.left self.old.kind }
        ensures later { self.new.kind ≡ not_due self.old.left self.old.kind }
        ensures left { self.new.left ≡ self.old.left - 1 }
    {
        if self.left == 0 {
            return self.kind.take();
        }
        self.left -= 1;
        None
    }
}

/// A reader that returns at most `piece` bytes per read.
#[derive(Drop)]
pub struct ScriptedReader<'a> {
    /// The bytes left to read.
    pub rest: &'a [u8],
    /// The greatest number of bytes per read, one or more.
    pub piece: usize,
    /// The error that one read returns.
    pub mishap: Mishap<ErrorKind>,
    pub ghost moves: { 0 < piece },
}

impl<'a> ScriptedReader<'a> {
    /// Returns a reader of `bytes` whose reads all succeed.
    pub fn new(bytes: &'a [u8], piece: usize) -> ScriptedReader<'a>
        requires { 0 < piece }
        ensures bytes { result.rest.now ≡ bytes.now }
        ensures piece { result.piece ≡ piece }
        ensures mishap { result.mishap.kind ≡ None }
    {
        ScriptedReader {
            rest: bytes,
            piece,
            mishap: Mishap {
                left: 0,
                kind: None,
            },
        }
    }

    /// Makes read number `at`, counted from 0, return an error of this kind.
    pub fn failing_at(self, at: u64, kind: ErrorKind) -> ScriptedReader<'a>
        ensures bytes { result.rest.now ≡ self.entry.rest.now }
        ensures piece { result.piece ≡ self.entry.piece }
        ensures at { result.mishap.left ≡ at }
        ensures kind { result.mishap.kind ≡ Some kind }
    {
        ScriptedReader {
            rest: self.rest,
            piece: self.piece,
            mishap: Mishap {
                left: at,
                kind: Some(kind),
            },
        }
    }
}

impl<'a> Read for ScriptedReader<'a> {
    ghost remaining = { λ reader. Some reader.rest.now };

    fn read(&mut self, buf: &mut [u8]) -> io::Result<usize>
        ensures bound { ReadsAtMost result buf.new }
        ensures bytes { ReadConsumes (Some self.old.rest.now) (Some self.new.rest.now) result buf.new }
        ensures work { due self.old.mishap.left self.old.mishap.kind ≡ None
            → result ≡ Ok (min self.old.piece (min (length buf.old) (length self.old.rest.now))) }
        ensures mishap { IfSome (due self.old.mishap.left self.old.mishap.kind)
            (λ kind. IsErrAnd result (λ e. error_kind e ≡ kind)) }
        ensures later { self.new.mishap.kind ≡ not_due self.old.mishap.left self.old.mishap.kind }
        ensures left { self.new.mishap.left ≡ self.old.mishap.left - 1 }
        ensures piece { self.new.piece ≡ self.old.piece }
    {
        if let Some(kind) = self.mishap.at_this_call() {
            return Err(Error::from(kind));
        }
        let count = self.piece.min(buf.len()).min(self.rest.len());
        buf[..count].copy_from_slice(&self.rest[..count]);
        self.rest = &self.rest[count..];
        Ok(count)
    }
}

/// The failure of one write.
#[derive(Clone, Copy)]
pub enum WriteMishap {
    /// The write returns an error of this kind.
    Error(ErrorKind),
    /// The write returns 0.
    TakesNone,
}

/// A writer that accepts at most `piece` bytes per write.
#[derive(Drop)]
pub struct ScriptedWriter {
    /// The bytes written so far.
    pub taken: Vec<u8>,
    /// The greatest number of bytes per write, one or more.
    pub piece: usize,
    /// The failure of one write.
    pub mishap: Mishap<WriteMishap>,
    pub ghost moves: { 0 < piece },
}

impl ScriptedWriter {
    /// Returns an empty writer whose writes all succeed. It takes memory as it is written to; if memory runs out, the write returns an error.
    pub fn new(alloc: Global, piece: usize) -> ScriptedWriter
        requires { 0 < piece }
        ensures taken { result.taken.items ≡ [] }
        ensures piece { result.piece ≡ piece }
        ensures mishap { result.mishap.kind ≡ None }
    {
        ScriptedWriter {
            taken: Vec::new(alloc),
            piece,
            mishap: Mishap {
                left: 0,
                kind: None,
            },
        }
    }

    /// Makes write number `at`, counted from 0, fail as `kind`.
    pub fn failing_at(self, at: u64, kind: WriteMishap) -> ScriptedWriter
        ensures taken { result.taken ≡ self.taken }
        ensures piece { result.piece ≡ self.piece }
        ensures at { result.mishap.left ≡ at }
        ensures kind { result.mishap.kind ≡ Some kind }
    {
        ScriptedWriter {
            taken: self.taken,
            piece: self.piece,
            mishap: Mishap {
                left: at,
                kind: Some(kind),
            },
        }
    }
}

impl Write for ScriptedWriter {
    ghost use Rattle.pdp_words.specs.Mishaps.{IsWriteGoneWrong};

    ghost contents = { λ writer. Some writer.taken.items };

    fn write(&mut self, buf: &[u8]) -> io::Result<usize>
        ensures bound { WritesAtMost result buf.now }
        ensures bytes { WriteAppends (Some self.old.taken.items) (Some self.new.taken.items) result buf.now }
        ensures work { due self.old.mishap.left self.old.mishap.kind ≡ None
            → MatchResult result (λ n. n ≡ min self.old.piece (length buf.now)) (λ e. error_kind e ≡ ErrorKind.OutOfMemory) }
        ensures mishap { IfSome (due self.old.mishap.left self.old.mishap.kind)
            (λ kind. IsWriteGoneWrong kind result) }
        ensures later { self.new.mishap.kind ≡ not_due self.old.mishap.left self.old.mishap.kind }
        ensures left { self.new.mishap.left ≡ self.old.mishap.left - 1 }
        ensures piece { self.new.piece ≡ self.old.piece }
    {
        match self.mishap.at_this_call() {
            None => {}
            Some(WriteMishap::Error(kind)) => return Err(Error::from(kind)),
            Some(WriteMishap::TakesNone) => return Ok(0),
        }
        let count = self.piece.min(buf.len());
        self.taken.extend_from_slice(&buf[..count])?;
        Ok(count)
    }

    fn flush(&mut self) -> io::Result<()>
        ensures ok { IsOk result }
        ensures kept { self.new ≡ self.old }
    {
        Ok(())
    }
}
