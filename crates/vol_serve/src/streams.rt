//! Requests from a reader and replies to a writer, such as /dev/fuse: each read returns one request, and each write sends one reply.
ghost use Rattle.std.specs.Prelude.{◌≡◌, ◌<◌, ◌≤◌, [], ◌∷◌, length, take, true, false, None, IfOk, IfErr, IfSome, IfNone, MatchBool, MatchOption, MatchResult};
ghost use Rattle.std.specs.Bool.{OnTrue, OnFalse};
ghost use Rattle.std.specs.Option.{IsSomeAnd};
ghost use Rattle.std.specs.Io.KnownBytes.{Keeps, Consumes, Appends, IsAtEnd};
ghost use Rattle.vol_serve.specs.Messages.{Grows};
ghost use Rattle.vol_serve.specs.Streams.{reader_in, has_reader_ended, read_fault, writer_in, is_withdrawn, has_writer_failed, write_fault, is_final, HasEnd};

use crate::messages::{Replies, Requests};
use std::io::{self, Error, ErrorKind, Read, Write};

/// A source of requests that reads them from a reader.
#[derive(Drop)]
pub struct RequestReader<R> {
    reader: R,
    ended: bool,
    fault: Option<Error>,
}

/// A destination of replies that writes them to a writer.
#[derive(Drop)]
pub struct ReplyWriter<W> {
    writer: W,
    // true if nobody waited for the last reply that was sent
    withdrawn: bool,
    failed: bool,
    fault: Option<Error>,
}

impl<R: Read + Drop> RequestReader<R> {
    /// Returns a source of requests from `reader`, one with each read.
    pub fn new(reader: R) -> RequestReader<R>
        ensures reader { reader_in result ≡ reader }
        ensures fresh { has_reader_ended result ≡ false }
        ensures fault { read_fault result ≡ None }
    {
        RequestReader {
            reader,
            ended: false,
            fault: None,
        }
    }

    /// Returns the error that ended the requests, or `None` at the end of the reader's bytes. Once the volume is unmounted, /dev/fuse returns the
    /// system's error 19 (ENODEV).
    pub fn into_fault(self) -> Option<Error>
        ensures { result ≡ read_fault self }
    {
        self.fault
    }
}

impl<W: Write + Drop> ReplyWriter<W> {
    /// Returns a destination that sends replies to `writer`, one with each write.
    pub fn new(writer: W) -> ReplyWriter<W>
        ensures writer { writer_in result ≡ writer }
        ensures fresh { has_writer_failed result ≡ false }
        ensures fault { write_fault result ≡ None }
    {
        ReplyWriter {
            writer,
            withdrawn: false,
            failed: false,
            fault: None,
        }
    }

    /// Returns the error of the failed write, if one failed.
    pub fn into_fault(self) -> Option<Error>
        ensures { result ≡ write_fault self }
    {
        self.fault
    }
}

impl<R: Read> Requests for RequestReader<R> {
    // the bytes that one read returns aren't known
    ghost taken = { λ reader. None };

    ghost has_ended = { has_reader_ended };

    fn take(&mut self, buffer: &mut [u8]) -> Option<usize>
        ensures bound { IfSome result (λ count. count ≤ length buffer.new) }
        ensures taken { MatchOption result (Grows None None []) (λ count. Grows None None (take count buffer.new ∷ [])) }
        ensures ended { IfNone result (has_reader_ended self.new ≡ true) }
        ensures end { IfNone result (HasEnd (R.remaining (reader_in self.new)) (length buffer.new) (read_fault self.new)) }
        ensures some { IfSome result (λ count. 0 < count) }
        ensures bytes { MatchOption result (Keeps (R.remaining (reader_in self.old)) (R.remaining (reader_in self.new)))
            (λ count. Consumes (R.remaining (reader_in self.old)) (R.remaining (reader_in self.new)) (take count buffer.new)) }
    {
        match read_request(&mut self.reader, buffer) {
            Ok(0) => {
                self.ended = true;
                self.fault = None;
                None
            }
            Ok(count) => Some(count),
            Err(fault) => {
                self.ended = true;
                self.fault = Some(fault);
                None
            }
        }
    }
}

impl<W: Write> Replies for ReplyWriter<W> {
    // the bytes that one write accepts aren't known
    ghost sent = { λ writer. None };

    ghost has_failed = { has_writer_failed };

    fn send(&mut self, reply: &[u8]) -> bool
        ensures sent { OnTrue result (Grows None None (reply.now ∷ [])) }
        ensures kept { OnFalse result (Grows None None []) }
        ensures failed { OnFalse result (has_writer_failed self.new ≡ true) }
        ensures final_fault { OnFalse result (IsSomeAnd (write_fault self.new) (λ fault. is_final fault ≡ true)) }
        ensures bytes { OnTrue result (MatchBool (is_withdrawn self.new)
            (Keeps (W.contents (writer_in self.old)) (W.contents (writer_in self.new)))
            (Appends (W.contents (writer_in self.old)) (W.contents (writer_in self.new)) reply.now)) }
    {
        match write_reply(&mut self.writer, reply) {
            Ok(withdrawn) => {
                self.withdrawn = withdrawn;
                true
            }
            Err(fault) => {
                self.failed = true;
                self.fault = Some(fault);
                false
            }
        }
    }
}

/// Reads one request, and returns its length in bytes, or 0 at the end. A read is repeated if a signal interrupted it, or if its request was
/// withdrawn meanwhile, which the system reports as NotFound. So neither ends the requests.
fn read_request<R: Read>(reader: &mut R, buffer: &mut [u8]) -> io::Result<usize>
    ensures bound { IfOk result (λ count. count ≤ length buffer.new) }
    ensures bytes { MatchResult result (λ count. Consumes (R.remaining reader.old) (R.remaining reader.new) (take count buffer.new))
        (λ _. Keeps (R.remaining reader.old) (R.remaining reader.new)) }
    ensures end { IfOk result (λ count. count ≡ 0 → 0 < length buffer.new → IsAtEnd (R.remaining reader.new)) }
    ensures final_fault { IfErr result (λ fault. is_final fault ≡ true) }
{
    'tries: for _ in 0..u64::MAX {
        match reader.read(buffer) {
            Ok(count) => return Ok(count),
            Err(fault) if is_final(&fault) => return Err(fault),
            Err(_) => {}
        }
    }
    Err(Error::from(ErrorKind::TimedOut))
}

/// Writes one reply with one write. A write that a signal interrupted is repeated. If the request was withdrawn meanwhile, which the system reports
/// as NotFound, nobody waits for the reply: the write counts as done, and the result is true. It is an error if a write accepts only a part of the
/// reply.
fn write_reply<W: Write>(writer: &mut W, reply: &[u8]) -> io::Result<bool>
    ensures bytes { IfOk result (λ withdrawn. MatchBool withdrawn (Keeps (W.contents writer.old) (W.contents writer.new))
        (Appends (W.contents writer.old) (W.contents writer.new) reply.now)) }
    ensures final_fault { IfErr result (λ fault. is_final fault ≡ true) }
{
    'tries: for _ in 0..u64::MAX {
        match writer.write(reply) {
            Ok(count) if count == reply.len() => return Ok(false),
            Ok(_) => return Err(Error::from(ErrorKind::WriteZero)),
            Err(fault) if is_final(&fault) => return Err(fault),
            Err(fault) if fault.kind() == ErrorKind::NotFound => return Ok(true),
            Err(_) => {}
        }
    }
    Err(Error::from(ErrorKind::TimedOut))
}

/// True if an error ends serving: any but that a signal interrupted a read or write, or that its request was withdrawn.
fn is_final(fault: &Error) -> bool
    ensures { result ≡ is_final fault.now }
{
    !matches!(fault.kind(), ErrorKind::Interrupted | ErrorKind::NotFound)
}
