//! Requests.
ghost use Rattle.std.specs.Prelude.{◌≡◌, ◌+◌, ◌≤◌, length, IfSome};
ghost use Rattle.fuse_words.specs.Requests.{number, header_of, request_of, wants_reply};

use crate::opcode::{BATCH_FORGET, FORGET, INTERRUPT, NOTIFY_REPLY};
use crate::operation::{Operation, read_operation};
use byteorder::{ByteOrder, LittleEndian};

/// The node of the root directory.
pub const ROOT: u64 = 1;

/// The number of bytes in a request's header (`fuse_in_header`).
pub const HEADER: usize = 40;

/// The header of a request.
#[derive(Clone, Copy)]
pub struct Header {
    /// The number of bytes in the request, including its header.
    pub length: u32,
    /// The number of the operation.
    pub opcode: u32,
    /// The number of the request, which is repeated in its reply.
    pub unique: u64,
    /// The node that the request is for.
    pub node: u64,
    /// The user.
    pub uid: u32,
    /// The user's group.
    pub gid: u32,
    /// The process.
    pub pid: u32,
}

/// A request.
#[derive(Drop)]
pub struct Request<'a> {
    /// Its header.
    pub header: Header,
    /// Its operation.
    pub operation: Operation<'a>,
}

/// The reason why bytes aren't a request.
#[derive(Clone, Copy)]
pub enum RequestFault {
    /// There are fewer bytes than a header has.
    NoHeader,
    /// There are fewer or more bytes than the length in the header.
    Length(Header),
    /// The body is shorter than the operation's struct, or the struct isn't followed by the operation's names, each with a NUL, or by as many bytes
    /// as WRITE's size field counts.
    Body(Header),
}

impl Header {
    /// True if the kernel waits for a reply.
    pub fn wants_reply(&self) -> bool
        ensures { result ≡ wants_reply self.now.opcode }
    {
        !matches!(
            self.opcode,
            FORGET | INTERRUPT | NOTIFY_REPLY | BATCH_FORGET
        )
    }
}

/// Reads a request's header. Returns `None` if there are fewer bytes than a header has. The bytes after the request don't matter.
#[tactic(auto, unfolding(crate::specs::Requests::header_of))]
pub fn read_header(bytes: &[u8]) -> Option<Header>
    ensures exact { result ≡ header_of bytes.now }
    ensures room { IfSome result (λ _. 40 ≤ length bytes.now) }
{
    if bytes.len() < HEADER {
        return None;
    }
    Some(Header {
        length: u32_at(bytes, 0),
        opcode: u32_at(bytes, 4),
        unique: u64_at(bytes, 8),
        node: u64_at(bytes, 16),
        uid: u32_at(bytes, 24),
        gid: u32_at(bytes, 28),
        pid: u32_at(bytes, 32),
    })
}

/// Reads a request, which must take up all the bytes. Costs the length of its name.
pub fn read_request(bytes: &[u8]) -> Result<Request<'_>, RequestFault>
    ensures { result ≡ request_of bytes.now }
{
    let Some(header) = read_header(bytes) else {
        return Err(RequestFault::NoHeader);
    };
    if header.length as usize != bytes.len() {
        return Err(RequestFault::Length(header));
    }
    match read_operation(header.opcode, &bytes[HEADER..]) {
        Some(operation) => Ok(Request { header, operation }),
        None => Err(RequestFault::Body(header)),
    }
}

/// Returns the 32-bit number at byte `at`.
pub(crate) fn u32_at(bytes: &[u8], at: usize) -> u32
    requires { at + 4 ≤ length bytes.now }
    ensures { result ≡ number 4 at bytes.now }
{
    LittleEndian::read_u32(&bytes[at..])
}

/// Returns the 64-bit number at byte `at`.
pub(crate) fn u64_at(bytes: &[u8], at: usize) -> u64
    requires { at + 8 ≤ length bytes.now }
    ensures { result ≡ number 8 at bytes.now }
{
    LittleEndian::read_u64(&bytes[at..])
}
