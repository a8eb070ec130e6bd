//! The reply to one request.
ghost use Rattle.std.specs.Prelude.{◌≡◌, if◌then◌else◌, Some, None, Ok, Err, MatchResult};
ghost use Rattle.vol_serve.specs.Answers.{reply_to, waited_for, operation_reply, served_reply, init_reply, number_at, is_change};
ghost use Rattle.vol_serve.specs.Errno.{errno};
ghost use Rattle.fuse_words.specs.Replies.{status_message};

use crate::errno::{RequestRefusal, errno};
use crate::memory::Room;
use crate::node_numbers::i_number;
use crate::node_replies::reply_of_node;
use crate::nodes::NodeFault;
use crate::served::Served;
use fuse_words::{
    ASYNC_READ, Header, MOST_DATA, Operation, Request, RequestFault, Settings, read_request,
};

/// Puts the reply to a request into `room`; returns false if none is sent.
pub(crate) fn answer(served: &Served<'_>, request: &[u8], room: &mut Room) -> bool
    ensures { reply_to served.now.geometry.now served.now.image.now request.now ≡ (if result then Some room.new.reply else None) }
{
    match read_request(request) {
        Ok(request) => answer_request(served, request, room),
        Err(RequestFault::NoHeader) => false,
        Err(RequestFault::Length(header) | RequestFault::Body(header)) => {
            refuse(&header, RequestRefusal::Malformed, room);
            header.wants_reply()
        }
    }
}

/// Puts the reply to a well-formed request into `room`; returns false if the kernel waits for none.
fn answer_request(served: &Served<'_>, request: Request<'_>, room: &mut Room) -> bool
    ensures { waited_for request.entry.header (operation_reply served.now.geometry.now served.now.image.now request.entry.header request.entry.operation)
        ≡ (if result then Some room.new.reply else None) }
{
    let Request { header, operation } = request;
    if !header.wants_reply() {
        return false;
    }
    if let Err(refusal) = put_reply(served, &header, operation, room) {
        refuse(&header, refusal, room);
    }
    true
}

/// Puts the reply for a refusal into `room`.
fn refuse(header: &Header, refusal: RequestRefusal, room: &mut Room)
    ensures { room.new.reply ≡ status_message header.now.unique (errno refusal) }
{
    room.reply.put_status(header.unique, errno(refusal));
}

/// Puts the reply to an operation into `room`, unless the operation is refused, as any change of the volume is.
fn put_reply(
    served: &Served<'_>,
    header: &Header,
    operation: Operation<'_>,
    room: &mut Room,
) -> Result<(), RequestRefusal>
    ensures { MatchResult result
        (λ _. operation_reply served.now.geometry.now served.now.image.now header.now operation.entry ≡ Ok room.new.reply)
        (λ refusal. operation_reply served.now.geometry.now served.now.image.now header.now operation.entry ≡ Err refusal) }
{
    if is_change(header.opcode) {
        return Err(RequestRefusal::ReadOnly);
    }
    put_served(served, header, operation, room)
}

/// Puts the reply to an operation that changes nothing into `room`, unless it is refused.
#[tactic(auto, unfolding(crate::specs::Answers::served_reply))]
fn put_served(
    served: &Served<'_>,
    header: &Header,
    operation: Operation<'_>,
    room: &mut Room,
) -> Result<(), RequestRefusal>
    ensures { MatchResult result
        (λ _. served_reply served.now.geometry.now served.now.image.now header.now operation.entry ≡ Ok room.new.reply)
        (λ refusal. served_reply served.now.geometry.now served.now.image.now header.now operation.entry ≡ Err refusal) }
{
    let unique = header.unique;
    match operation {
        Operation::Init {
            major,
            max_readahead,
            flags,
            ..
        } => put_init(unique, major, max_readahead, flags, room)?,
        Operation::StatFs => room.reply.put_statfs(unique, served.sizes),
        Operation::Destroy | Operation::Release { .. } | Operation::ReleaseDir { .. } => {
            room.reply.put_status(unique, 0)
        }
        Operation::Other(_) => return Err(RequestRefusal::Unserved),
        operation => {
            let i = number_at(served, header.node)?;
            reply_of_node(served, unique, i, operation, room)?
        }
    }
    Ok(())
}

/// Returns the i-number of the node that a request names. Returns `Stale` if the node can't be one of the volume's.
fn number_at(served: &Served<'_>, node: u64) -> Result<u16, NodeFault>
    ensures { result ≡ number_at served.now.geometry.now.edition node }
{
    i_number(served.geometry.edition, node).ok_or(NodeFault::Stale)
}

/// Puts the reply to INIT into `room`. A kernel above version 7 reads only our version from it, and sends INIT again.
fn put_init(
    unique: u64,
    major: u32,
    max_readahead: u32,
    flags: u32,
    room: &mut Room,
) -> Result<(), RequestRefusal>
    ensures { MatchResult result
        (λ _. init_reply unique major max_readahead flags ≡ Ok room.new.reply)
        (λ refusal. init_reply unique major max_readahead flags ≡ Err refusal) }
{
    if major < 7 {
        return Err(RequestRefusal::Version);
    }
    let settings = Settings {
        max_readahead,
        flags: flags & ASYNC_READ,
        max_background: 12,
        congestion_threshold: 9,
        max_write: MOST_DATA as u32,
        time_granularity: 1_000_000_000,
        max_pages: 0,
    };
    room.reply.put_init(unique, &settings);
    Ok(())
}

/// True if an operation would change the volume: SETATTR, SYMLINK, MKNOD to LINK, WRITE, CREATE, FALLOCATE, RENAME2 or
/// COPY_FILE_RANGE.
fn is_change(opcode: u32) -> bool
    ensures { result ≡ is_change opcode }
{
    matches!(opcode, 4 | 6 | 8..=13 | 16 | 35 | 43 | 45 | 47)
}
