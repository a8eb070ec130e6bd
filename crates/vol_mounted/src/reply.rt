//! The replies to requests, after their calls.
ghost use Rattle.std.specs.Prelude.{◌≡◌};
ghost use Rattle.vol_layout.specs.declared.mode.Kind.{Kind};
ghost use Rattle.vol_mounted.specs.Replies.{refusal_of, shown, init_reply, open_by, open_directory_by, count_of};
ghost use Rattle.vol_mounted.specs.Refusals.{Puts};

use crate::owner::Owner;
use crate::refusal::MountedRefusal;
use crate::scene::Scene;
use fuse_words::{
    ASYNC_READ, Attributes, BIG_WRITES, CACHE_DIRECTORY, EntryReply, Header, KEEP_CACHE, MOST_DATA,
    Operation, SYMLINK, Settings,
};
use vol_layout::Kind;
use vol_serve::attributes::node_attributes;
use vol_serve::errno::RequestRefusal;
use vol_serve::memory::Room;
use vol_serve::node_replies::{put_bytes, put_listing};
use vol_serve::nodes::{NodeFault, look_up};
use vol_serve::statistics::statistics;

/// The number of seconds for which the kernel may keep names and attributes: an hour. Nobody else changes the volume.
const SECONDS: u64 = 3600;

impl Scene<'_> {
    ghost use Rattle.std.specs.Prelude.{◌≡◌};
    ghost use Rattle.vol_mounted.specs.Refusals.{Puts};
    ghost use Rattle.vol_mounted.specs.Replies.{shown_at, entry_reply, attributes_reply, node_reply, reply_of};
    ghost use Rattle.vol_mounted.specs.Scenes.{sight_of};

    /// Returns the attributes of node `i` as they are shown.
    fn attributes(&self, i: u16) -> Result<Attributes, MountedRefusal>
        ensures { result ≡ shown_at (sight_of self.now) i }
    {
        let attributes = node_attributes(self.volume.image(), self.geometry, i)?;
        Ok(shown(self.owner, attributes))
    }

    /// Puts the entry of a name in directory `dir` into `room`.
    fn put_entry(
        &self,
        unique: u64,
        dir: u16,
        name: &[u8],
        room: &mut Room,
    ) -> Result<(), MountedRefusal>
        ensures { Puts (entry_reply (sight_of self.now) unique dir name.now) result room.new.reply }
    {
        let i = look_up(self.volume.image(), self.geometry, dir, name)?;
        let attributes = self.attributes(i)?;
        let entry = EntryReply {
            node: self.nodes.node_number(self.geometry.edition, i),
            generation: 0,
            name_seconds: SECONDS,
            attribute_seconds: SECONDS,
            attributes,
        };
        room.reply.put_entry(unique, &entry);
        Ok(())
    }

    /// Puts the attributes of node `i` into `room`.
    fn put_attributes(&self, unique: u64, i: u16, room: &mut Room) -> Result<(), MountedRefusal>
        ensures { Puts (attributes_reply (sight_of self.now) unique i) result room.new.reply }
    {
        let attributes = self.attributes(i)?;
        room.reply.put_attributes(unique, SECONDS, &attributes);
        Ok(())
    }

    /// Puts the reply to an operation into `room`, after its calls. Takes memory only for STATFS.
    #[tactic(auto, unfolding(crate::specs::Replies::reply_of))]
    pub(crate) fn put_reply(
        &self,
        header: &Header,
        operation: &Operation<'_>,
        room: &mut Room,
    ) -> Result<(), MountedRefusal>
        ensures { Puts (reply_of (sight_of self.now) header.now operation.now) result room.new.reply }
    {
        let unique = header.unique;
        match operation {
            Operation::Init {
                major,
                max_readahead,
                flags,
                ..
            } => put_init(unique, *major, *max_readahead, *flags, room),
            Operation::StatFs => {
                let sizes = statistics(self.alloc, self.volume.image(), self.geometry)?;
                room.reply.put_statfs(unique, &sizes);
                Ok(())
            }
            Operation::Destroy
            | Operation::Release { .. }
            | Operation::ReleaseDir { .. }
            | Operation::Fsync { .. }
            | Operation::FsyncDir { .. } => {
                room.reply.put_status(unique, 0);
                Ok(())
            }
            Operation::Other(opcode) => Err(unserved(*opcode)),
            operation => {
                let i = self.number(header.node)?;
                self.put_node_reply(unique, i, operation, room)
            }
        }
    }

    /// Puts the reply to an operation on node `i` into `room`.
    #[tactic(auto, unfolding(crate::specs::Replies::node_reply))]
    fn put_node_reply(
        &self,
        unique: u64,
        i: u16,
        operation: &Operation<'_>,
        room: &mut Room,
    ) -> Result<(), MountedRefusal>
        ensures { Puts (node_reply (sight_of self.now) unique i operation.now) result room.new.reply }
    {
        match operation {
            Operation::Lookup { name }
            | Operation::MkNod { name, .. }
            | Operation::MkDir { name, .. }
            | Operation::Link { name, .. } => self.put_entry(unique, i, name.as_slice(), room),
            Operation::GetAttr | Operation::SetAttr { .. } => self.put_attributes(unique, i, room),
            Operation::Open { .. } => put_open(self.stat(i)?.kind, unique, room),
            Operation::OpenDir => put_open_directory(self.stat(i)?.kind, unique, room),
            Operation::Read { offset, size, .. } => Ok(put_bytes(
                self.volume.image(),
                self.geometry,
                unique,
                i,
                *offset,
                *size,
                room,
            )?),
            Operation::ReadDir { offset, size, .. } => Ok(put_listing(
                self.volume.image(),
                self.geometry,
                unique,
                i,
                *offset,
                *size,
                room,
            )?),
            Operation::Write { content, .. } => {
                room.reply.put_written(unique, count_of(content.as_slice()));
                Ok(())
            }
            Operation::Unlink { .. }
            | Operation::RmDir { .. }
            | Operation::Rename { .. }
            | Operation::Rename2 { .. } => {
                room.reply.put_status(unique, 0);
                Ok(())
            }
            _ => Err(MountedRefusal::Request(RequestRefusal::Unserved)),
        }
    }
}

/// Returns attributes as they are shown: if all nodes are shown as one user's, with that user and group.
fn shown(owner: Option<Owner>, attributes: Attributes) -> Attributes
    ensures { result ≡ shown owner attributes }
{
    match owner {
        None => attributes,
        Some(owner) => Attributes {
            uid: owner.uid,
            gid: owner.gid,
            ..attributes
        },
    }
}

/// Puts the reply to OPEN of a node of some kind into `room`.
fn put_open(kind: Kind, unique: u64, room: &mut Room) -> Result<(), MountedRefusal>
    ensures { Puts (open_by kind unique) result room.new.reply }
{
    match kind {
        Kind::Regular => {
            room.reply.put_open(unique, 0, KEEP_CACHE);
            Ok(())
        }
        _ => Err(MountedRefusal::from(NodeFault::NotRegular)),
    }
}

/// Puts the reply to OPENDIR of a node of some kind into `room`.
fn put_open_directory(kind: Kind, unique: u64, room: &mut Room) -> Result<(), MountedRefusal>
    ensures { Puts (open_directory_by kind unique) result room.new.reply }
{
    match kind {
        Kind::Directory => {
            room.reply.put_open(unique, 0, KEEP_CACHE | CACHE_DIRECTORY);
            Ok(())
        }
        _ => Err(MountedRefusal::from(NodeFault::NotDirectory)),
    }
}

/// Puts the reply to INIT into `room`. A kernel above version 7 reads only our version, and sends INIT again.
fn put_init(
    unique: u64,
    major: u32,
    max_readahead: u32,
    flags: u32,
    room: &mut Room,
) -> Result<(), MountedRefusal>
    ensures { Puts (init_reply unique major max_readahead flags) result room.new.reply }
{
    if major < 7 {
        return Err(MountedRefusal::Request(RequestRefusal::Version));
    }
    let settings = Settings {
        max_readahead,
        flags: flags & (ASYNC_READ | BIG_WRITES),
        max_background: 12,
        congestion_threshold: 9,
        max_write: MOST_DATA as u32,
        time_granularity: 1_000_000_000,
        max_pages: 0,
    };
    room.reply.put_init(unique, &settings);
    Ok(())
}

/// Returns the refusal of an operation that isn't served. A symbolic link can't be made.
fn unserved(opcode: u32) -> MountedRefusal
    ensures { result ≡ refusal_of opcode }
{
    if opcode == SYMLINK {
        MountedRefusal::NotPermitted
    } else {
        MountedRefusal::Request(RequestRefusal::Unserved)
    }
}

/// Returns the number of bytes that were written, for the reply to WRITE.
pub(crate) fn count_of(bytes: &[u8]) -> u32
    ensures { result ≡ count_of bytes.now }
{
    u32::try_from(bytes.len()).unwrap_or(u32::MAX)
}
