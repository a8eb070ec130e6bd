//! Replies to requests for a node.
ghost use Rattle.std.specs.Prelude.{◌≡◌, Ok, Err, MatchResult};
ghost use Rattle.vol_layout.specs.Geometry.{Fits};
ghost use Rattle.vol_dir.specs.Tree.{tree};
ghost use Rattle.vol_serve.specs.Answers.{node_reply, lookup_reply, attributes_reply, open_reply, open_directory_reply, read_reply, listing_reply};

use crate::attributes::node_attributes;
use crate::errno::RequestRefusal;
use crate::listing::put_entries;
use crate::memory::Room;
use crate::node_numbers::node_number;
use crate::nodes::{NodeFault, look_up, read, stat};
use crate::served::Served;
use fuse_words::{CACHE_DIRECTORY, EntryReply, KEEP_CACHE, MOST_DATA, Operation};
use pdp_words::Image;
use vol_layout::{Geometry, Kind};

/// The number of seconds for which the kernel may keep names and attributes: an hour, as the image never changes.
const SECONDS: u64 = 3600;

/// Puts the reply to an operation on node `i` into `room`, unless the operation is refused.
#[tactic(auto, unfolding(crate::specs::Answers::node_reply))]
pub(crate) fn reply_of_node(
    served: &Served<'_>,
    unique: u64,
    i: u16,
    operation: Operation<'_>,
    room: &mut Room,
) -> Result<(), RequestRefusal>
    ensures { MatchResult result
        (λ _. node_reply served.now.geometry.now served.now.image.now unique i operation.entry ≡ Ok room.new.reply)
        (λ refusal. node_reply served.now.geometry.now served.now.image.now unique i operation.entry ≡ Err refusal) }
{
    match operation {
        Operation::Lookup { name } => put_looked_up(served, unique, i, name.into_slice(), room),
        Operation::GetAttr => put_attributes(served, unique, i, room),
        Operation::Open { flags } => put_opened(served, unique, i, flags, room),
        Operation::OpenDir => put_opened_directory(served, unique, i, room),
        Operation::Read { offset, size, .. } => put_bytes(
            served.image,
            served.geometry,
            unique,
            i,
            offset,
            size,
            room,
        ),
        Operation::ReadDir { offset, size, .. } => {
            put_listing(served.image, served.geometry, unique, i, offset, size, room)
        }
        _ => Err(RequestRefusal::Unserved),
    }
}

/// Puts the reply to LOOKUP into `room`.
fn put_looked_up(
    served: &Served<'_>,
    unique: u64,
    dir: u16,
    name: &[u8],
    room: &mut Room,
) -> Result<(), RequestRefusal>
    ensures { MatchResult result
        (λ _. lookup_reply served.now.geometry.now served.now.image.now unique dir name.now ≡ Ok room.new.reply)
        (λ refusal. lookup_reply served.now.geometry.now served.now.image.now unique dir name.now ≡ Err refusal) }
{
    let i = look_up(served.image, served.geometry, dir, name)?;
    let attributes = node_attributes(served.image, served.geometry, i)?;
    let entry = EntryReply {
        node: node_number(served.geometry.edition, i),
        generation: 0,
        name_seconds: SECONDS,
        attribute_seconds: SECONDS,
        attributes,
    };
    room.reply.put_entry(unique, &entry);
    Ok(())
}

/// Puts the reply to GETATTR into `room`.
fn put_attributes(
    served: &Served<'_>,
    unique: u64,
    i: u16,
    room: &mut Room,
) -> Result<(), RequestRefusal>
    ensures { MatchResult result
        (λ _. attributes_reply (tree served.now.geometry.now served.now.image.now) unique i ≡ Ok room.new.reply)
        (λ refusal. attributes_reply (tree served.now.geometry.now served.now.image.now) unique i ≡ Err refusal) }
{
    let attributes = node_attributes(served.image, served.geometry, i)?;
    room.reply.put_attributes(unique, SECONDS, &attributes);
    Ok(())
}

/// Puts the reply to OPEN into `room`.
fn put_opened(
    served: &Served<'_>,
    unique: u64,
    i: u16,
    flags: u32,
    room: &mut Room,
) -> Result<(), RequestRefusal>
    ensures { MatchResult result
        (λ _. open_reply (tree served.now.geometry.now served.now.image.now) unique i flags ≡ Ok room.new.reply)
        (λ refusal. open_reply (tree served.now.geometry.now served.now.image.now) unique i flags ≡ Err refusal) }
{
    let stat = stat(served.image, served.geometry, i).ok_or(NodeFault::Stale)?;
    match stat.kind {
        Kind::Regular if flags % 4 == 0 => {
            room.reply.put_open(unique, 0, KEEP_CACHE);
            Ok(())
        }
        Kind::Regular => Err(RequestRefusal::ReadOnly),
        _ => Err(RequestRefusal::Node(NodeFault::NotRegular)),
    }
}

/// Puts the reply to OPENDIR into `room`.
fn put_opened_directory(
    served: &Served<'_>,
    unique: u64,
    i: u16,
    room: &mut Room,
) -> Result<(), RequestRefusal>
    ensures { MatchResult result
        (λ _. open_directory_reply (tree served.now.geometry.now served.now.image.now) unique i ≡ Ok room.new.reply)
        (λ refusal. open_directory_reply (tree served.now.geometry.now served.now.image.now) unique i ≡ Err refusal) }
{
    let stat = stat(served.image, served.geometry, i).ok_or(NodeFault::Stale)?;
    match stat.kind {
        Kind::Directory => {
            room.reply.put_open(unique, 0, KEEP_CACHE | CACHE_DIRECTORY);
            Ok(())
        }
        _ => Err(RequestRefusal::Node(NodeFault::NotDirectory)),
    }
}

/// Puts the reply to READ into `room`.
pub fn put_bytes(
    image: &Image,
    geometry: &Geometry,
    unique: u64,
    i: u16,
    offset: u64,
    size: u32,
    room: &mut Room,
) -> Result<(), RequestRefusal>
    requires { Fits geometry.now image.now }
    ensures { MatchResult result
        (λ _. read_reply (tree geometry.now image.now) unique i offset size ≡ Ok room.new.reply)
        (λ refusal. read_reply (tree geometry.now image.now) unique i offset size ≡ Err refusal) }
{
    let size = MOST_DATA.min(size as usize);
    // There is room, so this cannot fail.
    let _ = room.content.resize(size, 0);
    let count = read(image, geometry, i, offset, &mut room.content)?;
    room.reply.put_data(unique, &room.content[..count]);
    Ok(())
}

/// Puts the reply to READDIR into `room`.
pub fn put_listing(
    image: &Image,
    geometry: &Geometry,
    unique: u64,
    dir: u16,
    offset: u64,
    size: u32,
    room: &mut Room,
) -> Result<(), RequestRefusal>
    requires { Fits geometry.now image.now }
    ensures { MatchResult result
        (λ _. listing_reply geometry.now image.now unique dir offset size ≡ Ok room.new.reply)
        (λ refusal. listing_reply geometry.now image.now unique dir offset size ≡ Err refusal) }
{
    let size = MOST_DATA.min(size as usize);
    put_entries(image, geometry, dir, offset, size, &mut room.content)?;
    room.reply.put_data(unique, &room.content);
    Ok(())
}
