//! Appends numbers and attributes to a list of bytes that has room for them.
ghost use Rattle.std.specs.Prelude.{◌≡◌, ◌+◌, ◌<◌, ◌≤◌, ◌^◌, ◌++◌, length, vec_len, vec_capacity};
ghost use Rattle.byteorder.specs.Endian.{little_bytes};
ghost use Rattle.fuse_words.specs.Replies.{reply_header, with_attributes};

use crate::reply::Attributes;
use byteorder::{ByteOrder, LittleEndian};

/// Replaces a list by the header of a successful reply whose body has `size` bytes (`fuse_out_header`).
#[tactic(auto, unfolding(crate::specs::Replies::reply_header))]
pub(crate) fn begin(out: &mut Vec<u8>, unique: u64, size: u32)
    requires size { size < 2 ^ 31 }
    requires room { 16 ≤ vec_capacity out.old }
    ensures items { out.new.items ≡ reply_header size unique }
    ensures len { vec_len out.new ≡ 16 }
    ensures capacity { vec_capacity out.old ≤ vec_capacity out.new }
{
    out.clear();
    push_u32(out, 16 + size);
    push_u32(out, 0);
    push_u64(out, unique);
}

/// Appends the attributes of a node (`fuse_attr`).
#[tactic(auto, unfolding(crate::specs::Replies::with_attributes))]
pub(crate) fn push_attributes(out: &mut Vec<u8>, attributes: &Attributes)
    requires { vec_len out.old + 88 ≤ vec_capacity out.old }
    ensures items { out.new.items ≡ with_attributes out.old.items attributes.now }
    ensures len { vec_len out.new ≡ vec_len out.old + 88 }
    ensures capacity { vec_capacity out.old ≤ vec_capacity out.new }
{
    push_u64(out, attributes.ino);
    push_u64(out, attributes.size);
    push_u64(out, attributes.blocks);
    push_u64(out, attributes.accessed);
    push_u64(out, attributes.modified);
    push_u64(out, attributes.changed);
    push_u32(out, 0);
    push_u32(out, 0);
    push_u32(out, 0);
    push_u32(out, attributes.mode);
    push_u32(out, attributes.links);
    push_u32(out, attributes.uid);
    push_u32(out, attributes.gid);
    push_u32(out, attributes.rdev);
    push_u32(out, attributes.block_size);
    push_u32(out, 0);
}

/// Appends a 16-bit number.
pub(crate) fn push_u16(out: &mut Vec<u8>, number: u16)
    requires { vec_len out.old + 2 ≤ vec_capacity out.old }
    ensures items { out.new.items ≡ out.old.items ++ little_bytes 2 number }
    ensures len { vec_len out.new ≡ vec_len out.old + 2 }
    ensures capacity { vec_capacity out.old ≤ vec_capacity out.new }
{
    let mut bytes = [0; 2];
    LittleEndian::write_u16(&mut bytes, number);
    push(out, &bytes);
}

/// Appends a 32-bit number.
pub(crate) fn push_u32(out: &mut Vec<u8>, number: u32)
    requires { vec_len out.old + 4 ≤ vec_capacity out.old }
    ensures items { out.new.items ≡ out.old.items ++ little_bytes 4 number }
    ensures len { vec_len out.new ≡ vec_len out.old + 4 }
    ensures capacity { vec_capacity out.old ≤ vec_capacity out.new }
{
    let mut bytes = [0; 4];
    LittleEndian::write_u32(&mut bytes, number);
    push(out, &bytes);
}

/// Appends a 64-bit number.
pub(crate) fn push_u64(out: &mut Vec<u8>, number: u64)
    requires { vec_len out.old + 8 ≤ vec_capacity out.old }
    ensures items { out.new.items ≡ out.old.items ++ little_bytes 8 number }
    ensures len { vec_len out.new ≡ vec_len out.old + 8 }
    ensures capacity { vec_capacity out.old ≤ vec_capacity out.new }
{
    let mut bytes = [0; 8];
    LittleEndian::write_u64(&mut bytes, number);
    push(out, &bytes);
}

/// Appends bytes.
pub(crate) fn push(out: &mut Vec<u8>, bytes: &[u8])
    requires { vec_len out.old + length bytes.now ≤ vec_capacity out.old }
    ensures items { out.new.items ≡ out.old.items ++ bytes.now }
    ensures len { vec_len out.new ≡ vec_len out.old + length bytes.now }
    ensures capacity { vec_capacity out.old ≤ vec_capacity out.new }
{
    // There is room, so this cannot fail.
    let _ = out.extend_from_slice(bytes);
}
