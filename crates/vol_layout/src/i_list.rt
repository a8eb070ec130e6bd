//! The i-list: reading and writing the i-nodes of an image.
ghost use Rattle.std.specs.Prelude.{◌≡◌, ◌+◌, ◌*◌, ◌-◌, ◌≤◌, length, ℕ, ◌<◌, slice_index};
ghost use Rattle.pdp_words.specs.Words.{SameOutside, word, long, addr3};
ghost use Rattle.vol_layout.specs.Edition.{constants};
ghost use Rattle.vol_layout.specs.Geometry.{Fits};
ghost use Rattle.vol_layout.specs.BlockPointers.{mode_of};
ghost use Rattle.vol_layout.specs.Inode.{
  inode_place,
  inode_of,
  inode_at,
  addresses_at,
  address_at,
  address_count,
  address_offset,
  address_bytes,
  address_place,
  kind_of,
  size_at,
  size_bytes,
  size_place,
  IsStorable,
};

use crate::edition::Edition;
use crate::geometry::Geometry;
use crate::i_node::Inode;
use crate::mode::{Kind, Mode};
use pdp_words::Image;

/// The offsets of the fields of an i-node, in bytes. The mode is at offset 0.
#[derive(Clone, Copy)]
struct Offsets {
    links: usize,
    uid: usize,
    gid: usize,
    size: usize,
    addresses: usize,
    /// The offset of the times, a long each: the file's last read, its last write and, in the seventh edition, the i-node's last change.
    times: usize,
}

/// The offsets of the sixth edition.
const SIXTH: Offsets = Offsets {
    links: 2,
    uid: 3,
    gid: 4,
    size: 5,
    addresses: 8,
    times: 24,
};

/// The offsets of the seventh edition.
const SEVENTH: Offsets = Offsets {
    links: 2,
    uid: 4,
    gid: 6,
    size: 8,
    addresses: 12,
    times: 52,
};

/// Returns the byte at which i-node `i` begins.
fn place_of(edition: Edition, i: u16) -> usize
    requires { 1 ≤ i }
    ensures { result ≡ inode_place edition i }
{
    1024 + edition.constants().inode_bytes * (i as usize - 1)
}

/// Returns address `k` of the i-node at byte `at`. Of the 13 addresses, the sixth edition has the first 8.
fn address_in(image: &Image, edition: Edition, at: usize, k: usize) -> u32
    requires room { at + (constants edition).inode_bytes ≤ length image.now }
    requires range { k < 13 }
    ensures value { result ≡ address_at edition image.now at k }
    ensures bound { result < (constants edition).number_limit }
    ensures none { edition ≡ Edition.V6 → 8 ≤ k → result ≡ 0 }
{
    image.fits_in_memory();
    match edition {
        Edition::V6 if k < 8 => u32::from(image.word(at + SIXTH.addresses + 2 * k)),
        Edition::V6 => 0,
        Edition::V7 => image.addr3(at + SEVENTH.addresses + 3 * k),
    }
}

/// Returns all addresses of the i-node at byte `at`.
#[tactic(auto, unfolding(crate::specs::Inode::addresses_at))]
fn addresses(image: &Image, edition: Edition, at: usize) -> [u32; 13]
    requires { at + (constants edition).inode_bytes ≤ length image.now }
    ensures value { result ≡ addresses_at edition image.now at }
    ensures bound { (k : ℕ) → slice_index result k < (constants edition).number_limit }
    ensures none { edition ≡ Edition.V6 → (k : ℕ) → 8 ≤ k → slice_index result k ≡ 0 }
{
    let mut all = [0; 13];
    for k in 0..13 {
        all[k] = address_in(image, edition, at, k);
    }
    all
}

/// Returns the size in the i-node at byte `at`: 24 bits in the sixth edition, the high 8 bits first; a long in the seventh.
fn size_in(image: &Image, edition: Edition, at: usize) -> u32
    requires { at + (constants edition).inode_bytes ≤ length image.now }
    ensures value { result ≡ size_at edition image.now at }
    ensures bound { edition ≡ Edition.V6 → result < 16777216 }
{
    image.fits_in_memory();
    match edition {
        Edition::V6 => {
            let high = u32::from(image.byte(at + SIXTH.size));
            high * 0x1_0000 + u32::from(image.word(at + SIXTH.size + 1))
        }
        Edition::V7 => image.long(at + SEVENTH.size),
    }
}

/// Writes the size of the i-node at byte `at`. In the sixth edition the size must be below 2^24.
fn put_size_in(image: &mut Image, edition: Edition, at: usize, size: u32)
    requires room { at + (constants edition).inode_bytes ≤ length image.old }
    requires range { edition ≡ Edition.V6 → size < 16777216 }
    ensures put { size_at edition image.new at ≡ size }
    ensures others { SameOutside image.old image.new (at + (address_offset edition - size_bytes edition))
        (at + address_offset edition) }
{
    image.fits_in_memory();
    match edition {
        Edition::V6 => {
            image.put_byte(at + SIXTH.size, (size / 0x1_0000) as u8);
            image.put_word(at + SIXTH.size + 1, (size % 0x1_0000) as u16);
        }
        Edition::V7 => image.put_long(at + SEVENTH.size, size),
    }
}

/// Writes address `k` of the i-node at byte `at`. The sixth edition has 8 addresses, the seventh 13.
fn put_address_in(image: &mut Image, edition: Edition, at: usize, k: usize, value: u32)
    requires room { at + (constants edition).inode_bytes ≤ length image.old }
    requires index { k < address_count edition }
    requires range { value < (constants edition).number_limit }
    ensures put { address_at edition image.new at k ≡ value }
    ensures others { SameOutside image.old image.new (at + address_offset edition + address_bytes edition * k)
        (at + address_offset edition + address_bytes edition * k + address_bytes edition) }
{
    image.fits_in_memory();
    match edition {
        Edition::V6 => image.put_word(at + SIXTH.addresses + 2 * k, value as u16),
        Edition::V7 => image.put_addr3(at + SEVENTH.addresses + 3 * k, value),
    }
}

/// Writes the addresses of the i-node at byte `at`: the first 8 in the sixth edition, all 13 in the seventh.
fn put_addresses(image: &mut Image, edition: Edition, at: usize, addresses: &[u32; 13])
    requires room { at + (constants edition).inode_bytes ≤ length image.old }
    requires range { (k : ℕ) → k < address_count edition → slice_index addresses.now k < (constants edition).number_limit }
    ensures put { (k : ℕ) → k < address_count edition → address_at edition image.new at k ≡ slice_index addresses.now k }
    ensures others { SameOutside image.old image.new (at + address_offset edition)
        (at + address_offset edition + address_bytes edition * address_count edition) }
{
    let count = match edition {
        Edition::V6 => 8,
        Edition::V7 => 13,
    };
    for k in 0..count {
        put_address_in(image, edition, at, k, addresses[k]);
    }
}

/// The owner of an i-node: a user and a group.
#[derive(Clone, Copy)]
pub struct Owner {
    pub uid: u16,
    pub gid: u16,
}

/// Returns the owner in the i-node at byte `at`: a byte each in the sixth edition, a word each in the seventh.
#[tactic(auto, unfolding(crate::specs::Inode::inode_at))]
fn owner_in(image: &Image, edition: Edition, at: usize) -> Owner
    requires { at + (constants edition).inode_bytes ≤ length image.now }
    ensures uid { result.uid ≡ (inode_at edition image.now at).uid }
    ensures gid { result.gid ≡ (inode_at edition image.now at).gid }
    ensures bound { edition ≡ Edition.V6 → (result.uid < 256) × (result.gid < 256) }
{
    image.fits_in_memory();
    match edition {
        Edition::V6 => Owner {
            uid: u16::from(image.byte(at + SIXTH.uid)),
            gid: u16::from(image.byte(at + SIXTH.gid)),
        },
        Edition::V7 => Owner {
            uid: image.word(at + SEVENTH.uid),
            gid: image.word(at + SEVENTH.gid),
        },
    }
}

/// Returns i-node `i`, an i-number of the volume. [`put_inode`] can write it back, changed or not.
#[tactic(auto, unfolding(crate::specs::Inode::inode_at))]
pub fn inode(image: &Image, geometry: &Geometry, i: u16) -> Inode
    requires fits { Fits geometry.now image.now }
    requires first { 1 ≤ i }
    requires last { i ≤ geometry.now.last_inode }
    ensures value { result ≡ inode_of geometry.now.edition image.now i }
    ensures storable { IsStorable geometry.now.edition result }
{
    let at = place_of(geometry.edition, i);
    let size = size_in(image, geometry.edition, at);
    let addresses = addresses(image, geometry.edition, at);
    let owner = owner_in(image, geometry.edition, at);
    let mode = Mode {
        bits: image.word(at),
    };
    match geometry.edition {
        Edition::V6 => Inode {
            mode,
            links: u16::from(image.byte(at + SIXTH.links)),
            uid: owner.uid,
            gid: owner.gid,
            size,
            addresses,
            accessed: image.long(at + SIXTH.times),
            modified: image.long(at + SIXTH.times + 4),
            changed: None,
        },
        Edition::V7 => Inode {
            mode,
            links: image.word(at + SEVENTH.links),
            uid: owner.uid,
            gid: owner.gid,
            size,
            addresses,
            accessed: image.long(at + SEVENTH.times),
            modified: image.long(at + SEVENTH.times + 4),
            changed: Some(image.long(at + SEVENTH.times + 8)),
        },
    }
}

/// Returns the mode of i-node `i`, an i-number of the volume.
pub fn mode(image: &Image, geometry: &Geometry, i: u16) -> Mode
    requires fits { Fits geometry.now image.now }
    requires first { 1 ≤ i }
    requires last { i ≤ geometry.now.last_inode }
    ensures { result.bits ≡ mode_of geometry.now image.now i }
{
    Mode {
        bits: image.word(place_of(geometry.edition, i)),
    }
}

/// Returns the kind of i-node `i`, an i-number of the volume.
pub fn kind(image: &Image, geometry: &Geometry, i: u16) -> Kind
    requires fits { Fits geometry.now image.now }
    requires first { 1 ≤ i }
    requires last { i ≤ geometry.now.last_inode }
    ensures { result ≡ kind_of geometry.now.edition (mode_of geometry.now image.now i) }
{
    mode(image, geometry, i).kind(geometry.edition)
}

/// Returns the owner of i-node `i`, an i-number of the volume.
pub fn owner_of(image: &Image, geometry: &Geometry, i: u16) -> Owner
    requires fits { Fits geometry.now image.now }
    requires first { 1 ≤ i }
    requires last { i ≤ geometry.now.last_inode }
    ensures uid { result.uid ≡ (inode_of geometry.now.edition image.now i).uid }
    ensures gid { result.gid ≡ (inode_of geometry.now.edition image.now i).gid }
{
    owner_in(image, geometry.edition, place_of(geometry.edition, i))
}

/// Returns the size of i-node `i`, an i-number of the volume, in bytes.
pub fn size(image: &Image, geometry: &Geometry, i: u16) -> u32
    requires fits { Fits geometry.now image.now }
    requires first { 1 ≤ i }
    requires last { i ≤ geometry.now.last_inode }
    ensures { result ≡ size_at geometry.now.edition image.now (inode_place geometry.now.edition i) }
{
    size_in(image, geometry.edition, place_of(geometry.edition, i))
}

/// Returns address `k` of i-node `i`, an i-number of the volume. `k` is below 13; the sixth edition has 8 addresses, and the others are returned as
/// 0.
pub fn address(image: &Image, geometry: &Geometry, i: u16, k: usize) -> u32
    requires fits { Fits geometry.now image.now }
    requires first { 1 ≤ i }
    requires last { i ≤ geometry.now.last_inode }
    requires index { k < 13 }
    ensures { result ≡ address_at geometry.now.edition image.now (inode_place geometry.now.edition i) k }
{
    address_in(image, geometry.edition, place_of(geometry.edition, i), k)
}

/// Writes the first 8 bytes of a sixth edition i-node: the fields before its addresses.
fn put_head_v6(image: &mut Image, at: usize, node: &Inode)
    requires room { at + 32 ≤ length image.old }
    requires storable { IsStorable Edition.V6 node.now }
    ensures mode { word image.new at ≡ node.now.mode.bits }
    ensures links { slice_index image.new (at + 2) ≡ node.now.links }
    ensures uid { slice_index image.new (at + 3) ≡ node.now.uid }
    ensures gid { slice_index image.new (at + 4) ≡ node.now.gid }
    ensures size { size_at Edition.V6 image.new at ≡ node.now.size }
    ensures others { SameOutside image.old image.new at (at + 8) }
{
    image.fits_in_memory();
    image.put_word(at, node.mode.bits);
    image.put_byte(at + SIXTH.links, node.links as u8);
    image.put_byte(at + SIXTH.uid, node.uid as u8);
    image.put_byte(at + SIXTH.gid, node.gid as u8);
    put_size_in(image, Edition::V6, at, node.size);
}

/// Writes the first 12 bytes of a seventh edition i-node: the fields before its addresses.
fn put_head_v7(image: &mut Image, at: usize, node: &Inode)
    requires room { at + 64 ≤ length image.old }
    ensures mode { word image.new at ≡ node.now.mode.bits }
    ensures links { word image.new (at + 2) ≡ node.now.links }
    ensures uid { word image.new (at + 4) ≡ node.now.uid }
    ensures gid { word image.new (at + 6) ≡ node.now.gid }
    ensures size { size_at Edition.V7 image.new at ≡ node.now.size }
    ensures others { SameOutside image.old image.new at (at + 12) }
{
    image.fits_in_memory();
    image.put_word(at, node.mode.bits);
    image.put_word(at + SEVENTH.links, node.links);
    image.put_word(at + SEVENTH.uid, node.uid);
    image.put_word(at + SEVENTH.gid, node.gid);
    put_size_in(image, Edition::V7, at, node.size);
}

/// Writes the two times that both editions have, as two longs at byte `at`.
fn put_times(image: &mut Image, at: usize, node: &Inode)
    requires room { at + 8 ≤ length image.old }
    ensures accessed { long image.new at ≡ node.now.accessed }
    ensures modified { long image.new (at + 4) ≡ node.now.modified }
    ensures others { SameOutside image.old image.new at (at + 8) }
{
    image.fits_in_memory();
    image.put_long(at, node.accessed);
    image.put_long(at + 4, node.modified);
}

/// Writes a sixth edition i-node at byte `at`.
fn put_v6(image: &mut Image, at: usize, node: &Inode)
    requires room { at + 32 ≤ length image.old }
    requires storable { IsStorable Edition.V6 node.now }
    ensures put { inode_at Edition.V6 image.new at ≡ node.now }
    ensures others { SameOutside image.old image.new at (at + 32) }
{
    image.fits_in_memory();
    put_head_v6(image, at, node);
    put_addresses(image, Edition::V6, at, &node.addresses);
    put_times(image, at + SIXTH.times, node);
}

/// Writes a seventh edition i-node at byte `at`, except its byte 51.
fn put_v7(image: &mut Image, at: usize, node: &Inode)
    requires room { at + 64 ≤ length image.old }
    requires storable { IsStorable Edition.V7 node.now }
    ensures put { inode_at Edition.V7 image.new at ≡ node.now }
    ensures others { SameOutside image.old image.new at (at + 64) }
    ensures unused { slice_index image.new (at + 51) ≡ slice_index image.old (at + 51) }
{
    image.fits_in_memory();
    put_head_v7(image, at, node);
    put_addresses(image, Edition::V7, at, &node.addresses);
    put_times(image, at + SEVENTH.times, node);
    image.put_long(at + SEVENTH.times + 8, node.changed.unwrap_or(0));
}

/// Writes i-node `i`, an i-number of the volume. The values must fit the edition's fields, and fields that the edition lacks must be zero or `None`.
/// Byte 51 of a seventh edition i-node is not changed.
pub fn put_inode(image: &mut Image, geometry: &Geometry, i: u16, node: &Inode)
    requires fits { Fits geometry.now image.old }
    requires first { 1 ≤ i }
    requires last { i ≤ geometry.now.last_inode }
    requires storable { IsStorable geometry.now.edition node.now }
    ensures put { inode_of geometry.now.edition image.new i ≡ node.now }
    ensures others { SameOutside image.old image.new (inode_place geometry.now.edition i)
        (inode_place geometry.now.edition i + (constants geometry.now.edition).inode_bytes) }
    ensures unused { geometry.now.edition ≡ Edition.V7
        → slice_index image.new (inode_place Edition.V7 i + 51) ≡ slice_index image.old (inode_place Edition.V7 i + 51) }
{
    let at = place_of(geometry.edition, i);
    match geometry.edition {
        Edition::V6 => put_v6(image, at, node),
        Edition::V7 => put_v7(image, at, node),
    }
}

/// Writes address `k` of i-node `i`, an i-number of the volume. The sixth edition has 8 addresses, the seventh 13. No other byte changes.
pub fn put_address(image: &mut Image, geometry: &Geometry, i: u16, k: usize, value: u32)
    requires fits { Fits geometry.now image.old }
    requires first { 1 ≤ i }
    requires last { i ≤ geometry.now.last_inode }
    requires index { k < address_count geometry.now.edition }
    requires range { value < (constants geometry.now.edition).number_limit }
    ensures put { address_at geometry.now.edition image.new (inode_place geometry.now.edition i) k ≡ value }
    ensures others { SameOutside image.old image.new (address_place geometry.now.edition i k)
        (address_place geometry.now.edition i k + address_bytes geometry.now.edition) }
{
    let at = place_of(geometry.edition, i);
    put_address_in(image, geometry.edition, at, k, value);
}

/// Copies the eight addresses of the sixth edition i-node `i`, an i-number of the volume, to byte `to`, as one copy of 16 bytes.
pub fn copy_addresses(image: &mut Image, geometry: &Geometry, i: u16, to: usize)
    requires edition { geometry.now.edition ≡ Edition.V6 }
    requires fits { Fits geometry.now image.old }
    requires first { 1 ≤ i }
    requires last { i ≤ geometry.now.last_inode }
    requires room { to + 16 ≤ length image.old }
    ensures copied { (k : ℕ) → k < 16
        → slice_index image.new (to + k) ≡ slice_index image.old (inode_place geometry.now.edition i + 8 + k) }
    ensures others { SameOutside image.old image.new to (to + 16) }
{
    image.copy_within(place_of(geometry.edition, i) + SIXTH.addresses, 16, to);
}

/// Clears the eight addresses of the sixth edition i-node `i`, an i-number of the volume.
pub fn clear_addresses(image: &mut Image, geometry: &Geometry, i: u16)
    requires edition { geometry.now.edition ≡ Edition.V6 }
    requires fits { Fits geometry.now image.old }
    requires first { 1 ≤ i }
    requires last { i ≤ geometry.now.last_inode }
    ensures zero { (k : ℕ) → 8 ≤ k → k < 24 → slice_index image.new (inode_place geometry.now.edition i + k) ≡ 0 }
    ensures others { SameOutside image.old image.new (inode_place geometry.now.edition i + 8)
        (inode_place geometry.now.edition i + 24) }
{
    let at = place_of(geometry.edition, i);
    image.clear(at + SIXTH.addresses, at + SIXTH.times);
}

/// Writes the size of i-node `i`, an i-number of the volume, in bytes. In the sixth edition the size must be below 2^24. No other byte changes.
pub fn put_size(image: &mut Image, geometry: &Geometry, i: u16, size: u32)
    requires fits { Fits geometry.now image.old }
    requires first { 1 ≤ i }
    requires last { i ≤ geometry.now.last_inode }
    requires range { geometry.now.edition ≡ Edition.V6 → size < 16777216 }
    ensures put { size_at geometry.now.edition image.new (inode_place geometry.now.edition i) ≡ size }
    ensures others { SameOutside image.old image.new (size_place geometry.now.edition i)
        (size_place geometry.now.edition i + size_bytes geometry.now.edition) }
{
    let at = place_of(geometry.edition, i);
    put_size_in(image, geometry.edition, at, size);
}

/// Writes the mode of i-node `i`, an i-number of the volume. No other byte changes.
pub fn put_mode(image: &mut Image, geometry: &Geometry, i: u16, mode: Mode)
    requires fits { Fits geometry.now image.old }
    requires first { 1 ≤ i }
    requires last { i ≤ geometry.now.last_inode }
    ensures put { mode_of geometry.now image.new i ≡ mode.bits }
    ensures others { SameOutside image.old image.new (inode_place geometry.now.edition i)
        (inode_place geometry.now.edition i + 2) }
{
    image.put_word(place_of(geometry.edition, i), mode.bits);
}

/// Frees i-node `i`, an i-number of the volume, by clearing all its bytes.
pub fn clear_inode(image: &mut Image, geometry: &Geometry, i: u16)
    requires fits { Fits geometry.now image.old }
    requires first { 1 ≤ i }
    requires last { i ≤ geometry.now.last_inode }
    ensures zero { (k : ℕ) → inode_place geometry.now.edition i ≤ k
        → k < inode_place geometry.now.edition i + (constants geometry.now.edition).inode_bytes → slice_index image.new k ≡ 0 }
    ensures others { SameOutside image.old image.new (inode_place geometry.now.edition i)
        (inode_place geometry.now.edition i + (constants geometry.now.edition).inode_bytes) }
{
    let at = place_of(geometry.edition, i);
    image.clear(at, at + geometry.edition.constants().inode_bytes);
}
