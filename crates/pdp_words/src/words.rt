//! Numbers in a slice of bytes. A word is two bytes, the low one first; a long is two words, the high
//! word first; a three-byte address has bits 16 to 23, then bits 0 to 7, then bits 8 to 15.
ghost use Rattle.std.specs.Prelude.{◌≡◌, ℕ, ◌+◌, ◌^◌, ◌<◌, ◌≤◌, length, slice_index, slice_range};
ghost use Rattle.pdp_words.specs.Words.{word, long, addr3, SameOutside};

use byteorder::{ByteOrder, LittleEndian};

/// Returns the word at byte `at`.
pub fn word(bytes: &[u8], at: usize) -> u16
    requires { at + 2 ≤ length bytes.now }
    ensures { result ≡ word bytes.now at }
{
    LittleEndian::read_u16(&bytes[at..at + 2])
}

/// Writes a word at byte `at`.
pub fn put_word(bytes: &mut [u8], at: usize, value: u16)
    requires { at + 2 ≤ length bytes.old }
    ensures put { word bytes.new at ≡ value }
    ensures others { SameOutside bytes.old bytes.new at (at + 2) }
{
    LittleEndian::write_u16(&mut bytes[at..at + 2], value);
}

/// Returns the long at byte `at`.
pub fn long(bytes: &[u8], at: usize) -> u32
    requires { at + 4 ≤ length bytes.now }
    ensures { result ≡ long bytes.now at }
{
    u32::from(word(bytes, at)) * 0x1_0000 + u32::from(word(bytes, at + 2))
}

/// Writes a long at byte `at`.
pub fn put_long(bytes: &mut [u8], at: usize, value: u32)
    requires { at + 4 ≤ length bytes.old }
    ensures put { long bytes.new at ≡ value }
    ensures others { SameOutside bytes.old bytes.new at (at + 4) }
{
    put_word(bytes, at, (value / 0x1_0000) as u16);
    put_word(bytes, at + 2, (value % 0x1_0000) as u16);
}

/// Returns the three-byte address at byte `at`, below 2^24.
pub fn addr3(bytes: &[u8], at: usize) -> u32
    requires { at + 3 ≤ length bytes.now }
    ensures value { result ≡ addr3 bytes.now at }
    ensures bound { result < 2 ^ 24 }
{
    u32::from(bytes[at]) * 0x1_0000 + u32::from(word(bytes, at + 1))
}

/// Writes a three-byte address at byte `at`.
pub fn put_addr3(bytes: &mut [u8], at: usize, value: u32)
    requires room { at + 3 ≤ length bytes.old }
    requires range { value < 2 ^ 24 }
    ensures put { addr3 bytes.new at ≡ value }
    ensures others { SameOutside bytes.old bytes.new at (at + 3) }
{
    bytes[at] = (value / 0x1_0000) as u8;
    put_word(bytes, at + 1, (value % 0x1_0000) as u16);
}

/// Writes the byte at `at`.
pub fn put_byte(bytes: &mut [u8], at: usize, value: u8)
    requires { at + 1 ≤ length bytes.old }
    ensures put { slice_index bytes.new at ≡ value }
    ensures others { SameOutside bytes.old bytes.new at (at + 1) }
{
    bytes[at] = value;
}

/// Writes bytes at byte `at`, as one copy.
pub fn put_bytes(bytes: &mut [u8], at: usize, value: &[u8])
    requires { at + length value.now ≤ length bytes.old }
    ensures put { slice_range bytes.new at (at + length value.now) ≡ value.now }
    ensures others { SameOutside bytes.old bytes.new at (at + length value.now) }
{
    bytes[at..at + value.len()].copy_from_slice(value);
}

/// Copies `count` bytes from byte `from` to byte `to`, as one copy. The two ranges may overlap.
pub fn copy_within(bytes: &mut [u8], from: usize, count: usize, to: usize)
    requires from { from + count ≤ length bytes.old }
    requires to { to + count ≤ length bytes.old }
    ensures copied { (k : ℕ) → k < count → slice_index bytes.new (to + k) ≡ slice_index bytes.old (from + k) }
    ensures others { SameOutside bytes.old bytes.new to (to + count) }
{
    bytes.copy_within(from..from + count, to);
}

/// Clears the bytes `from..to`.
pub fn clear(bytes: &mut [u8], from: usize, to: usize)
    requires order { from ≤ to }
    requires room { to ≤ length bytes.old }
    ensures zero { (k : ℕ) → from ≤ k → k < to → slice_index bytes.new k ≡ 0 }
    ensures others { SameOutside bytes.old bytes.new from to }
{
    bytes[from..to].fill(0);
}
