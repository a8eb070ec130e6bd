//! The image of a volume: its bytes, in blocks of 512.
ghost use Rattle.std.specs.Prelude.{◌≡◌, ℕ, ◌+◌, ◌-◌, ◌*◌, ◌/◌, ◌^◌, ◌<◌, ◌≤◌, ◌==◌, min, length, slice_index, slice_range};
ghost use Rattle.pdp_words.specs.Words.{word, long, addr3, block_of, SameOutside};

use crate::words;
use std::marker::Model;

/// The number of bytes in a block.
pub const BLOCK: usize = 512;

/// The bytes of a volume, from byte 0. In contracts an image is the list of its bytes.
#[derive(Drop)]
pub struct Image {
    bytes: Vec<u8>,
}

impl Model for Image {
    ghost use Rattle.std.specs.Prelude.{List, ℕ};

    ghost Value = { List ℕ };

    ghost view = { λ image. image.bytes.items };
}

impl Image {
    /// Wraps these bytes as an image. Takes no memory.
    pub fn from_bytes(bytes: Vec<u8>) -> Image
        ensures { result ≡ bytes.items }
    {
        Image { bytes }
    }

    /// Returns the image's bytes. Takes no memory.
    pub fn into_bytes(self) -> Vec<u8>
        ensures { result.items ≡ self }
    {
        self.bytes
    }

    /// Returns the number of bytes in the image.
    pub fn len(&self) -> usize
        ensures { result ≡ length self.now }
    {
        self.bytes.len()
    }

    /// Does nothing; its contract states that the length is a `usize`. In proofs an image is a list, and this shows that no position in the image
    /// overflows.
    pub fn fits_in_memory(&self)
        ensures { length self.now < 2 ^ 64 }
    {
        let _ = self.len();
    }

    /// True if the image has no bytes.
    pub fn is_empty(&self) -> bool
        ensures { result ≡ (length self.now == 0) }
    {
        self.bytes.is_empty()
    }

    /// Returns all bytes of the image.
    pub fn as_bytes(&self) -> &[u8]
        ensures { result.now ≡ self.now }
    {
        self.bytes.as_slice()
    }

    /// Returns the number of whole blocks in the image, but at most 2^32 - 1.
    pub fn blocks(&self) -> u32
        ensures { result ≡ min (length self.now / 512) (2 ^ 32 - 1) }
    {
        (self.bytes.len() / BLOCK).min(u32::MAX as usize) as u32
    }

    /// Returns the 512 bytes of block `n`.
    pub fn block(&self, n: u32) -> &[u8]
        requires { 512 * n + 512 ≤ length self.now }
        ensures bytes { result.now ≡ block_of self.now n }
        ensures len { length result.now ≡ 512 }
    {
        let start = n as usize * BLOCK;
        &self.bytes[start..start + BLOCK]
    }

    /// Writes the 512 bytes of block `n`.
    pub fn put_block(&mut self, n: u32, block: &[u8; BLOCK])
        requires { 512 * n + 512 ≤ length self.old }
        ensures put { block_of self.new n ≡ block.now }
        ensures others { SameOutside self.old self.new (512 * n) (512 * n + 512) }
    {
        let start = n as usize * BLOCK;
        words::put_bytes(&mut self.bytes, start, block);
    }

    /// Returns the byte at `at`.
    pub fn byte(&self, at: usize) -> u8
        requires { at + 1 ≤ length self.now }
        ensures { result ≡ slice_index self.now at }
    {
        self.bytes[at]
    }

    /// Returns the word at byte `at`.
    pub fn word(&self, at: usize) -> u16
        requires { at + 2 ≤ length self.now }
        ensures { result ≡ word self.now at }
    {
        words::word(&self.bytes, at)
    }

    /// Returns the long at byte `at`.
    pub fn long(&self, at: usize) -> u32
        requires { at + 4 ≤ length self.now }
        ensures { result ≡ long self.now at }
    {
        words::long(&self.bytes, at)
    }

    /// Returns the three-byte address at byte `at`, below 2^24.
    pub fn addr3(&self, at: usize) -> u32
        requires { at + 3 ≤ length self.now }
        ensures value { result ≡ addr3 self.now at }
        ensures bound { result < 2 ^ 24 }
    {
        words::addr3(&self.bytes, at)
    }

    /// Writes the byte at `at`.
    pub fn put_byte(&mut self, at: usize, value: u8)
        requires { at + 1 ≤ length self.old }
        ensures put { slice_index self.new at ≡ value }
        ensures others { SameOutside self.old self.new at (at + 1) }
    {
        words::put_byte(&mut self.bytes, at, value);
    }

    /// Writes a word at byte `at`.
    pub fn put_word(&mut self, at: usize, value: u16)
        requires { at + 2 ≤ length self.old }
        ensures put { word self.new at ≡ value }
        ensures others { SameOutside self.old self.new at (at + 2) }
    {
        words::put_word(&mut self.bytes, at, value);
    }

    /// Writes a long at byte `at`.
    pub fn put_long(&mut self, at: usize, value: u32)
        requires { at + 4 ≤ length self.old }
        ensures put { long self.new at ≡ value }
        ensures others { SameOutside self.old self.new at (at + 4) }
    {
        words::put_long(&mut self.bytes, at, value);
    }

    /// Writes a three-byte address at byte `at`.
    pub fn put_addr3(&mut self, at: usize, value: u32)
        requires room { at + 3 ≤ length self.old }
        requires range { value < 2 ^ 24 }
        ensures put { addr3 self.new at ≡ value }
        ensures others { SameOutside self.old self.new at (at + 3) }
    {
        words::put_addr3(&mut self.bytes, at, value);
    }

    /// Writes bytes at byte `at`, as one copy.
    pub fn put_bytes(&mut self, at: usize, bytes: &[u8])
        requires { at + length bytes.now ≤ length self.old }
        ensures put { slice_range self.new at (at + length bytes.now) ≡ bytes.now }
        ensures others { SameOutside self.old self.new at (at + length bytes.now) }
    {
        words::put_bytes(&mut self.bytes, at, bytes);
    }

    /// Copies `count` bytes from byte `from` to byte `to`, as one copy. The two ranges may overlap.
    pub fn copy_within(&mut self, from: usize, count: usize, to: usize)
        requires from { from + count ≤ length self.old }
        requires to { to + count ≤ length self.old }
        ensures copied { (k : ℕ) → k < count → slice_index self.new (to + k) ≡ slice_index self.old (from + k) }
        ensures others { SameOutside self.old self.new to (to + count) }
    {
        words::copy_within(&mut self.bytes, from, count, to);
    }

    /// Clears the bytes `from..to`.
    pub fn clear(&mut self, from: usize, to: usize)
        requires order { from ≤ to }
        requires room { to ≤ length self.old }
        ensures zero { (k : ℕ) → from ≤ k → k < to → slice_index self.new k ≡ 0 }
        ensures others { SameOutside self.old self.new from to }
    {
        words::clear(&mut self.bytes, from, to);
    }
}
