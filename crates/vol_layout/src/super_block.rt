//! The super-block, which is block 1.
ghost use Rattle.std.specs.Prelude.{◌≡◌, ◌+◌, ◌*◌, ◌<◌, ◌≤◌, length, slice_index};
ghost use Rattle.pdp_words.specs.Words.{SameOutside, word, long};
ghost use Rattle.vol_layout.specs.Edition.{constants, number};

use crate::edition::Edition;
use crate::numbers::{number, put_number};
use pdp_words::Image;

/// A flag byte of the super-block, which the system used while the volume was mounted.
#[derive(Clone, Copy)]
pub enum Flag {
    /// `s_flock`: the free list was in use.
    FreeLock,
    /// `s_ilock`: the i-number cache was in use.
    InodeLock,
    /// `s_fmod`: the super-block was modified.
    Modified,
    /// `s_ronly`: the volume was mounted read-only.
    ReadOnly,
}

impl Flag {
    ghost use Rattle.vol_layout.specs.Super.{flag_offset};

    /// Returns the offset of the flag from the first flag byte.
    fn offset(self) -> usize
        ensures { result ≡ flag_offset self }
    {
        match self {
            Flag::FreeLock => 0,
            Flag::InodeLock => 1,
            Flag::Modified => 2,
            Flag::ReadOnly => 3,
        }
    }
}

/// The byte at which the super-block begins. The super-block has 512 bytes.
pub const SUPER: usize = 512;

/// The size in bytes of a free list array with its count: 2 bytes for the count, and 100 words in the sixth edition or 50 longs in the seventh. The
/// super-block has one such array, and so has each chain block.
pub const HEAD_BYTES: usize = 202;

/// The super-block of an image. Each method reads or writes one field, in an image of at least 1024 bytes.
#[derive(Clone, Copy)]
pub struct Super {
    /// The edition, which determines the layout.
    pub edition: Edition,
}

impl Super {
    ghost use Rattle.vol_layout.specs.Geometry.{list_size, block_count};
    ghost use Rattle.vol_layout.specs.Super.{free_head, cache_head, flag_place, time_place};

    /// Returns `s_isize`: the number of blocks of the i-list in the sixth edition, the first block after the i-list in the seventh.
    pub fn list_size(self, image: &Image) -> u16
        requires { 1024 ≤ length image.now }
        ensures { result ≡ list_size image.now }
    {
        image.word(SUPER)
    }

    /// Writes `s_isize`.
    pub fn put_list_size(self, image: &mut Image, value: u16)
        requires { 1024 ≤ length image.old }
        ensures put { list_size image.new ≡ value }
        ensures others { SameOutside image.old image.new 512 514 }
    {
        image.put_word(SUPER, value);
    }

    /// Returns `s_fsize`: the number of blocks of the volume.
    pub fn block_count(self, image: &Image) -> u32
        requires { 1024 ≤ length image.now }
        ensures value { result ≡ block_count self.edition image.now }
        ensures range { self.edition ≡ Edition.V6 → result < 65536 }
    {
        match self.edition {
            Edition::V6 => u32::from(image.word(SUPER + 2)),
            Edition::V7 => image.long(SUPER + 2),
        }
    }

    /// Writes `s_fsize`, which is a word in the sixth edition.
    pub fn put_block_count(self, image: &mut Image, value: u32)
        requires room { 1024 ≤ length image.old }
        requires range { self.edition ≡ Edition.V6 → value < 65536 }
        ensures put { block_count self.edition image.new ≡ value }
        ensures others { SameOutside image.old image.new 514 (514 + (constants self.edition).number_bytes) }
    {
        match self.edition {
            Edition::V6 => image.put_word(SUPER + 2, value as u16),
            Edition::V7 => image.put_long(SUPER + 2, value),
        }
    }

    /// Returns the byte at which the free list begins: its count, followed by its array. A chain block has the same layout.
    pub fn free_head(self) -> usize
        ensures { result ≡ free_head self.edition }
    {
        match self.edition {
            Edition::V6 => SUPER + 4,
            Edition::V7 => SUPER + 6,
        }
    }

    /// Returns `s_nfree`: the number of block numbers in use in the free list array.
    pub fn free_count(self, image: &Image) -> u16
        requires { 1024 ≤ length image.now }
        ensures { result ≡ word image.now (free_head self.edition) }
    {
        image.word(self.free_head())
    }

    /// Writes `s_nfree`.
    pub fn put_free_count(self, image: &mut Image, value: u16)
        requires { 1024 ≤ length image.old }
        ensures put { word image.new (free_head self.edition) ≡ value }
        ensures others { SameOutside image.old image.new (free_head self.edition) (free_head self.edition + 2) }
    {
        image.put_word(self.free_head(), value);
    }

    /// Returns block number `j` of `s_free`, the free list array, which has 100 numbers in the sixth edition and 50 in the seventh.
    pub fn free(self, image: &Image, j: usize) -> u32
        requires room { 1024 ≤ length image.now }
        requires range { j < (constants self.edition).free_slots }
        ensures { result ≡ number self.edition image.now (free_head self.edition + 2) j }
    {
        number(image, self.edition, self.free_head() + 2, j)
    }

    /// Writes block number `j` of the free list array: a word in the sixth edition, a long in the seventh.
    pub fn put_free(self, image: &mut Image, j: usize, value: u32)
        requires room { 1024 ≤ length image.old }
        requires index { j < (constants self.edition).free_slots }
        requires range { self.edition ≡ Edition.V6 → value < 65536 }
        ensures put { number self.edition image.new (free_head self.edition + 2) j ≡ value }
        ensures others { SameOutside image.old image.new
            (free_head self.edition + 2 + (constants self.edition).number_bytes * j)
            (free_head self.edition + 2 + (constants self.edition).number_bytes * (j + 1)) }
    {
        put_number(image, self.edition, self.free_head() + 2, j, value);
    }

    /// Returns the byte at which the i-number cache begins: its count, followed by its array of 100 words.
    pub fn cache_head(self) -> usize
        ensures { result ≡ cache_head self.edition }
    {
        match self.edition {
            Edition::V6 => SUPER + 206,
            Edition::V7 => SUPER + 208,
        }
    }

    /// Returns `s_ninode`: the number of i-numbers in use in the cache.
    pub fn cache_count(self, image: &Image) -> u16
        requires { 1024 ≤ length image.now }
        ensures { result ≡ word image.now (cache_head self.edition) }
    {
        image.word(self.cache_head())
    }

    /// Writes `s_ninode`.
    pub fn put_cache_count(self, image: &mut Image, value: u16)
        requires { 1024 ≤ length image.old }
        ensures put { word image.new (cache_head self.edition) ≡ value }
        ensures others { SameOutside image.old image.new (cache_head self.edition) (cache_head self.edition + 2) }
    {
        image.put_word(self.cache_head(), value);
    }

    /// Returns i-number `j` of `s_inode`, the cache; `j` is below 100.
    pub fn cached(self, image: &Image, j: usize) -> u16
        requires room { 1024 ≤ length image.now }
        requires range { j < 100 }
        ensures { result ≡ word image.now (cache_head self.edition + 2 + 2 * j) }
    {
        image.word(self.cache_head() + 2 + 2 * j)
    }

    /// Writes i-number `j` of the cache; `j` is below 100.
    pub fn put_cached(self, image: &mut Image, j: usize, value: u16)
        requires room { 1024 ≤ length image.old }
        requires range { j < 100 }
        ensures put { word image.new (cache_head self.edition + 2 + 2 * j) ≡ value }
        ensures others { SameOutside image.old image.new
            (cache_head self.edition + 2 + 2 * j) (cache_head self.edition + 4 + 2 * j) }
    {
        image.put_word(self.cache_head() + 2 + 2 * j, value);
    }

    /// Returns a flag byte.
    pub fn flag(self, image: &Image, flag: Flag) -> u8
        requires { 1024 ≤ length image.now }
        ensures { result ≡ slice_index image.now (flag_place self.edition flag) }
    {
        image.byte(self.flag_place(flag))
    }

    /// Writes a flag byte.
    pub fn put_flag(self, image: &mut Image, flag: Flag, value: u8)
        requires { 1024 ≤ length image.old }
        ensures put { slice_index image.new (flag_place self.edition flag) ≡ value }
        ensures others { SameOutside image.old image.new
            (flag_place self.edition flag) (flag_place self.edition flag + 1) }
    {
        image.put_byte(self.flag_place(flag), value);
    }

    /// Returns the byte at which a flag is stored.
    fn flag_place(self, flag: Flag) -> usize
        ensures place { result ≡ flag_place self.edition flag }
        ensures within { result < 1024 }
    {
        match self.edition {
            Edition::V6 => SUPER + 408 + flag.offset(),
            Edition::V7 => SUPER + 410 + flag.offset(),
        }
    }

    /// Returns `s_time`: the time of the volume's last change, in seconds.
    pub fn time(self, image: &Image) -> u32
        requires { 1024 ≤ length image.now }
        ensures { result ≡ long image.now (time_place self.edition) }
    {
        image.long(self.time_place())
    }

    /// Writes `s_time`.
    pub fn put_time(self, image: &mut Image, value: u32)
        requires { 1024 ≤ length image.old }
        ensures put { long image.new (time_place self.edition) ≡ value }
        ensures others { SameOutside image.old image.new (time_place self.edition) (time_place self.edition + 4) }
    {
        image.put_long(self.time_place(), value);
    }

    /// Returns the byte at which the time is stored.
    fn time_place(self) -> usize
        ensures { result ≡ time_place self.edition }
    {
        match self.edition {
            Edition::V6 => SUPER + 412,
            Edition::V7 => SUPER + 414,
        }
    }
}
