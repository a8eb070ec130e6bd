//! Tapes and disks of other systems, by the few bytes that tell them for sure.
ghost use Rattle.std.specs.Prelude.{◌≡◌, ◌+◌, ◌*◌, ◌^◌, ◌<◌, ◌≤◌, length};
ghost use Rattle.vol_identify.specs.Foreign.{are_entries, foreign_of, has_text, is_dump, is_entry, is_fat, is_files11, is_length, is_rt11, is_simh, is_tp, words_sum};

use pdp_words::Image;

/// The block that the home block of a disk of DEC's systems is, as a byte.
const HOME: usize = 512;

/// The first block of the directory of a tape of tp, as a byte.
const DIRECTORY: usize = 512;

/// The bytes of an entry of tp.
const ENTRY: usize = 64;

/// The place of the system's name, as a byte: octal 760 of the home block.
const NAME: usize = 1008;

/// The tape or the disk of another system.
#[derive(Clone, Copy)]
pub enum Foreign {
    /// A tape in SIMH's format.
    Simh,
    /// A tape of the seventh edition's dump.
    Dump,
    /// A tape of tp.
    Tp,
    /// A volume of FAT.
    Fat,
    /// A disk of RT-11.
    Rt11,
    /// A disk of Files-11.
    Files11,
}

/// Returns the tape or the disk of another system, if its tell-tale bytes are there.
#[tactic(auto, unfolding(crate::specs::Foreign::foreign_of))]
pub(crate) fn foreign_of(image: &Image) -> Option<Foreign>
    requires { 1536 ≤ length image.now }
    ensures { result ≡ foreign_of image.now }
{
    if is_simh(image) {
        Some(Foreign::Simh)
    } else if is_dump(image) {
        Some(Foreign::Dump)
    } else if is_tp(image) {
        Some(Foreign::Tp)
    } else if is_fat(image) {
        Some(Foreign::Fat)
    } else if is_rt11(image) {
        Some(Foreign::Rt11)
    } else if is_files11(image) {
        Some(Foreign::Files11)
    } else {
        None
    }
}

/// True if the first record of a tape in SIMH's format is there.
fn is_simh(image: &Image) -> bool
    requires { 1536 ≤ length image.now }
    ensures { result ≡ is_simh image.now }
{
    let count = image.word(0);
    let bytes = usize::from(count);
    512 <= count
        && count % 2 == 0
        && bytes + 8 <= image.len()
        && is_length(image, 0, count)
        && is_length(image, 4 + bytes, count)
        && !is_length(image, 4, count)
}

/// True if the number of 32 bits at byte `at`, the low byte first, is this one.
fn is_length(image: &Image, at: usize, count: u16) -> bool
    requires there { at + 4 ≤ length image.now }
    requires near { at < 2 ^ 32 }
    ensures { result ≡ is_length image.now at count }
{
    image.word(at) == count && image.word(at + 2) == 0
}

/// True if the first block is the header of a tape of dump.
fn is_dump(image: &Image) -> bool
    requires { 1536 ≤ length image.now }
    ensures { result ≡ is_dump image.now }
{
    image.word(0) == 1 && image.word(18) == 60011 && words_sum(image, 0, 256) == 18910
}

/// True if the first block of the directory of a tape of tp is there.
fn is_tp(image: &Image) -> bool
    requires { 1536 ≤ length image.now }
    ensures { result ≡ is_tp image.now }
{
    let first = image.byte(DIRECTORY);
    0x20 < first
        && first < 0x7F
        && image.byte(DIRECTORY + 31) == 0
        && are_entries(image, DIRECTORY, 8)
}

/// True if the `count` entries of tp from byte `at` on are empty, or have the sum zero.
fn are_entries(image: &Image, at: usize, count: usize) -> bool
    requires there { at + 64 * count ≤ length image.now }
    requires near { at + 64 * count < 2 ^ 32 }
    ensures { result ≡ are_entries image.now at count }
{
    let mut all = true;
    for k in 0..count {
        all &= is_entry(image, at + ENTRY * k);
    }
    all
}

/// True if the entry of tp at byte `at` is empty, or has the sum zero.
fn is_entry(image: &Image, at: usize) -> bool
    requires there { at + 64 ≤ length image.now }
    requires near { at + 64 < 2 ^ 32 }
    ensures { result ≡ is_entry image.now at }
{
    image.word(at) == 0 || words_sum(image, at, ENTRY / 2) == 0
}

/// True if the first block is the boot sector of a volume of FAT.
fn is_fat(image: &Image) -> bool
    requires { 1536 ≤ length image.now }
    ensures { result ≡ is_fat image.now }
{
    let jumps = (image.byte(0) == 0xEB && image.byte(2) == 0x90) || image.byte(0) == 0xE9;
    jumps
        && image.word(11) == 512
        && 1 <= image.word(14)
        && (image.byte(16) == 1 || image.byte(16) == 2)
        && 0xF0 <= image.byte(21)
        && image.word(510) == 0xAA55
}

/// True if the home block of RT-11 is there.
fn is_rt11(image: &Image) -> bool
    requires { 1536 ≤ length image.now }
    ensures { result ≡ is_rt11 image.now }
{
    has_text(image, NAME, b"DECRT11A")
}

/// True if the home block of Files-11 is there.
fn is_files11(image: &Image) -> bool
    requires { 1536 ≤ length image.now }
    ensures { result ≡ is_files11 image.now }
{
    has_text(image, NAME, b"DECFILE11A") && words_sum(image, HOME, 255) == image.word(HOME + 510)
}

/// True if these bytes are at byte `at`.
#[tactic(auto, unfolding(crate::specs::Foreign::has_text))]
fn has_text(image: &Image, at: usize, text: &[u8]) -> bool
    requires { at ≤ length image.now }
    ensures { result ≡ has_text image.now at text.now }
{
    image.as_bytes()[at..].starts_with(text)
}

/// Returns the sum of `count` words from byte `at` on, without what is above 16 bits.
fn words_sum(image: &Image, at: usize, count: usize) -> u16
    requires there { at + 2 * count ≤ length image.now }
    requires near { at + 2 * count < 2 ^ 32 }
    ensures { result ≡ words_sum image.now at count }
{
    let mut sum = 0u16;
    for k in 0..count {
        sum = sum.wrapping_add(image.word(at + 2 * k));
    }
    sum
}
