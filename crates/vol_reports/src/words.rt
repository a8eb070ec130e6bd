//! The words of a table of counts, and the count in each of them.
ghost use Rattle.std.specs.Prelude.{◌≡◌, ◌^◌, ◌≤◌, ◌<◌, true};
ghost use Rattle.vol_layout.specs.Geometry.{in_zone};
ghost use Rattle.vol_reports.specs.Words.{place_word, free_word, bad_word, kind_word, least_word, entry_word, name_word, zone_len};
ghost use Rattle.vol_judge.specs.Steps.{rank};

use vol_layout::Geometry;

/// Returns the number of data blocks of the volume.
pub fn zone_len(geometry: &Geometry) -> usize
    requires zone { geometry.now.zone_start < geometry.now.zone_end }
    ensures exact { result ≡ zone_len geometry.now }
    ensures bound { result < 2 ^ 32 }
{
    (geometry.zone_end - geometry.zone_start) as usize
}

/// Returns the word that counts the block-map positions that point to data block `b`.
pub fn place_word(geometry: &Geometry, b: u32) -> usize
    requires zone { in_zone geometry.now b ≡ true }
    ensures { result ≡ place_word geometry.now b }
{
    1 + (b - geometry.zone_start) as usize
}

/// Returns the word that counts how often data block `b` is in the free list.
pub fn free_word(geometry: &Geometry, b: u32) -> usize
    requires zone { in_zone geometry.now b ≡ true }
    ensures { result ≡ free_word geometry.now b }
{
    1 + (zone_len(geometry) + (b - geometry.zone_start) as usize)
}

/// Returns the word that counts the block-map positions of i-node `i` with numbers outside the data blocks.
pub fn bad_word(geometry: &Geometry, i: u16) -> usize
    requires zone { geometry.now.zone_start < geometry.now.zone_end }
    requires first { 1 ≤ i }
    ensures { result ≡ bad_word geometry.now i }
{
    1 + (2 * zone_len(geometry) + (i - 1) as usize)
}

/// Returns the word that counts the i-nodes of a kind: 0 for regular files, 1 for directories, 2 for special files, 3 for odd i-nodes.
pub fn kind_word(geometry: &Geometry, k: usize) -> usize
    requires zone { geometry.now.zone_start < geometry.now.zone_end }
    requires few { k ≤ 3 }
    ensures { result ≡ kind_word geometry.now k }
{
    1 + (2 * zone_len(geometry) + (geometry.last_inode as usize + k))
}

/// Returns the word for the least number outside the data blocks in the block map of i-node `i`.
pub fn least_word(geometry: &Geometry, i: u16) -> usize
    requires zone { geometry.now.zone_start < geometry.now.zone_end }
    requires first { 1 ≤ i }
    ensures { result ≡ least_word geometry.now i }
{
    1 + (2 * zone_len(geometry) + (geometry.last_inode as usize + 4)) + (i - 1) as usize
}

/// Returns the word that counts the entries for i-number `i`.
pub fn entry_word(i: u16) -> usize
    ensures { result ≡ entry_word i }
{
    i as usize
}

/// Returns the word for the rank of the first entry for i-number `i`, other than `.` and `..`.
pub fn name_word(i: u16) -> usize
    ensures { result ≡ name_word i }
{
    i as usize
}

/// Returns the position of slot `slot` of directory `directory` among the slots of all directories.
pub fn rank(directory: u16, slot: u32) -> u64
    ensures { result ≡ rank directory slot }
{
    (u64::from(directory) << 32) + u64::from(slot)
}
