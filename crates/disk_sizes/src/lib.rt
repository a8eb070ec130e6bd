//! Sizes of new volumes: disks by name, and i-lists.
#![tactic(auto)]

ghost use Rattle.std.specs.Prelude.{◌≡◌};
ghost use Rattle.disk_sizes.specs.Disks.{disk_blocks, list_default, list_of};

use vol_layout::Edition;

/// Returns the number of 512-byte blocks of the disk with this name, in letters of either case.
pub fn disk_blocks(name: &[u8]) -> Option<u32>
    ensures { result ≡ disk_blocks name.now }
{
    if name.eq_ignore_ascii_case(b"rk05") {
        Some(4_872)
    } else if name.eq_ignore_ascii_case(b"rk06") {
        Some(27_126)
    } else if name.eq_ignore_ascii_case(b"rk07") {
        Some(53_790)
    } else if name.eq_ignore_ascii_case(b"rl01") {
        Some(10_240)
    } else if name.eq_ignore_ascii_case(b"rl02") {
        Some(20_480)
    } else if name.eq_ignore_ascii_case(b"rm03") {
        Some(131_680)
    } else if name.eq_ignore_ascii_case(b"rp03") {
        Some(81_200)
    } else if name.eq_ignore_ascii_case(b"rp04") {
        Some(171_798)
    } else if name.eq_ignore_ascii_case(b"rp06") {
        Some(340_670)
    } else if name.eq_ignore_ascii_case(b"rx01") {
        Some(500)
    } else if name.eq_ignore_ascii_case(b"rx02") {
        Some(1_001)
    } else {
        None
    }
}

/// Returns the number of blocks in the i-list of a volume with `blocks` blocks, as the edition's `mkfs` chose it by default.
pub fn list_default(edition: Edition, blocks: u32) -> u16
    ensures { result ≡ list_default edition blocks }
{
    match edition {
        Edition::V6 => list_of(4_095, blocks / (43 + blocks / 1_000)),
        Edition::V7 => list_of(8_187, blocks / 25),
    }
}

/// Limits a number of blocks to the sizes that an i-list can have: 1 to `most`.
fn list_of(most: u16, blocks: u32) -> u16
    ensures { result ≡ list_of most blocks }
{
    if blocks > u32::from(most) {
        most
    } else if blocks == 0 {
        1
    } else {
        blocks as u16
    }
}
