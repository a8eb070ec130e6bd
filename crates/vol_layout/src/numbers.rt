//! Arrays of block numbers: in the super-block, in the chain blocks of the free list, and in indirect blocks. The numbers are words in the sixth
//! edition and longs in the seventh.
ghost use Rattle.std.specs.Prelude.{◌≡◌, ◌+◌, ◌*◌, ◌<◌, ◌≤◌, length};
ghost use Rattle.pdp_words.specs.Words.{SameOutside};
ghost use Rattle.vol_layout.specs.Edition.{constants, number};

use crate::edition::Edition;
use pdp_words::Image;

/// Returns the block number with index `j` in the array at byte `at`.
pub fn number(image: &Image, edition: Edition, at: usize, j: usize) -> u32
    requires { at + (constants edition).number_bytes * (j + 1) ≤ length image.now }
    ensures { result ≡ number edition image.now at j }
{
    image.fits_in_memory();
    match edition {
        Edition::V6 => u32::from(image.word(at + 2 * j)),
        Edition::V7 => image.long(at + 4 * j),
    }
}

/// Writes the block number with index `j` in the array at byte `at`.
pub fn put_number(image: &mut Image, edition: Edition, at: usize, j: usize, value: u32)
    requires room { at + (constants edition).number_bytes * (j + 1) ≤ length image.old }
    requires range { edition ≡ Edition.V6 → value < 65536 }
    ensures put { number edition image.new at j ≡ value }
    ensures others { SameOutside image.old image.new
        (at + (constants edition).number_bytes * j) (at + (constants edition).number_bytes * (j + 1)) }
{
    image.fits_in_memory();
    match edition {
        Edition::V6 => image.put_word(at + 2 * j, value as u16),
        Edition::V7 => image.put_long(at + 4 * j, value),
    }
}
