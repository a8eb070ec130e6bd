//! The words of a table that threads no longer share.
ghost use Rattle.std.specs.Prelude.{◌≡◌, ◌<◌, length, slice_index};
ghost use Rattle.count_table.specs.Tallies.{items_of};

use crate::words::Summed;

impl Summed {
    /// Returns word `i`.
    pub fn word(&self, i: usize) -> u64
        requires { i < length (items_of self.now) }
        ensures { result ≡ slice_index (items_of self.now) i }
    {
        self.closed.word(i)
    }
}
