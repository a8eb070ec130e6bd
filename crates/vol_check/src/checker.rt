//! The checkers, one per kind of report.

/// A checker, named by its kind of report on an image.
#[derive(Clone, Copy, PartialEq, Eq)]
pub enum Checker {
    /// `icheck`: the blocks, the block-map positions that point to them, and the free list.
    Blocks,
    /// `dcheck`: the number of directory entries for each i-number.
    Entries,
    /// `ncheck`: the paths of each i-number.
    Names,
}
