//! Looking up the block numbers of a file's logical blocks in sequence.
ghost use Rattle.std.specs.Prelude.{◌≡◌, ◌≤◌};
ghost use Rattle.vol_layout.specs.Geometry.{Fits};
ghost use Rattle.vol_layout.specs.BlockPointers.{form_at, stored, block_named};
ghost use Rattle.vol_file.specs.Holes.{IsNextStored};
ghost use Rattle.vol_file.specs.Runs.{IsRun, LooksUp, number_from};

use crate::block_lookup::{entry, follow};
use crate::holes::{direct_count, next_stored};
use pdp_words::Image;
use vol_layout::i_list::{address, mode};
use vol_layout::{BlockMap, Geometry};

/// The array in which the block numbers of a run of logical blocks are stored.
#[derive(Clone, Copy)]
pub(crate) enum PointerRun {
    /// No array: a file can't have these blocks.
    Nowhere,
    /// The addresses of the i-node.
    Inode,
    /// The block numbers in the indirect block with this number.
    Indirect(u32),
}

/// A run of logical blocks of a file whose block numbers are stored next to each other.
#[derive(Clone, Copy)]
pub(crate) struct Run {
    /// The first logical block.
    first: u32,
    /// The last logical block; below the first if the run is empty.
    last: u32,
    /// The array in which the numbers are stored.
    source: PointerRun,
    /// The index in that array of the first block's number.
    entry: u32,
}

/// Looks up the block numbers of a file's logical blocks. The block map is walked only if the number isn't in the array in which the previous one was
/// found: the i-node, or an indirect block.
#[derive(Clone, Copy)]
pub struct BlockNumbers {
    inode: u16,
    form: BlockMap,
    run: Run,
}

impl BlockNumbers {
    /// Creates a lookup for i-node `i`, an i-number of the volume. Reads only its mode.
    pub fn of(image: &Image, geometry: &Geometry, i: u16) -> BlockNumbers
        requires fits { Fits geometry.now image.now }
        requires first { 1 ≤ i }
        requires last { i ≤ geometry.now.last_inode }
        ensures { LooksUp geometry.now image.now i result }
    {
        let run = Run {
            first: 1,
            last: 0,
            source: PointerRun::Nowhere,
            entry: 0,
        };
        BlockNumbers {
            inode: i,
            form: BlockMap::of(geometry.edition, mode(image, geometry, i)),
            run,
        }
    }

    /// Returns the block number stored for logical block `b`, as [`block_at`](crate::block_at) does. The image and geometry must be those of the
    /// earlier calls.
    ///
    /// Costs a read of one block number, and a block-map lookup if `b` isn't in the same run as the previous block.
    pub fn block_at(&mut self, image: &Image, geometry: &Geometry, b: u32) -> Option<u32>
        requires fits { Fits geometry.now image.now }
        requires own { LooksUp geometry.now image.now self.old.inode self.old }
        ensures own { LooksUp geometry.now image.now self.old.inode self.new }
        ensures number { result ≡ block_named geometry.now image.now self.old.inode b }
    {
        match self.number_at(image, geometry, b) {
            0 => None,
            k => Some(k),
        }
    }

    /// Returns the first logical block in `from..end` for which the block map has a block number, as [`next_block`](crate::next_block) does. The
    /// image and geometry must be those of the earlier calls.
    ///
    /// Costs as much as [`BlockNumbers::block_at`], and if the result isn't `from`, also as much as [`next_block`](crate::next_block).
    pub fn next_block(&mut self, image: &Image, geometry: &Geometry, from: u32, end: u32) -> u32
        requires fits { Fits geometry.now image.now }
        requires own { LooksUp geometry.now image.now self.old.inode self.old }
        requires order { from ≤ end }
        ensures own { LooksUp geometry.now image.now self.old.inode self.new }
        ensures next { IsNextStored geometry.now image.now self.old.inode (form_at geometry.now image.now self.old.inode) from end result }
    {
        if self.number_at(image, geometry, from) == 0 {
            next_stored(image, geometry, self.inode, self.form, from, end)
        } else {
            from
        }
    }

    /// Returns the block number stored for logical block `b`, or 0 if there is none, or if a file can't have the block.
    pub(crate) fn number_at(&mut self, image: &Image, geometry: &Geometry, b: u32) -> u32
        requires fits { Fits geometry.now image.now }
        requires own { LooksUp geometry.now image.now self.old.inode self.old }
        ensures own { LooksUp geometry.now image.now self.old.inode self.new }
        ensures number { result ≡ stored geometry.now image.now self.old.inode (form_at geometry.now image.now self.old.inode) b }
    {
        self.run = self.run_with(image, geometry, b);
        self.run.number(image, geometry, self.inode, b)
    }

    /// Returns a run that contains logical block `b`: the previous run if it contains the block, else a new run that begins with it.
    fn run_with(&self, image: &Image, geometry: &Geometry, b: u32) -> Run
        requires fits { Fits geometry.now image.now }
        requires own { LooksUp geometry.now image.now self.now.inode self.now }
        ensures run { IsRun geometry.now image.now self.now.inode self.now.form result }
        ensures first { result.first ≤ b }
        ensures last { b ≤ result.last }
    {
        if self.run.first <= b && b <= self.run.last {
            self.run
        } else {
            run_from(image, geometry, self.inode, self.form, b)
        }
    }
}

impl Run {
    /// Returns the block number of logical block `b` of i-node `i`. The block is in this run.
    #[tactic(auto, using(crate::proofs::Indexes::entry_room))]
    fn number(&self, image: &Image, geometry: &Geometry, i: u16, b: u32) -> u32
        requires fits { Fits geometry.now image.now }
        requires first { 1 ≤ i }
        requires last { i ≤ geometry.now.last_inode }
        requires run { IsRun geometry.now image.now i (form_at geometry.now image.now i) self.now }
        requires low { self.now.first ≤ b }
        requires high { b ≤ self.now.last }
        ensures { result ≡ stored geometry.now image.now i (form_at geometry.now image.now i) b }
    {
        match self.source {
            PointerRun::Nowhere => 0,
            PointerRun::Inode => {
                let k = self.entry + (b - self.first);
                address(image, geometry, i, k as usize)
            }
            PointerRun::Indirect(m) => entry(image, geometry, m, self.entry + (b - self.first)),
        }
    }
}

/// Returns the run of block numbers of i-node `i` that begins with logical block `b` and ends with its indirect block or with the last address of a
/// direct block.
///
/// Costs one block-map lookup.
fn run_from(image: &Image, geometry: &Geometry, i: u16, form: BlockMap, b: u32) -> Run
    requires fits { Fits geometry.now image.now }
    requires first { 1 ≤ i }
    requires last { i ≤ geometry.now.last_inode }
    requires form { form ≡ form_at geometry.now image.now i }
    ensures run { IsRun geometry.now image.now i form result }
    ensures first { result.first ≡ b }
    ensures last { b ≤ result.last }
{
    let direct = direct_count(form);
    if b < direct {
        return Run {
            first: b,
            last: direct - 1,
            source: PointerRun::Inode,
            entry: b,
        };
    }
    let Some(way) = form.way(b) else {
        return Run {
            first: b,
            last: u32::MAX,
            source: PointerRun::Nowhere,
            entry: 0,
        };
    };
    let above = way.depth - 1;
    let entry = way.entries[above];
    Run {
        first: b,
        last: b + (geometry.edition.constants().pointers - 1 - entry),
        source: PointerRun::Indirect(follow(image, geometry, i, &way, above)),
        entry,
    }
}
