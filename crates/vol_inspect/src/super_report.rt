//! The super-block, and the volume that it describes.
ghost use Rattle.std.specs.Prelude.{◌≡◌, ◌≤◌, length, IfOk};
ghost use Rattle.vol_layout.specs.Geometry.{Fits};
ghost use Rattle.vol_layout.specs.declared.mode.Kind.TheVariants as kinds;
ghost use Rattle.vol_file.specs.Rules.{kind_at};
ghost use Rattle.vol_reports.specs.Icheck.{is_kind};
ghost use Rattle.vol_inspect.specs.Inspect.{InspectsSuper, IsSuperReport, cached_numbers, flag_bytes, free_inode_count, used};

use crate::fault::InspectFault;
use crate::free_chain::link_numbers;
use pdp_words::Image;
use std::alloc::{AllocError, Global};
use vol_free::{FreeFault, walk_free};
use vol_layout::i_list::kind;
use vol_layout::{Edition, Flag, Geometry, Kind, Super};

/// The super-block, and the volume that it describes.
#[derive(Drop)]
pub struct SuperReport {
    /// The sizes of the volume.
    pub geometry: Geometry,
    /// `s_isize`: the number of blocks of the i-list in the sixth edition, the first block after it in the seventh.
    pub list_size: u16,
    /// `s_fsize`: the number of blocks of the volume.
    pub block_count: u32,
    /// `s_nfree`: the number of block numbers in use in the free array, as it is stored.
    pub free_count: u16,
    /// `s_free`: the numbers in use in the array, in order. The first is the number of the next chain block, and the last is the next block to be
    /// allocated. If the count is above the array's length, all numbers of the array.
    pub free: Vec<u32>,
    /// The number of blocks in the free list, up to its first fault.
    pub free_blocks: usize,
    /// The fault that ended the walk over the free list, if any, with the count or number at fault.
    pub fault: Option<(FreeFault, u32)>,
    /// `s_ninode`: the number of i-numbers in use in the cache, as it is stored.
    pub cache_count: u16,
    /// `s_inode`: the i-numbers in use in the cache, in order; the last is the next to be allocated. If the count is above 100, all numbers of the
    /// cache.
    pub cache: Vec<u16>,
    /// The number of free i-nodes. I-node 1 of the seventh edition, which is kept for bad blocks, isn't among them.
    pub free_inodes: u16,
    /// `s_flock`, `s_ilock`, `s_fmod` and `s_ronly`, as they are stored.
    pub flags: [u8; 4],
    /// `s_time`: the time of the volume's last change, in seconds.
    pub time: u32,
}

/// Returns the report on the super-block. The image must satisfy rules 1 and 2; otherwise it may have any bytes.
///
/// Reads the i-list, and the free list up to its first fault. Takes a byte for each block of the volume, and four for each free block.
pub fn inspect_super(
    alloc: Global,
    edition: Edition,
    image: &Image,
) -> Result<SuperReport, InspectFault>
    ensures report { InspectsSuper edition image.now result }
    ensures ordered { IfOk result (λ report. report.geometry.zone_start ≤ report.geometry.zone_end) }
{
    let geometry = Geometry::read(edition, image).map_err(InspectFault::Unsound)?;
    Ok(super_report(alloc, image, &geometry)?)
}

/// Returns the report of [`inspect_super`] on an image with a geometry.
pub fn super_report(
    alloc: Global,
    image: &Image,
    geometry: &Geometry,
) -> Result<SuperReport, AllocError>
    requires { Fits geometry.now image.now }
    ensures report { IfOk result (λ report. IsSuperReport geometry.now image.now report) }
    ensures ordered { IfOk result (λ report. report.geometry.zone_start ≤ report.geometry.zone_end) }
{
    let block = Super {
        edition: geometry.edition,
    };
    let walk = walk_free(alloc, image, geometry)?;
    let free = link_numbers(alloc, image, geometry.edition, block.free_head())?;
    let cache = cached_numbers(alloc, image, geometry.edition)?;
    Ok(SuperReport {
        geometry: *geometry,
        list_size: block.list_size(image),
        block_count: block.block_count(image),
        free_count: block.free_count(image),
        free,
        free_blocks: walk.met.len(),
        fault: walk.fault,
        cache_count: block.cache_count(image),
        cache,
        free_inodes: free_inodes(image, geometry),
        flags: flags(image, geometry.edition),
        time: block.time(image),
    })
}

/// Returns the number of an array's entries in use: its count, or the array's length if the count is above that.
pub(crate) fn used(count: u16, places: u16) -> u16
    ensures value { result ≡ used count places }
    ensures bound { result ≤ places }
{
    if count > places { places } else { count }
}

/// Returns the i-numbers in use in the cache, in order.
fn cached_numbers(alloc: Global, image: &Image, edition: Edition) -> Result<Vec<u16>, AllocError>
    requires { 1024 ≤ length image.now }
    ensures { IfOk result (λ numbers. numbers.items ≡ cached_numbers edition image.now) }
{
    let block = Super { edition };
    let count = used(block.cache_count(image), CACHE_PLACES);
    let mut numbers = Vec::new(alloc);
    for k in 0..count {
        numbers.push(block.cached(image, k as usize))?;
    }
    Ok(numbers)
}

/// The number of i-numbers that the cache can hold.
const CACHE_PLACES: u16 = 100;

/// Returns the number of free i-nodes, from the root's i-number on.
fn free_inodes(image: &Image, geometry: &Geometry) -> u16
    requires { Fits geometry.now image.now }
    ensures { result ≡ free_inode_count geometry.now image.now }
{
    let root = geometry.edition.constants().root;
    let mut count = 0;
    for past in 0..geometry.last_inode - root + 1 {
        count += u16::from(is_free(image, geometry, root + past));
    }
    count
}

/// True if i-node `i` is free.
fn is_free(image: &Image, geometry: &Geometry, i: u16) -> bool
    requires fits { Fits geometry.now image.now }
    requires first { 1 ≤ i }
    requires last { i ≤ geometry.now.last_inode }
    ensures { result ≡ is_kind kinds.Free (kind_at geometry.now image.now i) }
{
    matches!(kind(image, geometry, i), Kind::Free)
}

/// Returns the flag bytes.
fn flags(image: &Image, edition: Edition) -> [u8; 4]
    requires { 1024 ≤ length image.now }
    ensures { result ≡ flag_bytes edition image.now }
{
    let block = Super { edition };
    [
        block.flag(image, Flag::FreeLock),
        block.flag(image, Flag::InodeLock),
        block.flag(image, Flag::Modified),
        block.flag(image, Flag::ReadOnly),
    ]
}
