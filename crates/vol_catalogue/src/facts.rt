//! What is counted in a volume.
ghost use Rattle.std.specs.Prelude.{◌≡◌, ◌≤◌, true, IfOk};
ghost use Rattle.vol_file.specs.Rules.{kind_at};
ghost use Rattle.vol_judge.specs.Sound.{IsJudged};
ghost use Rattle.vol_layout.specs.Geometry.{Fits};
ghost use Rattle.vol_layout.specs.declared.mode.Kind.TheVariants as kinds;
ghost use Rattle.vol_reports.specs.Icheck.{is_kind, kind_count};
ghost use Rattle.vol_catalogue.specs.Facts.{AreCounts, AreCountsOf};

use pdp_words::Image;
use std::alloc::{AllocError, Global};
use vol_inspect::super_report::super_report;
use vol_judge::judge;
use vol_layout::i_list::kind;
use vol_layout::{Edition, Geometry, Kind};

/// What is known of a volume.
#[derive(Clone, Copy)]
pub struct VolumeFacts {
    /// The first rule that it breaks. `None` if it is sound.
    pub broken: Option<u8>,
    /// What is counted in it. `None` if rule 1 or 2 is broken.
    pub counts: Option<Counts>,
}

/// What is counted in a volume in which rules 1 and 2 hold.
#[derive(Clone, Copy)]
pub struct Counts {
    /// The number of blocks in the free list, up to its first fault.
    pub free_blocks: usize,
    /// The number of regular files.
    pub files: u16,
    /// The time of the volume's last change, in seconds since 1970.
    pub time: u32,
}

/// Judges an image, and counts its free blocks and its files.
///
/// Takes the memory of judging, and four bytes for each free block.
pub fn facts_of(alloc: Global, edition: Edition, image: &Image) -> Result<VolumeFacts, AllocError>
    ensures judged { IfOk result (λ facts. IsJudged true edition image.now facts.broken) }
    ensures counted { IfOk result (λ facts. AreCountsOf edition image.now facts.counts) }
{
    let broken = judge(alloc, edition, image, true)?;
    let counts = counts_of(alloc, edition, image)?;
    Ok(VolumeFacts { broken, counts })
}

/// Returns what is counted in an image, if rules 1 and 2 hold.
fn counts_of(alloc: Global, edition: Edition, image: &Image) -> Result<Option<Counts>, AllocError>
    ensures { IfOk result (AreCountsOf edition image.now) }
{
    match Geometry::read(edition, image) {
        Ok(geometry) => Ok(Some(counted(alloc, image, &geometry)?)),
        Err(_) => Ok(None),
    }
}

/// Returns what is counted in an image with a geometry.
fn counted(alloc: Global, image: &Image, geometry: &Geometry) -> Result<Counts, AllocError>
    requires { Fits geometry.now image.now }
    ensures { IfOk result (AreCounts geometry.now image.now) }
{
    let report = super_report(alloc, image, geometry)?;
    Ok(Counts {
        free_blocks: report.free_blocks,
        files: file_count(image, geometry),
        time: report.time,
    })
}

/// Returns the number of regular files in a volume.
pub fn file_count(image: &Image, geometry: &Geometry) -> u16
    requires { Fits geometry.now image.now }
    ensures count { result ≡ kind_count geometry.now image.now kinds.Regular }
    ensures few { result ≤ geometry.now.last_inode }
{
    let mut count = 0;
    for before in 0..geometry.last_inode {
        count += u16::from(is_file(image, geometry, before + 1));
    }
    count
}

/// True if i-node `i` is a regular file.
fn is_file(image: &Image, geometry: &Geometry, i: u16) -> bool
    requires fits { Fits geometry.now image.now }
    requires first { 1 ≤ i }
    requires last { i ≤ geometry.now.last_inode }
    ensures { result ≡ is_kind kinds.Regular (kind_at geometry.now image.now i) }
{
    matches!(kind(image, geometry, i), Kind::Regular)
}
