//! A sweep over an image.
ghost use Rattle.vol_check.specs.Shapes.{IsShaped};

use crate::checker::Checker;
use count_table::Tally;
use vol_layout::{Edition, Geometry, GeometryFault};
use vol_reports::LinkCount;

/// A sweep over an image: the counts that all its seats add to. It doesn't borrow the image.
#[derive(Drop)]
pub struct Sweep {
    pub(crate) tally: Tally,
    pub(crate) edition: Edition,
    pub(crate) checker: Checker,
    /// The geometry of the image that the sweep was made for, or the fault of an image without geometry.
    pub(crate) layout: Result<Geometry, GeometryFault>,
    /// The number of pieces.
    pub(crate) pieces: u64,
    /// For each i-number, the number of pieces before its first one, then the total, if the pieces are parts of directories.
    pub(crate) starts: Vec<u32>,
    /// The link counts, if the report is on entries.
    pub(crate) links: Vec<LinkCount>,
    ghost shaped: { IsShaped checker layout pieces starts.items links.items tally.table.shared.key },
}
