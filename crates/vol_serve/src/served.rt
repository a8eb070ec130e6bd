//! The volume that is served.
ghost use Rattle.std.specs.Prelude.{◌≡◌};
ghost use Rattle.vol_layout.specs.Geometry.{Fits};
ghost use Rattle.vol_serve.specs.Statistics.{statistics_of};

use fuse_words::Statistics;
use pdp_words::Image;
use vol_layout::Geometry;

/// A volume that is served.
#[derive(Drop)]
pub(crate) struct Served<'a> {
    /// The image.
    pub(crate) image: &'a Image,
    /// The image's geometry.
    pub(crate) geometry: &'a Geometry,
    /// The volume's sizes.
    pub(crate) sizes: &'a Statistics,
    pub(crate) ghost fits: { Fits geometry.now image.now },
    pub(crate) ghost counted: { sizes.now ≡ statistics_of geometry.now image.now },
}
