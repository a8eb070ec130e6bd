//! Judges the volume in a file as one of each edition.
ghost use Rattle.std.specs.Prelude.{◌≡◌, IfOk};
ghost use Rattle.pack_files.specs.Verdicts.{AreVerdicts, only_sound};

use crate::judged_packs::{PackFault, judged_at};
use host_files::ImageFiles;
use vol_layout::Edition;

/// The first rule that a volume breaks as one of each edition; `None` if it is sound as one.
#[derive(Clone, Copy)]
pub struct Verdicts {
    /// That of the sixth edition.
    pub sixth: Option<u8>,
    /// That of the seventh.
    pub seventh: Option<u8>,
}

impl Verdicts {
    /// Returns the edition of which the volume is sound. Returns `None` if it is sound as one of neither, or of both.
    pub fn only_sound(self) -> Option<Edition>
        ensures { result ≡ only_sound self }
    {
        match (self.sixth, self.seventh) {
            (None, Some(_)) => Some(Edition::V6),
            (Some(_), None) => Some(Edition::V7),
            (None, None) | (Some(_), Some(_)) => None,
        }
    }
}

/// Judges the volume that begins at block `at` of a file as one of each edition. Opens the file twice, and takes memory for one of the two volumes at a
/// time.
pub fn judge_twice<R: ImageFiles + AllocGlobal>(
    rt: &R,
    path: &str,
    at: u32,
) -> Result<Verdicts, PackFault>
    ensures { IfOk result (AreVerdicts R.File.remaining at) }
{
    let sixth = judged_at(rt, path, at, Edition::V6)?;
    let seventh = judged_at(rt, path, at, Edition::V7)?;
    Ok(Verdicts { sixth, seventh })
}
