//! `sums`: a manifest of everything below a directory, with the SHA-256 of each file.
ghost use Rattle.std.specs.Prelude.{◌≡◌, [], IfOk};
ghost use Rattle.vol_layout.specs.Geometry.{Fits};
ghost use Rattle.vol_listing.specs.Listings.{shown_path};
ghost use Rattle.command_reads.specs.Print.{IsSight, telling};
ghost use Rattle.command_reads.specs.Sums.{AreSumsIn, IsManifest, IsManifestFault, as_exported, sums_sights};

use crate::export::{begun, ending_with, walk_all};
use crate::losses::{is_graded, remarks_on};
use crate::print::Shown;
use crate::unreached::unreached;
use command_faults::Fault;
use command_terms::{ExportOptions, LossOptions, OutputForm};
use pdp_words::Image;
use std::alloc::{AllocError, Global};
use vol_archive::MetEntry;
use vol_layout::{Edition, Geometry};
use vol_listing::{shown_path, sums_json, sums_text};
use vol_rescue::without_damaged;

/// Returns a manifest of everything below the directory at a path: each node in the order of an archive, with its path, its attributes, and the
/// SHA-256 of a regular file's bytes. With `lost`, also has the i-nodes that no entry names, as an export has. The image must keep rules 1 and 2, and
/// may be any bytes otherwise. The status is 0 for a sound image whose entries are all in the manifest; 1, with the lines of an export, if the image
/// isn't sound or an entry is left out. Fails if the image breaks one of these rules, the path leads to no directory, or memory ran out.
///
/// Costs the walk, [`vol_judge::judge`], for an unsound image also [`vol_inspect::lost_inodes`], and reading the bytes of the files. Takes memory for
/// all paths and for the text.
pub(crate) fn sums(
    alloc: Global,
    edition: Edition,
    image: &Image,
    path: &str,
    form: OutputForm,
    lost: bool,
) -> Result<Shown, Fault>
    ensures { IsSight (telling 1 (IsManifest edition image.now [] path.now form lost) (IsManifestFault edition image.now path.now lost)) result }
{
    sums_of(alloc, edition, image, &[], path, form, lost)
}

/// Returns a manifest of everything below the directory at a path, as [`sums`] does, of an image with lost blocks. If there are marks, a file of which bytes
/// are lost has no sum, an entry whose i-node is lost is left out, the lines are those about what is lost, and the status is 5 if anything is damaged or
/// left out, else 1. If the path leads to no directory but something is lost on the way, nothing is shown, with the lines about that and status 5.
///
/// Costs what [`sums`], [`without_damaged`] and [`tell_losses`](vol_rescue::tell_losses) cost.
pub(crate) fn sums_of(
    alloc: Global,
    edition: Edition,
    image: &Image,
    marks: &[bool],
    path: &str,
    form: OutputForm,
    lost: bool,
) -> Result<Shown, Fault>
    ensures { IsSight (sums_sights edition image.now marks.now path.now form lost) result }
{
    let start = match begun(edition, image, path.as_bytes(), lost) {
        Ok(start) => start,
        Err(why) => return unreached(alloc, edition, image, marks, path.as_bytes(), why),
    };
    let geometry = &start.geometry;
    let rescue = walk_all(alloc, image, geometry, start.inode, lost)?;
    let options = as_exported(lost);
    let remarks = remarks_on(alloc, edition, image, marks, &start, &rescue, options)?;
    let kept = without_damaged(alloc, image, geometry, marks, true, rescue.founds)?;
    let top = shown_path(alloc, path.as_bytes())?;
    let text = sums_in(alloc, image, geometry, marks, &top, &kept, form)?;
    let ending = ending_with(is_graded(false, marks), remarks);
    Ok(Shown { text, ending })
}

/// Returns the options of the export that has the same entries and the same remarks.
fn as_exported(lost: bool) -> ExportOptions
    ensures { result ≡ as_exported lost }
{
    ExportOptions {
        lost,
        graded: false,
        losses: LossOptions {
            cut: false,
            damaged: false,
        },
    }
}

/// Returns the text of a manifest of the directory at path `top` in this format.
fn sums_in(
    alloc: Global,
    image: &Image,
    geometry: &Geometry,
    marks: &[bool],
    top: &[u8],
    founds: &[MetEntry],
    form: OutputForm,
) -> Result<Vec<u8>, AllocError>
    requires { Fits geometry.now image.now }
    ensures { IfOk result (λ text. AreSumsIn geometry.now image.now marks.now top.now founds.now form text.items) }
{
    match form {
        OutputForm::Text => sums_text(alloc, image, geometry, marks, founds),
        OutputForm::Json => {
            let text = sums_json(alloc, image, geometry, marks, top, founds)?;
            Ok(text.into_bytes())
        }
    }
}
