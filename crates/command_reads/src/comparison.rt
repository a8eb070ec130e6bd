//! `diff`: shows how two images differ, in their trees or field by field.
ghost use Rattle.command_faults.specs.Streams.{streams};
ghost use Rattle.command_reads.specs.Comparison.{ShowsComparison};

use crate::diff::{NamedImage, diff_fields};
use crate::print::print;
use crate::tree_diff::show_tree_diff;
use command_faults::Ending;
use command_terms::Comparison;
use pdp_words::Sink;
use std::alloc::Global;
use vol_layout::Edition;

/// Shows how two images differ, one line each: their paths, as [`show_tree_diff`] does, or their fields. The images must keep rules 1 and 2, and may
/// be any bytes otherwise. The status is 0 if they don't differ, 1 if they do or one of them breaks one of these rules; 3 if `output` failed, 4 if
/// memory ran out. Of fields, and as JSON, nothing is printed until the whole text is ready.
pub fn show_comparison<O: Sink>(
    alloc: Global,
    edition: Edition,
    old: NamedImage<'_>,
    new: NamedImage<'_>,
    by: Comparison,
    output: &mut O,
) -> Ending
    ensures { ShowsComparison edition old.entry new.entry by (streams O.contents O.failed output.old output.new result.fault) result.status }
{
    match by {
        Comparison::Tree { times, form } => {
            show_tree_diff(alloc, edition, old, new, times, form, output)
        }
        Comparison::Fields { all, form } => {
            print(diff_fields(alloc, edition, old, new, all, form), output)
        }
    }
}
