//! Reads lists of what a new volume has.
ghost use Rattle.std.specs.Prelude.{◌≡◌, ◌==◌, Ok, IfOk, IfErr};
ghost use Rattle.std.specs.List.{slice_split};
ghost use Rattle.pack_lists.specs.Drafts.{blank, drafted, with_lines};
ghost use Rattle.pack_lists.specs.Faults.{Tells};
ghost use Rattle.pack_lists.specs.Lists.{list_in, listed};

use crate::draft::Draft;
use crate::faults::ListFault;
use crate::members::{HostPath, ListedMember, ListedVolume, RootMarks};
use line_words::Pieces;
use std::alloc::Global;

/// What a new volume has.
#[derive(Drop)]
pub struct PackList {
    /// The volume.
    pub volume: ListedVolume,
    /// The path of the file, outside the volume, with its boot block; or none, if it is zeros.
    pub boot: Option<HostPath>,
    /// The permissions and the owner of its root; or none, if they are those of `mkfs`, for user 0 and group 0.
    pub root: Option<RootMarks>,
    /// The members, in their order.
    pub members: Vec<ListedMember>,
}

/// Reads a list from a text. The fault is the first line that can't be read, with its number and its first flaw; or that a line is missing.
///
/// Takes memory for the paths of the members, and for a list of these. Costs the length of the text.
pub fn read_list(alloc: Global, text: &[u8]) -> Result<PackList, ListFault>
    ensures ok { IfOk result (λ list. list_in text.now ≡ Ok (listed list)) }
    ensures fault { IfErr result (Tells (list_in text.now)) }
{
    read_lines(alloc, text)?.finish()
}

/// Reads all lines of a text.
fn read_lines(alloc: Global, text: &[u8]) -> Result<Draft, ListFault>
    ensures ok { IfOk result (λ draft. with_lines 1 blank (slice_split (λ b. b == 10) text.now) ≡ Ok (drafted draft)) }
    ensures fault { IfErr result (Tells (with_lines 1 blank (slice_split (λ b. b == 10) text.now))) }
{
    let mut draft = Draft::new(alloc);
    let mut lines = Pieces::of(b'\n', text);
    let mut number = 1;
    'lines: while let Some(line) = lines.take_next() {
        if let Err(fault) = draft.take_line(alloc, line) {
            return Err(fault.in_line(number));
        }
        number += 1;
    }
    Ok(draft)
}
