//! The laws about what `repair` and `build` save, and about `sync`. The functions have no effect: their proved contracts are the laws.
ghost use Rattle.command_changes.specs.Laws.{RepairsAreCopies, RescuedFilesAreRight, RescuesAreCopies, SameTreesAreThere, VolumesHaveTheirLists};

use pack_lists::laws::lists_are_read_back;
use vol_repair::laws::repaired_files_are_right;

/// What `repair` saves, with or without lost blocks, is a sound volume with as many blocks as were asked for, or as the image has, if that is more. Its i-list
/// has the same size and its boot block the same bytes, each file that fits in the image is kept, and the lines tell all that differs but the number of
/// blocks.
pub fn repairs_are_copies()
    ensures repaired { RepairsAreCopies }
    ensures rescued { RescuesAreCopies }
{}

/// A file that fits and of which nothing is lost is right in what `repair` saves, whatever the lost blocks held and however many blocks were asked for.
pub fn rescued_files_are_right()
    ensures { RescuedFilesAreRight }
{
    repaired_files_are_right();
}

/// What `build` saves has all members of its list, each with the kind, permissions, owner, time, bytes, link and device that the list says, if none of their
/// paths has more than 100 bytes; and its root has the permissions that the list says.
pub fn volumes_have_their_lists()
    ensures { VolumesHaveTheirLists }
{
    lists_are_read_back();
}

/// If `sync` has no call to make, each folder is a directory of the volume, and each file has its bytes there.
pub fn same_trees_are_there()
    ensures { SameTreesAreThere }
{}
