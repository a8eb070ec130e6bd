//! The laws about the archives and the texts of lists. The functions do nothing that counts; their proved contracts are the laws.
ghost use Rattle.pack_lists.specs.Laws.{ListsAreReadBack, ListsReadAsWritten};

use vol_import::laws::members_are_read_back;

/// The archive of the members of a list, none of whose paths has more than 100 bytes, is read by `vol_import::members` as these members, in their order:
/// each with its kind, permissions, owner, time, path, the path that it links to, the number of its device, and its bytes.
pub fn lists_are_read_back()
    ensures { ListsAreReadBack }
{
    members_are_read_back();
}

/// The text of a list is read as this list, if its numbers have the bits of their types, its permissions are at most octal 7777, its paths, in the volume and
/// outside it, are words, and each link has the time of the volume.
pub fn lists_read_as_written()
    ensures { ListsReadAsWritten }
{}
