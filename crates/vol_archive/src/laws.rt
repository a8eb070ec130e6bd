//! Laws about the members of an archive. The functions do nothing; their proved contracts are the laws.
ghost use Rattle.vol_archive.specs.Laws.{
  MembersAreOfTree,
  MembersAscend,
  MembersDiffer,
  DirectoriesAreWhole,
  EntriesHaveNodes,
  DirectoriesAreMetOnce,
  MembersAreTheTree,
  MembersHaveNodes,
  NodesAreRescued,
};

/// In every image, the path of each member leads from the exported directory to the member's i-number.
pub fn members_are_of_the_tree()
    ensures { MembersAreOfTree }
{}

/// In every image, members are in ascending order of the names in their paths, so no path occurs twice.
pub fn members_ascend()
    ensures ascending { MembersAscend }
    ensures once { MembersDiffer }
{}

/// In every image, the walk visits all names in the exported directory and in each directory that is a member. Each becomes a member, or has a reason
/// why it is left out.
pub fn directories_are_whole()
    ensures { DirectoriesAreWhole }
{}

/// In an image where each i-node has a kind, and each entry has a name and an i-node, no entry is left out because of its i-node or its name.
pub fn entries_have_nodes()
    ensures { EntriesHaveNodes }
{}

/// In an image whose directories form a tree, each directory below the exported one is visited once.
pub fn directories_are_met_once()
    ensures { DirectoriesAreMetOnce }
{}

/// In a sound image, the members are exactly the tree below the exported directory, if no path in it has more than 4,096 bytes.
pub fn members_are_the_tree()
    ensures { MembersAreTheTree }
{}

/// In every image, each member is for a node of the tree: its header has the permissions, owner, group and time that a Stat of its path returns. A
/// regular file also has its size and, after the header, the bytes that a Read returns; another name has the path of the first one.
pub fn members_have_nodes()
    ensures { MembersHaveNodes }
{}

/// In every image, a rescue from the root takes out each node from the root's i-number on, except the root's own directory: none is out of reach.
pub fn nodes_are_rescued()
    ensures { NodesAreRescued }
{}
