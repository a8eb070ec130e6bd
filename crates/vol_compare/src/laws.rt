//! Laws of the differences between two trees. The functions do nothing; their proved contracts are the laws.
ghost use Rattle.vol_compare.specs.Laws.{HasAnItemForEachLine, HasNoItemIfSilent, TellsNothingIfEqual};

/// There is no line if and only if the lists of members are equal, in whatever order they are, and no path in them is too long to be followed.
pub fn equal_members_have_no_lines()
    ensures { TellsNothingIfEqual }
{}

/// In JSON there are as many items as lines.
pub fn each_line_has_an_item()
    ensures { HasAnItemForEachLine }
{}

/// In JSON there is no item if and only if there is no line.
pub fn no_lines_are_no_items()
    ensures { HasNoItemIfSilent }
{}
