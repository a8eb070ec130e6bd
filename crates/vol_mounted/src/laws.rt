//! Laws of a mounted volume. The functions do nothing; their proved contracts are the laws.
ghost use Rattle.vol_mounted.specs.Laws.{AttributesAreSet, NumbersStayApart, RenamesLead, WritesAreRead};

/// A node number is never used for two nodes that live at different times, unless its i-number was allocated 2^32 - 2 times.
pub fn numbers_stay_apart()
    ensures { NumbersStayApart }
{}

/// After WRITE, READ gives the bytes that were written, and everywhere else what it gave before; no other node changes.
pub fn writes_are_read()
    ensures { WritesAreRead }
{}

/// After SETATTR, GETATTR has the attributes that were set, and nothing else of the node has changed.
pub fn attributes_are_set()
    ensures { AttributesAreSet }
{}

/// After RENAME, the new name leads to what the old one led to, the old one to nothing, unless both led to one node, and all other names stay.
pub fn renames_lead()
    ensures { RenamesLead }
{}
