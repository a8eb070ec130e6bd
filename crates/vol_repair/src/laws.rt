//! The laws about repaired copies. Each function does nothing; its proved contract is the law.
ghost use Rattle.vol_repair.specs.Laws.{CopiesLonger, KeepsRightFiles};

/// What is saved after an image was made longer is a copy of the image that was read: its lines tell all that differs but the number of blocks.
pub fn longer_copies_are_copies()
    ensures { CopiesLonger }
{}

/// What is whole of an image with lost blocks, and fits, is right in its repaired copy, whatever the lost blocks held and however many blocks the copy has.
pub fn repaired_files_are_right()
    ensures { KeepsRightFiles }
{}
