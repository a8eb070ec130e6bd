//! Laws about the entries of an image with lost blocks, and about the members of its archive. The functions do nothing; their proved contracts are the laws.
ghost use Rattle.vol_rescue.specs.KnownOutcomes.{KnownFindingsAreRight};
ghost use Rattle.vol_rescue.specs.Laws.{ArchivesAreRight, CutArchivesAreRight, MembersAreRight};
ghost use Rattle.vol_rescue.specs.Paths.{PathsLeadRight};

/// What is exported without the damaged files is right, whatever the lost blocks held.
pub fn members_are_right()
    ensures members { MembersAreRight }
    ensures archive { ArchivesAreRight }
{}

/// What is exported of a cut image without the damaged files is what the whole image holds.
pub fn cut_archives_are_right()
    ensures { CutArchivesAreRight }
{}

/// The path of each member leads where it leads, whatever the lost blocks held, if no directory above it has damage.
pub fn paths_are_right()
    ensures { PathsLeadRight }
{}

/// A violation of rule 3, 4 or 9 that rests on no lost block is one of the image as it was, whatever the lost blocks held.
pub fn known_findings_are_right()
    ensures { KnownFindingsAreRight }
{}
