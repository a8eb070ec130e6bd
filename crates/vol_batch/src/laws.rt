//! A law about removals. The function does nothing; its proved contract is the law.
ghost use Rattle.vol_batch.specs.Laws.{IsOneRemoval};

/// In every tree, exactly one list of calls removes a path.
pub fn removals_are_one()
    ensures { IsOneRemoval }
{}
