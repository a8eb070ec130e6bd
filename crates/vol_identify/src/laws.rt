//! Laws about guesses and packs. These functions do nothing: their purpose is the contract, which is proved.
ghost use Rattle.vol_identify.specs.Laws.{FindsSound, GuessesSound};

/// A sound volume of a pack, whatever is before and after it, is found as a volume at its place, unless it is inside a volume that is found.
pub fn sound_volumes_are_found()
    ensures { FindsSound }
{}

/// An image that begins with a sound volume, whatever is after it and in its boot block, is guessed to be that volume.
pub fn sound_volumes_are_guessed()
    ensures { GuessesSound }
{}
