//! A law of the words of `ls`. Calling it does nothing; its contract is proved.
ghost use Rattle.command_line.specs.Laws.{ReadsListing};

/// `unixvol ls EDITION IMAGE PATH`, if neither word begins with a hyphen, lists the names in that directory of the
/// volume in that file, and nothing else.
pub fn words_ask_for_listings()
    ensures { ReadsListing }
{}
