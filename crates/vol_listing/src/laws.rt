//! Laws of the output of `ls` and `sums`. Calling them does nothing; their contracts are proved.
ghost use Rattle.vol_listing.specs.KnownSums.{KnownSumsAreRight, RowsAreRight};
ghost use Rattle.vol_listing.specs.Laws.{ListsNames, DatesAreOfTheCalendar};

/// `ls` prints all names of the directory that its path leads to.
pub fn listings_have_all_names()
    ensures { ListsNames }
{}

/// The date and the time of day on a long line follow the Gregorian calendar, as `jiff` defines it: only this date is that many days after 1 January
/// 1970.
pub fn dates_are_of_the_calendar()
    ensures { DatesAreOfTheCalendar }
{}

/// What a manifest says of a node is right, whatever the lost blocks held: the sum of a file that has one, and the attributes of every i-node whose block
/// isn't lost.
pub fn manifests_are_right()
    ensures sums { KnownSumsAreRight }
    ensures rows { RowsAreRight }
{}
