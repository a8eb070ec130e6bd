//! The invariant of the published version and its readers, and the effect of each step.
use crate::published::{Operation, Published};
use crate::seen_prefix::SeenPrefix;
use atomic_table::{Join, Split};
use crossbeam_utils::rule::{Outcome, Protocol};
use left_right::writer::Writer;

/// The rule: the published version is consistent with its log prefix, and this prefix extends the one that each reader knows.
pub struct OneHistory;

impl Protocol<Published, SeenPrefix> for OneHistory {
    ghost use Rattle.vol_views.specs.PublishedRule.{Holds, nothing_reached};

    ghost holds = { Holds };

    ghost first = { nothing_reached };
}

/// The two copies of the published version, as their owner holds them.
pub(crate) type Copies = Writer<Published, Operation, SeenPrefix, OneHistory>;

/// Shows the next version.
pub(crate) struct Show;

impl Outcome<Published, SeenPrefix> for Show {
    ghost use Rattle.std.specs.Prelude.{◌≡◌};

    ghost then = { λ before shown next after. after ≡ next.prefix };
}

/// Enters the published version to read it.
pub(crate) struct Enter;

impl Outcome<Published, SeenPrefix> for Enter {
    ghost use Rattle.vol_views.specs.PublishedRule.{Enters};

    ghost then = { Enters };
}

/// Tells a reader the log prefix that the owner knows.
pub(crate) struct Tell;

impl Split<SeenPrefix> for Tell {
    ghost left = { λ known. known };

    ghost right = { λ known. known };
}

/// Makes a reader learn a log prefix that was reported to it.
pub(crate) struct Learn;

impl Join<SeenPrefix> for Learn {
    ghost use Rattle.vol_views.specs.PublishedRule.{nothing_reached};

    ghost both = { λ known reported. reported };

    ghost spent = { nothing_reached };
}
