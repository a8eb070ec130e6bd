//! The invariant of the log, and the effect of each step.
use crate::history::LogEntry;
use logbook::{Gain, Opening, Plain, Play, Rule, Seen, Word};
use vol_volume::{Record, Volume};

/// The rule of the log: each entry except the first takes a word that only one pen may write.
pub struct OneOwner;

impl Rule<LogEntry, u64> for OneOwner {
    ghost use Rattle.std.specs.Prelude.{[]};
    ghost use base.Fml.{ftrue};
    ghost use Rattle.vol_views.specs.LogRule.{IsKept};

    ghost holds = { λ cells log. IsKept cells log };

    ghost first = { [] };

    ghost hinted = { λ n log. Unit {0} };

    ghost shows = { λ log. [] };

    ghost keeps = { λ names log. ftrue };

    ghost moves = { λ ask before after answer. Unit {0} };
}

/// The word that all steps act on. Its value is the number of words after it.
pub(crate) type Head = Word<LogEntry, u64, OneOwner>;

/// A prefix of the log that was observed.
pub(crate) type Beginning = Seen<LogEntry, u64, OneOwner>;

/// A gain without conditions.
pub(crate) struct Nothing;

impl Gain<LogEntry, u64> for Nothing {
    ghost use base.Fml.{ftrue};

    ghost after = { λ names about answer. ftrue };
}

/// The log of a volume that is opened.
pub(crate) struct Begin;

impl Opening<Volume, LogEntry> for Begin {
    ghost use Rattle.vol_views.specs.LogRule.{first_log};

    ghost log = { λ count volume. first_log volume };
}

/// A step that adds a word and returns a pen for it.
pub(crate) struct Add;

impl Play<LogEntry, u64> for Add {
    ghost use Rattle.vol_views.specs.LogRule.{Adds};

    ghost then = { Adds };
}

/// A step that appends an entry.
pub(crate) struct Append;

impl Play<LogEntry, u64> for Append {
    ghost use Rattle.vol_views.specs.LogRule.{Appends};

    ghost then = { Appends };
}

/// Appends the record of an accepted call.
impl Plain<Record, LogEntry, u64> for Append {
    ghost use Rattle.std.specs.Prelude.{None};
    ghost use Rattle.vol_views.specs.declared.history.LogEntry.TheVariants.{Made};

    ghost ask = { λ entry. Made entry };

    ghost state = { λ entry. None };
}

/// A step that compares the log's length.
pub(crate) struct Compare;

impl Play<LogEntry, u64> for Compare {
    ghost use Rattle.vol_views.specs.LogRule.{Compares};

    ghost then = { Compares };
}

/// A step that appends nothing has no entry to append.
impl Plain<(), LogEntry, u64> for Compare {
    ghost use Rattle.std.specs.Prelude.{None};
    ghost use Rattle.vol_views.specs.LogRule.{no_entry};

    ghost ask = { λ about. no_entry };

    ghost state = { λ about. None };
}
