//! The progress of a volume, as its publisher reports it.
ghost use Rattle.std.specs.Prelude.{◌≡◌, ◌≤◌, IfSome};
ghost use Rattle.vol_views.specs.Logs.{number_of};
ghost use Rattle.vol_views.specs.Views.{GoesOn, book_in};

use crate::publisher::Publisher;
use crate::seen_prefix::SeenPrefix;
use std::marker::Model;

/// A non-empty prefix of a volume's log, and the number of the next record after it. Contracts see the
/// prefix.
#[derive(Drop)]
pub struct LogPrefix {
    pub(crate) prefix: SeenPrefix,
    pub(crate) at: u64,
}

impl Model for LogPrefix {
    ghost use Rattle.std.specs.Prelude.{◌≡◌, ◌≢◌, []};
    ghost use Rattle.vol_views.specs.History.{Reached};
    ghost use Rattle.vol_views.specs.Logs.{number_of};

    ghost Value = { Reached };

    ghost view = { λ t. t.prefix };

    ghost invariant = { λ t. (t.at ≡ number_of t.prefix.log) × (t.prefix.log ≢ []) };
}

impl LogPrefix {
    /// Returns the publisher's whole log.
    pub fn of(publisher: &Publisher) -> LogPrefix
        ensures { result ≡ publisher.now }
    {
        publisher.check();
        LogPrefix {
            prefix: publisher.prefix(),
            at: publisher.next_record(),
        }
    }

    /// Returns a copy.
    pub fn again(&self) -> LogPrefix
        ensures { result ≡ self.now }
    {
        LogPrefix {
            prefix: self.prefix.again(),
            at: self.at,
        }
    }

    /// Does nothing; its contract says that of two prefixes of one log, the one with the greater number
    /// extends the other.
    pub(crate) fn goes_on(&self, later: &LogPrefix)
        requires book { later.now.book ≡ self.now.book }
        requires later { number_of self.now.log ≤ number_of later.now.log }
        ensures { GoesOn self.now.log later.now.log }
    {
        self.prefix.in_line(&later.prefix);
    }

    /// Does nothing; its contract says that the published log extends this prefix.
    pub(crate) fn is_covered(&self, publisher: &mut Publisher)
        requires { self.now.book ≡ publisher.old.book }
        ensures same { publisher.new ≡ publisher.old }
        ensures covered { GoesOn self.now.log publisher.old.log }
    {
        publisher.covers(&self.prefix);
    }

    /// Returns the number of the next record.
    pub fn next_record(&self) -> u64
        ensures { result ≡ number_of self.now.log }
    {
        self.at
    }
}

/// A type that may hold a volume's progress.
pub trait Informed {
    ghost use Rattle.std.specs.Prelude.{Option, ℕ};
    ghost use Rattle.logbook.specs.Pages.{Book};

    ghost book: { Self → Option Book };

    ghost next: { Self → ℕ };

    /// Returns the last prefix of the volume's log that was reported, if any.
    fn reported(&self) -> Option<LogPrefix>
        ensures book { book_in result ≡ Self.book self.now }
        ensures next { IfSome result (λ reported. number_of reported.log ≡ Self.next self.now) };
}
