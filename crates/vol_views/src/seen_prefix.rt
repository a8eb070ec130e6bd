//! Observed prefixes of the log.
ghost use Rattle.std.specs.Prelude.{◌≡◌, ◌⊎◌};
ghost use mathlib.Core.List.{IsPrefix};

use crate::log_rule::Beginning;
use std::marker::Model;

/// A prefix of a volume's log that was observed; the log always extends it. It has no size at run time.
#[derive(Drop)]
pub struct SeenPrefix {
    pub(crate) seen: Beginning,
}

impl Model for SeenPrefix {
    ghost use Rattle.vol_views.specs.History.{Reached};

    ghost Value = { Reached };

    ghost view = { λ f. record { book = f.seen.book; log = f.seen.log } };
}

impl SeenPrefix {
    /// Returns a copy.
    pub fn again(&self) -> SeenPrefix
        ensures { result ≡ self.now }
    {
        SeenPrefix {
            seen: self.seen.again(),
        }
    }

    /// Does nothing; its contract says that of two prefixes of one log, one is a prefix of the other.
    pub fn in_line(&self, other: &SeenPrefix)
        requires { other.now.book ≡ self.now.book }
        ensures { IsPrefix self.now.log other.now.log ⊎ IsPrefix other.now.log self.now.log }
    {
        let mut both = self.seen.again();
        both.learn(&other.seen);
    }
}
