//! The owner of the log.
ghost use Rattle.std.specs.Prelude.{◌≡◌, ◌++◌, ◌∷◌, [], length, IfSome};
ghost use mathlib.Core.List.{IsPrefix};
ghost use Rattle.vol_views.specs.LogRule.{first_log};
ghost use Rattle.vol_views.specs.declared.history.LogEntry.TheVariants.{Made};

use crate::history::LogEntry;
use crate::log_pens::new_pen;
use crate::log_rule::{Append, Begin, Beginning, Compare, Head, Nothing, OneOwner};
use crate::seen_prefix::SeenPrefix;
use logbook::{Offer, Pen, Seen, Start};
use std::marker::Model;
use vol_volume::{Record, Volume};

/// The owner of a volume's log. Only the owner appends to the log, so it knows all of it.
#[derive(Drop)]
pub struct Ledger {
    head: Head,
    seen: Beginning,
    pen: Pen,
    made: u64,
}

impl Model for Ledger {
    ghost use Rattle.std.specs.Prelude.{◌≡◌, ◌+◌, length};
    ghost use Rattle.logbook.specs.Pages.{nib, may_write};
    ghost use Rattle.vol_views.specs.History.{Reached};
    ghost use Rattle.vol_views.specs.LogRule.{head_of};

    ghost Value = { Reached };

    ghost view = { λ l. record { book = l.seen.book; log = l.seen.log } };

    ghost invariant = { λ l. (l.head ≡ head_of l.seen.book)
        × (l.pen.book ≡ l.seen.book)
        × (l.pen.nib ≡ nib may_write (length l.seen.log) 0)
        × (length l.seen.log ≡ l.made + 1) };
}

/// The right to append one entry.
#[derive(Drop)]
pub struct Permit {
    pen: Pen,
    at: u64,
}

impl Model for Permit {
    ghost use Rattle.std.specs.Prelude.{◌≡◌, ◌+◌, ◌<◌, ◌^◌};
    ghost use Rattle.logbook.specs.Pages.{nib, may_write};
    ghost use Rattle.vol_views.specs.History.{Allowed};

    ghost Value = { Allowed };

    ghost view = { λ p. record { book = p.pen.book; at = p.at } };

    ghost invariant = { λ p. (p.pen.nib ≡ nib may_write (p.at + 1) 0) × (p.at + 1 < 2 ^ 64) };
}

impl Ledger {
    /// Returns the owner of a new log whose first entry is the opening of `volume`. It never returns `None`, but no contract can state this: `None`
    /// would mean that the log's first word had lost the number that it was just given.
    ///
    /// Takes no memory.
    pub fn open(volume: &Volume) -> Option<Ledger>
        ensures { IfSome result (λ ledger. ledger.log ≡ first_log volume.now) }
    {
        let (seen, mut pens) = Seen::open_row::<Volume, Begin>(volume, Start::alone(), 1);
        let mut pen = pens.take();
        let head: Head = Head::tracked(0, &mut pen);
        let pen = new_pen(&head, &seen, 0)?;
        Some(Ledger {
            head,
            seen,
            pen,
            made: 0,
        })
    }

    /// Returns the right to append the next entry, or `None` if the log has 2^64 - 1 entries or this right
    /// was already given.
    pub fn ready(&self) -> Option<Permit>
        ensures book { IfSome result (λ permit. permit.book ≡ self.now.book) }
        ensures next { IfSome result (λ permit. permit.at ≡ length self.now.log) }
    {
        let at = self.made.checked_add(1)?;
        if at == u64::MAX {
            return None;
        }
        let pen = new_pen(&self.head, &self.seen, at)?;
        Some(Permit { pen, at })
    }

    /// Appends the record of an accepted call.
    pub fn append(&mut self, permit: Permit, made: &Record)
        requires book { permit.book ≡ self.old.book }
        requires next { permit.at ≡ length self.old.log }
        ensures book { self.new.book ≡ self.old.book }
        ensures log { self.new.log ≡ self.old.log ++ Made made.now ∷ [] }
    {
        let mut offer: Offer<LogEntry, u64, OneOwner, Nothing> = self
            .seen
            .plain::<Nothing, Record, Append>(made);
        self.head
            .compare_exchange::<Append, Nothing>(0, 0, &mut self.seen, &mut offer, &mut self.pen);
        self.pen = permit.pen;
        self.made += 1;
    }

    /// Returns the whole log as a prefix.
    pub fn prefix(&self) -> SeenPrefix
        ensures { result ≡ self.now }
    {
        SeenPrefix {
            seen: self.seen.again(),
        }
    }

    /// Does nothing; its contract says that the whole log extends each of its prefixes.
    pub fn covers(&mut self, prefix: &SeenPrefix)
        requires { prefix.now.book ≡ self.old.book }
        ensures same { self.new ≡ self.old }
        ensures covers { IsPrefix prefix.now.log self.old.log }
    {
        let mut both = self.seen.again();
        both.learn(&prefix.seen);
        let mut offer: Offer<LogEntry, u64, OneOwner, Nothing> = both.plain::<Nothing, (), Compare>(
            &(),
        );
        self.head
            .compare_exchange::<Compare, Nothing>(0, 0, &mut both, &mut offer, &mut self.pen);
    }
}
