//! The contents of the lock.
ghost use Rattle.std.specs.Prelude.{◌≡◌, ◌+◌, ◌<◌, ◌^◌, ◌≤◌, ◌⊎◌, length, true, None, Some, IfOk, IfErr, OnErr, IfSome};
ghost use Rattle.vol_views.specs.LogRule.{first_log};
ghost use Rattle.vol_views.specs.Logs.{number_of};
ghost use Rattle.vol_receipts.specs.Agrees.{next_of};
ghost use Rattle.vol_receipts.specs.declared.receipts.Asked.TheVariants.{Change, Question};
ghost use Rattle.vol_volume.specs.Answer.{takes_memory};
ghost use Rattle.vol_volume.specs.Verdict.{verdict};
ghost use Rattle.vol_volume.specs.Volume.{after_cut, reads_as};
ghost use Rattle.vol_views.specs.Views.{book_in};
ghost use Rattle.vol_shared.specs.Stored.{stored_of, stored_with, unpublished, next_number, IsUnchanged, IsCut};
ghost use Rattle.vol_shared.specs.Plays.{IsAnswered};
ghost use Rattle.vol_shared.specs.Published.{IsPublished};

use crate::publish::change_published;
use crate::snapshot::LockedVolume;
use std::alloc::{AllocError, Global};
use std::marker::Model;
use std::snapshot::Snapshot;
use std::sync::Wait;
use vol_receipts::{Receipt, change, reply};
use vol_views::{LogPrefix, Publisher};
use vol_volume::{Call, Query, Volume};

/// The contents of the lock: the volume and, if it has views, the publisher of its records. The next record's
/// number is below 2^64.
pub struct Stock {
    pub(crate) volume: Volume,
    pub(crate) publisher: Option<Publisher>,
}

impl Model for Stock {
    ghost use Rattle.std.specs.Prelude.{◌<◌, ◌^◌, IfSome};
    ghost use Rattle.vol_views.specs.Views.{book_in};
    ghost use Rattle.vol_shared.specs.Stored.{Stored, stored_of, stored_with, next_number};
    ghost use Rattle.vol_shared.specs.Published.{IsPublished};

    ghost Value = { Stored };

    ghost view = { λ s. stored_with (book_in s.publisher) s.volume };

    ghost invariant = { λ s. (next_number (stored_of s.volume) < 2 ^ 64)
        × IfSome s.publisher (λ p. IsPublished p.log (stored_of s.volume)) };
}

impl Stock {
    /// Wraps a volume; hands it back if its next record number isn't below 2^64.
    pub(crate) fn new(volume: Volume) -> Result<Stock, Volume>
        ensures stored { IfOk result (λ stock. stock ≡ stored_of volume) }
        ensures same { IfErr result (λ same. same ≡ volume) }
    {
        let records = volume.journal().len() as u64;
        if volume.first().checked_add(records).is_none() {
            return Err(volume);
        }
        Ok(Stock {
            volume,
            publisher: None,
        })
    }

    /// Wraps a volume that is published as it is.
    pub(crate) fn with_publisher(volume: Volume, publisher: Publisher) -> Stock
        requires { publisher.log ≡ first_log volume }
        ensures { result ≡ stored_with (Some publisher.book) volume }
    {
        let _next = publisher.next_record();
        Stock {
            volume,
            publisher: Some(publisher),
        }
    }

    /// Returns the number of the next record.
    pub(crate) fn end(&self) -> u64
        ensures { result ≡ next_number self.now }
    {
        self.volume.first() + self.volume.journal().len() as u64
    }

    /// Returns a snapshot of the contents, for contracts alone.
    pub(crate) fn kept(&self) -> LockedVolume
        ensures { result ≡ self.now }
    {
        let prefix = match &self.publisher {
            Some(publisher) => Some(publisher.prefix()),
            None => None,
        };
        LockedVolume {
            volume: Snapshot::of(&self.volume),
            prefix,
        }
    }

    /// Returns the progress for a session to keep: the whole published log, if the volume is published.
    pub(crate) fn reported(&self) -> Option<LogPrefix>
        ensures book { book_in result ≡ self.now.book }
        ensures number { IfSome result (λ reported. number_of reported.log ≡ next_number self.now) }
    {
        match &self.publisher {
            Some(publisher) => Some(LogPrefix::of(publisher)),
            None => None,
        }
    }

    /// Makes a call, publishes its record if it is accepted and the volume has views, and returns its
    /// receipt. Reports out of memory only for a call that no refusal applies to, or when record numbers
    /// reach 2^64.
    pub(crate) fn change<R: Wait>(
        self,
        rt: &R,
        alloc: Global,
        call: Call,
        asked: Call,
    ) -> (Stock, Result<Receipt, (AllocError, Call)>)
        requires { asked ≡ call }
        ensures asked { IfOk result.1 (λ receipt. receipt.asked ≡ Change call) }
        ensures numbered { IfOk result.1 (λ receipt. next_of receipt.at receipt.outcome < 2 ^ 64) }
        ensures answered { IfOk result.1 (λ receipt. IsAnswered self result.0 receipt) }
        ensures next { IfOk result.1 (λ receipt. next_number result.0 ≡ next_of receipt.at receipt.outcome) }
        ensures unchanged { OnErr result.1 (IsUnchanged self result.0) }
        ensures memory { OnErr result.1 ((verdict (reads_as self.origin.edition self.image) call ≡ None) ⊎ (2 ^ 64 ≤ next_number self + 1)) }
        ensures handed_back { IfErr result.1 (λ (error, same). same ≡ call) }
    {
        let Stock {
            mut volume,
            publisher,
        } = self;
        match publisher {
            Some(publisher) => change_published(rt, alloc, volume, publisher, call, asked),
            None => {
                let outcome = change(&mut volume, alloc, call, asked);
                let stock = Stock {
                    volume,
                    publisher: None,
                };
                (stock, outcome)
            }
        }
    }

    /// Runs a query and returns its receipt.
    pub(crate) fn reply(&self, alloc: Global, query: Query) -> Result<Receipt, (AllocError, Query)>
        ensures asked { IfOk result (λ receipt. receipt.asked ≡ Question query) }
        ensures numbered { IfOk result (λ receipt. next_of receipt.at receipt.outcome < 2 ^ 64) }
        ensures answered { IfOk result (λ receipt. IsAnswered self.now self.now receipt) }
        ensures next { IfOk result (λ receipt. next_number self.now ≡ next_of receipt.at receipt.outcome) }
        ensures memory { OnErr result (takes_memory query ≡ true) }
        ensures handed_back { IfErr result (λ (error, same). same ≡ query) }
    {
        reply(&self.volume, alloc, query)
    }

    /// Cuts the journal, and returns the number of its first record. Publishes nothing.
    pub(crate) fn cut(self) -> (Stock, u64)
        ensures cut { IsCut self result.0 }
        ensures first { result.1 ≡ next_number self }
    {
        let Stock {
            mut volume,
            publisher,
        } = self;
        volume.check();
        cut_journal(&mut volume);
        let first = volume.first();
        (Stock { volume, publisher }, first)
    }

    /// Returns the volume and its publisher.
    pub(crate) fn into_parts(self) -> (Volume, Option<Publisher>)
        ensures stored { stored_of result.0 ≡ unpublished self }
        ensures numbered { next_number self < 2 ^ 64 }
        ensures book { book_in result.1 ≡ self.book }
        ensures published { IfSome result.1 (λ publisher. IsPublished publisher.log (stored_of result.0)) }
    {
        let Stock { volume, publisher } = self;
        (volume, publisher)
    }

    /// Returns the volume, which must not be published.
    pub(crate) fn into_volume(self) -> Volume
        requires { self.book ≡ None }
        ensures stored { stored_of result ≡ self }
        ensures numbered { next_number self < 2 ^ 64 }
    {
        let (volume, publisher) = self.into_parts();
        match publisher {
            None => volume,
            Some(_) => unreachable!(),
        }
    }
}

/// Cuts a volume's journal.
fn cut_journal(volume: &mut Volume)
    requires { next_number (stored_of volume.old) < 2 ^ 64 }
    ensures { volume.new ≡ after_cut volume.old }
{
    if volume.cut().is_err() {
        unreachable!();
    }
}
