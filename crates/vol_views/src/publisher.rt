//! Publishing versions.
ghost use Rattle.std.specs.Prelude.{◌≡◌, ◌≢◌, ◌<◌, ◌+◌, ◌^◌, ◌++◌, ◌∷◌, [], length, IfOk, IfSome, drop};
ghost use mathlib.Core.List.{IsPrefix};
ghost use Rattle.vol_volume.specs.Journal.{MayFollow, after};
ghost use Rattle.vol_receipts.specs.Agrees.{start};
ghost use Rattle.vol_views.specs.LogRule.{first_log};
ghost use Rattle.vol_views.specs.declared.history.LogEntry.TheVariants.{Made};
ghost use Rattle.vol_views.specs.States.{state_of};
ghost use Rattle.vol_views.specs.Absorb.{empty_operation};
ghost use Rattle.vol_views.specs.Logs.{history_of, origin_in, number_of};

use crate::ledger::{Ledger, Permit};
use crate::published::{Operation, Published};
use crate::published_rule::{Copies, Learn, Tell};
use crate::seen_prefix::SeenPrefix;
use crate::show::{add, show};
use crate::subscriber::Subscriber;
use crate::version::Version;
use std::alloc::{AllocError, Global};
use std::marker::Model;
use std::sync::Wait;
use vol_volume::{Record, Volume};

/// The owner of a volume's log and of the two copies of its version that readers use. It is never dropped:
/// [`Publisher::end`] ends it.
pub struct Publisher {
    ledger: Ledger,
    copies: Copies,
}

impl Model for Publisher {
    ghost use Rattle.std.specs.Prelude.{◌≡◌, [], drop};
    ghost use Rattle.vol_views.specs.History.{Reached};
    ghost use Rattle.vol_views.specs.PublishedRule.{IsRight};

    ghost Value = { Reached };

    ghost view = { λ p. p.ledger };

    ghost invariant = { λ p. (p.copies.desk.place.me.0.client ≡ p.ledger)
        × (p.copies.desk.shown.value.prefix ≡ p.ledger)
        × IsRight p.copies.desk.shown.value
        × (drop p.copies.behind p.copies.log.items ≡ []) };
}

impl Publisher {
    /// Publishes a volume as it is, for at most `readers` readers.
    ///
    /// Takes memory for two copies of the image, and a few bytes for each reader.
    pub fn open<R: Wait>(
        rt: &R,
        alloc: Global,
        volume: &Volume,
        readers: usize,
    ) -> Result<Publisher, AllocError>
        requires { readers < 2 ^ 32 }
        ensures { IfOk result (λ publisher. publisher.log ≡ first_log volume.now) }
    {
        let Some(ledger) = Ledger::open(volume) else {
            return Err(AllocError);
        };
        let at = next_number(volume)?;
        let first = first_version(alloc, volume, at, &ledger)?;
        let second = first_version(alloc, volume, at, &ledger)?;
        let copies = Copies::new(alloc, first, second, readers.max(1))?;
        let copies = make_room(rt, copies, at, &ledger)?;
        let copies = show(rt, copies);
        // After the second copy has taken the operations too, there is room for two more.
        let copies = show(rt, copies);
        Ok(Publisher { ledger, copies })
    }

    /// Returns the number of the next record.
    pub fn next_record(&self) -> u64
        ensures { result ≡ number_of self.now.log }
    {
        self.copies.published().at
    }

    /// Does nothing; its contract states the invariant of every publisher: its log isn't empty, and its log's state is the state after all its
    /// records.
    pub fn check(&self)
        ensures begun { self.now.log ≢ [] }
        ensures reads { state_of self.now.log ≡ after (start (origin_in self.now.log)) (history_of self.now.log) }
    {
        // Reading a field makes the publisher's invariant available to the proof.
        let _ = &self.copies;
    }

    /// Returns the right to publish one record, or `None` as [`Ledger::ready`] does.
    pub fn ready(&self) -> Option<Permit>
        ensures book { IfSome result (λ permit. permit.book ≡ self.now.book) }
        ensures next { IfSome result (λ permit. permit.at ≡ length self.now.log) }
    {
        self.ledger.ready()
    }

    /// Publishes the record of an accepted call. The record must be able to come next.
    ///
    /// Takes no memory. Waits until nobody reads the copy that was shown before the last one, and applies the
    /// record to both copies in turn.
    pub fn publish<R: Wait>(self, rt: &R, permit: Permit, made: Record) -> Publisher
        requires book { permit.book ≡ self.book }
        requires next { permit.at ≡ length self.log }
        requires may_follow { MayFollow (state_of self.log) made }
        requires numbered { number_of self.log + 1 < 2 ^ 64 }
        ensures book { result.book ≡ self.book }
        ensures log { result.log ≡ self.log ++ Made made ∷ [] }
    {
        let Publisher {
            mut ledger,
            mut copies,
        } = self;
        ledger.append(permit, &made);
        let operation = Operation {
            made: Some(made),
            at: copies.published().at + 1,
            prefix: ledger.prefix(),
        };
        add(rt, &mut copies, operation);
        let copies = show(rt, copies);
        Publisher { ledger, copies }
    }

    /// Returns a subscriber that knows the whole log, or `None` if it finds no free reader's seat.
    ///
    /// Takes no memory; increments an owner count.
    pub fn subscriber(&mut self) -> Option<Subscriber>
        ensures same { self.new ≡ self.old }
        ensures knows { IfSome result (λ subscriber. subscriber ≡ self.old) }
    {
        let mut reader = self.copies.factory().reader().ok()?;
        reader.learn::<Learn>(self.copies.tell::<Tell>());
        Some(Subscriber { reader })
    }

    /// Returns the whole log as a prefix.
    pub fn prefix(&self) -> SeenPrefix
        ensures { result ≡ self.now }
    {
        self.ledger.prefix()
    }

    /// Does nothing; its contract says that the whole log extends each of its prefixes.
    pub fn covers(&mut self, prefix: &SeenPrefix)
        requires { prefix.now.book ≡ self.old.book }
        ensures same { self.new ≡ self.old }
        ensures covers { IsPrefix prefix.now.log self.old.log }
    {
        self.ledger.covers(prefix);
    }

    /// Ends publishing. Waits until no reader reads.
    pub fn end<R: Wait>(self, rt: &R) {
        let Publisher { ledger: _, copies } = self;
        copies.take(rt);
    }
}

/// Returns the number of a volume's next record, or an error if it isn't below 2^64.
fn next_number(volume: &Volume) -> Result<u64, AllocError>
    ensures { IfOk result (λ at. at ≡ number_of (first_log volume.now)) }
{
    let records = volume.journal().len() as u64;
    volume.first().checked_add(records).ok_or(AllocError)
}

/// Returns the first published version of a volume.
fn first_version(
    alloc: Global,
    volume: &Volume,
    at: u64,
    ledger: &Ledger,
) -> Result<Published, AllocError>
    requires at { at ≡ number_of (first_log volume.now) }
    requires log { ledger.now.log ≡ first_log volume.now }
    ensures version { IfOk result (λ published. published.version ≡ first_log volume.now) }
    ensures at { IfOk result (λ published. published.at ≡ at) }
    ensures prefix { IfOk result (λ published. published.prefix ≡ ledger.now) }
{
    Ok(Published {
        version: Version::new(alloc, volume)?,
        at,
        prefix: ledger.prefix(),
    })
}

/// Adds two operations that change nothing, so that there is room for two. Ends the copies if memory runs
/// out.
fn make_room<R: Wait>(
    rt: &R,
    copies: Copies,
    at: u64,
    ledger: &Ledger,
) -> Result<Copies, AllocError>
    requires { drop copies.behind copies.log.items ≡ [] }
    ensures desk { IfOk result (λ made. made.desk ≡ copies.desk) }
    ensures pending { IfOk result (λ made. drop made.behind made.log.items ≡ empty_operation at ledger.now ∷ empty_operation at ledger.now ∷ []) }
{
    let copies = add_empty(rt, copies, at, ledger)?;
    add_empty(rt, copies, at, ledger)
}

/// Adds an operation that changes nothing. Ends the copies if memory runs out.
fn add_empty<R: Wait>(
    rt: &R,
    copies: Copies,
    at: u64,
    ledger: &Ledger,
) -> Result<Copies, AllocError>
    ensures desk { IfOk result (λ made. made.desk ≡ copies.desk) }
    ensures pending { IfOk result (λ made. drop made.behind made.log.items ≡ drop copies.behind copies.log.items ++ empty_operation at ledger.now ∷ []) }
{
    let mut copies = copies;
    let operation = Operation {
        made: None,
        at,
        prefix: ledger.prefix(),
    };
    if copies.append(operation).is_err() {
        copies.take(rt);
        return Err(AllocError);
    }
    Ok(copies)
}
