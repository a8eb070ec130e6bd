//! Queries by views.
ghost use Rattle.std.specs.Prelude.{◌≡◌, ◌≢◌, ◌≤◌, ◌++◌, ◌∷◌, [], true, Some, IfOk, IfErr, IfSome, OnErr, All};
ghost use mathlib.Core.List.{IsPrefix};
ghost use Rattle.vol_volume.specs.Answer.{Answers, takes_memory};
ghost use Rattle.vol_volume.specs.Journal.{after};
ghost use Rattle.vol_receipts.specs.Agrees.{start, IsAnswer};
ghost use Rattle.vol_receipts.specs.declared.receipts.Asked.TheVariants.{Question};
ghost use Rattle.vol_views.specs.Logs.{history_of, origin_in, number_of};
ghost use Rattle.vol_views.specs.Views.{GoesOn, Sees, IsNew, AgreesIn};

use crate::ghost_list::{GhostList, Itself, empty, longer};
use crate::log_prefix::{Informed, LogPrefix};
use crate::publisher::Publisher;
use crate::subscriber::{Answered, Subscriber};
use std::alloc::Global;
use std::marker::Model;
use thiserror::Error;
use vol_dir::Refusal;
use vol_receipts::{Asked, Outcome, Receipt};
use vol_volume::Query;

/// The greatest number of views of a volume.
pub const MOST_VIEWS: usize = 16;

/// A view of a volume, for one thread at a time. It answers queries from the published version and takes no lock. No answer is older than an earlier
/// answer of the view, or than the progress that it learned from a session. Contracts also see its receipts.
#[derive(Drop)]
pub struct View {
    subscriber: Option<Subscriber>,
    known: LogPrefix,
    notes: GhostList<Receipt>,
}

impl Model for View {
    ghost use Rattle.std.specs.Prelude.{◌≡◌, All, IsSome, IfSome};
    ghost use Rattle.vol_views.specs.Views.{Watched, AgreesIn};

    ghost Value = { Watched };

    ghost view = { λ v. record { book = v.known.book; log = v.known.log; receipts = v.notes.log } };

    ghost invariant = { λ v. IsSome v.subscriber
        × IfSome v.subscriber (λ s. s.book ≡ v.known.book)
        × All (AgreesIn v.known.log) v.notes.log };
}

/// The reason why a view gave no answer.
#[derive(Clone, Copy, Debug, PartialEq, Eq, Error)]
pub enum ViewFault {
    /// Out of memory.
    #[error("out of memory")]
    NoMemory,
    /// The published version couldn't be read, which happens only after publishing has ended, or the answer was older than the log prefix that the
    /// view knows and was dropped. Neither happens while the volume is shared, but no contract can state this. The caller may ask again, or use a
    /// session.
    #[error("what is published couldn't be read")]
    NotEntered,
}

impl View {
    /// Returns a view that knows the whole published log, or `None` if it finds no free reader's seat.
    ///
    /// Takes no memory; increments an owner count.
    pub fn new(publisher: &mut Publisher) -> Option<View>
        ensures same { publisher.new ≡ publisher.old }
        ensures view { IfSome result (λ view. IsNew publisher.old view) }
    {
        let subscriber = publisher.subscriber()?;
        Some(View {
            subscriber: Some(subscriber),
            known: LogPrefix::of(publisher),
            notes: empty(),
        })
    }

    /// Answers a query from the published version, with a receipt. Returns `NoMemory` if memory for the reply runs out, and `NotEntered` if the
    /// published version couldn't be read or is older than the log prefix that the view knows. After either error the receipts are unchanged; after
    /// `NotEntered` the whole view is.
    ///
    /// Takes as much memory and time as [`Subscriber::ask`], and never waits.
    #[tactic(auto, using(crate::proofs::Views::number_on))]
    pub fn ask(&mut self, alloc: Global, query: Query) -> Result<Receipt, (ViewFault, Query)>
        ensures book { self.new.book ≡ self.old.book }
        ensures goes_on { GoesOn self.old.log self.new.log }
        ensures never_less { number_of self.old.log ≤ number_of self.new.log }
        ensures asked { IfOk result (λ receipt. receipt.asked ≡ Question query) }
        ensures sees { IfOk result (λ receipt. Sees self.old self.new receipt) }
        ensures receipts { OnErr result (self.new.receipts ≡ self.old.receipts) }
        ensures not_entered { IfErr result (λ (fault, same). fault ≡ ViewFault.NotEntered → self.new ≡ self.old) }
        ensures memory { IfErr result (λ (fault, same). fault ≡ ViewFault.NoMemory → takes_memory query ≡ true) }
        ensures handed_back { IfErr result (λ (fault, same). same ≡ query) }
    {
        let Some(subscriber) = self.subscriber.take() else {
            unreachable!();
        };
        match subscriber.ask(alloc, &query) {
            Ok((subscriber, answered)) => {
                self.subscriber = Some(subscriber);
                self.take_over(answered, query)
            }
            Err(subscriber) => {
                self.subscriber = Some(subscriber);
                Err((ViewFault::NotEntered, query))
            }
        }
    }

    /// Returns the receipt of an answer. Returns `NoMemory` if memory for the reply ran out, and `NotEntered` if the answer is older than the log
    /// prefix that the view knows; such an answer never occurs, but no contract can state this.
    fn take_over(&mut self, answered: Answered, query: Query) -> Result<Receipt, (ViewFault, Query)>
        requires book { answered.prefix.book ≡ self.old.book }
        requires begun { answered.prefix.log ≢ [] }
        requires at { answered.at ≡ number_of answered.prefix.log }
        requires reply { Answers (after (start (origin_in answered.prefix.log)) (history_of answered.prefix.log)).tree query answered.reply }
        ensures book { self.new.book ≡ self.old.book }
        ensures goes_on { GoesOn self.old.log self.new.log }
        ensures asked { IfOk result (λ receipt. receipt.asked ≡ Question query) }
        ensures sees { IfOk result (λ receipt. Sees self.old self.new receipt) }
        ensures receipts { OnErr result (self.new.receipts ≡ self.old.receipts) }
        ensures not_entered { IfErr result (λ (fault, same). fault ≡ ViewFault.NotEntered → self.new ≡ self.old) }
        ensures memory { IfErr result (λ (fault, same). fault ≡ ViewFault.NoMemory → takes_memory query ≡ true) }
        ensures handed_back { IfErr result (λ (fault, same). same ≡ query) }
    {
        let Answered { at, prefix, reply } = answered;
        if at < self.known.at {
            return Err((ViewFault::NotEntered, query));
        }
        self.know(LogPrefix { prefix, at });
        let outcome = match reply {
            Ok(reply) => Outcome::Answered(reply),
            Err(Refusal::NoMemory) => return Err((ViewFault::NoMemory, query)),
            Err(refusal) => Outcome::Refused(refusal),
        };
        Ok(self.tell(at, Asked::Question(query), outcome))
    }

    /// Makes a receipt of an answer from the known log prefix, and adds it to the view's receipts.
    fn tell(&mut self, at: u64, asked: Asked, outcome: Outcome) -> Receipt
        requires at { at ≡ number_of self.old.log }
        requires answer { IsAnswer (after (start (origin_in self.old.log)) (history_of self.old.log)) asked outcome }
        ensures book { self.new.book ≡ self.old.book }
        ensures log { self.new.log ≡ self.old.log }
        ensures receipts { self.new.receipts ≡ self.old.receipts ++ result ∷ [] }
        ensures receipt { result ≡ record { at = at; asked = asked; outcome = outcome } }
        ensures agrees { AgreesIn self.old.log result }
    {
        let receipt = Receipt { at, asked, outcome };
        self.notes = longer::<Receipt, Receipt, Itself>(&self.notes, &receipt);
        receipt
    }

    /// Advances to a log prefix that isn't older than the known one.
    fn know(&mut self, reported: LogPrefix)
        requires book { reported.book ≡ self.old.book }
        requires later { number_of self.old.log ≤ number_of reported.log }
        ensures book { self.new.book ≡ self.old.book }
        ensures log { self.new.log ≡ reported.log }
        ensures goes_on { GoesOn self.old.log reported.log }
        ensures receipts { self.new.receipts ≡ self.old.receipts }
    {
        self.known.goes_on(&reported);
        self.known = reported;
    }

    /// Learns a session's progress: each later answer reflects everything that the session knows.
    ///
    /// Takes no memory.
    #[tactic(auto, using(crate::proofs::Views::number_on))]
    pub fn learn<S: Informed>(&mut self, session: &mut S)
        requires { S.book session.old ≡ Some self.old.book }
        ensures session { session.new ≡ session.old }
        ensures book { self.new.book ≡ self.old.book }
        ensures receipts { self.new.receipts ≡ self.old.receipts }
        ensures goes_on { GoesOn self.old.log self.new.log }
        ensures never_less { number_of self.old.log ≤ number_of self.new.log }
        ensures learnt { S.next session.old ≤ number_of self.new.log }
    {
        let Some(reported) = session.reported() else {
            unreachable!();
        };
        self.learn_reported(reported);
    }

    /// Advances to a reported log prefix, if it is newer.
    fn learn_reported(&mut self, reported: LogPrefix)
        requires { reported.book ≡ self.old.book }
        ensures book { self.new.book ≡ self.old.book }
        ensures receipts { self.new.receipts ≡ self.old.receipts }
        ensures goes_on { GoesOn self.old.log self.new.log }
        ensures learnt { GoesOn reported.log self.new.log }
    {
        if self.known.at < reported.at {
            self.know(reported);
        } else {
            reported.goes_on(&self.known);
        }
    }

    /// Does nothing; its contract says that the published log extends the prefix that the view knows, and that all the view's receipts agree with
    /// this prefix.
    pub fn is_covered(&self, publisher: &mut Publisher)
        requires { self.now.book ≡ publisher.old.book }
        ensures same { publisher.new ≡ publisher.old }
        ensures covered { GoesOn self.now.log publisher.old.log }
        ensures agree { All (AgreesIn self.now.log) self.now.receipts }
    {
        self.known.is_covered(publisher);
    }
}
