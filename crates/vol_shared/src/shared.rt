//! A volume under a lock.
ghost use Rattle.std.specs.Prelude.{◌≡◌, ℕ, ◌+◌, ◌≤◌, [], length, max, true, None, Some, All, IfOk, IfErr, OnErr};
ghost use Rattle.count_table.specs.Sums.{total, below};
ghost use Rattle.vol_volume.specs.Answer.{takes_memory};
ghost use Rattle.vol_receipts.specs.Agrees.{origin_of, Agrees};
ghost use Rattle.vol_receipts.specs.declared.receipts.Asked.TheVariants.{Change, Question};
ghost use Rattle.vol_shared.specs.Lists.{BeginsWith, greatest, greatest_of};
ghost use Rattle.vol_shared.specs.Sessions.{new_session, Got, HasCut};
ghost use Rattle.vol_shared.specs.Stored.{stored_of, unpublished, next_number, Continues};
ghost use Rattle.vol_shared.specs.Watch.{IsNewView, Covers};

use crate::board::{Board, deal, lay};
use crate::close::{finish, gather};
use crate::closed::Closed;
use crate::lock::{give_answered, give_back, give_cut};
use crate::lock_contents::Stock;
use crate::made_views::{settle, watch};
use crate::session::{Session, lock_volume, note};
use std::alloc::{AllocError, Global};
use std::marker::Model;
use std::sync::Wait;
use thiserror::Error;
use vol_receipts::Receipt;
use vol_views::{MOST_VIEWS, Publisher, View};
use vol_volume::{Call, Query, Volume};

/// The greatest number of sessions of a volume.
pub const MOST_SESSIONS: usize = 64;

/// A volume that threads share. One thread at a time uses it, through a session of its own, while the others
/// wait. It is never dropped: [`Shared::close`] ends it with all its sessions.
pub struct Shared {
    table: Board,
    records: u64,
    views: usize,
}

/// The reason why a volume wasn't opened with views.
#[derive(Clone, Copy, Debug, PartialEq, Eq, Error)]
pub enum OpenFault {
    /// Out of memory.
    #[error("out of memory")]
    NoMemory,
    /// No reader's seat was free for a view.
    #[error("no place for a view")]
    NoPlace,
}

impl Model for Shared {
    ghost use Rattle.vol_shared.specs.Close.{IsLock};
    ghost use Rattle.vol_shared.specs.Opened.{Opened};

    ghost Value = { Opened };

    ghost view = { λ s. record { of = record { table = s.table.shared.table_id; book = s.table.shared.key.stock.book }; stored = s.table.shared.key.stock; sessions = s.table.shared.key.sessions; views = s.views } };

    ghost invariant = { λ s. IsLock s.table.shared.table_id s.table.shared.key s.records };
}

impl Shared {
    /// Puts a volume under a lock with `sessions` sessions, 1 to [`MOST_SESSIONS`]. Hands the volume back if
    /// memory runs out.
    ///
    /// Takes a few bytes for the lock and for each session. Also reports out of memory if the volume's next
    /// record number isn't below 2^64.
    pub fn open(
        alloc: Global,
        volume: Volume,
        sessions: usize,
    ) -> Result<(Shared, Vec<Session>), (AllocError, Volume)>
        requires least { 1 ≤ sessions }
        requires most { sessions ≤ MOST_SESSIONS }
        ensures stored { IfOk result (λ (shared, all). shared.stored ≡ stored_of volume) }
        ensures unpublished { IfOk result (λ (shared, all). shared.of.book ≡ None) }
        ensures sessions { IfOk result (λ (shared, all). shared.sessions ≡ sessions) }
        ensures count { IfOk result (λ (shared, all). length all.items ≡ sessions) }
        ensures fresh { IfOk result (λ (shared, all). All (λ s. s ≡ new_session shared.of (next_number shared.stored)) all.items) }
        ensures handed_back { IfErr result (λ (error, same). same ≡ volume) }
    {
        let stock = match Stock::new(volume) {
            Ok(stock) => stock,
            Err(volume) => return Err((AllocError, volume)),
        };
        let records = stock.end();
        let Ok(mut all) = Vec::with_capacity(alloc, sessions) else {
            return Err((AllocError, stock.into_volume()));
        };
        let (table, place) = match lay(alloc, stock, sessions as u64) {
            Ok(made) => made,
            Err(stock) => return Err((AllocError, stock.into_volume())),
        };
        deal(&table.shared, place, &mut all, sessions, records, &None);
        let shared = Shared {
            table,
            records,
            views: 0,
        };
        Ok((shared, all))
    }

    /// Puts a volume under a lock with `sessions` sessions, 1 to [`MOST_SESSIONS`], and `views` views, at
    /// most [`MOST_VIEWS`]. Hands the volume back if memory runs out or a view finds no seat.
    /// [`Shared::close_with`] ends it.
    ///
    /// Takes memory for two copies of the image, and a few bytes for the lock, for each session and for each
    /// view. Also reports out of memory if the volume's next record number isn't below 2^64.
    #[tactic(auto, using(crate::proofs::Prefixes::own_of_new))]
    pub fn open_with<R: Wait>(
        rt: &R,
        alloc: Global,
        volume: Volume,
        sessions: usize,
        views: usize,
    ) -> Result<(Shared, Vec<Session>, Vec<View>), (OpenFault, Volume)>
        requires least { 1 ≤ sessions }
        requires most { sessions ≤ MOST_SESSIONS }
        requires most_views { views ≤ MOST_VIEWS }
        ensures stored { IfOk result (λ (shared, all, seen). unpublished shared.stored ≡ stored_of volume) }
        ensures sessions { IfOk result (λ (shared, all, seen). (shared.sessions ≡ sessions) × (length all.items ≡ sessions)) }
        ensures views { IfOk result (λ (shared, all, seen). (shared.views ≡ views) × (length seen.items ≡ views)) }
        ensures fresh { IfOk result (λ (shared, all, seen). All (λ s. s ≡ new_session shared.of (next_number shared.stored)) all.items) }
        ensures new_views { IfOk result (λ (shared, all, seen). All (IsNewView shared.stored) seen.items) }
        ensures own_views { IfOk result (λ (shared, all, seen). All (λ v. shared.of.book ≡ Some v.book) seen.items) }
        ensures no_place { IfErr result (λ (fault, same). fault ≡ OpenFault.NoPlace → 1 ≤ views) }
        ensures handed_back { IfErr result (λ (error, same). same ≡ volume) }
    {
        let (stock, seen) = match publish(rt, alloc, volume, views) {
            Ok(made) => made,
            Err(refused) => return Err(refused),
        };
        let records = stock.end();
        let reported = stock.reported();
        let Ok(mut all) = Vec::with_capacity(alloc, sessions) else {
            return Err((OpenFault::NoMemory, end(rt, stock)));
        };
        let (table, place) = match lay(alloc, stock, sessions as u64) {
            Ok(made) => made,
            Err(stock) => return Err((OpenFault::NoMemory, end(rt, stock))),
        };
        deal(&table.shared, place, &mut all, sessions, records, &reported);
        let shared = Shared {
            table,
            records,
            views,
        };
        Ok((shared, all, seen))
    }

    /// Makes a call, waiting until no other session holds the volume. The receipt has a copy of the call,
    /// made before the volume is taken. If memory runs out, the call is handed back and nothing changes.
    ///
    /// Takes memory for the copy and for the journal. Costs as much as [`Volume::call`], plus the wait. If the volume has views, takes memory for a
    /// second copy, which is published. Then an accepted call also costs as much as [`Volume::refusal`], is made twice more, on the two copies that
    /// views read, and waits for the views that still read the older copy.
    pub fn call<R: Wait>(
        &self,
        rt: &R,
        alloc: Global,
        session: &mut Session,
        call: Call,
    ) -> Result<Receipt, (AllocError, Call)>
        requires { session.old.of ≡ self.now.of }
        ensures same { session.new.of ≡ session.old.of }
        ensures asked { IfOk result (λ receipt. receipt.asked ≡ Change call) }
        ensures got { IfOk result (λ receipt. Got session.old session.new receipt) }
        ensures unchanged { OnErr result (session.new ≡ session.old) }
        ensures handed_back { IfErr result (λ (error, same). same ≡ call) }
    {
        let asked = match copy_of(&call) {
            Ok(asked) => asked,
            Err(error) => return Err((error, call)),
        };
        let lock = &self.table.shared;
        let (place, stock) = lock_volume(rt, lock, &mut session.badge);
        let (stock, outcome) = stock.change(rt, alloc, call, asked);
        match outcome {
            Ok(receipt) => {
                session.reported = stock.reported();
                session.badge = give_answered(lock, place, stock, &receipt).into_badge();
                note(&mut session.next, &mut session.count, &receipt);
                Ok(receipt)
            }
            Err(refused) => {
                session.badge = give_back(lock, place, stock).into_badge();
                Err(refused)
            }
        }
    }

    /// Answers a query, waiting until no other session holds the volume. If memory for its reply runs out,
    /// the query is handed back and nothing changes.
    ///
    /// Takes as much memory and time as [`Volume::ask`], plus the wait.
    pub fn ask<R: Wait>(
        &self,
        rt: &R,
        alloc: Global,
        session: &mut Session,
        query: Query,
    ) -> Result<Receipt, (AllocError, Query)>
        requires { session.old.of ≡ self.now.of }
        ensures same { session.new.of ≡ session.old.of }
        ensures asked { IfOk result (λ receipt. receipt.asked ≡ Question query) }
        ensures got { IfOk result (λ receipt. Got session.old session.new receipt) }
        ensures unchanged { OnErr result (session.new ≡ session.old) }
        ensures memory { OnErr result (takes_memory query ≡ true) }
        ensures handed_back { IfErr result (λ (error, same). same ≡ query) }
    {
        let lock = &self.table.shared;
        let (place, stock) = lock_volume(rt, lock, &mut session.badge);
        match stock.reply(alloc, query) {
            Ok(receipt) => {
                session.reported = stock.reported();
                session.badge = give_answered(lock, place, stock, &receipt).into_badge();
                note(&mut session.next, &mut session.count, &receipt);
                Ok(receipt)
            }
            Err(refused) => {
                session.badge = give_back(lock, place, stock).into_badge();
                Err(refused)
            }
        }
    }

    /// Cuts the journal, waiting until no other session holds the volume: removes its records, and adds their number to the number of its first
    /// record. Returns the new first number; no later receipt of this session has a smaller number.
    ///
    /// Takes no memory. Costs as much as [`Volume::cut`], plus the wait.
    pub fn cut<R: Wait>(&self, rt: &R, session: &mut Session) -> u64
        requires { session.old.of ≡ self.now.of }
        ensures same { session.new.of ≡ session.old.of }
        ensures cut { HasCut session.old session.new result }
    {
        let lock = &self.table.shared;
        let (place, stock) = lock_volume(rt, lock, &mut session.badge);
        let (stock, first) = stock.cut();
        session.reported = stock.reported();
        session.badge = give_cut(lock, place, stock).into_badge();
        session.next = first;
        first
    }

    /// Ends a shared volume that was opened without views, with all its sessions. If the journal was never cut, the volume still has its origin, and
    /// its journal extends the journal that it was opened with. Each record made since then belongs to one accepted call of one session. Each receipt
    /// agrees with all records, including records that were cut; it agrees with the journal alone unless it is older than the last cut.
    ///
    /// Takes no memory.
    pub fn close(self, sessions: Vec<Session>) -> Closed
        requires unpublished { self.of.book ≡ None }
        requires count { length sessions.items ≡ self.sessions }
        requires own { All (λ s. s.of ≡ self.of) sessions.items }
        ensures goes_on { Continues self.stored (stored_of result) (λ agrees. All (λ s. All agrees s.receipts) sessions.items) }
        ensures uncut { All (λ s. s.cuts ≡ []) sessions.items → (origin_of result ≡ self.stored.origin) × BeginsWith result.journal self.stored.journal }
        ensures first { result.first ≡ max self.stored.origin.first (greatest (λ s. greatest_of s.cuts) sessions.items) }
        ensures places { (weight : ℕ → ℕ) → total (λ s. total weight s.places) sessions.items + below weight (next_number self.stored) ≡ below weight (next_number (stored_of result)) }
        ensures count { total (λ s. length s.places) sessions.items + next_number self.stored ≡ next_number (stored_of result) }
        ensures agree { All (λ s. All (λ receipt. result.first ≤ receipt.at → Agrees (origin_of result) result.journal receipt) s.receipts) sessions.items }
    {
        let Shared {
            table,
            records,
            views: _,
        } = self;
        let (place, calls) = gather(&table.shared, sessions);
        let stock = finish(table, place);
        Closed::new(stock.into_volume(), records, calls)
    }

    /// Ends a shared volume with all its sessions and views, as [`Shared::close`] does. The records extend the log prefix that each view knows. Each
    /// receipt of a view agrees with them; it agrees with the journal alone unless it is older than the last cut.
    ///
    /// Takes no memory. Waits for views that are still reading.
    pub fn close_with<R: Wait>(self, rt: &R, sessions: Vec<Session>, views: Vec<View>) -> Closed
        requires count { length sessions.items ≡ self.sessions }
        requires own { All (λ s. s.of ≡ self.of) sessions.items }
        requires views { length views.items ≡ self.views }
        requires own_views { All (λ v. self.of.book ≡ Some v.book) views.items }
        ensures goes_on { Continues self.stored (stored_of result) (λ agrees. All (λ s. All agrees s.receipts) sessions.items) }
        ensures uncut { All (λ s. s.cuts ≡ []) sessions.items → (origin_of result ≡ self.stored.origin) × BeginsWith result.journal self.stored.journal }
        ensures first { result.first ≡ max self.stored.origin.first (greatest (λ s. greatest_of s.cuts) sessions.items) }
        ensures places { (weight : ℕ → ℕ) → total (λ s. total weight s.places) sessions.items + below weight (next_number self.stored) ≡ below weight (next_number (stored_of result)) }
        ensures count { total (λ s. length s.places) sessions.items + next_number self.stored ≡ next_number (stored_of result) }
        ensures agree { All (λ s. All (λ receipt. result.first ≤ receipt.at → Agrees (origin_of result) result.journal receipt) s.receipts) sessions.items }
        ensures covers { All (Covers (stored_of result)) views.items }
        ensures views_agree { All (λ v. All (λ receipt. result.first ≤ receipt.at → Agrees (origin_of result) result.journal receipt) v.receipts) views.items }
    {
        let Shared {
            table,
            records,
            views: _,
        } = self;
        let (place, calls) = gather(&table.shared, sessions);
        let stock = finish(table, place);
        let volume = settle(rt, stock, &views);
        Closed::new(volume, records, calls)
    }
}

/// Publishes a volume and makes `views` views of it.
fn publish<R: Wait>(
    rt: &R,
    alloc: Global,
    volume: Volume,
    views: usize,
) -> Result<(Stock, Vec<View>), (OpenFault, Volume)>
    requires { views ≤ MOST_VIEWS }
    ensures stored { IfOk result (λ (stock, seen). unpublished stock ≡ stored_of volume) }
    ensures count { IfOk result (λ (stock, seen). length seen.items ≡ views) }
    ensures new_views { IfOk result (λ (stock, seen). All (IsNewView stock) seen.items) }
    ensures no_place { IfErr result (λ (fault, same). fault ≡ OpenFault.NoPlace → 1 ≤ views) }
    ensures handed_back { IfErr result (λ (fault, same). same ≡ volume) }
{
    let Ok(mut publisher) = Publisher::open(rt, alloc, &volume, views) else {
        return Err((OpenFault::NoMemory, volume));
    };
    match watch(alloc, &mut publisher, views) {
        Ok(seen) => Ok((Stock::with_publisher(volume, publisher), seen)),
        Err(fault) => {
            publisher.end(rt);
            Err((fault, volume))
        }
    }
}

/// Undoes `publish` when opening fails.
fn end<R: Wait>(rt: &R, stock: Stock) -> Volume
    ensures { stored_of result ≡ unpublished stock }
{
    let (volume, publisher) = stock.into_parts();
    if let Some(publisher) = publisher {
        publisher.end(rt);
    }
    volume
}

/// Returns a copy of a call.
pub(crate) fn copy_of(call: &Call) -> Result<Call, AllocError>
    ensures { IfOk result (λ copy. copy ≡ call.now) }
{
    call.clone()
}
