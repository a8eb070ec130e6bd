//! The lock's table, a `Board`, and the sharing out of its seat among the sessions.
ghost use Rattle.std.specs.Prelude.{◌≡◌, ◌+◌, ◌<◌, ◌≤◌, [], ◌∷◌, ◌++◌, length, vec_len, vec_capacity, All, IsSome, IfOk, IfErr, IfSome};
ghost use Rattle.vol_views.specs.Logs.{number_of};
ghost use Rattle.vol_views.specs.Views.{book_in};
ghost use Rattle.vol_shared.specs.Close.{IsLock};
ghost use Rattle.vol_shared.specs.Plays.{fresh};
ghost use Rattle.vol_shared.specs.Sessions.{new_session};
ghost use Rattle.vol_shared.specs.Stored.{Stored, next_number};

use crate::lock_contents::Stock;
use crate::lock_rule::{Deal, Knowledge, Lock, OneHolder, SessionSeat, TableStart};
use crate::session::Session;
use atomic_table::{Refused, Table};
use std::alloc::Global;
use vol_views::LogPrefix;

/// The table of a shared volume.
pub(crate) type Board = Table<Option<Stock>, Knowledge, TableStart, OneHolder, Global>;

/// Returns a table that holds the volume, and the one seat that represents all its sessions. Hands the volume
/// back if memory runs out.
pub(crate) fn lay(alloc: Global, stock: Stock, sessions: u64) -> Result<(Board, SessionSeat), Stock>
    requires { 1 ≤ sessions }
    ensures lock { IfOk result (λ r. IsLock r.0.shared.table_id r.0.shared.key (next_number stock)) }
    ensures stock { IfOk result (λ r. r.0.shared.key.stock ≡ stock) }
    ensures sessions { IfOk result (λ r. r.0.shared.key.sessions ≡ sessions) }
    ensures own { IfOk result (λ r. r.1.table_id ≡ r.0.shared.table_id) }
    ensures place { IfOk result (λ r. r.1.me ≡ (fresh sessions stock, [])) }
    ensures handed_back { IfErr result (λ same. same ≡ stock) }
{
    let start = TableStart {
        stock: stock.kept(),
        sessions,
    };
    let Ok(mut slots) = Vec::with_capacity(alloc, 1) else {
        return Err(stock);
    };
    slots.push_reserved(Some(stock));
    match Table::new(alloc, &[0], slots, &start) {
        Ok(made) => Ok(made),
        Err(Refused { slots }) => Err(only(slots)),
    }
}

/// Returns the one volume in a list.
fn only(mut slots: Vec<Option<Stock>>) -> Stock
    requires one { vec_len slots ≡ 1 }
    requires full { All (λ slot. IsSome slot) slots.items }
    ensures { slots.items ≡ Some result ∷ [] }
{
    let slot = slots.take_last();
    slots.destroy_empty();
    slot.unwrap()
}

/// Splits a seat that represents `sessions` sessions into one seat per session, and adds these sessions to the list.
pub(crate) fn deal(
    lock: &Lock,
    mut place: SessionSeat,
    all: &mut Vec<Session>,
    sessions: usize,
    records: u64,
    reported: &Option<LogPrefix>,
)
    requires lock { IsLock lock.now.table_id lock.now.key records }
    requires own { place.table_id ≡ lock.now.table_id }
    requires place { place.me ≡ (fresh sessions lock.now.key.stock, []) }
    requires some_sessions { 1 ≤ sessions }
    requires book { book_in reported.now ≡ lock.now.key.stock.book }
    requires number { IfSome reported.now (λ reported. number_of reported.log ≡ records) }
    requires empty { all.old.items ≡ [] }
    requires room { vec_capacity all.old ≡ sessions }
    ensures count { length all.new.items ≡ sessions }
    ensures fresh { All (λ s. s ≡ new_session (record { table = lock.now.table_id; book = lock.now.key.stock.book }) records) all.new.items }
{
    for _i in 1..sessions {
        let part = lock.split_seat::<Deal>(&mut place);
        seat_one(all, part, records, reported);
    }
    seat_one(all, place, records, reported);
}

/// Adds one session to the list.
fn seat_one(all: &mut Vec<Session>, place: SessionSeat, records: u64, reported: &Option<LogPrefix>)
    requires free { place.me.1 ≡ [] }
    requires room { vec_len all.old < vec_capacity all.old }
    requires place { (opened : Stored) × (place.me.0 ≡ fresh 1 opened) × (records ≡ next_number opened) × (book_in reported.now ≡ opened.book) }
    requires number { IfSome reported.now (λ reported. number_of reported.log ≡ records) }
    ensures items { all.new.items ≡ all.old.items ++ new_session (record { table = place.table_id; book = book_in reported.now }) records ∷ [] }
    ensures len { vec_len all.new ≡ vec_len all.old + 1 }
    ensures capacity { vec_capacity all.new ≡ vec_capacity all.old }
{
    all.push_reserved(Session {
        badge: place.into_badge(),
        next: records,
        count: 0,
        reported: copy_of(reported),
    });
}

/// Returns a copy of a session's known progress.
fn copy_of(reported: &Option<LogPrefix>) -> Option<LogPrefix>
    ensures { result ≡ reported.now }
{
    match reported {
        Some(reported) => Some(reported.again()),
        None => None,
    }
}
