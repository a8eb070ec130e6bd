//! Closing: all sessions are joined into one seat, and the table ends.
ghost use Rattle.std.specs.Prelude.{◌≡◌, ◌≤◌, [], ◌∷◌, length, vec_len, All, false};
ghost use Rattle.vol_shared.specs.Close.{IsGathered, IsSettled};

use crate::board::Board;
use crate::lock_contents::Stock;
use crate::lock_rule::{Gather, Lock, SessionSeat};
use crate::session::Session;

/// Joins all sessions of a list into one seat, and adds up their accepted calls.
pub(crate) fn gather(lock: &Lock, mut sessions: Vec<Session>) -> (SessionSeat, u128)
    requires words { lock.now.table_id.words ≡ 1 }
    requires some_sessions { 1 ≤ vec_len sessions }
    requires own { All (λ s. s.of.table ≡ lock.now.table_id) sessions.items }
    ensures own { result.0.table_id ≡ lock.now.table_id }
    ensures free { result.0.me.1 ≡ [] }
    ensures gathered { IsGathered sessions.items result.0.me.0 }
    ensures count { result.1 ≡ length result.0.me.0.places }
{
    let (mut place, count) = seat_of(sessions.take_last());
    let mut total = u128::from(count);
    while let Some(session) = sessions.pop() {
        let (other, count) = seat_of(session);
        lock.join_seat::<Gather>(&mut place, other);
        total += u128::from(count);
    }
    (place, total)
}

/// Returns a session's seat and the number of its accepted calls.
fn seat_of(session: Session) -> (SessionSeat, u64)
    ensures own { result.0.table_id ≡ session.of.table }
    ensures free { result.0.me.1 ≡ [] }
    ensures gathered { IsGathered (session ∷ []) result.0.me.0 }
    ensures count { result.1 ≡ length result.0.me.0.places }
{
    let Session {
        badge,
        next: _,
        count,
        reported: _,
    } = session;
    (badge.into_seat(), count)
}

/// Returns the volume, once one seat represents all sessions.
pub(crate) fn finish(board: Board, place: SessionSeat) -> Stock
    requires words { board.shared.table_id.words ≡ 1 }
    requires slots { board.shared.table_id.slots ≡ 1 }
    requires own { place.table_id ≡ board.shared.table_id }
    requires free { place.me.0.holds ≡ false }
    requires parts { place.me.0.parts ≡ board.shared.key.sessions }
    ensures settled { IsSettled board.shared.key.stock place.me.0 result }
    ensures book { result.book ≡ board.shared.key.stock.book }
{
    let mut closed = board.close_with(place);
    let slot = closed.take(0);
    closed.free();
    slot.unwrap()
}
