//! Taking the volume and giving it back.
ghost use Rattle.std.specs.Prelude.{◌≡◌, ◌<◌, [], ◌∷◌, None, IfSome, IfNone, true, false};
ghost use Rattle.vol_shared.specs.Plays.{Event, Took, MayGive, gave};

use crate::lock_contents::Stock;
use crate::lock_rule::{Give, Lock, SessionSeat, Telling, Try};
use std::marker::Brand;
use std::sync::Wait;
use std::thread;
use vol_receipts::Receipt;

/// Takes the volume, waiting until no other seat holds it.
pub(crate) fn take<R: Wait>(rt: &R, lock: &Lock, place: &mut SessionSeat) -> Stock
    requires own { place.old.table_id ≡ lock.now.table_id }
    requires words { lock.now.table_id.words ≡ 1 }
    requires slots { lock.now.table_id.slots ≡ 1 }
    requires free { place.old.me.1 ≡ [] }
    requires holds { place.old.me.0.holds ≡ false }
    requires parts { 0 < place.old.me.0.parts }
    ensures own { place.new.table_id ≡ place.old.table_id }
    ensures took { Took place.old.me place.new.me result None }
{
    for _ in rt.forever() {
        if let Some(stock) = try_take(lock, place) {
            return stock;
        }
        thread::yield_now();
    }
    unreachable!()
}

/// Takes the volume, or returns `None` and changes nothing if another seat holds it.
fn try_take(lock: &Lock, place: &mut SessionSeat) -> Option<Stock>
    requires own { place.old.table_id ≡ lock.now.table_id }
    requires words { lock.now.table_id.words ≡ 1 }
    requires slots { lock.now.table_id.slots ≡ 1 }
    requires free { place.old.me.1 ≡ [] }
    requires holds { place.old.me.0.holds ≡ false }
    requires parts { 0 < place.old.me.0.parts }
    ensures own { place.new.table_id ≡ place.old.table_id }
    ensures took { IfSome result (λ stock. Took place.old.me place.new.me stock None) }
    ensures missed { IfNone result (place.new.me ≡ place.old.me) }
{
    if lock.compare_exchange::<Try>(place, 0, 0, 1) != 0 {
        return None;
    }
    lock.exchange(place, 0, None)
}

/// Gives the volume back, with the result of the work on it.
fn give<J: Telling>(lock: &Lock, place: &mut SessionSeat, stock: Stock)
    requires own { place.old.table_id ≡ lock.now.table_id }
    requires words { lock.now.table_id.words ≡ 1 }
    requires slots { lock.now.table_id.slots ≡ 1 }
    requires empty { place.old.me.1 ≡ (0, None) ∷ [] }
    requires holds { place.old.me.0.holds ≡ true }
    requires parts { 0 < place.old.me.0.parts }
    requires may { MayGive place.old.me.0.found stock J.event }
    ensures own { place.new.table_id ≡ place.old.table_id }
    ensures gave { place.new.me ≡ (gave place.old.me.0 stock J.event, []) }
{
    expect_none(lock.exchange(place, 0, Some(stock)));
    lock.store::<Give<J>>(place, 0, 0);
}

/// Drops an empty slot.
fn expect_none<T>(slot: Option<T>)
    requires { slot ≡ None }
{
    match slot {
        None => {}
        Some(_) => unreachable!(),
    }
}

/// Gives the volume back as it was.
pub(crate) fn give_back(lock: &Lock, mut place: SessionSeat, stock: Stock) -> SessionSeat
    requires own { place.table_id ≡ lock.now.table_id }
    requires words { lock.now.table_id.words ≡ 1 }
    requires slots { lock.now.table_id.slots ≡ 1 }
    requires empty { place.me.1 ≡ (0, None) ∷ [] }
    requires holds { place.me.0.holds ≡ true }
    requires parts { 0 < place.me.0.parts }
    requires may { MayGive place.me.0.found stock Event.nothing }
    ensures own { result.table_id ≡ place.table_id }
    ensures gave { result.me ≡ (gave place.me.0 stock Event.nothing, []) }
{
    give::<Brand>(lock, &mut place, stock);
    place
}

/// Gives the volume back with a receipt.
pub(crate) fn give_answered(
    lock: &Lock,
    mut place: SessionSeat,
    stock: Stock,
    receipt: &Receipt,
) -> SessionSeat
    requires own { place.table_id ≡ lock.now.table_id }
    requires words { lock.now.table_id.words ≡ 1 }
    requires slots { lock.now.table_id.slots ≡ 1 }
    requires empty { place.me.1 ≡ (0, None) ∷ [] }
    requires holds { place.me.0.holds ≡ true }
    requires parts { 0 < place.me.0.parts }
    requires may { MayGive place.me.0.found stock (Event.receipt receipt.now) }
    ensures own { result.table_id ≡ place.table_id }
    ensures gave { result.me ≡ (gave place.me.0 stock (Event.receipt receipt.now), []) }
{
    give_as::<Brand>(lock, &mut place, stock, receipt);
    place
}

/// Gives the volume back with a receipt. The type `J` names the receipt's event.
fn give_as<J: Telling>(lock: &Lock, place: &mut SessionSeat, stock: Stock, receipt: &Receipt)
    requires own { place.old.table_id ≡ lock.now.table_id }
    requires words { lock.now.table_id.words ≡ 1 }
    requires slots { lock.now.table_id.slots ≡ 1 }
    requires empty { place.old.me.1 ≡ (0, None) ∷ [] }
    requires holds { place.old.me.0.holds ≡ true }
    requires parts { 0 < place.old.me.0.parts }
    requires event { J.event ≡ Event.receipt receipt.now }
    requires may { MayGive place.old.me.0.found stock J.event }
    ensures own { place.new.table_id ≡ place.old.table_id }
    ensures gave { place.new.me ≡ (gave place.old.me.0 stock J.event, []) }
{
    // Only the proof uses the receipt.
    let _ = receipt;
    give::<J>(lock, place, stock);
}

/// Gives the volume back with its journal cut.
pub(crate) fn give_cut(lock: &Lock, mut place: SessionSeat, stock: Stock) -> SessionSeat
    requires own { place.table_id ≡ lock.now.table_id }
    requires words { lock.now.table_id.words ≡ 1 }
    requires slots { lock.now.table_id.slots ≡ 1 }
    requires empty { place.me.1 ≡ (0, None) ∷ [] }
    requires holds { place.me.0.holds ≡ true }
    requires parts { 0 < place.me.0.parts }
    requires may { MayGive place.me.0.found stock Event.cut }
    ensures own { result.table_id ≡ place.table_id }
    ensures gave { result.me ≡ (gave place.me.0 stock Event.cut, []) }
{
    give::<Brand>(lock, &mut place, stock);
    place
}
