//! Compares a receipt with a journal's records, and with a volume that replays the records before it.
ghost use Rattle.std.specs.Prelude.{◌≡◌, ◌≤◌, ◌↔◌, [], length, IsTrue, IfOk, OnErr, Some, Ok, Err};
ghost use Rattle.std.specs.List.{slice_get};
ghost use Rattle.vol_volume.specs.Answer.{answer};
ghost use Rattle.vol_volume.specs.Verdict.{verdict};
ghost use Rattle.vol_volume.specs.Volume.{reads_as};
ghost use Rattle.vol_receipts.specs.Agrees.{origin_of, IsAnswer, AgreesAfter, record_of};
ghost use Rattle.vol_receipts.specs.Replay.{HasFirst, HasAtMost};

use crate::receipts::{Asked, Outcome, Receipt};
use crate::replay::go_on;
use std::alloc::{AllocError, Global};
use vol_dir::Refusal;
use vol_volume::{Call, Done, Listing, Query, Record, Reply, Volume};

/// True if a receipt's outcome follows the first `count` records of a volume. `again` is a volume that may have replayed some of these records; it
/// replays the rest unless the outcome is an accepted call.
pub(crate) fn agrees_after(
    volume: &Volume,
    again: &mut Option<Volume>,
    alloc: Global,
    count: usize,
    receipt: &Receipt,
) -> Result<bool, AllocError>
    requires behind { HasAtMost volume.now again.old count }
    requires within { count ≤ length volume.now.journal }
    ensures behind { HasAtMost volume.now again.new count }
    ensures agrees { IfOk result (λ agrees. IsTrue agrees ↔ AgreesAfter (origin_of volume.now) volume.now.journal count receipt.now.asked receipt.now.outcome) }
    ensures memory { OnErr result (record_of receipt.now.asked receipt.now.outcome ≡ []) }
{
    if let (Asked::Change(call), Outcome::Accepted(done)) = (&receipt.asked, &receipt.outcome) {
        return Ok(is_record(volume.journal(), count, call, *done));
    }
    let made = go_on(volume, again.take(), alloc, count)?;
    let agrees = is_answer(&made, alloc, &receipt.asked, &receipt.outcome)?;
    *again = Some(made);
    Ok(agrees)
}

/// True if a call or query has this outcome in the present state of a volume.
fn is_answer(
    volume: &Volume,
    alloc: Global,
    asked: &Asked,
    outcome: &Outcome,
) -> Result<bool, AllocError>
    ensures { IfOk result (λ is. IsTrue is ↔ IsAnswer (reads_as volume.now.edition volume.now.image) asked.now outcome.now) }
{
    match (asked, outcome) {
        (Asked::Change(call), Outcome::Refused(refusal)) => Ok(refuses(volume, call, *refusal)),
        (Asked::Question(query), Outcome::Refused(refusal)) => {
            is_refused(volume, alloc, query, *refusal)
        }
        (Asked::Question(query), Outcome::Answered(reply)) => {
            is_answered(volume, alloc, query, reply)
        }
        // An accepted call isn't an outcome of the present state, and a call never gets a query's reply.
        _ => Ok(false),
    }
}

/// True if record `k` of a journal, counted from its first, is this call with this result.
#[tactic(auto, using(std::proofs::lemmas::Option::slice_get_read, std::proofs::lemmas::Option::slice_get_past))]
fn is_record(journal: &[Record], k: usize, call: &Call, done: Done) -> bool
    ensures { IsTrue result ↔ (slice_get journal.now k ≡ Some (record { call = call.now; done = done })) }
{
    match journal.get(k) {
        Some(entry) => is_of(entry, call, done),
        None => false,
    }
}

/// True if a record is this call with this result.
fn is_of(entry: &Record, call: &Call, done: Done) -> bool
    ensures { IsTrue result ↔ (entry.now ≡ record { call = call.now; done = done }) }
{
    entry.call == *call && entry.done == done
}

/// True if a volume would refuse a call with this refusal.
fn refuses(volume: &Volume, call: &Call, refusal: Refusal) -> bool
    ensures { IsTrue result ↔ (verdict (reads_as volume.now.edition volume.now.image) call.now ≡ Some refusal) }
{
    match volume.refusal(call) {
        Some(met) => met == refusal,
        None => false,
    }
}

/// True if a volume refuses a query with this refusal.
fn is_refused(
    volume: &Volume,
    alloc: Global,
    query: &Query,
    refusal: Refusal,
) -> Result<bool, AllocError>
    ensures { IfOk result (λ is. IsTrue is ↔ (answer (reads_as volume.now.edition volume.now.image).tree query.now ≡ Err refusal)) }
{
    match volume.ask(alloc, query) {
        Ok(_) => Ok(false),
        Err(Refusal::NoMemory) => Err(AllocError),
        Err(met) => Ok(met == refusal),
    }
}

/// True if a query of a volume has this reply.
fn is_answered(
    volume: &Volume,
    alloc: Global,
    query: &Query,
    reply: &Reply,
) -> Result<bool, AllocError>
    ensures { IfOk result (λ is. IsTrue is ↔ (answer (reads_as volume.now.edition volume.now.image).tree query.now ≡ Ok reply.now)) }
{
    match volume.ask(alloc, query) {
        Ok(met) => Ok(is_same(&met, reply)),
        Err(Refusal::NoMemory) => Err(AllocError),
        Err(_) => Ok(false),
    }
}

/// True if two replies are equal.
fn is_same(one: &Reply, other: &Reply) -> bool
    ensures { IsTrue result ↔ (one.now ≡ other.now) }
{
    match (one, other) {
        (Reply::Stat(one), Reply::Stat(other)) => one == other,
        (Reply::Bytes(one), Reply::Bytes(other)) => one == other,
        (Reply::Names(one), Reply::Names(other)) => is_same_listing(one, other),
        _ => false,
    }
}

/// True if two listings are equal.
fn is_same_listing(one: &Listing, other: &Listing) -> bool
    ensures { IsTrue result ↔ (one.now ≡ other.now) }
{
    one == other
}
