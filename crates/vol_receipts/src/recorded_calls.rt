//! Calls and queries that return receipts.
ghost use Rattle.std.specs.Prelude.{◌≡◌, ◌+◌, ◌-◌, ◌<◌, ◌≤◌, ◌^◌, ◌++◌, ◌∷◌, ◌⊎◌, [], length, true, IfOk, IfErr, OnErr, IfSome, Some, None};
ghost use Rattle.std.specs.List.{slice_get};
ghost use Rattle.vol_layout.specs.Geometry.{geometry_of};
ghost use Rattle.vol_change.specs.Whole.{StaysAround};
ghost use Rattle.vol_volume.specs.Answer.{takes_memory};
ghost use Rattle.vol_volume.specs.Verdict.{verdict};
ghost use Rattle.vol_volume.specs.Volume.{reads_as};
ghost use Rattle.vol_receipts.specs.Agrees.{origin_of, IsAnswer, Agrees, record_of};

use crate::receipts::{Asked, Outcome, Receipt};
use std::alloc::{AllocError, Global};
use vol_dir::Refusal;
use vol_volume::{Call, Done, Query, Volume};

/// Makes a call and returns its receipt, which contains the copy `asked`. An accepted call becomes the journal's next record; a refused one changes
/// nothing. The bytes that no call changes stay as they are.
///
/// If the call would be accepted but the journal has no room for a record, the call is handed back and nothing changes. There is no room when memory
/// runs out or the record's number would reach 2^64 - 1. Costs as much as [`Volume::call`].
pub fn change(
    volume: &mut Volume,
    alloc: Global,
    call: Call,
    asked: Call,
) -> Result<Receipt, (AllocError, Call)>
    requires { asked ≡ call }
    ensures origin { origin_of volume.new ≡ origin_of volume.old }
    ensures journal { IfOk result (λ receipt. volume.new.journal ≡ volume.old.journal ++ record_of receipt.asked receipt.outcome) }
    ensures at { IfOk result (λ receipt. receipt.at ≡ volume.old.first + length volume.old.journal) }
    ensures numbered { IfOk result (λ receipt. receipt.at + 1 < 2 ^ 64) }
    ensures asked { IfOk result (λ receipt. receipt.asked ≡ Asked.Change call) }
    ensures agrees { IfOk result (λ receipt. Agrees (origin_of volume.new) volume.new.journal receipt) }
    ensures refused { IfOk result (λ receipt. record_of receipt.asked receipt.outcome ≡ [] → volume.new ≡ volume.old) }
    ensures around { IfOk result (λ receipt. StaysAround (geometry_of volume.old.edition volume.old.image) volume.old.image volume.new.image) }
    ensures unchanged { IfErr result (λ (error, same). volume.new ≡ volume.old) }
    ensures memory { OnErr result ((verdict (reads_as volume.old.edition volume.old.image) call ≡ None)
        ⊎ (2 ^ 64 ≤ volume.old.first + length volume.old.journal + 1)) }
    ensures handed_back { IfErr result (λ (error, same). same ≡ call) }
{
    let Some(at) = next_number(volume) else {
        return Err((AllocError, call));
    };
    match volume.call(alloc, call) {
        Ok(done) => Ok(accepted(volume, at, asked, done)),
        Err((Refusal::NoMemory, call)) => Err((AllocError, call)),
        Err((refusal, _)) => {
            let outcome = Outcome::Refused(refusal);
            Ok(told(volume, at, Asked::Change(asked), outcome))
        }
    }
}

/// Runs a query and returns its receipt.
///
/// The query is handed back if memory for its reply runs out, or if the number of the next record isn't below 2^64. Costs as much as [`Volume::ask`].
pub fn reply(volume: &Volume, alloc: Global, query: Query) -> Result<Receipt, (AllocError, Query)>
    ensures at { IfOk result (λ receipt. receipt.at ≡ volume.now.first + length volume.now.journal) }
    ensures asked { IfOk result (λ receipt. receipt.asked ≡ Asked.Question query) }
    ensures agrees { IfOk result (λ receipt. Agrees (origin_of volume.now) volume.now.journal receipt) }
    ensures memory { OnErr result ((takes_memory query ≡ true) ⊎ (2 ^ 64 ≤ volume.now.first + length volume.now.journal)) }
    ensures handed_back { IfErr result (λ (error, same). same ≡ query) }
{
    let Some(at) = end_of(volume) else {
        return Err((AllocError, query));
    };
    let outcome = match volume.ask(alloc, &query) {
        Ok(reply) => Outcome::Answered(reply),
        Err(Refusal::NoMemory) => return Err((AllocError, query)),
        Err(refusal) => Outcome::Refused(refusal),
    };
    Ok(told(volume, at, Asked::Question(query), outcome))
}

/// Returns the number of the journal's next record, or `None` if it isn't below 2^64.
fn end_of(volume: &Volume) -> Option<u64>
    ensures number { IfSome result (λ at. at ≡ volume.now.first + length volume.now.journal) }
    ensures none { result ≡ None → 2 ^ 64 ≤ volume.now.first + length volume.now.journal }
{
    volume.first().checked_add(volume.journal().len() as u64)
}

/// Returns the number of the journal's next record, or `None` if the one after it isn't below 2^64.
fn next_number(volume: &Volume) -> Option<u64>
    ensures number { IfSome result (λ at. (at ≡ volume.now.first + length volume.now.journal) × (at + 1 < 2 ^ 64)) }
    ensures none { result ≡ None → 2 ^ 64 ≤ volume.now.first + length volume.now.journal + 1 }
{
    let at = end_of(volume)?;
    if at == u64::MAX { None } else { Some(at) }
}

/// Returns the receipt of an accepted call, whose record is the journal's last.
fn accepted(volume: &Volume, at: u64, asked: Call, done: Done) -> Receipt
    requires first { volume.now.first ≤ at }
    requires last { slice_get volume.now.journal (at - volume.now.first) ≡ Some (record { call = asked; done = done }) }
    ensures at { result.at ≡ at }
    ensures asked { result.asked ≡ Asked.Change asked }
    ensures outcome { result.outcome ≡ Outcome.Accepted done }
    ensures agrees { Agrees (origin_of volume.now) volume.now.journal result }
{
    // Only the contract uses the volume.
    let _ = volume;
    Receipt {
        at,
        asked: Asked::Change(asked),
        outcome: Outcome::Accepted(done),
    }
}

/// Returns the receipt of a refusal or a reply in the state after all records.
#[tactic(auto, using(crate::proofs::Records::agrees_told))]
fn told(volume: &Volume, at: u64, asked: Asked, outcome: Outcome) -> Receipt
    requires at { at ≡ volume.now.first + length volume.now.journal }
    requires answer { IsAnswer (reads_as volume.now.edition volume.now.image) asked outcome }
    ensures at { result.at ≡ at }
    ensures asked { result.asked ≡ asked }
    ensures outcome { result.outcome ≡ outcome }
    ensures agrees { Agrees (origin_of volume.now) volume.now.journal result }
{
    volume.check();
    Receipt { at, asked, outcome }
}
