//! Calls whose records are published. All memory is taken before the first byte changes.
ghost use Rattle.std.specs.Prelude.{◌≡◌, ◌+◌, ◌-◌, ◌<◌, ◌≤◌, ◌^◌, ◌⊎◌, length, None, Some, IfOk, IfErr, OnErr};
ghost use Rattle.std.specs.List.{slice_get};
ghost use Rattle.vol_volume.specs.Journal.{MayFollow};
ghost use Rattle.vol_volume.specs.Verdict.{verdict};
ghost use Rattle.vol_volume.specs.Volume.{reads_as};
ghost use Rattle.vol_receipts.specs.Agrees.{origin_of, Agrees, next_of};
ghost use Rattle.vol_receipts.specs.declared.receipts.Asked.TheVariants.{Change};
ghost use Rattle.vol_receipts.specs.declared.receipts.Outcome.TheVariants.{Accepted, Refused};
ghost use Rattle.vol_shared.specs.Stored.{stored_of, stored_with, next_number, IsUnchanged};
ghost use Rattle.vol_shared.specs.Plays.{IsAnswered};
ghost use Rattle.vol_shared.specs.Published.{IsPublished};

use crate::lock_contents::Stock;
use crate::shared::copy_of;
use std::alloc::{AllocError, Global};
use std::sync::Wait;
use vol_dir::Refusal;
use vol_receipts::{Asked, Outcome, Receipt};
use vol_views::Publisher;
use vol_volume::{Call, Done, Record, Volume};

/// Makes a call, publishes its record if it is accepted, and returns its receipt.
pub(crate) fn change_published<R: Wait>(
    rt: &R,
    alloc: Global,
    volume: Volume,
    publisher: Publisher,
    call: Call,
    asked: Call,
) -> (Stock, Result<Receipt, (AllocError, Call)>)
    requires numbered { next_number (stored_of volume) < 2 ^ 64 }
    requires published { IsPublished publisher.log (stored_of volume) }
    requires asked { asked ≡ call }
    ensures asked { IfOk result.1 (λ receipt. receipt.asked ≡ Change call) }
    ensures numbered { IfOk result.1 (λ receipt. receipt.at + 1 < 2 ^ 64) }
    ensures answered { IfOk result.1 (λ receipt. IsAnswered (stored_with (Some publisher.book) volume) result.0 receipt) }
    ensures next { IfOk result.1 (λ receipt. next_number result.0 ≡ next_of receipt.at receipt.outcome) }
    ensures unchanged { OnErr result.1 (IsUnchanged (stored_with (Some publisher.book) volume) result.0) }
    ensures memory { OnErr result.1 ((verdict (reads_as volume.edition volume.image) call ≡ None) ⊎ (2 ^ 64 ≤ next_number (stored_of volume) + 1)) }
    ensures handed_back { IfErr result.1 (λ (error, same). same ≡ call) }
{
    let at = volume.first() + volume.journal().len() as u64;
    if at == u64::MAX {
        return (together(volume, publisher), Err((AllocError, call)));
    }
    match volume.foresee(&call) {
        Ok(done) => {
            let entry = Record { call, done };
            make_foreseen(rt, alloc, volume, publisher, entry, asked)
        }
        Err(refusal) => {
            let receipt = refused(&volume, at, asked, refusal);
            (together(volume, publisher), Ok(receipt))
        }
    }
}

/// Returns the volume together with its publisher.
fn together(volume: Volume, publisher: Publisher) -> Stock
    requires numbered { next_number (stored_of volume) < 2 ^ 64 }
    requires published { IsPublished publisher.log (stored_of volume) }
    ensures { result ≡ stored_with (Some publisher.book) volume }
{
    Stock {
        volume,
        publisher: Some(publisher),
    }
}

/// Makes a call, whose acceptance and result are already known, and publishes its record.
fn make_foreseen<R: Wait>(
    rt: &R,
    alloc: Global,
    volume: Volume,
    publisher: Publisher,
    entry: Record,
    asked: Call,
) -> (Stock, Result<Receipt, (AllocError, Call)>)
    requires numbered { next_number (stored_of volume) + 1 < 2 ^ 64 }
    requires published { IsPublished publisher.log (stored_of volume) }
    requires may_follow { MayFollow (reads_as volume.edition volume.image) entry }
    requires asked { asked ≡ entry.call }
    ensures asked { IfOk result.1 (λ receipt. receipt.asked ≡ Change entry.call) }
    ensures numbered { IfOk result.1 (λ receipt. receipt.at + 1 < 2 ^ 64) }
    ensures answered { IfOk result.1 (λ receipt. IsAnswered (stored_with (Some publisher.book) volume) result.0 receipt) }
    ensures next { IfOk result.1 (λ receipt. next_number result.0 ≡ next_of receipt.at receipt.outcome) }
    ensures unchanged { OnErr result.1 (IsUnchanged (stored_with (Some publisher.book) volume) result.0) }
    ensures handed_back { IfErr result.1 (λ (error, same). same ≡ entry.call) }
{
    let Ok(copy) = copy_of(&entry.call) else {
        return (together(volume, publisher), Err((AllocError, entry.call)));
    };
    let at = volume.first() + volume.journal().len() as u64;
    volume.check();
    let reserved = match volume.reserve(alloc) {
        Ok(reserved) => reserved,
        Err((error, volume)) => {
            return (together(volume, publisher), Err((error, entry.call)));
        }
    };
    let Some(permit) = publisher.ready() else {
        let volume = reserved.release();
        return (together(volume, publisher), Err((AllocError, entry.call)));
    };
    publisher.check();
    let done = entry.done;
    let volume = reserved.redo(entry);
    let publisher = publisher.publish(rt, permit, Record { call: copy, done });
    let receipt = accepted(&volume, at, asked, done);
    (together(volume, publisher), Ok(receipt))
}

/// Returns the receipt of a refused call.
#[tactic(auto, using(vol_receipts::proofs::Records::agrees_told))]
fn refused(volume: &Volume, at: u64, asked: Call, refusal: Refusal) -> Receipt
    requires at { at ≡ volume.now.first + length volume.now.journal }
    requires refusal { verdict (reads_as volume.now.edition volume.now.image) asked ≡ Some refusal }
    ensures receipt { result ≡ record { at = at; asked = Change asked; outcome = Refused refusal } }
    ensures agrees { Agrees (origin_of volume.now) volume.now.journal result }
{
    volume.check();
    Receipt {
        at,
        asked: Asked::Change(asked),
        outcome: Outcome::Refused(refusal),
    }
}

/// Returns the receipt of an accepted call, whose record is the journal's last.
fn accepted(volume: &Volume, at: u64, asked: Call, done: Done) -> Receipt
    requires first { volume.now.first ≤ at }
    requires last { slice_get volume.now.journal (at - volume.now.first) ≡ Some (record { call = asked; done = done }) }
    ensures receipt { result ≡ record { at = at; asked = Change asked; outcome = Accepted done } }
    ensures agrees { Agrees (origin_of volume.now) volume.now.journal result }
{
    // Only the contract uses the volume.
    let _ = volume;
    Receipt {
        at,
        asked: Asked::Change(asked),
        outcome: Outcome::Accepted(done),
    }
}
