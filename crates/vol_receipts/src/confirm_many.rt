//! Confirms many receipts in one pass over the journal.
ghost use Rattle.std.specs.Prelude.{◌≡◌, ◌≤◌, ◌-◌, [], IfOk, OnErr};
ghost use Rattle.vol_receipts.specs.Agrees.{origin_of, record_of};
ghost use Rattle.vol_receipts.specs.Findings.{IsFound, AreFound, AreCounted, IsInOrder};
ghost use Rattle.vol_receipts.specs.Replay.{HasAtMost};

use crate::agree::agrees_after;
use crate::receipts::Receipt;
use std::alloc::{AllocError, Global};
use vol_volume::Volume;

/// The finding on one receipt.
#[derive(Clone, Copy, PartialEq, Eq)]
pub enum ReceiptStatus {
    /// The receipt agrees with the journal.
    Agrees,
    /// The receipt doesn't agree with the journal.
    Differs,
    /// The receipt's number is below the number of the journal's first record: its record was cut.
    Gone,
}

/// Counts of confirmed receipts.
#[derive(Clone, Copy)]
pub struct Confirmed {
    /// The number of receipts that agree with the journal.
    pub agree: u64,
    /// The number of receipts whose records were cut.
    pub gone: u64,
}

/// Counts the receipts that agree with a volume's journal, and the receipts whose records were cut. Takes the memory and time of [`find_all`].
pub fn confirm_all(
    volume: &Volume,
    alloc: Global,
    receipts: &[Receipt],
) -> Result<Confirmed, AllocError>
    ensures { IfOk result (λ confirmed. AreCounted (origin_of volume.now) volume.now.journal receipts.now confirmed) }
{
    let findings = find_all(volume, alloc, receipts)?;
    Ok(Confirmed {
        agree: findings
            .iter()
            .filter(|f| **f == ReceiptStatus::Agrees)
            .count() as u64,
        gone: findings
            .iter()
            .filter(|f| **f == ReceiptStatus::Gone)
            .count() as u64,
    })
}

/// Returns the finding on each receipt, in the order of the receipts.
///
/// Visits the receipts by ascending number, so that each record is replayed at most once. Takes memory for the journal's starting bytes, for mounting
/// them, for a copy of each replayed record, and for a number and a finding per receipt. Costs as much as mounting, replaying and sorting. If one
/// allocation is refused, no finding is returned.
pub fn find_all(
    volume: &Volume,
    alloc: Global,
    receipts: &[Receipt],
) -> Result<Vec<ReceiptStatus>, AllocError>
    ensures { IfOk result (λ findings. AreFound (origin_of volume.now) volume.now.journal receipts.now findings.items) }
{
    let order = by_number(alloc, receipts)?;
    find_in_order(volume, alloc, receipts, &order)
}

/// Returns the findings on all receipts, visiting them in the order of their numbers.
fn find_in_order(
    volume: &Volume,
    alloc: Global,
    receipts: &[Receipt],
    order: &[Numbered],
) -> Result<Vec<ReceiptStatus>, AllocError>
    requires { IsInOrder receipts.now order.now }
    ensures { IfOk result (λ findings. AreFound (origin_of volume.now) volume.now.journal receipts.now findings.items) }
{
    let mut findings = vec![in alloc; ReceiptStatus::Gone; receipts.len()]?;
    let mut again = None;
    for numbered in order {
        let receipt = &receipts[numbered.index];
        findings[numbered.index] = find(volume, &mut again, alloc, receipt)?;
    }
    Ok(findings)
}

/// The number of a receipt, and the receipt's index.
#[derive(Clone, Copy)]
struct Numbered {
    at: u64,
    index: usize,
}

/// Returns the receipts' numbers, in ascending order.
fn by_number(alloc: Global, receipts: &[Receipt]) -> Result<Vec<Numbered>, AllocError>
    ensures { IfOk result (λ order. IsInOrder receipts.now order.items) }
{
    let mut order = Vec::with_capacity(alloc, receipts.len())?;
    for (index, receipt) in receipts.iter().enumerate() {
        order.push(Numbered {
            at: receipt.at,
            index,
        })?;
    }
    order.sort_unstable_by_key(|numbered| numbered.at);
    Ok(order)
}

/// Returns the finding on a receipt. `again` is a volume that may have replayed some of the records; if the finding depends on the records before the
/// receipt's number, it replays the rest of them.
pub(crate) fn find(
    volume: &Volume,
    again: &mut Option<Volume>,
    alloc: Global,
    receipt: &Receipt,
) -> Result<ReceiptStatus, AllocError>
    requires { HasAtMost volume.now again.old (receipt.now.at - volume.now.first) }
    ensures behind { HasAtMost volume.now again.new (receipt.now.at - volume.now.first) }
    ensures found { IfOk result (λ finding. IsFound (origin_of volume.now) volume.now.journal receipt.now finding) }
    ensures error { OnErr result (volume.now.first ≤ receipt.now.at) }
    ensures memory { OnErr result (record_of receipt.now.asked receipt.now.outcome ≡ []) }
{
    let Some(count) = receipt.at.checked_sub(volume.first()) else {
        return Ok(ReceiptStatus::Gone);
    };
    if count > volume.journal().len() as u64 {
        return Ok(ReceiptStatus::Differs);
    }
    let agrees = agrees_after(volume, again, alloc, count as usize, receipt)?;
    Ok(if agrees {
        ReceiptStatus::Agrees
    } else {
        ReceiptStatus::Differs
    })
}
