//! The views of a shared volume: they are made when it is opened, and compared with everything that was published when it is closed.
ghost use Rattle.std.specs.Prelude.{◌≡◌, ◌<◌, ◌≤◌, ◌^◌, Some, length, All, IfOk, IfErr};
ghost use Rattle.vol_views.specs.Views.{IsNew};
ghost use Rattle.vol_shared.specs.Stored.{stored_of, unpublished, next_number};
ghost use Rattle.vol_shared.specs.Published.{IsPublished};
ghost use Rattle.vol_shared.specs.Watch.{IsBehind, Covers};
ghost use Rattle.vol_receipts.specs.Agrees.{origin_of, Agrees};

use crate::lock_contents::Stock;
use crate::shared::OpenFault;
use std::alloc::Global;
use std::sync::Wait;
use vol_views::{Publisher, View};
use vol_volume::Volume;

/// Makes `views` views of the published version.
#[tactic(auto, using(crate::proofs::Prefixes::all_pushed))]
pub(crate) fn watch(
    alloc: Global,
    publisher: &mut Publisher,
    views: usize,
) -> Result<Vec<View>, OpenFault>
    ensures same { publisher.new ≡ publisher.old }
    ensures count { IfOk result (λ all. length all.items ≡ views) }
    ensures new { IfOk result (λ all. All (IsNew publisher.old) all.items) }
    ensures no_place { IfErr result (λ fault. fault ≡ OpenFault.NoPlace → 1 ≤ views) }
{
    let Ok(mut all) = Vec::with_capacity(alloc, views) else {
        return Err(OpenFault::NoMemory);
    };
    for _i in 0..views {
        let Some(view) = View::new(publisher) else {
            return Err(OpenFault::NoPlace);
        };
        all.push_reserved(view);
    }
    Ok(all)
}

/// Ends publishing, if the volume is published, and returns the volume. Its contract says that the volume covers everything that the views know.
pub(crate) fn settle<R: Wait>(rt: &R, stock: Stock, views: &[View]) -> Volume
    requires { All (λ v. stock.book ≡ Some v.book) views.now }
    ensures stored { stored_of result ≡ unpublished stock }
    ensures numbered { next_number stock < 2 ^ 64 }
    ensures covers { All (Covers (stored_of result)) views.now }
    ensures agree { All (λ v. All (λ r. result.first ≤ r.at → Agrees (origin_of result) result.journal r) v.receipts) views.now }
{
    let (volume, publisher) = stock.into_parts();
    match publisher {
        Some(publisher) => {
            compare_all(rt, &volume, publisher, views);
            volume
        }
        None => volume,
    }
}

/// Compares all views with the published log of a volume, and ends publishing.
fn compare_all<R: Wait>(rt: &R, volume: &Volume, publisher: Publisher, views: &[View])
    requires own { All (λ v. v.book ≡ publisher.book) views.now }
    requires published { IsPublished publisher.log (stored_of volume.now) }
    ensures covers { All (Covers (stored_of volume.now)) views.now }
    ensures agree { All (λ v. All (λ r. volume.now.first ≤ r.at → Agrees (origin_of volume.now) volume.now.journal r) v.receipts) views.now }
{
    // Only the proof uses the volume.
    let _ = volume;
    let mut publisher = publisher;
    compare(&mut publisher, views);
    publisher.end(rt);
}

/// Compares all views with the published log; its contract says that the log extends the prefix that each view knows.
fn compare(publisher: &mut Publisher, views: &[View])
    requires { All (λ v. v.book ≡ publisher.old.book) views.now }
    ensures same { publisher.new ≡ publisher.old }
    ensures behind { All (IsBehind publisher.old.log) views.now }
{
    if let Some((view, rest)) = views.split_first() {
        view.is_covered(publisher);
        compare(publisher, rest);
    }
}
