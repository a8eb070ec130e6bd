//! Runs over a shared volume with two sessions, with or without a view.
ghost use Rattle.std.specs.Prelude.{◌≡◌, length, IfSome, None, Some, All};

use crate::refused::found::Found;
use crate::refused::volumes::{NOW, asking, copy_of, make_file, sixth, takes_memory};
use crate::steps::{Kind, bytes_of, copied, create};
use std::alloc::Global;
use std::sync::Wait;
use vol_dir::Refusal;
use vol_shared::{
    Closed, ConfirmFault, OpenFault, Outcome, Receipt, Session, Shared, View, ViewFault,
};
use vol_volume::{Done, Reply, Volume};

/// The turn of a session: it makes a file and queries the first session's file, and then the view makes a query.
#[derive(Clone, Copy)]
struct Turn {
    path: &'static [u8],
    asks: Kind,
    looks: Kind,
}

/// The turns of the two sessions.
const TURNS: [Turn; 2] = [
    Turn {
        path: b"/a",
        asks: Kind::Read,
        looks: Kind::Stat,
    },
    Turn {
        path: b"/b",
        asks: Kind::Stat,
        looks: Kind::List,
    },
];

/// The receipts of a turn, two of the session and one of the view. A receipt is `None` if there was no memory for it.
type Receipts = [Option<Receipt>; 3];

/// The bytes of a volume that isn't shared: before the two calls, and after each of them.
type Images = [Vec<u8>; 3];

/// Opens a volume with two sessions, and with a view if `watched`. Both sessions take their turns. Closes the volume, and
/// confirms all receipts.
pub(crate) fn share<R: Wait>(
    rt: &R,
    alloc: Global,
    found: &mut Found,
    watched: bool,
) -> Option<()> {
    let images = images(alloc, found)?;
    let volume = sixth(alloc, found)?;
    let (closed, turns) = if watched {
        watch(rt, alloc, found, volume)?
    } else {
        play(rt, alloc, found, volume)?
    };
    let mut records = 0;
    let mut whole = true;
    for receipts in &turns {
        records = check(found, receipts, records);
        whole = confirm_all(alloc, found, &closed, receipts, watched).is_some() && whole;
    }
    check_closed(found, &closed, records, &images);
    whole.then_some(())
}

/// Returns the bytes of a volume that isn't shared, before the calls of both sessions and after each of them.
fn images(alloc: Global, found: &mut Found) -> Option<Images> {
    let mut volume = sixth(alloc, found)?;
    let new = copied(alloc, volume.image().as_bytes())?;
    make_file(alloc, found, &mut volume, b"/a", 32)?;
    let one = copied(alloc, volume.image().as_bytes())?;
    make_file(alloc, found, &mut volume, b"/b", 31)?;
    Some([new, one, volume.unmount()])
}

/// Plays both turns without a view.
fn play<R: Wait>(
    rt: &R,
    alloc: Global,
    found: &mut Found,
    volume: Volume,
) -> Option<(Closed, [Receipts; 2])> {
    let (shared, mut sessions) = open(alloc, found, volume)?;
    let mut views = Vec::new(alloc);
    let turns = take_turns(rt, alloc, found, &shared, &mut sessions, &mut views);
    Some((shared.close(sessions), turns))
}

/// Plays both turns with a view.
fn watch<R: Wait>(
    rt: &R,
    alloc: Global,
    found: &mut Found,
    volume: Volume,
) -> Option<(Closed, [Receipts; 2])> {
    let (shared, mut sessions, mut views) = open_with(rt, alloc, found, volume)?;
    let turns = take_turns(rt, alloc, found, &shared, &mut sessions, &mut views);
    Some((shared.close_with(rt, sessions, views), turns))
}

/// Opens a volume with two sessions. If memory runs out, the same volume must be returned.
fn open(alloc: Global, found: &mut Found, volume: Volume) -> Option<(Shared, Vec<Session>)>
    ensures sessions { IfSome result (λ opened. (opened.0.sessions ≡ 2) × (length opened.1.items ≡ 2)) }
    ensures own { IfSome result (λ opened. All (λ s. s.of ≡ opened.0.of) opened.1.items) }
    ensures unpublished { IfSome result (λ opened. opened.0.of.book ≡ None) }
{
    let before = copied(alloc, volume.image().as_bytes())?;
    match Shared::open(alloc, volume, 2) {
        Ok(opened) => Some(opened),
        Err((_, same)) => {
            check_same(found, &same, &before);
            Shared::open(alloc, same, 2).ok()
        }
    }
}

/// Opens a volume with two sessions and a view. If memory runs out, the same volume must be returned.
fn open_with<R: Wait>(
    rt: &R,
    alloc: Global,
    found: &mut Found,
    volume: Volume,
) -> Option<(Shared, Vec<Session>, Vec<View>)>
    ensures sessions { IfSome result (λ opened. (opened.0.sessions ≡ 2) × (length opened.1.items ≡ 2)) }
    ensures own { IfSome result (λ opened. All (λ s. s.of ≡ opened.0.of) opened.1.items) }
    ensures views { IfSome result (λ opened. (opened.0.views ≡ 1) × (length opened.2.items ≡ 1)) }
    ensures own_views { IfSome result (λ opened. All (λ v. opened.0.of.book ≡ Some v.book) opened.2.items) }
{
    let before = copied(alloc, volume.image().as_bytes())?;
    match Shared::open_with(rt, alloc, volume, 2, 1) {
        Ok(opened) => Some(opened),
        Err((fault, same)) => {
            found.wants(fault == OpenFault::NoMemory);
            check_same(found, &same, &before);
            Shared::open_with(rt, alloc, same, 2, 1).ok()
        }
    }
}

/// Checks that a volume has these bytes, and no records.
fn check_same(found: &mut Found, volume: &Volume, bytes: &[u8]) {
    found.wants(volume.image().as_bytes() == bytes);
    found.wants(volume.journal().is_empty());
}

/// Takes the turns of both sessions.
#[tactic(auto, using(vol_shared::proofs::Prefixes::all_pushed, vol_shared::proofs::Lists::all_last, vol_shared::proofs::Lists::all_prefix))]
fn take_turns<R: Wait>(
    rt: &R,
    alloc: Global,
    found: &mut Found,
    shared: &Shared,
    sessions: &mut Vec<Session>,
    views: &mut Vec<View>,
) -> [Receipts; 2]
    requires two { length sessions.old.items ≡ 2 }
    requires own { All (λ s. s.of ≡ shared.now.of) sessions.old.items }
    requires own_views { All (λ v. shared.now.of.book ≡ Some v.book) views.old.items }
    ensures two { length sessions.new.items ≡ 2 }
    ensures own { All (λ s. s.of ≡ shared.now.of) sessions.new.items }
    ensures count { length views.new.items ≡ length views.old.items }
    ensures own_views { All (λ v. shared.now.of.book ≡ Some v.book) views.new.items }
{
    let [first, second] = TURNS;
    let mut other = sessions.take_last();
    let mut one = sessions.take_last();
    let firsts = take(rt, alloc, found, shared, &mut one, views, first);
    let seconds = take(rt, alloc, found, shared, &mut other, views, second);
    sessions.push_reserved(one);
    sessions.push_reserved(other);
    [firsts, seconds]
}

/// Takes a session's turn.
fn take<R: Wait>(
    rt: &R,
    alloc: Global,
    found: &mut Found,
    shared: &Shared,
    session: &mut Session,
    views: &mut Vec<View>,
    turn: Turn,
) -> Receipts
    requires own { session.old.of ≡ shared.now.of }
    requires own_views { All (λ v. shared.now.of.book ≡ Some v.book) views.old.items }
    ensures own { session.new.of ≡ session.old.of }
    ensures count { length views.new.items ≡ length views.old.items }
    ensures own_views { All (λ v. shared.now.of.book ≡ Some v.book) views.new.items }
{
    let called = call(rt, alloc, found, shared, session, turn.path);
    let asked = ask(rt, alloc, found, shared, session, turn.asks);
    let seen = look(alloc, found, shared, session, views, turn.looks);
    [called, asked, seen]
}

/// Makes a session's file. If memory runs out, the same call must be returned.
fn call<R: Wait>(
    rt: &R,
    alloc: Global,
    found: &mut Found,
    shared: &Shared,
    session: &mut Session,
    path: &[u8],
) -> Option<Receipt>
    requires { session.old.of ≡ shared.now.of }
    ensures { session.new.of ≡ session.old.of }
{
    let call = create(NOW, bytes_of(alloc, path)?);
    let asked = copy_of(&call)?;
    match shared.call(rt, alloc, session, call) {
        Ok(receipt) => Some(receipt),
        Err((_, same)) => {
            found.wants(same == asked);
            shared.call(rt, alloc, session, same).ok()
        }
    }
}

/// Makes a session's query. If memory runs out, the query must be returned.
fn ask<R: Wait>(
    rt: &R,
    alloc: Global,
    found: &mut Found,
    shared: &Shared,
    session: &mut Session,
    kind: Kind,
) -> Option<Receipt>
    requires { session.old.of ≡ shared.now.of }
    ensures { session.new.of ≡ session.old.of }
{
    let query = asking(alloc, kind)?;
    match shared.ask(rt, alloc, session, query) {
        Ok(receipt) => Some(receipt),
        Err((_, same)) => {
            found.wants(takes_memory(&same));
            shared.ask(rt, alloc, session, same).ok()
        }
    }
}

/// If there is a view, makes it learn from a session, and makes its query.
#[tactic(auto, using(vol_shared::proofs::Prefixes::all_pushed, vol_shared::proofs::Lists::all_last, vol_shared::proofs::Lists::all_prefix))]
fn look(
    alloc: Global,
    found: &mut Found,
    shared: &Shared,
    session: &mut Session,
    views: &mut Vec<View>,
    kind: Kind,
) -> Option<Receipt>
    requires own { session.old.of ≡ shared.now.of }
    requires own_views { All (λ v. shared.now.of.book ≡ Some v.book) views.old.items }
    ensures own { session.new.of ≡ session.old.of }
    ensures count { length views.new.items ≡ length views.old.items }
    ensures own_views { All (λ v. shared.now.of.book ≡ Some v.book) views.new.items }
{
    // Only the contract reads the volume.
    let _ = shared;
    if views.is_empty() {
        return None;
    }
    let mut view = views.take_last();
    view.learn(session);
    let receipt = ask_view(alloc, found, &mut view, kind);
    views.push_reserved(view);
    receipt
}

/// Makes a view's query. If memory runs out, the query must be returned. Only a query that takes memory may run out of it.
fn ask_view(alloc: Global, found: &mut Found, view: &mut View, kind: Kind) -> Option<Receipt>
    ensures { view.new.book ≡ view.old.book }
{
    let query = asking(alloc, kind)?;
    match view.ask(alloc, query) {
        Ok(receipt) => Some(receipt),
        Err((fault, same)) => {
            found.wants(fault == ViewFault::NoMemory && takes_memory(&same));
            view.ask(alloc, same).ok()
        }
    }
}

/// Checks the numbers and the outcomes of the receipts of a turn that began after `before` records. Returns the number of
/// records afterwards.
fn check(found: &mut Found, receipts: &Receipts, before: u64) -> u64 {
    let mut records = before;
    for receipt in receipts {
        if let Some(receipt) = receipt {
            found.wants(receipt.at == records);
            found.wants(is_right(&receipt.outcome, records));
            if matches!(receipt.outcome, Outcome::Accepted(_)) {
                records = records.saturating_add(1);
            }
        }
    }
    records
}

/// True if this is a possible outcome of a call or query of a turn on a volume with `records` records.
fn is_right(outcome: &Outcome, records: u64) -> bool {
    match outcome {
        Outcome::Accepted(done) => *done == Done::Made(if records == 0 { 32 } else { 31 }),
        Outcome::Answered(Reply::Bytes(bytes)) => records > 0 && bytes.as_slice().is_empty(),
        Outcome::Answered(Reply::Stat(stat)) => records > 0 && stat.number == 32,
        Outcome::Answered(Reply::Names(listing)) => {
            listing.as_slice().len() as u64 == records.saturating_add(2)
        }
        Outcome::Refused(refusal) => records == 0 && *refusal == Refusal::NoEntry,
    }
}

/// Checks that a volume has this number of records, and the bytes that result from them.
fn check_closed(found: &mut Found, closed: &Closed, records: u64, images: &Images) {
    found.wants(closed.accepted() == records);
    found.wants(closed.volume().journal().len() as u64 == records);
    let image = images.get(records as usize);
    found.wants(match image {
        Some(image) => closed.volume().image().as_bytes() == image.as_slice(),
        None => false,
    });
}

/// Confirms the receipts of a turn. Returns `None` if one is missing; without a view, its receipt doesn't count as missing.
fn confirm_all(
    alloc: Global,
    found: &mut Found,
    closed: &Closed,
    receipts: &Receipts,
    watched: bool,
) -> Option<()> {
    let [called, asked, seen] = receipts;
    confirm(alloc, found, closed, called.as_ref()?)?;
    confirm(alloc, found, closed, asked.as_ref()?)?;
    if watched {
        confirm(alloc, found, closed, seen.as_ref()?)?;
    }
    Some(())
}

/// Confirms a receipt.
fn confirm(alloc: Global, found: &mut Found, closed: &Closed, receipt: &Receipt) -> Option<()> {
    let confirmed = match closed.confirm(alloc, receipt) {
        Ok(confirmed) => confirmed,
        Err(fault) => {
            found.wants(matches!(fault, ConfirmFault::NoMemory));
            closed.confirm(alloc, receipt).ok()?
        }
    };
    found.wants(confirmed);
    Some(())
}
