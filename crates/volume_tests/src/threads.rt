//! Two threads with a session each.
ghost use Rattle.std.specs.Prelude.{◌≡◌, None};

use crate::fixtures::{bytes_of, create, new_volume};
use std::alloc::Global;
use std::process::Abort;
use std::sync::Wait;
use std::test::Fail;
use std::thread;
use std::thread::Threads;
use vol_dir::Cred;
use vol_layout::Edition;
use vol_shared::{Closed, Outcome, Receipt, Session, Shared};
use vol_volume::{Call, Query, Volume};

/// The number of times a thread looks for the other's file.
const TURNS: u32 = 20_000_000;

/// The two files of a thread: it makes the first, and waits for the second.
type Task = (&'static [u8], &'static [u8]);

/// Opens a volume with two sessions.
fn open_two(rt: &impl Abort, alloc: Global, volume: Volume) -> (Shared, Session, Session)
    ensures first { result.1.of ≡ result.0.of }
    ensures second { result.2.of ≡ result.0.of }
    ensures sessions { result.0.sessions ≡ 2 }
    ensures unpublished { result.0.of.book ≡ None }
{
    let Ok((shared, mut sessions)) = Shared::open(alloc, volume, 2) else {
        panic!(rt; "memory for two sessions")
    };
    let second = sessions.take_last();
    let first = sessions.take_last();
    (shared, first, second)
}

/// Closes a volume with two sessions.
fn close_two(
    rt: &impl Abort,
    alloc: Global,
    shared: Shared,
    first: Session,
    second: Session,
) -> Closed
    requires sessions { shared.sessions ≡ 2 }
    requires unpublished { shared.of.book ≡ None }
    requires first { first.of ≡ shared.of }
    requires second { second.of ≡ shared.of }
{
    let mut sessions = Vec::with_capacity(alloc, 2).expect(rt, "memory for two sessions");
    sessions.push_reserved(first);
    sessions.push_reserved(second);
    shared.close(sessions)
}

/// Makes a call on a shared volume.
pub(crate) fn make<R: Wait + Abort>(
    rt: &R,
    alloc: Global,
    shared: &Shared,
    session: &mut Session,
    call: Call,
) -> Receipt
    requires { session.old.of ≡ shared.now.of }
    ensures { session.new.of ≡ session.old.of }
{
    let Ok(receipt) = shared.call(rt, alloc, session, call) else {
        panic!(rt; "memory for a call")
    };
    receipt
}

/// Runs a query on a shared volume.
fn ask<R: Wait + Abort>(
    rt: &R,
    alloc: Global,
    shared: &Shared,
    session: &mut Session,
    query: Query,
) -> Receipt
    requires { session.old.of ≡ shared.now.of }
    ensures { session.new.of ≡ session.old.of }
{
    let Ok(receipt) = shared.ask(rt, alloc, session, query) else {
        panic!(rt; "memory for a query")
    };
    receipt
}

/// Returns a query for a node's attributes.
fn stat(rt: &impl Abort, alloc: Global, path: &[u8]) -> Query {
    Query::Stat {
        cred: Cred::ROOT,
        path: bytes_of(rt, alloc, path),
    }
}

/// Runs a task, and returns its receipts.
fn perform<R: Wait + Abort>(
    rt: &R,
    alloc: Global,
    shared: &Shared,
    mut session: Session,
    task: Task,
) -> (Session, Vec<Receipt>)
    requires { session.of ≡ shared.now.of }
    ensures { result.0.of ≡ shared.now.of }
{
    let (mine, theirs) = task;
    let mut receipts = Vec::new(alloc);
    let made = make(rt, alloc, shared, &mut session, create(rt, alloc, mine));
    receipts.push(made).expect(rt, "memory for a receipt");
    wait_for(rt, alloc, shared, &mut session, &mut receipts, theirs);
    (session, receipts)
}

/// Queries a file until it exists.
fn wait_for<R: Wait + Abort>(
    rt: &R,
    alloc: Global,
    shared: &Shared,
    session: &mut Session,
    receipts: &mut Vec<Receipt>,
    path: &[u8],
)
    requires { session.old.of ≡ shared.now.of }
    ensures { session.new.of ≡ session.old.of }
{
    for _ in 0..TURNS {
        let receipt = ask(rt, alloc, shared, session, stat(rt, alloc, path));
        let is_there = matches!(receipt.outcome, Outcome::Answered(_));
        receipts.push(receipt).expect(rt, "memory for a receipt");
        if is_there {
            return;
        }
        thread::yield_now();
    }
    panic!(rt; "the other thread was never there")
}

/// Runs two threads with a session each, and returns their receipts.
fn run_two<R: Threads + Wait + Abort + Sync>(
    rt: &R,
    alloc: Global,
    tasks: [Task; 2],
) -> (Closed, Vec<Receipt>, Vec<Receipt>) {
    let (shared, first, second) = open_two(rt, alloc, new_volume(rt, alloc, Edition::V6));
    let lock = &shared;
    let [one, other] = tasks;
    let ((first, mine), (second, theirs)) = thread::join(
        rt,
        move || -> (Session, Vec<Receipt>)
            requires { first.of ≡ lock.now.of }
            ensures { result.0.of ≡ lock.entry.now.of }
        { perform(rt, alloc, lock, first, one) },
        move || -> (Session, Vec<Receipt>)
            requires { second.of ≡ lock.now.of }
            ensures { result.0.of ≡ lock.entry.now.of }
        { perform(rt, alloc, lock, second, other) },
    );
    (close_two(rt, alloc, shared, first, second), mine, theirs)
}

/// Checks that each receipt is confirmed.
fn check_confirmed(rt: &impl Abort, alloc: Global, closed: &Closed, receipts: &[Receipt]) {
    let confirmed = closed.confirm_all(alloc, receipts);
    let confirmed = confirmed.expect(rt, "memory to confirm");
    assert_eq!(rt;
        [confirmed.agree, confirmed.gone],
        [receipts.len() as u64, 0]
    );
}

#[test]
fn two_threads_wait_for_each_other(rt: HostRuntime) -> Result<(), Fail> {
    let alloc = rt.alloc();
    let tasks: [Task; 2] = [(b"/a", b"/b"), (b"/b", b"/a")];
    let (closed, mine, theirs) = run_two(&rt, alloc, tasks);
    assert_eq!(rt; closed.volume().journal().len(), 2);
    check_confirmed(&rt, alloc, &closed, &mine);
    check_confirmed(&rt, alloc, &closed, &theirs);
    Ok(())
}

/// Makes a file on a volume of its own, and returns the closed volume and the receipt.
fn made_on_its_own<R: Wait + Abort>(rt: &R, alloc: Global, path: &[u8]) -> (Closed, Receipt) {
    let (shared, mut first, second) = open_two(rt, alloc, new_volume(rt, alloc, Edition::V6));
    let receipt = make(rt, alloc, &shared, &mut first, create(rt, alloc, path));
    (close_two(rt, alloc, shared, first, second), receipt)
}

/// Checks whether a receipt is confirmed.
fn check_one(rt: &impl Abort, alloc: Global, closed: &Closed, receipt: &Receipt, wanted: bool) {
    match closed.confirm(alloc, receipt) {
        Ok(agrees) => assert_eq!(rt; agrees, wanted),
        Err(_) => panic!(rt; "memory to confirm"),
    }
}

#[test]
fn a_receipt_of_another_volume_is_not_confirmed(rt: HostRuntime) {
    let alloc = rt.alloc();
    let (mine, my_receipt) = made_on_its_own(&rt, alloc, b"/a");
    let (theirs, their_receipt) = made_on_its_own(&rt, alloc, b"/b");
    check_one(&rt, alloc, &mine, &my_receipt, true);
    check_one(&rt, alloc, &mine, &their_receipt, false);
    check_one(&rt, alloc, &theirs, &my_receipt, false);
    check_one(&rt, alloc, &theirs, &their_receipt, true);
}
