//! Shares a volume, runs its sessions and views, and closes it.
ghost use Rattle.std.specs.Prelude.{◌≡◌, ◌≤◌, ◌<◌, All, Some, length};

use crate::queries::{ask_session, ask_view, call_session, write_on};
use crate::views::{Job, Task};
use std::alloc::Global;
use std::sync::Wait;
use std::sync::atomic::{AtomicBool, AtomicU64, Ordering};
use std::thread;
use std::thread::Threads;
use vol_shared::{MOST_VIEWS, Session, Shared, View};
use vol_volume::Volume;

/// Makes the task's calls with one session on a volume without views.
pub(crate) fn share<R: Wait>(rt: &R, alloc: Global, volume: Volume, task: Task) -> Option<u64> {
    let Ok((shared, mut sessions)) = Shared::open(alloc, volume, 1) else {
        return None;
    };
    let done = call_last(rt, alloc, &shared, &mut sessions, task);
    shared.close(sessions);
    done
}

/// Runs a task on a volume with two sessions and `views` views.
pub(crate) fn share_published<R: Threads + Wait + Sync>(
    rt: &R,
    alloc: Global,
    volume: Volume,
    views: usize,
    task: Task,
) -> Option<u64>
    requires { views ≤ MOST_VIEWS }
{
    let Ok((shared, mut sessions, mut views)) = Shared::open_with(rt, alloc, volume, 2, views)
    else {
        return None;
    };
    let done = perform(rt, alloc, &shared, &mut sessions, &mut views, task);
    shared.close_with(rt, sessions, views);
    done
}

/// Runs a task with two sessions and with views, and returns all of them.
fn perform<R: Threads + Wait + Sync>(
    rt: &R,
    alloc: Global,
    shared: &Shared,
    sessions: &mut Vec<Session>,
    views: &mut Vec<View>,
    task: Task,
) -> Option<u64>
    requires two { length sessions.old.items ≡ 2 }
    requires own { All (λ s. s.of ≡ shared.now.of) sessions.old.items }
    requires own_views { All (λ v. shared.now.of.book ≡ Some v.book) views.old.items }
    ensures two { length sessions.new.items ≡ 2 }
    ensures own { All (λ s. s.of ≡ shared.now.of) sessions.new.items }
    ensures count { length views.new.items ≡ length views.old.items }
    ensures own_views { All (λ v. shared.now.of.book ≡ Some v.book) views.new.items }
{
    match task.job {
        Job::Calls => call_last(rt, alloc, shared, sessions, task),
        Job::Views => ask_all(rt, alloc, shared, views, task.count),
        Job::Lock => ask_last(rt, alloc, shared, sessions, task),
        Job::View => watch_last(rt, alloc, shared, sessions, views, task),
    }
}

/// Makes the task's calls with the last session.
#[tactic(auto, using(vol_shared::proofs::Prefixes::all_pushed, vol_shared::proofs::Lists::all_last, vol_shared::proofs::Lists::all_prefix))]
fn call_last<R: Wait>(
    rt: &R,
    alloc: Global,
    shared: &Shared,
    sessions: &mut Vec<Session>,
    task: Task,
) -> Option<u64>
    requires some { 0 < length sessions.old.items }
    requires own { All (λ s. s.of ≡ shared.now.of) sessions.old.items }
    ensures count { length sessions.new.items ≡ length sessions.old.items }
    ensures own { All (λ s. s.of ≡ shared.now.of) sessions.new.items }
{
    let mut session = sessions.take_last();
    let done = call_session(rt, alloc, shared, &mut session, task.length, task.count);
    sessions.push_reserved(session);
    done
}

/// Makes the task's queries with the last session but one, while the last session writes the file.
#[tactic(auto, using(vol_shared::proofs::Prefixes::all_pushed, vol_shared::proofs::Lists::all_last, vol_shared::proofs::Lists::all_prefix))]
fn ask_last<R: Threads + Wait + Sync>(
    rt: &R,
    alloc: Global,
    shared: &Shared,
    sessions: &mut Vec<Session>,
    task: Task,
) -> Option<u64>
    requires two { length sessions.old.items ≡ 2 }
    requires own { All (λ s. s.of ≡ shared.now.of) sessions.old.items }
    ensures count { length sessions.new.items ≡ length sessions.old.items }
    ensures own { All (λ s. s.of ≡ shared.now.of) sessions.new.items }
{
    let writer = sessions.take_last();
    let asker = sessions.take_last();
    let (done, asker, writer) = ask_beside(rt, alloc, shared, asker, writer, task);
    sessions.push_reserved(asker);
    sessions.push_reserved(writer);
    done
}

/// Makes the task's queries with the last view, if there is one, while the last session writes the file.
#[tactic(auto, using(vol_shared::proofs::Prefixes::all_pushed, vol_shared::proofs::Lists::all_last, vol_shared::proofs::Lists::all_prefix))]
fn watch_last<R: Threads + Wait + Sync>(
    rt: &R,
    alloc: Global,
    shared: &Shared,
    sessions: &mut Vec<Session>,
    views: &mut Vec<View>,
    task: Task,
) -> Option<u64>
    requires some { 0 < length sessions.old.items }
    requires own { All (λ s. s.of ≡ shared.now.of) sessions.old.items }
    requires own_views { All (λ v. shared.now.of.book ≡ Some v.book) views.old.items }
    ensures count { length sessions.new.items ≡ length sessions.old.items }
    ensures own { All (λ s. s.of ≡ shared.now.of) sessions.new.items }
    ensures views { length views.new.items ≡ length views.old.items }
    ensures own_views { All (λ v. shared.now.of.book ≡ Some v.book) views.new.items }
{
    if views.is_empty() {
        return None;
    }
    let view = views.take_last();
    let writer = sessions.take_last();
    let (done, view, writer) = watch_beside(rt, alloc, shared, view, writer, task);
    views.push_reserved(view);
    sessions.push_reserved(writer);
    done
}

/// Makes the task's queries with one session, while another writes the file.
fn ask_beside<R: Threads + Wait + Sync>(
    rt: &R,
    alloc: Global,
    shared: &Shared,
    asker: Session,
    writer: Session,
    task: Task,
) -> (Option<u64>, Session, Session)
    requires asker { asker.of ≡ shared.now.of }
    requires writer { writer.of ≡ shared.now.of }
    ensures asker { result.1.of ≡ shared.now.of }
    ensures writer { result.2.of ≡ shared.now.of }
{
    let Task { count, length, .. } = task;
    let ends = &AtomicBool::new(false);
    let ((done, asker), (wrote, writer)) = thread::join(
        rt,
        move || -> (Option<u64>, Session)
            requires { asker.of ≡ shared.now.of }
            ensures { result.1.of ≡ shared.entry.now.of }
        {
            let mut session = asker;
            let done = ask_session(rt, alloc, shared, &mut session, count);
            ends.store(true, Ordering::SeqCst);
            (done, session)
        },
        move || -> (Option<()>, Session)
            requires { writer.of ≡ shared.now.of }
            ensures { result.1.of ≡ shared.entry.now.of }
        {
            let mut session = writer;
            let wrote = write_on(rt, alloc, shared, &mut session, length, ends);
            (wrote, session)
        },
    );
    (wrote.and(done), asker, writer)
}

/// Makes the task's queries with a view, while a session writes the file.
fn watch_beside<R: Threads + Wait + Sync>(
    rt: &R,
    alloc: Global,
    shared: &Shared,
    view: View,
    writer: Session,
    task: Task,
) -> (Option<u64>, View, Session)
    requires view { shared.now.of.book ≡ Some view.book }
    requires writer { writer.of ≡ shared.now.of }
    ensures view { shared.now.of.book ≡ Some result.1.book }
    ensures writer { result.2.of ≡ shared.now.of }
{
    let Task { count, length, .. } = task;
    let ends = &AtomicBool::new(false);
    let ((done, view), (wrote, writer)) = thread::join(
        rt,
        move || -> (Option<u64>, View)
            requires { shared.now.of.book ≡ Some view.book }
            ensures { shared.entry.now.of.book ≡ Some result.1.book }
        {
            let mut view = view;
            let done = ask_view(alloc, shared, &mut view, count);
            ends.store(true, Ordering::SeqCst);
            (done, view)
        },
        move || -> (Option<()>, Session)
            requires { writer.of ≡ shared.now.of }
            ensures { result.1.of ≡ shared.entry.now.of }
        {
            let mut session = writer;
            let wrote = write_on(rt, alloc, shared, &mut session, length, ends);
            (wrote, session)
        },
    );
    (wrote.and(done), view, writer)
}

/// Makes the task's queries with every fourth view, each on its own thread. The three views between two of them are idle: they separate the two in
/// memory, so that no thread writes where another reads, as if each view were allocated by its thread.
fn ask_all<R: Threads + Sync>(
    rt: &R,
    alloc: Global,
    shared: &Shared,
    views: &mut [View],
    count: u64,
) -> Option<u64>
    requires { All (λ v. shared.now.of.book ≡ Some v.book) views.old }
    ensures count { length views.new ≡ length views.old }
    ensures own { All (λ v. shared.now.of.book ≡ Some v.book) views.new }
{
    let threads = views.len();
    if threads == 0 {
        return None;
    }
    let answered = &AtomicU64::new(0);
    let ask = |number: usize, view: &mut View|
        requires { shared.now.of.book ≡ Some view.old.book }
        ensures { shared.entry.now.of.book ≡ Some view.new.book }
    {
        if number % 4 != 0 {
            return;
        }
        if let Some(done) = ask_view(alloc, shared, view, count) {
            answered.fetch_add(done, Ordering::SeqCst);
        }
    };
    thread::for_each_mut(rt, views, threads, &ask);
    let answered = answered.load(Ordering::SeqCst);
    if answered == count.checked_mul(threads as u64 / 4)? {
        Some(answered)
    } else {
        None
    }
}
