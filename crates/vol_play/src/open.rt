//! Opens the volume that scripts share, with views only if a script needs one.
ghost use Rattle.std.specs.Prelude.{◌≤◌, IfOk};
ghost use Rattle.vol_shared.specs.Stored.{stored_of};
ghost use Rattle.vol_play.specs.Opened.{Closes, IsOpened, IsReturned};

use std::alloc::{AllocError, Global};
use std::sync::Wait;
use vol_shared::{Closed, MOST_SESSIONS, MOST_VIEWS, Session, Shared, View};
use vol_volume::Volume;

/// Shares a volume with `sessions` sessions, 1 to [`MOST_SESSIONS`], and `views` views, at most [`MOST_VIEWS`]. If there is no seat for a view, this
/// is reported as out of memory.
///
/// Takes the memory of [`Shared::open`], or, with views, the memory of [`Shared::open_with`].
pub(crate) fn open<R: Wait>(
    rt: &R,
    alloc: Global,
    volume: Volume,
    sessions: usize,
    views: usize,
) -> Result<(Shared, Vec<Session>, Vec<View>), AllocError>
    requires least { 1 ≤ sessions }
    requires most { sessions ≤ MOST_SESSIONS }
    requires most_views { views ≤ MOST_VIEWS }
    ensures { IfOk result (λ (shared, all, seen). IsOpened (stored_of volume) sessions views shared all.items seen.items) }
{
    if views == 0 {
        open_plain(alloc, volume, sessions)
    } else {
        open_published(rt, alloc, volume, sessions, views)
    }
}

/// Shares a volume without views.
fn open_plain(
    alloc: Global,
    volume: Volume,
    sessions: usize,
) -> Result<(Shared, Vec<Session>, Vec<View>), AllocError>
    requires least { 1 ≤ sessions }
    requires most { sessions ≤ MOST_SESSIONS }
    ensures { IfOk result (λ (shared, all, seen). IsOpened (stored_of volume) sessions 0 shared all.items seen.items) }
{
    match Shared::open(alloc, volume, sessions) {
        Ok((shared, all)) => Ok((shared, all, Vec::new(alloc))),
        Err((error, _volume)) => Err(error),
    }
}

/// Shares a volume with at least one view.
fn open_published<R: Wait>(
    rt: &R,
    alloc: Global,
    volume: Volume,
    sessions: usize,
    views: usize,
) -> Result<(Shared, Vec<Session>, Vec<View>), AllocError>
    requires least { 1 ≤ sessions }
    requires most { sessions ≤ MOST_SESSIONS }
    requires least_views { 1 ≤ views }
    requires most_views { views ≤ MOST_VIEWS }
    ensures { IfOk result (λ (shared, all, seen). IsOpened (stored_of volume) sessions views shared all.items seen.items) }
{
    match Shared::open_with(rt, alloc, volume, sessions, views) {
        Ok((shared, all, seen)) => Ok((shared, all, seen)),
        Err((_fault, _volume)) => Err(AllocError),
    }
}

/// Ends the sharing, and takes all sessions and views back.
pub(crate) fn close<R: Wait>(
    rt: &R,
    shared: Shared,
    sessions: Vec<Session>,
    views: Vec<View>,
) -> Closed
    requires { IsReturned shared sessions.items views.items }
    ensures { Closes shared.stored sessions.items views.items result }
{
    if views.is_empty() {
        shared.close(sessions)
    } else {
        shared.close_with(rt, sessions, views)
    }
}
