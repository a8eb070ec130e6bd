//! Plays scripts on a mounted volume.
ghost use Rattle.std.specs.Prelude.{◌≡◌, ◌≤◌, [], map, All, IfOk, count_by, length, max, vec_len, vec_capacity};
ghost use Rattle.vol_shared.specs.Stored.{stored_of, unpublished};
ghost use Rattle.vol_play.specs.Opened.{IsOpened};
ghost use Rattle.vol_play.specs.Play.{ArePlayed};
ghost use Rattle.vol_play.specs.Players.{IsPrepared, is_view, wants_session, wants_view};

use crate::deal::deal;
use crate::gather::gather;
use crate::open::{close, open};
use crate::prepare::Stage;
use crate::run::run_all;
use std::alloc::{AllocError, Global};
use std::sync::Wait;
use std::thread::Threads;
use vol_check::Gate;
use vol_scripts::{Played, Script};
use vol_shared::{MOST_SESSIONS, MOST_VIEWS, Session, Shared, View};
use vol_volume::Volume;

/// Plays scripts on a volume, each with its own session or view, and returns the volume and the results of the scripts' lines. If all scripts are for
/// views, one session is opened and not used. If memory runs out before the first step, nothing is done.
pub(crate) fn play_on<R: Threads + Wait + Sync, G: Gate>(
    rt: &R,
    alloc: Global,
    volume: Volume,
    scripts: Vec<Script>,
    gate: &G,
) -> Result<(Volume, Vec<Vec<Played>>), AllocError>
    requires first { 1 ≤ length scripts.items }
    requires last { length scripts.items ≤ MOST_SESSIONS }
    requires views { count_by is_view scripts.items ≤ MOST_VIEWS }
    ensures { IfOk result (λ made. ArePlayed (stored_of volume) scripts.items made.0 made.1.items) }
{
    let views = count_views(&scripts);
    let sessions = (scripts.len() - views).max(1);
    let stage = Stage::new(alloc, scripts)?;
    let (shared, sessions, views) = open(rt, alloc, volume, sessions, views)?;
    Ok(play_opened(rt, alloc, shared, sessions, views, stage, gate))
}

/// Counts the scripts that are for views.
fn count_views(scripts: &[Script]) -> usize
    ensures { result ≡ count_by is_view scripts.now }
{
    let mut count = 0;
    for script in scripts {
        if is_view(script) {
            count += 1;
        }
    }
    count
}

/// True if a script is for a view.
fn is_view(script: &Script) -> bool
    ensures { result ≡ is_view script.now }
{
    matches!(script, Script::View(_))
}

/// Plays all scripts of a stage on a volume that was just opened, and then closes the volume.
fn play_opened<R: Threads + Wait + Sync, G: Gate>(
    rt: &R,
    alloc: Global,
    shared: Shared,
    mut sessions: Vec<Session>,
    mut views: Vec<View>,
    stage: Stage,
    gate: &G,
) -> (Volume, Vec<Vec<Played>>)
    requires some { 1 ≤ vec_len stage.prepared }
    requires opened { IsOpened (unpublished shared.stored) (max (count_by wants_session stage.prepared.items) 1) (count_by wants_view stage.prepared.items)
        shared sessions.items views.items }
    requires ready { All IsPrepared stage.prepared.items }
    requires empty { (stage.players.items ≡ []) × (stage.played.items ≡ []) }
    requires room { (vec_len stage.prepared ≤ vec_capacity stage.players) × (vec_len stage.prepared ≤ vec_capacity stage.played) }
    ensures { ArePlayed (unpublished shared.stored) (map (λ p. p.script) stage.prepared.items) result.0 result.1.items }
{
    let Stage {
        prepared,
        mut players,
        mut played,
    } = stage;
    deal(&mut sessions, &mut views, prepared, &mut players);
    run_all(rt, alloc, gate, &shared, &mut players);
    gather(players, &mut sessions, &mut views, &mut played);
    let closed = close(rt, shared, sessions, views);
    (closed.into_volume(), played)
}
