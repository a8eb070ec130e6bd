//! The memory for a play. It is taken before the volume is shared, so that only calls and queries can fail afterwards.
ghost use Rattle.std.specs.Prelude.{◌≡◌, ◌∷◌, ◌++◌, [], map, All, IfOk, OnOk, length, vec_len, vec_capacity, ◌≤◌};
ghost use Rattle.vol_play.specs.Players.{IsPrepared, lines_of};

use std::alloc::{AllocError, Global};
use vol_scripts::{Played, Script, ScriptStep, Sequence};
use vol_shared::{Session, View};
use vol_volume::Query;

/// A script to play, with room for the results of its lines.
#[derive(Drop)]
pub(crate) struct Prepared {
    pub(crate) script: Script,
    pub(crate) played: Vec<Played>,
}

/// The player of a script, with the results of the script's lines.
#[derive(Drop)]
pub(crate) enum Player {
    /// A session, which makes calls and queries.
    Caller {
        session: Session,
        steps: Sequence<ScriptStep>,
        played: Vec<Played>,
    },
    /// A view, which makes queries.
    Viewer {
        view: View,
        queries: Sequence<Query>,
        played: Vec<Played>,
    },
}

/// The scripts, with room for their players and for the results of all lines.
#[derive(Drop)]
pub(crate) struct Stage {
    pub(crate) prepared: Vec<Prepared>,
    pub(crate) players: Vec<Player>,
    pub(crate) played: Vec<Vec<Played>>,
}

impl Stage {
    /// Returns a stage for these scripts.
    pub(crate) fn new(alloc: Global, scripts: Vec<Script>) -> Result<Stage, AllocError>
        ensures scripts { IfOk result (λ stage. map (λ p. p.script) stage.prepared.items ≡ scripts.items) }
        ensures ready { IfOk result (λ stage. All IsPrepared stage.prepared.items) }
        ensures empty { IfOk result (λ stage. (stage.players.items ≡ []) × (stage.played.items ≡ [])) }
        ensures room { IfOk result (λ stage. (vec_len stage.prepared ≤ vec_capacity stage.players) × (vec_len stage.prepared ≤ vec_capacity stage.played)) }
    {
        let count = scripts.len();
        let players = Vec::with_capacity(alloc, count)?;
        let played = Vec::with_capacity(alloc, count)?;
        let prepared = prepare(alloc, scripts)?;
        Ok(Stage {
            prepared,
            players,
            played,
        })
    }
}

/// Returns the scripts, each with room for the results of its lines.
fn prepare(alloc: Global, scripts: Vec<Script>) -> Result<Vec<Prepared>, AllocError>
    ensures scripts { IfOk result (λ prepared. map (λ p. p.script) prepared.items ≡ scripts.items) }
    ensures ready { IfOk result (λ prepared. All IsPrepared prepared.items) }
{
    let mut prepared = Vec::new(alloc);
    'scripts: for script in scripts {
        let played = Vec::with_capacity(alloc, lines_of(&script))?;
        push_prepared(&mut prepared, Prepared { script, played })?;
    }
    Ok(prepared)
}

/// Returns the number of results of a script's lines.
fn lines_of(script: &Script) -> usize
    ensures { result ≡ lines_of script.now }
{
    match script {
        Script::Session(steps) => steps.as_slice().len(),
        Script::View(queries) => queries.as_slice().len() + 1,
    }
}

/// Appends a script.
fn push_prepared(all: &mut Vec<Prepared>, prepared: Prepared) -> Result<(), AllocError>
    requires ready { IsPrepared prepared }
    requires all { All IsPrepared all.old.items }
    ensures pushed { OnOk result (all.new.items ≡ all.old.items ++ prepared ∷ []) }
    ensures ready { OnOk result (All IsPrepared all.new.items) }
{
    Ok(all.push(prepared)?)
}
