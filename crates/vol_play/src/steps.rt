//! Plays the lines of a script for a session.
ghost use Rattle.std.specs.Prelude.{◌≡◌, ◌+◌, ◌≤◌, [], length, vec_len, vec_capacity};
ghost use Rattle.vol_play.specs.Steps.{CameOf, CameInTurn, known_after, known_after_all};

use std::alloc::Global;
use std::sync::Wait;
use vol_scripts::{Played, ScriptStep, Sequence};
use vol_shared::{Session, Shared};

/// Runs the steps of a script, one after another, and appends the result of each to the list.
pub(crate) fn play_steps<R: Wait>(
    rt: &R,
    alloc: Global,
    shared: &Shared,
    session: &mut Session,
    steps: Sequence<ScriptStep>,
    played: &mut Vec<Played>,
)
    requires own { session.old.of ≡ shared.now.of }
    requires empty { played.old.items ≡ [] }
    requires room { length steps ≤ vec_capacity played.old }
    ensures came { CameInTurn CameOf steps session.old.next played.new.items }
    ensures known { session.new ≡ known_after_all session.old played.new.items }
{
    'steps: for step in steps.into_vec() {
        let came = play_step(rt, alloc, shared, session, step);
        played.push_reserved(came);
    }
}

/// Runs one step.
fn play_step<R: Wait>(
    rt: &R,
    alloc: Global,
    shared: &Shared,
    session: &mut Session,
    step: ScriptStep,
) -> Played
    requires own { session.old.of ≡ shared.now.of }
    ensures came { CameOf step session.old.next result }
    ensures known { session.new ≡ known_after session.old result }
{
    match step {
        ScriptStep::Change(call) => match shared.call(rt, alloc, session, call) {
            Ok(receipt) => Played::Told(receipt),
            Err(_) => Played::NoMemory,
        },
        ScriptStep::Question(query) => match shared.ask(rt, alloc, session, query) {
            Ok(receipt) => Played::Told(receipt),
            Err(_) => Played::NoMemory,
        },
        ScriptStep::Cut => Played::Cut(shared.cut(rt, session)),
    }
}
