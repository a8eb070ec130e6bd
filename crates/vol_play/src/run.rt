//! Runs the players, each in its own thread.
ghost use Rattle.std.specs.Prelude.{◌≡◌, ◌<◌, All, length};
ghost use Rattle.vol_play.specs.Players.{InPairs, CanPlay, HasPlayed};

use crate::prepare::Player;
use crate::queries::play_queries;
use crate::steps::play_steps;
use std::alloc::Global;
use std::mem::replace;
use std::sync::Wait;
use std::thread;
use std::thread::Threads;
use vol_check::Gate;
use vol_scripts::Sequence;
use vol_shared::Shared;

impl Player {
    /// Plays the script. Afterwards the player has no line left.
    fn play<R: Wait>(&mut self, rt: &R, alloc: Global, shared: &Shared)
        requires { CanPlay shared.now.of self.old }
        ensures { HasPlayed self.old self.new }
    {
        match self {
            Player::Caller {
                session,
                steps,
                played,
            } => {
                let steps = replace(steps, Sequence::from_vec(Vec::new(alloc)));
                play_steps(rt, alloc, shared, session, steps, played);
            }
            Player::Viewer {
                view,
                queries,
                played,
            } => {
                let queries = replace(queries, Sequence::from_vec(Vec::new(alloc)));
                play_queries(alloc, view, queries, played);
            }
        }
    }
}

/// Runs one thread per player, which plays the player's script; if a thread can't be started, the calling thread plays the script. The gate is called
/// before and after each script.
pub(crate) fn run_all<R: Threads + Wait + Sync, G: Gate>(
    rt: &R,
    alloc: Global,
    gate: &G,
    shared: &Shared,
    players: &mut [Player],
)
    requires some { 0 < length players.old }
    requires can { All (CanPlay shared.now.of) players.old }
    ensures { InPairs HasPlayed players.old players.new }
{
    let count = players.len();
    let run = |number: usize, player: &mut Player|
        requires { CanPlay shared.now.of player.old }
        ensures { HasPlayed player.old player.new }
    {
        let number = number as u64;
        gate.before(number);
        player.play(rt, alloc, shared);
        gate.after(number);
    };
    thread::for_each_mut(rt, players, count, &run);
}
