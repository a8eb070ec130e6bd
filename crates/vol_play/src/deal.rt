//! Assigns a session or a view to each script.
ghost use Rattle.std.specs.Prelude.{◌≡◌, ◌+◌, ◌≤◌, ◌∷◌, [], All, IsTrue, count_by, vec_len, vec_capacity};
ghost use Rattle.vol_shared.specs.Opened.{Opened};
ghost use Rattle.vol_shared.specs.Sessions.{Known};
ghost use Rattle.vol_play.specs.Opened.{fresh_session, IsFreshView};
ghost use Rattle.vol_play.specs.Players.{InPairs, IsDealt, wants_session, wants_view};

use crate::prepare::{Player, Prepared};
use vol_scripts::Script;
use vol_shared::{Session, View};

/// Assigns a session or a view to each script, in order. Sessions that aren't needed stay in `sessions`, and all lists keep their capacity.
pub(crate) fn deal(
    sessions: &mut Vec<Session>,
    views: &mut Vec<View>,
    prepared: Vec<Prepared>,
    players: &mut Vec<Player>,
)
    requires sessions { count_by wants_session prepared.items ≤ vec_len sessions.old }
    requires views { count_by wants_view prepared.items ≡ vec_len views.old }
    requires empty { players.old.items ≡ [] }
    requires room { vec_len prepared ≤ vec_capacity players.old }
    ensures left { vec_len sessions.new + count_by wants_session prepared.items ≡ vec_len sessions.old }
    ensures none_left { views.new.items ≡ [] }
    ensures rooms { (vec_capacity sessions.new ≡ vec_capacity sessions.old) × (vec_capacity views.new ≡ vec_capacity views.old) }
    ensures alike { (fresh : Known) → All (λ s. s ≡ fresh) sessions.old.items → All (λ s. s ≡ fresh) sessions.new.items }
    ensures dealt { (shared : Opened) → All (λ s. s ≡ fresh_session shared) sessions.old.items → All (IsFreshView shared) views.old.items
        → InPairs (IsDealt shared) prepared.items players.new.items }
{
    'scripts: for script in prepared {
        let player = seat(sessions, views, script);
        players.push_reserved(player);
    }
}

/// Assigns a session or a view to a script.
fn seat(sessions: &mut Vec<Session>, views: &mut Vec<View>, prepared: Prepared) -> Player
    requires session { IsTrue (wants_session prepared) → 1 ≤ vec_len sessions.old }
    requires view { IsTrue (wants_view prepared) → 1 ≤ vec_len views.old }
    ensures sessions { vec_len sessions.new + count_by wants_session (prepared ∷ []) ≡ vec_len sessions.old }
    ensures views { vec_len views.new + count_by wants_view (prepared ∷ []) ≡ vec_len views.old }
    ensures rooms { (vec_capacity sessions.new ≡ vec_capacity sessions.old) × (vec_capacity views.new ≡ vec_capacity views.old) }
    ensures alike { (fresh : Known) → All (λ s. s ≡ fresh) sessions.old.items → All (λ s. s ≡ fresh) sessions.new.items }
    ensures fresh_views { (shared : Opened) → All (IsFreshView shared) views.old.items → All (IsFreshView shared) views.new.items }
    ensures dealt { (shared : Opened) → All (λ s. s ≡ fresh_session shared) sessions.old.items → All (IsFreshView shared) views.old.items
        → IsDealt shared prepared result }
{
    let Prepared { script, played } = prepared;
    match script {
        Script::Session(steps) => Player::Caller {
            session: sessions.take_last(),
            steps,
            played,
        },
        Script::View(queries) => Player::Viewer {
            view: views.take_last(),
            queries,
            played,
        },
    }
}
