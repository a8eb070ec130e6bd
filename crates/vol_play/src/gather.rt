//! Collects the sessions, the views and the results of all lines after a play.
ghost use Rattle.std.specs.Prelude.{◌≡◌, ◌++◌, ◌∷◌, ◌+◌, ◌<◌, ◌≤◌, [], length, map, vec_len, vec_capacity};
ghost use Rattle.vol_play.specs.Players.{played_by, sessions_of, views_of};

use crate::prepare::Player;
use vol_scripts::Played;
use vol_shared::{Session, View};

/// Moves each player's session or view to the end of its list, and the results of each script to `played`, in order.
pub(crate) fn gather(
    players: Vec<Player>,
    sessions: &mut Vec<Session>,
    views: &mut Vec<View>,
    played: &mut Vec<Vec<Played>>,
)
    requires empty { played.old.items ≡ [] }
    requires sessions { vec_len sessions.old + length (sessions_of players.items) ≤ vec_capacity sessions.old }
    requires views { vec_len views.old + length (views_of players.items) ≤ vec_capacity views.old }
    requires played { vec_len players ≤ vec_capacity played.old }
    ensures sessions { sessions.new.items ≡ sessions.old.items ++ sessions_of players.items }
    ensures views { views.new.items ≡ views.old.items ++ views_of players.items }
    ensures played { played.new.items ≡ map played_by players.items }
{
    'players: for player in players {
        put_back(player, sessions, views, played);
    }
}

/// Moves one player's session or view, and its results, back to their lists.
fn put_back(
    player: Player,
    sessions: &mut Vec<Session>,
    views: &mut Vec<View>,
    played: &mut Vec<Vec<Played>>,
)
    requires sessions { vec_len sessions.old + length (sessions_of (player ∷ [])) ≤ vec_capacity sessions.old }
    requires views { vec_len views.old + length (views_of (player ∷ [])) ≤ vec_capacity views.old }
    requires played { vec_len played.old < vec_capacity played.old }
    ensures sessions { sessions.new.items ≡ sessions.old.items ++ sessions_of (player ∷ []) }
    ensures views { views.new.items ≡ views.old.items ++ views_of (player ∷ []) }
    ensures played { played.new.items ≡ played.old.items ++ played_by player ∷ [] }
    ensures session_room { vec_capacity sessions.new ≡ vec_capacity sessions.old }
    ensures view_room { vec_capacity views.new ≡ vec_capacity views.old }
    ensures played_room { vec_capacity played.new ≡ vec_capacity played.old }
{
    match player {
        Player::Caller {
            session,
            steps: _steps,
            played: came,
        } => {
            sessions.push_reserved(session);
            played.push_reserved(came);
        }
        Player::Viewer {
            view,
            queries: _queries,
            played: came,
        } => {
            views.push_reserved(view);
            played.push_reserved(came);
        }
    }
}
