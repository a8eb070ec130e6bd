//! Plays the lines of a script for a view.
ghost use Rattle.std.specs.Prelude.{◌≡◌, ◌++◌, ◌∷◌, ◌+◌, ◌≤◌, [], length, vec_capacity};
ghost use Rattle.vol_views.specs.Logs.{number_of};
ghost use Rattle.vol_scripts.specs.Endings.{receipts_in};
ghost use Rattle.vol_play.specs.Steps.{CameOfQuery, CameOfView, next_after};

use std::alloc::Global;
use vol_scripts::{Played, Sequence};
use vol_shared::{View, ViewFault};
use vol_volume::Query;

/// Runs the queries of a script, one after another, and appends `Played::View` and then the result of each to the
/// list.
pub(crate) fn play_queries(
    alloc: Global,
    view: &mut View,
    queries: Sequence<Query>,
    played: &mut Vec<Played>,
)
    requires empty { played.old.items ≡ [] }
    requires room { length queries + 1 ≤ vec_capacity played.old }
    ensures came { CameOfView queries (number_of view.old.log) played.new.items }
    ensures book { view.new.book ≡ view.old.book }
    ensures receipts { view.new.receipts ≡ view.old.receipts ++ receipts_in played.new.items }
{
    played.push_reserved(Played::View);
    'queries: for query in queries.into_vec() {
        let came = ask(alloc, view, query);
        played.push_reserved(came);
    }
}

/// Runs one query.
fn ask(alloc: Global, view: &mut View, query: Query) -> Played
    ensures came { CameOfQuery query (number_of view.old.log) result }
    ensures next { next_after (number_of view.old.log) result ≤ number_of view.new.log }
    ensures book { view.new.book ≡ view.old.book }
    ensures receipts { view.new.receipts ≡ view.old.receipts ++ receipts_in (result ∷ []) }
{
    match view.ask(alloc, query) {
        Ok(receipt) => Played::Told(receipt),
        Err((ViewFault::NoMemory, _)) => Played::NoMemory,
        Err((ViewFault::NotEntered, _)) => Played::NotEntered,
    }
}
